//! Whether the outcomes of a sample keep the room's task.
ghost use Rattle.std.specs.Prelude.{◌≡◌, ◌≤◌, ◌==◌, option_map};
ghost use Rattle.std.specs.List.{list_all, list_any, sum_by};
ghost use Rattle.room_sample.specs.Samples.{counted_of};
ghost use Rattle.view_sample.specs.Tasks.{decides_input, first_broken, given_inputs, is_this, keeps_task, times_broken, times_if_broken};

use crate::counts::values_in;
use room_sample::{Outcome, States, Tally};
use room_spec::Spec;
use ws_history::ProcessState;

/// Whether each value that is decided is an input that the room's block gives, and no more of them are different than the room's task allows. A room without a task
/// has none to break.
fn keeps_task(spec: &Spec, states: &[ProcessState]) -> bool
    ensures { result ≡ keeps_task spec.now states.now }
{
    match spec.task() {
        None => true,
        Some(most) => values_in(states) <= usize::from(most) && decide_inputs(spec, states),
    }
}

/// Whether each value that is decided is one of the inputs.
fn decide_inputs(spec: &Spec, states: &[ProcessState]) -> bool
    ensures { result ≡ list_all (decides_input spec.now) states.now }
{
    states.iter().all(|state| decides_input(spec, *state))
}

/// Whether what the process has decided, if it has, is one of the inputs.
fn decides_input(spec: &Spec, state: ProcessState) -> bool
    ensures { result ≡ decides_input spec.now state }
{
    match state {
        ProcessState::Decided(v) => has_given(spec, v),
        ProcessState::Spent | ProcessState::Held(_) | ProcessState::Going => true,
    }
}

/// Whether the room's block gives this input: to a process, or in a reduction to a simulator.
fn has_given(spec: &Spec, value: u32) -> bool
    ensures { result ≡ list_any (λ input. input == value) (given_inputs spec.now) }
{
    if spec.is_reduction() {
        has_own(spec, value)
    } else {
        spec.has_input(value)
    }
}

/// Whether a simulator of a reduction has this input.
fn has_own(spec: &Spec, value: u32) -> bool
    ensures { result ≡ list_any (λ input. input == value) spec.now.own }
{
    let _ = spec.shape(); // for the proof: there are no more own inputs than simulators
    let mut found = false;
    for i in 0..spec.m() {
        found |= is_this(spec.own(i), value);
    }
    found
}

fn is_this(own: Option<u32>, value: u32) -> bool
    ensures { result ≡ is_this own value }
{
    match own {
        Some(own) => own == value,
        None => false,
    }
}

/// How many schedules, of at most `most`, led to an outcome that breaks the task.
pub(crate) fn times_broken(spec: &Spec, outcomes: &Tally, most: u32) -> u32
    requires { sum_by (λ one. one.times) outcomes.now ≤ most }
    ensures { result ≡ times_broken spec.now outcomes.now }
{
    let mut broken = 0;
    for index in 0..outcomes.len() {
        let Some((states, outcome)) = outcomes.get(index) else {
            unreachable!() // there is an outcome of each index below their number
        };
        broken += times_if_broken(spec, states, outcome);
    }
    broken
}

/// How many schedules led to this outcome, if it breaks the task.
fn times_if_broken(spec: &Spec, states: &States, outcome: &Outcome) -> u32
    ensures { result ≡ times_if_broken spec.now (counted_of (states.now, outcome.now)) }
{
    if keeps_task(spec, states.as_slice()) {
        0
    } else {
        outcome.times
    }
}

/// The first outcome that breaks the task.
pub(crate) fn first_broken<'a>(
    spec: &Spec,
    outcomes: &'a Tally,
) -> Option<(&'a States, &'a Outcome)>
    ensures { option_map (λ one. counted_of (one.0.now, one.1.now)) result ≡ first_broken spec.now outcomes.now }
{
    for index in 0..outcomes.len() {
        let Some((states, outcome)) = outcomes.get(index) else {
            unreachable!() // there is an outcome of each index below their number
        };
        if !keeps_task(spec, states.as_slice()) {
            return Some((states, outcome));
        }
    }
    None
}
