//! Adds outcomes of later schedules to those so far.
ghost use Rattle.std.specs.Prelude.{◌≡◌, ◌+◌, ◌<◌, ◌^◌, IfOk, OnOk, length, map};
ghost use Rattle.std.specs.List.{sum_by};
ghost use Rattle.room_sample.specs.Shown.{shown_of};
ghost use Rattle.view_sum.specs.Adding.{ArePatterns, more_at, pattern_by, state_by, with_outcome, with_outcomes};

use indexmap::IndexSet;
use room_sample::{Example, States, Stretch};
use std::alloc::{AllocError, Global};
use ws_history::ProcessState;

/// Adds outcomes of later schedules to those so far. The outcome of an index is known by the pattern of that index.
pub(crate) fn add_outcomes(
    alloc: Global,
    grouped: bool,
    patterns: &mut IndexSet<States>,
    outcomes: &mut Vec<Example>,
    later: &[Example],
) -> Result<(), AllocError>
    requires patterns { ArePatterns grouped (map shown_of outcomes.old.items) patterns.old.keys }
    requires few { sum_by (λ one. one.times) outcomes.old.items + sum_by (λ one. one.times) later.now < 2 ^ 32 }
    ensures outcomes { OnOk result (map shown_of outcomes.new.items ≡ with_outcomes grouped (map shown_of outcomes.old.items) (map shown_of later.now)) }
    ensures patterns { OnOk result (ArePatterns grouped (map shown_of outcomes.new.items) patterns.new.keys) }
    ensures total { OnOk result (sum_by (λ one. one.times) outcomes.new.items ≡ sum_by (λ one. one.times) outcomes.old.items + sum_by (λ one. one.times) later.now) }
{
    for one in later {
        add_outcome(alloc, grouped, patterns, outcomes, one)?;
    }
    Ok(())
}

/// Adds an outcome. If it has come before, it keeps the schedule that it has, and the number of its first one.
fn add_outcome(
    alloc: Global,
    grouped: bool,
    patterns: &mut IndexSet<States>,
    outcomes: &mut Vec<Example>,
    one: &Example,
) -> Result<(), AllocError>
    requires patterns { ArePatterns grouped (map shown_of outcomes.old.items) patterns.old.keys }
    requires few { sum_by (λ one. one.times) outcomes.old.items + one.now.times < 2 ^ 32 }
    ensures outcomes { OnOk result (map shown_of outcomes.new.items ≡ with_outcome grouped (shown_of one.now) (map shown_of outcomes.old.items)) }
    ensures patterns { OnOk result (ArePatterns grouped (map shown_of outcomes.new.items) patterns.new.keys) }
    ensures total { OnOk result (sum_by (λ one. one.times) outcomes.new.items ≡ sum_by (λ one. one.times) outcomes.old.items + one.now.times) }
{
    let pattern = pattern_by(grouped, &one.states);
    let Some(index) = patterns.get_index_of(&pattern) else {
        patterns.insert(pattern)?;
        outcomes.push(copy_of(alloc, one)?)?;
        return Ok(());
    };
    come_again(outcomes, index, one.times);
    Ok(())
}

/// Counts the outcome of an index this many times more.
fn come_again(outcomes: &mut Vec<Example>, index: usize, times: u32)
    requires within { index < length outcomes.old.items }
    requires few { sum_by (λ one. one.times) outcomes.old.items + times < 2 ^ 32 }
    ensures more { map shown_of outcomes.new.items ≡ more_at index times (map shown_of outcomes.old.items) }
{
    outcomes[index].times += times;
}

/// An outcome, once more.
fn copy_of(alloc: Global, one: &Example) -> Result<Example, AllocError>
    ensures { IfOk result (λ copy. shown_of copy ≡ shown_of one.now) }
{
    Ok(Example {
        states: one.states.clone()?,
        times: one.times,
        first: one.first,
        schedule: schedule_of(alloc, one.schedule.as_slice())?,
    })
}

/// A schedule, once more.
fn schedule_of(alloc: Global, schedule: &[Stretch]) -> Result<Vec<Stretch>, AllocError>
    ensures { IfOk result (λ copy. copy.items ≡ schedule.now) }
{
    Vec::from_slice(alloc, schedule)
}

/// What an outcome is known by: in groups, the states of the processes, whichever simulators hold.
fn pattern_by(grouped: bool, states: &States) -> States
    ensures { result.items ≡ pattern_by grouped states.now.items }
{
    let states = states.as_slice();
    let mut pattern = States::new();
    for at in 0..states.len() {
        pattern.push(shown_by(grouped, states[at]));
    }
    pattern
}

/// The state of a process, in groups whichever simulator holds it.
fn shown_by(grouped: bool, state: ProcessState) -> ProcessState
    ensures { result ≡ state_by grouped state }
{
    match state {
        ProcessState::Held(_) if grouped => ProcessState::Held(0),
        _ => state,
    }
}
