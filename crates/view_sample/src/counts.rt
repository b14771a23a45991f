//! How many values are decided in an outcome, and how many processes are held.
ghost use Rattle.std.specs.Prelude.{◌≡◌, ◌≤◌, ◌&&◌, not};
ghost use Rattle.std.specs.List.{list_any};
ghost use Rattle.ws_history.specs.Reports.{is_decided};
ghost use Rattle.ws_history.specs.contracts.states.ProcessStatePartialEq.TheImpl.{ghosts};
ghost use Rattle.room_sample.specs.Samples.{counted_of};
ghost use Rattle.view_sample.specs.Counts.{held_in, most_of, once_in, one_if_once, values_in};

use room_sample::{Outcome, States, Tally};
use ws_history::ProcessState;

/// The most different values that any outcome has, and the most held processes.
pub(crate) fn most_of(outcomes: &Tally) -> (usize, usize)
    ensures values { result.0 ≡ most_of values_in outcomes.now }
    ensures held { result.1 ≡ most_of held_in outcomes.now }
{
    let mut values = 0;
    let mut held = 0;
    for index in 0..outcomes.len() {
        let Some((states, _)) = outcomes.get(index) else {
            unreachable!() // there is an outcome of each index below their number
        };
        values = values_in(states.as_slice()).max(values);
        held = held_in(states.as_slice()).max(held);
    }
    (values, held)
}

/// How many outcomes came only once.
pub(crate) fn once_in(outcomes: &Tally) -> usize
    ensures { result ≡ once_in outcomes.now }
{
    let mut once = 0;
    for index in 0..outcomes.len() {
        let Some((states, outcome)) = outcomes.get(index) else {
            unreachable!() // there is an outcome of each index below their number
        };
        once += one_if_once(states, outcome);
    }
    once
}

fn one_if_once(states: &States, outcome: &Outcome) -> usize
    ensures value { result ≡ one_if_once (counted_of (states.now, outcome.now)) }
    ensures few { result ≤ 1 }
{
    let _ = states;
    if outcome.times == 1 { 1 } else { 0 }
}

/// How many different values are decided.
pub fn values_in(states: &[ProcessState]) -> usize
    ensures { result ≡ values_in states.now }
{
    let mut count = 0;
    for at in 0..states.len() {
        if is_last_to_decide(states[at], &states[at + 1..]) {
            count += 1;
        }
    }
    count
}

/// Whether a process has decided a value that none of these has.
fn is_last_to_decide(state: ProcessState, later: &[ProcessState]) -> bool
    ensures { result ≡ (is_decided state && not (list_any (ghosts.eq state) later.now)) }
{
    matches!(state, ProcessState::Decided(_)) && !later.contains(&state)
}

/// How many processes are held.
fn held_in(states: &[ProcessState]) -> usize
    ensures { result ≡ held_in states.now }
{
    states
        .iter()
        .filter(|state| matches!(state, ProcessState::Held(_)))
        .count()
}
