//! Picks: states of a node, one local state for each process.
ghost use Rattle.std.specs.Prelude.{◌≡◌, ◌<◌, ◌≤◌, ◌⊎◌, ◌∷◌, ◌+◌, ◌++◌, [], ℕ, List, IfOk, IfSome, OnOk, Some, length, slice_get, true};
ghost use Rattle.std.specs.List.{Contains};
ghost use Rattle.room_spec.specs.Rooms.{processes};
ghost use Rattle.run_search.specs.Nodes.{Covers};
ghost use Rattle.run_search.specs.Outcomes.{ended, ends_in};
ghost use Rattle.run_search.specs.Picks.{AreLeast, ArePicks, HasStandIn, IsLeast, IsLeastSoFar, IsSame};
ghost use Rattle.run_search.specs.States.{State as StateValue, events_in, events_of};
ghost use Rattle.run_search.specs.declared.local_state.LocalState.{LocalState as LocalValue};

use crate::ended::{Ended, Ends, end_of};
use crate::local_state::{LocalState, State, events_of};
use crate::node::Node;
use crate::task::is_same_task;
use room_spec::Spec;
use std::alloc::{AllocError, Global};

/// Picks of the node, of which one decides the same values as each pick does, or breaks the task as it does, with no more events. The task allows
/// `most` different values.
///
/// # Errors
///
/// An allocation that fails.
pub fn picks_of(
    alloc: Global,
    spec: &Spec,
    most: usize,
    node: &Node,
) -> Result<Vec<State>, AllocError>
    requires { length node.now.sets ≡ processes spec.now }
    ensures { IfOk result (λ picks. ArePicks spec.now most node.now (processes spec.now) picks.items) }
{
    let mut picks = Vec::new(alloc);
    picks.push(State::new())?;
    for p in 0..spec.n() {
        let options = least_of(alloc, node.set(p))?;
        picks = extended(alloc, spec, most, picks.as_slice(), options.as_slice())?;
    }
    Ok(picks)
}

/// Of local states with the same end those with the fewest events, one for each end.
fn least_of(alloc: Global, set: &[LocalState]) -> Result<Vec<LocalState>, AllocError>
    ensures { IfOk result (λ options. AreLeast set.now options.items) }
{
    let mut options = Vec::new(alloc);
    for local in set {
        add_least(&mut options, set, end_of(local.due))?;
    }
    Ok(options)
}

/// Adds the local state of the set with this end and the fewest events, unless one with this end is there.
fn add_least(
    options: &mut Vec<LocalState>,
    set: &[LocalState],
    end: Ended,
) -> Result<(), AllocError>
    requires { (local : LocalValue) × Contains set.now local × (ended local.due ≡ end) }
    ensures each { OnOk result ((option : LocalValue) → Contains options.new.items option → Contains options.old.items option ⊎ IsLeast set.now end option) }
    ensures there { OnOk result ((option : LocalValue) × Contains options.new.items option × (ended option.due ≡ end)) }
    ensures kept { OnOk result ((option : LocalValue) → Contains options.old.items option → Contains options.new.items option) }
{
    if has_end(options.as_slice(), end) {
        return Ok(());
    }
    options.push(least_with(set, end))?;
    Ok(())
}

/// Whether one of the local states has this end.
fn has_end(options: &[LocalState], end: Ended) -> bool
    ensures { result ≡ true → (option : LocalValue) × Contains options.now option × (ended option.due ≡ end) }
{
    for option in options {
        if end_of(option.due) == end {
            return true;
        }
    }
    false
}

/// The local state with this end and the fewest events.
pub fn least_with(set: &[LocalState], end: Ended) -> LocalState
    requires { (local : LocalValue) × Contains set.now local × (ended local.due ≡ end) }
    ensures { IsLeast set.now end result }
{
    let mut least = None;
    for local in set {
        least = lesser(least, *local, end);
    }
    match least {
        Some(local) => local,
        None => unreachable!(), // one of them has this end
    }
}

/// Of the least local state with this end so far, and one more, the one with fewer events.
fn lesser(least: Option<LocalState>, local: LocalState, end: Ended) -> Option<LocalState>
    ensures { (set : List LocalValue) (count : ℕ) → slice_get set count ≡ Some local → IsLeastSoFar set end count least → IsLeastSoFar set end (count + 1) result }
{
    if end_of(local.due) != end {
        return least;
    }
    let Some(one) = least else {
        return Some(local);
    };
    if events_of(&one) <= events_of(&local) {
        Some(one)
    } else {
        Some(local)
    }
}

/// The picks with one process more, which is in one of these local states.
fn extended(
    alloc: Global,
    spec: &Spec,
    most: usize,
    picks: &[State],
    options: &[LocalState],
) -> Result<Vec<State>, AllocError>
    requires { (i : ℕ) (pick : StateValue) → slice_get picks.now i ≡ Some pick → length pick.items < 16 }
    ensures each { IfOk result (λ new. (one : StateValue) → Contains new.items one →
        (pick : StateValue) × Contains picks.now pick × (option : LocalValue) × Contains options.now option × (one.items ≡ pick.items ++ option ∷ [])) }
    ensures all { IfOk result (λ new. (pick : StateValue) (option : LocalValue) → Contains picks.now pick → Contains options.now option →
        HasStandIn spec.now most new.items (pick.items ++ option ∷ [])) }
{
    let mut new = Vec::new(alloc);
    for pick in picks {
        extend_one(spec, most, &mut new, pick, options)?;
    }
    Ok(new)
}

/// Adds the picks that extend one by one of these local states.
fn extend_one(
    spec: &Spec,
    most: usize,
    picks: &mut Vec<State>,
    pick: &State,
    options: &[LocalState],
) -> Result<(), AllocError>
    requires { length pick.now.items < 16 }
    ensures each { OnOk result ((one : StateValue) → Contains picks.new.items one →
        Contains picks.old.items one ⊎ ((option : LocalValue) × Contains options.now option × (one.items ≡ pick.now.items ++ option ∷ []))) }
    ensures all { OnOk result ((option : LocalValue) → Contains options.now option → HasStandIn spec.now most picks.new.items (pick.now.items ++ option ∷ [])) }
    ensures kept { OnOk result ((state : List LocalValue) → HasStandIn spec.now most picks.old.items state → HasStandIn spec.now most picks.new.items state) }
{
    for option in options {
        add(spec, picks, most, with(pick, *option))?;
    }
    Ok(())
}

/// The pick with one process more, which is in this local state.
fn with(pick: &State, local: LocalState) -> State
    requires { length pick.now.items < 16 }
    ensures { result.items ≡ pick.now.items ++ local ∷ [] }
{
    let mut one = copied(pick);
    one.push(local);
    one
}

/// The same state once more.
pub fn copied(state: &State) -> State
    ensures { result.items ≡ state.now.items }
{
    let mut copy = State::new();
    let Ok(()) = copy.try_extend_from_slice(state.as_slice()) else {
        unreachable!() // both have the same capacity
    };
    copy
}

/// Adds a pick; of two that decide the same values, or both break the task, the one with fewer events stays.
fn add(spec: &Spec, picks: &mut Vec<State>, most: usize, pick: State) -> Result<(), AllocError>
    ensures each { OnOk result ((one : StateValue) → Contains picks.new.items one → Contains picks.old.items one ⊎ (one ≡ pick)) }
    ensures there { OnOk result (HasStandIn spec.now most picks.new.items pick.items) }
    ensures kept { OnOk result ((state : List LocalValue) → HasStandIn spec.now most picks.old.items state → HasStandIn spec.now most picks.new.items state) }
{
    let Some(index) = same_task_in(spec, picks.as_slice(), most, &pick) else {
        picks.push(pick)?;
        return Ok(());
    };
    if events_in(&pick) < events_in(&picks[index]) {
        picks[index] = pick;
    }
    Ok(())
}

/// The index of a pick that decides the same values, or breaks the task as this one does.
fn same_task_in(spec: &Spec, picks: &[State], most: usize, pick: &State) -> Option<usize>
    ensures { IfSome result (λ index. (one : StateValue) × (slice_get picks.now index ≡ Some one) × IsSame spec.now most one.items pick.now.items) }
{
    for index in 0..picks.len() {
        if is_same_task(spec, most, &picks[index], pick) {
            return Some(index);
        }
    }
    None
}

/// How many events lead to a state, and one more for each process.
pub fn events_in(state: &State) -> usize
    ensures { result ≡ events_in state.now.items }
{
    let mut sum = 0;
    for local in state.as_slice() {
        sum += events_of(local);
    }
    sum
}

/// Of the states of the node that have this outcome, one with the fewest events.
pub fn least_state(spec: &Spec, node: &Node, ends: &Ends) -> State
    requires width { length node.now.sets ≡ processes spec.now }
    requires some { (state : List LocalValue) × Covers spec.now node.now state × (ends.now.items ≡ ends_in state) }
    ensures covers { Covers spec.now node.now result.items }
    ensures ends { ends.now.items ≡ ends_in result.items }
    ensures least { (state : List LocalValue) → Covers spec.now node.now state → ends.now.items ≡ ends_in state → events_in result.items ≤ events_in state }
{
    let mut least = State::new();
    for p in 0..spec.n() {
        least.push(least_with(node.set(p), ends.as_slice()[p]));
    }
    least
}
