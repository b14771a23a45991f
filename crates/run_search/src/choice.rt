//! Choices: how each process of a node may end, with how few events.
ghost use Rattle.std.specs.Prelude.{◌≡◌, ◌<◌, ◌≤◌, ◌⊎◌, if◌then◌else◌, ℕ, List, IfOk, IfSome, MatchBool, OnOk, Some, length, slice_get, true};
ghost use Rattle.std.specs.List.{Contains, count_by};
ghost use Rattle.room_spec.specs.Rooms.{processes};
ghost use Rattle.run_search.specs.Choices.{AreChoices, AreWithin, HasChoice, IsChoice, MayEnd};
ghost use Rattle.run_search.specs.Nodes.{Covers};
ghost use Rattle.run_search.specs.Outcomes.{ended, ends_in, is_stopped};
ghost use Rattle.run_search.specs.States.{events_of};
ghost use Rattle.run_search.specs.declared.choice.Choice.{Choice as ChoiceValue};
ghost use Rattle.run_search.specs.declared.ended.Ended.{Ended as EndedValue};
ghost use Rattle.run_search.specs.declared.local_state.LocalState.{LocalState as LocalValue};

use crate::ended::{Ended, end_of, has_stopped};
use crate::local_state::{LocalState, events_of};
use crate::node::Node;
use room_spec::Spec;
use std::alloc::{AllocError, Global};

/// How a process of a node may end, and with how many events, and one.
#[derive(Clone, Copy, PartialEq, Eq, Hash)]
pub struct Choice {
    pub end: Ended,
    pub events: u16,
    pub process: u8,
}

/// The choices of a node: for each process and each of its ends, with the fewest events. If no process may stop, the ends of those that do are left out.
///
/// # Errors
///
/// An allocation that fails.
pub fn choices_of(
    alloc: Global,
    spec: &Spec,
    crashes: usize,
    node: &Node,
) -> Result<Vec<Choice>, AllocError>
    requires { length node.now.sets ≡ processes spec.now }
    ensures { IfOk result (λ choices. AreChoices crashes node.now (processes spec.now) choices.items) }
{
    let mut choices = Vec::with_capacity(alloc, 2 * spec.n())?;
    for p in 0..spec.n() {
        add_all(&mut choices, crashes, p, node.set(p))?;
    }
    Ok(choices)
}

/// Adds the choices of process `p`, which has these local states.
fn add_all(
    choices: &mut Vec<Choice>,
    crashes: usize,
    p: usize,
    set: &[LocalState],
) -> Result<(), AllocError>
    requires { p < 256 }
    ensures each { OnOk result ((choice : ChoiceValue) → Contains choices.new.items choice → Contains choices.old.items choice ⊎ ((choice.process ≡ p) × IsChoice set.now choice)) }
    ensures all { OnOk result ((local : LocalValue) → Contains set.now local → MayEnd crashes (ended local.due) → HasChoice choices.new.items p (ended local.due) (events_of local)) }
    ensures kept { OnOk result ((q : ℕ) (end : EndedValue) (events : ℕ) → HasChoice choices.old.items q end events → HasChoice choices.new.items q end events) }
{
    let from = choices.len();
    for local in set {
        let end = end_of(local.due);
        if !may_end(crashes, end) {
            continue;
        }
        let choice = Choice {
            end,
            events: events_of(local) as u16,
            process: p as u8,
        };
        add(choices, from, choice)?;
    }
    Ok(())
}

/// Whether a process may end so, if at most `crashes` stop.
fn may_end(crashes: usize, end: Ended) -> bool
    ensures { MatchBool result (MayEnd crashes end) (MayEnd crashes end → ⊥) }
{
    crashes > 0 || !has_stopped(end)
}

/// Adds a choice. If its process has one with the same end from this index on, the one with fewer events stays.
fn add(choices: &mut Vec<Choice>, from: usize, choice: Choice) -> Result<(), AllocError>
    ensures each { OnOk result ((one : ChoiceValue) → Contains choices.new.items one → Contains choices.old.items one ⊎ (one ≡ choice)) }
    ensures there { OnOk result (HasChoice choices.new.items choice.process choice.end choice.events) }
    ensures kept { OnOk result ((q : ℕ) (end : EndedValue) (events : ℕ) → HasChoice choices.old.items q end events → HasChoice choices.new.items q end events) }
{
    let Some(index) = alike_in(choices.as_slice(), from, &choice) else {
        choices.push(choice)?;
        return Ok(());
    };
    if choice.events < choices[index].events {
        choices[index] = choice;
    }
    Ok(())
}

/// The index, from this one on, of a choice of the same process with the same end.
fn alike_in(choices: &[Choice], from: usize, choice: &Choice) -> Option<usize>
    ensures { IfSome result (λ index. (one : ChoiceValue) × (slice_get choices.now index ≡ Some one) × (one.process ≡ choice.now.process) × (one.end ≡ choice.now.end)) }
{
    for index in from..choices.len() {
        if choices[index].process == choice.process && choices[index].end == choice.end {
            return Some(index);
        }
    }
    None
}

/// Whether each choice is among the others, with no more events there.
pub fn is_within(choices: &[Choice], others: &[Choice]) -> bool
    ensures { result ≡ true → AreWithin choices.now others.now }
{
    for choice in choices {
        if !is_among(choice, others) {
            return false;
        }
    }
    true
}

/// Whether the same process has a choice with the same end among these, and no more events.
fn is_among(choice: &Choice, others: &[Choice]) -> bool
    ensures { result ≡ true → HasChoice others.now choice.now.process choice.now.end choice.now.events }
{
    for other in others {
        let alike = other.process == choice.process && other.end == choice.end;
        if alike && other.events <= choice.events {
            return true;
        }
    }
    false
}

/// No more processes than stop in any state that the node covers.
pub fn fewest_stops(spec: &Spec, node: &Node) -> usize
    requires { length node.now.sets ≡ processes spec.now }
    ensures { (state : List LocalValue) → Covers spec.now node.now state → result ≤ count_by is_stopped (ends_in state) }
{
    let mut sum = 0;
    for p in 0..spec.n() {
        sum += stops_of(node.set(p));
    }
    sum
}

/// 1 if a process stops in each of these local states, and 0 if not.
fn stops_of(set: &[LocalState]) -> usize
    ensures fewest { (local : LocalValue) → Contains set.now local → result ≤ (if is_stopped (ended local.due) then 1 else 0) }
    ensures few { result ≤ 1 }
{
    for local in set {
        if !has_stopped(end_of(local.due)) {
            return 0;
        }
    }
    1
}
