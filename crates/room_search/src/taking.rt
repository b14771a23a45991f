//! Outcomes, taken from one node after the other.
ghost use Rattle.std.specs.Prelude.{◌≡◌, ◌+◌, ◌<◌, ◌≤◌, ◌⊎◌, ℕ, IfOk, IfSome, List, OnOk, Some, length, slice_get, true};
ghost use Rattle.std.specs.List.{Contains};
ghost use Rattle.room_spec.specs.Rooms.{RoomSpec};
ghost use Rattle.room_core.specs.Calls.{RoomState, configuration_of};
ghost use Rattle.room_outcomes.specs.Ends.{end_of, ends_of};
ghost use Rattle.room_search.specs.Beginnings.{begun};
ghost use Rattle.room_search.specs.Ends.{ends_by};
ghost use Rattle.room_search.specs.Nodes.{IsNode, Node as NodeValue};
ghost use Rattle.room_search.specs.Reaching.{IsFound, outcome_of};
ghost use Rattle.room_search.specs.Saying.{DoSay};
ghost use Rattle.room_search.specs.Searches.{IsSearched};
ghost use Rattle.room_search.specs.Steps.{AreWords};
ghost use Rattle.room_search.specs.Taking.{AreFoundFrom, AreKept, Includes, IsSettledFrom, IsTaken, IsTaking};
ghost use Rattle.room_search.specs.declared.reached.Reached.{Reached as ReachedValue};

use crate::beginning::{Beginning, crash_count, room_after};
use crate::choice::{Choice, Source, fewest_crashed};
use crate::ends::ends_said;
use crate::node::Node;
use crate::premise::{add, has};
use crate::reached::Reached;
use crate::running::settled_from;
use crate::subject::Subject;
use indexmap::IndexSet;
use room_sample::{Settled, States, Stretch};
use run_search::{Ended, Ends};
use std::alloc::{AllocError, Global};
use ws_history::{ProcessState, process_states};

/// The outcomes that were found so far, each once.
#[derive(Drop)]
pub struct Taking {
    pub ends: IndexSet<Ends>,
    pub outcomes: Vec<Reached>,
}

impl Taking {
    /// Nothing was taken so far.
    pub fn nothing(alloc: Global) -> Taking
        ensures { (spec : RoomSpec) (start : RoomState) (crashes : ℕ) → IsTaking spec start crashes result }
    {
        Taking {
            ends: IndexSet::new(alloc),
            outcomes: Vec::new(alloc),
        }
    }

    /// Takes the outcomes of the rooms of the node of this index, in which all but `crashes` simulators can go no further. Gives whether all are found: no schedule may
    /// be found to one that isn't yet.
    ///
    /// # Errors
    ///
    /// An allocation that fails.
    pub fn take(&mut self, source: &Source<'_>, index: usize) -> Result<bool, AllocError>
        requires searched { IsSearched source.now.subject.now.spec.now source.now.explored.now }
        requires taking { IsTaking source.now.subject.now.spec.now (begun source.now.subject.now.spec.now source.now.subject.now.acts.now) source.now.crashes self.old }
        ensures taking { OnOk result (IsTaking source.now.subject.now.spec.now (begun source.now.subject.now.spec.now source.now.subject.now.acts.now) source.now.crashes self.new) }
        ensures grown { OnOk result (Includes self.old.outcomes.items self.new.outcomes.items) }
        ensures taken { IfOk result (λ is_found. is_found ≡ true → (node : NodeValue) → slice_get source.now.explored.now.nodes.items index ≡ Some node →
            IsTaken source.now.subject.now.spec.now (configuration_of source.now.subject.now.start.now) source.now.crashes source.now.explored.now.moves.table.keys self.new.outcomes.items node) }
    {
        let Some(node) = source.explored.nodes.get(index) else {
            return Ok(true);
        };
        if fewest_crashed(source, node) > source.crashes {
            return Ok(true);
        }
        let none = Choice::none(source, node, index)?;
        let all = self.take_from(source, node, &none)?;
        Ok(all)
    }

    /// Takes the outcomes of those rooms of a node in which its first simulators are where they were chosen to be.
    fn take_from(
        &mut self,
        source: &Source<'_>,
        node: &Node,
        choice: &Choice,
    ) -> Result<bool, AllocError>
        requires searched { IsSearched source.now.subject.now.spec.now source.now.explored.now }
        requires taking { IsTaking source.now.subject.now.spec.now (begun source.now.subject.now.spec.now source.now.subject.now.acts.now) source.now.crashes self.old }
        requires node { IsNode source.now.subject.now.spec.now source.now.explored.now.moves.table.keys node.now }
        requires said { AreWords source.now.subject.now.spec.now choice.now.said.items }
        requires few { length choice.now.numbers.items ≤ source.now.subject.now.spec.now.simulators }
        ensures taking { OnOk result (IsTaking source.now.subject.now.spec.now (begun source.now.subject.now.spec.now source.now.subject.now.acts.now) source.now.crashes self.new) }
        ensures grown { OnOk result (Includes self.old.outcomes.items self.new.outcomes.items) }
        ensures taken { IfOk result (λ is_found. is_found ≡ true → (count : ℕ) → length choice.now.numbers.items + count ≡ source.now.subject.now.spec.now.simulators →
            AreFoundFrom source.now.subject.now.spec.now (configuration_of source.now.subject.now.start.now) source.now.explored.now.moves.table.keys self.new.outcomes.items node.now (length choice.now.numbers.items) count choice.now.left choice.now.said.items) }
    {
        if choice.is_whole(source) {
            let found = self.take_one(source, choice)?;
            return Ok(found);
        }
        let mut all = true;
        let mut before = IndexSet::new(source.subject.alloc);
        for place in 0..choice.next_set(node).len() {
            let chosen = choice.with(source, node, place)?;
            let Some(next) = chosen else {
                continue;
            };
            let premise = next.premise(source)?;
            if has(&before, &premise) {
                continue;
            }
            let found = self.take_from(source, node, &next)?;
            all = are_both(all, found);
            add(&mut before, premise)?;
        }
        Ok(all)
    }

    /// Takes the outcome of the rooms in which all simulators are where they were chosen to be.
    fn take_one(&mut self, source: &Source<'_>, choice: &Choice) -> Result<bool, AllocError>
        requires searched { IsSearched source.now.subject.now.spec.now source.now.explored.now }
        requires taking { IsTaking source.now.subject.now.spec.now (begun source.now.subject.now.spec.now source.now.subject.now.acts.now) source.now.crashes self.old }
        requires said { AreWords source.now.subject.now.spec.now choice.now.said.items }
        ensures taking { OnOk result (IsTaking source.now.subject.now.spec.now (begun source.now.subject.now.spec.now source.now.subject.now.acts.now) source.now.crashes self.new) }
        ensures grown { OnOk result (Includes self.old.outcomes.items self.new.outcomes.items) }
        ensures taken { IfOk result (λ is_found. is_found ≡ true → (words : List ℕ) → DoSay choice.now.said.items words →
            IsFound self.new.outcomes.items (ends_by source.now.subject.now.spec.now words)) }
    {
        let ended = ends_said(source.subject, choice.said.as_slice())?;
        let Some(ends) = ended else {
            return Ok(false);
        };
        if self.has(&ends) {
            return Ok(true);
        }
        self.run_to(source, choice)?;
        Ok(self.has(&ends))
    }

    /// Whether this outcome is found.
    fn has(&self, ends: &Ends) -> bool
        requires { AreKept self.now.ends.keys self.now.outcomes.items }
        ensures { result ≡ true → IsFound self.now.outcomes.items ends.now.items }
    {
        self.ends.contains(ends)
    }

    /// Runs a room that is to come where the simulators were chosen to be, and notes its outcome.
    fn run_to(&mut self, source: &Source<'_>, choice: &Choice) -> Result<(), AllocError>
        requires searched { IsSearched source.now.subject.now.spec.now source.now.explored.now }
        requires taking { IsTaking source.now.subject.now.spec.now (begun source.now.subject.now.spec.now source.now.subject.now.acts.now) source.now.crashes self.old }
        ensures taking { OnOk result (IsTaking source.now.subject.now.spec.now (begun source.now.subject.now.spec.now source.now.subject.now.acts.now) source.now.crashes self.new) }
        ensures grown { OnOk result (Includes self.old.outcomes.items self.new.outcomes.items) }
    {
        let schedule = choice.schedule(source)?;
        let run = settled_by(source.subject, source.crashes, schedule.as_slice())?;
        let Some(settled) = run else {
            return Ok(());
        };
        self.note(source, settled)
    }

    /// Notes the outcome of a room.
    fn note(&mut self, source: &Source<'_>, settled: Settled) -> Result<(), AllocError>
        requires settled { IsSettledFrom (begun source.now.subject.now.spec.now source.now.subject.now.acts.now) source.now.crashes settled.schedule.items settled.room }
        requires taking { IsTaking source.now.subject.now.spec.now (begun source.now.subject.now.spec.now source.now.subject.now.acts.now) source.now.crashes self.old }
        ensures taking { OnOk result (IsTaking source.now.subject.now.spec.now (begun source.now.subject.now.spec.now source.now.subject.now.acts.now) source.now.crashes self.new) }
        ensures grown { OnOk result (Includes self.old.outcomes.items self.new.outcomes.items) }
    {
        let _shape = source.subject.spec.shape(); // for the proof: the room is within its limits
        let _spec = settled.room.spec(); // for the proof: it has fields
        let states = process_states(&settled.room);
        self.keep(states, settled.schedule)?;
        Ok(())
    }

    /// Keeps an outcome, unless it is there.
    fn keep(&mut self, states: States, schedule: Vec<Stretch>) -> Result<(), AllocError>
        requires { AreKept self.old.ends.keys self.old.outcomes.items }
        ensures kept { OnOk result (AreKept self.new.ends.keys self.new.outcomes.items) }
        ensures found { OnOk result (IsFound self.new.outcomes.items (ends_of states.items)) }
        ensures grown { OnOk result (Includes self.old.outcomes.items self.new.outcomes.items) }
        ensures new { OnOk result ((other : ReachedValue) → Contains self.new.outcomes.items other →
            Contains self.old.outcomes.items other ⊎ ((other.states ≡ states) × (other.schedule ≡ schedule))) }
    {
        let (_, added) = self.ends.insert_full(ends_of(&states))?;
        if !added {
            return Ok(());
        }
        self.outcomes.push(Reached { states, schedule })?;
        Ok(())
    }
}

/// The room at the start, run by a schedule and settled. `None` if more than `crashes` simulators have crashed at the start.
fn settled_by(
    subject: &Subject<'_>,
    crashes: u32,
    schedule: &[Stretch],
) -> Result<Option<Settled>, AllocError>
    ensures { IfOk result (λ settled. IfSome settled (λ one. IsSettledFrom (begun subject.now.spec.now subject.now.acts.now) crashes one.schedule.items one.room)) }
{
    let from = Beginning {
        spec: subject.spec,
        acts: subject.acts,
    };
    let start = room_after(subject.alloc, &from)?;
    let Some(left) = crashes.checked_sub(crash_count(&start)) else {
        return Ok(None);
    };
    let settled = settled_from(subject.alloc, start, left, schedule)?;
    Ok(Some(settled))
}

fn are_both(one: bool, other: bool) -> bool
    ensures { result ≡ true → (one ≡ true) × (other ≡ true) }
{
    one && other
}

/// How the processes end in an outcome.
pub fn ends_in(reached: &Reached) -> Ends
    ensures { result.items ≡ outcome_of reached.now }
{
    ends_of(&reached.states)
}

/// How the processes end: one that is held or still going counts as stopped.
fn ends_of(states: &States) -> Ends
    ensures { result.items ≡ ends_of states.now.items }
{
    let all = states.as_slice();
    let mut ends = Ends::new();
    for state in all {
        ends.push(end_of(*state));
    }
    ends
}

fn end_of(state: ProcessState) -> Ended
    ensures { result ≡ end_of state }
{
    match state {
        ProcessState::Decided(value) => Ended::Decided(value),
        ProcessState::Spent => Ended::Spent,
        ProcessState::Held(_) | ProcessState::Going => Ended::Stopped,
    }
}
