//! Outcomes, each with a node that has it.
ghost use Rattle.std.specs.Prelude.{◌≡◌, ◌<◌, ◌≤◌, ◌*◌, ℕ, List, IfOk, OnOk, Some, length, slice_get, true};
ghost use Rattle.std.specs.Global.{Vec as VecValue};
ghost use Rattle.std.specs.List.{Contains};
ghost use Rattle.room_spec.specs.Rooms.{RoomSpec, processes};
ghost use Rattle.run_search.specs.Nodes.{Node as NodeValue};
ghost use Rattle.run_search.specs.Choices.{AreSeen, AreWithin, Each, IsEndAt};
ghost use Rattle.run_search.specs.Outcomes.{AreEnds, AreNoted, IsEndOf, IsFewerKept, IsNoted};
ghost use Rattle.run_search.specs.declared.choice.Choice.{Choice as ChoiceValue};
ghost use Rattle.run_search.specs.declared.ended.Ended.{Ended as EndedValue};

use crate::choice::{Choice, choices_of, fewest_stops, is_within};
use crate::ended::{Ends, copied, stops_by};
use crate::node::{IndexedNode, Node};
use indexmap::IndexSet;
use room_spec::Spec;
use std::alloc::{AllocError, Global};

/// A node that has an outcome, by its index, and the number of events that lead to it there at least, with one more for each process.
#[derive(Clone, Copy)]
pub struct Witness {
    pub node: usize,
    pub events: usize,
}

/// Outcomes, each once, with the node that has it with the fewest events.
#[derive(Drop)]
pub struct Tally {
    pub ends: IndexSet<Ends>,
    pub witnesses: Vec<Witness>,
}

/// The outcomes of nodes so far, and the choices that these nodes have.
#[derive(Drop)]
struct Listing {
    tally: Tally,
    seen: IndexSet<Vec<Choice>>,
}

/// The choices of the processes of a node, of which each takes one.
#[derive(Clone, Copy)]
struct Choices<'a> {
    node: usize,
    count: usize,
    all: &'a [Choice],
}

/// The outcomes of the states that the nodes cover, if at most `crashes` processes stop in them.
///
/// # Errors
///
/// An allocation that fails.
pub fn tally_of(
    alloc: Global,
    spec: &Spec,
    nodes: &[Node],
    crashes: usize,
) -> Result<Tally, AllocError>
    requires { (i : ℕ) (node : NodeValue) → slice_get nodes.now i ≡ Some node → length node.sets ≡ processes spec.now }
    ensures ends { IfOk result (λ tally. AreEnds spec.now nodes.now crashes tally.ends.keys tally.witnesses.items) }
    ensures noted { IfOk result (λ tally. (i : ℕ) (node : NodeValue) → slice_get nodes.now i ≡ Some node → AreNoted spec.now node crashes tally.ends.keys tally.witnesses.items) }
{
    let mut listing = Listing {
        tally: Tally {
            ends: IndexSet::new(alloc),
            witnesses: Vec::new(alloc),
        },
        seen: IndexSet::new(alloc),
    };
    for index in 0..nodes.len() {
        let node = &nodes[index];
        listing.take(alloc, spec, crashes, &IndexedNode { index, node })?;
    }
    Ok(listing.tally)
}

impl Listing {
    /// Notes the outcomes of the states that a node covers, if at most `crashes` processes stop in them. A node that has no choice but those of an earlier
    /// one has no other outcomes, and none with fewer events.
    fn take(
        &mut self,
        alloc: Global,
        spec: &Spec,
        crashes: usize,
        indexed: &IndexedNode<'_>,
    ) -> Result<(), AllocError>
        requires width { length indexed.now.node.now.sets ≡ processes spec.now }
        requires count { length self.old.tally.witnesses.items ≡ length self.old.tally.ends.keys }
        requires seen { AreSeen (processes spec.now) crashes self.old.seen.keys self.old.tally.ends.keys self.old.tally.witnesses.items }
        ensures count { OnOk result (length self.new.tally.witnesses.items ≡ length self.new.tally.ends.keys) }
        ensures seen { OnOk result (AreSeen (processes spec.now) crashes self.new.seen.keys self.new.tally.ends.keys self.new.tally.witnesses.items) }
        ensures noted { OnOk result (AreNoted spec.now indexed.now.node.now crashes self.new.tally.ends.keys self.new.tally.witnesses.items) }
        ensures grown { OnOk result ((ends : List EndedValue) (events : ℕ) →
            IsNoted self.old.tally.ends.keys self.old.tally.witnesses.items ends events → IsNoted self.new.tally.ends.keys self.new.tally.witnesses.items ends events) }
        ensures ends { OnOk result ((nodes : List NodeValue) →
            slice_get nodes indexed.now.index ≡ Some indexed.now.node.now → AreEnds spec.now nodes crashes self.old.tally.ends.keys self.old.tally.witnesses.items →
            AreEnds spec.now nodes crashes self.new.tally.ends.keys self.new.tally.witnesses.items) }
    {
        if fewest_stops(spec, indexed.node) > crashes {
            return Ok(());
        }
        let all = choices_of(alloc, spec, crashes, indexed.node)?;
        if self.has_seen(all.as_slice()) {
            return Ok(());
        }
        let choices = Choices {
            node: indexed.index,
            count: spec.n(),
            all: all.as_slice(),
        };
        self.tally
            .note_from(&choices, &mut Ends::new(), 0, crashes)?;
        self.seen.insert(all)?;
        Ok(())
    }

    /// Whether each of these choices is among those of an earlier node, with no more events there. It looks for the same choices, and at those listed last.
    fn has_seen(&self, choices: &[Choice]) -> bool
        ensures { result ≡ true → (one : VecValue ChoiceValue) × Contains self.now.seen.keys one × AreWithin choices.now one.items }
    {
        if let Some(last) = self.seen.last() {
            if is_within(choices, last.as_slice()) {
                return true;
            }
        }
        self.seen.contains(choices)
    }
}

impl Tally {
    /// Notes the outcomes that the choices lead to after these ends of the first processes, if at most `left` more processes stop.
    fn note_from(
        &mut self,
        choices: &Choices<'_>,
        ends: &mut Ends,
        events: usize,
        left: usize,
    ) -> Result<(), AllocError>
        requires count { length self.old.witnesses.items ≡ length self.old.ends.keys }
        requires few { choices.now.count ≤ 16 }
        requires within { length ends.old.items ≤ choices.now.count }
        requires sum { events ≤ 65535 * length ends.old.items }
        ensures same { OnOk result (ends.new.items ≡ ends.old.items) }
        ensures count { OnOk result (length self.new.witnesses.items ≡ length self.new.ends.keys) }
        ensures noted { OnOk result (Each (IsNoted self.new.ends.keys self.new.witnesses.items) choices.now.count choices.now.all.now ends.old.items events left) }
        ensures grown { OnOk result ((one : List EndedValue) (few : ℕ) → IsNoted self.old.ends.keys self.old.witnesses.items one few → IsNoted self.new.ends.keys self.new.witnesses.items one few) }
        ensures ends { OnOk result ((spec : RoomSpec) (nodes : List NodeValue) (crashes : ℕ) →
            Each (IsEndAt spec nodes crashes choices.now.node) choices.now.count choices.now.all.now ends.old.items events left →
            AreEnds spec nodes crashes self.old.ends.keys self.old.witnesses.items → AreEnds spec nodes crashes self.new.ends.keys self.new.witnesses.items) }
    {
        if ends.len() == choices.count {
            let witness = Witness {
                node: choices.node,
                events,
            };
            self.note(ends, witness)?;
            return Ok(());
        }
        for choice in choices.all {
            let stops = stops_by(choice.end);
            if choice.process as usize != ends.len() || stops > left {
                continue;
            }
            ends.push(choice.end);
            let sum = events + choice.events as usize;
            self.note_from(choices, ends, sum, left - stops)?;
            ends.pop();
        }
        Ok(())
    }

    /// Notes an outcome, with this node unless another has it with fewer events.
    fn note(&mut self, ends: &Ends, witness: Witness) -> Result<(), AllocError>
        requires { length self.old.witnesses.items ≡ length self.old.ends.keys }
        ensures count { OnOk result (length self.new.witnesses.items ≡ length self.new.ends.keys) }
        ensures there { OnOk result (IsNoted self.new.ends.keys self.new.witnesses.items ends.now.items witness.events) }
        ensures grown { OnOk result ((one : List EndedValue) (events : ℕ) →
            IsNoted self.old.ends.keys self.old.witnesses.items one events → IsNoted self.new.ends.keys self.new.witnesses.items one events) }
        ensures ends { OnOk result ((spec : RoomSpec) (nodes : List NodeValue) (crashes : ℕ) →
            AreEnds spec nodes crashes self.old.ends.keys self.old.witnesses.items → IsEndOf spec nodes crashes ends.now witness →
            AreEnds spec nodes crashes self.new.ends.keys self.new.witnesses.items) }
    {
        let Some(index) = self.ends.get_index_of(ends) else {
            self.ends.insert(copied(ends))?;
            self.witnesses.push(witness)?;
            return Ok(());
        };
        keep_fewer(&mut self.witnesses, index, witness);
        Ok(())
    }
}

/// Puts a witness in the place of this index, if it has fewer events than the one that is there.
fn keep_fewer(witnesses: &mut Vec<Witness>, index: usize, witness: Witness)
    requires { index < length witnesses.old.items }
    ensures { IsFewerKept witnesses.old.items index witness witnesses.new.items }
{
    if witness.events < witnesses[index].events {
        witnesses[index] = witness;
    }
}
