//! The nodes of all schedules of a room.
ghost use Rattle.std.specs.Prelude.{◌≡◌, ◌<◌, ◌≤◌, ◌∷◌, ◌++◌, [], ℕ, false, true, List, Some, IfOk, OnOk, length, slice_get};
ghost use Rattle.std.specs.List.{Contains};
ghost use Rattle.room_core.specs.Calls.{configuration_of};
ghost use Rattle.room_core.specs.Rooms.{crashed_at};
ghost use Rattle.room_search.specs.declared.local.Local.{Local as LocalValue};
ghost use Rattle.room_search.specs.Moving.{AreMoves, GoOn, IsSaidAt, IsStepTo};
ghost use Rattle.room_search.specs.Nodes.{CoverAllRooms, HaveRoom, IsBelow, IsIn, IsNode, Leads, LeadsAt, LeadsInside, Node as NodeValue, set_of};
ghost use Rattle.room_search.specs.Saying.{DoSay};
ghost use Rattle.room_search.specs.Searches.{GoesFurther, IsMade, IsSearched};

use crate::closing::{set_from, sets_after};
use crate::first::{first_local, first_said};
use crate::moves::{Lead, Moves, Situation};
use crate::node::{Node, Origin};
use crate::stepping::copied;
use crate::subject::{Subject, has_crashed};
use indexmap::IndexMap;
use run_search::{Progress, SearchFault};
use std::alloc::{AllocError, Global};

/// Nodes, where steps lead from them, and the indices of those that say the same.
#[derive(Drop)]
pub struct Explored {
    pub moves: Moves,
    pub nodes: Vec<Node>,
    by_said: IndexMap<u32, Vec<usize>>,
    /// Whether some step works on a word of which nothing is said.
    pub lost: bool,
}

/// Finds nodes that have all rooms to which schedules lead from the start on, breadth first. Reports how many nodes it has searched.
///
/// # Errors
///
/// `TooManyNodes` if there are more than `limit` nodes; `OutOfMemory` if an allocation fails.
pub fn explore<P: Progress>(
    subject: &Subject<'_>,
    limit: u32,
    progress: &mut P,
) -> Result<Explored, SearchFault>
    requires { subject.now.start.now.spec ≡ subject.now.spec.now }
    ensures searched { IfOk result (IsSearched subject.now.spec.now) }
    ensures covers { IfOk result (λ explored. explored.lost ≡ false → CoverAllRooms (configuration_of subject.now.start.now) explored.moves.table.keys explored.nodes.items) }
    ensures within { IfOk result (λ explored. length explored.nodes.items ≤ limit) }
{
    let _shape = subject.spec.shape(); // for the proof: the room is within its limits
    let _spec = subject.start.spec(); // for the proof: a schedule has led to the start
    let mut explored = opened(subject)?;
    let mut cursor = 0;
    while (cursor as usize) < explored.nodes.len() {
        if explored.nodes.len() > limit as usize {
            return Err(SearchFault::TooManyNodes);
        }
        explored.visit(subject, cursor)?;
        cursor += 1;
        progress.reached(u64::from(cursor));
    }
    Ok(explored)
}

/// The node of the start, and no other.
fn opened(subject: &Subject<'_>) -> Result<Explored, SearchFault>
    requires { subject.now.start.now.spec ≡ subject.now.spec.now }
    ensures searched { IfOk result (IsSearched subject.now.spec.now) }
    ensures start { IfOk result (λ explored. HaveRoom explored.moves.table.keys explored.nodes.items (configuration_of subject.now.start.now)) }
{
    let mut explored = Explored {
        moves: Moves::nothing(subject.alloc),
        nodes: Vec::new(subject.alloc),
        by_said: IndexMap::new(subject.alloc),
        lost: false,
    };
    let said = first_number(subject, &mut explored.moves)?;
    let node = first_node(subject, &mut explored.moves, said)?;
    explored.add(subject.alloc, node, said)?;
    Ok(explored)
}

/// The number of what is said of the start.
fn first_number(subject: &Subject<'_>, moves: &mut Moves) -> Result<u32, SearchFault>
    requires moves { AreMoves subject.now.spec.now moves.old }
    requires same { subject.now.start.now.spec ≡ subject.now.spec.now }
    ensures moves { OnOk result (GoOn subject.now.spec.now moves.old moves.new) }
    ensures said { IfOk result (λ number. (said : List ℕ) × IsSaidAt moves.new.said.keys number said × DoSay said subject.now.start.now.words) }
{
    let said = first_said(subject)?;
    let number = moves.number_of(subject, said)?;
    Ok(number)
}

/// The node of the start, of which that is said.
fn first_node(subject: &Subject<'_>, moves: &mut Moves, said: u32) -> Result<Node, SearchFault>
    requires moves { AreMoves subject.now.spec.now moves.old }
    requires same { subject.now.start.now.spec ≡ subject.now.spec.now }
    requires said { (words : List ℕ) × IsSaidAt moves.old.said.keys said words × DoSay words subject.now.start.now.words }
    ensures moves { OnOk result (GoOn subject.now.spec.now moves.old moves.new) }
    ensures node { IfOk result (IsNode subject.now.spec.now moves.new.table.keys) }
    ensures start { IfOk result (λ node. IsIn moves.new.table.keys node (configuration_of subject.now.start.now)) }
{
    let mut sets = Vec::new(subject.alloc);
    for i in 0..subject.spec.m() {
        let local = first_local(subject, i)?;
        let number = moves.number_of_local(subject, local)?;
        let set = set_from(subject, moves, said, i, &[number])?;
        sets.push(set)?;
    }
    let origin = Origin {
        from: 0,
        simulator: 0,
        number: 0,
    };
    Ok(Node::new(moves.copy_said(subject.alloc, said)?, sets, origin))
}

impl Explored {
    /// Adds the nodes to which steps lead from the node of this index.
    fn visit(&mut self, subject: &Subject<'_>, cursor: u32) -> Result<(), SearchFault>
        requires searched { IsSearched subject.now.spec.now self.old }
        requires there { cursor < length self.old.nodes.items }
        ensures further { OnOk result (GoesFurther subject.now.spec.now self.old self.new) }
        ensures leads { OnOk result ((node : NodeValue) → slice_get self.old.nodes.items cursor ≡ Some node →
            LeadsInside subject.now.spec.now (configuration_of subject.now.start.now) self.new.moves.table.keys self.new.nodes.items self.new.lost node) }
    {
        let words = copied(subject.alloc, self.nodes[cursor as usize].said())?;
        let said = self.moves.number_of(subject, words)?;
        for i in 0..subject.spec.m() {
            self.follow_simulator(subject, cursor, said, i)?;
        }
        Ok(())
    }

    /// Adds the nodes to which steps of simulator `i` lead from the node of this index, of which that is said. One that had crashed takes none.
    fn follow_simulator(
        &mut self,
        subject: &Subject<'_>,
        cursor: u32,
        said: u32,
        i: usize,
    ) -> Result<(), SearchFault>
        requires searched { IsSearched subject.now.spec.now self.old }
        requires said { (node : NodeValue) × (slice_get self.old.nodes.items cursor ≡ Some node) × IsSaidAt self.old.moves.said.keys said node.said }
        requires simulator { i < subject.now.spec.now.simulators }
        ensures further { OnOk result (GoesFurther subject.now.spec.now self.old self.new) }
        ensures leads { OnOk result ((node : NodeValue) (place : ℕ) → crashed_at (configuration_of subject.now.start.now) i ≡ false →
            slice_get self.old.nodes.items cursor ≡ Some node →
            LeadsAt subject.now.spec.now self.new.moves.table.keys self.new.nodes.items self.new.lost node i place) }
    {
        if has_crashed(subject, i) {
            return Ok(());
        }
        let _m = subject.spec.m(); // for the proof: it is at most 8
        let count = self.nodes[cursor as usize].set(i).len();
        for place in 0..count {
            let from = Situation {
                said,
                simulator: i as u8,
                number: self.nodes[cursor as usize].set(i)[place],
            };
            self.follow(subject, cursor, from)?;
        }
        Ok(())
    }

    /// Adds the node to which this step leads from the node of this index, unless another has all of it.
    fn follow(
        &mut self,
        subject: &Subject<'_>,
        cursor: u32,
        from: Situation,
    ) -> Result<(), SearchFault>
        requires searched { IsSearched subject.now.spec.now self.old }
        requires simulator { from.simulator < subject.now.spec.now.simulators }
        requires there { (node : NodeValue) × (slice_get self.old.nodes.items cursor ≡ Some node) × IsSaidAt self.old.moves.said.keys from.said node.said × Contains (set_of node from.simulator) from.number }
        ensures further { OnOk result (GoesFurther subject.now.spec.now self.old self.new) }
        ensures leads { OnOk result ((node : NodeValue) (local : LocalValue) →
            slice_get self.old.nodes.items cursor ≡ Some node → slice_get self.old.moves.table.keys from.number ≡ Some local →
            Leads subject.now.spec.now self.new.moves.table.keys self.new.nodes.items self.new.lost node from.simulator local) }
    {
        let lead = self.moves.lead(subject, from)?;
        match lead {
            Lead::Nothing => Ok(()),
            Lead::Lost => {
                self.lose();
                Ok(())
            }
            Lead::To { said, number } => {
                let to = Situation {
                    said,
                    simulator: from.simulator,
                    number,
                };
                self.follow_to(subject, cursor, from, to)
            }
        }
    }

    /// A step works on a word of which nothing is said.
    fn lose(&mut self)
        ensures lost { self.new.lost ≡ true }
        ensures moves { self.new.moves ≡ self.old.moves }
        ensures nodes { self.new.nodes.items ≡ self.old.nodes.items }
    {
        self.lost = true;
    }

    /// Adds the node to which a step leads, unless another has all of it.
    fn follow_to(
        &mut self,
        subject: &Subject<'_>,
        cursor: u32,
        from: Situation,
        to: Situation,
    ) -> Result<(), SearchFault>
        requires searched { IsSearched subject.now.spec.now self.old }
        requires simulator { to.simulator < subject.now.spec.now.simulators }
        requires there { (node : NodeValue) × (slice_get self.old.nodes.items cursor ≡ Some node) × IsSaidAt self.old.moves.said.keys from.said node.said }
        requires said { to.said < length self.old.moves.said.keys }
        requires number { to.number < length self.old.moves.table.keys }
        ensures further { OnOk result (GoesFurther subject.now.spec.now self.old self.new) }
        ensures leads { OnOk result ((node : NodeValue) (local : LocalValue) → slice_get self.old.nodes.items cursor ≡ Some node →
            IsStepTo subject.now.spec.now self.old.moves.said.keys self.old.moves.table.keys node.said to.simulator local to.said to.number →
            Leads subject.now.spec.now self.new.moves.table.keys self.new.nodes.items self.new.lost node to.simulator local) }
    {
        if to.said == from.said && self.has(cursor, to) {
            return Ok(());
        }
        let node = self.made(subject, cursor, from, to)?;
        if !self.has_above(&node, to.said) {
            self.add(subject.alloc, node, to.said)?;
        }
        Ok(())
    }

    /// Whether the simulator may be in this local state in the node of this index.
    fn has(&self, cursor: u32, at: Situation) -> bool
        requires there { cursor < length self.now.nodes.items }
        requires simulator { (node : NodeValue) → slice_get self.now.nodes.items cursor ≡ Some node → at.simulator < length node.sets }
        ensures { result ≡ true → (node : NodeValue) → slice_get self.now.nodes.items cursor ≡ Some node → Contains (set_of node at.simulator) at.number }
    {
        self.nodes[cursor as usize]
            .set(usize::from(at.simulator))
            .contains(&at.number)
    }

    /// The node to which a step leads.
    fn made(
        &mut self,
        subject: &Subject<'_>,
        cursor: u32,
        from: Situation,
        to: Situation,
    ) -> Result<Node, SearchFault>
        requires searched { IsSearched subject.now.spec.now self.old }
        requires simulator { to.simulator < subject.now.spec.now.simulators }
        requires there { cursor < length self.old.nodes.items }
        requires said { to.said < length self.old.moves.said.keys }
        requires number { to.number < length self.old.moves.table.keys }
        ensures further { OnOk result (GoesFurther subject.now.spec.now self.old self.new) }
        ensures nodes { OnOk result (self.new.nodes.items ≡ self.old.nodes.items) }
        ensures made { IfOk result (λ made. (node : NodeValue) → slice_get self.old.nodes.items cursor ≡ Some node →
            (said : List ℕ) × IsSaidAt self.new.moves.said.keys to.said said × IsMade subject.now.spec.now self.new.moves.table.keys node to.simulator said to.number made) }
    {
        let sets = sets_after(subject, &mut self.moves, &self.nodes[cursor as usize], to)?;
        let said = self.moves.copy_said(subject.alloc, to.said)?;
        let origin = Origin {
            from: cursor,
            simulator: from.simulator,
            number: from.number,
        };
        Ok(Node::new(said, sets, origin))
    }

    /// Whether one of the nodes has all that this one has, of which that is said.
    fn has_above(&self, node: &Node, said: u32) -> bool
        ensures { result ≡ true → (above : NodeValue) × Contains self.now.nodes.items above × IsBelow node.now above }
    {
        let Some(indices) = self.by_said.get(&said) else {
            return false;
        };
        for index in indices {
            if self.is_above(node, *index) {
                return true;
            }
        }
        false
    }

    /// Whether the node of this index is there, and has all that this one has.
    fn is_above(&self, node: &Node, index: usize) -> bool
        ensures { result ≡ true → (above : NodeValue) × Contains self.now.nodes.items above × IsBelow node.now above }
    {
        match self.nodes.get(index) {
            None => false,
            Some(above) => node.is_below(above),
        }
    }

    /// Adds a node, of which that is said.
    fn add(&mut self, alloc: Global, node: Node, said: u32) -> Result<(), AllocError>
        ensures nodes { OnOk result (self.new.nodes.items ≡ self.old.nodes.items ++ node ∷ []) }
        ensures moves { OnOk result (self.new.moves ≡ self.old.moves) }
        ensures lost { OnOk result (self.new.lost ≡ self.old.lost) }
    {
        list(alloc, &mut self.by_said, said, self.nodes.len())?;
        self.nodes.push(node)?;
        Ok(())
    }
}

/// Lists an index under the number of what is said of its node.
fn list(
    alloc: Global,
    by_said: &mut IndexMap<u32, Vec<usize>>,
    said: u32,
    index: usize,
) -> Result<(), AllocError> {
    let Some(place) = by_said.get_index_of(&said) else {
        let mut indices = Vec::new(alloc);
        indices.push(index)?;
        by_said.insert(said, indices)?;
        return Ok(());
    };
    let Some(indices) = by_said.get_index_mut(place) else {
        unreachable!() // the place was found just now
    };
    indices.push(index)?;
    Ok(())
}
