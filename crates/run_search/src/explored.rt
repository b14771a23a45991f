//! The nodes of all runs.
ghost use Rattle.std.specs.Prelude.{◌≡◌, ◌<◌, ◌≤◌, ◌⊎◌, ◌∷◌, ◌++◌, [], ℕ, List, Option, true, false, Some, IfErr, IfOk, OnOk, length, slice_get};
ghost use Rattle.std.specs.List.{Contains};
ghost use Rattle.room_spec.specs.Rooms.{processes};
ghost use Rattle.run_search.specs.Limits.{AreListed, AreMarksAfter, AreMarksIn, AreTooMany, HasAfter, HasMarks, IsListed, IsNotBelow, IsSearched, IsWithoutAfter};
ghost use Rattle.run_search.specs.declared.fault.SearchFault.TheVariants.{TooManyNodes};
ghost use Rattle.run_search.specs.Nodes.{AreGathered, CoverAllReachable, HasEdge, HasEdges, HasEdgesBelow, IsBelow, IsBelowLater, Node as NodeValue, NodesGrow, set_of};
ghost use Rattle.run_search.specs.declared.explored.Entry.{Entry as EntryValue};
ghost use Rattle.run_search.specs.declared.local_state.LocalState.{LocalState as LocalValue};

use crate::fault::SearchFault;
use crate::mark::has_other;
use crate::node::{After, Node, Place, Written, copied, has_after, marks_after};
use crate::progress::Progress;
use crate::sets::Sets;
use indexmap::IndexMap;
use protocol_lang::View;
use room_spec::Spec;
use std::alloc::{AllocError, Global};
use std::rc::Rc;

/// Nodes, each with the write by which it was reached first, and an entry for each under its row.
#[derive(Drop)]
pub struct Explored {
    pub nodes: Vec<Node>,
    by_row: IndexMap<View, Vec<Entry>>,
    sets: Sets,
}

/// A node in the list of those with the same row: its index, and the marks of its local states.
#[derive(Clone, Copy)]
struct Entry {
    index: usize,
    marks: u64,
}

/// Finds nodes that cover the states of all runs of a room and no others, breadth first. A node that has no more than another is left out, with all
/// that comes after it. Reports how many nodes it has searched.
///
/// # Errors
///
/// `TooManyNodes` if there are more than `limit` nodes; `OutOfMemory` if an allocation fails.
pub fn explore<P: Progress>(
    alloc: Global,
    spec: &Spec,
    limit: u32,
    progress: &mut P,
) -> Result<Explored, SearchFault>
    ensures gathered { IfOk result (λ explored. AreGathered spec.now explored.nodes.items) }
    ensures covers { IfOk result (λ explored. CoverAllReachable spec.now explored.nodes.items) }
    ensures within { IfOk result (λ explored. length explored.nodes.items ≤ limit) }
    ensures beyond { IfErr result (λ fault. fault ≡ TooManyNodes → AreTooMany spec.now limit) }
{
    let mut explored = open(alloc, spec)?;
    let mut cursor = 0;
    while (cursor as usize) < explored.nodes.len() {
        if explored.nodes.len() > limit as usize {
            return Err(SearchFault::TooManyNodes);
        }
        explored.visit(alloc, spec, cursor)?;
        cursor += 1;
        progress.reached(u64::from(cursor));
    }
    Ok(explored)
}

/// The node of the state before the first event, alone.
pub fn open(alloc: Global, spec: &Spec) -> Result<Explored, AllocError>
    ensures { IfOk result (IsSearched spec.now) }
{
    let mut sets = Sets::new(alloc);
    let first = Node::first(spec, &mut sets)?;
    let nodes = Vec::new(alloc);
    let by_row = IndexMap::new(alloc);
    let mut explored = Explored {
        nodes,
        by_row,
        sets,
    };
    explored.add(alloc, first)?;
    Ok(explored)
}

impl Explored {
    /// Adds the nodes that the node of this index leads to, unless a later one has all that it has.
    pub fn visit(&mut self, alloc: Global, spec: &Spec, cursor: u32) -> Result<(), AllocError>
        requires searched { IsSearched spec.now self.old }
        requires there { cursor < length self.old.nodes.items }
        ensures searched { OnOk result (IsSearched spec.now self.new) }
        ensures grown { OnOk result (NodesGrow self.old.nodes.items self.new.nodes.items) }
        ensures edges { OnOk result ((node : NodeValue) → slice_get self.old.nodes.items cursor ≡ Some node →
            HasEdges spec.now self.new.nodes.items node ⊎ IsBelowLater self.new.nodes.items cursor node) }
    {
        if self.has_above(&self.nodes[cursor as usize], cursor as usize + 1) {
            return Ok(());
        }
        for p in 0..spec.n() {
            self.follow_process(alloc, spec, cursor, p)?;
        }
        Ok(())
    }

    /// Adds the nodes that process `p` leads to from the node of this index.
    fn follow_process(
        &mut self,
        alloc: Global,
        spec: &Spec,
        cursor: u32,
        p: usize,
    ) -> Result<(), AllocError>
        requires searched { IsSearched spec.now self.old }
        requires process { p < processes spec.now }
        requires there { cursor < length self.old.nodes.items }
        ensures searched { OnOk result (IsSearched spec.now self.new) }
        ensures grown { OnOk result (NodesGrow self.old.nodes.items self.new.nodes.items) }
        ensures edges { OnOk result ((node : NodeValue) → slice_get self.old.nodes.items cursor ≡ Some node →
            HasEdgesBelow spec.now self.new.nodes.items node p (length (set_of node p))) }
    {
        let count = self.nodes[cursor as usize].count(p);
        for index in 0..count {
            let place = Place {
                node: cursor,
                process: p,
                index,
            };
            self.follow(alloc, spec, place)?;
        }
        Ok(())
    }

    /// Adds the node that the local state of this place leads to by a write that changes memory, if it does and no other node has all of it.
    fn follow(&mut self, alloc: Global, spec: &Spec, place: Place) -> Result<(), AllocError>
        requires searched { IsSearched spec.now self.old }
        requires process { place.process < processes spec.now }
        requires there { (node : NodeValue) × (slice_get self.old.nodes.items place.node ≡ Some node) × (place.index < length (set_of node place.process)) }
        ensures searched { OnOk result (IsSearched spec.now self.new) }
        ensures grown { OnOk result (NodesGrow self.old.nodes.items self.new.nodes.items) }
        ensures edge { OnOk result ((node : NodeValue) (local : LocalValue) →
            slice_get self.old.nodes.items place.node ≡ Some node → slice_get (set_of node place.process) place.index ≡ Some local →
            HasEdge spec.now self.new.nodes.items node place.process local) }
    {
        let node = &self.nodes[place.node as usize];
        let Some(new) = node.written(spec, place) else {
            return Ok(());
        };
        let row = node.row_after(place.process, new.last);
        let process = place.process;
        if self.has_after(
            spec,
            &After {
                node: &self.nodes[place.node as usize],
                process,
                new,
                row: &row,
            },
        ) {
            return Ok(());
        }
        let row = self.shared_row(alloc, &row)?;
        let written = Written { new, row };
        let from = &self.nodes[place.node as usize];
        let to = from.edge(spec, place, written, &mut self.sets)?;
        self.add(alloc, to)?;
        Ok(())
    }

    /// These last writes: those of a node that has the same, if there is one, to share.
    ///
    /// # Errors
    ///
    /// An allocation that fails.
    fn shared_row(&self, alloc: Global, row: &View) -> Result<Rc<View>, AllocError>
        ensures { IfOk result (λ shared. shared.value.items ≡ row.now.items) }
    {
        if let Some(node) = self.node_with(row) {
            if node.row().as_slice() == row.as_slice() {
                let shared = node.shared_row()?;
                return Ok(shared);
            }
        }
        let shared = Rc::new(alloc, copied(row))?;
        Ok(shared)
    }

    /// The first node with these last writes.
    fn node_with(&self, row: &View) -> Option<&Node> {
        let entries = self.by_row.get(row)?;
        let entry = entries.first()?;
        self.nodes.get(entry.index)
    }

    /// Whether one of the nodes has what a node has after a write. Then it has all that the node has that the write leads to, since it is closed.
    fn has_after(&self, spec: &Spec, after: &After<'_>) -> bool
        requires listed { AreListed self.now.by_row.entries self.now.nodes.items }
        requires width { length after.now.node.now.sets ≡ processes spec.now }
        ensures has { result ≡ true → (index : ℕ) × (above : NodeValue) × (slice_get self.now.nodes.items index ≡ Some above) ×
            HasAfter spec.now after.now.node.now after.now.process after.now.new after.now.row.now.items above }
        ensures without { result ≡ false → (index : ℕ) (other : NodeValue) → slice_get self.now.nodes.items index ≡ Some other →
            IsWithoutAfter spec.now after.now.node.now after.now.process after.now.new after.now.row.now.items other }
    {
        let Some(entries) = self.by_row.get(after.row) else {
            return false;
        };
        let marks = marks_after(spec, after, entries.len());
        for entry in entries.as_slice() {
            if self.has_after_at(spec, after, marks, *entry) {
                return true;
            }
        }
        false
    }

    /// Whether the node of this entry has that. These are the marks of what the node has after the write: if the other node does not have one of them, it isn't looked at.
    fn has_after_at(&self, spec: &Spec, after: &After<'_>, marks: u64, entry: Entry) -> bool
        requires width { length after.now.node.now.sets ≡ processes spec.now }
        requires marks { AreMarksAfter spec.now after.now.node.now after.now.process after.now.new marks }
        ensures has { result ≡ true → (above : NodeValue) × (slice_get self.now.nodes.items entry.index ≡ Some above) × HasAfter spec.now after.now.node.now after.now.process after.now.new after.now.row.now.items above }
        ensures without { result ≡ false → (other : NodeValue) → slice_get self.now.nodes.items entry.index ≡ Some other → HasMarks other entry.marks →
            IsWithoutAfter spec.now after.now.node.now after.now.process after.now.new after.now.row.now.items other }
    {
        if has_other(marks, entry.marks) {
            return false;
        }
        match self.nodes.get(entry.index) {
            None => false,
            Some(above) => has_after(spec, after, above),
        }
    }

    /// Whether one of the nodes from this index on has all that this one has.
    fn has_above(&self, node: &Node, from: usize) -> bool
        requires { AreListed self.now.by_row.entries self.now.nodes.items }
        ensures above { result ≡ true → (later : ℕ) × (above : NodeValue) × (from ≤ later) × (slice_get self.now.nodes.items later ≡ Some above) × IsBelow node.now above }
        ensures none { result ≡ false → (later : ℕ) (other : NodeValue) → from ≤ later → slice_get self.now.nodes.items later ≡ Some other → IsNotBelow node.now other }
    {
        let Some(entries) = self.by_row.get(node.row()) else {
            return false;
        };
        let marks = node.marks();
        for entry in entries.as_slice() {
            if self.is_above(node, marks, from, *entry) {
                return true;
            }
        }
        false
    }

    /// Whether the node of this entry is among those, and has all that this one has, whose marks these are.
    fn is_above(&self, node: &Node, marks: u64, from: usize, entry: Entry) -> bool
        requires { AreMarksIn node.now marks }
        ensures above { result ≡ true → (above : NodeValue) × (from ≤ entry.index) × (slice_get self.now.nodes.items entry.index ≡ Some above) × IsBelow node.now above }
        ensures none { result ≡ false → (other : NodeValue) → from ≤ entry.index → slice_get self.now.nodes.items entry.index ≡ Some other → HasMarks other entry.marks → IsNotBelow node.now other }
    {
        if entry.index < from {
            return false;
        }
        if has_other(marks, entry.marks) {
            return false;
        }
        match self.nodes.get(entry.index) {
            None => false,
            Some(above) => node.is_below(above),
        }
    }

    /// Adds a node.
    fn add(&mut self, alloc: Global, node: Node) -> Result<(), AllocError>
        ensures nodes { OnOk result (self.new.nodes.items ≡ self.old.nodes.items ++ node ∷ []) }
        ensures listed { OnOk result (AreListed self.old.by_row.entries self.old.nodes.items → AreListed self.new.by_row.entries self.new.nodes.items) }
    {
        let entry = Entry {
            index: self.nodes.len(),
            marks: node.marks(),
        };
        list(alloc, &mut self.by_row, node.row(), entry)?;
        self.nodes.push(node)?;
        Ok(())
    }
}

/// Lists an entry under a row.
fn list(
    alloc: Global,
    rows: &mut IndexMap<View, Vec<Entry>>,
    row: &View,
    entry: Entry,
) -> Result<(), AllocError>
    ensures there { OnOk result (IsListed rows.new.entries row.now.items entry) }
    ensures kept { OnOk result ((other : List (Option ℕ)) (one : EntryValue) → IsListed rows.old.entries other one → IsListed rows.new.entries other one) }
{
    let Some(place) = rows.get_index_of(row) else {
        let mut entries = Vec::new(alloc);
        entries.push(entry)?;
        rows.insert(copied(row), entries)?;
        return Ok(());
    };
    let Some(entries) = rows.get_index_mut(place) else {
        unreachable!() // the place was found just now
    };
    entries.push(entry)?;
    Ok(())
}
