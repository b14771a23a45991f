//! Nodes: for each process a set of local states that it may be in while memory stays as it is.
ghost use Rattle.run_search.specs.Limits.{AreMarksAfter, AreMarksIn, HasAfter, HasMarks, IsNotBelow, IsWithoutAfter};
ghost use Rattle.std.specs.Prelude.{◌≡◌, ◌<◌, ◌⊎◌, ◌∷◌, ℕ, [], List, Option, true, false, IfOk, IfSome, MatchBool, MatchOption, OnOk, Some, length, slice_get, slice_set};
ghost use Rattle.std.specs.List.{Contains};
ghost use Rattle.room_spec.specs.Rooms.{RoomSpec, processes};
ghost use Rattle.run_search.specs.Nodes.{AreIn, AreWithinRounds, Changes, Covers, GoesAlone, IsAdded, IsBelow, IsComeTo, IsFirst, IsGrown, IsLocalBefore, IsNext, IsNodeAfter, IsSetClosed, IsStateBefore, IsWhole, IsWithinRounds, Moves, MovesAlone, Node as NodeValue, set_of};
ghost use Rattle.run_search.specs.declared.local_state.LocalState.{LocalState as LocalValue};

use crate::local_state::{Due, LocalState, Origin, State};
use crate::mark::with_marks;
use crate::sets::{LocalSet, Sets};
use crate::step::{moved, opening, row_of};
use protocol_lang::View;
use room_spec::Spec;
use std::alloc::{AllocError, Global};
use std::marker::Model;
use std::rc::Rc;

/// States of runs with the same memory: each process is in one of its local states, whatever the others do.
#[derive(Drop)]
pub struct Node {
    /// The last write of each process.
    row: Rc<View>,
    /// The local states of each process.
    sets: Vec<LocalSet>,
    origin: Origin,
}

/// A node, and its index among the nodes.
#[derive(Clone, Copy)]
pub struct IndexedNode<'a> {
    pub index: usize,
    pub node: &'a Node,
}

/// A node after a write of this process: its local state then, and the last writes then.
#[derive(Clone, Copy)]
pub struct After<'a> {
    pub node: &'a Node,
    pub process: usize,
    pub new: LocalState,
    pub row: &'a View,
}

/// What a write of a process leaves: its local state then, and the last writes then.
#[derive(Drop)]
pub struct Written {
    pub new: LocalState,
    pub row: Rc<View>,
}

/// Where a local state is: the index of its node, the process, and its index among the local states of the process there.
#[derive(Clone, Copy)]
pub struct Place {
    pub node: u32,
    pub process: usize,
    pub index: usize,
}

impl Model for Node {
    ghost use Rattle.std.specs.Prelude.{map};
    ghost use Rattle.run_search.specs.Nodes.{Node as NodeValue};

    ghost Value = { NodeValue };

    ghost view = { λ node. record { row = node.row.value.items; sets = map (λ set. set.value.items) node.sets.items; origin = node.origin } };
}

impl Node {
    /// The node of the state before the first event.
    ///
    /// # Errors
    ///
    /// An allocation that fails.
    pub fn first(spec: &Spec, sets: &mut Sets) -> Result<Node, AllocError>
        ensures { IfOk result (λ node. IsFirst spec.now node) }
    {
        let state = opening(spec);
        let row = row_of(&state);
        let mut own = Vec::with_capacity(sets.alloc, spec.n())?;
        for p in 0..spec.n() {
            let locals = close(sets.alloc, &[state.as_slice()[p]], &row, spec, p)?;
            let set = sets.shared(locals)?;
            own.push(set)?;
        }
        let origin = Origin {
            from: 0,
            process: 0,
            local: LocalState::default(),
        };
        let row = Rc::new(sets.alloc, row)?;
        Ok(Node {
            row,
            sets: own,
            origin,
        })
    }

    /// The last write of each process.
    pub fn row(&self) -> &View
        ensures { result.now.items ≡ self.now.row }
    {
        self.row.as_ref()
    }

    /// The last write of each process, to share.
    ///
    /// # Errors
    ///
    /// An allocation that fails.
    pub fn shared_row(&self) -> Result<Rc<View>, AllocError>
        ensures { IfOk result (λ row. row.value.items ≡ self.now.row) }
    {
        let row = self.row.clone()?;
        Ok(row)
    }

    /// The write by which the node was reached first.
    pub fn origin(&self) -> Origin
        ensures { result ≡ self.now.origin }
    {
        self.origin
    }

    /// The local states of process `p`.
    pub fn set(&self, p: usize) -> &[LocalState]
        requires { p < length self.now.sets }
        ensures { result.now ≡ set_of self.now p }
    {
        self.sets[p].as_slice()
    }

    /// How many local states process `p` has.
    pub fn count(&self, p: usize) -> usize
        requires { p < length self.now.sets }
        ensures { result ≡ length (set_of self.now p) }
    {
        self.sets[p].len()
    }

    /// These local states of process `q`: the set of this node, if it has the same.
    ///
    /// # Errors
    ///
    /// An allocation that fails.
    fn share(
        &self,
        sets: &mut Sets,
        q: usize,
        locals: Vec<LocalState>,
    ) -> Result<LocalSet, AllocError>
        requires { q < length self.now.sets }
        ensures { IfOk result (λ set. set.value.items ≡ locals.items) }
    {
        let own = &self.sets[q];
        if own.as_slice() == locals.as_slice() {
            let set = own.clone()?;
            return Ok(set);
        }
        sets.shared(locals)
    }

    /// The local state of this place after its next step, if that is a write that changes memory.
    pub fn written(&self, spec: &Spec, place: Place) -> Option<LocalState>
        requires whole { IsWhole spec.now self.now }
        requires process { place.process < processes spec.now }
        requires there { place.index < length (set_of self.now place.process) }
        ensures changes { (local : LocalValue) → slice_get (set_of self.now place.process) place.index ≡ Some local →
            MatchOption result ((next : LocalValue) → Changes spec.now self.now.row place.process local next → ⊥) (λ new. Changes spec.now self.now.row place.process local new) }
        ensures rounds { IfSome result (IsWithinRounds spec.now) }
    {
        let local = self.set(place.process)[place.index];
        if !changes(&local) {
            return None;
        }
        let Some(new) = moved(&local, self.row(), spec, place.process) else {
            return None;
        };
        Some(new)
    }

    /// The last writes after process `p` has written.
    pub fn row_after(&self, p: usize, last: Option<u32>) -> View
        requires { p < length self.now.row }
        ensures { result.items ≡ slice_set self.now.row p last }
    {
        row_with(self.row(), p, last)
    }

    /// The node that a write leads to by the process of this place, which leaves this. This node is that of the place.
    ///
    /// # Errors
    ///
    /// An allocation that fails.
    pub fn edge(
        &self,
        spec: &Spec,
        place: Place,
        written: Written,
        sets: &mut Sets,
    ) -> Result<Node, AllocError>
        requires whole { IsWhole spec.now self.now }
        requires process { place.process < processes spec.now }
        requires there { place.index < length (set_of self.now place.process) }
        requires rounds { IsWithinRounds spec.now written.new }
        requires row { written.row.value.items ≡ slice_set self.now.row place.process written.new.last }
        ensures next { IfOk result (IsNext spec.now self.now place.process written.new) }
        ensures origin { IfOk result (λ to. (local : LocalValue) → slice_get (set_of self.now place.process) place.index ≡ Some local → to.origin ≡ record { from = place.node; process = place.process; local = local }) }
    {
        let p = place.process;
        let own = [written.new];
        let mut all = Vec::with_capacity(sets.alloc, spec.n())?;
        for q in 0..spec.n() {
            let old = self.old_after(p, &own, q);
            let locals = close(sets.alloc, old, written.row.as_ref(), spec, q)?;
            let set = self.share(sets, q, locals)?;
            all.push(set)?;
        }
        let origin = Origin {
            from: place.node,
            process: p as u8,
            local: self.set(p)[place.index],
        };
        Ok(Node {
            row: written.row,
            sets: all,
            origin,
        })
    }

    /// The marks of its local states.
    pub fn marks(&self) -> u64
        ensures all { HasMarks self.now result }
        ensures each { AreMarksIn self.now result }
    {
        let mut marks = 0;
        for p in 0..self.sets.len() {
            marks = with_marks(marks, p, self.set(p));
        }
        marks
    }

    /// Whether another node has all that this one has.
    pub fn is_below(&self, above: &Node) -> bool
        ensures below { result ≡ true → IsBelow self.now above.now }
        ensures other { result ≡ false → IsNotBelow self.now above.now }
    {
        if self.row().as_slice() != above.row().as_slice() {
            return false;
        }
        if self.sets.len() != above.sets.len() {
            return false;
        }
        for p in 0..self.sets.len() {
            if !is_within(self.set(p), above.set(p)) {
                return false;
            }
        }
        true
    }

    /// The local states of process `q` just after a write of process `p`, which has these then.
    fn old_after<'a>(&'a self, p: usize, new: &'a [LocalState], q: usize) -> &'a [LocalState]
        requires { q < length self.now.sets }
        ensures own { q ≡ p → result.now ≡ new.now }
        ensures other { (q ≡ p → ⊥) → result.now ≡ set_of self.now q }
    {
        if q == p { new } else { self.set(q) }
    }

    /// A state from which the write of another node's origin, and then steps that leave the last writes as they are, lead to this state of that node.
    pub fn before(&self, spec: &Spec, node: &Node, state: &State) -> State
        requires whole { IsWhole spec.now self.now }
        requires after { IsNodeAfter spec.now self.now node.now.origin.process node.now.origin.local node.now }
        requires covers { Covers spec.now node.now state.now.items }
        ensures { IsStateBefore spec.now self.now node.now (processes spec.now) state.now.items result.items }
    {
        let mut old = State::new();
        for q in 0..spec.n() {
            old.push(self.local_before(spec, node, q, state.as_slice()[q]));
        }
        old
    }

    /// The local state of process `q` in that state, if it is in this one then.
    fn local_before(&self, spec: &Spec, node: &Node, q: usize, to: LocalState) -> LocalState
        requires whole { IsWhole spec.now self.now }
        requires process { q < processes spec.now }
        requires after { IsNodeAfter spec.now self.now node.now.origin.process node.now.origin.local node.now }
        requires there { Contains (set_of node.now q) to }
        ensures { IsLocalBefore spec.now self.now node.now q to result }
    {
        let origin = node.origin();
        if q == usize::from(origin.process) {
            origin.local
        } else {
            come_from(self.set(q), node.row(), spec, q, to)
        }
    }
}

/// The marks of what a node has after a write, for a comparison with this number of nodes. There are none for a single one, which is compared as quickly without them.
pub fn marks_after(spec: &Spec, after: &After<'_>, count: usize) -> u64
    requires width { length after.now.node.now.sets ≡ processes spec.now }
    ensures { AreMarksAfter spec.now after.now.node.now after.now.process after.now.new result }
{
    if count < 2 {
        return 0;
    }
    let own = [after.new];
    let mut marks = 0;
    for q in 0..spec.n() {
        let set = after.node.old_after(after.process, &own, q);
        marks = with_marks(marks, q, set);
    }
    marks
}

/// Whether another node has what a node has after a write: all that the one has that the write leads to.
pub fn has_after(spec: &Spec, after: &After<'_>, above: &Node) -> bool
    requires width { length after.now.node.now.sets ≡ processes spec.now }
    ensures has { result ≡ true → HasAfter spec.now after.now.node.now after.now.process after.now.new after.now.row.now.items above.now }
    ensures without { result ≡ false → IsWithoutAfter spec.now after.now.node.now after.now.process after.now.new after.now.row.now.items above.now }
{
    if after.row.as_slice() != above.row().as_slice() {
        return false;
    }
    if above.sets.len() != spec.n() {
        return false;
    }
    let own = [after.new];
    for q in 0..spec.n() {
        let old = after.node.old_after(after.process, &own, q);
        if !is_within(old, above.set(q)) {
            return false;
        }
    }
    true
}

/// The row after process `p` has written.
fn row_with(row: &View, p: usize, last: Option<u32>) -> View
    requires { p < length row.now.items }
    ensures { result.items ≡ slice_set row.now.items p last }
{
    let mut new = copied(row);
    new.as_mut_slice()[p] = last;
    new
}

/// The same row once more.
pub fn copied(row: &View) -> View
    ensures { result.items ≡ row.now.items }
{
    let mut new = View::new();
    let Ok(()) = new.try_extend_from_slice(row.as_slice()) else {
        unreachable!() // both have the same capacity
    };
    new
}

/// The local state of process `p` after its next step, if that leaves the last writes as they are.
fn moved_alone(local: &LocalState, row: &View, spec: &Spec, p: usize) -> Option<LocalState>
    requires process { p < processes spec.now }
    requires rounds { IsWithinRounds spec.now local.now }
    ensures { MatchOption result ((other : LocalValue) → MovesAlone spec.now row.now.items p local.now other → ⊥) (λ new. MovesAlone spec.now row.now.items p local.now new) }
{
    if changes(local) {
        return None;
    }
    let new = moved(local, row, spec, p)?;
    Some(new)
}

/// Whether the next step from this local state changes the last writes, if there is one.
fn changes(local: &LocalState) -> bool
    ensures { (spec : RoomSpec) (row : List (Option ℕ)) (p : ℕ) (next : LocalValue) → Moves spec row p local.now next → MatchBool result (next.last ≡ local.now.last → ⊥) (next.last ≡ local.now.last) }
{
    match local.due {
        Due::Write(v) => local.last != Some(v),
        Due::Snap | Due::Decide(_) | Due::Decided(_) | Due::Spent => false,
    }
}

/// Adds a local state to a set, unless it is there. Gives whether it was added.
fn put(set: &mut Vec<LocalState>, local: LocalState) -> Result<bool, AllocError>
    ensures there { OnOk result (Contains set.new.items local) }
    ensures added { OnOk result (IsAdded set.old.items local set.new.items) }
    ensures known { IfOk result (λ added. added ≡ false → set.new.items ≡ set.old.items) }
{
    if set.as_slice().contains(&local) {
        return Ok(false);
    }
    set.push(local)?;
    Ok(true)
}

/// Adds a local state of process `p` to a set, and all that follow from it by steps that leave the last writes as they are. What follows from one
/// that is there is there too.
///
/// # Errors
///
/// An allocation that fails.
fn go_on(
    set: &mut Vec<LocalState>,
    local: LocalState,
    row: &View,
    spec: &Spec,
    p: usize,
) -> Result<(), AllocError>
    requires process { p < processes spec.now }
    requires rounds { IsWithinRounds spec.now local }
    ensures there { OnOk result (Contains set.new.items local) }
    ensures kept { OnOk result (AreIn set.old.items set.new.items) }
    ensures come { OnOk result ((to : LocalValue) → Contains set.new.items to → Contains set.old.items to ⊎ ((steps : ℕ) × GoesAlone spec.now row.now.items p steps local to)) }
    ensures closed { OnOk result (IsSetClosed spec.now row.now.items p set.old.items → IsSetClosed spec.now row.now.items p set.new.items) }
{
    if !put(set, local)? {
        return Ok(());
    }
    let mut now = local;
    while let Some(new) = moved_alone(&now, row, spec, p) {
        if !put(set, new)? {
            return Ok(());
        }
        now = new;
    }
    Ok(())
}

/// Some local states of process `p`, and all that follow from them by steps that leave the last writes as they are.
///
/// # Errors
///
/// An allocation that fails.
fn close(
    alloc: Global,
    old: &[LocalState],
    row: &View,
    spec: &Spec,
    p: usize,
) -> Result<Vec<LocalState>, AllocError>
    requires process { p < processes spec.now }
    requires rounds { AreWithinRounds spec.now old.now }
    ensures { IfOk result (λ set. IsGrown spec.now row.now.items p old.now set.items) }
{
    let mut set = Vec::with_capacity(alloc, old.len() + 2)?;
    for local in old {
        go_on(&mut set, *local, row, spec, p)?;
    }
    Ok(set)
}

/// Whether each of some local states is among others.
fn is_within(some: &[LocalState], all: &[LocalState]) -> bool
    ensures { MatchBool result (AreIn some.now all.now) ((local : LocalValue) × Contains some.now local × (Contains all.now local → ⊥)) }
{
    if some == all {
        return true;
    }
    for local in some {
        if !all.contains(local) {
            return false;
        }
    }
    true
}

/// One of these local states from which steps of process `p` that leave the last writes as they are lead to another.
fn come_from(set: &[LocalState], row: &View, spec: &Spec, p: usize, to: LocalState) -> LocalState
    requires process { p < processes spec.now }
    requires rounds { AreWithinRounds spec.now set.now }
    requires come { IsComeTo spec.now row.now.items p set.now to }
    ensures there { Contains set.now result }
    ensures come { (steps : ℕ) × GoesAlone spec.now row.now.items p steps result to }
{
    for local in set {
        if comes_to(*local, row, spec, p, to) {
            return *local;
        }
    }
    unreachable!() // steps lead to it from one of them
}

/// Whether steps of process `p` that leave the last writes as they are lead from one local state to another.
fn comes_to(from: LocalState, row: &View, spec: &Spec, p: usize, to: LocalState) -> bool
    requires process { p < processes spec.now }
    requires rounds { IsWithinRounds spec.now from }
    ensures { MatchBool result ((steps : ℕ) × GoesAlone spec.now row.now.items p steps from to) ((steps : ℕ) → GoesAlone spec.now row.now.items p steps from to → ⊥) }
{
    let mut now = from;
    while now != to {
        let Some(new) = moved_alone(&now, row, spec, p) else {
            return false;
        };
        now = new;
    }
    true
}
