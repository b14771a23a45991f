//! Where the simulators of a node are.
ghost use Rattle.std.specs.Prelude.{◌≡◌, ◌+◌, ◌<◌, ◌≤◌, ◌⊎◌, IfNone, IfOk, IfSome, List, MatchBool, MatchOption, ℕ, Some, false, length, slice_get, slice_index, true};
ghost use Rattle.room_core.specs.Calls.{configuration_of};
ghost use Rattle.room_search.specs.Nodes.{IsNode, MayBe, set_of};
ghost use Rattle.room_search.specs.Saying.{DoSay};
ghost use Rattle.room_search.specs.Searches.{IsSearched};
ghost use Rattle.room_search.specs.Steps.{AreWords, IsLocal};
ghost use Rattle.room_search.specs.Taking.{HaveCrashed, IsChosen, IsNoChoice, MustHaveCrashed};
ghost use Rattle.room_search.specs.declared.local.Local.{Local as LocalValue};

use crate::explored::Explored;
use crate::local::Local;
use crate::node::Node;
use crate::path::{Numbers, schedule_to};
use crate::premise::Premise;
use crate::resting::may_rest;
use crate::stepping::copied;
use crate::subject::{Subject, has_crashed};
use arrayvec::ArrayVec;
use room_sample::Stretch;
use room_spec::MAX_SIMULATORS;
use std::alloc::AllocError;

/// Whether each simulator is to crash.
type Marks = ArrayVec<bool, MAX_SIMULATORS>;

/// What outcomes are taken from, and how many simulators may crash.
#[derive(Clone, Copy)]
pub struct Source<'a> {
    pub subject: &'a Subject<'a>,
    pub explored: &'a Explored,
    pub crashes: u32,
}

/// Where the first simulators of a node are, and what the node and they say of the words of the room.
#[derive(Drop)]
pub struct Choice {
    index: usize,
    /// Their local states, by number.
    pub numbers: Numbers,
    crashed: Marks,
    pub said: Vec<u64>,
    /// How many more may crash.
    pub left: u32,
}

impl Choice {
    /// None is chosen yet in the node of this index.
    pub fn none(source: &Source<'_>, node: &Node, index: usize) -> Result<Choice, AllocError>
        ensures numbers { IfOk result (λ choice. length choice.numbers.items ≡ 0) }
        ensures said { IfOk result (λ choice. choice.said.items ≡ node.now.said) }
        ensures left { IfOk result (λ choice. choice.left ≡ source.now.crashes) }
    {
        Ok(Choice {
            index,
            numbers: Numbers::new(),
            crashed: Marks::new(),
            said: copied(source.subject.alloc, node.said())?,
            left: source.crashes,
        })
    }

    /// Whether all simulators are chosen.
    pub fn is_whole(&self, source: &Source<'_>) -> bool
        ensures { MatchBool result (length self.now.numbers.items ≡ source.now.subject.now.spec.now.simulators) (length self.now.numbers.items ≡ source.now.subject.now.spec.now.simulators → ⊥) }
    {
        self.numbers.len() == source.subject.spec.m()
    }

    /// The set of the simulator after those that are chosen.
    pub fn next_set<'a>(&self, node: &'a Node) -> &'a [u32]
        requires { length self.now.numbers.items < length node.now.sets }
        ensures { result.now ≡ set_of node.now (length self.now.numbers.items) }
    {
        node.set(self.numbers.len())
    }

    /// All that decides which outcomes are taken from there.
    pub fn premise(&self, source: &Source<'_>) -> Result<Premise, AllocError>
        ensures said { IfOk result (λ premise. premise.said.items ≡ self.now.said.items) }
        ensures left { IfOk result (λ premise. premise.left ≡ self.now.left) }
    {
        Ok(Premise {
            said: copied(source.subject.alloc, self.said.as_slice())?,
            left: self.left,
        })
    }

    /// The simulator after those that are chosen is in the local state of this place of its set. `None` if it has to have crashed there, and no more may.
    pub fn with(
        &self,
        source: &Source<'_>,
        node: &Node,
        place: usize,
    ) -> Result<Option<Choice>, AllocError>
        requires searched { IsSearched source.now.subject.now.spec.now source.now.explored.now }
        requires node { IsNode source.now.subject.now.spec.now source.now.explored.now.moves.table.keys node.now }
        requires few { length self.now.numbers.items < source.now.subject.now.spec.now.simulators }
        requires place { place < length (set_of node.now (length self.now.numbers.items)) }
        requires said { AreWords source.now.subject.now.spec.now self.now.said.items }
        ensures count { IfOk result (λ next. IfSome next (λ one. length one.numbers.items ≡ length self.now.numbers.items + 1)) }
        ensures words { IfOk result (λ next. IfSome next (λ one. AreWords source.now.subject.now.spec.now one.said.items)) }
        ensures chosen { IfOk result (λ next. (local : LocalValue) → slice_get source.now.explored.now.moves.table.keys (slice_index (set_of node.now (length self.now.numbers.items)) place) ≡ Some local →
            MatchOption next (IsNoChoice source.now.subject.now.spec.now (configuration_of source.now.subject.now.start.now) node.now local self.now) (IsChosen source.now.subject.now.spec.now (configuration_of source.now.subject.now.start.now) node.now local self.now)) }
    {
        let number = self.next_set(node)[place];
        let Some(local) = source.explored.moves.table.get_index(number as usize) else {
            unreachable!() // each number of a node is one of the table
        };
        let next = self.with_local(source, node, number, local)?;
        Ok(next)
    }

    /// The simulator after those that are chosen is in this local state.
    fn with_local(
        &self,
        source: &Source<'_>,
        node: &Node,
        number: u32,
        local: &Local,
    ) -> Result<Option<Choice>, AllocError>
        requires local { IsLocal source.now.subject.now.spec.now local.now }
        requires node { AreWords source.now.subject.now.spec.now node.now.said }
        requires few { length self.now.numbers.items < source.now.subject.now.spec.now.simulators }
        requires said { AreWords source.now.subject.now.spec.now self.now.said.items }
        ensures count { IfOk result (λ next. IfSome next (λ one. length one.numbers.items ≡ length self.now.numbers.items + 1)) }
        ensures words { IfOk result (λ next. IfSome next (λ one. AreWords source.now.subject.now.spec.now one.said.items)) }
        ensures chosen { IfOk result (λ next. MatchOption next (IsNoChoice source.now.subject.now.spec.now (configuration_of source.now.subject.now.start.now) node.now local.now self.now) (IsChosen source.now.subject.now.spec.now (configuration_of source.now.subject.now.start.now) node.now local.now self.now)) }
    {
        let _m = source.subject.spec.m(); // for the proof: it is at most 8
        let i = self.numbers.len();
        let is_alive = may_be_alive(source.subject, node, i, local);
        let Some(left) = self.left_if(is_alive) else {
            return Ok(None);
        };
        let said = joined(source.subject, self.said.as_slice(), local.own.as_slice())?;
        Ok(Some(Choice {
            index: self.index,
            numbers: with_number(&self.numbers, number),
            crashed: with_mark(&self.crashed, is_to_crash(source.subject, i, is_alive)),
            said,
            left,
        }))
    }

    /// How many more may crash after one more is chosen, which is alive, or else has crashed. `None` if none may.
    fn left_if(&self, is_alive: bool) -> Option<u32>
        ensures few { IfSome result (λ left. self.now.left ≤ left + 1) }
        ensures same { IfSome result (λ left. is_alive ≡ true → left ≡ self.now.left) }
        ensures none { IfNone result ((is_alive ≡ false) × (self.now.left ≡ 0)) }
    {
        if is_alive {
            return Some(self.left);
        }
        if self.left == 0 {
            return None;
        }
        Some(self.left - 1)
    }

    /// A schedule that is to lead there: those that can go further crash. Whether it leads there is seen when it is run.
    pub fn schedule(&self, source: &Source<'_>) -> Result<Vec<Stretch>, AllocError>
        requires { IsSearched source.now.subject.now.spec.now source.now.explored.now }
    {
        let mut schedule = schedule_to(
            source.subject,
            source.explored,
            self.index,
            copied_numbers(&self.numbers),
        )?;
        for i in 0..self.crashed.len() {
            if self.crashed.as_slice()[i] {
                schedule.push(Stretch::Crash { simulator: i as u8 })?;
            }
        }
        Ok(schedule)
    }
}

/// How many simulators have crashed at least, in each room of the node in which the others can go no further.
pub fn fewest_crashed(source: &Source<'_>, node: &Node) -> u32
    requires searched { IsSearched source.now.subject.now.spec.now source.now.explored.now }
    requires node { IsNode source.now.subject.now.spec.now source.now.explored.now.moves.table.keys node.now }
    ensures { HaveCrashed source.now.subject.now.spec.now (configuration_of source.now.subject.now.start.now) source.now.explored.now.moves.table.keys node.now source.now.subject.now.spec.now.simulators result }
{
    let _m = source.subject.spec.m(); // for the proof: it is at most 8
    let mut count = 0;
    for i in 0..source.subject.spec.m() {
        count += one_unless(is_alive_in(source, node, i));
    }
    count
}

fn one_unless(is_so: bool) -> u32
    ensures none { is_so ≡ true → result ≡ 0 }
    ensures few { result ≤ 1 }
{
    if is_so { 0 } else { 1 }
}

/// Whether simulator `i` may not have crashed in a room of the node in which it can go no further.
fn is_alive_in(source: &Source<'_>, node: &Node, i: usize) -> bool
    requires searched { IsSearched source.now.subject.now.spec.now source.now.explored.now }
    requires node { IsNode source.now.subject.now.spec.now source.now.explored.now.moves.table.keys node.now }
    requires simulator { i < source.now.subject.now.spec.now.simulators }
    ensures { result ≡ false → (local : LocalValue) → MayBe source.now.explored.now.moves.table.keys node.now i local →
        MustHaveCrashed source.now.subject.now.spec.now (configuration_of source.now.subject.now.start.now) node.now i local }
{
    for number in node.set(i) {
        if is_alive_at(source, node, i, *number) {
            return true;
        }
    }
    false
}

/// Whether it may not have crashed where it is in the local state of this number.
fn is_alive_at(source: &Source<'_>, node: &Node, i: usize, number: u32) -> bool
    requires searched { IsSearched source.now.subject.now.spec.now source.now.explored.now }
    requires node { AreWords source.now.subject.now.spec.now node.now.said }
    ensures { result ≡ false → (local : LocalValue) → slice_get source.now.explored.now.moves.table.keys number ≡ Some local →
        MustHaveCrashed source.now.subject.now.spec.now (configuration_of source.now.subject.now.start.now) node.now i local }
{
    match source.explored.moves.table.get_index(number as usize) {
        None => false,
        Some(local) => may_be_alive(source.subject, node, i, local),
    }
}

/// Whether simulator `i` may not have crashed where it is in this local state in a room of the node.
fn may_be_alive(subject: &Subject<'_>, node: &Node, i: usize, local: &Local) -> bool
    requires local { IsLocal subject.now.spec.now local.now }
    requires node { AreWords subject.now.spec.now node.now.said }
    ensures { result ≡ false → MustHaveCrashed subject.now.spec.now (configuration_of subject.now.start.now) node.now i local.now }
{
    if has_crashed(subject, i) {
        return false;
    }
    may_rest(subject, node.said(), &local.known)
}

/// Whether a simulator is to crash: it isn't alive any more, and was at the start.
fn is_to_crash(subject: &Subject<'_>, i: usize, is_alive: bool) -> bool {
    !is_alive && !has_crashed(subject, i)
}

/// The numbers once more.
fn copied_numbers(numbers: &Numbers) -> Numbers
    ensures { result.items ≡ numbers.now.items }
{
    let mut copy = Numbers::new();
    let Ok(()) = copy.try_extend_from_slice(numbers.as_slice()) else {
        unreachable!() // both have the same capacity
    };
    copy
}

/// The numbers, and one more.
fn with_number(numbers: &Numbers, number: u32) -> Numbers
    requires { length numbers.now.items < MAX_SIMULATORS }
    ensures { length result.items ≡ length numbers.now.items + 1 }
{
    let mut more = copied_numbers(numbers);
    more.push(number);
    more
}

/// The marks, and one more if there is room for it.
fn with_mark(marks: &Marks, mark: bool) -> Marks {
    let mut more = Marks::new();
    for old in marks.as_slice() {
        if more.len() < MAX_SIMULATORS {
            more.push(*old);
        }
    }
    if more.len() < MAX_SIMULATORS {
        more.push(mark);
    }
    more
}

/// What one of two says.
fn joined(subject: &Subject<'_>, said: &[u64], own: &[u64]) -> Result<Vec<u64>, AllocError>
    requires said { AreWords subject.now.spec.now said.now }
    requires own { AreWords subject.now.spec.now own.now }
    ensures words { IfOk result (λ joined. AreWords subject.now.spec.now joined.items) }
    ensures says { IfOk result (λ joined. (words : List ℕ) → DoSay said.now words → DoSay own.now words → DoSay joined.items words) }
{
    let mut joined = Vec::with_capacity(subject.alloc, said.len())?;
    for index in 0..said.len() {
        joined.push(one_of(said[index], own[index]))?;
    }
    Ok(joined)
}

/// The first number, or the second if the first is 0.
fn one_of(said: u64, own: u64) -> u64
    ensures { (result ≡ said) ⊎ (result ≡ own) }
{
    if said > 0 { said } else { own }
}
