//! Where steps lead, by numbers: what nodes say and the local states of simulators are kept once each, and the next step from each is taken once.
ghost use Rattle.std.specs.Prelude.{◌≡◌, ◌<◌, ℕ, IfOk, IfSome, List, OnOk, Some, length, slice_get};
ghost use Rattle.room_spec.specs.Rooms.{RoomSpec};
ghost use Rattle.room_search.specs.declared.local.Local.{Local as LocalValue};
ghost use Rattle.room_search.specs.Moving.{AreMoves, GoOn, IsKnownLead, IsLead, IsLeadOf, IsSaidAt, IsWithinLead};
ghost use Rattle.room_search.specs.Nodes.{IsNumberOf};
ghost use Rattle.room_search.specs.Steps.{AreSaid, AreWords, IsKnowledge, IsLocal, IsNext, IsStepOf, IsWithinNext};

use crate::local::Local;
use crate::shown::Said;
use crate::stepping::{Next, Stepped, after_step, copied};
use crate::subject::Subject;
use crate::table::{Table, numbered};
use indexmap::{IndexMap, IndexSet};
use run_search::SearchFault;
use std::alloc::{AllocError, Global};

/// A simulator in a local state, where something is said of the words: both by their numbers.
#[derive(Clone, Copy, PartialEq, Eq, Hash)]
pub struct Situation {
    pub said: u32,
    pub simulator: u8,
    pub number: u32,
}

/// Where the next step from a situation leads.
#[derive(Clone, Copy)]
pub enum Lead {
    /// There is none: all processes of the simulator are done or spent.
    Nothing,
    /// It works on a word of which nothing is said. There is no such step in a room.
    Lost,
    /// What is said then, and the local state of the simulator then, by their numbers.
    To { said: u32, number: u32 },
}

/// What is said in nodes, local states, and where steps lead.
#[derive(Drop)]
pub struct Moves {
    pub said: IndexSet<Vec<u64>>,
    pub table: Table,
    leads: IndexMap<Situation, Lead>,
}

impl Moves {
    /// Nothing is known so far.
    pub fn nothing(alloc: Global) -> Moves
        ensures { (spec : RoomSpec) → AreMoves spec result }
    {
        Moves {
            said: IndexSet::new(alloc),
            table: IndexSet::new(alloc),
            leads: IndexMap::new(alloc),
        }
    }

    /// The number of what is said, which is added if it isn't there.
    ///
    /// # Errors
    ///
    /// `TooManyNodes` if there are more than 2 ^ 32; `OutOfMemory` if an allocation fails.
    pub fn number_of(&mut self, subject: &Subject<'_>, said: Vec<u64>) -> Result<u32, SearchFault>
        requires moves { AreMoves subject.now.spec.now self.old }
        requires said { AreWords subject.now.spec.now said.items }
        ensures moves { OnOk result (GoOn subject.now.spec.now self.old self.new) }
        ensures table { OnOk result (self.new.table.keys ≡ self.old.table.keys) }
        ensures number { IfOk result (λ number. IsSaidAt self.new.said.keys number said.items) }
    {
        let (index, _) = self.said.insert_full(said)?;
        match u32::try_from(index) {
            Ok(number) => Ok(number),
            Err(_) => Err(SearchFault::TooManyNodes),
        }
    }

    /// Where the next step from this situation leads.
    ///
    /// # Errors
    ///
    /// As those of [`Moves::number_of`].
    pub fn lead(&mut self, subject: &Subject<'_>, from: Situation) -> Result<Lead, SearchFault>
        requires moves { AreMoves subject.now.spec.now self.old }
        requires simulator { from.simulator < subject.now.spec.now.simulators }
        requires said { from.said < length self.old.said.keys }
        requires number { from.number < length self.old.table.keys }
        ensures moves { OnOk result (GoOn subject.now.spec.now self.old self.new) }
        ensures lead { IfOk result (IsLead subject.now.spec.now self.new.said.keys self.new.table.keys from) }
        ensures within { IfOk result (IsWithinLead self.new.said.keys self.new.table.keys) }
    {
        if let Some(known) = self.known(from) {
            return Ok(known);
        }
        let next = self.next(subject, from)?;
        let lead = self.numbers(subject, next)?;
        self.leads.insert(from, lead)?;
        Ok(lead)
    }

    /// Where the next step leads from a situation that was met.
    fn known(&self, from: Situation) -> Option<Lead>
        ensures { IfSome result (λ lead. (spec : RoomSpec) → AreMoves spec self.now → IsKnownLead spec self.now.said.keys self.now.table.keys (from, lead)) }
    {
        match self.leads.get(&from) {
            Some(lead) => Some(*lead),
            None => None,
        }
    }

    /// What comes of the next step from this situation.
    fn next(&self, subject: &Subject<'_>, from: Situation) -> Result<Next, AllocError>
        requires moves { AreMoves subject.now.spec.now self.now }
        requires simulator { from.simulator < subject.now.spec.now.simulators }
        requires said { from.said < length self.now.said.keys }
        requires number { from.number < length self.now.table.keys }
        ensures { IfOk result (λ next. (said : List ℕ) (local : LocalValue) →
            IsSaidAt self.now.said.keys from.said said → slice_get self.now.table.keys from.number ≡ Some local →
            IsNext subject.now.spec.now said from.simulator local next) }
    {
        let Some(local) = self.table.get_index(from.number as usize) else {
            unreachable!() // it is one of the table
        };
        let Some(said) = self.said.get_index(from.said as usize) else {
            unreachable!() // so is this
        };
        let next = after_step(subject, said, usize::from(from.simulator), local)?;
        Ok(next)
    }

    /// Where it leads, by numbers.
    fn numbers(&mut self, subject: &Subject<'_>, next: Next) -> Result<Lead, SearchFault>
        requires moves { AreMoves subject.now.spec.now self.old }
        requires within { IsWithinNext subject.now.spec.now next }
        ensures moves { OnOk result (GoOn subject.now.spec.now self.old self.new) }
        ensures lead { IfOk result (λ lead. (said : List ℕ) (i : ℕ) (local : LocalValue) →
            IsNext subject.now.spec.now said i local next →
            IsLeadOf subject.now.spec.now self.new.said.keys self.new.table.keys said i local lead) }
        ensures numbers { IfOk result (IsWithinLead self.new.said.keys self.new.table.keys) }
    {
        match next {
            Next::Nothing => Ok(Lead::Nothing),
            Next::Lost => Ok(Lead::Lost),
            Next::To(after) => self.numbers_after(subject, after),
        }
    }

    /// What is said after a step, and the local state after it, by numbers.
    fn numbers_after(&mut self, subject: &Subject<'_>, after: Stepped) -> Result<Lead, SearchFault>
        requires moves { AreMoves subject.now.spec.now self.old }
        requires known { IsKnowledge subject.now.spec.now after.known }
        requires said { AreSaid subject.now.spec.now after.said }
        ensures moves { OnOk result (GoOn subject.now.spec.now self.old self.new) }
        ensures lead { IfOk result (λ lead. (said : List ℕ) (i : ℕ) (local : LocalValue) →
            IsStepOf subject.now.spec.now said i local after →
            IsLeadOf subject.now.spec.now self.new.said.keys self.new.table.keys said i local lead) }
        ensures numbers { IfOk result (IsWithinLead self.new.said.keys self.new.table.keys) }
    {
        let Stepped { known, said } = after;
        let Said { shown, own } = said;
        let number = self.number_of_local(subject, Local { known, own })?;
        let said = self.number_of(subject, shown)?;
        Ok(Lead::To { said, number })
    }

    /// The number of a local state, which is added to the table if it isn't there.
    ///
    /// # Errors
    ///
    /// As those of [`Moves::number_of`].
    pub fn number_of_local(
        &mut self,
        subject: &Subject<'_>,
        local: Local,
    ) -> Result<u32, SearchFault>
        requires moves { AreMoves subject.now.spec.now self.old }
        requires local { IsLocal subject.now.spec.now local }
        ensures moves { OnOk result (GoOn subject.now.spec.now self.old self.new) }
        ensures number { IfOk result (IsNumberOf self.new.table.keys local) }
    {
        let number = numbered(&mut self.table, local)?;
        Ok(number)
    }

    /// What has this number, once more.
    pub fn copy_said(&self, alloc: Global, number: u32) -> Result<Vec<u64>, AllocError>
        requires { number < length self.now.said.keys }
        ensures { IfOk result (λ copy. IsSaidAt self.now.said.keys number copy.items) }
    {
        let Some(said) = self.said.get_index(number as usize) else {
            unreachable!() // the number is one of these
        };
        let copy = copied(alloc, said)?;
        Ok(copy)
    }
}
