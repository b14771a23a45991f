//! Outcomes, and how often each came.
ghost use Rattle.std.specs.Prelude.{◌≡◌, ◌<◌, [], IfOk, IsPermutation, OnErr, OnOk, length, map, option_map, slice_get};
ghost use Rattle.room_sample.specs.Samples.{AreMostFirst, counted_of, place_of};
ghost use Rattle.room_sample.specs.Groups.{ArePatterns, grouped, joined, without_holder};
ghost use Rattle.room_sample.specs.Parts.{added, added_all, more_at};

use crate::entries::{add, add_all, come_again};
use arrayvec::ArrayVec;
use indexmap::{IndexMap, IndexSet};
use room_spec::MAX_PROCESSES;
use std::alloc::{AllocError, Global};
use std::cmp::Reverse;
use std::marker::Model;
use ws_history::ProcessState;

/// The state of each process of a room, in order of their numbers.
pub type States = ArrayVec<ProcessState, MAX_PROCESSES>;

/// How often an outcome came, and by which schedule first.
#[derive(Clone, Copy)]
pub struct Outcome {
    /// By how many schedules it came.
    pub times: u32,
    /// The number of the first schedule that led to it. The schedule isn't kept: the seed and this number give it again.
    pub first: u32,
}

/// The outcomes of a room, in the order in which each came first.
#[derive(Drop)]
pub struct Tally {
    outcomes: IndexMap<States, Outcome>,
}

impl Model for Tally {
    ghost use Rattle.std.specs.Prelude.{List};
    ghost use Rattle.room_sample.specs.Samples.{Counted, outcomes_in};

    ghost Value = { List Counted };

    ghost view = { λ tally. outcomes_in tally.outcomes.entries };
}

impl Tally {
    /// No outcomes.
    pub(crate) fn new(alloc: Global) -> Tally
        ensures { result ≡ [] }
    {
        Tally {
            outcomes: IndexMap::new(alloc),
        }
    }

    /// Adds the outcomes of later schedules, which were counted on their own. An `Err` leaves these as they were.
    pub(crate) fn add_all(&mut self, later: Tally) -> Result<(), AllocError>
        ensures all { OnOk result (self.new ≡ added_all self.old later) }
        ensures err { OnErr result (self.new ≡ self.old) }
    {
        add_all(&mut self.outcomes, later.outcomes)
    }

    /// Adds an outcome, as often as it came. If it has come before, it keeps the number of its first schedule.
    pub(crate) fn add(&mut self, states: States, outcome: Outcome) -> Result<(), AllocError>
        ensures { OnOk result (self.new ≡ added (counted_of (states, outcome)) self.old) }
    {
        add(&mut self.outcomes, states, outcome)
    }

    /// Counts an outcome this many times more.
    fn come_again(&mut self, index: usize, times: u32)
        requires { index < length self.old }
        ensures { self.new ≡ more_at self.old index times }
    {
        come_again(&mut self.outcomes, index, times);
    }

    /// Puts outcomes into one group that differ only in which simulators hold processes. A group is its first outcome, as often as all of its
    /// outcomes came.
    ///
    /// # Errors
    ///
    /// An allocation that fails.
    pub fn grouped(self, alloc: Global) -> Result<Tally, AllocError>
        ensures { IfOk result (λ groups. groups ≡ grouped self) }
    {
        let mut groups = Tally::new(alloc);
        let mut patterns = IndexSet::new(alloc);
        for (states, outcome) in self.outcomes {
            groups.join(&mut patterns, states, outcome)?;
        }
        Ok(groups)
    }

    /// Adds an outcome to its group, or begins one. The group of an index has the pattern of that index.
    fn join(
        &mut self,
        patterns: &mut IndexSet<States>,
        states: States,
        outcome: Outcome,
    ) -> Result<(), AllocError>
        requires { ArePatterns self.old patterns.old.keys }
        ensures joined { OnOk result (self.new ≡ joined (counted_of (states, outcome)) self.old) }
        ensures patterns { OnOk result (ArePatterns self.new patterns.new.keys) }
    {
        let pattern = pattern_of(&states);
        let Some(index) = patterns.get_index_of(&pattern) else {
            patterns.insert(pattern)?;
            self.add(states, outcome)?;
            return Ok(());
        };
        self.come_again(index, outcome.times);
        Ok(())
    }

    /// Puts those first that came most often, and of those that came as often the one that came first, in a plan that begins with the schedule of this number.
    ///
    /// # Errors
    ///
    /// An allocation that fails.
    pub fn sort_by_times(&mut self, from: u32) -> Result<(), AllocError>
        ensures sorted { OnOk result (AreMostFirst from self.new) }
        ensures all { IsPermutation self.old self.new }
    {
        self.outcomes
            .sort_by_key(|_states, outcome| rank_of(outcome, from))
    }

    /// How many outcomes there are.
    pub fn len(&self) -> usize
        ensures { result ≡ length self.now }
    {
        self.outcomes.len()
    }

    /// The outcome of this index.
    pub fn get(&self, index: usize) -> Option<(&States, &Outcome)>
        ensures { option_map (λ one. counted_of (one.0.now, one.1.now)) result ≡ slice_get self.now index }
    {
        self.outcomes.get_index(index)
    }
}

/// By what outcomes are in order: how often they came, and the places of their first schedules.
fn rank_of(outcome: &Outcome, from: u32) -> (Reverse<u32>, u32)
    ensures { result ≡ (record { 0 = outcome.now.times }, place_of from outcome.now.first) }
{
    (Reverse(outcome.times), outcome.first.wrapping_sub(from))
}

/// The states, whichever simulators hold.
fn pattern_of(states: &States) -> States
    ensures { result.items ≡ map without_holder states.now.items }
{
    let states = states.as_slice();
    let mut pattern = States::new();
    for at in 0..states.len() {
        pattern.push(without_holder(states[at]));
    }
    pattern
}

/// The state of a process, whichever simulator holds it.
fn without_holder(state: ProcessState) -> ProcessState
    ensures { result ≡ without_holder state }
{
    match state {
        ProcessState::Held(_) => ProcessState::Held(0),
        ProcessState::Decided(_) | ProcessState::Spent | ProcessState::Going => state,
    }
}
