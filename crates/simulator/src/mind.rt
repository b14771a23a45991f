//! What a simulator has in mind.
ghost use Rattle.std.specs.Prelude.{◌≡◌, ◌<◌, length, nat_lt};
ghost use Rattle.room_spec.specs.Sizes.{sizes_in};
ghost use Rattle.view_table.specs.Places.{words_of};
ghost use Rattle.simulator.specs.Minds.{goal_at, known_input, next_process, opening_mind, unfinished_in};
ghost use Rattle.simulator.specs.Moves.{IsWithin, move_of};
ghost use Rattle.simulator.specs.Ranges.{IsMind};
ghost use Rattle.simulator.specs.Sweeps.{is_resting, works_on};

use crate::goal::{
    Goal, goal_in, more_unfinished, next_process, opening_goals, opening_inputs, unfinished_in,
};
use crate::line::Line;
use crate::operation::Move;
use crate::snapshot::Snapshot;
use arrayvec::ArrayVec;
use protocol_lang::View;
use room_spec::{MAX_MEMORY_WORDS, MAX_PROCESSES, Spec};
use std::marker::Model;

/// The local state of a simulator: what it knows of its processes, where its sweep is, how many turns and atomic steps
/// it has taken, and its place in an open turn. A mind is that of one room: each call is given that
/// room's spec. No call takes memory.
#[derive(Drop)]
pub struct Mind {
    pub(crate) number: u8,
    pub(crate) goals: ArrayVec<Goal, MAX_PROCESSES>,
    pub(crate) process: u8,
    pub(crate) turns: u16,
    pub(crate) steps: u32,
    pub(crate) turn_steps: u16,
    pub(crate) line: Line,
    pub(crate) word: u8,
    pub(crate) collects: u16,
    pub(crate) before: [u64; MAX_MEMORY_WORDS],
    pub(crate) snapshot: Snapshot,
    pub(crate) entries: View,
    pub(crate) inputs: ArrayVec<u32, MAX_PROCESSES>,
    pub(crate) decision: Option<u32>,
}

impl Model for Mind {
    ghost use Rattle.simulator.specs.Minds.{MindState};

    ghost Value = { MindState };

    ghost view = { λ m. record {
      number = m.number;
      goals = m.goals.items;
      process = m.process;
      turns = m.turns;
      steps = m.steps;
      turn_steps = m.turn_steps;
      line = m.line;
      word = m.word;
      collects = m.collects;
      before = m.before;
      snapshot = m.snapshot;
      entries = m.entries.items;
      inputs = m.inputs.items;
      decision = m.decision;
    } };
}

impl Mind {
    /// The mind of simulator `i` before its first step.
    #[tactic(auto, using(crate::proofs::Keeping::opens_of))]
    pub fn new(spec: &Spec, i: usize) -> Mind
        requires { i < spec.now.simulators }
        ensures value { result ≡ opening_mind spec.now i }
        ensures is_mind { IsMind spec.now result }
    {
        let shape = spec.shape();
        Mind {
            number: i as u8,
            goals: opening_goals(spec, i),
            process: (i % shape.n) as u8,
            turns: 0,
            steps: 0,
            turn_steps: 0,
            line: Line::Rest,
            word: 0,
            collects: 0,
            before: [0; MAX_MEMORY_WORDS],
            snapshot: Snapshot::nothing(),
            entries: View::new(),
            inputs: opening_inputs(spec),
            decision: None,
        }
    }

    /// The atomic step that comes next. If no process is unfinished it is `Finished`, and else,
    /// if a turn would begin and all turns are used up, `OutOfTurns`.
    #[tactic(auto, using(crate::proofs::Ranging::within_of))]
    pub fn next_move(&self, spec: &Spec) -> Move
        requires { IsMind spec.now self.now }
        ensures value { result ≡ move_of spec.now self.now }
        ensures within { IsWithin result (words_of (sizes_in spec.now)) }
    {
        self.move_at(spec, self.line)
    }

    /// Whether it is between two turns.
    pub fn resting(&self) -> bool
        ensures { result ≡ is_resting self.now.line }
    {
        matches!(self.line, Line::Rest)
    }

    /// How many atomic steps it has taken.
    pub fn steps_taken(&self) -> u64
        ensures { result ≡ self.now.steps }
    {
        u64::from(self.steps)
    }

    /// How many turns it has begun, at most those that the room gives to each simulator.
    pub fn turns_taken(&self) -> u64
        ensures { result ≡ self.now.turns }
    {
        u64::from(self.turns)
    }

    /// Whether the room gives it one turn more.
    pub(crate) fn has_turn_left(&self, spec: &Spec) -> bool
        ensures { result ≡ nat_lt self.now.turns spec.now.turns }
    {
        self.turns_taken() < spec.turns()
    }

    /// How many whole collects the scan of its open turn has made; 0 if no turn is open, and where
    /// the room's memory is one word.
    pub fn collects(&self) -> u32
        ensures { result ≡ self.now.collects }
    {
        u32::from(self.collects)
    }

    /// How many atomic steps it has taken in its open turn, below its limit; 0 between two turns.
    pub fn turn_steps(&self) -> u64
        ensures { result ≡ self.now.turn_steps }
    {
        u64::from(self.turn_steps)
    }

    /// The line of its open turn at which it is, or `Rest` between two turns.
    pub fn line(&self) -> Line
        ensures { result ≡ self.now.line }
    {
        self.line
    }

    /// What is left to do for a process; nothing, for one that the room hasn't.
    pub fn goal(&self, process: usize) -> Goal
        ensures { result ≡ goal_at self.now.goals process }
    {
        goal_in(self.goals.as_slice(), process)
    }

    /// The input of a process that was agreed on, as far as it knows. `None` before that, for a process that the room hasn't, and in
    /// an ordinary room, which has no such agreement.
    pub fn input(&self, process: usize) -> Option<u32>
        ensures { result ≡ known_input self.now process }
    {
        if !self.goal(process).has_input() {
            return None;
        }
        match self.inputs.as_slice().get(process) {
            Some(input) => Some(*input),
            None => None,
        }
    }

    /// What it has decided: the first decision of a process that it has stored. It stays so, whatever it stores later. `None` if
    /// it has stored none.
    pub fn decision(&self) -> Option<u32>
        ensures { result ≡ self.now.decision }
    {
        self.decision
    }

    /// The process on which its next atomic step works: that of its open turn, or between two turns that of the
    /// turn which would begin. `None` if no process is unfinished then.
    pub fn works_on(&self, spec: &Spec) -> Option<usize>
        requires { IsMind spec.now self.now }
        ensures { result ≡ works_on self.now }
    {
        if self.resting() {
            self.next_process()
        } else {
            Some(self.process())
        }
    }

    /// The process of the turn that would begin.
    #[inline(always)]
    pub(crate) fn next_process(&self) -> Option<usize>
        requires { self.now.process < length self.now.goals }
        ensures { result ≡ next_process self.now.goals self.now.process }
    {
        next_process(self.goals.as_slice(), self.process())
    }

    /// Which simulator it is.
    pub(crate) fn number(&self) -> usize
        ensures { result ≡ self.now.number }
    {
        usize::from(self.number)
    }

    /// The process at which its sweep is.
    pub(crate) fn process(&self) -> usize
        ensures { result ≡ self.now.process }
    {
        usize::from(self.process)
    }

    /// The memory word on which its line works.
    pub(crate) fn word(&self) -> usize
        ensures { result ≡ self.now.word }
    {
        usize::from(self.word)
    }

    /// For how many processes something is left to do, 0 to 16.
    pub fn unfinished(&self) -> usize
        ensures { result ≡ unfinished_in self.now.goals }
    {
        unfinished_in(self.goals.as_slice())
    }

    /// Whether something is left to do for more than `count` processes.
    pub(crate) fn more_unfinished(&self, count: u8) -> bool
        ensures { result ≡ nat_lt count (unfinished_in self.now.goals) }
    {
        more_unfinished(self.goals.as_slice(), count)
    }
}
