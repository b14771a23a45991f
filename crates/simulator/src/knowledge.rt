//! What a simulator knows, without how much it has done.
ghost use Rattle.std.specs.Prelude.{◌≡◌};
ghost use Rattle.simulator.specs.Knowing.{knowledge_of, mind_of};
ghost use Rattle.simulator.specs.Minds.{goal_at};

use crate::goal::{Goal, goal_in};
use crate::line::Line;
use crate::mind::Mind;
use crate::snapshot::Snapshot;
use arrayvec::ArrayVec;
use protocol_lang::View;
use room_spec::{MAX_MEMORY_WORDS, MAX_PROCESSES};

/// What a simulator knows: its mind without the counts of its turns and steps. While turns are left, simulators that know the
/// same take the same steps.
#[derive(PartialEq, Eq, Hash, Drop)]
pub struct Knowledge {
    number: u8,
    goals: ArrayVec<Goal, MAX_PROCESSES>,
    process: u8,
    line: Line,
    word: u8,
    collects: u16,
    before: [u64; MAX_MEMORY_WORDS],
    snapshot: [u64; MAX_MEMORY_WORDS],
    entries: View,
    inputs: ArrayVec<u32, MAX_PROCESSES>,
    decision: Option<u32>,
}

impl Knowledge {
    /// What is left to do for a process; nothing, for one that the room hasn't.
    pub fn goal(&self, process: usize) -> Goal
        ensures { result ≡ goal_at self.now.goals.items process }
    {
        goal_in(self.goals.as_slice(), process)
    }
}

impl Mind {
    /// What it knows.
    pub fn knowledge(&self) -> Knowledge
        ensures { result ≡ knowledge_of self.now }
    {
        Knowledge {
            number: self.number,
            goals: copied_goals(&self.goals),
            process: self.process,
            line: self.line,
            word: self.word,
            collects: self.collects,
            before: self.before,
            snapshot: self.snapshot.words(),
            entries: copied_entries(&self.entries),
            inputs: copied_inputs(&self.inputs),
            decision: self.decision,
        }
    }

    /// A mind that knows this. It has taken no step, and has begun a turn only if one is open.
    pub fn knowing(knowledge: &Knowledge) -> Mind
        ensures { result ≡ mind_of knowledge.now }
    {
        Mind {
            number: knowledge.number,
            goals: copied_goals(&knowledge.goals),
            process: knowledge.process,
            turns: u16::from(!matches!(knowledge.line, Line::Rest)),
            steps: 0,
            turn_steps: 0,
            line: knowledge.line,
            word: knowledge.word,
            collects: knowledge.collects,
            before: knowledge.before,
            snapshot: Snapshot::of(knowledge.snapshot),
            entries: copied_entries(&knowledge.entries),
            inputs: copied_inputs(&knowledge.inputs),
            decision: knowledge.decision,
        }
    }
}

fn copied_goals(goals: &ArrayVec<Goal, MAX_PROCESSES>) -> ArrayVec<Goal, MAX_PROCESSES>
    ensures { result.items ≡ goals.now.items }
{
    let mut copy = ArrayVec::new();
    let Ok(()) = copy.try_extend_from_slice(goals.as_slice()) else {
        unreachable!() // both have the same capacity
    };
    copy
}

fn copied_entries(entries: &View) -> View
    ensures { result.items ≡ entries.now.items }
{
    let mut copy = View::new();
    let Ok(()) = copy.try_extend_from_slice(entries.as_slice()) else {
        unreachable!() // both have the same capacity
    };
    copy
}

fn copied_inputs(inputs: &ArrayVec<u32, MAX_PROCESSES>) -> ArrayVec<u32, MAX_PROCESSES>
    ensures { result.items ≡ inputs.now.items }
{
    let mut copy = ArrayVec::new();
    let Ok(()) = copy.try_extend_from_slice(inputs.as_slice()) else {
        unreachable!() // both have the same capacity
    };
    copy
}
