//! What happens in a room: atomic steps and crashes.
ghost use Rattle.std.specs.Prelude.{◌≡◌};
ghost use Rattle.run_columns.specs.Columns.{simulator_of};

use simulator::Turn;

/// What an atomic step does for its process.
#[derive(Clone, Copy)]
pub enum StepKind {
    /// It stores the process's next write, or in round 0 the input that it proposes for the process.
    StoreWrite,
    /// It counts that write.
    CountWrite,
    /// It loads the step numbers, or one word of them.
    Snapshot,
    /// It stores that snapshot as a proposal, or one word of it.
    Propose,
    /// It enters the agreement.
    Enter,
    /// It looks at the levels of those who are in the agreement.
    Look,
    /// It leaves the agreement, and its proposal is kept.
    Stand,
    /// It leaves the agreement, and its proposal is withdrawn.
    Withdraw,
    /// It asks which proposal was chosen.
    Ask,
    /// It loads the chosen proposal, or one word of it.
    LoadView,
    /// It loads a value that the chosen proposal shows, or in round 0 the chosen input.
    LoadValue,
    /// It stores the decision.
    Decide,
}

/// An atomic step of a simulator.
#[derive(Clone, Copy)]
pub struct Step {
    /// To which of the simulator's turns it belongs, counted from 1.
    pub turn: u64,
    pub simulator: u8,
    /// The process that the turn works on.
    pub process: u8,
    /// The round of the process, counted from 1; 0 while a reduction's simulators agree on the process's input.
    pub round: u8,
    /// Which word of a snapshot it loads or stores, counted from 0, if the snapshot takes several.
    pub word: Option<u8>,
    /// The number that it stores in its word of the shared memory; 0 if it stores none. Of a proposal it is a word of step numbers, or an input.
    pub stored: u64,
    pub kind: StepKind,
    /// Whether it ends the turn, and how.
    pub end: Turn,
    /// What the simulator decides by it, if it does.
    pub decision: Option<u32>,
}

/// Something that happens in a room.
#[derive(Clone, Copy)]
pub enum Mark {
    /// A simulator takes a step.
    Step(Step),
    /// A simulator crashes.
    Crash { simulator: u8 },
}

impl Mark {
    /// The simulator that it happens to.
    pub fn simulator(self) -> u8
        ensures { result ≡ simulator_of self }
    {
        match self {
            Mark::Step(step) => step.simulator,
            Mark::Crash { simulator } => simulator,
        }
    }
}
