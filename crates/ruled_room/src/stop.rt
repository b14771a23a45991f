//! Why a simulator is taken back.

/// Why a simulator takes no further step.
#[derive(Clone, Copy, Debug, PartialEq, Eq)]
pub enum Stop {
    /// It is between two turns, and has asked in vain for each unfinished process since it last
    /// came further.
    Idle,
    /// It is between two turns, and has used up all that the room gives it.
    OutOfTurns,
    /// It has crashed: it never takes a step again.
    Crashed,
}
