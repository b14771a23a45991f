//! What a room answers.

/// What a call of [`step`](crate::RoomCore::step) did.
#[derive(Clone, Copy, Debug, PartialEq, Eq)]
pub enum StepReply {
    /// The simulator took one atomic step.
    Stepped,
    /// It took none: since it last came further it has asked in vain for each unfinished process.
    Idle,
    /// It took none: it is between two turns, and has used up all that the room gives it.
    OutOfTurns,
    /// It took none: it has crashed.
    Crashed,
    /// The room has no such simulator.
    NoSimulator,
}

/// What a call of [`crash`](crate::RoomCore::crash) did.
#[derive(Clone, Copy, Debug, PartialEq, Eq)]
pub enum CrashReply {
    /// The simulator has crashed now.
    Crashed,
    /// It had crashed before.
    AlreadyCrashed,
    /// The room has no such simulator.
    NoSimulator,
}
