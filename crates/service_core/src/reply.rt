//! What a service answers.
ghost use Rattle.std.specs.Prelude.{◌≡◌, Some};
ghost use Rattle.service_core.specs.Replies.{refusal_code, refusal_sentence};

use room_core::{CrashReply, StepReply};
use std::error::Error;
use std::fmt;
use ws_history::Report;

/// Why a command was refused. It has changed no room.
#[derive(Clone, Copy, Debug, PartialEq, Eq)]
pub enum Refusal {
    /// No room has this name.
    NoRoom,
    /// A room has this name already.
    NameTaken,
    /// The room has no such simulator.
    NoSimulator,
    /// An allocation failed.
    OutOfMemory,
}

impl Refusal {
    /// The number by which replies name the refusal: 40, 41, 42 or 8, in the order of the variants.
    pub fn code(self) -> u16
        ensures { result ≡ refusal_code self }
    {
        match self {
            Refusal::NoRoom => 40,
            Refusal::NameTaken => 41,
            Refusal::NoSimulator => 42,
            Refusal::OutOfMemory => 8,
        }
    }

    /// What the refusal says, in one sentence.
    #[tactic(auto, unfolding(crate::specs::Replies::refusal_sentence))]
    pub fn sentence(self) -> &'static str
        ensures { result.now ≡ refusal_sentence self }
    {
        match self {
            Refusal::NoRoom => "no room has this name",
            Refusal::NameTaken => "a room has this name already",
            Refusal::NoSimulator => "the room has no simulator of this number",
            Refusal::OutOfMemory => "out of memory",
        }
    }
}

impl fmt::Display for Refusal {
    ghost output = { λ refusal. Some (refusal_sentence refusal) };

    fn fmt<W: fmt::Write>(&self, f: &mut fmt::Formatter<W>) -> fmt::Result {
        f.write_str(self.sentence())
    }
}

impl Error for Refusal {}

/// The reply to a command.
#[derive(Drop)]
pub enum Reply {
    /// The room is open.
    Begun,
    /// The simulator took `taken` steps, and the last call for one was answered by `last`.
    Steps { taken: u16, last: StepReply },
    /// Whether the simulator has crashed now, or had before.
    Crash(CrashReply),
    /// The room is settled.
    Settled,
    /// The report of the room.
    Report(Report),
    /// The room is closed.
    Closed,
    /// The command was refused.
    Refused(Refusal),
}
