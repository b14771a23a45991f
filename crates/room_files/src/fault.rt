//! Why an input was not read, and why a block of it opens no room.
ghost use Rattle.std.specs.Prelude.{◌≡◌, Some};
ghost use Rattle.room_files.specs.Faults.{block_sentence, of_fed, text_code, text_sentence};
ghost use Rattle.room_files.specs.declared.fault.InputFault.TheVariants.{BadInput, Memory};

use history_checker::{AddFault, FeedFault, NoRoom};
use room_spec::SpecFault;
use std::alloc::AllocError;
use std::fmt;
use thiserror::Error;
use transcript::LineFault;

/// What is wrong with a line of an input that no block has, or with the input's end.
#[derive(Clone, Copy, Debug)]
pub enum TextFault {
    /// The line is no event line.
    BadEvent(LineFault),
    /// The line has an event of a room that isn't there.
    NoRoom,
    /// The line is no command of a script.
    NoCommand,
    /// The input ends before the line `events`.
    NoEvents,
}

impl TextFault {
    /// The number by which messages name the fault: that of the line's own fault, 40, 60 or 61.
    pub fn code(self) -> u16
        ensures { result ≡ text_code self }
    {
        match self {
            TextFault::BadEvent(fault) => fault.code(),
            TextFault::NoRoom => NoRoom.code(),
            TextFault::NoCommand => 60,
            TextFault::NoEvents => 61,
        }
    }

    /// What the fault says, in one sentence.
    #[tactic(auto, unfolding(crate::specs::Faults::text_sentence))]
    pub fn sentence(self) -> &'static str
        ensures { result.now ≡ text_sentence self }
    {
        match self {
            TextFault::BadEvent(fault) => fault.sentence(),
            TextFault::NoRoom => NoRoom.sentence(),
            TextFault::NoCommand => "the line is no command of a script",
            TextFault::NoEvents => "the input ends before the line `events`",
        }
    }
}

impl fmt::Display for TextFault {
    ghost output = { λ fault. Some (text_sentence fault) };

    fn fmt<W: fmt::Write>(&self, f: &mut fmt::Formatter<W>) -> fmt::Result {
        f.write_str(self.sentence())
    }
}

impl std::error::Error for TextFault {}

impl From<FeedFault> for TextFault {
    ghost from_gives = { λ fed fault. fault ≡ of_fed fed };

    fn from(fault: FeedFault) -> TextFault {
        match fault {
            FeedFault::BadLine(fault) => TextFault::BadEvent(fault),
            FeedFault::NoRoom(_) => TextFault::NoRoom,
        }
    }
}

/// Why an input was not read.
#[derive(Clone, Copy, Debug, Error)]
pub enum InputFault {
    /// It has this fault on this line, counted from 1. No line before it has one.
    #[error("line {line}: {fault}")]
    BadInput { line: u64, fault: TextFault },
    /// An allocation failed.
    #[error("out of memory")]
    Memory,
}

/// The fault of an input that has this one on this line.
pub(crate) fn bad_input(line: u64, fault: TextFault) -> InputFault
    ensures { result ≡ BadInput line fault }
{
    InputFault::BadInput { line, fault }
}

impl From<AllocError> for InputFault {
    ghost from_gives = { λ _ fault. fault ≡ Memory };

    fn from(_: AllocError) -> InputFault {
        InputFault::Memory
    }
}

/// Why a block opens no room.
#[derive(Clone, Copy, Debug)]
pub enum BlockFault {
    /// It has a fault of its own.
    Spec(SpecFault),
    /// A room before it has its name.
    NameTaken,
}

impl BlockFault {
    /// What the fault says, in one sentence without its line.
    #[tactic(auto, unfolding(crate::specs::Faults::block_sentence))]
    pub fn sentence(self) -> &'static str
        ensures { result.now ≡ block_sentence self }
    {
        match self {
            BlockFault::Spec(fault) => fault.sentence(),
            BlockFault::NameTaken => AddFault::NameTaken.sentence(),
        }
    }
}

impl fmt::Display for BlockFault {
    ghost output = { λ fault. Some (block_sentence fault) };

    fn fmt<W: fmt::Write>(&self, f: &mut fmt::Formatter<W>) -> fmt::Result {
        f.write_str(self.sentence())
    }
}

impl std::error::Error for BlockFault {}
