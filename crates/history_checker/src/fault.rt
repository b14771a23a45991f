//! Why a room was not added, or a line not fed.
ghost use Rattle.std.specs.Prelude.{◌≡◌, Some};
ghost use Rattle.history_checker.specs.Verdicts.{add_code, add_sentence, feed_code, feed_sentence, no_room_sentence};

use std::error::Error;
use std::fmt;
use transcript::LineFault;

/// Why a room was not added.
#[derive(Clone, Copy, Debug, PartialEq, Eq)]
pub enum AddFault {
    /// A room has this name already.
    NameTaken,
    /// An allocation failed.
    OutOfMemory,
}

impl AddFault {
    /// The number by which reports name the fault, 41 or 8.
    pub fn code(self) -> u16
        ensures { result ≡ add_code self }
    {
        match self {
            AddFault::NameTaken => 41,
            AddFault::OutOfMemory => 8,
        }
    }

    /// What the fault says, in one sentence.
    #[tactic(auto, unfolding(crate::specs::Verdicts::add_sentence))]
    pub fn sentence(self) -> &'static str
        ensures { result.now ≡ add_sentence self }
    {
        match self {
            AddFault::NameTaken => "a room has this name already",
            AddFault::OutOfMemory => "out of memory",
        }
    }
}

impl fmt::Display for AddFault {
    ghost output = { λ fault. Some (add_sentence fault) };

    fn fmt<W: fmt::Write>(&self, f: &mut fmt::Formatter<W>) -> fmt::Result {
        f.write_str(self.sentence())
    }
}

impl Error for AddFault {}

/// No room has this name.
#[derive(Clone, Copy, Debug, PartialEq, Eq)]
pub struct NoRoom;

impl NoRoom {
    /// The number by which reports name the fault, 40.
    pub fn code(self) -> u16
        ensures { result ≡ 40 }
    {
        40
    }

    /// What the fault says, in one sentence.
    #[tactic(auto, unfolding(crate::specs::Verdicts::no_room_sentence))]
    pub fn sentence(self) -> &'static str
        ensures { result.now ≡ no_room_sentence }
    {
        "no room has this name"
    }
}

impl fmt::Display for NoRoom {
    ghost output = { λ _. Some no_room_sentence };

    fn fmt<W: fmt::Write>(&self, f: &mut fmt::Formatter<W>) -> fmt::Result {
        f.write_str(self.sentence())
    }
}

impl Error for NoRoom {}

/// Why a line was not fed.
#[derive(Clone, Copy, Debug)]
pub enum FeedFault {
    /// It says no event.
    BadLine(LineFault),
    /// It says one of a room that isn't there.
    NoRoom(NoRoom),
}

impl FeedFault {
    /// The number by which reports name the fault: that of the line's own fault, or 40.
    pub fn code(self) -> u16
        ensures { result ≡ feed_code self }
    {
        match self {
            FeedFault::BadLine(fault) => fault.code(),
            FeedFault::NoRoom(fault) => fault.code(),
        }
    }

    /// What the fault says, in one sentence.
    #[tactic(auto, unfolding(crate::specs::Verdicts::feed_sentence))]
    pub fn sentence(self) -> &'static str
        ensures { result.now ≡ feed_sentence self }
    {
        match self {
            FeedFault::BadLine(fault) => fault.sentence(),
            FeedFault::NoRoom(fault) => fault.sentence(),
        }
    }
}

impl fmt::Display for FeedFault {
    ghost output = { λ fault. Some (feed_sentence fault) };

    fn fmt<W: fmt::Write>(&self, f: &mut fmt::Formatter<W>) -> fmt::Result {
        f.write_str(self.sentence())
    }
}

impl Error for FeedFault {}
