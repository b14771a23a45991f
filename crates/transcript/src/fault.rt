//! Why a line is no event.
ghost use Rattle.std.specs.Prelude.{◌≡◌, Some};
ghost use Rattle.transcript.specs.Faults.{code_of, sentence_of};

use std::error::Error;
use std::fmt;

/// The first fault of an event line.
#[derive(Clone, Copy, Debug, PartialEq, Eq)]
pub enum LineFault {
    /// The first field isn't the name of a room.
    BadName,
    /// The third field is none of `write`, `snap` and `decide`.
    BadWord,
    /// A field that should be one isn't a number, or it is too large.
    BadNumber,
    /// The line has too few or too many fields.
    BadLength,
    /// The line has more than 256 bytes.
    TooLong,
}

impl LineFault {
    /// The number by which reports name the fault, 30 to 34.
    pub fn code(self) -> u16
        ensures { result ≡ code_of self }
    {
        match self {
            LineFault::BadName => 30,
            LineFault::BadWord => 31,
            LineFault::BadNumber => 32,
            LineFault::BadLength => 33,
            LineFault::TooLong => 34,
        }
    }

    /// What the fault says, in one sentence.
    #[tactic(auto, unfolding(crate::specs::Faults::sentence_of))]
    pub fn sentence(self) -> &'static str
        ensures { result.now ≡ sentence_of self }
    {
        match self {
            LineFault::BadName => "the line does not begin with a valid name",
            LineFault::BadWord => "the third field is not `write`, `snap` or `decide`",
            LineFault::BadNumber => "a field is not a number, or the number is out of range",
            LineFault::BadLength => "the line has too few or too many fields",
            LineFault::TooLong => "the line has more than 256 bytes",
        }
    }
}

impl fmt::Display for LineFault {
    ghost output = { λ fault. Some (sentence_of fault) };

    fn fmt<W: fmt::Write>(&self, f: &mut fmt::Formatter<W>) -> fmt::Result {
        f.write_str(self.sentence())
    }
}

impl Error for LineFault {}
