//! Why a text is no room block.
ghost use Rattle.std.specs.Prelude.{◌≡◌, Some};
ghost use Rattle.room_spec.specs.Faults.{code_of, sentence_of};

use protocol_lang::ParseFault;
use std::error::Error;
use std::fmt;

/// The first fault of a room block, from its first line on. Lines are counted from 1, the block's
/// first.
#[derive(Clone, Copy, Debug, PartialEq, Eq)]
pub enum SpecFault {
    /// No line is `end`.
    Truncated,
    /// The line of this number hasn't the form that it should have.
    BadLine(usize),
    /// The room's name isn't 1 to 32 letters from `a` to `z`, digits, `_` and `-`.
    BadName,
    /// The protocol's text has this fault.
    BadProtocol(ParseFault),
    /// There aren't 1 to 16 inputs, in a reduction 1 to 8, or one is above 4294967295.
    Inputs,
    /// The number of simulators isn't 1 to 8.
    Simulators,
    /// The number of processes of a reduction isn't 1 to 16.
    Processes,
    /// The number of rounds isn't 1 to 15.
    Rounds,
    /// The number of turns isn't 1 to 65535.
    Turns,
    /// The step numbers of all simulators need more bits than the block's version allows: 64 in version 1, 256 in
    /// version 2.
    TooWide,
    /// The line of this number begins with `crash `, and isn't `crash I after K` with the number of
    /// a simulator and up to 4294967295 steps.
    CrashLine(usize),
    /// The line of this number is a second crash of its simulator.
    Repeated(usize),
    /// The line of this number, which is 7, begins with `task ` in a block of version 2, and isn't `task agree K` with a K
    /// from 1 to 16.
    TaskLine(usize),
}

impl SpecFault {
    /// The number by which reports name the fault, 10 to 22.
    pub fn code(self) -> u16
        ensures { result ≡ code_of self }
    {
        match self {
            SpecFault::Truncated => 10,
            SpecFault::BadLine(_) => 11,
            SpecFault::BadName => 12,
            SpecFault::BadProtocol(_) => 13,
            SpecFault::Inputs => 14,
            SpecFault::Simulators => 15,
            SpecFault::Rounds => 16,
            SpecFault::Turns => 17,
            SpecFault::TooWide => 18,
            SpecFault::CrashLine(_) => 19,
            SpecFault::Repeated(_) => 20,
            SpecFault::TaskLine(_) => 21,
            SpecFault::Processes => 22,
        }
    }

    /// What the fault says, in one sentence without its line. What is wrong with a protocol's text is said by that fault's own.
    #[tactic(auto, unfolding(crate::specs::Faults::sentence_of))]
    pub fn sentence(self) -> &'static str
        ensures { result.now ≡ sentence_of self }
    {
        match self {
            SpecFault::Truncated => "the block has no line `end`",
            SpecFault::BadLine(_) => "the line does not have the form that a block needs here",
            SpecFault::BadName => "`room` is followed by no valid name",
            SpecFault::BadProtocol(_) => "the protocol's text has a fault",
            SpecFault::Inputs =>
                "there are no inputs, more than 16 or in a reduction 8, or one above 4294967295",
            SpecFault::Simulators => "the number of simulators is not 1 to 8",
            SpecFault::Rounds => "the number of rounds is not 1 to 15",
            SpecFault::Turns => "the number of turns is not 1 to 65535",
            SpecFault::TooWide => {
                "the step numbers need more than 64 bits, or in version 2 more than 256"
            }
            SpecFault::CrashLine(_) => {
                "`crash` needs a simulator of the room, `after`, and a number up to 4294967295"
            }
            SpecFault::Repeated(_) => "the simulator has a `crash` line already",
            SpecFault::TaskLine(_) => "`task` needs `agree` and a number from 1 to 16",
            SpecFault::Processes => "the number of processes is not 1 to 16",
        }
    }
}

impl fmt::Display for SpecFault {
    ghost output = { λ fault. Some (sentence_of fault) };

    fn fmt<W: fmt::Write>(&self, f: &mut fmt::Formatter<W>) -> fmt::Result {
        f.write_str(self.sentence())
    }
}

impl Error for SpecFault {}
