//! Why a text is no protocol.
ghost use Rattle.std.specs.Prelude.{◌≡◌, Some};
ghost use Rattle.protocol_lang.specs.Faults.{code_of, sentence_of};
ghost use Rattle.protocol_lang.specs.FirstFaults.{place_of};

use std::error::Error;
use std::fmt;

/// The first fault of a protocol's text, from left to right. A place is the offset in bytes of a
/// token's first byte, or the text's length where the text ends too early.
#[derive(Clone, Copy, Debug, PartialEq, Eq)]
pub enum ParseFault {
    /// The text has more than 4096 bytes.
    TooLong,
    /// A byte that begins no token, an unknown word, or a number with a leading zero.
    BadToken(usize),
    /// A token that is not allowed there, or the text's end where more is needed.
    Unexpected(usize),
    /// The 33rd parenthesis that is open at once.
    TooDeep(usize),
    /// The 33rd rule with a condition.
    TooManyRules,
    /// A word that reads the view, in the expression after `first`.
    ViewInFirst(usize),
    /// A number above 4294967295.
    NumberTooLarge(usize),
    /// An allocation failed.
    OutOfMemory,
}

impl ParseFault {
    /// The number by which reports name the fault, 1 to 8.
    pub fn code(self) -> u16
        ensures { result ≡ code_of self }
    {
        match self {
            ParseFault::TooLong => 1,
            ParseFault::BadToken(_) => 2,
            ParseFault::Unexpected(_) => 3,
            ParseFault::TooDeep(_) => 4,
            ParseFault::TooManyRules => 5,
            ParseFault::ViewInFirst(_) => 6,
            ParseFault::NumberTooLarge(_) => 7,
            ParseFault::OutOfMemory => 8,
        }
    }

    /// What the fault says, in one sentence without its place.
    #[tactic(auto, unfolding(crate::specs::Faults::sentence_of))]
    pub fn sentence(self) -> &'static str
        ensures { result.now ≡ sentence_of self }
    {
        match self {
            ParseFault::TooLong => "the protocol's text has more than 4096 bytes",
            ParseFault::BadToken(_) => {
                "not a token: an unknown word, a byte that begins no token, or a number with a leading zero"
            }
            ParseFault::Unexpected(_) =>
                "the token is not allowed here, or the text ends too early",
            ParseFault::TooDeep(_) => "more than 32 parentheses are open at once",
            ParseFault::TooManyRules => "more than 32 rules begin with `when`",
            ParseFault::ViewInFirst(_) => {
                "the expression after `first` uses a word that needs a snapshot"
            }
            ParseFault::NumberTooLarge(_) => "the number is above 4294967295",
            ParseFault::OutOfMemory => "out of memory",
        }
    }

    /// Where the fault is, in bytes from the text's first, or `None` if it is of the whole
    /// text.
    pub fn place(self) -> Option<usize>
        ensures { result ≡ place_of self }
    {
        match self {
            ParseFault::BadToken(at)
            | ParseFault::Unexpected(at)
            | ParseFault::TooDeep(at)
            | ParseFault::ViewInFirst(at)
            | ParseFault::NumberTooLarge(at) => Some(at),
            ParseFault::TooLong | ParseFault::TooManyRules | ParseFault::OutOfMemory => None,
        }
    }
}

impl fmt::Display for ParseFault {
    ghost output = { λ fault. Some (sentence_of fault) };

    fn fmt<W: fmt::Write>(&self, f: &mut fmt::Formatter<W>) -> fmt::Result {
        f.write_str(self.sentence())
    }
}

impl Error for ParseFault {}
