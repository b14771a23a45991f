//! The state of the parser in a text.
ghost use Rattle.std.specs.Prelude.{◌≡◌, ◌<◌, Option, None};
ghost use Rattle.protocol_lang.specs.Reading.{opening, operand, opened, behind, rule, last, is_hidden, is_first, last_kind, fault_at};

use crate::fault::ParseFault;
use crate::rules::{ActionRule, Rule};
use crate::tree::{Call, Comparator, Kind, Name, Operator};
use std::alloc::AllocError;

/// What may come next.
#[derive(Clone, Copy)]
pub enum Expected {
    /// The word `first`.
    First,
    /// A number, a name, a call or an opening parenthesis.
    Operand,
    /// The opening parenthesis of a call.
    Open(Call),
    /// What may follow an operand.
    Operator,
    /// `when` or `else`.
    Rule,
    /// `write` or `decide` after `else`.
    Last,
    /// The text's end.
    End,
}

/// The part of the text to which an expression belongs.
#[derive(Clone, Copy)]
pub enum Part {
    /// The value of the first write.
    First,
    /// The left side of a comparison.
    Left,
    /// Its right side.
    Right(Comparator),
    /// The value of a rule.
    ActionRule(Kind),
    /// The value of the last action.
    Last(Kind),
}

/// What opened an expression.
#[derive(Clone, Copy)]
pub enum Opener {
    /// A parenthesis, or nothing if it is the outermost.
    Group,
    /// A call.
    Call(Call),
}

/// What waits for its right operand within one pair of parentheses: a sum, a product, or both.
#[derive(Clone, Copy)]
pub struct Level {
    pub opener: Opener,
    pub sum: Option<Operator>,
    pub product: Option<Operator>,
}

impl Level {
    pub(crate) fn new(opener: Opener) -> Level
        ensures { result ≡ record { opener = opener; sum = None; product = None } }
    {
        Level {
            opener,
            sum: None,
            product: None,
        }
    }
}

impl Default for Level {
    fn default() -> Level {
        Level::new(Opener::Group)
    }
}

/// Why a token is not allowed where it is.
#[derive(Clone, Copy)]
pub enum Refusal {
    Unexpected,
    TooDeep,
    TooManyRules,
    ViewInFirst,
    /// Nothing is wrong with the token, but an allocation failed.
    OutOfMemory,
}

impl From<AllocError> for Refusal {
    ghost use Rattle.std.specs.Prelude.{◌≡◌};
    ghost use Rattle.protocol_lang.specs.declared.state.Refusal.{Refusal};

    ghost from_gives = { λ error refusal. refusal ≡ Refusal.OutOfMemory };

    fn from(_: AllocError) -> Refusal {
        Refusal::OutOfMemory
    }
}

impl Refusal {
    /// The fault of a token at this place.
    pub(crate) fn at(self, at: usize) -> ParseFault
        ensures { result ≡ fault_at at self }
    {
        match self {
            Refusal::Unexpected => ParseFault::Unexpected(at),
            Refusal::TooDeep => ParseFault::TooDeep(at),
            Refusal::TooManyRules => ParseFault::TooManyRules,
            Refusal::ViewInFirst => ParseFault::ViewInFirst(at),
            Refusal::OutOfMemory => ParseFault::OutOfMemory,
        }
    }
}

impl Part {
    /// Whether the name asks for a view in a place that has none.
    pub(crate) fn hides(self, name: Name) -> bool
        ensures { result ≡ is_hidden self name }
    {
        match self {
            Part::First => name.reads_view(),
            _ => false,
        }
    }

    pub(crate) fn is_first(self) -> bool
        ensures { result ≡ is_first self }
    {
        matches!(self, Part::First)
    }

    pub(crate) fn last_kind(self) -> Kind
        ensures { result ≡ last_kind self }
    {
        match self {
            Part::Last(kind) => kind,
            _ => Kind::Write,
        }
    }
}
