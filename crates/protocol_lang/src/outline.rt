//! What is remembered of an expression while it is read: enough to distinguish a single name, and `n - f` with a number f, from all others.
ghost use Rattle.std.specs.Prelude.{◌≡◌};
ghost use Rattle.protocol_lang.specs.Outlines.{alone, number_in, operated_on, with_number};

use crate::tree::{Name, Operator};

/// What is remembered of the last operand that waits, and of the one below it.
#[derive(Clone, Copy)]
pub enum Outline {
    /// The last one is this name.
    Named(Name),
    /// It is this number, and below it is `n`.
    NumberOnN(u32),
    /// It is `n - f`, with this number f.
    TakenFromN(u32),
    /// It is something else.
    Other,
}

impl Outline {
    /// Of the operands and one more, this number.
    pub(crate) fn with_number(self, number: u32) -> Outline
        ensures { result ≡ with_number number self }
    {
        match self {
            Outline::Named(Name::N) => Outline::NumberOnN(number),
            _ => Outline::Other,
        }
    }

    /// Of the operands, the last two made one by this operator.
    pub(crate) fn with_operator(self, operator: Operator) -> Outline
        ensures { result ≡ operated_on operator self }
    {
        match (operator, self) {
            (Operator::Subtract, Outline::NumberOnN(number)) => Outline::TakenFromN(number),
            _ => Outline::Other,
        }
    }

    /// Of the last operand, as the only one.
    pub(crate) fn alone(self) -> Outline
        ensures { result ≡ alone self }
    {
        match self {
            Outline::NumberOnN(_) => Outline::Other,
            _ => self,
        }
    }

    /// The number f, where the last operand is `n - f`.
    pub(crate) fn number(self) -> Option<u32>
        ensures { result ≡ number_in self }
    {
        match self {
            Outline::TakenFromN(number) => Some(number),
            _ => None,
        }
    }
}
