//! How tokens are spelled.
ghost use Rattle.std.specs.Prelude.{◌≡◌, ◌++◌, false, IfOk, OnOk, Ok, string_bytes};
ghost use Rattle.protocol_lang.specs.Tokens.{symbol_spelling};
ghost use Rattle.protocol_lang.specs.Grammar.{word_for, call_word, operator_symbol, comparator_symbol, kind_word};
ghost use Rattle.protocol_lang.specs.Printing.{is_word, spelling, spelled_behind};

use crate::token::{Symbol, Token, Word};
use crate::tree::{Call, Comparator, Kind, Name, Operator};
use std::alloc::{AllocError, Global};

/// The bytes of the tokens.
pub(crate) fn spell(alloc: Global, tokens: &[Token]) -> Result<String, AllocError>
    ensures { IfOk result (λ text. string_bytes text ≡ spelled_behind false tokens.now) }
{
    let mut text = String::new(alloc);
    let mut behind_word = false;
    for token in tokens {
        if behind_word && token.is_word() {
            text.push_str(" ")?;
        }
        token.write(alloc, &mut text)?;
        behind_word = token.is_word();
    }
    Ok(text)
}

impl Token {
    fn is_word(self) -> bool
        ensures { result ≡ is_word self }
    {
        matches!(self, Token::Word(_))
    }

    /// Appends how it is spelled.
    fn write(self, alloc: Global, text: &mut String) -> Result<(), AllocError>
        ensures { OnOk result (string_bytes text.new ≡ string_bytes text.old ++ spelling self) }
    {
        match self {
            Token::Word(word) => text.push_str(word.spelling()),
            Token::Number(number) => {
                let digits = format!(in alloc; "{number}")?;
                text.push_str(digits.as_str())
            }
            Token::Symbol(symbol) => text.push_str(symbol.spelling()),
            Token::End => Ok(()),
        }
    }
}

impl Symbol {
    fn spelling(self) -> &'static str
        ensures { result.now ≡ symbol_spelling self }
    {
        match self {
            Symbol::Semicolon => ";",
            Symbol::Open => "(",
            Symbol::Close => ")",
            Symbol::Plus => "+",
            Symbol::Minus => "-",
            Symbol::Times => "*",
            Symbol::Divide => "/",
            Symbol::Remainder => "%",
            Symbol::Equal => "==",
            Symbol::NotEqual => "!=",
            Symbol::Less => "<",
            Symbol::LessOrEqual => "<=",
            Symbol::Greater => ">",
            Symbol::GreaterOrEqual => ">=",
        }
    }
}

impl Name {
    pub(crate) fn word(self) -> Word
        ensures { result ≡ word_for self }
    {
        match self {
            Name::Input => Word::Input,
            Name::Id => Word::Id,
            Name::N => Word::N,
            Name::Round => Word::Round,
            Name::Mine => Word::Mine,
            Name::Count => Word::Count,
            Name::Min => Word::Min,
            Name::Max => Word::Max,
        }
    }
}

impl Call {
    pub(crate) fn word(self) -> Word
        ensures { result ≡ call_word self }
    {
        match self {
            Call::Cell => Word::Cell,
            Call::Seen => Word::Seen,
            Call::Equal => Word::Equal,
        }
    }
}

impl Operator {
    pub(crate) fn symbol(self) -> Symbol
        ensures { result ≡ operator_symbol self }
    {
        match self {
            Operator::Add => Symbol::Plus,
            Operator::Subtract => Symbol::Minus,
            Operator::Multiply => Symbol::Times,
            Operator::Divide => Symbol::Divide,
            Operator::Remainder => Symbol::Remainder,
        }
    }
}

impl Comparator {
    pub(crate) fn symbol(self) -> Symbol
        ensures { result ≡ comparator_symbol self }
    {
        match self {
            Comparator::Equal => Symbol::Equal,
            Comparator::NotEqual => Symbol::NotEqual,
            Comparator::Less => Symbol::Less,
            Comparator::LessOrEqual => Symbol::LessOrEqual,
            Comparator::Greater => Symbol::Greater,
            Comparator::GreaterOrEqual => Symbol::GreaterOrEqual,
        }
    }
}

impl Kind {
    pub(crate) fn word(self) -> Word
        ensures { result ≡ kind_word self }
    {
        match self {
            Kind::Write => Word::Write,
            Kind::Decide => Word::Decide,
        }
    }
}
