//! The tokens of the language.
ghost use Rattle.std.specs.Prelude.{◌≡◌, ◌≤◌, length, IfSome};
ghost use Rattle.protocol_lang.specs.Tokens.{is_end, word_spelling, word_of, symbol_of, symbol_spelling, name_of, call_of, operator_of, comparator_of, kind_of};

use crate::tree::{Call, Comparator, Kind, Name, Operator};

/// A word of the language.
#[derive(Clone, Copy)]
pub enum Word {
    First,
    When,
    And,
    Write,
    Decide,
    Else,
    Input,
    Id,
    N,
    Round,
    Mine,
    Count,
    Min,
    Max,
    Cell,
    Seen,
    Equal,
}

/// A token that is neither a word nor a number.
#[derive(Clone, Copy)]
pub enum Symbol {
    Semicolon,
    Open,
    Close,
    Plus,
    Minus,
    Times,
    Divide,
    Remainder,
    Equal,
    NotEqual,
    Less,
    LessOrEqual,
    Greater,
    GreaterOrEqual,
}

/// A token.
#[derive(Clone, Copy)]
pub enum Token {
    Word(Word),
    Number(u32),
    Symbol(Symbol),
    /// The text's end.
    End,
}

/// Every word.
const WORDS: [Word; 17] = [
    Word::First,
    Word::When,
    Word::And,
    Word::Write,
    Word::Decide,
    Word::Else,
    Word::Input,
    Word::Id,
    Word::N,
    Word::Round,
    Word::Mine,
    Word::Count,
    Word::Min,
    Word::Max,
    Word::Cell,
    Word::Seen,
    Word::Equal,
];

impl Word {
    /// The word that these letters spell.
    pub(crate) fn spelled(letters: &[u8]) -> Option<Word>
        ensures { result ≡ word_of letters.now }
    {
        WORDS
            .iter()
            .copied()
            .find(|word| letters == word.spelling().as_bytes())
    }

    /// How the word is spelled.
    pub(crate) fn spelling(self) -> &'static str
        ensures { result.now ≡ word_spelling self }
    {
        match self {
            Word::First => "first",
            Word::When => "when",
            Word::And => "and",
            Word::Write => "write",
            Word::Decide => "decide",
            Word::Else => "else",
            Word::Input => "input",
            Word::Id => "id",
            Word::N => "n",
            Word::Round => "round",
            Word::Mine => "mine",
            Word::Count => "count",
            Word::Min => "min",
            Word::Max => "max",
            Word::Cell => "cell",
            Word::Seen => "seen",
            Word::Equal => "equal",
        }
    }
}

impl Word {
    /// The name that the word is.
    pub(crate) fn name(self) -> Option<Name>
        ensures { result ≡ name_of self }
    {
        match self {
            Word::Input => Some(Name::Input),
            Word::Id => Some(Name::Id),
            Word::N => Some(Name::N),
            Word::Round => Some(Name::Round),
            Word::Mine => Some(Name::Mine),
            Word::Count => Some(Name::Count),
            Word::Min => Some(Name::Min),
            Word::Max => Some(Name::Max),
            _ => None,
        }
    }
}

impl Word {
    /// The call that the word begins.
    pub(crate) fn call(self) -> Option<Call>
        ensures { result ≡ call_of self }
    {
        match self {
            Word::Cell => Some(Call::Cell),
            Word::Seen => Some(Call::Seen),
            Word::Equal => Some(Call::Equal),
            _ => None,
        }
    }
}

impl Token {
    /// Whether it is the text's end.
    pub(crate) fn is_end(self) -> bool
        ensures { result ≡ is_end self }
    {
        matches!(self, Token::End)
    }

    /// The operator that the token is.
    pub(crate) fn operator(self) -> Option<Operator>
        ensures { result ≡ operator_of self }
    {
        match self {
            Token::Symbol(Symbol::Plus) => Some(Operator::Add),
            Token::Symbol(Symbol::Minus) => Some(Operator::Subtract),
            Token::Symbol(Symbol::Times) => Some(Operator::Multiply),
            Token::Symbol(Symbol::Divide) => Some(Operator::Divide),
            Token::Symbol(Symbol::Remainder) => Some(Operator::Remainder),
            _ => None,
        }
    }

    /// The comparator that the token is.
    pub(crate) fn comparator(self) -> Option<Comparator>
        ensures { result ≡ comparator_of self }
    {
        match self {
            Token::Symbol(Symbol::Equal) => Some(Comparator::Equal),
            Token::Symbol(Symbol::NotEqual) => Some(Comparator::NotEqual),
            Token::Symbol(Symbol::Less) => Some(Comparator::Less),
            Token::Symbol(Symbol::LessOrEqual) => Some(Comparator::LessOrEqual),
            Token::Symbol(Symbol::Greater) => Some(Comparator::Greater),
            Token::Symbol(Symbol::GreaterOrEqual) => Some(Comparator::GreaterOrEqual),
            _ => None,
        }
    }

    /// What the token asks to do with a value: `write` or `decide`.
    pub(crate) fn kind(self) -> Option<Kind>
        ensures { result ≡ kind_of self }
    {
        match self {
            Token::Word(Word::Write) => Some(Kind::Write),
            Token::Word(Word::Decide) => Some(Kind::Decide),
            _ => None,
        }
    }
}

impl Symbol {
    /// The longest symbol at the front of a text.
    pub(crate) fn at_front(text: &[u8]) -> Option<Symbol>
        ensures symbol { result ≡ symbol_of text.now }
        ensures within { IfSome result (λ symbol. length (symbol_spelling symbol) ≤ length text.now) }
    {
        match text {
            [b';', ..] => Some(Symbol::Semicolon),
            [b'(', ..] => Some(Symbol::Open),
            [b')', ..] => Some(Symbol::Close),
            [b'+', ..] => Some(Symbol::Plus),
            [b'-', ..] => Some(Symbol::Minus),
            [b'*', ..] => Some(Symbol::Times),
            [b'/', ..] => Some(Symbol::Divide),
            [b'%', ..] => Some(Symbol::Remainder),
            [b'=', b'=', ..] => Some(Symbol::Equal),
            [b'!', b'=', ..] => Some(Symbol::NotEqual),
            [b'<', b'=', ..] => Some(Symbol::LessOrEqual),
            [b'<', ..] => Some(Symbol::Less),
            [b'>', b'=', ..] => Some(Symbol::GreaterOrEqual),
            [b'>', ..] => Some(Symbol::Greater),
            _ => None,
        }
    }

    /// How many bytes it takes, 1 or 2.
    pub(crate) fn len(self) -> usize
        ensures { result ≡ length (symbol_spelling self) }
    {
        match self {
            Symbol::Equal | Symbol::NotEqual | Symbol::LessOrEqual | Symbol::GreaterOrEqual => 2,
            _ => 1,
        }
    }
}
