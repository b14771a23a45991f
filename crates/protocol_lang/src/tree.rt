//! The parts of expressions, comparisons and rules.
ghost use Rattle.std.specs.Prelude.{◌≡◌};
ghost use Rattle.protocol_lang.specs.Tokens.{reads_view};
ghost use Rattle.protocol_lang.specs.Trees.{is_sum};
ghost use Rattle.protocol_lang.specs.Formulas.{source_of};
ghost use Rattle.protocol_lang.specs.Meaning.{operated, compared};

/// A word that stands for a value.
#[derive(Clone, Copy)]
pub enum Name {
    /// The process's input.
    Input,
    /// The process's number, from 0.
    Id,
    /// The number of processes.
    N,
    /// The number of writes made so far, which is the number of snapshots.
    Round,
    /// The process's own entry of the view, or 0.
    Mine,
    /// How many entries of the view are there.
    Count,
    /// The least value in the view, or 0.
    Min,
    /// The greatest value in the view, or 0.
    Max,
}

impl Name {
    /// Whether the value comes from the view, which is not there before the first write.
    pub(crate) fn reads_view(self) -> bool
        ensures { result ≡ reads_view self }
    {
        !matches!(self, Name::Input | Name::Id | Name::N)
    }

    /// Where its value comes from.
    pub(crate) fn source(self) -> Source
        ensures { result ≡ source_of self }
    {
        match self {
            Name::Input => Source::Input,
            Name::Id => Source::Id,
            Name::N => Source::N,
            Name::Round => Source::Round,
            Name::Mine => Source::Mine,
            Name::Count => Source::Count,
            Name::Min => Source::Min,
            Name::Max => Source::Max,
        }
    }
}

/// Where the value of a number or a name comes from: a name, in the order of [`Name`], or a number
/// that is kept with it. So it is found without a jump.
#[derive(Clone, Copy)]
pub enum Source {
    Input,
    Id,
    N,
    Round,
    Mine,
    Count,
    Min,
    Max,
    Number,
}

/// A word that asks the view for something, by an expression in parentheses.
#[derive(Clone, Copy)]
pub enum Call {
    /// The entry of this number, or 0.
    Cell,
    /// 1 if the entry of this number is there, or 0.
    Seen,
    /// How many entries are there and have this value.
    Equal,
}

/// An operator on two values.
#[derive(Clone, Copy)]
pub enum Operator {
    /// Stops at 4294967295.
    Add,
    /// Stops at 0.
    Subtract,
    /// Stops at 4294967295.
    Multiply,
    /// 0 if the divisor is 0.
    Divide,
    /// 0 if the divisor is 0.
    Remainder,
}

impl Operator {
    /// Whether it makes a sum or difference; the others are of the stronger kind.
    pub(crate) fn is_sum(self) -> bool
        ensures { result ≡ is_sum self }
    {
        matches!(self, Operator::Add | Operator::Subtract)
    }

    /// What it makes of two values.
    pub(crate) fn of(self, left: u32, right: u32) -> u32
        ensures { result ≡ operated self left right }
    {
        match self {
            Operator::Add => left.saturating_add(right),
            Operator::Subtract => left.saturating_sub(right),
            Operator::Multiply => left.saturating_mul(right),
            Operator::Divide => left.checked_div(right).unwrap_or(0),
            Operator::Remainder => left.checked_rem(right).unwrap_or(0),
        }
    }
}

/// How a rule compares two values.
#[derive(Clone, Copy)]
pub enum Comparator {
    Equal,
    NotEqual,
    Less,
    LessOrEqual,
    Greater,
    GreaterOrEqual,
}

impl Comparator {
    /// Whether it holds of two values.
    pub(crate) fn holds(self, left: u32, right: u32) -> bool
        ensures { result ≡ compared self left right }
    {
        match self {
            Comparator::Equal => left == right,
            Comparator::NotEqual => left != right,
            Comparator::Less => left < right,
            Comparator::LessOrEqual => left <= right,
            Comparator::Greater => left > right,
            Comparator::GreaterOrEqual => left >= right,
        }
    }
}

/// What a rule does with its value.
#[derive(Clone, Copy)]
pub enum Kind {
    Write,
    Decide,
}
