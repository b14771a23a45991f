//! The atomic steps of a simulator.

/// What a simulator wants next: an operation on one word of its room, given by the word's index, or
/// nothing.
#[derive(Clone, Copy, Debug, PartialEq, Eq)]
pub enum Move {
    /// Load the word. The answer of this operation alone counts.
    Load(usize),
    /// Store this number.
    Store(usize, u64),
    /// Add this number, at the lowest bit of a field.
    Add(usize, u64),
    /// Subtract this number, at the lowest bit of a field.
    Sub(usize, u64),
    /// Every process is done or spent.
    Finished,
    /// A turn would begin, and all turns are used up.
    OutOfTurns,
}
