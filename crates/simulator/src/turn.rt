//! What becomes of a turn.

/// Whether an atomic step has ended its turn, and how.
#[derive(Clone, Copy, Debug, PartialEq, Eq)]
pub enum Turn {
    /// The turn goes on.
    Still,
    /// The turn has ended, and the process has come further.
    Useful,
    /// The turn has ended at an agreement that isn't resolved yet.
    Quiet,
}
