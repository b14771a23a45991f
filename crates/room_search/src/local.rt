//! Local states of simulators.

use simulator::Knowledge;

/// What a simulator knows, and what is said of the words that only it can read.
#[derive(PartialEq, Eq, Hash, Drop)]
pub struct Local {
    pub known: Knowledge,
    /// For each word of the room the number after it, or 0 if nothing is said of it here.
    pub own: Vec<u64>,
}
