//! Where a simulator is in its turn: its program counter.

/// The atomic step that a simulator takes next, on the process at which its sweep is.
#[derive(Clone, Copy, PartialEq, Eq, Hash, Default)]
pub enum Line {
    /// None yet: it is between two turns. A turn begins with the store of the process's next
    /// write or of a proposed input or, where that was made, with an ask.
    #[default]
    Rest,
    /// Add one to its own step number of the process.
    Raise,
    /// Load the step numbers, one memory word after the other: a snapshot of the simulated memory.
    Snap,
    /// Store that snapshot as its proposal, one word after the other.
    Show,
    /// Enter the agreement: from level 0 to 1.
    Enter,
    /// Load the levels of the agreement.
    Look,
    /// Leave the agreement: to level 0 if it saw a level 2, and else to level 2.
    Leave { saw_two: bool },
    /// Load the levels of the agreement, to learn whose proposal was chosen.
    Ask,
    /// Load the input that the chosen simulator proposes: the process's input.
    GetInput { chosen: u16 },
    /// Load the proposal of the chosen simulator, one word after the other.
    GetView { chosen: u16 },
    /// Load the value of the next process that the chosen proposal shows.
    Values,
    /// Store the decision.
    Out { decision: u32 },
}
