//! What is said of a room.

/// Whether a room's events are a run of its protocol on write-snapshot memory.
#[derive(Clone, Copy, Debug, PartialEq, Eq)]
pub enum Verdict {
    /// They are, also if there are none.
    Run,
    /// They aren't. The line, as it was fed, of the first event that may not follow those of its
    /// room before it.
    Broken(u64),
}

/// Whether a room's decisions keep its task.
#[derive(Clone, Copy, Debug, PartialEq, Eq)]
pub enum TaskVerdict {
    /// They do, also if there are none.
    Holds,
    /// They don't. The line, as it was fed, of the first event that decides a value that is no input, or one different value
    /// more than the task allows.
    Broken(u64),
}
