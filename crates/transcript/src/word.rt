//! The words of event lines.

/// What the word of an event line says that a process did.
#[derive(Clone, Copy)]
pub enum EventWord {
    /// It wrote a value.
    Write,
    /// It took a snapshot.
    Snap,
    /// It decided a value.
    Decide,
}
