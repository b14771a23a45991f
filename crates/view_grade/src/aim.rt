//! What a script is graded by.

use crate::goal::Goal;

/// What a script is graded by, and how what is said of it is written.
#[derive(Clone, Copy)]
pub struct Aim<'a> {
    /// What the script's last report is to show.
    pub goal: &'a Goal,
    /// The most commands `step` and `crash` that the script may have, if there is a limit.
    pub most: Option<u32>,
    /// Whether it is written as JSON, and not as text.
    pub json: bool,
}
