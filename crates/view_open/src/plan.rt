//! How the rooms of a script are searched.

/// How the rooms of a script are searched, and what is written of them.
#[derive(Clone, Copy)]
pub struct OpenPlan {
    /// At most this number of simulators crash; if it is not said, all but one.
    pub crashes: Option<u32>,
    /// How many nodes of a room are searched at most.
    pub nodes: u32,
    /// Whether the outcomes are written as JSON.
    pub json: bool,
}
