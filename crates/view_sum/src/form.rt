//! How a sum is written.

/// How the sum of samples is written.
#[derive(Clone, Copy)]
pub struct SumForm {
    /// How many outcomes of each room are shown at most; if it is not said, all.
    pub top: Option<u32>,
    /// Whether it is written as JSON.
    pub json: bool,
    /// Whether schedules are left out in JSON. In words there are none.
    pub brief: bool,
}
