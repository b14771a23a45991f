//! Tasks of one's own and samples: by how many of a plan's schedules the history of a room breaks a task, and which of them is the first.
#![tactic(auto)]

mod breaks;
pub mod laws;

pub use breaks::{Breaks, Broken, Judging, count_breaks};
