//! Single atomic steps of a room: which operation a simulator did on which word, for which process, and what the word was.
#![tactic(auto)]

pub mod laws;
mod step;

pub use step::{AtomicStep, take_step};
