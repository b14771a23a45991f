//! Single atomic steps of a room in words: a line for each, for people, or an object of JSON.
#![tactic(auto)]

mod data;
mod json;
mod notes;
mod number;
mod operation;
mod pieces;
mod sight;
mod step;
mod texts;

pub use sight::write_counts;
pub use step::{Consequence, NumberedStep, write_step};
pub use texts::StepTexts;
