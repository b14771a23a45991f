//! Samples that were taken in parts: what `sample --json` wrote of each, added up.
#![tactic(auto)]

mod adding;
mod fault;
mod form;
pub mod laws;
mod lines;
mod listed;
mod part;
mod reading;
mod so_far;
mod sum;
mod totals;
mod words;
mod writing;

pub use fault::{BadPart, Member, Reason, SumFault};
pub use form::SumForm;
pub use part::{How, Part};
pub use sum::sum_samples;
pub use words::write_refusal;
