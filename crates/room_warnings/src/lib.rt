//! What a valid room may have that no fault covers and that its author can hardly have meant: calls that are always 0, rules that are never
//! used, a protocol that never decides, a single process, and too few turns for a simulator that runs alone.
#![tactic(auto)]

mod calls;
mod json;
pub mod laws;
mod rules;
mod warnings;
mod words;

pub use json::Format;
pub use warnings::write_warnings;
