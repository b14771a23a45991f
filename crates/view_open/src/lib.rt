//! The outcomes that are still open after each command of a script, as text or as JSON: those that the simulators of its room can still reach.
#![tactic(auto)]

mod json;
mod log;
mod plan;
mod playing;
mod searching;
mod text;
mod watcher;

pub use plan::OpenPlan;
pub use playing::open_outcomes;
