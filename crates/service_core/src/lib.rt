//! Many rooms, each under its name, and the commands that make, step, crash, settle, report
//! and close them.
//!
//! What a room answers rests on the commands of its own name alone, whatever is between them;
//! each history that it reports is a run of its own protocol on write-snapshot memory.
#![tactic(auto)]

mod command;
pub mod laws;
mod reply;
mod room;
mod service;

pub use command::Command;
pub use reply::{Refusal, Reply};
pub use service::Service;
