//! Why a transcript's rooms are no runs, or break their tasks: the verdict on each room, and after it the line that breaks it and the reason.
#![tactic(auto)]

mod answer;
mod excess;
mod inputs;
mod json;
mod keeping;
mod kept_json;
mod kept_text;
pub mod laws;
mod objects;
mod reasons;
mod reported;
mod rooms;
mod run_rooms;
mod runs;

pub use answer::{explain, explain_json, explain_kept};
