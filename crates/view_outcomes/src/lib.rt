//! All outcomes of the rooms of a file, or one of each room, as text or as JSON: each with a run that leads to it. Or whether the rooms' tasks are kept, with their own inputs or with all of some values, or a task of one's own.
#![tactic(auto)]

mod alone_text;
mod blocks;
mod counts;
mod inputs;
mod json;
mod judging;
mod keeping;
mod kept_text;
pub mod laws;
mod listing;
mod rooms;
mod search;
mod shown;
mod text;
mod vector_text;

pub use blocks::search_blocks;
pub use search::{Asked, Form, Search};
