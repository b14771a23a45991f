//! All outcomes that the simulators of the rooms of a file can reach, as text or as JSON: each with a script for `bgsim play` that leads to it.
#![tactic(auto)]

mod blocks;
mod json;
mod listing;
mod plan;
mod rooms;
mod shown;
mod text;

pub use blocks::search_rooms;
pub use plan::RoomPlan;
