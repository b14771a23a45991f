//! Pictures of rooms: of each room its name, numbers and protocol, the lanes of its simulators step by step, and below them what its processes did; and what the letters stand for.
#![tactic(auto)]

mod head;
mod history;
mod legend;
mod open;
mod picture;
mod stopped;

pub use picture::{Style, write_picture};
