//! All outcomes that the simulators of a room can reach, found by a search of its schedules.
#![tactic(auto)]

mod beginning;
mod choice;
mod closing;
mod ends;
mod explored;
mod first;
pub mod laws;
mod local;
mod moves;
mod node;
mod path;
mod premise;
mod reached;
mod reading;
mod resting;
mod running;
mod search;
mod shown;
mod stepping;
mod subject;
mod table;
mod taking;

pub use beginning::{Act, Beginning};
pub use reached::Reached;
pub use search::{Reach, search_after, search_room};
pub use taking::ends_in;
