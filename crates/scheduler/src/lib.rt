//! Runs simulators of rooms whose words threads share.
//!
//! [`turn`] lets a simulator take its steps up to the end of a turn, and [`drive`] until it stops: it
//! is idle or out of turns, or its [`Fuse`] has burnt down and it crashes. [`run_rooms`] runs all
//! rooms of a list by workers on threads of their own, each simulator until it stops, and then
//! settles and reports each room.
#![tactic(auto)]

mod driving;
mod fuse;
mod gate;
mod gathers;
mod opening;
mod rooms;
mod visiting;
mod workers;

pub use driving::{drive, turn};
pub use fuse::Fuse;
pub use gate::{FreeGate, Gate};
pub use gathers::Gathers;
pub use opening::OpenRooms;
pub use rooms::{RoomResult, RunFault, open_rooms, run_opened, run_rooms};
pub use ruled_room::Stop;
pub use workers::Course;
