//! One room over its words, stepped one atomic step at a time.
//!
//! Whatever is called, in whatever order, the words and minds of a room are those to which some
//! list of atomic steps of its simulators and of crashes leads: an execution of the simulators in
//! the asynchronous shared memory model of E. Borowsky, E. Gafni, N. Lynch and S. Rajsbaum, "The BG
//! distributed simulation algorithm", Distributed Computing 14(3), 2001. The type of a room says so.
#![tactic(auto)]

pub mod laws;
mod observer;
mod reply;
mod room;
mod room_words;
mod settle;

pub use observer::{Observer, Unobserved};
pub use reply::{CrashReply, StepReply};
pub use room::{RoomCore, none_crashed};
pub use room_words::perform;
