//! One room whose simulators are stepped by threads.
//!
//! All words of a room lie in one table, and each simulator steps through a `&` to it: an execution
//! of the simulators in the asynchronous shared memory model of E. Borowsky, E. Gafni, N. Lynch and
//! S. Rajsbaum, "The BG distributed simulation algorithm", Distributed Computing 14(3), 2001. A step
//! is one atomic operation on one word, with no handle to wait with, so it can wait for no lock.
//!
//! [`RuledRoom::fresh`] gives a room and its [`Keeper`], who has all simulators. The keeper gives a
//! [`Simulator`] away and takes it back; in between any thread may step it. Once all are at home,
//! [`RuledRoom::close`] gives a [`RoomCore`](room_core::RoomCore), which is one interleaving of
//! exactly the steps that were taken, whatever the schedule of the threads was. The [`rule`] of the
//! table is what holds between any two operations.
#![tactic(auto)]

mod boxed;
mod keeper;
pub mod laws;
mod room;
pub mod rule;
mod step;
mod stop;

pub use keeper::Keeper;
pub use room::{Gone, RuledRoom};
pub use step::Simulator;
pub use stop::Stop;
