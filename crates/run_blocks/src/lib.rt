//! Blocks of rooms that have other inputs: an ordinary room's with these on its third line, and that of a run of a reduction, in which the simulators have agreed on them.
#![tactic(auto)]

mod inputs;
pub mod laws;
mod reading;
mod run;

pub use inputs::{put_inputs, room_with};
pub use reading::room_of;
pub use run::run_block;
