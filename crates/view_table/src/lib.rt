//! The places of a room's shared memory, and the place of each among the memory's words.
#![tactic(auto)]

mod inverse;
pub mod laws;
mod place;

pub use inverse::place_at;
pub use place::{MAX_WORDS, Place, index, later_levels, later_value, words};
