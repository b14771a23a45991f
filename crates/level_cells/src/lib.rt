//! Small numbers in fields of bits of one word, and the agreement levels of a round in such a word.
#![tactic(auto)]

mod agreement;
mod bits;
pub mod laws;

pub use agreement::{MAX_LEVELS, levels};
pub use bits::{added, field, one_at, taken};
