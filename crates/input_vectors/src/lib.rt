//! All vectors of some values as the inputs of a room: the values as they are given, the vectors, and the words for them.
#![tactic(auto)]

mod json;
pub mod laws;
mod lines;
mod values;
mod vectors;

pub use json::values_value;
pub use lines::{write_too_many, write_vector_words, write_vectors_line};
pub use values::{MAX_VALUES, Values, ValuesFault, read_values};
pub use vectors::{all_vectors, count_if_few};
