//! What all programs do: they take words and inputs, say on standard error what ended them, and have an exit status.
#![tactic(auto)]

mod errors;
mod inputs;
mod statuses;

pub use errors::{say_both, say_number, say_place};
pub use inputs::Inputs;
pub use statuses::{unread_status, words, words_status};
