//! What the words of bgview's command line ask for: a mode, its inputs, and what its options say.
#![tactic(auto)]

mod command_line;
mod values;
mod words;

pub use command_line::read_words;
pub use values::{is_given, line_in, number_among, number_if_any, text_among, text_if_any};
pub use words::{Line, Mode};
