//! What the words of bgsim's command line ask for: a mode, a file and a number of workers.
#![tactic(auto)]

mod command_line;
mod words;

pub use command_line::line;
pub use words::{Line, Mode};
