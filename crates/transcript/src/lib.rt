//! Transcripts of bgsim: events, and the lines that say them.
#![tactic(auto)]

mod event;
mod event_line;
mod fault;
pub mod laws;
mod line;
mod word;

pub use event::Event;
pub use event_line::EventLine;
pub use fault::LineFault;
pub use line::{append_event, read_line, write_event};
pub use word::EventWord;
