//! Reads files of rooms and transcripts, with the number of each line, and writes the lines that report refused blocks and verdicts.
#![tactic(auto)]

mod block_list;
mod blocks;
mod events;
mod fault;
mod kinds;
pub mod laws;
mod lines;
mod outcome;
mod report;
mod setup;
mod spec_list;

pub use block_list::{BlockList, write_block};
pub use blocks::{Opens, Refuses, Setup};
pub use events::{TakesEvents, feed_events};
pub use fault::{BlockFault, InputFault, TextFault};
pub use kinds::{Kinds, read_room};
pub use lines::{count_lines, next_line, split_line};
pub use outcome::{Answer, Outcome, is_well, outcome_if};
pub use report::{write_refused, write_refused_code, write_task, write_verdict};
pub use setup::{read_all_blocks, read_blocks};
pub use spec_list::SpecList;
