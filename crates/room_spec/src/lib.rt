//! Rooms of bgsim: what each is given, and the text that says it.
#![tactic(auto)]

mod block;
mod block_lines;
mod crash_lines;
mod fault;
pub mod laws;
mod name;
mod protocols;
mod spec;
mod spelled;
mod text;
mod version;

pub use block::{Block, block_len, read_block, read_reduction};
pub use fault::SpecFault;
pub use name::{MAX_NAME, Name};
pub use protocols::Protocols;
pub use spec::{
    MAX_AGREED, MAX_MEMORY_WORDS, MAX_PROCESSES, MAX_ROUNDS, MAX_SIMULATORS, MAX_TURNS, Shape, Spec,
};
pub use spelled::Spelled;
pub use text::{cut, cut_near};
pub use version::Version;
