//! The protocol language of bgsim: its texts, and what they mean.
#![tactic(auto)]

mod comparison;
mod draft;
mod environment;
mod fault;
mod formula;
pub mod laws;
mod lexer;
mod meaning;
mod number;
mod opcode;
mod outline;
mod parser;
mod piece;
mod printer;
mod protocol;
mod rules;
mod spelling;
mod stack;
mod state;
mod token;
mod tree;
mod waiting;

pub use fault::ParseFault;
pub use meaning::{Action, MAX_PROCESSES, View, first, next};
pub use number::read_number;
pub use printer::print;
pub use protocol::{Protocol, parse, parse_bytes};
pub use waiting::threshold;
