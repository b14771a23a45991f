//! The transcript of a script's rooms: the events of each in the order in which they took effect.
#![tactic(auto)]

mod kept;
mod text;
mod transcriber;
mod transcribing;

pub use transcribing::transcribe;
