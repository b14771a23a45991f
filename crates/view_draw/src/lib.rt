//! Draws what becomes of a script's rooms.
#![tactic(auto)]

mod drawing;
mod panels;
mod playing;
mod recorder;

pub use playing::draw;
