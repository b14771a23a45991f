//! A script's replies, and under each the atomic steps that its command took, or what the simulators have decided and which inputs they have agreed on.
#![tactic(auto)]

mod decisions;
mod inputs;
mod json;
mod missed;
mod playing;
mod tracer;

pub use playing::{trace, trace_json};
