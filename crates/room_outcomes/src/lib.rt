//! What becomes of a simulated room is an outcome of a run of its protocol.
#![tactic(auto)]

pub mod laws;
