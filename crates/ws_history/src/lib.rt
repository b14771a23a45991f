//! The result of a simulated room: the history of its processes on write-snapshot memory, and a
//! report of the state of each of them.
#![tactic(auto)]

mod agreements;
mod effects;
mod event_sink;
mod histories;
mod inputs;
pub mod laws;
mod linearization;
mod points;
mod reading;
mod reports;
mod snapshots;
mod states;
mod unreadable;

pub use effects::{Effect, StepStart};
pub use event_sink::EventSink;
pub use histories::history;
pub use inputs::{process_inputs, run_inputs};
pub use linearization::linearize;
pub use points::Points;
pub use reports::{process_states, report, report_to};
pub use states::{History, ProcessState, Report, Standing};
pub use unreadable::{Unreadable, unreadable_agreement};
