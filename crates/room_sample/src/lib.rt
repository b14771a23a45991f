//! Outcomes of a room: it is run under many random schedules, and its outcomes are counted.
#![tactic(auto)]

mod active;
mod chances;
mod cuts;
mod entries;
mod examples;
pub mod laws;
mod numbered;
mod run;
mod sampling;
mod stretch;
mod tally;
mod workers;

pub use examples::{Example, PartialExamples, Showing, example_of, examples_of};
pub use numbered::settled_by_number;
pub use run::{Settled, settled_after};
pub use sampling::{PartialSample, Plan, sample};
pub use stretch::Stretch;
pub use tally::{Outcome, States, Tally};
pub use workers::{OneWorker, Places, Threaded, Workers};
