//! Tasks of one's own: conditions in the language of protocols, read over what the processes have decided, and whether each run of a room, or a given one, keeps them.
#![tactic(auto)]

mod decisions;
mod history;
mod judging;
pub mod laws;
mod line;
mod task;

pub use decisions::decisions_of;
pub use history::{Moment, first_broken};
pub use judging::{Break, DecisionJudgement, judge_decisions};
pub use task::{DecisionTask, LineFault};
