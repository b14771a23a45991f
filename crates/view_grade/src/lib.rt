//! Goals for scripts: what the final report of a script is to show, and whether it does; and whether the histories of its rooms keep a task of one's own.
#![tactic(auto)]

mod aim;
mod forms;
mod goal;
mod grader;
mod grading;
mod inputs;
mod json;
mod judging;
mod keeper;
mod kept_text;
mod lines;
mod reaching;
mod reading;
mod reported;
mod text;

pub use aim::Aim;
pub use forms::goal_forms;
pub use goal::{Claim, Fact, Goal, GoalFault, Joint};
pub use grading::{grade, grade_kept};
pub use reading::read_goal;
