//! The outcomes of sampled rooms, as text or as JSON: how often each came, a script that leads to it, and whether they keep their room's task; or by how many schedules their histories break a task of one's own.
#![tactic(auto)]

mod counts;
mod inputs;
mod inputs_text;
mod json;
mod kept;
mod kept_text;
pub mod laws;
mod rooms;
mod sample;
mod sampled;
mod task;
mod task_text;
mod text;

pub use counts::values_in;
pub use inputs::{InputsPlan, sample_inputs};
pub use json::{schedule_unless, write_outcome_line, write_outcome_lines};
pub use kept::{KeptPlan, sample_kept};
pub use sample::{sample_blocks, write_closing};
pub use task_text::{write_broken_line, write_held};
pub use text::{
    write_most_numbers, write_new_words, write_outcomes, write_plan, write_script_unless,
};
