//! Faults of an input for people: the line of each and its place, what was expected there, and what may help.
#![tactic(auto)]

mod blocks;
mod choices;
mod forms;
mod hints;
pub mod laws;
mod lines;
mod phrases;
mod places;
mod refusals;
mod spots;
mod unknown_names;

pub use blocks::{
    HEAD_LINES, later_line, line_ends, program_of, write_block_fault, write_name_taken,
};
pub use hints::{NO_COMMAND, NO_EVENT, write_advice};
pub use lines::{line_at, lines_after, write_indented};
pub use phrases::{COMMANDS, EVENTS, fits_one, write_form_fault};
pub use places::{Remark, last_line, write_heading, write_place};
pub use refusals::{ENOUGH, MOST_EXPLAINED, Refusals, RefusedBlock, go_past, write_noted};
pub use spots::Spot;
pub use unknown_names::{UnknownNames, has_room_line, write_near_room};
