//! The lines of reports: of a report that was made, and of a room, with no list of its events between.
#![tactic(auto)]

mod event_lines;
mod events;
mod reports;

pub use event_lines::{EventLines, write_lines, write_room};
pub use events::write_events;
pub use reports::{write_processes, write_report};
