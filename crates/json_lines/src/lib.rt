//! What modes write as JSON: an object a line, and the values that several of them have, of states, events and texts.
#![tactic(auto)]

mod event;
mod line;
mod state;
mod text;

pub use event::{entry_value, event_value, events_value, row_value};
pub use line::write_line;
pub use state::{process_value, processes_value};
pub use text::{numbers_value, text_value};
