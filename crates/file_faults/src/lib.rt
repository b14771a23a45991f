//! All faults of a file, as text for people or as JSON, by what it is read as: a script, a transcript, or only rooms; and what is warned of in its rooms.
#![tactic(auto)]

mod events;
mod files;
mod json;
mod kinds;
pub mod laws;
mod linting;
mod rooms;
mod scripts;
mod walk;
mod warnings;

pub use files::{room_faults, transcript_faults};
pub use kinds::{Kind, faults_of};
pub use linting::{lint, lint_json};
pub use scripts::script_faults;
pub use warnings::warnings_of;
