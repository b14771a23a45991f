//! What happens in a room: its steps and crashes, as columns of a picture, one by one or in stretches; the step at which each event takes effect; and what is proposed in
//! each agreement.
#![tactic(auto)]

mod column;
mod effects;
mod kind;
pub mod laws;
mod mark;
mod proposals;
mod seen;
mod sought;

pub use column::{Change, Column, Columns, MAX_COLUMNS, Scale};
pub use effects::{column_of, event_step, round_at};
pub use mark::{Mark, Step, StepKind};
pub use proposals::{Agreement, Fate, snapshots_of};
pub use sought::{Sought, column_at};
