//! Verdicts on histories of bgsim: which lists of events are runs, and where the others break.
#![tactic(auto)]

mod bound;
mod fault;
mod history;
mod kept;
mod process;
mod reason;
mod reduction;
mod room;
mod rooms;
mod row;
mod tally;
mod task;
mod verdict;

pub use bound::certified;
pub use fault::{AddFault, FeedFault, NoRoom};
pub use history::{check, why};
pub use process::Turn;
pub use reason::{Break, LastWrite, Reason};
pub use reduction::check_reduction;
pub use rooms::Rooms;
pub use task::check_task;
pub use verdict::{TaskVerdict, Verdict};
