//! One simulator of a room: what it has in mind, which atomic step it takes next, and what it makes
//! of the answer.
//!
//! A simulator goes round the simulated processes and works on one of them in each turn. It stores
//! and counts the process's next write, proposes a snapshot to the safe agreement on it, and, once
//! that is resolved, works out what the process does next. This is the simulation of E. Borowsky,
//! E. Gafni, N. Lynch and S. Rajsbaum, "The BG distributed simulation algorithm", Distributed
//! Computing 14(3), 2001. It is given here step by step: a mind says which operation on one word it
//! wants next, and takes in what that operation answered.
#![tactic(auto)]

mod goal;
mod knowledge;
pub mod laws;
mod line;
mod memory;
mod mind;
mod next;
mod operation;
mod part;
mod rows;
mod running;
mod snapshot;
mod sweep;
mod taking;
mod turn;
mod words;

pub use goal::Goal;
pub use knowledge::Knowledge;
pub use line::Line;
pub use memory::Memory;
pub use mind::Mind;
pub use operation::Move;
pub use sweep::{Ready, Sweep};
pub use turn::Turn;
