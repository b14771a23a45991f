//! Reads and plays scripts: each command is executed in order, and shown to one who follows the script, as the replies are as lines: see [`Follows`].
#![tactic(auto)]

mod entries;
mod following;
mod player;
mod replies;
mod reply;
mod script;
mod steps;

pub use entries::read_command;
pub use following::{Asked, Follows, Order, decisions_at};
pub use replies::{PlayText, play};
pub use reply::{refusal_in, sim_in, write_reply, write_steps};
pub use script::{Played, play_script};
