//! The lanes of the simulators in a room's picture: where each column is, and what is drawn in it: the squares of steps, the bars of turns, who is inside an agreement, and
//! the proposals.
#![tactic(auto)]

mod fonts;
mod lanes;
pub mod laws;
mod layout;
mod panel;
mod proposals;
mod squares;
mod turns;
mod words;

pub use fonts::{CODE, EVENT, HEADING, LEGEND, SMALL, TITLE, WORDS};
pub use lanes::{add_insides, add_lanes, add_ticks};
pub use layout::{Grid, LEFT, MARGIN, dashes_for};
pub use panel::{Head, Panel};
pub use proposals::{add_proposals, proposal_words, write_proposer};
pub use squares::add_squares;
pub use turns::add_turns;
pub use words::{clipped, write_counted, write_process, write_simulator};
