//! Outcomes that the simulators of a room reach.

use room_sample::{States, Stretch};

/// An outcome: the states of the processes once the room has settled after a schedule.
#[derive(Drop)]
pub struct Reached {
    pub states: States,
    pub schedule: Vec<Stretch>,
}
