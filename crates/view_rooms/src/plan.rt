//! How the rooms of a file are searched.

use room_spec::Spec;
use std::alloc::Global;

/// How rooms are searched, and what is written of them.
#[derive(Clone, Copy)]
pub struct RoomPlan {
    /// At most this number of simulators crash; if it is not said, all but one.
    pub crashes: Option<u32>,
    /// How many nodes of a room are searched at most.
    pub nodes: u32,
    /// Whether scripts are left out, in JSON the schedules.
    pub brief: bool,
    /// Whether the outcomes are written as JSON.
    pub json: bool,
}

/// A room that is searched: the room, a block that says it, and how it is searched.
#[derive(Clone, Copy)]
pub(crate) struct SearchedRoom<'a> {
    pub(crate) alloc: Global,
    pub(crate) spec: &'a Spec,
    pub(crate) block: &'a [u8],
    pub(crate) plan: &'a RoomPlan,
}
