//! What a search is of.
ghost use Rattle.std.specs.Prelude.{◌≡◌, true};
ghost use Rattle.room_core.specs.Calls.{configuration_of};
ghost use Rattle.room_core.specs.Rooms.{crashed_at};

use crate::beginning::Act;
use room_core::RoomCore;
use room_spec::Spec;
use std::alloc::Global;

/// The room whose schedules are searched from some moment on, and where the search has its memory from.
#[derive(Clone, Copy)]
pub struct Subject<'a> {
    pub alloc: Global,
    pub spec: &'a Spec,
    /// The room at that moment.
    pub start: &'a RoomCore,
    /// What was done to it before.
    pub acts: &'a [Act],
}

/// Whether simulator `i` had crashed at that moment.
pub fn has_crashed(subject: &Subject<'_>, i: usize) -> bool
    ensures { result ≡ true → crashed_at (configuration_of subject.now.start.now) i ≡ true }
{
    i < subject.start.spec().m() && subject.start.is_crashed(i)
}
