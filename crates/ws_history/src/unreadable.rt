//! The agreements that no simulator can read at a moment.
ghost use Rattle.std.specs.Prelude.{◌≡◌, ◌<◌, ◌==◌, ◌&&◌, not};
ghost use Rattle.room_spec.specs.Rooms.{is_reduction, processes};
ghost use Rattle.room_spec.specs.Sizes.{sizes_in};
ghost use Rattle.view_table.specs.Places.{IsAgreementRound};
ghost use Rattle.room_core.specs.Fields.{Fields};
ghost use Rattle.room_core.specs.Reading.{AreFieldsOf};
ghost use Rattle.ws_history.specs.Readings.{read_of};
ghost use Rattle.ws_history.specs.Unreadable.{blocker_of, chosen_of, is_none, unreadable_of};

use crate::agreements::{is_fixed, shown_of};
use crate::reading::{
    has_crashed, least_with, level, process_count, round_count, shape_of, simulator_count,
};
use room_core::RoomCore;

/// An agreement that no simulator can read, since one is in its unsafe section.
#[derive(Clone, Copy)]
pub struct Unreadable {
    /// The least simulator in the unsafe section (at level 1).
    pub inside: usize,
    /// The simulator whose proposal is chosen, if the agreement is fixed: the choice can't change any more.
    pub chosen: Option<usize>,
    /// The least simulator that has crashed in the unsafe section, if one has: the agreement will never be read.
    pub blocker: Option<usize>,
}

/// What keeps the agreement on snapshot `k` of process `j` from being read, if something does. In a reduction that with the number 0 is the agreement on the
/// process's input. `None` also if the room has no such agreement.
pub fn unreadable_agreement(room: &RoomCore, j: usize, k: usize) -> Option<Unreadable>
    ensures { (fields : Fields) → AreFieldsOf room.now fields → result ≡ unreadable_of room.now.spec fields j k }
{
    let _shape = shape_of(room); // for the proof: the room is within its limits
    unreadable_in(room, j, k)
}

fn unreadable_in(room: &RoomCore, j: usize, k: usize) -> Option<Unreadable>
    ensures { result ≡ unreadable_of room.now.spec (read_of room.now) j k }
{
    if is_none(room, j, k) {
        return None;
    }
    let inside = least_with(room, j, k, 1)?;
    Some(Unreadable {
        inside,
        chosen: chosen_of(room, j, k),
        blocker: blocker_of(room, j, k),
    })
}

/// Whether the room has no agreement of this process and round.
fn is_none(room: &RoomCore, j: usize, k: usize) -> bool
    ensures { result ≡ is_none room.now.spec j k }
{
    j >= process_count(room) || (is_no_input(room, k) || k > round_count(room))
}

/// Whether it is the number of an agreement on an input, and the room has none.
fn is_no_input(room: &RoomCore, k: usize) -> bool
    ensures { result ≡ (k == 0) && not (is_reduction room.now.spec) }
{
    k == 0 && !room.spec().is_reduction()
}

/// The simulator whose proposal is chosen for good, if one is.
fn chosen_of(room: &RoomCore, j: usize, k: usize) -> Option<usize>
    requires process { j < processes room.now.spec }
    requires round { IsAgreementRound (sizes_in room.now.spec) k }
    ensures { result ≡ chosen_of room.now.spec (read_of room.now) j k }
{
    if is_fixed(room, j, k) {
        Some(shown_of(room, j, k))
    } else {
        None
    }
}

/// The least simulator that has crashed in the unsafe section, if one has.
fn blocker_of(room: &RoomCore, j: usize, k: usize) -> Option<usize>
    requires process { j < processes room.now.spec }
    requires round { IsAgreementRound (sizes_in room.now.spec) k }
    ensures { result ≡ blocker_of room.now.spec (read_of room.now) j k }
{
    for i in 0..simulator_count(room) {
        if has_crashed(room, i) && level(room, i, j, k) == 1 {
            return Some(i);
        }
    }
    None
}
