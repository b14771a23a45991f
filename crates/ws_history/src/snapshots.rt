//! The snapshots of a room that were agreed on, in the order of its history.
ghost use Rattle.std.specs.Prelude.{◌≡◌, ℕ, ◌*◌, ◌<◌, ◌≤◌, ◌++◌, IfOk, OnOk, length, map, slice_index};
ghost use Rattle.std.specs.List.{sum};
ghost use Rattle.protocol_lang.specs.declared.meaning.TheConstants.{MAX_PROCESSES};
ghost use Rattle.room_spec.specs.Rooms.{processes};
ghost use Rattle.room_spec.specs.Sizes.{sizes_in};
ghost use Rattle.view_table.specs.Places.{IsRound};
ghost use Rattle.sim_memory.specs.Steps.{row_of};
ghost use Rattle.room_core.specs.Agreements.{greatest_step, has_out};
ghost use Rattle.ws_history.specs.Placing.{agreed_at, agreed_if_passed, agreed_of, all_agreed};
ghost use Rattle.ws_history.specs.Readings.{read_of};
ghost use Rattle.ws_history.specs.Sources.{source_of};

use crate::agreements::{Progress, is_passed, view_at};
use crate::reading::{Row, has_out, number_of, process_count, round_count, row_of, shape_of};
use room_core::RoomCore;
use room_spec::MAX_ROUNDS;
use std::alloc::{AllocError, Global};

/// A snapshot of a process: how many writes of all processes it shows, and of each. Snapshots go by
/// that sum, and then by process; no two that a room has passed share both.
#[derive(Default, Drop, PartialEq, Eq, PartialOrd, Ord)]
pub(crate) struct Agreed {
    pub(crate) sum: u8,
    pub(crate) process: u8,
    pub(crate) round: u8,
    pub(crate) row: Row,
}

/// The passed snapshots of a room, by the sum of their rows, and then by process; `greatest` is how many writes
/// of each process have been made.
pub(crate) fn in_order(
    alloc: Global,
    room: &RoomCore,
    greatest: &[u8],
) -> Result<Vec<Agreed>, AllocError>
    requires { greatest.now ≡ row_of room.now.spec.simulators (processes room.now.spec) (read_of room.now).step }
    ensures { IfOk result (λ agreed. agreed.items ≡ map (agreed_at room.now) (source_of room.now.spec (read_of room.now)).order) }
{
    let _shape = shape_of(room); // for the proof: the room stands for some fields, so its rows compare
    let mut agreed = all_agreed(alloc, room, greatest)?;
    agreed.sort_unstable();
    Ok(agreed)
}

/// The passed snapshots of a room, by process, and then by round.
fn all_agreed(alloc: Global, room: &RoomCore, greatest: &[u8]) -> Result<Vec<Agreed>, AllocError>
    requires { greatest.now ≡ row_of room.now.spec.simulators (processes room.now.spec) (read_of room.now).step }
    ensures { IfOk result (λ agreed. agreed.items ≡ all_agreed room.now) }
{
    let mut agreed = Vec::with_capacity(alloc, process_count(room) * round_count(room))?;
    for process in 0..process_count(room) {
        push_rounds(&mut agreed, room, process, usize::from(greatest[process]))?;
    }
    Ok(agreed)
}

/// Adds the passed snapshots of this process, by how many writes of it have been made.
fn push_rounds(
    agreed: &mut Vec<Agreed>,
    room: &RoomCore,
    process: usize,
    greatest: usize,
) -> Result<(), AllocError>
    requires process { process < processes room.now.spec }
    requires greatest { greatest ≡ greatest_step room.now.spec (read_of room.now) process }
    ensures { OnOk result (agreed.new.items ≡ agreed.old.items ++ agreed_of room.now process) }
{
    let progress = Progress {
        process,
        greatest,
        out: has_out(room, process),
    };
    for r in 0..round_count(room) {
        push_passed(agreed, room, &progress, r + 1)?;
    }
    Ok(())
}

/// Adds the snapshot of this process and round, if it is passed.
fn push_passed(
    agreed: &mut Vec<Agreed>,
    room: &RoomCore,
    progress: &Progress,
    round: usize,
) -> Result<(), AllocError>
    requires process { progress.now.process < processes room.now.spec }
    requires round { IsRound (sizes_in room.now.spec) round }
    requires greatest { progress.now.greatest ≡ greatest_step room.now.spec (read_of room.now) progress.now.process }
    requires out { progress.now.out ≡ has_out room.now.spec (read_of room.now) progress.now.process }
    ensures { OnOk result (agreed.new.items ≡ agreed.old.items ++ agreed_if_passed room.now progress.now.process round) }
{
    if is_passed(room, progress, round) {
        agreed.push(snapshot_at(room, progress.process, round))?;
    }
    Ok(())
}

fn snapshot_at(room: &RoomCore, process: usize, round: usize) -> Agreed
    requires process { process < processes room.now.spec }
    requires round { IsRound (sizes_in room.now.spec) round }
    ensures { result ≡ agreed_at room.now (record { process = process; round = round }) }
{
    let row = row_of(room.spec(), view_at(room, process, round));
    let rounds = round_count(room);
    prove!(rounds <= MAX_ROUNDS as usize);
    Agreed {
        sum: sum(row.as_slice()) as u8,
        process: number_of(room, process),
        round: round as u8,
        row,
    }
}

/// The sum of a row, at most 240.
pub(crate) fn sum(row: &[u8]) -> usize
    requires count { length row.now ≤ MAX_PROCESSES }
    requires range { (p : ℕ) → slice_index row.now p ≤ MAX_ROUNDS }
    ensures value { result ≡ sum row.now }
    ensures range { result ≤ MAX_PROCESSES * MAX_ROUNDS }
{
    row.iter().map(|&entry| usize::from(entry)).sum()
}
