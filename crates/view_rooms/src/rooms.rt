//! The outcomes of the rooms of a file.
ghost use Rattle.std.specs.Prelude.{◌≡◌, ◌++◌, ◌&&◌, Ok, IfOk, ℕ, List, length};
ghost use Rattle.room_files.specs.BlockLists.{IsBlockAt};
ghost use Rattle.room_files.specs.Kinds.{block_of};
ghost use Rattle.room_files.specs.declared.kinds.Kinds.TheVariants.{All};
ghost use Rattle.room_spec.specs.Rooms.{RoomSpec};
ghost use Rattle.view_rooms.specs.Rooms.{AddsOutcomes, IsRoomText, crashes_for};

use crate::listing::find_all;
use crate::plan::{RoomPlan, SearchedRoom};
use crate::shown::{show_found, show_head, show_unfinished};
use io_text::Text;
use room_files::{BlockList, Kinds, read_room};
use room_spec::Spec;
use run_search::{Progress, SearchFault};
use std::alloc::{AllocError, Global};
use view_sample::laws::leading_scripts;

/// Writes the outcomes of each room. Gives whether each room was searched to the end, and no node was missed.
pub(crate) fn write_rooms<P: Progress>(
    alloc: Global,
    rooms: &BlockList,
    plan: &RoomPlan,
    output: &mut Text,
    progress: &mut P,
) -> Result<bool, AllocError>
    ensures { IfOk result (λ well. AddsOutcomes plan.now rooms.now.rooms well output.old output.new) }
{
    let mut well = true;
    for index in 0..rooms.len() {
        let complete = write_room(alloc, rooms.block(index), plan, output, progress)?;
        well &= complete;
    }
    Ok(well)
}

/// Writes the outcomes of the room of a block. Gives whether it was searched to the end, and no node was missed.
fn write_room<P: Progress>(
    alloc: Global,
    block: &[u8],
    plan: &RoomPlan,
    output: &mut Text,
    progress: &mut P,
) -> Result<bool, AllocError>
    requires { (spec : RoomSpec) × (block_of All block.now ≡ Ok (spec, length block.now)) }
    ensures { IfOk result (λ well. (spec : RoomSpec) → block_of All block.now ≡ Ok (spec, length block.now) →
        (text : List ℕ) × IsRoomText plan.now spec well text × (output.new ≡ output.old ++ text)) }
{
    let Ok((spec, _)) = read_room(alloc, Kinds::All, block)? else {
        unreachable!() // it is a room's block
    };
    let room = SearchedRoom {
        alloc,
        spec: &spec,
        block,
        plan,
    };
    list(&room, output, progress)
}

/// Writes all outcomes of a room; or that it has too many nodes.
fn list<P: Progress>(
    room: &SearchedRoom<'_>,
    output: &mut Text,
    progress: &mut P,
) -> Result<bool, AllocError>
    requires { block_of All room.now.block.now ≡ Ok (room.now.spec.now, length room.now.block.now) }
    ensures { IfOk result (λ well. (text : List ℕ) × IsRoomText room.now.plan.now room.now.spec.now well text × (output.new ≡ output.old ++ text)) }
{
    leading_scripts(); // for the proof: the script of each outcome leads to it
    let _shape = room.spec.shape(); // for the proof: the room is within its limits
    let crashes = crashes_for(room.spec, room.plan.crashes);
    show_head(room, output, crashes)?;
    match find_all(room, crashes, progress) {
        Ok(all) => {
            show_found(room, output, crashes, &all)?;
            Ok(all.missed == 0)
        }
        Err(SearchFault::TooManyNodes) => {
            show_unfinished(room, output, crashes)?;
            Ok(false)
        }
        Err(SearchFault::OutOfMemory) => Err(AllocError),
    }
}

/// How many simulators crash at most: all but one, if it is not said.
fn crashes_for(spec: &Spec, crashes: Option<u32>) -> u32
    ensures { result ≡ crashes_for spec.now crashes }
{
    match crashes {
        Some(crashes) => crashes,
        None => spec.m() as u32 - 1,
    }
}
