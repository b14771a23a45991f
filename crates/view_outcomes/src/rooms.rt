//! The outcomes of the rooms of a file.
ghost use Rattle.std.specs.Prelude.{◌≡◌, ◌++◌, ◌&&◌, Ok, IfOk, ℕ, List, length};
ghost use Rattle.room_files.specs.BlockLists.{IsBlockAt};
ghost use Rattle.room_files.specs.Kinds.{block_of};
ghost use Rattle.room_files.specs.declared.kinds.Kinds.TheVariants.{All};
ghost use Rattle.run_blocks.specs.Blocks.{IsRoomBlock};
ghost use Rattle.room_spec.specs.Rooms.{RoomSpec, processes};
ghost use Rattle.run_search.specs.Agreed.{own_values};
ghost use Rattle.input_vectors.specs.Judged.{AddsVectors};
ghost use Rattle.view_outcomes.specs.Rooms.{AddsOutcomes, IsAgreedText, IsAloneText, IsListText, IsReductionText, IsRoomAnswer, IsTextFor, agreed_vectors, crashes_for};

use crate::inputs::judge_all;
use crate::judging::judge;
use crate::keeping::judge_both;
use crate::listing::{find_all, find_listed, has_outcome};
use crate::search::{Asked, Search, SearchedRoom};
use crate::shown::{
    show_agreed, show_alone, show_found, show_head, show_too_many, show_unfinished, show_unlisted,
};
use input_vectors::{all_vectors, count_if_few};
use io_text::Text;
use room_files::BlockList;
use room_spec::Spec;
use run_blocks::{room_of, room_with};
use run_search::{Progress, SearchFault, own_values};
use std::alloc::{AllocError, Global};

/// Writes what is asked for of each room. Gives whether all is well: each room was searched to the end, and each run of each keeps its room's task; or, if one outcome is
/// asked for, each room has it.
pub fn write_rooms<P: Progress>(
    alloc: Global,
    rooms: &BlockList,
    search: &Search<'_>,
    output: &mut Text,
    progress: &mut P,
) -> Result<bool, AllocError>
    ensures { IfOk result (λ well. AddsOutcomes search.now rooms.now.rooms well output.old output.new) }
{
    let mut well = true;
    for index in 0..rooms.len() {
        let kept = write_room(alloc, rooms.block(index), search, output, progress)?;
        well &= kept;
    }
    Ok(well)
}

/// Writes what is asked for of the room of a block. Gives whether it was searched to the end, and each run keeps its task or it has the outcome that is asked for.
fn write_room<P: Progress>(
    alloc: Global,
    block: &[u8],
    search: &Search<'_>,
    output: &mut Text,
    progress: &mut P,
) -> Result<bool, AllocError>
    requires { (spec : RoomSpec) × (block_of All block.now ≡ Ok (spec, length block.now)) }
    ensures { IfOk result (λ well. (spec : RoomSpec) → block_of All block.now ≡ Ok (spec, length block.now) →
        (text : List ℕ) × IsRoomAnswer search.now spec well text × (output.new ≡ output.old ++ text)) }
{
    let spec = room_of(alloc, block)?;
    let room = SearchedRoom {
        alloc,
        spec: &spec,
        block,
        search,
    };
    answer(&room, output, progress)
}

/// Writes what is asked for of a room: of a reduction from each vector of its simulators' own inputs, if none are given.
fn answer<P: Progress>(
    room: &SearchedRoom<'_>,
    output: &mut Text,
    progress: &mut P,
) -> Result<bool, AllocError>
    requires says { block_of All room.now.block.now ≡ Ok (room.now.spec.now, length room.now.block.now) }
    requires block { IsRoomBlock room.now.block.now room.now.spec.now }
    ensures { IfOk result (λ well. (text : List ℕ) × IsRoomAnswer room.now.search.now room.now.spec.now well text × (output.new ≡ output.old ++ text)) }
{
    if room.spec.is_reduction() && !room.search.asked.has_inputs() {
        answer_agreed(room, output, progress)
    } else {
        answer_one(room, output, progress)
    }
}

/// Writes what is asked for of an ordinary room, or of a reduction whose inputs are given.
fn answer_one<P: Progress>(
    room: &SearchedRoom<'_>,
    output: &mut Text,
    progress: &mut P,
) -> Result<bool, AllocError>
    requires block { IsRoomBlock room.now.block.now room.now.spec.now }
    ensures { IfOk result (λ well. (text : List ℕ) × IsTextFor room.now.search.now.asked room.now.search.now room.now.spec.now room.now.block.now well text × (output.new ≡ output.old ++ text)) }
{
    match room.search.asked {
        Asked::Outcomes | Asked::First(_) => list(room, output, progress),
        Asked::Outcome(number) => choose(room, number, output, progress),
        Asked::Task => judge(room, output, progress),
        Asked::Inputs(values) => judge_all(room, values, output, progress),
        Asked::Keeps(task) => judge_both(room, task, output, progress),
    }
}

// ---- reductions

/// Writes what is asked for of a reduction, from each vector of its simulators' own inputs; or that there are too many. Gives whether all is well from each.
fn answer_agreed<P: Progress>(
    room: &SearchedRoom<'_>,
    output: &mut Text,
    progress: &mut P,
) -> Result<bool, AllocError>
    requires { IsRoomBlock room.now.block.now room.now.spec.now }
    ensures { IfOk result (λ well. (text : List ℕ) × IsReductionText room.now.search.now room.now.spec.now room.now.block.now well text × (output.new ≡ output.old ++ text)) }
{
    let own = own_values(room.spec);
    let values = own.as_slice();
    let Some(count) = count_if_few(values.len(), room.spec.n()) else {
        show_too_many(room, output, values)?;
        return Ok(false);
    };
    let kept = answer_each(room, values, output, progress)?;
    Ok(kept == count)
}

/// Writes what is asked for of a reduction, from each vector of its own inputs. Gives from how many of them all is well.
fn answer_each<P: Progress>(
    room: &SearchedRoom<'_>,
    values: &[u32],
    output: &mut Text,
    progress: &mut P,
) -> Result<usize, AllocError>
    requires block { IsRoomBlock room.now.block.now room.now.spec.now }
    requires values { values.now ≡ own_values room.now.spec.now }
    ensures { IfOk result (λ kept. AddsVectors (IsAgreedText room.now.search.now room.now.spec.now room.now.block.now) (agreed_vectors room.now.spec.now) kept output.old output.new) }
{
    let all = all_vectors(room.alloc, values, room.spec.n())?;
    let mut kept = 0;
    for index in 0..all.len() {
        let inputs = all[index].as_slice();
        let one = answer_vector(room, inputs, output, progress)?;
        kept += usize::from(one);
    }
    Ok(kept)
}

/// Writes these inputs, and what is asked for of the ordinary room that has them. Gives whether all is well in it.
fn answer_vector<P: Progress>(
    room: &SearchedRoom<'_>,
    inputs: &[u32],
    output: &mut Text,
    progress: &mut P,
) -> Result<bool, AllocError>
    requires block { IsRoomBlock room.now.block.now room.now.spec.now }
    requires inputs { length inputs.now ≡ processes room.now.spec.now }
    ensures { IfOk result (λ well. (text : List ℕ) × IsAgreedText room.now.search.now room.now.spec.now room.now.block.now inputs.now well text × (output.new ≡ output.old ++ text)) }
{
    let (spec, text) = room_with(room.alloc, room.spec, room.block, inputs)?;
    let other = SearchedRoom {
        alloc: room.alloc,
        spec: &spec,
        block: text.as_bytes(),
        search: room.search,
    };
    show_agreed(room, output, inputs)?;
    answer_one(&other, output, progress)
}

// ---- what is asked for

/// Writes all outcomes of a room, or the first ones; or that it has too many nodes.
fn list<P: Progress>(
    room: &SearchedRoom<'_>,
    output: &mut Text,
    progress: &mut P,
) -> Result<bool, AllocError>
    ensures { IfOk result (λ well. (text : List ℕ) × IsListText room.now.search.now room.now.spec.now room.now.block.now well text × (output.new ≡ output.old ++ text)) }
{
    let crashes = crashes_for(room.spec, room.search.crashes);
    show_head(room, output, crashes)?;
    match find_all(room, crashes, progress) {
        Ok(all) => {
            show_found(room, output, crashes, &all)?;
            Ok(all.breaking.is_none())
        }
        Err(SearchFault::TooManyNodes) => {
            show_unfinished(room, output, crashes)?;
            Ok(false)
        }
        Err(SearchFault::OutOfMemory) => Err(AllocError),
    }
}

/// Writes a transcript of the outcome of this number, from 1, in the list of a room's outcomes; or how many outcomes there are, or that the room has too many nodes. Gives
/// whether there is that outcome.
fn choose<P: Progress>(
    room: &SearchedRoom<'_>,
    number: u32,
    output: &mut Text,
    progress: &mut P,
) -> Result<bool, AllocError>
    ensures { IfOk result (λ well. (text : List ℕ) × IsAloneText number room.now.search.now room.now.spec.now room.now.block.now well text × (output.new ≡ output.old ++ text)) }
{
    let crashes = crashes_for(room.spec, room.search.crashes);
    match find_listed(room, crashes, progress) {
        Ok(listed) => {
            let all = listed.as_slice();
            show_alone(room, output, number, all)?;
            Ok(has_outcome(all, number))
        }
        Err(SearchFault::TooManyNodes) => {
            show_unlisted(room, output, crashes)?;
            Ok(false)
        }
        Err(SearchFault::OutOfMemory) => Err(AllocError),
    }
}

/// How many processes stop at most: all but one, if it is not said.
fn crashes_for(spec: &Spec, crashes: Option<u32>) -> usize
    ensures { result ≡ crashes_for spec.now crashes }
{
    match crashes {
        Some(crashes) => crashes as usize,
        None => spec.n() - 1,
    }
}
