//! Whether each run of a room keeps its task, with all vectors of some values in place of its inputs.
ghost use Rattle.std.specs.Prelude.{◌≡◌, ◌++◌, IfOk, IsSome, ℕ, List, length};
ghost use Rattle.run_blocks.specs.Blocks.{IsRoomBlock};
ghost use Rattle.room_spec.specs.Rooms.{processes};
ghost use Rattle.input_vectors.specs.Judged.{AddsVectors};
ghost use Rattle.input_vectors.specs.Vectors.{vectors};
ghost use Rattle.view_outcomes.specs.AllInputs.{IsInputsText, IsVectorText};

use crate::judging::is_kept;
use crate::search::SearchedRoom;
use crate::shown::{show_taskless, show_too_many, show_vector, show_vector_unjudged, show_vectors};
use input_vectors::{all_vectors, count_if_few};
use io_text::Text;
use run_blocks::room_with;
use run_search::{Progress, SearchFault, judge_task};
use std::alloc::AllocError;

/// Writes for each vector of these values whether each run of the room with these inputs keeps its task, and for how many it does; or that there are too many vectors, or that
/// the room has no task. Gives whether the task is kept with each.
pub fn judge_all<P: Progress>(
    room: &SearchedRoom<'_>,
    values: &[u32],
    output: &mut Text,
    progress: &mut P,
) -> Result<bool, AllocError>
    requires { IsRoomBlock room.now.block.now room.now.spec.now }
    ensures { IfOk result (λ well. (text : List ℕ) × IsInputsText room.now.search.now values.now room.now.spec.now room.now.block.now well text × (output.new ≡ output.old ++ text)) }
{
    let Some(_task) = room.spec.task() else {
        show_taskless(room, output)?;
        return Ok(true);
    };
    let Some(count) = count_if_few(values.len(), room.spec.n()) else {
        show_too_many(room, output, values)?;
        return Ok(false);
    };
    let kept = judge_vectors(room, values, output, progress)?;
    show_vectors(room, output, values, kept, count)?;
    Ok(kept == count)
}

/// Writes for each vector of these values whether each run of the room with these inputs keeps its task. Gives for how many it does.
fn judge_vectors<P: Progress>(
    room: &SearchedRoom<'_>,
    values: &[u32],
    output: &mut Text,
    progress: &mut P,
) -> Result<usize, AllocError>
    requires block { IsRoomBlock room.now.block.now room.now.spec.now }
    requires task { IsSome room.now.spec.now.task }
    ensures { IfOk result (λ kept. AddsVectors (IsVectorText room.now.search.now room.now.spec.now room.now.block.now) (vectors values.now (processes room.now.spec.now)) kept output.old output.new) }
{
    let all = all_vectors(room.alloc, values, room.spec.n())?;
    let mut kept = 0;
    for index in 0..all.len() {
        let inputs = all[index].as_slice();
        let one = judge_vector(room, inputs, output, progress)?;
        kept += usize::from(one);
    }
    Ok(kept)
}

/// Writes whether each run of the room with these inputs keeps its task, or that it has too many nodes.
fn judge_vector<P: Progress>(
    room: &SearchedRoom<'_>,
    inputs: &[u32],
    output: &mut Text,
    progress: &mut P,
) -> Result<bool, AllocError>
    requires block { IsRoomBlock room.now.block.now room.now.spec.now }
    requires task { IsSome room.now.spec.now.task }
    requires inputs { length inputs.now ≡ processes room.now.spec.now }
    ensures { IfOk result (λ kept. (text : List ℕ) × IsVectorText room.now.search.now room.now.spec.now room.now.block.now inputs.now kept text × (output.new ≡ output.old ++ text)) }
{
    let (spec, text) = room_with(room.alloc, room.spec, room.block, inputs)?;
    let other = SearchedRoom {
        alloc: room.alloc,
        spec: &spec,
        block: text.as_bytes(),
        search: room.search,
    };
    match judge_task(room.alloc, &spec, room.search.nodes, progress) {
        Ok(judgement) => {
            show_vector(&other, output, inputs, &judgement)?;
            Ok(is_kept(&judgement))
        }
        Err(SearchFault::TooManyNodes) => {
            show_vector_unjudged(&other, output, inputs)?;
            Ok(false)
        }
        Err(SearchFault::OutOfMemory) => Err(AllocError),
    }
}
