//! By how many schedules of a sample rooms break their tasks, with all vectors of some values in place of their inputs.
ghost use Rattle.std.specs.Prelude.{◌≡◌, ◌≤◌, ◌++◌, not, ℕ, IfOk, IsSome, List, Ok, length, option_map};
ghost use Rattle.std.specs.List.{All};
ghost use Rattle.io_text.specs.Reading.{most_bytes};
ghost use Rattle.room_files.specs.Kinds.{block_of};
ghost use Rattle.room_files.specs.declared.kinds.Kinds.TheVariants as kinds;
ghost use Rattle.run_blocks.specs.Blocks.{IsRoomBlock};
ghost use Rattle.room_spec.specs.Rooms.{IsWithinLimits, RoomSpec, processes};
ghost use Rattle.room_sample.specs.Samples.{AreAmongAll, CameByFirst, IsSample};
ghost use Rattle.room_sample.specs.Shown.{IsShownIf, shown_of};
ghost use Rattle.input_vectors.specs.Judged.{AddsVectors};
ghost use Rattle.input_vectors.specs.Vectors.{vectors};
ghost use Rattle.view_sample.specs.EachRoom.{AddsRooms};
ghost use Rattle.view_sample.specs.Inputs.{IsInputsSample, IsInputsText, IsJudgedText, IsVectorText};
ghost use Rattle.view_sample.specs.Tasks.{first_broken};

use crate::inputs_text::{show_taskless, show_too_many, show_vector, show_vectors};
use crate::rooms::broken_example;
use crate::sample::{head_of, write_last};
use crate::sampled::Sampled;
use crate::task_text::has_held;
use input_vectors::{all_vectors, count_if_few};
use io_text::Text;
use room_files::{Answer, BlockList, Kinds, Setup, outcome_if, read_all_blocks};
use room_sample::{PartialSample, Plan, Tally, Workers, sample};
use run_blocks::{room_of, room_with};
use run_search::Progress;
use std::alloc::{AllocError, Global};

/// How rooms are sampled, and of which values their inputs are made.
#[derive(Clone, Copy)]
pub struct InputsPlan<'a> {
    pub alloc: Global,
    pub plan: &'a Plan,
    /// Each once, in the order in which they are taken.
    pub values: &'a [u32],
}

/// Runs each room of a file by the schedules of a plan, as `sample_blocks` does, with each vector of some values as its inputs. Gives the lines of the refused blocks and, for each
/// room, with which vectors each schedule keeps its task, and for each other one by how many schedules it is broken, with a script; or this as JSON.
///
/// # Errors
///
/// An allocation that failed.
pub fn sample_inputs<W: Workers, P: Progress>(
    workers: &W,
    input: &[u8],
    asked: &InputsPlan<'_>,
    progress: &mut P,
) -> Result<Answer, AllocError>
    requires may { W.may_count }
    requires fits { length input.now ≤ most_bytes }
    ensures { IfOk result (λ answer. IsInputsSample asked.now.values.now asked.now.plan.now input.now answer.outcome answer.output) }
{
    let no_blocks = Setup::new(BlockList::new(asked.alloc), Text::new(asked.alloc));
    let Setup { rooms, refused, .. } = read_all_blocks(asked.alloc, Kinds::All, no_blocks, input)?;
    let is_accepted = refused.is_empty();
    let mut output = head_of(asked.alloc, asked.plan, refused);
    let kept = write_rooms(workers, &rooms, asked, &mut output, progress)?;
    write_last(&mut output, asked.plan)?;
    Ok(Answer {
        output,
        outcome: outcome_if(is_accepted & kept),
    })
}

/// Writes of each room with which vectors its task is kept. Gives whether it is with each.
fn write_rooms<W: Workers, P: Progress>(
    workers: &W,
    rooms: &BlockList,
    asked: &InputsPlan<'_>,
    output: &mut Text,
    progress: &mut P,
) -> Result<bool, AllocError>
    requires { W.may_count }
    ensures { IfOk result (λ well. AddsRooms (IsInputsText asked.now.plan.now asked.now.values.now) rooms.now.rooms well output.old output.new) }
{
    let mut well = true;
    for index in 0..rooms.len() {
        well &= write_room(workers, rooms.block(index), asked, output, progress)?;
    }
    Ok(well)
}

/// The same of the room of a block.
fn write_room<W: Workers, P: Progress>(
    workers: &W,
    block: &[u8],
    asked: &InputsPlan<'_>,
    output: &mut Text,
    progress: &mut P,
) -> Result<bool, AllocError>
    requires may { W.may_count }
    requires block { (spec : RoomSpec) × (block_of kinds.All block.now ≡ Ok (spec, length block.now)) }
    ensures { IfOk result (λ well. (spec : RoomSpec) → block_of kinds.All block.now ≡ Ok (spec, length block.now) →
        (text : List ℕ) × IsInputsText asked.now.plan.now asked.now.values.now spec well text × (output.new ≡ output.old ++ text)) }
{
    let spec = room_of(asked.alloc, block)?;
    let room = Sampled {
        alloc: asked.alloc,
        spec: &spec,
        block,
        plan: asked.plan,
    };
    let well = judge_room(workers, &room, asked.values, output, progress)?;
    Ok(well)
}

/// Writes with which vectors a room's task is kept; or that there are too many vectors, or that it has no task. Gives whether it is with each.
fn judge_room<W: Workers, P: Progress>(
    workers: &W,
    room: &Sampled<'_>,
    values: &[u32],
    output: &mut Text,
    progress: &mut P,
) -> Result<bool, AllocError>
    requires may { W.may_count }
    requires block { IsRoomBlock room.now.block.now room.now.spec.now }
    ensures { IfOk result (λ well. (text : List ℕ) × IsJudgedText room.now.plan.now values.now room.now.spec.now room.now.block.now well text × (output.new ≡ output.old ++ text)) }
{
    let Some(_task) = room.spec.task() else {
        show_taskless(room, output, values)?;
        return Ok(true);
    };
    let Some(count) = count_if_few(values.len(), room.spec.n()) else {
        show_too_many(room, output, values)?;
        return Ok(false);
    };
    let kept = judge_vectors(workers, room, values, output, progress)?;
    show_vectors(room, output, values, kept, count)?;
    Ok(kept == count)
}

/// Writes for each vector of these values by how many schedules the room with these inputs breaks its task. Gives for how many it is none.
fn judge_vectors<W: Workers, P: Progress>(
    workers: &W,
    room: &Sampled<'_>,
    values: &[u32],
    output: &mut Text,
    progress: &mut P,
) -> Result<usize, AllocError>
    requires may { W.may_count }
    requires block { IsRoomBlock room.now.block.now room.now.spec.now }
    ensures { IfOk result (λ kept. AddsVectors (IsVectorText room.now.plan.now room.now.spec.now room.now.block.now) (vectors values.now (processes room.now.spec.now)) kept output.old output.new) }
{
    let all = all_vectors(room.alloc, values, room.spec.n())?;
    let mut kept = 0;
    for index in 0..all.len() {
        let inputs = all[index].as_slice();
        let one = judge_vector(workers, room, inputs, output, progress)?;
        kept += usize::from(one);
    }
    Ok(kept)
}

/// Writes by how many schedules the room with these inputs breaks its task. Gives whether it is none.
fn judge_vector<W: Workers, P: Progress>(
    workers: &W,
    room: &Sampled<'_>,
    inputs: &[u32],
    output: &mut Text,
    progress: &mut P,
) -> Result<bool, AllocError>
    requires may { W.may_count }
    requires block { IsRoomBlock room.now.block.now room.now.spec.now }
    requires inputs { length inputs.now ≡ processes room.now.spec.now }
    ensures { IfOk result (λ kept. (text : List ℕ) × IsVectorText room.now.plan.now room.now.spec.now room.now.block.now inputs.now kept text × (output.new ≡ output.old ++ text)) }
{
    let (spec, block) = room_with(room.alloc, room.spec, room.block, inputs)?;
    let _shape = spec.shape(); // for the proof: the room is within its limits
    let other = Sampled {
        alloc: room.alloc,
        spec: &spec,
        block: block.as_bytes(),
        plan: room.plan,
    };
    let outcomes = sample_whole(workers, &other, progress)?;
    let broken = broken_example(&other, &outcomes, !other.plan.brief)?;
    show_vector(&other, output, inputs, &outcomes, broken.as_ref())?;
    Ok(has_held(&spec, &outcomes))
}

/// The outcomes of a room by all schedules of the plan.
fn sample_whole<W: Workers, P: Progress>(
    workers: &W,
    room: &Sampled<'_>,
    progress: &mut P,
) -> Result<Tally, AllocError>
    requires { W.may_count }
    ensures sample { IfOk result (λ outcomes. IsSample room.now.spec.now room.now.plan.now outcomes) }
    ensures among { IfOk result (λ outcomes. AreAmongAll room.now.spec.now outcomes) }
{
    let PartialSample {
        outcomes,
        ending,
        ..
    } = sample(workers, room.alloc, room.spec, room.plan, progress);
    ending?;
    Ok(outcomes)
}
