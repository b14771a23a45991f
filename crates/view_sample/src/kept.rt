//! By how many schedules of a sample the histories of rooms break a task of one's own.
ghost use Rattle.std.specs.Prelude.{◌≡◌, ◌≤◌, ◌++◌, ℕ, IfOk, List, Ok, OnOk, length};
ghost use Rattle.io_text.specs.Reading.{most_bytes};
ghost use Rattle.room_files.specs.Kinds.{block_of};
ghost use Rattle.room_files.specs.declared.kinds.Kinds.TheVariants.{All};
ghost use Rattle.room_spec.specs.Rooms.{RoomSpec};
ghost use Rattle.view_sample.specs.EachRoom.{AddsRooms};
ghost use Rattle.view_sample.specs.Keeping.{IsBreaksText, IsKeptSample, breaks_in};

use crate::kept_text::{write_breaks_object, write_breaks_text};
use crate::sample::{head_of, write_last};
use crate::sampled::Sampled;
use decision_tasks::DecisionTask;
use io_text::Text;
use room_files::{Answer, BlockList, Kinds, Setup, outcome_if, read_all_blocks, read_room};
use room_sample::Plan;
use run_search::Progress;
use sample_breaks::{Breaks, Judging, count_breaks};
use std::alloc::{AllocError, Global};

/// How rooms are sampled, and the task by which their histories are judged.
#[derive(Clone, Copy)]
pub struct KeptPlan<'a> {
    pub plan: &'a Plan,
    pub task: &'a DecisionTask,
}

/// Runs each room of a file by the schedules of a plan, as `sample_blocks` does, and judges its history by each of them by a task, once the room has settled. Gives the lines of the refused
/// blocks and, for each room, by how many schedules its history breaks the task, which of them is the first, and its script; or this as JSON. It runs on the caller's thread.
///
/// # Errors
///
/// An allocation that failed.
pub fn sample_kept<P: Progress>(
    alloc: Global,
    input: &[u8],
    judged: &KeptPlan<'_>,
    progress: &mut P,
) -> Result<Answer, AllocError>
    requires { length input.now ≤ most_bytes }
    ensures { IfOk result (λ answer. IsKeptSample judged.now.task.now judged.now.plan.now input.now answer.outcome answer.output) }
{
    let no_blocks = Setup::new(BlockList::new(alloc), Text::new(alloc));
    let Setup { rooms, refused, .. } = read_all_blocks(alloc, Kinds::All, no_blocks, input)?;
    let is_accepted = refused.is_empty();
    let mut output = head_of(alloc, judged.plan, refused);
    let kept = write_breaks(alloc, &rooms, judged, &mut output, progress)?;
    write_last(&mut output, judged.plan)?;
    Ok(Answer {
        output,
        outcome: outcome_if(is_accepted & kept),
    })
}

/// Writes of each room by how many schedules its history breaks the task. Gives whether it is none.
fn write_breaks<P: Progress>(
    alloc: Global,
    rooms: &BlockList,
    judged: &KeptPlan<'_>,
    output: &mut Text,
    progress: &mut P,
) -> Result<bool, AllocError>
    ensures { IfOk result (λ kept. AddsRooms (IsBreaksText judged.now.task.now judged.now.plan.now) rooms.now.rooms kept output.old output.new) }
{
    let mut kept = true;
    for index in 0..rooms.len() {
        kept &= write_room(alloc, rooms.block(index), judged, output, progress)?;
    }
    Ok(kept)
}

/// The same of the room of a block.
fn write_room<P: Progress>(
    alloc: Global,
    block: &[u8],
    judged: &KeptPlan<'_>,
    output: &mut Text,
    progress: &mut P,
) -> Result<bool, AllocError>
    requires { (spec : RoomSpec) × (block_of All block.now ≡ Ok (spec, length block.now)) }
    ensures { IfOk result (λ kept. (spec : RoomSpec) → block_of All block.now ≡ Ok (spec, length block.now) →
        (text : List ℕ) × IsBreaksText judged.now.task.now judged.now.plan.now spec kept text × (output.new ≡ output.old ++ text)) }
{
    let Ok((spec, _)) = read_room(alloc, Kinds::All, block)? else {
        unreachable!() // it is a room's block
    };
    let judging = Judging {
        alloc,
        spec: &spec,
        plan: judged.plan,
        task: judged.task,
    };
    let breaks = count_breaks(&judging, progress)?;
    let room = Sampled {
        alloc,
        spec: &spec,
        block,
        plan: judged.plan,
    };
    show_breaks(&room, output, &breaks)?;
    Ok(breaks.first.is_none())
}

/// Writes by how many schedules a room's history breaks the task, as text or as JSON.
fn show_breaks(room: &Sampled<'_>, output: &mut Text, breaks: &Breaks) -> Result<(), AllocError>
    ensures { OnOk result (output.new ≡ output.old ++ breaks_in room.now.plan.now room.now.spec.now.name room.now.block.now breaks.now) }
{
    if room.plan.json {
        return write_breaks_object(room, output, breaks);
    }
    write_breaks_text(room, output, breaks)
}
