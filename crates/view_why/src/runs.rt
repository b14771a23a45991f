//! The answer to an input of whose rooms there is nothing to explain.
ghost use Rattle.std.specs.Prelude.{◌≡◌, ◌≤◌, IfErr, IfOk, IfSome, List, Some, false, length, slice_get, true};
ghost use Rattle.std.specs.List.{flat_map};
ghost use Rattle.room_spec.specs.Rooms.{RoomSpec};
ghost use Rattle.history_checker.specs.Verdicts.{FedEvent, HasProcessed, fed_to, specs_of};
ghost use Rattle.io_text.specs.Reading.{most_bytes};
ghost use Rattle.room_files.specs.Blocks.{IsFaultOr};
ghost use Rattle.room_files.specs.Inputs.{MayLackMemory, input_says};
ghost use Rattle.room_files.specs.declared.kinds.Kinds.TheVariants.{All};
ghost use Rattle.fault_text.specs.Refusals.{refusal_line};
ghost use Rattle.view_why.specs.Why.{AreOrdinary, IsExplanation, IsExplanationFor, IsRoomSaid};

use crate::run_rooms::RunRooms;
use fault_text::Refusals;
use history_checker::Rooms;
use io_text::Text;
use room_files::{
    Answer, InputFault, Kinds, Setup, feed_events, is_well, outcome_if, read_blocks, write_task,
    write_verdict,
};
use std::alloc::{AllocError, Global};

/// Judges an input as `check` does, with no event kept. Gives the answer to it if no room is a reduction and each room's events are a run that keeps its task.
pub fn explain_runs(alloc: Global, input: &[u8]) -> Result<Option<Answer>, InputFault>
    requires { length input.now ≤ most_bytes }
    ensures output { IfOk result (λ found. IfSome found (λ answer. IsExplanationFor input.now answer.outcome answer.output)) }
    ensures err { IfErr result (IsFaultOr (MayLackMemory All input.now) (input_says All input.now)) }
{
    let setup = Setup::new(RunRooms::new(alloc), Refusals::new(alloc));
    let (setup, transcript) = read_blocks(alloc, Kinds::All, setup, input)?;
    let Setup {
        rooms,
        refused,
        line,
    } = setup;
    if rooms.has_reduction() {
        return Ok(None);
    }
    let mut rooms = rooms.into_rooms();
    feed_events(&mut rooms, line, transcript)?;
    Ok(answer_of_runs(alloc, input, &rooms, &refused)?)
}

/// Appends the verdicts on the rooms to what is said of the refused blocks, if each is a run that keeps its task.
fn answer_of_runs(
    alloc: Global,
    input: &[u8],
    rooms: &Rooms,
    refusals: &Refusals,
) -> Result<Option<Answer>, AllocError>
    requires { AreOrdinary (specs_of rooms.now) }
    ensures { IfOk result (λ found. IfSome found (λ answer. (fed : List FedEvent) → HasProcessed rooms.now fed →
        IsExplanation false input.now (specs_of rooms.now) (flat_map refusal_line refusals.now) fed answer.outcome answer.output)) }
{
    let mut output = Text::new(alloc);
    refusals.write(alloc, &mut output, input)?;
    for index in 0..rooms.len() {
        if !write_run(&mut output, rooms, index)? {
            return Ok(None);
        }
    }
    Ok(Some(Answer {
        output,
        outcome: outcome_if(refusals.is_empty()),
    }))
}

/// Writes the verdicts on the room of this index, if it is a run that keeps its task. Gives whether it is one.
fn write_run(output: &mut Text, rooms: &Rooms, index: usize) -> Result<bool, AllocError>
    requires { AreOrdinary (specs_of rooms.now) }
    ensures { IfOk result (λ well. well ≡ true → (fed : List FedEvent) → HasProcessed rooms.now fed → (spec : RoomSpec) ×
        (slice_get (specs_of rooms.now) index ≡ Some spec) × IsRoomSaid false spec (fed_to spec.name fed) output.old output.new true) }
{
    let (Some(name), Some(verdict)) = (rooms.name(index), rooms.verdict(index)) else {
        return Ok(false);
    };
    let task = rooms.task_verdict(index);
    if !is_well(verdict, task) {
        return Ok(false);
    }
    write_verdict(output, name, verdict)?;
    write_task(output, name, verdict, task)?;
    Ok(true)
}
