//! The verdicts on the rooms of a whole transcript.
ghost use Rattle.std.specs.Prelude.{◌≡◌, ◌≤◌, List, Ok, IfOk, IfErr, length};
ghost use Rattle.history_checker.specs.Verdicts.{FedEvent, HasProcessed, specs_of};
ghost use Rattle.room_files.specs.Blocks.{IsFaultOr};
ghost use Rattle.room_files.specs.Inputs.{MayLackMemory, input_says};
ghost use Rattle.room_files.specs.Verdicts.{IsOutput};
ghost use Rattle.room_files.specs.declared.kinds.Kinds.TheVariants.{Ordinary};
ghost use Rattle.io_text.specs.Reading.{most_bytes};
ghost use Rattle.file_verdicts.specs.Check.{IsOutputFor};

use history_checker::Rooms;
use io_text::Text;
use room_files::{
    Answer, InputFault, Kinds, Setup, feed_events, is_well, outcome_if, read_blocks, write_task,
    write_verdict,
};
use std::alloc::{AllocError, Global};

/// Judges an input.
pub fn judge(alloc: Global, input: &[u8]) -> Result<Answer, InputFault>
    requires { length input.now ≤ most_bytes }
    ensures output { IfOk result (λ answer. IsOutputFor input.now answer.outcome answer.output) }
    ensures err { IfErr result (IsFaultOr (MayLackMemory Ordinary input.now) (input_says Ordinary input.now)) }
{
    let no_blocks = Setup::new(Rooms::new(alloc), Text::new(alloc));
    let (setup, transcript) = read_blocks(alloc, Kinds::Ordinary, no_blocks, input)?;
    let Setup {
        mut rooms,
        refused,
        line,
    } = setup;
    feed_events(&mut rooms, line, transcript)?;
    Ok(answer_of(&rooms, refused)?)
}

/// Appends the rooms' verdicts to the lines of the refused blocks.
fn answer_of(rooms: &Rooms, refused: Text) -> Result<Answer, AllocError>
    requires { (fed : List FedEvent) × HasProcessed rooms.now fed }
    ensures { IfOk result (λ answer. (fed : List FedEvent) →
        HasProcessed rooms.now fed → IsOutput (specs_of rooms.now) refused fed answer.outcome answer.output) }
{
    let mut all_well = refused.is_empty();
    let mut output = refused;
    for index in 0..rooms.len() {
        let (Some(name), Some(verdict)) = (rooms.name(index), rooms.verdict(index)) else {
            unreachable!() // there is a room of each index below their number
        };
        let task = rooms.task_verdict(index);
        all_well &= is_well(verdict, task);
        write_verdict(&mut output, name, verdict)?;
        write_task(&mut output, name, verdict, task)?;
    }
    Ok(Answer {
        output,
        outcome: outcome_if(all_well),
    })
}
