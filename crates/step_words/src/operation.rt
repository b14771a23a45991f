//! The operation of an atomic step in words.
ghost use Rattle.std.specs.Prelude.{◌≡◌, ◌++◌, OnOk, codes};
ghost use Rattle.step_words.specs.Names.{operation_text, own_text, place_text, stored_text, word_text};

use crate::pieces::{write_digits, write_with_three, write_with_two};
use io_text::Text;
use room_spec::Spec;
use room_steps::AtomicStep;
use simulator::Move;
use std::alloc::AllocError;
use view_table::Place;

pub(crate) fn write_operation(
    output: &mut Text,
    spec: &Spec,
    step: &AtomicStep,
) -> Result<(), AllocError>
    ensures { OnOk result (output.new ≡ output.old ++ operation_text spec.now step.now) }
{
    match step.operation {
        Move::Load(_) => {
            output.put(b"load ")?;
            write_place(output, spec, step.place)
        }
        Move::Store(_, number) => {
            output.put(b"store ")?;
            write_stored(output, step.place, number)?;
            output.put(b" in ")?;
            write_place(output, spec, step.place)
        }
        Move::Add(..) => {
            output.put(b"add 1 to ")?;
            write_own(output, step.place, step.simulator, step.process)
        }
        Move::Sub(..) => {
            output.put(b"subtract 1 from ")?;
            write_own(output, step.place, step.simulator, step.process)
        }
        Move::Finished | Move::OutOfTurns => Ok(()),
    }
}

/// Writes what is stored at this place.
fn write_stored(output: &mut Text, place: Place, number: u64) -> Result<(), AllocError>
    ensures { OnOk result (output.new ≡ output.old ++ stored_text place number) }
{
    match place {
        Place::View { .. } => output.put(b"them"),
        Place::Out { .. } => {
            write_digits(output, number.saturating_sub(1))?;
            output.put(b" + 1")
        }
        _ => write_digits(output, number),
    }
}

/// Writes the field of its own that a simulator raises or lowers at this place.
fn write_own(output: &mut Text, place: Place, simulator: usize, of: usize) -> Result<(), AllocError>
    ensures { OnOk result (output.new ≡ output.old ++ own_text place simulator of) }
{
    match place {
        Place::Levels { process, round } => {
            write_with_three(output, b"level", simulator, process, round)
        }
        _ => write_with_two(output, b"step", simulator, of),
    }
}

fn write_place(output: &mut Text, spec: &Spec, place: Place) -> Result<(), AllocError>
    ensures { OnOk result (output.new ≡ output.old ++ place_text spec.now place) }
{
    match place {
        Place::Memory { word } => write_memory(output, spec, word),
        Place::Levels { process, round } => {
            write_with_two(output, b"the levels of agreement ", process, round)
        }
        Place::View {
            simulator,
            process,
            round,
            word,
        } => {
            write_with_three(output, b"view", simulator, process, round)?;
            write_word(output, spec, word)
        }
        Place::Value {
            simulator,
            process,
            round,
        } => write_with_three(output, b"value", simulator, process, round),
        Place::Out { simulator, process } => write_with_two(output, b"out", simulator, process),
    }
}

fn write_memory(output: &mut Text, spec: &Spec, word: usize) -> Result<(), AllocError>
    ensures { OnOk result (output.new ≡ output.old ++ (codes "the step numbers" ++ word_text spec.now word)) }
{
    output.put(b"the step numbers")?;
    write_word(output, spec, word)
}

/// Writes which of the memory words it is, if the room has several.
fn write_word(output: &mut Text, spec: &Spec, word: usize) -> Result<(), AllocError>
    ensures { OnOk result (output.new ≡ output.old ++ word_text spec.now word) }
{
    if spec.shape().memory_words() <= 1 {
        return Ok(());
    }
    output.put(b", word ")?;
    write_digits(output, word as u64)
}
