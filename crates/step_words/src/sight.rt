//! What there is to see at an atomic step.
ghost use Rattle.std.specs.Prelude.{◌≡◌, ◌<◌, ◌≤◌, ◌^◌, ◌++◌, OnOk, codes, length, if◌then◌else◌};
ghost use Rattle.std.specs.List.{range_with_len};
ghost use Rattle.room_spec.specs.Rooms.{processes};
ghost use Rattle.room_spec.specs.Sizes.{memory_words, sizes_in};
ghost use Rattle.view_table.specs.Places.{IsPlace};
ghost use Rattle.room_spec.specs.declared.spec.TheConstants.{MAX_MEMORY_WORDS};
ghost use Rattle.level_cells.specs.Fields.{level_of, levels_of};
ghost use Rattle.sim_memory.specs.Steps.{step_in};
ghost use Rattle.step_words.specs.Lines.{IsStepIn};
ghost use Rattle.step_words.specs.Sights.{added_text, chosen_text, counts_text, entered_text, entry_text, levels_say, levels_text, loaded_text, memory_with, raised_text};
ghost use Rattle.step_words.specs.Sights.{row_text, shown_in, sight_text, value_text, withdrawn_text, written_text};

use crate::pieces::{write_between, write_number};
use io_text::Text;
use level_cells::{field, levels};
use room_spec::{MAX_MEMORY_WORDS, Spec};
use room_steps::AtomicStep;
use safe_agreement::{has_level, resolved_in};
use sim_memory::{merged, step_of};
use simulator::{Line, Move};
use std::alloc::AllocError;
use view_table::Place;

/// Writes what the word of the step shows.
pub(crate) fn write_sight(
    output: &mut Text,
    spec: &Spec,
    step: &AtomicStep,
) -> Result<(), AllocError>
    requires { IsStepIn spec.now step.now }
    ensures { OnOk result (output.new ≡ output.old ++ sight_text spec.now step.now) }
{
    match step.operation {
        Move::Load(_) => write_loaded(output, spec, step),
        Move::Store(_, number) => write_written(output, spec, step.place, number),
        Move::Add(..) => write_added(output, spec, step),
        Move::Sub(..) => write_withdrawn(output, level_of(spec, step)),
        Move::Finished | Move::OutOfTurns => Ok(()),
    }
}

fn write_loaded(output: &mut Text, spec: &Spec, step: &AtomicStep) -> Result<(), AllocError>
    requires { IsStepIn spec.now step.now }
    ensures { OnOk result (output.new ≡ output.old ++ loaded_text step.now.place spec.now step.now) }
{
    match step.place {
        Place::Memory { word } | Place::View { word, .. } => {
            write_row(output, spec, word, step.word)
        }
        Place::Levels { .. } => write_levels(output, spec, step.line, step.word),
        Place::Value { .. } | Place::Out { .. } => output.put_spaced_number(step.word),
    }
}

/// Writes what was stored at this place.
fn write_written(
    output: &mut Text,
    spec: &Spec,
    place: Place,
    number: u64,
) -> Result<(), AllocError>
    requires { IsPlace (sizes_in spec.now) place }
    ensures { OnOk result (output.new ≡ output.old ++ written_text place spec.now number) }
{
    match place {
        Place::View { word, .. } => write_row(output, spec, word, number),
        Place::Value { process, round, .. } => {
            write_value(output, process as u64, round as u64, number)
        }
        Place::Out { process, .. } => {
            write_number(output, b" process", process as u64)?;
            write_number(output, b" decides", number.saturating_sub(1))
        }
        Place::Memory { .. } | Place::Levels { .. } => Ok(()),
    }
}

/// Writes what a process writes, or in round 0 what a simulator proposes as its input.
fn write_value(output: &mut Text, process: u64, round: u64, number: u64) -> Result<(), AllocError>
    ensures { OnOk result (output.new ≡ output.old ++ value_text process round number) }
{
    if round == 0 {
        write_number(output, b" proposes", number)?;
        return write_number(output, b" as the input of process", process);
    }
    write_number(output, b" process", process)?;
    write_number(output, b" writes", number)
}

fn write_added(output: &mut Text, spec: &Spec, step: &AtomicStep) -> Result<(), AllocError>
    requires { IsStepIn spec.now step.now }
    ensures { OnOk result (output.new ≡ output.old ++ added_text step.now.place spec.now step.now) }
{
    match step.place {
        Place::Memory { word } => {
            let number = step_number(spec, word, step);
            write_raised(output, number as u64)
        }
        _ => write_entered(output, level_of(spec, step)),
    }
}

/// The step number of the step's simulator for its process, which is in this memory word.
fn step_number(spec: &Spec, at: usize, step: &AtomicStep) -> usize
    requires step { IsStepIn spec.now step.now }
    requires word { at < memory_words (sizes_in spec.now) }
    ensures value { result ≡ step_in (sizes_in spec.now) (memory_with at step.now.word) step.now.simulator step.now.process }
    ensures range { result < 2 ^ 8 }
{
    let shape = spec.shape();
    let _words = shape.memory_words(); // for the proof: at most four
    let words = memory_with(at, step.word);
    step_of(&shape, &words, step.simulator, step.process)
}

/// The level of the step's simulator in the step's word.
fn level_of(spec: &Spec, step: &AtomicStep) -> u64
    requires { IsStepIn spec.now step.now }
    ensures value { result ≡ level_of step.now.word step.now.simulator }
    ensures range { result < 4 }
{
    let _m = spec.m(); // for the proof: a room has few simulators
    field(step.word, 2 * step.simulator, 2)
}

/// Writes a number, and one more.
fn write_raised(output: &mut Text, number: u64) -> Result<(), AllocError>
    requires { number < 2 ^ 32 }
    ensures { OnOk result (output.new ≡ output.old ++ raised_text number) }
{
    output.put_spaced_number(number)?;
    write_number(output, b" to", number + 1)
}

fn write_entered(output: &mut Text, level: u64) -> Result<(), AllocError>
    requires { level < 4 }
    ensures { OnOk result (output.new ≡ output.old ++ entered_text level) }
{
    write_raised(output, level)?;
    output.put(if level == 0 {
        b": inside the agreement"
    } else {
        b": its proposal stands"
    })
}

fn write_withdrawn(output: &mut Text, level: u64) -> Result<(), AllocError>
    ensures { OnOk result (output.new ≡ output.old ++ withdrawn_text level) }
{
    let lower = level.saturating_sub(1);
    output.put_spaced_number(level)?;
    write_between(output, b" to", lower, b": withdrawn")
}

/// Writes the levels of all simulators, and what they say at this line of a turn.
fn write_levels(output: &mut Text, spec: &Spec, line: Line, word: u64) -> Result<(), AllocError>
    ensures { OnOk result (output.new ≡ output.old ++ levels_text line (levels_of word spec.now.simulators)) }
{
    output.put(b" levels")?;
    output.put_spaced_numbers(levels(word, spec.m()).as_slice())?;
    match line {
        Line::Look => write_standing(output, has_level(word, spec.m(), 2)),
        _ => write_chosen(output, resolved_in(word, spec.m())),
    }
}

fn write_standing(output: &mut Text, stands: bool) -> Result<(), AllocError>
    ensures { OnOk result (output.new ≡ output.old ++ (if stands then codes ": a proposal stands" else codes ": no proposal stands")) }
{
    if stands {
        output.put(b": a proposal stands")
    } else {
        output.put(b": no proposal stands")
    }
}

fn write_chosen(output: &mut Text, chosen: Option<usize>) -> Result<(), AllocError>
    ensures { OnOk result (output.new ≡ output.old ++ chosen_text chosen) }
{
    match chosen {
        None => output.put(b": not resolved"),
        Some(simulator) => write_between(
            output,
            b": the proposal of simulator",
            simulator as u64,
            b" is chosen",
        ),
    }
}

/// The memory words of a room, of which this one alone is known.
pub(crate) fn memory_with(at: usize, word: u64) -> [u64; MAX_MEMORY_WORDS]
    requires { at < MAX_MEMORY_WORDS }
    ensures value { result ≡ memory_with at word }
    ensures count { length result ≡ MAX_MEMORY_WORDS }
{
    let mut words = [0; MAX_MEMORY_WORDS];
    words[at] = word;
    words
}

/// Writes for each process the greatest step number that a memory word has for it.
fn write_row(output: &mut Text, spec: &Spec, at: usize, word: u64) -> Result<(), AllocError>
    requires { at < memory_words (sizes_in spec.now) }
    ensures { OnOk result (output.new ≡ output.old ++ row_text spec.now at word) }
{
    let _words = spec.shape().memory_words(); // for the proof: at most four
    write_counts(output, spec, &memory_with(at, word))
}

/// Writes a snapshot as these memory words of a room have it: for each process the number of its writes, or `.` for none, after a space.
///
/// # Errors
///
/// An allocation that fails.
pub fn write_counts(output: &mut Text, spec: &Spec, words: &[u64]) -> Result<(), AllocError>
    requires { memory_words (sizes_in spec.now) ≤ length words.now }
    ensures { OnOk result (output.new ≡ output.old ++ counts_text spec.now words.now) }
{
    let shape = spec.shape();
    for process in 0..spec.n() {
        write_entry(output, merged(&shape, words, process))?;
    }
    Ok(())
}

/// Writes a number after a space, or `.` for none.
fn write_entry(output: &mut Text, number: usize) -> Result<(), AllocError>
    ensures { OnOk result (output.new ≡ output.old ++ entry_text number) }
{
    if number == 0 {
        return output.put(b" .");
    }
    output.put_spaced_number(number as u64)
}
