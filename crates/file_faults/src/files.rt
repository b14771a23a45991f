//! All faults of a file of rooms, and of a transcript.
ghost use Rattle.std.specs.Prelude.{◌≡◌, ◌≤◌, ◌++◌, IfOk, OnOk, false, length, true};
ghost use Rattle.io_text.specs.Reading.{most_bytes};
ghost use Rattle.file_faults.specs.Files.{AddsRoomFaults, AddsRoomObjects, AreRoomFaults, AreRoomObjects, AreTranscriptFaults, AreTranscriptObjects, all_objects, more_if, refusal_object, refusal_objects, unread_said, unread_spot};
ghost use Rattle.file_faults.specs.Json.{fault_in};

use crate::events::{Opened, write_event_faults};
use crate::json::{write_enough, write_fault};
use fault_text::{
    Refusals, RefusedBlock, Spot, go_past, write_heading, write_indented, write_noted,
};
use io_text::Text;
use room_files::{InputFault, Kinds, Setup, SpecList, TextFault, read_all_blocks, read_blocks};
use room_warnings::Format;
use std::alloc::{AllocError, Global};

/// What may help with such an input.
const NO_EVENTS: &[u8] =
    b"a transcript has a line `events` after its blocks, and `bgview sample` and `bgview outcomes` read blocks only";

/// What is said of all blocks of a file of rooms that are refused.
pub fn room_faults(alloc: Global, input: &[u8]) -> Result<Text, AllocError>
    requires { length input.now ≤ most_bytes }
    ensures { IfOk result (AreRoomFaults input.now) }
{
    let mut output = Text::new(alloc);
    write_room_faults(alloc, &mut output, input)?;
    Ok(output)
}

/// The same as JSON.
pub(crate) fn room_objects(alloc: Global, input: &[u8]) -> Result<Text, AllocError>
    requires { length input.now ≤ most_bytes }
    ensures { IfOk result (AreRoomObjects input.now) }
{
    let mut output = Text::new(alloc);
    write_room_objects(alloc, &mut output, input)?;
    Ok(output)
}

fn write_room_objects(alloc: Global, output: &mut Text, input: &[u8]) -> Result<(), AllocError>
    requires { length input.now ≤ most_bytes }
    ensures { OnOk result (AddsRoomObjects input.now output.old output.new) }
{
    let no_blocks = Setup::new(SpecList::new(alloc), Refusals::new(alloc));
    let setup = read_all_blocks(alloc, Kinds::All, no_blocks, input)?;
    write_refusals(alloc, output, input, &setup.refused)
}

/// Writes an object for each refused block, and that no more is explained once enough are.
fn write_refusals(
    alloc: Global,
    output: &mut Text,
    input: &[u8],
    refusals: &Refusals,
) -> Result<(), AllocError>
    ensures { OnOk result (output.new ≡ output.old ++ refusal_objects input.now refusals.now) }
{
    let (explained, others) = refusals.parts();
    write_explained(alloc, output, input, explained)?;
    write_more_if(alloc, output, others)
}

/// Writes that no more is explained, if there are more.
fn write_more_if(
    alloc: Global,
    output: &mut Text,
    refusals: &[RefusedBlock],
) -> Result<(), AllocError>
    ensures { OnOk result (output.new ≡ output.old ++ more_if refusals.now) }
{
    match refusals {
        [] => Ok(()),
        _ => write_enough(Format { alloc, json: true }, output),
    }
}

fn write_explained(
    alloc: Global,
    output: &mut Text,
    input: &[u8],
    refusals: &[RefusedBlock],
) -> Result<(), AllocError>
    ensures { OnOk result (output.new ≡ output.old ++ all_objects input.now refusals.now) }
{
    let mut rest = input;
    let mut passed = 0;
    for refusal in refusals {
        let lines = refusal.line.saturating_sub(1);
        rest = go_past(input, rest, passed, lines);
        passed = lines;
        write_refusal(alloc, output, rest, *refusal)?;
    }
    Ok(())
}

/// Writes the object of the refused block at the front of this text.
fn write_refusal(
    alloc: Global,
    output: &mut Text,
    text: &[u8],
    refusal: RefusedBlock,
) -> Result<(), AllocError>
    ensures { OnOk result (output.new ≡ output.old ++ refusal_object text.now refusal) }
{
    let spot = Spot::of_refusal(refusal.line, text, refusal.fault);
    let mut said = Text::new(alloc);
    write_noted(alloc, &mut said, text, refusal)?;
    write_fault(alloc, output, true, &spot, said.as_bytes())
}

/// What is said of all faults of a transcript, as JSON.
#[tactic(auto, unfolding(crate::specs::Files::AreTranscriptObjects))]
pub(crate) fn transcript_objects(alloc: Global, input: &[u8]) -> Result<Text, AllocError>
    requires { length input.now ≤ most_bytes }
    ensures { IfOk result (AreTranscriptObjects input.now) }
{
    let mut output = Text::new(alloc);
    let no_blocks = Setup::new(SpecList::new(alloc), Refusals::new(alloc));
    match read_blocks(alloc, Kinds::All, no_blocks, input) {
        Ok((setup, transcript)) => {
            write_refusals(alloc, &mut output, input, &setup.refused)?;
            let opened = Opened::of(&setup.rooms, input, &setup.refused);
            let format = Format { alloc, json: true };
            write_event_faults(format, &mut output, &opened, setup.line, transcript)?;
            Ok(output)
        }
        Err(InputFault::Memory) => Err(AllocError),
        Err(InputFault::BadInput { line, fault }) => {
            write_room_objects(alloc, &mut output, input)?;
            write_unread(alloc, &mut output, line, fault)?;
            Ok(output)
        }
    }
}

/// Writes that a transcript ends before its line `events`.
fn write_unread(
    alloc: Global,
    output: &mut Text,
    line: u64,
    fault: TextFault,
) -> Result<(), AllocError>
    ensures { OnOk result (output.new ≡ output.old ++ fault_in true false (unread_spot line fault) (unread_said line fault)) }
{
    let what = fault.sentence();
    let mut said = Text::new(alloc);
    write_heading(&mut said, line, what.as_bytes())?;
    write_indented(&mut said, NO_EVENTS)?;
    let spot = Spot {
        line,
        place: None,
        what,
    };
    write_fault(alloc, output, false, &spot, said.as_bytes())
}

fn write_room_faults(alloc: Global, output: &mut Text, input: &[u8]) -> Result<(), AllocError>
    requires { length input.now ≤ most_bytes }
    ensures { OnOk result (AddsRoomFaults input.now output.old output.new) }
{
    let no_blocks = Setup::new(SpecList::new(alloc), Refusals::new(alloc));
    let setup = read_all_blocks(alloc, Kinds::All, no_blocks, input)?;
    setup.refused.write_notes(alloc, output, input)
}

/// What is said of all faults of a transcript: of its refused blocks, and of its event lines; or that it ends before its line `events`.
#[tactic(auto, unfolding(crate::specs::Files::AreTranscriptFaults))]
pub fn transcript_faults(alloc: Global, input: &[u8]) -> Result<Text, AllocError>
    requires { length input.now ≤ most_bytes }
    ensures { IfOk result (AreTranscriptFaults input.now) }
{
    let mut output = Text::new(alloc);
    let no_blocks = Setup::new(SpecList::new(alloc), Refusals::new(alloc));
    match read_blocks(alloc, Kinds::All, no_blocks, input) {
        Ok((setup, transcript)) => {
            setup.refused.write_notes(alloc, &mut output, input)?;
            let opened = Opened::of(&setup.rooms, input, &setup.refused);
            let format = Format { alloc, json: false };
            write_event_faults(format, &mut output, &opened, setup.line, transcript)?;
            Ok(output)
        }
        Err(InputFault::Memory) => Err(AllocError),
        Err(InputFault::BadInput { line, fault }) => {
            write_room_faults(alloc, &mut output, input)?;
            write_heading(&mut output, line, fault.sentence().as_bytes())?;
            write_indented(&mut output, NO_EVENTS)?;
            Ok(output)
        }
    }
}
