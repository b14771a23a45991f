//! How vectors of inputs are judged, as text.
ghost use Rattle.std.specs.Prelude.{◌≡◌, ◌++◌, OnOk, codes};
ghost use Rattle.io_text.specs.Numbers.{numbers_text};
ghost use Rattle.view_outcomes.specs.VectorTexts.{agreed_line, broken_words, kept_in_runs, kept_words, vector_text, vector_unjudged_line, verdict_words};

use crate::search::SearchedRoom;
use crate::text::{write_transcript, write_unfinished};
use input_vectors::{write_vector_words, write_vectors_line};
use io_text::Text;
use run_blocks::put_inputs;
use run_search::Judgement;
use std::alloc::AllocError;
use transcript::Event;

/// Writes what the room with these inputs, which its block says, is judged to be. A run that breaks the task follows unless transcripts are left out.
pub fn write_vector(
    output: &mut Text,
    room: &SearchedRoom<'_>,
    inputs: &[u32],
    judgement: &Judgement,
) -> Result<(), AllocError>
    ensures { OnOk result (output.new ≡ output.old ++ vector_text room.now.search.now.brief room.now.spec.now.name inputs.now room.now.block.now judgement.now) }
{
    let name = room.spec.name().as_str().as_bytes();
    write_vector_words(output, name, inputs)?;
    write_verdict(output, name, room.block, room.search.brief, judgement)
}

/// Writes the end of that line, and a run that breaks the task unless `brief`.
fn write_verdict(
    output: &mut Text,
    name: &[u8],
    block: &[u8],
    brief: bool,
    judgement: &Judgement,
) -> Result<(), AllocError>
    ensures { OnOk result (output.new ≡ output.old ++ verdict_words brief name.now block.now judgement.now) }
{
    match judgement {
        Judgement::Kept(nodes) => write_kept_words(output, *nodes),
        Judgement::Broken(events) => write_broken_words(
            output,
            name,
            block,
            brief,
            events.as_slice(),
        ),
    }
}

fn write_kept_words(output: &mut Text, nodes: usize) -> Result<(), AllocError>
    ensures { OnOk result (output.new ≡ output.old ++ kept_words nodes) }
{
    output.put(b" task holds in every run:")?;
    output.put_spaced_number(nodes as u64)?;
    output.put(b" nodes searched\n")
}

fn write_broken_words(
    output: &mut Text,
    name: &[u8],
    block: &[u8],
    brief: bool,
    events: &[Event],
) -> Result<(), AllocError>
    ensures { OnOk result (output.new ≡ output.old ++ broken_words brief name.now block.now events.now) }
{
    if brief {
        return output.put(b" task broken\n");
    }
    output.put(b" task broken by this run:\n")?;
    write_transcript(output, name, block, events)
}

/// Writes that no run that was searched breaks the task with these inputs, and that the room has more nodes than this number.
pub fn write_vector_unjudged(
    output: &mut Text,
    name: &[u8],
    inputs: &[u32],
    limit: u32,
) -> Result<(), AllocError>
    ensures { OnOk result (output.new ≡ output.old ++ vector_unjudged_line name.now inputs.now limit) }
{
    write_vector_words(output, name, inputs)?;
    output.put(b" task holds so far, ")?;
    write_unfinished(output, limit)
}

/// Writes for how many of how many vectors each run keeps the task.
pub fn write_kept_in_runs(
    output: &mut Text,
    name: &[u8],
    kept: usize,
    count: usize,
) -> Result<(), AllocError>
    ensures { OnOk result (output.new ≡ output.old ++ kept_in_runs name.now kept count) }
{
    write_vectors_line(output, name, b" task holds in every run for", kept, count)
}

/// Writes the line with which what is said of a reduction from these inputs begins.
pub fn write_agreed(output: &mut Text, name: &[u8], inputs: &[u32]) -> Result<(), AllocError>
    ensures { OnOk result (output.new ≡ output.old ++ agreed_line name.now inputs.now) }
{
    output.put_two(name, b" from the inputs")?;
    put_agreed(output, inputs)
}

fn put_agreed(output: &mut Text, inputs: &[u32]) -> Result<(), AllocError>
    ensures { OnOk result (output.new ≡ output.old ++ (numbers_text inputs.now ++ codes ":\n")) }
{
    put_inputs(output, inputs)?;
    output.put(b":\n")
}
