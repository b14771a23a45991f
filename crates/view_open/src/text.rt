//! What is written after a command, as text.
ghost use Rattle.std.specs.Prelude.{◌≡◌, ◌∷◌, ◌++◌, not, OnOk, codes, decimal};
ghost use Rattle.std.specs.List.{list_any};
ghost use Rattle.view_open.specs.Texts.{closed_line, closed_lines, comma, complete_line, count_line, end_text, end_words, ends_text, found_notes, is_closed, missed_line, missed_words, open_lines, open_notes, open_words, outcome_line, unfinished_line};

use crate::searching::Found;
use io_text::Text;
use run_search::{Ended, Ends};
use std::alloc::AllocError;

/// Writes which outcomes are open, of which these were known to be open before; or that there are more nodes than this limit.
pub(crate) fn write_open(
    output: &mut Text,
    limit: u32,
    known: &[Ends],
    found: &Option<Found>,
) -> Result<(), AllocError>
    ensures { OnOk result (output.new ≡ output.old ++ open_notes limit known.now found.now) }
{
    match found {
        None => write_unfinished(output, limit),
        Some(found) => write_found(output, known, found),
    }
}

/// Writes that the room has more nodes than this number.
fn write_unfinished(output: &mut Text, limit: u32) -> Result<(), AllocError>
    ensures { OnOk result (output.new ≡ output.old ++ unfinished_line limit) }
{
    let advice = b" nodes: not searched to the end; try a greater --nodes\n";
    write_number(output, b"    more than", u64::from(limit), advice)
}

/// Writes a number between these words.
fn write_number(
    output: &mut Text,
    before: &[u8],
    number: u64,
    after: &[u8],
) -> Result<(), AllocError>
    ensures { OnOk result (output.new ≡ output.old ++ (before.now ++ ((32 ∷ decimal number) ++ after.now))) }
{
    output.put(before)?;
    output.put_spaced_number(number)?;
    output.put(after)
}

fn write_found(output: &mut Text, known: &[Ends], found: &Found) -> Result<(), AllocError>
    ensures { OnOk result (output.new ≡ output.old ++ found_notes known.now found.now) }
{
    write_count(output, found)?;
    write_all(output, found.ends.as_slice())?;
    write_closed(output, known, found)
}

/// Writes how many outcomes are open, and whether these are all.
fn write_count(output: &mut Text, found: &Found) -> Result<(), AllocError>
    ensures { OnOk result (output.new ≡ output.old ++ count_line found.now) }
{
    let (count, nodes) = (found.ends.len() as u64, found.nodes as u64);
    if found.missed == 0 {
        return write_complete(output, count, nodes);
    }
    write_missed(output, count, found.missed, nodes)
}

fn write_complete(output: &mut Text, count: u64, nodes: u64) -> Result<(), AllocError>
    ensures { OnOk result (output.new ≡ output.old ++ complete_line count nodes) }
{
    write_open_words(output, count)?;
    write_number(output, b"", nodes, b" nodes searched\n")
}

fn write_open_words(output: &mut Text, count: u64) -> Result<(), AllocError>
    ensures { OnOk result (output.new ≡ output.old ++ open_words count) }
{
    write_number(output, b"   ", count, b" open,")
}

fn write_missed(output: &mut Text, count: u64, missed: u64, nodes: u64) -> Result<(), AllocError>
    ensures { OnOk result (output.new ≡ output.old ++ missed_line count missed nodes) }
{
    write_missed_words(output, count, missed)?;
    output.put_spaced_number(nodes)?;
    output.put(
        b" nodes, which may have others, no schedule was found; if the room has few turns, try more\n",
    )
}

fn write_missed_words(output: &mut Text, count: u64, missed: u64) -> Result<(), AllocError>
    ensures { OnOk result (output.new ≡ output.old ++ missed_words count missed) }
{
    write_open_words(output, count)?;
    output.put(b" and some may be missing: for")?;
    output.put_spaced_number(missed)?;
    output.put(b" of")
}

/// Writes the outcomes that are open, a line each.
fn write_all(output: &mut Text, still: &[Ends]) -> Result<(), AllocError>
    ensures { OnOk result (output.new ≡ output.old ++ open_lines still.now) }
{
    for one in still {
        write_outcome(output, b"    open", one.as_slice())?;
    }
    Ok(())
}

/// Writes those of the known outcomes that are open no more, a line each, if all that are open are found.
fn write_closed(output: &mut Text, known: &[Ends], found: &Found) -> Result<(), AllocError>
    ensures { OnOk result (output.new ≡ output.old ++ closed_lines found.now.missed known.now found.now.ends.items) }
{
    if found.missed != 0 {
        return Ok(());
    }
    for one in known {
        write_if_closed(output, one, found.ends.as_slice())?;
    }
    Ok(())
}

fn write_if_closed(output: &mut Text, one: &Ends, still: &[Ends]) -> Result<(), AllocError>
    ensures { OnOk result (output.new ≡ output.old ++ closed_line still.now one.now) }
{
    if !is_closed(one, still) {
        return Ok(());
    }
    write_outcome(output, b"    closed", one.as_slice())
}

/// Whether an outcome is none of those that are open.
pub(crate) fn is_closed(one: &Ends, still: &[Ends]) -> bool
    ensures { result ≡ is_closed still.now one.now }
{
    !still.contains(one)
}

/// Writes an outcome after this word: how each process ends, in order of their numbers.
fn write_outcome(output: &mut Text, word: &[u8], ends: &[Ended]) -> Result<(), AllocError>
    ensures { OnOk result (output.new ≡ output.old ++ outcome_line word.now ends.now) }
{
    output.put(word)?;
    write_ends(output, ends)?;
    output.put(b"\n")
}

fn write_ends(output: &mut Text, ends: &[Ended]) -> Result<(), AllocError>
    ensures { OnOk result (output.new ≡ output.old ++ ends_text ends.now) }
{
    for process in 0..ends.len() {
        write_end(output, process, ends[process])?;
    }
    Ok(())
}

fn write_end(output: &mut Text, process: usize, ended: Ended) -> Result<(), AllocError>
    ensures { OnOk result (output.new ≡ output.old ++ end_text process ended) }
{
    output.put(comma(process))?;
    write_end_words(output, ended)
}

/// A comma, but before the first process.
fn comma(process: usize) -> &'static [u8]
    ensures { result.now ≡ comma process }
{
    if process == 0 { b"" } else { b"," }
}

fn write_end_words(output: &mut Text, ended: Ended) -> Result<(), AllocError>
    ensures { OnOk result (output.new ≡ output.old ++ end_words ended) }
{
    match ended {
        Ended::Decided(value) => write_decided(output, value),
        Ended::Spent => output.put(b" spent"),
        Ended::Stopped => output.put(b" stopped"),
    }
}

fn write_decided(output: &mut Text, value: u32) -> Result<(), AllocError>
    ensures { OnOk result (output.new ≡ output.old ++ (codes " decided" ++ (32 ∷ decimal value))) }
{
    output.put(b" decided")?;
    output.put_spaced_number(u64::from(value))
}
