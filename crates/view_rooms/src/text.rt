//! The outcomes of a room, as text.
ghost use Rattle.std.specs.Prelude.{◌≡◌, ◌∷◌, ◌++◌, OnOk, codes, decimal};
ghost use Rattle.std.specs.List.{flat_map};
ghost use Rattle.view_rooms.specs.Texts.{advice, common_text, end_line, head_line, missed_line, missed_words, most_line, outcome_text, outcome_texts, reached_line, reached_words, unfinished_line};

use crate::listing::most_values;
use io_text::Text;
use report_text::write_processes;
use room_search::{Reach, Reached};
use std::alloc::AllocError;
use view_sample::write_script_unless;

/// Writes the line that a room's outcomes begin with: in each of them at most `crashes` simulators have crashed.
pub(crate) fn write_head(output: &mut Text, name: &[u8], crashes: u32) -> Result<(), AllocError>
    ensures { OnOk result (output.new ≡ output.old ++ head_line name.now crashes) }
{
    output.put_two(name, b" outcomes rooms crashes")?;
    output.put_spaced_number(u64::from(crashes))?;
    output.put(b"\n")
}

/// Writes these outcomes, in order.
pub(crate) fn write_outcomes(
    output: &mut Text,
    brief: bool,
    name: &[u8],
    block: &[u8],
    all: &[Reached],
) -> Result<(), AllocError>
    ensures { OnOk result (output.new ≡ output.old ++ outcome_texts brief name.now block.now all.now) }
{
    for one in all {
        write_outcome(output, brief, name, block, one)?;
    }
    Ok(())
}

/// Writes the states of the processes in an outcome, and a script that leads to it, unless scripts are left out.
fn write_outcome(
    output: &mut Text,
    brief: bool,
    name: &[u8],
    block: &[u8],
    one: &Reached,
) -> Result<(), AllocError>
    ensures { OnOk result (output.new ≡ output.old ++ outcome_text brief name.now block.now one.now) }
{
    output.put(b"\n")?;
    write_processes(output, name, one.states.as_slice())?;
    write_script_unless(output, brief, name, block, one.schedule.as_slice())
}

/// Writes what all outcomes have in common, and how many there are.
pub(crate) fn write_common(output: &mut Text, name: &[u8], reach: &Reach) -> Result<(), AllocError>
    ensures { OnOk result (output.new ≡ output.old ++ common_text name.now reach.now) }
{
    write_most(output, name, reach.outcomes.as_slice())?;
    write_end(output, reach)
}

/// Writes how many different values are decided at most.
fn write_most(output: &mut Text, name: &[u8], all: &[Reached]) -> Result<(), AllocError>
    ensures { OnOk result (output.new ≡ output.old ++ most_line name.now all.now) }
{
    let most = most_values(all) as u64;
    write_number_line(output, name, b" decided at most", most, b" values\n")
}

/// Writes a line that says a number of some things, after a blank one.
fn write_number_line(
    output: &mut Text,
    name: &[u8],
    words: &[u8],
    number: u64,
    things: &[u8],
) -> Result<(), AllocError>
    ensures { OnOk result (output.new ≡ output.old ++ ((codes "\n" ++ name.now) ++ (words.now ++ ((32 ∷ decimal number) ++ things.now)))) }
{
    output.put_two(b"\n", name)?;
    output.put(words)?;
    output.put_spaced_number(number)?;
    output.put(things)
}

/// Writes the last line of a search that ended: how many outcomes there are and how many nodes were searched, or that some may be missing.
fn write_end(output: &mut Text, reach: &Reach) -> Result<(), AllocError>
    ensures { OnOk result (output.new ≡ output.old ++ end_line reach.now) }
{
    let nodes = reach.nodes as u64;
    if reach.missed == 0 {
        write_reached(output, reach.outcomes.len() as u64, nodes)
    } else {
        write_missed(output, reach.missed, nodes)
    }
}

fn write_reached(output: &mut Text, count: u64, nodes: u64) -> Result<(), AllocError>
    ensures { OnOk result (output.new ≡ output.old ++ reached_line count nodes) }
{
    write_reached_words(output, count)?;
    output.put_spaced_number(nodes)?;
    output.put(b" nodes searched\n")
}

fn write_reached_words(output: &mut Text, count: u64) -> Result<(), AllocError>
    ensures { OnOk result (output.new ≡ output.old ++ reached_words count) }
{
    output.put(b"these are all outcomes in which no simulator runs out of turns:")?;
    output.put_spaced_number(count)?;
    output.put(b" of them,")
}

fn write_missed(output: &mut Text, missed: u64, nodes: u64) -> Result<(), AllocError>
    ensures { OnOk result (output.new ≡ output.old ++ missed_line missed nodes) }
{
    write_missed_words(output, missed)?;
    output.put_spaced_number(nodes)?;
    output.put(
        b" nodes, which may have others, no schedule was found; if the room has few turns, try more\n",
    )
}

fn write_missed_words(output: &mut Text, missed: u64) -> Result<(), AllocError>
    ensures { OnOk result (output.new ≡ output.old ++ missed_words missed) }
{
    output.put(b"some outcomes may be missing: for")?;
    output.put_spaced_number(missed)?;
    output.put(b" of")
}

/// Writes that the room has more nodes than this number, and what may help.
pub(crate) fn write_unfinished(output: &mut Text, limit: u32) -> Result<(), AllocError>
    ensures { OnOk result (output.new ≡ output.old ++ unfinished_line limit advice) }
{
    let advice =
        b" nodes: not searched to the end; try a greater --nodes, fewer simulators, processes or rounds, or sample\n";
    write_unfinished_by(output, limit, advice)
}

fn write_unfinished_by(output: &mut Text, limit: u32, advice: &[u8]) -> Result<(), AllocError>
    ensures { OnOk result (output.new ≡ output.old ++ unfinished_line limit advice.now) }
{
    output.put(b"more than")?;
    output.put_spaced_number(u64::from(limit))?;
    output.put(advice)
}
