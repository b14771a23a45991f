//! All outcomes of a room, as text.
ghost use Rattle.std.specs.Prelude.{◌≡◌, ◌∷◌, ◌++◌, OnOk, codes, decimal, option_map};
ghost use Rattle.view_outcomes.specs.Texts.{advice, all_runs_line, breaking_text, common_text, complete_line, end_line, end_lines, end_words, head_line, judgement_text, more_line, most_line, none_spent_if, outcome_text, spent_line, spent_line_if, spent_lines, task_text, taskless_line, transcript_if, transcript_text, unfinished_line, unjudged_text};

use crate::counts::{can_be_spent, is_any_spent, most_values};
use crate::listing::{AllOutcomes, Listed};
use io_text::Text;
use report_text::write_events;
use room_files::write_block;
use room_spec::Spec;
use run_search::{Ended, Judgement};
use std::alloc::AllocError;
use transcript::Event;

/// Writes the line that a room's outcomes begin with: in each of them at most `crashes` processes have stopped.
pub fn write_head(output: &mut Text, name: &[u8], crashes: usize) -> Result<(), AllocError>
    ensures { OnOk result (output.new ≡ output.old ++ head_line name.now crashes) }
{
    output.put_two(name, b" outcomes crashes")?;
    output.put_spaced_number(crashes as u64)?;
    output.put(b"\n")
}

/// Writes the line of a room that has more nodes than this number, and what may help.
fn write_unfinished_line(output: &mut Text, limit: u32, advice: &[u8]) -> Result<(), AllocError>
    ensures { OnOk result (output.new ≡ output.old ++ unfinished_line limit advice.now) }
{
    output.put(b"more than")?;
    output.put_spaced_number(u64::from(limit))?;
    output.put(advice)
}

/// Writes that the room has more nodes than this number, and what may help.
pub fn write_unfinished(output: &mut Text, limit: u32) -> Result<(), AllocError>
    ensures { OnOk result (output.new ≡ output.old ++ unfinished_line limit advice) }
{
    let advice =
        b" nodes: not searched to the end; try a greater --nodes, fewer rounds, or sample\n";
    write_unfinished_line(output, limit, advice)
}

/// Writes what all outcomes of the room that this block says have in common, and whether each run keeps the room's task.
pub fn write_common(
    output: &mut Text,
    spec: &Spec,
    block: &[u8],
    all: &AllOutcomes,
) -> Result<(), AllocError>
    ensures { OnOk result (output.new ≡ output.old ++ common_text spec.now block.now all.now) }
{
    let name = spec.name().as_str().as_bytes();
    let listed = all.listed.as_slice();
    write_most(output, name, listed)?;
    write_spent(output, name, spec.n(), listed)?;
    write_task(output, name, block, spec.task(), &all.breaking)?;
    write_complete(output, all)
}

/// Writes how each process ends, and a transcript of a run that ends so, if there is one.
pub fn write_outcome(
    output: &mut Text,
    name: &[u8],
    block: &[u8],
    one: &Listed,
) -> Result<(), AllocError>
    ensures { OnOk result (output.new ≡ output.old ++ outcome_text name.now block.now one.now) }
{
    output.put(b"\n")?;
    write_ends(output, name, one.ends.as_slice())?;
    write_transcript_if(output, name, block, &one.events)
}

/// Writes a transcript of these events, if there are any.
pub fn write_transcript_if(
    output: &mut Text,
    name: &[u8],
    block: &[u8],
    run: &Option<Vec<Event>>,
) -> Result<(), AllocError>
    ensures { OnOk result (output.new ≡ output.old ++ transcript_if name.now block.now run.now) }
{
    match run {
        None => Ok(()),
        Some(events) => write_transcript(output, name, block, events.as_slice()),
    }
}

/// Writes a line for each process, in order of their numbers: how it ends.
fn write_ends(output: &mut Text, name: &[u8], ends: &[Ended]) -> Result<(), AllocError>
    ensures { OnOk result (output.new ≡ output.old ++ end_lines name.now ends.now) }
{
    for process in 0..ends.len() {
        write_end(output, name, process, ends[process])?;
    }
    Ok(())
}

fn write_end(output: &mut Text, name: &[u8], process: usize, ended: Ended) -> Result<(), AllocError>
    ensures { OnOk result (output.new ≡ output.old ++ end_line name.now process ended) }
{
    output.put_two(name, b" process")?;
    output.put_spaced_number(process as u64)?;
    write_end_words(output, ended)
}

/// Writes the end of a process's line.
fn write_end_words(output: &mut Text, ended: Ended) -> Result<(), AllocError>
    ensures { OnOk result (output.new ≡ output.old ++ end_words ended) }
{
    match ended {
        Ended::Decided(value) => write_decided(output, value),
        Ended::Spent => output.put(b" spent\n"),
        Ended::Stopped => output.put(b" stopped\n"),
    }
}

fn write_decided(output: &mut Text, value: u32) -> Result<(), AllocError>
    ensures { OnOk result (output.new ≡ output.old ++ (codes " decided" ++ ((32 ∷ decimal value) ++ codes "\n"))) }
{
    output.put(b" decided")?;
    output.put_spaced_number(u64::from(value))?;
    output.put(b"\n")
}

/// Writes a transcript of these events, as `bgsim check` reads it.
pub fn write_transcript(
    output: &mut Text,
    name: &[u8],
    block: &[u8],
    events: &[Event],
) -> Result<(), AllocError>
    ensures { OnOk result (output.new ≡ output.old ++ transcript_text name.now block.now events.now) }
{
    write_block(output, block)?;
    output.put(b"events\n")?;
    write_events(output, name, events)
}

/// Writes how many different values are decided at most.
fn write_most(output: &mut Text, name: &[u8], all: &[Listed]) -> Result<(), AllocError>
    ensures { OnOk result (output.new ≡ output.old ++ most_line name.now all.now) }
{
    let most = most_values(all) as u64;
    write_number_line(output, name, b" decided at most", most, b" values\n")
}

/// Writes how many outcomes there are that are not shown.
pub fn write_more(output: &mut Text, name: &[u8], more: usize) -> Result<(), AllocError>
    ensures { OnOk result (output.new ≡ output.old ++ more_line name.now more) }
{
    write_number_line(output, name, b" has", more as u64, b" more outcomes\n")
}

/// Writes a line that says a number of some things, after a blank one.
fn write_number_line(
    output: &mut Text,
    name: &[u8],
    words: &[u8],
    number: u64,
    things: &[u8],
) -> Result<(), AllocError>
    ensures { OnOk result (output.new ≡ output.old ++ ((codes "\n" ++ name.now) ++ (words.now ++ ((32 ∷ decimal number) ++ things.now)))) }
{
    output.put_two(b"\n", name)?;
    output.put(words)?;
    output.put_spaced_number(number)?;
    output.put(things)
}

/// Writes which of the `n` processes can be spent, or that none can.
fn write_spent(output: &mut Text, name: &[u8], n: usize, all: &[Listed]) -> Result<(), AllocError>
    ensures { OnOk result (output.new ≡ output.old ++ (spent_lines name.now n all.now ++ none_spent_if name.now all.now)) }
{
    write_spent_lines(output, name, n, all)?;
    if is_any_spent(all) {
        return Ok(());
    }
    output.put_two(name, b" no process can be spent\n")
}

/// Writes a line for each of the `n` processes that can be spent.
fn write_spent_lines(
    output: &mut Text,
    name: &[u8],
    n: usize,
    all: &[Listed],
) -> Result<(), AllocError>
    ensures { OnOk result (output.new ≡ output.old ++ spent_lines name.now n all.now) }
{
    for process in 0..n {
        write_spent_if(output, name, process, all)?;
    }
    Ok(())
}

/// Writes a line for this process if it can be spent.
fn write_spent_if(
    output: &mut Text,
    name: &[u8],
    process: usize,
    all: &[Listed],
) -> Result<(), AllocError>
    ensures { OnOk result (output.new ≡ output.old ++ spent_line_if name.now all.now process) }
{
    if !can_be_spent(all, process) {
        return Ok(());
    }
    write_spent_line(output, name, process)
}

fn write_spent_line(output: &mut Text, name: &[u8], process: usize) -> Result<(), AllocError>
    ensures { OnOk result (output.new ≡ output.old ++ spent_line name.now process) }
{
    output.put_two(name, b" process")?;
    output.put_spaced_number(process as u64)?;
    output.put(b" can be spent\n")
}

/// Writes whether each run keeps the room's task, if it has one, and else a transcript of a run that breaks it.
fn write_task(
    output: &mut Text,
    name: &[u8],
    block: &[u8],
    task: Option<u8>,
    breaking: &Option<Vec<Event>>,
) -> Result<(), AllocError>
    ensures { OnOk result (output.new ≡ output.old ++ task_text name.now block.now task (option_map (λ events. events.items) breaking.now)) }
{
    if task.is_none() {
        return Ok(());
    }
    match breaking {
        None => output.put_two(name, b" task holds in every run\n"),
        Some(events) => write_breaking(output, name, block, events.as_slice()),
    }
}

fn write_breaking(
    output: &mut Text,
    name: &[u8],
    block: &[u8],
    events: &[Event],
) -> Result<(), AllocError>
    ensures { OnOk result (output.new ≡ output.old ++ breaking_text name.now block.now events.now) }
{
    let words = b" task broken by this run:\n";
    write_transcript_after(output, words, name, block, events)
}

/// Writes a line that begins with the room's name, and a transcript.
fn write_transcript_after(
    output: &mut Text,
    words: &[u8],
    name: &[u8],
    block: &[u8],
    events: &[Event],
) -> Result<(), AllocError>
    ensures { OnOk result (output.new ≡ output.old ++ ((name.now ++ words.now) ++ transcript_text name.now block.now events.now)) }
{
    output.put_two(name, words)?;
    write_transcript(output, name, block, events)
}

/// Writes the last line of a complete search: how many outcomes there are, and how many nodes stand for the states of all runs.
fn write_complete(output: &mut Text, all: &AllOutcomes) -> Result<(), AllocError>
    ensures { OnOk result (output.new ≡ output.old ++ complete_line all.now) }
{
    write_outcome_count(output, all.listed.len())?;
    output.put_spaced_number(all.nodes as u64)?;
    output.put(b" nodes searched\n")
}

fn write_outcome_count(output: &mut Text, outcomes: usize) -> Result<(), AllocError>
    ensures { OnOk result (output.new ≡ output.old ++ (codes "these are all outcomes:" ++ ((32 ∷ decimal outcomes) ++ codes " of them,"))) }
{
    output.put(b"these are all outcomes:")?;
    output.put_spaced_number(outcomes as u64)?;
    output.put(b" of them,")
}

/// Writes that the room has no task.
pub fn write_taskless(output: &mut Text, name: &[u8]) -> Result<(), AllocError>
    ensures { OnOk result (output.new ≡ output.old ++ taskless_line name.now) }
{
    output.put_two(name, b" has no task\n")
}

/// Writes that each run keeps the task, and how many nodes were searched; or a transcript of a run that breaks it.
pub fn write_judgement(
    output: &mut Text,
    name: &[u8],
    block: &[u8],
    judgement: &Judgement,
) -> Result<(), AllocError>
    ensures { OnOk result (output.new ≡ output.old ++ judgement_text name.now block.now judgement.now) }
{
    match judgement {
        Judgement::Kept(nodes) => write_kept(output, name, *nodes),
        Judgement::Broken(events) => write_breaking(output, name, block, events.as_slice()),
    }
}

fn write_kept(output: &mut Text, name: &[u8], nodes: usize) -> Result<(), AllocError>
    ensures { OnOk result (output.new ≡ output.old ++ ((name.now ++ codes " task holds in every run\n") ++ all_runs_line nodes)) }
{
    output.put_two(name, b" task holds in every run\n")?;
    write_all_runs(output, nodes)
}

pub fn write_all_runs(output: &mut Text, nodes: usize) -> Result<(), AllocError>
    ensures { OnOk result (output.new ≡ output.old ++ all_runs_line nodes) }
{
    output.put(b"these are all runs:")?;
    output.put_spaced_number(nodes as u64)?;
    output.put(b" nodes searched\n")
}

/// Writes that no run that was searched breaks the task, and that the room has more nodes than this number.
pub fn write_unjudged(output: &mut Text, name: &[u8], limit: u32) -> Result<(), AllocError>
    ensures { OnOk result (output.new ≡ output.old ++ unjudged_text name.now limit) }
{
    output.put_two(name, b" task holds so far\n")?;
    write_unfinished(output, limit)
}
