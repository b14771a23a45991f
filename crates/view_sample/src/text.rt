//! A sample, as text.
ghost use Rattle.std.specs.Prelude.{◌≡◌, ◌≤◌, ◌++◌, ◌∷◌, OnOk, codes, decimal, map, option_map};
ghost use Rattle.std.specs.List.{flat_map};
ghost use Rattle.room_sample.specs.Shown.{shown_of};
ghost use Rattle.view_sample.specs.Texts.{alone_text, count_words, from_words, most_lines, most_numbers, new_line, new_words, none_line, number_line, number_words, outcome_text, outcome_texts, plan_end, plan_line, sample_text, script_text, script_unless, shown_count, stretch_line};

use crate::counts::{most_of, once_in};
use crate::sampled::Sampled;
use io_text::Text;
use report_text::write_processes;
use room_files::write_block;
use room_sample::{Example, Plan, Stretch, Tally};
use std::alloc::AllocError;

/// Writes the outcomes of a room: how often each of those came that are shown, and a script for `play` that leads to it.
pub(crate) fn write_sample(
    room: &Sampled<'_>,
    output: &mut Text,
    outcomes: &Tally,
    shown: &[Example],
) -> Result<(), AllocError>
    ensures { OnOk result (output.new ≡ output.old ++ sample_text room.now.spec.now.name room.now.block.now room.now.plan.now outcomes.now (map shown_of shown.now)) }
{
    let (name, plan) = (room.spec.name().as_str().as_bytes(), room.plan);
    write_plan(output, name, plan)?;
    write_outcomes(output, plan.brief, name, room.block, shown)?;
    write_most(output, name, outcomes)?;
    write_new(output, name, plan, outcomes)
}

/// Writes by which schedules a room was run.
///
/// # Errors
///
/// An allocation that fails.
pub fn write_plan(output: &mut Text, name: &[u8], plan: &Plan) -> Result<(), AllocError>
    ensures { OnOk result (output.new ≡ output.old ++ plan_line name.now plan.now) }
{
    write_schedules(output, name, plan.schedules)?;
    write_crashes(output, plan.crashes)?;
    write_number(output, b" seed", u64::from(plan.seed))?;
    write_from(output, plan.from)?;
    output.put(plan_end(plan.group))
}

/// Writes the number of the first schedule, unless it is 0.
fn write_from(output: &mut Text, from: u32) -> Result<(), AllocError>
    ensures { OnOk result (output.new ≡ output.old ++ from_words from) }
{
    if from == 0 {
        return Ok(());
    }
    write_number(output, b" from", u64::from(from))
}

/// What follows the plan's numbers: whether the outcomes are groups.
fn plan_end(group: bool) -> &'static [u8]
    ensures { result.now ≡ plan_end group }
{
    if group { b" grouped\n" } else { b"\n" }
}

fn write_schedules(output: &mut Text, name: &[u8], schedules: u32) -> Result<(), AllocError>
    ensures { OnOk result (output.new ≡ output.old ++ (name.now ++ (codes " sample" ++ (32 ∷ decimal schedules)))) }
{
    output.put(name)?;
    write_number(output, b" sample", u64::from(schedules))
}

fn write_crashes(output: &mut Text, crashes: u32) -> Result<(), AllocError>
    ensures { OnOk result (output.new ≡ output.old ++ (codes " crashes" ++ (32 ∷ decimal crashes))) }
{
    write_number(output, b" crashes", u64::from(crashes))
}

/// Writes words, followed by a number.
fn write_number(output: &mut Text, words: &[u8], number: u64) -> Result<(), AllocError>
    ensures { OnOk result (output.new ≡ output.old ++ (words.now ++ (32 ∷ decimal number))) }
{
    output.put(words)?;
    output.put_spaced_number(number)
}

/// Writes these outcomes of a room: how often each came, and a script for `play` that leads to it, unless scripts are left out.
///
/// # Errors
///
/// An allocation that fails.
pub fn write_outcomes(
    output: &mut Text,
    brief: bool,
    name: &[u8],
    block: &[u8],
    shown: &[Example],
) -> Result<(), AllocError>
    ensures { OnOk result (output.new ≡ output.old ++ outcome_texts brief name.now block.now (map shown_of shown.now)) }
{
    for one in shown {
        write_outcome(output, brief, name, block, one)?;
    }
    Ok(())
}

/// How many outcomes are shown.
pub(crate) fn shown_count(top: Option<u32>, count: usize) -> usize
    ensures value { result ≡ shown_count top count }
    ensures few { result ≤ count }
{
    match top {
        None => count,
        Some(top) => (top as usize).min(count),
    }
}

fn write_outcome(
    output: &mut Text,
    brief: bool,
    name: &[u8],
    block: &[u8],
    one: &Example,
) -> Result<(), AllocError>
    ensures { OnOk result (output.new ≡ output.old ++ outcome_text brief name.now block.now (shown_of one.now)) }
{
    write_times(output, name, one.times)?;
    write_processes(output, name, one.states.as_slice())?;
    write_script_unless(output, brief, name, block, one.schedule.as_slice())
}

fn write_times(output: &mut Text, name: &[u8], times: u32) -> Result<(), AllocError>
    ensures { OnOk result (output.new ≡ output.old ++ (codes "\n" ++ (name.now ++ (codes " came" ++ ((32 ∷ decimal times) ++ codes " times\n"))))) }
{
    output.put_two(b"\n", name)?;
    write_number(output, b" came", u64::from(times))?;
    output.put(b" times\n")
}

/// Writes a script for `play` that follows a schedule in the room of a block, unless scripts are left out.
///
/// # Errors
///
/// An allocation that fails.
pub fn write_script_unless(
    output: &mut Text,
    brief: bool,
    name: &[u8],
    block: &[u8],
    schedule: &[Stretch],
) -> Result<(), AllocError>
    ensures { OnOk result (output.new ≡ output.old ++ script_unless brief name.now block.now schedule.now) }
{
    if brief {
        return Ok(());
    }
    write_script(output, name, block, schedule)
}

/// Writes the script of the outcome of this number, and nothing else; or, if there is none, how many outcomes there are.
pub(crate) fn write_alone(
    room: &Sampled<'_>,
    output: &mut Text,
    count: usize,
    number: u32,
    shown: Option<&Example>,
) -> Result<(), AllocError>
    ensures { OnOk result (output.new ≡ output.old ++ alone_text room.now.spec.now.name room.now.block.now count number (option_map (λ one. shown_of one.now) shown.entry)) }
{
    let name = room.spec.name().as_str().as_bytes();
    match shown {
        None => write_none(output, name, count as u64, number),
        Some(one) => write_script(output, name, room.block, one.schedule.as_slice()),
    }
}

/// Writes how many outcomes there are, none of which has this number.
fn write_none(output: &mut Text, name: &[u8], count: u64, number: u32) -> Result<(), AllocError>
    ensures { OnOk result (output.new ≡ output.old ++ none_line name.now count number) }
{
    write_count_words(output, name, count)?;
    write_number_words(output, u64::from(number), b"\n")
}

fn write_count_words(output: &mut Text, name: &[u8], count: u64) -> Result<(), AllocError>
    ensures { OnOk result (output.new ≡ output.old ++ count_words name.now count) }
{
    let things = b" outcomes, and none has the number";
    write_number_line(output, name, b" has", count, things)
}

/// Writes a script for `play` that follows the schedule in the room of this block.
fn write_script(
    output: &mut Text,
    name: &[u8],
    block: &[u8],
    schedule: &[Stretch],
) -> Result<(), AllocError>
    ensures { OnOk result (output.new ≡ output.old ++ script_text name.now block.now schedule.now) }
{
    output.put(b"open\n")?;
    write_block(output, block)?;
    write_stretches(output, name, schedule)?;
    write_command(output, b"settle ", name)?;
    write_command(output, b"report ", name)
}

/// Writes a command that has nothing but the room's name.
fn write_command(output: &mut Text, word: &[u8], name: &[u8]) -> Result<(), AllocError>
    ensures { OnOk result (output.new ≡ output.old ++ (word.now ++ (name.now ++ codes "\n"))) }
{
    output.put(word)?;
    output.put_two(name, b"\n")
}

fn write_stretches(output: &mut Text, name: &[u8], schedule: &[Stretch]) -> Result<(), AllocError>
    ensures { OnOk result (output.new ≡ output.old ++ flat_map (stretch_line name.now) schedule.now) }
{
    for stretch in schedule {
        write_stretch(output, name, stretch)?;
    }
    Ok(())
}

fn write_stretch(output: &mut Text, name: &[u8], stretch: &Stretch) -> Result<(), AllocError>
    ensures { OnOk result (output.new ≡ output.old ++ stretch_line name.now stretch.now) }
{
    match stretch {
        Stretch::Steps { simulator, count } => {
            output.put_two(b"step ", name)?;
            output.put_spaced_number(u64::from(*simulator))?;
            output.put_spaced_number(u64::from(*count))?;
        }
        Stretch::Crash { simulator } => {
            output.put_two(b"crash ", name)?;
            output.put_spaced_number(u64::from(*simulator))?;
        }
    }
    output.put(b"\n")
}

/// Writes how many values were decided at most, and how many processes were held.
fn write_most(output: &mut Text, name: &[u8], outcomes: &Tally) -> Result<(), AllocError>
    ensures { OnOk result (output.new ≡ output.old ++ most_lines name.now outcomes.now) }
{
    let (values, held) = most_of(outcomes);
    write_most_numbers(output, name, values, held)
}

/// Writes how many values were decided at most, and how many processes were held at most.
///
/// # Errors
///
/// An allocation that fails.
pub fn write_most_numbers(
    output: &mut Text,
    name: &[u8],
    values: usize,
    held: usize,
) -> Result<(), AllocError>
    ensures { OnOk result (output.new ≡ output.old ++ most_numbers name.now values held) }
{
    output.put(b"\n")?;
    write_most_values(output, name, values)?;
    write_most_held(output, name, held)
}

fn write_most_values(output: &mut Text, name: &[u8], values: usize) -> Result<(), AllocError>
    ensures { OnOk result (output.new ≡ output.old ++ number_line name.now (codes " decided at most") values (codes " values\n")) }
{
    write_number_line(
        output,
        name,
        b" decided at most",
        values as u64,
        b" values\n",
    )
}

fn write_most_held(output: &mut Text, name: &[u8], held: usize) -> Result<(), AllocError>
    ensures { OnOk result (output.new ≡ output.old ++ number_line name.now (codes " held at most") held (codes " processes\n")) }
{
    write_number_line(output, name, b" held at most", held as u64, b" processes\n")
}

/// Writes how many outcomes there are, and how likely a further schedule leads to a new one.
fn write_new(
    output: &mut Text,
    name: &[u8],
    plan: &Plan,
    outcomes: &Tally,
) -> Result<(), AllocError>
    ensures { OnOk result (output.new ≡ output.old ++ new_line name.now plan.now outcomes.now) }
{
    let count = outcomes.len() as u64;
    let once = once_in(outcomes) as u64;
    write_new_words(output, name, count, once, u64::from(plan.schedules))
}

/// Writes how many outcomes there are, and how likely a further schedule leads to a new one, by how many of them came once.
///
/// # Errors
///
/// An allocation that fails.
pub fn write_new_words(
    output: &mut Text,
    name: &[u8],
    count: u64,
    once: u64,
    schedules: u64,
) -> Result<(), AllocError>
    ensures { OnOk result (output.new ≡ output.old ++ new_words name.now count once schedules) }
{
    write_count(output, name, count)?;
    write_once(output, once)?;
    write_in(output, once)?;
    write_more(output, schedules)
}

fn write_count(output: &mut Text, name: &[u8], count: u64) -> Result<(), AllocError>
    ensures { OnOk result (output.new ≡ output.old ++ number_line name.now (codes " has") count (codes " outcomes,")) }
{
    write_number_line(output, name, b" has", count, b" outcomes,")
}

fn write_once(output: &mut Text, once: u64) -> Result<(), AllocError>
    ensures { OnOk result (output.new ≡ output.old ++ number_words once (codes " of them once: about")) }
{
    write_number_words(output, once, b" of them once: about")
}

fn write_in(output: &mut Text, once: u64) -> Result<(), AllocError>
    ensures { OnOk result (output.new ≡ output.old ++ number_words once (codes " in")) }
{
    write_number_words(output, once, b" in")
}

fn write_more(output: &mut Text, schedules: u64) -> Result<(), AllocError>
    ensures { OnOk result (output.new ≡ output.old ++ number_words schedules (codes " more schedules give a new one\n")) }
{
    write_number_words(output, schedules, b" more schedules give a new one\n")
}

/// Writes a number, followed by words.
pub(crate) fn write_number_words(
    output: &mut Text,
    number: u64,
    things: &[u8],
) -> Result<(), AllocError>
    ensures { OnOk result (output.new ≡ output.old ++ number_words number things.now) }
{
    output.put_spaced_number(number)?;
    output.put(things)
}

/// Writes a line that says a number of some things.
pub(crate) fn write_number_line(
    output: &mut Text,
    name: &[u8],
    words: &[u8],
    number: u64,
    things: &[u8],
) -> Result<(), AllocError>
    ensures { OnOk result (output.new ≡ output.old ++ number_line name.now words.now number things.now) }
{
    output.put(name)?;
    write_number(output, words, number)?;
    output.put(things)
}
