//! Writes what is said of the sample of a room.
ghost use Rattle.std.specs.Prelude.{◌≡◌, ◌≤◌, ◌++◌, IfOk, OnOk, length, map};
ghost use Rattle.serde_json.specs.View.{view};
ghost use Rattle.json_lines.specs.Lines.{json_line};
ghost use Rattle.room_sample.specs.Shown.{shown_of};
ghost use Rattle.view_sample.specs.Texts.{new_words, shown_count};
ghost use Rattle.view_sum.specs.Forms.{listing_words, plan_of, shown_of_total, total_lines, total_text, total_words, verdict_line};
ghost use Rattle.view_sum.specs.Samples.{broken_data, once_in, room_data, sample_of, schedules_in};

use crate::form::SumForm;
use crate::part::Part;
use io_text::Text;
use json_lines::write_line;
use room_sample::{Example, Plan};
use serde_json::{Value, json};
use std::alloc::{AllocError, Global};
use view_sample::{
    write_broken_line, write_held, write_most_numbers, write_new_words, write_outcome_lines,
    write_outcomes, write_plan,
};

/// Writes the sum of a room's samples in this form.
pub(crate) fn write_total(
    alloc: Global,
    output: &mut Text,
    form: &SumForm,
    total: &Part,
) -> Result<(), AllocError>
    ensures { OnOk result (output.new ≡ output.old ++ total_text form.now (sample_of total.now)) }
{
    if form.json {
        return write_total_lines(alloc, output, form, total);
    }
    write_total_words(output, form, total)
}

/// Writes it as `sample --json` does.
fn write_total_lines(
    alloc: Global,
    output: &mut Text,
    form: &SumForm,
    total: &Part,
) -> Result<(), AllocError>
    ensures { OnOk result (output.new ≡ output.old ++ total_lines form.now (sample_of total.now)) }
{
    let brief = total.how.brief || form.brief;
    let name = total.name.as_str();
    write_outcome_lines(alloc, output, name, brief, shown_of_total(form, total))?;
    write_room_line(alloc, output, total)
}

/// The outcomes that are shown.
fn shown_of_total<'a>(form: &SumForm, total: &'a Part) -> &'a [Example]
    ensures { map shown_of result.now ≡ shown_of_total form.now (sample_of total.now) }
{
    let count = shown_count(form.top, total.outcomes.len());
    let (shown, _) = total.outcomes.split_at(count);
    shown
}

/// How many outcomes are shown, of this number.
fn shown_count(top: Option<u32>, count: usize) -> usize
    ensures value { result ≡ shown_count top count }
    ensures few { result ≤ count }
{
    match top {
        None => count,
        Some(top) => (top as usize).min(count),
    }
}

/// Writes it as `sample --brief` does.
fn write_total_words(output: &mut Text, form: &SumForm, total: &Part) -> Result<(), AllocError>
    ensures { OnOk result (output.new ≡ output.old ++ total_words form.now (sample_of total.now)) }
{
    let plan = plan_of(total);
    write_listing(output, form, total, &plan)?;
    let name = total.name.as_str().as_bytes();
    write_verdict(output, name, &plan, total.broken)
}

/// Writes by which schedules the room was run, the outcomes that are shown, and what is said of all outcomes.
fn write_listing(
    output: &mut Text,
    form: &SumForm,
    total: &Part,
    plan: &Plan,
) -> Result<(), AllocError>
    requires { plan.now ≡ plan_of (sample_of total.now) }
    ensures { OnOk result (output.new ≡ output.old ++ listing_words form.now (sample_of total.now)) }
{
    let name = total.name.as_str().as_bytes();
    let (decided, held) = (total.decided as usize, total.held as usize);
    write_plan(output, name, plan)?;
    write_outcomes(output, true, name, b"", shown_of_total(form, total))?;
    write_most_numbers(output, name, decided, held)?;
    write_likely(output, name, total)
}

/// The plan by which one sample has all these schedules.
fn plan_of(total: &Part) -> Plan
    ensures { result ≡ plan_of (sample_of total.now) }
{
    Plan {
        schedules: total.schedules,
        crashes: total.how.crashes,
        seed: total.how.seed,
        from: total.how.from,
        workers: 1,
        group: total.how.grouped,
        brief: true,
        top: None,
        json: false,
        outcome: None,
    }
}

/// Writes how many outcomes there are, and how likely a further schedule leads to a new one.
fn write_likely(output: &mut Text, name: &[u8], total: &Part) -> Result<(), AllocError>
    ensures { OnOk result (output.new ≡ output.old ++ new_words name.now (length total.now.outcomes.items) (once_in (map shown_of total.now.outcomes.items)) (schedules_in (map shown_of total.now.outcomes.items))) }
{
    let once = once_in(total.outcomes.as_slice()) as u64;
    let count = total.outcomes.len() as u64;
    write_new_words(output, name, count, once, u64::from(total.schedules))
}

/// Writes in how many schedules the room's task was broken, or that it held, if it has one.
fn write_verdict(
    output: &mut Text,
    name: &[u8],
    plan: &Plan,
    broken: Option<u32>,
) -> Result<(), AllocError>
    ensures { OnOk result (output.new ≡ output.old ++ verdict_line name.now plan.now broken) }
{
    match broken {
        None => Ok(()),
        Some(0) => write_held(output, name, plan),
        Some(times) => write_broken_line(output, name, plan, times),
    }
}

/// Writes what is said of a room after its outcomes.
pub(crate) fn write_room_line(
    alloc: Global,
    output: &mut Text,
    part: &Part,
) -> Result<(), AllocError>
    ensures { OnOk result (output.new ≡ output.old ++ json_line (room_data (sample_of part.now))) }
{
    let value = room_value(alloc, part)?;
    write_line(alloc, output, &value)
}

fn room_value(alloc: Global, part: &Part) -> Result<Value, AllocError>
    ensures { IfOk result (λ value. view value ≡ room_data (sample_of part.now)) }
{
    let how = part.how;
    let (crashes, from, grouped, seed) = (how.crashes, how.from, how.grouped, how.seed);
    let (decided, held, schedules) = (part.decided, part.held, part.schedules);
    let broken = broken_value(part.broken);
    let (count, once) = (part.outcomes.len(), once_in(part.outcomes.as_slice()));
    let name = part.name.as_str();
    json!(in alloc; {
        "crashes": crashes,
        "decided_at_most": decided,
        "from": from,
        "grouped": grouped,
        "held_at_most": held,
        "once": once,
        "outcomes": count,
        "room": name,
        "schedules": schedules,
        "seed": seed,
        "task_broken": broken
    })
}

fn broken_value(broken: Option<u32>) -> Value
    ensures { view result ≡ broken_data broken }
{
    match broken {
        None => Value::Null,
        Some(times) => Value::from(times),
    }
}

/// How many outcomes came only once.
fn once_in(outcomes: &[Example]) -> usize
    ensures { result ≡ once_in (map shown_of outcomes.now) }
{
    outcomes.iter().filter(|one| one.times == 1).count()
}
