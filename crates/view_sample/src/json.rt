//! A sample as JSON: an object a line.
ghost use Rattle.std.specs.Prelude.{◌≡◌, ◌≤◌, ◌++◌, IfOk, OnOk, map, option_map};
ghost use Rattle.std.specs.List.{sum_by};
ghost use Rattle.serde_json.specs.View.{view};
ghost use Rattle.room_sample.specs.Shown.{shown_of};
ghost use Rattle.json_lines.specs.Lines.{json_line};
ghost use Rattle.view_sample.specs.Json.{alone_line, broken_data, none_data, outcome_data, outcome_line, outcome_lines, room_data, room_line, schedule_data, schedule_unless, stretch_data};

use crate::counts::{most_of, once_in};
use crate::sampled::Sampled;
use crate::task::times_broken;
use io_text::Text;
use json_lines::{processes_value, write_line};
use room_sample::{Example, Plan, Stretch, Tally};
use room_spec::Spec;
use serde_json::{Value, json};
use std::alloc::{AllocError, Global};

/// Writes these outcomes of the room of this name, an object a line.
///
/// # Errors
///
/// An allocation that fails.
pub fn write_outcome_lines(
    alloc: Global,
    output: &mut Text,
    name: &str,
    brief: bool,
    shown: &[Example],
) -> Result<(), AllocError>
    ensures { OnOk result (output.new ≡ output.old ++ outcome_lines name.now brief (map shown_of shown.now)) }
{
    for one in shown {
        write_outcome_line(alloc, output, name, brief, one)?;
    }
    Ok(())
}

/// Writes an outcome of the room of this name on a line.
///
/// # Errors
///
/// An allocation that fails.
pub fn write_outcome_line(
    alloc: Global,
    output: &mut Text,
    name: &str,
    brief: bool,
    one: &Example,
) -> Result<(), AllocError>
    ensures { OnOk result (output.new ≡ output.old ++ outcome_line name.now brief (shown_of one.now)) }
{
    let value = outcome_value(alloc, name, brief, one)?;
    write_line(alloc, output, &value)
}

/// Writes the outcome of this number, and nothing else; or, if there is none, how many outcomes there are.
pub(crate) fn write_alone_line(
    room: &Sampled<'_>,
    output: &mut Text,
    count: usize,
    number: u32,
    shown: Option<&Example>,
) -> Result<(), AllocError>
    ensures { OnOk result (output.new ≡ output.old ++ alone_line room.now.spec.now.name room.now.plan.now.brief count number (option_map (λ one. shown_of one.now) shown.entry)) }
{
    let name = room.spec.name().as_str();
    match shown {
        None => write_none_line(room.alloc, output, name, count, number),
        Some(one) => write_outcome_line(room.alloc, output, name, room.plan.brief, one),
    }
}

/// Writes how many outcomes there are, none of which has this number.
fn write_none_line(
    alloc: Global,
    output: &mut Text,
    name: &str,
    count: usize,
    number: u32,
) -> Result<(), AllocError>
    ensures { OnOk result (output.new ≡ output.old ++ json_line (none_data name.now count number)) }
{
    let value = none_value(alloc, name, count, number)?;
    write_line(alloc, output, &value)
}

fn none_value(alloc: Global, name: &str, count: usize, number: u32) -> Result<Value, AllocError>
    ensures { IfOk result (λ value. view value ≡ none_data name.now count number) }
{
    json!(in alloc; {"number": number, "outcomes": count, "room": name})
}

/// Writes what is said of a room and its sample as a whole, on one line.
pub(crate) fn write_room_line(
    alloc: Global,
    output: &mut Text,
    spec: &Spec,
    plan: &Plan,
    outcomes: &Tally,
) -> Result<(), AllocError>
    requires { sum_by (λ one. one.times) outcomes.now ≤ plan.now.schedules }
    ensures { OnOk result (output.new ≡ output.old ++ room_line spec.now plan.now outcomes.now) }
{
    let value = room_value(alloc, spec, plan, outcomes)?;
    write_line(alloc, output, &value)
}

/// An outcome: how often it came, by which schedule first, the states of the processes, and a schedule that leads to it, unless that is left out.
fn outcome_value(alloc: Global, name: &str, brief: bool, one: &Example) -> Result<Value, AllocError>
    ensures { IfOk result (λ value. view value ≡ outcome_data name.now brief (shown_of one.now)) }
{
    let processes = processes_value(alloc, one.states.as_slice())?;
    let schedule = schedule_unless(alloc, brief, one.schedule.as_slice())?;
    let (first, times) = (one.first, one.times);
    json!(in alloc; {
        "first": first,
        "processes": processes,
        "room": name,
        "schedule": schedule,
        "times": times
    })
}

/// A schedule, stretch by stretch, unless schedules are left out.
///
/// # Errors
///
/// An allocation that fails.
pub fn schedule_unless(
    alloc: Global,
    brief: bool,
    schedule: &[Stretch],
) -> Result<Value, AllocError>
    ensures { IfOk result (λ value. view value ≡ schedule_unless brief schedule.now) }
{
    if brief {
        return Ok(Value::Null);
    }
    schedule_value(alloc, schedule)
}

/// A room and its sample: the plan, and the numbers at the end of the text.
fn room_value(
    alloc: Global,
    spec: &Spec,
    plan: &Plan,
    outcomes: &Tally,
) -> Result<Value, AllocError>
    requires { sum_by (λ one. one.times) outcomes.now ≤ plan.now.schedules }
    ensures { IfOk result (λ value. view value ≡ room_data spec.now plan.now outcomes.now) }
{
    let name = spec.name().as_str();
    let broken = broken_value(spec, plan, outcomes);
    let (values, held) = most_of(outcomes);
    let (count, once) = (outcomes.len(), once_in(outcomes));
    let (crashes, schedules, seed) = (plan.crashes, plan.schedules, plan.seed);
    let (from, grouped) = (plan.from, plan.group);
    json!(in alloc; {
        "crashes": crashes,
        "decided_at_most": values,
        "from": from,
        "grouped": grouped,
        "held_at_most": held,
        "once": once,
        "outcomes": count,
        "room": name,
        "schedules": schedules,
        "seed": seed,
        "task_broken": broken
    })
}

/// In how many schedules the room's task was broken, if it has one.
fn broken_value(spec: &Spec, plan: &Plan, outcomes: &Tally) -> Value
    requires { sum_by (λ one. one.times) outcomes.now ≤ plan.now.schedules }
    ensures { view result ≡ broken_data spec.now outcomes.now }
{
    match spec.task() {
        None => Value::Null,
        Some(_) => Value::from(times_broken(spec, outcomes, plan.schedules)),
    }
}

/// What happens in a stretch of a schedule.
fn stretch_value(alloc: Global, stretch: &Stretch) -> Result<Value, AllocError>
    ensures { IfOk result (λ value. view value ≡ stretch_data stretch.now) }
{
    match stretch {
        Stretch::Steps { simulator, count } => {
            let (i, steps) = (*simulator, *count);
            json!(in alloc; {"simulator": i, "steps": steps})
        }
        Stretch::Crash { simulator } => {
            let i = *simulator;
            json!(in alloc; {"crash": true, "simulator": i})
        }
    }
}

/// A schedule, stretch by stretch.
fn schedule_value(alloc: Global, schedule: &[Stretch]) -> Result<Value, AllocError>
    ensures { IfOk result (λ value. view value ≡ schedule_data schedule.now) }
{
    let mut values = Vec::new(alloc);
    for stretch in schedule {
        values.push(stretch_value(alloc, stretch)?)?;
    }
    Ok(Value::Array(values))
}
