//! By how many schedules of a sample rooms with other inputs break their tasks, as text and as JSON.
ghost use Rattle.std.specs.Prelude.{◌≡◌, ◌≤◌, ◌++◌, IfOk, OnOk, option_map};
ghost use Rattle.std.specs.List.{sum_by};
ghost use Rattle.serde_json.specs.View.{view};
ghost use Rattle.json_lines.specs.Lines.{json_line};
ghost use Rattle.json_lines.specs.Values.{entry_data};
ghost use Rattle.input_vectors.specs.Lines.{vector_words};
ghost use Rattle.room_sample.specs.Shown.{shown_of};
ghost use Rattle.view_sample.specs.Inputs.{broken_data, kept_in_samples, room_vectors_data, taskless_in, too_many_in, vector_data, vector_in, vectors_in};
ghost use Rattle.view_sample.specs.Tasks.{times_broken};
ghost use Rattle.view_sample.specs.TaskTexts.{verdict_text};

use crate::json::schedule_unless;
use crate::sampled::Sampled;
use crate::task::times_broken;
use crate::task_text::write_verdict;
use input_vectors::{values_value, write_too_many, write_vector_words, write_vectors_line};
use io_text::Text;
use json_lines::write_line;
use room_sample::{Example, Tally};
use serde_json::{Value, json};
use std::alloc::{AllocError, Global};

/// Writes by how many schedules a room with these inputs breaks its task, and one that does.
pub(crate) fn show_vector(
    room: &Sampled<'_>,
    output: &mut Text,
    inputs: &[u32],
    outcomes: &Tally,
    broken: Option<&Example>,
) -> Result<(), AllocError>
    requires { sum_by (λ one. one.times) outcomes.now ≤ room.now.plan.now.schedules }
    ensures { OnOk result (output.new ≡ output.old ++ vector_in room.now.plan.now room.now.spec.now room.now.block.now inputs.now outcomes.now (option_map (λ one. shown_of one.now) broken.entry)) }
{
    if room.plan.json {
        return write_vector_object(room, output, inputs, outcomes, broken);
    }
    write_vector_text(room, output, inputs, outcomes, broken)
}

fn write_vector_text(
    room: &Sampled<'_>,
    output: &mut Text,
    inputs: &[u32],
    outcomes: &Tally,
    broken: Option<&Example>,
) -> Result<(), AllocError>
    requires { sum_by (λ one. one.times) outcomes.now ≤ room.now.plan.now.schedules }
    ensures { OnOk result (output.new ≡ output.old ++ verdict_text (vector_words room.now.spec.now.name inputs.now) room.now.spec.now.name room.now.block.now room.now.plan.now (times_broken room.now.spec.now outcomes.now) (option_map (λ one. shown_of one.now) broken.entry)) }
{
    let mut words = Text::new(room.alloc);
    let name = room.spec.name().as_str().as_bytes();
    write_vector_words(&mut words, name, inputs)?;
    write_verdict(room, output, words.as_bytes(), outcomes, broken)
}

fn write_vector_object(
    room: &Sampled<'_>,
    output: &mut Text,
    inputs: &[u32],
    outcomes: &Tally,
    broken: Option<&Example>,
) -> Result<(), AllocError>
    requires { sum_by (λ one. one.times) outcomes.now ≤ room.now.plan.now.schedules }
    ensures { OnOk result (output.new ≡ output.old ++ json_line (vector_data room.now.spec.now room.now.plan.now inputs.now outcomes.now (option_map (λ one. shown_of one.now) broken.entry))) }
{
    let value = vector_value(room, inputs, outcomes, broken)?;
    write_line(room.alloc, output, &value)
}

fn vector_value(
    room: &Sampled<'_>,
    inputs: &[u32],
    outcomes: &Tally,
    broken: Option<&Example>,
) -> Result<Value, AllocError>
    requires { sum_by (λ one. one.times) outcomes.now ≤ room.now.plan.now.schedules }
    ensures { IfOk result (λ value. view value ≡ vector_data room.now.spec.now room.now.plan.now inputs.now outcomes.now (option_map (λ one. shown_of one.now) broken.entry)) }
{
    let (alloc, plan) = (room.alloc, room.plan);
    let name = room.spec.name().as_str();
    let first = broken_value(alloc, plan.brief, broken)?;
    let inputs = values_value(alloc, inputs)?;
    let times = times_broken(room.spec, outcomes, plan.schedules);
    let (crashes, from, schedules, seed) = (plan.crashes, plan.from, plan.schedules, plan.seed);
    json!(in alloc; {
        "crashes": crashes,
        "first": first,
        "from": from,
        "inputs": inputs,
        "room": name,
        "schedules": schedules,
        "seed": seed,
        "task_broken": times
    })
}

/// The number and a schedule of an outcome that breaks the task, or `null` if there is none.
fn broken_value(alloc: Global, brief: bool, broken: Option<&Example>) -> Result<Value, AllocError>
    ensures { IfOk result (λ value. view value ≡ broken_data brief (option_map (λ one. shown_of one.now) broken.entry)) }
{
    let Some(one) = broken else {
        return Ok(Value::Null);
    };
    let schedule = schedule_unless(alloc, brief, one.schedule.as_slice())?;
    let number = one.first;
    json!(in alloc; {"number": number, "schedule": schedule})
}

/// Writes for how many of how many vectors each schedule keeps the task.
pub(crate) fn show_vectors(
    room: &Sampled<'_>,
    output: &mut Text,
    values: &[u32],
    kept: usize,
    count: usize,
) -> Result<(), AllocError>
    ensures { OnOk result (output.new ≡ output.old ++ vectors_in room.now.plan.now room.now.spec.now.name values.now kept count) }
{
    if room.plan.json {
        return write_object(room, output, values, Some(kept), Some(count));
    }
    write_kept_in_samples(output, room.spec.name().as_str().as_bytes(), kept, count)
}

fn write_kept_in_samples(
    output: &mut Text,
    name: &[u8],
    kept: usize,
    count: usize,
) -> Result<(), AllocError>
    ensures { OnOk result (output.new ≡ output.old ++ kept_in_samples name.now kept count) }
{
    let words = b" task held in all schedules for";
    write_vectors_line(output, name, words, kept, count)
}

/// Writes that there are more vectors of these values than a room is sampled with.
pub(crate) fn show_too_many(
    room: &Sampled<'_>,
    output: &mut Text,
    values: &[u32],
) -> Result<(), AllocError>
    ensures { OnOk result (output.new ≡ output.old ++ too_many_in room.now.plan.now room.now.spec.now.name values.now) }
{
    if room.plan.json {
        return write_object(room, output, values, None, None);
    }
    write_too_many(output, room.spec.name().as_str().as_bytes(), values.len())
}

/// Writes that a room has no task.
pub(crate) fn show_taskless(
    room: &Sampled<'_>,
    output: &mut Text,
    values: &[u32],
) -> Result<(), AllocError>
    ensures { OnOk result (output.new ≡ output.old ++ taskless_in room.now.plan.now room.now.spec.now.name values.now) }
{
    if room.plan.json {
        return write_object(room, output, values, None, Some(0));
    }
    output.put_two(room.spec.name().as_str().as_bytes(), b" has no task\n")
}

/// Writes for how many of how many vectors the task is kept, as an object.
fn write_object(
    room: &Sampled<'_>,
    output: &mut Text,
    values: &[u32],
    kept: Option<usize>,
    count: Option<usize>,
) -> Result<(), AllocError>
    ensures { OnOk result (output.new ≡ output.old ++ json_line (room_vectors_data room.now.spec.now.name values.now kept count)) }
{
    let value = object_value(room, values, kept, count)?;
    write_line(room.alloc, output, &value)
}

fn object_value(
    room: &Sampled<'_>,
    values: &[u32],
    kept: Option<usize>,
    count: Option<usize>,
) -> Result<Value, AllocError>
    ensures { IfOk result (λ value. view value ≡ room_vectors_data room.now.spec.now.name values.now kept count) }
{
    let alloc = room.alloc;
    let name = room.spec.name().as_str();
    let values = values_value(alloc, values)?;
    let (kept, count) = (number_or_null(kept), number_or_null(count));
    json!(in alloc; {"kept": kept, "room": name, "values": values, "vectors": count})
}

/// A number, or `null` if it isn't known.
fn number_or_null(number: Option<usize>) -> Value
    ensures { view result ≡ entry_data number }
{
    match number {
        None => Value::Null,
        Some(number) => Value::from(number),
    }
}
