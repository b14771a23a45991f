//! By how many schedules the history of a room breaks a task of one's own, as text and as JSON.
ghost use Rattle.std.specs.Prelude.{◌≡◌, ◌++◌, IfOk, OnOk, Some};
ghost use Rattle.serde_json.specs.View.{view};
ghost use Rattle.json_lines.specs.Lines.{json_line};
ghost use Rattle.view_sample.specs.Keeping.{allowed_line, breaks_data, breaks_text, disallowed_line, first_data, first_words, times_broken_words};
ghost use Rattle.view_sample.specs.Texts.{script_unless};

use crate::json::schedule_unless;
use crate::sampled::Sampled;
use crate::text::{write_number_line, write_number_words, write_script_unless};
use io_text::Text;
use json_lines::write_line;
use room_sample::Plan;
use sample_breaks::{Breaks, Broken};
use serde_json::{Value, json};
use std::alloc::{AllocError, Global};

/// Writes by how many schedules a room's history breaks the task, with the script of the first; or that it is none.
pub(crate) fn write_breaks_text(
    room: &Sampled<'_>,
    output: &mut Text,
    breaks: &Breaks,
) -> Result<(), AllocError>
    ensures { OnOk result (output.new ≡ output.old ++ breaks_text room.now.spec.now.name room.now.block.now room.now.plan.now breaks.now.times breaks.now.first) }
{
    match &breaks.first {
        None => write_allowed(output, room.spec.name().as_str().as_bytes(), room.plan),
        Some(broken) => write_broken(room, output, breaks.times, broken),
    }
}

fn write_allowed(output: &mut Text, name: &[u8], plan: &Plan) -> Result<(), AllocError>
    ensures { OnOk result (output.new ≡ output.old ++ allowed_line name.now plan.now) }
{
    let schedules = u64::from(plan.schedules);
    let things = b" schedules (a sample, no proof)\n";
    write_number_line(
        output,
        name,
        b" decisions allowed in all",
        schedules,
        things,
    )
}

fn write_broken(
    room: &Sampled<'_>,
    output: &mut Text,
    times: u32,
    broken: &Broken,
) -> Result<(), AllocError>
    ensures { OnOk result (output.new ≡ output.old ++ (disallowed_line room.now.spec.now.name room.now.plan.now times broken.now.number ++ script_unless room.now.plan.now.brief room.now.spec.now.name room.now.block.now broken.now.schedule.items)) }
{
    let (name, plan) = (room.spec.name().as_str().as_bytes(), room.plan);
    write_disallowed_line(output, name, plan, times, broken.number)?;
    let schedule = broken.schedule.as_slice();
    write_script_unless(output, plan.brief, name, room.block, schedule)
}

fn write_disallowed_line(
    output: &mut Text,
    name: &[u8],
    plan: &Plan,
    times: u32,
    first: u32,
) -> Result<(), AllocError>
    ensures { OnOk result (output.new ≡ output.old ++ disallowed_line name.now plan.now times first) }
{
    write_times_broken(output, name, u64::from(times))?;
    write_first(output, u64::from(plan.schedules), u64::from(first))
}

fn write_times_broken(output: &mut Text, name: &[u8], times: u64) -> Result<(), AllocError>
    ensures { OnOk result (output.new ≡ output.old ++ times_broken_words name.now times) }
{
    write_number_line(output, name, b" decisions broken in", times, b" of")
}

fn write_first(output: &mut Text, schedules: u64, first: u64) -> Result<(), AllocError>
    ensures { OnOk result (output.new ≡ output.old ++ first_words schedules first) }
{
    write_number_words(output, schedules, b" schedules, the first of them")?;
    write_number_words(output, first, b"\n")
}

/// Writes the same as an object, on a line of its own.
pub(crate) fn write_breaks_object(
    room: &Sampled<'_>,
    output: &mut Text,
    breaks: &Breaks,
) -> Result<(), AllocError>
    ensures { OnOk result (output.new ≡ output.old ++ json_line (breaks_data room.now.spec.now.name room.now.plan.now breaks.now)) }
{
    let name = room.spec.name().as_str();
    let value = breaks_value(room.alloc, name, room.plan, breaks)?;
    write_line(room.alloc, output, &value)
}

fn breaks_value(
    alloc: Global,
    name: &str,
    plan: &Plan,
    breaks: &Breaks,
) -> Result<Value, AllocError>
    ensures { IfOk result (λ value. view value ≡ breaks_data name.now plan.now breaks.now) }
{
    let first = first_value(alloc, plan.brief, &breaks.first)?;
    let (crashes, from, times) = (plan.crashes, plan.from, breaks.times);
    let (schedules, seed) = (plan.schedules, plan.seed);
    json!(in alloc; {
        "crashes": crashes,
        "decisions_broken": times,
        "first": first,
        "from": from,
        "room": name,
        "schedules": schedules,
        "seed": seed
    })
}

/// The number and the schedule of the first, or `null` if there is none.
fn first_value(alloc: Global, brief: bool, first: &Option<Broken>) -> Result<Value, AllocError>
    ensures { IfOk result (λ value. view value ≡ first_data brief first.now) }
{
    match first {
        None => Ok(Value::Null),
        Some(broken) => broken_value(alloc, brief, broken),
    }
}

fn broken_value(alloc: Global, brief: bool, broken: &Broken) -> Result<Value, AllocError>
    ensures { IfOk result (λ value. view value ≡ first_data brief (Some broken.now)) }
{
    let schedule = schedule_unless(alloc, brief, broken.schedule.as_slice())?;
    let number = broken.number;
    json!(in alloc; {"number": number, "schedule": schedule})
}
