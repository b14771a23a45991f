//! The outcomes of a room, as JSON: an object a line.
ghost use Rattle.std.specs.Prelude.{◌≡◌, ◌==◌, ◌++◌, IfOk, OnOk};
ghost use Rattle.serde_json.specs.View.{view};
ghost use Rattle.json_lines.specs.Lines.{json_line};
ghost use Rattle.view_rooms.specs.Json.{found_data, outcome_data, outcome_line, outcome_lines, unfinished_data};

use crate::listing::most_values;
use crate::plan::SearchedRoom;
use io_text::Text;
use json_lines::{processes_value, write_line};
use room_search::{Reach, Reached};
use serde_json::{Value, json};
use std::alloc::{AllocError, Global};
use view_sample::schedule_unless;

/// Writes these outcomes of the room of this name, an object a line.
pub(crate) fn write_outcome_lines(
    alloc: Global,
    output: &mut Text,
    name: &str,
    brief: bool,
    all: &[Reached],
) -> Result<(), AllocError>
    ensures { OnOk result (output.new ≡ output.old ++ outcome_lines name.now brief all.now) }
{
    for one in all {
        write_outcome_line(alloc, output, name, brief, one)?;
    }
    Ok(())
}

fn write_outcome_line(
    alloc: Global,
    output: &mut Text,
    name: &str,
    brief: bool,
    one: &Reached,
) -> Result<(), AllocError>
    ensures { OnOk result (output.new ≡ output.old ++ outcome_line name.now brief one.now) }
{
    let value = outcome_value(alloc, name, brief, one)?;
    write_line(alloc, output, &value)
}

/// An outcome: the states of the processes, and a schedule that leads to it, unless schedules are left out.
fn outcome_value(alloc: Global, name: &str, brief: bool, one: &Reached) -> Result<Value, AllocError>
    ensures { IfOk result (λ value. view value ≡ outcome_data name.now brief one.now) }
{
    let processes = processes_value(alloc, one.states.as_slice())?;
    let schedule = schedule_unless(alloc, brief, one.schedule.as_slice())?;
    json!(in alloc; {"processes": processes, "room": name, "schedule": schedule})
}

/// Writes what is said of a room that was searched to the end, on one line.
pub(crate) fn write_found_line(
    room: &SearchedRoom<'_>,
    output: &mut Text,
    crashes: u32,
    reach: &Reach,
) -> Result<(), AllocError>
    ensures { OnOk result (output.new ≡ output.old ++ json_line (found_data room.now.spec.now crashes room.now.plan.now.nodes reach.now)) }
{
    let value = found_value(room, crashes, reach)?;
    write_line(room.alloc, output, &value)
}

fn found_value(room: &SearchedRoom<'_>, crashes: u32, reach: &Reach) -> Result<Value, AllocError>
    ensures { IfOk result (λ value. view value ≡ found_data room.now.spec.now crashes room.now.plan.now.nodes reach.now) }
{
    let alloc = room.alloc;
    let (name, limit) = (room.spec.name().as_str(), room.plan.nodes);
    let (count, nodes, missed) = (reach.outcomes.len(), reach.nodes, reach.missed);
    let (complete, values) = (missed == 0, most_values(reach.outcomes.as_slice()));
    json!(in alloc; {
        "complete": complete,
        "crashes": crashes,
        "decided_at_most": values,
        "limit": limit,
        "missed": missed,
        "nodes": nodes,
        "outcomes": count,
        "room": name
    })
}

/// Writes that the room has more nodes than are searched at most, on one line.
pub(crate) fn write_unfinished_line(
    room: &SearchedRoom<'_>,
    output: &mut Text,
    crashes: u32,
) -> Result<(), AllocError>
    ensures { OnOk result (output.new ≡ output.old ++ json_line (unfinished_data room.now.spec.now crashes room.now.plan.now.nodes)) }
{
    let value = unfinished_value(room, crashes)?;
    write_line(room.alloc, output, &value)
}

fn unfinished_value(room: &SearchedRoom<'_>, crashes: u32) -> Result<Value, AllocError>
    ensures { IfOk result (λ value. view value ≡ unfinished_data room.now.spec.now crashes room.now.plan.now.nodes) }
{
    let (alloc, limit) = (room.alloc, room.plan.nodes);
    let name = room.spec.name().as_str();
    json!(in alloc; {
        "complete": false,
        "crashes": crashes,
        "decided_at_most": null,
        "limit": limit,
        "missed": null,
        "nodes": null,
        "outcomes": null,
        "room": name
    })
}
