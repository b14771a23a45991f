//! Outcomes and tasks as JSON: an object a line.
ghost use Rattle.std.specs.Prelude.{◌≡◌, [], ◌∷◌, ◌++◌, IfOk, OnOk, is_none, length, map};
ghost use Rattle.std.specs.List.{filter};
ghost use Rattle.serde_json.specs.Data.{boolean, null};
ghost use Rattle.serde_json.specs.View.{view};
ghost use Rattle.json_lines.specs.Lines.{json_line};
ghost use Rattle.json_lines.specs.Values.{number_data, numbers_data};
ghost use Rattle.view_outcomes.specs.Counts.{can_be_spent};
ghost use Rattle.view_outcomes.specs.Listing.{chosen};
ghost use Rattle.view_outcomes.specs.Json.{agreed_data, alone_data, break_data, broken_unless, decisions_data, end_data, ends_data, found_data, judgement_data, none_data, outcome_data, room_decisions_data, room_task_data, room_vectors_data, run_data, spent_data, task_data, too_many_data, unfinished_data, unjudged_data, unsearched_data, vectors_data, verdict_data};

use crate::counts::{can_be_spent, most_values};
use crate::listing::{AllOutcomes, Listed, chosen};
use crate::search::SearchedRoom;
use decision_tasks::{Break, DecisionJudgement};
use input_vectors::values_value;
use io_text::Text;
use json_lines::{events_value, write_line};
use room_spec::Spec;
use run_search::{Ended, Judgement};
use serde_json::{Value, json};
use std::alloc::{AllocError, Global};
use transcript::Event;

// ---- one outcome

/// Writes how each process of the room of this name ends, and the events of a run that ends so, if there are any.
pub fn write_outcome_line(
    alloc: Global,
    output: &mut Text,
    name: &str,
    one: &Listed,
) -> Result<(), AllocError>
    ensures { OnOk result (output.new ≡ output.old ++ json_line (outcome_data name.now one.now)) }
{
    let value = outcome_value(alloc, name, one)?;
    write_line(alloc, output, &value)
}

fn outcome_value(alloc: Global, name: &str, one: &Listed) -> Result<Value, AllocError>
    ensures { IfOk result (λ value. view value ≡ outcome_data name.now one.now) }
{
    let events = run_value(alloc, &one.events)?;
    let processes = ends_value(alloc, one.ends.as_slice())?;
    json!(in alloc; {"events": events, "processes": processes, "room": name})
}

/// The events of a run, or `null` for none.
fn run_value(alloc: Global, run: &Option<Vec<Event>>) -> Result<Value, AllocError>
    ensures { IfOk result (λ value. view value ≡ run_data run.now) }
{
    match run {
        None => Ok(Value::Null),
        Some(events) => events_value(alloc, events.as_slice()),
    }
}

/// How each process ends, in order.
fn ends_value(alloc: Global, ends: &[Ended]) -> Result<Value, AllocError>
    ensures { IfOk result (λ value. view value ≡ ends_data ends.now) }
{
    let mut values = Vec::new(alloc);
    for ended in ends {
        values.push(end_value(alloc, *ended)?)?;
    }
    Ok(Value::Array(values))
}

/// How a process ends: `{"state":"decided","value":V}`, `{"state":"spent"}` or `{"state":"stopped"}`.
fn end_value(alloc: Global, ended: Ended) -> Result<Value, AllocError>
    ensures { IfOk result (λ value. view value ≡ end_data ended) }
{
    match ended {
        Ended::Decided(v) => json!(in alloc; {"state": "decided", "value": v}),
        Ended::Spent => json!(in alloc; {"state": "spent"}),
        Ended::Stopped => json!(in alloc; {"state": "stopped"}),
    }
}

/// Writes the outcome of this number in a list; or, if there is none, how many outcomes there are.
pub fn write_alone_line(
    alloc: Global,
    output: &mut Text,
    name: &str,
    number: u32,
    all: &[Listed],
) -> Result<(), AllocError>
    ensures { OnOk result (output.new ≡ output.old ++ json_line (alone_data name.now number (length all.now) (chosen number all.now))) }
{
    match chosen(all, number) {
        None => write_none_line(alloc, output, name, number, all.len()),
        Some(one) => write_outcome_line(alloc, output, name, one),
    }
}

/// Writes how many outcomes there are, none of which has this number.
fn write_none_line(
    alloc: Global,
    output: &mut Text,
    name: &str,
    number: u32,
    count: usize,
) -> Result<(), AllocError>
    ensures { OnOk result (output.new ≡ output.old ++ json_line (none_data name.now number count)) }
{
    let value = none_value(alloc, name, number, count)?;
    write_line(alloc, output, &value)
}

fn none_value(alloc: Global, name: &str, number: u32, count: usize) -> Result<Value, AllocError>
    ensures { IfOk result (λ value. view value ≡ none_data name.now number count) }
{
    json!(in alloc; {"number": number, "outcomes": count, "room": name})
}

// ---- all outcomes

/// Writes what all outcomes of a room have in common, and whether each run keeps the room's task.
pub fn write_found_line(
    room: &SearchedRoom<'_>,
    output: &mut Text,
    crashes: usize,
    all: &AllOutcomes,
) -> Result<(), AllocError>
    ensures { OnOk result (output.new ≡ output.old ++ json_line (found_data room.now.spec.now crashes room.now.search.now.nodes all.now)) }
{
    let value = found_value(room, crashes, all)?;
    write_line(room.alloc, output, &value)
}

fn found_value(
    room: &SearchedRoom<'_>,
    crashes: usize,
    all: &AllOutcomes,
) -> Result<Value, AllocError>
    ensures { IfOk result (λ value. view value ≡ found_data room.now.spec.now crashes room.now.search.now.nodes all.now) }
{
    let (alloc, spec, limit) = (room.alloc, room.spec, room.search.nodes);
    let name = spec.name().as_str();
    let listed = all.listed.as_slice();
    let (values, nodes, count) = (most_values(listed), all.nodes, listed.len());
    let spent = spent_value(alloc, spec.n(), listed)?;
    let broken = run_value(alloc, &all.breaking)?;
    let kept = is_unbroken(&all.breaking);
    let task = task_value(alloc, spec.task(), &broken, &kept)?;
    json!(in alloc; {
        "complete": true,
        "crashes": crashes,
        "decided_at_most": values,
        "limit": limit,
        "nodes": nodes,
        "outcomes": count,
        "room": name,
        "spent": spent,
        "task": task
    })
}

/// Whether no run that breaks the task was found.
fn is_unbroken(breaking: &Option<Vec<Event>>) -> Value
    ensures { view result ≡ boolean (is_none breaking.now) }
{
    match breaking {
        None => Value::Bool(true),
        Some(_) => Value::Bool(false),
    }
}

/// The processes that can be spent, of the first `n`.
fn spent_value(alloc: Global, n: usize, all: &[Listed]) -> Result<Value, AllocError>
    ensures { IfOk result (λ value. view value ≡ spent_data n all.now) }
{
    let mut values = Vec::new(alloc);
    for process in 0..n {
        push_if_spent(&mut values, all, process)?;
    }
    Ok(Value::Array(values))
}

/// Adds the number of this process, if the process can be spent.
fn push_if_spent(values: &mut Vec<Value>, all: &[Listed], process: usize) -> Result<(), AllocError>
    ensures { OnOk result (map view values.new.items ≡ map view values.old.items ++ map number_data (filter (can_be_spent all.now) (process ∷ []))) }
{
    if can_be_spent(all, process) {
        values.push(Value::from(process))?;
    }
    Ok(())
}

/// Writes that the room has more nodes than are searched at most.
pub fn write_unfinished_object(
    room: &SearchedRoom<'_>,
    output: &mut Text,
    crashes: usize,
) -> Result<(), AllocError>
    ensures { OnOk result (output.new ≡ output.old ++ json_line (unfinished_data room.now.spec.now crashes room.now.search.now.nodes)) }
{
    let value = unfinished_value(room, crashes)?;
    write_line(room.alloc, output, &value)
}

fn unfinished_value(room: &SearchedRoom<'_>, crashes: usize) -> Result<Value, AllocError>
    ensures { IfOk result (λ value. view value ≡ unfinished_data room.now.spec.now crashes room.now.search.now.nodes) }
{
    let (alloc, spec, limit) = (room.alloc, room.spec, room.search.nodes);
    let name = spec.name().as_str();
    let task = task_value(alloc, spec.task(), &Value::Null, &Value::Null)?;
    json!(in alloc; {
        "complete": false,
        "crashes": crashes,
        "decided_at_most": null,
        "limit": limit,
        "nodes": null,
        "outcomes": null,
        "room": name,
        "spent": null,
        "task": task
    })
}

// ---- only the task

/// How many values a task allows, a run that breaks it, and whether each run keeps it; or `null` for no task.
fn task_value(
    alloc: Global,
    task: Option<u8>,
    broken: &Value,
    kept: &Value,
) -> Result<Value, AllocError>
    ensures { IfOk result (λ value. view value ≡ task_data task (view broken.now) (view kept.now)) }
{
    match task {
        None => Ok(Value::Null),
        Some(most) => json!(in alloc; {"allows": most, "broken_by": broken, "kept": kept}),
    }
}

/// Writes whether each run keeps the room's task, and else a run that breaks it, unless that is left out.
pub fn write_judgement_line(
    room: &SearchedRoom<'_>,
    output: &mut Text,
    brief: bool,
    judgement: &Judgement,
) -> Result<(), AllocError>
    ensures { OnOk result (output.new ≡ output.old ++ json_line (judgement_data brief room.now.spec.now room.now.search.now.nodes judgement.now)) }
{
    let value = judgement_value(room, brief, judgement)?;
    write_line(room.alloc, output, &value)
}

fn judgement_value(
    room: &SearchedRoom<'_>,
    brief: bool,
    judgement: &Judgement,
) -> Result<Value, AllocError>
    ensures { IfOk result (λ value. view value ≡ judgement_data brief room.now.spec.now room.now.search.now.nodes judgement.now) }
{
    match judgement {
        Judgement::Kept(nodes) => {
            let (nodes, kept) = (Value::from(*nodes), Value::Bool(true));
            room_task_value(room, &nodes, &Value::Null, &kept)
        }
        Judgement::Broken(events) => {
            let broken = broken_unless(room.alloc, brief, events.as_slice())?;
            let kept = Value::Bool(false);
            room_task_value(room, &Value::Null, &broken, &kept)
        }
    }
}

/// The events of a run that breaks a task, unless they are left out.
fn broken_unless(alloc: Global, brief: bool, events: &[Event]) -> Result<Value, AllocError>
    ensures { IfOk result (λ value. view value ≡ broken_unless brief events.now) }
{
    if brief {
        return Ok(Value::Null);
    }
    events_value(alloc, events)
}

/// Writes that the room has no task, or more nodes than are searched at most, and that no run that was searched breaks its task.
pub fn write_unjudged_line(room: &SearchedRoom<'_>, output: &mut Text) -> Result<(), AllocError>
    ensures { OnOk result (output.new ≡ output.old ++ json_line (unjudged_data room.now.spec.now room.now.search.now.nodes)) }
{
    let value = unjudged_value(room)?;
    write_line(room.alloc, output, &value)
}

fn unjudged_value(room: &SearchedRoom<'_>) -> Result<Value, AllocError>
    ensures { IfOk result (λ value. view value ≡ unjudged_data room.now.spec.now room.now.search.now.nodes) }
{
    let none = Value::Null;
    room_task_value(room, &none, &none, &none)
}

/// The room, its inputs, and what is said of its task.
fn room_task_value(
    room: &SearchedRoom<'_>,
    nodes: &Value,
    broken: &Value,
    kept: &Value,
) -> Result<Value, AllocError>
    ensures { IfOk result (λ value. view value ≡ room_task_data room.now.spec.now room.now.search.now.nodes (view nodes.now) (view broken.now) (view kept.now)) }
{
    let (alloc, spec, limit) = (room.alloc, room.spec, room.search.nodes);
    let name = spec.name().as_str();
    let inputs = inputs_value(alloc, spec)?;
    let task = task_value(alloc, spec.task(), broken, kept)?;
    json!(in alloc; {"inputs": inputs, "limit": limit, "nodes": nodes, "room": name, "task": task})
}

/// The inputs of a room's processes, in order.
fn inputs_value(alloc: Global, spec: &Spec) -> Result<Value, AllocError>
    ensures { IfOk result (λ value. view value ≡ numbers_data spec.now.inputs) }
{
    let mut values = Vec::new(alloc);
    for process in 0..spec.n() {
        values.push(Value::from(spec.input(process)))?;
    }
    Ok(Value::Array(values))
}

// ---- all vectors of inputs

/// Writes for how many of how many vectors of these values each run keeps the room's task.
pub fn write_vectors_object(
    room: &SearchedRoom<'_>,
    output: &mut Text,
    values: &[u32],
    kept: usize,
    count: usize,
) -> Result<(), AllocError>
    ensures { OnOk result (output.new ≡ output.old ++ json_line (vectors_data room.now.spec.now room.now.search.now.nodes values.now kept count)) }
{
    let value = vectors_value(room, values, kept, count)?;
    write_line(room.alloc, output, &value)
}

fn vectors_value(
    room: &SearchedRoom<'_>,
    values: &[u32],
    kept: usize,
    count: usize,
) -> Result<Value, AllocError>
    ensures { IfOk result (λ value. view value ≡ vectors_data room.now.spec.now room.now.search.now.nodes values.now kept count) }
{
    let (kept, count) = (Value::from(kept), Value::from(count));
    room_vectors_value(room, values, &kept, &count)
}

/// Writes that there are more vectors of these values than a room is judged with.
pub fn write_too_many_object(
    room: &SearchedRoom<'_>,
    output: &mut Text,
    values: &[u32],
) -> Result<(), AllocError>
    ensures { OnOk result (output.new ≡ output.old ++ json_line (too_many_data room.now.spec.now room.now.search.now.nodes values.now)) }
{
    let value = too_many_value(room, values)?;
    write_line(room.alloc, output, &value)
}

fn too_many_value(room: &SearchedRoom<'_>, values: &[u32]) -> Result<Value, AllocError>
    ensures { IfOk result (λ value. view value ≡ too_many_data room.now.spec.now room.now.search.now.nodes values.now) }
{
    let none = Value::Null;
    room_vectors_value(room, values, &none, &none)
}

fn room_vectors_value(
    room: &SearchedRoom<'_>,
    values: &[u32],
    kept: &Value,
    count: &Value,
) -> Result<Value, AllocError>
    ensures { IfOk result (λ value. view value ≡ room_vectors_data room.now.spec.now room.now.search.now.nodes values.now (view kept.now) (view count.now)) }
{
    let (alloc, spec, limit) = (room.alloc, room.spec, room.search.nodes);
    let name = spec.name().as_str();
    let values = values_value(alloc, values)?;
    json!(in alloc; {"kept": kept, "limit": limit, "room": name, "values": values, "vectors": count})
}

/// Writes the inputs on which the simulators of a reduction agree.
pub fn write_agreed_object(
    room: &SearchedRoom<'_>,
    output: &mut Text,
    inputs: &[u32],
) -> Result<(), AllocError>
    ensures { OnOk result (output.new ≡ output.old ++ json_line (agreed_data room.now.spec.now.name inputs.now)) }
{
    let value = agreed_value(room.alloc, room.spec.name().as_str(), inputs)?;
    write_line(room.alloc, output, &value)
}

fn agreed_value(alloc: Global, name: &str, inputs: &[u32]) -> Result<Value, AllocError>
    ensures { IfOk result (λ value. view value ≡ agreed_data name.now inputs.now) }
{
    let inputs = values_value(alloc, inputs)?;
    json!(in alloc; {"inputs": inputs, "room": name})
}

// ---- a task of one's own

/// Writes whether each run keeps a task of one's own; or which process breaks it, and in which run.
pub fn write_decisions_line(
    room: &SearchedRoom<'_>,
    output: &mut Text,
    judgement: &DecisionJudgement,
) -> Result<(), AllocError>
    ensures { OnOk result (output.new ≡ output.old ++ json_line (decisions_data room.now.spec.now room.now.search.now.nodes judgement.now)) }
{
    let value = decisions_value(room, judgement)?;
    write_line(room.alloc, output, &value)
}

fn decisions_value(
    room: &SearchedRoom<'_>,
    judgement: &DecisionJudgement,
) -> Result<Value, AllocError>
    ensures { IfOk result (λ value. view value ≡ decisions_data room.now.spec.now room.now.search.now.nodes judgement.now) }
{
    match judgement {
        DecisionJudgement::Kept(nodes) => {
            let verdict = open_verdict(room.alloc, &Value::Bool(true))?;
            room_decisions_value(room, &Value::from(*nodes), &verdict)
        }
        DecisionJudgement::Broken(broken) => {
            let verdict = break_value(room.alloc, broken)?;
            room_decisions_value(room, &Value::Null, &verdict)
        }
    }
}

/// Writes that the room has more nodes than are searched at most.
pub fn write_unsearched_line(room: &SearchedRoom<'_>, output: &mut Text) -> Result<(), AllocError>
    ensures { OnOk result (output.new ≡ output.old ++ json_line (unsearched_data room.now.spec.now room.now.search.now.nodes)) }
{
    let value = unsearched_value(room)?;
    write_line(room.alloc, output, &value)
}

fn unsearched_value(room: &SearchedRoom<'_>) -> Result<Value, AllocError>
    ensures { IfOk result (λ value. view value ≡ unsearched_data room.now.spec.now room.now.search.now.nodes) }
{
    let verdict = open_verdict(room.alloc, &Value::Null)?;
    room_decisions_value(room, &Value::Null, &verdict)
}

/// What is said of a task that no run is known to break.
fn open_verdict(alloc: Global, kept: &Value) -> Result<Value, AllocError>
    ensures { IfOk result (λ value. view value ≡ verdict_data null (view kept.now) null null) }
{
    json!(in alloc; {"broken_by": null, "kept": kept, "process": null, "value": null})
}

/// A run that breaks a task: its events, and which process decided in it what no line of the task allows.
fn break_value(alloc: Global, broken: &Break) -> Result<Value, AllocError>
    ensures { IfOk result (λ value. view value ≡ break_data broken.now) }
{
    let events = events_value(alloc, broken.events.as_slice())?;
    let (process, decided) = (broken.process, broken.value);
    json!(in alloc; {"broken_by": events, "kept": false, "process": process, "value": decided})
}

fn room_decisions_value(
    room: &SearchedRoom<'_>,
    nodes: &Value,
    verdict: &Value,
) -> Result<Value, AllocError>
    ensures { IfOk result (λ value. view value ≡ room_decisions_data room.now.spec.now room.now.search.now.nodes (view nodes.now) (view verdict.now)) }
{
    let (alloc, limit) = (room.alloc, room.search.nodes);
    let name = room.spec.name().as_str();
    json!(in alloc; {"decisions": verdict, "limit": limit, "nodes": nodes, "room": name})
}
