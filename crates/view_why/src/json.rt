//! What is said of a room as JSON.
ghost use Rattle.std.specs.Prelude.{◌≡◌, IfOk};
ghost use Rattle.serde_json.specs.Data.{null};
ghost use Rattle.serde_json.specs.View.{view};
ghost use Rattle.view_why.specs.Json.{action_data, asked_data, break_data, decision_data, decisions_data, excess_data, expected_data, input_data, kept_data, kind_data, reason_data, room_data, task_data, turn_data, why_data, written_data};
ghost use Rattle.json_lines.specs.Values.{entry_data};
ghost use Rattle.history_checker.specs.declared.reason.Reason.TheVariants.{WrongEntry};

use crate::inputs::no_input_value;
use crate::reasons::shown_of;
use crate::reported::{Decision, LineBreak};
use history_checker::{LastWrite, Reason, Turn};
use json_lines::{entry_value, event_value};
use protocol_lang::Action;
use serde_json::{Value, json};
use std::alloc::{AllocError, Global};
use transcript::Event;

/// A room whose run breaks.
pub(crate) fn broken_room(alloc: Global, name: &str, broken: &Value) -> Result<Value, AllocError>
    ensures { IfOk result (λ value. view value ≡ room_data name.now (view broken.now) null) }
{
    json!(in alloc; {"break": broken, "room": name, "task": null})
}

/// A room that is a run, and what is said of its task.
pub(crate) fn whole_room(alloc: Global, name: &str, task: &Value) -> Result<Value, AllocError>
    ensures { IfOk result (λ value. view value ≡ room_data name.now null (view task.now)) }
{
    json!(in alloc; {"break": null, "room": name, "task": task})
}

/// A task that allows this many values, and breaks.
pub(crate) fn broken_task(alloc: Global, most: u8, broken: &Value) -> Result<Value, AllocError>
    ensures { IfOk result (λ value. view value ≡ task_data most (view broken.now)) }
{
    json!(in alloc; {"allows": most, "break": broken})
}

/// A task that allows this many values, and holds; or `null` for none.
pub(crate) fn kept_task(alloc: Global, most: Option<u8>) -> Result<Value, AllocError>
    ensures { IfOk result (λ value. view value ≡ kept_data most) }
{
    match most {
        None => Ok(Value::Null),
        Some(most) => json!(in alloc; {"allows": most, "break": null}),
    }
}

/// The line that breaks a run, its event, and why it may not come.
pub(crate) fn break_value(
    alloc: Global,
    own: &[u32],
    event: &Event,
    broken: LineBreak,
) -> Result<Value, AllocError>
    ensures { IfOk result (λ value. view value ≡ break_data own.now event.now broken) }
{
    let reason = why_value(alloc, own, event, broken.reason, broken.earlier)?;
    let event = event_value(alloc, event)?;
    let line = broken.line;
    json!(in alloc; {"event": event, "line": line, "reason": reason})
}

/// Why an event may not come in a room whose simulators have these inputs of their own.
fn why_value(
    alloc: Global,
    own: &[u32],
    event: &Event,
    reason: Option<Reason>,
    earlier: Option<u64>,
) -> Result<Value, AllocError>
    ensures { IfOk result (λ value. view value ≡ why_data own.now event.now reason earlier) }
{
    match reason {
        None => no_input_value(alloc, own),
        Some(reason) => reason_value(alloc, event, reason, earlier),
    }
}

fn reason_value(
    alloc: Global,
    event: &Event,
    reason: Reason,
    earlier: Option<u64>,
) -> Result<Value, AllocError>
    ensures { IfOk result (λ value. view value ≡ reason_data event.now reason earlier) }
{
    match reason {
        Reason::NoProcess => kind_value(alloc, "process"),
        Reason::OtherLength => kind_value(alloc, "length"),
        Reason::OutOfTurn { next } => {
            let next = turn_value(alloc, next)?;
            expected_value(alloc, &next, "turn")
        }
        Reason::OtherAction { asked } => {
            let asked = action_value(alloc, asked)?;
            expected_value(alloc, &asked, "protocol")
        }
        Reason::WrongEntry { process, written } => {
            shown_value(alloc, event, process, written, earlier)
        }
        Reason::TooManyWrites => kind_value(alloc, "rounds"),
    }
}

fn kind_value(alloc: Global, kind: &str) -> Result<Value, AllocError>
    ensures { IfOk result (λ value. view value ≡ kind_data kind.now) }
{
    json!(in alloc; {"kind": kind})
}

fn expected_value(alloc: Global, expected: &Value, kind: &str) -> Result<Value, AllocError>
    ensures { IfOk result (λ value. view value ≡ expected_data (view expected.now) kind.now) }
{
    json!(in alloc; {"expected": expected, "kind": kind})
}

/// An entry of a snapshot that isn't the last write of its process.
fn shown_value(
    alloc: Global,
    event: &Event,
    process: usize,
    written: Option<LastWrite>,
    earlier: Option<u64>,
) -> Result<Value, AllocError>
    ensures { IfOk result (λ value. view value ≡ reason_data event.now (WrongEntry process written) earlier) }
{
    let expected = written_value(alloc, written, earlier)?;
    let shown = entry_value(shown_of(event, process));
    json!(in alloc; {
        "expected": expected,
        "kind": "entry",
        "process": process,
        "shown": shown
    })
}

/// The last write of a process, and its line.
fn written_value(
    alloc: Global,
    written: Option<LastWrite>,
    earlier: Option<u64>,
) -> Result<Value, AllocError>
    ensures { IfOk result (λ value. view value ≡ written_data written earlier) }
{
    match written {
        None => Ok(Value::Null),
        Some(last) => {
            let (line, value) = (line_value(earlier), last.value);
            json!(in alloc; {"line": line, "value": value})
        }
    }
}

/// A line, or `null` for none.
fn line_value(line: Option<u64>) -> Value
    ensures { view result ≡ entry_data line }
{
    match line {
        Some(line) => Value::from(line),
        None => Value::Null,
    }
}

fn turn_value(alloc: Global, next: Turn) -> Result<Value, AllocError>
    ensures { IfOk result (λ value. view value ≡ turn_data next) }
{
    match next {
        Turn::Write(v) => asked_value(alloc, "write", v),
        Turn::Snap => json!(in alloc; {"event": "snap"}),
        Turn::Decide(v) => asked_value(alloc, "decide", v),
        Turn::Over => Ok(Value::Null),
    }
}

fn action_value(alloc: Global, action: Action) -> Result<Value, AllocError>
    ensures { IfOk result (λ value. view value ≡ action_data action) }
{
    match action {
        Action::Write(v) => asked_value(alloc, "write", v),
        Action::Decide(v) => asked_value(alloc, "decide", v),
    }
}

fn asked_value(alloc: Global, word: &str, v: u32) -> Result<Value, AllocError>
    ensures { IfOk result (λ value. view value ≡ asked_data word.now v) }
{
    json!(in alloc; {"event": word, "value": v})
}

/// The line that breaks a task, its event, and the values that were decided before.
pub(crate) fn excess_value(
    alloc: Global,
    inputs: &[u32],
    line: u64,
    event: &Event,
    before: &[Decision],
) -> Result<Value, AllocError>
    ensures { IfOk result (λ value. view value ≡ excess_data inputs.now line event.now before.now) }
{
    let decided = decisions_value(alloc, before)?;
    let input = input_value(inputs, event);
    let event = event_value(alloc, event)?;
    json!(in alloc; {"decided": decided, "event": event, "input": input, "line": line})
}

/// Whether the value that the event decides is one of these inputs.
fn input_value(inputs: &[u32], event: &Event) -> Value
    ensures { view result ≡ input_data inputs.now event.now }
{
    match event {
        Event::Decide { v, .. } => Value::Bool(inputs.contains(v)),
        Event::Write { .. } => Value::Null,
        Event::Snap { .. } => Value::Null,
    }
}

fn decisions_value(alloc: Global, decisions: &[Decision]) -> Result<Value, AllocError>
    ensures { IfOk result (λ value. view value ≡ decisions_data decisions.now) }
{
    let mut values = Vec::new(alloc);
    for one in decisions {
        values.push(decision_value(alloc, *one)?)?;
    }
    Ok(Value::Array(values))
}

fn decision_value(alloc: Global, one: Decision) -> Result<Value, AllocError>
    ensures { IfOk result (λ value. view value ≡ decision_data one) }
{
    let (line, value) = (one.line, one.value);
    json!(in alloc; {"line": line, "value": value})
}
