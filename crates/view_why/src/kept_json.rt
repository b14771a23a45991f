//! Whether runs keep a task of one's own, as JSON: an object a line.
ghost use Rattle.std.specs.Prelude.{◌≡◌, ◌++◌, IfOk, OnOk, false, true};
ghost use Rattle.serde_json.specs.View.{view};
ghost use Rattle.serde_json.specs.Written.{has_float};
ghost use Rattle.json_lines.specs.Lines.{json_line};
ghost use Rattle.json_lines.specs.Values.{row_data};
ghost use Rattle.view_why.specs.Keeping.{allowed_in, broken_data, decisions_data, disallowed_in, moment_data};

use crate::reported::Disallowed;
use io_text::Text;
use json_lines::{entry_value, event_value, write_line};
use serde_json::{Value, json};
use std::alloc::{AllocError, Global};
use transcript::Event;

/// Writes that the run of the room of this name keeps the task.
pub(crate) fn write_allowed_object(
    alloc: Global,
    output: &mut Text,
    name: &str,
) -> Result<(), AllocError>
    ensures { OnOk result (output.new ≡ output.old ++ allowed_in true name.now) }
{
    write_object(alloc, output, name, &Value::Null)
}

/// Writes the event after which the run of the room of this name breaks the task, and what was decided then.
pub(crate) fn write_disallowed_object(
    alloc: Global,
    output: &mut Text,
    name: &str,
    event: &Event,
    one: &Disallowed,
) -> Result<(), AllocError>
    ensures { OnOk result (output.new ≡ output.old ++ disallowed_in true name.now event.now one.now) }
{
    let broken = moment_value(alloc, event, one)?;
    write_object(alloc, output, name, &broken)
}

/// Writes what breaks the task, or `null` for nothing.
fn write_object(
    alloc: Global,
    output: &mut Text,
    name: &str,
    broken: &Value,
) -> Result<(), AllocError>
    requires { has_float (view broken.now) ≡ false }
    ensures { OnOk result (output.new ≡ output.old ++ json_line (decisions_data name.now (view broken.now))) }
{
    let value = decisions_value(alloc, name, broken)?;
    write_line(alloc, output, &value)
}

fn decisions_value(alloc: Global, name: &str, broken: &Value) -> Result<Value, AllocError>
    ensures { IfOk result (λ value. view value ≡ decisions_data name.now (view broken.now)) }
{
    let decisions = broken_value(alloc, broken)?;
    json!(in alloc; {"decisions": decisions, "room": name})
}

fn broken_value(alloc: Global, broken: &Value) -> Result<Value, AllocError>
    ensures { IfOk result (λ value. view value ≡ broken_data (view broken.now)) }
{
    json!(in alloc; {"break": broken})
}

fn moment_value(alloc: Global, event: &Event, one: &Disallowed) -> Result<Value, AllocError>
    ensures { IfOk result (λ value. view value ≡ moment_data event.now one.now) }
{
    let decided = entries_value(alloc, one.moment.decisions.as_slice())?;
    let event = event_value(alloc, event)?;
    let (line, process, value) = (one.line, one.moment.process, one.moment.value);
    json!(in alloc; {
        "decided": decided,
        "event": event,
        "line": line,
        "process": process,
        "value": value
    })
}

/// What each process has decided, or `null`.
fn entries_value(alloc: Global, entries: &[Option<u32>]) -> Result<Value, AllocError>
    ensures { IfOk result (λ value. view value ≡ row_data entries.now) }
{
    let mut values = Vec::new(alloc);
    for entry in entries {
        values.push(entry_value(*entry))?;
    }
    Ok(Value::Array(values))
}
