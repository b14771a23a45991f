//! Events of processes.
ghost use Rattle.std.specs.Prelude.{◌≡◌, IfOk};
ghost use Rattle.serde_json.specs.View.{view};
ghost use Rattle.json_lines.specs.Values.{entry_data, event_data, events_data, row_data};

use serde_json::{Value, json};
use std::alloc::{AllocError, Global};
use transcript::Event;

/// An event: `{"event":"write","process":P,"value":V}`, the same with `"decide"`, or `{"event":"snap","process":P,"row":[..]}`, where the row has
/// a value or `null` for each process.
///
/// # Errors
///
/// An allocation that fails.
pub fn event_value(alloc: Global, event: &Event) -> Result<Value, AllocError>
    ensures { IfOk result (λ value. view value ≡ event_data event.now) }
{
    match event {
        Event::Write { p, v } => {
            let (process, value) = (*p, *v);
            json!(in alloc; {"event": "write", "process": process, "value": value})
        }
        Event::Snap { p, row } => {
            let process = *p;
            let row = row_value(alloc, row.as_slice())?;
            json!(in alloc; {"event": "snap", "process": process, "row": row})
        }
        Event::Decide { p, v } => {
            let (process, value) = (*p, *v);
            json!(in alloc; {"event": "decide", "process": process, "value": value})
        }
    }
}

/// The entries of a snapshot, in order.
///
/// # Errors
///
/// An allocation that fails.
pub fn row_value(alloc: Global, row: &[Option<u32>]) -> Result<Value, AllocError>
    ensures { IfOk result (λ value. view value ≡ row_data row.now) }
{
    let mut values = Vec::new(alloc);
    for entry in row {
        values.push(entry_value(*entry))?;
    }
    Ok(Value::Array(values))
}

/// An entry of a snapshot: a value, or `null` for nothing.
pub fn entry_value(entry: Option<u32>) -> Value
    ensures { view result ≡ entry_data entry }
{
    match entry {
        Some(value) => Value::from(value),
        None => Value::Null,
    }
}

/// Events, in order.
///
/// # Errors
///
/// An allocation that fails.
pub fn events_value(alloc: Global, events: &[Event]) -> Result<Value, AllocError>
    ensures { IfOk result (λ value. view value ≡ events_data events.now) }
{
    let mut values = Vec::new(alloc);
    for event in events {
        values.push(event_value(alloc, event)?)?;
    }
    Ok(Value::Array(values))
}
