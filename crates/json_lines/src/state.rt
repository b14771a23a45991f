//! States of processes.
ghost use Rattle.std.specs.Prelude.{◌≡◌, IfOk};
ghost use Rattle.serde_json.specs.View.{view};
ghost use Rattle.json_lines.specs.Values.{process_data, processes_data};

use serde_json::{Value, json};
use std::alloc::{AllocError, Global};
use ws_history::ProcessState;

/// The state of a process: `{"state":"decided","value":V}`, `{"by":I,"state":"held"}`, `{"state":"spent"}` or `{"state":"going"}`.
///
/// # Errors
///
/// An allocation that fails.
pub fn process_value(alloc: Global, state: ProcessState) -> Result<Value, AllocError>
    ensures { IfOk result (λ value. view value ≡ process_data state) }
{
    match state {
        ProcessState::Decided(v) => json!(in alloc; {"state": "decided", "value": v}),
        ProcessState::Held(i) => json!(in alloc; {"by": i, "state": "held"}),
        ProcessState::Spent => json!(in alloc; {"state": "spent"}),
        ProcessState::Going => json!(in alloc; {"state": "going"}),
    }
}

/// The states of processes, in order.
///
/// # Errors
///
/// An allocation that fails.
pub fn processes_value(alloc: Global, states: &[ProcessState]) -> Result<Value, AllocError>
    ensures { IfOk result (λ value. view value ≡ processes_data states.now) }
{
    let mut values = Vec::new(alloc);
    for state in states {
        values.push(process_value(alloc, *state)?)?;
    }
    Ok(Value::Array(values))
}
