//! Whether the runs of rooms keep a task of one's own.
ghost use Rattle.std.specs.Prelude.{◌≡◌, ◌++◌, ℕ, List, IfOk, OnOk, Some, slice_get};
ghost use Rattle.transcript.specs.declared.event.Event.{Event as EventValue};
ghost use Rattle.view_why.specs.Keeping.{AddsDecisions, IsDecisionsText, IsDisallowed, allowed_in, disallowed_in, with_kept};

use crate::kept_json::{write_allowed_object, write_disallowed_object};
use crate::kept_text::{write_allowed_line, write_disallowed_lines};
use crate::reported::{Disallowed, Reported};
use crate::rooms::ReportedRooms;
use decision_tasks::DecisionTask;
use io_text::Text;
use room_files::{Outcome, outcome_if};
use std::alloc::{AllocError, Global};

/// Writes of each ordinary room whose events are a run that keeps its own task whether the run keeps this one. Gives whether each does.
pub fn write_kept(
    alloc: Global,
    output: &mut Text,
    json: bool,
    task: &DecisionTask,
    rooms: &ReportedRooms,
) -> Result<bool, AllocError>
    ensures { IfOk result (λ kept. AddsDecisions json task.now rooms.now kept output.old output.new) }
{
    let mut kept = true;
    for reported in rooms.iter() {
        kept &= write_decisions(alloc, output, json, task, reported)?;
    }
    Ok(kept)
}

/// The outcome with that of the task.
pub fn with_kept(outcome: Outcome, kept: bool) -> Outcome
    ensures { result ≡ with_kept outcome kept }
{
    match outcome {
        Outcome::AllWell => outcome_if(kept),
        Outcome::SomeRefused => Outcome::SomeRefused,
    }
}

/// Writes whether an ordinary room's run keeps a task; nothing, if the room's events are no run or break its own task, or of a reduction. Gives whether this task isn't broken.
fn write_decisions(
    alloc: Global,
    output: &mut Text,
    json: bool,
    task: &DecisionTask,
    reported: &Reported,
) -> Result<bool, AllocError>
    ensures { IfOk result (λ kept. (text : List ℕ) × IsDecisionsText json task.now reported.now kept text × (output.new ≡ output.old ++ text)) }
{
    if !reported.is_well() {
        return Ok(true);
    }
    match reported.disallowed(task) {
        None => {
            write_allowed(alloc, output, json, reported)?;
            Ok(true)
        }
        Some(one) => {
            write_disallowed(alloc, output, json, reported, &one)?;
            Ok(false)
        }
    }
}

/// Writes that a room's run keeps the task.
fn write_allowed(
    alloc: Global,
    output: &mut Text,
    json: bool,
    reported: &Reported,
) -> Result<(), AllocError>
    ensures { OnOk result (output.new ≡ output.old ++ allowed_in json reported.now.spec.name) }
{
    let name = reported.spec.name().as_str();
    if json {
        return write_allowed_object(alloc, output, name);
    }
    write_allowed_line(output, name.as_bytes())
}

/// Writes where a room's run breaks the task, and what was decided then.
fn write_disallowed(
    alloc: Global,
    output: &mut Text,
    json: bool,
    reported: &Reported,
    one: &Disallowed,
) -> Result<(), AllocError>
    requires { (event : EventValue) × (slice_get reported.now.events one.now.moment.at ≡ Some event) }
    ensures { OnOk result ((event : EventValue) × (slice_get reported.now.events one.now.moment.at ≡ Some event) × (output.new ≡ output.old ++ disallowed_in json reported.now.spec.name event one.now)) }
{
    let event = reported.event(one.moment.at);
    if json {
        let name = reported.spec.name().as_str();
        return write_disallowed_object(alloc, output, name, event, one);
    }
    write_disallowed_lines(alloc, output, reported, event, one)
}
