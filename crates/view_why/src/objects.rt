//! The objects of rooms.
ghost use Rattle.std.specs.Prelude.{IfErr, IfOk, OnOk, true};
ghost use Rattle.serde_json.specs.View.{view};
ghost use Rattle.view_why.specs.Json.{IsBreakData, IsExcessData};
ghost use Rattle.view_why.specs.Reported.{IsExcess, IsLineBreak};
ghost use Rattle.view_why.specs.Why.{IsRoomData, IsSaid, IsTaskData, task_verdict_of, verdict_of};

use crate::inputs::{own_inputs, task_inputs};
use crate::json::{break_value, broken_room, broken_task, excess_value, kept_task, whole_room};
use crate::reported::{Excess, LineBreak, Reported};
use io_text::Text;
use json_lines::write_line;
use serde_json::Value;
use std::alloc::{AllocError, Global};

/// Writes what is said of a room as an object, on a line of its own.
pub(crate) fn write_object(
    alloc: Global,
    output: &mut Text,
    reported: &Reported,
    reason: Result<(), LineBreak>,
    excess: Result<(), Excess>,
) -> Result<(), AllocError>
    requires run { IfErr reason (IsLineBreak reported.now) }
    requires task { IfErr excess (IsExcess reported.now) }
    ensures { OnOk result (IsSaid true reported.now reason excess output.old output.new) }
{
    let value = object_value(alloc, reported, reason, excess)?;
    write_line(alloc, output, &value)?;
    Ok(())
}

#[tactic(auto, using(crate::proofs::RoomObjects::run_of, crate::proofs::RoomObjects::no_run_of))]
fn object_value(
    alloc: Global,
    reported: &Reported,
    reason: Result<(), LineBreak>,
    excess: Result<(), Excess>,
) -> Result<Value, AllocError>
    requires run { IfErr reason (IsLineBreak reported.now) }
    requires task { IfErr excess (IsExcess reported.now) }
    ensures { IfOk result (λ value. IsRoomData reported.now (verdict_of reason) (task_verdict_of reported.now.spec.task excess) (view value)) }
{
    let name = reported.spec.name().as_str();
    match reason {
        Ok(()) => {
            let task = task_part(alloc, reported, excess)?;
            whole_room(alloc, name, &task)
        }
        Err(broken) => {
            let why = break_part(alloc, reported, broken)?;
            broken_room(alloc, name, &why)
        }
    }
}

/// What breaks a room's run.
#[tactic(auto, using(crate::proofs::RoomObjects::break_of))]
fn break_part(alloc: Global, reported: &Reported, broken: LineBreak) -> Result<Value, AllocError>
    requires { IsLineBreak reported.now broken }
    ensures { IfOk result (λ value. IsBreakData reported.now broken.line (view value)) }
{
    let event = reported.event(broken.at);
    let own = own_inputs(alloc, &reported.spec)?;
    break_value(alloc, own.as_slice(), event, broken)
}

/// What is said of a room's task, if it has one.
#[tactic(auto, using(crate::proofs::RoomObjects::kept_of, crate::proofs::RoomObjects::broken_of))]
fn task_part(
    alloc: Global,
    reported: &Reported,
    excess: Result<(), Excess>,
) -> Result<Value, AllocError>
    requires { IfErr excess (IsExcess reported.now) }
    ensures { IfOk result (λ value. IsTaskData reported.now (task_verdict_of reported.now.spec.task excess) (view value)) }
{
    match excess {
        Ok(()) => kept_task(alloc, reported.spec.task()),
        Err(excess) => {
            let why = excess_part(alloc, reported, excess)?;
            broken_task(alloc, excess.most, &why)
        }
    }
}

/// What breaks a room's task.
#[tactic(auto, using(crate::proofs::RoomObjects::excess_of))]
fn excess_part(alloc: Global, reported: &Reported, excess: Excess) -> Result<Value, AllocError>
    requires { IsExcess reported.now excess }
    ensures { IfOk result (λ value. IsExcessData reported.now excess.line (view value)) }
{
    let event = reported.event(excess.at);
    let before = reported.decided_before(alloc, excess.at)?;
    let inputs = task_inputs(alloc, &reported.spec)?;
    excess_value(
        alloc,
        inputs.as_slice(),
        excess.line,
        event,
        before.as_slice(),
    )
}
