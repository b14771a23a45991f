//! The answer to a whole input.
ghost use Rattle.std.specs.Prelude.{◌≡◌, ◌≤◌, ◌++◌, ℕ, List, IfOk, IfErr, OnOk, false, length};
ghost use Rattle.std.specs.List.{flat_map};
ghost use Rattle.history_checker.specs.Verdicts.{FedEvent};
ghost use Rattle.io_text.specs.Reading.{most_bytes};
ghost use Rattle.room_files.specs.Blocks.{IsFaultOr};
ghost use Rattle.room_files.specs.Inputs.{MayLackMemory, input_says};
ghost use Rattle.room_files.specs.declared.kinds.Kinds.TheVariants.{All};
ghost use Rattle.transcript.specs.Grammar.{event_line};
ghost use Rattle.view_why.specs.Keeping.{IsKeptExplanation};
ghost use Rattle.view_why.specs.Reported.{AreReported, IsExcess, IsLineBreak, IsReported, specs_of};
ghost use Rattle.fault_text.specs.Lines.{indented, indented_all};
ghost use Rattle.fault_text.specs.Refusals.{refusal_line};
ghost use Rattle.view_why.specs.Why.{AreHeard, IsBecause, IsExcessSaid, IsExplanation, IsExplanationFor, IsExplanationIn, IsJsonExplanationFor, IsReasonFor, IsRoomSaid, IsSaid, IsTaskReason, refusals_shown, task_verdict_of, verdict_of};

use crate::excess::{Task, write_excess_words};
use crate::inputs::{own_inputs, task_inputs};
use crate::keeping::{with_kept, write_kept};
use crate::objects::write_object;
use crate::reasons::write_break;
use crate::reported::{Excess, LineBreak, Reported};
use crate::rooms::ReportedRooms;
use crate::runs::explain_runs;
use decision_tasks::DecisionTask;
use fault_text::{Refusals, write_indented};
use history_checker::{TaskVerdict, Verdict};
use io_text::Text;
use room_files::{
    Answer, InputFault, Kinds, Setup, feed_events, is_well, outcome_if, read_blocks, write_task,
    write_verdict,
};
use room_spec::Spec;
use std::alloc::{AllocError, Global};
use transcript::{Event, write_event};

/// Judges an input, and says why.
pub fn explain(alloc: Global, input: &[u8]) -> Result<Answer, InputFault>
    requires { length input.now ≤ most_bytes }
    ensures output { IfOk result (λ answer. IsExplanationFor input.now answer.outcome answer.output) }
    // Memory is allocated for a block, and for the answer to an input that has no fault.
    ensures err { IfErr result (IsFaultOr (MayLackMemory All input.now) (input_says All input.now)) }
{
    match explain_runs(alloc, input)? {
        Some(answer) => Ok(answer),
        None => explain_rooms(alloc, input, false),
    }
}

/// Judges an input, and says why as JSON: an object on a line for each room, in order. Nothing is said of refused blocks.
pub fn explain_json(alloc: Global, input: &[u8]) -> Result<Answer, InputFault>
    requires { length input.now ≤ most_bytes }
    ensures output { IfOk result (λ answer. IsJsonExplanationFor input.now answer.outcome answer.output) }
    ensures err { IfErr result (IsFaultOr (MayLackMemory All input.now) (input_says All input.now)) }
{
    explain_rooms(alloc, input, true)
}

/// Judges an input, and says why, as text or as JSON; and then of each ordinary room whose events are a run that keeps its own task whether the run keeps this one.
pub fn explain_kept(
    alloc: Global,
    input: &[u8],
    json: bool,
    task: &DecisionTask,
) -> Result<Answer, InputFault>
    requires { length input.now ≤ most_bytes }
    ensures output { IfOk result (λ answer. IsKeptExplanation json task.now input.now answer.outcome answer.output) }
    ensures err { IfErr result (IsFaultOr (MayLackMemory All input.now) (input_says All input.now)) }
{
    let (rooms, refusals) = reported_rooms(alloc, input)?;
    let Answer {
        mut output,
        outcome,
    } = answer_of(alloc, input, json, &rooms, &refusals)?;
    let kept = write_kept(alloc, &mut output, json, task, &rooms)?;
    Ok(Answer {
        output,
        outcome: with_kept(outcome, kept),
    })
}

/// The same, with the events of all rooms kept.
fn explain_rooms(alloc: Global, input: &[u8], json: bool) -> Result<Answer, InputFault>
    requires { length input.now ≤ most_bytes }
    ensures output { IfOk result (λ answer. IsExplanationIn json input.now answer.outcome answer.output) }
    ensures err { IfErr result (IsFaultOr (MayLackMemory All input.now) (input_says All input.now)) }
{
    let (rooms, refusals) = reported_rooms(alloc, input)?;
    Ok(answer_of(alloc, input, json, &rooms, &refusals)?)
}

/// The rooms of an input, each with its events, and the refused blocks.
fn reported_rooms(alloc: Global, input: &[u8]) -> Result<(ReportedRooms, Refusals), InputFault>
    requires { length input.now ≤ most_bytes }
    ensures reported { IfOk result (λ reported. AreHeard input.now reported.0 reported.1) }
    ensures err { IfErr result (IsFaultOr (MayLackMemory All input.now) (input_says All input.now)) }
{
    let setup = Setup::new(ReportedRooms::new(alloc), Refusals::new(alloc));
    let (setup, transcript) = read_blocks(alloc, Kinds::All, setup, input)?;
    let Setup {
        mut rooms,
        refused,
        line,
    } = setup;
    feed_events(&mut rooms, line, transcript)?;
    Ok((rooms, refused))
}

/// Appends what is said of the rooms to what is said of the refused blocks.
fn answer_of(
    alloc: Global,
    input: &[u8],
    json: bool,
    rooms: &ReportedRooms,
    refusals: &Refusals,
) -> Result<Answer, AllocError>
    ensures { IfOk result (λ answer. (fed : List FedEvent) → AreReported rooms.now fed →
        IsExplanation json input.now (specs_of rooms.now) (flat_map refusal_line refusals.now) fed answer.outcome answer.output) }
{
    let mut output = Text::new(alloc);
    write_refusals(alloc, &mut output, input, json, refusals)?;
    let mut all_well = refusals.is_empty();
    for reported in rooms.iter() {
        all_well &= write_room(alloc, &mut output, json, reported)?;
    }
    Ok(Answer {
        output,
        outcome: outcome_if(all_well),
    })
}

/// Writes what is said of the refused blocks, in text.
fn write_refusals(
    alloc: Global,
    output: &mut Text,
    input: &[u8],
    json: bool,
    refusals: &Refusals,
) -> Result<(), AllocError>
    ensures { OnOk result (output.new ≡ output.old ++ refusals_shown json input.now refusals.now) }
{
    if json {
        return Ok(());
    }
    refusals.write(alloc, output, input)
}

/// Writes what is said of a room. Gives whether its events are a run that doesn't break its task.
fn write_room(
    alloc: Global,
    output: &mut Text,
    json: bool,
    reported: &Reported,
) -> Result<bool, AllocError>
    ensures { IfOk result (λ well. (fed : List FedEvent) → IsReported fed reported.now → IsRoomSaid json reported.now.spec fed output.old output.new well) }
{
    let reason = reported.why();
    let excess = reported.excess(alloc)?;
    let verdict = verdict_of(reason);
    let task = task_verdict_of(&reported.spec, excess);
    write_said(alloc, output, json, reported, reason, excess)?;
    Ok(is_well(verdict, task))
}

/// Writes what is said of a room whose run breaks there, and its task there, or nowhere.
fn write_said(
    alloc: Global,
    output: &mut Text,
    json: bool,
    reported: &Reported,
    reason: Result<(), LineBreak>,
    excess: Result<(), Excess>,
) -> Result<(), AllocError>
    requires run { IfErr reason (IsLineBreak reported.now) }
    requires task { IfErr excess (IsExcess reported.now) }
    ensures { OnOk result (IsSaid json reported.now reason excess output.old output.new) }
{
    if json {
        return write_object(alloc, output, reported, reason, excess);
    }
    write_text(alloc, output, reported, reason, excess)
}

/// Writes the verdict on a room, and why.
fn write_text(
    alloc: Global,
    output: &mut Text,
    reported: &Reported,
    reason: Result<(), LineBreak>,
    excess: Result<(), Excess>,
) -> Result<(), AllocError>
    requires run { IfErr reason (IsLineBreak reported.now) }
    requires task { IfErr excess (IsExcess reported.now) }
    ensures { OnOk result (IsSaid false reported.now reason excess output.old output.new) }
{
    let verdict = verdict_of(reason);
    let task = task_verdict_of(&reported.spec, excess);
    let name = reported.spec.name();
    write_verdict(output, name, verdict)?;
    write_task(output, name, verdict, task)?;
    write_reasons(alloc, output, reported, reason, excess)?;
    Ok(())
}

/// The verdict on a room whose run breaks there, or nowhere.
fn verdict_of(reason: Result<(), LineBreak>) -> Verdict
    ensures { result ≡ verdict_of reason }
{
    match reason {
        Ok(()) => Verdict::Run,
        Err(broken) => Verdict::Broken(broken.line),
    }
}

/// The verdict on the task of a room that breaks it there, or nowhere, if it has one.
fn task_verdict_of(spec: &Spec, excess: Result<(), Excess>) -> Option<TaskVerdict>
    ensures { result ≡ task_verdict_of spec.now.task excess }
{
    spec.task()?;
    match excess {
        Ok(()) => Some(TaskVerdict::Holds),
        Err(excess) => Some(TaskVerdict::Broken(excess.line)),
    }
}

/// Writes why a room's events are no run, or else why they break its task, if they do.
fn write_reasons(
    alloc: Global,
    output: &mut Text,
    reported: &Reported,
    reason: Result<(), LineBreak>,
    excess: Result<(), Excess>,
) -> Result<(), AllocError>
    requires run { IfErr reason (IsLineBreak reported.now) }
    requires task { IfErr excess (IsExcess reported.now) }
    ensures { OnOk result ((notes : List (List ℕ)) × IsReasonFor reported.now (verdict_of reason) (task_verdict_of reported.now.spec.task excess) notes × (output.new ≡ output.old ++ indented_all notes)) }
{
    match reason {
        Ok(()) => write_excess_if(alloc, output, reported, excess),
        Err(broken) => write_because(alloc, output, reported, broken),
    }
}

/// Writes the line that breaks a room's run, and why it does.
fn write_because(
    alloc: Global,
    output: &mut Text,
    reported: &Reported,
    broken: LineBreak,
) -> Result<(), AllocError>
    requires { IsLineBreak reported.now broken }
    ensures { OnOk result ((notes : List (List ℕ)) × IsBecause reported.now broken.line notes × (output.new ≡ output.old ++ indented_all notes)) }
{
    let event = reported.event(broken.at);
    write_event_line(alloc, output, reported, event)?;
    let own = own_inputs(alloc, &reported.spec)?;
    output.put(b"    ")?;
    write_break(output, own.as_slice(), event, broken.reason, broken.earlier)?;
    output.put(b"\n")
}

/// Writes the line that breaks a room's task, and why it does, if one does.
fn write_excess_if(
    alloc: Global,
    output: &mut Text,
    reported: &Reported,
    excess: Result<(), Excess>,
) -> Result<(), AllocError>
    requires { IfErr excess (IsExcess reported.now) }
    ensures { OnOk result ((notes : List (List ℕ)) × IsTaskReason reported.now (task_verdict_of reported.now.spec.task excess) notes × (output.new ≡ output.old ++ indented_all notes)) }
{
    match excess {
        Ok(()) => Ok(()),
        Err(excess) => write_excess(alloc, output, reported, excess),
    }
}

fn write_excess(
    alloc: Global,
    output: &mut Text,
    reported: &Reported,
    excess: Excess,
) -> Result<(), AllocError>
    requires { IsExcess reported.now excess }
    ensures { OnOk result ((notes : List (List ℕ)) × IsExcessSaid reported.now excess.line notes × (output.new ≡ output.old ++ indented_all notes)) }
{
    let event = reported.event(excess.at);
    write_event_line(alloc, output, reported, event)?;
    let before = reported.decided_before(alloc, excess.at)?;
    let inputs = task_inputs(alloc, &reported.spec)?;
    output.put(b"    ")?;
    let task = Task {
        spec: &reported.spec,
        inputs: inputs.as_slice(),
        most: excess.most,
    };
    write_excess_words(output, &task, event, before.as_slice())?;
    output.put(b"\n")
}

/// Writes an event of a room as a line for people.
pub(crate) fn write_event_line(
    alloc: Global,
    output: &mut Text,
    reported: &Reported,
    event: &Event,
) -> Result<(), AllocError>
    ensures { OnOk result (output.new ≡ output.old ++ indented (event_line reported.now.spec.name event.now)) }
{
    let line = write_event(alloc, reported.spec.name(), event)?;
    write_indented(output, &line)
}
