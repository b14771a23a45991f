//! What is written of a room, as text or as JSON.
ghost use Rattle.std.specs.Prelude.{◌≡◌, ◌≤◌, ◌-◌, ◌++◌, OnOk, length, take};
ghost use Rattle.std.specs.List.{flat_map};
ghost use Rattle.view_outcomes.specs.Asked.{top_of};
ghost use Rattle.view_outcomes.specs.Shown.{agreed_in, alone_in, common_in, decisions_in, found_shown, head_in, judgement_in, listed_shown, more_in, outcome_in, outcomes_shown, shown_count, taskless_in, too_many_in, unfinished_in, unjudged_in, unsearched_in, vector_in, vector_unjudged_in, vectors_in};

use crate::alone_text::write_alone;
use crate::json::{
    write_agreed_object, write_alone_line, write_decisions_line, write_found_line,
    write_judgement_line, write_outcome_line, write_too_many_object, write_unfinished_object,
    write_unjudged_line, write_unsearched_line, write_vectors_object,
};
use crate::kept_text::{write_judged, write_unsearched};
use crate::listing::{AllOutcomes, Listed};
use crate::search::{Form, SearchedRoom};
use crate::text::{
    write_common, write_head, write_judgement, write_more, write_outcome, write_taskless,
    write_unfinished, write_unjudged,
};
use crate::vector_text::{write_agreed, write_kept_in_runs, write_vector, write_vector_unjudged};
use decision_tasks::DecisionJudgement;
use input_vectors::write_too_many;
use io_text::Text;
use run_search::Judgement;
use std::alloc::AllocError;

// ---- all outcomes

/// Writes what a room's outcomes begin with: in text, how many processes stop at most.
pub fn show_head(
    room: &SearchedRoom<'_>,
    output: &mut Text,
    crashes: usize,
) -> Result<(), AllocError>
    ensures { OnOk result (output.new ≡ output.old ++ head_in room.now.search.now.form room.now.spec.now.name crashes) }
{
    match room.search.form {
        Form::Text => write_head(output, room.spec.name().as_str().as_bytes(), crashes),
        Form::Json => Ok(()),
    }
}

/// Writes all outcomes of the room, or the first ones and how many more there are; then what all have in common, and whether each run keeps the room's task.
pub fn show_found(
    room: &SearchedRoom<'_>,
    output: &mut Text,
    crashes: usize,
    all: &AllOutcomes,
) -> Result<(), AllocError>
    ensures { OnOk result (output.new ≡ output.old ++ found_shown room.now.search.now room.now.spec.now room.now.block.now crashes all.now) }
{
    show_listed(room, output, all.listed.as_slice())?;
    match room.search.form {
        Form::Text => write_common(output, room.spec, room.block, all),
        Form::Json => write_found_line(room, output, crashes, all),
    }
}

/// Writes the first of these outcomes of the room, as many as are asked for, and how many more there are.
fn show_listed(room: &SearchedRoom<'_>, output: &mut Text, all: &[Listed]) -> Result<(), AllocError>
    ensures { OnOk result (output.new ≡ output.old ++ listed_shown room.now.search.now.form room.now.spec.now.name room.now.block.now (top_of room.now.search.now.asked) all.now) }
{
    let count = shown_count(room.search.asked.top(), all.len());
    show_outcomes(room, output, &all[..count])?;
    show_more(room, output, all.len() - count)
}

/// How many outcomes are shown.
fn shown_count(top: Option<u32>, count: usize) -> usize
    ensures value { result ≡ shown_count top count }
    ensures few { result ≤ count }
{
    match top {
        None => count,
        Some(top) => (top as usize).min(count),
    }
}

/// Writes these outcomes, in order.
fn show_outcomes(
    room: &SearchedRoom<'_>,
    output: &mut Text,
    shown: &[Listed],
) -> Result<(), AllocError>
    ensures { OnOk result (output.new ≡ output.old ++ outcomes_shown room.now.search.now.form room.now.spec.now.name room.now.block.now shown.now) }
{
    for one in shown {
        show_outcome(room, output, one)?;
    }
    Ok(())
}

/// Writes, in text, how many more outcomes there are, if there are any.
fn show_more(room: &SearchedRoom<'_>, output: &mut Text, more: usize) -> Result<(), AllocError>
    ensures { OnOk result (output.new ≡ output.old ++ more_in room.now.search.now.form room.now.spec.now.name more) }
{
    match room.search.form {
        Form::Text if more > 0 => write_more(output, room.spec.name().as_str().as_bytes(), more),
        _ => Ok(()),
    }
}

fn show_outcome(room: &SearchedRoom<'_>, output: &mut Text, one: &Listed) -> Result<(), AllocError>
    ensures { OnOk result (output.new ≡ output.old ++ outcome_in room.now.search.now.form room.now.spec.now.name room.now.block.now one.now) }
{
    let name = room.spec.name().as_str();
    match room.search.form {
        Form::Text => write_outcome(output, name.as_bytes(), room.block, one),
        Form::Json => write_outcome_line(room.alloc, output, name, one),
    }
}

/// Writes that the room has more nodes than are searched at most.
pub fn show_unfinished(
    room: &SearchedRoom<'_>,
    output: &mut Text,
    crashes: usize,
) -> Result<(), AllocError>
    ensures { OnOk result (output.new ≡ output.old ++ unfinished_in room.now.search.now.form room.now.spec.now crashes room.now.search.now.nodes) }
{
    match room.search.form {
        Form::Text => write_unfinished(output, room.search.nodes),
        Form::Json => write_unfinished_object(room, output, crashes),
    }
}

// ---- a single outcome

/// Writes a transcript of the outcome of this number in a list, or as JSON that outcome; or, if there is none, how many outcomes there are.
pub fn show_alone(
    room: &SearchedRoom<'_>,
    output: &mut Text,
    number: u32,
    all: &[Listed],
) -> Result<(), AllocError>
    ensures { OnOk result (output.new ≡ output.old ++ alone_in room.now.search.now.form room.now.spec.now.name room.now.block.now number all.now) }
{
    let name = room.spec.name().as_str();
    match room.search.form {
        Form::Text => write_alone(output, name.as_bytes(), room.block, number, all),
        Form::Json => write_alone_line(room.alloc, output, name, number, all),
    }
}

/// Writes, in place of an outcome, that the room has more nodes than are searched at most; in text after the line that a list begins with.
pub fn show_unlisted(
    room: &SearchedRoom<'_>,
    output: &mut Text,
    crashes: usize,
) -> Result<(), AllocError>
    ensures { OnOk result (output.new ≡ output.old ++ (head_in room.now.search.now.form room.now.spec.now.name crashes ++ unfinished_in room.now.search.now.form room.now.spec.now crashes room.now.search.now.nodes)) }
{
    show_head(room, output, crashes)?;
    show_unfinished(room, output, crashes)
}

// ---- only the task

/// Writes that the room has no task.
pub fn show_taskless(room: &SearchedRoom<'_>, output: &mut Text) -> Result<(), AllocError>
    ensures { OnOk result (output.new ≡ output.old ++ taskless_in room.now.search.now.form room.now.spec.now room.now.search.now.nodes) }
{
    match room.search.form {
        Form::Text => write_taskless(output, room.spec.name().as_str().as_bytes()),
        Form::Json => write_unjudged_line(room, output),
    }
}

/// Writes that each run keeps the room's task; or a run that breaks it.
pub fn show_judgement(
    room: &SearchedRoom<'_>,
    output: &mut Text,
    judgement: &Judgement,
) -> Result<(), AllocError>
    ensures { OnOk result (output.new ≡ output.old ++ judgement_in room.now.search.now.form room.now.spec.now room.now.block.now room.now.search.now.nodes judgement.now) }
{
    match room.search.form {
        Form::Text => {
            let name = room.spec.name().as_str().as_bytes();
            write_judgement(output, name, room.block, judgement)
        }
        Form::Json => write_judgement_line(room, output, false, judgement),
    }
}

/// Writes that no run that was searched breaks the room's task, and that the room has more nodes than are searched at most.
pub fn show_unjudged(room: &SearchedRoom<'_>, output: &mut Text) -> Result<(), AllocError>
    ensures { OnOk result (output.new ≡ output.old ++ unjudged_in room.now.search.now.form room.now.spec.now room.now.search.now.nodes) }
{
    match room.search.form {
        Form::Text => {
            let name = room.spec.name().as_str().as_bytes();
            write_unjudged(output, name, room.search.nodes)
        }
        Form::Json => write_unjudged_line(room, output),
    }
}

// ---- all vectors of inputs

/// Writes what a room with these inputs, which its block says, is judged to be.
pub fn show_vector(
    room: &SearchedRoom<'_>,
    output: &mut Text,
    inputs: &[u32],
    judgement: &Judgement,
) -> Result<(), AllocError>
    ensures { OnOk result (output.new ≡ output.old ++ vector_in room.now.search.now.form room.now.search.now.brief room.now.spec.now room.now.block.now inputs.now room.now.search.now.nodes judgement.now) }
{
    match room.search.form {
        Form::Text => write_vector(output, room, inputs, judgement),
        Form::Json => write_judgement_line(room, output, room.search.brief, judgement),
    }
}

/// Writes that no run that was searched breaks the task of a room with these inputs, and that it has more nodes than are searched at most.
pub fn show_vector_unjudged(
    room: &SearchedRoom<'_>,
    output: &mut Text,
    inputs: &[u32],
) -> Result<(), AllocError>
    ensures { OnOk result (output.new ≡ output.old ++ vector_unjudged_in room.now.search.now.form room.now.spec.now inputs.now room.now.search.now.nodes) }
{
    match room.search.form {
        Form::Text => {
            let name = room.spec.name().as_str().as_bytes();
            write_vector_unjudged(output, name, inputs, room.search.nodes)
        }
        Form::Json => write_unjudged_line(room, output),
    }
}

/// Writes for how many of how many vectors of these values each run keeps the room's task.
pub fn show_vectors(
    room: &SearchedRoom<'_>,
    output: &mut Text,
    values: &[u32],
    kept: usize,
    count: usize,
) -> Result<(), AllocError>
    ensures { OnOk result (output.new ≡ output.old ++ vectors_in room.now.search.now.form room.now.spec.now room.now.search.now.nodes values.now kept count) }
{
    match room.search.form {
        Form::Text => {
            let name = room.spec.name().as_str().as_bytes();
            write_kept_in_runs(output, name, kept, count)
        }
        Form::Json => write_vectors_object(room, output, values, kept, count),
    }
}

/// Writes that there are more vectors of these values than a room is judged with.
pub fn show_too_many(
    room: &SearchedRoom<'_>,
    output: &mut Text,
    values: &[u32],
) -> Result<(), AllocError>
    ensures { OnOk result (output.new ≡ output.old ++ too_many_in room.now.search.now.form room.now.spec.now room.now.search.now.nodes values.now) }
{
    match room.search.form {
        Form::Text => {
            let name = room.spec.name().as_str().as_bytes();
            write_too_many(output, name, values.len())
        }
        Form::Json => write_too_many_object(room, output, values),
    }
}

/// Writes with what that is said of a reduction from these inputs begins.
pub fn show_agreed(
    room: &SearchedRoom<'_>,
    output: &mut Text,
    inputs: &[u32],
) -> Result<(), AllocError>
    ensures { OnOk result (output.new ≡ output.old ++ agreed_in room.now.search.now.form room.now.spec.now.name inputs.now) }
{
    match room.search.form {
        Form::Text => {
            let name = room.spec.name().as_str().as_bytes();
            write_agreed(output, name, inputs)
        }
        Form::Json => write_agreed_object(room, output, inputs),
    }
}

// ---- a task of one's own

/// Writes whether each run keeps a task of one's own; or which process breaks it, and in which run.
pub fn show_decisions(
    room: &SearchedRoom<'_>,
    output: &mut Text,
    judgement: &DecisionJudgement,
) -> Result<(), AllocError>
    ensures { OnOk result (output.new ≡ output.old ++ decisions_in room.now.search.now.form room.now.spec.now room.now.block.now room.now.search.now.nodes judgement.now) }
{
    match room.search.form {
        Form::Text => {
            let name = room.spec.name().as_str().as_bytes();
            write_judged(output, name, room.block, judgement)
        }
        Form::Json => write_decisions_line(room, output, judgement),
    }
}

/// Writes that the room has more nodes than are searched at most.
pub fn show_unsearched(room: &SearchedRoom<'_>, output: &mut Text) -> Result<(), AllocError>
    ensures { OnOk result (output.new ≡ output.old ++ unsearched_in room.now.search.now.form room.now.spec.now room.now.search.now.nodes) }
{
    match room.search.form {
        Form::Text => {
            let name = room.spec.name().as_str().as_bytes();
            write_unsearched(output, name, room.search.nodes)
        }
        Form::Json => write_unsearched_line(room, output),
    }
}
