//! What is said of a script, a goal and a task, as JSON.
ghost use Rattle.std.specs.Prelude.{◌≡◌, ◌++◌, IfOk, OnOk, map};
ghost use Rattle.serde_json.specs.Data.{array};
ghost use Rattle.serde_json.specs.View.{items_of, view};
ghost use Rattle.json_lines.specs.Lines.{json_line};
ghost use Rattle.view_grade.specs.Grades.{claim_data, claims_data, grade_data};
ghost use Rattle.view_grade.specs.Keeping.{broken_data, found_data, kept_data};

use crate::aim::Aim;
use crate::goal::Claim;
use crate::grader::Grader;
use crate::judging::holds;
use crate::keeper::Broken;
use crate::reaching::{is_kept_reached, is_reached};
use crate::reported::Reported;
use crate::text::{write_shown, write_words};
use io_text::Text;
use json_lines::{entry_value, row_value, text_value, write_line};
use serde_json::{Value, json};
use std::alloc::{AllocError, Global};

/// Writes what is said of a report and a goal, as an object on a line.
pub(crate) fn write_grade_object(
    alloc: Global,
    output: &mut Text,
    aim: &Aim<'_>,
    grader: &Grader,
) -> Result<(), AllocError>
    ensures { OnOk result (output.new ≡ output.old ++ json_line (grade_data aim.now.goal.now aim.now.most (record { last = grader.now.last; moves = grader.now.moves }))) }
{
    let value = grade_value(alloc, aim, grader)?;
    write_line(alloc, output, &value)
}

fn grade_value(alloc: Global, aim: &Aim<'_>, grader: &Grader) -> Result<Value, AllocError>
    ensures { IfOk result (λ value. view value ≡ grade_data aim.now.goal.now aim.now.most (record { last = grader.now.last; moves = grader.now.moves })) }
{
    let claims = claims_value(alloc, &grader.last, aim.goal.claims())?;
    let commands = grader.moves;
    let most = entry_value(aim.most);
    let reached = is_reached(aim, grader);
    json!(in alloc; {"claims": claims, "commands": commands, "most": most, "reached": reached})
}

/// Writes what is said of a report and a goal, and of a task, as an object on a line.
pub(crate) fn write_kept_object(
    alloc: Global,
    output: &mut Text,
    aim: &Aim<'_>,
    grader: &Grader,
    broken: &Option<Broken>,
) -> Result<(), AllocError>
    ensures { OnOk result (output.new ≡ output.old ++ json_line (kept_data aim.now.goal.now aim.now.most (record { last = grader.now.last; moves = grader.now.moves }) broken.now)) }
{
    let value = kept_value(alloc, aim, grader, broken)?;
    write_line(alloc, output, &value)
}

fn kept_value(
    alloc: Global,
    aim: &Aim<'_>,
    grader: &Grader,
    broken: &Option<Broken>,
) -> Result<Value, AllocError>
    ensures { IfOk result (λ value. view value ≡ kept_data aim.now.goal.now aim.now.most (record { last = grader.now.last; moves = grader.now.moves }) broken.now) }
{
    let kept = broken.is_none();
    let reached = is_kept_reached(aim, grader, broken);
    let broken = broken_value(alloc, broken)?;
    let claims = claims_value(alloc, &grader.last, aim.goal.claims())?;
    let commands = grader.moves;
    let most = entry_value(aim.most);
    json!(in alloc; {
        "broken": broken,
        "claims": claims,
        "commands": commands,
        "kept": kept,
        "most": most,
        "reached": reached
    })
}

/// Whether each claim holds, and what the report shows of it; `null` if there is no report.
fn claims_value(
    alloc: Global,
    last: &Option<Reported>,
    claims: &[Claim],
) -> Result<Value, AllocError>
    ensures { IfOk result (λ value. view value ≡ claims_data last.now claims.now) }
{
    match last {
        None => Ok(Value::Null),
        Some(reported) => reported_claims(alloc, reported, claims),
    }
}

fn reported_claims(
    alloc: Global,
    reported: &Reported,
    claims: &[Claim],
) -> Result<Value, AllocError>
    ensures { IfOk result (λ value. view value ≡ array (items_of (map (claim_data reported.now) claims.now))) }
{
    let mut values = Vec::new(alloc);
    for claim in claims {
        values.push(claim_value(alloc, reported, *claim)?)?;
    }
    Ok(Value::Array(values))
}

fn claim_value(alloc: Global, reported: &Reported, claim: Claim) -> Result<Value, AllocError>
    ensures { IfOk result (λ value. view value ≡ claim_data reported.now claim) }
{
    let mut words = Text::new(alloc);
    write_words(&mut words, claim)?;
    let mut shown = Text::new(alloc);
    write_shown(&mut shown, reported, claim.fact)?;
    let words = text_value(alloc, words.as_bytes())?;
    let shown = text_value(alloc, shown.as_bytes())?;
    let is_so = holds(reported, claim);
    json!(in alloc; {"claim": words, "holds": is_so, "shows": shown})
}

/// Where the task isn't kept; `null` if it is kept.
fn broken_value(alloc: Global, broken: &Option<Broken>) -> Result<Value, AllocError>
    ensures { IfOk result (λ value. view value ≡ broken_data broken.now) }
{
    match broken {
        None => Ok(Value::Null),
        Some(broken) => found_value(alloc, broken),
    }
}

/// The command after which the task isn't kept, its room, and what was decided then.
fn found_value(alloc: Global, broken: &Broken) -> Result<Value, AllocError>
    ensures { IfOk result (λ value. view value ≡ found_data broken.now) }
{
    let moment = &broken.moment;
    let decisions = row_value(alloc, moment.decisions.as_slice())?;
    let line = broken.line;
    let process = moment.process as u64;
    let room = text_value(alloc, broken.name.as_slice())?;
    let value = moment.value;
    json!(in alloc; {
        "decisions": decisions,
        "line": line,
        "process": process,
        "room": room,
        "value": value
    })
}
