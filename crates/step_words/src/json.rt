//! An atomic step as JSON.
ghost use Rattle.std.specs.Prelude.{◌≡◌, ◌++◌, IfOk, OnOk, drop};
ghost use Rattle.serde_json.specs.View.{view};
ghost use Rattle.json_lines.specs.Lines.{json_line};
ghost use Rattle.json_lines.specs.Values.{text_data};
ghost use Rattle.level_cells.specs.Fields.{levels_of};
ghost use Rattle.step_words.specs.Json.{ArePartsOf, agreement_data, agreement_of, effect_data, end_data, object_of, quiet_data, shows_data, simulator_data, simulators_data, step_data, unresolved_data};
ghost use Rattle.step_words.specs.Lines.{IsStepIn};
ghost use Rattle.step_words.specs.Names.{operation_text};

use crate::data::access_value;
use crate::notes::notes_value;
use crate::operation::write_operation;
use crate::sight::write_sight;
use crate::step::{Consequence, NumberedStep};
use io_text::Text;
use json_lines::{text_value, write_line};
use room_spec::Spec;
use room_steps::AtomicStep;
use safe_agreement::resolved_in;
use serde_json::{Value, json};
use simulator::Goal;
use std::alloc::{AllocError, Global};
use view_table::Place;
use ws_history::{Effect, Unreadable};

/// Writes a step as an object, on a line of its own.
pub(crate) fn write_step_object(
    alloc: Global,
    output: &mut Text,
    spec: &Spec,
    numbered: &NumberedStep<'_>,
) -> Result<(), AllocError>
    requires { IsStepIn spec.now numbered.now.step.now }
    ensures { OnOk result (output.new ≡ output.old ++ json_line (step_data spec.now numbered.now.number numbered.now.step.now numbered.now.consequence)) }
{
    let value = step_value(alloc, spec, numbered)?;
    write_line(alloc, output, &value)
}

fn step_value(alloc: Global, spec: &Spec, numbered: &NumberedStep<'_>) -> Result<Value, AllocError>
    requires { IsStepIn spec.now numbered.now.step.now }
    ensures { IfOk result (λ value. view value ≡ step_data spec.now numbered.now.number numbered.now.step.now numbered.now.consequence) }
{
    let parts = parts_of(alloc, spec, numbered.step, numbered.consequence)?;
    let value = object_of(alloc, spec, numbered.number, numbered.step, parts)?;
    Ok(value)
}

/// What is said of a step that is more than a number or a name.
#[derive(Drop)]
struct Parts {
    access: Value,
    agreement: Value,
    effect: Value,
    end: Value,
    notes: Value,
    operation: Value,
    shows: Value,
}

fn parts_of(
    alloc: Global,
    spec: &Spec,
    step: &AtomicStep,
    consequence: Consequence,
) -> Result<Parts, AllocError>
    requires { IsStepIn spec.now step.now }
    ensures { IfOk result (ArePartsOf spec.now step.now consequence) }
{
    Ok(Parts {
        access: access_value(alloc, spec, step)?,
        agreement: agreement_value(alloc, spec, step, consequence.agreement)?,
        effect: effect_value(alloc, consequence.effect)?,
        end: end_value(alloc, step.end, consequence.unreadable)?,
        notes: notes_value(alloc, step, consequence)?,
        operation: operation_value(alloc, spec, step)?,
        shows: shows_value(alloc, spec, step)?,
    })
}

/// The object of a step of which this is said.
fn object_of(
    alloc: Global,
    spec: &Spec,
    number: u64,
    step: &AtomicStep,
    parts: Parts,
) -> Result<Value, AllocError>
    ensures { IfOk result (λ value. view value ≡ object_of spec.now number step.now parts) }
{
    let Parts {
        access,
        agreement,
        effect,
        end,
        notes,
        operation,
        shows,
    } = parts;
    let room = spec.name().as_str();
    let (simulator, process) = (step.simulator, step.process);
    let (turn, round) = (step.turn, step.round);
    json!(in alloc; {
        "access": access,
        "agreement": agreement,
        "effect": effect,
        "end": end,
        "notes": notes,
        "operation": operation,
        "process": process,
        "room": room,
        "round": round,
        "shows": shows,
        "simulator": simulator,
        "step": number,
        "turn": turn
    })
}

/// The agreement whose levels the step is on, if it is on levels.
fn agreement_value(
    alloc: Global,
    spec: &Spec,
    step: &AtomicStep,
    agreement: Option<Unreadable>,
) -> Result<Value, AllocError>
    ensures { IfOk result (λ value. view value ≡ agreement_data step.now.place spec.now step.now.after agreement) }
{
    match step.place {
        Place::Levels { .. } => agreement_of(alloc, spec, step.after, agreement),
        Place::Memory { .. } | Place::View { .. } | Place::Value { .. } | Place::Out { .. } => {
            Ok(Value::Null)
        }
    }
}

/// An agreement by what keeps it from being read, if something does, and else by its levels.
fn agreement_of(
    alloc: Global,
    spec: &Spec,
    word: u64,
    agreement: Option<Unreadable>,
) -> Result<Value, AllocError>
    ensures { IfOk result (λ value. view value ≡ agreement_of agreement (levels_of word spec.now.simulators)) }
{
    match agreement {
        None => simulators_value(alloc, None, resolved_in(word, spec.m()), None),
        Some(agreement) => {
            let Unreadable {
                inside,
                chosen,
                blocker,
            } = agreement;
            simulators_value(alloc, blocker, chosen, Some(inside))
        }
    }
}

fn simulators_value(
    alloc: Global,
    blocker: Option<usize>,
    chosen: Option<usize>,
    inside: Option<usize>,
) -> Result<Value, AllocError>
    ensures { IfOk result (λ value. view value ≡ simulators_data blocker chosen inside) }
{
    let blocker = simulator_value(alloc, blocker)?;
    let chosen = simulator_value(alloc, chosen)?;
    let inside = simulator_value(alloc, inside)?;
    json!(in alloc; {"blocked_by": blocker, "chosen": chosen, "inside": inside})
}

/// What takes effect at the step, if something does.
fn effect_value(alloc: Global, effect: Option<Effect>) -> Result<Value, AllocError>
    ensures { IfOk result (λ value. view value ≡ effect_data effect) }
{
    match effect {
        None => Ok(Value::Null),
        Some(Effect::Write { process, value }) => {
            json!(in alloc; {"event": "write", "process": process, "value": value})
        }
        Some(Effect::Snapshot { process }) => {
            json!(in alloc; {"event": "snap", "process": process})
        }
        Some(Effect::Decision { process, value }) => {
            json!(in alloc; {"event": "decide", "process": process, "value": value})
        }
    }
}

/// How the turn ended, if it has ended; after a quiet one, what keeps the agreement from being read.
fn end_value(
    alloc: Global,
    end: Option<Goal>,
    unreadable: Option<Unreadable>,
) -> Result<Value, AllocError>
    ensures { IfOk result (λ value. view value ≡ end_data end unreadable) }
{
    match end {
        None => Ok(Value::Null),
        Some(Goal::Write { value, .. }) => {
            json!(in alloc; {"state": "writes", "turn": "useful", "value": value})
        }
        Some(Goal::Ask { round }) => quiet_value(alloc, round, unreadable),
        Some(Goal::Propose { value }) => {
            json!(in alloc; {"state": "proposes", "turn": "useful", "value": value})
        }
        Some(Goal::AskInput) => quiet_value(alloc, 0, unreadable),
        Some(Goal::Done) => json!(in alloc; {"state": "decided", "turn": "useful"}),
        Some(Goal::Spent) => json!(in alloc; {"state": "spent", "turn": "useful"}),
    }
}

/// The agreement of this round, which wasn't resolved.
fn quiet_value(
    alloc: Global,
    round: u8,
    unreadable: Option<Unreadable>,
) -> Result<Value, AllocError>
    ensures { IfOk result (λ value. view value ≡ quiet_data round unreadable) }
{
    match unreadable {
        None => unresolved_value(alloc, round, None, None, None),
        Some(agreement) => {
            let Unreadable {
                inside,
                chosen,
                blocker,
            } = agreement;
            unresolved_value(alloc, round, blocker, chosen, Some(inside))
        }
    }
}

fn unresolved_value(
    alloc: Global,
    round: u8,
    blocker: Option<usize>,
    chosen: Option<usize>,
    inside: Option<usize>,
) -> Result<Value, AllocError>
    ensures { IfOk result (λ value. view value ≡ unresolved_data round blocker chosen inside) }
{
    let blocker = simulator_value(alloc, blocker)?;
    let chosen = simulator_value(alloc, chosen)?;
    let inside = simulator_value(alloc, inside)?;
    json!(in alloc; {
        "blocked_by": blocker,
        "chosen": chosen,
        "inside": inside,
        "round": round,
        "state": "unresolved",
        "turn": "quiet"
    })
}

/// A simulator's number, if there is one.
fn simulator_value(alloc: Global, simulator: Option<usize>) -> Result<Value, AllocError>
    ensures { IfOk result (λ value. view value ≡ simulator_data simulator) }
{
    match simulator {
        None => Ok(Value::Null),
        Some(simulator) => json!(in alloc; simulator),
    }
}

/// The operation in words.
fn operation_value(alloc: Global, spec: &Spec, step: &AtomicStep) -> Result<Value, AllocError>
    ensures { IfOk result (λ value. view value ≡ text_data (operation_text spec.now step.now)) }
{
    let mut words = Text::new(alloc);
    write_operation(&mut words, spec, step)?;
    text_value(alloc, words.as_bytes())
}

/// What the word of the step shows, in words.
fn shows_value(alloc: Global, spec: &Spec, step: &AtomicStep) -> Result<Value, AllocError>
    requires { IsStepIn spec.now step.now }
    ensures { IfOk result (λ value. view value ≡ shows_data spec.now step.now) }
{
    let mut words = Text::new(alloc);
    write_sight(&mut words, spec, step)?;
    text_value(alloc, without_first(words.as_bytes()))
}

/// These bytes without the first, if there is one.
fn without_first(bytes: &[u8]) -> &[u8]
    ensures { result.now ≡ drop 1 bytes.now }
{
    match bytes.split_first() {
        Some((_, rest)) => rest,
        None => bytes,
    }
}
