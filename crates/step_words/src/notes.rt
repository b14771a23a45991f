//! The lines under a step, as texts of JSON.
ghost use Rattle.std.specs.Prelude.{◌≡◌, IfOk};
ghost use Rattle.serde_json.specs.View.{view};
ghost use Rattle.step_words.specs.Json.{decision_note, effect_note, end_note, notes_data, obstacle_note};

use crate::step::{
    Consequence, write_decision_words, write_effect_words, write_ending, write_unreadable_words,
};
use io_text::Text;
use json_lines::text_value;
use room_steps::AtomicStep;
use serde_json::{Value, json};
use simulator::Goal;
use std::alloc::{AllocError, Global};
use ws_history::{Effect, Unreadable};

/// What takes effect, what the simulator decides, how the turn ended, and why the agreement that it asked about can't be read.
pub(crate) fn notes_value(
    alloc: Global,
    step: &AtomicStep,
    consequence: Consequence,
) -> Result<Value, AllocError>
    ensures { IfOk result (λ value. view value ≡ notes_data step.now consequence) }
{
    let decision = decision_note(alloc, step.simulator, step.decision)?;
    let effect = effect_note(alloc, consequence.effect)?;
    let end = end_note(alloc, step, step.end)?;
    let obstacle = obstacle_note(alloc, consequence.unreadable)?;
    json!(in alloc; {"decision": decision, "effect": effect, "end": end, "obstacle": obstacle})
}

fn decision_note(
    alloc: Global,
    simulator: usize,
    decision: Option<u32>,
) -> Result<Value, AllocError>
    ensures { IfOk result (λ value. view value ≡ decision_note simulator decision) }
{
    let Some(decision) = decision else {
        return Ok(Value::Null);
    };
    let mut words = Text::new(alloc);
    write_decision_words(&mut words, simulator, decision)?;
    text_value(alloc, words.as_bytes())
}

fn effect_note(alloc: Global, effect: Option<Effect>) -> Result<Value, AllocError>
    ensures { IfOk result (λ value. view value ≡ effect_note effect) }
{
    let Some(effect) = effect else {
        return Ok(Value::Null);
    };
    let mut words = Text::new(alloc);
    write_effect_words(&mut words, effect)?;
    text_value(alloc, words.as_bytes())
}

fn end_note(alloc: Global, step: &AtomicStep, end: Option<Goal>) -> Result<Value, AllocError>
    ensures { IfOk result (λ value. view value ≡ end_note step.now end) }
{
    let Some(goal) = end else {
        return Ok(Value::Null);
    };
    let mut words = Text::new(alloc);
    write_ending(&mut words, step, goal)?;
    text_value(alloc, words.as_bytes())
}

fn obstacle_note(alloc: Global, unreadable: Option<Unreadable>) -> Result<Value, AllocError>
    ensures { IfOk result (λ value. view value ≡ obstacle_note unreadable) }
{
    let Some(agreement) = unreadable else {
        return Ok(Value::Null);
    };
    let mut words = Text::new(alloc);
    write_unreadable_words(&mut words, agreement)?;
    text_value(alloc, words.as_bytes())
}
