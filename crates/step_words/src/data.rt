//! An atomic step as data: the line of its turn, its place, and what the simulation reads in the word there.
ghost use Rattle.std.specs.Prelude.{◌≡◌, ◌<◌, ◌≤◌, IfOk, length};
ghost use Rattle.serde_json.specs.View.{view};
ghost use Rattle.room_spec.specs.Sizes.{memory_words, sizes_in};
ghost use Rattle.view_table.specs.Places.{IsPlace};
ghost use Rattle.step_words.specs.Data.{decides_data, decision_data, first_word, line_word, own_steps_data, access_data, place_data, steps_data, store_word, word_data};
ghost use Rattle.step_words.specs.Lines.{IsStepIn};

use crate::sight::memory_with;
use json_lines::numbers_value;
use level_cells::levels;
use room_spec::Spec;
use room_steps::AtomicStep;
use serde_json::{Value, json};
use sim_memory::step_of;
use simulator::{Line, Move};
use std::alloc::{AllocError, Global};
use view_table::Place;

/// The line of the turn, in a word.
fn line_word(line: Line, operation: Move, round: u8) -> &'static str
    ensures { result.now ≡ line_word line operation round }
{
    match line {
        Line::Rest => first_word(operation, round),
        Line::Raise => "raise",
        Line::Snap => "snap",
        Line::Show => "show",
        Line::Enter => "enter",
        Line::Look => "look",
        Line::Leave { .. } => "leave",
        Line::Ask => "ask",
        Line::GetInput { .. } => "input",
        Line::GetView { .. } => "view",
        Line::Values => "values",
        Line::Out { .. } => "out",
    }
}

/// The first step of a turn asks if it loads, and stores a value if it doesn't.
fn first_word(operation: Move, round: u8) -> &'static str
    ensures { result.now ≡ first_word operation round }
{
    match operation {
        Move::Load(_) => "ask",
        _ => store_word(round),
    }
}

/// A value is stored for a write, or in round 0 as a proposal of an input.
fn store_word(round: u8) -> &'static str
    ensures { result.now ≡ store_word round }
{
    if round == 0 { "propose" } else { "write" }
}

/// The place of a word: its kind, and its numbers by their names.
fn place_value(alloc: Global, place: Place) -> Result<Value, AllocError>
    ensures { IfOk result (λ value. view value ≡ place_data place) }
{
    match place {
        Place::Memory { word } => json!(in alloc; {"kind": "steps", "word": word}),
        Place::Levels { process, round } => {
            json!(in alloc; {"kind": "levels", "process": process, "round": round})
        }
        Place::View {
            simulator: i,
            process,
            round,
            word,
        } => {
            json!(in alloc; {"kind": "view", "process": process, "round": round, "simulator": i, "word": word})
        }
        Place::Value {
            simulator: i,
            process,
            round,
        } => {
            json!(in alloc; {"kind": "value", "process": process, "round": round, "simulator": i})
        }
        Place::Out {
            simulator: i,
            process,
        } => json!(in alloc; {"kind": "out", "process": process, "simulator": i}),
    }
}

/// What the simulation reads in the word at a place: step numbers, levels, a value or a decision.
fn word_value(alloc: Global, spec: &Spec, place: Place, word: u64) -> Result<Value, AllocError>
    requires { IsPlace (sizes_in spec.now) place }
    ensures { IfOk result (λ value. view value ≡ word_data place spec.now word) }
{
    match place {
        Place::Memory { word: at } | Place::View { word: at, .. } => {
            steps_value(alloc, spec, at, word)
        }
        Place::Levels { .. } => numbers_value(alloc, levels(word, spec.m()).as_slice()),
        Place::Value { .. } => Ok(Value::from(word)),
        Place::Out { .. } => Ok(decision_value(word)),
    }
}

/// What a step does, as data: the line of its turn, the place of its word, what the simulation reads there before and after the step, and what its simulator
/// decides by it.
#[tactic(auto, unfolding(crate::specs::Data::access_data))]
pub(crate) fn access_value(
    alloc: Global,
    spec: &Spec,
    step: &AtomicStep,
) -> Result<Value, AllocError>
    requires { IsStepIn spec.now step.now }
    ensures { IfOk result (λ value. view value ≡ access_data spec.now step.now) }
{
    let after = word_value(alloc, spec, step.place, step.after)?;
    let before = word_value(alloc, spec, step.place, step.word)?;
    let line = line_word(step.line, step.operation, step.round);
    let place = place_value(alloc, step.place)?;
    let decides = decides_value(step.decision);
    json!(in alloc; {"after": after, "before": before, "decides": decides, "line": line, "place": place})
}

/// What a step's simulator decides by it, or `null`.
fn decides_value(decision: Option<u32>) -> Value
    ensures { view result ≡ decides_data decision }
{
    match decision {
        None => Value::Null,
        Some(decision) => Value::from(decision),
    }
}

/// The decision that a word has, or `null` for none.
fn decision_value(word: u64) -> Value
    ensures { view result ≡ decision_data word }
{
    if word == 0 {
        Value::Null
    } else {
        Value::from(word - 1)
    }
}

/// The step numbers that a memory word has: for each simulator those for each process, and 0 if another word has them.
fn steps_value(alloc: Global, spec: &Spec, at: usize, word: u64) -> Result<Value, AllocError>
    requires { at < memory_words (sizes_in spec.now) }
    ensures { IfOk result (λ value. view value ≡ steps_data spec.now at word) }
{
    let _words = spec.shape().memory_words(); // for the proof: at most four
    let words = memory_with(at, word);
    let mut rows = Vec::new(alloc);
    for simulator in 0..spec.m() {
        let row = own_steps_value(alloc, spec, &words, simulator)?;
        rows.push(row)?;
    }
    Ok(Value::Array(rows))
}

/// The step numbers of one simulator in these memory words, for each process.
fn own_steps_value(
    alloc: Global,
    spec: &Spec,
    words: &[u64],
    simulator: usize,
) -> Result<Value, AllocError>
    requires words { memory_words (sizes_in spec.now) ≤ length words.now }
    requires simulator { simulator < spec.now.simulators }
    ensures { IfOk result (λ value. view value ≡ own_steps_data spec.now words.now simulator) }
{
    let shape = spec.shape();
    let mut numbers = Vec::new(alloc);
    for process in 0..spec.n() {
        numbers.push(Value::from(step_of(&shape, words, simulator, process)))?;
    }
    Ok(Value::Array(numbers))
}
