//! What steps do, in words.
ghost use Rattle.std.specs.Prelude.{◌≡◌, ◌++◌, ◌≤◌, IfOk, OnOk};
ghost use Rattle.simulator_lanes.specs.Words.{actor_words, clipped, counted, decision_words, input_verb, input_words, kind_words, process_name, process_round, simulator_name, step_words, stored_words, verb_in, word_words};

use io_text::Text;
use picture_shapes::write_decimal;
use room_spec::Spec;
use run_columns::{Step, StepKind};
use std::alloc::{AllocError, Global};
use step_words::write_counts;

/// Names a process.
///
/// # Errors
///
/// An allocation that fails.
#[tactic(auto, unfolding(crate::specs::Words::process_name))]
pub fn write_process(output: &mut Text, process: u8) -> Result<(), AllocError>
    ensures { OnOk result (output.new ≡ output.old ++ process_name process) }
{
    output.put(b"process ")?;
    write_decimal(output, u64::from(process))
}

/// Names a process and its round.
#[tactic(auto, unfolding(crate::specs::Words::process_round))]
pub(crate) fn write_process_round(
    output: &mut Text,
    process: u8,
    round: u8,
) -> Result<(), AllocError>
    ensures { OnOk result (output.new ≡ output.old ++ process_round process round) }
{
    write_process(output, process)?;
    output.put(b", round ")?;
    write_decimal(output, u64::from(round))
}

/// Names the word of a snapshot that a step is on, if it takes several.
#[tactic(auto, unfolding(crate::specs::Words::word_words))]
fn write_word(output: &mut Text, word: Option<u8>) -> Result<(), AllocError>
    ensures { OnOk result (output.new ≡ output.old ++ word_words word) }
{
    let Some(word) = word else {
        return Ok(());
    };
    output.put(b", word ")?;
    write_decimal(output, u64::from(word))
}

/// Names a simulator.
///
/// # Errors
///
/// An allocation that fails.
#[tactic(auto, unfolding(crate::specs::Words::simulator_name))]
pub fn write_simulator(output: &mut Text, simulator: u8) -> Result<(), AllocError>
    ensures { OnOk result (output.new ≡ output.old ++ simulator_name simulator) }
{
    output.put(b"simulator ")?;
    write_decimal(output, u64::from(simulator))
}

/// Says who takes a step, and what it does.
#[tactic(auto, unfolding(crate::specs::Words::actor_words))]
fn write_actor(output: &mut Text, step: &Step) -> Result<(), AllocError>
    ensures { OnOk result (output.new ≡ output.old ++ actor_words step.now) }
{
    output.put(b": ")?;
    write_simulator(output, step.simulator)?;
    output.put(verb_in(step.round, step.kind))
}

/// What a simulator does in this round, up to the words that say for which process.
fn verb_in(round: u8, kind: StepKind) -> &'static [u8]
    ensures { result.now ≡ verb_in round kind }
{
    if round == 0 {
        input_verb(kind)
    } else {
        kind.verb()
    }
}

/// What a simulator does in round 0, in which a value that is stored is a proposal, and one that is loaded is the input that was chosen.
fn input_verb(kind: StepKind) -> &'static [u8]
    ensures { result.now ≡ input_verb kind }
{
    match kind {
        StepKind::StoreWrite => b" proposes an input for ",
        StepKind::LoadValue => b" loads the chosen input of ",
        _ => kind.verb(),
    }
}

/// Says what a step does, and for which process.
#[tactic(auto, unfolding(crate::specs::Words::kind_words))]
pub(crate) fn write_kind(output: &mut Text, step: &Step) -> Result<(), AllocError>
    ensures { OnOk result (output.new ≡ output.old ++ kind_words step.now) }
{
    write_actor(output, step)?;
    write_process_round(output, step.process, step.round)?;
    write_word(output, step.word)
}

/// Writes what a step stores, if it proposes: an input, or a snapshot in the words of `trace`.
fn write_stored(output: &mut Text, spec: &Spec, step: &Step) -> Result<(), AllocError>
    ensures { OnOk result (output.new ≡ output.old ++ stored_words spec.now step.now) }
{
    if !step.kind.is_same(StepKind::Propose) {
        return write_input(output, step);
    }
    let _words = spec.shape().memory_words(); // for the proof: at most four
    output.put(b":")?;
    write_counts(output, spec, &step.words())
}

/// Writes the input that a step proposes, if it proposes one.
fn write_input(output: &mut Text, step: &Step) -> Result<(), AllocError>
    ensures { OnOk result (output.new ≡ output.old ++ input_words step.now) }
{
    if step.proposes_input() {
        output.put(b":")?;
        output.put_spaced_number(step.stored)
    } else {
        Ok(())
    }
}

/// Writes what the simulator decides by a step, if it does.
#[tactic(auto, unfolding(crate::specs::Words::decision_words))]
fn write_decision(output: &mut Text, decision: Option<u32>) -> Result<(), AllocError>
    ensures { OnOk result (output.new ≡ output.old ++ decision_words decision) }
{
    let Some(decision) = decision else {
        return Ok(());
    };
    output.put(b"; the simulator decides ")?;
    write_decimal(output, u64::from(decision))
}

/// What the step of this number does.
#[tactic(auto, unfolding(crate::specs::Words::step_words))]
pub(crate) fn step_words(
    alloc: Global,
    spec: &Spec,
    number: u64,
    step: &Step,
) -> Result<Text, AllocError>
    ensures { IfOk result (λ words. words ≡ step_words spec.now number step.now) }
{
    let mut words = Text::new(alloc);
    words.put(b"step ")?;
    write_decimal(&mut words, number)?;
    write_kind(&mut words, step)?;
    write_stored(&mut words, spec, step)?;
    write_decision(&mut words, step.decision)?;
    Ok(words)
}

/// As much of a text as there is space for: the first bytes and two full stops, if that is shorter.
///
/// # Errors
///
/// An allocation that fails.
#[tactic(auto, unfolding(crate::specs::Words::clipped))]
pub fn clipped(alloc: Global, most: usize, text: &[u8]) -> Result<Text, AllocError>
    requires { most ≤ 1000 }
    ensures { IfOk result (λ words. words ≡ clipped most text.now) }
{
    let mut words = Text::new(alloc);
    if text.len() <= most + 2 {
        words.put(text)?;
        return Ok(words);
    }
    words.put(&text[..most])?;
    words.put(b"..")?;
    Ok(words)
}

/// Writes a number of things: after it the word for one, or for several.
///
/// # Errors
///
/// An allocation that fails.
#[tactic(auto, unfolding(crate::specs::Words::counted))]
pub fn write_counted(
    output: &mut Text,
    count: u64,
    one: &[u8],
    several: &[u8],
) -> Result<(), AllocError>
    ensures { OnOk result (output.new ≡ output.old ++ counted count one.now several.now) }
{
    write_decimal(output, count)?;
    if count == 1 {
        output.put(one)
    } else {
        output.put(several)
    }
}

/// The name of a simulator.
pub(crate) fn simulator_name(alloc: Global, simulator: u8) -> Result<Text, AllocError>
    ensures { IfOk result (λ words. words ≡ simulator_name simulator) }
{
    let mut words = Text::new(alloc);
    write_simulator(&mut words, simulator)?;
    Ok(words)
}
