//! The lines of an atomic step.
ghost use Rattle.std.specs.Prelude.{◌≡◌, ◌++◌, OnOk, codes, decimal};
ghost use Rattle.step_words.specs.Lines.{IsStepIn, choice_text, decision_line, decision_text, effect_line, effect_text, end_text, ending_text, here_text, input_text, notes_lines, number_width, obstacle_text, operation_width, outcome_text, step_lines, turn_name, turn_text, turn_width, unreadable_line, unreadable_text};
ghost use Rattle.step_words.specs.Names.{operation_text};
ghost use Rattle.step_words.specs.Pieces.{behind, between, padded};

use crate::operation::write_operation;
use crate::pieces::{pad, write_between, write_digits, write_number};
use crate::sight::write_sight;
use io_text::Text;
use room_spec::Spec;
use room_steps::AtomicStep;
use simulator::{Goal, Line};
use std::alloc::AllocError;
use ws_history::{Effect, Unreadable};

/// What there is to say of a step besides what its own word shows.
#[derive(Clone, Copy)]
pub struct Consequence {
    /// What takes effect at the step, if something does.
    pub effect: Option<Effect>,
    /// What keeps the agreement from being read that the step's turn asked about, if the step ended it quiet.
    pub unreadable: Option<Unreadable>,
    /// What keeps the agreement from being read whose levels the step is on, if it is on levels. Only JSON says it.
    pub agreement: Option<Unreadable>,
}

/// A step, its number over the life of its room, and what follows from it.
#[derive(Drop)]
pub struct NumberedStep<'a> {
    pub number: u64,
    pub step: &'a AtomicStep,
    pub consequence: Consequence,
}

/// The width of the column with the number of a step.
const NUMBER_WIDTH: usize = 5;

/// The width of the column with its turn.
const TURN_WIDTH: usize = 43;

/// The width of the column with its operation.
const OPERATION_WIDTH: usize = 36;

/// Writes the line of an atomic step of a room, after four spaces: its number; its turn, if this
/// is the first step of the turn that is described (`same_turn` is false); its operation; and what its word shows. A second line says
/// what takes effect at the step, if something does; if its simulator decides by it, the next one says so; if the step ends its turn, another one says
/// how the turn ended, and after a quiet turn a last one says why the agreement can't be read.
///
/// # Errors
///
/// An allocation that fails. Parts of the lines may have been written then.
pub fn write_step(
    output: &mut Text,
    spec: &Spec,
    numbered: &NumberedStep<'_>,
    same_turn: bool,
) -> Result<(), AllocError>
    requires { IsStepIn spec.now numbered.now.step.now }
    ensures { OnOk result (output.new ≡ output.old ++ step_lines spec.now numbered.now.number numbered.now.step.now same_turn numbered.now.consequence) }
{
    let step = numbered.step;
    output.put(b"    ")?;
    write_step_number(output, numbered.number)?;
    write_turn(output, step, same_turn)?;
    write_padded_operation(output, spec, step)?;
    write_sight(output, spec, step)?;
    output.put(b"\n")?;
    write_notes(output, step, numbered.consequence)
}

/// Writes what takes effect at the step and what its simulator decides, if something does and it decides, how the turn ended, if it has ended, and why an
/// agreement can't be read.
fn write_notes(
    output: &mut Text,
    step: &AtomicStep,
    consequence: Consequence,
) -> Result<(), AllocError>
    ensures { OnOk result (output.new ≡ output.old ++ notes_lines step.now consequence) }
{
    write_effect(output, consequence.effect)?;
    write_decision(output, step.simulator, step.decision)?;
    write_end(output, step, step.end)?;
    write_unreadable(output, consequence.unreadable)
}

/// Writes what takes effect at the step, if something does.
fn write_effect(output: &mut Text, effect: Option<Effect>) -> Result<(), AllocError>
    ensures { OnOk result (output.new ≡ output.old ++ effect_line effect) }
{
    let Some(effect) = effect else {
        return Ok(());
    };
    output.put(b"         ")?;
    write_effect_words(output, effect)?;
    output.put(b"\n")
}

pub(crate) fn write_effect_words(output: &mut Text, effect: Effect) -> Result<(), AllocError>
    ensures { OnOk result (output.new ≡ output.old ++ effect_text effect) }
{
    match effect {
        Effect::Write { process, value } => write_here(output, process, b" writes", value),
        Effect::Snapshot { process } => write_snapshot(output, process),
        Effect::Decision { process, value } => write_here(output, process, b" decides", value),
    }
}

/// Writes that here a process does this with a value.
fn write_here(output: &mut Text, process: usize, verb: &[u8], value: u32) -> Result<(), AllocError>
    ensures { OnOk result (output.new ≡ output.old ++ here_text process verb.now value) }
{
    write_number(output, b"here: process", process as u64)?;
    write_number(output, verb, u64::from(value))
}

/// Writes whose snapshot it is, if it is one.
fn write_snapshot(output: &mut Text, process: usize) -> Result<(), AllocError>
    ensures { OnOk result (output.new ≡ output.old ++ (codes "here, if proposed and chosen:" ++ behind (codes " the snapshot of process") process)) }
{
    output.put(b"here, if proposed and chosen:")?;
    write_number(output, b" the snapshot of process", process as u64)
}

/// Writes what the simulator decides by the step, if it does.
fn write_decision(
    output: &mut Text,
    simulator: usize,
    decision: Option<u32>,
) -> Result<(), AllocError>
    ensures { OnOk result (output.new ≡ output.old ++ decision_line simulator decision) }
{
    let Some(decision) = decision else {
        return Ok(());
    };
    output.put(b"         ")?;
    write_decision_words(output, simulator, decision)?;
    output.put(b"\n")
}

pub(crate) fn write_decision_words(
    output: &mut Text,
    simulator: usize,
    decision: u32,
) -> Result<(), AllocError>
    ensures { OnOk result (output.new ≡ output.old ++ decision_text simulator decision) }
{
    write_number(output, b"simulator", simulator as u64)?;
    write_number(output, b" decides", u64::from(decision))
}

fn write_step_number(output: &mut Text, number: u64) -> Result<(), AllocError>
    ensures { OnOk result (output.new ≡ output.old ++ padded number_width (decimal number)) }
{
    let from = output.as_bytes().len();
    write_digits(output, number)?;
    pad(output, from, NUMBER_WIDTH)
}

fn write_turn(output: &mut Text, step: &AtomicStep, same_turn: bool) -> Result<(), AllocError>
    ensures { OnOk result (output.new ≡ output.old ++ padded turn_width (turn_text step.now same_turn)) }
{
    let from = output.as_bytes().len();
    write_turn_name(output, step, same_turn)?;
    pad(output, from, TURN_WIDTH)
}

/// Writes whose turn it is, and what it works on, unless it was said before.
fn write_turn_name(output: &mut Text, step: &AtomicStep, said: bool) -> Result<(), AllocError>
    ensures { OnOk result (output.new ≡ output.old ++ turn_text step.now said) }
{
    if said {
        return Ok(());
    }
    write_number(output, b"simulator", step.simulator as u64)?;
    write_number(output, b", turn", step.turn)?;
    write_number(output, b", process", step.process as u64)?;
    write_number(output, b", round", u64::from(step.round))
}

fn write_padded_operation(
    output: &mut Text,
    spec: &Spec,
    step: &AtomicStep,
) -> Result<(), AllocError>
    ensures { OnOk result (output.new ≡ output.old ++ padded operation_width (operation_text spec.now step.now)) }
{
    let from = output.as_bytes().len();
    write_operation(output, spec, step)?;
    pad(output, from, OPERATION_WIDTH)
}

/// Writes how the turn ended, if it has ended.
fn write_end(output: &mut Text, step: &AtomicStep, end: Option<Goal>) -> Result<(), AllocError>
    ensures { OnOk result (output.new ≡ output.old ++ end_text step.now end) }
{
    let Some(goal) = end else {
        return Ok(());
    };
    output.put(b"         ")?;
    write_ending(output, step, goal)?;
    output.put(b"\n")
}

/// Writes how the turn of this last step ended: the input that it loaded, or else what is left to do.
pub(crate) fn write_ending(
    output: &mut Text,
    step: &AtomicStep,
    goal: Goal,
) -> Result<(), AllocError>
    ensures { OnOk result (output.new ≡ output.old ++ ending_text step.now.line step.now goal) }
{
    let process = step.process as u64;
    match step.line {
        Line::GetInput { chosen } => {
            let input = step.word.min(u64::from(u32::MAX));
            write_input(output, process, input, u64::from(chosen))
        }
        _ => write_outcome(output, process, goal),
    }
}

/// Writes the input that a process has from now on, and which simulator's it is.
fn write_input(
    output: &mut Text,
    process: u64,
    input: u64,
    simulator: u64,
) -> Result<(), AllocError>
    ensures { OnOk result (output.new ≡ output.old ++ input_text process input simulator) }
{
    write_number(output, b"useful: process", process)?;
    write_number(output, b" has the input", input)?;
    write_number(output, b" of simulator", simulator)
}

fn write_outcome(output: &mut Text, process: u64, goal: Goal) -> Result<(), AllocError>
    ensures { OnOk result (output.new ≡ output.old ++ outcome_text process goal) }
{
    match goal {
        Goal::Write { value, .. } => write_next(output, process, value),
        Goal::Ask { round } => write_unresolved(output, process, round),
        Goal::Propose { value } => write_proposal(output, process, value),
        Goal::AskInput => write_between(
            output,
            b"quiet: the input of process",
            process,
            b" is not agreed on",
        ),
        Goal::Done => write_between(output, b"useful: process", process, b" has decided"),
        Goal::Spent => write_between(output, b"useful: process", process, b" is spent"),
    }
}

fn write_next(output: &mut Text, process: u64, value: u32) -> Result<(), AllocError>
    ensures { OnOk result (output.new ≡ output.old ++ (behind (codes "useful: process") process ++ between (codes " writes") value (codes " next"))) }
{
    write_number(output, b"useful: process", process)?;
    write_between(output, b" writes", u64::from(value), b" next")
}

fn write_proposal(output: &mut Text, process: u64, value: u32) -> Result<(), AllocError>
    ensures { OnOk result (output.new ≡ output.old ++
        (behind (codes "useful: process") process ++ between (codes " proposes the input") value (codes " next"))) }
{
    write_number(output, b"useful: process", process)?;
    write_between(output, b" proposes the input", u64::from(value), b" next")
}

fn write_unresolved(output: &mut Text, process: u64, round: u8) -> Result<(), AllocError>
    ensures { OnOk result (output.new ≡ output.old ++
        (behind (codes "quiet: the agreement of process") process ++ between (codes ", round") round (codes " is not resolved"))) }
{
    write_number(output, b"quiet: the agreement of process", process)?;
    write_between(output, b", round", u64::from(round), b" is not resolved")
}

/// Writes of an agreement that no simulator can read whose proposal it has chosen, and which simulator is inside.
fn write_unreadable(output: &mut Text, unreadable: Option<Unreadable>) -> Result<(), AllocError>
    ensures { OnOk result (output.new ≡ output.old ++ unreadable_line unreadable) }
{
    let Some(agreement) = unreadable else {
        return Ok(());
    };
    output.put(b"         ")?;
    write_unreadable_words(output, agreement)?;
    output.put(b"\n")
}

pub(crate) fn write_unreadable_words(
    output: &mut Text,
    agreement: Unreadable,
) -> Result<(), AllocError>
    ensures { OnOk result (output.new ≡ output.old ++ unreadable_text agreement) }
{
    write_choice(output, agreement.chosen)?;
    write_obstacle(output, agreement)
}

/// Writes whose proposal is chosen for good, if one is.
fn write_choice(output: &mut Text, chosen: Option<usize>) -> Result<(), AllocError>
    ensures { OnOk result (output.new ≡ output.old ++ choice_text chosen) }
{
    match chosen {
        None => Ok(()),
        Some(simulator) => {
            write_between(output, b"chosen: simulator", simulator as u64, b"'s; ")
        }
    }
}

/// Writes who is inside an agreement, or blocks it for ever.
fn write_obstacle(output: &mut Text, agreement: Unreadable) -> Result<(), AllocError>
    ensures { OnOk result (output.new ≡ output.old ++ obstacle_text agreement.chosen agreement.blocker agreement.inside) }
{
    if let Some(blocker) = agreement.blocker {
        return write_number(output, b"blocked for ever by simulator", blocker as u64);
    }
    let inside = agreement.inside as u64;
    match agreement.chosen {
        None => write_between(output, b"open: simulator", inside, b" is inside"),
        Some(_) => write_between(
            output,
            b"not readable while simulator",
            inside,
            b" is inside",
        ),
    }
}
