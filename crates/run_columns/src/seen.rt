//! Atomic steps as they are drawn.
ghost use Rattle.std.specs.Prelude.{◌≡◌, min};
ghost use Rattle.room_steps.specs.Steps.{turn_of};
ghost use Rattle.run_columns.specs.Seen.{kind_of, is_on_snapshot, step_mark, stored_by, word_in, word_of};

use crate::mark::{Step, StepKind};
use room_steps::AtomicStep;
use simulator::{Goal, Line, Move, Turn};
use view_table::Place;

impl Step {
    /// What is drawn of an atomic step of a room with this many memory words.
    pub fn of(step: &AtomicStep, words: usize) -> Step
        ensures { result ≡ step_mark words step.now }
    {
        Step {
            turn: step.turn,
            simulator: small(step.simulator),
            process: small(step.process),
            round: step.round,
            word: word_of(words, step.line, step.place),
            stored: stored_by(step.operation),
            kind: kind_of(step.line, step.operation),
            end: end_of(step.end),
            decision: step.decision,
        }
    }
}

/// A number that is below 256 in each room.
fn small(number: usize) -> u8
    ensures { result ≡ min number 255 }
{
    number.min(255) as u8
}

/// The number that an operation stores, or 0 if it stores none.
fn stored_by(operation: Move) -> u64
    ensures { result ≡ stored_by operation }
{
    match operation {
        Move::Store(_, number) => number,
        _ => 0,
    }
}

/// What a step at this line does. The first step of a turn is an ask if it loads.
fn kind_of(line: Line, operation: Move) -> StepKind
    ensures { result ≡ kind_of line operation }
{
    match line {
        Line::Rest => match operation {
            Move::Load(_) => StepKind::Ask,
            _ => StepKind::StoreWrite,
        },
        Line::Raise => StepKind::CountWrite,
        Line::Snap => StepKind::Snapshot,
        Line::Show => StepKind::Propose,
        Line::Enter => StepKind::Enter,
        Line::Look => StepKind::Look,
        Line::Leave { saw_two: true } => StepKind::Withdraw,
        Line::Leave { saw_two: false } => StepKind::Stand,
        Line::Ask => StepKind::Ask,
        Line::GetView { .. } => StepKind::LoadView,
        Line::GetInput { .. } | Line::Values => StepKind::LoadValue,
        Line::Out { .. } => StepKind::Decide,
    }
}

/// Which word of a snapshot a step at this line is on, if a snapshot takes several.
fn word_of(words: usize, line: Line, place: Place) -> Option<u8>
    ensures { result ≡ word_of words line place }
{
    if words > 1 && is_on_snapshot(line) {
        word_in(place)
    } else {
        None
    }
}

fn is_on_snapshot(line: Line) -> bool
    ensures { result ≡ is_on_snapshot line }
{
    matches!(line, Line::Snap | Line::Show | Line::GetView { .. })
}

fn word_in(place: Place) -> Option<u8>
    ensures { result ≡ word_in place }
{
    match place {
        Place::Memory { word } | Place::View { word, .. } => Some(small(word)),
        Place::Levels { .. } | Place::Value { .. } | Place::Out { .. } => None,
    }
}

/// Whether a step ended its turn, after which this is left to do: an ask for the same snapshot, or for the input, if the turn was quiet.
fn end_of(left: Option<Goal>) -> Turn
    ensures { result ≡ turn_of left }
{
    match left {
        None => Turn::Still,
        Some(Goal::Ask { .. } | Goal::AskInput) => Turn::Quiet,
        Some(_) => Turn::Useful,
    }
}
