//! At which step each event of a process takes effect, as far as the steps of its room show it.
ghost use Rattle.std.specs.Prelude.{◌≡◌, IfOk, Some};
ghost use Rattle.run_columns.specs.Effects.{by_any, chosen, column_of, event_step, first_in, first_step, from_end, last_word, least, read_step, reads_by, round_at, with_kept};

use crate::column::Column;
use crate::mark::{Mark, StepKind};
use crate::sought::{Sought, column_at};
use std::alloc::{AllocError, Global};
use transcript::Event;

/// The column that shows the step with this many steps before it; `None` if there is no such step, or if no column shows it.
pub fn column_of(columns: &[Column], step: Option<u64>) -> Option<Column>
    ensures { result ≡ column_of columns.now step }
{
    match step {
        None => None,
        Some(step) => column_at(step, columns),
    }
}

/// The round of an event, after this round of its process.
pub fn round_at(round: u8, event: &Event) -> u8
    ensures { result ≡ round_at round event.now }
{
    match event {
        Event::Write { .. } => round.saturating_add(1),
        Event::Snap { .. } | Event::Decide { .. } => round,
    }
}

/// How many steps were taken before that at which an event of this round takes effect, in a room with this many memory words.
///
/// # Errors
///
/// If an allocation fails.
pub fn event_step(
    alloc: Global,
    words: u8,
    marks: &[Mark],
    round: u8,
    event: &Event,
) -> Result<Option<u64>, AllocError>
    ensures { IfOk result (λ step. step ≡ event_step words marks.now round event.now) }
{
    match event {
        Event::Write { p, .. } => first_step(alloc, StepKind::CountWrite, *p, round, marks),
        Event::Snap { p, .. } => read_step(alloc, words, *p, round, marks),
        Event::Decide { p, .. } => first_step(alloc, StepKind::Decide, *p, round, marks),
    }
}

pub(crate) fn by_any(kind: StepKind, process: u8, round: u8) -> Sought
    ensures { result ≡ by_any kind process round }
{
    Sought {
        kind,
        process,
        round,
        simulator: None,
        word: None,
    }
}

fn first_step(
    alloc: Global,
    kind: StepKind,
    process: u8,
    round: u8,
    marks: &[Mark],
) -> Result<Option<u64>, AllocError>
    ensures { IfOk result (λ step. step ≡ first_step kind process round marks.now) }
{
    let steps = by_any(kind, process, round).steps(alloc, marks)?;
    Ok(first_in(&steps))
}

fn first_in(steps: &[u64]) -> Option<u64>
    ensures { result ≡ first_in steps.now }
{
    let Some((first, _)) = steps.split_first() else {
        return None;
    };
    Some(*first)
}

/// The last step, if `back` is 0, or the one this many before it.
#[tactic(auto, using(std::proofs::lemmas::List::get_or_default))]
fn from_end(back: usize, steps: &[u64]) -> Option<u64>
    ensures { result ≡ from_end back steps.now }
{
    if back < steps.len() {
        Some(steps[steps.len() - 1 - back])
    } else {
        None
    }
}

/// The least simulator that left this agreement with its proposal kept.
pub(crate) fn chosen(process: u8, round: u8, marks: &[Mark]) -> Option<u8>
    ensures { result ≡ chosen process round marks.now }
{
    let kept = by_any(StepKind::Stand, process, round);
    let mut chosen = None;
    for mark in marks {
        chosen = with_kept(kept, chosen, *mark);
    }
    chosen
}

fn with_kept(kept: Sought, so_far: Option<u8>, mark: Mark) -> Option<u8>
    ensures { result ≡ with_kept kept so_far mark }
{
    if kept.is_at(mark) {
        Some(least(so_far, mark.simulator()))
    } else {
        so_far
    }
}

fn least(other: Option<u8>, simulator: u8) -> u8
    ensures { Some result ≡ least other simulator }
{
    match other {
        None => simulator,
        Some(other) => other.min(simulator),
    }
}

/// The end of the chosen simulator's collect at which its proposal was read: the last, or if there are several words the one before it.
fn read_step(
    alloc: Global,
    words: u8,
    process: u8,
    round: u8,
    marks: &[Mark],
) -> Result<Option<u64>, AllocError>
    ensures { IfOk result (λ step. step ≡ read_step words process round marks.now (chosen process round marks.now)) }
{
    let Some(simulator) = chosen(process, round, marks) else {
        return Ok(None);
    };
    let reads = reads_by(words, simulator, process, round).steps(alloc, marks)?;
    let back = if words <= 1 { 0 } else { 1 };
    Ok(from_end(back, &reads))
}

fn reads_by(words: u8, simulator: u8, process: u8, round: u8) -> Sought
    ensures { result ≡ reads_by words simulator process round }
{
    Sought {
        kind: StepKind::Snapshot,
        process,
        round,
        simulator: Some(simulator),
        word: last_word(words),
    }
}

fn last_word(words: u8) -> Option<u8>
    ensures { result ≡ last_word words }
{
    if words <= 1 { None } else { Some(words - 1) }
}
