//! Makes a schedule short that leads to an outcome.
ghost use Rattle.std.specs.Prelude.{◌≡◌, IfOk, OnOk};
ghost use Rattle.room_sample.specs.Samples.{same_states};
ghost use Rattle.room_sample.specs.Shown.{KeepsOutcome};

use crate::run::run_by;
use crate::stretch::Stretch;
use crate::tally::States;
use room_spec::Spec;
use std::alloc::{AllocError, Global};
use ws_history::ProcessState;

/// How many times all stretches are gone over at most.
const MOST_ROUNDS: u32 = 8;

/// A schedule has fewer than 2 ^ k stretches, for this k.
const MOST_HALVES: u32 = 17;

/// How many times a room is run at most to make one schedule short.
const MOST_TRIES: u32 = 300;

/// What is tried to make a schedule shorter.
#[derive(Clone, Copy)]
enum Cut {
    /// Leave out this number of stretches, from an index on.
    Leave { from: usize, count: usize },
    /// Let one take fewer steps.
    Lower { at: usize, less: u16 },
}

/// How a room ends: the states of its processes once it has settled after a schedule in which at most this many simulators crash.
#[derive(Clone, Copy)]
pub(crate) struct Ending<'a> {
    pub(crate) spec: &'a Spec,
    pub(crate) crashes: u32,
    pub(crate) states: &'a States,
}

/// A short schedule that leads to this ending if the given one does. The room is run at most 300 times for it, and at most `left` times,
/// which are counted down.
///
/// # Errors
///
/// If an allocation fails.
pub(crate) fn shorten(
    alloc: Global,
    ending: &Ending<'_>,
    schedule: &[Stretch],
    left: &mut u32,
) -> Result<Vec<Stretch>, AllocError>
    ensures { IfOk result (λ short. KeepsOutcome ending.now.spec.now ending.now.crashes ending.now.states.now.items schedule.now short.items) }
{
    let mut tries = (*left).min(MOST_TRIES);
    *left = left.saturating_sub(tries);
    let short = shorten_by(alloc, ending, schedule, &mut tries)?;
    *left = left.saturating_add(tries);
    Ok(short)
}

/// A short schedule that leads to this ending if the given one does, made by at most `tries` runs of the room.
fn shorten_by(
    alloc: Global,
    ending: &Ending<'_>,
    schedule: &[Stretch],
    tries: &mut u32,
) -> Result<Vec<Stretch>, AllocError>
    ensures { IfOk result (λ short. KeepsOutcome ending.now.spec.now ending.now.crashes ending.now.states.now.items schedule.now short.items) }
{
    let mut short = copied(alloc, schedule)?;
    let mut is_changed = true;
    for _ in 0..MOST_ROUNDS {
        is_changed = go_over(alloc, ending, &mut short, is_changed, tries)?;
    }
    Ok(short)
}

/// Leaves out and lowers what it can, if the last time changed something. Gives whether it has.
fn go_over(
    alloc: Global,
    ending: &Ending<'_>,
    schedule: &mut Vec<Stretch>,
    is_changed: bool,
    tries: &mut u32,
) -> Result<bool, AllocError>
    ensures { OnOk result (KeepsOutcome ending.now.spec.now ending.now.crashes ending.now.states.now.items schedule.old.items schedule.new.items) }
{
    if !is_changed {
        return Ok(false);
    }
    let before = size_of(schedule.as_slice());
    leave_out(alloc, ending, schedule, tries)?;
    lower_all(alloc, ending, schedule, tries)?;
    Ok(size_of(schedule.as_slice()) != before)
}

fn copied(alloc: Global, schedule: &[Stretch]) -> Result<Vec<Stretch>, AllocError>
    ensures { IfOk result (λ copy. copy.items ≡ schedule.now) }
{
    let mut copy = Vec::new(alloc);
    for stretch in schedule {
        copy.push(*stretch)?;
    }
    Ok(copy)
}

/// How many stretches and how many steps there are.
fn size_of(schedule: &[Stretch]) -> (usize, u64) {
    let mut steps = 0_u64;
    for stretch in schedule {
        steps = steps.saturating_add(u64::from(steps_in(*stretch)));
    }
    (schedule.len(), steps)
}

fn steps_in(stretch: Stretch) -> u16 {
    match stretch {
        Stretch::Steps { count, .. } => count,
        Stretch::Crash { .. } => 0,
    }
}

/// Leaves out all that can be left out: half of the stretches, a quarter, and so on to single ones.
fn leave_out(
    alloc: Global,
    ending: &Ending<'_>,
    schedule: &mut Vec<Stretch>,
    tries: &mut u32,
) -> Result<(), AllocError>
    ensures { OnOk result (KeepsOutcome ending.now.spec.now ending.now.crashes ending.now.states.now.items schedule.old.items schedule.new.items) }
{
    let mut size = schedule.len();
    for _ in 0..MOST_HALVES {
        leave_out_parts(alloc, ending, schedule, size, tries)?;
        size /= 2;
    }
    Ok(())
}

/// Leaves out parts of `size` stretches that can be left out.
fn leave_out_parts(
    alloc: Global,
    ending: &Ending<'_>,
    schedule: &mut Vec<Stretch>,
    size: usize,
    tries: &mut u32,
) -> Result<(), AllocError>
    ensures { OnOk result (KeepsOutcome ending.now.spec.now ending.now.crashes ending.now.states.now.items schedule.old.items schedule.new.items) }
{
    let mut from = 0_usize;
    for _ in 0..MOST_TRIES {
        if from >= schedule.len() {
            return Ok(());
        }
        let cut = Cut::Leave { from, count: size };
        let is_cut = try_cut(alloc, ending, schedule, cut, tries)?;
        from = next_part(from, size, is_cut);
    }
    Ok(())
}

/// Where the next part begins: at the same index if this one was left out, and otherwise after it.
fn next_part(from: usize, size: usize, is_cut: bool) -> usize {
    if is_cut {
        from
    } else {
        from.saturating_add(size.max(1))
    }
}

/// Lets each stretch take as few steps as it can.
fn lower_all(
    alloc: Global,
    ending: &Ending<'_>,
    schedule: &mut Vec<Stretch>,
    tries: &mut u32,
) -> Result<(), AllocError>
    ensures { OnOk result (KeepsOutcome ending.now.spec.now ending.now.crashes ending.now.states.now.items schedule.old.items schedule.new.items) }
{
    for at in 0..schedule.len() {
        lower(alloc, ending, schedule, at, tries)?;
    }
    Ok(())
}

/// Lets one stretch take as few steps as it can: half of them, a quarter less, and so on by single ones.
fn lower(
    alloc: Global,
    ending: &Ending<'_>,
    schedule: &mut Vec<Stretch>,
    at: usize,
    tries: &mut u32,
) -> Result<(), AllocError>
    ensures { OnOk result (KeepsOutcome ending.now.spec.now ending.now.crashes ending.now.states.now.items schedule.old.items schedule.new.items) }
{
    let mut less = steps_at(schedule.as_slice(), at).div_ceil(2);
    for _ in 0..MOST_TRIES {
        if less == 0 {
            return Ok(());
        }
        let cut = Cut::Lower { at, less };
        let is_cut = try_cut(alloc, ending, schedule, cut, tries)?;
        less = next_less(less, is_cut);
    }
    Ok(())
}

/// How many steps less are tried next: as many again if they were taken off, and otherwise half.
fn next_less(less: u16, is_cut: bool) -> u16 {
    if is_cut { less } else { less / 2 }
}

fn steps_at(schedule: &[Stretch], at: usize) -> u16 {
    match schedule.get(at) {
        Some(stretch) => steps_in(*stretch),
        None => 0,
    }
}

/// Takes a cut if the room still ends so, and the schedule gets smaller. Gives whether it has.
fn try_cut(
    alloc: Global,
    ending: &Ending<'_>,
    schedule: &mut Vec<Stretch>,
    cut: Cut,
    tries: &mut u32,
) -> Result<bool, AllocError>
    ensures { OnOk result (KeepsOutcome ending.now.spec.now ending.now.crashes ending.now.states.now.items schedule.old.items schedule.new.items) }
{
    if *tries == 0 {
        return Ok(false);
    }
    *tries -= 1;
    let shorter = cut_out(alloc, schedule.as_slice(), cut)?;
    let run = run_by(
        alloc,
        ending.spec.clone()?,
        ending.crashes,
        shorter.as_slice(),
    )?;
    if size_of(run.schedule.as_slice()) >= size_of(schedule.as_slice()) {
        return Ok(false);
    }
    if !are_same(run.states.as_slice(), ending.states.as_slice()) {
        return Ok(false);
    }
    *schedule = run.schedule;
    Ok(true)
}

/// Whether the processes have the states of another outcome.
fn are_same(one: &[ProcessState], other: &[ProcessState]) -> bool
    ensures { result ≡ same_states one.now other.now }
{
    one == other
}

/// What a cut leaves of a schedule, with steps of one simulator in a row as one stretch.
fn cut_out(alloc: Global, schedule: &[Stretch], cut: Cut) -> Result<Vec<Stretch>, AllocError> {
    let mut left = Vec::new(alloc);
    for at in 0..schedule.len() {
        if !is_left_out(at, cut) {
            join(&mut left, lowered(schedule[at], at, cut))?;
        }
    }
    Ok(left)
}

fn is_left_out(at: usize, cut: Cut) -> bool {
    match cut {
        Cut::Leave { from, count } => at >= from && at - from < count,
        Cut::Lower { .. } => false,
    }
}

fn lowered(stretch: Stretch, at: usize, cut: Cut) -> Stretch {
    match (stretch, cut) {
        (Stretch::Steps { simulator, count }, Cut::Lower { at: here, less }) if at == here => {
            Stretch::Steps {
                simulator,
                count: count.saturating_sub(less),
            }
        }
        _ => stretch,
    }
}

/// Appends a stretch, or joins it to the last one if both are steps of one simulator.
fn join(left: &mut Vec<Stretch>, next: Stretch) -> Result<(), AllocError> {
    let Some(last) = left.pop() else {
        left.push(next)?;
        return Ok(());
    };
    let Some(both) = joined(last, next) else {
        left.push(last)?;
        left.push(next)?;
        return Ok(());
    };
    left.push(both)?;
    Ok(())
}

/// Both as one stretch, if they are steps of one simulator.
fn joined(last: Stretch, next: Stretch) -> Option<Stretch> {
    match (last, next) {
        (
            Stretch::Steps {
                simulator,
                count: first,
            },
            Stretch::Steps {
                simulator: other,
                count: second,
            },
        ) if simulator == other => Some(Stretch::Steps {
            simulator,
            count: first.checked_add(second)?,
        }),
        _ => None,
    }
}
