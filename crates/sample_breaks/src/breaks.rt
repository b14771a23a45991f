//! By how many schedules of a plan the history of a room breaks a task.
ghost use Rattle.std.specs.Prelude.{◌≡◌, ◌+◌, ◌-◌, ◌<◌, ◌^◌, IfOk};
ghost use Rattle.sample_breaks.specs.Breaks.{AreBreaks, IsFoundOf, IsJudgedBy, Judged, either, noted};

use decision_tasks::{DecisionTask, first_broken};
use room_sample::{Plan, Settled, Stretch, settled_by_number};
use room_spec::Spec;
use run_search::Progress;
use std::alloc::{AllocError, Global};
use ws_history::history;

/// A room whose sampled histories are judged by a task.
#[derive(Clone, Copy)]
pub struct Judging<'a> {
    pub alloc: Global,
    /// The room.
    pub spec: &'a Spec,
    /// How it is sampled.
    pub plan: &'a Plan,
    pub task: &'a DecisionTask,
}

/// A schedule by which the room's history breaks the task.
#[derive(Drop)]
pub struct Broken {
    /// The schedule's number.
    pub number: u32,
    pub schedule: Vec<Stretch>,
}

/// How often a task was broken.
#[derive(Drop)]
pub struct Breaks {
    /// By how many schedules.
    pub times: u32,
    /// The first of them.
    pub first: Option<Broken>,
}

/// Runs the room by each schedule of the plan, one after the other, and judges its history by the task once the room has settled. Reports how many schedules it has tried.
///
/// # Errors
///
/// An allocation that fails.
pub fn count_breaks<P: Progress>(
    judging: &Judging<'_>,
    progress: &mut P,
) -> Result<Breaks, AllocError>
    ensures { IfOk result (AreBreaks judging.now.task.now judging.now.spec.now judging.now.plan.now judging.now.plan.now.schedules) }
{
    let mut breaks = Breaks {
        times: 0,
        first: None,
    };
    for place in 0..judging.plan.schedules {
        progress.reached(u64::from(place));
        breaks = judge_place(judging, place, breaks)?;
    }
    Ok(breaks)
}

/// Judges the history by the schedule of one place more.
fn judge_place(judging: &Judging<'_>, place: u32, breaks: Breaks) -> Result<Breaks, AllocError>
    requires { breaks.times < 2 ^ 32 - 1 }
    ensures { IfOk result (λ now. AreBreaks judging.now.task.now judging.now.spec.now judging.now.plan.now place breaks → AreBreaks judging.now.task.now judging.now.spec.now judging.now.plan.now (place + 1) now) }
{
    let number = judging.plan.from.wrapping_add(place);
    let found = broken_by(judging, number)?;
    Ok(noted(breaks, found))
}

/// The schedule of this number, if the room's history by it breaks the task.
fn broken_by(judging: &Judging<'_>, number: u32) -> Result<Option<Broken>, AllocError>
    ensures { IfOk result (λ found. (run : Judged) × IsJudgedBy judging.now.task.now judging.now.spec.now judging.now.plan.now number run × IsFoundOf run found) }
{
    let Settled { room, schedule } = settled_by_number(
        judging.alloc,
        judging.spec,
        judging.plan,
        number,
    )?;
    let events = history(judging.alloc, &room)?;
    match first_broken(judging.task, room.spec(), events.as_slice()) {
        None => Ok(None),
        Some(_) => Ok(Some(Broken { number, schedule })),
    }
}

/// The count with one schedule more, by which this was found.
fn noted(breaks: Breaks, found: Option<Broken>) -> Breaks
    requires { breaks.times < 2 ^ 32 - 1 }
    ensures { result ≡ noted breaks found }
{
    let Some(broken) = found else {
        return breaks;
    };
    Breaks {
        times: breaks.times + 1,
        first: either(breaks.first, Some(broken)),
    }
}

/// The first of two, if there is one.
fn either(first: Option<Broken>, later: Option<Broken>) -> Option<Broken>
    ensures { result ≡ either first later }
{
    match first {
        Some(first) => Some(first),
        None => later,
    }
}
