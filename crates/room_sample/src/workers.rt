//! Runs of a room, by one worker or shared out among threads.
ghost use Rattle.std.specs.Prelude.{◌≡◌, ◌+◌, ◌<◌, ◌≤◌, ◌^◌, IfOk, ⊤};
ghost use Rattle.std.specs.Thread.{IsSync};
ghost use Rattle.room_sample.specs.Parts.{AreCountedFrom, added_all};

use crate::chances::Chances;
use crate::run::run_anew;
use crate::sampling::Plan;
use crate::tally::{Outcome, Tally};
use room_spec::Spec;
use std::alloc::{AllocError, Global};
use std::thread;
use std::thread::Threads;

/// How many schedules are run and counted before it is said how many were.
const A_ROUND: u32 = 1000;

/// How many schedules each of several threads runs and counts in a round; threads are started anew for each round.
const A_SHARE: u32 = 4000;

/// The most threads at the same time.
const MOST_WORKERS: u32 = 16;

/// Schedules of a plan that follow each other, by their places in it.
#[derive(Clone, Copy)]
pub struct Places {
    /// The place of the first one; a plan's first schedule has the place 0.
    pub first: u32,
    /// How many they are.
    pub count: u32,
}

/// Who runs the schedules of a sample and counts their outcomes. The outcomes are the same by each of them.
pub trait Workers {
    ghost use Rattle.std.specs.Prelude.{◌+◌, ◌<◌, ◌≤◌, ◌^◌, IfOk};
    ghost use Rattle.room_sample.specs.Parts.{AreCountedFrom};

    // What it takes to count: of several threads, that they may share what starts them.
    ghost may_count: { Type 0 };

    /// How many schedules of a plan are run before it is said how many were.
    fn round(&self, plan: &Plan) -> u32
        ensures { 1 ≤ result };

    /// Runs a room by the schedules of these places, and counts their outcomes.
    fn count(
        &self,
        alloc: Global,
        spec: &Spec,
        plan: &Plan,
        places: Places,
    ) -> Result<Tally, AllocError>
        requires may { may_count }
        requires fits { places.first + places.count < 2 ^ 32 }
        ensures { IfOk result (AreCountedFrom spec.now plan.now places.first places.count) };
}

/// The caller's thread. It starts no other, whatever number a plan says.
#[derive(Clone, Copy)]
pub struct OneWorker;

impl Workers for OneWorker {
    ghost may_count = { ⊤ };

    fn round(&self, _plan: &Plan) -> u32 {
        A_ROUND
    }

    fn count(
        &self,
        alloc: Global,
        spec: &Spec,
        plan: &Plan,
        places: Places,
    ) -> Result<Tally, AllocError> {
        count_some(alloc, spec, plan, places)
    }
}

/// As many threads as a plan says, which run schedules at the same time.
#[derive_where(Clone, Copy)]
pub struct Threaded<'a, R: Threads + Sync> {
    rt: &'a R,
}

impl<'a, R: Threads + Sync> Threaded<'a, R> {
    /// Threads that are started by `rt`.
    pub fn new(rt: &'a R) -> Threaded<'a, R> {
        Threaded { rt }
    }
}

impl<R: Threads + Sync> Workers for Threaded<'_, R> {
    ghost may_count = { IsSync R.row };

    fn round(&self, plan: &Plan) -> u32 {
        round_of(workers_of(plan))
    }

    fn count(
        &self,
        alloc: Global,
        spec: &Spec,
        plan: &Plan,
        places: Places,
    ) -> Result<Tally, AllocError> {
        count_by_workers(self.rt, alloc, spec, plan, places, workers_of(plan))
    }
}

/// How many threads a plan says, from 1 to 16.
fn workers_of(plan: &Plan) -> u32 {
    plan.workers.clamp(1, MOST_WORKERS)
}

/// How many schedules this many threads run before it is said how many were.
fn round_of(workers: u32) -> u32
    ensures { 1 ≤ result }
{
    if workers <= 1 {
        A_ROUND
    } else {
        A_SHARE.saturating_mul(workers)
    }
}

/// Runs a room by the schedules of these places, and counts their outcomes: by `workers` threads at the same time, an equal part on each. A part for
/// which no thread can be started is run on this one.
#[cycle(workers)]
pub(crate) fn count_by_workers<R: Threads + Sync>(
    rt: &R,
    alloc: Global,
    spec: &Spec,
    plan: &Plan,
    places: Places,
    workers: u32,
) -> Result<Tally, AllocError>
    requires { places.first + places.count < 2 ^ 32 }
    ensures { IfOk result (AreCountedFrom spec.now plan.now places.first places.count) }
{
    if workers <= 1 {
        return count_some(alloc, spec, plan, places);
    }
    let Places { first, count } = places;
    let own = count / workers;
    let (next, left, others) = (first + own, count - own, workers - 1);
    let count_own = move || -> Result<Tally, AllocError>
        requires { first + own < 2 ^ 32 }
        ensures { IfOk result (AreCountedFrom spec.entry.now plan.entry.now first own) }
    { count_some(alloc, spec, plan, Places { first, count: own }) };
    let count_others = move || -> Result<Tally, AllocError>
        requires { next + left < 2 ^ 32 }
        ensures { IfOk result (AreCountedFrom spec.entry.now plan.entry.now next left) }
    {
        let rest = Places {
            first: next,
            count: left,
        };
        count_by_workers(rt, alloc, spec, plan, rest, others)
    };
    let (tally, later) = thread::join(rt, count_own, count_others);
    Ok(both(tally?, later?)?)
}

/// The outcomes of one part and those of the next.
fn both(mut tally: Tally, later: Tally) -> Result<Tally, AllocError>
    ensures { IfOk result (λ all. all ≡ added_all tally later) }
{
    tally.add_all(later)?;
    Ok(tally)
}

/// Runs a room by the schedules of these places, in order, and counts their outcomes. No schedule is kept.
fn count_some(alloc: Global, spec: &Spec, plan: &Plan, places: Places) -> Result<Tally, AllocError>
    requires { places.first + places.count < 2 ^ 32 }
    ensures { IfOk result (AreCountedFrom spec.now plan.now places.first places.count) }
{
    let mut tally = Tally::new(alloc);
    for done in 0..places.count {
        let number = plan.from.wrapping_add(places.first + done);
        let mut chances = Chances::of(plan.seed, number);
        let run = run_anew(alloc, spec, &mut chances, plan.crashes)?;
        let outcome = Outcome {
            times: 1,
            first: number,
        };
        tally.add(run.states, outcome)?;
    }
    Ok(tally)
}
