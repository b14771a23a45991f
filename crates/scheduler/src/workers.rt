//! Workers, each of whom goes round its simulators on a thread of its own: the first on the one that asks.
ghost use Rattle.std.specs.Prelude.{◌≡◌, ◌≢◌, ◌+◌, ◌≤◌, ℕ, IfErr, IfOk, OnOk, length, map};
ghost use Rattle.std.specs.List.{All};
ghost use Rattle.scheduler.specs.declared.rooms.RunFault.TheVariants.{Workers};
ghost use Rattle.scheduler.specs.Tasks.{AreKept, AreTasksOf, BringsBack, IsStoppedOf, IsTaskOf, away, brought, is_here, queued, waiting};

use crate::fuse::Fuse;
use crate::gate::Gate;
use crate::rooms::RunFault;
use crate::visiting::{Visits, put_stopped, take_next, visit_all};
use ruled_room::{Keeper, RuledRoom, Simulator, Stop};
use std::alloc::{AllocError, Global};
use std::collections::VecDeque;
use std::snapshot::Snapshot;
use std::sync::Wait;
use std::thread;
use std::thread::{Promise, Scope, Threads};

/// A simulator that is to run, its room's place among all rooms, and when it crashes.
#[derive(Drop)]
pub(crate) struct Task {
    pub(crate) place: usize,
    pub(crate) simulator: Simulator,
    pub(crate) fuse: Fuse,
}

/// A simulator that has stopped.
#[derive(Drop)]
pub(crate) struct Stopped {
    pub(crate) place: usize,
    pub(crate) simulator: Simulator,
    pub(crate) stop: Stop,
}

impl Task {
    pub(crate) fn ended(self, stop: Stop) -> Stopped
        ensures { (result.place ≡ self.place) × (result.simulator ≡ self.simulator) × (result.stop ≡ stop) }
    {
        let Task {
            place,
            simulator,
            fuse: _,
        } = self;
        Stopped {
            place,
            simulator,
            stop,
        }
    }
}

/// How workers go round the simulators of rooms.
#[derive_where(Clone, Copy)]
pub struct Course<'a, G> {
    pub alloc: Global,
    /// What each visit passes.
    pub gate: &'a G,
    /// Of how many rooms at a time a worker takes its tasks; 0 counts as 1. It goes round those of the first rooms until all of them have stopped, then round
    /// those of the next, and so on: the words of a few rooms stay in the processor's cache.
    pub at_once: usize,
}

/// Takes the tasks of the first rooms and goes round them in order, one visit each, until all have stopped; then those of the
/// next rooms, and so on. A visit passes the gate and then takes a turn; a task that has stopped is not visited again.
pub(crate) fn work<G: Gate>(
    course: Course<'_, G>,
    rooms: &[RuledRoom],
    mut tasks: VecDeque<Task>,
    worker: u8,
) -> Result<Vec<Stopped>, AllocError>
    requires { All (λ task. IsTaskOf rooms.now task) tasks.items }
    ensures { IfOk result (λ done. BringsBack rooms.now tasks.items done.items) }
{
    let mut all = Vec::with_capacity(course.alloc, tasks.len())?;
    let mut done = Vec::with_capacity(course.alloc, tasks.len())?;
    let mut visits = Visits::none(course.gate, worker);
    while !tasks.is_empty() {
        take_next(&mut all, &mut tasks, course.at_once)?;
        visit_all(rooms, &mut all, &mut visits);
        put_stopped(&mut done, &mut all)?;
    }
    Ok(done)
}

/// What a worker's thread was given to do.
#[derive(Drop)]
struct Given<'a> {
    rooms: &'a [RuledRoom],
    tasks: Snapshot<VecDeque<Task>>,
}

impl<'a> Promise<Result<Vec<Stopped>, AllocError>> for Given<'a> {
    ghost use Rattle.std.specs.Prelude.{IfOk};
    ghost use Rattle.scheduler.specs.Tasks.{BringsBack};

    ghost kept_by = { λ given result. IfOk result (λ done. BringsBack given.rooms.now given.tasks.value.items done.items) };
}

/// Runs all tasks, each queue by a worker of its own, all at the same time, and brings them back. The first worker has the calling
/// thread, each other one a thread of its own.
pub(crate) fn run_all<R: Threads + Wait + Sync, G: Gate + Sync>(
    rt: &R,
    course: Course<'_, G>,
    rooms: &[RuledRoom],
    keepers: Vec<Keeper>,
    queues: Vec<VecDeque<Task>>,
) -> Result<Vec<Keeper>, RunFault>
    requires kept { AreKept rooms.now keepers.items }
    requires tasks { AreTasksOf rooms.now (map (λ queue. queue.items) queues.items) }
    requires away { (k i : ℕ) → waiting k i (map (λ queue. queue.items) queues.items) ≡ away keepers.items k i }
    requires few { length queues.items ≤ 16 }
    ensures kept { IfOk result (λ keepers. AreKept rooms.now keepers.items) }
    ensures home { IfOk result (λ keepers. (k i : ℕ) → away keepers.items k i ≡ 0) }
    ensures fault { IfErr result (λ fault. fault ≢ Workers) }
{
    let Course {
        alloc,
        gate,
        at_once,
    } = course;
    thread::scope(
        thread::scope_env(),
        rt,
        move |scope| -> Result<Vec<Keeper>, RunFault>
            requires { AreKept rooms.now keepers.items ×
                AreTasksOf rooms.now (map (λ queue. queue.items) queues.items) ×
                ((k i : ℕ) → waiting k i (map (λ queue. queue.items) queues.items) ≡ away keepers.items k i) ×
                (length queues.items ≤ 16) }
            ensures { IfOk result (λ keepers. AreKept rooms.entry.now keepers.items × ((k i : ℕ) → away keepers.items k i ≡ 0)) ×
                IfErr result (λ fault. fault ≢ Workers) }
        {
            let course = Course {
                alloc,
                gate,
                at_once,
            };
            run_within(rt, scope, course, rooms, keepers, queues)
        },
    )
}

fn run_within<'s, E, R: Threads + Sync, G: Gate + Sync>(
    rt: &R,
    scope: &Scope<'s, E>,
    course: Course<'s, G>,
    rooms: &'s [RuledRoom],
    mut keepers: Vec<Keeper>,
    queues: Vec<VecDeque<Task>>,
) -> Result<Vec<Keeper>, RunFault>
    requires kept { AreKept rooms.now keepers.items }
    requires tasks { AreTasksOf rooms.now (map (λ queue. queue.items) queues.items) }
    requires away { (k i : ℕ) → waiting k i (map (λ queue. queue.items) queues.items) ≡ away keepers.items k i }
    requires few { length queues.items ≤ 16 }
    ensures { IfOk result (λ keepers. AreKept rooms.entry.now keepers.items × ((k i : ℕ) → away keepers.items k i ≡ 0)) ×
        IfErr result (λ fault. fault ≢ Workers) }
{
    start_each(rt, scope, course, rooms, keepers.as_mut_slice(), queues)?;
    Ok(keepers)
}

/// Starts a thread for the worker of each queue but the first, the last one first, and then does the
/// first one's work; then joins them, and takes back what they bring.
fn start_each<'s, E, R: Threads + Sync, G: Gate + Sync>(
    rt: &R,
    scope: &Scope<'s, E>,
    course: Course<'s, G>,
    rooms: &'s [RuledRoom],
    keepers: &mut [Keeper],
    mut queues: Vec<VecDeque<Task>>,
) -> Result<(), RunFault>
    requires kept { AreKept rooms.now keepers.old }
    requires tasks { AreTasksOf rooms.now (map (λ queue. queue.items) queues.items) }
    requires away { (k i : ℕ) → waiting k i (map (λ queue. queue.items) queues.items) ≤ away keepers.old k i }
    requires few { length queues.items ≤ 16 }
    ensures kept { OnOk result (AreKept rooms.entry.now keepers.new) }
    ensures away { OnOk result ((k i : ℕ) → away keepers.new k i + waiting k i (map (λ queue. queue.items) queues.items) ≡ away keepers.old k i) }
    ensures fault { IfErr result (λ fault. fault ≢ Workers) }
{
    let Some(tasks) = queues.pop() else {
        return Ok(());
    };
    let worker = queues.len() as u8;
    if worker == 0 {
        let done = work(course, rooms, tasks, worker)?;
        bring_back(rooms, keepers, done);
        return Ok(());
    }
    let Course {
        alloc,
        gate,
        at_once,
    } = course;
    let given = Given {
        rooms,
        tasks: Snapshot::of(&tasks),
    };
    let run = move || -> Result<Vec<Stopped>, AllocError>
        requires { All (λ task. IsTaskOf rooms.now task) tasks.items }
        ensures { IfOk result (λ done. BringsBack rooms.entry.now tasks.items done.items) }
    {
        let course = Course {
            alloc,
            gate,
            at_once,
        };
        work(course, rooms, tasks, worker)
    };
    let Ok(handle) = scope.spawn_with(given, run) else {
        return Err(RunFault::Spawn);
    };
    let others = start_each(rt, scope, course, rooms, keepers, queues);
    let done = handle.join(rt);
    others?;
    bring_back(rooms, keepers, done?);
    Ok(())
}

/// Takes all back to the keepers of their rooms.
pub(crate) fn bring_back(rooms: &[RuledRoom], keepers: &mut [Keeper], mut all: Vec<Stopped>)
    requires kept { AreKept rooms.now keepers.old }
    requires stopped { All (λ one. IsStoppedOf rooms.now one) all.items }
    requires away { (k i : ℕ) → brought k i all.items ≤ away keepers.old k i }
    ensures kept { AreKept rooms.now keepers.new }
    ensures away { (k i : ℕ) → away keepers.new k i + brought k i all.items ≡ away keepers.old k i }
{
    while let Some(one) = all.pop() {
        bring_one(rooms, keepers, one);
    }
}

fn bring_one(rooms: &[RuledRoom], keepers: &mut [Keeper], one: Stopped)
    requires kept { AreKept rooms.now keepers.old }
    requires stopped { IsStoppedOf rooms.now one }
    requires away { 1 ≤ away keepers.old one.place one.simulator.number }
    ensures kept { AreKept rooms.now keepers.new }
    ensures away { (k i : ℕ) → away keepers.new k i + is_here k i one.place one.simulator.number ≡ away keepers.old k i }
{
    let Stopped {
        place,
        simulator,
        stop,
    } = one;
    keepers[place].take_back(&rooms[place], simulator, stop);
}
