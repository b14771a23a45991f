//! A worker's simulators, which stay where they are in memory while it goes round them.
ghost use Rattle.std.specs.Prelude.{◌≡◌, ◌+◌, ◌<◌, ◌≤◌, ◌++◌, true, false, ℕ, None, List, [], OnOk, length, map};
ghost use Rattle.std.specs.List.{All, SwappedAt};
ghost use Rattle.std.specs.List.Sorted.{IsPermutation};
ghost use Rattle.std.specs.Option.{IsSome};
ghost use Rattle.ruled_room.specs.Parts.{RoomName};
ghost use Rattle.scheduler.specs.Tasks.{AreStoppedFrom, IsStoppedOf, IsTaskOf, IsVisitedBy, IsVisitedOf, brought, left_by, left_in_all, one_if, to_visit, visited};

use crate::driving::turn;
use crate::gate::Gate;
use crate::workers::{Stopped, Task};
use ruled_room::{RuledRoom, Stop};
use std::alloc::AllocError;
use std::collections::VecDeque;

/// A simulator that is to run, and why it has stopped once it has.
#[derive(Drop)]
pub(crate) struct Visited {
    pub(crate) task: Task,
    pub(crate) stop: Option<Stop>,
}

/// The visits of a worker.
#[derive(Drop)]
pub(crate) struct Visits<'a, G> {
    /// What each passes.
    gate: &'a G,
    /// The number of the worker.
    worker: u8,
    /// How many there were.
    count: u64,
}

impl<'a, G: Gate> Visits<'a, G> {
    /// None yet of this worker.
    pub(crate) fn none(gate: &'a G, worker: u8) -> Visits<'a, G>
        ensures { (result.worker ≡ worker) × (result.count ≡ 0) }
    {
        Visits {
            gate,
            worker,
            count: 0,
        }
    }

    /// Passes the gate for one more.
    #[inline(always)]
    fn pass(&mut self)
        ensures { (self.new.worker ≡ self.old.worker) × (self.old.count ≤ self.new.count) }
    {
        self.gate.pass(self.worker, self.count);
        self.count = self.count.saturating_add(1);
    }
}

/// Takes the tasks of the next `at_once` rooms off the front, at least one if there are some. None of them has stopped.
pub(crate) fn take_next(
    all: &mut Vec<Visited>,
    tasks: &mut VecDeque<Task>,
    at_once: usize,
) -> Result<(), AllocError>
    ensures taken { OnOk result (all.new.items ++ map to_visit tasks.new.items ≡ all.old.items ++ map to_visit tasks.old.items) }
    ensures some { OnOk result (0 < length tasks.old.items → length tasks.new.items < length tasks.old.items) }
{
    let Some(first) = tasks.front() else {
        return Ok(());
    };
    let end = first.place.saturating_add(at_once);
    while let Some(task) = tasks.pop_front() {
        all.push(Visited { task, stop: None })?;
        if !is_next_before(tasks, end) {
            return Ok(());
        }
    }
    Ok(())
}

/// Whether the next task is of a room before this place.
fn is_next_before(tasks: &VecDeque<Task>, end: usize) -> bool {
    match tasks.front() {
        Some(task) => task.place < end,
        None => false,
    }
}

/// Visits them in rounds, each once in a round and in order, until all have stopped.
pub(crate) fn visit_all<G: Gate>(
    rooms: &[RuledRoom],
    all: &mut Vec<Visited>,
    visits: &mut Visits<'_, G>,
)
    requires { All (λ one. IsVisitedOf rooms.now one) all.old.items }
    ensures visited { All (λ one. IsVisitedOf rooms.now one) all.new.items }
    ensures stopped { AreStoppedFrom 0 all.new.items }
    ensures same { (k i : ℕ) → visited k i all.new.items ≡ visited k i all.old.items }
{
    let mut going = all.len();
    while going > 0 {
        going = go_round(rooms, all.as_mut_slice(), going, visits);
    }
}

/// Visits the first `going` of them once each, in order. Those that go on are put first, in the same order; answers how
/// many they are.
fn go_round<G: Gate>(
    rooms: &[RuledRoom],
    all: &mut [Visited],
    going: usize,
    visits: &mut Visits<'_, G>,
) -> usize
    requires visited { All (λ one. IsVisitedOf rooms.now one) all.old }
    requires going { going ≤ length all.old }
    requires stopped { AreStoppedFrom going all.old }
    ensures visited { All (λ one. IsVisitedOf rooms.now one) all.new }
    ensures going { result ≤ length all.new }
    ensures stopped { AreStoppedFrom result all.new }
    ensures same { (k i : ℕ) → visited k i all.new ≡ visited k i all.old }
    ensures less { left_in_all all.new + result ≤ left_in_all all.old }
{
    let mut kept = 0;
    for at in 0..going {
        if visit(rooms, &mut all[at], visits) {
            put_forward(all, kept, at);
            kept += 1;
        }
    }
    kept
}

/// Exchanges the one at `kept` with the later one at `at`.
fn put_forward(all: &mut [Visited], kept: usize, at: usize)
    requires { (kept ≤ at) × (at < length all.old) }
    ensures moved { IsPermutation all.old all.new }
    ensures swapped { SwappedAt all.old all.new kept at }
{
    if kept < at {
        all.swap(kept, at);
    }
}

/// Lets one take its next turn, if it hasn't stopped. Answers whether it goes on.
fn visit<G: Gate>(rooms: &[RuledRoom], one: &mut Visited, visits: &mut Visits<'_, G>) -> bool
    requires { IsVisitedOf rooms.now one.old }
    ensures visited { IsVisitedOf rooms.now one.new }
    ensures same { (one.new.task.place ≡ one.old.task.place) × (one.new.task.simulator.number ≡ one.old.task.simulator.number) }
    ensures stopped { result ≡ false → IsSome one.new.stop }
    ensures less { left_by one.new.task one.new.stop + one_if result ≤ left_by one.old.task one.old.stop }
{
    if one.stop.is_some() {
        return false;
    }
    one.stop = take_turn(rooms, &mut one.task, visits);
    one.stop.is_none()
}

/// Passes the gate, and lets the simulator of a task take its next turn.
#[inline(always)]
fn take_turn<G: Gate>(
    rooms: &[RuledRoom],
    task: &mut Task,
    visits: &mut Visits<'_, G>,
) -> Option<Stop>
    requires { IsTaskOf rooms.now task.old }
    ensures visited { IsVisitedBy rooms.now task.new result }
    ensures same { (task.new.place ≡ task.old.place) × (task.new.simulator.number ≡ task.old.simulator.number) }
    ensures less { left_by task.new result < left_by task.old None }
{
    visits.pass();
    turn(&mut task.simulator, &rooms[task.place], &task.fuse)
}

/// Puts all of them, which have stopped, to those that stopped before.
pub(crate) fn put_stopped(done: &mut Vec<Stopped>, all: &mut Vec<Visited>) -> Result<(), AllocError>
    requires { AreStoppedFrom 0 all.old.items }
    ensures empty { OnOk result (all.new.items ≡ []) }
    ensures stopped { OnOk result ((rooms : List RoomName) → All (λ one. IsVisitedOf rooms one) all.old.items →
        All (λ one. IsStoppedOf rooms one) done.old.items → All (λ one. IsStoppedOf rooms one) done.new.items) }
    ensures same { OnOk result ((k i : ℕ) → brought k i done.new.items ≡ brought k i done.old.items + visited k i all.old.items) }
{
    while let Some(one) = all.pop() {
        let Some(stop) = one.stop else {
            unreachable!() // all have stopped
        };
        done.push(one.task.ended(stop))?;
    }
    Ok(())
}
