//! The rooms of a list of specs, opened, and their simulators dealt out to workers.
ghost use Rattle.std.specs.Prelude.{◌≡◌, ◌+◌, ◌<◌, ◌≤◌, ℕ, [], ◌∷◌, ◌++◌, IfOk, OnOk, Some, length, map, replicate, slice_get, List};
ghost use Rattle.std.specs.List.{range_with_len};
ghost use Rattle.room_spec.specs.Rooms.{RoomSpec, fuse_of};
ghost use Rattle.ruled_room.specs.Parts.{RoomName, opening_keeper};
ghost use Rattle.scheduler.specs.Tasks.{AreTasksOf, IsKept, IsOpened, IsTaskOf, away_at, is_here, waiting};

use crate::fuse::Fuse;
use crate::workers::Task;
use arrayvec::ArrayVec;
use room_spec::Spec;
use ruled_room::{Keeper, RuledRoom};
use std::alloc::{AllocError, Global};
use std::collections::VecDeque;
use std::marker::Model;

/// Rooms, each with its keeper at the same place, and a queue of tasks for each worker.
#[derive(Drop)]
pub(crate) struct Opened {
    pub(crate) rooms: Vec<RuledRoom>,
    pub(crate) keepers: Vec<Keeper>,
    pub(crate) queues: Vec<VecDeque<Task>>,
}

/// Rooms that are open, whose simulators are dealt out to workers and have not taken a step.
#[derive(Drop)]
pub struct OpenRooms {
    pub(crate) dealt: Opened,
}

impl Model for OpenRooms {
    ghost use Rattle.std.specs.Prelude.{◌≤◌, List, length, map};
    ghost use Rattle.std.specs.Coded.{codes};
    ghost use Rattle.protocol_lang.specs.Codes.{expression_code};
    ghost use Rattle.room_spec.specs.Rooms.{RoomSpec};
    ghost use Rattle.scheduler.specs.Tasks.{IsOpened};

    // The specs of the rooms, in order.
    ghost Value = { List RoomSpec };

    ghost coded = { Prim.hlevel (codes, expression_code) };

    ghost view = { λ opened. map (λ room. room.spec) opened.dealt.rooms.items };

    ghost invariant = { λ opened.
        IsOpened opened.dealt.rooms.items opened.dealt.keepers.items (map (λ queue. queue.items) opened.dealt.queues.items)
        × (length opened.dealt.queues.items ≤ 16) };
}

/// Opens all rooms, and gives all their simulators away as tasks: in the order of the rooms and then
/// of their numbers, to one worker after the other, going round.
pub(crate) fn open_all(alloc: Global, specs: Vec<Spec>, workers: u8) -> Result<Opened, AllocError>
    requires { 0 < workers }
    ensures specs { IfOk result (λ opened. map (λ room. room.spec) opened.rooms.items ≡ specs.items) }
    ensures opened { IfOk result (λ opened. IsOpened opened.rooms.items opened.keepers.items (map (λ queue. queue.items) opened.queues.items)) }
    ensures workers { IfOk result (λ opened. length opened.queues.items ≡ workers) }
{
    let mut opened = Opened {
        rooms: Vec::with_capacity(alloc, specs.len())?,
        keepers: Vec::with_capacity(alloc, specs.len())?,
        queues: no_tasks(alloc, workers)?,
    };
    let mut next = 0;
    for spec in specs {
        opened.open(alloc, spec, &mut next)?;
    }
    Ok(opened)
}

fn no_tasks(alloc: Global, workers: u8) -> Result<Vec<VecDeque<Task>>, AllocError>
    ensures len { IfOk result (λ queues. length queues.items ≡ workers) }
    ensures empty { IfOk result (λ queues. map (λ queue. queue.items) queues.items ≡ replicate workers []) }
{
    let mut queues = Vec::new(alloc);
    for _ in 0..workers {
        queues.push(VecDeque::new(alloc))?;
    }
    Ok(queues)
}

impl Opened {
    /// Opens one room more. Its first simulator goes to worker `next`.
    fn open(&mut self, alloc: Global, spec: Spec, next: &mut usize) -> Result<(), AllocError>
        requires opened { IsOpened self.old.rooms.items self.old.keepers.items (map (λ queue. queue.items) self.old.queues.items) }
        requires next { next.old < length self.old.queues.items }
        ensures specs { OnOk result (map (λ room. room.spec) self.new.rooms.items ≡ map (λ room. room.spec) self.old.rooms.items ++ spec ∷ []) }
        ensures opened { OnOk result (IsOpened self.new.rooms.items self.new.keepers.items (map (λ queue. queue.items) self.new.queues.items)) }
        ensures next { OnOk result ((next.new < length self.new.queues.items) × (length self.new.queues.items ≡ length self.old.queues.items)) }
    {
        let fuses = fuses_of(&spec);
        let place = self.rooms.len();
        let (room, mut keeper) = RuledRoom::fresh(alloc, spec)?;
        let fresh = NewRoom {
            room: &room,
            place,
            fuses: fuses.as_slice(),
        };
        deal(&mut self.queues, next, &fresh, &mut keeper)?;
        self.rooms.push(room)?;
        self.keepers.push(keeper)?;
        Ok(())
    }
}

fn fuses_of(spec: &Spec) -> ArrayVec<Fuse, 8>
    ensures { result.items ≡ map (fuse_of spec.now.fuses) (range_with_len 0 spec.now.simulators) }
{
    let mut fuses = ArrayVec::new();
    for i in 0..spec.m() {
        fuses.push(fuse_from(spec.fuse(i)));
    }
    fuses
}

fn fuse_from(steps: Option<u32>) -> Fuse
    ensures { result ≡ steps }
{
    match steps {
        Some(steps) => Fuse::after(u64::from(steps)),
        None => Fuse::none(),
    }
}

/// A room whose simulators have not taken a step.
#[derive(Clone, Copy)]
struct NewRoom<'a> {
    room: &'a RuledRoom,
    /// Its place among all rooms.
    place: usize,
    /// When each of its simulators crashes.
    fuses: &'a [Fuse],
}

/// Gives all simulators of a new room away, to one worker after the other.
fn deal(
    queues: &mut Vec<VecDeque<Task>>,
    next: &mut usize,
    fresh: &NewRoom<'_>,
    keeper: &mut Keeper,
) -> Result<(), AllocError>
    requires keeper { keeper.old ≡ opening_keeper fresh.now.room.now }
    requires fuses { fresh.now.fuses.now ≡ map (fuse_of fresh.now.room.now.spec.fuses) (range_with_len 0 fresh.now.room.now.spec.simulators) }
    requires next { next.old < length queues.old.items }
    ensures keeper { OnOk result ((keeper.new.room ≡ fresh.now.room.now) × IsKept keeper.new) }
    ensures next { OnOk result ((next.new < length queues.new.items) × (length queues.new.items ≡ length queues.old.items)) }
    ensures tasks { OnOk result ((rooms : List RoomName) → slice_get rooms fresh.now.place ≡ Some fresh.now.room.now →
        AreTasksOf rooms (map (λ queue. queue.items) queues.old.items) →
        AreTasksOf rooms (map (λ queue. queue.items) queues.new.items)) }
    ensures away { OnOk result ((k i : ℕ) →
        waiting k i (map (λ queue. queue.items) queues.new.items) ≡
        waiting k i (map (λ queue. queue.items) queues.old.items) + away_at fresh.now.place keeper.new.sweeps k i) }
{
    for i in 0..fresh.fuses.len() {
        let simulator = keeper.give(fresh.room, i);
        let task = Task {
            place: fresh.place,
            simulator,
            fuse: fresh.fuses[i],
        };
        put(queues, *next, task)?;
        *next = after(*next, queues.len());
    }
    Ok(())
}

/// Puts a task at the end of a worker's queue.
fn put(queues: &mut Vec<VecDeque<Task>>, worker: usize, task: Task) -> Result<(), AllocError>
    requires { worker < length queues.old.items }
    ensures len { OnOk result (length queues.new.items ≡ length queues.old.items) }
    ensures tasks { OnOk result ((rooms : List RoomName) → IsTaskOf rooms task →
        AreTasksOf rooms (map (λ queue. queue.items) queues.old.items) →
        AreTasksOf rooms (map (λ queue. queue.items) queues.new.items)) }
    ensures count { OnOk result ((k i : ℕ) →
        waiting k i (map (λ queue. queue.items) queues.new.items) ≡
        waiting k i (map (λ queue. queue.items) queues.old.items) + is_here k i task.place task.simulator.number) }
{
    queues[worker].push_back(task)?;
    Ok(())
}

/// The next number below `count`, going round.
fn after(number: usize, count: usize) -> usize
    requires { number < count }
    ensures { result < count }
{
    if number + 1 < count { number + 1 } else { 0 }
}
