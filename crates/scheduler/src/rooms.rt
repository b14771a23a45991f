//! All rooms of a list, run by workers.
ghost use Rattle.std.specs.Prelude.{◌≡◌, ◌≢◌, ◌↔◌, ◌⊎◌, ◌<◌, ◌≤◌, ◌++◌, ◌/◌, ℕ, Err, IfErr, IfOk, OnOk, length, map, min};
ghost use Rattle.ws_history.specs.Reports.{IsReportIn};
ghost use Rattle.ws_history.specs.declared.states.Report.{Report as ReportData};
ghost use Rattle.scheduler.specs.Results.{AddsRoomRuns, AreRoomRuns, IsRoomRun, fault_code};
ghost use Rattle.scheduler.specs.Tasks.{AreKept, IsKept, away, away_from};
ghost use Rattle.scheduler.specs.declared.rooms.RunFault.TheVariants.{Workers};
ghost use Rattle.scheduler.specs.declared.rooms.TheConstants.{ROOMS_A_THREAD};

use crate::gate::Gate;
use crate::gathers::Gathers;
use crate::opening::{OpenRooms, Opened, open_all};
use crate::workers::{Course, run_all};
use room_core::RoomCore;
use room_spec::Spec;
use ruled_room::{Gone, Keeper, RuledRoom};
use std::alloc::{AllocError, Global};
use std::sync::Wait;
use std::thread;
use std::thread::Threads;
use thiserror::Error;
use ws_history::Report;

/// Why rooms were not run to their end. They are given up.
#[derive(Clone, Copy, Debug, PartialEq, Eq, Error)]
pub enum RunFault {
    /// The number of workers is not 1 to 16.
    #[error("bad number of workers")]
    Workers,
    /// A worker's thread could not be started.
    #[error("cannot start a worker")]
    Spawn,
    /// An allocation failed.
    #[error("out of memory")]
    OutOfMemory,
}

impl RunFault {
    /// The number by which the fault is named: 50, 51 or 8, in the order of the variants.
    pub fn code(self) -> u16
        ensures { result ≡ fault_code self }
    {
        match self {
            RunFault::Workers => 50,
            RunFault::Spawn => 51,
            RunFault::OutOfMemory => 8,
        }
    }
}

/// A room that was run to its end and settled, and its report.
#[derive(Drop)]
pub struct RoomResult {
    pub core: RoomCore,
    pub report: Report,
}

impl From<AllocError> for RunFault {
    ghost use Rattle.std.specs.Prelude.{◌≡◌};
    ghost use Rattle.scheduler.specs.declared.rooms.RunFault.TheVariants.{OutOfMemory};

    ghost from_gives = { λ _ fault. fault ≡ OutOfMemory };

    fn from(_refused: AllocError) -> RunFault {
        RunFault::OutOfMemory
    }
}

/// Runs a room of each spec, all at the same time, until each simulator has stopped, and settles and
/// reports each.
///
/// The tasks are the simulators of all rooms, in the order of the rooms and then of their numbers; the
/// t-th, counted from 0, goes to worker t modulo their number. Each worker goes round its tasks: a visit
/// passes the gate, with the number of the worker and of its visit, both counted from 0, and then takes
/// a [`turn`](crate::turn) with the fuse that the spec gives the simulator. A task that has stopped is
/// not visited again. Which steps interleave is the threads' affair; whichever do, each result is one
/// that its own spec alone allows.
///
/// Worker 0 works on the calling thread, which has opened the rooms before; each other worker on a thread
/// of its own. When all tasks have stopped, the calling thread takes them back, and then no more threads
/// than there are workers, the calling one among them, close, settle and report the rooms.
///
/// # Errors
///
/// If there are not 1 to 16 workers, which is decided first; where a thread could not be started;
/// an allocation that failed. All rooms are then given up.
pub fn run_rooms<R: Threads + Wait + Sync, G: Gate + Sync>(
    rt: &R,
    alloc: Global,
    specs: Vec<Spec>,
    workers: u8,
    gate: &G,
) -> Result<Vec<RoomResult>, RunFault>
    ensures workers { (result ≡ Err Workers) ↔ ((workers ≡ 0) ⊎ (16 < workers)) }
    // A result for each spec, in order, each by its own spec alone.
    ensures rooms { IfOk result (λ results. AreRoomRuns specs.items results.items) }
{
    let opened = open_rooms(alloc, specs, workers)?;
    let course = Course {
        alloc,
        gate,
        at_once: usize::MAX,
    };
    run_opened(rt, course, opened, Vec::new(alloc))
}

/// Opens a room of each spec, and deals out their simulators to the workers. [`run_opened`] runs them; the rooms of another list can be
/// opened while these run.
///
/// # Errors
///
/// If there are not 1 to 16 workers, which is decided first; an allocation that failed.
pub fn open_rooms(alloc: Global, specs: Vec<Spec>, workers: u8) -> Result<OpenRooms, RunFault>
    ensures workers { (result ≡ Err Workers) ↔ ((workers ≡ 0) ⊎ (16 < workers)) }
    ensures rooms { IfOk result (λ opened. opened ≡ specs.items) }
{
    if workers == 0 || workers > 16 {
        return Err(RunFault::Workers);
    }
    let dealt = open_all(alloc, specs, workers)?;
    Ok(OpenRooms { dealt })
}

/// Runs rooms that are open, as [`run_rooms`] says, and adds the results to those that were gathered before. Each thread that ends
/// rooms gathers their results.
///
/// # Errors
///
/// If a thread could not be started; an allocation that failed. All rooms are then given up.
pub fn run_opened<R: Threads + Wait + Sync, G: Gate + Sync, A: Gathers + Send>(
    rt: &R,
    course: Course<'_, G>,
    opened: OpenRooms,
    gathered: A,
) -> Result<A, RunFault>
    ensures fault { IfErr result (λ fault. fault ≢ Workers) }
    // A result for each room, in order, each by its own spec alone.
    ensures rooms { IfOk result (λ all. AddsRoomRuns opened (A.has_gathered gathered) (A.has_gathered all)) }
{
    let Opened {
        rooms,
        keepers,
        queues,
    } = opened.dealt;
    let workers = queues.len() as u8;
    let keepers = run_all(rt, course, rooms.as_slice(), keepers, queues)?;
    let threads = ending_threads(rooms.len(), workers);
    let stopped = StoppedRooms { rooms, keepers };
    Ok(finish_by(rt, course.alloc, stopped, threads, gathered)?)
}

/// Rooms whose simulators have all stopped, each with its keeper at the same place.
#[derive(Drop)]
struct StoppedRooms {
    rooms: Vec<RuledRoom>,
    keepers: Vec<Keeper>,
}

/// How many rooms a thread ends at least, if more than one does: a thread for a few rooms takes more
/// time than it saves, and memory of its own.
const ROOMS_A_THREAD: usize = 32;

/// How many threads close the rooms: at most one a worker. 0 means the calling thread alone.
fn ending_threads(rooms: usize, workers: u8) -> u8
    ensures { result ≡ min workers (rooms / ROOMS_A_THREAD) }
{
    usize::from(workers).min(rooms / ROOMS_A_THREAD) as u8
}

/// Closes and reports all rooms on `threads` threads, an equal part on each: the last one on this thread, whose results are added to
/// those of the others.
#[cycle(parts)]
fn finish_by<R: Threads + Sync, A: Gathers + Send>(
    rt: &R,
    alloc: Global,
    mut stopped: StoppedRooms,
    threads: u8,
    gathered: A,
) -> Result<A, AllocError>
    requires kept { AreKept stopped.rooms.items stopped.keepers.items }
    requires home { (k i : ℕ) → away stopped.keepers.items k i ≡ 0 }
    ensures { IfOk result (λ all. AddsRoomRuns (map (λ room. room.spec) stopped.rooms.items) (A.has_gathered gathered) (A.has_gathered all)) }
{
    if threads <= 1 {
        return finish_all(alloc, stopped, gathered);
    }
    let others = threads - 1;
    let count = stopped.rooms.len() - stopped.rooms.len() / usize::from(threads);
    let part = cut(&mut stopped, count)?;
    let nothing = A::none(alloc);
    let first = move || -> Result<A, AllocError>
        requires { AreKept stopped.rooms.items stopped.keepers.items × ((k i : ℕ) → away stopped.keepers.items k i ≡ 0) }
        ensures { IfOk result (λ all. AddsRoomRuns (map (λ room. room.spec) stopped.rooms.items) (A.has_gathered gathered) (A.has_gathered all)) }
    { finish_by(rt, alloc, stopped, others, gathered) };
    let last = move || -> Result<A, AllocError>
        requires { AreKept part.rooms.items part.keepers.items × ((k i : ℕ) → away part.keepers.items k i ≡ 0) }
        ensures { IfOk result (λ all. AddsRoomRuns (map (λ room. room.spec) part.rooms.items) (A.has_gathered nothing) (A.has_gathered all)) }
    { finish_all(alloc, part, nothing) };
    let (first, last) = thread::join(rt, first, last);
    let mut all = first?;
    all.add_all(last?)?;
    Ok(all)
}

/// Splits off the rooms from `count` on.
fn cut(stopped: &mut StoppedRooms, count: usize) -> Result<StoppedRooms, AllocError>
    requires count { count ≤ length stopped.old.rooms.items }
    requires kept { AreKept stopped.old.rooms.items stopped.old.keepers.items }
    requires home { (k i : ℕ) → away stopped.old.keepers.items k i ≡ 0 }
    ensures first { OnOk result (AreKept stopped.new.rooms.items stopped.new.keepers.items × ((k i : ℕ) → away stopped.new.keepers.items k i ≡ 0)) }
    ensures others { IfOk result (λ others. AreKept others.rooms.items others.keepers.items × ((k i : ℕ) → away others.keepers.items k i ≡ 0)) }
    ensures specs { IfOk result (λ others.
        map (λ room. room.spec) stopped.old.rooms.items ≡
        map (λ room. room.spec) stopped.new.rooms.items ++ map (λ room. room.spec) others.rooms.items) }
{
    let rooms = stopped.rooms.split_off(count)?;
    let keepers = stopped.keepers.split_off(count)?;
    Ok(StoppedRooms { rooms, keepers })
}

/// Ends each room, one after the other.
fn finish_all<A: Gathers>(
    alloc: Global,
    stopped: StoppedRooms,
    gathered: A,
) -> Result<A, AllocError>
    requires kept { AreKept stopped.rooms.items stopped.keepers.items }
    requires home { (k i : ℕ) → away stopped.keepers.items k i ≡ 0 }
    ensures { IfOk result (λ all. AddsRoomRuns (map (λ room. room.spec) stopped.rooms.items) (A.has_gathered gathered) (A.has_gathered all)) }
{
    let mut all = gathered;
    let mut rooms = stopped.rooms.into_iter();
    let mut keepers = stopped.keepers.into_iter();
    while let Some(room) = rooms.next() {
        let Some(keeper) = keepers.next() else {
            unreachable!() // each room has its keeper
        };
        all.add(alloc, finish(alloc, room, keeper)?)?;
    }
    Ok(all)
}

/// Closes a room whose simulators have all stopped, and settles it.
fn finish(alloc: Global, room: RuledRoom, keeper: Keeper) -> Result<RoomCore, AllocError>
    requires room { keeper.room ≡ room }
    requires kept { IsKept keeper }
    requires home { (i : ℕ) → away_from keeper.sweeps i ≡ 0 }
    // Its report makes it a result of the room's spec.
    ensures { IfOk result (λ core. (report : ReportData) → IsReportIn core report → IsRoomRun room.spec (record { core = core; report = report })) }
{
    let mut core = match room.close(alloc, keeper) {
        Ok(core) => core,
        Err((_, _, Gone::OutOfMemory)) => return Err(AllocError),
        Err((_, _, Gone::StillOut(_))) => unreachable!(), // all have come back
    };
    core.settle();
    Ok(core)
}
