//! Rooms that workers run at the same time, whose gate holds and counts them. Every schedule passes.
use crate::fixture::{ONE, PAIR, spec, state_of};
use room_spec::{Name, Spec};
use scheduler::{FreeGate, Gate, RoomResult, RunFault, run_rooms};
use std::alloc::Global;
use std::sync::Wait;
use std::sync::atomic::{AtomicU64, Ordering};
use std::test::*;
use std::thread;
use std::thread::Threads;
use transcript::{append_event, read_line, write_event};
use ws_history::Report;

/// How often a gate looks again, and yields, before it gives up.
const PATIENCE: u64 = 1000000;

/// Counts the visits of workers, and holds the first visit of some until a number of visits have come.
#[derive(Drop)]
pub struct Watch {
    /// The workers that are held, each as a bit, and until how many visits have come.
    held: u64,
    awaited: u64,
    visits: AtomicU64,
    /// The workers that have come, each as a bit.
    came: AtomicU64,
    first: AtomicU64,
    second: AtomicU64,
    /// Whether a visit of worker 0 or 1 was not counted in order, or a worker was held in vain.
    wrong: AtomicU64,
}

impl Watch {
    pub fn new(held: u64, awaited: u64) -> Watch {
        Watch {
            held,
            awaited,
            visits: AtomicU64::new(0),
            came: AtomicU64::new(0),
            first: AtomicU64::new(0),
            second: AtomicU64::new(0),
            wrong: AtomicU64::new(0),
        }
    }

    /// Whether just these workers came, each as a bit, and workers 0 and 1 made `first` and `second` visits, each counted from 0.
    pub fn has_seen(&self, came: u64, first: u64, second: u64) -> bool {
        self.has_come(came)
            && self.first.load(Ordering::SeqCst) == first
            && self.second.load(Ordering::SeqCst) == second
    }

    /// Whether just these workers came, each as a bit, and none was held in vain.
    fn has_come(&self, came: u64) -> bool {
        self.wrong.load(Ordering::SeqCst) == 0 && self.came.load(Ordering::SeqCst) == came
    }

    /// Counts a visit, and says whether it was counted in order.
    fn counts(&self, worker: u8, visit: u64) -> bool {
        self.visits.fetch_add(1, Ordering::SeqCst);
        match worker {
            0 => self.first.fetch_add(1, Ordering::SeqCst) == visit,
            1 => self.second.fetch_add(1, Ordering::SeqCst) == visit,
            _ => true,
        }
    }
}

impl Gate for Watch {
    fn pass(&self, worker: u8, visit: u64) {
        let bit = 1u64.checked_shl(u32::from(worker)).unwrap_or(0);
        self.came.fetch_or(bit, Ordering::SeqCst);
        let is_counted = self.counts(worker, visit);
        let is_held = visit == 0 && self.held & bit != 0;
        if !is_counted || is_held && !waits_for(&self.visits, self.awaited) {
            self.wrong.store(1, Ordering::SeqCst);
        }
    }
}

/// Waits until a count is reached, and says whether it was.
fn waits_for(count: &AtomicU64, most: u64) -> bool {
    for _ in 0..PATIENCE {
        if count.load(Ordering::SeqCst) >= most {
            return true;
        }
        thread::yield_now();
    }
    false
}

/// This many rooms of the same text.
fn specs(alloc: Global, text: &str, count: usize) -> Result<Vec<Spec>, Fail> {
    let mut specs = Vec::new(alloc);
    for _ in 0..count {
        specs.push(spec(alloc, text)?)?;
    }
    Ok(specs)
}

/// The results of rooms of one text, as many as the number with it, which these workers run.
fn ran<R: Threads + Wait + Sync, G: Gate + Sync>(
    rt: &R,
    alloc: Global,
    rooms: (&str, usize),
    workers: u8,
    gate: &G,
) -> Result<Vec<RoomResult>, Fail> {
    match run_rooms(rt, alloc, specs(alloc, rooms.0, rooms.1)?, workers, gate) {
        Ok(results) => Ok(results),
        Err(fault) => Err(Fail::from(("no results, but the fault", fault.code()))),
    }
}

/// The lines of a report's history, each of which is read as the event that it is written for.
fn lines(alloc: Global, name: &Name, report: &Report) -> Result<String, Fail> {
    let mut text = String::new(alloc);
    for event in report.history.events() {
        let line = write_event(alloc, name, event)?;
        let (_, found) = read_line(line.as_slice()).ok().ok_or("an event")?;
        if found != *event {
            return Err(Fail::from("the same event"));
        }
        append_event(&mut text, name, event)?;
        text.push_str("\n")?;
    }
    Ok(text)
}

/// The lines of the history of the pair, of which one of two workers was held until the other had reached its second visit.
fn held_pair<R: Threads + Wait + Sync>(rt: &R, alloc: Global, held: u64) -> Result<String, Fail> {
    let gate = Watch::new(held, 3);
    let results = ran(rt, alloc, (PAIR, 1), 2, &gate)?;
    let [result] = results.as_slice() else {
        return Err(Fail::from("one room"));
    };
    if !gate.has_come(3) || !result.report.crashed.is_empty() {
        return Err(Fail::from("no crash, and no worker held in vain"));
    }
    lines(alloc, result.core.spec().name(), &result.report)
}

#[test]
fn one_worker_waits_for_the_other(rt: HostRuntime) -> Result<(), Fail> {
    for (held, wanted) in [
        (
            1,
            "pair 1 write 3\npair 1 snap . 3\npair 1 decide 3\npair 0 write 7\npair 0 snap 7 3\npair 0 decide 3\n",
        ),
        (
            2,
            "pair 0 write 7\npair 0 snap 7 .\npair 0 decide 7\npair 1 write 3\npair 1 snap 7 3\npair 1 decide 3\n",
        ),
    ] {
        let found = held_pair(&rt, rt.alloc(), held)?;
        assert!(rt; found.as_str() == wanted, "{found}");
    }
    Ok(())
}

/// Whether all workers come before any goes on, and each of sixteen rooms has its three events.
fn all_come<R: Threads + Wait + Sync>(
    rt: &R,
    alloc: Global,
    workers: u8,
    all: u64,
) -> Result<bool, Fail> {
    let gate = Watch::new(all, u64::from(workers));
    let results = ran(rt, alloc, (ONE, 16), workers, &gate)?;
    Ok(
        gate.has_come(all)
            && results.len() == 16
            && results.iter().all(|room| is_done(&room.report)),
    )
}

fn is_done(report: &Report) -> bool {
    report.crashed.is_empty() && report.history.events().len() == 3
}

#[test]
fn all_workers_come(rt: HostRuntime) -> Result<(), Fail> {
    for (workers, all) in [(1, 1), (3, 7), (16, 65535)] {
        assert!(rt;
            all_come(&rt, rt.alloc(), workers, all)?,
            "{workers} workers"
        );
    }
    Ok(())
}

/// Simulator 0 crashes in its first turn; simulator 1 takes a turn for each process, and is then idle.
const CRASHING: &str =
    "bgsim 1\nroom pair\ninputs 7 3\nsimulators 2\nrounds 1\nturns 100\ncrash 0 after 4\nprotocol\nfirst input;\nelse decide min;\nend\n";

/// What became of the first simulator of the first of these rooms. `seen` has the workers that came, each as a bit, and the visits of
/// workers 0 and 1.
fn first_after<R: Threads + Wait + Sync>(
    rt: &R,
    alloc: Global,
    rooms: (&str, usize),
    workers: u8,
    seen: (u64, u64, u64),
) -> Result<Option<(u64, u64, bool)>, Fail> {
    let gate = Watch::new(0, 0);
    let results = ran(rt, alloc, rooms, workers, &gate)?;
    if !gate.has_seen(seen.0, seen.1, seen.2) {
        return Err(Fail::from("these visits"));
    }
    match results.first() {
        Some(result) => Ok(state_of(&result.core, 0)),
        None => Ok(None),
    }
}

#[test]
fn workers_go_round_their_simulators(rt: HostRuntime) -> Result<(), Fail> {
    // Each room has one simulator, which takes one turn and is then idle.
    let found = first_after(&rt, rt.alloc(), (ONE, 3), 2, (3, 4, 2))?;
    assert!(rt; found == Some((11, 1, false)));
    // A simulator that has crashed is not visited again.
    let found = first_after(&rt, rt.alloc(), (CRASHING, 1), 1, (1, 4, 0))?;
    assert!(rt; found == Some((4, 1, true)));
    Ok(())
}

/// The code of the fault by which this many rooms are not run, if one comes.
fn refused<R: Threads + Wait + Sync>(
    rt: &R,
    alloc: Global,
    count: usize,
    workers: u8,
) -> Result<Option<u16>, Fail> {
    match run_rooms(rt, alloc, specs(alloc, PAIR, count)?, workers, &FreeGate) {
        Ok(_) => Ok(None),
        Err(fault) => Ok(Some(fault.code())),
    }
}

#[test]
fn numbers_of_workers(rt: HostRuntime) -> Result<(), Fail> {
    for workers in [0, 17, 255] {
        for count in 0..2 {
            assert!(rt; refused(&rt, rt.alloc(), count, workers)? == Some(50));
        }
    }
    assert!(rt; ran(&rt, rt.alloc(), (PAIR, 0), 1, &FreeGate)?.is_empty());
    let codes = (RunFault::Spawn.code(), RunFault::OutOfMemory.code());
    assert!(rt; codes.0 == 51 && codes.1 == 8);
    let texts = format!(in rt.alloc(); "{}, {}", RunFault::Workers, RunFault::OutOfMemory)?;
    assert!(rt; texts.as_str() == "bad number of workers, out of memory");
    Ok(())
}
