//! Rooms that workers run, and their reports.
ghost use Rattle.std.specs.Prelude.{◌≡◌, ◌≢◌, ◌↔◌, ◌⊎◌, ◌<◌, ◌≤◌, [], ◌++◌, Err, IfErr, IfOk, OnOk, length};
ghost use Rattle.scheduler.specs.Results.{AddsRoomRuns};
ghost use Rattle.scheduler.specs.declared.rooms.RunFault.TheVariants.{Workers};
ghost use Rattle.io_text.specs.Reading.{most_bytes};
ghost use Rattle.bgsim_console.specs.Run.{AddsReports, AreWorkers, IsRunFor, MayEndRun};

use crate::fault::IoFault;
use indexmap::map::IntoValues;
use io_text::Text;
use report_text::{EventLines, write_room};
use room_core::RoomCore;
use room_files::{Answer, Kinds, Setup, SpecList, outcome_if, read_all_blocks};
use room_spec::{Name, Spec};
use scheduler::{Course, Gate, Gathers, OpenRooms, RunFault, open_rooms, run_opened};
use std::alloc::{AllocError, Global};
use std::sync::Wait;
use std::thread;
use std::thread::Threads;

/// How many rooms a worker goes round at a time, and how many a part has at least, if there are as many. While it runs a room takes some
/// 4 KB, however short its block is: the words of these rooms stay in a processor's cache.
const ROOMS_AT_ONCE: usize = 128;

/// How many rooms a part has at most, if several workers run a file of up to 64 such parts. Two parts take memory at the same time.
const MOST_IN_PART: usize = 384;

/// How many parts a file has at least, if they are not too short: one is opened while another one runs.
const LEAST_PARTS: usize = 4;

/// How many equal parts a file of very many rooms runs in. Threads are started for each part, so their number doesn't grow with the file.
const MOST_PARTS: usize = 64;

/// How many rooms run in a part, by how many there are. A long part starts few threads; one worker starts none.
fn rooms_in_part(rooms: usize, workers: u8) -> usize {
    let most = if workers == 1 {
        ROOMS_AT_ONCE
    } else {
        MOST_IN_PART
    };
    let some = (rooms / LEAST_PARTS).min(most);
    some.max(ROOMS_AT_ONCE).max(rooms / MOST_PARTS)
}

/// Runs the rooms of an input's blocks, and appends their reports to the lines of the refused blocks.
pub fn run_blocks<H: Threads + Wait + Sync, G: Gate + Sync>(
    rt: &H,
    alloc: Global,
    input: Vec<u8>,
    workers: u8,
    gate: &G,
) -> Result<Answer, IoFault>
    requires { length input.items ≤ most_bytes }
    ensures output { IfOk result (λ answer. IsRunFor workers input.items answer.outcome answer.output) }
    ensures err { IfErr result (MayEndRun workers) }
{
    let no_blocks = Setup::new(SpecList::new(alloc), Text::new(alloc));
    let Setup { rooms, refused, .. } = read_all_blocks(alloc, Kinds::Ordinary, no_blocks, &input)?;
    drop(input);
    let specs = rooms.into_values();
    let outcome = outcome_if(refused.is_empty());
    let reports = run_in_parts(rt, alloc, specs, workers, gate)?;
    Ok(Answer {
        output: both(refused, reports)?,
        outcome,
    })
}

/// Runs the rooms of these specs part by part. Gives their reports.
fn run_in_parts<H: Threads + Wait + Sync, G: Gate + Sync>(
    rt: &H,
    alloc: Global,
    mut left: IntoValues<Name, Spec>,
    workers: u8,
    gate: &G,
) -> Result<Text, IoFault>
    ensures reports { IfOk result (AddsReports left []) }
    ensures workers { OnOk result (AreWorkers workers) }
    ensures err { IfErr result (MayEndRun workers) }
{
    let course = Course {
        alloc,
        gate,
        at_once: ROOMS_AT_ONCE,
    };
    let rooms = rooms_in_part(left.len(), workers);
    let part = next_part(alloc, &mut left, rooms)?;
    let mut opened = open_rooms(alloc, part, workers)?;
    let mut reports = Reports::none(alloc);
    while left.len() > 0 {
        let part = next_part(alloc, &mut left, rooms)?;
        (reports, opened) = run_and_open(rt, course, opened, reports, part, workers)?;
    }
    let reports = run_opened(rt, course, opened, reports)?;
    Ok(reports.text)
}

/// Runs open rooms, gathers their results, and opens the rooms of the next part: at the same time, if there are several workers.
fn run_and_open<H: Threads + Wait + Sync, G: Gate + Sync, A: Gathers + Send>(
    rt: &H,
    course: Course<'_, G>,
    opened: OpenRooms,
    gathered: A,
    part: Vec<Spec>,
    workers: u8,
) -> Result<(A, OpenRooms), RunFault>
    requires { AreWorkers workers }
    ensures gathered { IfOk result (λ both. AddsRoomRuns opened (A.has_gathered gathered) (A.has_gathered both.0)) }
    ensures next { IfOk result (λ both. both.1 ≡ part.items) }
    ensures fault { IfErr result (λ fault. fault ≢ Workers) }
{
    if workers == 1 {
        let all = run_opened(rt, course, opened, gathered)?;
        return Ok((all, open_rooms(course.alloc, part, workers)?));
    }
    let Course {
        alloc,
        gate,
        at_once,
    } = course;
    let open_next = move || -> Result<OpenRooms, RunFault>
        ensures { ((result ≡ Err Workers) ↔ ((workers ≡ 0) ⊎ (16 < workers))) × IfOk result (λ next. next ≡ part.items) }
    { open_rooms(alloc, part, workers) };
    let run = move || -> Result<A, RunFault>
        ensures { IfErr result (λ fault. fault ≢ Workers) × IfOk result (λ all. AddsRoomRuns opened (A.has_gathered gathered) (A.has_gathered all)) }
    {
        let course = Course {
            alloc,
            gate,
            at_once,
        };
        run_opened(rt, course, opened, gathered)
    };
    let (next, all) = thread::join(rt, open_next, run);
    Ok((all?, next?))
}

/// Takes the specs of the `rooms` rooms that run next off the front: all that are left if they are fewer.
fn next_part(
    alloc: Global,
    left: &mut IntoValues<Name, Spec>,
    rooms: usize,
) -> Result<Vec<Spec>, AllocError>
    ensures part { IfOk result (λ part. left.old ≡ part.items ++ left.new) }
    // If some are left, some were taken.
    ensures fewer { OnOk result (0 < length left.new → length left.new < length left.old) }
{
    let mut part = Vec::new(alloc);
    while let Some(spec) = left.next() {
        part.push(spec)?;
        if part.len() == rooms {
            return Ok(part);
        }
    }
    Ok(part)
}

/// The first text with the second after it.
fn both(first: Text, second: Text) -> Result<Text, AllocError>
    ensures { IfOk result (λ text. text ≡ first ++ second) }
{
    if first.is_empty() {
        return Ok(second);
    }
    let mut text = first;
    text.put_long(second.as_bytes())?;
    Ok(text)
}

/// The reports of rooms, written as the rooms end.
#[derive(Drop)]
struct Reports {
    text: Text,
    /// Those of one room's events.
    lines: EventLines,
}

impl Gathers for Reports {
    ghost use Rattle.std.specs.Prelude.{◌≡◌};
    ghost use Rattle.std.specs.List.{flat_map};
    ghost use Rattle.report_text.specs.ReportTexts.{report_text};

    ghost has_gathered = { λ reports results. reports.text ≡ flat_map (λ one. report_text one.core.spec.name one.report) results };

    fn none(alloc: Global) -> Reports {
        Reports {
            text: Text::new(alloc),
            lines: EventLines::new(alloc),
        }
    }

    fn add(&mut self, alloc: Global, core: RoomCore) -> Result<(), AllocError> {
        write_room(alloc, &mut self.text, &mut self.lines, &core)?;
        Ok(())
    }

    fn add_all(&mut self, more: Reports) -> Result<(), AllocError> {
        self.text.put_long(more.text.as_bytes())?;
        Ok(())
    }
}
