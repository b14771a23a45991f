//! Adds up samples.
ghost use Rattle.std.specs.Prelude.{◌≡◌, ◌<◌, ◌≤◌, ◌==◌, ◌++◌, ◌∷◌, ℕ, [], All, IfErr, IfNone, IfOk, IfSome, IsPermutation, List, OnOk, Some, length, map, slice_get, slice_index_or, true};
ghost use Rattle.std.specs.List.{list_all};
ghost use Rattle.io_text.specs.Reading.{most_bytes};
ghost use Rattle.room_files.specs.Verdicts.{outcome_if};
ghost use Rattle.view_sum.specs.Files.{AreFilesOf, AreRising, IsFileOf, first_number, parts_of, placed_of};
ghost use Rattle.view_sum.specs.Forms.{has_held, is_held, sum_text};
ghost use Rattle.view_sum.specs.Refusals.{DoesNotFollowIn, HasOtherRoomsIn, IsRefused, IsUnread, IsUnreadable, WhyRefused, line_by};
ghost use Rattle.view_sum.specs.Samples.{RoomSample, sample_of};
ghost use Rattle.view_sum.specs.Sums.{AreTotals, IsSumOutput, IsTotal, parts_at};
ghost use Rattle.view_sum.specs.declared.fault.Stop.TheVariants as stops;
ghost use Rattle.view_sum.specs.declared.sum.SampleFile.{SampleFile as SampleFileValue};

use crate::fault::{BadPart, Reason, Stop, SumFault};
use crate::form::SumForm;
use crate::part::Part;
use crate::reading::{LineStop, read_file};
use crate::totals::{add_part, fault_of, none_of, total_of};
use crate::writing::write_total;
use indexmap::IndexSet;
use io_text::Text;
use room_files::{Answer, outcome_if};
use room_sample::States;
use std::alloc::{AllocError, Global};
use view_sample::write_closing;

/// What was read of a file.
#[derive(Drop)]
pub(crate) struct SampleFile {
    /// Its index among those that are given.
    index: usize,
    parts: Vec<Part>,
}

/// Adds up samples of the same rooms, each as `sample --json` wrote it, by schedules that follow each other: what one sample by all schedules says, as text or as
/// JSON. The files may be in any order. An outcome has the schedule of the first part in which it came.
///
/// # Errors
///
/// An allocation that failed; or the first line at which a file can't be added up: it isn't as `sample --json` writes it, or it is of another room or plan than
/// those before it in order of their schedules, or its schedules don't follow theirs.
pub fn sum_samples(alloc: Global, files: &[&[u8]], form: &SumForm) -> Result<Answer, SumFault>
    requires { All (λ file. length file.now ≤ most_bytes) files.now }
    ensures sum { IfOk result (λ answer. IsSumOutput form.now (map (λ file. file.now) files.now) answer.outcome answer.output) }
    ensures err { IfErr result (IsRefused (map (λ file. file.now) files.now)) }
{
    let mut read = read_files(alloc, files)?;
    sort_files(&mut read)?;
    let rooms = rooms_of(read.as_slice());
    if let Some(bad) = other_rooms(read.as_slice(), rooms) {
        return Err(SumFault::Bad(bad));
    }
    write_sums(alloc, read.as_slice(), rooms, form)
}

/// The sums of the parts of this many rooms, and whether no schedule broke a room's task.
fn write_sums(
    alloc: Global,
    files: &[SampleFile],
    rooms: usize,
    form: &SumForm,
) -> Result<Answer, SumFault>
    requires rooms { list_all (λ file. length file.parts.items == rooms) files.now ≡ true }
    requires some { 0 < rooms → 0 < length files.now }
    ensures sum { IfOk result (λ answer. (totals : List RoomSample) × (length totals ≡ rooms) × AreTotals (map parts_of files.now) totals
        × (answer.output ≡ sum_text form.now totals) × (answer.outcome ≡ outcome_if (list_all has_held totals))) }
    ensures err { IfErr result (WhyRefused (DoesNotFollowIn (map placed_of files.now))) }
{
    let mut output = Text::new(alloc);
    let mut have_held = true;
    for room in 0..rooms {
        let total = sum_room(alloc, files, room)?;
        write_total(alloc, &mut output, form, &total)?;
        have_held &= is_held(total.broken);
    }
    write_closing(&mut output, !form.json)?;
    Ok(Answer {
        output,
        outcome: outcome_if(have_held),
    })
}

/// Whether no schedule broke a task.
fn is_held(broken: Option<u32>) -> bool
    ensures { result ≡ is_held broken }
{
    match broken {
        None => true,
        Some(times) => times == 0,
    }
}

/// The sum of the parts of the room of this number, which each file has.
fn sum_room(alloc: Global, files: &[SampleFile], room: usize) -> Result<Part, SumFault>
    requires some { 0 < length files.now }
    requires there { (k : ℕ) (d : SampleFileValue) → k < length files.now → room < length (slice_index_or files.now k d).parts.items }
    ensures sum { IfOk result (λ total. IsTotal (parts_at room (map parts_of files.now)) (sample_of total)) }
    ensures err { IfErr result (WhyRefused (DoesNotFollowIn (map placed_of files.now))) }
{
    let mut other = files[0].index;
    let mut so_far = none_of(alloc, &files[0].parts[room])?;
    let mut patterns = no_patterns(alloc);
    for file in files {
        let part = &file.parts[room];
        if let Some(reason) = fault_of(&so_far, part) {
            return Err(SumFault::Bad(BadPart {
                file: file.index,
                line: part.line,
                other,
                reason,
            }));
        }
        so_far = add_part(alloc, so_far, &mut patterns, part)?;
        other = file.index;
    }
    Ok(total_of(so_far)?)
}

/// No outcome is known yet.
fn no_patterns(alloc: Global) -> IndexSet<States>
    ensures { result.keys ≡ [] }
{
    IndexSet::new(alloc)
}

/// How many rooms the first file has.
fn rooms_of(files: &[SampleFile]) -> usize
    ensures some { 0 < result → 0 < length files.now }
    ensures first { IfSome (slice_get files.now 0) (λ file. result ≡ length file.parts.items) }
{
    match files.first() {
        None => 0,
        Some(file) => file.parts.len(),
    }
}

/// The first file that hasn't this many rooms, which is how many the first one has, and where the last room is that both have.
fn other_rooms(files: &[SampleFile], rooms: usize) -> Option<BadPart>
    requires { IfSome (slice_get files.now 0) (λ file. rooms ≡ length file.parts.items) }
    ensures none { IfNone result (list_all (λ file. length file.parts.items == rooms) files.now ≡ true) }
    ensures some { IfSome result (HasOtherRoomsIn (map placed_of files.now)) }
{
    for file in files {
        if file.parts.len() != rooms {
            return Some(BadPart {
                file: file.index,
                line: last_line(&file.parts, rooms.min(file.parts.len())),
                other: files[0].index,
                reason: Reason::OtherRooms,
            });
        }
    }
    None
}

/// The line of the last of the first rooms, and of a file with none the first line.
fn last_line(parts: &[Part], count: usize) -> u64
    requires { count ≤ length parts.now }
    ensures { Some result ≡ line_by count (map (λ part. part.line) parts.now) }
{
    if count == 0 { 1 } else { parts[count - 1].line }
}

/// What is read of each file.
fn read_files(alloc: Global, files: &[&[u8]]) -> Result<Vec<SampleFile>, SumFault>
    requires { All (λ file. length file.now ≤ most_bytes) files.now }
    ensures read { IfOk result (λ read. AreFilesOf (map (λ file. file.now) files.now) 0 (map placed_of read.items)) }
    ensures err { IfErr result (WhyRefused (IsUnread (map (λ file. file.now) files.now))) }
{
    let mut read = Vec::new(alloc);
    for index in 0..files.len() {
        push(&mut read, read_one(alloc, files[index], index)?)?;
    }
    Ok(read)
}

fn push(files: &mut Vec<SampleFile>, file: SampleFile) -> Result<(), AllocError>
    ensures { OnOk result (files.new.items ≡ files.old.items ++ file ∷ []) }
{
    files.push(file)?;
    Ok(())
}

fn read_one(alloc: Global, file: &[u8], index: usize) -> Result<SampleFile, SumFault>
    requires { length file.now ≤ most_bytes }
    ensures read { IfOk result (λ read. IsFileOf file.now index (placed_of read)) }
    ensures err { IfErr result (WhyRefused (λ bad. (bad.file ≡ index) × (bad.other ≡ index) × IsUnreadable file.now bad.line bad.reason)) }
{
    match read_file(alloc, file) {
        Ok(parts) => Ok(SampleFile { index, parts }),
        Err(fault) => Err(fault_at(index, fault)),
    }
}

fn fault_at(index: usize, fault: LineStop) -> SumFault
    ensures { WhyRefused (λ bad. (bad.file ≡ index) × (bad.other ≡ index) × (bad.line ≡ fault.line) × (fault.stop ≡ stops.Fault bad.reason)) result }
{
    match fault.stop {
        Stop::Memory => SumFault::Memory,
        Stop::Fault(reason) => SumFault::Bad(BadPart {
            file: index,
            line: fault.line,
            other: index,
            reason,
        }),
    }
}

/// Puts the files in the order of their first schedules.
fn sort_files(files: &mut Vec<SampleFile>) -> Result<(), AllocError>
    ensures all { IsPermutation files.old.items files.new.items }
    ensures rising { OnOk result (AreRising (map placed_of files.new.items)) }
{
    files.sort_by_key(first_number)
}

/// The number of a file's first schedule.
fn first_number(file: &SampleFile) -> u32
    ensures { result ≡ first_number (parts_of file.now) }
{
    match file.parts.first() {
        None => 0,
        Some(part) => part.how.from,
    }
}
