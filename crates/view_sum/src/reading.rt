//! Reads what `sample --json` wrote.
ghost use Rattle.std.specs.Prelude.{◌≡◌, ◌≢◌, ◌+◌, ◌<◌, ◌≤◌, ◌==◌, ◌++◌, ◌∷◌, ◌||◌, ◌^◌, [], IfNone, IfOk, IfErr, IfSome, OnOk, codes, false, is_some, length, map, string_bytes, true, if◌then◌else◌};
ghost use Rattle.std.specs.Str.{bytes_eq};
ghost use Rattle.serde_json.specs.Find.{get};
ghost use Rattle.serde_json.specs.View.{view};
ghost use Rattle.io_text.specs.Reading.{most_bytes};
ghost use Rattle.json_lines.specs.Lines.{json_line};
ghost use Rattle.room_sample.specs.Shown.{shown_of};
ghost use Rattle.view_sample.specs.Json.{outcome_line};
ghost use Rattle.view_sum.specs.Files.{AreNumbered, lines_in};
ghost use Rattle.view_sum.specs.Reading.{is_none_listed, listed_text, read_text, room_said};
ghost use Rattle.view_sum.specs.Refusals.{IsNoJson, IsOneLine, IsUnreadLine, IsUnreadable, SaysData, WhyStopped, pending_of, sample_by};
ghost use Rattle.view_sum.specs.Samples.{room_data, sample_of, sample_text, schedules_in};
ghost use Rattle.view_sum.specs.declared.fault.Reason.TheVariants.{Malformed, NotOfSample, OtherCount};

use crate::fault::{Reason, Stop};
use crate::lines::{OutcomeRead, RoomRead, may_be_outcome, outcome_in, room_in};
use crate::listed::{Listed, schedules_in};
use crate::part::{How, Part};
use crate::writing::write_room_line;
use io_text::Text;
use memchr::memchr;
use room_sample::Example;
use serde_json::Value;
use std::alloc::{AllocError, Global};
use std::mem;
use view_sample::write_outcome_line;

/// What was read of a file: rooms, and outcomes of the next one.
#[derive(Drop)]
struct Reading {
    parts: Vec<Part>,
    listed: Listed,
}

impl Reading {
    ghost use Rattle.std.specs.Prelude.{◌≡◌, ◌++◌, ◌∷◌, [], OnOk};

    /// The outcomes of the next room, of which none are left.
    fn take_listed(&mut self, alloc: Global) -> Listed
        ensures taken { result ≡ self.old.listed }
        ensures parts { self.new.parts ≡ self.old.parts }
        ensures none { self.new.listed.outcomes.items ≡ [] }
    {
        mem::replace(&mut self.listed, Listed::new(alloc))
    }

    /// Adds a room.
    fn add(&mut self, part: Part) -> Result<(), AllocError>
        ensures parts { OnOk result (self.new.parts.items ≡ self.old.parts.items ++ part ∷ []) }
        ensures listed { self.new.listed ≡ self.old.listed }
    {
        self.parts.push(part)?;
        Ok(())
    }
}

/// A line that isn't read, by its number from 1, and why.
#[derive(Clone, Copy)]
pub(crate) struct LineStop {
    pub(crate) line: u64,
    pub(crate) stop: Stop,
}

/// The rooms of a file that `sample --json` wrote: their texts are the file.
pub(crate) fn read_file(alloc: Global, file: &[u8]) -> Result<Vec<Part>, LineStop>
    requires { length file.now ≤ most_bytes }
    ensures text { IfOk result (λ parts. sample_text (map sample_of parts.items) ≡ file.now) }
    ensures lines { IfOk result (λ parts. AreNumbered [] (map sample_of parts.items) (map (λ part. part.line) parts.items)) }
    ensures err { IfErr result (λ fault. WhyStopped (λ reason. IsUnreadable file.now fault.line reason) fault.stop) }
{
    let mut reading = Reading {
        parts: Vec::new(alloc),
        listed: Listed::new(alloc),
    };
    let mut rest = file;
    let mut line = 1;
    while let Some((first, later)) = cut_line(rest) {
        if let Err(stop) = read_line(alloc, &mut reading, first, line) {
            return Err(LineStop { line, stop });
        }
        rest = later;
        line += 1;
    }
    let unended = LineStop {
        line,
        stop: Stop::Fault(Reason::Unended),
    };
    if !rest.is_empty() {
        return Err(unended);
    }
    if !reading.listed.outcomes.is_empty() {
        return Err(unended);
    }
    Ok(reading.parts)
}

/// The first line with its end, and what comes after it.
fn cut_line(text: &[u8]) -> Option<(&[u8], &[u8])>
    ensures parts { IfSome result (λ cut. text.now ≡ cut.0.now ++ cut.1.now) }
    ensures shorter { IfSome result (λ cut. length cut.1.now < length text.now) }
    ensures one { IfSome result (λ cut. IsOneLine cut.0.now) }
    ensures none { IfNone result (lines_in text.now ≡ 0) }
{
    let end = memchr(b'\n', text)?;
    Some(text.split_at(end + 1))
}

/// Reads one line more, that of this number.
fn read_line(alloc: Global, reading: &mut Reading, line: &[u8], number: u64) -> Result<(), Stop>
    requires line { IsOneLine line.now }
    requires lines { AreNumbered [] (map sample_of reading.old.parts.items) (map (λ part. part.line) reading.old.parts.items) }
    requires number { number ≡ lines_in (read_text reading.old) + 1 }
    ensures read { OnOk result (read_text reading.new ≡ read_text reading.old ++ line.now) }
    ensures lines { OnOk result (AreNumbered [] (map sample_of reading.new.parts.items) (map (λ part. part.line) reading.new.parts.items)) }
    ensures err { IfErr result (WhyStopped (IsUnreadLine (pending_of reading.old.listed) line.now)) }
{
    let value = value_in(alloc, line)?;
    if may_be_outcome(&value) {
        return read_outcome(alloc, &mut reading.listed, &value, line);
    }
    read_room(alloc, reading, &value, line, number)
}

/// The JSON of a line.
fn value_in(alloc: Global, line: &[u8]) -> Result<Value, Stop>
    requires { IsOneLine line.now }
    ensures ok { IfOk result (λ value. SaysData line.now (view value)) }
    ensures err { IfErr result (WhyStopped (λ reason. (reason ≡ Malformed) × IsNoJson line.now)) }
{
    let (content, _) = line.split_at(line.len() - 1);
    match Value::from_slice(alloc, content) {
        Ok(value) => Ok(value),
        Err(error) => {
            if error.is_memory() {
                return Err(Stop::Memory);
            }
            Err(Stop::Fault(Reason::Malformed))
        }
    }
}

/// Reads an outcome.
fn read_outcome(alloc: Global, listed: &mut Listed, value: &Value, line: &[u8]) -> Result<(), Stop>
    requires says { SaysData line.now (view value.now) }
    requires outcome { is_some (get (codes "times") (view value.now)) ≡ true }
    ensures read { OnOk result (listed_text listed.new ≡ listed_text listed.old ++ line.now) }
    ensures err { IfErr result (WhyStopped (IsUnreadLine (pending_of listed.old) line.now)) }
{
    let Some(OutcomeRead { name, brief, one }) = outcome_in(alloc, value)? else {
        return Err(Stop::Fault(Reason::NotOfSample));
    };
    if !is_of_room(listed, name.as_str()) {
        return Err(Stop::Fault(Reason::OtherRoom));
    }
    begin_if_none(alloc, listed, name, brief);
    if !is_outcome_line(alloc, listed, &one, line)? {
        return Err(Stop::Fault(Reason::NotOfSample));
    }
    listed.add(one)?;
    Ok(())
}

/// Whether what a line says of the room of this name may come after these outcomes.
fn is_of_room(listed: &Listed, name: &str) -> bool
    ensures { result ≡ (is_none_listed listed.now || bytes_eq (string_bytes listed.now.name) name.now) }
{
    listed.outcomes.is_empty() || listed.name.as_str() == name
}

/// If no outcomes are listed yet, those that follow are of this room.
fn begin_if_none(alloc: Global, listed: &mut Listed, name: String, brief: bool)
    ensures outcomes { listed.new.outcomes.items ≡ listed.old.outcomes.items }
    ensures name { string_bytes listed.new.name ≡ (if is_none_listed listed.old then string_bytes name else string_bytes listed.old.name) }
    ensures brief { listed.new.brief ≡ (if is_none_listed listed.old then brief else listed.old.brief) }
{
    if listed.outcomes.is_empty() {
        *listed = Listed::begun(alloc, name, brief);
    }
}

/// Whether the line is that of an outcome of the room.
fn is_outcome_line(
    alloc: Global,
    listed: &Listed,
    one: &Example,
    line: &[u8],
) -> Result<bool, AllocError>
    ensures { IfOk result (λ is. is ≡ bytes_eq (outcome_line (string_bytes listed.now.name) listed.now.brief (shown_of one.now)) line.now) }
{
    let mut text = Text::new(alloc);
    write_outcome_line(alloc, &mut text, listed.name.as_str(), listed.brief, one)?;
    Ok(is_same(text.as_bytes(), line))
}

/// Reads a room, after its outcomes.
fn read_room(
    alloc: Global,
    reading: &mut Reading,
    value: &Value,
    line: &[u8],
    number: u64,
) -> Result<(), Stop>
    requires line { IsOneLine line.now }
    requires says { SaysData line.now (view value.now) }
    requires room { is_some (get (codes "times") (view value.now)) ≡ false }
    requires lines { AreNumbered [] (map sample_of reading.old.parts.items) (map (λ part. part.line) reading.old.parts.items) }
    requires number { number ≡ lines_in (read_text reading.old) + 1 }
    ensures read { OnOk result (read_text reading.new ≡ read_text reading.old ++ line.now) }
    ensures lines { OnOk result (AreNumbered [] (map sample_of reading.new.parts.items) (map (λ part. part.line) reading.new.parts.items)) }
    ensures err { IfErr result (WhyStopped (IsUnreadLine (pending_of reading.old.listed) line.now)) }
{
    let Some(room) = room_in(alloc, value)? else {
        return Err(Stop::Fault(Reason::NotOfSample));
    };
    if !is_of_room(&reading.listed, room.name.as_str()) {
        return Err(Stop::Fault(Reason::OtherRoom));
    }
    let count = u64::from(room.count);
    let listed = reading.take_listed(alloc);
    let Some(part) = part_of(listed, room, number) else {
        return Err(Stop::Fault(Reason::TooMany));
    };
    if !is_room_line(alloc, &part, line)? {
        return Err(Stop::Fault(fault_of(count, part.outcomes.len() as u64)));
    }
    reading.add(part)?;
    Ok(())
}

/// What is wrong with the line of a room that says that it has this many outcomes, and has that many.
fn fault_of(count: u64, listed: u64) -> Reason
    ensures { result ≡ (if count == listed then NotOfSample else OtherCount listed) }
{
    if count == listed {
        Reason::NotOfSample
    } else {
        Reason::OtherCount { listed }
    }
}

/// The outcomes, with what is said of their room.
fn part_of(listed: Listed, room: RoomRead, line: u64) -> Option<Part>
    ensures sample { IfSome result (λ part. sample_of part ≡ sample_by (room_said room) listed.brief (map shown_of listed.outcomes.items)) }
    ensures line { IfSome result (λ part. part.line ≡ line) }
    ensures many { IfNone result (2 ^ 32 ≤ schedules_in (map shown_of listed.outcomes.items)) }
{
    let Listed {
        brief,
        outcomes,
        ..
    } = listed;
    let schedules = schedules_in(outcomes.as_slice())?;
    Some(Part {
        name: room.name,
        how: How {
            crashes: room.crashes,
            seed: room.seed,
            from: room.from,
            grouped: room.grouped,
            brief,
        },
        schedules,
        decided: room.decided,
        held: room.held,
        broken: room.broken,
        outcomes,
        line,
    })
}

/// Whether the line is that of a room.
fn is_room_line(alloc: Global, part: &Part, line: &[u8]) -> Result<bool, AllocError>
    ensures { IfOk result (λ is. is ≡ bytes_eq (json_line (room_data (sample_of part.now))) line.now) }
{
    let mut text = Text::new(alloc);
    write_room_line(alloc, &mut text, part)?;
    Ok(is_same(text.as_bytes(), line))
}

fn is_same(one: &[u8], other: &[u8]) -> bool
    ensures { result ≡ bytes_eq one.now other.now }
{
    one == other
}
