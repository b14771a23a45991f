//! All faults of a transcript's event lines.
ghost use Rattle.std.specs.Prelude.{◌≡◌, ◌<◌, ◌++◌, IfOk, OnOk, Some, length};
ghost use Rattle.history_checker.specs.Verdicts.{has_room};
ghost use Rattle.transcript.specs.Lines.{line_in};
ghost use Rattle.fault_text.specs.Refusals.{named_refusals};
ghost use Rattle.fault_text.specs.UnknownNames.{met, more_note, near_room};
ghost use Rattle.file_faults.specs.Events.{bad_line_said, bad_line_spot, begins_late_block, event_in, event_said, event_spot, later_events, events_said, met_unless, misplaced_said, next_event, no_room_said, unknown_name_said, unknown_names_after};
ghost use Rattle.file_faults.specs.Json.{enough_in, more_in};
ghost use Rattle.file_faults.specs.declared.events.TheConstants.{MORE_LINES};
ghost use Rattle.file_faults.specs.Walks.{left_after, said_if_left};

use crate::json::{write_fault, write_more_in};
use crate::scripts::{block_extent, block_in_front};
use crate::walk::write_part;
use fault_text::{
    EVENTS, MOST_EXPLAINED, NO_EVENT, Refusals, Remark, Spot, UnknownNames, fits_one, later_line,
    write_advice, write_form_fault, write_indented, write_near_room, write_place,
};
use history_checker::NoRoom;
use io_text::Text;
use room_files::{SpecList, count_lines, split_line};
use room_spec::Name;
use room_warnings::Format;
use std::alloc::{AllocError, Global};
use std::marker::Model;
use transcript::{LineFault, read_line};

/// What is said of lines that have a name of no room, after one that has the same name.
const MORE_LINES: &[u8] = b" more lines have such a name";

/// The first line of a block.
const BLOCK_LINE: &[u8] = b"bgsim B";

/// The forms of a block's lines, without those of its protocol's text.
const BLOCK_LINES: [&[u8]; 10] = [
    BLOCK_LINE,
    b"room N",
    b"inputs VW",
    b"simulators M",
    b"rounds S",
    b"turns T",
    b"task agree K",
    b"crash J after V",
    b"protocol",
    b"end",
];

/// Where such lines belong.
const BLOCKS_BEFORE: &[u8] = b"blocks come before the line `events`";

/// The forms of a report's lines, without its event lines, and of other replies to a script.
const REPORT_LINES: [&[u8]; 18] = [
    b"N report",
    b"N process P decided V",
    b"N process P held J",
    b"N process P spent",
    b"N process P going",
    b"N crashed",
    b"N crashed JW",
    b"N history V",
    b"N end",
    b"N opened",
    b"N closed",
    b"N settled",
    b"N step I V stepped",
    b"N step I V idle",
    b"N step I V out of turns",
    b"N step I V crashed",
    b"N crash I crashed",
    b"N crash I already",
];

/// What a transcript has in their place.
const EVENTS_ONLY: &[u8] =
    b"this is a reply to a script: a transcript has only its event lines, as `bgview transcript` writes them";

/// What a transcript has before its event lines: its rooms, and the blocks of it that are refused.
#[derive(Drop)]
pub(crate) struct Opened<'a> {
    pub(crate) rooms: &'a SpecList,
    pub(crate) input: &'a [u8],
    pub(crate) refused: &'a Refusals,
}

impl<'a> Model for Opened<'a> {
    ghost use Rattle.std.specs.Coded.{codes};
    ghost use Rattle.protocol_lang.specs.Codes.{expression_code};
    ghost use Rattle.file_faults.specs.Events.{OpenedParts};

    ghost Value = { OpenedParts };

    ghost coded = { Prim.hlevel (codes, expression_code) };

    ghost view = { λ opened. record { rooms = opened.rooms.now; input = opened.input.now; refused = opened.refused.now } };
}

impl<'a> Opened<'a> {
    pub(crate) fn of(rooms: &'a SpecList, input: &'a [u8], refused: &'a Refusals) -> Opened<'a>
        ensures { result ≡ record { rooms = rooms.now; input = input.now; refused = refused.now } }
    {
        Opened {
            rooms,
            input,
            refused,
        }
    }

    fn has(&self, name: &Name) -> bool
        ensures { result ≡ has_room name.now self.now.rooms }
    {
        self.rooms.has(name)
    }

    /// Writes which room may be meant by a name that no room has, and for each refused block of a room of this name, of those that are
    /// explained, that it is refused.
    fn write_meant(&self, output: &mut Text, name: &[u8]) -> Result<(), AllocError>
        ensures { OnOk result (output.new ≡ output.old ++ (near_room self.now.input name.now ++ named_refusals self.now.input name.now self.now.refused)) }
    {
        write_near_room(output, self.input, name)?;
        self.refused.write_named(output, self.input, name)
    }
}

/// A part of a transcript: all of its event lines from one on, or one line. `opened` is what the transcript has before its event lines.
#[derive(Clone, Copy)]
struct EventPart<'a> {
    opened: &'a Opened<'a>,
    /// The number of the part's first line.
    number: u64,
    text: &'a [u8],
}

/// Writes what is said of all faults of event lines, the first of which has this number.
pub(crate) fn write_event_faults<'a>(
    format: Format,
    output: &mut Text,
    opened: &'a Opened<'a>,
    first: u64,
    transcript: &'a [u8],
) -> Result<(), AllocError>
    ensures { OnOk result (output.new ≡ output.old ++ events_said format.json opened.now first transcript.now) }
{
    let mut rest = transcript;
    let mut number = first;
    let mut left = MOST_EXPLAINED;
    let mut unknown_names = UnknownNames::new(format.alloc);
    'walk: while !rest.is_empty() {
        let part = EventPart {
            opened,
            number,
            text: rest,
        };
        let Some(fewer) = write_event(format, output, left, &mut unknown_names, &part)? else {
            return Ok(());
        };
        left = fewer;
        number = next_event(number, rest);
        rest = later_events(rest);
    }
    write_end(format, output, &unknown_names)
}

/// Writes how many lines had a name of no room that an earlier one had, if some did.
fn write_end(
    format: Format,
    output: &mut Text,
    unknown_names: &UnknownNames,
) -> Result<(), AllocError>
    ensures { OnOk result (output.new ≡ output.old ++ more_in format.json (more_note MORE_LINES.now unknown_names.now)) }
{
    let mut said = Text::new(format.alloc);
    unknown_names.write_more(&mut said, MORE_LINES)?;
    write_more_in(format, output, said.as_bytes())
}

/// Writes what is said of the line with which a part begins. Gives how many may still be explained.
fn write_event(
    format: Format,
    output: &mut Text,
    left: usize,
    unknown_names: &mut UnknownNames,
    part: &EventPart<'_>,
) -> Result<Option<usize>, AllocError>
    ensures left { IfOk result (λ fewer. fewer ≡ left_after left (event_in format.json part.now.opened.now unknown_names.old part.now.number part.now.text.now)) }
    ensures text { OnOk result (output.new ≡ output.old ++ said_if_left (enough_in format.json) left (event_in format.json part.now.opened.now unknown_names.old part.now.number part.now.text.now)) }
    ensures unknown_names { OnOk result (unknown_names.new ≡ unknown_names_after part.now.opened.now unknown_names.old part.now.text.now) }
{
    let mut shown = Text::new(format.alloc);
    write_event_in(format, &mut shown, unknown_names, part)?;
    write_part(format, output, left, shown.as_bytes())
}

/// Writes what is said of the line with which a part begins, as text or as JSON.
fn write_event_in(
    format: Format,
    output: &mut Text,
    unknown_names: &mut UnknownNames,
    part: &EventPart<'_>,
) -> Result<(), AllocError>
    ensures text { OnOk result (output.new ≡ output.old ++ event_in format.json part.now.opened.now unknown_names.old part.now.number part.now.text.now) }
    ensures unknown_names { OnOk result (unknown_names.new ≡ unknown_names_after part.now.opened.now unknown_names.old part.now.text.now) }
{
    let alloc = format.alloc;
    if !format.json {
        return write_event_said(alloc, output, unknown_names, part);
    }
    let mut said = Text::new(alloc);
    write_event_said(alloc, &mut said, unknown_names, part)?;
    let spot = event_spot(part.number, part.text);
    write_fault(alloc, output, false, &spot, said.as_bytes())
}

/// The place of what is said of the line with which a text begins.
fn event_spot(number: u64, text: &[u8]) -> Spot
    ensures { result ≡ event_spot number text.now }
{
    let (line, _) = split_line(text);
    match read_line(line) {
        Ok(_) => first_byte(number, NoRoom.sentence()),
        Err(fault) => bad_line_spot(number, line, fault),
    }
}

/// The place in a line which is no event line.
fn bad_line_spot(number: u64, line: &[u8], fault: LineFault) -> Spot
    ensures { result ≡ bad_line_spot number line.now fault }
{
    if fits_one(line, &BLOCK_LINES) || fits_one(line, &REPORT_LINES) {
        return first_byte(number, fault.sentence());
    }
    Spot::of_form(number, fault.sentence(), line, &EVENTS)
}

/// The first byte of a line.
fn first_byte(number: u64, what: &'static str) -> Spot
    ensures { result ≡ record { line = number; place = Some 1; what = what.now } }
{
    Spot {
        line: number,
        place: Some(1),
        what,
    }
}

fn write_event_said(
    alloc: Global,
    output: &mut Text,
    unknown_names: &mut UnknownNames,
    part: &EventPart<'_>,
) -> Result<(), AllocError>
    ensures text { OnOk result (output.new ≡ output.old ++ event_said part.now.opened.now unknown_names.old part.now.number part.now.text.now) }
    ensures unknown_names { OnOk result (unknown_names.new ≡ unknown_names_after part.now.opened.now unknown_names.old part.now.text.now) }
{
    let (text, _) = split_line(part.text);
    let line = EventPart { text, ..*part };
    match read_line(text) {
        Ok((name, _)) => write_no_room(alloc, output, unknown_names, &line, &name),
        Err(fault) => write_bad_line(alloc, output, &line, fault),
    }
}

/// Writes what is said of a line which is no event line.
fn write_bad_line(
    alloc: Global,
    output: &mut Text,
    line: &EventPart<'_>,
    fault: LineFault,
) -> Result<(), AllocError>
    ensures { OnOk result (output.new ≡ output.old ++ bad_line_said line.now.number line.now.text.now fault) }
{
    if fits_one(line.text, &BLOCK_LINES) {
        return write_misplaced(alloc, output, line, fault, BLOCKS_BEFORE);
    }
    if fits_one(line.text, &REPORT_LINES) {
        return write_misplaced(alloc, output, line, fault, EVENTS_ONLY);
    }
    let remark = Remark::new(line.number, fault.sentence());
    write_form_fault(alloc, output, &remark, line.text, &EVENTS)?;
    write_advice(output, &NO_EVENT, line.text)
}

/// Writes the fault of a line that has its place elsewhere, and where.
fn write_misplaced(
    alloc: Global,
    output: &mut Text,
    line: &EventPart<'_>,
    fault: LineFault,
    elsewhere: &[u8],
) -> Result<(), AllocError>
    ensures { OnOk result (output.new ≡ output.old ++ misplaced_said line.now.number line.now.text.now fault elsewhere.now) }
{
    let remark = Remark::new(line.number, fault.sentence());
    write_place(alloc, output, &remark, &[], line.text)?;
    write_indented(output, elsewhere)
}

/// Whether a block begins among event lines.
fn begins_late_block(text: &[u8]) -> bool
    ensures { result ≡ begins_late_block text.now }
{
    let (line, _) = split_line(text);
    fits_one(line, &[BLOCK_LINE]) && read_line(line).is_err()
}

/// The number of the line after the event line, or the block, with which a text begins, whose first line has this number.
fn next_event(number: u64, text: &[u8]) -> u64
    ensures { result ≡ next_event number text.now }
{
    if begins_late_block(text) {
        later_line(number, count_lines(block_in_front(text)))
    } else {
        later_line(number, 1)
    }
}

/// What comes after the event line, or the block, with which a text begins.
fn later_events(text: &[u8]) -> &[u8]
    ensures text { result.now ≡ later_events text.now }
    ensures shorter { 0 < length text.now → length result.now < length text.now }
{
    let (_, later) = split_line(text);
    if begins_late_block(text) {
        &later[block_extent(later)..]
    } else {
        later
    }
}

/// Writes that a line has the name of no room, unless a room has it.
fn write_no_room(
    alloc: Global,
    output: &mut Text,
    unknown_names: &mut UnknownNames,
    line: &EventPart<'_>,
    name: &Name,
) -> Result<(), AllocError>
    ensures text { OnOk result (output.new ≡ output.old ++ no_room_said line.now.opened.now unknown_names.old line.now.number line.now.text.now name.now) }
    ensures unknown_names { OnOk result (unknown_names.new ≡ met_unless (has_room name.now line.now.opened.now.rooms) name.now unknown_names.old) }
{
    if line.opened.has(name) {
        return Ok(());
    }
    write_unknown_name(alloc, output, unknown_names, line, name.as_str().as_bytes())
}

/// Writes the same of a name that no room has, and that a block of this name is refused, if one is, unless an earlier line has the same name.
fn write_unknown_name(
    alloc: Global,
    output: &mut Text,
    unknown_names: &mut UnknownNames,
    line: &EventPart<'_>,
    name: &[u8],
) -> Result<(), AllocError>
    ensures text { OnOk result (output.new ≡ output.old ++ unknown_name_said line.now.opened.now unknown_names.old line.now.number line.now.text.now name.now) }
    ensures unknown_names { OnOk result (unknown_names.new ≡ met name.now unknown_names.old) }
{
    if unknown_names.meet(alloc, name)? {
        return Ok(());
    }
    let remark = Remark::new(line.number, NoRoom.sentence());
    write_place(alloc, output, &remark, &[], line.text)?;
    line.opened.write_meant(output, name)
}
