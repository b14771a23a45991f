//! All faults of a script.
ghost use Rattle.std.specs.Prelude.{◌≡◌, ◌++◌, ◌≤◌, IfOk, OnOk, length};
ghost use Rattle.room_files.specs.Kinds.{block_of};
ghost use Rattle.room_files.specs.declared.kinds.Kinds.TheVariants.{All};
ghost use Rattle.room_files.specs.Blocks.{block_extent};
ghost use Rattle.script_play.specs.Script.{command_in, is_open, text_after};
ghost use Rattle.file_faults.specs.Scripts.{absent_said, bad_command, begins_with_block, block_in_front, block_said, count_note, ends_as_elsewhere, entry_in, entry_said, entry_spot, explained_at_most, fault_said, is_block_refused, known_after, known_after_command, line_said, line_spot, meant, met_if_absent, next_number, none_known, refused_said, refused_spot, rooms_after_read, script_faults, script_said, simulators_note, taken_said};
ghost use Rattle.file_faults.specs.Json.{enough_in, more_in};
ghost use Rattle.file_faults.specs.OpenRooms.{refusal_of, rooms_begun, simulators_of};
ghost use Rattle.fault_text.specs.UnknownNames.{met, more_note};
ghost use Rattle.file_faults.specs.declared.scripts.TheConstants.{MORE_COMMANDS};
ghost use Rattle.service_core.specs.Replies.{name_in};
ghost use Rattle.service_core.specs.declared.reply.Refusal.TheVariants.{NoRoom};
ghost use Rattle.file_faults.specs.Walks.{left_after, said_if_left};

use crate::json::{write_fault, write_more_in};
use crate::rooms::OpenRooms;
use crate::walk::write_part;
use fault_text::{
    COMMANDS, MOST_EXPLAINED, NO_COMMAND, Remark, Spot, UnknownNames, has_room_line, later_line,
    write_advice, write_block_fault, write_form_fault, write_indented, write_name_taken,
    write_near_room, write_place,
};
use io_text::Text;
use room_files::{BlockFault, Kinds, TextFault, count_lines, read_room, split_line, write_refused};
use room_spec::{Name, Spec, SpecFault, block_len};
use room_warnings::Format;
use script_play::read_command;
use service_core::{Command, Refusal};
use std::alloc::{AllocError, Global};
use std::marker::Model;

/// What is said of further commands with a name of no open room.
const MORE_COMMANDS: &[u8] = b" more commands have such a name";

/// What is said of a name of no open room that a block of the script has.
const NOT_OPEN: &[u8] =
    b"a block of the script has this name, but its room is not open at this line";

/// Comes before the number of a room's simulators.
const COUNTED: &[u8] = b"    its simulators are counted from 0, and there are";

/// What is known of a script's rooms from its lines before.
#[derive(Drop)]
struct Known {
    rooms: OpenRooms,
    /// The names of no open room that commands had.
    unknown_names: UnknownNames,
}

impl Model for Known {
    ghost use Rattle.file_faults.specs.Scripts.{KnownRooms};

    ghost Value = { KnownRooms };

    ghost view = { λ known. record { rooms = known.rooms; unknown_names = known.unknown_names } };
}

impl Known {
    fn new(alloc: Global) -> Known
        ensures { result ≡ none_known }
    {
        Known {
            rooms: OpenRooms::new(alloc),
            unknown_names: UnknownNames::new(alloc),
        }
    }

    /// The place of what is said of the line of this number.
    fn line_spot(&self, number: u64, line: &[u8]) -> Spot
        ensures { result ≡ line_spot self.now number line.now (command_in line.now) }
    {
        match read_command(line) {
            Some(command) => refused_spot(number, self.rooms.refusal_of(&command)),
            None => Spot::of_form(number, TextFault::NoCommand.sentence(), line, &COMMANDS),
        }
    }

    /// Writes how many commands had a name of no open room that an earlier one had, if some did.
    fn write_end(&self, format: Format, output: &mut Text) -> Result<(), AllocError>
        ensures { OnOk result (output.new ≡ output.old ++ more_in format.json (more_note MORE_COMMANDS.now self.now.unknown_names)) }
    {
        let mut said = Text::new(format.alloc);
        self.unknown_names.write_more(&mut said, MORE_COMMANDS)?;
        write_more_in(format, output, said.as_bytes())
    }
}

/// A part of a script: all of its entries from one on, or one line, or one block.
#[derive(Clone, Copy)]
struct ScriptPart<'a> {
    script: &'a [u8],
    /// The number of the part's first line.
    number: u64,
    text: &'a [u8],
}

/// What is said of all faults of a script: of its blocks, of lines that are no commands, and of commands to rooms or simulators that there are not.
/// If it begins with a block, it is no script, and if its first line has a carriage return, no line is one of a script: then only the first
/// fault is explained.
pub fn script_faults(alloc: Global, script: &[u8]) -> Result<Text, AllocError>
    ensures { IfOk result (λ text. text ≡ script_faults script.now) }
{
    script_said(alloc, false, script)
}

/// The same as text, or as JSON.
#[tactic(auto, unfolding(crate::specs::Scripts::script_said))]
pub(crate) fn script_said(alloc: Global, json: bool, script: &[u8]) -> Result<Text, AllocError>
    ensures { IfOk result (λ text. text ≡ script_said json script.now) }
{
    let format = Format { alloc, json };
    let mut output = Text::new(alloc);
    let mut rest = script;
    let mut number = 1;
    let mut left = explained_at_most(script);
    let mut known = Known::new(alloc);
    'walk: while !rest.is_empty() {
        let part = ScriptPart {
            script,
            number,
            text: rest,
        };
        let Some(fewer) = write_entry(format, &mut output, left, &mut known, &part)? else {
            return Ok(output);
        };
        left = fewer;
        let (line, later) = split_line(rest);
        number = next_number(number, line, later);
        rest = text_after(line, later);
    }
    known.write_end(format, &mut output)?;
    Ok(output)
}

/// Of how many entries the faults are explained.
fn explained_at_most(script: &[u8]) -> usize
    ensures { result ≡ explained_at_most script.now }
{
    if begins_with_block(script) || ends_as_elsewhere(script) {
        1
    } else {
        MOST_EXPLAINED
    }
}

pub(crate) fn begins_with_block(script: &[u8]) -> bool
    ensures { result ≡ begins_with_block script.now }
{
    script.starts_with(b"bgsim ")
}

/// Whether a script's first line has a carriage return.
fn ends_as_elsewhere(script: &[u8]) -> bool
    ensures { result ≡ ends_as_elsewhere script.now }
{
    let (line, _) = split_line(script);
    line.iter().any(|byte| *byte == b'\r')
}

/// Writes what is said of the entry with which a part begins. Gives how many may still be explained.
fn write_entry(
    format: Format,
    output: &mut Text,
    left: usize,
    known: &mut Known,
    part: &ScriptPart<'_>,
) -> Result<Option<usize>, AllocError>
    ensures left { IfOk result (λ fewer. fewer ≡ left_after left (entry_in format.json part.now.script.now known.old part.now.number part.now.text.now)) }
    ensures text { OnOk result (output.new ≡ output.old ++ said_if_left (enough_in format.json) left (entry_in format.json part.now.script.now known.old part.now.number part.now.text.now)) }
    ensures known { OnOk result (known.new ≡ known_after known.old part.now.text.now) }
{
    let mut shown = Text::new(format.alloc);
    write_entry_in(format, &mut shown, known, part)?;
    write_part(format, output, left, shown.as_bytes())
}

/// Writes what is said of the entry with which a part begins, as text or as JSON.
fn write_entry_in(
    format: Format,
    output: &mut Text,
    known: &mut Known,
    part: &ScriptPart<'_>,
) -> Result<(), AllocError>
    ensures text { OnOk result (output.new ≡ output.old ++ entry_in format.json part.now.script.now known.old part.now.number part.now.text.now) }
    ensures known { OnOk result (known.new ≡ known_after known.old part.now.text.now) }
{
    let alloc = format.alloc;
    if !format.json {
        return write_entry_said(alloc, output, known, part);
    }
    let (refused, spot) = entry_spot(alloc, known, part.number, part.text)?;
    let mut said = Text::new(alloc);
    write_entry_said(alloc, &mut said, known, part)?;
    write_fault(alloc, output, refused, &spot, said.as_bytes())
}

/// Whether the block after a line `open` is refused, and the place of what is said of an entry.
fn entry_spot(
    alloc: Global,
    known: &Known,
    number: u64,
    text: &[u8],
) -> Result<(bool, Spot), AllocError>
    ensures refused { IfOk result (λ found. found.0 ≡ is_block_refused text.now) }
    ensures spot { IfOk result (λ found. found.1 ≡ entry_spot known.now number text.now) }
{
    let (line, later) = split_line(text);
    if !is_open(line) {
        return Ok((false, known.line_spot(number, line)));
    }
    let block = block_in_front(later);
    let first = later_line(number, 1);
    match read_room(alloc, Kinds::All, block)? {
        Ok(_) => Ok((false, Spot::of_refusal(first, block, BlockFault::NameTaken))),
        Err(fault) => Ok((true, Spot::of_block(first, block, fault))),
    }
}

fn write_entry_said(
    alloc: Global,
    output: &mut Text,
    known: &mut Known,
    part: &ScriptPart<'_>,
) -> Result<(), AllocError>
    ensures text { OnOk result (output.new ≡ output.old ++ entry_said part.now.script.now known.old part.now.number part.now.text.now) }
    ensures known { OnOk result (known.new ≡ known_after known.old part.now.text.now) }
{
    let (line, later) = split_line(part.text);
    if is_open(line) {
        let block = ScriptPart {
            number: later_line(part.number, 1),
            text: block_in_front(later),
            ..*part
        };
        write_block_said(alloc, output, &mut known.rooms, &block)
    } else {
        let command = ScriptPart {
            text: line,
            ..*part
        };
        write_line_said(alloc, output, known, &command)
    }
}

/// The place of the first byte of a line whose command is refused, if it is.
fn refused_spot(number: u64, refusal: Option<Refusal>) -> Spot
    ensures { result ≡ refused_spot number refusal }
{
    let what = match refusal {
        Some(refusal) => refusal.sentence(),
        None => "",
    };
    Spot {
        line: number,
        place: Some(1),
        what,
    }
}

/// Writes what is said of a block.
fn write_block_said(
    alloc: Global,
    output: &mut Text,
    rooms: &mut OpenRooms,
    block: &ScriptPart<'_>,
) -> Result<(), AllocError>
    ensures text { OnOk result (output.new ≡ output.old ++ block_said rooms.old block.now.number block.now.text.now) }
    ensures rooms { OnOk result (rooms.new ≡ rooms_after_read rooms.old (block_of All block.now.text.now)) }
{
    match read_room(alloc, Kinds::All, block.text)? {
        Ok((spec, _)) => write_taken_said(alloc, output, rooms, block, &spec),
        Err(fault) => write_refusal_said(alloc, output, block, fault),
    }
}

/// Writes that the name of a valid block is taken, if it is.
fn write_taken_said(
    alloc: Global,
    output: &mut Text,
    rooms: &mut OpenRooms,
    block: &ScriptPart<'_>,
    spec: &Spec,
) -> Result<(), AllocError>
    ensures text { OnOk result (output.new ≡ output.old ++ taken_said rooms.old block.now.number block.now.text.now spec.now) }
    ensures rooms { OnOk result (rooms.new ≡ rooms_begun rooms.old spec.now) }
{
    if rooms.begin(spec)? {
        write_name_taken(alloc, output, block.number, block.text)
    } else {
        Ok(())
    }
}

/// Writes that a block is refused for this fault, and what is said of the fault.
fn write_refusal_said(
    alloc: Global,
    output: &mut Text,
    block: &ScriptPart<'_>,
    fault: SpecFault,
) -> Result<(), AllocError>
    ensures { OnOk result (output.new ≡ output.old ++ fault_said block.now.number block.now.text.now fault) }
{
    output.put(b"    ")?;
    write_refused(output, block.number, fault)?;
    write_block_fault(alloc, output, block.number, block.text, fault)
}

/// Writes what is said of a line, unless it is a command that is done.
fn write_line_said(
    alloc: Global,
    output: &mut Text,
    known: &mut Known,
    line: &ScriptPart<'_>,
) -> Result<(), AllocError>
    ensures text { OnOk result (output.new ≡ output.old ++ line_said line.now.script.now known.old line.now.number line.now.text.now (command_in line.now.text.now)) }
    ensures known { OnOk result (known.new ≡ known_after_command known.old (command_in line.now.text.now)) }
{
    let Some(command) = read_command(line.text) else {
        return write_bad_command(alloc, output, line);
    };
    write_refused_said(alloc, output, known, line, &command)?;
    known.rooms.note(&command)
}

/// Writes why the command of a line is refused, if it is.
fn write_refused_said(
    alloc: Global,
    output: &mut Text,
    known: &mut Known,
    line: &ScriptPart<'_>,
    command: &Command,
) -> Result<(), AllocError>
    ensures text { OnOk result (output.new ≡ output.old ++ refused_said line.now.script.now known.old line.now.number line.now.text.now (name_in command.now) (refusal_of known.old.rooms command.now)) }
    ensures rooms { OnOk result (known.new.rooms ≡ known.old.rooms) }
    ensures unknown_names { OnOk result (known.new.unknown_names ≡ met_if_absent known.old.unknown_names (name_in command.now) (refusal_of known.old.rooms command.now)) }
{
    match known.rooms.refusal_of(command) {
        None => Ok(()),
        Some(Refusal::NoRoom) => {
            let unknown_names = &mut known.unknown_names;
            write_absent_said(alloc, output, unknown_names, line, command.name())
        }
        Some(refusal) => {
            let remark = Remark::new(line.number, refusal.sentence());
            write_place(alloc, output, &remark, &[], line.text)?;
            write_simulators_note(output, known.rooms.simulators_of(command.name()))
        }
    }
}

/// Writes that no room of this name is open at a line, unless an earlier line has the same name.
fn write_absent_said(
    alloc: Global,
    output: &mut Text,
    unknown_names: &mut UnknownNames,
    line: &ScriptPart<'_>,
    name: &Name,
) -> Result<(), AllocError>
    ensures text { OnOk result (output.new ≡ output.old ++ absent_said line.now.script.now unknown_names.old line.now.number line.now.text.now name.now) }
    ensures unknown_names { OnOk result (unknown_names.new ≡ met name.now unknown_names.old) }
{
    let bytes = name.as_str().as_bytes();
    if unknown_names.meet(alloc, bytes)? {
        return Ok(());
    }
    let remark = Remark::new(line.number, Refusal::NoRoom.sentence());
    write_place(alloc, output, &remark, &[], line.text)?;
    write_meant(output, line.script, bytes)
}

/// Writes which room may be meant by a name of no open room.
fn write_meant(output: &mut Text, script: &[u8], name: &[u8]) -> Result<(), AllocError>
    ensures { OnOk result (output.new ≡ output.old ++ meant script.now name.now) }
{
    if has_room_line(name, script) {
        write_indented(output, NOT_OPEN)
    } else {
        write_near_room(output, script, name)
    }
}

/// Writes how many simulators a room has, if one is open.
fn write_simulators_note(output: &mut Text, simulators: Option<u8>) -> Result<(), AllocError>
    ensures { OnOk result (output.new ≡ output.old ++ simulators_note simulators) }
{
    match simulators {
        None => Ok(()),
        Some(count) => write_count_note(output, u64::from(count)),
    }
}

/// Writes that a room has this many simulators.
fn write_count_note(output: &mut Text, simulators: u64) -> Result<(), AllocError>
    ensures { OnOk result (output.new ≡ output.old ++ count_note simulators) }
{
    output.put(COUNTED)?;
    output.put_spaced_number(simulators)?;
    output.put(b"\n")
}

/// Writes what is said of a line that is no command.
fn write_bad_command(
    alloc: Global,
    output: &mut Text,
    line: &ScriptPart<'_>,
) -> Result<(), AllocError>
    ensures { OnOk result (output.new ≡ output.old ++ bad_command line.now.number line.now.text.now) }
{
    let remark = Remark::new(line.number, TextFault::NoCommand.sentence());
    write_form_fault(alloc, output, &remark, line.text, &COMMANDS)?;
    write_advice(output, &NO_COMMAND, line.text)
}

/// Whether a block comes after a line.
fn is_open(line: &[u8]) -> bool
    ensures { result ≡ is_open line.now }
{
    line == b"open".as_slice()
}

/// The number of the line after an entry that begins with the line of this number, which `later` follows.
fn next_number(number: u64, line: &[u8], later: &[u8]) -> u64
    ensures { result ≡ next_number number line.now later.now }
{
    if is_open(line) {
        later_line(number, 1 + count_lines(block_in_front(later)))
    } else {
        later_line(number, 1)
    }
}

/// What comes after an entry that begins with a line, which `later` follows.
fn text_after<'a>(line: &[u8], later: &'a [u8]) -> &'a [u8]
    ensures text { result.now ≡ text_after line.now later.now }
    ensures within { length result.now ≤ length later.now }
{
    if is_open(line) {
        &later[block_extent(later)..]
    } else {
        later
    }
}

/// The block with which a text begins: up to its line `end`, or else all.
pub(crate) fn block_in_front(text: &[u8]) -> &[u8]
    ensures { result.now ≡ block_in_front text.now }
{
    &text[..block_extent(text)]
}

pub(crate) fn block_extent(text: &[u8]) -> usize
    ensures value { result ≡ block_extent text.now }
    ensures within { result ≤ length text.now }
{
    block_len(text).unwrap_or(text.len())
}
