//! What the fault of a block is about.
ghost use Rattle.std.specs.Prelude.{◌≡◌, ◌++◌, ◌+◌, ◌-◌, ◌≤◌, OnOk, drop, length, map, option_map, take};
ghost use Rattle.std.specs.Str.{str_eq_ignore_ascii_case};
ghost use Rattle.room_spec.specs.Blocks.{is_protocol};
ghost use Rattle.room_files.specs.Lines.{text_lines};
ghost use Rattle.room_files.specs.declared.fault.BlockFault.TheVariants.{NameTaken};
ghost use Rattle.fault_text.specs.Blocks.{block_fault, block_notes, choices_if, crash_note, end_note, end_notes, end_place, first_form, forms_at, head_fault, is_end_place, is_like_end, is_reduction, is_second, later_forms, later_line, line_ends, line_fault, line_of, may_have_task, other_kind, program_from, program_fault, program_of, program_place, reduction_form, room_form, simulators_line, token_fault_hints, widths};
ghost use Rattle.fault_text.specs.Choices.{choices_note, comparison_hint, last_rule_hint};
ghost use Rattle.fault_text.specs.Lines.{indented, line_at};
ghost use Rattle.fault_text.specs.Phrases.{form_fault};

use crate::choices::{write_choices, write_comparison_hint, write_last_rule_hint};
use crate::hints::{
    NO_BLOCK, letters_of, write_advice, write_quoted, write_token_hints, write_unknown_hints,
};
use crate::lines::{line_at, split_text, write_indented};
use crate::phrases::{COMMANDS, fits_one, write_form_fault};
use crate::places::{Remark, last_line, write_heading, write_place};
use io_text::Text;
use protocol_lang::ParseFault;
use room_files::{BlockFault, next_line, split_line};
use room_spec::SpecFault;
use std::alloc::{AllocError, Global};

/// How many lines of a block may come up to its line `protocol`: seven, one of a task, and those of eight crashes.
pub const HEAD_LINES: usize = 16;

/// What takes how many bits of the step numbers.
const WIDTHS: &[u8] =
    b"M simulators and n inputs take M * n * b bits: b is 1 for one round, 2 for 2 and 3, 3 for 4 to 7, and 4 from 8 on";

/// The same in a reduction.
const REDUCTION_WIDTHS: &[u8] =
    b"M simulators and N processes take M * N * b bits: b is 1 for one round, 2 for 2 and 3, 3 for 4 to 7, and 4 from 8 on";

/// What may be used before the first snapshot.
const FIRST_WORDS: &[u8] =
    b"before its first write a process has no snapshot: numbers, `input`, `id` and `n` can stand here";

/// A line that is not quite `end`.
const NOT_END: &[u8] = b"this line is not exactly `end`";

/// A line that no block has.
const END_MISSING: &[u8] = b"a line `end` is missing before this line";

/// The forms of a block's lines after the sixth. In version 1, and after the seventh line, there is no task.
const LATER_LINES: [&[u8]; 3] = [b"task agree K", b"crash J after V", b"protocol"];

/// A text that begins with a block.
#[derive(Clone, Copy)]
struct BlockText<'a> {
    /// The number of its first line.
    first: u64,
    text: &'a [u8],
}

/// Writes what the fault of a block is about, with which this text begins. The block's first line has this number.
pub fn write_block_fault(
    alloc: Global,
    output: &mut Text,
    first: u64,
    text: &[u8],
    fault: SpecFault,
) -> Result<(), AllocError>
    ensures { OnOk result (output.new ≡ output.old ++ block_fault first text.now fault) }
{
    match fault {
        SpecFault::BadProtocol(fault) => write_program_fault(alloc, output, first, text, fault),
        _ => write_head_fault(alloc, output, &BlockText { first, text }, fault),
    }
}

/// Writes the same of a fault that is not one of the protocol's text.
fn write_head_fault(
    alloc: Global,
    output: &mut Text,
    block: &BlockText<'_>,
    fault: SpecFault,
) -> Result<(), AllocError>
    ensures { OnOk result (output.new ≡ output.old ++ head_fault block.now.first block.now.text.now fault) }
{
    let line = line_of(fault);
    write_line_fault(alloc, output, block, line, BlockFault::Spec(fault))?;
    write_block_notes(alloc, output, block.first, block.text, fault)
}

/// Writes what may help with a fault of a block besides what is said of its line: how many bits step numbers take, which simulators there
/// are, or which line may be meant as the last.
fn write_block_notes(
    alloc: Global,
    output: &mut Text,
    first: u64,
    text: &[u8],
    fault: SpecFault,
) -> Result<(), AllocError>
    ensures { OnOk result (output.new ≡ output.old ++ block_notes first text.now fault) }
{
    match fault {
        SpecFault::TooWide => write_indented(output, widths(text)),
        SpecFault::CrashLine(_) => write_crash_note(output, line_at(text, simulators_line(text))),
        SpecFault::Truncated => write_end_notes(alloc, output, first, text),
        _ => Ok(()),
    }
}

/// Writes which simulators a room has, by the line that says how many they are.
fn write_crash_note(output: &mut Text, simulators: &[u8]) -> Result<(), AllocError>
    ensures { OnOk result (output.new ≡ output.old ++ crash_note simulators.now) }
{
    let counted = b"`, which are counted from 0";
    write_quoted(output, b"the room has `", simulators, counted)
}

/// Writes which line of a text may be meant as the last of the block with which it begins, or comes after it. The block has no line `end`.
fn write_end_notes(
    alloc: Global,
    output: &mut Text,
    first: u64,
    text: &[u8],
) -> Result<(), AllocError>
    ensures { OnOk result (output.new ≡ output.old ++ end_notes first text.now) }
{
    let (line, later) = split_line(text);
    if !fits_one(line, &[first_form(text, 1)]) {
        return Ok(());
    }
    match end_place(later_line(first, 1), later) {
        Some((number, line)) => write_end_note(alloc, output, number, line),
        None => Ok(()),
    }
}

/// Writes that the line of this number may be meant as a block's last, or comes after it.
fn write_end_note(
    alloc: Global,
    output: &mut Text,
    number: u64,
    line: &[u8],
) -> Result<(), AllocError>
    ensures { OnOk result (output.new ≡ output.old ++ end_note number line.now) }
{
    let sentence = if is_like_end(line) {
        NOT_END
    } else {
        END_MISSING
    };
    write_place(alloc, output, &Remark { number, sentence }, &[], line)
}

/// The first line that may be meant as a block's last, or that no block has, with its number. The text's first line has the number `first`.
#[tactic(auto, unfolding(crate::specs::Blocks::end_place))]
fn end_place(first: u64, text: &[u8]) -> Option<(u64, &[u8])>
    ensures { option_map (λ place. (place.0, place.1.now)) result ≡ end_place first (text_lines text.now) }
{
    let mut rest = text;
    let mut number = first;
    while let Some((line, later)) = next_line(rest) {
        if is_end_place(line) {
            return Some((number, line));
        }
        rest = later;
        number = later_line(number, 1);
    }
    None
}

/// Whether a line may be meant as a block's last, or is one of a script or a transcript that can't be in a block.
fn is_end_place(line: &[u8]) -> bool
    ensures { result ≡ is_end_place line.now }
{
    is_like_end(line) || line == b"events".as_slice() || fits_one(line, &COMMANDS)
}

/// Whether a line's first word is `end` in small or capital letters.
fn is_like_end(line: &[u8]) -> bool
    ensures { result ≡ is_like_end line.now }
{
    let (word, _) = split_text(line, letters_of(line));
    word.eq_ignore_ascii_case(b"end")
}

/// The line of a block that has this fault, which is not one of its protocol's text.
pub(crate) fn line_of(fault: SpecFault) -> usize
    ensures { result ≡ line_of fault }
{
    match fault {
        SpecFault::Truncated | SpecFault::BadProtocol(_) => 1,
        SpecFault::BadName => 2,
        SpecFault::Inputs => 3,
        SpecFault::Simulators | SpecFault::Processes => 4,
        SpecFault::Rounds | SpecFault::TooWide => 5,
        SpecFault::Turns => 6,
        SpecFault::BadLine(line)
        | SpecFault::CrashLine(line)
        | SpecFault::Repeated(line)
        | SpecFault::TaskLine(line) => line,
    }
}

/// Writes that the name of a block, with which this text begins, is taken. The block's first line has this number.
pub fn write_name_taken(
    alloc: Global,
    output: &mut Text,
    first: u64,
    text: &[u8],
) -> Result<(), AllocError>
    ensures { OnOk result (output.new ≡ output.old ++ line_fault first text.now 2 NameTaken) }
{
    let block = BlockText { first, text };
    write_line_fault(alloc, output, &block, 2, BlockFault::NameTaken)
}

/// Writes the sentence of a fault about a line of a block.
fn write_line_fault(
    alloc: Global,
    output: &mut Text,
    block: &BlockText<'_>,
    line: usize,
    fault: BlockFault,
) -> Result<(), AllocError>
    ensures { OnOk result (output.new ≡ output.old ++ line_fault block.now.first block.now.text.now line fault) }
{
    let number = later_line(block.first, line.saturating_sub(1) as u64);
    let remark = Remark::new(number, fault.sentence());
    write_line_forms(alloc, output, &remark, block.text, line)?;
    write_other_kind(output, fault, line_at(block.text, line as u64))
}

/// Writes a remark about a line of a block, and the form that it should have. With this text the block begins.
fn write_line_forms(
    alloc: Global,
    output: &mut Text,
    remark: &Remark<'_>,
    text: &[u8],
    line: usize,
) -> Result<(), AllocError>
    ensures { OnOk result (output.new ≡ output.old ++ form_fault remark.now.number remark.now.sentence.now (line_at line text.now) (forms_at text.now line)) }
{
    let bytes = line_at(text, line as u64);
    if line <= 6 {
        write_form_fault(alloc, output, remark, bytes, &[first_form(text, line)])
    } else {
        write_form_fault(alloc, output, remark, bytes, later_forms(text, line))
    }
}

/// Writes where a line belongs that isn't of the form that it should have in a block, or that begins a block with no line `end`, if it
/// looks like another line.
fn write_other_kind(output: &mut Text, fault: BlockFault, line: &[u8]) -> Result<(), AllocError>
    ensures { OnOk result (output.new ≡ output.old ++ other_kind fault line.now) }
{
    match fault {
        BlockFault::Spec(SpecFault::Truncated | SpecFault::BadLine(_)) => {
            write_advice(output, &NO_BLOCK, line)
        }
        _ => Ok(()),
    }
}

/// The number of a line that comes after the line of another number. No input has as many lines as numbers can count.
pub fn later_line(first: u64, count: u64) -> u64
    ensures { result ≡ later_line first count }
{
    first.saturating_add(count)
}

/// The form of the line of this number, up to 6, in a block with which this text begins.
pub(crate) fn first_form(text: &[u8], line: usize) -> &'static [u8]
    ensures { result.now ≡ first_form text.now line }
{
    if is_reduction(text) {
        reduction_form(line)
    } else {
        room_form(line)
    }
}

fn reduction_form(line: usize) -> &'static [u8]
    ensures { result.now ≡ reduction_form line }
{
    match line {
        1 => b"reduction 1",
        3 => b"inputs VO",
        4 => b"processes Q",
        _ => room_form(line),
    }
}

fn room_form(line: usize) -> &'static [u8]
    ensures { result.now ≡ room_form line }
{
    match line {
        1 => b"bgsim B",
        2 => b"room N",
        3 => b"inputs VW",
        4 => b"simulators M",
        5 => b"rounds S",
        _ => b"turns T",
    }
}

/// The forms of a block's line of this number, from 7 on. With this text the block begins.
pub(crate) fn later_forms(text: &[u8], line: usize) -> &'static [&'static [u8]]
    ensures { map (λ form. form.now) result.now ≡ later_forms text.now line }
{
    if line == 7 && may_have_task(text) {
        &LATER_LINES
    } else {
        &LATER_LINES[1..]
    }
}

/// Whether line 7 of a block may say a task: in version 2 and in a reduction.
fn may_have_task(text: &[u8]) -> bool
    ensures { result ≡ may_have_task text.now }
{
    is_second(line_at(text, 1)) || is_reduction(text)
}

/// Whether a block is meant as that of a reduction.
fn is_reduction(text: &[u8]) -> bool
    ensures { result ≡ is_reduction text.now }
{
    line_at(text, 1).starts_with(b"reduction")
}

/// The number of the line that says how many simulators there are.
fn simulators_line(text: &[u8]) -> u64
    ensures { result ≡ simulators_line text.now }
{
    if is_reduction(text) { 3 } else { 4 }
}

/// What takes how many bits of a room's step numbers.
fn widths(text: &[u8]) -> &'static [u8]
    ensures { result.now ≡ widths text.now }
{
    if is_reduction(text) {
        REDUCTION_WIDTHS
    } else {
        WIDTHS
    }
}

/// Whether a block with this first line is of version 2.
fn is_second(line: &[u8]) -> bool
    ensures { result ≡ is_second line.now }
{
    line == b"bgsim 2".as_slice()
}

/// How many lines a block has up to its line `protocol`, after this many; and what comes after that line. With this text the block goes on.
#[tactic(auto, unfolding(crate::specs::Blocks::program_from))]
fn program_from(most: usize, passed: u64, text: &[u8]) -> (u64, &[u8])
    requires { passed + most ≤ HEAD_LINES }
    ensures lines { result.0 ≡ (program_from most passed text.now).0 }
    ensures program { result.1.now ≡ (program_from most passed text.now).1 }
    ensures few { result.0 ≤ HEAD_LINES }
{
    if most == 0 {
        return (passed, &[]);
    }
    let (line, later) = split_line(text);
    if is_protocol(line) {
        return (passed + 1, later);
    }
    program_from(most - 1, passed + 1, later)
}

fn is_protocol(line: &[u8]) -> bool
    ensures { result ≡ is_protocol line.now }
{
    line == b"protocol".as_slice()
}

/// How many lines a block has up to its line `protocol`, and what comes after that line. With this text the block begins.
pub fn program_of(text: &[u8]) -> (u64, &[u8])
    ensures lines { result.0 ≡ (program_of text.now).0 }
    ensures program { result.1.now ≡ (program_of text.now).1 }
    ensures few { result.0 ≤ HEAD_LINES }
{
    program_from(HEAD_LINES, 0, text)
}

/// A place of a block's protocol.
#[derive(Clone, Copy)]
struct ProgramPlace<'a> {
    /// The number of the block's first line.
    first: u64,
    /// How many of its lines come before the protocol's text.
    lines: u64,
    /// What the protocol's text has before the place,
    before: &'a [u8],
    /// and from it on.
    behind: &'a [u8],
}

/// Writes this sentence about a place of a block's protocol.
fn write_program_place(
    alloc: Global,
    output: &mut Text,
    place: &ProgramPlace<'_>,
    sentence: &[u8],
) -> Result<(), AllocError>
    requires { place.now.lines ≤ HEAD_LINES }
    ensures { OnOk result (output.new ≡ output.old ++ program_place place.now.first place.now.lines sentence.now place.now.before.now place.now.behind.now) }
{
    let number = later_line(place.first, place.lines + line_ends(place.before));
    let (back, _) = split_line(place.behind);
    let remark = Remark { number, sentence };
    write_place(alloc, output, &remark, last_line(place.before), back)
}

/// Writes what is said of the fault of a block's protocol. With this text the block begins.
fn write_program_fault(
    alloc: Global,
    output: &mut Text,
    first: u64,
    text: &[u8],
    fault: ParseFault,
) -> Result<(), AllocError>
    ensures { OnOk result (output.new ≡ output.old ++ program_fault first text.now fault) }
{
    let words = fault.sentence().as_bytes();
    let (lines, program) = program_of(text);
    let Some(place) = fault.place() else {
        return write_heading(output, later_line(first, lines), words);
    };
    let (before, behind) = split_text(program, place);
    let at = ProgramPlace {
        first,
        lines,
        before,
        behind,
    };
    write_program_place(alloc, output, &at, words)?;
    let (_, around) = split_text(program, place.saturating_sub(1));
    let (back, _) = split_line(behind);
    write_choices_if(alloc, output, before, fault)?;
    let near = NearFault {
        before,
        around,
        back,
    };
    write_token_fault_hints(alloc, output, &near, fault)
}

/// How many line ends a text has.
pub fn line_ends(text: &[u8]) -> u64
    ensures value { result ≡ line_ends text.now }
    ensures within { result ≤ length text.now }
{
    text.iter().filter(|byte| **byte == b'\n').count() as u64
}

/// Writes what could follow these bytes of a protocol's text, if its fault is that a token can't, or that there is none.
fn write_choices_if(
    alloc: Global,
    output: &mut Text,
    before: &[u8],
    fault: ParseFault,
) -> Result<(), AllocError>
    ensures { OnOk result (output.new ≡ output.old ++ choices_if before.now fault) }
{
    match fault {
        ParseFault::Unexpected(_) | ParseFault::BadToken(_) => {
            write_choices_note(alloc, output, before)
        }
        _ => Ok(()),
    }
}

/// What a protocol's text has near the place of its fault.
#[derive(Clone, Copy)]
struct NearFault<'a> {
    /// All before the place,
    before: &'a [u8],
    /// from the byte before it on,
    around: &'a [u8],
    /// and from there on up to the end of its line.
    back: &'a [u8],
}

/// Writes what may help with a protocol's text that has this near the place of its fault.
fn write_token_fault_hints(
    alloc: Global,
    output: &mut Text,
    near: &NearFault<'_>,
    fault: ParseFault,
) -> Result<(), AllocError>
    ensures { OnOk result (output.new ≡ output.old ++ token_fault_hints near.now.before.now near.now.around.now near.now.back.now fault) }
{
    match fault {
        ParseFault::BadToken(_) => {
            write_token_hints(output, near.around, near.back)?;
            write_last_rule_hint(alloc, output, near.before)?;
            write_unknown_hints(output, near.back)
        }
        ParseFault::Unexpected(_) => {
            write_token_hints(output, near.around, near.back)?;
            write_last_rule_hint(alloc, output, near.before)?;
            write_comparison_hint(alloc, output, near.before)
        }
        ParseFault::ViewInFirst(_) => write_indented(output, FIRST_WORDS),
        _ => Ok(()),
    }
}

/// Writes the line that says what could follow these bytes of a protocol's text.
fn write_choices_note(alloc: Global, output: &mut Text, before: &[u8]) -> Result<(), AllocError>
    ensures { OnOk result (output.new ≡ output.old ++ indented (choices_note before.now)) }
{
    output.put(b"    ")?;
    write_choices(alloc, output, before)?;
    output.put(b"\n")
}
