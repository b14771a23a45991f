//! What is above the lanes of a room.
ghost use Rattle.std.specs.Prelude.{◌≡◌, ◌++◌, ◌≤◌, IfOk, OnOk};
ghost use Rattle.room_files.specs.Lines.{text_lines};
ghost use Rattle.run_picture.specs.Heads.{after_protocol, before_end, head_height, head_shapes, head_width, inputs_count, inputs_words, is_end, is_protocol, line_shapes, lines_from, more_shapes, numbers_words, ordinary_words, own_count, own_input, own_words, processes_words, reduction_words, room_words, rounds_words, shown_lines, title_shapes};

use io_text::Text;
use picture_shapes::{Colour, Frame, Point, Sheet};
use room_files::next_line;
use room_spec::Spec;
use simulator_lanes::{CODE, Head, MARGIN, TITLE, WORDS, clipped, write_counted};
use std::alloc::{AllocError, Global};

/// The most lines of a protocol that are shown.
pub(crate) const MAX_LINES: u64 = 24;

/// Writes what is above the lanes of a room. Gives how high it is.
pub(crate) fn add_head(sheet: &mut Sheet, head: &Head) -> Result<u64, AllocError>
    ensures shapes { OnOk result (sheet.new ≡ sheet.old ++ head_shapes head.now) }
    ensures height { IfOk result (λ height. height ≡ head_height head.now) }
{
    add_title(sheet, &head.spec)?;
    let lines = add_lines(sheet, protocol_text(&head.block))?;
    Ok(67 + 13 * lines)
}

#[tactic(auto, unfolding(crate::specs::Heads::title_shapes))]
fn add_title(sheet: &mut Sheet, spec: &Spec) -> Result<(), AllocError>
    ensures { OnOk result (sheet.new ≡ sheet.old ++ title_shapes spec.now) }
{
    let name = Point { x: MARGIN, y: 26 };
    sheet.label(name, TITLE, Colour::Ink, spec.name().as_str().as_bytes())?;
    let numbers = room_words(sheet.alloc(), spec)?;
    let below = Point { x: MARGIN, y: 44 };
    sheet.label(below, WORDS, Colour::Faint, numbers.as_bytes())
}

/// What comes after a block's line `protocol`.
fn protocol_text(block: &[u8]) -> &[u8]
    ensures { text_lines result.now ≡ after_protocol (text_lines block.now) }
{
    let mut rest = block;
    while let Some((line, later)) = next_line(rest) {
        rest = later;
        if is_protocol(line) {
            return rest;
        }
    }
    rest
}

fn is_protocol(line: &[u8]) -> bool
    ensures { result ≡ is_protocol line.now }
{
    line == b"protocol".as_slice()
}

fn is_end(line: &[u8]) -> bool
    ensures { result ≡ is_end line.now }
{
    line == b"end".as_slice()
}

/// Writes the lines before the line `end`, as many as there is space for. Gives how many were written.
fn add_lines(sheet: &mut Sheet, text: &[u8]) -> Result<u64, AllocError>
    ensures shapes { OnOk result (sheet.new ≡ sheet.old ++ lines_from 0 (before_end (text_lines text.now))) }
    ensures count { IfOk result (λ count. count ≡ shown_lines (before_end (text_lines text.now))) }
{
    let mut index = 0;
    let mut rest = text;
    while let Some((line, later)) = next_line(rest) {
        if is_end(line) {
            return Ok(index);
        }
        if index == MAX_LINES {
            add_more(sheet, index)?;
            return Ok(index + 1);
        }
        add_line(sheet, index, line)?;
        index += 1;
        rest = later;
    }
    Ok(index)
}

#[tactic(auto, unfolding(crate::specs::Heads::line_shapes))]
fn add_line(sheet: &mut Sheet, index: u64, line: &[u8]) -> Result<(), AllocError>
    requires { index ≤ MAX_LINES }
    ensures { OnOk result (sheet.new ≡ sheet.old ++ line_shapes index line.now) }
{
    let words = clipped(sheet.alloc(), 84, line)?;
    let start = Point {
        x: MARGIN,
        y: 61 + 13 * index,
    };
    sheet.label(start, CODE, Colour::Faint, words.as_bytes())?;
    let above = Point {
        x: MARGIN,
        y: 51 + 13 * index,
    };
    sheet.hint(Frame::at(above, 600, 13), line)
}

/// Says that there are more lines.
#[tactic(auto, unfolding(crate::specs::Heads::more_shapes))]
fn add_more(sheet: &mut Sheet, index: u64) -> Result<(), AllocError>
    requires { index ≤ MAX_LINES }
    ensures { OnOk result (sheet.new ≡ sheet.old ++ more_shapes index) }
{
    let start = Point {
        x: MARGIN,
        y: 61 + 13 * index,
    };
    sheet.label(start, CODE, Colour::Faint, b"..")
}

/// How wide the lines are, with about 7 for each byte of the numbers.
#[tactic(auto, unfolding(crate::specs::Heads::head_width))]
pub(crate) fn head_width(alloc: Global, head: &Head) -> Result<u64, AllocError>
    ensures { IfOk result (λ width. width ≡ head_width head.now) }
{
    let words = room_words(alloc, &head.spec)?;
    Ok(7 * words.as_bytes().len().min(1000) as u64 + 32)
}

/// How many processes, simulators and rounds a room has, and which of the first two have which inputs.
fn room_words(alloc: Global, spec: &Spec) -> Result<Text, AllocError>
    ensures { IfOk result (λ words. words ≡ room_words spec.now) }
{
    let mut words = Text::new(alloc);
    if spec.is_reduction() {
        write_reduction(&mut words, spec)?;
    } else {
        write_ordinary(&mut words, spec)?;
    }
    Ok(words)
}

#[tactic(auto, unfolding(crate::specs::Heads::ordinary_words))]
fn write_ordinary(output: &mut Text, spec: &Spec) -> Result<(), AllocError>
    ensures { OnOk result (output.new ≡ output.old ++ ordinary_words spec.now) }
{
    write_processes(output, spec)?;
    write_numbers(output, spec)
}

#[tactic(auto, unfolding(crate::specs::Heads::processes_words))]
fn write_processes(output: &mut Text, spec: &Spec) -> Result<(), AllocError>
    ensures { OnOk result (output.new ≡ output.old ++ processes_words spec.now.inputs) }
{
    write_inputs_count(output, spec.n())?;
    write_inputs(output, spec)
}

#[tactic(auto, unfolding(crate::specs::Heads::inputs_count))]
fn write_inputs_count(output: &mut Text, count: usize) -> Result<(), AllocError>
    ensures { OnOk result (output.new ≡ output.old ++ inputs_count count) }
{
    write_counted(
        output,
        count as u64,
        b" process with input",
        b" processes with inputs",
    )
}

#[tactic(auto, unfolding(crate::specs::Heads::inputs_words))]
fn write_inputs(output: &mut Text, spec: &Spec) -> Result<(), AllocError>
    ensures { OnOk result (output.new ≡ output.old ++ inputs_words spec.now.inputs) }
{
    for process in 0..spec.n() {
        output.put_spaced_number(u64::from(spec.input(process)))?;
    }
    Ok(())
}

#[tactic(auto, unfolding(crate::specs::Heads::numbers_words))]
fn write_numbers(output: &mut Text, spec: &Spec) -> Result<(), AllocError>
    ensures { OnOk result (output.new ≡ output.old ++ numbers_words spec.now.simulators spec.now.rounds) }
{
    output.put(b", ")?;
    write_counted(output, spec.m() as u64, b" simulator", b" simulators")?;
    write_rounds(output, spec.rounds())
}

#[tactic(auto, unfolding(crate::specs::Heads::rounds_words))]
fn write_rounds(output: &mut Text, rounds: usize) -> Result<(), AllocError>
    ensures { OnOk result (output.new ≡ output.old ++ rounds_words rounds) }
{
    output.put(b", ")?;
    write_counted(output, rounds as u64, b" round", b" rounds")
}

/// In a reduction the simulators have the inputs.
#[tactic(auto, unfolding(crate::specs::Heads::reduction_words))]
fn write_reduction(output: &mut Text, spec: &Spec) -> Result<(), AllocError>
    ensures { OnOk result (output.new ≡ output.old ++ reduction_words spec.now) }
{
    write_counted(output, spec.n() as u64, b" process", b" processes")?;
    write_own(output, spec)?;
    write_rounds(output, spec.rounds())
}

#[tactic(auto, unfolding(crate::specs::Heads::own_words))]
fn write_own(output: &mut Text, spec: &Spec) -> Result<(), AllocError>
    ensures { OnOk result (output.new ≡ output.old ++ own_words spec.now.simulators spec.now.own) }
{
    output.put(b", ")?;
    write_own_count(output, spec.m())?;
    write_own_inputs(output, spec)
}

#[tactic(auto, unfolding(crate::specs::Heads::own_count))]
fn write_own_count(output: &mut Text, count: usize) -> Result<(), AllocError>
    ensures { OnOk result (output.new ≡ output.old ++ own_count count) }
{
    write_counted(
        output,
        count as u64,
        b" simulator with input",
        b" simulators with inputs",
    )
}

#[tactic(auto, unfolding(crate::specs::Heads::inputs_words))]
fn write_own_inputs(output: &mut Text, spec: &Spec) -> Result<(), AllocError>
    ensures { OnOk result (output.new ≡ output.old ++ inputs_words spec.now.own) }
{
    let _ = spec.shape(); // for the proof: there are no more own inputs than simulators
    for simulator in 0..spec.m() {
        write_own_input(output, spec.own(simulator))?;
    }
    Ok(())
}

fn write_own_input(output: &mut Text, own: Option<u32>) -> Result<(), AllocError>
    ensures { OnOk result (output.new ≡ output.old ++ own_input own) }
{
    match own {
        None => Ok(()),
        Some(own) => output.put_spaced_number(u64::from(own)),
    }
}
