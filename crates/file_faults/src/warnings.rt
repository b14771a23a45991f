//! What is warned of in the rooms of a file.
ghost use Rattle.std.specs.Prelude.{◌≡◌, ◌<◌, ◌++◌, IfOk, None, OnOk, length};
ghost use Rattle.serde_json.specs.View.{view};
ghost use Rattle.json_lines.specs.Lines.{json_line};
ghost use Rattle.room_warnings.specs.Json.{warning_data};
ghost use Rattle.file_faults.specs.Json.{enough_in};
ghost use Rattle.file_faults.specs.Walks.{left_after, said_if_left};
ghost use Rattle.file_faults.specs.declared.warnings.TheConstants.{EMPTY_FILE};
ghost use Rattle.file_faults.specs.Warnings.{block_warnings, empty_warning, file_warnings, next_part, part_after, part_warnings, warnings_said};

use crate::scripts::{begins_with_block, block_extent, block_in_front};
use crate::walk::write_part;
use fault_text::{MOST_EXPLAINED, later_line, write_indented};
use io_text::Text;
use json_lines::{text_value, write_line};
use room_files::{Kinds, count_lines, read_room, split_line};
use room_warnings::{Format, write_warnings};
use serde_json::{Value, json};
use std::alloc::{AllocError, Global};

/// What is warned of if a file has nothing in it.
const EMPTY_FILE: &[u8] = b"warning: the file is empty";

/// What is warned of in a file, which may be rooms, a script or a transcript: in its valid blocks, or that it is empty.
pub fn warnings_of(alloc: Global, input: &[u8]) -> Result<Text, AllocError>
    ensures { IfOk result (λ text. text ≡ file_warnings input.now) }
{
    warnings_said(alloc, false, input)
}

/// The same as text, or as JSON.
#[tactic(auto, unfolding(crate::specs::Warnings::warnings_said))]
pub(crate) fn warnings_said(alloc: Global, json: bool, input: &[u8]) -> Result<Text, AllocError>
    ensures { IfOk result (λ text. text ≡ warnings_said json input.now) }
{
    let format = Format { alloc, json };
    let mut output = Text::new(alloc);
    write_empty_warning(format, &mut output, input)?;
    let mut rest = input;
    let mut number = 1;
    let mut left = MOST_EXPLAINED;
    'walk: while !rest.is_empty() {
        let Some(fewer) = write_first(format, &mut output, left, number, rest)? else {
            return Ok(output);
        };
        left = fewer;
        number = next_part(number, rest);
        rest = part_after(rest);
    }
    Ok(output)
}

/// Writes that a file is empty, if it is.
fn write_empty_warning(format: Format, output: &mut Text, input: &[u8]) -> Result<(), AllocError>
    ensures { OnOk result (output.new ≡ output.old ++ empty_warning format.json input.now) }
{
    match input {
        [] if format.json => write_empty_line(format.alloc, output),
        [] => write_indented(output, EMPTY_FILE),
        _ => Ok(()),
    }
}

#[tactic(auto, using(crate::proofs::Floats::empty_is))]
fn write_empty_line(alloc: Global, output: &mut Text) -> Result<(), AllocError>
    ensures { OnOk result (output.new ≡ output.old ++ json_line (warning_data None None EMPTY_FILE.now)) }
{
    let value = empty_value(alloc)?;
    write_line(alloc, output, &value)
}

fn empty_value(alloc: Global) -> Result<Value, AllocError>
    ensures { IfOk result (λ value. view value ≡ warning_data None None EMPTY_FILE.now) }
{
    let what = text_value(alloc, EMPTY_FILE)?;
    json!(in alloc; {"kind": "warning", "line": null, "place": null, "what": what})
}

/// Writes what is warned of in the block with which a text begins, if it does, whose first line has this number. Gives how many may still be
/// warned of.
fn write_first(
    format: Format,
    output: &mut Text,
    left: usize,
    number: u64,
    text: &[u8],
) -> Result<Option<usize>, AllocError>
    ensures left { IfOk result (λ fewer. fewer ≡ left_after left (part_warnings format.json number text.now)) }
    ensures text { OnOk result (output.new ≡ output.old ++ said_if_left (enough_in format.json) left (part_warnings format.json number text.now)) }
{
    let mut said = Text::new(format.alloc);
    write_part_warnings(format, &mut said, number, text)?;
    write_part(format, output, left, said.as_bytes())
}

fn write_part_warnings(
    format: Format,
    output: &mut Text,
    number: u64,
    text: &[u8],
) -> Result<(), AllocError>
    ensures { OnOk result (output.new ≡ output.old ++ part_warnings format.json number text.now) }
{
    if !begins_with_block(text) {
        return Ok(());
    }
    write_block_warnings(format, output, number, block_in_front(text))
}

fn write_block_warnings(
    format: Format,
    output: &mut Text,
    number: u64,
    block: &[u8],
) -> Result<(), AllocError>
    ensures { OnOk result (output.new ≡ output.old ++ block_warnings format.json number block.now) }
{
    match read_room(format.alloc, Kinds::All, block)? {
        Ok((spec, _)) => write_warnings(format, output, number, block, &spec),
        Err(_) => Ok(()),
    }
}

/// The number of the line after the block or the line with which a text begins, whose first line has this number.
fn next_part(number: u64, text: &[u8]) -> u64
    ensures { result ≡ next_part number text.now }
{
    if begins_with_block(text) {
        later_line(number, count_lines(block_in_front(text)))
    } else {
        later_line(number, 1)
    }
}

/// What comes after the block or the line with which a text begins.
fn part_after(text: &[u8]) -> &[u8]
    ensures text { result.now ≡ part_after text.now }
    ensures shorter { 0 < length text.now → length result.now < length text.now }
{
    let (_, later) = split_line(text);
    if begins_with_block(text) {
        &later[block_extent(later)..]
    } else {
        later
    }
}
