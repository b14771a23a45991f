//! What is said of faults as JSON: an object a line.
ghost use Rattle.std.specs.Prelude.{◌≡◌, ◌++◌, IfOk, OnOk, drop, true};
ghost use Rattle.serde_json.specs.View.{view};
ghost use Rattle.json_lines.specs.Lines.{json_line};
ghost use Rattle.json_lines.specs.Values.{entry_data};
ghost use Rattle.file_faults.specs.Json.{enough_in, fault_data, fault_in, head_lines, hints_data, more_data, more_in, note_data, refused_data};

use fault_text::{ENOUGH, Spot, lines_after};
use io_text::Text;
use json_lines::{text_value, write_line};
use room_files::{next_line, split_line};
use room_warnings::Format;
use serde_json::{Value, json};
use std::alloc::{AllocError, Global};

/// Writes what is said of a part of a file, if anything is.
pub(crate) fn write_fault(
    alloc: Global,
    output: &mut Text,
    refused: bool,
    spot: &Spot,
    said: &[u8],
) -> Result<(), AllocError>
    ensures { OnOk result (output.new ≡ output.old ++ fault_in true refused spot.now said.now) }
{
    match said {
        [] => Ok(()),
        _ => write_fault_line(alloc, output, refused, spot, said),
    }
}

#[tactic(auto, using(crate::proofs::Floats::fault_is))]
fn write_fault_line(
    alloc: Global,
    output: &mut Text,
    refused: bool,
    spot: &Spot,
    said: &[u8],
) -> Result<(), AllocError>
    ensures { OnOk result (output.new ≡ output.old ++ json_line (fault_data refused spot.now said.now)) }
{
    let value = fault_value(alloc, refused, spot, said)?;
    write_line(alloc, output, &value)
}

fn fault_value(alloc: Global, refused: bool, spot: &Spot, said: &[u8]) -> Result<Value, AllocError>
    ensures { IfOk result (λ value. view value ≡ fault_data refused spot.now said.now) }
{
    let hints = hints_value(alloc, head_lines(refused, spot.place), said)?;
    let first = refused_value(alloc, refused, said)?;
    let place = place_value(spot.place);
    let (line, what) = (spot.line, spot.what);
    json!(in alloc; {
        "hints": hints,
        "kind": "fault",
        "line": line,
        "place": place,
        "refused": first,
        "what": what
    })
}

/// How many lines of what is said of a fault are not hints.
fn head_lines(refused: bool, place: Option<usize>) -> u64
    ensures { result ≡ head_lines refused place }
{
    u64::from(refused) + if place.is_some() { 3 } else { 1 }
}

/// The lines after the first ones, without the blanks before each.
fn hints_value(alloc: Global, heads: u64, said: &[u8]) -> Result<Value, AllocError>
    ensures { IfOk result (λ value. view value ≡ hints_data heads said.now) }
{
    let mut values = Vec::new(alloc);
    let mut rest = lines_after(said, heads);
    while let Some((line, later)) = next_line(rest) {
        values.push(note_value(alloc, line)?)?;
        rest = later;
    }
    Ok(Value::Array(values))
}

/// The line that says that a block is refused.
fn refused_value(alloc: Global, refused: bool, said: &[u8]) -> Result<Value, AllocError>
    ensures { IfOk result (λ value. view value ≡ refused_data refused said.now) }
{
    if !refused {
        return Ok(Value::Null);
    }
    let (line, _) = split_line(said);
    note_value(alloc, line)
}

/// A line for people, without the four blanks before it.
fn note_value(alloc: Global, line: &[u8]) -> Result<Value, AllocError>
    ensures { IfOk result (λ value. view value ≡ note_data line.now) }
{
    text_value(alloc, after_blanks(line))
}

fn after_blanks(line: &[u8]) -> &[u8]
    ensures { result.now ≡ drop 4 line.now }
{
    if line.len() < 4 { &[] } else { &line[4..] }
}

/// A place, or `null` for none.
fn place_value(place: Option<usize>) -> Value
    ensures { view result ≡ entry_data place }
{
    match place {
        Some(place) => Value::from(place),
        None => Value::Null,
    }
}

/// Writes that no more is explained, as text or as JSON.
pub(crate) fn write_enough(format: Format, output: &mut Text) -> Result<(), AllocError>
    ensures { OnOk result (output.new ≡ output.old ++ enough_in format.json) }
{
    write_more_in(format, output, ENOUGH)
}

/// Writes how many parts were not explained, as text or as JSON, if there are some.
pub(crate) fn write_more_in(
    format: Format,
    output: &mut Text,
    said: &[u8],
) -> Result<(), AllocError>
    ensures { OnOk result (output.new ≡ output.old ++ more_in format.json said.now) }
{
    match said {
        _ if !format.json => output.put(said),
        [] => Ok(()),
        _ => write_more_line(format.alloc, output, said),
    }
}

#[tactic(auto, using(crate::proofs::Floats::more_is))]
fn write_more_line(alloc: Global, output: &mut Text, said: &[u8]) -> Result<(), AllocError>
    ensures { OnOk result (output.new ≡ output.old ++ json_line (more_data said.now)) }
{
    let value = more_value(alloc, said)?;
    write_line(alloc, output, &value)
}

fn more_value(alloc: Global, said: &[u8]) -> Result<Value, AllocError>
    ensures { IfOk result (λ value. view value ≡ more_data said.now) }
{
    let (line, _) = split_line(said);
    let what = note_value(alloc, line)?;
    json!(in alloc; {"kind": "more", "what": what})
}
