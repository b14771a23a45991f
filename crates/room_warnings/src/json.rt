//! A warning, as text or as JSON.
ghost use Rattle.std.specs.Prelude.{◌≡◌, ◌++◌, IfOk, OnOk, Some};
ghost use Rattle.serde_json.specs.View.{view};
ghost use Rattle.json_lines.specs.Lines.{json_line};
ghost use Rattle.room_warnings.specs.Json.{warning_data, warning_in};

use fault_text::{Remark, write_place};
use io_text::Text;
use json_lines::{text_value, write_line};
use serde_json::{Value, json};
use std::alloc::{AllocError, Global};

/// How something is written: as text or as JSON, and with which allocator.
#[derive(Clone, Copy)]
pub struct Format {
    pub alloc: Global,
    pub json: bool,
}

/// A sentence about a place of a line, which has these bytes before the place and from it on.
#[derive(Clone, Copy)]
pub(crate) struct Warning<'a> {
    /// The number of the line.
    pub(crate) number: u64,
    pub(crate) sentence: &'a [u8],
    pub(crate) front: &'a [u8],
    pub(crate) back: &'a [u8],
}

/// Writes a warning.
pub(crate) fn write_warning(
    format: Format,
    output: &mut Text,
    warning: &Warning<'_>,
) -> Result<(), AllocError>
    ensures { OnOk result (output.new ≡ output.old ++ warning_in format.json warning.now.number warning.now.sentence.now warning.now.front.now warning.now.back.now) }
{
    let alloc = format.alloc;
    let Warning {
        number,
        sentence,
        front,
        back,
    } = *warning;
    if !format.json {
        return write_place(alloc, output, &Remark { number, sentence }, front, back);
    }
    write_warning_line(alloc, output, number, front.len() + 1, sentence)
}

#[tactic(auto, using(crate::proofs::Floats::warning_is))]
fn write_warning_line(
    alloc: Global,
    output: &mut Text,
    number: u64,
    place: usize,
    sentence: &[u8],
) -> Result<(), AllocError>
    ensures { OnOk result (output.new ≡ output.old ++ json_line (warning_data (Some number) (Some place) sentence.now)) }
{
    let value = warning_value(alloc, number, place, sentence)?;
    write_line(alloc, output, &value)
}

fn warning_value(
    alloc: Global,
    number: u64,
    place: usize,
    sentence: &[u8],
) -> Result<Value, AllocError>
    ensures { IfOk result (λ value. view value ≡ warning_data (Some number) (Some place) sentence.now) }
{
    let what = text_value(alloc, sentence)?;
    json!(in alloc; {"kind": "warning", "line": number, "place": place, "what": what})
}
