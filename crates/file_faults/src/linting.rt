//! All faults of a file, whatever it is.
ghost use Rattle.std.specs.Prelude.{◌≡◌, ◌++◌, ◌≤◌, IfOk, OnOk, length, true};
ghost use Rattle.io_text.specs.Reading.{most_bytes};
ghost use Rattle.serde_json.specs.View.{view};
ghost use Rattle.json_lines.specs.Lines.{json_line};
ghost use Rattle.file_faults.specs.Lint.{IsLintFor, IsLintIn, kind_data, kind_line, kind_word, said_or_none};

use crate::kinds::{Kind, faults_of, objects_of};
use crate::warnings::warnings_said;
use io_text::Text;
use json_lines::write_line;
use room_files::{Answer, outcome_if};
use serde_json::{Value, json};
use std::alloc::{AllocError, Global};

/// Says what an input is read as (rooms, a script or a transcript), and all its faults. All is well if it has none.
///
/// # Errors
///
/// An allocation that failed.
#[tactic(auto, unfolding(crate::specs::Lint::IsLintFor))]
pub fn lint(alloc: Global, input: &[u8]) -> Result<Answer, AllocError>
    requires { length input.now ≤ most_bytes }
    ensures { IfOk result (λ answer. IsLintFor input.now answer.outcome answer.output) }
{
    let kind = Kind::of(input);
    let said = faults_of(alloc, kind, input)?;
    let mut output = Text::new(alloc);
    write_kind(&mut output, kind)?;
    write_said_or_none(&mut output, said.as_bytes())?;
    Ok(Answer {
        output,
        outcome: outcome_if(said.is_empty()),
    })
}

/// The same as JSON: an object that says what the input is read as, one for each fault, and one for each thing that is warned of.
///
/// # Errors
///
/// An allocation that failed.
pub fn lint_json(alloc: Global, input: &[u8]) -> Result<Answer, AllocError>
    requires { length input.now ≤ most_bytes }
    ensures { IfOk result (λ answer. IsLintIn true input.now answer.outcome answer.output) }
{
    let kind = Kind::of(input);
    let said = objects_of(alloc, kind, input)?;
    let mut output = Text::new(alloc);
    write_kind_object(alloc, &mut output, kind)?;
    let warnings = warnings_said(alloc, true, input)?;
    output.put_long(said.as_bytes())?;
    output.put_long(warnings.as_bytes())?;
    Ok(Answer {
        output,
        outcome: outcome_if(said.is_empty()),
    })
}

/// Writes what a file is read as, as JSON.
fn write_kind_object(alloc: Global, output: &mut Text, kind: Kind) -> Result<(), AllocError>
    ensures { OnOk result (output.new ≡ output.old ++ json_line (kind_data kind)) }
{
    let value = kind_value(alloc, kind)?;
    write_line(alloc, output, &value)
}

fn kind_value(alloc: Global, kind: Kind) -> Result<Value, AllocError>
    ensures { IfOk result (λ value. view value ≡ kind_data kind) }
{
    let word = kind_word(kind);
    json!(in alloc; {"kind": "file", "read_as": word})
}

fn kind_word(kind: Kind) -> &'static str
    ensures { result.now ≡ kind_word kind }
{
    match kind {
        Kind::Rooms => "rooms",
        Kind::Script => "script",
        Kind::Transcript => "transcript",
    }
}

/// Writes what a file is read as.
fn write_kind(output: &mut Text, kind: Kind) -> Result<(), AllocError>
    ensures { OnOk result (output.new ≡ output.old ++ kind_line kind) }
{
    match kind {
        Kind::Rooms => output.put(b"read as rooms\n"),
        Kind::Script => output.put(b"read as a script\n"),
        Kind::Transcript => output.put(b"read as a transcript\n"),
    }
}

/// Writes what is said of faults, or that there are none.
fn write_said_or_none(output: &mut Text, said: &[u8]) -> Result<(), AllocError>
    ensures { OnOk result (output.new ≡ output.old ++ said_or_none said.now) }
{
    if said.is_empty() {
        output.put(b"no faults\n")
    } else {
        output.put(said)
    }
}
