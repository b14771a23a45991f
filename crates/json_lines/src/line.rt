//! Lines of JSON.
ghost use Rattle.std.specs.Prelude.{◌≡◌, ◌++◌, false, OnOk};
ghost use Rattle.serde_json.specs.View.{view};
ghost use Rattle.serde_json.specs.Written.{has_float};
ghost use Rattle.json_lines.specs.Lines.{json_line};

use io_text::Text;
use serde_json::Value;
use std::alloc::{AllocError, Global};

/// Writes a value, in which no number has a fraction, on a line of its own.
///
/// # Errors
///
/// An allocation that fails.
pub fn write_line(alloc: Global, output: &mut Text, value: &Value) -> Result<(), AllocError>
    requires { has_float (view value.now) ≡ false }
    ensures { OnOk result (output.new ≡ output.old ++ json_line (view value.now)) }
{
    let bytes = value.to_vec(alloc)?;
    output.put_two(bytes.as_slice(), b"\n")
}
