//! Texts and numbers.
ghost use Rattle.std.specs.Prelude.{◌≡◌, IfOk};
ghost use Rattle.serde_json.specs.Data.{null};
ghost use Rattle.serde_json.specs.View.{view};
ghost use Rattle.json_lines.specs.Values.{numbers_data, text_data};

use serde_json::Value;
use std::alloc::{AllocError, Global};
use std::str;

/// A text as a string; bytes that are not UTF-8 are `null`.
///
/// # Errors
///
/// An allocation that fails.
pub fn text_value(alloc: Global, bytes: &[u8]) -> Result<Value, AllocError>
    ensures { IfOk result (λ value. view value ≡ text_data bytes.now) }
{
    match str::from_utf8(bytes) {
        Ok(text) => Value::try_from_str(alloc, text),
        Err(_) => Ok(no_text()),
    }
}

/// What stands for bytes that are no text.
fn no_text() -> Value
    ensures { view result ≡ null }
{
    Value::Null
}

/// Numbers as an array, in order.
///
/// # Errors
///
/// An allocation that fails.
pub fn numbers_value(alloc: Global, numbers: &[u8]) -> Result<Value, AllocError>
    ensures { IfOk result (λ value. view value ≡ numbers_data numbers.now) }
{
    let mut values = Vec::new(alloc);
    for number in numbers {
        values.push(Value::from(*number))?;
    }
    Ok(Value::Array(values))
}
