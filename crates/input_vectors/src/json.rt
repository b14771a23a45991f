//! Values as JSON.
ghost use Rattle.std.specs.Prelude.{◌≡◌, IfOk};
ghost use Rattle.serde_json.specs.View.{view};
ghost use Rattle.json_lines.specs.Values.{numbers_data};

use serde_json::Value;
use std::alloc::{AllocError, Global};

/// Values, in order.
///
/// # Errors
///
/// An allocation that fails.
pub fn values_value(alloc: Global, numbers: &[u32]) -> Result<Value, AllocError>
    ensures { IfOk result (λ value. view value ≡ numbers_data numbers.now) }
{
    let mut values = Vec::new(alloc);
    for number in numbers {
        values.push(Value::from(*number))?;
    }
    Ok(Value::Array(values))
}
