//! A file gone through part by part, with what is said of each, as long as not too much is said.
ghost use Rattle.std.specs.Prelude.{◌≡◌, ◌++◌, IfOk, OnOk};
ghost use Rattle.file_faults.specs.Json.{enough_in};
ghost use Rattle.file_faults.specs.Walks.{left_after, said_if_left};

use crate::json::write_enough;
use io_text::Text;
use room_warnings::Format;
use std::alloc::AllocError;

/// Writes what is said of a part, if it is said of some and there are parts left that may be explained, and else that there are enough. Gives how many are left,
/// or that the walk ends.
pub(crate) fn write_part(
    format: Format,
    output: &mut Text,
    left: usize,
    said: &[u8],
) -> Result<Option<usize>, AllocError>
    ensures left { IfOk result (λ fewer. fewer ≡ left_after left said.now) }
    ensures text { OnOk result (output.new ≡ output.old ++ said_if_left (enough_in format.json) left said.now) }
{
    if said.is_empty() {
        return Ok(Some(left));
    }
    if left == 0 {
        write_enough(format, output)?;
        return Ok(None);
    }
    output.put(said)?;
    Ok(Some(left - 1))
}
