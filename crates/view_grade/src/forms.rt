//! The forms that a goal may have, for people.
ghost use Rattle.std.specs.Prelude.{◌≡◌, IfOk};
ghost use Rattle.view_grade.specs.Goals.{goal_forms};

use io_text::Text;
use std::alloc::{AllocError, Global};

/// The forms that a goal may have, a line each.
///
/// # Errors
///
/// An allocation that failed.
pub fn goal_forms(alloc: Global) -> Result<Text, AllocError>
    ensures { IfOk result (λ said. said ≡ goal_forms) }
{
    let mut said = Text::new(alloc);
    said.put(b"    a goal is, for example, `held 0 and not decided 1 3 or crashed 0`\n")?;
    said.put(
        b"    expected in a claim: `decided J V`, `spent J`, `held J`, `going J`, `input J V`, `input J none`, `crashed I`, `simulator I decided V` or `history E`, or one of these after `not`\n",
    )?;
    said.put(b"    between two words is one space\n")?;
    Ok(said)
}
