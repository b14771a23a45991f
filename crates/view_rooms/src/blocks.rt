//! The outcomes of all rooms of a file.
ghost use Rattle.std.specs.Prelude.{◌≡◌, ◌≤◌, IfOk, length};
ghost use Rattle.io_text.specs.Reading.{most_bytes};
ghost use Rattle.view_rooms.specs.Blocks.{IsRoomsFor, refused_in};

use crate::plan::RoomPlan;
use crate::rooms::write_rooms;
use io_text::Text;
use room_files::{Answer, BlockList, Kinds, Setup, outcome_if, read_all_blocks};
use run_search::Progress;
use std::alloc::{AllocError, Global};

/// Searches all schedules of the simulators of each room of a file, and writes the lines of the refused blocks and then the outcomes of each room, each with a script for
/// `bgsim play` that leads to it; or only the outcomes, as JSON. All is well if no block was refused, each room was searched to the end, and for each node a schedule was
/// found. Reports how many nodes of a room have been searched.
///
/// # Errors
///
/// An allocation that fails.
pub fn search_rooms<P: Progress>(
    alloc: Global,
    input: &[u8],
    plan: &RoomPlan,
    progress: &mut P,
) -> Result<Answer, AllocError>
    requires { length input.now ≤ most_bytes }
    ensures { IfOk result (λ answer. IsRoomsFor plan.now input.now answer.outcome answer.output) }
{
    let no_blocks = Setup::new(BlockList::new(alloc), Text::new(alloc));
    let Setup { rooms, refused, .. } = read_all_blocks(alloc, Kinds::All, no_blocks, input)?;
    let is_accepted = refused.is_empty();
    let mut output = refused_in(alloc, plan, refused);
    let is_well = write_rooms(alloc, &rooms, plan, &mut output, progress)?;
    let outcome = outcome_if(is_accepted & is_well);
    Ok(Answer { output, outcome })
}

/// The lines of the refused blocks, in text for people.
fn refused_in(alloc: Global, plan: &RoomPlan, refused: Text) -> Text
    ensures { result ≡ refused_in plan.now.json refused }
{
    if plan.json { Text::new(alloc) } else { refused }
}
