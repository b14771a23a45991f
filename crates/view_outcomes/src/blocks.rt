//! The outcomes of all rooms of a file.
ghost use Rattle.std.specs.Prelude.{◌≡◌, ◌≤◌, IfOk, length};
ghost use Rattle.io_text.specs.Reading.{most_bytes};
ghost use Rattle.view_outcomes.specs.Blocks.{IsOutcomesFor, is_for_people, refused_in};

use crate::rooms::write_rooms;
use crate::search::Search;
use io_text::Text;
use room_files::{Answer, BlockList, Kinds, Setup, outcome_if, read_all_blocks};
use run_search::Progress;
use std::alloc::{AllocError, Global};

/// Searches each room of a file, and writes the lines of the refused blocks and then what is asked for of each room; or only this, as JSON or if it is one outcome. All is
/// well if no block was refused, each room was searched to the end, and each run of each keeps its room's task, with each vector of inputs that is asked for; or, if one
/// outcome is asked for, each room has it. Reports how many nodes of a room have been searched.
///
/// # Errors
///
/// An allocation that fails.
pub fn search_blocks<P: Progress>(
    alloc: Global,
    input: &[u8],
    search: &Search<'_>,
    progress: &mut P,
) -> Result<Answer, AllocError>
    requires { length input.now ≤ most_bytes }
    ensures { IfOk result (λ answer. IsOutcomesFor search.now input.now answer.outcome answer.output) }
{
    let no_blocks = Setup::new(BlockList::new(alloc), Text::new(alloc));
    let Setup { rooms, refused, .. } = read_all_blocks(alloc, Kinds::All, no_blocks, input)?;
    let is_accepted = refused.is_empty();
    let mut output = refused_in(alloc, search, refused);
    let is_well = write_rooms(alloc, &rooms, search, &mut output, progress)?;
    let outcome = outcome_if(is_accepted & is_well);
    Ok(Answer { output, outcome })
}

/// The lines of the refused blocks, in text for people.
fn refused_in(alloc: Global, search: &Search<'_>, refused: Text) -> Text
    ensures { result ≡ refused_in (is_for_people search.now) refused }
{
    if search.is_for_people() {
        refused
    } else {
        Text::new(alloc)
    }
}
