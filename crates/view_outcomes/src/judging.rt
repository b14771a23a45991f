//! Whether each run of a room keeps the room's task.
ghost use Rattle.std.specs.Prelude.{◌≡◌, ◌++◌, IfOk, ℕ, List};
ghost use Rattle.view_outcomes.specs.Judgements.{IsTaskText, is_kept};

use crate::search::SearchedRoom;
use crate::shown::{show_judgement, show_taskless, show_unjudged};
use io_text::Text;
use run_search::{Judgement, Progress, SearchFault, judge_task};
use std::alloc::AllocError;

/// Writes whether each run keeps the room's task, and else a run that breaks it; or that the room has too many nodes, or no task.
pub fn judge<P: Progress>(
    room: &SearchedRoom<'_>,
    output: &mut Text,
    progress: &mut P,
) -> Result<bool, AllocError>
    ensures { IfOk result (λ well. (text : List ℕ) × IsTaskText room.now.search.now room.now.spec.now room.now.block.now well text × (output.new ≡ output.old ++ text)) }
{
    let Some(_task) = room.spec.task() else {
        show_taskless(room, output)?;
        return Ok(true);
    };
    match judge_task(room.alloc, room.spec, room.search.nodes, progress) {
        Ok(judgement) => {
            show_judgement(room, output, &judgement)?;
            Ok(is_kept(&judgement))
        }
        Err(SearchFault::TooManyNodes) => {
            show_unjudged(room, output)?;
            Ok(false)
        }
        Err(SearchFault::OutOfMemory) => Err(AllocError),
    }
}

/// Whether each run keeps the task.
pub fn is_kept(judgement: &Judgement) -> bool
    ensures { result ≡ is_kept judgement.now }
{
    matches!(judgement, Judgement::Kept(_))
}
