//! Whether each run of a room keeps a task of one's own.
ghost use Rattle.std.specs.Prelude.{◌≡◌, ◌++◌, IfOk, ℕ, List};
ghost use Rattle.view_outcomes.specs.Keeping.{IsDecisionsText, IsKeepingText, IsOwnTaskText, are_kept};

use crate::judging::judge;
use crate::search::SearchedRoom;
use crate::shown::{show_decisions, show_unsearched};
use decision_tasks::{DecisionJudgement, DecisionTask, judge_decisions};
use io_text::Text;
use run_search::{Progress, SearchFault};
use std::alloc::AllocError;

/// Writes whether each run keeps the room's own task, if it has one, and whether each keeps this task.
pub fn judge_both<P: Progress>(
    room: &SearchedRoom<'_>,
    task: &DecisionTask,
    output: &mut Text,
    progress: &mut P,
) -> Result<bool, AllocError>
    ensures { IfOk result (λ well. (text : List ℕ) × IsKeepingText task.now room.now.search.now room.now.spec.now room.now.block.now well text × (output.new ≡ output.old ++ text)) }
{
    let well = judge_if_any(room, output, progress)?;
    let kept = judge_own(room, task, output, progress)?;
    Ok(well & kept)
}

/// Writes whether each run keeps the room's own task, if it has one.
fn judge_if_any<P: Progress>(
    room: &SearchedRoom<'_>,
    output: &mut Text,
    progress: &mut P,
) -> Result<bool, AllocError>
    ensures { IfOk result (λ well. (text : List ℕ) × IsOwnTaskText room.now.search.now room.now.spec.now room.now.spec.now.task room.now.block.now well text × (output.new ≡ output.old ++ text)) }
{
    match room.spec.task() {
        None => Ok(true),
        Some(_) => judge(room, output, progress),
    }
}

/// Writes whether each run keeps the task, and else a run that breaks it; or that the room has too many nodes.
fn judge_own<P: Progress>(
    room: &SearchedRoom<'_>,
    task: &DecisionTask,
    output: &mut Text,
    progress: &mut P,
) -> Result<bool, AllocError>
    ensures { IfOk result (λ well. (text : List ℕ) × IsDecisionsText task.now room.now.search.now room.now.spec.now room.now.block.now well text × (output.new ≡ output.old ++ text)) }
{
    match judge_decisions(room.alloc, room.spec, task, room.search.nodes, progress) {
        Ok(judgement) => {
            show_decisions(room, output, &judgement)?;
            Ok(are_kept(&judgement))
        }
        Err(SearchFault::TooManyNodes) => {
            show_unsearched(room, output)?;
            Ok(false)
        }
        Err(SearchFault::OutOfMemory) => Err(AllocError),
    }
}

/// Whether each run keeps the task.
fn are_kept(judgement: &DecisionJudgement) -> bool
    ensures { result ≡ are_kept judgement.now }
{
    matches!(judgement, DecisionJudgement::Kept(_))
}
