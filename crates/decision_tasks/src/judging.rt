//! Whether each run of a room keeps a task of one's own.
ghost use Rattle.std.specs.Prelude.{◌≡◌, IfErr, IfNone, IfOk, IfSome, List, Some, length, slice_get, ℕ};
ghost use Rattle.std.specs.List.{All};
ghost use Rattle.room_spec.specs.Rooms.{processes};
ghost use Rattle.run_search.specs.Limits.{AreTooMany};
ghost use Rattle.run_search.specs.Outcomes.{IsFoundFor, outcomes_in};
ghost use Rattle.run_search.specs.declared.ended.Ended.{Ended as EndedValue};
ghost use Rattle.run_search.specs.declared.fault.SearchFault.TheVariants.{TooManyNodes};
ghost use Rattle.decision_tasks.specs.Decisions.{decisions};
ghost use Rattle.decision_tasks.specs.Tasks.{AreAllowed, IsBreak, IsDecisionJudged};

use crate::decisions::decisions_of;
use crate::task::DecisionTask;
use room_spec::Spec;
use run_search::{Outcomes, Progress, SearchFault, search};
use std::alloc::{AllocError, Global};
use transcript::Event;

/// A run that breaks a task.
#[derive(Drop)]
pub struct Break {
    /// The process that has decided what no line of the task allows.
    pub process: usize,
    /// What it has decided.
    pub value: u32,
    /// The events of the run.
    pub events: Vec<Event>,
}

/// What a search for a run that breaks a task of one's own says.
#[derive(Drop)]
pub enum DecisionJudgement {
    /// Each run keeps the task. This number of nodes stands for the states of all runs.
    Kept(usize),
    /// A run that breaks the task.
    Broken(Break),
}

/// Searches all runs of the room's protocol for one that breaks the task: in which what was decided, at some moment, is not allowed by the task. Reports how many nodes have
/// been searched.
///
/// # Errors
///
/// `TooManyNodes` if there are more than `limit` nodes; `OutOfMemory` if an allocation fails.
pub fn judge_decisions<P: Progress>(
    alloc: Global,
    spec: &Spec,
    task: &DecisionTask,
    limit: u32,
    progress: &mut P,
) -> Result<DecisionJudgement, SearchFault>
    ensures judged { IfOk result (IsDecisionJudged task.now spec.now limit) }
    ensures beyond { IfErr result (λ fault. fault ≡ TooManyNodes → AreTooMany spec.now limit) }
{
    // At each moment of a run those that have not decided may have crashed: then what was decided is an outcome.
    let found = search(alloc, spec, spec.n(), limit, progress)?;
    match first_break(alloc, spec, task, &found)? {
        Some(broken) => Ok(DecisionJudgement::Broken(broken)),
        None => Ok(DecisionJudgement::Kept(found.nodes())),
    }
}

/// A run to the first of the outcomes that the task doesn't allow.
///
/// # Errors
///
/// An allocation that fails.
fn first_break(
    alloc: Global,
    spec: &Spec,
    task: &DecisionTask,
    found: &Outcomes,
) -> Result<Option<Break>, AllocError>
    requires found { IsFoundFor spec.now found.now }
    requires ends { (i : ℕ) (ends : List EndedValue) → slice_get (outcomes_in found.now) i ≡ Some ends → length ends ≡ processes spec.now }
    ensures breaks { IfOk result (λ broken. IfSome broken (IsBreak task.now spec.now)) }
    ensures allowed { IfOk result (λ broken. IfNone broken (All (λ ends. AreAllowed task.now spec.now.inputs (decisions ends)) (outcomes_in found.now))) }
{
    for index in 0..found.len() {
        let Some(ends) = found.get(index) else {
            unreachable!() // the index is below the number of outcomes
        };
        if let Some((process, value)) = task.first_refused(spec, &decisions_of(ends)) {
            let events = found.transcript(alloc, spec, index)?;
            return Ok(Some(Break {
                process,
                value,
                events,
            }));
        }
    }
    Ok(None)
}
