//! A search for a run that breaks a room's task.
ghost use Rattle.std.specs.Prelude.{◌≡◌, IfErr, IfNone, IfOk, IfSome, IsSome, Some, length};
ghost use Rattle.run_search.specs.Judging.{AreTooManyKept, DoNodesKeep, IsJudged};
ghost use Rattle.run_search.specs.Nodes.{AreGathered};
ghost use Rattle.run_search.specs.Tasks.{IsBreakingRun};
ghost use Rattle.run_search.specs.declared.fault.SearchFault.TheVariants.{TooManyNodes};

use crate::explored::open;
use crate::fault::SearchFault;
use crate::node::Node;
use crate::progress::Progress;
use crate::task::breaking_in;
use crate::walk::run_to;
use room_spec::Spec;
use std::alloc::{AllocError, Global};
use transcript::Event;

/// What a search for a run that breaks a room's task says.
#[derive(Drop)]
pub enum Judgement {
    /// Each run keeps the task. This number of nodes stands for the states of all runs.
    Kept(usize),
    /// The events of a run that breaks the task.
    Broken(Vec<Event>),
}

/// Searches all runs of the room's protocol for one that breaks the room's task, and stops at the first. Nodes are judged as they are found, so a run that is found before
/// the search reaches its limit is given. No outcome is listed. Reports how many nodes have been searched.
///
/// # Errors
///
/// `TooManyNodes` if there are more than `limit` nodes, and those that were found keep the task; `OutOfMemory` if an allocation fails.
pub fn judge_task<P: Progress>(
    alloc: Global,
    spec: &Spec,
    limit: u32,
    progress: &mut P,
) -> Result<Judgement, SearchFault>
    requires { IsSome spec.now.task }
    // Kept: each run keeps the task, however many processes stop in it. Broken: these events are a run, and break the task.
    ensures judged { IfOk result (IsJudged spec.now limit) }
    // A search that is given up at its limit has found more nodes than that, all different and all of runs, and no run to their states breaks the task.
    ensures beyond { IfErr result (λ fault. fault ≡ TooManyNodes → AreTooManyKept spec.now limit) }
{
    let Some(most) = spec.task() else {
        unreachable!() // the room has a task
    };
    judge(alloc, spec, usize::from(most), limit, progress)
}

/// Searches for a run that breaks the room's task, which allows `most` different values.
fn judge<P: Progress>(
    alloc: Global,
    spec: &Spec,
    most: usize,
    limit: u32,
    progress: &mut P,
) -> Result<Judgement, SearchFault>
    requires { Some most ≡ spec.now.task }
    ensures judged { IfOk result (IsJudged spec.now limit) }
    ensures beyond { IfErr result (λ fault. fault ≡ TooManyNodes → AreTooManyKept spec.now limit) }
{
    let mut explored = open(alloc, spec)?;
    let mut judged = 0;
    let mut cursor = 0;
    while (cursor as usize) < explored.nodes.len() {
        let nodes = explored.nodes.as_slice();
        if let Some(events) = first_breaking(alloc, spec, most, nodes, judged)? {
            return Ok(Judgement::Broken(events));
        }
        judged = explored.nodes.len();
        if judged > limit as usize {
            return Err(SearchFault::TooManyNodes);
        }
        explored.visit(alloc, spec, cursor)?;
        cursor += 1;
        progress.reached(u64::from(cursor));
    }
    Ok(Judgement::Kept(explored.nodes.len()))
}

/// The events of a run that breaks the task, to a state of the first node from this index on that covers such a state.
///
/// # Errors
///
/// An allocation that fails.
fn first_breaking(
    alloc: Global,
    spec: &Spec,
    most: usize,
    nodes: &[Node],
    from: usize,
) -> Result<Option<Vec<Event>>, AllocError>
    requires task { Some most ≡ spec.now.task }
    requires gathered { AreGathered spec.now nodes.now }
    ensures breaks { IfOk result (λ found. IfSome found (λ events. IsBreakingRun spec.now events.items)) }
    ensures kept { IfOk result (λ found. IfNone found (DoNodesKeep spec.now most nodes.now from (length nodes.now))) }
{
    for index in from..nodes.len() {
        let found = breaking_in(alloc, spec, most, &nodes[index])?;
        let Some(state) = found else {
            continue;
        };
        let events = run_to(alloc, spec, nodes, index, &state)?;
        return Ok(Some(events));
    }
    Ok(None)
}
