//! The outcomes that are open in a room.
ghost use Rattle.std.specs.Prelude.{◌≡◌, IfOk, IfSome, map};
ghost use Rattle.room_search.specs.Reaching.{outcome_of};
ghost use Rattle.view_open.specs.Open.{IsFoundOpen, crashes_for, is_complete, known_in};

use crate::plan::OpenPlan;
use room_search::{Beginning, Reach, Reached, ends_in, search_after};
use room_spec::Spec;
use run_search::{Ends, Progress, SearchFault};
use std::alloc::{AllocError, Global};

/// The outcomes that a search has found to be open in a room.
#[derive(Drop)]
pub(crate) struct Found {
    pub(crate) ends: Vec<Ends>,
    /// How many nodes the search has.
    pub(crate) nodes: usize,
    /// For how many nodes, which may have other outcomes, no schedule was found.
    pub(crate) missed: u64,
}

/// Finds the outcomes that are open in a room. `None` if there are more nodes than are searched at most.
pub(crate) fn find_open<P: Progress>(
    alloc: Global,
    plan: &OpenPlan,
    from: &Beginning<'_>,
    progress: &mut P,
) -> Result<Option<Found>, AllocError>
    ensures { IfOk result (λ found. IfSome found (IsFoundOpen plan.now from.now.spec.now from.now.acts.now)) }
{
    let _shape = from.spec.shape(); // for the proof: the room is within its limits
    let crashes = crashes_for(from.spec, plan.crashes);
    match search_after(alloc, from, crashes, plan.nodes, progress) {
        Ok(reach) => Ok(Some(found_in(alloc, &reach)?)),
        Err(SearchFault::TooManyNodes) => Ok(None),
        Err(SearchFault::OutOfMemory) => Err(AllocError),
    }
}

fn found_in(alloc: Global, reach: &Reach) -> Result<Found, AllocError>
    ensures ends { IfOk result (λ found. map (λ ends. ends.items) found.ends.items ≡ map outcome_of reach.now.outcomes.items) }
    ensures nodes { IfOk result (λ found. found.nodes ≡ reach.now.nodes) }
    ensures missed { IfOk result (λ found. found.missed ≡ reach.now.missed) }
{
    Ok(Found {
        ends: all_ends(alloc, reach.outcomes.as_slice())?,
        nodes: reach.nodes,
        missed: reach.missed,
    })
}

/// How the processes end in each of these outcomes.
fn all_ends(alloc: Global, outcomes: &[Reached]) -> Result<Vec<Ends>, AllocError>
    ensures { IfOk result (λ all. map (λ ends. ends.items) all.items ≡ map outcome_of outcomes.now) }
{
    let mut all = Vec::new(alloc);
    for one in outcomes {
        all.push(ends_in(one))?;
    }
    Ok(all)
}

/// How many simulators crash at most: all but one, if it is not said.
pub(crate) fn crashes_for(spec: &Spec, crashes: Option<u32>) -> u32
    ensures { result ≡ crashes_for spec.now crashes }
{
    match crashes {
        Some(crashes) => crashes,
        None => spec.m() as u32 - 1,
    }
}

/// Whether all outcomes that are open are found.
pub(crate) fn is_complete(found: &Option<Found>) -> bool
    ensures { result ≡ is_complete found.now }
{
    match found {
        None => false,
        Some(found) => found.missed == 0,
    }
}

/// The outcomes that were found, if they are all that are open.
pub(crate) fn known_in(found: Option<Found>) -> Option<Vec<Ends>>
    ensures { result ≡ known_in found }
{
    let Some(found) = found else {
        return None;
    };
    if found.missed != 0 {
        return None;
    }
    Some(found.ends)
}
