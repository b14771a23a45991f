//! The outcomes of all runs of a reduction.
ghost use Rattle.std.specs.Prelude.{◌≡◌, ◌≤◌, ◌<◌, List, IfErr, IfOk, length};
ghost use Rattle.std.specs.List.{Contains};
ghost use Rattle.run_search.specs.Agreed.{AreAgreed, AreTooManyAgreed, HasOutcome, IsAgreedOutcome, agreed_count, agreed_room, nodes_in};
ghost use Rattle.run_search.specs.Limits.{AreTooMany};
ghost use Rattle.run_search.specs.Nodes.{CoverAllReachable};
ghost use Rattle.run_search.specs.Outcomes.{IsFoundFor, IsRunOutcome, outcomes_in};
ghost use Rattle.run_search.specs.declared.fault.SearchFault.TheVariants.{TooManyNodes};
ghost use Rattle.run_search.specs.declared.ended.Ended.{Ended as EndedValue};

use crate::agreed::{agreed_inputs, count_agreed};
use crate::fault::SearchFault;
use crate::outcomes::{Outcomes, search};
use crate::progress::Progress;
use room_spec::Spec;
use std::alloc::{AllocError, Global};

/// The outcomes of all runs from one vector of inputs.
#[derive(Drop)]
pub struct Agreed {
    /// The ordinary room whose processes have these inputs.
    pub room: Spec,
    pub outcomes: Outcomes,
}

/// Finds all outcomes of runs of a reduction in which at most `crashes` processes stop with something left to do: those of its protocol's
/// runs from each vector of inputs that are the simulators' own. The nodes of all searches together are at most `limit`; reports
/// how many have been searched from the vector at hand.
///
/// # Errors
///
/// `TooManyNodes` if there are more than `limit` nodes; `OutOfMemory` if an allocation fails.
pub fn search_reduction<P: Progress>(
    alloc: Global,
    spec: &Spec,
    crashes: usize,
    limit: u32,
    progress: &mut P,
) -> Result<Vec<Agreed>, SearchFault>
    // What is found from each vector of inputs, in their order, is what `search` finds in the room that has them.
    ensures each { IfOk result (λ all. AreAgreed spec.now crashes (agreed_count spec.now) all.items) }
    // Complete: each outcome of a run from inputs that are the simulators' own is found.
    ensures complete { IfOk result (λ all. (outcome : List EndedValue) → IsAgreedOutcome spec.now crashes outcome → HasOutcome all.items outcome) }
    // Sound: some such run has each outcome that is found.
    ensures sound { IfOk result (λ all. (outcome : List EndedValue) → HasOutcome all.items outcome → IsAgreedOutcome spec.now crashes outcome) }
    ensures nodes { IfOk result (λ all. nodes_in all.items ≤ limit) }
    // A search that is given up at its limit has found more nodes than that, all different and all of runs.
    ensures beyond { IfErr result (λ fault. fault ≡ TooManyNodes → AreTooManyAgreed spec.now limit) }
{
    let _ = spec.n(); // for the proof: there is a process
    let mut all = Vec::new(alloc);
    let mut left = limit;
    for index in 0..count_agreed(spec) {
        let room = room_of(spec, index)?;
        let agreed = search_room(alloc, room, crashes, left, progress)?;
        left -= agreed.outcomes.nodes() as u32;
        all.push(agreed)?;
    }
    Ok(all)
}

/// The ordinary room of the run in which the simulators agree on the vector of this index.
///
/// # Errors
///
/// If more owners share the protocol than can be counted.
fn room_of(spec: &Spec, index: u64) -> Result<Spec, AllocError>
    requires { index < agreed_count spec.now }
    ensures { IfOk result (λ room. room ≡ agreed_room spec.now index) }
{
    let inputs = agreed_inputs(spec, index);
    spec.with_inputs(inputs.as_slice())
}

/// Finds all outcomes of the room's runs, and keeps them with the room.
fn search_room<P: Progress>(
    alloc: Global,
    room: Spec,
    crashes: usize,
    limit: u32,
    progress: &mut P,
) -> Result<Agreed, SearchFault>
    ensures room { IfOk result (λ agreed. agreed.room ≡ room) }
    ensures complete { IfOk result (λ agreed. (outcome : List EndedValue) → IsRunOutcome room crashes outcome → Contains (outcomes_in agreed.outcomes) outcome) }
    ensures sound { IfOk result (λ agreed. (outcome : List EndedValue) → Contains (outcomes_in agreed.outcomes) outcome → IsRunOutcome room crashes outcome) }
    ensures nodes { IfOk result (λ agreed. CoverAllReachable room agreed.outcomes.nodes) }
    ensures few { IfOk result (λ agreed. length agreed.outcomes.nodes ≤ limit) }
    ensures found { IfOk result (λ agreed. IsFoundFor room agreed.outcomes) }
    ensures beyond { IfErr result (λ fault. fault ≡ TooManyNodes → AreTooMany room limit) }
{
    let outcomes = search(alloc, &room, crashes, limit, progress)?;
    Ok(Agreed { room, outcomes })
}
