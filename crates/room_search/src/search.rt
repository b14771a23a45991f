//! All outcomes that the simulators of a room can reach.
ghost use Rattle.std.specs.Prelude.{◌≡◌, ◌≤◌, ◌⊎◌, ℕ, IfOk, List, OnOk, Some, false, length, slice_get};
ghost use Rattle.std.specs.List.{Contains};
ghost use Rattle.room_spec.specs.Rooms.{processes};
ghost use Rattle.room_outcomes.specs.Ends.{IsRoomOutcome};
ghost use Rattle.run_search.specs.declared.ended.Ended.{Ended as EndedValue};
ghost use Rattle.room_core.specs.Calls.{configuration_of};
ghost use Rattle.room_search.specs.Nodes.{Node as NodeValue};
ghost use Rattle.room_search.specs.Beginnings.{begun};
ghost use Rattle.room_search.specs.Reaching.{IsFound, IsOpen, IsReachable, IsReachedBy, IsReachedFrom, outcome_of};
ghost use Rattle.room_search.specs.Searches.{IsSearched};
ghost use Rattle.room_search.specs.Taking.{IsTaken, IsTaking};
ghost use Rattle.room_search.specs.declared.reached.Reached.{Reached as ReachedValue};

use crate::beginning::{Beginning, room_after};
use crate::choice::Source;
use crate::explored::{Explored, explore};
use crate::reached::Reached;
use crate::subject::Subject;
use crate::taking::Taking;
use room_core::laws::each_is_settled_for;
use room_spec::Spec;
use run_search::{Progress, SearchFault};
use std::alloc::{AllocError, Global};

/// The outcomes that a search found.
#[derive(Drop)]
pub struct Reach {
    pub outcomes: Vec<Reached>,
    /// How many nodes the search has.
    pub nodes: usize,
    /// How many nodes have an outcome that isn't found, or that only a report would say: no schedule to them was found within the turns that the room gives to each
    /// simulator.
    pub missed: u64,
}

/// Finds all outcomes that the simulators of a room can reach if at most `crashes` of them crash. The search keeps nodes in memory, up to
/// `limit`, each of which stands for many rooms, and reports how many it has searched.
///
/// # Errors
///
/// `TooManyNodes` if there are more than `limit` nodes; `OutOfMemory` if an allocation fails.
pub fn search_room<P: Progress>(
    alloc: Global,
    spec: &Spec,
    crashes: u32,
    limit: u32,
    progress: &mut P,
) -> Result<Reach, SearchFault>
    // Complete: if no node was missed, each outcome that the simulators can reach with a turn left is found.
    ensures complete { IfOk result (λ reach. reach.missed ≡ 0 → (outcome : List EndedValue) → IsReachable spec.now crashes outcome → IsFound reach.outcomes.items outcome) }
    // Sound: the schedule of each outcome leads to it, and at most `crashes` simulators crash in it.
    ensures sound { IfOk result (λ reach. (reached : ReachedValue) → Contains reach.outcomes.items reached → IsReachedBy spec.now crashes reached) }
    // No outcome is found twice.
    ensures distinct { IfOk result (λ reach. (i j : ℕ) (one other : ReachedValue) →
        slice_get reach.outcomes.items i ≡ Some one → slice_get reach.outcomes.items j ≡ Some other → outcome_of one ≡ outcome_of other →
        i ≡ j) }
    // Each is an outcome of a run of the protocol, with those processes stopped that are held or going on: in a reduction of a run from inputs that are
    // the simulators' own.
    ensures among { IfOk result (λ reach. (reached : ReachedValue) → Contains reach.outcomes.items reached → IsRoomOutcome spec.now (processes spec.now) (outcome_of reached)) }
    ensures nodes { IfOk result (λ reach. reach.nodes ≤ limit) }
{
    let from = Beginning { spec, acts: &[] };
    let reach = search_after(alloc, &from, crashes, limit, progress)?;
    Ok(reach)
}

/// Finds all outcomes that the simulators of a room can still reach after what was done to it, if at most `crashes` of them crash, those
/// counted that have crashed by then. The search is that of [`search_room`].
///
/// # Errors
///
/// `TooManyNodes` if there are more than `limit` nodes; `OutOfMemory` if an allocation fails.
pub fn search_after<P: Progress>(
    alloc: Global,
    from: &Beginning<'_>,
    crashes: u32,
    limit: u32,
    progress: &mut P,
) -> Result<Reach, SearchFault>
    // Complete: if no node was missed, each outcome that is open in the room is found.
    ensures complete { IfOk result (λ reach. reach.missed ≡ 0 → (outcome : List EndedValue) →
        IsOpen (begun from.now.spec.now from.now.acts.now) from.now.spec.now crashes outcome → IsFound reach.outcomes.items outcome) }
    // Sound: the schedule of each outcome leads to it from the room, and at most `crashes` simulators have crashed then.
    ensures sound { IfOk result (λ reach. (reached : ReachedValue) → Contains reach.outcomes.items reached →
        IsReachedFrom (begun from.now.spec.now from.now.acts.now) crashes reached) }
    // No outcome is found twice.
    ensures distinct { IfOk result (λ reach. (i j : ℕ) (one other : ReachedValue) →
        slice_get reach.outcomes.items i ≡ Some one → slice_get reach.outcomes.items j ≡ Some other → outcome_of one ≡ outcome_of other →
        i ≡ j) }
    // Each is an outcome of a run of the protocol, with those processes stopped that are held or going on: in a reduction of a run from inputs that are
    // the simulators' own.
    ensures among { IfOk result (λ reach. (reached : ReachedValue) → Contains reach.outcomes.items reached →
        IsRoomOutcome from.now.spec.now (processes from.now.spec.now) (outcome_of reached)) }
    ensures nodes { IfOk result (λ reach. reach.nodes ≤ limit) }
{
    each_is_settled_for(); // for the proof: a simulator that has settled can go no further
    let _shape = from.spec.shape(); // for the proof: the room is within its limits
    let start = room_after(alloc, from)?;
    let subject = Subject {
        alloc,
        spec: from.spec,
        start: &start,
        acts: from.acts,
    };
    let explored = explore(&subject, limit, progress)?;
    let taken = take_all(&subject, &explored, crashes)?;
    let taking = taken.taking;
    let _count = taking.ends.len(); // for the proof: no outcome is in the set twice
    Ok(Reach {
        outcomes: taking.outcomes,
        nodes: explored.nodes.len(),
        missed: taken.missed,
    })
}

/// The outcomes of the rooms of all nodes.
#[derive(Drop)]
struct Taken {
    taking: Taking,
    /// Of how many nodes the outcome isn't found.
    missed: u64,
}

/// Takes the outcomes of the rooms of all nodes.
fn take_all(subject: &Subject<'_>, explored: &Explored, crashes: u32) -> Result<Taken, AllocError>
    requires { IsSearched subject.now.spec.now explored.now }
    ensures taking { IfOk result (λ taken. IsTaking subject.now.spec.now (begun subject.now.spec.now subject.now.acts.now) crashes taken.taking) }
    ensures all { IfOk result (λ taken. taken.missed ≡ 0 → (index : ℕ) (node : NodeValue) → slice_get explored.now.nodes.items index ≡ Some node →
        IsTaken subject.now.spec.now (configuration_of subject.now.start.now) crashes explored.now.moves.table.keys taken.taking.outcomes.items node) }
    ensures lost { IfOk result (λ taken. taken.missed ≡ 0 → explored.now.lost ≡ false) }
{
    let source = Source {
        subject,
        explored,
        crashes,
    };
    let mut taking = Taking::nothing(subject.alloc);
    let left = take_first(&source, &mut taking)?;
    let mut missed = u64::from(explored.lost);
    for place in 0..left.len() {
        if !taking.take(&source, left[place])? {
            missed = missed.saturating_add(1);
        }
    }
    Ok(Taken { taking, missed })
}

/// Takes the outcomes of the rooms of the nodes one by one, and gives the indices of those to which no schedule is found. Their outcomes may be those of later nodes.
fn take_first(source: &Source<'_>, taking: &mut Taking) -> Result<Vec<usize>, AllocError>
    requires searched { IsSearched source.now.subject.now.spec.now source.now.explored.now }
    requires taking { IsTaking source.now.subject.now.spec.now (begun source.now.subject.now.spec.now source.now.subject.now.acts.now) source.now.crashes taking.old }
    ensures taking { OnOk result (IsTaking source.now.subject.now.spec.now (begun source.now.subject.now.spec.now source.now.subject.now.acts.now) source.now.crashes taking.new) }
    ensures all { IfOk result (λ left. (index : ℕ) (node : NodeValue) → slice_get source.now.explored.now.nodes.items index ≡ Some node →
        IsTaken source.now.subject.now.spec.now (configuration_of source.now.subject.now.start.now) source.now.crashes source.now.explored.now.moves.table.keys taking.new.outcomes.items node ⊎ Contains left.items index) }
{
    let mut left = Vec::new(source.subject.alloc);
    for index in 0..source.explored.nodes.len() {
        if !taking.take(source, index)? {
            left.push(index)?;
        }
    }
    Ok(left)
}
