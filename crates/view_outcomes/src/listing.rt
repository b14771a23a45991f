//! All outcomes of a room, each with a shortest run that has it.
ghost use Rattle.std.specs.Prelude.{◌≡◌, ◌<◌, ℕ, IfErr, IfOk, IsPermutation, OnOk, Some, is_some, length, option_map, slice_get};
ghost use Rattle.run_search.specs.Limits.{AreTooMany};
ghost use Rattle.run_search.specs.Outcomes.{IsFoundFor, outcomes_in};
ghost use Rattle.run_search.specs.declared.fault.SearchFault.TheVariants.{TooManyNodes};
ghost use Rattle.run_search.specs.Judging.{HasNodes};
ghost use Rattle.view_outcomes.specs.Forms.{is_brief_alone};
ghost use Rattle.view_outcomes.specs.Listing.{AreInOrder, AreMostFirst, HasRun, IsTaskOfRuns, chosen, listed_ends};
ghost use Rattle.view_outcomes.specs.declared.listing.Listed.{Listed as ListedValue};

use crate::counts::values_in;
use crate::search::SearchedRoom;
use room_spec::Spec;
use run_search::{Ends, Outcomes, Progress, SearchFault, search};
use std::alloc::{AllocError, Global};
use std::cmp::Reverse;
use transcript::Event;

/// An outcome, and a shortest run that has it, if transcripts are wanted.
#[derive(Drop)]
pub struct Listed {
    /// How each process ends.
    pub ends: Ends,
    /// The events of the run.
    pub events: Option<Vec<Event>>,
}

/// What a search of all runs of a room found.
#[derive(Drop)]
pub struct AllOutcomes {
    /// All outcomes, those with most decided values first.
    pub listed: Vec<Listed>,
    /// How many nodes stand for the states of all runs.
    pub nodes: usize,
    /// The events of a shortest run that breaks the room's task, if one does.
    pub breaking: Option<Vec<Event>>,
}

/// Finds all outcomes of the room's runs in which at most `crashes` processes stop, those with most decided values first, each with a shortest run unless transcripts are left
/// out; and whether each run keeps the room's task.
///
/// # Errors
///
/// `TooManyNodes` if there are more nodes than are searched at most; `OutOfMemory` if an allocation fails.
pub fn find_all<P: Progress>(
    room: &SearchedRoom<'_>,
    crashes: usize,
    progress: &mut P,
) -> Result<AllOutcomes, SearchFault>
    ensures outcomes { IfOk result (λ all. AreInOrder room.now.spec.now crashes room.now.search.now.brief all.listed.items) }
    ensures nodes { IfOk result (λ all. HasNodes room.now.spec.now room.now.search.now.nodes all.nodes) }
    ensures task { IfOk result (λ all. IsTaskOfRuns room.now.spec.now (option_map (λ events. events.items) all.breaking)) }
    ensures beyond { IfErr result (λ fault. fault ≡ TooManyNodes → AreTooMany room.now.spec.now room.now.search.now.nodes) }
{
    let (alloc, spec) = (room.alloc, room.spec);
    let found = search(alloc, spec, crashes, room.search.nodes, progress)?;
    let mut listed = list_all(alloc, spec, &found, room.search.brief)?;
    sort_by_values(&mut listed)?;
    let breaking = found.breaking_run(alloc, spec)?;
    Ok(AllOutcomes {
        listed,
        nodes: found.nodes(),
        breaking,
    })
}

/// The same outcomes, and nothing else; each with a shortest run unless the run of an outcome that is shown alone is left out.
///
/// # Errors
///
/// As `find_all`.
pub fn find_listed<P: Progress>(
    room: &SearchedRoom<'_>,
    crashes: usize,
    progress: &mut P,
) -> Result<Vec<Listed>, SearchFault>
    ensures outcomes { IfOk result (λ all. AreInOrder room.now.spec.now crashes (is_brief_alone room.now.search.now.form room.now.search.now.brief) all.items) }
    ensures beyond { IfErr result (λ fault. fault ≡ TooManyNodes → AreTooMany room.now.spec.now room.now.search.now.nodes) }
{
    let (alloc, spec) = (room.alloc, room.spec);
    let found = search(alloc, spec, crashes, room.search.nodes, progress)?;
    let brief = room.search.is_brief_alone();
    let mut listed = list_all(alloc, spec, &found, brief)?;
    sort_by_values(&mut listed)?;
    Ok(listed)
}

/// The outcome of this number in the list, from 1.
pub(crate) fn chosen(all: &[Listed], number: u32) -> Option<&Listed>
    ensures { option_map (λ one. one.now) result ≡ chosen number all.now }
{
    all.get(number.saturating_sub(1) as usize)
}

/// Whether the list has an outcome of this number.
pub(crate) fn has_outcome(all: &[Listed], number: u32) -> bool
    ensures { result ≡ is_some (chosen number all.now) }
{
    chosen(all, number).is_some()
}

/// Puts those first that have most decided values, and leaves those that have as many in their order.
fn sort_by_values(all: &mut Vec<Listed>) -> Result<(), AllocError>
    ensures sorted { OnOk result (AreMostFirst all.new.items) }
    ensures same { IsPermutation all.old.items all.new.items }
{
    all.sort_by_key(|one| Reverse(values_in(one.ends.as_slice())))
}

/// Each outcome that was found, with a shortest run that has it unless `brief`.
fn list_all(
    alloc: Global,
    spec: &Spec,
    found: &Outcomes,
    brief: bool,
) -> Result<Vec<Listed>, AllocError>
    requires { IsFoundFor spec.now found.now }
    ensures runs { IfOk result (λ all. (i : ℕ) (one : ListedValue) → slice_get all.items i ≡ Some one → HasRun spec.now brief one) }
    ensures ends { IfOk result (λ all. listed_ends all.items ≡ outcomes_in found.now) }
{
    let mut all = Vec::with_capacity(alloc, found.len())?;
    for index in 0..found.len() {
        all.push(list_one(alloc, spec, found, index, brief)?)?;
    }
    Ok(all)
}

/// The outcome of this index, with a shortest run that has it unless `brief`.
fn list_one(
    alloc: Global,
    spec: &Spec,
    found: &Outcomes,
    index: usize,
    brief: bool,
) -> Result<Listed, AllocError>
    requires found { IsFoundFor spec.now found.now }
    requires there { index < length (outcomes_in found.now) }
    ensures run { IfOk result (HasRun spec.now brief) }
    ensures there { IfOk result (λ one. slice_get (outcomes_in found.now) index ≡ Some one.ends.items) }
{
    let Some(ends) = found.get(index) else {
        unreachable!() // the index is below the number of outcomes
    };
    let ends = copied(ends);
    if brief {
        return Ok(Listed { ends, events: None });
    }
    let events = Some(found.transcript(alloc, spec, index)?);
    Ok(Listed { ends, events })
}

fn copied(ends: &Ends) -> Ends
    ensures { result.items ≡ ends.now.items }
{
    let mut copy = Ends::new();
    let Ok(()) = copy.try_extend_from_slice(ends.as_slice()) else {
        unreachable!() // both have the same capacity
    };
    copy
}
