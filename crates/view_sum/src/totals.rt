//! Adds up the parts of a room's sample.
ghost use Rattle.std.specs.Prelude.{◌≡◌, ◌<◌, ◌+◌, ◌^◌, [], IfNone, IfOk, IsPermutation, OnOk, IfSome, IsTrue, is_some, map, option_map, true};
ghost use Rattle.room_sample.specs.Shown.{shown_of};
ghost use Rattle.view_sum.specs.Adding.{ArePatterns, broken_in_both, with_part};
ghost use Rattle.std.specs.Str.{bytes_eq};
ghost use Rattle.view_sum.specs.Samples.{RoomSample, sample_of};
ghost use Rattle.room_sample.specs.Samples.{AreMostFirst, place_of};
ghost use Rattle.view_sum.specs.Sums.{DoesFollow, IsRanked, are_few_broken, counted_as, none_of, so_far_of};
ghost use Rattle.view_sum.specs.Refusals.{IsOtherPlan, IsOutOfStep};

use crate::adding::add_outcomes;
use crate::fault::{Member, Reason};
use crate::part::{How, Part};
use crate::so_far::SoFar;
use indexmap::IndexSet;
use room_sample::{Example, States};
use std::alloc::{AllocError, Global};
use std::cmp::Reverse;

/// No schedule yet of those of a part and of what follows it.
pub(crate) fn none_of(alloc: Global, part: &Part) -> Result<SoFar, AllocError>
    ensures none { IfOk result (λ so_far. so_far_of so_far ≡ none_of (sample_of part.now)) }
    ensures outcomes { IfOk result (λ so_far. so_far.outcomes.items ≡ []) }
{
    Ok(SoFar {
        name: part.name.clone()?,
        how: part.how,
        schedules: 0,
        decided: 0,
        held: 0,
        broken: none_broken(part.broken),
        outcomes: Vec::new(alloc),
    })
}

fn none_broken(broken: Option<u32>) -> Option<u32>
    ensures { result ≡ option_map (λ times. 0) broken }
{
    match broken {
        None => None,
        Some(_) => Some(0),
    }
}

/// Adds the part that follows. The outcome of an index is known by the pattern of that index.
pub(crate) fn add_part(
    alloc: Global,
    so_far: SoFar,
    patterns: &mut IndexSet<States>,
    part: &Part,
) -> Result<SoFar, AllocError>
    requires follows { DoesFollow (so_far_of so_far) (sample_of part.now) }
    requires patterns { ArePatterns so_far.how.grouped (map shown_of so_far.outcomes.items) patterns.old.keys }
    ensures sum { IfOk result (λ sum. so_far_of sum ≡ with_part (so_far_of so_far) (sample_of part.now)) }
    ensures patterns { IfOk result (λ sum. ArePatterns sum.how.grouped (map shown_of sum.outcomes.items) patterns.new.keys) }
{
    let SoFar {
        name,
        how,
        schedules,
        decided,
        held,
        broken,
        mut outcomes,
    } = so_far;
    let later = part.outcomes.as_slice();
    add_outcomes(alloc, how.grouped, patterns, &mut outcomes, later)?;
    Ok(SoFar {
        name,
        how,
        schedules: schedules + part.schedules,
        decided: decided.max(part.decided),
        held: held.max(part.held),
        broken: broken_in_both(broken, part.broken),
        outcomes,
    })
}

/// In how many schedules the task was broken.
fn broken_in_both(so_far: Option<u32>, later: Option<u32>) -> Option<u32>
    requires { are_few_broken so_far later ≡ true }
    ensures { result ≡ broken_in_both so_far later }
{
    match (so_far, later) {
        (Some(times), Some(more)) => times.checked_add(more),
        _ => None,
    }
}

/// Why a part doesn't follow, if it doesn't.
pub(crate) fn fault_of(so_far: &SoFar, part: &Part) -> Option<Reason>
    ensures follows { IfNone result (DoesFollow (so_far_of so_far.now) (sample_of part.now)) }
    ensures reason { IfSome result (λ reason. IsOutOfStep reason (so_far_of so_far.now) (sample_of part.now)) }
{
    if !is_same(so_far.name.as_str(), part.name.as_str()) {
        return Some(Reason::OtherRooms);
    }
    if let Some(member) = other_member(&so_far.how, &part.how) {
        return Some(Reason::OtherPlan(member));
    }
    if so_far.broken.is_some() != part.broken.is_some() {
        return Some(Reason::OtherPlan(Member::Task));
    }
    if let Some(reason) = place_fault(so_far, part) {
        return Some(reason);
    }
    if !are_few_broken(so_far.broken, part.broken) {
        return Some(Reason::TooMany);
    }
    None
}

/// Whether the sum of both has 32 bits.
fn are_few_broken(so_far: Option<u32>, later: Option<u32>) -> bool
    ensures { result ≡ are_few_broken so_far later }
{
    match (so_far, later) {
        (Some(times), Some(more)) => u64::from(times) + u64::from(more) < 1 << 32,
        _ => true,
    }
}

/// Which member says that the parts were sampled in different ways.
fn other_member(how: &How, other: &How) -> Option<Member>
    ensures crashes { IfNone result (how.now.crashes ≡ other.now.crashes) }
    ensures seed { IfNone result (how.now.seed ≡ other.now.seed) }
    ensures grouped { IfNone result (how.now.grouped ≡ other.now.grouped) }
    ensures brief { IfNone result (how.now.brief ≡ other.now.brief) }
    ensures member { IfSome result (λ member. (so_far part : RoomSample) → so_far.how ≡ how.now → part.how ≡ other.now → IsOtherPlan member so_far part) }
{
    if how.crashes != other.crashes {
        Some(Member::Crashes)
    } else if how.seed != other.seed {
        Some(Member::Seed)
    } else if how.grouped != other.grouped {
        Some(Member::Grouped)
    } else if how.brief != other.brief {
        Some(Member::Schedule)
    } else {
        None
    }
}

/// Why the schedules of a part don't follow those so far, if they don't.
fn place_fault(so_far: &SoFar, part: &Part) -> Option<Reason>
    ensures follows { IfNone result (part.now.how.from ≡ so_far.now.how.from + so_far.now.schedules) }
    ensures few { IfNone result (so_far.now.schedules + part.now.schedules < 2 ^ 32) }
    ensures reason { IfSome result (λ reason. IsOutOfStep reason (so_far_of so_far.now) (sample_of part.now)) }
{
    let expected = u64::from(so_far.how.from) + u64::from(so_far.schedules);
    let from = u64::from(part.how.from);
    if from < expected {
        return Some(Reason::Overlap { expected });
    }
    if from > expected {
        return Some(Reason::Gap { expected });
    }
    if u64::from(so_far.schedules) + u64::from(part.schedules) >= 1 << 32 {
        return Some(Reason::TooMany);
    }
    None
}

fn is_same(one: &str, other: &str) -> bool
    ensures value { result ≡ bytes_eq one.now other.now }
    ensures same { IsTrue result → other.now ≡ one.now }
{
    one == other
}

/// The sum of all parts: those outcomes first that came most often.
pub(crate) fn total_of(so_far: SoFar) -> Result<Part, AllocError>
    ensures { IfOk result (λ total. IsRanked (so_far_of so_far) (sample_of total)) }
{
    let SoFar {
        name,
        how,
        schedules,
        decided,
        held,
        broken,
        mut outcomes,
        ..
    } = so_far;
    sort_by_times(&mut outcomes, how.from)?;
    Ok(Part {
        name,
        how,
        schedules,
        decided,
        held,
        broken,
        outcomes,
        line: 0,
    })
}

/// Puts those first that came most often, and of those that came as often the one that came first, in schedules that begin with this number.
fn sort_by_times(outcomes: &mut Vec<Example>, from: u32) -> Result<(), AllocError>
    ensures sorted { OnOk result (AreMostFirst from (map counted_as (map shown_of outcomes.new.items))) }
    ensures same { IsPermutation outcomes.old.items outcomes.new.items }
{
    outcomes.sort_by_key(|one| rank_of(one, from))
}

/// By what outcomes are in order: how often they came, and the places of their first schedules.
fn rank_of(one: &Example, from: u32) -> (Reverse<u32>, u32)
    ensures { result ≡ (record { 0 = one.now.times }, place_of from one.now.first) }
{
    (Reverse(one.times), one.first.wrapping_sub(from))
}
