//! Many runs of one room.
ghost use Rattle.std.specs.Prelude.{◌≡◌, ◌<◌, ◌≤◌, IfOk, OnErr, OnOk};
ghost use Rattle.room_sample.specs.Samples.{AreAmongAll, IsSampleOf};

use crate::tally::Tally;
use crate::workers::{Places, Workers};
use room_spec::Spec;
use run_search::Progress;
use std::alloc::{AllocError, Global};

/// How many bytes are kept for the end of memory at least.
const LEAST_KEPT: usize = 4 << 20;

/// How many bytes are kept for each outcome: more than it takes to group and sort the outcomes.
const KEPT_EACH: usize = 1024;

/// How a room is sampled, and what is written of it.
#[derive(Clone, Copy)]
pub struct Plan {
    /// By how many schedules each room is run.
    pub schedules: u32,
    /// In each of them at most this many simulators crash; more than a room has (8 at most) are no more than all of them.
    pub crashes: u32,
    /// What the schedules are drawn from: the same seed gives the same ones.
    pub seed: u32,
    /// The number of the first schedule. The schedules of a seed have the numbers 0 to 4294967295, and those of a plan follow each other; after the greatest comes 0.
    pub from: u32,
    /// How many threads run schedules at the same time if several may, 1 to 16. A smaller number counts as 1, and a larger one as 16. The outcomes
    /// are the same by any number.
    pub workers: u32,
    /// Whether outcomes that differ only in which simulators hold processes are one.
    pub group: bool,
    /// Whether scripts are left out.
    pub brief: bool,
    /// How many outcomes are shown at most; if it is not said, all.
    pub top: Option<u32>,
    /// Whether the outcomes are written as JSON.
    pub json: bool,
    /// The outcome of which nothing but the script is written, by its number in the order in which they are shown, from 1.
    pub outcome: Option<u32>,
}

/// The outcomes of a room by a number of schedules.
#[derive(Drop)]
pub struct PartialSample {
    pub outcomes: Tally,
    /// By how many schedules the room was run.
    pub schedules: u32,
    /// An `Err` says that an allocation failed: the room was run by fewer schedules than the plan says.
    pub ending: Result<(), AllocError>,
}

/// Runs the room of a spec by random schedules, from its beginning each time, and counts the states of its processes once it has
/// settled. It is no search: an outcome that isn't among them may be possible. Reports how many schedules it has tried.
///
/// If an allocation fails, the sample is that of the schedules that were counted before. A block of memory that was kept meanwhile is
/// then free, so that this sample can be written.
#[tactic(auto, using(crate::proofs::OneMore::no_sample))]
pub fn sample<W: Workers, P: Progress>(
    workers: &W,
    alloc: Global,
    spec: &Spec,
    plan: &Plan,
    progress: &mut P,
) -> PartialSample
    requires { W.may_count }
    ensures sample { IsSampleOf spec.now plan.now result.schedules result.outcomes }
    ensures few { result.schedules ≤ plan.now.schedules }
    ensures whole { OnOk result.ending (result.schedules ≡ plan.now.schedules) }
    ensures among { AreAmongAll spec.now result.outcomes }
{
    let _shape = spec.shape(); // for the proof: the room is within its limits
    let mut counting = Counting {
        outcomes: Tally::new(alloc),
        schedules: 0,
        kept: Vec::new(alloc),
    };
    while counting.schedules < plan.schedules {
        progress.reached(u64::from(counting.schedules));
        if let Err(refused) = count_round(workers, alloc, spec, plan, &mut counting) {
            return sample_of(counting, Err(refused));
        }
    }
    sample_of(counting, Ok(()))
}

/// What is counted so far.
#[derive(Drop)]
struct Counting {
    outcomes: Tally,
    schedules: u32,
    /// A block of memory that is kept for the end.
    kept: Vec<u8>,
}

fn sample_of(counting: Counting, ending: Result<(), AllocError>) -> PartialSample
    ensures outcomes { result.outcomes ≡ counting.outcomes }
    ensures schedules { result.schedules ≡ counting.schedules }
    ensures ending { result.ending ≡ ending }
{
    let Counting {
        outcomes,
        schedules,
        ..
    } = counting;
    PartialSample {
        outcomes,
        schedules,
        ending,
    }
}

/// Runs the room by the schedules of one round more, and counts their outcomes. An `Err` leaves the outcomes, and how many schedules are counted, as they were.
#[tactic(auto, using(crate::proofs::Parts::part_more))]
fn count_round<W: Workers>(
    workers: &W,
    alloc: Global,
    spec: &Spec,
    plan: &Plan,
    counting: &mut Counting,
) -> Result<(), AllocError>
    requires may { W.may_count }
    requires before { IsSampleOf spec.now plan.now counting.old.schedules counting.old.outcomes }
    requires left { counting.old.schedules < plan.now.schedules }
    ensures sample { OnOk result (IsSampleOf spec.now plan.now counting.new.schedules counting.new.outcomes) }
    ensures more { OnOk result (counting.old.schedules < counting.new.schedules) }
    ensures few { counting.new.schedules ≤ plan.now.schedules }
    ensures outcomes { OnErr result (counting.new.outcomes ≡ counting.old.outcomes) }
    ensures schedules { OnErr result (counting.new.schedules ≡ counting.old.schedules) }
{
    keep_memory(&mut counting.kept, counting.outcomes.len())?;
    let done = counting.schedules;
    let places = Places {
        first: done,
        count: (plan.schedules - done).min(workers.round(plan)),
    };
    let later = workers.count(alloc, spec, plan, places)?;
    counting.outcomes.add_all(later)?;
    counting.schedules = done + places.count;
    Ok(())
}

/// Makes the block of memory that is kept large enough for this many outcomes.
fn keep_memory(kept: &mut Vec<u8>, outcomes: usize) -> Result<(), AllocError> {
    kept.reserve_exact(outcomes.saturating_mul(KEPT_EACH).max(LEAST_KEPT))
}
