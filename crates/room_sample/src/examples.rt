//! Outcomes as they are shown: each with a schedule that leads to it.
ghost use Rattle.std.specs.Prelude.{◌≡◌, ◌+◌, ◌<◌, ◌≤◌, IfOk, IfSome, OnErr, OnOk, length, map, min, option_map, take};
ghost use Rattle.std.specs.List.{All};
ghost use Rattle.room_sample.specs.Samples.{CameByFirst, counted_of};
ghost use Rattle.room_sample.specs.Schedules.{IsOutcome};
ghost use Rattle.room_sample.specs.Shown.{AreShown, IsShown, IsShownIf, shown_of};

use crate::chances::Chances;
use crate::cuts::{Ending, shorten};
use crate::run::run_anew;
use crate::sampling::Plan;
use crate::stretch::Stretch;
use crate::tally::{Outcome, States, Tally};
use room_spec::Spec;
use std::alloc::{AllocError, Global};

/// An outcome as it is shown.
#[derive(Drop)]
pub struct Example {
    /// The state of each process, in order of their numbers.
    pub states: States,
    /// By how many schedules the outcome came.
    pub times: u32,
    /// The number of the first schedule that led to it.
    pub first: u32,
    /// A schedule that leads to it: its first one, made short. It is empty if schedules are left out.
    pub schedule: Vec<Stretch>,
}

/// How the outcomes of a sample are shown.
#[derive(Clone, Copy)]
pub struct Showing<'a> {
    /// The room.
    pub spec: &'a Spec,
    /// The plan of the sample.
    pub plan: &'a Plan,
    /// Whether each is shown with a schedule that leads to it.
    pub scripts: bool,
}

/// The first outcomes of a list, as they are shown.
#[derive(Drop)]
pub struct PartialExamples {
    pub examples: Vec<Example>,
    /// An `Err` says that an allocation failed: there are fewer examples than were asked for.
    pub ending: Result<(), AllocError>,
}

/// The first of these outcomes of a sample, at most `most` of them, as they are shown. The room is run at most `tries` times to make schedules
/// short.
pub fn examples_of(
    alloc: Global,
    showing: &Showing<'_>,
    outcomes: &Tally,
    most: usize,
    tries: u32,
) -> PartialExamples
    requires { All (CameByFirst showing.now.spec.now showing.now.plan.now) outcomes.now }
    ensures shown { AreShown showing.now.spec.now showing.now.plan.now.crashes showing.now.scripts (take (length result.examples.items) outcomes.now) (map shown_of result.examples.items) }
    ensures few { length result.examples.items ≤ min most (length outcomes.now) }
    ensures whole { OnOk result.ending (length result.examples.items ≡ min most (length outcomes.now)) }
{
    let mut made = Made {
        examples: Vec::new(alloc),
        left: tries,
    };
    for index in 0..most.min(outcomes.len()) {
        if let Err(refused) = add_example(alloc, showing, outcomes, index, &mut made) {
            return PartialExamples {
                examples: made.examples,
                ending: Err(refused),
            };
        }
    }
    PartialExamples {
        examples: made.examples,
        ending: Ok(()),
    }
}

/// The examples that are made so far, and how many times the room may still be run to make their schedules short.
#[derive(Drop)]
struct Made {
    examples: Vec<Example>,
    left: u32,
}

/// Adds the outcome of this index to those before it. An `Err` leaves them as they were.
fn add_example(
    alloc: Global,
    showing: &Showing<'_>,
    outcomes: &Tally,
    index: usize,
    made: &mut Made,
) -> Result<(), AllocError>
    requires came { All (CameByFirst showing.now.spec.now showing.now.plan.now) outcomes.now }
    requires before { AreShown showing.now.spec.now showing.now.plan.now.crashes showing.now.scripts (take index outcomes.now) (map shown_of made.old.examples.items) }
    requires there { index < length outcomes.now }
    ensures added { OnOk result (AreShown showing.now.spec.now showing.now.plan.now.crashes showing.now.scripts (take (index + 1) outcomes.now) (map shown_of made.new.examples.items)) }
    ensures err { OnErr result (made.new.examples.items ≡ made.old.examples.items) }
{
    let Some((states, outcome)) = outcomes.get(index) else {
        unreachable!() // there is an outcome of each index below their number
    };
    let next = make_example(alloc, showing, states, outcome, &mut made.left)?;
    made.examples.push(next)?;
    Ok(())
}

/// One outcome of a sample, if there is one, as it is shown. The room is run at most `tries` times to make its schedule short.
///
/// # Errors
///
/// An allocation that fails.
pub fn example_of(
    alloc: Global,
    showing: &Showing<'_>,
    found: Option<(&States, &Outcome)>,
    tries: u32,
) -> Result<Option<Example>, AllocError>
    requires { IfSome found (λ one. CameByFirst showing.now.spec.now showing.now.plan.now (counted_of (one.0.now, one.1.now))) }
    ensures { IfOk result (λ shown. IsShownIf showing.now.spec.now showing.now.plan.now.crashes showing.now.scripts
        (option_map (λ one. counted_of (one.0.now, one.1.now)) found.entry) (option_map shown_of shown)) }
{
    let Some((states, outcome)) = found else {
        return Ok(None);
    };
    let mut left = tries;
    let shown = make_example(alloc, showing, states, outcome, &mut left)?;
    Ok(Some(shown))
}

/// An outcome as it is shown. Its schedule is made short by at most `left` runs of the room, which are counted down.
fn make_example(
    alloc: Global,
    showing: &Showing<'_>,
    states: &States,
    outcome: &Outcome,
    left: &mut u32,
) -> Result<Example, AllocError>
    requires { CameByFirst showing.now.spec.now showing.now.plan.now (counted_of (states.now, outcome.now)) }
    ensures { IfOk result (λ shown. IsShown showing.now.spec.now showing.now.plan.now.crashes showing.now.scripts (counted_of (states.now, outcome.now)) (shown_of shown)) }
{
    let schedule = if showing.scripts {
        schedule_for(alloc, showing, states, outcome, left)?
    } else {
        Vec::new(alloc)
    };
    Ok(Example {
        states: states.clone()?,
        times: outcome.times,
        first: outcome.first,
        schedule,
    })
}

/// A short schedule that leads to an outcome. The first one that did is drawn again, from the seed and its number.
fn schedule_for(
    alloc: Global,
    showing: &Showing<'_>,
    states: &States,
    outcome: &Outcome,
    left: &mut u32,
) -> Result<Vec<Stretch>, AllocError>
    requires { CameByFirst showing.now.spec.now showing.now.plan.now (counted_of (states.now, outcome.now)) }
    ensures { IfOk result (λ schedule. IsOutcome showing.now.spec.now showing.now.plan.now.crashes schedule.items states.now.items) }
{
    let (spec, plan) = (showing.spec, showing.plan);
    let _shape = spec.shape(); // for the proof: the room is within its limits
    let mut chances = Chances::of(plan.seed, outcome.first);
    let run = run_anew(alloc, spec, &mut chances, plan.crashes)?;
    let ending = Ending {
        spec,
        crashes: plan.crashes,
        states,
    };
    shorten(alloc, &ending, run.schedule.as_slice(), left)
}
