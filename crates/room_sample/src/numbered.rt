//! The run of a room by the schedule of a number.
ghost use Rattle.std.specs.Prelude.{IfOk};
ghost use Rattle.room_sample.specs.Chances.{random_of};
ghost use Rattle.room_sample.specs.Samples.{IsSettledFrom};

use crate::chances::Chances;
use crate::run::{Settled, settled_by_chance};
use crate::sampling::Plan;
use room_spec::Spec;
use std::alloc::{AllocError, Global};

/// Runs the room of a spec by the schedule of this number, which the seed of a plan gives, and settles it. In the schedule at most as many simulators crash as the plan says.
///
/// # Errors
///
/// An allocation that fails.
pub fn settled_by_number(
    alloc: Global,
    spec: &Spec,
    plan: &Plan,
    number: u32,
) -> Result<Settled, AllocError>
    ensures { IfOk result (λ settled. IsSettledFrom spec.now plan.now.crashes (random_of plan.now.seed number) settled.schedule.items settled.room) }
{
    let mut chances = Chances::of(plan.seed, number);
    settled_by_chance(alloc, spec.clone()?, &mut chances, plan.crashes)
}
