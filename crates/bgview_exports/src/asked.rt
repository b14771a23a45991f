//! What a caller asks of a mode, in numbers that C has.
ghost use Rattle.std.specs.Prelude.{◌≡◌};
ghost use Rattle.bgview_exports.specs.Calls.{number_unless_largest, plan_of, room_plan_of};

use room_sample::Plan;
use view_rooms::RoomPlan;

/// How rooms are sampled, as a struct of C.
#[repr(C)]
#[derive(Clone, Copy, Debug)]
pub struct SamplePlan {
    /// By how many schedules each room is run.
    pub schedules: u32,
    /// In each of them at most this many simulators crash.
    pub crashes: u32,
    /// What the schedules are drawn from: the same seed gives the same ones.
    pub seed: u32,
    /// The number of the first schedule.
    pub from: u32,
    /// How many outcomes are shown at most, or all if it is 4294967295.
    pub top: u32,
    /// The outcome of which nothing but the script is written, by its number in the order in which they are shown, from 1; or 4294967295 for all.
    pub outcome: u32,
    /// Whether outcomes that differ only in which simulators hold processes are one.
    pub group: bool,
    /// Whether scripts are left out.
    pub brief: bool,
    /// Whether the outcomes are written as JSON.
    pub json: bool,
}

/// The same plan, for one worker.
pub fn plan_of(plan: &SamplePlan) -> Plan
    ensures { result ≡ plan_of plan.now }
{
    Plan {
        schedules: plan.schedules,
        crashes: plan.crashes,
        seed: plan.seed,
        from: plan.from,
        workers: 1,
        group: plan.group,
        brief: plan.brief,
        top: number_unless_largest(plan.top),
        json: plan.json,
        outcome: number_unless_largest(plan.outcome),
    }
}

/// How all schedules of rooms are searched, as a struct of C.
#[repr(C)]
#[derive(Clone, Copy, Debug)]
pub struct SearchPlan {
    /// At most this many simulators crash, or all but one if it is 4294967295.
    pub crashes: u32,
    /// How many nodes of a room are searched at most.
    pub nodes: u32,
    /// Whether scripts are left out, in JSON the schedules.
    pub brief: bool,
    /// Whether the outcomes are written as JSON.
    pub json: bool,
}

/// The same plan.
pub fn room_plan_of(plan: &SearchPlan) -> RoomPlan
    ensures { result ≡ room_plan_of plan.now }
{
    RoomPlan {
        crashes: number_unless_largest(plan.crashes),
        nodes: plan.nodes,
        brief: plan.brief,
        json: plan.json,
    }
}

/// A number that may be left out: the largest one says that it is.
pub fn number_unless_largest(number: u32) -> Option<u32>
    ensures { result ≡ number_unless_largest number }
{
    if number == u32::MAX {
        None
    } else {
        Some(number)
    }
}
