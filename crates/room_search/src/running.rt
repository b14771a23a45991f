//! A room that is run by a schedule, and settles.
ghost use Rattle.std.specs.Prelude.{◌≡◌, ◌≤◌, ℕ, IfOk, OnOk};
ghost use Rattle.room_core.specs.Calls.{RoomState, room_after_settle};
ghost use Rattle.room_search.specs.Taking.{IsOnTheWay, IsSettledIn};

use room_core::{CrashReply, RoomCore};
use room_sample::{Settled, Stretch};
use std::alloc::{AllocError, Global};

/// A room on its way, and the schedule that has led to it.
#[derive(Drop)]
pub struct Scheduled {
    pub room: RoomCore,
    pub schedule: Vec<Stretch>,
    /// How many simulators may crash still.
    pub crashes_left: u32,
}

impl Scheduled {
    /// Follows a stretch as far as it may come.
    fn follow(&mut self, stretch: Stretch) -> Result<(), AllocError>
        ensures { OnOk result ((start : RoomState) (crashes : ℕ) → IsOnTheWay start crashes self.old → IsOnTheWay start crashes self.new) }
    {
        match stretch {
            Stretch::Steps { simulator, count } => self.step(simulator, count),
            Stretch::Crash { simulator } => self.crash(simulator),
        }
    }

    /// Lets a simulator take steps, up to `most` of them.
    fn step(&mut self, simulator: u8, most: u16) -> Result<(), AllocError>
        ensures { OnOk result ((start : RoomState) (crashes : ℕ) → IsOnTheWay start crashes self.old → IsOnTheWay start crashes self.new) }
    {
        let count = self.room.steps(usize::from(simulator), u64::from(most)) as u16;
        if count == 0 {
            return Ok(());
        }
        self.schedule.push(Stretch::Steps { simulator, count })?;
        Ok(())
    }

    /// Crashes a simulator, if one may crash still and this one hasn't yet.
    fn crash(&mut self, simulator: u8) -> Result<(), AllocError>
        ensures { OnOk result ((start : RoomState) (crashes : ℕ) → IsOnTheWay start crashes self.old → IsOnTheWay start crashes self.new) }
    {
        if self.crashes_left == 0 {
            return Ok(());
        }
        let CrashReply::Crashed = self.room.crash(usize::from(simulator)) else {
            return Ok(());
        };
        self.crashes_left -= 1;
        self.schedule.push(Stretch::Crash { simulator })?;
        Ok(())
    }
}

/// Runs a room by a schedule, as far as each of its stretches may come, and settles it. At most `crashes` simulators more crash.
///
/// # Errors
///
/// An allocation that fails.
pub fn settled_from(
    alloc: Global,
    start: RoomCore,
    crashes: u32,
    schedule: &[Stretch],
) -> Result<Settled, AllocError>
    ensures { IfOk result (λ settled. IsSettledIn start crashes settled.schedule.items settled.room) }
{
    let mut scheduled = Scheduled {
        room: start,
        schedule: Vec::new(alloc),
        crashes_left: crashes,
    };
    for stretch in schedule {
        scheduled.follow(*stretch)?;
    }
    let Scheduled {
        mut room,
        schedule,
        ..
    } = scheduled;
    room.settle();
    Ok(Settled { room, schedule })
}
