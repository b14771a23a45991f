//! Rooms after what the commands of a script do to them.
ghost use Rattle.std.specs.Prelude.{◌≡◌, ◌≤◌, IfOk, if◌then◌else◌};
ghost use Rattle.room_core.specs.Calls.{room_after_step, step_reply};
ghost use Rattle.room_core.specs.Observing.{is_stepped};
ghost use Rattle.service_core.specs.Rooms.{room_stepped};
ghost use Rattle.room_search.specs.Beginnings.{begun, crash_count, room_after_act};

use room_core::{RoomCore, StepReply};
use room_spec::Spec;
use std::alloc::{AllocError, Global};

/// What a command of a script does to a room.
#[derive(Clone, Copy)]
pub enum Act {
    /// Lets a simulator take steps, until it has taken this many or one is not taken.
    Steps { simulator: u8, count: u16 },
    /// Crashes a simulator.
    Crash { simulator: u8 },
    /// Runs the simulators until none can do anything more.
    Settle,
}

/// A room, and what is done to it before its schedules are searched.
#[derive(Clone, Copy)]
pub struct Beginning<'a> {
    pub spec: &'a Spec,
    pub acts: &'a [Act],
}

/// The room in which all this was done.
///
/// # Errors
///
/// An allocation that fails.
pub fn room_after(alloc: Global, from: &Beginning<'_>) -> Result<RoomCore, AllocError>
    ensures { IfOk result (λ room. room ≡ begun from.now.spec.now from.now.acts.now) }
{
    let mut room = RoomCore::fresh(alloc, from.spec.clone()?)?;
    for act in from.acts {
        perform(&mut room, *act);
    }
    Ok(room)
}

fn perform(room: &mut RoomCore, act: Act)
    ensures { room.new ≡ room_after_act room.old act }
{
    match act {
        Act::Steps { simulator, count } => step(room, usize::from(simulator), count),
        Act::Crash { simulator } => {
            room.crash(usize::from(simulator));
        }
        Act::Settle => room.settle(),
    }
}

/// Lets simulator `i` take steps, until it has taken `count` or one is not taken.
fn step(room: &mut RoomCore, i: usize, count: u16)
    ensures { room.new ≡ room_stepped room.old i count }
{
    for _ in 0..count {
        if !takes_step(room, i) {
            return;
        }
    }
}

/// Lets simulator `i` take one step, if it has one to take. Gives whether it has taken one.
fn takes_step(room: &mut RoomCore, i: usize) -> bool
    ensures reply { result ≡ is_stepped (step_reply room.old i) }
    ensures room { room.new ≡ room_after_step room.old i }
{
    match room.step(i) {
        StepReply::Stepped => true,
        StepReply::Idle | StepReply::OutOfTurns | StepReply::Crashed | StepReply::NoSimulator =>
            false,
    }
}

/// How many simulators have crashed in a room.
pub fn crash_count(room: &RoomCore) -> u32
    ensures { result ≡ crash_count room.now }
{
    let _m = room.spec().m(); // for the proof: it is at most 8
    let mut count = 0;
    for i in 0..room.spec().m() {
        count += one_if(room.is_crashed(i));
    }
    count
}

fn one_if(is_so: bool) -> u32
    ensures one { result ≡ if is_so then 1 else 0 }
    ensures few { result ≤ 1 }
{
    if is_so { 1 } else { 0 }
}
