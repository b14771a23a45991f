//! A simulator that takes step after step.
ghost use Rattle.std.specs.Prelude.{◌≡◌, ◌+◌, ◌*◌, ◌<◌, ◌≤◌, IfNone, IfSome};
ghost use Rattle.room_spec.specs.Rooms.{processes};
ghost use Rattle.room_spec.specs.Sizes.{sizes_in};
ghost use Rattle.simulator.specs.Bounds.{agreement_rounds};
ghost use Rattle.simulator.specs.Ranges.{turn_limit};
ghost use Rattle.room_core.specs.Calls.{step_bound};
ghost use Rattle.ruled_room.specs.Parts.{IsSweepOf};
ghost use Rattle.scheduler.specs.Drives.{Drives, HasLeft, HasStopped, IsWithinFuse, TakesTurn};

use crate::fuse::Fuse;
use crate::gate::Gate;
use room_core::StepReply;
use ruled_room::{RuledRoom, Simulator, Stop};

/// Lets a simulator take its steps up to the end of a turn, the open one or else the next, or until
/// it stops. The fuse comes before each step, also before one that would find it idle.
pub fn turn(simulator: &mut Simulator, room: &RuledRoom, fuse: &Fuse) -> Option<Stop>
    requires { simulator.old.room ≡ room.now }
    // Nothing exactly after a step that ended a turn, the last that it takes; else why it stopped.
    ensures steps { TakesTurn fuse.now simulator.old result simulator.new }
    ensures stop { IfSome result (λ stop. HasStopped fuse.now room.now.spec stop simulator.new.sweep) }
    ensures fuse { IsWithinFuse fuse.now simulator.old.sweep.mind.steps → IsWithinFuse fuse.now simulator.new.sweep.mind.steps }
    ensures same { (simulator.new.room ≡ simulator.old.room) × (simulator.new.number ≡ simulator.old.number) }
    // Steps are taken before a turn's end, and never more in all than all turns have.
    ensures more { IfNone result ((simulator.old.sweep.mind.steps < simulator.new.sweep.mind.steps) ×
        (simulator.new.sweep.mind.steps ≤ step_bound room.now.spec)) }
    // With those that its open turn had taken these are no more than a turn may take.
    ensures bound { simulator.new.sweep.mind.steps + simulator.old.sweep.mind.turn_steps ≤ simulator.old.sweep.mind.steps + turn_limit room.now.spec }
{
    let left = steps_left(simulator, fuse);
    if left == 0 {
        return Some(Stop::Crashed);
    }
    let reply = simulator.run(room, left);
    match reply {
        StepReply::Stepped if simulator.resting() => None,
        StepReply::Stepped => Some(Stop::Crashed),
        StepReply::Idle => Some(Stop::Idle),
        StepReply::OutOfTurns => Some(Stop::OutOfTurns),
        // a simulator on shared words has its number, and the keeper alone marks crashes
        StepReply::Crashed | StepReply::NoSimulator => unreachable!(),
    }
}

/// How many steps its fuse allows it from now on.
fn steps_left(simulator: &Simulator, fuse: &Fuse) -> u64
    ensures left { HasLeft fuse.now simulator.now.sweep.mind.steps result }
    ensures sweep { IsSweepOf simulator.now.room.spec simulator.now.number simulator.now.sweep }
{
    fuse.left(simulator.mind().steps_taken())
}

/// Lets a simulator take turn after turn until it stops, and passes the gate before each: as the worker
/// of its number, at its visits of this call, counted from 0.
pub fn drive(simulator: &mut Simulator, room: &RuledRoom, fuse: &Fuse, gate: &impl Gate) -> Stop
    requires { simulator.old.room ≡ room.now }
    // It takes all its steps up to where it stops: crashed exactly if the fuse's number equals the
    // steps taken, and else idle or out of turns as a call of `step` says.
    ensures steps { Drives fuse.now simulator.old result simulator.new }
    ensures stop { HasStopped fuse.now room.now.spec result simulator.new.sweep }
    ensures fuse { IsWithinFuse fuse.now simulator.old.sweep.mind.steps → IsWithinFuse fuse.now simulator.new.sweep.mind.steps }
    ensures same { (simulator.new.room ≡ simulator.old.room) × (simulator.new.number ≡ simulator.old.number) }
    // Whatever others do, it begins at most `(n * rounds + 1) * n` turns, each of no more steps than a turn may take. In a reduction the
    // agreement on a process's input is one round more.
    ensures turns { simulator.new.sweep.mind.turns ≤
        simulator.old.sweep.mind.turns + (processes room.now.spec * agreement_rounds (sizes_in room.now.spec) + 1) * processes room.now.spec }
    ensures bound { simulator.new.sweep.mind.steps ≤
        simulator.old.sweep.mind.steps + (processes room.now.spec * agreement_rounds (sizes_in room.now.spec) + 1) * processes room.now.spec * turn_limit room.now.spec }
{
    let worker = simulator.number() as u8;
    let mut visit: u64 = 0;
    loop {
        gate.pass(worker, visit);
        if let Some(stop) = turn(simulator, room, fuse) {
            return stop;
        }
        visit = visit.saturating_add(1);
    }
}
