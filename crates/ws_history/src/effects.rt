//! What takes effect at an atomic step, as far as the step itself shows it.
ghost use Rattle.std.specs.Prelude.{◌≡◌, ◌<◌};
ghost use Rattle.room_spec.specs.Rooms.{processes};
ghost use Rattle.room_core.specs.Calls.{RoomState, configuration_of, room_after_step, step_reply};
ghost use Rattle.room_core.specs.Rooms.{IsOneInterleaving};
ghost use Rattle.room_core.specs.declared.reply.StepReply.TheVariants.{Stepped};
ghost use Rattle.ws_history.specs.Effects.{IsEffectOf, effect_in, effect_inside};
ghost use Rattle.ws_history.specs.Noting.{looked};

use crate::agreements::written;
use crate::points::{Before, look, reads};
use crate::reading::{decided_in, greatest_step, process_count, shape_of, simulator_count};
use room_core::RoomCore;

/// What takes effect at an atomic step, of which process.
#[derive(Clone, Copy)]
pub enum Effect {
    /// A write of this value: no simulator had counted it before.
    Write { process: usize, value: u32 },
    /// A snapshot, if what was read is proposed and the proposal is chosen.
    Snapshot { process: usize },
    /// The decision on this value: none was stored before.
    Decision { process: usize, value: u32 },
}

/// A room as it is before a step of a simulator, as far as it has to be known to say what takes effect at the step.
#[derive(Clone, Copy)]
pub struct StepStart {
    before: Option<Before>,
}

impl StepStart {
    /// Looks at the room before the next step of simulator `i`.
    pub fn of(room: &RoomCore, i: usize) -> StepStart
        ensures { result.before ≡ looked room.now i }
    {
        StepStart {
            before: look(room, i),
        }
    }

    /// What took effect at that step, which led to this room.
    pub fn effect(&self, room: &RoomCore, i: usize) -> Option<Effect>
        ensures { (old : RoomState) (one : IsOneInterleaving (configuration_of old)) →
            self.now.before ≡ looked old i → step_reply old i ≡ Stepped → room.now ≡ room_after_step old i →
            IsEffectOf old.spec one.schedule i result }
    {
        let _shape = shape_of(room); // for the proof: the room is within its limits
        effect_in(room, i, self.before)
    }
}

fn effect_in(room: &RoomCore, i: usize, before: Option<Before>) -> Option<Effect>
    ensures { result ≡ effect_in room.now i before }
{
    let Some(before) = before else {
        return None;
    };
    if i >= simulator_count(room) || before.process >= process_count(room) {
        return None;
    }
    effect_inside(room, i, &before)
}

/// What took effect at a step inside a turn of simulator `i`.
fn effect_inside(room: &RoomCore, i: usize, before: &Before) -> Option<Effect>
    requires simulator { i < room.now.spec.simulators }
    requires process { before.now.process < processes room.now.spec }
    ensures { result ≡ effect_inside room.now i before.now }
{
    let process = before.process;
    let count = greatest_step(room, process);
    if before.count < count {
        let value = written(room, process, count);
        return Some(Effect::Write { process, value });
    }
    if reads(room, i, before) {
        return Some(Effect::Snapshot { process });
    }
    if before.decided {
        return None;
    }
    match decided_in(room, process) {
        Some(value) => Some(Effect::Decision { process, value }),
        None => None,
    }
}
