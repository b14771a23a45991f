//! An observer of the steps of a room.
ghost use Rattle.std.specs.Prelude.{◌≡◌, ◌≢◌};

use crate::reply::StepReply;
use crate::room::RoomCore;

/// Has the simulators of a room take their steps, without an observer ([`Unobserved`]) or with one.
pub trait Observer {
    ghost use Rattle.std.specs.Prelude.{◌≡◌, ◌≢◌, ℕ};
    ghost use Rattle.room_core.specs.Calls.{RoomState, room_after_step, step_reply};
    ghost use Rattle.room_core.specs.declared.reply.StepReply.TheVariants.{Stepped};

    // What it may become by a step of this simulator that a room, as it was before, took.
    ghost sees: { Self → RoomState → ℕ → Self → Type 0 };

    /// Lets simulator `i` take one atomic step, if it has one to take, as [`RoomCore::step`] does.
    fn step(&mut self, room: &mut RoomCore, i: usize) -> StepReply
        ensures reply { result ≡ step_reply room.old i }
        ensures room { room.new ≡ room_after_step room.old i }
        ensures seen { result ≡ Stepped → sees self.old room.old i self.new }
        // Where no step was taken there was nothing to see.
        ensures blind { result ≢ Stepped → self.new ≡ self.old };
}

/// No observer.
#[derive(Clone, Copy)]
pub struct Unobserved;

impl Observer for Unobserved {
    ghost use Rattle.std.specs.Prelude.{⊤};

    ghost sees = { λ old room i new. ⊤ };

    #[inline(always)]
    fn step(&mut self, room: &mut RoomCore, i: usize) -> StepReply {
        room.step(i)
    }
}
