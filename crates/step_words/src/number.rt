//! The numbers of steps.
ghost use Rattle.std.specs.Prelude.{◌≡◌, ◌<◌, ◌≤◌, ◌^◌, suc};
ghost use Rattle.simulator.specs.Ranges.{IsMind};
ghost use Rattle.room_core.specs.Calls.{configuration_of, sweep_at};
ghost use Rattle.room_core.specs.Counting.{total};
ghost use Rattle.room_core.specs.Rooms.{IsOneInterleaving, mind_at};
ghost use Rattle.step_words.specs.Reported.{steps_in};

use room_core::RoomCore;

/// The number of the next step of a room, counted from 1 over its whole life.
pub(crate) fn next_number(room: &RoomCore) -> u64
    ensures { (one : IsOneInterleaving (configuration_of room.now)) → result ≡ suc (steps_in one.schedule) }
{
    let _spec = room.spec(); // for the proof: each simulator counts its steps
    steps_so_far(room) + 1
}

/// How many steps all simulators of a room have taken.
fn steps_so_far(room: &RoomCore) -> u64
    ensures value { result ≡ total (λ i. (mind_at (configuration_of room.now) i).steps) room.now.spec.simulators }
    ensures range { result < 2 ^ 40 }
{
    let mut steps = 0;
    for i in 0..room.spec().m() {
        steps += steps_of(room, i);
    }
    steps
}

/// How many steps simulator `i` has taken.
#[tactic(auto, using(crate::proofs::Numbers::steps_low, crate::proofs::Numbers::mind_is))]
fn steps_of(room: &RoomCore, i: usize) -> u64
    requires { i < room.now.spec.simulators }
    ensures value { result ≡ (mind_at (configuration_of room.now) i).steps }
    ensures range { result ≤ 2 ^ 32 }
{
    room.mind(i).steps_taken()
}
