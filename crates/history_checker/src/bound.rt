//! How many different values are decided at most, whatever the run.
ghost use Rattle.std.specs.Prelude.{◌≡◌, ◌↔◌, ◌+◌, ℕ, Some, IfSome};
ghost use Rattle.room_spec.specs.Rooms.{IsCertified};
ghost use Rattle.history_checker.specs.Tasks.{DecidesAtMost, DecidesInputs};

use protocol_lang::threshold;
use room_spec::Spec;

/// `f + 1`, where by the room's protocol each process waits until it sees all but f processes, for an f below their number, and then
/// decides the least value that it sees; of other protocols `None`. In no run of the room are more different values decided
/// (Chaudhuri 1993). It takes no memory.
pub fn certified(spec: &Spec) -> Option<u8>
    ensures exact { (most : ℕ) → (result ≡ Some most) ↔ ((f : ℕ) × (most ≡ f + 1) × IsCertified spec.now f) }
    // No run decides more, and only inputs.
    ensures few { IfSome result (DecidesAtMost spec.now) }
    ensures inputs { IfSome result (λ most. DecidesInputs spec.now) }
{
    let Some(missed) = threshold(spec.protocol()) else {
        return None;
    };
    if (missed as usize) < spec.n() {
        Some(missed as u8 + 1)
    } else {
        None
    }
}
