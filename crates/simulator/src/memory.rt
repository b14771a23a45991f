//! The words of a room, as the caller who steps a simulator has them.
ghost use Rattle.std.specs.Prelude.{◌≡◌};
ghost use Rattle.simulator.specs.Moves.{IsOperation, move_of};
ghost use Rattle.simulator.specs.Ranges.{IsMind};

use crate::operation::Move;
use room_spec::Spec;

/// What does the operations of minds, one word at a time. `C` is what it needs for that in addition.
pub trait Memory<C> {
    ghost use Rattle.std.specs.Prelude.{◌≡◌, ℕ};
    ghost use Rattle.room_spec.specs.Rooms.{RoomSpec};
    ghost use Rattle.simulator.specs.declared.operation.Move.{Move};
    ghost use Rattle.simulator.specs.Minds.{MindState};
    ghost use Rattle.simulator.specs.Moves.{IsOperation, move_of, taken};
    ghost use Rattle.simulator.specs.Ranges.{IsMind};

    // It can do what this mind of the room wants next.
    ghost serves: { Self → C → RoomSpec → MindState → Type 0 };

    // The operation may answer this, and leave the other memory.
    ghost does: { Self → Move → ℕ → Self → Type 0 };

    /// Does the operation, and answers it.
    fn operate(&mut self, context: &C, next: Move) -> u64
        requires { (spec : RoomSpec) × (mind : MindState) × serves self.old context.now spec mind × IsMind spec mind ×
            IsOperation (move_of spec mind) × (next ≡ move_of spec mind) }
        ensures { does self.old next result self.new };

    // After that it serves the mind that takes the answer in.
    ghost goes_on: { (memory : Self) (context : C) (spec : RoomSpec) (mind : MindState) (answer : ℕ) (next : Self) →
        serves memory context spec mind → IsMind spec mind → IsOperation (move_of spec mind) → does memory (move_of spec mind) answer next →
        serves next context spec (taken spec mind answer).mind };
}

/// The room in which a mind takes steps: its spec, and what its memory needs in addition for the operations.
#[derive(Drop)]
pub(crate) struct Room<'a, C> {
    pub(crate) spec: &'a Spec,
    pub(crate) context: &'a C,
}

/// A memory that is not looked into: this is its answer to each operation.
#[derive(Drop)]
pub(crate) struct OneAnswer {
    pub(crate) answer: u64,
}

impl Memory<()> for OneAnswer {
    ghost use Rattle.std.specs.Prelude.{◌≡◌, ⊤};

    ghost serves = { λ memory context spec mind. ⊤ };

    ghost does = { λ memory next answer after. answer ≡ memory.answer };

    #[inline(always)]
    fn operate(&mut self, _context: &(), _next: Move) -> u64 {
        self.answer
    }

    ghost goes_on = { λ memory context spec mind answer next served is_mind operation done. tt };
}
