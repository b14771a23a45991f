//! Laws of the inputs with which reductions are searched. Each is what its function ensures.
ghost use Rattle.std.specs.Prelude.{ℕ, List};
ghost use Rattle.std.specs.List.{Contains};
ghost use Rattle.room_spec.specs.Rooms.{RoomSpec, with_inputs};
ghost use Rattle.transcript.specs.Reductions.{AreFromOwn};
ghost use Rattle.run_search.specs.Agreed.{IsAgreedOutcome};
ghost use Rattle.run_search.specs.Outcomes.{IsRunOutcome};
ghost use Rattle.run_search.specs.declared.ended.Ended.{Ended};
ghost use Rattle.view_outcomes.specs.Rooms.{agreed_vectors};

use input_vectors::laws::vectors_are_all;

/// A reduction is searched from the vectors in which each process has some simulator's own input, and from no others: each outcome of a run of
/// it is one from a vector that is searched.
pub fn agreed_inputs_are_searched()
    ensures complete { (spec : RoomSpec) (crashes : ℕ) (outcome : List Ended) → IsAgreedOutcome spec crashes outcome →
        (inputs : List ℕ) × Contains (agreed_vectors spec) inputs × IsRunOutcome (with_inputs spec inputs) crashes outcome }
    ensures sound { (spec : RoomSpec) (inputs : List ℕ) → Contains (agreed_vectors spec) inputs → AreFromOwn spec inputs }
{
    vectors_are_all();
}
