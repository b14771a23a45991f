//! Laws of steps.
ghost use Rattle.std.specs.Prelude.{◌≡◌, ℕ, Some, slice_set};
ghost use Rattle.room_spec.specs.Rooms.{RoomSpec};
ghost use Rattle.room_spec.specs.Sizes.{sizes_in};
ghost use Rattle.simulator.specs.Minds.{MindState};
ghost use Rattle.simulator.specs.Moves.{taken};
ghost use Rattle.simulator.specs.Ranges.{IsMind};
ghost use Rattle.simulator.specs.Sweeps.{works_on};
ghost use Rattle.view_table.specs.Places.{index_of};
ghost use Rattle.room_core.specs.Calls.{RoomState, room_after_step, step_reply};
ghost use Rattle.room_core.specs.declared.reply.StepReply.TheVariants.{Stepped};
ghost use Rattle.room_steps.specs.Steps.{IsStepOf, end_in, turn_of};
ghost use Rattle.room_steps.specs.declared.step.AtomicStep.{AtomicStep};

/// What a step leaves to do for its process says how it ended its turn: quiet, useful or not at all, as the simulator itself counts it.
pub fn ends_are_turns()
    ensures { (spec : RoomSpec) (mind : MindState) (answer process : ℕ) →
        IsMind spec mind → works_on mind ≡ Some process →
        turn_of (end_in (taken spec mind answer).mind process) ≡ (taken spec mind answer).turn }
{}

/// A step changes no word of the room but that of its place, which is what the step says of it. So the words of a room are known by its steps alone.
pub fn steps_change_one_word()
    ensures { (room : RoomState) (i : ℕ) (step : AtomicStep) → step_reply room i ≡ Stepped → IsStepOf room i step →
        (room_after_step room i).words ≡ slice_set room.words (index_of (sizes_in room.spec) step.place) step.after }
{}
