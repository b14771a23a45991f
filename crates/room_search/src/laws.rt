//! Laws of the outcomes that are reachable, and of those that are open. Each is what its function ensures.
ghost use Rattle.std.specs.Prelude.{◌++◌, ℕ, List};
ghost use Rattle.std.specs.List.{All};
ghost use Rattle.room_spec.specs.Rooms.{IsWithinLimits, RoomSpec};
ghost use Rattle.room_core.specs.Calls.{RoomState, configuration_of};
ghost use Rattle.room_core.specs.Fields.{Fields};
ghost use Rattle.room_core.specs.Reading.{AreFieldsOf};
ghost use Rattle.ws_history.specs.Reports.{states_of};
ghost use Rattle.ws_history.specs.declared.states.ProcessState.{ProcessState};
ghost use Rattle.run_search.specs.declared.ended.Ended.{Ended as EndedValue};
ghost use Rattle.room_outcomes.specs.Ends.{ends_of};
ghost use Rattle.room_sample.specs.Chances.{random_of};
ghost use Rattle.room_sample.specs.Samples.{Counted, IsSampleOf, IsSettledFrom};
ghost use Rattle.room_sample.specs.Schedules.{IsOutcome, settled_by};
ghost use Rattle.room_sample.specs.declared.sampling.Plan.{Plan};
ghost use Rattle.room_sample.specs.declared.stretch.Stretch.{Stretch};
ghost use Rattle.room_search.specs.Beginnings.{begun};
ghost use Rattle.room_search.specs.Continuing.{Continues};
ghost use Rattle.room_search.specs.Lasting.{HaveTurnsLeft, LeavesTurns};
ghost use Rattle.room_search.specs.Reaching.{AreAllReached, IsFound, IsOpen, IsReachable};
ghost use Rattle.room_search.specs.declared.beginning.Act.{Act as ActValue};
ghost use Rattle.room_search.specs.declared.reached.Reached.{Reached as ReachedValue};

/// What is open only shrinks.
pub fn open_outcomes_shrink()
    // What is open in a room was open in each room from which atomic steps and crashes lead to it.
    ensures rooms { (spec : RoomSpec) (crashes : ℕ) (start later : RoomState) (outcome : List EndedValue) →
        Continues (configuration_of start) (configuration_of later) → IsOpen later spec crashes outcome → IsOpen start spec crashes outcome }
    // What is open after more was done was open before, whatever was done.
    ensures acts { (spec : RoomSpec) (crashes : ℕ) (before more : List ActValue) (outcome : List EndedValue) →
        IsWithinLimits spec → IsOpen (begun spec (before ++ more)) spec crashes outcome → IsOpen (begun spec before) spec crashes outcome }
{}

/// What a sample finds is reachable, and so listed, unless a simulator is out of turns.
pub fn sampled_outcomes_are_reachable()
    // The outcome to which a schedule leads is reachable with as many crashes, if each simulator that hasn't crashed has a turn left once the room has settled.
    ensures schedules { (spec : RoomSpec) (crashes : ℕ) (schedule : List Stretch) (states : List ProcessState) →
        IsWithinLimits spec → IsOutcome spec crashes schedule states → HaveTurnsLeft (settled_by spec schedule) → IsReachable spec crashes (ends_of states) }
    // So is that of the room to which a plan's schedule of some number leads (`room_sample::settled_by_number`).
    ensures numbers { (spec : RoomSpec) (plan : Plan) (number : ℕ) (schedule : List Stretch) (room : RoomState) (fields : Fields) →
        IsWithinLimits spec → IsSettledFrom spec plan.crashes (random_of plan.seed number) schedule room → AreFieldsOf room fields → HaveTurnsLeft room →
        IsReachable spec plan.crashes (ends_of (states_of room.spec fields)) }
    // A complete list of all outcomes, with as many crashes, has each outcome of a sample that came first by such a schedule.
    ensures samples { (spec : RoomSpec) (plan : Plan) (schedules : ℕ) (outcomes : List Counted) (all : List ReachedValue) →
        IsWithinLimits spec → IsSampleOf spec plan schedules outcomes → AreAllReached spec plan.crashes 0 all →
        All (λ one. LeavesTurns spec plan one.first → IsFound all (ends_of one.states)) outcomes }
{}
