//! Laws of samples.
ghost use Rattle.std.specs.Prelude.{◌≡◌, ℕ, ◌+◌, ◌<◌, ◌^◌, List};
ghost use Rattle.std.specs.List.{All, sum_by};
ghost use Rattle.rand_core.specs.Stream.{Stream};
ghost use Rattle.room_spec.specs.Rooms.{IsWithinLimits, RoomSpec, processes};
ghost use Rattle.room_core.specs.Calls.{RoomState};
ghost use Rattle.room_core.specs.Fields.{Fields};
ghost use Rattle.room_core.specs.Reading.{AreFieldsOf};
ghost use Rattle.ws_history.specs.Reports.{report_of};
ghost use Rattle.ws_history.specs.declared.states.ProcessState.{ProcessState};
ghost use Rattle.room_outcomes.specs.Ends.{IsRoomOutcome, ends_of};
ghost use Rattle.room_sample.specs.Groups.{AreGroups, grouped};
ghost use Rattle.room_sample.specs.Parts.{added_all};
ghost use Rattle.room_sample.specs.Samples.{CameByFirst, Counted, IsRunFrom, IsSampleOf, IsSettledFrom, number_at};
ghost use Rattle.room_sample.specs.Schedules.{IsOutcome};
ghost use Rattle.room_sample.specs.declared.sampling.Plan.{Plan};
ghost use Rattle.room_sample.specs.declared.stretch.Stretch.{Stretch};

/// What a sample finds is among all outcomes that a search of the room's protocol lists, with those processes stopped that are held or
/// still going. In a reduction that is a search of the runs from inputs that are the simulators' own.
pub fn sampled_outcomes()
    ensures { (spec : RoomSpec) (crashes : ℕ) (schedule : List Stretch) (states : List ProcessState) →
        IsWithinLimits spec → IsOutcome spec crashes schedule states → IsRoomOutcome spec (processes spec) (ends_of states) }
{}

/// The groups of a sample's outcomes have each outcome once, and each schedule is counted once.
pub fn groups_of_outcomes()
    ensures { (outcomes : List Counted) → sum_by (λ one. one.times) outcomes < 2 ^ 32 → AreGroups outcomes (grouped outcomes) }
{}

/// A stream of random numbers gives one run: the same schedule, and the same states of the processes after it.
pub fn determined_runs()
    ensures { (spec : RoomSpec) (crashes : ℕ) (random : Stream) (schedule other : List Stretch) (states others : List ProcessState) →
        IsWithinLimits spec → IsRunFrom spec crashes random schedule states → IsRunFrom spec crashes random other others →
        (schedule ≡ other) × (states ≡ others) }
{}

/// The room that the run of a stream leads to is the one of which a sample counts the states: it is the only one, by the only schedule.
pub fn settled_runs()
    ensures determined { (spec : RoomSpec) (crashes : ℕ) (random : Stream) (schedule other : List Stretch) (room rooms : RoomState) →
        IsSettledFrom spec crashes random schedule room → IsSettledFrom spec crashes random other rooms → (schedule ≡ other) × (room ≡ rooms) }
    ensures counted { (spec : RoomSpec) (crashes : ℕ) (random : Stream) (schedule other : List Stretch) (room : RoomState) (states : List ProcessState) →
        IsSettledFrom spec crashes random schedule room → IsRunFrom spec crashes random other states →
        (schedule ≡ other) × ((fields : Fields) → AreFieldsOf room fields → states ≡ (report_of room.spec fields).states.items) }
{}

/// The same seed gives the same sample: if as many simulators may crash, as many schedules from the same number on give the same outcomes, as often, and in the same
/// order, whatever else the plans say. So the outcomes are the same by any number of threads.
pub fn determined_samples()
    ensures { (spec : RoomSpec) (plan other_plan : Plan) (schedules : ℕ) (outcomes others : List Counted) →
        IsWithinLimits spec → plan.seed ≡ other_plan.seed → plan.from ≡ other_plan.from → plan.crashes ≡ other_plan.crashes →
        IsSampleOf spec plan schedules outcomes → IsSampleOf spec other_plan schedules others → outcomes ≡ others }
{}

/// Samples add up: if one plan begins with the number that comes after the schedules of another one with the same seed and as many crashes, the outcomes of both, each as often as in
/// both together, are those of one sample of all their schedules.
pub fn samples_add_up()
    ensures { (spec : RoomSpec) (plan later_plan : Plan) (schedules more : ℕ) (outcomes later : List Counted) →
        plan.seed ≡ later_plan.seed → later_plan.from ≡ number_at plan schedules → plan.crashes ≡ later_plan.crashes → schedules + more < 2 ^ 32 →
        IsSampleOf spec plan schedules outcomes → IsSampleOf spec later_plan more later →
        IsSampleOf spec plan (schedules + more) (added_all outcomes later) }
{}

/// The schedule of an outcome's number leads to it. So the seed and the number give a schedule of each outcome again, and none has to be kept.
pub fn first_schedules()
    ensures { (spec : RoomSpec) (plan : Plan) (schedules : ℕ) (outcomes : List Counted) →
        IsSampleOf spec plan schedules outcomes → All (CameByFirst spec plan) outcomes }
{}
