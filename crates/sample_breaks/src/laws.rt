//! Laws of histories that are judged schedule by schedule.
ghost use Rattle.std.specs.Prelude.{◌≡◌, ℕ, ◌+◌, List, None};
ghost use Rattle.protocol_lang.specs.Trees.{Tree};
ghost use Rattle.room_spec.specs.Rooms.{IsWithinLimits, RoomSpec};
ghost use Rattle.room_sample.specs.Samples.{number_at};
ghost use Rattle.room_sample.specs.declared.sampling.Plan.{Plan};
ghost use Rattle.sample_breaks.specs.Breaks.{AreBreaks, added, first_of};
ghost use Rattle.sample_breaks.specs.declared.breaks.Breaks.{Breaks};

/// Counts add up, as samples do: if one plan begins with the number that comes after the schedules of another one with the same seed and as many crashes, the counts of both together are that of
/// one plan with all their schedules, and the first break is that of the earlier plan, if it has one.
pub fn breaks_add_up()
    ensures { (lines : List Tree) (spec : RoomSpec) (plan later_plan : Plan) (schedules more : ℕ) (breaks later : Breaks) →
        plan.seed ≡ later_plan.seed → later_plan.from ≡ number_at plan schedules → plan.crashes ≡ later_plan.crashes →
        AreBreaks lines spec plan schedules breaks → AreBreaks lines spec later_plan more later →
        AreBreaks lines spec plan (schedules + more) (added breaks later) }
{}
