//! Laws of sums of samples.
ghost use Rattle.std.specs.Prelude.{List};
ghost use Rattle.room_spec.specs.Rooms.{RoomSpec};
ghost use Rattle.view_sum.specs.Counts.{AreSumsOf};
ghost use Rattle.view_sum.specs.Samples.{RoomSample};
ghost use Rattle.view_sum.specs.Sampling.{DoAddUp};
ghost use Rattle.view_sum.specs.Sums.{sum_of};

use room_sample::laws::samples_add_up;

/// Each outcome came in the sum as often as in all parts together.
pub fn sums_of_parts()
    ensures { (first : RoomSample) (parts : List RoomSample) → AreSumsOf first.how.grouped parts (sum_of first parts).outcomes }
{}

/// The sum of samples of a room that follow each other is a sample of the room by all their schedules, if each part lists its outcomes as often as they came, and no
/// outcomes are groups.
pub fn sums_of_samples()
    ensures { (spec : RoomSpec) (first : RoomSample) (later : List RoomSample) → DoAddUp spec first later }
{
    samples_add_up();
}
