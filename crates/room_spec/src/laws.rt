//! Laws of the values of a room. Each is what its function ensures.
ghost use Rattle.std.specs.Prelude.{◌≡◌, ◌<◌, ◌≤◌, ◌*◌, ℕ, List, Option, length, slice_index};
ghost use Rattle.std.specs.List.{AllByRecursion};
ghost use Rattle.protocol_lang.specs.Numbers.{greatest};
ghost use Rattle.protocol_lang.specs.Limits.{IsEntry, action_value};
ghost use Rattle.protocol_lang.specs.Meaning.{first_value, next_action};
ghost use Rattle.room_spec.specs.Rooms.{RoomSpec, IsWithinLimits, processes};
ghost use Rattle.room_spec.specs.Sizes.{Sizes, AreSizes, AreMemoryWords, memory_words};

/// A room's inputs are at most the greatest value, and so is all that its protocol makes of them, or of any input that is.
pub fn values_are_small()
    ensures inputs { (spec : RoomSpec) (j : ℕ) → IsWithinLimits spec → slice_index spec.inputs j ≤ greatest }
    ensures own { (spec : RoomSpec) (i : ℕ) → IsWithinLimits spec → slice_index spec.own i ≤ greatest }
    ensures first { (spec : RoomSpec) (j : ℕ) →
        IsWithinLimits spec → j < processes spec →
        first_value spec.protocol (slice_index spec.inputs j) j (processes spec) ≤ greatest }
    ensures next { (spec : RoomSpec) (j round : ℕ) (view : List (Option ℕ)) →
        IsWithinLimits spec → j < processes spec → round ≤ spec.rounds → length view ≡ processes spec → AllByRecursion IsEntry view →
        action_value (next_action spec.protocol (slice_index spec.inputs j) j round view) ≤ greatest }
    ensures first_of_any { (spec : RoomSpec) (input j : ℕ) →
        IsWithinLimits spec → input ≤ greatest → j < processes spec → first_value spec.protocol input j (processes spec) ≤ greatest }
    ensures next_of_any { (spec : RoomSpec) (input j round : ℕ) (view : List (Option ℕ)) →
        IsWithinLimits spec → input ≤ greatest → j < processes spec → round ≤ spec.rounds → length view ≡ processes spec → AllByRecursion IsEntry view →
        action_value (next_action spec.protocol input j round view) ≤ greatest }
{}

/// A room has the least number of memory words that have room for all its step numbers, at most four; and one where
/// these take no more than 64 bits.
pub fn memory_words_fit()
    ensures fit { (sizes : Sizes) → AreSizes sizes → AreMemoryWords sizes }
    ensures one { (sizes : Sizes) → AreSizes sizes → sizes.m * sizes.n * sizes.bits ≤ 64 → memory_words sizes ≡ 1 }
{}
