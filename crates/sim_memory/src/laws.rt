//! Laws of step numbers, for a crate that has many simulators raise them. Each is what its function
//! ensures.
//!
//! They speak of maps that give for a simulator and a process a number, and of the words that such
//! maps are packed in. What a row shows is a snapshot in the sense of Y. Afek and others, "Atomic
//! snapshots of shared memory", J. ACM 40(4), 1993: any two rows of one memory compare.
ghost use Rattle.std.specs.Prelude.{◌≡◌, ◌≢◌, ℕ, ◌+◌, ◌^◌, ◌<◌, ◌≤◌, ◌⊎◌, max, List, length, slice_index, slice_set};
ghost use Rattle.room_spec.specs.declared.spec.TheConstants.{MAX_MEMORY_WORDS};
ghost use Rattle.room_spec.specs.Sizes.{AreSizes, Sizes, memory_words};
ghost use Rattle.sim_memory.specs.Steps.{merged_of, holder_of, IsHolder, row_of, IsRowAtMost, AreAtMost, AreSameSteps, IsRaised, one_more, AreWithin, AreFieldsAtMost, AreMemory, field_in, place_of, step_in, memory_of, memory_word, with_part, word_of};

/// The merged number of a process is the greatest that a simulator has.
pub fn merges()
    ensures greatest { (m : ℕ) (steps : ℕ → ℕ → ℕ) (i p : ℕ) → i < m → steps i p ≤ merged_of m steps p }
    ensures reached { (m : ℕ) (steps : ℕ → ℕ → ℕ) (p : ℕ) → 0 < m → (i : ℕ) × (i < m) × (steps i p ≡ merged_of m steps p) }
    ensures least { (m : ℕ) (steps : ℕ → ℕ → ℕ) (p bound : ℕ) → ((i : ℕ) → i < m → steps i p ≤ bound) → merged_of m steps p ≤ bound }
{}

/// Its holder is the least simulator that has it, and the only one.
pub fn holds()
    ensures is { (m : ℕ) (steps : ℕ → ℕ → ℕ) (p : ℕ) → 0 < m → IsHolder m steps p (holder_of m steps p) }
    ensures only { (m : ℕ) (steps : ℕ → ℕ → ℕ) (p holder : ℕ) → IsHolder m steps p holder → holder_of m steps p ≡ holder }
    ensures merged { (m : ℕ) (steps : ℕ → ℕ → ℕ) (p holder : ℕ) → IsHolder m steps p holder → merged_of m steps p ≡ steps holder p }
{}

/// A row has the merged number of each process. If no number is lower, no entry is.
pub fn rows()
    ensures length { (m n : ℕ) (steps : ℕ → ℕ → ℕ) → length (row_of m n steps) ≡ n }
    ensures entry { (m n : ℕ) (steps : ℕ → ℕ → ℕ) (p : ℕ) → p < n → slice_index (row_of m n steps) p ≡ merged_of m steps p }
    ensures grows { (m n : ℕ) (steps others : ℕ → ℕ → ℕ) → AreAtMost m n steps others → IsRowAtMost (row_of m n steps) (row_of m n others) }
{}

/// The same numbers have the same rows and holders.
pub fn same_steps()
    ensures row { (m n : ℕ) (steps others : ℕ → ℕ → ℕ) → AreSameSteps m n steps others → row_of m n steps ≡ row_of m n others }
    ensures merged { (m n : ℕ) (steps others : ℕ → ℕ → ℕ) (p : ℕ) → p < n → AreSameSteps m n steps others → merged_of m steps p ≡ merged_of m others p }
    ensures holder { (m n : ℕ) (steps others : ℕ → ℕ → ℕ) (p : ℕ) → 0 < m → p < n → AreSameSteps m n steps others → holder_of m steps p ≡ holder_of m others p }
{}

/// One more write of a simulator for a process raises the merged number of that process by one, or
/// leaves it, and changes no other.
pub fn raises()
    ensures own { (m n : ℕ) (steps after : ℕ → ℕ → ℕ) (i p : ℕ) →
        i < m → p < n → IsRaised m n steps i p after →
        merged_of m after p ≡ max (merged_of m steps p) (steps i p + 1) }
    ensures by_one { (m n : ℕ) (steps after : ℕ → ℕ → ℕ) (i p : ℕ) →
        i < m → p < n → IsRaised m n steps i p after →
        (merged_of m after p ≡ merged_of m steps p) ⊎ (merged_of m after p ≡ merged_of m steps p + 1) }
    ensures others { (m n : ℕ) (steps after : ℕ → ℕ → ℕ) (i p : ℕ) →
        i < m → p < n → IsRaised m n steps i p after → (q : ℕ) → q < n → q ≢ p →
        merged_of m after q ≡ merged_of m steps q }
    ensures one_more { (m n : ℕ) (steps : ℕ → ℕ → ℕ) (i p : ℕ) → IsRaised m n steps i p (one_more steps i p) }
    ensures grows { (m n : ℕ) (steps after : ℕ → ℕ → ℕ) (i p : ℕ) → i < m → p < n → IsRaised m n steps i p after → AreAtMost m n steps after }
{}

/// Later words of the same memory, in which no field is lower, have no lower row.
pub fn later_words()
    ensures steps { (sizes : Sizes) (words later : List ℕ) →
        AreFieldsAtMost sizes words later →
        AreAtMost sizes.m sizes.n (step_in sizes words) (step_in sizes later) }
    ensures row { (sizes : Sizes) (words later : List ℕ) →
        AreFieldsAtMost sizes words later →
        IsRowAtMost (row_of sizes.m sizes.n (step_in sizes words)) (row_of sizes.m sizes.n (step_in sizes later)) }
{}

/// One more at the lowest bit of a field that is below the last round raises that step number alone.
pub fn raises_word()
    ensures { (sizes : Sizes) (words : List ℕ) (i p : ℕ) →
        AreSizes sizes → i < sizes.m → p < sizes.n → memory_words sizes ≤ length words → field_in sizes words i p < sizes.rounds →
        IsRaised sizes.m sizes.n (step_in sizes words) i p
        (step_in sizes (slice_set words (word_of sizes i p) (slice_index words (word_of sizes i p) + 2 ^ place_of sizes i p))) }
{}

/// The words that a map is packed in read back as the map, and one more write is one more at the
/// lowest bit of its field.
pub fn memory_words()
    ensures fits { (sizes : Sizes) (steps : ℕ → ℕ → ℕ) (w : ℕ) → AreSizes sizes → AreWithin sizes steps → memory_word sizes steps w < 2 ^ 64 }
    ensures reads_back { (sizes : Sizes) (steps : ℕ → ℕ → ℕ) (words : List ℕ) →
        AreSizes sizes → AreWithin sizes steps → AreMemory sizes words steps →
        AreSameSteps sizes.m sizes.n (step_in sizes words) steps }
    ensures raised { (sizes : Sizes) (steps after : ℕ → ℕ → ℕ) (i p : ℕ) →
        AreSizes sizes → i < sizes.m → p < sizes.n → IsRaised sizes.m sizes.n steps i p after →
        memory_word sizes after (word_of sizes i p) ≡ memory_word sizes steps (word_of sizes i p) + 2 ^ place_of sizes i p }
    ensures others { (sizes : Sizes) (steps after : ℕ → ℕ → ℕ) (i p w : ℕ) →
        AreSizes sizes → i < sizes.m → p < sizes.n → IsRaised sizes.m sizes.n steps i p after → w ≢ word_of sizes i p →
        memory_word sizes after w ≡ memory_word sizes steps w }
    ensures part { (sizes : Sizes) (steps others : ℕ → ℕ → ℕ) (w : ℕ) →
        AreSizes sizes → ((i p : ℕ) → i < sizes.m → p < sizes.n → word_of sizes i p ≡ w → steps i p ≡ others i p) →
        memory_word sizes steps w ≡ memory_word sizes others w }
    ensures within { (sizes : Sizes) (steps after : ℕ → ℕ → ℕ) (i p : ℕ) →
        AreWithin sizes steps → IsRaised sizes.m sizes.n steps i p after → steps i p < sizes.rounds →
        AreWithin sizes after }
    ensures zero { (sizes : Sizes) (w : ℕ) → memory_word sizes (λ i p. 0) w ≡ 0 }
    ensures all { (sizes : Sizes) (steps : ℕ → ℕ → ℕ) → AreSizes sizes → AreMemory sizes (memory_of sizes steps) steps }
{}

/// One word of a map is loaded into another, or stored: that word is the one map's, and the others stay.
pub fn parts()
    ensures here { (sizes : Sizes) (source into : ℕ → ℕ → ℕ) (w : ℕ) →
        AreSizes sizes →
        memory_word sizes (with_part sizes w source into) w ≡ memory_word sizes source w }
    ensures elsewhere { (sizes : Sizes) (source into : ℕ → ℕ → ℕ) (w other : ℕ) →
        AreSizes sizes → other ≢ w →
        memory_word sizes (with_part sizes w source into) other ≡ memory_word sizes into other }
    ensures memory { (sizes : Sizes) (source into : ℕ → ℕ → ℕ) (w : ℕ) →
        AreSizes sizes → w < MAX_MEMORY_WORDS →
        memory_of sizes (with_part sizes w source into) ≡ slice_set (memory_of sizes into) w (memory_word sizes source w) }
    ensures words { (sizes : Sizes) (i p : ℕ) → AreSizes sizes → i < sizes.m → p < sizes.n → word_of sizes i p < memory_words sizes }
{}
