//! Laws of fields, of levels, and of words that are made of fields of one width. Each is what its
//! function ensures.
ghost use Rattle.std.specs.Prelude.{◌≡◌, ℕ, ◌+◌, ◌-◌, ◌*◌, ◌^◌, ◌<◌, ◌≤◌, replicate, slice_set};
ghost use Rattle.level_cells.specs.Fields.{field_of, KeepsOthers, level_of, levels_of};
ghost use Rattle.level_cells.specs.Packing.{packed, FitFields, AreSame, HasOneMore};

/// One more at the lowest bit of a field that isn't at its greatest value changes that field alone.
pub fn one_more()
    ensures field { (word at width : ℕ) → field_of word at width + 1 < 2 ^ width → field_of (word + 2 ^ at) at width ≡ field_of word at width + 1 }
    ensures others { (word at width : ℕ) → field_of word at width + 1 < 2 ^ width → KeepsOthers word (word + 2 ^ at) at width }
    ensures fits { (word at width : ℕ) → at + width ≤ 64 → word < 2 ^ 64 → field_of word at width + 1 < 2 ^ width → word + 2 ^ at < 2 ^ 64 }
{}

/// One less at the lowest bit of a field that isn't 0 changes that field alone.
pub fn one_less()
    ensures field { (word at width : ℕ) → 1 ≤ field_of word at width → field_of (word - 2 ^ at) at width ≡ field_of word at width - 1 }
    ensures others { (word at width : ℕ) → 1 ≤ field_of word at width → KeepsOthers word (word - 2 ^ at) at width }
    ensures whole { (word at width : ℕ) → 1 ≤ field_of word at width → 2 ^ at ≤ word }
{}

/// A simulator's level is raised or lowered by one, and the others stay.
pub fn level_changes()
    ensures raised { (word m i : ℕ) → i < m → level_of word i < 3 → levels_of (word + 2 ^ (2 * i)) m ≡ slice_set (levels_of word m) i (level_of word i + 1) }
    ensures lowered { (word m i : ℕ) → i < m → 1 ≤ level_of word i → levels_of (word - 2 ^ (2 * i)) m ≡ slice_set (levels_of word m) i (level_of word i - 1) }
{}

/// All fields and levels of 0 are 0.
pub fn fields_of_zero()
    ensures field { (at width : ℕ) → field_of 0 at width ≡ 0 }
    ensures levels { (m : ℕ) → levels_of 0 m ≡ replicate m 0 }
{}

/// Fields of 64 bits in all make a word of 64 bits.
pub fn packed_fits()
    ensures { (f : ℕ → ℕ) (width n : ℕ) → FitFields f width n → n * width ≤ 64 → packed f width n < 2 ^ 64 }
{}

/// Each field of such a word has the number that was put in it.
pub fn packed_reads_back()
    ensures { (f : ℕ → ℕ) (width n i : ℕ) → FitFields f width n → i < n → field_of (packed f width n) (i * width) width ≡ f i }
{}

/// A word without bits above its first `n` fields is made of what they read.
pub fn packed_of_fields()
    ensures { (word width n : ℕ) → word < 2 ^ (n * width) → packed (λ i. field_of word (i * width) width) width n ≡ word }
{}

/// The numbers alone make the word.
pub fn packed_of_same()
    ensures { (f g : ℕ → ℕ) (width n : ℕ) → AreSame f g n → packed f width n ≡ packed g width n }
{}

/// The word of fields that all are 0 is 0.
pub fn packed_of_zeros()
    ensures { (f : ℕ → ℕ) (width n : ℕ) → AreSame f (λ i. 0) n → packed f width n ≡ 0 }
{}

/// One more in a field is one more at its lowest bit.
pub fn packed_with_one_more()
    ensures { (f g : ℕ → ℕ) (width n i : ℕ) → i < n → HasOneMore f g n i → packed g width n ≡ packed f width n + 2 ^ (i * width) }
{}
