//! A field of a word: `width` bits from bit `at`, the lowest first.
ghost use Rattle.std.specs.Prelude.{◌≡◌, ℕ, ◌+◌, ◌-◌, ◌^◌, ◌<◌, ◌≤◌};
ghost use Rattle.level_cells.specs.Fields.{field_of, AreApart, KeepsOthers};

/// The number in the field. The field lies within the word and has at least one bit.
pub fn field(word: u64, at: usize, width: usize) -> u64
    requires inside { at + width ≤ 64 }
    requires wide { 1 ≤ width }
    ensures value { result ≡ field_of word at width }
    ensures range { result < 2 ^ width }
{
    (word >> at) & (u64::MAX >> (64 - width))
}

/// The word that has a 1 at bit `at` alone. `at` is below 64.
pub fn one_at(at: usize) -> u64
    requires { at < 64 }
    ensures value { result ≡ 2 ^ at }
    ensures here { field_of result at 1 ≡ 1 }
    ensures alone { (other width : ℕ) → AreApart at 1 other width → field_of result other width ≡ 0 }
{
    1 << at
}

/// The word with one more in the field, whose number is below its greatest value.
pub fn added(word: u64, at: usize, width: usize) -> u64
    requires inside { at + width ≤ 64 }
    requires room { field_of word at width + 1 < 2 ^ width }
    ensures value { result ≡ word + 2 ^ at }
    ensures field { field_of result at width ≡ field_of word at width + 1 }
    ensures others { KeepsOthers word result at width }
{
    word + one_at(at)
}

/// The word with one less in the field, whose number is at least 1.
pub fn taken(word: u64, at: usize, width: usize) -> u64
    requires inside { at + width ≤ 64 }
    requires some { 1 ≤ field_of word at width }
    ensures value { result ≡ word - 2 ^ at }
    ensures whole { 2 ^ at ≤ word }
    ensures field { field_of result at width ≡ field_of word at width - 1 }
    ensures others { KeepsOthers word result at width }
{
    word - one_at(at)
}
