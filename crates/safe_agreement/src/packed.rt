//! An agreement whose levels are in one word: that of simulator `i` in the two bits from bit `2 * i`.
ghost use Rattle.std.specs.Prelude.{◌≡◌, ℕ, ◌*◌, ◌%◌, ◌==◌, ◌<◌, ◌≤◌, IfSome, ◌↔◌, position};
ghost use Rattle.std.specs.Int.{bit_at};
ghost use Rattle.level_cells.specs.Fields.{level_of, levels_of};
ghost use Rattle.safe_agreement.specs.Levels.{has_level, is_resolved, resolved_of};

use level_cells::MAX_LEVELS;

/// The lower of the two bits of each simulator.
const LOWER_BITS: u64 = 0x5555;

/// The least of the first `m` simulators that is at this level. `m` is at most [`MAX_LEVELS`].
pub fn least_at(word: u64, m: usize, level: u8) -> Option<usize>
    requires { m ≤ MAX_LEVELS }
    ensures value { result ≡ position (λ one. one == level) (levels_of word m) }
    ensures below { IfSome result (λ simulator. simulator < m) }
{
    let all = all_at(word, m, level);
    if all == 0 {
        None
    } else {
        Some(all.trailing_zeros() as usize / 2)
    }
}

/// All of the first `m` simulators that are at this level, as the lower of the two bits of each: so all of
/// them are looked at in one go. `m` is at most [`MAX_LEVELS`].
#[inline(always)]
fn all_at(word: u64, m: usize, level: u8) -> u64
    requires { m ≤ MAX_LEVELS }
    ensures each { (i : ℕ) → i < m → (bit_at result (2 * i) ≡ 1) ↔ (level_of word i ≡ level) }
    ensures no_other { (at : ℕ) → bit_at result at ≡ 1 → (at % 2 ≡ 0) × (at < 2 * m) }
{
    if level > 3 {
        return 0;
    }
    let lower = bits_that_are(word, level % 2);
    let upper = bits_that_are(word, level / 2);
    lower & upper >> 1 & LOWER_BITS & ((1 << (2 * m)) - 1)
}

/// The bits of a word that are `bit`, which is 0 or 1.
#[inline(always)]
fn bits_that_are(word: u64, bit: u8) -> u64
    requires { bit ≤ 1 }
    ensures { (at : ℕ) → at < 64 → (bit_at result at ≡ 1) ↔ (bit_at word at ≡ bit) }
{
    if bit == 1 { word } else { !word }
}

/// Whether one of the first `m` simulators is at this level. `m` is at most [`MAX_LEVELS`].
pub fn has_level(word: u64, m: usize, level: u8) -> bool
    requires { m ≤ MAX_LEVELS }
    ensures { result ≡ has_level level (levels_of word m) }
{
    all_at(word, m, level) != 0
}

/// Whether the agreement of the first `m` simulators is resolved: some level is 2, and none is 1. `m`
/// is at most [`MAX_LEVELS`].
pub fn is_resolved(word: u64, m: usize) -> bool
    requires { m ≤ MAX_LEVELS }
    ensures { result ≡ is_resolved (levels_of word m) }
{
    has_level(word, m, 2) && !has_level(word, m, 1)
}

/// What [`resolved`](crate::resolved) answers for the levels of the first `m` simulators. `m` is at
/// most [`MAX_LEVELS`].
pub fn resolved_in(word: u64, m: usize) -> Option<usize>
    requires { m ≤ MAX_LEVELS }
    ensures value { result ≡ resolved_of (levels_of word m) }
    ensures below { IfSome result (λ simulator. simulator < m) }
{
    if has_level(word, m, 1) {
        return None;
    }
    least_at(word, m, 2)
}
