//! The agreement levels of the simulators for one process and round.
ghost use Rattle.std.specs.Prelude.{◌≡◌, ℕ, ◌<◌, ◌≤◌, slice_index};
ghost use Rattle.arrayvec.specs.ArrayVec.{array_vec_len};
ghost use Rattle.level_cells.specs.Fields.{level_of, levels_of};

use crate::bits::field;
use arrayvec::ArrayVec;

/// How many levels are read at most: one for each simulator of a room.
pub const MAX_LEVELS: usize = 8;

/// The agreement levels of the first `m` simulators, in the order of their numbers: that of
/// simulator `i` is in the two bits from bit `2 * i`. `m` is at most [`MAX_LEVELS`].
pub fn levels(word: u64, m: usize) -> ArrayVec<u8, MAX_LEVELS>
    requires { m ≤ MAX_LEVELS }
    ensures value { result.items ≡ levels_of word m }
    ensures count { array_vec_len result ≡ m }
    ensures each { (i : ℕ) → i < m → slice_index result.items i ≡ level_of word i }
{
    let mut levels = ArrayVec::new();
    for i in 0..m {
        levels.push(field(word, 2 * i, 2) as u8);
    }
    levels
}
