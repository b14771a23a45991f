//! Marks of local states: one bit of a word for each. A set with a mark that another set has not is not within that set.
ghost use Rattle.std.specs.Prelude.{◌≡◌, ◌<◌, ◌⊎◌, ℕ, true};
ghost use Rattle.std.specs.Int.{bit_at};
ghost use Rattle.std.specs.List.{Contains};
ghost use Rattle.run_search.specs.Marks.{mark_of};
ghost use Rattle.run_search.specs.declared.local_state.LocalState.{LocalState as LocalValue};

use crate::local_state::{Due, LocalState};

/// Which of 64 bits is the mark of a local state of process `p`. Different local states may have the same.
#[inline(always)]
fn mark_of(p: usize, local: &LocalState) -> u64
    ensures value { result ≡ mark_of p local.now }
    ensures few { result < 64 }
{
    let number = match local.due {
        Due::Write(v) => 5 * u64::from(v),
        Due::Snap => 1,
        Due::Decide(v) => 5 * u64::from(v) + 2,
        Due::Decided(v) => 5 * u64::from(v) + 3,
        Due::Spent => 4,
    };
    (number + 7 * u64::from(local.writes) + 13 * (p as u64 % 16)) % 64
}

/// These marks and those of some local states of process `p`.
pub fn with_marks(marks: u64, p: usize, set: &[LocalState]) -> u64
    ensures kept { (k : ℕ) → bit_at marks k ≡ 1 → bit_at result k ≡ 1 }
    ensures all { (local : LocalValue) → Contains set.now local → bit_at result (mark_of p local) ≡ 1 }
    ensures each { (k : ℕ) → bit_at result k ≡ 1 → (bit_at marks k ≡ 1) ⊎ ((local : LocalValue) × Contains set.now local × (mark_of p local ≡ k)) }
{
    let mut all = marks;
    for local in set {
        all |= 1 << mark_of(p, local);
    }
    all
}

/// Whether one of these marks is not among the others.
#[inline(always)]
pub fn has_other(marks: u64, others: u64) -> bool
    ensures { result ≡ true → (k : ℕ) × (bit_at marks k ≡ 1) × (bit_at others k ≡ 1 → ⊥) }
{
    marks & !others != 0
}
