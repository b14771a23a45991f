//! The sum of the parts so far.
ghost use Rattle.std.specs.Prelude.{◌≡◌};
ghost use Rattle.std.specs.List.{sum_by};

use crate::part::How;
use room_sample::Example;

/// The sum of the first parts of a room's sample.
#[derive(Drop)]
pub(crate) struct SoFar {
    pub(crate) name: String,
    pub(crate) how: How,
    pub(crate) schedules: u32,
    pub(crate) decided: u32,
    pub(crate) held: u32,
    pub(crate) broken: Option<u32>,
    /// The outcomes, in the order in which each came first.
    pub(crate) outcomes: Vec<Example>,
    /// Each schedule led to one of them.
    ghost total: { sum_by (λ one. one.times) outcomes.items ≡ schedules },
}
