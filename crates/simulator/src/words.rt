//! The words of a room, by its spec: their places, and what is read of them.
ghost use Rattle.std.specs.Prelude.{◌≡◌, ◌<◌};
ghost use Rattle.room_spec.specs.Sizes.{sizes_in};
ghost use Rattle.view_table.specs.Places.{IsPlace, words_of};
ghost use Rattle.simulator.specs.Moves.{chosen_in, index_in};

use room_spec::Spec;
use safe_agreement::resolved_in;
use view_table::{Place, index};

#[inline(always)]
pub(crate) fn index_in(spec: &Spec, place: Place) -> usize
    requires { IsPlace (sizes_in spec.now) place }
    ensures value { result ≡ index_in spec.now place }
    ensures within { result < words_of (sizes_in spec.now) }
{
    index(&spec.shape(), place)
}

/// The simulator whose proposal was chosen, by a word of levels.
pub(crate) fn chosen_in(spec: &Spec, word: u64) -> Option<u16>
    ensures { result ≡ chosen_in spec.now word }
{
    match resolved_in(word, spec.m()) {
        Some(simulator) => Some(simulator as u16),
        None => None,
    }
}
