//! The words of a room, in a type that can't grow.
ghost use Rattle.std.specs.Prelude.{◌≡◌, length};
ghost use Rattle.simulator.specs.Moves.{IsWithin, answer_of, words_after};
ghost use Rattle.std.specs.List.{refill};
ghost use Rattle.std.specs.Borrow.{Array, Lends, sem, u64};
ghost use Rattle.room_core.specs.contracts.room_words.RoomWords.{the_row};

use simulator::{Memory, Move};
use std::marker::Model;

/// The words of a room. It lends them as a slice alone, so its holder can change its words and
/// can neither add one nor ask for memory.
#[derive(Drop)]
pub(crate) struct RoomWords {
    words: Vec<u64>,
}

impl Model for RoomWords {
    ghost use Rattle.std.specs.Prelude.{ℕ, List};

    ghost Value = { List ℕ };

    ghost view = { λ w. w.words.items };
}

impl RoomWords {
    pub(crate) fn new(words: Vec<u64>) -> RoomWords
        ensures { result ≡ words.items }
    {
        RoomWords { words }
    }

    pub(crate) fn as_slice(&self) -> &[u64]
        ensures { result.now ≡ self.now }
    {
        &self.words
    }

    pub(crate) fn as_mut_slice(&mut self) -> &mut [u64]
        ensures* writes_back { sem 𝓛 (Lends the_row (Array u64 0) self.entry result (refill (length self.old) self.old)) }
        ensures value { result.now ≡ self.old }
    {
        &mut self.words
    }
}

/// Words that no other has. They need nothing else.
impl Memory<()> for RoomWords {
    ghost use Rattle.std.specs.Prelude.{◌≡◌, length};
    ghost use Rattle.room_spec.specs.Sizes.{sizes_in};
    ghost use Rattle.view_table.specs.Places.{words_of};
    ghost use Rattle.simulator.specs.Moves.{answer_of, words_after};
    ghost use Rattle.std.proofs.Common.{rules};
    ghost use Rattle.room_core.specs.Lengths.{length_words_after};

    ghost serves = { λ words context spec mind. length words ≡ words_of (sizes_in spec) };

    ghost does = { λ words next answer after. (after ≡ words_after next words) × (answer ≡ answer_of next words) };

    #[inline(always)]
    fn operate(&mut self, _context: &(), next: Move) -> u64 {
        perform(&mut self.words, next)
    }

    ghost goes_on = { Prim.search (rules, length_words_after) };
}

/// Does a simulator's operation on the words of a room, and answers it. Its word is one of these.
#[inline(always)]
pub fn perform(words: &mut [u64], next: Move) -> u64
    requires { IsWithin next (length words.old) }
    ensures words { words.new ≡ words_after next words.old }
    ensures answer { result ≡ answer_of next words.old }
{
    match next {
        Move::Load(index) => words[index],
        Move::Store(index, number) => {
            words[index] = number;
            number
        }
        Move::Add(index, number) => {
            let old = words[index];
            words[index] = old.wrapping_add(number);
            old
        }
        Move::Sub(index, number) => {
            let old = words[index];
            words[index] = old.wrapping_sub(number);
            old
        }
        Move::Finished | Move::OutOfTurns => 0,
    }
}
