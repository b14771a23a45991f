//! What is said of the words of a room: by a node what others can read, and by the local state of a simulator what only that one can.
ghost use Rattle.std.specs.Prelude.{◌≡◌, ◌≢◌, ◌+◌, ◌<◌, ◌⊎◌, ℕ, IfSome, List, OnOk, OnSome, length, slice_index, slice_set, true};
ghost use Rattle.room_spec.specs.Rooms.{RoomSpec};
ghost use Rattle.room_spec.specs.Sizes.{sizes_in};
ghost use Rattle.view_table.specs.Places.{words_of};
ghost use Rattle.simulator.specs.Moves.{IsWithin, answer_of, words_after};
ghost use Rattle.room_search.specs.Saying.{IsAtPlaceOf, IsOwn, IsWordOf};
ghost use Rattle.room_search.specs.Steps.{AreSaid, AreWords, DoBothSay, SaysNoMore};

use crate::subject::Subject;
use simulator::Move;
use view_table::{Place, place_at};

/// What a node says, and what the local state of one of its simulators says. Of each word one says the number after it, and the other 0; if nothing is said of it, both say 0.
#[derive(Drop)]
pub struct Said {
    pub shown: Vec<u64>,
    pub own: Vec<u64>,
}

impl Said {
    /// Does an operation of simulator `i` on the words, and answers it. `None` if nothing is said of its word, or if that is another simulator's.
    pub fn operate(&mut self, subject: &Subject<'_>, i: usize, next: Move) -> Option<u64>
        requires said { AreSaid subject.now.spec.now self.old }
        requires within { IsWithin next (words_of (sizes_in subject.now.spec.now)) }
        ensures said { AreSaid subject.now.spec.now self.new }
        ensures answer { IfSome result (λ answer. (words : List ℕ) → AreWords subject.now.spec.now words → DoBothSay self.old words → answer ≡ answer_of next words) }
        ensures words { OnSome result ((words : List ℕ) → AreWords subject.now.spec.now words → DoBothSay self.old words → DoBothSay self.new (words_after next words)) }
        ensures own { OnSome result (IsOwn subject.now.spec.now i self.old.own.items → IsOwn subject.now.spec.now i self.new.own.items) }
        ensures stays { OnSome result ((q at : ℕ) (words : List ℕ) → (q ≡ i → ⊥) → IsWordOf subject.now.spec.now q at →
            slice_index (words_after next words) at ≡ slice_index words at) }
    {
        match next {
            Move::Load(index) => self.word(index),
            Move::Store(index, word) => {
                self.store(subject, i, index, word)?;
                Some(word)
            }
            Move::Add(index, number) => {
                let word = self.word(index)?;
                self.store(subject, i, index, word.wrapping_add(number))?;
                Some(word)
            }
            Move::Sub(index, number) => {
                let word = self.word(index)?;
                self.store(subject, i, index, word.wrapping_sub(number))?;
                Some(word)
            }
            Move::Finished | Move::OutOfTurns => None,
        }
    }

    /// The word of this index, if it is said.
    fn word(&self, index: usize) -> Option<u64>
        requires shown { index < length self.now.shown.items }
        requires own { index < length self.now.own.items }
        ensures { IfSome result (λ word. (words : List ℕ) → DoBothSay self.now words → word ≡ slice_index words index) }
    {
        let shown = self.shown[index];
        if shown > 0 {
            return Some(shown - 1);
        }
        let own = self.own[index];
        if own > 0 { Some(own - 1) } else { None }
    }

    /// Says that simulator `i` has stored this word; `None` if the word of this index is another simulator's.
    fn store(&mut self, subject: &Subject<'_>, i: usize, index: usize, word: u64) -> Option<()>
        requires said { AreSaid subject.now.spec.now self.old }
        requires within { index < words_of (sizes_in subject.now.spec.now) }
        ensures said { AreSaid subject.now.spec.now self.new }
        ensures words { OnSome result ((words : List ℕ) → AreWords subject.now.spec.now words → DoBothSay self.old words → DoBothSay self.new (slice_set words index word)) }
        ensures own { OnSome result (IsOwn subject.now.spec.now i self.old.own.items → IsOwn subject.now.spec.now i self.new.own.items) }
        ensures stays { OnSome result ((q at other : ℕ) (words : List ℕ) → (q ≡ i → ⊥) → IsWordOf subject.now.spec.now q at → slice_index (slice_set words index other) at ≡ slice_index words at) }
    {
        let writer = writer_at(subject, index);
        if writer == 0 {
            self.put(index, after(word), 0);
            return Some(());
        }
        if writer - 1 == i {
            self.put(index, 0, after(word));
            return Some(());
        }
        None
    }

    /// Says these numbers of the word of this index.
    fn put(&mut self, index: usize, shown: u64, own: u64)
        requires shown { index < length self.old.shown.items }
        requires own { index < length self.old.own.items }
        ensures shown { self.new.shown.items ≡ slice_set self.old.shown.items index shown }
        ensures own { self.new.own.items ≡ slice_set self.old.own.items index own }
    {
        self.shown[index] = shown;
        self.own[index] = own;
    }

    /// Others can read the word of this index from now on, if it is said.
    pub fn publish(&mut self, index: usize)
        requires shown { index < length self.old.shown.items }
        requires own { index < length self.old.own.items }
        ensures { (spec : RoomSpec) → SaysNoMore spec self.old self.new }
    {
        let own = self.own[index];
        if own > 0 {
            self.put(index, own, 0);
        }
    }

    /// None can read the word of this index any more.
    pub fn forget(&mut self, index: usize)
        requires shown { index < length self.old.shown.items }
        requires own { index < length self.old.own.items }
        ensures { (spec : RoomSpec) → SaysNoMore spec self.old self.new }
    {
        self.put(index, 0, 0);
    }
}

/// The number after a word; 0 if there is none.
pub fn after(word: u64) -> u64
    ensures { (result ≡ 0) ⊎ (result ≡ word + 1) }
{
    word.wrapping_add(1)
}

/// Which simulator alone stores words of this index, and one more; 0 if each does.
pub fn writer_at(subject: &Subject<'_>, index: usize) -> usize
    requires { index < words_of (sizes_in subject.now.spec.now) }
    ensures { IsAtPlaceOf subject.now.spec.now result index }
{
    match place_at(&subject.spec.shape(), index) {
        Place::Memory { .. } | Place::Levels { .. } => 0,
        Place::View { simulator, .. }
        | Place::Value { simulator, .. }
        | Place::Out { simulator, .. } => simulator + 1,
    }
}
