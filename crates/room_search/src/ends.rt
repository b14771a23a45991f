//! How the processes end in each room of which something is said.
ghost use Rattle.std.specs.Prelude.{◌≡◌, ◌<◌, ◌==◌, IfOk, IfSome, false, true};
ghost use Rattle.room_spec.specs.Rooms.{processes};
ghost use Rattle.room_spec.specs.Sizes.{sizes_in};
ghost use Rattle.level_cells.specs.Fields.{level_of};
ghost use Rattle.view_table.specs.Places.{IsRound, words_of};
ghost use Rattle.view_table.specs.Words.{word_at};
ghost use Rattle.view_table.specs.declared.place.Place.TheVariants.{Levels};
ghost use Rattle.room_search.specs.Ends.{DoEnd, IsNotCounted, SaysEnough};
ghost use Rattle.room_search.specs.Saying.{heard};
ghost use Rattle.room_search.specs.Steps.{AreWords};

use crate::reading::{ends_by, is_at_two};
use crate::subject::Subject;
use run_search::Ends;
use std::alloc::AllocError;
use view_table::{Place, place_at};

/// How the processes end in each room of which this is said. `None` if that doesn't tell.
pub fn ends_said(subject: &Subject<'_>, said: &[u64]) -> Result<Option<Ends>, AllocError>
    requires { AreWords subject.now.spec.now said.now }
    ensures { IfOk result (λ found. IfSome found (λ ends. DoEnd subject.now.spec.now said.now ends.items)) }
{
    let _shape = subject.spec.shape(); // for the proof: the room is within its limits
    let words = heard(subject, said)?;
    if says_enough(subject, said, words.as_slice()) {
        Ok(Some(ends_by(subject, words.as_slice())))
    } else {
        Ok(None)
    }
}

/// The words as far as they are said; the others are 0.
fn heard(subject: &Subject<'_>, said: &[u64]) -> Result<Vec<u64>, AllocError>
    ensures { IfOk result (λ words. words.items ≡ heard said.now) }
{
    let mut words = Vec::with_capacity(subject.alloc, said.len())?;
    for index in 0..said.len() {
        words.push(said[index].saturating_sub(1))?;
    }
    Ok(words)
}

/// Whether each word that counts for how the processes end is said.
fn says_enough(subject: &Subject<'_>, said: &[u64], words: &[u64]) -> bool
    requires said { AreWords subject.now.spec.now said.now }
    requires words { words.now ≡ heard said.now }
    ensures { result ≡ true → SaysEnough subject.now.spec.now said.now }
{
    for index in 0..said.len() {
        if said[index] == 0 && counts_at(subject, words, index) {
            return false;
        }
    }
    true
}

/// Whether the word of this index counts for how the processes end.
fn counts_at(subject: &Subject<'_>, words: &[u64], at: usize) -> bool
    requires within { at < words_of (sizes_in subject.now.spec.now) }
    requires words { AreWords subject.now.spec.now words.now }
    ensures { result ≡ false → IsNotCounted subject.now.spec.now words.now at }
{
    match place_at(&subject.spec.shape(), at) {
        Place::View {
            simulator,
            process,
            round,
            ..
        } => is_at_two(subject, words, simulator, process, round),
        _ => true,
    }
}
