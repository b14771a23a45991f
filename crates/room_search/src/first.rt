//! What is said of the room at the start.
ghost use Rattle.std.specs.Prelude.{◌≡◌, ◌≢◌, ◌+◌, ◌<◌, ◌⊎◌, IfOk, true};
ghost use Rattle.room_spec.specs.Sizes.{sizes_in};
ghost use Rattle.view_table.specs.Places.{words_of};
ghost use Rattle.simulator.specs.Knowing.{knowledge_of};
ghost use Rattle.room_core.specs.Calls.{configuration_of};
ghost use Rattle.room_core.specs.Rooms.{mind_at};
ghost use Rattle.room_search.specs.Saying.{DoSay, IsOwn, IsWordOf};
ghost use Rattle.room_search.specs.Steps.{AreWords, IsLocal};

use crate::local::Local;
use crate::reading::{is_at_two, step};
use crate::shown::{after, writer_at};
use crate::subject::{Subject, has_crashed};
use std::alloc::AllocError;
use view_table::{Place, place_at};

/// What the first node says: the words that others can read, and all words of a simulator that had crashed.
pub fn first_said(subject: &Subject<'_>) -> Result<Vec<u64>, AllocError>
    requires { subject.now.start.now.spec ≡ subject.now.spec.now }
    ensures words { IfOk result (λ said. AreWords subject.now.spec.now said.items) }
    ensures says { IfOk result (λ said. DoSay said.items subject.now.start.now.words) }
{
    let words = subject.start.words();
    let mut said = Vec::with_capacity(subject.alloc, words.len())?;
    for index in 0..words.len() {
        said.push(number_if(is_shown(subject, words, index), words[index]))?;
    }
    Ok(said)
}

/// The local state of simulator `i` at the start: it says the words of the simulator that no other can read.
pub fn first_local(subject: &Subject<'_>, i: usize) -> Result<Local, AllocError>
    requires same { subject.now.start.now.spec ≡ subject.now.spec.now }
    requires simulator { i < subject.now.spec.now.simulators }
    ensures local { IfOk result (IsLocal subject.now.spec.now) }
    ensures known { IfOk result (λ local. local.known ≡ knowledge_of (mind_at (configuration_of subject.now.start.now) i)) }
    ensures says { IfOk result (λ local. DoSay local.own.items subject.now.start.now.words) }
    ensures own { IfOk result (λ local. IsOwn subject.now.spec.now i local.own.items) }
{
    let own = first_own(subject, i)?;
    Ok(Local {
        known: subject.start.mind(i).knowledge(),
        own,
    })
}

/// The words of simulator `i` that no other can read.
fn first_own(subject: &Subject<'_>, i: usize) -> Result<Vec<u64>, AllocError>
    requires same { subject.now.start.now.spec ≡ subject.now.spec.now }
    requires simulator { i < subject.now.spec.now.simulators }
    ensures words { IfOk result (λ own. AreWords subject.now.spec.now own.items) }
    ensures says { IfOk result (λ own. DoSay own.items subject.now.start.now.words) }
    ensures own { IfOk result (λ own. IsOwn subject.now.spec.now i own.items) }
{
    let words = subject.start.words();
    let mut own = Vec::with_capacity(subject.alloc, words.len())?;
    for index in 0..words.len() {
        own.push(number_if(is_own(subject, words, i, index), words[index]))?;
    }
    Ok(own)
}

/// The number after a word, if that is to be said.
fn number_if(is_said: bool, word: u64) -> u64
    ensures said { (result ≡ 0) ⊎ (result ≡ word + 1) }
    ensures none { result ≢ 0 → is_said ≡ true }
{
    if is_said { after(word) } else { 0 }
}

/// Whether the word of this index is one of simulator `i` that no other can read.
fn is_own(subject: &Subject<'_>, words: &[u64], i: usize, index: usize) -> bool
    requires simulator { i < subject.now.spec.now.simulators }
    requires within { index < words_of (sizes_in subject.now.spec.now) }
    requires words { AreWords subject.now.spec.now words.now }
    ensures { result ≡ true → IsWordOf subject.now.spec.now i index }
{
    let _m = subject.spec.m(); // for the proof: it is at most 8
    writer_at(subject, index) == i + 1 && !is_shown(subject, words, index)
}

/// Whether others can read the word of this index, or its simulator had crashed.
fn is_shown(subject: &Subject<'_>, words: &[u64], index: usize) -> bool
    requires within { index < words_of (sizes_in subject.now.spec.now) }
    requires words { AreWords subject.now.spec.now words.now }
{
    match place_at(&subject.spec.shape(), index) {
        Place::Memory { .. } | Place::Levels { .. } => true,
        Place::Out { simulator, .. } => has_crashed(subject, simulator),
        Place::Value {
            simulator,
            process,
            round,
        } => has_crashed(subject, simulator) || round <= step(subject, words, simulator, process),
        Place::View {
            simulator,
            process,
            round,
            ..
        } => has_crashed(subject, simulator)
            || is_at_two(subject, words, simulator, process, round),
    }
}
