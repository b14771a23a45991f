//! The memory words that a simulator has loaded, and what they show.
ghost use Rattle.std.specs.Prelude.{◌≡◌, ℕ, ◌<◌, ◌≤◌, slice_index, slice_set, true};
ghost use Rattle.room_spec.specs.Rooms.{bits_of, processes};
ghost use Rattle.room_spec.specs.Sizes.{sizes_in};
ghost use Rattle.simulator.specs.Minds.{no_words};
ghost use Rattle.simulator.specs.Moves.{entry_in, holder_in};
ghost use Rattle.simulator.specs.Notes.{AreLastWrites};

use room_spec::{MAX_MEMORY_WORDS, MAX_PROCESSES, Spec};
use sim_memory::{LastWrites, last_write, last_writes, note_last};
use std::marker::Model;

/// As many memory words as any room has; those after the room's own are 0. With them are the last
/// writes that they show, where these were worked out once for all processes, and the numbers of the
/// room by which they were. Asked by another room's numbers it answers from the words themselves; no
/// run asks so, but no call has to promise that.
#[derive(Drop)]
pub(crate) struct Snapshot {
    words: [u64; MAX_MEMORY_WORDS],
    n: u8,
    m: u8,
    rounds: u8,
    last: LastWrites,
}

impl Model for Snapshot {
    ghost use Rattle.std.specs.Prelude.{ℕ, List};
    ghost use Rattle.simulator.specs.Notes.{IsNote};

    ghost Value = { List ℕ };

    ghost view = { λ s. s.words };

    // What is noted is what the words show.
    ghost invariant = { λ s. IsNote s.n s.m s.rounds s.words s.last.holders s.last.rounds };
}

impl Snapshot {
    /// Of words that are all 0.
    pub(crate) fn nothing() -> Snapshot
        ensures { result ≡ no_words }
    {
        Snapshot::of([0; MAX_MEMORY_WORDS])
    }

    /// Of these words, of which nothing is noted.
    pub(crate) fn of(words: [u64; MAX_MEMORY_WORDS]) -> Snapshot
        ensures { result ≡ words }
    {
        Snapshot {
            words,
            n: 0,
            m: 0,
            rounds: 0,
            last: LastWrites {
                holders: [0; MAX_PROCESSES],
                rounds: [0; MAX_PROCESSES],
            },
        }
    }

    pub(crate) fn word(&self, at: usize) -> u64
        requires { at < MAX_MEMORY_WORDS }
        ensures { result ≡ slice_index self.now at }
    {
        self.words[at]
    }

    pub(crate) fn words(&self) -> [u64; MAX_MEMORY_WORDS]
        ensures { result ≡ self.now }
    {
        self.words
    }

    /// Puts in a word that was loaded. What was noted of the words is dropped.
    pub(crate) fn put(&mut self, at: usize, word: u64)
        requires { at < MAX_MEMORY_WORDS }
        ensures { self.new ≡ slice_set self.old at word }
    {
        self.n = 0;
        self.words[at] = word;
    }

    /// Notes what the words show of the room.
    pub(crate) fn note(&mut self, spec: &Spec)
        ensures { self.new ≡ self.old }
    {
        let shape = spec.shape();
        note_last(&shape, &self.words, &mut self.last);
        self.n = shape.n as u8;
        self.m = shape.m as u8;
        self.rounds = shape.rounds as u8;
    }

    /// The last write of the process that the words show: the simulator that has stored it, and the
    /// round.
    pub(crate) fn last_write(&self, spec: &Spec, process: usize) -> (usize, usize)
        requires { process < processes spec.now }
        ensures holder { result.0 ≡ holder_in spec.now self.now process }
        ensures below { result.0 < spec.now.simulators }
        ensures row { result.1 ≡ entry_in spec.now self.now process }
        ensures range { result.1 ≤ spec.now.rounds }
    {
        if !are_of(self.n, self.m, self.rounds, spec) {
            return self.last_write_anew(spec, process);
        }
        (
            usize::from(self.last.holders[process]),
            usize::from(self.last.rounds[process]),
        )
    }

    /// The same, by the words.
    #[cold]
    #[inline(never)]
    fn last_write_anew(&self, spec: &Spec, process: usize) -> (usize, usize)
        requires { process < processes spec.now }
        ensures holder { result.0 ≡ holder_in spec.now self.now process }
        ensures below { result.0 < spec.now.simulators }
        ensures row { result.1 ≡ entry_in spec.now self.now process }
        ensures range { result.1 ≤ spec.now.rounds }
    {
        last_write(&spec.shape(), &self.words, process)
    }

    /// The last writes of all processes that the words show.
    #[inline(always)]
    pub(crate) fn last_writes(&self, spec: &Spec) -> LastWrites
        ensures { AreLastWrites spec.now self.now result.holders result.rounds }
    {
        if !are_of(self.n, self.m, self.rounds, spec) {
            return self.last_writes_anew(spec);
        }
        self.last
    }

    /// The same, by the words.
    #[cold]
    #[inline(never)]
    fn last_writes_anew(&self, spec: &Spec) -> LastWrites
        ensures { AreLastWrites spec.now self.now result.holders result.rounds }
    {
        last_writes(&spec.shape(), &self.words)
    }
}

/// Whether these are the numbers of this room.
fn are_of(n: u8, m: u8, rounds: u8, spec: &Spec) -> bool
    ensures { result ≡ true → (n ≡ processes spec.now) × (m ≡ spec.now.simulators) × (rounds ≡ spec.now.rounds) × (processes spec.now ≤ MAX_PROCESSES) }
{
    usize::from(n) == spec.n() && usize::from(m) == spec.m() && usize::from(rounds) == spec.rounds()
}
