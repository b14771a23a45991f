//! Notes of the steps at which a room's writes, snapshots and decisions take effect.
ghost use Rattle.std.specs.Prelude.{◌≡◌, ◌≢◌, ◌<◌, ◌≤◌, ◌*◌, ◌+◌, ◌^◌, ◌==◌, ◌&&◌, [], false, true, None, IfOk, IfSome, slice_index, slice_set};
ghost use Rattle.room_spec.specs.Rooms.{processes};
ghost use Rattle.simulator.specs.Minds.{current_round};
ghost use Rattle.simulator.specs.Ranges.{IsMind};
ghost use Rattle.simulator.specs.Sweeps.{is_resting};
ghost use Rattle.simulator.specs.Turns.{words_in};
ghost use Rattle.room_core.specs.Calls.{configuration_of, sweep_at};
ghost use Rattle.room_core.specs.Counting.{events_of, events_so_far};
ghost use Rattle.room_core.specs.Agreements.{has_looked_blind, leaves_blind};
ghost use Rattle.room_core.specs.Points.{is_snap};
ghost use Rattle.ws_history.specs.Readings.{read_of};
ghost use Rattle.room_core.specs.Rooms.{opening};
ghost use Rattle.room_core.specs.declared.reply.StepReply.TheVariants.{Stepped};
ghost use Rattle.ws_history.specs.Notes.{AreNotesOf, counted_at, place, read_at, stored_at};
ghost use Rattle.ws_history.specs.Noting.{count_noted, looked, may_take_effect, noted, read_noted, store_noted};
ghost use Rattle.ws_history.specs.Effects.{has_read};

use crate::reading::{
    greatest_step, has_out, process_count, round_count, shape_of, simulator_count,
};
use room_core::{Observer, RoomCore, StepReply};
use room_spec::{MAX_MEMORY_WORDS, Spec};
use simulator::{Line, Mind, Move};
use std::alloc::{AllocError, Global};
use std::marker::Model;

/// The steps at which a room's writes, snapshots and decisions take effect, noted while it steps: a [`Observer`] that does a bounded amount of
/// work at each step and takes no memory. Of a snapshot it is known only in the end which proposal was chosen, so for each simulator,
/// process and round the last step by which that simulator read is noted: 8 bytes each, at most 18 KB a room.
#[derive(Drop)]
pub struct Points {
    counted: Vec<u64>,
    read: Vec<u64>,
    stored: Vec<u64>,
}

impl Model for Points {
    ghost use Rattle.ws_history.specs.Notes.{Notes};

    ghost Value = { Notes };

    ghost view = { λ p. record { counted = p.counted.items; read = p.read.items; stored = p.stored.items } };
}

/// What there is before a step of a simulator inside its turn.
#[derive(Clone, Copy)]
pub(crate) struct Before {
    /// How many events the schedule has so far.
    pub(crate) time: u64,
    /// The process and the round that the turn works on.
    pub(crate) process: usize,
    pub(crate) round: usize,
    /// How many writes of that process have been counted, and whether a decision of it is stored.
    pub(crate) count: usize,
    pub(crate) decided: bool,
    /// Whether the step loads the last memory word of a collect.
    pub(crate) ends_collect: bool,
}

impl Points {
    /// Notes of a room of which no simulator has taken a step.
    ///
    /// # Errors
    ///
    /// If an allocation fails. All memory is taken here.
    pub fn new(alloc: Global, spec: &Spec) -> Result<Points, AllocError>
        ensures { IfOk result (λ points. AreNotesOf (opening spec.now) [] points) }
    {
        let _shape = spec.shape(); // for the proof: a spec is within its limits
        let rounds = spec.rounds() + 1;
        let counted = vec![in alloc; 0; spec.n() * rounds]?;
        let read = vec![in alloc; 0; spec.m() * spec.n() * rounds]?;
        let stored = vec![in alloc; 0; spec.n()]?;
        Ok(Points {
            counted,
            read,
            stored,
        })
    }

    /// When write `r` of process `p` was first counted.
    pub(crate) fn counted_at(&self, room: &RoomCore, p: usize, r: usize) -> u64
        requires process { p < processes room.now.spec }
        requires round { r ≤ room.now.spec.rounds }
        ensures { result ≡ counted_at room.now.spec self.now p r }
    {
        let processes = process_count(room);
        prove!(p < processes);
        number_at(self.counted.as_slice(), place(room, p, r))
    }

    /// When simulator `i` read last for round `r` of process `p`.
    pub(crate) fn read_at(&self, room: &RoomCore, i: usize, p: usize, r: usize) -> u64
        requires simulator { i < room.now.spec.simulators }
        requires process { p < processes room.now.spec }
        requires round { r ≤ room.now.spec.rounds }
        ensures { result ≡ read_at room.now.spec self.now i p r }
    {
        number_at(self.read.as_slice(), place(room, row(room, i, p), r))
    }

    /// When a decision of process `p` was first stored.
    pub(crate) fn stored_at(&self, p: usize) -> u64
        ensures { result ≡ stored_at self.now p }
    {
        number_at(self.stored.as_slice(), p)
    }

    /// Notes a step of simulator `i`, by what there was before it; it led to this room.
    fn note(&mut self, room: &RoomCore, i: usize, before: &Before)
        requires simulator { i < room.now.spec.simulators }
        requires process { before.now.process < processes room.now.spec }
        requires round { before.now.round ≤ room.now.spec.rounds }
        ensures { self.new ≡ noted room.now i before.now self.old }
    {
        self.note_count(room, before);
        self.note_read(room, i, before);
        self.note_store(room, before);
    }

    /// A write was counted that had not been.
    fn note_count(&mut self, room: &RoomCore, before: &Before)
        requires { before.now.process < processes room.now.spec }
        ensures { self.new ≡ count_noted room.now before.now self.old }
    {
        let count = greatest_step(room, before.process);
        let processes = process_count(room);
        prove!(before.process < processes);
        if before.count < count {
            put(
                self.counted.as_mut_slice(),
                place(room, before.process, count),
                before.time,
            );
        }
    }

    /// A collect ended that may be what its scan shows.
    fn note_read(&mut self, room: &RoomCore, i: usize, before: &Before)
        requires simulator { i < room.now.spec.simulators }
        requires process { before.now.process < processes room.now.spec }
        requires round { before.now.round ≤ room.now.spec.rounds }
        ensures { self.new ≡ read_noted room.now i before.now self.old }
    {
        if reads(room, i, before) {
            put(
                self.read.as_mut_slice(),
                place(room, row(room, i, before.process), before.round),
                before.time,
            );
        }
    }

    /// A decision was stored in a place that had none.
    fn note_store(&mut self, room: &RoomCore, before: &Before)
        requires { before.now.process < processes room.now.spec }
        ensures { self.new ≡ store_noted room.now before.now self.old }
    {
        if !before.decided && has_out(room, before.process) {
            put(self.stored.as_mut_slice(), before.process, before.time);
        }
    }
}

impl Observer for Points {
    ghost use Rattle.ws_history.specs.Notes.{IsNoted};

    ghost sees = { IsNoted };

    fn step(&mut self, room: &mut RoomCore, i: usize) -> StepReply {
        let _shape = shape_of(room); // for the proof: the room is within its limits
        let before = look(room, i);
        let reply = room.step(i);
        if reply == StepReply::Stepped {
            if let Some(before) = before {
                self.note(room, i, &before);
            }
        }
        reply
    }
}

/// Whether by the step of simulator `i` that led to this room a collect ended that may be what its scan shows.
pub(crate) fn reads(room: &RoomCore, i: usize, before: &Before) -> bool
    requires { i < room.now.spec.simulators }
    ensures { result ≡ has_read room.now i before.now }
{
    before.ends_collect && (word_count(room) == 1 || scans(room, i))
}

/// What there is before a step of simulator `i`, if something may take effect by the step.
pub(crate) fn look(room: &RoomCore, i: usize) -> Option<Before>
    ensures value { result ≡ looked room.now i }
    ensures process { IfSome result (λ before. before.process < processes room.now.spec) }
    ensures round { IfSome result (λ before. before.round ≤ room.now.spec.rounds) }
    ensures simulator { result ≢ None → i < room.now.spec.simulators }
{
    if i >= simulator_count(room) || !may_take_effect(mind_of(room, i).line()) {
        return None;
    }
    let process = process_on(room, i);
    Some(Before {
        time: events_so_far(room),
        process,
        round: round_on(room, i, process),
        count: greatest_step(room, process),
        decided: has_out(room, process),
        ends_collect: ends_collect(room, i),
    })
}

/// Whether something may take effect by a step at this line: it counts a write, loads a memory word of a scan, or stores a decision.
fn may_take_effect(line: Line) -> bool
    ensures value { result ≡ may_take_effect line }
    ensures open { result ≡ true → is_resting line ≡ false }
{
    matches!(line, Line::Raise | Line::Snap | Line::Out { .. })
}

/// What simulator `i` has in mind.
#[tactic(auto, using(crate::proofs::Looking::mind_is))]
fn mind_of(room: &RoomCore, i: usize) -> &Mind
    requires { i < room.now.spec.simulators }
    ensures value { result.now ≡ (sweep_at room.now i).mind }
    ensures is_mind { IsMind room.now.spec result.now }
{
    room.mind(i)
}

/// The process that the open turn of simulator `i` works on.
fn process_on(room: &RoomCore, i: usize) -> usize
    requires simulator { i < room.now.spec.simulators }
    requires open { is_resting (sweep_at room.now i).mind.line ≡ false }
    ensures value { result ≡ (sweep_at room.now i).mind.process }
    ensures range { result < processes room.now.spec }
{
    mind_of(room, i).works_on(room.spec()).unwrap_or(0)
}

/// The round of that process that its turn works on.
#[tactic(auto, using(crate::proofs::Looking::round_low))]
fn round_on(room: &RoomCore, i: usize, process: usize) -> usize
    requires simulator { i < room.now.spec.simulators }
    requires process { process ≡ (sweep_at room.now i).mind.process }
    ensures value { result ≡ current_round (sweep_at room.now i).mind }
    ensures range { result ≤ room.now.spec.rounds }
{
    usize::from(mind_of(room, i).goal(process).round())
}

/// Whether simulator `i` has looked into the agreement on process `j` and round `k`, has seen no level 2, and has not left it yet.
#[tactic(auto, unfolding(crate::specs::Readings::read_of))]
pub(crate) fn has_looked_blind(room: &RoomCore, i: usize, j: usize, k: usize) -> bool
    requires { i < room.now.spec.simulators }
    ensures { result ≡ has_looked_blind (read_of room.now) i j k }
{
    leaves_blind(room, i) && works_at(room, i, j, k)
}

/// Whether the next step of simulator `i` takes its proposal to level 2.
fn leaves_blind(room: &RoomCore, i: usize) -> bool
    requires { i < room.now.spec.simulators }
    ensures value { result ≡ leaves_blind (sweep_at room.now i).mind.line }
    ensures open { result ≡ true → is_resting (sweep_at room.now i).mind.line ≡ false }
{
    matches!(mind_of(room, i).line(), Line::Leave { saw_two: false })
}

/// Whether the open turn of simulator `i` works on process `j` and round `k`.
fn works_at(room: &RoomCore, i: usize, j: usize, k: usize) -> bool
    requires simulator { i < room.now.spec.simulators }
    requires open { is_resting (sweep_at room.now i).mind.line ≡ false }
    ensures { result ≡ ((sweep_at room.now i).mind.process == j) && (current_round (sweep_at room.now i).mind == k) }
{
    let process = process_on(room, i);
    process == j && round_on(room, i, process) == k
}

/// Whether the next step of simulator `i` loads the last memory word of a collect.
fn ends_collect(room: &RoomCore, i: usize) -> bool
    requires { i < room.now.spec.simulators }
    ensures { result ≡ is_snap (sweep_at room.now i).mind.line && ((sweep_at room.now i).mind.word + 1 == words_in room.now.spec) }
{
    let words = word_count(room);
    scans(room, i) && loaded_word(room, i) + 1 == words
}

/// The memory word that simulator `i`, which is in a scan, loads next.
#[tactic(auto, using(crate::proofs::Looking::scan_loads))]
fn loaded_word(room: &RoomCore, i: usize) -> usize
    requires simulator { i < room.now.spec.simulators }
    requires scans { is_snap (sweep_at room.now i).mind.line ≡ true }
    ensures value { result ≡ (sweep_at room.now i).mind.word }
    ensures range { result < words_in room.now.spec }
{
    match mind_of(room, i).next_move(room.spec()) {
        Move::Load(word) => word,
        _ => unreachable!(), // a scan loads
    }
}

/// Whether simulator `i` is in a scan of the memory words.
fn scans(room: &RoomCore, i: usize) -> bool
    requires { i < room.now.spec.simulators }
    ensures { result ≡ is_snap (sweep_at room.now i).mind.line }
{
    matches!(mind_of(room, i).line(), Line::Snap)
}

/// How many words hold the step numbers.
fn word_count(room: &RoomCore) -> usize
    ensures value { result ≡ words_in room.now.spec }
    ensures range { result ≤ MAX_MEMORY_WORDS }
{
    room.spec().shape().memory_words()
}

/// How many events led to the room: the atomic steps of its simulators, and their crashes.
fn events_so_far(room: &RoomCore) -> u64
    ensures { result ≡ events_so_far (configuration_of room.now) }
{
    let mut events = 0;
    for i in 0..simulator_count(room) {
        events += events_of(room, i);
    }
    events
}

/// Those of simulator `i`.
#[tactic(auto, using(crate::proofs::Looking::steps_low, crate::proofs::Looking::mind_is))]
fn events_of(room: &RoomCore, i: usize) -> u64
    requires { i < room.now.spec.simulators }
    ensures value { result ≡ events_of (configuration_of room.now) i }
    ensures range { result ≤ 2 ^ 32 }
{
    let steps = mind_of(room, i).steps_taken();
    if room.is_crashed(i) { steps + 1 } else { steps }
}

// ---- tables

/// Which row is that of simulator `i` and process `p`.
fn row(room: &RoomCore, i: usize, p: usize) -> usize
    requires simulator { i < room.now.spec.simulators }
    requires process { p < processes room.now.spec }
    ensures value { result ≡ i * processes room.now.spec + p }
    ensures range { result < 128 }
{
    let simulators = simulator_count(room);
    let processes = process_count(room);
    prove!(i < simulators);
    prove!(p < processes);
    i * processes + p
}

/// Where the number of round `r` is in a row.
fn place(room: &RoomCore, row: usize, r: usize) -> usize
    requires row { row < 128 }
    requires round { r ≤ room.now.spec.rounds }
    ensures { result ≡ place room.now.spec row r }
{
    let rounds = round_count(room);
    prove!(r <= rounds);
    row * (rounds + 1) + r
}

/// The number at this place, or 0 if the table has none.
fn number_at(table: &[u64], at: usize) -> u64
    ensures { result ≡ slice_index table.now at }
{
    match table.get(at) {
        Some(number) => *number,
        None => 0,
    }
}

/// Puts a number at this place, if the table has it.
fn put(table: &mut [u64], at: usize, number: u64)
    ensures { table.new ≡ slice_set table.old at number }
{
    if at < table.len() {
        table[at] = number;
    }
}
