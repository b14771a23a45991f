//! What the words of a room say.
ghost use Rattle.std.specs.Prelude.{◌≡◌, ℕ, ◌<◌, ◌≤◌, ◌==◌, length, min, position, slice_index};
ghost use Rattle.protocol_lang.specs.Numbers.{greatest};
ghost use Rattle.room_spec.specs.Rooms.{IsWithinLimits, processes};
ghost use Rattle.room_spec.specs.Sizes.{memory_words, sizes_in};
ghost use Rattle.view_table.specs.Places.{IsAgreementRound, IsPlace, IsRound};
ghost use Rattle.view_table.specs.Words.{word_at};
ghost use Rattle.view_table.specs.declared.place.Place.TheVariants.{Levels};
ghost use Rattle.sim_memory.specs.Steps.{row_of, step_in};
ghost use Rattle.room_core.specs.Agreements.{decided_in, greatest_step, has_out};
ghost use Rattle.room_core.specs.Calls.{configuration_of};
ghost use Rattle.room_core.specs.Fields.{Fields, levels_at};
ghost use Rattle.room_core.specs.Reading.{AreFieldsOf, Reads};
ghost use Rattle.ws_history.specs.Readings.{read_of};

use arrayvec::ArrayVec;
use level_cells::field;
use room_core::RoomCore;
use room_spec::{MAX_PROCESSES, MAX_ROUNDS, MAX_SIMULATORS, Shape, Spec};
use safe_agreement::least_at;
use sim_memory::{last_writes, merged, step_of};
use view_table::{Place, index};

/// How many writes of each process something shows.
pub(crate) type Row = ArrayVec<u8, MAX_PROCESSES>;

/// The greatest decision plus one.
const MOST: u64 = 4294967296;

pub(crate) fn process_count(room: &RoomCore) -> usize
    ensures value { result ≡ processes room.now.spec }
    ensures range { (1 ≤ result) × (result ≤ MAX_PROCESSES) }
{
    room.spec().n()
}

pub(crate) fn simulator_count(room: &RoomCore) -> usize
    ensures value { result ≡ room.now.spec.simulators }
    ensures range { (1 ≤ result) × (result ≤ MAX_SIMULATORS) }
{
    room.spec().m()
}

pub(crate) fn round_count(room: &RoomCore) -> usize
    ensures value { result ≡ room.now.spec.rounds }
    ensures range { (1 ≤ result) × (result ≤ MAX_ROUNDS) }
{
    room.spec().rounds()
}

/// The numbers of the room, which are within their limits. The room stands for some fields.
pub(crate) fn shape_of(room: &RoomCore) -> Shape
    ensures limits { IsWithinLimits room.now.spec }
    ensures fields { (fields : Fields) × AreFieldsOf room.now fields × Reads (configuration_of room.now) fields }
{
    room.spec().shape()
}

/// The word at this place.
#[inline(always)]
fn word_at(room: &RoomCore, place: Place) -> u64
    requires { IsPlace (sizes_in room.now.spec) place }
    ensures { result ≡ word_at (sizes_in room.now.spec) room.now.words place }
{
    room.word(index(&room.spec().shape(), place))
}

/// The number, or the greatest value if it is above that.
fn small(word: u64) -> u32
    ensures { result ≡ min word greatest }
{
    word.min(u64::from(u32::MAX)) as u32
}

/// The number of a process, as events have it.
pub(crate) fn number_of(room: &RoomCore, p: usize) -> u8
    requires { p < processes room.now.spec }
    ensures value { result ≡ p }
    ensures range { result < MAX_PROCESSES }
{
    let n = process_count(room);
    prove!(p < n);
    p as u8
}

/// How many writes of process `p` simulator `i` has counted.
#[tactic(auto, unfolding(crate::specs::Readings::read_of))]
pub(crate) fn step(room: &RoomCore, i: usize, p: usize) -> usize
    requires simulator { i < room.now.spec.simulators }
    requires process { p < processes room.now.spec }
    ensures value { result ≡ (read_of room.now).step i p }
    ensures range { result ≤ room.now.spec.rounds }
{
    step_of(&room.spec().shape(), memory(room), i, p)
}

/// The room's words from the first memory word on.
fn memory(room: &RoomCore) -> &[u64]
    ensures value { result.now ≡ room.now.words }
    ensures count { memory_words (sizes_in room.now.spec) ≤ length result.now }
    ensures limits { IsWithinLimits room.now.spec }
{
    let _shape = shape_of(room); // for the proof: the room is within its limits
    room.words()
}

/// How many writes of process `p` have been made.
#[tactic(auto, unfolding(crate::specs::Readings::read_of))]
pub(crate) fn greatest_step(room: &RoomCore, p: usize) -> usize
    requires { p < processes room.now.spec }
    ensures value { result ≡ greatest_step room.now.spec (read_of room.now) p }
    ensures range { result ≤ room.now.spec.rounds }
{
    merged(&room.spec().shape(), memory(room), p)
}

/// How many writes of each process memory words show.
pub(crate) fn row_of(spec: &Spec, words: &[u64]) -> Row
    requires { memory_words (sizes_in spec.now) ≤ length words.now }
    ensures value { result.items ≡ row_of spec.now.simulators (processes spec.now) (step_in (sizes_in spec.now) words.now) }
    ensures count { length result.items ≡ processes spec.now }
    ensures range { (p : ℕ) → slice_index result.items p ≤ spec.now.rounds }
{
    let last = last_writes(&spec.shape(), words);
    let mut row = Row::from(last.rounds);
    row.truncate(spec.n());
    row
}

/// How many writes of each process have been made.
#[tactic(auto, unfolding(crate::specs::Readings::read_of))]
pub(crate) fn greatest_steps(room: &RoomCore) -> Row
    ensures value { result.items ≡ row_of room.now.spec.simulators (processes room.now.spec) (read_of room.now).step }
    ensures count { length result.items ≡ processes room.now.spec }
    ensures range { (p : ℕ) → slice_index result.items p ≤ room.now.spec.rounds }
{
    row_of(room.spec(), memory(room))
}

/// The level of simulator `i` in the agreement on process `j` and round `k`, which is 0 in that on the process's input.
#[tactic(auto, unfolding(crate::specs::Readings::read_of))]
pub(crate) fn level(room: &RoomCore, i: usize, j: usize, k: usize) -> u8
    requires simulator { i < room.now.spec.simulators }
    requires process { j < processes room.now.spec }
    requires round { IsAgreementRound (sizes_in room.now.spec) k }
    ensures { result ≡ (read_of room.now).level i j k }
{
    let m = simulator_count(room);
    prove!(i < m);
    field(levels_word(room, j, k), 2 * i, 2) as u8
}

/// The word of levels of the agreement on process `j` and round `k`.
pub(crate) fn levels_word(room: &RoomCore, j: usize, k: usize) -> u64
    requires process { j < processes room.now.spec }
    requires round { IsAgreementRound (sizes_in room.now.spec) k }
    ensures { result ≡ word_at (sizes_in room.now.spec) room.now.words (Levels j k) }
{
    let levels = Place::Levels {
        process: j,
        round: k,
    };
    word_at(room, levels)
}

/// The least simulator at this level there, if one is.
#[tactic(auto, unfolding(crate::specs::Readings::read_of))]
pub(crate) fn least_with(room: &RoomCore, j: usize, k: usize, level: u8) -> Option<usize>
    requires process { j < processes room.now.spec }
    requires round { IsAgreementRound (sizes_in room.now.spec) k }
    ensures { result ≡ position (λ one. one == level) (levels_at room.now.spec (read_of room.now) j k) }
{
    least_at(levels_word(room, j, k), simulator_count(room), level)
}

/// The decision of process `j` plus one, as simulator `i` has it, or 0.
#[tactic(auto, unfolding(crate::specs::Readings::read_of))]
fn out(room: &RoomCore, i: usize, j: usize) -> u64
    requires simulator { i < room.now.spec.simulators }
    requires process { j < processes room.now.spec }
    ensures value { result ≡ (read_of room.now).out i j }
    ensures range { result ≤ MOST }
{
    let word = word_at(
        room,
        Place::Out {
            simulator: i,
            process: j,
        },
    );
    word.min(MOST)
}

/// The value of process `p`'s write in round `r`, as simulator `i` has it.
#[tactic(auto, unfolding(crate::specs::Readings::read_of), using(view_table::proofs::CallerLemmas::agreement_round))]
pub(crate) fn value(room: &RoomCore, i: usize, p: usize, r: usize) -> u32
    requires simulator { i < room.now.spec.simulators }
    requires process { p < processes room.now.spec }
    requires round { IsRound (sizes_in room.now.spec) r }
    ensures { result ≡ (read_of room.now).value i p r }
{
    small(word_at(
        room,
        Place::Value {
            simulator: i,
            process: p,
            round: r,
        },
    ))
}

/// Whether simulator `i` has crashed.
#[tactic(auto, unfolding(crate::specs::Readings::read_of))]
pub(crate) fn has_crashed(room: &RoomCore, i: usize) -> bool
    requires { i < room.now.spec.simulators }
    ensures { result ≡ (read_of room.now).crashed i }
{
    room.is_crashed(i)
}

/// What process `j` has decided, if a simulator has stored it.
pub(crate) fn decided_in(room: &RoomCore, j: usize) -> Option<u32>
    requires { j < processes room.now.spec }
    ensures { result ≡ decided_in room.now.spec (read_of room.now) j }
{
    for i in 0..simulator_count(room) {
        let out = out(room, i, j);
        if out != 0 {
            return Some((out - 1) as u32);
        }
    }
    None
}

pub(crate) fn has_out(room: &RoomCore, j: usize) -> bool
    requires { j < processes room.now.spec }
    ensures { result ≡ has_out room.now.spec (read_of room.now) j }
{
    for i in 0..simulator_count(room) {
        if out(room, i, j) != 0 {
            return true;
        }
    }
    false
}
