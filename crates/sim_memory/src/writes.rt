//! The last writes of all processes at once.
ghost use Rattle.std.specs.Prelude.{List, replicate, ◌≡◌, ℕ, ◌+◌, ◌-◌, ◌*◌, ◌/◌, ◌%◌, ◌^◌, ◌<◌, ◌≤◌, bit_and, bit_or, length, max, min, slice_index, nat_lt, if◌then◌else◌};
ghost use Rattle.room_spec.specs.Sizes.{memory_words};
ghost use Rattle.room_spec.specs.Shapes.{sizes_of};
ghost use Rattle.sim_memory.specs.Steps.{holder_of, merged_of, step_in};
ghost use Rattle.sim_memory.specs.Lasts.{AreLast};

use level_cells::field;
use room_spec::{MAX_PROCESSES, Shape};
use std::simd::prelude::*;

/// The last write of each process that memory words show. After the last process all numbers
/// are 0.
#[derive(Clone, Copy)]
pub struct LastWrites {
    /// The least simulator that has the greatest step number for the process.
    pub holders: [u8; MAX_PROCESSES],
    /// That number: 0 if the words show no write.
    pub rounds: [u8; MAX_PROCESSES],
}

/// The last write of each process that the memory words show, as [`last_write`](crate::last_write) has
/// that of one.
#[inline(always)]
pub fn last_writes(shape: &Shape, words: &[u64]) -> LastWrites
    requires { memory_words (sizes_of shape.now) ≤ length words.now }
    ensures holders { (p : ℕ) → p < shape.now.n → slice_index result.holders p ≡ holder_of shape.now.m (step_in (sizes_of shape.now) words.now) p }
    ensures rounds { (p : ℕ) → p < shape.now.n → slice_index result.rounds p ≡ merged_of shape.now.m (step_in (sizes_of shape.now) words.now) p }
    ensures range { (p : ℕ) → p < shape.now.n → (slice_index result.holders p < shape.now.m) × (slice_index result.rounds p ≤ shape.now.rounds) }
    ensures behind { (p : ℕ) → shape.now.n ≤ p → p < MAX_PROCESSES → (slice_index result.holders p ≡ 0) × (slice_index result.rounds p ≡ 0) }
{
    let mut last = LastWrites {
        holders: [0; MAX_PROCESSES],
        rounds: [0; MAX_PROCESSES],
    };
    note_last(shape, words, &mut last);
    last
}

/// Puts what [`last_writes`] answers in place of what is there.
pub fn note_last(shape: &Shape, words: &[u64], last: &mut LastWrites)
    requires { memory_words (sizes_of shape.now) ≤ length words.now }
    ensures holders { (p : ℕ) → p < shape.now.n → slice_index last.new.holders p ≡ holder_of shape.now.m (step_in (sizes_of shape.now) words.now) p }
    ensures rounds { (p : ℕ) → p < shape.now.n → slice_index last.new.rounds p ≡ merged_of shape.now.m (step_in (sizes_of shape.now) words.now) p }
    ensures range { (p : ℕ) → p < shape.now.n → (slice_index last.new.holders p < shape.now.m) × (slice_index last.new.rounds p ≤ shape.now.rounds) }
    ensures behind { (p : ℕ) → shape.now.n ≤ p → p < MAX_PROCESSES → (slice_index last.new.holders p ≡ 0) × (slice_index last.new.rounds p ≡ 0) }
{
    let all = of_all(shape, words);
    last.holders = all.holders.to_array();
    last.rounds = all.rounds.to_array();
}

/// Of all simulators of the room. Each call says how many bits a step number has, so that the compiler
/// knows every shift and mask in it.
#[inline(always)]
fn of_all(shape: &Shape, words: &[u64]) -> Lanes
    requires { memory_words (sizes_of shape.now) ≤ length words.now }
    ensures { AreLast (sizes_of shape.now) words.now shape.now.m result.holders result.rounds }
{
    match shape.bits {
        1 => by_bits(shape, words, 1),
        2 => by_bits(shape, words, 2),
        3 => by_bits(shape, words, 3),
        _ => by_bits(shape, words, 4),
    }
}

#[inline(always)]
fn by_bits(shape: &Shape, words: &[u64], bits: usize) -> Lanes
    requires words { memory_words (sizes_of shape.now) ≤ length words.now }
    requires bits { bits ≡ shape.now.bits }
    ensures { AreLast (sizes_of shape.now) words.now shape.now.m result.holders result.rounds }
{
    if shape.memory_words() == 1 {
        in_one_word(shape, words[0], bits)
    } else {
        in_words(shape, words, bits)
    }
}

/// If there is one memory word, all step numbers are side by side in it, those of simulator 0 lowest.
#[inline(always)]
fn in_one_word(shape: &Shape, word: u64, bits: usize) -> Lanes
    requires one { memory_words (sizes_of shape.now) ≡ 1 }
    requires bits { bits ≡ shape.now.bits }
    ensures { (words : List ℕ) → slice_index words 0 ≡ word → AreLast (sizes_of shape.now) words shape.now.m result.holders result.rounds }
{
    let width = shape.n * bits;
    let mut last = Lanes::none().later(0, lowest_steps(shape, word, bits));
    let mut rest = above(word, width);
    for i in 1..shape.m {
        if rest == 0 {
            return last; // no simulator from this one on has written
        }
        last = last.later(i as u8, lowest_steps(shape, rest, bits));
        rest = above(rest, width);
    }
    last
}

/// The word without this many of its lowest bits.
#[inline(always)]
fn above(word: u64, width: usize) -> u64
    requires { (1 ≤ width) × (width ≤ 64) }
    ensures { result ≡ word / 2 ^ width }
{
    word >> (width - 1) >> 1
}

/// If there are several memory words, the step numbers of a simulator are in one of them, or the first in
/// one and the rest in the next.
#[inline(always)]
fn in_words(shape: &Shape, words: &[u64], bits: usize) -> Lanes
    requires words { memory_words (sizes_of shape.now) ≤ length words.now }
    requires bits { bits ≡ shape.now.bits }
    ensures { AreLast (sizes_of shape.now) words.now shape.now.m result.holders result.rounds }
{
    let fields = 64 / bits;
    let mut last = Lanes::none();
    let mut word = 0;
    let mut first = 0;
    for i in 0..shape.m {
        let row = row_at(shape, words, bits, word, first);
        last = last.later(i as u8, lowest_steps(shape, row, bits));
        first += shape.n;
        if first >= fields {
            first -= fields;
            word += 1;
        }
    }
    last
}

/// The step numbers of a simulator as the lowest fields of a word, if they begin at this field of this memory
/// word.
#[inline(always)]
fn row_at(shape: &Shape, words: &[u64], bits: usize, word: usize, first: usize) -> u64
    requires bits { (1 ≤ bits) × (bits ≤ 4) }
    requires first { first < 64 / bits }
    requires within { word < length words.now }
    requires next { 64 / bits < first + shape.now.n → word + 1 < length words.now }
    ensures own { (p : ℕ) → p < shape.now.n → first + p < 64 / bits → result / 2 ^ (p * bits) % 2 ^ bits ≡ slice_index words.now word / 2 ^ ((first + p) * bits) % 2 ^ bits }
    ensures next { (p : ℕ) → p < shape.now.n → 64 / bits ≤ first + p →
        result / 2 ^ (p * bits) % 2 ^ bits ≡ slice_index words.now (word + 1) / 2 ^ ((first + p - 64 / bits) * bits) % 2 ^ bits }
{
    let here = 64 / bits - first;
    let row = words[word] >> (first * bits);
    if shape.n <= here {
        return row;
    }
    field(row, 0, here * bits) | words[word + 1] << (here * bits)
}

/// The last writes that some simulators have, in a lane for each process.
#[derive(Clone, Copy)]
struct Lanes {
    holders: u8x16,
    rounds: u8x16,
}

impl Lanes {
    /// Of no simulator.
    #[inline(always)]
    fn none() -> Lanes
        ensures holders { result.holders ≡ replicate MAX_PROCESSES 0 }
        ensures rounds { result.rounds ≡ replicate MAX_PROCESSES 0 }
    {
        Lanes {
            holders: u8x16::splat(0),
            rounds: u8x16::splat(0),
        }
    }

    /// With the step numbers of the next simulator.
    #[inline(always)]
    fn later(self, i: u8, steps: u8x16) -> Lanes
        ensures holders { (p : ℕ) →
            p < MAX_PROCESSES →
            slice_index result.holders p ≡ (if nat_lt (slice_index self.rounds p) (slice_index steps p) then i else slice_index self.holders p) }
        ensures rounds { (p : ℕ) → p < MAX_PROCESSES → slice_index result.rounds p ≡ max (slice_index self.rounds p) (slice_index steps p) }
    {
        Lanes {
            holders: self
                .rounds
                .simd_lt(steps)
                .select(u8x16::splat(i), self.holders),
            rounds: self.rounds.simd_max(steps),
        }
    }
}

/// The step numbers in the lowest fields of a word, one for each process, and then 0.
#[inline(always)]
fn lowest_steps(shape: &Shape, word: u64, bits: usize) -> u8x16
    requires { (1 ≤ bits) × (bits ≤ 4) }
    ensures own { (p : ℕ) → p < shape.now.n → slice_index result p ≡ min (word / 2 ^ (p * bits) % 2 ^ bits) shape.now.rounds }
    ensures behind { (p : ℕ) → shape.now.n ≤ p → p < MAX_PROCESSES → slice_index result p ≡ 0 }
{
    lowest_fields(shape, word, bits).simd_min(u8x16::splat(shape.rounds as u8))
}

/// The lowest fields of a word, one for each process, and then 0.
#[inline(always)]
fn lowest_fields(shape: &Shape, word: u64, bits: usize) -> u8x16
    requires { (1 ≤ bits) × (bits ≤ 4) }
    ensures own { (p : ℕ) → p < shape.now.n → slice_index result p ≡ word / 2 ^ (p * bits) % 2 ^ bits }
    ensures behind { (p : ℕ) → shape.now.n ≤ p → p < MAX_PROCESSES → slice_index result p ≡ 0 }
{
    let own = field(word, 0, shape.n * bits);
    let eight = 8 * bits;
    bytes_of(
        in_bytes(field(own, 0, eight), bits),
        in_bytes(own >> eight, bits),
    )
}

/// The bytes of two words, the lowest first.
fn bytes_of(low: u64, high: u64) -> u8x16
    ensures low { (p : ℕ) → p < 8 → slice_index result p ≡ low / 2 ^ (p * 8) % 2 ^ 8 }
    ensures high { (p : ℕ) → p < 8 → slice_index result (8 + p) ≡ high / 2 ^ (p * 8) % 2 ^ 8 }
{
    u64x2::from_array([low, high]).to_le_bytes()
}

/// The word with each of its eight fields in a byte of its own. It has no other bits.
#[inline(always)]
fn in_bytes(word: u64, bits: usize) -> u64
    requires bits { (1 ≤ bits) × (bits ≤ 4) }
    requires fields { word < 2 ^ (8 * bits) }
    ensures { (p : ℕ) → p < 8 → result / 2 ^ (p * 8) % 2 ^ 8 ≡ word / 2 ^ (p * bits) % 2 ^ bits }
{
    if word == 0 {
        return 0; // as the upper half of a row of up to eight processes
    }
    let fours = apart(word, 4 * bits, 32, 0x0000_0001_0000_0001);
    let pairs = apart(fours, 2 * bits, 16, 0x0001_0001_0001_0001);
    apart(pairs, bits, 8, 0x0101_0101_0101_0101)
}

/// The word with the upper half of each group of twice `width` bits moved up, so that each half
/// begins `room` bits after the one below it. In `ones` the lowest bit of each room is set.
#[inline(always)]
fn apart(word: u64, width: usize, room: usize, ones: u64) -> u64
    requires width { (1 ≤ width) × (width ≤ room) × (room ≤ 32) }
    requires mask { ones * (2 ^ width - 1) < 2 ^ 64 }
    ensures { result ≡ bit_and (bit_or word (word * 2 ^ (room - width) % 2 ^ 64)) (ones * (2 ^ width - 1)) }
{
    (word | word << (room - width)) & (ones * ((1 << width) - 1))
}
