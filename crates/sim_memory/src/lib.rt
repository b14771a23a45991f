//! The memory of a room: the step numbers that its simulators have raised.
//!
//! Simulator i raises its own number of process p by one each time it writes for it, so the number
//! says how many writes of p it has made. All numbers are in one to four words, none across two.
//! One load of one word is a snapshot of what is in it; of several words, two equal collects give
//! one (Y. Afek, H. Attiya, D. Dolev, E. Gafni, M. Merritt, N. Shavit, "Atomic snapshots of shared
//! memory", J. ACM 40(4), 1993). What a process has written is then the
//! greatest number that a simulator has for it: the merging of the simulators' memories in
//! E. Borowsky, E. Gafni, N. Lynch, S. Rajsbaum, "The BG distributed simulation algorithm",
//! Distributed Computing 14(3), 2001.
#![tactic(auto)]

ghost use Rattle.std.specs.Prelude.{◌≡◌, ◌+◌, ◌%◌, ◌^◌, ◌<◌, ◌≤◌, length, min};
ghost use Rattle.room_spec.specs.Sizes.{memory_words};
ghost use Rattle.room_spec.specs.Shapes.{sizes_of};
ghost use Rattle.sim_memory.specs.Steps.{IsHolder, holder_of, merged_of, place_of, step_in, word_of};

pub mod laws;
mod writes;

use level_cells::field;
use room_spec::Shape;
pub use writes::{LastWrites, last_writes, note_last};

/// Where the step number of simulator `i` for process `p` is: in which memory word, and from which
/// bit on. The field has `shape.bits` bits, and lies within the word.
pub fn place(shape: &Shape, i: usize, p: usize) -> (usize, usize)
    requires simulator { i < shape.now.m }
    requires process { p < shape.now.n }
    ensures word { result.0 ≡ word_of (sizes_of shape.now) i p }
    ensures value { result.1 ≡ place_of (sizes_of shape.now) i p }
    ensures within { result.0 < memory_words (sizes_of shape.now) }
    ensures inside { result.1 + shape.now.bits ≤ 64 }
    ensures wide { 1 ≤ shape.now.bits }
{
    let number = i * shape.n + p;
    if shape.memory_words() == 1 {
        return (0, number * shape.bits);
    }
    let fields = shape.fields_in_word();
    (number / fields, number % fields * shape.bits)
}

/// How often simulator `i` has written for process `p`, 0 to `shape.rounds`, by the memory words. A
/// field above that reads as `shape.rounds`.
pub fn step_of(shape: &Shape, words: &[u64], i: usize, p: usize) -> usize
    requires words { memory_words (sizes_of shape.now) ≤ length words.now }
    requires simulator { i < shape.now.m }
    requires process { p < shape.now.n }
    ensures value { result ≡ step_in (sizes_of shape.now) words.now i p }
    ensures range { result ≤ shape.now.rounds }
{
    let (word, at) = place(shape, i, p);
    lowest_step(shape, words[word] >> at)
}

/// The greatest step number that a simulator has for process `p`: how many writes of it the memory
/// words show, 0 to `shape.rounds`.
pub fn merged(shape: &Shape, words: &[u64], p: usize) -> usize
    requires words { memory_words (sizes_of shape.now) ≤ length words.now }
    requires process { p < shape.now.n }
    ensures value { result ≡ merged_of shape.now.m (step_in (sizes_of shape.now) words.now) p }
    ensures range { result ≤ shape.now.rounds }
{
    last_write(shape, words, p).1
}

/// The least simulator that has the greatest step number for process `p`, 0 to `shape.m - 1`.
pub fn holder(shape: &Shape, words: &[u64], p: usize) -> usize
    requires words { memory_words (sizes_of shape.now) ≤ length words.now }
    requires process { p < shape.now.n }
    ensures value { result ≡ holder_of shape.now.m (step_in (sizes_of shape.now) words.now) p }
    ensures holds { IsHolder shape.now.m (step_in (sizes_of shape.now) words.now) p result }
{
    last_write(shape, words, p).0
}

/// The last write of process `p` that the memory words show: the least simulator that has the greatest
/// step number for it, and that number. If they show none, both are 0.
pub fn last_write(shape: &Shape, words: &[u64], p: usize) -> (usize, usize)
    requires words { memory_words (sizes_of shape.now) ≤ length words.now }
    requires process { p < shape.now.n }
    ensures holder { result.0 ≡ holder_of shape.now.m (step_in (sizes_of shape.now) words.now) p }
    ensures holds { IsHolder shape.now.m (step_in (sizes_of shape.now) words.now) p result.0 }
    ensures merged { result.1 ≡ merged_of shape.now.m (step_in (sizes_of shape.now) words.now) p }
    ensures range { result.1 ≤ shape.now.rounds }
{
    let mut holder = 0;
    let mut greatest = step_of(shape, words, 0, p);
    for i in 1..shape.m {
        let step = step_of(shape, words, i, p);
        if step > greatest {
            holder = i;
            greatest = step;
        }
    }
    (holder, greatest)
}

/// The step number in the lowest field of a word.
fn lowest_step(shape: &Shape, word: u64) -> usize
    ensures value { result ≡ min (word % 2 ^ shape.now.bits) shape.now.rounds }
    ensures range { result ≤ shape.now.rounds }
{
    let step = field(word, 0, shape.bits) as usize;
    step.min(shape.rounds)
}
