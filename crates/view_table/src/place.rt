//! The places of a room's shared memory.
ghost use Rattle.std.specs.Prelude.{◌≡◌, ◌+◌, ◌-◌, ◌*◌, ◌<◌, ◌≤◌};
ghost use Rattle.room_spec.specs.Sizes.{memory_words};
ghost use Rattle.room_spec.specs.Shapes.{sizes_of};
ghost use Rattle.view_table.specs.declared.place.Place.TheVariants as places;
ghost use Rattle.view_table.specs.Places.{IsSimulator, IsProcess, IsRound, IsAgreementRound, IsMemoryWord, IsPlace, index_of, pairs, views, views_from, values_from, outs_from, inputs_from, proposals_from, input_words, words_of};

use room_spec::Shape;

/// The most words of a room.
pub const MAX_WORDS: usize = 5188;

/// A word of a room's shared memory. Simulators, processes and memory words are counted from 0, rounds from 1. In a
/// reduction the simulators agree on the inputs of the processes before, in a round numbered 0: levels and values have it too.
#[derive(Clone, Copy, Debug, PartialEq, Eq)]
pub enum Place {
    /// One of the words with the step numbers of all processes at all simulators: the simulated memory.
    Memory {
        word: usize,
    },
    /// The levels of all simulators in the agreement on a process's snapshot in a round; in the round 0 on its input.
    Levels {
        process: usize,
        round: usize,
    },
    /// One of the words with the step numbers that a simulator proposes for a process's snapshot in a round.
    View {
        simulator: usize,
        process: usize,
        round: usize,
        word: usize,
    },
    /// The value that a process writes in a round, as a simulator has it; in the round 0 the input that the simulator proposes for it.
    Value {
        simulator: usize,
        process: usize,
        round: usize,
    },
    /// The decision of a process, as a simulator has it.
    Out {
        simulator: usize,
        process: usize,
    },
}

/// The index of a place among a room's words. Its numbers are those of a simulator, a process, a
/// round and a memory word of the room. Most callers name the kind of the place, and then only the words of that kind are left of this.
#[inline(always)]
#[tactic(auto, unfolding(crate::specs::Places::index_of, crate::specs::Places::words_of))]
pub fn index(shape: &Shape, place: Place) -> usize
    requires { IsPlace (sizes_of shape.now) place }
    ensures value { result ≡ index_of (sizes_of shape.now) place }
    ensures within { result < words_of (sizes_of shape.now) }
{
    match place {
        Place::Memory { word } => word,
        Place::Levels { process, round } => levels(shape, process, round),
        Place::View {
            simulator,
            process,
            round,
            word,
        } => {
            let agreement = in_round(shape, pair(shape, simulator, process), round);
            views_from(shape) + in_words(shape, agreement, word)
        }
        Place::Value {
            simulator,
            process,
            round,
        } => value(shape, simulator, process, round),
        Place::Out { simulator, process } => outs_from(shape) + pair(shape, simulator, process),
    }
}

#[tactic(auto, using(crate::proofs::PlaceLemmas::levels_index_first))]
fn levels(shape: &Shape, process: usize, round: usize) -> usize
    requires process { IsProcess (sizes_of shape.now) process }
    requires round { IsAgreementRound (sizes_of shape.now) round }
    ensures { result ≡ index_of (sizes_of shape.now) (places.Levels process round) }
{
    if round == 0 {
        inputs_from(shape) + process
    } else {
        later_levels(shape, process, round)
    }
}

/// The index of the levels of a process in a round from 1 on, as `index` has it. This doesn't test for the round 0, so a
/// caller who knows that the round is another pays nothing for the agreements on inputs.
#[inline(always)]
#[tactic(auto, using(crate::proofs::PlaceLemmas::levels_index))]
pub fn later_levels(shape: &Shape, process: usize, round: usize) -> usize
    requires process { IsProcess (sizes_of shape.now) process }
    requires round { IsRound (sizes_of shape.now) round }
    ensures { result ≡ index_of (sizes_of shape.now) (places.Levels process round) }
{
    shape.memory_words() + in_round(shape, process, round)
}

#[tactic(auto, using(crate::proofs::PlaceLemmas::value_index_first))]
fn value(shape: &Shape, simulator: usize, process: usize, round: usize) -> usize
    requires simulator { IsSimulator (sizes_of shape.now) simulator }
    requires process { IsProcess (sizes_of shape.now) process }
    requires round { IsAgreementRound (sizes_of shape.now) round }
    ensures { result ≡ index_of (sizes_of shape.now) (places.Value simulator process round) }
{
    if round == 0 {
        inputs_from(shape) + shape.n + pair(shape, simulator, process)
    } else {
        later_value(shape, simulator, process, round)
    }
}

/// The index of the value of a simulator's process in a round from 1 on, as `index` has it, without a test for the round 0.
#[inline(always)]
#[tactic(auto, using(crate::proofs::PlaceLemmas::value_index))]
pub fn later_value(shape: &Shape, simulator: usize, process: usize, round: usize) -> usize
    requires simulator { IsSimulator (sizes_of shape.now) simulator }
    requires process { IsProcess (sizes_of shape.now) process }
    requires round { IsRound (sizes_of shape.now) round }
    ensures { result ≡ index_of (sizes_of shape.now) (places.Value simulator process round) }
{
    values_from(shape) + in_round(shape, pair(shape, simulator, process), round)
}

/// How many words a room has, at most [`MAX_WORDS`].
#[tactic(auto, unfolding(crate::specs::Places::words_of), using(crate::proofs::Counts::few_words))]
pub fn words(shape: &Shape) -> usize
    ensures value { result ≡ words_of (sizes_of shape.now) }
    ensures few { result ≤ MAX_WORDS }
{
    inputs_from(shape) + input_words(shape)
}

/// How many words the agreements on inputs have.
fn input_words(shape: &Shape) -> usize
    ensures value { result ≡ input_words (sizes_of shape.now) }
    ensures few { result ≤ 144 }
{
    if shape.is_reduction() {
        shape.n + pairs(shape)
    } else {
        0
    }
}

pub(crate) fn inputs_from(shape: &Shape) -> usize
    ensures value { result ≡ inputs_from (sizes_of shape.now) }
    ensures few { result ≤ 9972 }
{
    outs_from(shape) + pairs(shape)
}

/// The number of a simulator's process among those of all simulators.
fn pair(shape: &Shape, simulator: usize, process: usize) -> usize
    requires simulator { IsSimulator (sizes_of shape.now) simulator }
    requires process { IsProcess (sizes_of shape.now) process }
    ensures value { result ≡ simulator * shape.now.n + process }
    ensures within { result < pairs (sizes_of shape.now) }
    ensures few { result < 128 }
{
    simulator * shape.n + process
}

/// The number of a round among the rounds of rows that each have all of them.
fn in_round(shape: &Shape, row: usize, round: usize) -> usize
    requires few { row < 128 }
    requires round { IsRound (sizes_of shape.now) round }
    ensures value { result ≡ row * shape.now.rounds + (round - 1) }
    ensures few { result < 1920 }
{
    row * shape.rounds + (round - 1)
}

/// The number of a memory word of a view among those of all views, by the view's number.
fn in_words(shape: &Shape, view: usize, word: usize) -> usize
    requires few { view < 1920 }
    requires word { IsMemoryWord (sizes_of shape.now) word }
    ensures value { result ≡ view * memory_words (sizes_of shape.now) + word }
    ensures few { result < 7680 }
{
    view * shape.memory_words() + word
}

pub(crate) fn pairs(shape: &Shape) -> usize
    ensures value { result ≡ pairs (sizes_of shape.now) }
    ensures few { result ≤ 128 }
{
    shape.m * shape.n
}

/// The number of all agreements, each as one simulator has it.
fn views(shape: &Shape) -> usize
    ensures value { result ≡ views (sizes_of shape.now) }
    ensures few { result ≤ 1920 }
{
    pairs(shape) * shape.rounds
}

pub(crate) fn views_from(shape: &Shape) -> usize
    ensures value { result ≡ views_from (sizes_of shape.now) }
    ensures few { result ≤ 244 }
{
    shape.memory_words() + shape.n * shape.rounds
}

pub(crate) fn values_from(shape: &Shape) -> usize
    ensures value { result ≡ values_from (sizes_of shape.now) }
    ensures few { result ≤ 7924 }
{
    views_from(shape) + views(shape) * shape.memory_words()
}

pub(crate) fn outs_from(shape: &Shape) -> usize
    ensures value { result ≡ outs_from (sizes_of shape.now) }
    ensures few { result ≤ 9844 }
{
    values_from(shape) + views(shape)
}
