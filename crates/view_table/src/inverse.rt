//! The place of a word.
ghost use Rattle.std.specs.Prelude.{◌≡◌, ◌+◌, ◌*◌, ◌<◌};
ghost use Rattle.room_spec.specs.Sizes.{memory_words};
ghost use Rattle.room_spec.specs.Shapes.{sizes_of};
ghost use Rattle.view_table.specs.Places.{IsPlaceAt, input_words, inputs_from, levels_from, outs_from, pairs, values_from, views, views_from, words_of};

use crate::place::{Place, inputs_from, outs_from, values_from, views_from};
use room_spec::Shape;

/// The place of the word that has this index among the room's words: the inverse of [`index`](crate::index).
#[tactic(auto, unfolding(crate::specs::Places::index_of, crate::specs::Places::words_of), using(crate::proofs::PlaceLemmas::moved_to))]
pub fn place_at(shape: &Shape, index: usize) -> Place
    requires { index < words_of (sizes_of shape.now) }
    ensures { IsPlaceAt (sizes_of shape.now) result index }
{
    if index < shape.memory_words() {
        return Place::Memory { word: index };
    }
    if index < views_from(shape) {
        return levels_at(shape, index - shape.memory_words());
    }
    if index < values_from(shape) {
        return view_at(shape, index - views_from(shape));
    }
    if index < outs_from(shape) {
        return value_at(shape, index - values_from(shape));
    }
    if index < inputs_from(shape) {
        return out_at(shape, index - outs_from(shape));
    }
    input_at(shape, index - inputs_from(shape))
}

/// The place of a word of the agreements on inputs.
fn input_at(shape: &Shape, at: usize) -> Place
    requires { at < input_words (sizes_of shape.now) }
    ensures { IsPlaceAt (sizes_of shape.now) result (inputs_from (sizes_of shape.now) + at) }
{
    if at < shape.n {
        return Place::Levels {
            process: at,
            round: 0,
        };
    }
    let pair = at - shape.n;
    Place::Value {
        simulator: pair / shape.n,
        process: pair % shape.n,
        round: 0,
    }
}

fn levels_at(shape: &Shape, at: usize) -> Place
    requires { at < shape.now.n * shape.now.rounds }
    ensures { IsPlaceAt (sizes_of shape.now) result (levels_from (sizes_of shape.now) + at) }
{
    Place::Levels {
        process: at / shape.rounds,
        round: at % shape.rounds + 1,
    }
}

fn view_at(shape: &Shape, at: usize) -> Place
    requires { at < views (sizes_of shape.now) * memory_words (sizes_of shape.now) }
    ensures { IsPlaceAt (sizes_of shape.now) result (views_from (sizes_of shape.now) + at) }
{
    let words = shape.memory_words();
    let view = at / words;
    let pair = view / shape.rounds;
    Place::View {
        simulator: pair / shape.n,
        process: pair % shape.n,
        round: view % shape.rounds + 1,
        word: at % words,
    }
}

fn value_at(shape: &Shape, at: usize) -> Place
    requires { at < views (sizes_of shape.now) }
    ensures { IsPlaceAt (sizes_of shape.now) result (values_from (sizes_of shape.now) + at) }
{
    let pair = at / shape.rounds;
    Place::Value {
        simulator: pair / shape.n,
        process: pair % shape.n,
        round: at % shape.rounds + 1,
    }
}

fn out_at(shape: &Shape, at: usize) -> Place
    requires { at < pairs (sizes_of shape.now) }
    ensures { IsPlaceAt (sizes_of shape.now) result (outs_from (sizes_of shape.now) + at) }
{
    Place::Out {
        simulator: at / shape.n,
        process: at % shape.n,
    }
}
