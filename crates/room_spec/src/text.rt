//! Texts cut at a byte, into lines or fields.
ghost use Rattle.std.specs.Prelude.{◌≡◌, ◌==◌, ◌∷◌, ◌<◌, ◌≤◌, ◌+◌, [], IfSome, MatchOption, length, take};
ghost use Rattle.std.specs.Option.{option_copied};
ghost use Rattle.std.specs.List.{before_first, after_first, position, position_or_len, slice_split};
ghost use Rattle.room_spec.specs.Texts.{first_line, later_lines, pieces_of};

use memchr::memchr;
use std::simd::prelude::*;

/// What comes before the first `byte` of `text`, and what comes after it. Where there is none,
/// all of `text` and `None`.
pub fn cut(text: &[u8], byte: u8) -> (&[u8], Option<&[u8]>)
    ensures before { result.0.now ≡ before_first (λ b. b == byte) text.now }
    ensures after { MatchOption result.1 (after_first (λ b. b == byte) text.now ≡ []) (λ rest. rest.now ≡ after_first (λ b. b == byte) text.now) }
    ensures pieces { slice_split (λ b. b == byte) text.now ≡ result.0.now ∷ pieces_of (λ b. b == byte) (option_copied result.1) }
    ensures shorter { IfSome result.1 (λ rest. length result.0.now + 1 + length rest.now ≡ length text.now) }
{
    match place_of(text, byte) {
        Some(place) => (&text[..place], Some(&text[place + 1..])),
        None => (text, None),
    }
}

/// The same as `cut`, for a byte that is likely to be near.
pub fn cut_near(text: &[u8], byte: u8) -> (&[u8], Option<&[u8]>)
    ensures before { result.0.now ≡ before_first (λ b. b == byte) text.now }
    ensures after { MatchOption result.1 (after_first (λ b. b == byte) text.now ≡ []) (λ rest. rest.now ≡ after_first (λ b. b == byte) text.now) }
    ensures pieces { slice_split (λ b. b == byte) text.now ≡ result.0.now ∷ pieces_of (λ b. b == byte) (option_copied result.1) }
    ensures shorter { IfSome result.1 (λ rest. length result.0.now + 1 + length rest.now ≡ length text.now) }
{
    let Some(place) = near_place_of(text, byte) else {
        return (text, None);
    };
    let rest = &text[place + 1..];
    (&text[..place], Some(rest))
}

/// The first line of `text` and the lines after it.
pub(crate) fn split_line(text: &[u8]) -> (&[u8], &[u8])
    ensures first { result.0.now ≡ first_line text.now }
    ensures later { result.1.now ≡ later_lines text.now }
{
    match cut(text, b'\n') {
        (line, Some(rest)) => (line, rest),
        (line, None) => (line, &[]),
    }
}

/// How many bytes are looked at one by one, before the rest is searched.
const NEAR: usize = 12;

fn near_place_of(text: &[u8], byte: u8) -> Option<usize>
    ensures { result ≡ position (λ b. b == byte) text.now }
{
    let near = text.len().min(NEAR);
    for place in 0..near {
        if text[place] == byte {
            return Some(place);
        }
    }
    let far = memchr(byte, &text[near..])?;
    Some(near + far)
}

/// How many bytes are compared at once.
const LANES: usize = 16;

#[inline(always)]
fn place_of(text: &[u8], byte: u8) -> Option<usize>
    ensures { result ≡ position (λ b. b == byte) text.now }
{
    if text.len() >= LANES {
        let place = first_lane(text, byte);
        if place < LANES {
            return Some(place);
        }
    }
    far_place_of(text, byte)
}

/// The place of the byte among the first ones, or how many these are.
#[inline(always)]
fn first_lane(text: &[u8], byte: u8) -> usize
    requires { LANES ≤ length text.now }
    ensures { result ≡ position_or_len (λ b. b == byte) (take LANES text.now) }
{
    let places = u8x16::from_slice(text)
        .simd_eq(u8x16::splat(byte))
        .to_bitmask();
    if places == 0 {
        LANES
    } else {
        places.trailing_zeros() as usize
    }
}

#[inline(never)]
#[tactic(auto, using(crate::proofs::Places::is_position))]
fn far_place_of(text: &[u8], byte: u8) -> Option<usize>
    ensures { result ≡ position (λ b. b == byte) text.now }
{
    memchr(byte, text)
}
