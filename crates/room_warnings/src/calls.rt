//! Calls that ask for a process that the room doesn't have.
ghost use Rattle.std.specs.Prelude.{◌≡◌, ◌≤◌, drop, length, nat_eq, take};
ghost use Rattle.room_warnings.specs.Calls.{argument, calls_none, digits_in, is_beyond, is_call, is_closed};

use crate::words::{after_blanks, after_byte};
use protocol_lang::read_number;

/// Whether a text begins with `cell(K)` or `seen(K)` where K is the number of no process of a room of `n`.
pub(crate) fn calls_none(n: usize, text: &[u8]) -> bool
    ensures { result ≡ calls_none n text.now }
{
    let inner = argument(text);
    let len = digits_in(inner);
    is_call(text) && is_beyond(n, &inner[..len]) && is_closed(&inner[len..])
}

fn is_call(text: &[u8]) -> bool
    ensures { result ≡ is_call text.now }
{
    text.starts_with(b"cell") || text.starts_with(b"seen")
}

/// What comes after the parenthesis after the word with which a text begins.
fn argument(text: &[u8]) -> &[u8]
    ensures { result.now ≡ argument text.now }
{
    after_blanks(after_byte(b'(', after_blanks(after_word(text))))
}

fn after_word(text: &[u8]) -> &[u8]
    ensures { result.now ≡ drop 4 text.now }
{
    if text.len() < 4 { &[] } else { &text[4..] }
}

fn digits_in(text: &[u8]) -> usize
    ensures value { result ≡ digits_in text.now }
    ensures within { result ≤ length text.now }
{
    text.iter().take_while(|byte| byte.is_ascii_digit()).count()
}

/// Whether digits are the number of no process of a room of `n`.
fn is_beyond(n: usize, digits: &[u8]) -> bool
    ensures { result ≡ is_beyond n digits.now }
{
    match read_number(digits) {
        Some(number) => n as u64 <= number,
        None => false,
    }
}

fn is_closed(text: &[u8]) -> bool
    ensures { result ≡ is_closed text.now }
{
    after_blanks(text).starts_with(b")")
}
