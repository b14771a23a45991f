//! A text's tokens, from left to right.
ghost use Rattle.std.specs.Prelude.{◌≡◌, ◌≤◌, ◌<◌, ◌⊎◌, true, length, IfOk};
ghost use Rattle.std.specs.List.{prefix_len};
ghost use Rattle.protocol_lang.specs.Tokens.{is_blank, is_letter, is_end};
ghost use Rattle.protocol_lang.specs.Numbers.{is_digit, number_of};
ghost use Rattle.protocol_lang.specs.Reading.{token_and_extent, next_token, number_token};

use crate::fault::ParseFault;
use crate::number::read_number;
use crate::token::{Symbol, Token, Word};

/// A token, where it begins and where it ends, as offsets in bytes.
#[derive(Clone, Copy)]
pub struct Placed {
    pub at: usize,
    pub token: Token,
    pub end: usize,
}

fn blanks(text: &[u8]) -> usize
    ensures value { result ≡ prefix_len is_blank text.now }
    ensures within { result ≤ length text.now }
{
    text.iter()
        .take_while(|byte| **byte == b' ' || **byte == b'\n')
        .count()
}

fn letters(text: &[u8]) -> usize
    ensures value { result ≡ prefix_len is_letter text.now }
    ensures within { result ≤ length text.now }
{
    text.iter()
        .take_while(|byte| byte.is_ascii_lowercase())
        .count()
}

fn digits(text: &[u8]) -> usize
    ensures value { result ≡ prefix_len is_digit text.now }
    ensures within { result ≤ length text.now }
{
    text.iter().take_while(|byte| byte.is_ascii_digit()).count()
}

/// The next token of `text` from the place `from` on, or its own fault.
#[tactic(auto, unfolding(crate::specs::Reading::next_token))]
pub(crate) fn next_token(text: &[u8], from: usize) -> Result<Placed, ParseFault>
    requires { from ≤ length text.now }
    ensures token { result ≡ next_token text.now from }
    ensures within { IfOk result (λ placed. placed.end ≤ length text.now) }
    ensures onward { IfOk result (λ placed. (is_end placed.token ≡ true) ⊎ (from < placed.end)) }
{
    let at = from + blanks(&text[from..]);
    let (token, extent) = front_token(&text[at..], at)?;
    Ok(Placed {
        at,
        token,
        end: at + extent,
    })
}

/// The token at the front of `text`, which is at `at` and begins with no blank, and how many
/// bytes it takes.
fn front_token(text: &[u8], at: usize) -> Result<(Token, usize), ParseFault>
    ensures token { result ≡ token_and_extent at text.now }
    ensures within { IfOk result (λ read. read.1 ≤ length text.now) }
    ensures onward { IfOk result (λ read. (is_end read.0 ≡ true) ⊎ (0 < read.1)) }
{
    match text {
        [] => Ok((Token::End, 0)),
        [b'a'..=b'z', ..] => {
            let extent = letters(text);
            let word = Word::spelled(&text[..extent]).ok_or(ParseFault::BadToken(at))?;
            Ok((Token::Word(word), extent))
        }
        [b'0'..=b'9', ..] => {
            let extent = digits(text);
            let token = number_token(&text[..extent], at)?;
            Ok((token, extent))
        }
        _ => {
            let symbol = Symbol::at_front(text).ok_or(ParseFault::BadToken(at))?;
            Ok((Token::Symbol(symbol), symbol.len()))
        }
    }
}

fn number_token(digits: &[u8], at: usize) -> Result<Token, ParseFault>
    ensures { result ≡ number_token at (number_of digits.now) }
{
    let number = read_number(digits).ok_or(ParseFault::BadToken(at))?;
    match u32::try_from(number) {
        Ok(number) => Ok(Token::Number(number)),
        Err(_) => Err(ParseFault::NumberTooLarge(at)),
    }
}
