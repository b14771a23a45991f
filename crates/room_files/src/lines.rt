//! A text's lines, of which the last may lack its line end.
ghost use Rattle.std.specs.Prelude.{◌≡◌, ◌<◌, ◌≤◌, ◌∷◌, [], MatchOption, IfSome, length};
ghost use Rattle.room_spec.specs.Texts.{first_line, later_lines};
ghost use Rattle.room_files.specs.Lines.{text_lines};

use room_spec::cut;

/// The first line, without its line end, and what comes after it.
#[inline]
pub fn split_line(text: &[u8]) -> (&[u8], &[u8])
    ensures first { result.0.now ≡ first_line text.now }
    ensures later { result.1.now ≡ later_lines text.now }
    ensures lines { 0 < length text.now → text_lines text.now ≡ result.0.now ∷ text_lines result.1.now }
    ensures shorter { 0 < length text.now → length result.1.now < length text.now }
{
    match cut(text, b'\n') {
        (line, Some(later)) => (line, later),
        (line, None) => (line, &[]),
    }
}

/// The same of a text that isn't empty. `None` if it is.
#[inline]
pub fn next_line(text: &[u8]) -> Option<(&[u8], &[u8])>
    ensures lines { MatchOption result (text_lines text.now ≡ []) (λ r. text_lines text.now ≡ r.0.now ∷ text_lines r.1.now) }
    ensures shorter { IfSome result (λ r. length r.1.now < length text.now) }
{
    if text.is_empty() {
        return None;
    }
    Some(split_line(text))
}

/// How many lines the text has.
pub fn count_lines(text: &[u8]) -> u64
    ensures value { result ≡ length (text_lines text.now) }
    ensures within { result ≤ length text.now }
{
    let mut rest = text;
    let mut count = 0;
    while let Some((_, later)) = next_line(rest) {
        count += 1;
        rest = later;
    }
    count
}
