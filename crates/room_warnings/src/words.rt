//! Words and symbols of a protocol's text that has no fault.
ghost use Rattle.std.specs.Prelude.{◌≡◌, ◌≤◌, drop, length, nat_eq, take};
ghost use Rattle.std.specs.List.{starts_with};
ghost use Rattle.room_warnings.specs.Words.{after_byte, after_blanks, blanks_in, has_word, is_blank};

pub(crate) fn is_blank(byte: u8) -> bool
    ensures { result ≡ is_blank byte }
{
    byte == b' ' || byte == b'\n'
}

/// How many blanks a text begins with.
fn blanks_in(text: &[u8]) -> usize
    ensures value { result ≡ blanks_in text.now }
    ensures within { result ≤ length text.now }
{
    text.iter().take_while(|byte| is_blank(**byte)).count()
}

/// What comes after the blanks with which a text begins.
pub(crate) fn after_blanks(text: &[u8]) -> &[u8]
    ensures { result.now ≡ after_blanks text.now }
{
    &text[blanks_in(text)..]
}

/// What comes after this byte, with which a text begins; nothing if it doesn't.
pub(crate) fn after_byte(byte: u8, text: &[u8]) -> &[u8]
    ensures { result.now ≡ after_byte byte text.now }
{
    match text {
        [first, rest @ ..] if *first == byte => rest,
        _ => &[],
    }
}

/// Whether a word is in a text. No word of the language is a part of another one that is looked for.
#[tactic(auto, unfolding(crate::specs::Words::has_word))]
pub(crate) fn has_word(word: &[u8], text: &[u8]) -> bool
    ensures { result ≡ has_word word.now text.now }
{
    let [_, rest @ ..] = text else {
        return false;
    };
    text.starts_with(word) || has_word(word, rest)
}
