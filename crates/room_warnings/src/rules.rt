//! Rules that always hold.
ghost use Rattle.std.specs.Prelude.{◌≡◌, ◌≤◌, ◌++◌, IfOk, drop, length, nat_eq, not, take};
ghost use Rattle.std.specs.List.{filter, prefix_len};
ghost use Rattle.room_warnings.specs.Rules.{condition_in, condition_len, has_same_sides, holds_always, is_action, is_always, is_rule, left_len, squeezed};
ghost use Rattle.room_warnings.specs.Words.{is_blank};

use crate::words::{has_word, is_blank};
use io_text::Text;
use std::alloc::{AllocError, Global};

/// Whether a text begins with a rule whose only comparison always holds.
pub(crate) fn holds_always(alloc: Global, text: &[u8]) -> Result<bool, AllocError>
    ensures { IfOk result (λ holds. holds ≡ holds_always text.now) }
{
    if !is_rule(text) {
        return Ok(false);
    }
    let condition = squeezed(alloc, condition_in(text))?;
    Ok(is_always(condition.as_bytes()))
}

fn is_rule(text: &[u8]) -> bool
    ensures { result ≡ is_rule text.now }
{
    text.starts_with(b"when")
}

/// What comes before the action of a rule, and after its word.
fn condition_in(text: &[u8]) -> &[u8]
    ensures { result.now ≡ condition_in text.now }
{
    let rest = if text.len() < 4 { &[] } else { &text[4..] };
    &rest[..condition_len(rest)]
}

/// How many bytes come before an action, or all if there is none.
#[tactic(auto, unfolding(crate::specs::Rules::condition_len))]
fn condition_len(text: &[u8]) -> usize
    ensures value { result ≡ condition_len text.now }
    ensures within { result ≤ length text.now }
{
    let [_, rest @ ..] = text else {
        return 0;
    };
    if is_action(text) {
        0
    } else {
        1 + condition_len(rest)
    }
}

fn is_action(text: &[u8]) -> bool
    ensures { result ≡ is_action text.now }
{
    text.starts_with(b"write") || text.starts_with(b"decide")
}

/// A text with no blanks.
fn squeezed(alloc: Global, text: &[u8]) -> Result<Text, AllocError>
    ensures { IfOk result (λ bytes. bytes ≡ squeezed text.now) }
{
    let mut bytes = Text::new(alloc);
    for byte in text {
        if !is_blank(*byte) {
            bytes.put(&[*byte])?;
        }
    }
    Ok(bytes)
}

/// Whether a condition, which has no blanks, is one comparison that always holds.
fn is_always(condition: &[u8]) -> bool
    ensures { result ≡ is_always condition.now }
{
    !has_word(b"and", condition)
        && (condition.ends_with(b">=0")
            || condition.starts_with(b"0<=")
            || has_same_sides(condition))
}

/// Whether a comparison, which has no blanks, says that a value equals itself.
fn has_same_sides(comparison: &[u8]) -> bool
    ensures { result ≡ has_same_sides comparison.now }
{
    let len = left_len(comparison);
    let right = &comparison[len..];
    right.starts_with(b"==") && comparison[..len] == right[2..]
}

/// How many bytes come before the first sign of equality.
fn left_len(comparison: &[u8]) -> usize
    ensures value { result ≡ left_len comparison.now }
    ensures within { result ≤ length comparison.now }
{
    comparison.iter().take_while(|byte| **byte != b'=').count()
}
