//! What is allowed at a place of a protocol's text.
ghost use Rattle.std.specs.Prelude.{◌≡◌, ◌++◌, IfOk, OnOk, map};
ghost use Rattle.std.specs.List.{flat_map};
ghost use Rattle.protocol_lang.specs.FirstFaults.{place_of};
ghost use Rattle.protocol_lang.specs.Reading.{reading};
ghost use Rattle.fault_text.specs.Choices.{can_stand, choice_if, choice_words, choices, choices_note, choices_words, comparison_hint, is_fault_after, is_whole, last_rule_hint};

use crate::lines::write_indented;
use io_text::Text;
use protocol_lang::{ParseFault, parse_bytes};
use std::alloc::{AllocError, Global};

/// Each word and symbol of the language, and a number.
const TOKENS: [&[u8]; 32] = [
    b"first", b"when", b"and", b"write", b"decide", b"else", b"input", b"id", b"n", b"round",
    b"mine", b"count", b"min", b"max", b"cell", b"seen", b"equal", b"0", b"(", b")", b";", b"+",
    b"-", b"*", b"/", b"%", b"==", b"!=", b"<", b"<=", b">", b">=",
];

/// What comes after a whole protocol.
const LAST_RULE: &[u8] =
    b"the rule `else` is the last: after its action comes the block's line `end`";

/// What can be compared.
const COMPARISON: &[u8] =
    b"a condition compares two values: one of == != < <= > >= and a value are missing here";

/// Writes which tokens can follow these bytes of a protocol's text.
pub fn write_choices(alloc: Global, output: &mut Text, before: &[u8]) -> Result<(), AllocError>
    ensures { OnOk result (output.new ≡ output.old ++ choices_note before.now) }
{
    let choices = choices_behind(alloc, before)?;
    write_words(output, choices.as_bytes())
}

/// Writes that these tokens are allowed at a place, or that none is.
fn write_words(output: &mut Text, choices: &[u8]) -> Result<(), AllocError>
    ensures { OnOk result (output.new ≡ output.old ++ choices_words choices.now) }
{
    if choices.is_empty() {
        output.put(b"nothing could stand there")
    } else {
        output.put_two(b"what could stand there:", choices)
    }
}

/// The tokens that can follow these bytes of a protocol's text.
#[tactic(auto, unfolding(crate::specs::Choices::choices))]
fn choices_behind(alloc: Global, before: &[u8]) -> Result<Text, AllocError>
    ensures { IfOk result (λ text. text ≡ choices before.now) }
{
    let mut choices = Text::new(alloc);
    write_choices_among(alloc, &mut choices, before, &TOKENS)?;
    Ok(choices)
}

/// Writes which of these tokens can follow these bytes of a protocol's text.
fn write_choices_among(
    alloc: Global,
    output: &mut Text,
    before: &[u8],
    tokens: &[&[u8]],
) -> Result<(), AllocError>
    ensures { OnOk result (output.new ≡ output.old ++ flat_map (choice_if before.now) (map (λ token. token.now) tokens.now)) }
{
    for token in tokens {
        write_choice(alloc, output, before, token)?;
    }
    Ok(())
}

/// Writes the token if it can follow these bytes of a protocol's text.
fn write_choice(
    alloc: Global,
    output: &mut Text,
    before: &[u8],
    token: &[u8],
) -> Result<(), AllocError>
    ensures { OnOk result (output.new ≡ output.old ++ choice_if before.now token.now) }
{
    if can_stand(alloc, before, token)? {
        write_token(output, token)
    } else {
        Ok(())
    }
}

/// Writes a token; for all numbers there is one.
fn write_token(output: &mut Text, token: &[u8]) -> Result<(), AllocError>
    ensures { OnOk result (output.new ≡ output.old ++ choice_words token.now) }
{
    if token == b"0".as_slice() {
        output.put(b" NUMBER")
    } else {
        output.put_two(b" ", token)
    }
}

/// Whether a token can follow these bytes of a protocol's text.
fn can_stand(alloc: Global, before: &[u8], token: &[u8]) -> Result<bool, AllocError>
    ensures { IfOk result (λ can. can ≡ can_stand before.now token.now) }
{
    let mut text = Vec::new(alloc);
    text.extend_from_slice(before)?;
    text.push(b' ')?;
    let place = text.len();
    text.extend_from_slice(token)?;
    match parse_bytes(alloc, &text) {
        Ok(_) => Ok(true),
        Err(ParseFault::OutOfMemory) => Err(AllocError),
        Err(fault) => Ok(is_fault_after(place, fault)),
    }
}

/// Whether a fault is at a place, and that is after this one.
fn is_fault_after(place: usize, fault: ParseFault) -> bool
    ensures { result ≡ is_fault_after place (place_of fault) }
{
    match fault.place() {
        Some(at) => place < at,
        None => false,
    }
}

/// Writes that only the end can follow these bytes of a protocol's text, if they are a whole protocol.
pub(crate) fn write_last_rule_hint(
    alloc: Global,
    output: &mut Text,
    before: &[u8],
) -> Result<(), AllocError>
    ensures { OnOk result (output.new ≡ output.old ++ last_rule_hint before.now) }
{
    if is_whole(alloc, before)? {
        write_indented(output, LAST_RULE)
    } else {
        Ok(())
    }
}

/// Whether a text is a whole protocol.
fn is_whole(alloc: Global, text: &[u8]) -> Result<bool, AllocError>
    ensures { IfOk result (λ whole. whole ≡ is_whole (reading text.now)) }
{
    match parse_bytes(alloc, text) {
        Ok(_) => Ok(true),
        Err(ParseFault::OutOfMemory) => Err(AllocError),
        Err(_) => Ok(false),
    }
}

/// Writes that a comparison is to follow these bytes of a protocol's text, if one of its signs can.
pub(crate) fn write_comparison_hint(
    alloc: Global,
    output: &mut Text,
    before: &[u8],
) -> Result<(), AllocError>
    ensures { OnOk result (output.new ≡ output.old ++ comparison_hint before.now) }
{
    if can_stand(alloc, before, b"==")? {
        write_indented(output, COMPARISON)
    } else {
        Ok(())
    }
}
