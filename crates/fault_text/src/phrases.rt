//! What was expected at a place of a line.
ghost use Rattle.std.specs.Prelude.{◌≡◌, ◌++◌, ◌-◌, ◌≤◌, ◌<◌, ◌^◌, ℕ, OnOk, length, map, nat_eq, take, drop};
ghost use Rattle.std.specs.List.{ends_with};
ghost use Rattle.fault_text.specs.Lines.{indented, indented_all, word_len};
ghost use Rattle.fault_text.specs.Forms.{misfit_from, range_of};
ghost use Rattle.fault_text.specs.Places.{place_notes};
ghost use Rattle.fault_text.specs.Phrases.{expected_if, expected_notes, expects, fits, fits_one, form_fault, form_notes, furthest, is_after_name, is_literal, is_other_word, literal_len, misfit, name_if, place_in, range_words, shown_form, shown_letter, value_place, wanted, wanted_if};

use crate::forms::{find_misfit, range_of};
use crate::hints::{first_word, is_near, write_line_hints};
use crate::lines::split_text;
use crate::places::{Remark, write_place};
use io_text::Text;
use std::alloc::{AllocError, Global};

/// The forms of a script's lines.
pub const COMMANDS: [&[u8]; 6] = [
    b"open",
    b"step N I C",
    b"crash N I",
    b"settle N",
    b"report N",
    b"close N",
];

/// The forms of event lines.
pub const EVENTS: [&[u8]; 3] = [b"N P write V", b"N P snap EF", b"N P decide V"];

/// Writes the sentence about a line that has one of these forms, or should: with the first byte at which it leaves the one that it follows
/// furthest, what is expected there, and what may help.
#[tactic(auto, unfolding(crate::specs::Phrases::form_fault))]
pub fn write_form_fault(
    alloc: Global,
    output: &mut Text,
    remark: &Remark<'_>,
    line: &[u8],
    forms: &[&[u8]],
) -> Result<(), AllocError>
    ensures { OnOk result (output.new ≡ output.old ++ form_fault remark.now.number remark.now.sentence.now line.now (map (λ form. form.now) forms.now)) }
{
    let at = place_in(line, forms);
    write_remark_at(alloc, output, remark, line, at)?;
    write_form_notes(output, at, line, forms)
}

/// Writes the remark about this place of a line.
fn write_remark_at(
    alloc: Global,
    output: &mut Text,
    remark: &Remark<'_>,
    line: &[u8],
    at: usize,
) -> Result<(), AllocError>
    ensures { OnOk result (output.new ≡ output.old ++ indented_all (place_notes remark.now.number remark.now.sentence.now (take at line.now) (drop at line.now))) }
{
    let (front, back) = split_text(line, at);
    write_place(alloc, output, remark, front, back)
}

/// Writes what is expected at this place of a line that has one of these forms, or should, and what may help.
fn write_form_notes(
    output: &mut Text,
    at: usize,
    line: &[u8],
    forms: &[&[u8]],
) -> Result<(), AllocError>
    ensures { OnOk result (output.new ≡ output.old ++ form_notes at line.now (map (λ form. form.now) forms.now)) }
{
    let (front, back) = split_text(line, at);
    write_expected_among(output, at, line, forms)?;
    write_line_hints(output, line, front, back)
}

/// The place of a line that has one of these forms, or should: its first value if it has one, or else where it leaves the one that it
/// follows furthest.
pub(crate) fn place_in(line: &[u8], forms: &[&[u8]]) -> usize
    ensures at { result ≡ place_in line.now (map (λ form. form.now) forms.now) }
    ensures within { result ≤ length line.now }
{
    if fits_one(line, forms) {
        value_place(line)
    } else {
        furthest(line, forms)
    }
}

/// Whether a line has one of these forms.
#[tactic(auto, unfolding(crate::specs::Phrases::fits_one))]
pub fn fits_one(line: &[u8], forms: &[&[u8]]) -> bool
    ensures { result ≡ fits_one line.now (map (λ form. form.now) forms.now) }
{
    let [form, others @ ..] = forms else {
        return false;
    };
    fits(line, form) || fits_one(line, others)
}

fn fits(line: &[u8], form: &[u8]) -> bool
    ensures { result ≡ fits line.now form.now }
{
    let (at, left) = find_misfit(0, form, line);
    left.is_empty() && at == line.len()
}

/// The place after a line's first word and the space after that.
fn value_place(line: &[u8]) -> usize
    ensures at { result ≡ value_place line.now }
    ensures within { result ≤ length line.now }
{
    (word_len(line) + 1).min(line.len())
}

/// How many bytes come before a line's first space.
pub(crate) fn word_len(line: &[u8]) -> usize
    ensures value { result ≡ word_len line.now }
    ensures within { result ≤ length line.now }
{
    line.iter().take_while(|byte| **byte != b' ').count()
}

/// Where a line leaves a form, and what is left of the form there. A line whose first word is not the form's, nor near it, leaves it at once.
fn misfit<'a>(form: &'a [u8], line: &[u8]) -> (usize, &'a [u8])
    ensures at { result.0 ≡ (misfit form.now line.now).0 }
    ensures left { result.1.now ≡ (misfit form.now line.now).1 }
    ensures within { result.0 ≤ length line.now }
{
    let (at, left) = find_misfit(0, form, line);
    if is_other_word(at, form, line) {
        (0, form)
    } else {
        (at, left)
    }
}

/// Whether a line that leaves a form at this place does so within its first word, which is not near the form's.
fn is_other_word(at: usize, form: &[u8], line: &[u8]) -> bool
    ensures { result ≡ is_other_word at form.now line.now }
{
    let len = literal_len(form);
    at < len && !is_near(first_word(line), &form[..len])
}

/// The last of the places at which a line leaves these forms.
#[tactic(auto, unfolding(crate::specs::Phrases::furthest))]
fn furthest(line: &[u8], forms: &[&[u8]]) -> usize
    ensures at { result ≡ furthest line.now (map (λ form. form.now) forms.now) }
    ensures within { result ≤ length line.now }
{
    let [form, others @ ..] = forms else {
        return 0;
    };
    let (at, _) = misfit(form, line);
    at.max(furthest(line, others))
}

/// Writes what each of these forms has at this place, if the line leaves it there.
#[tactic(auto, unfolding(crate::specs::Phrases::expected_notes))]
fn write_expected_among(
    output: &mut Text,
    at: usize,
    line: &[u8],
    forms: &[&[u8]],
) -> Result<(), AllocError>
    ensures { OnOk result (output.new ≡ output.old ++ indented_all (expected_notes at line.now (map (λ form. form.now) forms.now))) }
{
    let [form, others @ ..] = forms else {
        return Ok(());
    };
    write_expected_if(output, at, line, form)?;
    write_expected_among(output, at, line, others)
}

fn write_expected_if(
    output: &mut Text,
    at: usize,
    line: &[u8],
    form: &[u8],
) -> Result<(), AllocError>
    ensures { OnOk result (output.new ≡ output.old ++ indented_all (expected_if at line.now form.now)) }
{
    let (place, left) = misfit(form, line);
    if place != at {
        return Ok(());
    }
    write_expects(output, form, left)
}

/// Writes that a line should have this form, of which this is left at a place.
fn write_expects(output: &mut Text, form: &[u8], left: &[u8]) -> Result<(), AllocError>
    ensures { OnOk result (output.new ≡ output.old ++ indented (expects form.now left.now)) }
{
    output.put(b"    expected `")?;
    write_shown_form(output, form)?;
    output.put(b"`")?;
    write_wanted_if(output, form, left)?;
    output.put(b"\n")
}

/// Writes what a line should have where this is left of its form, unless the form begins there with a word.
fn write_wanted_if(output: &mut Text, form: &[u8], left: &[u8]) -> Result<(), AllocError>
    ensures { OnOk result (output.new ≡ output.old ++ wanted_if form.now left.now) }
{
    if left.len() == form.len() && literal_len(left) > 0 {
        return Ok(());
    }
    output.put(b", here ")?;
    write_wanted(output, left)?;
    write_name_if(output, form, left)
}

/// Writes what a name has, if one comes right before what is left of a form.
fn write_name_if(output: &mut Text, form: &[u8], left: &[u8]) -> Result<(), AllocError>
    ensures { OnOk result (output.new ≡ output.old ++ name_if form.now left.now) }
{
    if is_after_name(form, left) {
        output.put(b" after a name of a to z, 0 to 9, _ and -")
    } else {
        Ok(())
    }
}

fn is_after_name(form: &[u8], left: &[u8]) -> bool
    ensures { result ≡ is_after_name form.now left.now }
{
    form[..form.len().saturating_sub(left.len())].ends_with(b"N")
}

/// Writes a form as documents do.
#[tactic(auto, unfolding(crate::specs::Phrases::shown_form))]
fn write_shown_form(output: &mut Text, form: &[u8]) -> Result<(), AllocError>
    ensures { OnOk result (output.new ≡ output.old ++ shown_form form.now) }
{
    let [byte, rest @ ..] = form else {
        return Ok(());
    };
    write_shown_letter(output, *byte)?;
    write_shown_form(output, rest)
}

fn write_shown_letter(output: &mut Text, byte: u8) -> Result<(), AllocError>
    ensures { OnOk result (output.new ≡ output.old ++ shown_letter byte) }
{
    match byte {
        b'N' => output.put(b"NAME"),
        b'W' | b'O' => output.put(b" V .."),
        b'F' => output.put(b" E .."),
        b'B' => output.put(b"V"),
        b'J' => output.put(b"I"),
        b'Q' => output.put(b"N"),
        _ => output.put(&[byte]),
    }
}

/// Writes what a line should have where this is left of its form.
fn write_wanted(output: &mut Text, left: &[u8]) -> Result<(), AllocError>
    ensures { OnOk result (output.new ≡ output.old ++ wanted left.now) }
{
    match left {
        [] => output.put(b"the end of the line"),
        [b'N', ..] => output.put(b"a name: 1 to 32 of a to z, 0 to 9, _ and -"),
        [b'W' | b'O', ..] => output.put(b"a number from 0 to 4294967295"),
        [b'E' | b'F', ..] => output.put(b"a number from 0 to 4294967295, or `.`"),
        [b' ', ..] => output.put(b"a space"),
        [byte, ..] => write_range_or_word(output, *byte, left),
    }
}

fn write_range_or_word(output: &mut Text, byte: u8, left: &[u8]) -> Result<(), AllocError>
    ensures { OnOk result (output.new ≡ output.old ++ range_words (range_of byte) left.now) }
{
    match range_of(byte) {
        Some((least, most)) => {
            output.put(b"a number from")?;
            output.put_spaced_number(least)?;
            output.put(b" to")?;
            output.put_spaced_number(most)
        }
        None => {
            output.put(b"`")?;
            output.put(&left[..literal_len(left)])?;
            output.put(b"`")
        }
    }
}

/// How many bytes a form begins with that stand for themselves.
fn literal_len(form: &[u8]) -> usize
    ensures value { result ≡ literal_len form.now }
    ensures within { result ≤ length form.now }
{
    form.iter().take_while(|byte| is_literal(**byte)).count()
}

fn is_literal(byte: u8) -> bool
    ensures { result ≡ is_literal byte }
{
    !matches!(byte, b'A'..=b'Z' | b' ')
}
