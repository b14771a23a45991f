//! Forms of lines, and the first byte at which a line leaves its form.
//!
//! A form is a pattern: small letters, digits and blanks mean themselves, capitals for a name or a number.
ghost use Rattle.std.specs.Prelude.{◌≡◌, ◌+◌, ◌<◌, ◌^◌, ◌≤◌, length, min, option_map};
ghost use Rattle.std.specs.List.{prefix_len};
ghost use Rattle.room_spec.specs.Names.{is_name_byte};
ghost use Rattle.protocol_lang.specs.Numbers.{is_digit};
ghost use Rattle.fault_text.specs.Forms.{digits_of, entry_step, item_step, literal_step, misfit_from, more_step, name_len, name_step, number_step, range_of, ranged_step, reaches, step_of, value_step};

use protocol_lang::read_number;
use room_spec::{MAX_AGREED, MAX_NAME, MAX_PROCESSES, MAX_ROUNDS, MAX_SIMULATORS, MAX_TURNS};

/// The most values that may follow the first: one for each process.
const MORE_VALUES: usize = MAX_PROCESSES - 1;

/// The same of a reduction's inputs, one for each simulator.
const MORE_OWN_VALUES: usize = MAX_SIMULATORS - 1;

/// What one byte of a form takes of a line: how many bytes, and whether they fit it. If not, they end where the line leaves the form.
#[derive(Clone, Copy)]
pub(crate) struct Step {
    pub len: usize,
    pub fits: bool,
}

/// Where a line leaves a form, in bytes from the line's first; and what is left of the form there.
#[tactic(auto, unfolding(crate::specs::Forms::misfit_from))]
pub(crate) fn find_misfit<'a>(at: usize, form: &'a [u8], line: &[u8]) -> (usize, &'a [u8])
    requires { at + length line.now < 2 ^ 63 }
    ensures at { result.0 ≡ (misfit_from at form.now line.now).0 }
    ensures left { result.1.now ≡ (misfit_from at form.now line.now).1 }
    ensures within { result.0 ≤ at + length line.now }
{
    let [byte, later @ ..] = form else {
        return (at, form);
    };
    let step = take_step(*byte, line);
    if !step.fits {
        return (at + step.len, form);
    }
    find_misfit(at + step.len, later, &line[step.len..])
}

/// What this byte of a form takes of a line.
fn take_step(byte: u8, line: &[u8]) -> Step
    ensures value { result ≡ step_of byte line.now }
    ensures within { result.len ≤ length line.now }
{
    match byte {
        b'N' => name_step(line),
        b'E' => entry_step(line),
        b'W' => more_step(MORE_VALUES, false, 0, line),
        b'O' => more_step(MORE_OWN_VALUES, false, 0, line),
        b'F' => more_step(MORE_VALUES, true, 0, line),
        _ => ranged_step(byte, line),
    }
}

/// A name.
fn name_step(line: &[u8]) -> Step
    ensures value { result ≡ name_step line.now }
    ensures within { result.len ≤ length line.now }
{
    let len = name_len(line);
    Step {
        len: len.min(MAX_NAME),
        fits: 0 < len && len <= MAX_NAME,
    }
}

/// How many bytes a line begins with that a name may have.
fn name_len(line: &[u8]) -> usize
    ensures value { result ≡ name_len line.now }
    ensures within { result ≤ length line.now }
{
    line.iter().take_while(|byte| is_name_byte(**byte)).count()
}

fn is_name_byte(byte: u8) -> bool
    ensures { result ≡ is_name_byte byte }
{
    matches!(byte, b'a'..=b'z' | b'0'..=b'9' | b'_' | b'-')
}

/// A value, or a dot for none.
fn entry_step(line: &[u8]) -> Step
    ensures value { result ≡ entry_step line.now }
    ensures within { result.len ≤ length line.now }
{
    match line {
        [b'.', ..] => Step { len: 1, fits: true },
        _ => value_step(line),
    }
}

fn value_step(line: &[u8]) -> Step
    ensures value { result ≡ value_step line.now }
    ensures within { result.len ≤ length line.now }
{
    number_step(0, 4294967295, line)
}

/// Nothing, or up to `most` values, each after a blank; or entries.
#[tactic(auto, unfolding(crate::specs::Forms::more_step))]
fn more_step(most: usize, entries: bool, at: usize, line: &[u8]) -> Step
    requires { at + length line.now < 2 ^ 63 }
    ensures value { result ≡ more_step most entries at line.now }
    ensures within { result.len ≤ at + length line.now }
{
    let [b' ', item @ ..] = line else {
        return Step {
            len: at,
            fits: true,
        };
    };
    if most == 0 {
        return Step {
            len: at,
            fits: true,
        };
    }
    let step = item_step(entries, item);
    let at = at + 1 + step.len;
    if !step.fits {
        return Step {
            len: at,
            fits: false,
        };
    }
    more_step(most - 1, entries, at, &item[step.len..])
}

fn item_step(entries: bool, line: &[u8]) -> Step
    ensures value { result ≡ item_step entries line.now }
    ensures within { result.len ≤ length line.now }
{
    if entries {
        entry_step(line)
    } else {
        value_step(line)
    }
}

/// A number in the range that this byte of a form stands for, or the byte itself.
fn ranged_step(byte: u8, line: &[u8]) -> Step
    ensures value { result ≡ ranged_step byte line.now }
    ensures within { result.len ≤ length line.now }
{
    match range_of(byte) {
        Some((least, most)) => number_step(least, most, line),
        None => literal_step(byte, line),
    }
}

/// The least and the greatest number that a form's byte stands for, if it stands for numbers.
pub(crate) fn range_of(byte: u8) -> Option<(u64, u64)>
    ensures { result ≡ range_of byte }
{
    match byte {
        b'B' => Some((1, 2)),
        b'M' => Some((1, MAX_SIMULATORS as u64)),
        b'S' => Some((1, MAX_ROUNDS as u64)),
        b'T' => Some((1, MAX_TURNS as u64)),
        b'K' => Some((1, MAX_AGREED as u64)),
        b'Q' => Some((1, MAX_PROCESSES as u64)),
        b'J' => Some((0, MAX_SIMULATORS as u64 - 1)),
        b'I' => Some((0, 255)),
        b'C' => Some((1, 65535)),
        b'P' => Some((0, MAX_PROCESSES as u64 - 1)),
        b'V' => Some((0, 4294967295)),
        _ => None,
    }
}

/// A number from `least` to `most`. A line leaves its form before another one.
fn number_step(least: u64, most: u64, line: &[u8]) -> Step
    ensures value { result ≡ number_step least most line.now }
    ensures within { result.len ≤ length line.now }
{
    let len = digits_of(line);
    if reaches(least, most, &line[..len]) {
        Step { len, fits: true }
    } else {
        Step {
            len: 0,
            fits: false,
        }
    }
}

/// How many digits a line begins with.
fn digits_of(line: &[u8]) -> usize
    ensures value { result ≡ digits_of line.now }
    ensures within { result ≤ length line.now }
{
    line.iter().take_while(|byte| is_digit(**byte)).count()
}

fn is_digit(byte: u8) -> bool
    ensures { result ≡ is_digit byte }
{
    matches!(byte, b'0'..=b'9')
}

/// Whether a field is a number from `least` to `most`.
fn reaches(least: u64, most: u64, field: &[u8]) -> bool
    ensures { result ≡ reaches least most field.now }
{
    match read_number(field) {
        Some(number) => least <= number && number <= most,
        None => false,
    }
}

fn literal_step(byte: u8, line: &[u8]) -> Step
    ensures value { result ≡ literal_step byte line.now }
    ensures within { result.len ≤ length line.now }
{
    match line {
        [first, ..] if *first == byte => Step { len: 1, fits: true },
        _ => Step {
            len: 0,
            fits: false,
        },
    }
}
