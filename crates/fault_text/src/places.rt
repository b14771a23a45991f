//! A place of an input: the number of its line, the line with all its bytes made visible, and a caret below the place.
ghost use Rattle.std.specs.Prelude.{◌≡◌, ◌++◌, ◌<◌, ◌≤◌, ◌^◌, OnOk, codes, length};
ghost use Rattle.std.specs.List.{list_all};
ghost use Rattle.fault_text.specs.Lines.{indented, indented_all, last_line};
ghost use Rattle.fault_text.specs.Places.{back_shown, blanks_below, front_shown, has_mark, heading, hex_digit, is_blank, place_notes, seen, seen_byte, seen_here, with_mark};

use crate::lines::split_text;
use io_text::Text;
use room_spec::cut;
use std::alloc::{AllocError, Global};

/// The most bytes of a line that are shown before a place, and after it.
const WIDE: usize = 60;

/// How many are shown if there are more, after two dots or before them.
const KEPT: usize = 58;

/// A sentence about a line of an input.
#[derive(Clone, Copy)]
pub struct Remark<'a> {
    /// The number of the line.
    pub number: u64,
    pub sentence: &'a [u8],
}

impl<'a> Remark<'a> {
    /// This sentence about the line of this number.
    pub fn new(number: u64, sentence: &'a str) -> Remark<'a>
        ensures number { result.number ≡ number }
        ensures sentence { result.sentence.now ≡ sentence.now }
    {
        Remark {
            number,
            sentence: sentence.as_bytes(),
        }
    }
}

/// Writes the remark about a place of an input, after the number of its line; the line, which has these bytes before the place and
/// from it on; and a caret below the place.
pub fn write_place(
    alloc: Global,
    output: &mut Text,
    remark: &Remark<'_>,
    front: &[u8],
    back: &[u8],
) -> Result<(), AllocError>
    ensures { OnOk result (output.new ≡ output.old ++ indented_all (place_notes remark.now.number remark.now.sentence.now front.now back.now)) }
{
    write_heading(output, remark.number, remark.sentence)?;
    let mut shown = Text::new(alloc);
    write_front(&mut shown, front, back.is_empty())?;
    output.put_two(b"    ", shown.as_bytes())?;
    write_back(output, back)?;
    output.put(b"\n    ")?;
    write_blanks_below(output, shown.as_bytes())?;
    output.put(b"^\n")
}

/// Writes the sentence about a line of an input, after the line's number.
pub fn write_heading(output: &mut Text, number: u64, sentence: &[u8]) -> Result<(), AllocError>
    ensures { OnOk result (output.new ≡ output.old ++ indented (heading number sentence.now)) }
{
    output.put(b"    line")?;
    output.put_spaced_number(number)?;
    output.put_two(b": ", sentence)?;
    output.put(b"\n")
}

/// Writes what a line has before a place, where `ends` says that it has nothing else.
fn write_front(output: &mut Text, front: &[u8], ends: bool) -> Result<(), AllocError>
    ensures { OnOk result (output.new ≡ output.old ++ front_shown ends front.now) }
{
    if front.len() <= WIDE {
        return write_seen(output, front, ends);
    }
    output.put(b"..")?;
    write_seen(output, &front[front.len() - KEPT..], ends)
}

/// Writes what a line has from a place on. A byte-order mark there is shown as such.
fn write_back(output: &mut Text, back: &[u8]) -> Result<(), AllocError>
    ensures { OnOk result (output.new ≡ output.old ++ with_mark back.now) }
{
    if !has_mark(back) {
        return write_cut(output, back);
    }
    output.put(b"\\u{feff}")?;
    let (_, rest) = split_text(back, 3);
    write_cut(output, rest)
}

/// Whether bytes begin with a byte-order mark.
pub(crate) fn has_mark(back: &[u8]) -> bool
    ensures { result ≡ has_mark back.now }
{
    back.starts_with(&[0xef, 0xbb, 0xbf])
}

/// Writes the first bytes of a line's end.
fn write_cut(output: &mut Text, back: &[u8]) -> Result<(), AllocError>
    ensures { OnOk result (output.new ≡ output.old ++ back_shown back.now) }
{
    if back.len() <= WIDE {
        return write_seen(output, back, true);
    }
    let (kept, _) = split_text(back, KEPT);
    write_seen(output, kept, false)?;
    output.put(b"..")
}

/// Writes bytes so that each can be seen; blanks too, if a line ends with them.
#[tactic(auto, unfolding(crate::specs::Places::seen))]
fn write_seen(output: &mut Text, bytes: &[u8], ends: bool) -> Result<(), AllocError>
    ensures { OnOk result (output.new ≡ output.old ++ seen ends bytes.now) }
{
    let [byte, rest @ ..] = bytes else {
        return Ok(());
    };
    write_seen_here(output, *byte, ends && is_blank(bytes))?;
    write_seen(output, rest, ends)
}

/// Writes a byte, as a dot if it is a blank at a line's end.
fn write_seen_here(output: &mut Text, byte: u8, at_end: bool) -> Result<(), AllocError>
    ensures { OnOk result (output.new ≡ output.old ++ seen_here at_end byte) }
{
    if at_end {
        output.put(&[0xc2, 0xb7])
    } else {
        write_seen_byte(output, byte)
    }
}

fn write_seen_byte(output: &mut Text, byte: u8) -> Result<(), AllocError>
    ensures { OnOk result (output.new ≡ output.old ++ seen_byte byte) }
{
    match byte {
        b'\t' => output.put(b"\\t"),
        b'\r' => output.put(b"\\r"),
        0..=31 => output.put(&[b'\\', b'x', hex_digit(byte / 16), hex_digit(byte % 16)]),
        _ => output.put(&[byte]),
    }
}

fn hex_digit(digit: u8) -> u8
    requires { digit < 16 }
    ensures { result ≡ hex_digit digit }
{
    if digit < 10 {
        b'0' + digit
    } else {
        b'a' + (digit - 10)
    }
}

/// Whether all bytes are blanks.
pub(crate) fn is_blank(bytes: &[u8]) -> bool
    ensures { result ≡ is_blank bytes.now }
{
    bytes.iter().all(|byte| *byte == b' ')
}

/// Writes as many blanks as a shown text is wide. A character's bytes after its first take no room.
#[tactic(auto, unfolding(crate::specs::Places::blanks_below))]
fn write_blanks_below(output: &mut Text, shown: &[u8]) -> Result<(), AllocError>
    ensures { OnOk result (output.new ≡ output.old ++ blanks_below shown.now) }
{
    let [byte, rest @ ..] = shown else {
        return Ok(());
    };
    if !matches!(byte, 0x80..=0xbf) {
        output.put(b" ")?;
    }
    write_blanks_below(output, rest)
}

/// The last line of a text.
pub fn last_line(text: &[u8]) -> &[u8]
    ensures { result.now ≡ last_line text.now }
{
    let mut rest = text;
    loop {
        let (line, later) = cut(rest, b'\n');
        let Some(later) = later else {
            return line;
        };
        rest = later;
    }
}
