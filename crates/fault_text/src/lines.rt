//! Lines of a text, and lines for people.
ghost use Rattle.std.specs.Prelude.{◌≡◌, ◌++◌, ◌<◌, OnOk, drop, length, take};
ghost use Rattle.room_spec.specs.Texts.{first_line, later_lines};
ghost use Rattle.fault_text.specs.Lines.{lines_after, indented, line_at};

use io_text::Text;
use room_files::split_line;
use std::alloc::AllocError;

/// Writes a line after another, for people.
pub fn write_indented(output: &mut Text, line: &[u8]) -> Result<(), AllocError>
    ensures { OnOk result (output.new ≡ output.old ++ indented line.now) }
{
    output.put(b"    ")?;
    output.put_two(line, b"\n")
}

/// A text's line of this number, counted from 1.
pub fn line_at(text: &[u8], number: u64) -> &[u8]
    ensures { result.now ≡ line_at number text.now }
{
    let (line, _) = split_line(lines_after(text, number.saturating_sub(1)));
    line
}

/// What comes after this many lines of a text.
pub fn lines_after(text: &[u8], lines: u64) -> &[u8]
    ensures { result.now ≡ lines_after lines text.now }
{
    let mut rest = text;
    for _ in 0..lines {
        (_, rest) = split_line(rest);
    }
    rest
}

/// What comes before a place of a text, and what comes after it.
pub(crate) fn split_text(text: &[u8], place: usize) -> (&[u8], &[u8])
    ensures before { result.0.now ≡ take place text.now }
    ensures behind { result.1.now ≡ drop place text.now }
{
    if place < text.len() {
        (&text[..place], &text[place..])
    } else {
        (text, &[])
    }
}
