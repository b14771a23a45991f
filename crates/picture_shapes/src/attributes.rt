//! The attributes of elements, and the words between tags.
ghost use Rattle.std.specs.Prelude.{◌≡◌, ◌++◌, ◌≤◌, OnOk, decimal, drop, length, take};
ghost use Rattle.std.specs.List.{prefix_len};
ghost use Rattle.picture_shapes.specs.Attributes.{anchor_of, attribute, colour_of, dashes_of, escaped, escaped_byte, face_of, font_of, framed, is_plain, printable, sized, standing};

use crate::colour::Colour;
use crate::shape::{Anchor, Dashes, Face, Font, Frame, Point};
use io_text::Text;
use itoa::write_digits;
use std::alloc::AllocError;

/// Writes a number and nothing else.
///
/// # Errors
///
/// If an allocation fails.
pub fn write_decimal(output: &mut Text, value: u64) -> Result<(), AllocError>
    ensures { OnOk result (output.new ≡ output.old ++ decimal value) }
{
    let mut digits = [0; 20];
    let start = write_digits(value, &mut digits, 20);
    output.put(&digits[start..])
}

/// Writes an attribute. Its value is written as it is.
#[tactic(auto, unfolding(crate::specs::Attributes::attribute))]
pub(crate) fn write_value(output: &mut Text, name: &[u8], value: &[u8]) -> Result<(), AllocError>
    ensures { OnOk result (output.new ≡ output.old ++ attribute name.now value.now) }
{
    output.put_two(name, b"=\"")?;
    output.put_two(value, b"\"")
}

/// Writes an attribute whose value is a number.
#[tactic(auto, unfolding(crate::specs::Attributes::attribute))]
pub(crate) fn write_number(output: &mut Text, name: &[u8], value: u64) -> Result<(), AllocError>
    ensures { OnOk result (output.new ≡ output.old ++ attribute name.now (decimal value)) }
{
    output.put_two(name, b"=\"")?;
    write_decimal(output, value)?;
    output.put(b"\"")
}

/// Writes an attribute whose value is a colour.
pub(crate) fn write_paint(output: &mut Text, name: &[u8], colour: Colour) -> Result<(), AllocError>
    ensures { OnOk result (output.new ≡ output.old ++ attribute name.now (colour_of colour)) }
{
    write_value(output, name, colour.text())
}

/// Writes a position.
#[tactic(auto, unfolding(crate::specs::Attributes::standing))]
pub(crate) fn write_standing(output: &mut Text, at: Point) -> Result<(), AllocError>
    ensures { OnOk result (output.new ≡ output.old ++ standing at) }
{
    write_number(output, b" x", at.x)?;
    write_number(output, b" y", at.y)
}

/// Writes sizes.
#[tactic(auto, unfolding(crate::specs::Attributes::sized))]
pub(crate) fn write_sized(output: &mut Text, width: u64, height: u64) -> Result<(), AllocError>
    ensures { OnOk result (output.new ≡ output.old ++ sized width height) }
{
    write_number(output, b" width", width)?;
    write_number(output, b" height", height)
}

/// Writes a position and sizes.
#[tactic(auto, unfolding(crate::specs::Attributes::framed))]
pub(crate) fn write_framed(output: &mut Text, frame: Frame) -> Result<(), AllocError>
    ensures { OnOk result (output.new ≡ output.old ++ framed frame) }
{
    let start = Point {
        x: frame.x,
        y: frame.y,
    };
    write_standing(output, start)?;
    write_sized(output, frame.width, frame.height)
}

impl Dashes {
    /// The attribute that says it.
    #[tactic(auto, unfolding(crate::specs::Attributes::dashes_of))]
    pub(crate) fn text(self) -> &'static [u8]
        ensures { result.now ≡ dashes_of self }
    {
        match self {
            Dashes::Solid => b"",
            Dashes::Short => b" stroke-dasharray=\"3 2\"",
            Dashes::Long => b" stroke-dasharray=\"4 4\"",
        }
    }
}

impl Face {
    /// The attributes that say it.
    #[tactic(auto, unfolding(crate::specs::Attributes::face_of))]
    fn text(self) -> &'static [u8]
        ensures { result.now ≡ face_of self }
    {
        match self {
            Face::Plain => b"",
            Face::Bold => b" font-weight=\"600\"",
            Face::Code => b" font-family=\"monospace\" style=\"white-space:pre\"",
            Face::Struck => b" font-family=\"monospace\" text-decoration=\"line-through\"",
        }
    }
}

impl Anchor {
    /// The attribute that says it.
    #[tactic(auto, unfolding(crate::specs::Attributes::anchor_of))]
    fn text(self) -> &'static [u8]
        ensures { result.now ≡ anchor_of self }
    {
        match self {
            Anchor::Start => b"",
            Anchor::Middle => b" text-anchor=\"middle\"",
        }
    }
}

/// Writes how a label looks.
#[tactic(auto, unfolding(crate::specs::Attributes::font_of))]
pub(crate) fn write_font(output: &mut Text, font: Font) -> Result<(), AllocError>
    ensures { OnOk result (output.new ≡ output.old ++ font_of font) }
{
    write_number(output, b" font-size", u64::from(font.size))?;
    output.put_two(font.face.text(), font.anchor.text())
}

/// Writes words, escaped as XML asks.
pub(crate) fn write_escaped(output: &mut Text, words: &[u8]) -> Result<(), AllocError>
    ensures { OnOk result (output.new ≡ output.old ++ escaped words.now) }
{
    let mut rest = words;
    loop {
        let (plain, marked) = split_plain(rest);
        output.put(plain)?;
        let Some((byte, later)) = marked.split_first() else {
            return Ok(());
        };
        write_escaped_byte(output, *byte)?;
        rest = later;
    }
}

/// The bytes that words begin with and that are written as they are, and the bytes after them.
fn split_plain(words: &[u8]) -> (&[u8], &[u8])
    ensures plain { result.0.now ≡ take (prefix_len is_plain words.now) words.now }
    ensures marked { result.1.now ≡ drop (prefix_len is_plain words.now) words.now }
{
    words.split_at(plain_len(words))
}

/// How many bytes words begin with that are written as they are.
fn plain_len(words: &[u8]) -> usize
    ensures value { result ≡ prefix_len is_plain words.now }
    ensures within { result ≤ length words.now }
{
    words.iter().take_while(|byte| is_plain(**byte)).count()
}

/// Whether a byte is written as it is: it is printable ASCII and no mark of XML.
fn is_plain(byte: u8) -> bool
    ensures { result ≡ is_plain byte }
{
    match byte {
        b'&' | b'<' | b'>' | b'"' => false,
        _ => byte >= b' ' && byte <= b'~',
    }
}

fn write_escaped_byte(output: &mut Text, byte: u8) -> Result<(), AllocError>
    ensures { OnOk result (output.new ≡ output.old ++ escaped_byte byte) }
{
    match byte {
        b'&' => output.put(b"&amp;"),
        b'<' => output.put(b"&lt;"),
        b'>' => output.put(b"&gt;"),
        b'"' => output.put(b"&quot;"),
        _ => output.put(&[printable(byte)]),
    }
}

/// The byte itself if it is printable ASCII, and else a space.
fn printable(byte: u8) -> u8
    ensures { result ≡ printable byte }
{
    if byte < b' ' || byte > b'~' {
        b' '
    } else {
        byte
    }
}
