//! The page: its constant parts, and between them files with the answers to them.
ghost use Rattle.std.specs.Prelude.{◌≡◌, ◌++◌, OnOk};
ghost use Rattle.std.specs.List.{flat_map};
ghost use Rattle.step_page.specs.Pages.{element_text, escaped, escaped_byte, file_text, open_text, tag_of};
ghost use Rattle.step_page.specs.declared.parts.TheConstants.{BEGIN as begin, END as end};

use crate::parts::{BEGIN, END};
use io_text::Text;
use std::alloc::AllocError;

/// What a file of a page is.
#[derive(Clone, Copy)]
pub enum FileKind {
    /// A script; the answer to it is its trace as JSON.
    Script,
    /// A transcript; the answer to it is the verdict on each room, with the reasons.
    Transcript,
}

impl FileKind {
    /// What begins the element of such a file.
    fn tag(self) -> &'static [u8]
        ensures { result.now ≡ tag_of self }
    {
        match self {
            FileKind::Script => b"<div class=\"script\" hidden>",
            FileKind::Transcript => b"<div class=\"transcript\" hidden>",
        }
    }
}

/// Writes what is before the files of a page, in HTML.
///
/// # Errors
///
/// If an allocation fails.
pub fn begin_page(output: &mut Text) -> Result<(), AllocError>
    ensures { OnOk result (output.new ≡ output.old ++ begin.now) }
{
    output.put(BEGIN)
}

/// Writes a file of a page with the answer to it, from which the page computes what it shows.
///
/// # Errors
///
/// If an allocation fails.
pub fn put_file(
    output: &mut Text,
    kind: FileKind,
    file: &[u8],
    answer: &[u8],
) -> Result<(), AllocError>
    ensures { OnOk result (output.new ≡ output.old ++ file_text kind file.now answer.now) }
{
    write_element(output, kind.tag(), file)?;
    write_element(output, b"<div class=\"answer\" hidden>", answer)
}

/// Writes the outcomes that are open after each command of the script before it, as JSON.
///
/// # Errors
///
/// If an allocation fails.
pub fn put_open(output: &mut Text, answer: &[u8]) -> Result<(), AllocError>
    ensures { OnOk result (output.new ≡ output.old ++ open_text answer.now) }
{
    write_element(output, b"<div class=\"open\" hidden>", answer)
}

/// Writes what is after the files of a page. The page is complete: it asks for nothing else.
///
/// # Errors
///
/// If an allocation fails.
pub fn end_page(output: &mut Text) -> Result<(), AllocError>
    ensures { OnOk result (output.new ≡ output.old ++ end.now) }
{
    output.put(END)
}

/// Writes an element that begins with this tag, and has this text.
fn write_element(output: &mut Text, tag: &[u8], text: &[u8]) -> Result<(), AllocError>
    ensures { OnOk result (output.new ≡ output.old ++ element_text tag.now text.now) }
{
    output.put(tag)?;
    write_escaped(output, text)?;
    output.put(b"</div>\n")
}

/// Writes a text so that a browser reads it as the text of an element.
fn write_escaped(output: &mut Text, text: &[u8]) -> Result<(), AllocError>
    ensures { OnOk result (output.new ≡ output.old ++ escaped text.now) }
{
    for byte in text {
        write_byte(output, *byte)?;
    }
    Ok(())
}

fn write_byte(output: &mut Text, byte: u8) -> Result<(), AllocError>
    ensures { OnOk result (output.new ≡ output.old ++ escaped_byte byte) }
{
    match byte {
        b'&' => output.put(b"&amp;"),
        b'<' => output.put(b"&lt;"),
        b'>' => output.put(b"&gt;"),
        b'\r' => output.put(b"&#13;"),
        other => output.put(&[other]),
    }
}
