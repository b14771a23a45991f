//! The lines of a task, and each as a text of the language.
ghost use Rattle.std.specs.Prelude.{◌≡◌, ◌++◌, OnOk, IfOk, [], map};
ghost use Rattle.protocol_lang.specs.Tokens.{is_blank, is_letter};
ghost use Rattle.decision_tasks.specs.Lines.{has_words, lines_in, protocol_text, renamed, renamed_after};

use io_text::Text;
use room_spec::cut;
use std::alloc::{AllocError, Global};

/// What is between the semicolons of a text, unless it is blank.
pub fn lines_of<'a>(alloc: Global, text: &'a [u8]) -> Result<Vec<&'a [u8]>, AllocError>
    ensures { IfOk result (λ lines. map (λ line. line.now) lines.items ≡ lines_in text.now) }
{
    let mut lines = Vec::new(alloc);
    let mut rest = Some(text);
    while let Some(left) = rest {
        let (line, later) = cut(left, b';');
        if has_words(line) {
            lines.push(line)?;
        }
        rest = later;
    }
    Ok(lines)
}

fn has_words(line: &[u8]) -> bool
    ensures { result ≡ has_words line.now }
{
    line.iter().any(|byte| !is_blank(*byte))
}

fn is_blank(byte: u8) -> bool
    ensures { result ≡ is_blank byte }
{
    byte == b' ' || byte == b'\n'
}

/// What comes before a line in its protocol.
pub const HEAD: &[u8] = b"first input;\nwhen ";

/// The protocol that decides 1 where the line holds, and 0 where it doesn't.
pub fn protocol_text(alloc: Global, line: &[u8]) -> Result<Text, AllocError>
    ensures { IfOk result (λ text. text ≡ protocol_text line.now) }
{
    let mut output = Text::new(alloc);
    output.put(HEAD)?;
    write_renamed(&mut output, line)?;
    output.put(b" decide 1;\nelse decide 0;\n")?;
    Ok(output)
}

/// Writes a line in the words of the language.
fn write_renamed(output: &mut Text, line: &[u8]) -> Result<(), AllocError>
    ensures { OnOk result (output.new ≡ output.old ++ renamed_after [] line.now) }
{
    let mut start = 0;
    for at in 0..line.len() {
        let byte = line[at];
        if !is_letter(byte) {
            output.put(renamed(&line[start..at]))?;
            output.put(&[byte])?;
            start = at + 1;
        }
    }
    output.put(renamed(&line[start..]))
}

fn is_letter(byte: u8) -> bool
    ensures { result ≡ is_letter byte }
{
    byte.is_ascii_lowercase()
}

/// The word of the language for a word of a line.
fn renamed(word: &[u8]) -> &[u8]
    ensures { result.now ≡ renamed word.now }
{
    match word {
        b"given" => b"round",
        b"round" => b"given",
        _ => word,
    }
}
