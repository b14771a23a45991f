//! Names that no room has.
ghost use Rattle.std.specs.Prelude.{◌≡◌, ◌∷◌, ◌++◌, [], IfOk, OnOk};
ghost use Rattle.std.specs.List.{list_any};
ghost use Rattle.std.specs.Str.{bytes_eq};
ghost use Rattle.room_files.specs.Lines.{text_lines};
ghost use Rattle.fault_text.specs.Refusals.{after_room};
ghost use Rattle.fault_text.specs.UnknownNames.{has_room_line, is_met, met, more_note, near_room, nearest_room, refused_unknown_names};

use crate::hints::{is_near, write_near_words};
use crate::refusals::{MOST_EXPLAINED, Refusals, after_room};
use io_text::Text;
use room_files::next_line;
use std::alloc::{AllocError, Global};
use std::marker::Model;

/// Names that commands or event lines have and no room has, and how many more came with one of these names. So each name is explained once.
#[derive(Drop)]
pub struct UnknownNames {
    names: Vec<Text>,
    more: u64,
}

impl Model for UnknownNames {
    ghost use Rattle.fault_text.specs.UnknownNames.{MetNames};

    ghost Value = { MetNames };

    ghost view = { λ unknown_names. record { names = unknown_names.names.items; more = unknown_names.more } };
}

impl UnknownNames {
    /// None yet.
    pub fn new(alloc: Global) -> UnknownNames
        ensures { result ≡ record { names = []; more = 0 } }
    {
        UnknownNames {
            names: Vec::new(alloc),
            more: 0,
        }
    }

    /// Meets a name. Gives whether it was met before. No more names are kept than are explained.
    pub fn meet(&mut self, alloc: Global, name: &[u8]) -> Result<bool, AllocError>
        ensures before { IfOk result (λ before. before ≡ is_met name.now self.old) }
        ensures met { OnOk result (self.new ≡ met name.now self.old) }
    {
        if self.has(name) {
            self.more = self.more.saturating_add(1);
            return Ok(true);
        }
        if self.names.len() < MOST_EXPLAINED {
            self.keep(alloc, name)?;
        }
        Ok(false)
    }

    /// Whether a name was met before, and kept.
    fn has(&self, name: &[u8]) -> bool
        ensures { result ≡ is_met name.now self.now }
    {
        self.names.iter().any(|known| known.as_bytes() == name)
    }

    fn keep(&mut self, alloc: Global, name: &[u8]) -> Result<(), AllocError>
        ensures { OnOk result (self.new ≡ record self.old { names = self.old.names ++ name.now ∷ [] }) }
    {
        let mut own = Text::new(alloc);
        own.put(name)?;
        self.names.push(own)?;
        Ok(())
    }

    /// Writes which blocks of rooms of these names are refused, of those that are explained.
    pub fn write_refused(
        &self,
        output: &mut Text,
        input: &[u8],
        refused: &Refusals,
    ) -> Result<(), AllocError>
        ensures { OnOk result (output.new ≡ output.old ++ refused_unknown_names input.now refused.now self.now.names) }
    {
        write_refused_names(output, input, refused, self.names.as_slice())
    }

    /// Writes how many more came with a name that was met before, if some did, and these words after the number.
    pub fn write_more(&self, output: &mut Text, words: &[u8]) -> Result<(), AllocError>
        ensures { OnOk result (output.new ≡ output.old ++ more_note words.now self.now) }
    {
        if self.more == 0 {
            return Ok(());
        }
        output.put(b"    and")?;
        output.put_spaced_number(self.more)?;
        output.put_two(words, b"\n")
    }
}

fn write_refused_names(
    output: &mut Text,
    input: &[u8],
    refused: &Refusals,
    names: &[Text],
) -> Result<(), AllocError>
    ensures { OnOk result (output.new ≡ output.old ++ refused_unknown_names input.now refused.now names.now) }
{
    for name in names {
        refused.write_named(output, input, name.as_bytes())?;
    }
    Ok(())
}

/// Writes which room may be meant by a name that no room has, if a block of the input has a name near it.
pub fn write_near_room(output: &mut Text, input: &[u8], name: &[u8]) -> Result<(), AllocError>
    ensures { OnOk result (output.new ≡ output.old ++ near_room input.now name.now) }
{
    if name.len() < 2 {
        return Ok(());
    }
    write_near_words(output, nearest_room(name, input))
}

/// The name in the first line `room NAME` of a text that is near this one, or nothing.
#[tactic(auto, unfolding(crate::specs::UnknownNames::nearest_room))]
fn nearest_room<'a>(name: &[u8], text: &'a [u8]) -> &'a [u8]
    ensures { result.now ≡ nearest_room name.now (text_lines text.now) }
{
    let mut rest = text;
    while let Some((line, later)) = next_line(rest) {
        let known = after_room(line);
        if is_near(name, known) {
            return known;
        }
        rest = later;
    }
    &[]
}

/// Whether a line of a text is `room NAME` with this name.
#[tactic(auto, unfolding(crate::specs::UnknownNames::has_room_line))]
pub fn has_room_line(name: &[u8], text: &[u8]) -> bool
    ensures { result ≡ has_room_line name.now text.now }
{
    let mut rest = text;
    while let Some((line, later)) = next_line(rest) {
        if after_room(line) == name {
            return true;
        }
        rest = later;
    }
    false
}
