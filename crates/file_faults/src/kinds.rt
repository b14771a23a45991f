//! What a file is read as.
ghost use Rattle.std.specs.Prelude.{◌≡◌, ◌≤◌, IfOk, is_some, length};
ghost use Rattle.io_text.specs.Reading.{most_bytes};
ghost use Rattle.script_play.specs.Script.{command_in};
ghost use Rattle.file_faults.specs.Kinds.{AreFaultsOf, AreObjectsOf, begins_with_command, has_line, is_either, kind_of};

use crate::files::{room_faults, room_objects, transcript_faults, transcript_objects};
use crate::scripts::{script_faults, script_said};
use io_text::Text;
use room_files::{next_line, split_line};
use script_play::read_command;
use std::alloc::{AllocError, Global};

/// What a file is read as.
#[derive(Clone, Copy)]
pub enum Kind {
    /// Only room blocks.
    Rooms,
    /// A script.
    Script,
    /// A transcript.
    Transcript,
}

impl Kind {
    /// What a file is read as, by its lines, which may end as on Windows: a transcript if one is `events`, else a script if one is `open` or
    /// the first is a command, else rooms.
    pub fn of(input: &[u8]) -> Kind
        ensures { result ≡ kind_of input.now }
    {
        if has_line(b"events", b"events\r", input) {
            Kind::Transcript
        } else if has_line(b"open", b"open\r", input) || begins_with_command(input) {
            Kind::Script
        } else {
            Kind::Rooms
        }
    }
}

/// What is said of all faults of a file that is read as one of this kind.
pub fn faults_of(alloc: Global, kind: Kind, input: &[u8]) -> Result<Text, AllocError>
    requires { length input.now ≤ most_bytes }
    ensures { IfOk result (AreFaultsOf kind input.now) }
{
    match kind {
        Kind::Rooms => room_faults(alloc, input),
        Kind::Script => script_faults(alloc, input),
        Kind::Transcript => transcript_faults(alloc, input),
    }
}

/// The same as JSON.
pub(crate) fn objects_of(alloc: Global, kind: Kind, input: &[u8]) -> Result<Text, AllocError>
    requires { length input.now ≤ most_bytes }
    ensures { IfOk result (AreObjectsOf kind input.now) }
{
    match kind {
        Kind::Rooms => room_objects(alloc, input),
        Kind::Script => script_said(alloc, true, input),
        Kind::Transcript => transcript_objects(alloc, input),
    }
}

/// Whether one of the lines of a text is one of these two words.
#[tactic(auto, unfolding(crate::specs::Kinds::has_line))]
fn has_line(word: &[u8], other: &[u8], text: &[u8]) -> bool
    ensures { result ≡ has_line word.now other.now text.now }
{
    let mut rest = text;
    while let Some((line, later)) = next_line(rest) {
        if is_either(word, other, line) {
            return true;
        }
        rest = later;
    }
    false
}

fn is_either(word: &[u8], other: &[u8], line: &[u8]) -> bool
    ensures { result ≡ is_either word.now other.now line.now }
{
    line == word || line == other
}

fn begins_with_command(text: &[u8]) -> bool
    ensures { result ≡ begins_with_command text.now }
{
    let (line, _) = split_line(text);
    read_command(line).is_some()
}
