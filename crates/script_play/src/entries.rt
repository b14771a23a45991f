//! The entries of a script: blocks after a line `open`, and lines that are commands.
ghost use Rattle.std.specs.Prelude.{◌≡◌, ◌<◌, ◌≤◌, ◌+◌, MatchOption, IfSome, Some, [], ◌∷◌, length};
ghost use Rattle.service_core.specs.declared.command.Command.{Command as CommandData};
ghost use Rattle.room_spec.specs.Texts.{fields_of, first_line, later_lines};
ghost use Rattle.room_files.specs.Blocks.{block_extent};
ghost use Rattle.script_play.specs.Script.{IsCommandLine, StandsFirst, bare_command, command_in, command_of, command_to, entry_lines, number_within, text_after};

use protocol_lang::read_number;
use room_files::count_lines;
use room_spec::{Name, block_len, cut};
use service_core::Command;

/// The command that a line is, or `None`. A block is opened by other means.
#[tactic(auto, using(crate::proofs::Commands::is_found))]
pub fn read_command(line: &[u8]) -> Option<Command>
    // What is read is what the line asks for.
    ensures sound { IfSome result (λ command. IsCommandLine line.now command) }
    // What a line asks for is read.
    ensures complete { (command : CommandData) → IsCommandLine line.now command → result ≡ Some command }
    ensures exact { result ≡ command_in line.now }
{
    command_in(line)
}

fn command_in(line: &[u8]) -> Option<Command>
    ensures { result ≡ command_in line.now }
{
    let (word, others) = cut(line, b' ');
    let (name, numbers) = cut(others?, b' ');
    let name = Name::read(name)?;
    match numbers {
        None => bare_command(word, name),
        Some(numbers) => command_with(word, name, numbers),
    }
}

fn bare_command(word: &[u8], name: Name) -> Option<Command>
    ensures { result ≡ bare_command word.now name }
{
    if word == b"settle".as_slice() {
        Some(Command::Settle(name))
    } else if word == b"report".as_slice() {
        Some(Command::Report(name))
    } else if word == b"close".as_slice() {
        Some(Command::Close(name))
    } else {
        None
    }
}

/// The command with these numbers after the name.
fn command_with(word: &[u8], name: Name, numbers: &[u8]) -> Option<Command>
    ensures { result ≡ command_to word.now name (fields_of numbers.now) }
{
    match cut(numbers, b' ') {
        (sim, None) => crash_command(word, name, sim),
        (sim, Some(others)) => match cut(others, b' ') {
            (count, None) => step_command(word, name, sim, count),
            (_, Some(_)) => None,
        },
    }
}

fn crash_command(word: &[u8], name: Name, sim: &[u8]) -> Option<Command>
    ensures { result ≡ command_to word.now name (sim.now ∷ []) }
{
    if word != b"crash".as_slice() {
        return None;
    }
    let sim = read_within(0, 255, sim)? as u8;
    Some(Command::Crash { name, sim })
}

fn step_command(word: &[u8], name: Name, sim: &[u8], count: &[u8]) -> Option<Command>
    ensures { result ≡ command_to word.now name (sim.now ∷ count.now ∷ []) }
{
    if word != b"step".as_slice() {
        return None;
    }
    let sim = read_within(0, 255, sim)? as u8;
    let count = read_within(1, 65535, count)?;
    Some(Command::Step { name, sim, count })
}

/// The number that a field is, from `least` to `most`.
#[inline(always)]
pub(crate) fn read_within(least: u16, most: u16, field: &[u8]) -> Option<u16>
    ensures value { result ≡ number_within least most field.now }
    ensures range { IfSome result (λ number. number ≤ most) }
{
    let number = u16::try_from(read_number(field)?).ok()?;
    if least <= number && number <= most {
        Some(number)
    } else {
        None
    }
}

/// What comes first in a script.
#[derive(Clone, Copy)]
pub(crate) enum Entry<'a> {
    /// The line `open`, and this block after it: the bytes up to its line `end`, or else all.
    Block(&'a [u8]),
    /// Another line, without its line end.
    Line(&'a [u8]),
}

impl Entry<'_> {
    /// How many lines of the script it has.
    #[inline]
    pub(crate) fn lines(&self) -> u64
        ensures { result ≡ entry_lines self.now }
    {
        match self {
            Entry::Block(block) => 1 + count_lines(block),
            Entry::Line(_) => 1,
        }
    }
}

/// What comes first in a script, and what comes after it. `None` if the script is empty.
#[inline(always)]
pub(crate) fn next_entry(script: &[u8]) -> Option<(Entry<'_>, &[u8])>
    ensures none { MatchOption result (script.now ≡ []) (λ r. 0 < length script.now) }
    ensures entry { IfSome result (λ r. StandsFirst script.now r.0) }
    ensures rest { IfSome result (λ r. r.1.now ≡ text_after (first_line script.now) (later_lines script.now)) }
    ensures shorter { IfSome result (λ r. length r.1.now < length script.now) }
    ensures few { IfSome result (λ r. entry_lines r.0 + length r.1.now ≤ length script.now) }
{
    if script.is_empty() {
        return None;
    }
    let (line, later) = cut(script, b'\n');
    let later = later.unwrap_or(&[]);
    if line != b"open".as_slice() {
        return Some((Entry::Line(line), later));
    }
    let extent = block_extent(later);
    Some((Entry::Block(&later[..extent]), &later[extent..]))
}

/// How many bytes of the text are its first block: those up to its line `end`, or else all.
fn block_extent(text: &[u8]) -> usize
    ensures value { result ≡ block_extent text.now }
    ensures within { result ≤ length text.now }
{
    block_len(text).unwrap_or(text.len())
}
