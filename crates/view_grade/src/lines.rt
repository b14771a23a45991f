//! The lines of a script's entries.
ghost use Rattle.std.specs.Prelude.{◌≡◌, ◌≤◌, length};
ghost use Rattle.room_files.specs.Blocks.{block_extent};
ghost use Rattle.script_play.specs.Script.{block_after, is_open, text_after};
ghost use Rattle.view_grade.specs.Keeping.{line_at, next_number};

use room_files::{count_lines, split_line};
use room_spec::block_len;

/// The first line of the entry of this index, from 0.
pub(crate) fn line_at(script: &[u8], index: u64) -> u64
    ensures { result ≡ line_at script.now index }
{
    let mut rest = script;
    let mut number = 1;
    let mut left = index;
    'walk: while !rest.is_empty() {
        if left == 0 {
            return number;
        }
        let (line, later) = split_line(rest);
        number = next_number(number, line, later);
        rest = text_after(line, later);
        left -= 1;
    }
    number
}

/// The line of what comes after an entry that begins with a line of this number, which `later` follows.
fn next_number(number: u64, line: &[u8], later: &[u8]) -> u64
    ensures { result ≡ next_number number line.now later.now }
{
    number.saturating_add(1 + count_lines(block_after(line, later)))
}

/// The block that belongs to a line, which `later` follows.
fn block_after<'a>(line: &[u8], later: &'a [u8]) -> &'a [u8]
    ensures { result.now ≡ block_after line.now later.now }
{
    if is_open(line) {
        &later[..block_extent(later)]
    } else {
        &[]
    }
}

/// What comes after a line and its block.
fn text_after<'a>(line: &[u8], later: &'a [u8]) -> &'a [u8]
    ensures text { result.now ≡ text_after line.now later.now }
    ensures within { length result.now ≤ length later.now }
{
    if is_open(line) {
        &later[block_extent(later)..]
    } else {
        later
    }
}

fn is_open(line: &[u8]) -> bool
    ensures { result ≡ is_open line.now }
{
    line == b"open".as_slice()
}

/// How many bytes of the text are its first block: those up to its line `end`, or else all.
fn block_extent(text: &[u8]) -> usize
    ensures value { result ≡ block_extent text.now }
    ensures within { result ≤ length text.now }
{
    block_len(text).unwrap_or(text.len())
}
