//! Room blocks, and where they end.
ghost use Rattle.std.specs.Prelude.{◌≡◌, ◌≢◌, ℕ, IfNone, All, ◌+◌, ◌≤◌, suc, length, take, IfOk, IfErr, IfSome, None, Some, Ok, codes};
ghost use Rattle.std.specs.List.{position};
ghost use Rattle.std.specs.Option.{option_map};
ghost use Rattle.room_spec.specs.Rooms.{RoomSpec};
ghost use Rattle.room_spec.specs.Texts.{lines_of};
ghost use Rattle.room_spec.specs.Grammar.{EndsAt, IsBlock, IsReductionBlock, IsLocal, IsReductionLocal, IsOfText, IsFirstFault, IsReductionFirstFault};
ghost use Rattle.room_spec.specs.Blocks.{body_len, is_end, block_len, block_in, reduction_block_in, reduction_text_in, GivesOrMemory, MayLackAt, MayLackAtBy, OrMemory, UnlessMemory};

use crate::block_lines::{read_lines, read_reduction_lines};
use crate::fault::SpecFault;
use crate::protocols::Protocols;
use crate::spec::Spec;
use crate::text::cut;
use std::alloc::Global;
use std::marker::Model;

/// How many bytes a room block at the front of `text` takes: up to and with the first line `end`,
/// or `None` if there is no such line.
pub fn block_len(text: &[u8]) -> Option<usize>
    // It is the block's lines up to and with the first `end`.
    ensures ends { IfSome result (λ len. EndsAt text.now len) }
    // Only that is a block.
    ensures complete { (len : ℕ) → EndsAt text.now len → result ≡ Some len }
    ensures none { IfNone result (All (λ line. line ≢ codes "end") (lines_of text.now)) }
    ensures exact { result ≡ block_len text.now }
{
    let block = Block::at_front(text)?;
    Some(block.text.len())
}

/// A room block, whose bytes end with its first line `end`. What its lines say isn't read yet.
#[derive(Drop)]
pub struct Block<'a> {
    text: &'a [u8],
    /// The lines before its line `end`.
    body: &'a [u8],
    /// How many lines it has, with that one.
    lines: usize,
}

impl<'a> Model for Block<'a> {
    ghost use Rattle.std.specs.Prelude.{ℕ, List};
    ghost use Rattle.room_spec.specs.Blocks.{IsEnded};

    ghost Value = { List ℕ };

    ghost view = { λ block. block.text.now };

    ghost invariant = { λ block. IsEnded block.text.now block.body.now block.lines };
}

impl<'a> Block<'a> {
    /// The block at the front of `text`, or `None` if no line is `end`.
    pub fn at_front(text: &'a [u8]) -> Option<Block<'a>>
        ensures block { IfSome result (λ block. (block_len text.now ≡ Some (length block)) × (block ≡ take (length block) text.now)) }
        ensures none { IfNone result (block_len text.now ≡ None) }
    {
        let end = find_end(text)?;
        let len = (end.body + 4).min(text.len());
        Some(Block {
            text: &text[..len],
            body: &text[..end.body],
            lines: end.lines,
        })
    }

    /// Its bytes.
    pub fn text(&self) -> &[u8]
        ensures { result.now ≡ self.now }
    {
        self.text
    }

    /// How many lines it has, with its line `end`.
    pub fn lines(&self) -> usize
        ensures lines { option_map suc (position is_end (lines_of self.now)) ≡ Some result }
        ensures whole { block_len self.now ≡ Some (length self.now) }
    {
        self.lines
    }

    /// Reads its lines. The fault is that of the first line that has one. Blocks with the same protocol's text share the protocol.
    pub fn read(&self, alloc: Global, protocols: &mut Protocols<'a>) -> Result<Spec, SpecFault>
        ensures { GivesOrMemory (MayLackAt self.now) (λ spec. (spec, length self.now)) result (block_in self.now) }
    {
        read_lines(alloc, self.body, protocols)
    }

    /// Reads its lines as those of a reduction: the simulators' own inputs, and how many processes there are.
    #[tactic(auto, using(crate::proofs::Fronts::reduction_says))]
    pub fn read_reduction(
        &self,
        alloc: Global,
        protocols: &mut Protocols<'a>,
    ) -> Result<Spec, SpecFault>
        ensures { GivesOrMemory (MayLackAtBy reduction_text_in self.now) (λ spec. (spec, length self.now)) result (reduction_block_in self.now) }
    {
        read_reduction_lines(alloc, self.body, protocols)
    }
}

/// Where the room block at the front of a text ends.
#[derive(Drop)]
struct BlockEnd {
    /// How many bytes are before its line `end`.
    body: usize,
    /// How many lines it has, with that one.
    lines: usize,
}

/// Finds where the room block at the front of `text` ends, or `None` if no line is `end`.
fn find_end(text: &[u8]) -> Option<BlockEnd>
    ensures body { option_map (λ end. end.body) result ≡ body_len text.now }
    // The lines up to and with the first `end`.
    ensures lines { option_map (λ end. end.lines) result ≡ option_map suc (position is_end (lines_of text.now)) }
    ensures within { IfSome result (λ end. end.body + 3 ≤ length text.now) }
{
    let mut rest = text;
    let mut lines = 1;
    loop {
        let (line, later) = cut(rest, b'\n');
        if is_end(line) {
            let body = text.len() - rest.len();
            return Some(BlockEnd { body, lines });
        }
        rest = later?;
        lines += 1;
    }
}

fn is_end(line: &[u8]) -> bool
    ensures { result ≡ is_end line.now }
{
    matches!(line, [b'e', b'n', b'd'])
}

/// Reads the room block at the front of `text`, and gives its length too. The fault is that of the
/// block's first line that has one.
pub fn read_block(alloc: Global, text: &[u8]) -> Result<(Spec, usize), SpecFault>
    // What is read is a block.
    ensures sound { IfOk result (λ read. IsBlock text.now read.0 read.1) }
    // What is a block is read.
    ensures complete { (room : RoomSpec) (len : ℕ) → IsBlock text.now room len → OrMemory (MayLackAt text.now) result (Ok (room, len)) }
    ensures within { IfOk result (λ read. read.1 ≤ length text.now) }
    // A fault rests on the lines up to its own,
    ensures local { IfErr result (λ fault. UnlessMemory fault (IsLocal text.now fault)) }
    // or on the protocol's text, or there is no line `end`.
    ensures of_text { IfErr result (λ fault. UnlessMemory fault (IsOfText text.now fault)) }
    // The lines before a fault's own begin some block; it can't follow them, or the protocol's text has its fault.
    ensures first { IfErr result (λ fault. UnlessMemory fault (IsFirstFault text.now fault)) }
    // Which fault it is. An allocation that fails hides none that is found before it.
    ensures exact { OrMemory (MayLackAt text.now) result (block_in text.now) }
{
    read_front(alloc, text)
}

fn read_front(alloc: Global, text: &[u8]) -> Result<(Spec, usize), SpecFault>
    ensures exact { OrMemory (MayLackAt text.now) result (block_in text.now) }
    ensures within { IfOk result (λ read. read.1 ≤ length text.now) }
{
    let mut protocols = Protocols::new(alloc);
    let block = Block::at_front(text).ok_or(SpecFault::Truncated)?;
    let spec = block.read(alloc, &mut protocols)?;
    Ok((spec, block.text.len()))
}

/// Reads the block of a reduction at the front of `text`, and gives its length too. In place of the processes' inputs its third
/// line has one of each simulator, and its fourth the number of processes; all else is as in a block of version 2. The fault is
/// that of the block's first line that has one.
pub fn read_reduction(alloc: Global, text: &[u8]) -> Result<(Spec, usize), SpecFault>
    // What is read is the block of a reduction.
    ensures sound { IfOk result (λ read. IsReductionBlock text.now read.0 read.1) }
    // What is one is read.
    ensures complete { (room : RoomSpec) (len : ℕ) → IsReductionBlock text.now room len → OrMemory (MayLackAtBy reduction_text_in text.now) result (Ok (room, len)) }
    ensures within { IfOk result (λ read. read.1 ≤ length text.now) }
    // A fault rests on the lines up to its own,
    ensures local { IfErr result (λ fault. UnlessMemory fault (IsReductionLocal text.now fault)) }
    // or on the protocol's text, or there is no line `end`.
    ensures of_text { IfErr result (λ fault. UnlessMemory fault (IsOfText text.now fault)) }
    // The lines before a fault's own begin some reduction's block; it can't follow them, or the protocol's text has its fault.
    ensures first { IfErr result (λ fault. UnlessMemory fault (IsReductionFirstFault text.now fault)) }
    // Which fault it is. An allocation that fails hides none that is found before it.
    ensures exact { OrMemory (MayLackAtBy reduction_text_in text.now) result (reduction_block_in text.now) }
{
    read_reduction_front(alloc, text)
}

fn read_reduction_front(alloc: Global, text: &[u8]) -> Result<(Spec, usize), SpecFault>
    ensures exact { OrMemory (MayLackAtBy reduction_text_in text.now) result (reduction_block_in text.now) }
    ensures within { IfOk result (λ read. read.1 ≤ length text.now) }
{
    let mut protocols = Protocols::new(alloc);
    let found = Block::at_front(text).ok_or(SpecFault::Truncated)?;
    let spec = found.read_reduction(alloc, &mut protocols)?;
    Ok((spec, found.text.len()))
}
