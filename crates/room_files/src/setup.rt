//! The blocks of an input with events, and of one that has nothing else.
ghost use Rattle.std.specs.Prelude.{◌≡◌, ◌+◌, ◌<◌, ◌^◌, ◌≤◌, Ok, IfOk, IfErr, length};
ghost use Rattle.room_files.specs.Blocks.{no_blocks, IsFaultOr};
ghost use Rattle.room_files.specs.Inputs.{all_blocks, blocks_in, BeginsWithBlock};
ghost use Rattle.io_text.specs.Reading.{most_bytes};

use crate::blocks::{Opens, Refuses, Setup};
use crate::fault::{InputFault, TextFault, bad_input};
use crate::kinds::Kinds;
use crate::lines::count_lines;
use room_spec::{Block, Protocols, cut_near};
use std::alloc::{AllocError, Global};

/// Takes the blocks of a transcript, of these kinds, up to the line `events`: what they say, and the text after that line.
///
/// # Errors
///
/// An input that ends before that line, or an allocation that failed.
#[tactic(auto, unfolding(crate::specs::Inputs::blocks_from))]
pub fn read_blocks<R: Opens, T: Refuses>(
    alloc: Global,
    kinds: Kinds,
    mut setup: Setup<R, T>,
    input: &[u8],
) -> Result<(Setup<R, T>, &[u8]), InputFault>
    requires new { setup ≡ no_blocks }
    requires short { length input.now ≤ most_bytes }
    ensures read { IfOk result (λ read. blocks_in kinds input.now ≡ Ok (read.0, read.1.now)) }
    ensures fits { IfOk result (λ read. read.0.line + length read.1.now < 2 ^ 64) }
    ensures err { IfErr result (IsFaultOr (BeginsWithBlock input.now) (blocks_in kinds input.now)) }
{
    let mut protocols = Protocols::new(alloc);
    let mut rest = input;
    loop {
        let (first, later) = cut_near(rest, b'\n');
        if first == b"events".as_slice() {
            setup.pass_lines(1);
            return Ok((setup, later.unwrap_or(&[])));
        }
        let Some(block) = Block::at_front(rest) else {
            return Err(bad_input(setup.line + count_lines(rest), TextFault::NoEvents));
        };
        setup.take(alloc, kinds, &block, &mut protocols)?;
        rest = &rest[block.text().len()..];
    }
}

/// Takes all blocks, of these kinds, of an input that has nothing else: what they say. If the last has no line `end`,
/// it is cut off, and refused. `Err` is an allocation that failed; an empty input needs none.
#[tactic(auto, unfolding(crate::specs::Inputs::all_blocks_from))]
pub fn read_all_blocks<R: Opens, T: Refuses>(
    alloc: Global,
    kinds: Kinds,
    mut setup: Setup<R, T>,
    input: &[u8],
) -> Result<Setup<R, T>, AllocError>
    requires new { setup ≡ no_blocks }
    requires short { length input.now ≤ most_bytes }
    ensures read { IfOk result (λ setup. setup ≡ all_blocks kinds input.now) }
    ensures lacks { IfErr result (λ _. 0 < length input.now) }
{
    let mut protocols = Protocols::new(alloc);
    let mut rest = input;
    while let Some(block) = Block::at_front(rest) {
        setup.take(alloc, kinds, &block, &mut protocols)?;
        rest = &rest[block.text().len()..];
    }
    if rest.is_empty() {
        return Ok(setup);
    }
    setup.refuse_rest(kinds, rest)?;
    Ok(setup)
}
