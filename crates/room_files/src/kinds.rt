//! Which kinds of room blocks are read.
ghost use Rattle.std.specs.Prelude.{◌≡◌, IfErr, IfOk, false, true};
ghost use Rattle.room_spec.specs.Blocks.{MayLackAtBy, OrMemory};
ghost use Rattle.room_files.specs.Kinds.{LacksMemoryOf, ReadsBlock, ReadsBlockBy, RefusedMemoryBy, begins_ordinary, block_of, reads_reduction, text_in_lines};

use protocol_lang::ParseFault;
use room_spec::{Block, Protocols, Spec, SpecFault, cut_near, read_block, read_reduction};
use std::alloc::{AllocError, Global};

/// The first line of a reduction's block.
const REDUCTION: &[u8] = b"reduction 1";

/// Which kinds of room blocks are read.
#[derive(Clone, Copy, Debug, PartialEq, Eq)]
pub enum Kinds {
    /// Those of ordinary rooms. The first line of a reduction is a fault.
    Ordinary,
    /// Those of reductions too.
    All,
}

impl Kinds {
    /// Whether this text is read as the block of a reduction.
    fn reads_reduction(self, text: &[u8]) -> bool
        ensures { result ≡ reads_reduction self text.now }
    {
        match self {
            Kinds::Ordinary => false,
            Kinds::All => cut_near(text, b'\n').0 == REDUCTION,
        }
    }
}

/// What a block of these kinds says, and how long it is, or its first fault. `Err` is an allocation for its protocol that failed.
pub fn read_room(
    alloc: Global,
    kinds: Kinds,
    block: &[u8],
) -> Result<Result<(Spec, usize), SpecFault>, AllocError>
    ensures read { IfOk result (λ read. read ≡ block_of kinds block.now) }
    // An allocation that fails hides no fault that is found before it.
    ensures lacks { IfErr result (λ _. LacksMemoryOf kinds block.now) }
{
    match read_by(alloc, kinds, block) {
        Err(SpecFault::BadProtocol(ParseFault::OutOfMemory)) => Err(AllocError),
        read => Ok(read),
    }
}

/// The same, with that allocation as a fault.
fn read_by(alloc: Global, kinds: Kinds, block: &[u8]) -> Result<(Spec, usize), SpecFault>
    ensures { OrMemory (MayLackAtBy (text_in_lines (reads_reduction kinds block.now)) block.now) result (block_of kinds block.now) }
{
    if kinds.reads_reduction(block) {
        read_reduction(alloc, block)
    } else {
        read_block(alloc, block)
    }
}

/// The same for one of several blocks, which share protocols.
#[inline]
pub(crate) fn read_lines<'a>(
    alloc: Global,
    kinds: Kinds,
    block: &Block<'a>,
    protocols: &mut Protocols<'a>,
) -> Result<Result<Spec, SpecFault>, AllocError>
    ensures read { IfOk result (λ read. ReadsBlock kinds block.now read) }
    // An allocation that fails hides no fault that is found before it.
    ensures lacks { IfErr result (λ _. LacksMemoryOf kinds block.now) }
{
    if kinds.reads_reduction(block.text()) {
        read_reduction_lines(alloc, block, protocols)
    } else {
        read_ordinary_lines(alloc, block, protocols)
    }
}

/// The same for one that isn't read as a reduction's. One whose first line begins no ordinary room is refused at once.
#[inline]
fn read_ordinary_lines<'a>(
    alloc: Global,
    block: &Block<'a>,
    protocols: &mut Protocols<'a>,
) -> Result<Result<Spec, SpecFault>, AllocError>
    ensures read { IfOk result (λ read. ReadsBlockBy false block.now read) }
    ensures lacks { IfErr result (λ _. RefusedMemoryBy false block.now) }
{
    let _ = block.lines(); // for the proof: it has a line `end`
    if !begins_ordinary(block.text()) {
        return Ok(Err(SpecFault::BadLine(1)));
    }
    match block.read(alloc, protocols) {
        Err(SpecFault::BadProtocol(ParseFault::OutOfMemory)) => Err(AllocError),
        read => Ok(read),
    }
}

/// Whether the first line of a block is that of an ordinary room.
fn begins_ordinary(block: &[u8]) -> bool
    ensures { result ≡ begins_ordinary block.now }
{
    block.starts_with(b"bgsim 1\n") || block.starts_with(b"bgsim 2\n")
}

/// The same for one that is read as a reduction's.
#[cold]
#[inline(never)]
fn read_reduction_lines<'a>(
    alloc: Global,
    block: &Block<'a>,
    protocols: &mut Protocols<'a>,
) -> Result<Result<Spec, SpecFault>, AllocError>
    ensures read { IfOk result (λ read. ReadsBlockBy true block.now read) }
    ensures lacks { IfErr result (λ _. RefusedMemoryBy true block.now) }
{
    match block.read_reduction(alloc, protocols) {
        Err(SpecFault::BadProtocol(ParseFault::OutOfMemory)) => Err(AllocError),
        read => Ok(read),
    }
}
