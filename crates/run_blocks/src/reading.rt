//! The room that a block says.
ghost use Rattle.std.specs.Prelude.{◌≡◌, IfOk, Ok, length};
ghost use Rattle.room_spec.specs.Blocks.{block_in};
ghost use Rattle.room_spec.specs.Grammar.{IsBlock};
ghost use Rattle.room_spec.specs.Rooms.{RoomSpec};
ghost use Rattle.room_files.specs.Kinds.{block_of};
ghost use Rattle.room_files.specs.declared.kinds.Kinds.TheVariants.{All};
ghost use Rattle.run_blocks.specs.Blocks.{IsRoomBlock};

use room_spec::{Spec, SpecFault, read_block, read_reduction};
use std::alloc::{AllocError, Global};

/// The room that a block says, of either kind.
///
/// # Errors
///
/// An allocation that fails.
pub fn room_of(alloc: Global, block: &[u8]) -> Result<Spec, AllocError>
    requires { (spec : RoomSpec) × (block_of All block.now ≡ Ok (spec, length block.now)) }
    ensures says { IfOk result (λ spec. block_of All block.now ≡ Ok (spec, length block.now)) }
    ensures block { IfOk result (λ spec. IsRoomBlock block.now spec) }
{
    match read_block(alloc, block) {
        Ok((spec, _)) => Ok(spec),
        Err(SpecFault::BadLine(1)) => reduction_of(alloc, block),
        Err(_) => Err(AllocError), // the block is valid, so an allocation failed
    }
}

/// The same of a block that isn't an ordinary room's.
fn reduction_of(alloc: Global, block: &[u8]) -> Result<Spec, AllocError>
    requires { (spec : RoomSpec) × (block_of All block.now ≡ Ok (spec, length block.now)) }
    ensures says { IfOk result (λ spec. block_of All block.now ≡ Ok (spec, length block.now)) }
    ensures block { IfOk result (λ spec. IsRoomBlock block.now spec) }
{
    match read_reduction(alloc, block) {
        Ok((spec, _)) => Ok(spec),
        Err(_) => Err(AllocError), // the block is valid, so an allocation failed
    }
}

/// The same of a text that is a block by the grammar.
pub(crate) fn read_again(alloc: Global, text: &[u8]) -> Result<Spec, AllocError>
    requires { (room : RoomSpec) × IsBlock text.now room (length text.now) }
    ensures says { IfOk result (λ spec. block_in text.now ≡ Ok (spec, length text.now)) }
    ensures exact { (room : RoomSpec) → IsBlock text.now room (length text.now) → IfOk result (λ spec. spec ≡ room) }
{
    match read_block(alloc, text) {
        Ok((spec, _)) => Ok(spec),
        Err(_) => Err(AllocError), // the block is valid, so an allocation failed
    }
}
