//! Rooms with the blocks that say them.
ghost use Rattle.std.specs.Prelude.{◌≡◌, ◌<◌, ◌∷◌, ◌++◌, [], Ok, IsFalse, OnOk, OnErr, Some, length, slice_get};
ghost use Rattle.room_spec.specs.Rooms.{RoomSpec};
ghost use Rattle.history_checker.specs.Verdicts.{has_room};
ghost use Rattle.room_files.specs.BlockLists.{IsBlockAt, whole_block};
ghost use Rattle.room_files.specs.Kinds.{block_of};
ghost use Rattle.room_files.specs.declared.kinds.Kinds.TheVariants.{All};

use crate::blocks::Opens;
use crate::spec_list::SpecList;
use io_text::Text;
use room_spec::{Name, Spec};
use std::alloc::{AllocError, Global};
use std::marker::Model;

/// Rooms in order of adding, of which no two have the same name, each with its block.
#[derive(Drop)]
pub struct BlockList {
    rooms: SpecList,
    blocks: Vec<Text>,
}

impl Model for BlockList {
    ghost use Rattle.std.specs.Coded.{codes};
    ghost use Rattle.protocol_lang.specs.Codes.{expression_code};
    ghost use Rattle.room_files.specs.BlockLists.{AreBlocks, RoomBlocks};

    ghost Value = { RoomBlocks };

    ghost coded = { Prim.hlevel (codes, expression_code) };

    ghost view = { λ list. record { rooms = list.rooms; blocks = list.blocks.items } };

    ghost invariant = { λ list. AreBlocks list.rooms list.blocks.items };
}

impl BlockList {
    /// No rooms.
    pub fn new(alloc: Global) -> BlockList
        ensures { result.rooms ≡ [] }
    {
        BlockList {
            rooms: SpecList::new(alloc),
            blocks: Vec::new(alloc),
        }
    }

    /// How many rooms there are.
    #[tactic(auto, using(crate::proofs::BlockLists::as_many))]
    pub fn len(&self) -> usize
        ensures { result ≡ length self.now.rooms }
    {
        self.blocks.len()
    }

    /// The block of the room of this index.
    pub fn block(&self, index: usize) -> &[u8]
        requires { index < length self.now.rooms }
        ensures { IsBlockAt self.now.rooms index result.now }
    {
        self.blocks[index].as_bytes()
    }

    /// Adds a room whose name no other has. An `Err` changes nothing.
    #[tactic(auto, using(crate::proofs::BlockLists::one_block_more))]
    fn push(&mut self, alloc: Global, spec: Spec, block: &[u8]) -> Result<(), AllocError>
        requires free { IsFalse (has_room spec.name self.old.rooms) }
        requires block { block_of All block.now ≡ Ok (spec, length block.now) }
        ensures added { OnOk result (self.new.rooms ≡ self.old.rooms ++ spec ∷ []) }
        ensures err { OnErr result (self.new ≡ self.old) }
    {
        let mut copy = Text::new(alloc);
        copy.put(block)?;
        self.blocks.reserve(1)?;
        self.rooms.push(spec)?;
        self.blocks.push_reserved(copy);
        Ok(())
    }
}

impl Opens for BlockList {
    ghost specs = { λ list. list.rooms };

    ghost is_unfed = { λ list. Unit {0} };

    fn has(&self, name: &Name) -> bool {
        self.rooms.has(name)
    }

    fn push(&mut self, alloc: Global, spec: Spec, block: &[u8]) -> Result<(), AllocError> {
        BlockList::push(self, alloc, spec, block)
    }
}

/// Writes a block, and a line end if it has none at its end.
pub fn write_block(output: &mut Text, block: &[u8]) -> Result<(), AllocError>
    ensures { OnOk result (output.new ≡ output.old ++ whole_block block.now) }
{
    output.put(block)?;
    if block.ends_with(b"\n") {
        return Ok(());
    }
    output.put(b"\n")
}
