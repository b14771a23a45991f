//! Laws of blocks with other inputs. Each is what its function ensures.
ghost use Rattle.std.specs.Prelude.{◌≡◌, ℕ, List, true, length};
ghost use Rattle.std.specs.List.{list_all};
ghost use Rattle.room_spec.specs.Grammar.{IsBlock, IsReductionBlock};
ghost use Rattle.room_spec.specs.Rooms.{RoomSpec, is_value, processes, with_inputs};
ghost use Rattle.run_blocks.specs.Blocks.{block_with, run_block};

/// A block with other inputs on its third line says the room with these inputs, and in all else the same room.
pub fn other_inputs_are_said()
    ensures { (block : List ℕ) (room : RoomSpec) (inputs : List ℕ) →
        IsBlock block room (length block) → length inputs ≡ processes room → list_all is_value inputs ≡ true →
        IsBlock (block_with block inputs) (with_inputs room inputs) (length (block_with block inputs)) }
{}

/// The block of a run of a reduction says the ordinary room whose processes have the inputs of the run, and in all else the same room.
pub fn runs_are_said()
    ensures { (block : List ℕ) (room : RoomSpec) (inputs : List ℕ) →
        IsReductionBlock block room (length block) → length inputs ≡ processes room → list_all is_value inputs ≡ true →
        IsBlock (run_block block room.simulators inputs) (with_inputs room inputs) (length (run_block block room.simulators inputs)) }
{}
