//! A room with other inputs than its own.
ghost use Rattle.std.specs.Prelude.{◌≡◌, ◌++◌, true, IfOk, Ok, OnOk, length};
ghost use Rattle.std.specs.List.{list_all};
ghost use Rattle.io_text.specs.Numbers.{numbers_text};
ghost use Rattle.room_spec.specs.Blocks.{block_in};
ghost use Rattle.room_spec.specs.Grammar.{IsBlock, line_end};
ghost use Rattle.room_spec.specs.Rooms.{is_value, processes, with_inputs};
ghost use Rattle.run_blocks.specs.Blocks.{IsRoomBlock, block_with, inputs_line, room_block};

use crate::reading::read_again;
use crate::run::run_block;
use io_text::Text;
use room_files::split_line;
use room_spec::Spec;
use std::alloc::{AllocError, Global};

/// The ordinary room whose processes have these inputs, and a block that says it, by the block of a room of either kind.
///
/// # Errors
///
/// An allocation that fails.
pub fn room_with(
    alloc: Global,
    spec: &Spec,
    block: &[u8],
    inputs: &[u32],
) -> Result<(Spec, Text), AllocError>
    requires block { IsRoomBlock block.now spec.now }
    requires inputs { length inputs.now ≡ processes spec.now }
    ensures room { IfOk result (λ with. with.0 ≡ with_inputs spec.now inputs.now) }
    ensures block { IfOk result (λ with. with.1 ≡ room_block spec.now block.now inputs.now) }
    ensures says { IfOk result (λ with. block_in with.1 ≡ Ok (with.0, length with.1)) }
    ensures valid { IfOk result (λ with. IsBlock with.1 with.0 (length with.1)) }
{
    let text = room_block(alloc, spec, block, inputs)?;
    let room = read_again(alloc, text.as_bytes())?;
    Ok((room, text))
}

/// The block of that room.
fn room_block(alloc: Global, spec: &Spec, block: &[u8], inputs: &[u32]) -> Result<Text, AllocError>
    requires block { IsRoomBlock block.now spec.now }
    requires inputs { length inputs.now ≡ processes spec.now }
    ensures text { IfOk result (λ text. text ≡ room_block spec.now block.now inputs.now) }
    ensures valid { IfOk result (λ text. IsBlock text (with_inputs spec.now inputs.now) (length text)) }
{
    if spec.is_reduction() {
        return run_block(alloc, spec, block, inputs);
    }
    let text = block_with(alloc, block, inputs)?;
    Ok(text)
}

/// The block with these inputs on its third line.
fn block_with(alloc: Global, block: &[u8], inputs: &[u32]) -> Result<Text, AllocError>
    ensures text { IfOk result (λ text. text ≡ block_with block.now inputs.now) }
    ensures small { IfOk result (λ _. list_all is_value inputs.now ≡ true) }
{
    let (version, later) = split_line(block);
    let (name, later) = split_line(later);
    let (_inputs, later) = split_line(later);
    let mut text = Text::new(alloc);
    text.put_two(version, b"\n")?;
    text.put_two(name, b"\n")?;
    put_inputs_line(&mut text, inputs)?;
    text.put(later)?;
    Ok(text)
}

/// Writes the line that says these inputs.
pub(crate) fn put_inputs_line(output: &mut Text, inputs: &[u32]) -> Result<(), AllocError>
    ensures text { OnOk result (output.new ≡ output.old ++ (inputs_line inputs.now ++ line_end)) }
    ensures small { OnOk result (list_all is_value inputs.now ≡ true) }
{
    output.put(b"inputs")?;
    put_inputs(output, inputs)?;
    output.put(b"\n")
}

/// Writes each of these inputs after a space.
///
/// # Errors
///
/// An allocation that fails.
pub fn put_inputs(output: &mut Text, inputs: &[u32]) -> Result<(), AllocError>
    ensures text { OnOk result (output.new ≡ output.old ++ numbers_text inputs.now) }
    // Each is a value, which its type says.
    ensures small { OnOk result (list_all is_value inputs.now ≡ true) }
{
    for input in inputs {
        output.put_spaced_number(u64::from(*input))?;
    }
    Ok(())
}
