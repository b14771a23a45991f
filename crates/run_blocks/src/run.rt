//! The block of a run of a reduction.
ghost use Rattle.std.specs.Prelude.{◌≡◌, ◌∷◌, ◌++◌, true, IfOk, Ok, OnOk, codes, decimal, length};
ghost use Rattle.std.specs.List.{list_all};
ghost use Rattle.room_spec.specs.Blocks.{block_in};
ghost use Rattle.room_spec.specs.Grammar.{IsBlock, IsReductionBlock, line_end};
ghost use Rattle.room_spec.specs.Rooms.{is_value, processes, with_inputs};
ghost use Rattle.run_blocks.specs.Blocks.{run_block};

use crate::inputs::put_inputs_line;
use crate::reading::read_again;
use io_text::Text;
use room_files::split_line;
use room_spec::Spec;
use std::alloc::{AllocError, Global};

/// The block of the ordinary room whose processes have these inputs, if this is the block of a reduction: that of a run of it, in which its
/// simulators have agreed on them. All lines but the first, the third and the fourth are the reduction's.
///
/// # Errors
///
/// An allocation that fails.
pub fn run_block(
    alloc: Global,
    spec: &Spec,
    block: &[u8],
    inputs: &[u32],
) -> Result<Text, AllocError>
    requires block { IsReductionBlock block.now spec.now (length block.now) }
    requires inputs { length inputs.now ≡ processes spec.now }
    ensures text { IfOk result (λ text. text ≡ run_block block.now spec.now.simulators inputs.now) }
    ensures says { IfOk result (λ text. block_in text ≡ Ok (with_inputs spec.now inputs.now, length text)) }
    ensures valid { IfOk result (λ text. IsBlock text (with_inputs spec.now inputs.now) (length text)) }
{
    let text = text_of(alloc, spec.m(), block, inputs)?;
    let _room = read_again(alloc, text.as_bytes())?; // for the proof: it is read as the block of that room
    Ok(text)
}

/// Its text, by the number of simulators.
fn text_of(
    alloc: Global,
    simulators: usize,
    block: &[u8],
    inputs: &[u32],
) -> Result<Text, AllocError>
    ensures text { IfOk result (λ text. text ≡ run_block block.now simulators inputs.now) }
    ensures small { IfOk result (λ _. list_all is_value inputs.now ≡ true) }
{
    let (_kind, later) = split_line(block);
    let (name, later) = split_line(later);
    let (_own, later) = split_line(later);
    let (_processes, later) = split_line(later);
    let mut text = Text::new(alloc);
    text.put(b"bgsim 2\n")?;
    text.put_two(name, b"\n")?;
    put_inputs_line(&mut text, inputs)?;
    put_simulators(&mut text, simulators)?;
    text.put(later)?;
    Ok(text)
}

/// Writes the line that says how many simulators there are.
fn put_simulators(output: &mut Text, simulators: usize) -> Result<(), AllocError>
    ensures { OnOk result (output.new ≡ output.old ++ ((codes "simulators" ++ (32 ∷ decimal simulators)) ++ line_end)) }
{
    output.put(b"simulators")?;
    output.put_spaced_number(simulators as u64)?;
    output.put(b"\n")
}
