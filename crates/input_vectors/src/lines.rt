//! What is written of vectors of inputs, whatever they are judged by.
ghost use Rattle.std.specs.Prelude.{◌≡◌, ◌∷◌, ◌++◌, OnOk, codes, decimal};
ghost use Rattle.input_vectors.specs.Lines.{too_many_line, vector_words, vectors_line};

use io_text::Text;
use run_blocks::put_inputs;
use std::alloc::AllocError;

/// Writes what the line of a vector begins with: the room's name and its inputs.
///
/// # Errors
///
/// An allocation that fails.
pub fn write_vector_words(output: &mut Text, name: &[u8], inputs: &[u32]) -> Result<(), AllocError>
    ensures { OnOk result (output.new ≡ output.old ++ vector_words name.now inputs.now) }
{
    output.put_two(name, b" inputs")?;
    put_inputs(output, inputs)
}

/// Writes for how many of how many vectors the task is kept, as these words say it.
///
/// # Errors
///
/// An allocation that fails.
pub fn write_vectors_line(
    output: &mut Text,
    name: &[u8],
    words: &[u8],
    kept: usize,
    count: usize,
) -> Result<(), AllocError>
    ensures { OnOk result (output.new ≡ output.old ++ vectors_line name.now words.now kept count) }
{
    output.put_two(name, words)?;
    output.put_spaced_number(kept as u64)?;
    write_of(output, count)
}

fn write_of(output: &mut Text, count: usize) -> Result<(), AllocError>
    ensures { OnOk result (output.new ≡ output.old ++ (codes " of" ++ ((32 ∷ decimal count) ++ codes " vectors of inputs\n"))) }
{
    output.put(b" of")?;
    output.put_spaced_number(count as u64)?;
    output.put(b" vectors of inputs\n")
}

/// Writes that there are more vectors of this number of values than a room is judged with.
///
/// # Errors
///
/// An allocation that fails.
pub fn write_too_many(output: &mut Text, name: &[u8], values: usize) -> Result<(), AllocError>
    ensures { OnOk result (output.new ≡ output.old ++ too_many_line name.now values) }
{
    output.put_two(name, b" has more than 65536 vectors of")?;
    output.put_spaced_number(values as u64)?;
    output.put(b" values: none is tried; give fewer values, or a room of fewer processes\n")
}
