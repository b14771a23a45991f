//! Pieces of text.
ghost use Rattle.std.specs.Prelude.{◌≡◌, ◌≤◌, ◌-◌, ◌++◌, OnOk, codes, decimal, length, max, replicate};
ghost use Rattle.step_words.specs.Pieces.{behind, between, further, with_three, with_two};

use io_text::Text;
use itoa::Buffer;
use std::alloc::AllocError;

/// Appends a number's digits to the text.
pub(crate) fn write_digits(output: &mut Text, number: u64) -> Result<(), AllocError>
    ensures { OnOk result (output.new ≡ output.old ++ decimal number) }
{
    let mut buffer = Buffer::new();
    output.put(buffer.format(number).as_bytes())
}

/// Puts spaces after what follows the first `from` bytes, up to a width of at most 48, and one at least.
pub(crate) fn pad(output: &mut Text, from: usize, width: usize) -> Result<(), AllocError>
    requires from { from ≤ length output.old }
    requires width { width ≤ 48 }
    ensures { OnOk result (output.new ≡ output.old ++ replicate (max (width - (length output.old - from)) 1) 32) }
{
    let spaces = [b' '; 48];
    let missing = width.saturating_sub(output.as_bytes().len() - from).max(1);
    output.put(&spaces[..missing])
}

/// Appends words and a number to the text.
pub(crate) fn write_number(output: &mut Text, before: &[u8], number: u64) -> Result<(), AllocError>
    ensures { OnOk result (output.new ≡ output.old ++ behind before.now number) }
{
    output.put(before)?;
    output.put_spaced_number(number)
}

/// Appends words, a number and more words to the text.
pub(crate) fn write_between(
    output: &mut Text,
    before: &[u8],
    number: u64,
    after: &[u8],
) -> Result<(), AllocError>
    ensures { OnOk result (output.new ≡ output.old ++ between before.now number after.now) }
{
    write_number(output, before, number)?;
    output.put(after)
}

/// Appends the name of a field and its first number to the text.
fn write_first(output: &mut Text, name: &[u8], number: usize) -> Result<(), AllocError>
    ensures { OnOk result (output.new ≡ output.old ++ (name.now ++ (codes "(" ++ decimal number))) }
{
    output.put_two(name, b"(")?;
    write_digits(output, number as u64)
}

/// Appends a further number of a field to the text.
fn write_further(output: &mut Text, number: usize) -> Result<(), AllocError>
    ensures { OnOk result (output.new ≡ output.old ++ further number) }
{
    output.put(b",")?;
    write_digits(output, number as u64)
}

/// Appends the name of a field with two numbers to the text.
pub(crate) fn write_with_two(
    output: &mut Text,
    name: &[u8],
    one: usize,
    two: usize,
) -> Result<(), AllocError>
    ensures { OnOk result (output.new ≡ output.old ++ with_two name.now one two) }
{
    write_first(output, name, one)?;
    write_further(output, two)?;
    output.put(b")")
}

/// Appends the name of a field with three numbers to the text.
pub(crate) fn write_with_three(
    output: &mut Text,
    name: &[u8],
    one: usize,
    two: usize,
    three: usize,
) -> Result<(), AllocError>
    ensures { OnOk result (output.new ≡ output.old ++ with_three name.now one two three) }
{
    write_first(output, name, one)?;
    write_further(output, two)?;
    write_further(output, three)?;
    output.put(b")")
}
