//! A single outcome, as text.
ghost use Rattle.std.specs.Prelude.{◌≡◌, ◌++◌, OnOk, length};
ghost use Rattle.view_outcomes.specs.Listing.{chosen};
ghost use Rattle.view_outcomes.specs.Texts.{alone_text, count_words, none_line};

use crate::listing::{Listed, chosen};
use crate::text::write_transcript_if;
use io_text::Text;
use std::alloc::AllocError;

/// Writes a transcript of the outcome of this number in a list; or, if there is none, how many outcomes there are.
pub fn write_alone(
    output: &mut Text,
    name: &[u8],
    block: &[u8],
    number: u32,
    all: &[Listed],
) -> Result<(), AllocError>
    ensures { OnOk result (output.new ≡ output.old ++ alone_text name.now block.now number (length all.now) (chosen number all.now)) }
{
    match chosen(all, number) {
        None => write_none(output, name, number, all.len()),
        Some(one) => write_transcript_if(output, name, block, &one.events),
    }
}

/// Writes how many outcomes there are, none of which has this number.
fn write_none(output: &mut Text, name: &[u8], number: u32, count: usize) -> Result<(), AllocError>
    ensures { OnOk result (output.new ≡ output.old ++ none_line name.now number count) }
{
    write_count(output, name, count)?;
    output.put_spaced_number(u64::from(number))?;
    output.put(b"\n")
}

fn write_count(output: &mut Text, name: &[u8], count: usize) -> Result<(), AllocError>
    ensures { OnOk result (output.new ≡ output.old ++ count_words name.now count) }
{
    output.put_two(name, b" has")?;
    output.put_spaced_number(count as u64)?;
    output.put(b" outcomes, and none has the number")
}
