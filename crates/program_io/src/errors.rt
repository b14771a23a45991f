//! What a program says on standard error. Nothing of it needs memory.
ghost use Rattle.std.specs.Prelude.{◌≡◌, ◌++◌, ◌||◌, OnOk, codes, decimal, is_err};
ghost use Rattle.std.specs.Io.KnownBytes.{Appends};
ghost use Rattle.program_io.specs.Errors.{place_words};

use io_text::{Device, DeviceFault, write_output};
use itoa::Buffer;
use std::io::Write;

/// Writes two texts.
pub fn say_both<E: Write>(
    errors: &mut Device<E>,
    first: &[u8],
    second: &[u8],
) -> Result<(), DeviceFault>
    ensures said { OnOk result (Appends (E.contents errors.old.inner) (E.contents errors.new.inner) (first.now ++ second.now)) }
    ensures failed { errors.new.failed ≡ (errors.old.failed || is_err result) }
{
    write_output(errors, first)?;
    write_output(errors, second)
}

/// Writes a number, and a text after it.
pub fn say_number<E: Write>(
    errors: &mut Device<E>,
    number: u64,
    rest: &[u8],
) -> Result<(), DeviceFault>
    ensures said { OnOk result (Appends (E.contents errors.old.inner) (E.contents errors.new.inner) (decimal number ++ rest.now)) }
    ensures failed { errors.new.failed ≡ (errors.old.failed || is_err result) }
{
    let mut buffer = Buffer::new();
    say_both(errors, buffer.format(number).as_bytes(), rest)
}

/// Says on which line an input has a fault, and the fault's number.
pub fn say_place<E: Write>(errors: &mut Device<E>, line: u64, code: u16) -> Result<(), DeviceFault>
    ensures said { OnOk result (Appends (E.contents errors.old.inner) (E.contents errors.new.inner) (place_words line code)) }
    ensures failed { errors.new.failed ≡ (errors.old.failed || is_err result) }
{
    write_output(errors, b"line ")?;
    say_numbers(errors, line, code)
}

fn say_numbers<E: Write>(errors: &mut Device<E>, line: u64, code: u16) -> Result<(), DeviceFault>
    ensures said { OnOk result (Appends (E.contents errors.old.inner) (E.contents errors.new.inner) ((decimal line ++ codes ": fault ") ++ decimal code)) }
    ensures failed { errors.new.failed ≡ (errors.old.failed || is_err result) }
{
    say_number(errors, line, b": fault ")?;
    let mut buffer = Buffer::new();
    write_output(errors, buffer.format(code).as_bytes())
}
