//! The whole of a reader's bytes.
ghost use Rattle.io_text.specs.Ends.{is_read_failed};
ghost use Rattle.std.specs.Prelude.{◌≡◌, ◌||◌, ◌+◌, ◌≤◌, ◌<◌, false, IfOk, IfErr, IfSome, length};
ghost use Rattle.io_text.specs.Reading.{IsPiece, IsReadFault, IsWholeInput, MayEnd, most_bytes};

use crate::copies::append;
use crate::device::Device;
use crate::fault::DeviceFault;
use std::alloc::{AllocError, Global};
use std::io::Read;

/// The most bytes that an input has.
pub const MAX_INPUT: usize = 16777216;

/// How many bytes a read asks for.
const PIECE: usize = 65536;

/// Reads to the end.
pub fn read_input<R: Read>(alloc: Global, reader: &mut Device<R>) -> Result<Vec<u8>, DeviceFault>
    requires { reader.old.failed ≡ false }
    ensures whole { IfSome (R.remaining reader.old.inner) (λ input. IsWholeInput input result) }
    ensures short { IfOk result (λ text. length text.items ≤ most_bytes) }
    ensures err { IfErr result IsReadFault }
    ensures failed { reader.new.failed ≡ is_read_failed result }
    ensures reads { reader.new.calls ≤ reader.old.calls + most_bytes + 1 }
    // Each read but the last gives a byte at least.
    ensures few { IfSome (R.remaining reader.old.inner) (λ input. reader.new.calls ≤ reader.old.calls + length input + 1) }
    // Once the reader has said that nothing is left it is not asked again.
    ensures once { reader.old.ended ≡ false → reader.new.asked_past_end ≡ reader.old.asked_past_end }
{
    let mut piece = empty_piece(alloc)?;
    let mut text = Vec::new(alloc);
    while read_piece(reader, &mut piece, &mut text)? > 0 {}
    Ok(text)
}

fn empty_piece(alloc: Global) -> Result<Vec<u8>, AllocError>
    ensures { IfOk result (λ piece. 0 < length piece.items) }
{
    vec![in alloc; 0; PIECE]
}

/// Makes one read, and appends what it gave to the text.
fn read_piece<R: Read>(
    reader: &mut Device<R>,
    piece: &mut [u8],
    text: &mut Vec<u8>,
) -> Result<usize, DeviceFault>
    requires room { 0 < length piece.old }
    requires short { length text.old.items ≤ most_bytes }
    ensures given { IfOk result (IsPiece (R.remaining reader.old.inner) (R.remaining reader.new.inner) text.old.items text.new.items) }
    ensures short { IfOk result (λ count. length text.new.items ≤ most_bytes) }
    ensures err { IfErr result (MayEnd (R.remaining reader.old.inner) text.old.items) }
    ensures failed { reader.new.failed ≡ (reader.old.failed || is_read_failed result) }
    ensures grows { IfOk result (λ count. length text.new.items ≡ length text.old.items + count) }
    ensures reads { reader.new.calls ≤ reader.old.calls + 1 }
    ensures goes_on { IfOk result (λ count. 0 < count → reader.new.ended ≡ reader.old.ended) }
    ensures asked { reader.new.asked_past_end ≡ (reader.old.asked_past_end || reader.old.ended) }
{
    let Ok(count) = reader.read(piece) else {
        return Err(DeviceFault::Read);
    };
    if count > MAX_INPUT - text.len() {
        return Err(DeviceFault::TooLong);
    }
    append(text, &piece[..count])?;
    Ok(count)
}
