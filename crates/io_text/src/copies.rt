//! Long texts, copied in short pieces.
ghost use Rattle.std.specs.Prelude.{◌≡◌, ◌++◌, length, take, OnErr, OnOk};

use std::alloc::AllocError;

/// The most bytes that are copied at once. The C library copies them by vector registers, and more bytes by
/// `rep movsb`, which is slow to begin and is counted as an instruction for each byte.
const PIECE: usize = 2048;

/// Appends more bytes. An `Err` leaves those that were there, perhaps with some of the others after them.
pub(crate) fn append(bytes: &mut Vec<u8>, more: &[u8]) -> Result<(), AllocError>
    ensures text { OnOk result (bytes.new.items ≡ bytes.old.items ++ more.now) }
    ensures err { OnErr result (take (length bytes.old.items) bytes.new.items ≡ bytes.old.items) }
{
    let mut rest = more;
    while !rest.is_empty() {
        let (piece, later) = rest.split_at(rest.len().min(PIECE));
        bytes.extend_from_slice(piece)?;
        rest = later;
    }
    Ok(())
}
