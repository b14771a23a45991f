//! All of the bytes to a writer.
ghost use Rattle.std.specs.Prelude.{◌≡◌, ◌≤◌, ◌+◌, ◌||◌, true, is_err, length, IfErr, OnOk};
ghost use Rattle.std.specs.Io.KnownBytes.{Appends};
ghost use Rattle.io_text.specs.Writing.{AppendsPart};
ghost use Rattle.io_text.specs.declared.fault.DeviceFault.TheVariants.{Write as WriteFault};

use crate::device::Device;
use crate::fault::DeviceFault;
use std::io::Write;

/// Writes the output, and flushes it.
pub fn write_output<W: Write>(writer: &mut Device<W>, output: &[u8]) -> Result<(), DeviceFault>
    ensures written { OnOk result (Appends (W.contents writer.old.inner) (W.contents writer.new.inner) output.now) }
    ensures part { IfErr result (λ fault. (fault ≡ WriteFault) ×
        AppendsPart (W.contents writer.old.inner) (W.contents writer.new.inner) output.now writer.old.calls writer.new.calls) }
    // Each write takes a byte at least,
    ensures writes { writer.new.calls ≤ writer.old.calls + length output.now }
    // and none is of nothing.
    ensures empty { writer.new.empty_write ≡ writer.old.empty_write }
    ensures flushed { OnOk result (writer.new.flushed ≡ true) }
    ensures failed { writer.new.failed ≡ (writer.old.failed || is_err result) }
{
    let mut rest = output;
    while !rest.is_empty() {
        let Ok(count) = writer.write(rest) else {
            return Err(DeviceFault::Write);
        };
        rest = &rest[count..];
    }
    match writer.flush() {
        Ok(()) => Ok(()),
        Err(_) => Err(DeviceFault::Write),
    }
}
