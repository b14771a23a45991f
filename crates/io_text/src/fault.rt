//! Why an input was not read whole, or an output not written.
ghost use Rattle.std.specs.Prelude.{◌≡◌};
ghost use Rattle.io_text.specs.declared.fault.DeviceFault.TheVariants.{Memory};

use std::alloc::AllocError;
use thiserror::Error;

/// Why an input was not read whole, or an output not written.
#[derive(Clone, Copy, Debug, Error)]
pub enum DeviceFault {
    /// The reader failed.
    #[error("read failed")]
    Read,
    /// The writer failed.
    #[error("write failed")]
    Write,
    /// The input has more than 16777216 bytes.
    #[error("input too long")]
    TooLong,
    /// An allocation failed.
    #[error("out of memory")]
    Memory,
}

impl From<AllocError> for DeviceFault {
    ghost from_gives = { λ _ fault. fault ≡ Memory };

    fn from(_: AllocError) -> DeviceFault {
        DeviceFault::Memory
    }
}
