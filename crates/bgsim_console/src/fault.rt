//! Why an engine ends early.
ghost use Rattle.std.specs.Prelude.{◌≡◌};
ghost use Rattle.bgsim_console.specs.declared.fault.IoFault.TheVariants.{Memory, Run};
ghost use Rattle.bgsim_console.specs.Ends.{device_fault, fault_status, input_fault, written};

use io_text::DeviceFault;
use room_files::{InputFault, Outcome};
use scheduler::RunFault;
use std::alloc::AllocError;

/// Why an engine ended early.
#[derive(Clone, Copy, Debug, PartialEq, Eq)]
pub enum IoFault {
    /// The reader failed.
    Read,
    /// The writer failed.
    Write,
    /// The input has more than 16777216 bytes.
    TooLong,
    /// The input has a fault of this code on this line, counted from 1.
    BadInput { line: u64, code: u16 },
    /// The rooms could not be run to their end.
    Run(RunFault),
    /// An allocation failed.
    Memory,
    /// The answer was written, and says for which command an allocation failed.
    Incomplete,
}

impl IoFault {
    /// The program's exit status.
    pub fn status(self) -> u8
        ensures { result ≡ fault_status self }
    {
        match self {
            IoFault::Memory | IoFault::Incomplete | IoFault::Run(RunFault::OutOfMemory) => 3,
            _ => 2,
        }
    }
}

/// How an answer ends that was written whole, whatever came of the script in it.
pub fn written(ending: Result<Outcome, AllocError>) -> Result<Outcome, IoFault>
    ensures { result ≡ written ending }
{
    match ending {
        Ok(outcome) => Ok(outcome),
        Err(AllocError) => Err(IoFault::Incomplete),
    }
}

impl From<DeviceFault> for IoFault {
    ghost from_gives = { λ device fault. fault ≡ device_fault device };

    fn from(fault: DeviceFault) -> IoFault {
        match fault {
            DeviceFault::Read => IoFault::Read,
            DeviceFault::Write => IoFault::Write,
            DeviceFault::TooLong => IoFault::TooLong,
            DeviceFault::Memory => IoFault::Memory,
        }
    }
}

impl From<InputFault> for IoFault {
    ghost from_gives = { λ input fault. fault ≡ input_fault input };

    fn from(fault: InputFault) -> IoFault {
        match fault {
            InputFault::BadInput { line, fault } => IoFault::BadInput {
                line,
                code: fault.code(),
            },
            InputFault::Memory => IoFault::Memory,
        }
    }
}

impl From<AllocError> for IoFault {
    ghost from_gives = { λ _ fault. fault ≡ Memory };

    fn from(_: AllocError) -> IoFault {
        IoFault::Memory
    }
}

impl From<RunFault> for IoFault {
    ghost from_gives = { λ run fault. fault ≡ Run run };

    fn from(fault: RunFault) -> IoFault {
        IoFault::Run(fault)
    }
}
