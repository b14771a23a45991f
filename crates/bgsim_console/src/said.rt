//! What the program says on standard error at its end.
ghost use Rattle.std.specs.Prelude.{◌≡◌, ◌++◌, ◌||◌, OnOk, codes, false, is_err};
ghost use Rattle.std.specs.Io.KnownBytes.{Appends};
ghost use Rattle.program_io.specs.Errors.{fault_line};
ghost use Rattle.bgsim_console.specs.Said.{IsEndSaid, fault_words};

use crate::fault::IoFault;
use io_text::{Device, DeviceFault, write_output};
use program_io::say_place;
use room_files::Outcome;
use scheduler::RunFault;
use std::io::Write;

/// Says which fault ended the engine, if one did.
pub fn say_end<E: Write>(errors: &mut Device<E>, ending: Result<Outcome, IoFault>)
    requires { errors.old.failed ≡ false }
    ensures { IsEndSaid ending (record { before = E.contents errors.old.inner; after = E.contents errors.new.inner; failed = errors.new.failed }) }
{
    if let Err(fault) = ending {
        let _ = say_fault(errors, fault);
    }
}

/// Writes the line of a fault.
fn say_fault<E: Write>(errors: &mut Device<E>, fault: IoFault) -> Result<(), DeviceFault>
    ensures said { OnOk result (Appends (E.contents errors.old.inner) (E.contents errors.new.inner) (fault_line (codes "bgsim: ") (fault_words fault))) }
    ensures failed { errors.new.failed ≡ (errors.old.failed || is_err result) }
{
    write_output(errors, b"bgsim: ")?;
    say_line(errors, fault)
}

fn say_line<E: Write>(errors: &mut Device<E>, fault: IoFault) -> Result<(), DeviceFault>
    ensures said { OnOk result (Appends (E.contents errors.old.inner) (E.contents errors.new.inner) (fault_words fault ++ codes "\n")) }
    ensures failed { errors.new.failed ≡ (errors.old.failed || is_err result) }
{
    say_words(errors, fault)?;
    write_output(errors, b"\n")
}

fn say_words<E: Write>(errors: &mut Device<E>, fault: IoFault) -> Result<(), DeviceFault>
    ensures said { OnOk result (Appends (E.contents errors.old.inner) (E.contents errors.new.inner) (fault_words fault)) }
    ensures failed { errors.new.failed ≡ (errors.old.failed || is_err result) }
{
    match fault {
        IoFault::Read => write_output(errors, b"read failed"),
        IoFault::Write => write_output(errors, b"write failed"),
        IoFault::TooLong => write_output(errors, b"input too long"),
        IoFault::BadInput { line, code } => say_place(errors, line, code),
        IoFault::Run(RunFault::Workers) => write_output(errors, b"bad number of workers"),
        IoFault::Run(RunFault::Spawn) => write_output(errors, b"cannot start a worker"),
        IoFault::Run(RunFault::OutOfMemory) | IoFault::Memory | IoFault::Incomplete => {
            write_output(errors, b"out of memory")
        }
    }
}
