//! The words that come after a program's name.
ghost use Rattle.std.specs.Prelude.{◌≡◌, Bool};
ghost use Rattle.std.specs.IoError.{error_kind};
ghost use Rattle.clap.specs.Values.{kind_of};
ghost use Rattle.program_io.specs.Statuses.{unread_status, words_status};

use crate::errors::say_both;
use clap::error::ErrorKind;
use io_text::Device;
use std::io;
use std::io::Write;

/// The words after the program's name.
///
/// # Errors
///
/// A word that is not UTF-8, or an allocation that failed.
pub fn words(rt: &HostRuntime) -> io::Result<Vec<String>> {
    Ok(std::env::args(rt)?.skip(1).collect(rt.alloc())?)
}

/// The status if the words of a program could not be taken over, once that is said on standard error.
pub fn unread_status<E: Write>(errors: &mut Device<E>, program: &str, error: &io::Error) -> u8
    ensures { result ≡ unread_status (error_kind error.now) }
{
    if error.kind() == io::ErrorKind::OutOfMemory {
        let _ = say_both(errors, program.as_bytes(), b": out of memory\n");
        return 3;
    }
    let text = b": a word of the command line is not UTF-8\n";
    let _ = say_both(errors, program.as_bytes(), text);
    2
}

/// The status if the words of a program ask for nothing, once `clap`'s text is printed: help, the version, or what is wrong with them.
pub fn words_status<E: Write>(
    rt: &HostRuntime,
    errors: &mut Device<E>,
    program: &str,
    error: &clap::Error,
) -> u8
    ensures { (is_printed : Bool) × (result ≡ words_status (kind_of error.now) is_printed) }
{
    if error.kind() == ErrorKind::OutOfMemory {
        let _ = say_both(errors, program.as_bytes(), b": out of memory\n");
        return 3;
    }
    let is_printed = error.print(rt).is_ok();
    if error.use_stderr() || is_printed {
        return error.exit_code() as u8;
    }
    let _ = say_both(errors, program.as_bytes(), b": write failed\n");
    2
}
