//! How the program ends that did what the words ask for.
ghost use Rattle.std.specs.Prelude.{◌≡◌, Err, None, Some};
ghost use Rattle.std.specs.Option.{option_map};
ghost use Rattle.bgview.specs.Ends.{ending_status, is_read_failed};
ghost use Rattle.bgview.specs.Unread.{IsUnreadIf, path_of};
ghost use Rattle.bgview.specs.declared.fault.ViewFault.TheVariants.{BadOption, Device};
ghost use Rattle.io_text.specs.declared.fault.DeviceFault.TheVariants.{Memory, Read};

use crate::fault::{OptionFault, ViewFault};
use crate::unread::{Unread, unread_file};
use io_text::DeviceFault;
use program_io::Inputs;
use room_files::Outcome;
use std::io;

/// How the program ends that did what the words ask for.
#[derive(Clone, Copy)]
pub struct Ended<'a> {
    pub result: Result<Outcome, ViewFault>,
    /// The file that was not read, if that is why it ended.
    pub unread: Option<Unread<'a>>,
}

impl<'a> Ended<'a> {
    /// An answer that ends so. If reading failed, that was at the file of this path, or at standard input without one.
    pub fn of<I: Inputs>(
        inputs: &I,
        ending: Result<Outcome, ViewFault>,
        path: Option<&'a str>,
    ) -> Ended<'a>
        ensures same { result.result ≡ ending }
        ensures unread { IsUnreadIf (is_read_failed result.result) (option_map (λ path. path.now) path.entry) result.unread }
    {
        let unread = match (ending, path) {
            (Err(ViewFault::Device(DeviceFault::Read)), Some(path)) => {
                Some(unread_file(inputs, path))
            }
            _ => None,
        };
        Ended {
            result: ending,
            unread,
        }
    }

    /// No answer, since the file of this path was not opened.
    pub fn not_opened(path: &'a str, error: &io::Error) -> Ended<'a>
        ensures result { result.result ≡ Err (Device Read) }
        ensures unread { path_of result.unread ≡ Some path.now }
    {
        let unread = Unread {
            path,
            kind: error.kind(),
        };
        Ended {
            result: Err(ViewFault::Device(DeviceFault::Read)),
            unread: Some(unread),
        }
    }

    /// No answer, since the options say nothing together.
    pub fn refused(fault: OptionFault) -> Ended<'a>
        ensures result { result.result ≡ Err (BadOption fault) }
        ensures unread { result.unread ≡ None }
    {
        Ended {
            result: Err(ViewFault::BadOption(fault)),
            unread: None,
        }
    }

    /// No answer, since an allocation failed.
    pub fn out_of_memory() -> Ended<'a>
        ensures result { result.result ≡ Err (Device Memory) }
        ensures unread { path_of result.unread ≡ None }
    {
        Ended {
            result: Err(ViewFault::Device(DeviceFault::Memory)),
            unread: None,
        }
    }

    /// The program's exit status.
    pub fn status(self) -> u8
        ensures { result ≡ ending_status self.entry.result }
    {
        match self.result {
            Ok(outcome) => outcome.status(),
            Err(fault) => fault.status(),
        }
    }
}
