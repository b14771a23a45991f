//! Why a file was not read.
ghost use Rattle.std.specs.Prelude.{◌≡◌};
ghost use Rattle.bgview.specs.Unread.{why_words};

use program_io::Inputs;
use std::io;
use std::io::Read;

/// A file that was not read.
#[derive(Clone, Copy)]
pub struct Unread<'a> {
    pub path: &'a str,
    pub kind: io::ErrorKind,
}

/// The file of this path, which could not be read to its end. Its reader kept no reason, so it is tried once more.
pub fn unread_file<'a, I: Inputs>(inputs: &I, path: &'a str) -> Unread<'a>
    ensures { result.path.now ≡ path.now }
{
    let kind = failure_of(inputs, path).unwrap_or(io::ErrorKind::Other);
    Unread { path, kind }
}

/// Why the file of this path can't be read, if it can't.
fn failure_of<I: Inputs>(inputs: &I, path: &str) -> Option<io::ErrorKind> {
    match inputs.open(path) {
        Ok(mut file) => match file.read(&mut [0; 1]) {
            Ok(_) => None,
            Err(error) => Some(error.kind()),
        },
        Err(error) => Some(error.kind()),
    }
}

/// What is said of a file that was not read for this reason.
pub fn why(kind: io::ErrorKind) -> &'static [u8]
    ensures { result.now ≡ why_words kind }
{
    match kind {
        io::ErrorKind::NotFound => b"there is no such file\n",
        io::ErrorKind::PermissionDenied => b"it may not be read: permission denied\n",
        io::ErrorKind::IsADirectory => b"it is a folder\n",
        io::ErrorKind::NotADirectory => b"a part of its path is no folder\n",
        _ => b"it can't be read\n",
    }
}
