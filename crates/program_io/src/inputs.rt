//! Where the program's input comes from.
ghost use Rattle.std.specs.Prelude.{◌≡◌, IfOk, List, Option, None, ℕ};

use std::fs::File;
use std::io;
use std::io::{Read, Stdin};

/// Standard input, and files by their paths.
pub trait Inputs {
    type Standard: Read + Drop;

    type File: Read + Drop;

    /// What standard input gives, if it is known.
    ghost standard_bytes: { Self → Option (List ℕ) };

    /// What the file of a path gives, if it is known.
    ghost file_bytes: { Self → List ℕ → Option (List ℕ) };

    /// Standard input.
    fn standard(&self) -> Self::Standard
        ensures { Self.Standard.remaining result ≡ standard_bytes self.now };

    /// The file of this path.
    fn open(&self, path: &str) -> io::Result<Self::File>
        ensures { IfOk result (λ file. Self.File.remaining file ≡ file_bytes self.now path.now) };
}

/// Nothing is known of what the system's files give.
impl Inputs for HostRuntime {
    type Standard = Stdin;

    type File = File;

    ghost standard_bytes = { λ _. None };

    ghost file_bytes = { λ _ _. None };

    fn standard(&self) -> Stdin {
        self.stdin()
    }

    fn open(&self, path: &str) -> io::Result<File> {
        File::open(self, path)
    }
}
