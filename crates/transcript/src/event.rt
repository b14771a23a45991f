//! Events of a simulated run.

use protocol_lang::View;

/// What one process did: it wrote `v`, it took the snapshot `row`, or it decided `v`. `p` is the
/// process's number, from 0. The row has an entry for each process: the last value that it wrote,
/// or nothing.
#[derive(Debug, Drop, PartialEq, Eq)]
pub enum Event {
    Write { p: u8, v: u32 },
    Snap { p: u8, row: View },
    Decide { p: u8, v: u32 },
}

impl Event {
    ghost use Rattle.std.specs.Prelude.{◌≡◌};
    ghost use Rattle.transcript.specs.Runs.{process_of};

    /// The number of the process whose event it is.
    #[inline]
    pub fn process(&self) -> u8
        ensures { result ≡ process_of self.now }
    {
        match self {
            Event::Write { p, .. } | Event::Snap { p, .. } | Event::Decide { p, .. } => *p,
        }
    }
}
