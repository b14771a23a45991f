//! How far a long answer is, on a terminal.
use crate::request::{OfInput, Request, Requested};
use run_search::Progress;
use std::io::Write;
use std::{fs, io};

/// How many parts of an answer are done from one time that it is shown to the next.
const STRIDE: u64 = 1000;

/// What an answer has parts of, and of how many for each room, if that is known before.
#[derive(Clone, Copy)]
pub struct Parts {
    name: &'static str,
    total: Option<u64>,
}

impl Parts {
    /// The parts of the answer to what is requested: schedules of a sample, or nodes of a search.
    pub fn of(requested: &Requested<'_>) -> Parts {
        match requested {
            Requested::Input(OfInput::Whole(Request::Sample(sampling))) => Parts {
                name: "schedules",
                total: Some(u64::from(sampling.plan.schedules)),
            },
            _ => Parts {
                name: "nodes",
                total: None,
            },
        }
    }
}

/// One line on a terminal, written over each time, that says how far an answer is.
#[derive(Drop)]
pub struct Counter<W> {
    /// Where to write, if that is a terminal.
    terminal: Option<W>,
    parts: Parts,
    is_shown: bool,
}

impl<W: Write> Counter<W> {
    /// A counter of these parts that writes to a terminal, if there is one.
    pub fn new(terminal: Option<W>, parts: Parts) -> Counter<W> {
        Counter {
            terminal,
            parts,
            is_shown: false,
        }
    }

    /// Removes the line again.
    pub fn clear(&mut self) {
        if !self.is_shown {
            return;
        }
        self.is_shown = false;
        if let Some(terminal) = &mut self.terminal {
            let _ = terminal.write_all(b"\r\x1b[K");
        }
    }
}

impl<W: Write> Progress for Counter<W> {
    fn reached(&mut self, count: u64) {
        if count == 0 || count % STRIDE != 0 {
            return;
        }
        if let Some(terminal) = &mut self.terminal {
            self.is_shown = true;
            let _ = write_count(terminal, count, self.parts);
        }
    }
}

/// Writes how many parts are done over the line that was there.
fn write_count<W: Write>(terminal: &mut W, count: u64, parts: Parts) -> io::Result<()> {
    terminal.write_all(b"\rbgview: ")?;
    write_grouped(terminal, count)?;
    if let Some(total) = parts.total {
        terminal.write_all(b" of ")?;
        write_grouped(terminal, total)?;
    }
    let name = parts.name;
    write!(terminal, " {name}\x1b[K")
}

/// Writes a number below 10^9 with commas between its thousands.
fn write_grouped<W: Write>(terminal: &mut W, number: u64) -> io::Result<()> {
    let millions = number / 1_000_000;
    let thousands = number / 1000 % 1000;
    let ones = number % 1000;
    if millions > 0 {
        write!(terminal, "{millions},{thousands:03},{ones:03}")
    } else if thousands > 0 {
        write!(terminal, "{thousands},{ones:03}")
    } else {
        write!(terminal, "{ones}")
    }
}

/// Whether standard error is a terminal, by the name of its file.
pub fn has_terminal(rt: &HostRuntime) -> bool {
    match fs::read_link(rt, "/proc/self/fd/2") {
        Ok(path) => is_terminal(path.as_str()),
        Err(_) => false,
    }
}

fn is_terminal(path: &str) -> bool {
    path.starts_with("/dev/pts/") || path.starts_with("/dev/tty") || path == "/dev/console"
}
