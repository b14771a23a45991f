//! What the words of the command line ask for.
ghost use Rattle.std.specs.Prelude.{◌≡◌, ◌≤◌, Some};
ghost use Rattle.bgsim_command_line.specs.CommandLine.{IsWorkers, mode_of};

/// How many workers there are where the words give no number.
pub(crate) const DEFAULT_WORKERS: u8 = 2;

/// Which engine the words ask for.
#[derive(Clone, Copy, Debug, PartialEq, Eq)]
pub enum Mode {
    /// Judges a transcript.
    Check,
    /// Plays a script.
    Play,
    /// Runs the rooms of a file.
    Run,
}

impl Mode {
    /// The mode that this word asks for. It is one of those that `clap` takes.
    pub(crate) fn of(word: &str) -> Mode
        ensures { result ≡ mode_of word.now }
    {
        if word == "play" {
            Mode::Play
        } else if word == "run" {
            Mode::Run
        } else {
            Mode::Check
        }
    }
}

/// What the words ask for.
#[derive(Clone, Copy, Debug, PartialEq, Eq)]
pub struct Line<'a> {
    pub command: Mode,
    /// The file to read. Without one standard input is read.
    pub file: Option<&'a str>,
    /// How many workers run the rooms, 1 to 16.
    pub workers: u8,
}

impl<'a> Line<'a> {
    /// To take this file, or standard input.
    pub(crate) fn of(command: Mode, file: Option<&'a str>) -> Line<'a>
        ensures { result ≡ record { command = command; file = file.entry; workers = 2 } }
    {
        Line {
            command,
            file,
            workers: DEFAULT_WORKERS,
        }
    }

    /// The same, with this number of workers.
    pub(crate) fn with_workers(self, workers: u8) -> Line<'a>
        ensures { result ≡ record self.entry { workers = workers } }
    {
        Line { workers, ..self }
    }
}

/// The number of workers that this text gives. `clap` takes no other than 1 to 16.
pub(crate) fn workers_in(text: &str) -> u8
    ensures number { IsWorkers (Some text.now) result }
    ensures range { (1 ≤ result) × (result ≤ 16) }
{
    match text.parse::<u8>() {
        Ok(workers) if 1 <= workers && workers <= 16 => workers,
        _ => DEFAULT_WORKERS,
    }
}
