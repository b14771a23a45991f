//! What the words of the command line ask for.
ghost use Rattle.std.specs.Prelude.{◌≡◌};
ghost use Rattle.bgview_command_line.specs.CommandLine.{mode_of};

/// What the words ask for.
#[derive(Clone, Copy)]
pub enum Mode {
    /// Says of a transcript's rooms whether they are runs, and why not.
    Why,
    /// Says what each step of a script did.
    Trace,
    /// Draws the rooms of a script.
    Draw,
    /// Makes a page that steps through a script or a transcript, or through two.
    Page,
    /// Writes the rooms of a script as a transcript.
    Transcript,
    /// Says faults in words.
    Fault,
    /// Runs rooms by random schedules.
    Sample,
    /// Adds up samples that were taken in parts.
    Sum,
    /// Searches all runs of rooms.
    Outcomes,
    /// Explains all faults of a file.
    Lint,
    /// Says whether a script reaches a goal.
    Grade,
    /// Plays a script as it is written.
    Live,
}

impl Mode {
    /// The mode that this word asks for. It is one of those that `clap` takes.
    pub(crate) fn of(word: &str) -> Mode
        ensures { result ≡ mode_of word.now }
    {
        if word == "trace" {
            Mode::Trace
        } else if word == "draw" {
            Mode::Draw
        } else if word == "page" {
            Mode::Page
        } else if word == "transcript" {
            Mode::Transcript
        } else if word == "fault" {
            Mode::Fault
        } else if word == "sample" {
            Mode::Sample
        } else if word == "sum" {
            Mode::Sum
        } else if word == "outcomes" {
            Mode::Outcomes
        } else if word == "lint" {
            Mode::Lint
        } else if word == "grade" {
            Mode::Grade
        } else if word == "live" {
            Mode::Live
        } else {
            Mode::Why
        }
    }
}

/// What the subcommand and the words after it ask for.
#[derive(Clone, Copy)]
pub struct Line<'a> {
    pub command: Mode,
    /// The file to read. Without one standard input is read.
    pub file: Option<&'a str>,
    /// The file that is shown next to it.
    pub other: Option<&'a str>,
}
