//! The outcome of the answer to a whole input.
ghost use Rattle.std.specs.Prelude.{◌≡◌};
ghost use Rattle.room_files.specs.Verdicts.{is_well, outcome_if, outcome_status};

use history_checker::{TaskVerdict, Verdict};
use io_text::Text;

/// The outcome of an answer, if the input was valid and the output was written.
#[derive(Clone, Copy, Debug, PartialEq, Eq)]
pub enum Outcome {
    /// Nothing was refused, each room's events are a run, and no task is broken.
    AllWell,
    /// A block was refused, or a room's events aren't a run, or a task is broken.
    SomeRefused,
}

impl Outcome {
    /// The program's exit status.
    pub fn status(self) -> u8
        ensures { result ≡ outcome_status self }
    {
        match self {
            Outcome::AllWell => 0,
            Outcome::SomeRefused => 1,
        }
    }
}

/// The outcome if nothing was refused, each room's events are a run and no task is broken, or not.
pub fn outcome_if(all_well: bool) -> Outcome
    ensures { result ≡ outcome_if all_well }
{
    if all_well {
        Outcome::AllWell
    } else {
        Outcome::SomeRefused
    }
}

/// Whether a room's events are a run that doesn't break its task.
pub fn is_well(verdict: Verdict, task: Option<TaskVerdict>) -> bool
    ensures { result ≡ is_well verdict task }
{
    match (verdict, task) {
        (Verdict::Broken(_), _) => false,
        (Verdict::Run, Some(TaskVerdict::Broken(_))) => false,
        (Verdict::Run, _) => true,
    }
}

/// An output, and the outcome that goes with it.
#[derive(Drop)]
pub struct Answer {
    pub output: Text,
    pub outcome: Outcome,
}
