//! How the program ends early.
ghost use Rattle.std.specs.Prelude.{◌≡◌};
ghost use Rattle.bgview.specs.Ends.{fault_status, input_fault, sum_fault, written};
ghost use Rattle.bgview.specs.declared.fault.ViewFault.TheVariants.{Device};
ghost use Rattle.io_text.specs.declared.fault.DeviceFault.TheVariants.{Memory};

use decision_tasks::LineFault;
use input_vectors::ValuesFault;
use io_text::DeviceFault;
use room_files::{InputFault, Outcome, TextFault};
use std::alloc::AllocError;
use view_grade::GoalFault;
use view_sum::{BadPart, SumFault};

/// Why an option's text says nothing.
#[derive(Clone, Copy, Debug)]
pub enum OptionFault {
    /// The goal that a script is graded by has this fault.
    Goal(GoalFault),
    /// The values of which inputs are made have this fault.
    Inputs(ValuesFault),
    /// The task of one's own has this fault.
    Keeps(LineFault),
    /// Values for inputs and a task of one's own are both given.
    Both,
    /// A task of one's own is given as a text, and in a file.
    TwoTasks,
    /// Only one outcome is asked for, and so is whether tasks are kept.
    Alone,
    /// All schedules of the simulators are searched, and something is asked for that is none of their outcomes.
    Rooms,
    /// The outcomes that are open in the rooms of a script are asked for, and so is something that is none of them.
    Open,
    /// A page of two files is asked for, and so is what is said of only one: whether runs keep a task of one's own, or which outcomes are open.
    Second,
    /// A page is asked for that says which outcomes are open after each command of a script, and whether runs keep a task of one's own.
    OpenTask,
}

/// Why an answer was not written whole.
#[derive(Clone, Copy, Debug)]
pub enum ViewFault {
    /// Reading or writing failed, or an allocation failed.
    Device(DeviceFault),
    /// What there is memory for was written: an allocation failed for a command of a script, or for a room's sample.
    Incomplete,
    /// The input has this fault on this line, counted from 1. A message has the fault's number.
    BadInput { line: u64, fault: TextFault },
    /// The text of an option has this fault.
    BadOption(OptionFault),
    /// A sample can't be added up with the others.
    BadPart(BadPart),
}

impl ViewFault {
    /// The program's exit status.
    pub fn status(self) -> u8
        ensures { result ≡ fault_status self }
    {
        match self {
            ViewFault::Device(DeviceFault::Memory) | ViewFault::Incomplete => 3,
            _ => 2,
        }
    }
}

/// How an answer ends that was written: whether an allocation failed for a part of it.
pub fn written(ending: Result<Outcome, AllocError>) -> Result<Outcome, ViewFault>
    ensures { result ≡ written ending }
{
    match ending {
        Ok(outcome) => Ok(outcome),
        Err(AllocError) => Err(ViewFault::Incomplete),
    }
}

impl From<DeviceFault> for ViewFault {
    ghost from_gives = { λ device fault. fault ≡ Device device };

    fn from(fault: DeviceFault) -> ViewFault {
        ViewFault::Device(fault)
    }
}

impl From<AllocError> for ViewFault {
    ghost from_gives = { λ _ fault. fault ≡ Device Memory };

    fn from(_: AllocError) -> ViewFault {
        ViewFault::Device(DeviceFault::Memory)
    }
}

impl From<SumFault> for ViewFault {
    ghost from_gives = { λ sum fault. fault ≡ sum_fault sum };

    fn from(fault: SumFault) -> ViewFault {
        match fault {
            SumFault::Memory => ViewFault::Device(DeviceFault::Memory),
            SumFault::Bad(bad) => ViewFault::BadPart(bad),
        }
    }
}

impl From<InputFault> for ViewFault {
    ghost from_gives = { λ input fault. fault ≡ input_fault input };

    fn from(fault: InputFault) -> ViewFault {
        match fault {
            InputFault::BadInput { line, fault } => ViewFault::BadInput { line, fault },
            InputFault::Memory => ViewFault::Device(DeviceFault::Memory),
        }
    }
}
