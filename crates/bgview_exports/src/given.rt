//! What a call gives to its caller: how the answer ended, and as many of its bytes as fit.
ghost use Rattle.std.specs.Prelude.{◌≡◌, length};
ghost use Rattle.room_files.specs.declared.fault.InputFault.TheVariants.{Memory};
ghost use Rattle.bgview_exports.specs.Calls.{claim_of, ending_status, fault_of, line_of, result_of, status_of, text_of, value_of, written_over};
ghost use Rattle.bgview_exports.specs.declared.given.NoAnswer.TheVariants.{Fault};

use decision_tasks::LineFault;
use input_vectors::{MAX_VALUES, ValuesFault};
use room_files::{InputFault, Outcome};
use script_play::PlayText;
use std::alloc::AllocError;
use view_grade::GoalFault;

/// How a call ended, as a struct of C.
#[repr(C)]
#[derive(Clone, Copy, Debug, PartialEq, Eq)]
pub struct CallResult {
    /// 0: all is well. 1: something was refused, broken, not reached or not searched to the end. 2: the input has a fault. 3: an allocation failed. 4: an allocation
    /// failed for a part of the script, and the answer says for which. 5: the input has more than 16777216 bytes. 6: the goal is not valid. 7: the values of inputs are not
    /// valid. 8: the task is not valid.
    pub status: u32,
    /// The number of the fault of the input, or of the task that is not valid, or 0.
    pub fault: u32,
    /// The number of the line that has the fault, in the input or in the task, or of the goal's claim or the value that is not valid, counted from 1; or 0.
    pub line: u64,
    /// How many bytes the whole answer has. As many of them were written as fit.
    pub length: u64,
}

/// Why there is no answer.
#[derive(Clone, Copy, Debug)]
pub enum NoAnswer {
    /// The input has more than 16777216 bytes.
    TooLong,
    /// The input has a fault, or an allocation failed.
    Fault(InputFault),
    /// The goal that a script is graded by is not valid.
    BadGoal(GoalFault),
    /// The values of which inputs are made are not valid.
    BadValues(ValuesFault),
    /// The task that runs are judged by is not valid.
    BadTask(LineFault),
}

impl From<InputFault> for NoAnswer {
    ghost from_gives = { λ input fault. fault ≡ Fault input };

    fn from(fault: InputFault) -> NoAnswer {
        NoAnswer::Fault(fault)
    }
}

impl From<AllocError> for NoAnswer {
    ghost from_gives = { λ _ fault. fault ≡ Fault Memory };

    fn from(_: AllocError) -> NoAnswer {
        NoAnswer::Fault(InputFault::Memory)
    }
}

/// Writes as much of an answer as fits.
pub fn give(answer: &Result<PlayText, NoAnswer>, output: &mut [u8]) -> CallResult
    ensures output { output.new ≡ written_over output.old (text_of answer.now) }
    ensures value { result ≡ result_of answer.now }
{
    let text = text_of(answer);
    write_over(output, text);
    CallResult {
        status: status_of(answer),
        fault: fault_of(answer),
        line: line_of(answer),
        length: text.len() as u64,
    }
}

/// Writes as much of a text as fits over the beginning of the bytes.
fn write_over(output: &mut [u8], text: &[u8])
    ensures { output.new ≡ written_over output.old text.now }
{
    let count = text.len().min(output.len());
    let (first, _) = output.split_at_mut(count);
    first.copy_from_slice(&text[..count]);
}

fn text_of(answer: &Result<PlayText, NoAnswer>) -> &[u8]
    ensures { result.now ≡ text_of answer.now }
{
    match answer {
        Ok(text) => text.output.as_bytes(),
        Err(_) => &[],
    }
}

fn status_of(answer: &Result<PlayText, NoAnswer>) -> u32
    ensures { result ≡ status_of answer.now }
{
    match answer {
        Ok(text) => ending_status(text.ending),
        Err(NoAnswer::Fault(InputFault::BadInput { .. })) => 2,
        Err(NoAnswer::Fault(InputFault::Memory)) => 3,
        Err(NoAnswer::TooLong) => 5,
        Err(NoAnswer::BadGoal(_)) => 6,
        Err(NoAnswer::BadValues(_)) => 7,
        Err(NoAnswer::BadTask(_)) => 8,
    }
}

fn ending_status(ending: Result<Outcome, AllocError>) -> u32
    ensures { result ≡ ending_status ending }
{
    match ending {
        Ok(Outcome::AllWell) => 0,
        Ok(Outcome::SomeRefused) => 1,
        Err(AllocError) => 4,
    }
}

/// The number of the fault of the input or the task, or 0.
fn fault_of(answer: &Result<PlayText, NoAnswer>) -> u32
    ensures { result ≡ fault_of answer.now }
{
    match answer {
        Err(NoAnswer::Fault(InputFault::BadInput { fault, .. })) => fault.code() as u32,
        Err(NoAnswer::BadTask(fault)) => u32::from(fault.fault.code()),
        _ => 0,
    }
}

/// The number of the line that has it, or of the goal's claim, or of the value, or 0.
fn line_of(answer: &Result<PlayText, NoAnswer>) -> u64
    ensures { result ≡ line_of answer.now }
{
    match answer {
        Err(NoAnswer::Fault(InputFault::BadInput { line, .. })) => *line,
        Err(NoAnswer::BadGoal(fault)) => claim_of(*fault),
        Err(NoAnswer::BadValues(fault)) => value_of(*fault),
        Err(NoAnswer::BadTask(fault)) => fault.line as u64,
        _ => 0,
    }
}

fn claim_of(fault: GoalFault) -> u64
    ensures { result ≡ claim_of fault }
{
    match fault {
        GoalFault::NoClaim(number) | GoalFault::NoJoint(number) => number as u64,
    }
}

/// The number of the value at which a text stops saying values: the first that is too many, if all before it are well.
fn value_of(fault: ValuesFault) -> u64
    ensures { result ≡ value_of fault }
{
    match fault {
        ValuesFault::NoNumber(number) | ValuesFault::Repeated(number) => number as u64,
        ValuesFault::TooMany => MAX_VALUES as u64 + 1,
    }
}
