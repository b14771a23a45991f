//! What the program says on standard error at its end.
ghost use Rattle.std.specs.Prelude.{◌≡◌, ◌++◌, ◌||◌, List, OnOk, codes, false, is_err, ℕ, decimal};
ghost use Rattle.std.specs.Io.KnownBytes.{Appends};
ghost use Rattle.program_io.specs.Errors.{fault_line};
ghost use Rattle.view_grade.specs.Grades.{fault_text};
ghost use Rattle.input_vectors.specs.Values.{values_fault_text};
ghost use Rattle.bgview.specs.Said.{IsEndSaid, fault_words, line_fault_text, line_place_text, line_reason_text, part_words, refused_note, unread_text};
ghost use Rattle.bgview.specs.Unread.{unread_note};

use crate::ended::Ended;
use crate::fault::{OptionFault, ViewFault};
use crate::unread::{Unread, why};
use bgview_command_line::Mode;
use decision_tasks::LineFault;
use input_vectors::ValuesFault;
use io_text::{Device, DeviceFault, write_output};
use program_io::{say_both, say_number, say_place};
use room_files::Outcome;
use std::io::Write;
use view_grade::GoalFault;

/// Says how the program ends, with these notes on its inputs.
pub fn say_end<E: Write>(errors: &mut Device<E>, mode: Mode, ended: &Ended<'_>, notes: &[u8])
    requires { errors.old.failed ≡ false }
    ensures { IsEndSaid mode ended.now notes.now
        (record { before = E.contents errors.old.inner; after = E.contents errors.new.inner; failed = errors.new.failed }) }
{
    let _ = match ended.result {
        Ok(outcome) => say_both(errors, notes, refused_note(mode, outcome, notes)),
        Err(fault) => say_failure(errors, fault, notes, ended.unread),
    };
}

/// Says which fault ended the answer, the notes, and which file was not read.
fn say_failure<E: Write>(
    errors: &mut Device<E>,
    fault: ViewFault,
    notes: &[u8],
    unread: Option<Unread<'_>>,
) -> Result<(), DeviceFault>
    ensures said { OnOk result (Appends (E.contents errors.old.inner) (E.contents errors.new.inner) (fault_line (codes "bgview: ") (fault_words fault) ++ (notes.now ++ unread_text unread.entry))) }
    ensures failed { errors.new.failed ≡ (errors.old.failed || is_err result) }
{
    say_fault(errors, fault)?;
    say_notes(errors, notes, unread)
}

/// Writes the line of a fault.
fn say_fault<E: Write>(errors: &mut Device<E>, fault: ViewFault) -> Result<(), DeviceFault>
    ensures said { OnOk result (Appends (E.contents errors.old.inner) (E.contents errors.new.inner) (fault_line (codes "bgview: ") (fault_words fault))) }
    ensures failed { errors.new.failed ≡ (errors.old.failed || is_err result) }
{
    write_output(errors, b"bgview: ")?;
    say_line(errors, fault)
}

fn say_line<E: Write>(errors: &mut Device<E>, fault: ViewFault) -> Result<(), DeviceFault>
    ensures said { OnOk result (Appends (E.contents errors.old.inner) (E.contents errors.new.inner) (fault_words fault ++ codes "\n")) }
    ensures failed { errors.new.failed ≡ (errors.old.failed || is_err result) }
{
    say_words(errors, fault)?;
    write_output(errors, b"\n")
}

fn say_words<E: Write>(errors: &mut Device<E>, fault: ViewFault) -> Result<(), DeviceFault>
    ensures said { OnOk result (Appends (E.contents errors.old.inner) (E.contents errors.new.inner) (fault_words fault)) }
    ensures failed { errors.new.failed ≡ (errors.old.failed || is_err result) }
{
    match fault {
        ViewFault::Device(DeviceFault::Read) => write_output(errors, b"read failed"),
        ViewFault::Device(DeviceFault::Write) => write_output(errors, b"write failed"),
        ViewFault::Device(DeviceFault::TooLong) => write_output(errors, b"input too long"),
        ViewFault::Device(DeviceFault::Memory) | ViewFault::Incomplete => {
            write_output(errors, b"out of memory")
        }
        ViewFault::BadInput { line, fault } => say_place(errors, line, fault.code()),
        ViewFault::BadPart(bad) => say_part(errors, bad.line),
        ViewFault::BadOption(OptionFault::Goal(fault)) => say_goal_fault(errors, fault),
        ViewFault::BadOption(OptionFault::Inputs(fault)) => say_values_fault(errors, fault),
        ViewFault::BadOption(OptionFault::Keeps(fault)) => say_line_fault(errors, &fault),
        ViewFault::BadOption(OptionFault::Both) => {
            write_output(errors, b"--inputs and --keeps can't be given together")
        }
        ViewFault::BadOption(OptionFault::TwoTasks) => write_output(
            errors,
            b"--keeps and --keeps-file can't be given together",
        ),
        ViewFault::BadOption(OptionFault::Alone) => write_output(
            errors,
            b"--outcome can't be given together with --task, --inputs or --keeps",
        ),
        ViewFault::BadOption(OptionFault::Rooms) => write_output(
            errors,
            b"--rooms can't be given together with --top, --outcome, --task, --inputs or --keeps",
        ),
        ViewFault::BadOption(OptionFault::Open) => write_output(
            errors,
            b"--open can't be given together with --rooms, --brief, --top, --outcome, --task, --inputs or --keeps",
        ),
        ViewFault::BadOption(OptionFault::Second) => {
            write_output(
                errors,
                b"--keeps and --open can't be given together with a second file",
            )
        }
        ViewFault::BadOption(OptionFault::OpenTask) => {
            write_output(errors, b"--open and --keeps can't be given together")
        }
    }
}

/// Says at which line a file can't be added up with the others.
fn say_part<E: Write>(errors: &mut Device<E>, line: u64) -> Result<(), DeviceFault>
    ensures said { OnOk result (Appends (E.contents errors.old.inner) (E.contents errors.new.inner) (part_words line)) }
    ensures failed { errors.new.failed ≡ (errors.old.failed || is_err result) }
{
    write_output(errors, b"line ")?;
    say_number(errors, line, b": no part of the sum")
}

fn say_goal_fault<E: Write>(errors: &mut Device<E>, fault: GoalFault) -> Result<(), DeviceFault>
    ensures said { OnOk result (Appends (E.contents errors.old.inner) (E.contents errors.new.inner) (fault_text fault)) }
    ensures failed { errors.new.failed ≡ (errors.old.failed || is_err result) }
{
    write_output(errors, b"claim ")?;
    match fault {
        GoalFault::NoClaim(number) => {
            say_number(errors, number as u64, b" of the goal is not valid")
        }
        GoalFault::NoJoint(number) => say_number(
            errors,
            number as u64,
            b" of the goal is followed by neither `and` nor `or`",
        ),
    }
}

fn say_values_fault<E: Write>(errors: &mut Device<E>, fault: ValuesFault) -> Result<(), DeviceFault>
    ensures said { OnOk result (Appends (E.contents errors.old.inner) (E.contents errors.new.inner) (values_fault_text fault)) }
    ensures failed { errors.new.failed ≡ (errors.old.failed || is_err result) }
{
    match fault {
        ValuesFault::NoNumber(number) => say_value(
            errors,
            number,
            b" of --inputs is not a number of 0 to 4294967295",
        ),
        ValuesFault::Repeated(number) => say_value(errors, number, b" of --inputs is there twice"),
        ValuesFault::TooMany => write_output(errors, b"--inputs has more than 16 values"),
    }
}

/// Says something of the value of this number.
fn say_value<E: Write>(
    errors: &mut Device<E>,
    number: usize,
    what: &[u8],
) -> Result<(), DeviceFault>
    ensures said { OnOk result (Appends (E.contents errors.old.inner) (E.contents errors.new.inner) (codes "value " ++ (decimal number ++ what.now))) }
    ensures failed { errors.new.failed ≡ (errors.old.failed || is_err result) }
{
    write_output(errors, b"value ")?;
    say_number(errors, number as u64, what)
}

fn say_line_fault<E: Write>(errors: &mut Device<E>, fault: &LineFault) -> Result<(), DeviceFault>
    ensures said { OnOk result (Appends (E.contents errors.old.inner) (E.contents errors.new.inner) (line_fault_text fault.now)) }
    ensures failed { errors.new.failed ≡ (errors.old.failed || is_err result) }
{
    write_output(errors, b"line ")?;
    say_line_place(errors, fault)
}

/// Says the number of the line, and what `say_line_reason` does.
fn say_line_place<E: Write>(errors: &mut Device<E>, fault: &LineFault) -> Result<(), DeviceFault>
    ensures said { OnOk result (Appends (E.contents errors.old.inner) (E.contents errors.new.inner) (line_place_text fault.now)) }
    ensures failed { errors.new.failed ≡ (errors.old.failed || is_err result) }
{
    say_number(errors, fault.line as u64, b" of --keeps, byte ")?;
    say_line_reason(errors, fault)
}

/// Says where in the line the fault is, and the fault.
fn say_line_reason<E: Write>(errors: &mut Device<E>, fault: &LineFault) -> Result<(), DeviceFault>
    ensures said { OnOk result (Appends (E.contents errors.old.inner) (E.contents errors.new.inner) (line_reason_text fault.now)) }
    ensures failed { errors.new.failed ≡ (errors.old.failed || is_err result) }
{
    say_number(errors, fault.at as u64, b": ")?;
    write_output(errors, fault.fault.sentence().as_bytes())
}

/// Says the notes, and which file was not read.
fn say_notes<E: Write>(
    errors: &mut Device<E>,
    notes: &[u8],
    unread: Option<Unread<'_>>,
) -> Result<(), DeviceFault>
    ensures said { OnOk result (Appends (E.contents errors.old.inner) (E.contents errors.new.inner) (notes.now ++ unread_text unread.entry)) }
    ensures failed { errors.new.failed ≡ (errors.old.failed || is_err result) }
{
    write_output(errors, notes)?;
    match unread {
        Some(file) => say_unread(errors, &file),
        None => Ok(()),
    }
}

/// Writes the name of a file that was not read, and why.
fn say_unread<E: Write>(errors: &mut Device<E>, file: &Unread<'_>) -> Result<(), DeviceFault>
    ensures said { OnOk result (Appends (E.contents errors.old.inner) (E.contents errors.new.inner) (unread_note file.now.path.now file.now.kind)) }
    ensures failed { errors.new.failed ≡ (errors.old.failed || is_err result) }
{
    say_both(errors, b"    ", file.path.as_bytes())?;
    say_both(errors, b": ", why(file.kind))
}

/// That a command of a script was refused, for modes whose output doesn't show it, if nothing else is noted.
fn refused_note(mode: Mode, outcome: Outcome, notes: &[u8]) -> &'static [u8]
    ensures { result.now ≡ refused_note mode outcome notes.now }
{
    match (mode, outcome) {
        (Mode::Draw | Mode::Transcript, Outcome::SomeRefused) if notes.is_empty() => {
            b"    a command was refused: `bgview trace` shows which, and why\n"
        }
        _ => b"",
    }
}
