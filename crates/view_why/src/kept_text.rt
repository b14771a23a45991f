//! Whether runs keep a task of one's own, as text.
ghost use Rattle.std.specs.Prelude.{◌≡◌, ◌++◌, OnOk, false};
ghost use Rattle.view_why.specs.Keeping.{allowed_in, decider_words, deciders_words, disallowed_in, disallowed_line, moment_words, refused_words};

use crate::answer::write_event_line;
use crate::reasons::write_of_process;
use crate::reported::{Disallowed, Reported};
use decision_tasks::Moment;
use io_text::Text;
use std::alloc::{AllocError, Global};
use transcript::Event;

/// Writes that the run of the room of this name keeps the task.
pub(crate) fn write_allowed_line(output: &mut Text, name: &[u8]) -> Result<(), AllocError>
    ensures { OnOk result (output.new ≡ output.old ++ allowed_in false name.now) }
{
    output.put_two(name, b" decisions are allowed\n")
}

/// Writes the line after whose event a room's run breaks the task, and what was decided then.
pub(crate) fn write_disallowed_lines(
    alloc: Global,
    output: &mut Text,
    reported: &Reported,
    event: &Event,
    one: &Disallowed,
) -> Result<(), AllocError>
    ensures { OnOk result (output.new ≡ output.old ++ disallowed_in false reported.now.spec.name event.now one.now) }
{
    let name = reported.spec.name().as_str().as_bytes();
    write_disallowed_line(output, name, one.line)?;
    write_event_line(alloc, output, reported, event)?;
    output.put(b"    ")?;
    write_moment(output, &one.moment)?;
    output.put(b"\n")
}

fn write_disallowed_line(output: &mut Text, name: &[u8], line: u64) -> Result<(), AllocError>
    ensures { OnOk result (output.new ≡ output.old ++ disallowed_line name.now line) }
{
    output.put_two(name, b" decisions broken: line")?;
    output.put_spaced_number(line)?;
    output.put(b"\n")
}

/// Writes what each process has decided, and which of this no line allows.
fn write_moment(output: &mut Text, moment: &Moment) -> Result<(), AllocError>
    ensures { OnOk result (output.new ≡ output.old ++ moment_words moment.now) }
{
    write_deciders(output, moment.decisions.as_slice())?;
    write_refused(output, moment.process as u64, moment.value)
}

/// Writes which decision no line allows.
fn write_refused(output: &mut Text, process: u64, value: u32) -> Result<(), AllocError>
    ensures { OnOk result (output.new ≡ output.old ++ refused_words process value) }
{
    write_of_process(output, b"no line allows that process", process, b" decided")?;
    write_of_process(output, b"", u64::from(value), b"")
}

fn write_deciders(output: &mut Text, decisions: &[Option<u32>]) -> Result<(), AllocError>
    ensures { OnOk result (output.new ≡ output.old ++ deciders_words decisions.now) }
{
    for process in 0..decisions.len() {
        write_decider(output, process as u64, decisions[process])?;
    }
    Ok(())
}

/// Writes what a process has decided, if it has.
fn write_decider(output: &mut Text, process: u64, decided: Option<u32>) -> Result<(), AllocError>
    ensures { OnOk result (output.new ≡ output.old ++ decider_words process decided) }
{
    match decided {
        None => Ok(()),
        Some(v) => {
            write_of_process(output, b"process", process, b"")?;
            write_of_process(output, b" decided", u64::from(v), b"; ")
        }
    }
}
