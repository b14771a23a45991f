//! What is said of the histories of a script's rooms and a task.
ghost use Rattle.std.specs.Prelude.{◌≡◌, ◌++◌, OnOk};
ghost use Rattle.view_grade.specs.Keeping.{broken_line, decider_words, decision_words, deciders_words, kept_line, moment_words, place_words, refused_words};

use crate::keeper::Broken;
use crate::text::put_and;
use decision_tasks::Moment;
use io_text::Text;
use std::alloc::AllocError;

/// Writes whether the history of each room kept the task after each command, and if not, where it didn't.
pub(crate) fn write_kept(output: &mut Text, broken: &Option<Broken>) -> Result<(), AllocError>
    ensures { OnOk result (output.new ≡ output.old ++ kept_line broken.now) }
{
    match broken {
        None => output.put(b"decisions allowed: yes\n"),
        Some(broken) => write_broken(output, broken.name.as_slice(), broken.line, &broken.moment),
    }
}

/// Writes after which command the task isn't kept, and what was decided then.
fn write_broken(
    output: &mut Text,
    name: &[u8],
    line: u64,
    moment: &Moment,
) -> Result<(), AllocError>
    ensures { OnOk result (output.new ≡ output.old ++ broken_line name.now line moment.now) }
{
    write_place(output, name, line)?;
    output.put(b": ")?;
    write_moment(output, moment)?;
    output.put(b"\n")
}

/// Writes a room and a line.
fn write_place(output: &mut Text, name: &[u8], line: u64) -> Result<(), AllocError>
    ensures { OnOk result (output.new ≡ output.old ++ place_words name.now line) }
{
    output.put_two(b"decisions allowed: no, room ", name)?;
    put_and(output, b" after line", line)
}

/// Writes what each process has decided, and which of this no line allows.
fn write_moment(output: &mut Text, moment: &Moment) -> Result<(), AllocError>
    ensures { OnOk result (output.new ≡ output.old ++ moment_words moment.now) }
{
    write_deciders(output, moment.decisions.as_slice())?;
    write_refused(output, moment.process as u64, u64::from(moment.value))
}

/// Writes which decision no line allows.
fn write_refused(output: &mut Text, process: u64, value: u64) -> Result<(), AllocError>
    ensures { OnOk result (output.new ≡ output.old ++ refused_words process value) }
{
    put_and(output, b"no line of the task allows that process", process)?;
    put_and(output, b" decided", value)
}

fn write_deciders(output: &mut Text, decisions: &[Option<u32>]) -> Result<(), AllocError>
    ensures { OnOk result (output.new ≡ output.old ++ deciders_words decisions.now) }
{
    for process in 0..decisions.len() {
        write_decider(output, process as u64, decisions[process])?;
    }
    Ok(())
}

/// Writes what a process has decided, if it has.
fn write_decider(output: &mut Text, process: u64, decided: Option<u32>) -> Result<(), AllocError>
    ensures { OnOk result (output.new ≡ output.old ++ decider_words process decided) }
{
    match decided {
        None => Ok(()),
        Some(value) => write_decision(output, process, u64::from(value)),
    }
}

fn write_decision(output: &mut Text, process: u64, value: u64) -> Result<(), AllocError>
    ensures { OnOk result (output.new ≡ output.old ++ decision_words process value) }
{
    put_and(output, b"process", process)?;
    put_and(output, b" decided", value)?;
    output.put(b"; ")
}
