//! The lines of reports.
ghost use Rattle.std.specs.Prelude.{◌≡◌, ◌++◌, OnOk, codes, decimal};
ghost use Rattle.io_text.specs.Numbers.{numbers_text};
ghost use Rattle.report_text.specs.ReportTexts.{process_line, process_lines, report_text, state_text};

use crate::events::write_events;
use io_text::Text;
use std::alloc::AllocError;
use ws_history::{ProcessState, Report};

/// Writes the lines of a room's report.
pub fn write_report(output: &mut Text, name: &[u8], report: &Report) -> Result<(), AllocError>
    ensures { OnOk result (output.new ≡ output.old ++ report_text name.now report.now) }
{
    let events = report.history.events();
    write_head(
        output,
        name,
        report.states.as_slice(),
        report.crashed.as_slice(),
        events.len(),
    )?;
    write_events(output, name, events)?;
    output.put_two(name, b" end\n")
}

/// Writes the lines of a report up to the number of its events.
pub(crate) fn write_head(
    output: &mut Text,
    name: &[u8],
    states: &[ProcessState],
    crashed: &[u8],
    count: usize,
) -> Result<(), AllocError>
    ensures { OnOk result (output.new ≡ output.old ++ ((name.now ++ codes " report\n")
        ++ (process_lines name.now states.now
        ++ ((name.now ++ (codes " crashed" ++ (numbers_text crashed.now ++ codes "\n")))
        ++ (name.now ++ (codes " history " ++ (decimal count ++ codes "\n"))))))) }
{
    output.put_two(name, b" report\n")?;
    write_processes(output, name, states)?;
    write_crashed(output, name, crashed)?;
    write_count(output, name, count)
}

/// Writes a line for each process, in order of their numbers: its state.
pub fn write_processes(
    output: &mut Text,
    name: &[u8],
    states: &[ProcessState],
) -> Result<(), AllocError>
    ensures { OnOk result (output.new ≡ output.old ++ process_lines name.now states.now) }
{
    for process in 0..states.len() {
        write_process(output, name, process, states[process])?;
    }
    Ok(())
}

fn write_process(
    output: &mut Text,
    name: &[u8],
    process: usize,
    state: ProcessState,
) -> Result<(), AllocError>
    ensures { OnOk result (output.new ≡ output.old ++ process_line name.now process state) }
{
    output.put_two(name, b" process")?;
    output.put_spaced_number(process as u64)?;
    write_state(output, state)
}

/// Writes the end of a process's line.
fn write_state(output: &mut Text, state: ProcessState) -> Result<(), AllocError>
    ensures { OnOk result (output.new ≡ output.old ++ (codes " " ++ (state_text state ++ codes "\n"))) }
{
    match state {
        ProcessState::Decided(value) => write_end(output, b" decided", u64::from(value)),
        ProcessState::Spent => output.put(b" spent\n"),
        ProcessState::Held(sim) => write_end(output, b" held", u64::from(sim)),
        ProcessState::Going => output.put(b" going\n"),
    }
}

/// Writes the end of a line: words, and a number after them.
pub(crate) fn write_end(output: &mut Text, words: &[u8], number: u64) -> Result<(), AllocError>
    ensures { OnOk result (output.new ≡ output.old ++ (words.now ++ (codes " " ++ (decimal number ++ codes "\n")))) }
{
    output.put(words)?;
    output.put_spaced_number(number)?;
    output.put(b"\n")
}

fn write_crashed(output: &mut Text, name: &[u8], crashed: &[u8]) -> Result<(), AllocError>
    ensures { OnOk result (output.new ≡ output.old ++ (name.now ++ (codes " crashed" ++ (numbers_text crashed.now ++ codes "\n")))) }
{
    output.put_two(name, b" crashed")?;
    output.put_spaced_numbers(crashed)?;
    output.put(b"\n")
}

fn write_count(output: &mut Text, name: &[u8], count: usize) -> Result<(), AllocError>
    ensures { OnOk result (output.new ≡ output.old ++ (name.now ++ (codes " history " ++ (decimal count ++ codes "\n")))) }
{
    output.put(name)?;
    write_end(output, b" history", count as u64)
}
