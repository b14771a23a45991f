//! The lines that say what became of blocks and rooms.
ghost use Rattle.std.specs.Prelude.{◌≡◌, ◌++◌, OnOk, codes, decimal};
ghost use Rattle.protocol_lang.specs.Faults.{code_of};
ghost use Rattle.protocol_lang.specs.FirstFaults.{place_of};
ghost use Rattle.room_files.specs.Blocks.{fault_text, numbers_after, protocol_text, refused_line};
ghost use Rattle.room_files.specs.Reports.{task_line, verdict_line};

use history_checker::{TaskVerdict, Verdict};
use io_text::Text;
use protocol_lang::ParseFault;
use room_spec::{Name, SpecFault};
use std::alloc::AllocError;

/// Writes the line of a block that was refused for this fault, whose first line has this number.
pub fn write_refused(output: &mut Text, line: u64, fault: SpecFault) -> Result<(), AllocError>
    ensures { OnOk result (output.new ≡ output.old ++ refused_line line (fault_text fault)) }
{
    write_code(output, line, fault.code())?;
    write_numbers(output, fault)?;
    output.put(b"\n")
}

/// Writes the line of a block that was refused for a fault that its code alone says, whose first line
/// has this number.
pub fn write_refused_code(output: &mut Text, line: u64, code: u16) -> Result<(), AllocError>
    ensures { OnOk result (output.new ≡ output.old ++ refused_line line (decimal code)) }
{
    write_code(output, line, code)?;
    output.put(b"\n")
}

fn write_code(output: &mut Text, line: u64, code: u16) -> Result<(), AllocError>
    ensures { OnOk result (output.new ≡ output.old ++ (codes "line " ++ (decimal line ++ (codes " refused " ++ decimal code)))) }
{
    output.put(b"line")?;
    output.put_spaced_number(line)?;
    output.put(b" refused")?;
    output.put_spaced_number(u64::from(code))
}

/// Writes the numbers after the code of a block's fault: its line, or what is wrong with the protocol.
fn write_numbers(output: &mut Text, fault: SpecFault) -> Result<(), AllocError>
    ensures { OnOk result (output.new ≡ output.old ++ numbers_after fault) }
{
    match fault {
        SpecFault::BadLine(line)
        | SpecFault::CrashLine(line)
        | SpecFault::Repeated(line)
        | SpecFault::TaskLine(line) => output.put_spaced_number(line as u64),
        SpecFault::BadProtocol(fault) => write_protocol_fault(output, fault),
        SpecFault::Truncated
        | SpecFault::BadName
        | SpecFault::Inputs
        | SpecFault::Simulators
        | SpecFault::Rounds
        | SpecFault::Turns
        | SpecFault::TooWide
        | SpecFault::Processes => Ok(()),
    }
}

fn write_protocol_fault(output: &mut Text, fault: ParseFault) -> Result<(), AllocError>
    ensures { OnOk result (output.new ≡ output.old ++ (codes " " ++ protocol_text (code_of fault) (place_of fault))) }
{
    output.put_spaced_number(u64::from(fault.code()))?;
    match fault.place() {
        Some(place) => output.put_spaced_number(place as u64),
        None => Ok(()),
    }
}

/// Writes the line of a room's verdict.
pub fn write_verdict(output: &mut Text, name: &Name, verdict: Verdict) -> Result<(), AllocError>
    ensures { OnOk result (output.new ≡ output.old ++ verdict_line name.now verdict) }
{
    match verdict {
        Verdict::Run => output.put_two(name.as_str().as_bytes(), b" is a run\n"),
        Verdict::Broken(line) => write_broken(output, name, b" is not a run: line", line),
    }
}

/// Writes the line on the task of a room whose events are a run, if the room has a task.
pub fn write_task(
    output: &mut Text,
    name: &Name,
    verdict: Verdict,
    task: Option<TaskVerdict>,
) -> Result<(), AllocError>
    ensures { OnOk result (output.new ≡ output.old ++ task_line name.now verdict task) }
{
    match (verdict, task) {
        (Verdict::Run, Some(TaskVerdict::Holds)) => {
            output.put_two(name.as_str().as_bytes(), b" task holds\n")
        }
        (Verdict::Run, Some(TaskVerdict::Broken(line))) => {
            write_broken(output, name, b" task broken: line", line)
        }
        _ => Ok(()),
    }
}

/// Writes what is broken, in these words, and the number of the line that breaks it.
fn write_broken(output: &mut Text, name: &Name, words: &[u8], line: u64) -> Result<(), AllocError>
    ensures { OnOk result (output.new ≡ output.old ++ (name.now ++ (words.now ++ (codes " " ++ (decimal line ++ codes "\n"))))) }
{
    output.put_two(name.as_str().as_bytes(), words)?;
    output.put_spaced_number(line)?;
    output.put(b"\n")
}
