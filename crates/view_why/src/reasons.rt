//! A reason in words.
ghost use Rattle.std.specs.Prelude.{◌≡◌, ◌++◌, OnOk, codes};
ghost use Rattle.view_why.specs.Words.{action_words, break_words, entry_words, lacking_words, line_words, next_words, process_words, reason_words};
ghost use Rattle.view_why.specs.Words.{shown_of, shown_words, written_words};

use crate::inputs::write_no_input;
use history_checker::{LastWrite, Reason, Turn};
use io_text::Text;
use protocol_lang::Action;
use std::alloc::AllocError;
use transcript::Event;

/// Writes why an event may not come in a room whose simulators have these inputs of their own.
pub fn write_break(
    output: &mut Text,
    own: &[u32],
    event: &Event,
    reason: Option<Reason>,
    earlier: Option<u64>,
) -> Result<(), AllocError>
    ensures { OnOk result (output.new ≡ output.old ++ break_words own.now event.now reason earlier) }
{
    match reason {
        None => write_no_input(output, own, event),
        Some(reason) => write_reason(output, event, reason, earlier),
    }
}

/// Writes why an event may not come. A write that the reason rests on is on line `earlier`.
fn write_reason(
    output: &mut Text,
    event: &Event,
    reason: Reason,
    earlier: Option<u64>,
) -> Result<(), AllocError>
    ensures { OnOk result (output.new ≡ output.old ++ reason_words event.now reason earlier) }
{
    let owner = u64::from(event.process());
    match reason {
        Reason::NoProcess => write_of_process(output, b"the room has no process", owner, b""),
        Reason::OtherLength => output.put(b"the snapshot hasn't one entry for each process"),
        Reason::OutOfTurn { next } => {
            write_of_process(output, b"process", owner, b" can't do this now: ")?;
            write_next(output, next)
        }
        Reason::OtherAction { asked } => {
            write_of_process(output, b"the protocol asks process", owner, b" to ")?;
            write_action(output, asked)
        }
        Reason::WrongEntry { process, written } => {
            write_shown(output, process as u64, shown_of(event, process))?;
            write_lacking(output, process as u64, written, earlier)
        }
        Reason::TooManyWrites => write_of_process(
            output,
            b"process",
            owner,
            b" has made all its writes",
        ),
    }
}

/// What the event shows of this process.
pub(crate) fn shown_of(event: &Event, process: usize) -> Option<u32>
    ensures { result ≡ shown_of event.now process }
{
    match event {
        Event::Snap { row, .. } => row.get(process).copied().unwrap_or(None),
        _ => None,
    }
}

/// Puts a number between words.
pub(crate) fn write_of_process(
    output: &mut Text,
    before: &[u8],
    process: u64,
    behind: &[u8],
) -> Result<(), AllocError>
    ensures { OnOk result (output.new ≡ output.old ++ process_words before.now process behind.now) }
{
    output.put(before)?;
    output.put_spaced_number(process)?;
    output.put(behind)
}

fn write_next(output: &mut Text, next: Turn) -> Result<(), AllocError>
    ensures { OnOk result (output.new ≡ output.old ++ next_words next) }
{
    match next {
        Turn::Write(v) => write_value(output, b"it may write", v),
        Turn::Snap => output.put(b"it may take a snapshot"),
        Turn::Decide(v) => write_value(output, b"it may decide", v),
        Turn::Over => output.put(b"nothing is left for it to do"),
    }
}

fn write_action(output: &mut Text, action: Action) -> Result<(), AllocError>
    ensures { OnOk result (output.new ≡ output.old ++ action_words action) }
{
    match action {
        Action::Write(v) => write_value(output, b"write", v),
        Action::Decide(v) => write_value(output, b"decide", v),
    }
}

fn write_value(output: &mut Text, before: &[u8], v: u32) -> Result<(), AllocError>
    ensures { OnOk result (output.new ≡ output.old ++ process_words before.now v (codes "")) }
{
    output.put(before)?;
    output.put_spaced_number(u64::from(v))
}

fn write_shown(output: &mut Text, process: u64, shown: Option<u32>) -> Result<(), AllocError>
    ensures { OnOk result (output.new ≡ output.old ++ shown_words process shown) }
{
    write_of_process(output, b"entry", process, b" of the snapshot is ")?;
    write_entry(output, shown)
}

fn write_lacking(
    output: &mut Text,
    process: u64,
    written: Option<LastWrite>,
    earlier: Option<u64>,
) -> Result<(), AllocError>
    ensures { OnOk result (output.new ≡ output.old ++ lacking_words process written earlier) }
{
    write_of_process(output, b", but process", process, b" had written ")?;
    write_written(output, written, earlier)
}

fn write_entry(output: &mut Text, entry: Option<u32>) -> Result<(), AllocError>
    ensures { OnOk result (output.new ≡ output.old ++ entry_words entry) }
{
    match entry {
        Some(v) => write_value(output, b"the value", v),
        None => output.put(b"nothing"),
    }
}

fn write_written(
    output: &mut Text,
    written: Option<LastWrite>,
    earlier: Option<u64>,
) -> Result<(), AllocError>
    ensures { OnOk result (output.new ≡ output.old ++ written_words written earlier) }
{
    match written {
        None => output.put(b"nothing by then"),
        Some(last) => {
            write_value(output, b"the value", last.value)?;
            output.put(b" by then")?;
            write_line(output, earlier)
        }
    }
}

fn write_line(output: &mut Text, line: Option<u64>) -> Result<(), AllocError>
    ensures { OnOk result (output.new ≡ output.old ++ line_words line) }
{
    match line {
        None => Ok(()),
        Some(line) => write_of_process(output, b" (line", line, b")"),
    }
}
