//! The lines of events.
ghost use Rattle.std.specs.Prelude.{◌≡◌, ◌≤◌, ◌++◌, ◌∷◌, OnOk, codes, decimal, length};
ghost use Rattle.protocol_lang.specs.declared.meaning.TheConstants.{MAX_PROCESSES};
ghost use Rattle.io_text.specs.Numbers.{entries_text};
ghost use Rattle.transcript.specs.Grammar.{event_line};
ghost use Rattle.report_text.specs.ReportTexts.{event_lines};

use crate::reports::write_end;
use io_text::{Numeral, Text};
use room_spec::MAX_PROCESSES;
use std::alloc::AllocError;
use transcript::Event;

/// Writes the events' lines. Most entries of a snapshot show what they did in the one before, so the
/// number that was shown last at each place of a row is kept as text.
pub fn write_events(output: &mut Text, name: &[u8], events: &[Event]) -> Result<(), AllocError>
    ensures { OnOk result (output.new ≡ output.old ++ event_lines name.now events.now) }
{
    let mut shown = [Numeral::of(0); MAX_PROCESSES];
    for event in events {
        write_event(output, name, &mut shown, event)?;
    }
    Ok(())
}

fn write_event(
    output: &mut Text,
    name: &[u8],
    shown: &mut [Numeral; MAX_PROCESSES],
    event: &Event,
) -> Result<(), AllocError>
    ensures { OnOk result (output.new ≡ output.old ++ (event_line name.now event.now ++ codes "\n")) }
{
    output.put(name)?;
    match event {
        Event::Write { p, v } => write_value(output, *p, b" write", *v),
        Event::Snap { p, row } => write_snapshot(output, shown, *p, row.as_slice()),
        Event::Decide { p, v } => write_value(output, *p, b" decide", *v),
    }
}

/// Writes the end of a line: a process, what it did, and its value.
fn write_value(output: &mut Text, p: u8, deed: &[u8], v: u32) -> Result<(), AllocError>
    ensures { OnOk result (output.new ≡ output.old ++ (32 ∷ decimal p ++ (deed.now ++ (codes " " ++ (decimal v ++ codes "\n"))))) }
{
    output.put_spaced_number(u64::from(p))?;
    write_end(output, deed, u64::from(v))
}

/// Writes the end of a line: a process, and the snapshot that it took.
pub(crate) fn write_snapshot(
    output: &mut Text,
    shown: &mut [Numeral; MAX_PROCESSES],
    p: u8,
    entries: &[Option<u32>],
) -> Result<(), AllocError>
    requires { length entries.now ≤ MAX_PROCESSES }
    ensures { OnOk result (output.new ≡ output.old ++ (32 ∷ decimal p ++
        (codes " snap" ++ (entries_text entries.now ++ codes "\n")))) }
{
    output.put_spaced_number(u64::from(p))?;
    output.put(b" snap")?;
    output.put_row(entries, shown)?;
    output.put(b"\n")
}
