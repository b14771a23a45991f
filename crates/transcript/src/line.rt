//! Event lines.
ghost use Rattle.std.specs.Prelude.{◌≡◌, [], ◌∷◌, ◌++◌, ◌≤◌, ℕ, List, decimal, length, map, string_bytes, IfOk};
ghost use Rattle.std.specs.List.{join_with_byte};
ghost use Rattle.std.specs.Result.{OnOk};
ghost use Rattle.transcript.specs.Faults.{fault_in, first_fault};
ghost use Rattle.transcript.specs.Grammar.{entry_text, event_line, HasValues, IsEventLine};
ghost use Rattle.transcript.specs.Lines.{line_in};
ghost use Rattle.transcript.specs.Runs.{process_of};
ghost use Rattle.transcript.specs.declared.event_line.TheConstants.{MAX_PROCESS};

use crate::event::Event;
use crate::event_line::{EventLine, MAX_LINE};
use crate::fault::LineFault;
use itoa::Buffer;
use room_spec::Name;
use std::alloc::{AllocError, Global};

/// Reads an event line, without its line end: the room's name and the event.
pub fn read_line(line: &[u8]) -> Result<(Name, Event), LineFault>
    // What is read is what the line says.
    ensures sound { IfOk result (λ read. IsEventLine line.now read.0 read.1) }
    // What a line says is read.
    ensures complete { (name : List ℕ) (event : Event) → IsEventLine line.now name event → result ≡ Ok (name, event) }
    ensures short { IfOk result (λ read. length line.now ≤ MAX_LINE) }
    // It is the first of the line's faults, in the order of the format.
    ensures first { fault_in result ≡ first_fault line.now }
    ensures exact { result ≡ line_in line.now }
{
    read_named_event(line)
}

/// Cuts the line into its parts, and reads these.
fn read_named_event(line: &[u8]) -> Result<(Name, Event), LineFault>
    ensures { result ≡ line_in line.now }
{
    EventLine::split(line)?.read()
}

/// Writes the line of an event in the room of this name, without a line end. The one error is an
/// allocation that failed.
pub fn write_event(alloc: Global, name: &Name, event: &Event) -> Result<Vec<u8>, AllocError>
    ensures line { IfOk result (λ line. line.items ≡ event_line name.now event.now) }
    // An event of a process 0 to 15, with a row of 1 to 16 entries in a snapshot, is read again from it.
    ensures again { process_of event.now ≤ MAX_PROCESS → HasValues event.now → IfOk result (λ line. line_in line.items ≡ Ok (name.now, event.now)) }
{
    let mut line = String::with_capacity(alloc, MAX_LINE)?;
    append_named_event(&mut line, name.as_str(), event)?;
    Ok(line.into_bytes())
}

/// Writes the line of an event in the room of this name after the text, without a line end. The one
/// error is an allocation that failed.
pub fn append_event(text: &mut String, name: &Name, event: &Event) -> Result<(), AllocError>
    ensures { OnOk result (string_bytes text.new ≡ string_bytes text.old ++ event_line name.now event.now) }
{
    append_named_event(text, name.as_str(), event)
}

/// Writes the name and the fields after it.
fn append_named_event(text: &mut String, name: &str, event: &Event) -> Result<(), AllocError>
    ensures { OnOk result (string_bytes text.new ≡ string_bytes text.old ++ event_line name.now event.now) }
{
    text.push_str(name)?;
    match event {
        Event::Write { p, v } => write_value(text, *p, " write", *v),
        Event::Snap { p, row } => {
            write_number(text, u32::from(*p))?;
            text.push_str(" snap")?;
            write_entries(text, row.as_slice())
        }
        Event::Decide { p, v } => write_value(text, *p, " decide", *v),
    }
}

/// Writes a process and its value, each after a space, and between them the word for what it did.
fn write_value(text: &mut String, p: u8, word: &str, v: u32) -> Result<(), AllocError>
    ensures { OnOk result (string_bytes text.new ≡ string_bytes text.old ++ 32 ∷ (decimal p ++ word.now ++ 32 ∷ decimal v)) }
{
    write_number(text, u32::from(p))?;
    text.push_str(word)?;
    write_number(text, v)
}

/// Writes the entries of a snapshot, each after a space.
fn write_entries(line: &mut String, entries: &[Option<u32>]) -> Result<(), AllocError>
    ensures { OnOk result (string_bytes line.new ≡ join_with_byte 32 (string_bytes line.old ∷ map entry_text entries.now)) }
{
    for entry in entries {
        write_entry(line, *entry)?;
    }
    Ok(())
}

/// Writes a space and an entry: a value, or `.` for nothing.
fn write_entry(line: &mut String, entry: Option<u32>) -> Result<(), AllocError>
    ensures { OnOk result (string_bytes line.new ≡ join_with_byte 32 (string_bytes line.old ∷ entry_text entry ∷ [])) }
{
    match entry {
        Some(value) => write_number(line, value),
        None => line.push_str(" ."),
    }
}

/// Writes a space and a number.
fn write_number(line: &mut String, number: u32) -> Result<(), AllocError>
    ensures { OnOk result (string_bytes line.new ≡ string_bytes line.old ++ 32 ∷ decimal number) }
{
    line.push_str(" ")?;
    line.push_str(Buffer::new().format(number))
}
