//! The lines of a room's report, with no list of its events between.
ghost use Rattle.std.specs.Prelude.{◌≡◌, ◌+◌, ◌<◌, ◌++◌, ◌∷◌, [], IfOk, OnOk, codes, decimal};
ghost use Rattle.protocol_lang.specs.declared.meaning.TheConstants.{MAX_PROCESSES};
ghost use Rattle.transcript.specs.declared.event.Event.{Event as EventData};
ghost use Rattle.ws_history.specs.Reports.{IsReportIn};
ghost use Rattle.ws_history.specs.declared.states.Report.{Report as ReportData};
ghost use Rattle.report_text.specs.ReportTexts.{KeepsLines, report_text};

use crate::events::write_snapshot;
use crate::reports::write_head;
use io_text::{Numeral, ShortText, Text};
use room_core::RoomCore;
use room_spec::{MAX_PROCESSES, Name};
use std::alloc::{AllocError, Global};
use ws_history::{EventSink, Standing, report_to};

/// The lines of a history's events, written as the events come.
#[derive(Drop)]
pub struct EventLines {
    /// The room's name, with which each line begins.
    pub name: ShortText,
    pub text: Text,
    /// How many events the lines are of.
    pub count: usize,
    /// The value that was written last for each process. Most entries of a snapshot show it.
    shown: [Numeral; MAX_PROCESSES],
}

impl EventLines {
    /// Room for the lines of one room after the other.
    pub fn new(alloc: Global) -> EventLines {
        EventLines {
            name: ShortText::of(b""),
            text: Text::new(alloc),
            count: 0,
            shown: [Numeral::of(0); MAX_PROCESSES],
        }
    }

    /// No lines yet, for a room of this name. The memory of the lines before is kept.
    pub fn begin(&mut self, name: &Name)
        ensures { KeepsLines self.new.name self.new.text self.new.count name.now [] }
    {
        self.name = ShortText::of(name.as_str().as_bytes());
        self.text.clear();
        self.count = 0;
    }
}

impl EventSink for EventLines {
    ghost use Rattle.report_text.specs.ReportTexts.{KeepsLines};

    ghost has_taken = { λ lines. KeepsLines lines.name lines.text lines.count };

    #[inline]
    fn write(&mut self, p: u8, v: u32) -> Result<(), AllocError> {
        self.count = one_more(self.count)?;
        let value = &mut self.shown[usize::from(p)];
        value.set(u64::from(v));
        write_value(&mut self.text, &self.name, p, b" write", value)
    }

    #[inline]
    fn snap(&mut self, p: u8, row: &[Option<u32>]) -> Result<(), AllocError> {
        self.count = one_more(self.count)?;
        self.text.put_short(&self.name)?;
        write_snapshot(&mut self.text, &mut self.shown, p, row)?;
        Ok(())
    }

    #[inline]
    fn decide(&mut self, p: u8, v: u32) -> Result<(), AllocError> {
        self.count = one_more(self.count)?;
        write_value(
            &mut self.text,
            &self.name,
            p,
            b" decide",
            &Numeral::of(u64::from(v)),
        )
    }
}

/// A number of events and one more: memory would have failed long before there were too many.
#[inline(always)]
fn one_more(count: usize) -> Result<usize, AllocError>
    ensures { IfOk result (λ more. more ≡ count + 1) }
{
    match count.checked_add(1) {
        Some(more) => Ok(more),
        None => Err(AllocError),
    }
}

/// Writes a line of a room of this name: a process, what it did, and its value.
#[inline(always)]
fn write_value(
    output: &mut Text,
    name: &ShortText,
    p: u8,
    deed: &[u8],
    value: &Numeral,
) -> Result<(), AllocError>
    ensures { OnOk result (output.new ≡ output.old ++
        (name.now ++ (32 ∷ decimal p ++ (deed.now ++ (32 ∷ decimal value.now.value ++ codes "\n"))))) }
{
    output.put_short(name)?;
    output.put_spaced_number(u64::from(p))?;
    output.put(deed)?;
    output.put_spaced_numeral(value)?;
    output.put(b"\n")
}

/// Writes the lines of a report that has this standing, and a history of which these are the lines.
pub fn write_lines(
    output: &mut Text,
    name: &Name,
    standing: &Standing,
    lines: &EventLines,
) -> Result<(), AllocError>
    ensures { OnOk result ((report : ReportData) →
        standing.now.states ≡ report.states → standing.now.crashed ≡ report.crashed →
        KeepsLines lines.now.name lines.now.text lines.now.count name.now report.history →
        output.new ≡ output.old ++ report_text name.now report) }
{
    let name = name.as_str().as_bytes();
    write_head(
        output,
        name,
        standing.states.as_slice(),
        standing.crashed.as_slice(),
        lines.count,
    )?;
    output.put_long(lines.text.as_bytes())?;
    output.put_two(name, b" end\n")
}

/// Writes the lines of a room's report.
///
/// # Errors
///
/// An allocation that fails.
pub fn write_room(
    alloc: Global,
    output: &mut Text,
    lines: &mut EventLines,
    room: &RoomCore,
) -> Result<(), AllocError>
    ensures { OnOk result ((report : ReportData) × IsReportIn room.now report × (output.new ≡ output.old ++ report_text room.now.spec.name report)) }
{
    let name = room.spec().name();
    lines.begin(name);
    let standing = report_to(alloc, room, lines)?;
    write_lines(output, name, &standing, lines)?;
    Ok(())
}
