//! The transcript of rooms, as text.
ghost use Rattle.std.specs.Prelude.{◌≡◌, ◌++◌, ℕ, OnOk, List};
ghost use Rattle.std.specs.List.{flat_map};
ghost use Rattle.transcript.specs.declared.event.Event.{Event as EventData};
ghost use Rattle.service_core.specs.Rooms.{room_at};
ghost use Rattle.room_files.specs.BlockLists.{whole_block};
ghost use Rattle.report_text.specs.ReportTexts.{event_lines};
ghost use Rattle.view_transcript.specs.Transcripts.{AreEach, AreEventsFrom, AreWrittenFrom, HasBlock, HasEvents, IsBlockFrom, WrittenRooms, transcript_text};

use crate::kept::Kept;
use indexmap::IndexMap;
use io_text::Text;
use report_text::write_events;
use room_files::write_block;
use room_spec::Name;
use service_core::Service;
use std::alloc::{AllocError, Global};

/// Writes the blocks of all rooms, the line `events`, and the events of each room.
pub(crate) fn write_rooms(
    alloc: Global,
    output: &mut Text,
    service: &Service,
    rooms: &IndexMap<Name, Kept>,
) -> Result<(), AllocError>
    ensures { OnOk result ((written : WrittenRooms) × AreWrittenFrom service.now rooms.now.entries written × (output.new ≡ output.old ++ transcript_text written)) }
{
    write_blocks(alloc, output, service, rooms)?;
    output.put(b"events\n")?;
    write_all_events(alloc, output, service, rooms)
}

fn write_blocks(
    alloc: Global,
    output: &mut Text,
    service: &Service,
    rooms: &IndexMap<Name, Kept>,
) -> Result<(), AllocError>
    ensures { OnOk result ((blocks : List (List ℕ)) × AreEach (IsBlockFrom service.now) rooms.now.entries blocks × (output.new ≡ output.old ++ flat_map whole_block blocks)) }
{
    for index in 0..rooms.len() {
        let Some((name, kept)) = rooms.get_index(index) else {
            unreachable!() // there is an entry of each index below their number
        };
        write_block_of(alloc, output, service, name, kept)?;
    }
    Ok(())
}

/// Writes the block of a room: that which is kept, or of an open room that of its run.
fn write_block_of(
    alloc: Global,
    output: &mut Text,
    service: &Service,
    name: &Name,
    kept: &Kept,
) -> Result<(), AllocError>
    ensures { OnOk result ((block : List ℕ) × HasBlock (room_at service.now name.now) kept.now.block kept.now.events block × (output.new ≡ output.old ++ whole_block block)) }
{
    if kept.events().is_some() {
        return write_block(output, kept.block());
    }
    let Some(room) = service.room(name.as_str().as_bytes()) else {
        return write_block(output, kept.block());
    };
    let block = kept.block_in(alloc, room)?;
    write_block(output, block.as_slice())
}

fn write_all_events(
    alloc: Global,
    output: &mut Text,
    service: &Service,
    rooms: &IndexMap<Name, Kept>,
) -> Result<(), AllocError>
    ensures { OnOk result ((events : List (List ℕ × List EventData)) × AreEach (AreEventsFrom service.now) rooms.now.entries events × (output.new ≡ output.old ++ flat_map (λ one. event_lines one.0 one.1) events)) }
{
    for index in 0..rooms.len() {
        let Some((name, kept)) = rooms.get_index(index) else {
            unreachable!() // there is an entry of each index below their number
        };
        write_events_of(alloc, output, service, name, kept)?;
    }
    Ok(())
}

/// Writes the events of a room: those that are kept, or of an open room those by its notes.
fn write_events_of(
    alloc: Global,
    output: &mut Text,
    service: &Service,
    name: &Name,
    kept: &Kept,
) -> Result<(), AllocError>
    ensures { OnOk result ((events : List EventData) × HasEvents (room_at service.now name.now) kept.now.notes kept.now.events events × (output.new ≡ output.old ++ event_lines name.now events)) }
{
    let bytes = name.as_str().as_bytes();
    if let Some(events) = kept.events() {
        return write_events(output, bytes, events);
    }
    let Some(room) = service.room(bytes) else {
        return Ok(());
    };
    let events = kept.events_in(alloc, room)?;
    write_events(output, bytes, events.as_slice())
}
