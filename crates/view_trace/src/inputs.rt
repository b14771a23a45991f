//! The inputs that the processes of a reduction have, under its reports.
ghost use Rattle.std.specs.Prelude.{◌≡◌, ◌++◌, OnOk};
ghost use Rattle.service_core.specs.Rooms.{room_at};
ghost use Rattle.room_core.specs.Calls.{input_of};
ghost use Rattle.view_trace.specs.Inputs.{input_line, input_lines, inputs_in, inputs_shown, inputs_under, known_inputs, process_words};

use crate::decisions::{write_number, write_value};
use arrayvec::ArrayVec;
use io_text::Text;
use room_core::RoomCore;
use room_spec::MAX_PROCESSES;
use service_core::{Reply, Service};
use std::alloc::AllocError;

/// Writes under a report of the room of this name, if it is a reduction, which input each of its processes has, in text.
pub(crate) fn write_inputs<const JSON: bool>(
    output: &mut Text,
    reply: &Reply,
    rooms: &Service,
    name: &[u8],
) -> Result<(), AllocError>
    ensures { OnOk result (output.new ≡ output.old ++ inputs_under reply.now JSON (room_at rooms.now name.now)) }
{
    match reply {
        Reply::Report(_) => show_inputs::<JSON>(output, rooms, name),
        Reply::Begun
        | Reply::Steps { .. }
        | Reply::Crash(_)
        | Reply::Settled
        | Reply::Closed
        | Reply::Refused(_) => Ok(()),
    }
}

fn show_inputs<const JSON: bool>(
    output: &mut Text,
    rooms: &Service,
    name: &[u8],
) -> Result<(), AllocError>
    ensures { OnOk result (output.new ≡ output.old ++ inputs_shown JSON (room_at rooms.now name.now)) }
{
    if JSON {
        return Ok(());
    }
    match rooms.room(name) {
        None => Ok(()),
        Some(room) => write_inputs_in(output, room),
    }
}

fn write_inputs_in(output: &mut Text, room: &RoomCore) -> Result<(), AllocError>
    ensures { OnOk result (output.new ≡ output.old ++ inputs_in room.now) }
{
    if room.spec().is_reduction() {
        write_lines(output, room)
    } else {
        Ok(())
    }
}

/// The input of each process, as far as it is agreed on.
pub(crate) fn known_inputs(room: &RoomCore) -> ArrayVec<Option<u32>, MAX_PROCESSES>
    ensures { result.items ≡ known_inputs room.now }
{
    let mut inputs = ArrayVec::new();
    for process in 0..room.spec().n() {
        inputs.push(room.input(process));
    }
    inputs
}

fn write_lines(output: &mut Text, room: &RoomCore) -> Result<(), AllocError>
    ensures { OnOk result (output.new ≡ output.old ++ input_lines room.now) }
{
    for process in 0..room.spec().n() {
        write_line(output, process, room.input(process))?;
    }
    Ok(())
}

fn write_line(output: &mut Text, process: usize, input: Option<u32>) -> Result<(), AllocError>
    ensures { OnOk result (output.new ≡ output.old ++ input_line process input) }
{
    match input {
        None => write_process(output, process, b" has no input yet\n"),
        Some(value) => {
            write_process(output, process, b" has the input")?;
            write_value(output, value)
        }
    }
}

/// Writes that this process has what these words say.
#[tactic(auto, unfolding(crate::specs::Inputs::process_words))]
fn write_process(output: &mut Text, process: usize, what: &[u8]) -> Result<(), AllocError>
    ensures { OnOk result (output.new ≡ output.old ++ process_words process what.now) }
{
    write_number(output, b"    process", process as u64, what)
}
