//! Which inputs the processes of a room have.
ghost use Rattle.std.specs.Prelude.{◌≡◌, ◌<◌};
ghost use Rattle.room_spec.specs.Rooms.{processes};
ghost use Rattle.service_core.specs.Rooms.{room_at};
ghost use Rattle.view_grade.specs.Inputs.{input_at, inputs_at, inputs_of};

use arrayvec::ArrayVec;
use room_core::RoomCore;
use room_spec::MAX_PROCESSES;
use service_core::Service;

/// Which input each process of the room of this name has, if there is one.
pub(crate) fn inputs_at(rooms: &Service, name: &[u8]) -> ArrayVec<Option<u32>, MAX_PROCESSES>
    ensures { result.items ≡ inputs_at (room_at rooms.now name.now) }
{
    match rooms.room(name) {
        Some(room) => inputs_of(room),
        None => ArrayVec::new(),
    }
}

/// Which input each process has, by their numbers.
fn inputs_of(room: &RoomCore) -> ArrayVec<Option<u32>, MAX_PROCESSES>
    ensures { result.items ≡ inputs_of room.now }
{
    let mut inputs = ArrayVec::new();
    for process in 0..room.spec().n() {
        inputs.push(input_at(room, process));
    }
    inputs
}

/// The input of a process: in a reduction the one that was agreed on, once a simulator has it; else the block's.
fn input_at(room: &RoomCore, process: usize) -> Option<u32>
    requires { process < processes room.now.spec }
    ensures { result ≡ input_at room.now process }
{
    if room.spec().is_reduction() {
        room.input(process)
    } else {
        Some(room.spec().input(process))
    }
}
