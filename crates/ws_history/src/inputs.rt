//! The inputs of a room's processes, on which the simulators of a reduction agree.
ghost use Rattle.std.specs.Prelude.{◌≡◌, ◌<◌, ℕ, Some, length, slice_index_or, None, true, Contains};
ghost use Rattle.protocol_lang.specs.Numbers.{greatest};
ghost use Rattle.room_spec.specs.Rooms.{is_reduction, processes};
ghost use Rattle.transcript.specs.Reductions.{AreFromOwn};
ghost use Rattle.room_core.specs.Agreements.{agreed_input, input_at, run_spec};
ghost use Rattle.room_core.specs.Fields.{Fields};
ghost use Rattle.room_core.specs.Reading.{AreFieldsOf};
ghost use Rattle.ws_history.specs.Inputs.{inputs_of};
ghost use Rattle.ws_history.specs.Readings.{read_of};

use crate::reading::{process_count, shape_of};
use arrayvec::ArrayVec;
use room_core::RoomCore;
use room_spec::MAX_PROCESSES;

/// The input of each process that the simulators have agreed on, in order of the processes: `None` for one of which none has the
/// input yet. An ordinary room, which gives each process its input, has none that was agreed on.
pub fn process_inputs(room: &RoomCore) -> ArrayVec<Option<u32>, MAX_PROCESSES>
    ensures fields { (fields : Fields) → AreFieldsOf room.now fields → result.items ≡ inputs_of room.now.spec fields }
    // Each is a simulator's own.
    ensures own { (j input : ℕ) → j < processes room.now.spec → slice_index_or result.items j None ≡ Some input → Contains room.now.spec.own input }
{
    let _shape = shape_of(room); // for the proof: the room is within its limits
    let mut inputs = ArrayVec::new();
    for j in 0..process_count(room) {
        inputs.push(room.input(j));
    }
    inputs
}

/// The inputs of the run that the room's history is, in order of the processes: those that the simulators have agreed on, and for each other
/// process, which has done nothing, that of the first simulator. In an ordinary room they are the room's.
pub fn run_inputs(room: &RoomCore) -> ArrayVec<u32, MAX_PROCESSES>
    ensures fields { (fields : Fields) → AreFieldsOf room.now fields → result.items ≡ (run_spec room.now.spec fields).inputs }
    // In a reduction each is a simulator's own.
    ensures from_own { is_reduction room.now.spec ≡ true → AreFromOwn room.now.spec result.items }
{
    let _shape = shape_of(room); // for the proof: the room stands for some fields
    inputs_in(room)
}

fn inputs_in(room: &RoomCore) -> ArrayVec<u32, MAX_PROCESSES>
    ensures { result.items ≡ (run_spec room.now.spec (read_of room.now)).inputs }
{
    let mut inputs = ArrayVec::new();
    for j in 0..process_count(room) {
        inputs.push(input_at(room, j));
    }
    inputs
}

/// The input of process `j` in the run.
pub(crate) fn input_at(room: &RoomCore, j: usize) -> u32
    requires { j < processes room.now.spec }
    ensures { result ≡ input_at room.now.spec (read_of room.now) j }
{
    let _shape = shape_of(room); // for the proof: the room stands for some fields
    match room.input(j) {
        Some(input) => input,
        None => room.spec().input(j),
    }
}
