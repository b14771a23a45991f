//! Rooms, and simulators that are driven alone.
ghost use Rattle.std.specs.Prelude.{◌≡◌, IfOk};

use room_core::RoomCore;
use room_spec::{Spec, read_block};
use ruled_room::{Keeper, RuledRoom, Simulator, Stop};
use scheduler::{Fuse, Gate, drive};
use std::alloc::Global;
use std::test::Fail;
use view_table::words;

pub const ONE: &str =
    "bgsim 1\nroom one\ninputs 5\nsimulators 1\nrounds 1\nturns 10\nprotocol\nfirst input;\nelse decide mine;\nend\n";

pub const PAIR: &str =
    "bgsim 1\nroom pair\ninputs 7 3\nsimulators 2\nrounds 1\nturns 100\nprotocol\nfirst input;\nelse decide min;\nend\n";

/// Its memory takes a whole word: 4 simulators, 8 processes, step numbers of 2 bits.
pub const FULL: &str =
    "bgsim 1\nroom full\ninputs 1 2 3 4 5 6 7 8\nsimulators 4\nrounds 3\nturns 100\nprotocol\nfirst input;else write mine;\nend\n";

pub fn spec(alloc: Global, text: &str) -> Result<Spec, Fail> {
    match read_block(alloc, text.as_bytes()) {
        Ok((spec, _)) => Ok(spec),
        Err(_) => Err(Fail::from("a block")),
    }
}

pub fn fresh(alloc: Global, text: &str) -> Result<(RuledRoom, Keeper), Fail>
    ensures { IfOk result (λ r. r.1.room ≡ r.0) }
{
    Ok(RuledRoom::fresh(alloc, spec(alloc, text)?)?)
}

pub fn give(keeper: &mut Keeper, room: &RuledRoom, i: usize) -> Result<Simulator, Fail>
    requires { keeper.old.room ≡ room.now }
    ensures keeper { keeper.new.room ≡ keeper.old.room }
    ensures simulator { IfOk result (λ simulator. simulator.room ≡ room.now) }
{
    if !keeper.holds(i) {
        return Err(Fail::from("at home"));
    }
    Ok(keeper.give(room, i))
}

pub fn close(alloc: Global, room: RuledRoom, keeper: Keeper) -> Result<RoomCore, Fail>
    requires { keeper.room ≡ room }
{
    match room.close(alloc, keeper) {
        Ok(core) => Ok(core),
        Err(_) => Err(Fail::from("closed")),
    }
}

/// How long a simulator is driven, and whether it is taken back as crashed.
#[derive(Drop)]
pub struct Drive {
    pub fuse: Fuse,
    pub crashes: bool,
}

/// Drives simulator `i` until it stops, and takes it back. Gives why it stopped.
pub fn drive_one<G: Gate>(
    room: &RuledRoom,
    keeper: &mut Keeper,
    i: usize,
    how: Drive,
    gate: &G,
) -> Result<&'static str, Fail>
    requires { keeper.old.room ≡ room.now }
    ensures { keeper.new.room ≡ keeper.old.room }
{
    let mut simulator = give(keeper, room, i)?;
    let stop = drive(&mut simulator, room, &how.fuse, gate);
    let end = if how.crashes {
        Stop::Crashed
    } else {
        Stop::Idle
    };
    keeper.take_back(room, simulator, end);
    Ok(reason(stop))
}

/// Why a simulator stopped, in words.
pub fn reason(stop: Stop) -> &'static str {
    match stop {
        Stop::Idle => "idle",
        Stop::OutOfTurns => "out of turns",
        Stop::Crashed => "crashed",
    }
}

/// How many steps and turns simulator `i` has taken, and whether it has crashed, if there is one.
pub fn state_of(room: &RoomCore, i: usize) -> Option<(u64, u64, bool)> {
    if i >= room.spec().m() {
        return None;
    }
    let mind = room.mind(i);
    Some((mind.steps_taken(), mind.turns_taken(), room.is_crashed(i)))
}

/// The word at this index, if the room has one there.
pub fn word_at(room: &RoomCore, index: usize) -> Option<u64> {
    if index < words(&room.spec().shape()) {
        Some(room.word(index))
    } else {
        None
    }
}
