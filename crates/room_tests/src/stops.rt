//! Where the turns of a simulator end, and why it stops.
ghost use Rattle.std.specs.Prelude.{◌≡◌};

use crate::fixture::{Drive, FULL, PAIR, close, drive_one, fresh, give, reason, state_of};
use crate::workers::Watch;
use room_core::RoomCore;
use ruled_room::{RuledRoom, Simulator};
use scheduler::{FreeGate, Fuse, Gate, turn};
use std::alloc::Global;
use std::test::*;

/// Takes a turn with this fuse, which the open one or the next is, and gives why the simulator then stops, if it does.
fn turned(room: &RuledRoom, simulator: &mut Simulator, fuse: Fuse) -> &'static str
    requires { simulator.old.room ≡ room.now }
    ensures { simulator.new.room ≡ simulator.old.room }
{
    match turn(simulator, room, &fuse) {
        Some(stop) => reason(stop),
        None => "goes on",
    }
}

/// A fuse, why the simulator stops in a turn with it, if it does, and how many steps it has taken by then.
type TurnRow = (Fuse, &'static str, u64);

/// Takes turn after turn. Says whether each ends so, and the simulator then has nothing left to do.
fn turns_come(room: &RuledRoom, simulator: &mut Simulator, turns: &[TurnRow]) -> bool
    requires { simulator.old.room ≡ room.now }
    ensures { simulator.new.room ≡ simulator.old.room }
{
    for (fuse, wanted, steps) in turns {
        let found = turned(room, simulator, *fuse);
        if found != *wanted || simulator.mind().steps_taken() != *steps {
            return false;
        }
    }
    simulator.resting() && simulator.mind().unfinished() == 0
}

fn turns_of_pair(alloc: Global, turns: &[TurnRow]) -> Result<bool, Fail> {
    let (room, mut keeper) = fresh(alloc, PAIR)?;
    let mut simulator = give(&mut keeper, &room, 0)?;
    Ok(turns_come(&room, &mut simulator, turns))
}

#[test]
fn one_turn_after_the_other(rt: HostRuntime) -> Result<(), Fail> {
    let turns = [
        (Fuse::after(23), "goes on", 11),
        (Fuse::after(23), "goes on", 23),
        // The fuse comes before what the step would find.
        (Fuse::after(23), "crashed", 23),
        (Fuse::none(), "idle", 23),
    ];
    assert!(rt; turns_of_pair(rt.alloc(), turns.as_slice())?);
    Ok(())
}

/// A room whose simulator `i` was driven alone, and why it stopped.
fn driven<G: Gate>(
    alloc: Global,
    text: &str,
    i: usize,
    fuse: Fuse,
    gate: &G,
) -> Result<(RoomCore, &'static str), Fail> {
    let (room, mut keeper) = fresh(alloc, text)?;
    let how = Drive {
        fuse,
        crashes: false,
    };
    let stop = drive_one(&room, &mut keeper, i, how, gate)?;
    Ok((close(alloc, room, keeper)?, stop))
}

/// A simulator of this room has one turn.
const SHORT: &str =
    "bgsim 1\nroom pair\ninputs 7 3\nsimulators 2\nrounds 1\nturns 1\nprotocol\nfirst input;\nelse decide min;\nend\n";

/// Whether simulator 0, driven alone with this fuse, stops for this reason, after these steps and turns, and simulator 1 has taken none.
fn stops_so(
    alloc: Global,
    text: &str,
    fuse: Fuse,
    wanted: &str,
    taken: (u64, u64),
) -> Result<bool, Fail> {
    let (room, stop) = driven(alloc, text, 0, fuse, &FreeGate)?;
    Ok(
        stop == wanted
            && state_of(&room, 0) == Some((taken.0, taken.1, false))
            && state_of(&room, 1) == Some((0, 0, false)),
    )
}

#[test]
fn driven_until_it_stops(rt: HostRuntime) -> Result<(), Fail> {
    for (text, fuse, wanted, taken) in [
        (PAIR, Fuse::none(), "idle", (23, 2)),
        (PAIR, Fuse::after(24), "idle", (23, 2)),
        (PAIR, Fuse::after(23), "crashed", (23, 2)),
        (PAIR, Fuse::after(5), "crashed", (5, 1)),
        (PAIR, Fuse::after(0), "crashed", (0, 0)),
        (SHORT, Fuse::none(), "out of turns", (11, 1)),
        (FULL, Fuse::after(381), "idle", (380, 24)),
    ] {
        assert!(rt;
            stops_so(rt.alloc(), text, fuse, wanted, taken)?,
            "{wanted} in {text}"
        );
    }
    Ok(())
}

#[test]
fn the_gate_is_passed_before_each_turn(rt: HostRuntime) -> Result<(), Fail> {
    let gate = Watch::new(0, 0);
    let (_, stop) = driven(rt.alloc(), PAIR, 1, Fuse::none(), &gate)?;
    assert!(rt; stop == "idle" && gate.has_seen(2, 0, 3));
    Ok(())
}
