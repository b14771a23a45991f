//! Rooms on shared words: stepped in one order as rooms on words of their own, and by two threads at the same time.
ghost use Rattle.std.specs.Prelude.{◌≡◌, IfOk};

use crate::fixture::{Drive, FULL, PAIR, close, drive_one, fresh, give, spec, state_of, word_at};
use room_core::{RoomCore, StepReply};
use ruled_room::{Gone, Keeper, RuledRoom, Simulator, Stop};
use scheduler::{FreeGate, Fuse, drive};
use std::alloc::Global;
use std::test::*;
use std::thread;
use std::thread::Threads;
use view_table::words;

const TWO: &str =
    "bgsim 1\nroom two\ninputs 5\nsimulators 2\nrounds 2\nturns 10\nprotocol\nfirst input;\nwhen round < 2 write mine + 1;\nelse decide max;\nend\n";

const THREE: &str =
    "bgsim 1\nroom one\ninputs 5\nsimulators 3\nrounds 1\nturns 10\nprotocol\nfirst input;\nelse decide mine;\nend\n";

const WRITER: &str =
    "bgsim 1\nroom one\ninputs 5\nsimulators 1\nrounds 1\nturns 10\nprotocol\nfirst input;\nelse write mine;\nend\n";

/// A simulator, how many steps it has then taken at most, and whether it then crashes.
type Stretch = (usize, u64, bool);

/// More steps than a simulator of these rooms takes.
const ALL: u64 = 1000;

/// Follows an order over shared words. Each simulator is given for its stretch, and then taken back.
fn shared(alloc: Global, text: &str, order: &[Stretch]) -> Result<RoomCore, Fail> {
    let (room, mut keeper) = fresh(alloc, text)?;
    follow(&room, &mut keeper, order)?;
    close(alloc, room, keeper)
}

fn follow(room: &RuledRoom, keeper: &mut Keeper, order: &[Stretch]) -> Result<(), Fail>
    requires { keeper.old.room ≡ room.now }
    ensures { keeper.new.room ≡ keeper.old.room }
{
    for (i, most, crashes) in order {
        let how = Drive {
            fuse: Fuse::after(*most),
            crashes: *crashes,
        };
        drive_one(room, keeper, *i, how, &FreeGate)?;
    }
    Ok(())
}

/// Follows an order over words of its own.
fn alone(alloc: Global, text: &str, order: &[Stretch]) -> Result<RoomCore, Fail> {
    let mut room = RoomCore::fresh(alloc, spec(alloc, text)?)?;
    for (i, most, crashes) in order {
        step_alone(&mut room, *i, *most);
        if *crashes {
            room.crash(*i);
        }
    }
    Ok(room)
}

fn step_alone(room: &mut RoomCore, i: usize, most: u64) {
    for _ in 0..most {
        let Some((steps, _, _)) = state_of(room, i) else {
            return;
        };
        if steps >= most || !matches!(room.step(i), StepReply::Stepped) {
            return;
        }
    }
}

/// Whether two rooms have the same words, and simulators that have taken as many steps and turns, and crashed or not.
fn are_same(one: &RoomCore, other: &RoomCore) -> bool {
    let count = words(&one.spec().shape());
    words(&other.spec().shape()) == count
        && (0..count).all(|index| word_at(one, index) == word_at(other, index))
        && (0..one.spec().m()).all(|i| state_of(one, i) == state_of(other, i))
}

/// Whether an order has the same result over shared words as over words of its own, before both rooms are settled and after, and
/// leaves these words before.
fn leaves(
    alloc: Global,
    text: &str,
    order: &[Stretch],
    wanted: &[(usize, u64)],
) -> Result<bool, Fail> {
    let mut shared = shared(alloc, text, order)?;
    let mut alone = alone(alloc, text, order)?;
    let is_left = wanted
        .iter()
        .all(|(index, word)| word_at(&shared, *index) == Some(*word));
    let is_same = are_same(&shared, &alone);
    shared.settle();
    alone.settle();
    Ok(is_left && is_same && are_same(&shared, &alone))
}

/// An order in a room, and the values of some of its words then.
type Row = (&'static str, &'static [Stretch], &'static [(usize, u64)]);

const ROWS: [Row; 10] = [
    (PAIR, &[(0, 5, true), (1, ALL, false)], &[]),
    (PAIR, &[(0, 4, true), (1, ALL, false)], &[]),
    (PAIR, &[(0, 4, false), (1, ALL, false), (0, 5, true)], &[]),
    (TWO, &[(0, 2, false), (1, ALL, false), (0, ALL, false)], &[]),
    (THREE, &[(0, 5, true), (1, 5, true), (2, ALL, false)], &[]),
    (WRITER, &[(0, ALL, false)], &[]),
    // Each simulator proposes the step numbers that it has loaded by its third step.
    (
        PAIR,
        &[(0, 3, false), (1, 3, false), (0, 4, false), (1, 4, false)],
        &[(3, 1), (6, 9)],
    ),
    (
        PAIR,
        &[(1, 3, false), (0, 3, false), (0, 4, false), (1, 4, false)],
        &[(3, 9), (6, 8)],
    ),
    // In both agreements simulator 0 stays at level 2, and simulator 1 is at level 0 again.
    (PAIR, &[(0, ALL, false), (1, ALL, false)], &[(1, 2), (2, 2)]),
    // Each simulator has counted three writes of each process, so each bit of the memory is 1.
    (
        FULL,
        &[
            (0, 380, false),
            (1, ALL, false),
            (2, ALL, false),
            (3, ALL, false),
        ],
        &[(0, u64::MAX)],
    ),
];

#[test]
fn shared_words_in_order(rt: HostRuntime) -> Result<(), Fail> {
    for (text, order, wanted) in &ROWS {
        assert!(rt;
            leaves(rt.alloc(), text, order, wanted)?,
            "{order:?} in {text}"
        );
    }
    Ok(())
}

/// Drives two simulators, each on a thread of its own.
fn drive_both<R: Threads + Sync>(
    rt: &R,
    room: &RuledRoom,
    one: Simulator,
    other: Simulator,
    fuse: Fuse,
) -> (Simulator, Simulator)
    requires { (one.room ≡ room.now) × (other.room ≡ room.now) }
    ensures { (result.0.room ≡ room.now) × (result.1.room ≡ room.now) }
{
    thread::join(
        rt,
        move ||
            requires { one.room ≡ room.now }
            ensures { result.room ≡ room.entry.now }
        { driven(room, one, fuse) },
        move ||
            requires { other.room ≡ room.now }
            ensures { result.room ≡ room.entry.now }
        { driven(room, other, fuse) },
    )
}

fn driven(room: &RuledRoom, mut simulator: Simulator, fuse: Fuse) -> Simulator
    requires { simulator.room ≡ room.now }
    ensures { result.room ≡ room.now }
{
    drive(&mut simulator, room, &fuse, &FreeGate);
    simulator
}

/// Gives both simulators, after which neither 0 nor 2 is at home.
fn give_both(room: &RuledRoom, keeper: &mut Keeper) -> Result<(Simulator, Simulator), Fail>
    requires { keeper.old.room ≡ room.now }
    ensures keeper { keeper.new.room ≡ keeper.old.room }
    ensures simulators { IfOk result (λ r. (r.0.room ≡ room.now) × (r.1.room ≡ room.now)) }
{
    let one = give(keeper, room, 0)?;
    let other = give(keeper, room, 1)?;
    if keeper.holds(0) || keeper.holds(2) {
        return Err(Fail::from("not at home"));
    }
    Ok((one, other))
}

/// Drives both simulators, each on a thread of its own, and takes simulator 0 back as crashed. Gives simulator 1.
fn first_home<R: Threads + Sync>(
    rt: &R,
    room: &RuledRoom,
    keeper: &mut Keeper,
    fuse: Fuse,
) -> Result<Simulator, Fail>
    requires { keeper.old.room ≡ room.now }
    ensures keeper { keeper.new.room ≡ keeper.old.room }
    ensures simulator { IfOk result (λ simulator. simulator.room ≡ room.now) }
{
    let (one, other) = give_both(room, keeper)?;
    let (one, other) = drive_both(rt, room, one, other, fuse);
    keeper.take_back(room, one, Stop::Crashed);
    if keeper.holds(0) {
        return Err(Fail::from("crashed"));
    }
    Ok(other)
}

/// Room and keeper, unchanged, if the room isn't closed since simulator 1 is still out.
fn keep_open(alloc: Global, room: RuledRoom, keeper: Keeper) -> Result<(RuledRoom, Keeper), Fail>
    requires { keeper.room ≡ room }
    ensures { IfOk result (λ r. (r.0 ≡ room) × (r.1 ≡ keeper)) }
{
    match room.close(alloc, keeper) {
        Err((room, keeper, Gone::StillOut(1))) => Ok((room, keeper)),
        _ => Err(Fail::from("simulator 1 still out")),
    }
}

/// The pair, whose simulators two threads drive at the same time, after which simulator 0 crashes.
fn by_two_threads<R: Threads + Sync>(rt: &R, alloc: Global, fuse: Fuse) -> Result<RoomCore, Fail> {
    let (room, mut keeper) = fresh(alloc, PAIR)?;
    let other = first_home(rt, &room, &mut keeper, fuse)?;
    let (room, mut keeper) = keep_open(alloc, room, keeper)?;
    keeper.take_back(&room, other, Stop::Idle);
    close(alloc, room, keeper)
}

/// Whether of two simulators just simulator 0 has crashed, and one has nothing left to do.
fn has_ended(room: &RoomCore) -> bool {
    room.spec().m() == 2
        && room.is_crashed(0)
        && !room.is_crashed(1)
        && (room.mind(0).unfinished() == 0 || room.mind(1).unfinished() == 0)
}

#[test]
fn two_threads(rt: HostRuntime) -> Result<(), Fail> {
    for _ in 0..200 {
        assert!(rt; has_ended(&by_two_threads(&rt, rt.alloc(), Fuse::none())?));
        // The simulator that loads last sees what both have counted.
        let room = by_two_threads(&rt, rt.alloc(), Fuse::after(4))?;
        let found = (word_at(&room, 3), word_at(&room, 6));
        let wanted = [(1, 9), (9, 8), (9, 9)];
        assert!(rt;
            wanted
                .iter()
                .any(|(zero, one)| found == (Some(*zero), Some(*one)))
        );
    }
    Ok(())
}
