//! Calls that only the user of a library makes: of services, printed protocols, certified rooms, faults as texts, and devices.
use crate::fixture::{FULL, ONE, PAIR, spec};
use history_checker::certified;
use indexmap::IndexMap;
use io_text::Device;
use protocol_lang::{parse, print, threshold};
use room_core::{RoomCore, StepReply};
use room_files::{InputFault, TextFault};
use room_spec::{Name, Spec, SpecFault};
use service_core::{Command, Refusal, Reply, Service};
use std::alloc::{AllocError, Global};
use std::io;
use std::io::Write;
use std::test::*;
use transcript::LineFault;

fn name(text: &str) -> Result<Name, Fail> {
    Ok(Name::read(text.as_bytes()).ok_or("a name")?)
}

fn step(room: &str, count: u16) -> Result<Command, Fail> {
    Ok(Command::Step {
        name: name(room)?,
        sim: 0,
        count,
    })
}

/// A room that begins, takes all its steps and is reported, and many steps of a room that isn't there.
fn commands(alloc: Global) -> Result<Vec<Command>, Fail> {
    let mut commands = Vec::new(alloc);
    commands.push(Command::Begin(spec(alloc, ONE)?))?;
    commands.push(step("one", 100)?)?;
    commands.push(Command::Report(name("one")?))?;
    for _ in 0..2000 {
        commands.push(step("nobody", 1)?)?;
    }
    Ok(commands)
}

/// Whether these are the replies to [`commands`].
fn are_replies(replies: &[Reply]) -> bool {
    let [begun, steps, report, others @ ..] = replies else {
        return false;
    };
    matches!(begun, Reply::Begun)
        && matches!(
            steps,
            Reply::Steps {
                taken: 11,
                last: StepReply::Idle
            }
        )
        && is_report(report)
        && others.len() == 2000
        && others
            .iter()
            .all(|reply| matches!(reply, Reply::Refused(Refusal::NoRoom)))
}

/// Whether a reply is a report of three events.
fn is_report(reply: &Reply) -> bool {
    match reply {
        Reply::Report(report) => report.history.events().len() == 3,
        _ => false,
    }
}

#[test]
fn replies_to_a_list(rt: HostRuntime) -> Result<(), Fail> {
    let replies = Service::run(rt.alloc(), commands(rt.alloc())?)?;
    assert!(rt; are_replies(replies.as_slice()));
    Ok(())
}

/// Opens a room of this text, and says whether it is open.
fn opens(alloc: Global, service: &mut Service, text: &str) -> Result<bool, Fail> {
    let command = Command::Begin(spec(alloc, text)?);
    Ok(matches!(service.apply(alloc, command), Reply::Begun))
}

fn closes(alloc: Global, service: &mut Service, room: &str) -> Result<bool, Fail> {
    let command = Command::Close(name(room)?);
    Ok(matches!(service.apply(alloc, command), Reply::Closed))
}

/// Opens three rooms and closes one, and says whether that was done.
fn fill(alloc: Global, service: &mut Service) -> Result<bool, Fail> {
    Ok(
        opens(alloc, service, ONE)?
            && opens(alloc, service, PAIR)?
            && opens(alloc, service, FULL)?
            && closes(alloc, service, "pair")?,
    )
}

fn has_room(rooms: &IndexMap<Name, RoomCore>, room: &str) -> Option<bool> {
    let name = Name::read(room.as_bytes())?;
    Some(rooms.contains_key(&name))
}

fn are_left(rooms: &IndexMap<Name, RoomCore>) -> bool {
    rooms.len() == 2
        && has_room(rooms, "one") == Some(true)
        && has_room(rooms, "pair") == Some(false)
        && has_room(rooms, "full") == Some(true)
}

#[test]
fn rooms_that_are_left(rt: HostRuntime) -> Result<(), Fail> {
    let mut service = Service::new(rt.alloc());
    assert!(rt; fill(rt.alloc(), &mut service)?);
    assert!(rt; are_left(&service.into_rooms()));
    Ok(())
}

/// The printed text of the protocol of `text`, or nothing if it has none.
fn reprinted(alloc: Global, text: &str) -> Result<String, AllocError> {
    match parse(alloc, text) {
        Ok(protocol) => print(alloc, &protocol),
        Err(_) => Ok(String::new(alloc)),
    }
}

/// `head`, then `part` `count` times, then `tail`.
fn repeated(
    alloc: Global,
    head: &str,
    part: &str,
    count: usize,
    tail: &str,
) -> Result<String, AllocError> {
    let mut text = String::from_str(alloc, head)?;
    for _ in 0..count {
        text.push_str(part)?;
    }
    text.push_str(tail)?;
    Ok(text)
}

/// Whether the printed text of the protocol of `text` is `printed`, and that of `printed` too.
fn prints(alloc: Global, text: &str, printed: &str) -> Result<bool, AllocError> {
    let once = reprinted(alloc, text)?;
    let twice = reprinted(alloc, printed)?;
    Ok(once.as_str() == printed && twice.as_str() == printed)
}

/// Whether a chain of two thousand operators and a protocol of the most rules are printed as they are.
fn prints_long_ones(alloc: Global) -> Result<bool, AllocError> {
    let chain = repeated(alloc, "first1", "-1", 2000, ";else decide n;")?;
    let rules = repeated(alloc, "first1;", "when1==1write1;", 32, "else write1;")?;
    Ok(prints(alloc, &chain, &chain)? && prints(alloc, &rules, &rules)?)
}

#[test]
fn shortest_texts(rt: HostRuntime) -> Result<(), Fail> {
    for (text, printed) in [
        (
            "first input; else decide min;",
            "first input;else decide min;",
        ),
        (
            "first (input + 1) * 2 - (3 - id); when (count) >= n - 1 and mine == 0 decide min; else write ((mine));",
            "first(input+1)*2-(3-id);when count>=n-1and mine==0decide min;else write mine;",
        ),
        (
            "first ((input-1)-n)*(2*id)/(3%(id+1)); else write cell((id)+(1*2))-(seen(0)+equal(mine));",
            "first(input-1-n)*(2*id)/(3%(id+1));else write cell(id+1*2)-(seen(0)+equal(mine));",
        ),
        (
            " first 0 ; when 1<2 and(3)<=(4)and 5>6 decide 7 ; when id!=n write(round)+0; else\ndecide max;",
            "first0;when1<2and3<=4and5>6decide7;when id!=n write round+0;else decide max;",
        ),
    ] {
        assert!(rt; prints(rt.alloc(), text, printed)?, "{text}");
    }
    assert!(rt; prints_long_ones(rt.alloc())?);
    Ok(())
}

const VOTE: &str =
    "bgsim 1\nroom vote\ninputs 5 3 9\nsimulators 2\nrounds 3\nturns 100\nprotocol\nfirst input;\nwhen ";

/// A room of three processes, which decide after this test.
fn vote(alloc: Global, test: &str) -> Result<Spec, Fail> {
    let text = repeated(
        alloc,
        VOTE,
        test,
        1,
        " decide min;\nelse write mine;\nend\n",
    )?;
    spec(alloc, &text)
}

/// How many processes the room's protocol doesn't wait for, and how many values a run of the room decides at most.
fn bounds(alloc: Global, test: &str) -> Result<(Option<u32>, Option<u8>), Fail> {
    let spec = vote(alloc, test)?;
    Ok((threshold(spec.protocol()), certified(&spec)))
}

#[test]
fn certified_rooms(rt: HostRuntime) -> Result<(), Fail> {
    for (test, missed, most) in [
        ("count >= n - 1", Some(1), Some(2)),
        ("count >= n - 0", Some(0), Some(1)),
        ("count >= n - 3", Some(3), None),
        ("count >= 2", None, None),
        ("count > n - 1", None, None),
    ] {
        let found = bounds(rt.alloc(), test)?;
        assert!(rt; found == (missed, most), "{test}");
    }
    Ok(())
}

/// `bgview fault` prints all sentences; here some are printed as texts of their faults.
#[test]
fn texts_of_faults(rt: HostRuntime) -> Result<(), Fail> {
    let bad = InputFault::BadInput {
        line: 3,
        fault: TextFault::NoEvents,
    };
    let found = format!(in rt.alloc();
        "{}; {}; {}; {bad}",
        SpecFault::TaskLine(7),
        LineFault::BadName,
        Refusal::NoSimulator
    )?;
    assert!(rt;
        found.as_str()
            == "`task` needs `agree` and a number from 1 to 16; the line does not begin with a valid name; the room has no simulator of this number; line 3: the input ends before the line `events`",
        "{found}"
    );
    Ok(())
}

/// It takes all bytes, and fails when it is to hand them on.
#[derive(Drop)]
struct Unflushed {}

impl Write for Unflushed {
    fn write(&mut self, bytes: &[u8]) -> io::Result<usize> {
        Ok(bytes.len())
    }

    fn flush(&mut self) -> io::Result<()> {
        Err(io::ErrorKind::Other.into())
    }
}

#[test]
fn a_flush_that_fails(rt: HostRuntime) {
    let mut device = Device::new(Unflushed {});
    assert!(rt; device.flush().is_err() && device.has_failed());
}
