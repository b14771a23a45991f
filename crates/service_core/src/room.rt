//! What a command does to one open room.
ghost use Rattle.std.specs.Prelude.{◌≡◌, ◌≢◌, ℕ, List, Err, Some, length, nat_lt};
ghost use Rattle.service_core.specs.declared.command.Command.TheVariants.{Crash, Report, Step};
ghost use Rattle.room_core.specs.Calls.{room_after_crash};
ghost use Rattle.room_core.specs.Fields.{Fields};
ghost use Rattle.room_core.specs.Reading.{AreFieldsOf};
ghost use Rattle.room_core.specs.declared.reply.StepReply.{StepReply as StepReplyData};
ghost use Rattle.room_core.specs.Observing.{AreSeen, steps_of_steps};
ghost use Rattle.service_core.specs.Replies.{OpenRoom, reply_to_steps, stepping};
ghost use Rattle.ws_history.specs.declared.states.Report.{Report as ReportData};
ghost use Rattle.service_core.specs.Rooms.{Answers, IsOpenAs, IsRefusal, IsSteppedTo, command_for, room_left, room_stepped, steps_of};
ghost use Rattle.ws_history.specs.Reports.{IsTrueReport};
ghost use Rattle.service_core.specs.declared.reply.Reply.TheVariants.{Refused, Report as ReportReply, Steps};
ghost use Rattle.service_core.specs.declared.reply.Refusal.TheVariants.{NoRoom, OutOfMemory};

use crate::reply::{Refusal, Reply};
use room_core::{Observer, RoomCore, StepReply};
use std::alloc::Global;
use ws_history::report;

/// What a command does to a room that stays open.
#[derive(Clone, Copy)]
pub(crate) enum Act {
    Step { sim: u8, count: u16 },
    Crash(u8),
    Settle,
}

/// The report of a room, unless an allocation fails.
pub(crate) fn answer_report(alloc: Global, room: &RoomCore) -> Reply
    // What it answers rests on the room alone.
    ensures reply { result ≢ Refused OutOfMemory → (name : List ℕ) (state : OpenRoom) → IsOpenAs room.now state → Answers state (Report name) result room.now }
    ensures no_steps { (number : ℕ) (last : StepReplyData) → result ≢ Steps number last }
    ensures report { (report : ReportData) → result ≡ ReportReply report →
        (fields : Fields) → AreFieldsOf room.now fields → IsTrueReport room.now.spec fields report }
{
    match report(alloc, room) {
        Ok(report) => Reply::Report(report),
        Err(_) => Reply::Refused(Refusal::OutOfMemory),
    }
}

/// Does what the command asks, and answers it; an observer sees each atomic step. It takes no memory.
pub(crate) fn answer<W: Observer>(room: &mut RoomCore, what: Act, observer: &mut W) -> Reply
    // What it does rests on the room alone.
    ensures reply { (name : List ℕ) (state : OpenRoom) → IsOpenAs room.old state → Answers state (command_for name what) result room.new }
    ensures granted { result ≢ Refused OutOfMemory }
    ensures no_report { (report : ReportData) → result ≢ ReportReply report }
    ensures refused { IsRefusal result → room.new ≡ room.old }
    ensures spec { room.new.spec ≡ room.old.spec }
    ensures left { (name : List ℕ) → room_left room.old (command_for name what) ≡ Some room.new }
    ensures taken { (name : List ℕ) (number : ℕ) (last : StepReplyData) →
        result ≡ Steps number last → length (steps_of (Some room.old) (command_for name what)) ≡ number }
    ensures seen { (name : List ℕ) → AreSeen W.sees observer.old (steps_of (Some room.old) (command_for name what)) observer.new }
{
    match what {
        Act::Step { sim, count } => reply_to_steps(step_observed(room, sim, count, observer)),
        Act::Crash(sim) => crash(room, sim),
        Act::Settle => {
            room.settle_observed(observer);
            Reply::Settled
        }
    }
}

/// The reply to a command for steps.
pub(crate) fn reply_to_steps(stepped: Result<(u16, StepReply), Refusal>) -> Reply
    ensures { result ≡ reply_to_steps stepped }
{
    match stepped {
        Ok((taken, last)) => Reply::Steps { taken, last },
        Err(refusal) => Reply::Refused(refusal),
    }
}

fn has_simulator(room: &RoomCore, sim: u8) -> bool
    ensures { result ≡ nat_lt sim room.now.spec.simulators }
{
    usize::from(sim) < room.spec().m()
}

/// Lets a simulator take steps. It takes no memory.
pub(crate) fn step(room: &mut RoomCore, sim: u8, count: u16) -> Result<(u16, StepReply), Refusal>
    ensures there { result ≢ Err NoRoom }
    // What it does rests on the room alone.
    ensures reply { (name : List ℕ) (state : OpenRoom) → IsOpenAs room.old state → Answers state (Step name sim count) (reply_to_steps result) room.new }
    ensures granted { reply_to_steps result ≢ Refused OutOfMemory }
    ensures no_report { (report : ReportData) → reply_to_steps result ≢ ReportReply report }
    ensures refused { IsRefusal (reply_to_steps result) → room.new ≡ room.old }
    ensures spec { room.new.spec ≡ room.old.spec }
    ensures left { room.new ≡ room_stepped room.old sim count }
    ensures taken { (number : ℕ) (last : StepReplyData) → reply_to_steps result ≡ Steps number last → length (steps_of_steps room.old sim count) ≡ number }
{
    if !has_simulator(room, sim) {
        return Err(Refusal::NoSimulator);
    }
    Ok(steps(room, usize::from(sim), count))
}

/// Lets a simulator take steps, each of which an observer sees. It takes no memory.
fn step_observed<W: Observer>(
    room: &mut RoomCore,
    sim: u8,
    count: u16,
    observer: &mut W,
) -> Result<(u16, StepReply), Refusal>
    ensures reply { (name : List ℕ) (state : OpenRoom) → IsOpenAs room.old state → Answers state (Step name sim count) (reply_to_steps result) room.new }
    ensures granted { reply_to_steps result ≢ Refused OutOfMemory }
    ensures no_report { (report : ReportData) → reply_to_steps result ≢ ReportReply report }
    ensures refused { IsRefusal (reply_to_steps result) → room.new ≡ room.old }
    ensures spec { room.new.spec ≡ room.old.spec }
    ensures left { room.new ≡ room_stepped room.old sim count }
    ensures taken { (number : ℕ) (last : StepReplyData) → reply_to_steps result ≡ Steps number last → length (steps_of_steps room.old sim count) ≡ number }
    ensures seen { AreSeen W.sees observer.old (steps_of_steps room.old sim count) observer.new }
{
    if !has_simulator(room, sim) {
        return Err(Refusal::NoSimulator);
    }
    Ok(steps_observed(room, usize::from(sim), count, observer))
}

fn crash(room: &mut RoomCore, sim: u8) -> Reply
    ensures reply { (name : List ℕ) (state : OpenRoom) → IsOpenAs room.old state → Answers state (Crash name sim) result room.new }
    ensures granted { result ≢ Refused OutOfMemory }
    ensures no_report { (report : ReportData) → result ≢ ReportReply report }
    ensures refused { IsRefusal result → room.new ≡ room.old }
    ensures spec { room.new.spec ≡ room.old.spec }
    ensures left { room.new ≡ room_after_crash room.old sim }
    ensures no_steps { (number : ℕ) (last : StepReplyData) → result ≢ Steps number last }
{
    if !has_simulator(room, sim) {
        return Reply::Refused(Refusal::NoSimulator);
    }
    Reply::Crash(room.crash(usize::from(sim)))
}

/// Lets simulator `i` take steps, until it has taken `count` or one is not taken. Gives how many it
/// took, and the last answer.
fn steps(room: &mut RoomCore, i: usize, count: u16) -> (u16, StepReply)
    ensures fields { (fields : Fields) → AreFieldsOf room.old fields → IsSteppedTo (stepping room.old.spec fields i count) result room.new }
    ensures spec { room.new.spec ≡ room.old.spec }
    ensures left { room.new ≡ room_stepped room.old i count }
    ensures taken { length (steps_of_steps room.old i count) ≡ result.0 }
{
    let taken = room.steps(i, u64::from(count)) as u16;
    if taken == count {
        return (count, StepReply::Stepped);
    }
    (taken, room.step(i))
}

/// Does what [`steps`] does, one step after the other, each of which an observer sees.
fn steps_observed<W: Observer>(
    room: &mut RoomCore,
    i: usize,
    count: u16,
    observer: &mut W,
) -> (u16, StepReply)
    ensures fields { (fields : Fields) → AreFieldsOf room.old fields → IsSteppedTo (stepping room.old.spec fields i count) result room.new }
    ensures spec { room.new.spec ≡ room.old.spec }
    ensures left { room.new ≡ room_stepped room.old i count }
    ensures taken { length (steps_of_steps room.old i count) ≡ result.0 }
    ensures seen { AreSeen W.sees observer.old (steps_of_steps room.old i count) observer.new }
{
    let _shape = room.spec().shape(); // for the proof: a spec is within its limits
    for taken in 0..count {
        match observer.step(room, i) {
            StepReply::Stepped => {}
            last => return (taken, last),
        }
    }
    (count, StepReply::Stepped)
}
