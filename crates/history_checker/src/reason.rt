//! Why an event may not follow those before it.
ghost use Rattle.std.specs.Prelude.{◌≡◌, ℕ, List, None};
ghost use Rattle.transcript.specs.Runs.{written_by};
ghost use Rattle.history_checker.specs.Processes.{Tracks};
ghost use Rattle.history_checker.specs.Reasons.{Breaks, IsLastWrite, IsReason};

use crate::process::{Process, Rule, Turn};
use protocol_lang::Action;
use room_spec::Spec;
use transcript::Event;

/// The last write of a process before some event.
#[derive(Clone, Copy)]
pub struct LastWrite {
    pub value: u32,
    /// The index, from 0, of the event that wrote it.
    pub at: usize,
}

/// Why an event may not follow those before it. If several reasons hold, it is the first in this order.
#[derive(Clone, Copy)]
pub enum Reason {
    /// The room has no such process.
    NoProcess,
    /// A snapshot hasn't exactly one entry for each process.
    OtherLength,
    /// No event of this kind may come of the process here. This may.
    OutOfTurn {
        next: Turn,
    },
    /// A write or a decision is not what the protocol asks for. This is.
    OtherAction {
        asked: Action,
    },
    /// A snapshot's entry for this process, the first that is wrong, isn't the last write of the process. This is, or nothing if
    /// it has written nothing.
    WrongEntry {
        process: usize,
        written: Option<LastWrite>,
    },
    /// The process has made as many writes as the room has rounds.
    TooManyWrites,
}

/// The first event with which a list of events is no run.
#[derive(Clone, Copy)]
pub struct Break {
    /// The index, from 0, of the event.
    pub at: usize,
    pub reason: Reason,
}

/// The reason why the event may not follow those before it, which the processes have followed, by the rule that it breaks.
pub fn reason_of(
    rule: Rule,
    spec: &Spec,
    processes: &[Process],
    before: &[Event],
    event: &Event,
) -> Reason
    requires tracks { Tracks spec.now processes.now before.now }
    requires breaks { Breaks spec.now before.now event.now rule }
    ensures { IsReason spec.now before.now event.now result }
{
    match rule {
        Rule::Process => Reason::NoProcess,
        Rule::Length => Reason::OtherLength,
        Rule::Turn => Reason::OutOfTurn {
            next: processes[usize::from(event.process())].could_do(spec),
        },
        Rule::Action => Reason::OtherAction {
            asked: processes[usize::from(event.process())].asked(),
        },
        Rule::Entry(process) => Reason::WrongEntry {
            process,
            written: last_write(before, process),
        },
        Rule::Rounds => Reason::TooManyWrites,
    }
}

/// The last write of the process among the events.
fn last_write(events: &[Event], process: usize) -> Option<LastWrite>
    ensures { IsLastWrite events.now process result }
{
    let mut last = None;
    for (at, event) in events.iter().enumerate() {
        if let Some(value) = written_by(process, event) {
            last = Some(LastWrite { value, at });
        }
    }
    last
}

/// The value that the process writes by the event.
fn written_by(process: usize, event: &Event) -> Option<u32>
    ensures { result ≡ written_by process event.now }
{
    match event {
        Event::Write { p, v } if usize::from(*p) == process => Some(*v),
        _ => None,
    }
}
