//! What a checker keeps of a process.
ghost use Rattle.std.specs.Prelude.{◌≡◌, ◌↔◌, ◌<◌, IsTrue, MatchOption, OnErr, OnOk, Some, slice_set, length, [], if◌then◌else◌, nat_lt, ◌&&◌};
ghost use Rattle.room_spec.specs.Rooms.{RoomSpec, processes};
ghost use Rattle.transcript.specs.declared.event.Event.TheVariants.{Write, Snap, Decide};
ghost use Rattle.history_checker.specs.Shown.{lasts_after};
ghost use Rattle.history_checker.specs.Processes.{turn_for, is_action, could_do, lasts, IsAt, Follows, FirstDiffers};

use protocol_lang::{Action, Protocol, View, first, next};
use room_spec::Spec;
use transcript::Event;

/// What a process may do next.
#[derive(Clone, Copy)]
pub enum Turn {
    /// Write this value.
    Write(u32),
    /// Take a snapshot.
    Snap,
    /// Decide this value.
    Decide(u32),
    /// Nothing: it has decided, or has no write left.
    Over,
}

/// A rule by which an event may follow others. An event that breaks several is said to break the first in this order.
#[derive(Clone, Copy)]
pub enum Rule {
    /// The room has such a process.
    Process,
    /// A snapshot has an entry for each process.
    Length,
    /// An event of this kind may come of the process.
    Turn,
    /// A write or a decision is what the protocol asks for.
    Action,
    /// A snapshot's entry for this process is its last write.
    Entry(usize),
    /// The process has made fewer writes than the room has rounds.
    Rounds,
}

/// A process after some events of its room.
#[derive(Clone, Copy)]
pub struct Process {
    pub input: u32,
    pub turn: Turn,
    /// Its last write.
    pub last: Option<u32>,
    /// How often it has written.
    pub writes: u8,
}

impl Turn {
    /// What the protocol asks for.
    pub(crate) fn of(action: Action) -> Turn
        ensures { result ≡ turn_for action }
    {
        match action {
            Action::Write(v) => Turn::Write(v),
            Action::Decide(v) => Turn::Decide(v),
        }
    }

    pub(crate) fn is_write_of(self, v: u32) -> bool
        ensures { IsTrue result ↔ (self ≡ Turn.Write v) }
    {
        match self {
            Turn::Write(due) => due == v,
            Turn::Snap | Turn::Decide(_) | Turn::Over => false,
        }
    }

    pub(crate) fn is_snap(self) -> bool
        ensures { IsTrue result ↔ (self ≡ Turn.Snap) }
    {
        matches!(self, Turn::Snap)
    }

    pub(crate) fn is_decide_of(self, v: u32) -> bool
        ensures { IsTrue result ↔ (self ≡ Turn.Decide v) }
    {
        match self {
            Turn::Decide(due) => due == v,
            Turn::Write(_) | Turn::Snap | Turn::Over => false,
        }
    }

    /// Whether it is a write or a decision.
    fn is_action(self) -> bool
        ensures { result ≡ is_action self }
    {
        matches!(self, Turn::Write(_) | Turn::Decide(_))
    }
}

impl Process {
    /// What is there as long as there is no process.
    pub const BLANK: Process = Process {
        input: 0,
        turn: Turn::Over,
        last: None,
        writes: 0,
    };

    /// Process `p` of the room before its first event.
    pub fn opening(spec: &Spec, p: usize) -> Process
        requires { p < processes spec.now }
        ensures { IsAt spec.now [] p result }
    {
        let input = spec.input(p);
        let n = spec.n();
        let value = first(spec.protocol(), input, p as u32, n as u32);
        Process {
            input,
            turn: Turn::Write(value),
            last: None,
            writes: 0,
        }
    }

    /// What it may do next, the rounds counted.
    pub fn could_do(self, spec: &Spec) -> Turn
        ensures { result ≡ could_do spec.now.rounds self }
    {
        if usize::from(self.writes) < spec.rounds() {
            return self.turn;
        }
        match self.turn {
            Turn::Write(_) => Turn::Over,
            Turn::Snap => Turn::Snap,
            Turn::Decide(v) => Turn::Decide(v),
            Turn::Over => Turn::Over,
        }
    }

    /// The rule that a write breaks which is not due.
    fn rule_of_write(self) -> Rule
        ensures { result ≡ (if is_action self.turn then Rule.Action else Rule.Turn) }
    {
        if self.turn.is_action() {
            Rule::Action
        } else {
            Rule::Turn
        }
    }

    /// The rule that a decision breaks which is not due. None may come before the first write.
    fn rule_of_decision(self) -> Rule
        ensures { result ≡ (if nat_lt 0 self.writes && is_action self.turn then Rule.Action else Rule.Turn) }
    {
        if self.writes > 0 && self.turn.is_action() {
            Rule::Action
        } else {
            Rule::Turn
        }
    }

    /// What the protocol asks of it.
    pub fn asked(self) -> Action
        requires { IsTrue (is_action self.turn) }
        ensures { turn_for result ≡ self.turn }
    {
        match self.turn {
            Turn::Write(v) => Action::Write(v),
            Turn::Decide(v) => Action::Decide(v),
            Turn::Snap | Turn::Over => unreachable!(), // by what is required
        }
    }
}

/// Has the processes of a room with these rounds and this protocol follow an event, or else gives the rule by which it may not
/// follow those before it.
pub fn follow(
    processes: &mut [Process],
    rounds: u8,
    protocol: &Protocol,
    event: &Event,
) -> Result<(), Rule>
    ensures follows { (spec : RoomSpec) → spec.rounds ≡ rounds → spec.protocol ≡ protocol.now → Follows spec event.now processes.old result processes.new }
    ensures lasts { OnOk result (lasts processes.new ≡ lasts_after event.now (lasts processes.old)) }
    ensures err { OnErr result (lasts processes.new ≡ lasts processes.old) }
{
    match event {
        Event::Write { p, v } => follow_write(processes, rounds, usize::from(*p), *v),
        Event::Snap { p, row } => follow_snap(processes, protocol, usize::from(*p), row),
        Event::Decide { p, v } => follow_decide(processes, usize::from(*p), *v),
    }
}

#[inline(always)]
pub fn follow_write(processes: &mut [Process], rounds: u8, p: usize, v: u32) -> Result<(), Rule>
    ensures follows { (spec : RoomSpec) → spec.rounds ≡ rounds → Follows spec (Write p v) processes.old result processes.new }
    ensures lasts { OnOk result (lasts processes.new ≡ slice_set (lasts processes.old) p (Some v)) }
    ensures err { OnErr result (lasts processes.new ≡ lasts processes.old) }
{
    if p >= processes.len() {
        return Err(Rule::Process);
    }
    let process = processes[p];
    if !process.turn.is_write_of(v) {
        return Err(process.rule_of_write());
    }
    if process.writes >= rounds {
        return Err(Rule::Rounds);
    }
    processes[p] = Process {
        turn: Turn::Snap,
        last: Some(v),
        writes: process.writes + 1,
        ..process
    };
    Ok(())
}

fn follow_snap(
    processes: &mut [Process],
    protocol: &Protocol,
    p: usize,
    row: &View,
) -> Result<(), Rule>
    ensures follows { (spec : RoomSpec) → spec.protocol ≡ protocol.now → Follows spec (Snap p row.now) processes.old result processes.new }
    ensures lasts { OnOk result (lasts processes.new ≡ lasts processes.old) }
    ensures err { OnErr result (lasts processes.new ≡ lasts processes.old) }
{
    if p >= processes.len() {
        return Err(Rule::Process);
    }
    if row.len() != processes.len() {
        return Err(Rule::Length);
    }
    let process = processes[p];
    if !process.turn.is_snap() {
        return Err(Rule::Turn);
    }
    if let Some(q) = first_other(row.as_slice(), processes) {
        return Err(Rule::Entry(q));
    }
    let round = u32::from(process.writes);
    let action = next(protocol, process.input, p as u32, round, row);
    processes[p] = Process {
        turn: Turn::of(action),
        ..process
    };
    Ok(())
}

/// Has the processes follow a snapshot whose entries are known to be their last writes.
#[inline(always)]
pub fn follow_said(
    processes: &mut [Process],
    protocol: &Protocol,
    p: usize,
    row: &View,
) -> Result<(), Rule>
    requires { row.now.items ≡ lasts processes.old }
    ensures follows { (spec : RoomSpec) → spec.protocol ≡ protocol.now → Follows spec (Snap p row.now) processes.old result processes.new }
    ensures lasts { lasts processes.new ≡ lasts processes.old }
{
    if p >= row.len() {
        return Err(Rule::Process);
    }
    let process = processes[p];
    if !process.turn.is_snap() {
        return Err(Rule::Turn);
    }
    let round = u32::from(process.writes);
    let action = next(protocol, process.input, p as u32, round, row);
    processes[p] = Process {
        turn: Turn::of(action),
        ..process
    };
    Ok(())
}

/// The same for a decision, whatever the rounds and the protocol.
fn follow_decide(processes: &mut [Process], p: usize, v: u32) -> Result<(), Rule>
    ensures follows { (spec : RoomSpec) → Follows spec (Decide p v) processes.old result processes.new }
    ensures lasts { OnOk result (lasts processes.new ≡ lasts processes.old) }
    ensures err { OnErr result (lasts processes.new ≡ lasts processes.old) }
{
    if p >= processes.len() {
        return Err(Rule::Process);
    }
    let process = processes[p];
    if !process.turn.is_decide_of(v) {
        return Err(process.rule_of_decision());
    }
    processes[p] = Process {
        turn: Turn::Over,
        ..process
    };
    Ok(())
}

/// The first process whose entry of the row isn't its last write.
fn first_other(row: &[Option<u32>], processes: &[Process]) -> Option<usize>
    requires { length row.now ≡ length processes.now }
    ensures { MatchOption result (row.now ≡ lasts processes.now) (FirstDiffers row.now (lasts processes.now)) }
{
    for (p, process) in processes.iter().enumerate() {
        if row[p] != process.last {
            return Some(p);
        }
    }
    None
}
