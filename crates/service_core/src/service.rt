//! The service: rooms by their names.
ghost use Rattle.std.specs.Prelude.{◌≡◌, ◌≢◌, ◌≤◌, ℕ, List, [], Option, None, Some, Err, true, false, length, IfErr, IfOk, MatchOption, OnOk, OnErr, if◌then◌else◌};
ghost use Rattle.std.specs.Vec.{vec_capacity, vec_len};
ghost use Rattle.std.specs.Str.{bytes_eq};
ghost use Rattle.indexmap.specs.IndexMap.{get};
ghost use Rattle.room_core.specs.Calls.{opening_state};
ghost use Rattle.room_core.specs.Observing.{AreSeen};
ghost use Rattle.room_core.specs.declared.reply.StepReply.{StepReply as StepReplyData};
ghost use Rattle.ws_history.specs.declared.states.Report.{Report as ReportData};
ghost use Rattle.service_core.specs.declared.command.Command.TheVariants.{Begin, Close, Report, Step};
ghost use Rattle.service_core.specs.declared.reply.Reply.TheVariants.{Report as ReportReply, Steps};
ghost use Rattle.service_core.specs.Replies.{OpenRoom, name_in, part, replies_from, reply_to, reply_to_steps, room_after};
ghost use Rattle.service_core.specs.Rooms.{Applies, HasOwnNames, IsRefusal, IsReported, IsReportOf, IsStateOf, IsWant, command_for, core_after, room_at, steps_of};
ghost use Rattle.service_core.specs.Runs.{AreTrueReports, AreWants, HasNoWant, granted, replies_of, without_wants};
ghost use Rattle.service_core.specs.declared.reply.Reply.TheVariants.{Refused};
ghost use Rattle.service_core.specs.declared.reply.Refusal.TheVariants.{NoRoom, OutOfMemory};
ghost use Rattle.room_spec.specs.Names.{is_name};

use crate::command::Command;
use crate::reply::{Refusal, Reply};
use crate::room::{Act, answer, answer_report, reply_to_steps, step};
use indexmap::IndexMap;
use room_core::{Observer, RoomCore, StepReply, Unobserved};
use room_spec::{Name, Spec, Spelled};
use std::alloc::{AllocError, Global};
use std::marker::Model;
use ws_history::{EventSink, Standing, report_to};

/// Rooms, each under its own name. No room's replies rest on another room.
#[derive(Drop)]
pub struct Service {
    rooms: IndexMap<Name, RoomCore>,
}

impl Model for Service {
    ghost use Rattle.std.specs.Coded.{codes};
    ghost use Rattle.protocol_lang.specs.Codes.{expression_code};
    ghost use Rattle.service_core.specs.Rooms.{Entries, HasOwnNames};

    ghost Value = { Entries };

    ghost coded = { Prim.hlevel (codes, expression_code) };

    ghost view = { λ s. s.rooms.entries };

    ghost invariant = { λ s. HasOwnNames s.rooms.entries };
}

impl Service {
    /// A service with no rooms.
    pub fn new(alloc: Global) -> Service
        ensures { result ≡ [] }
    {
        Service {
            rooms: IndexMap::new(alloc),
        }
    }

    /// Does what the command asks, and answers it. A command that is refused changes no room; where
    /// it was to begin one, its spec is dropped.
    pub fn apply(&mut self, alloc: Global, command: Command) -> Reply
        // The reply, and what becomes of the room, rest on the room of that name alone.
        ensures reply { result ≢ Refused OutOfMemory →
            (room : Option OpenRoom) → IsStateOf (room_at self.old (name_in command)) room →
            (result ≡ reply_to room command) × IsStateOf (room_at self.new (name_in command)) (room_after room command) }
        // All other rooms stay as they are.
        ensures others { (name : List ℕ) → bytes_eq name (name_in command) ≡ false → room_at self.new name ≡ room_at self.old name }
        // Each history is a run, and no more processes are held than simulators have crashed.
        ensures report { (report : ReportData) → result ≡ ReportReply report →
            (room : Option OpenRoom) → IsStateOf (room_at self.old (name_in command)) room → IsReportOf room report }
        ensures want { result ≡ Refused OutOfMemory → IsWant (room_at self.old (name_in command)) command }
        ensures refused { IsRefusal result → (name : List ℕ) → room_at self.new name ≡ room_at self.old name }
        // What is left of the room itself.
        ensures room { result ≢ Refused OutOfMemory → room_at self.new (name_in command) ≡ core_after (room_at self.old (name_in command)) command }
        ensures taken { (number : ℕ) (last : StepReplyData) →
            result ≡ Steps number last → length (steps_of (room_at self.old (name_in command)) command) ≡ number }
        // All of it in one.
        ensures applies { Applies self.old command result self.new }
    {
        match command {
            Command::Step { name, sim, count } => {
                reply_to_steps(self.step(name.as_str().as_bytes(), sim, count))
            }
            other => self.apply_observed(alloc, other, &mut Unobserved),
        }
    }

    /// Does what [`apply`](Service::apply) does, and has each atomic step seen by an observer.
    pub fn apply_observed<W: Observer>(
        &mut self,
        alloc: Global,
        command: Command,
        observer: &mut W,
    ) -> Reply
        ensures applies { Applies self.old command result self.new }
        // The steps that the command took in its room were seen, and no others, in their order.
        ensures seen { AreSeen W.sees observer.old (steps_of (room_at self.old (name_in command)) command) observer.new }
    {
        match command {
            Command::Begin(spec) => self.begin(alloc, spec),
            Command::Step { name, sim, count } => self.ask(
                &name,
                Act::Step { sim, count },
                observer,
            ),
            Command::Crash { name, sim } => self.ask(&name, Act::Crash(sim), observer),
            Command::Settle(name) => self.ask(&name, Act::Settle, observer),
            Command::Report(name) => self.report(alloc, &name),
            Command::Close(name) => self.close(&name),
        }
    }

    /// Does what the command [`Step`](Command::Step) does, with neither a command nor a reply made: gives how many
    /// steps were taken, 0 to `count`, and the last answer. A `count` of 0 takes no step.
    ///
    /// # Errors
    ///
    /// [`Refusal::NoRoom`] if no room has this name, so also if the bytes are no name; [`Refusal::NoSimulator`].
    pub fn step(&mut self, name: &[u8], sim: u8, count: u16) -> Result<(u16, StepReply), Refusal>
        ensures reply { Applies self.old (Step name.now sim count) (reply_to_steps result) self.new }
        // Where there is a room the bytes are a name.
        ensures name { result ≢ Err NoRoom → is_name name.now ≡ true }
        ensures none { result ≡ Err NoRoom → room_at self.old name.now ≡ None }
    {
        let Some(index) = self.rooms.get_index_of(Spelled { bytes: name }) else {
            return Err(Refusal::NoRoom);
        };
        let core = &mut self.rooms[index];
        let _ = core.spec().name().as_str(); // for the proof: a room's name is a name
        step(core, sim, count)
    }

    /// The replies of a fresh service to these commands, in order. Room for all replies is taken
    /// first: if it is refused, no command runs and the commands are dropped.
    pub fn run(alloc: Global, commands: Vec<Command>) -> Result<Vec<Reply>, AllocError>
        ensures count { IfOk result (λ replies. length replies.items ≡ length commands.items) }
        // If no allocation failed, each name's replies are those of a service that is given the
        // commands of that name alone.
        ensures alone { IfOk result (λ replies. HasNoWant replies.items →
            (name : List ℕ) → replies_of name commands.items replies.items ≡ replies_from None (part name commands.items)) }
        // Each history that is reported is a run of its room's protocol, with each decision and no
        // other; and no more processes are held than simulators have crashed.
        ensures reports { IfOk result (λ replies. AreTrueReports commands.items replies.items) }
        // If an allocation failed, the other replies are those to the list without the commands
        // that were refused it. These begin a room under a free name or ask for an open one's report.
        ensures refused { IfOk result (λ replies. (name : List ℕ) →
            without_wants (replies_of name commands.items replies.items) ≡
            replies_from None (part name (granted commands.items replies.items))) }
        ensures wants { IfOk result (λ replies. AreWants commands.items replies.items) }
    {
        let replies = run_all(alloc, commands)?;
        Ok(replies)
    }

    /// The room that is open under the name that these bytes are, if one is.
    pub fn room(&self, name: &[u8]) -> Option<&RoomCore>
        ensures { MatchOption result (room_at self.now name.now ≡ None) (λ room. room_at self.now name.now ≡ Some room.now) }
    {
        self.rooms.get(Spelled { bytes: name })
    }

    /// Does what the command [`Report`](Command::Report) does, which changes no room.
    pub fn report(&self, alloc: Global, name: &Name) -> Reply
        ensures { Applies self.now (Report name.now) result self.now }
    {
        match self.rooms.get(name) {
            Some(room) => answer_report(alloc, room),
            None => Reply::Refused(Refusal::NoRoom),
        }
    }

    /// Does what [`report`](Service::report) does, with the history passed to a sink in place of a list.
    ///
    /// # Errors
    ///
    /// [`Refusal::NoRoom`] if no room has this name; [`Refusal::OutOfMemory`] if an allocation fails, also one of the sink's.
    pub fn report_to<S: EventSink>(
        &self,
        alloc: Global,
        name: &Name,
        sink: &mut S,
    ) -> Result<Standing, Refusal>
        ensures reported { IfOk result (λ standing. IsReported self.now name.now standing (S.has_taken sink.old) (S.has_taken sink.new)) }
        ensures refused { IfErr result (λ refusal. Applies self.now (Report name.now) (Refused refusal) self.now) }
    {
        let Some(room) = self.rooms.get(name) else {
            return Err(Refusal::NoRoom);
        };
        match report_to(alloc, room, sink) {
            Ok(standing) => Ok(standing),
            Err(AllocError) => Err(Refusal::OutOfMemory),
        }
    }

    /// The rooms that are open, each under its own name. Their order is left open.
    pub fn into_rooms(self) -> IndexMap<Name, RoomCore>
        ensures rooms { (name : List ℕ) → get bytes_eq result name ≡ room_at self name }
        ensures names { HasOwnNames result.entries }
    {
        let Service { rooms } = self;
        rooms
    }

    /// Opens a room, where its name is free.
    fn begin(&mut self, alloc: Global, spec: Spec) -> Reply
        ensures { Applies self.old (Begin spec) result self.new }
    {
        if self.rooms.contains_key(spec.name()) {
            return Reply::Refused(Refusal::NameTaken);
        }
        match self.open(alloc, spec) {
            Ok(()) => Reply::Begun,
            Err(AllocError) => Reply::Refused(Refusal::OutOfMemory),
        }
    }

    /// Opens a room whose name is free.
    fn open(&mut self, alloc: Global, spec: Spec) -> Result<(), AllocError>
        requires { room_at self.old spec.name ≡ None }
        ensures opened { OnOk result ((name : List ℕ) → room_at self.new name ≡
            if bytes_eq spec.name name then Some (opening_state spec) else room_at self.old name) }
        ensures err { OnErr result (self.new ≡ self.old) }
    {
        let name = spec.name().clone()?;
        let room = RoomCore::fresh(alloc, spec)?;
        self.rooms.insert(name, room)?;
        Ok(())
    }

    /// Asks the room of this name for something, if there is one. It takes no memory.
    fn ask<W: Observer>(&mut self, name: &Name, what: Act, observer: &mut W) -> Reply
        ensures applies { Applies self.old (command_for name.now what) result self.new }
        ensures seen { AreSeen W.sees observer.old (steps_of (room_at self.old name.now) (command_for name.now what)) observer.new }
    {
        let Some(index) = self.rooms.get_index_of(name) else {
            return Reply::Refused(Refusal::NoRoom);
        };
        answer(&mut self.rooms[index], what, observer)
    }

    /// Closes the room of this name, if there is one.
    fn close(&mut self, name: &Name) -> Reply
        ensures { Applies self.old (Close name.now) result self.new }
    {
        match self.rooms.swap_remove(name) {
            Some(_) => Reply::Closed,
            None => Reply::Refused(Refusal::NoRoom),
        }
    }
}

/// The replies of a fresh service to these commands.
fn run_all(alloc: Global, commands: Vec<Command>) -> Result<Vec<Reply>, AllocError>
    ensures count { IfOk result (λ replies. length replies.items ≡ length commands.items) }
    ensures reports { IfOk result (λ replies. AreTrueReports commands.items replies.items) }
    ensures refused { IfOk result (λ replies. (name : List ℕ) →
        without_wants (replies_of name commands.items replies.items) ≡
        replies_from None (part name (granted commands.items replies.items))) }
    ensures wants { IfOk result (λ replies. AreWants commands.items replies.items) }
{
    let replies = Vec::with_capacity(alloc, commands.len())?;
    Ok(reply_to_all(alloc, commands, replies))
}

/// Puts the replies of a fresh service to these commands into a list that has room for them.
fn reply_to_all(alloc: Global, commands: Vec<Command>, mut replies: Vec<Reply>) -> Vec<Reply>
    requires empty { (replies.items ≡ []) × (vec_len replies ≡ 0) }
    requires room { length commands.items ≤ vec_capacity replies }
    ensures count { length result.items ≡ length commands.items }
    ensures reports { AreTrueReports commands.items result.items }
    ensures refused { (name : List ℕ) → without_wants (replies_of name commands.items result.items) ≡
        replies_from None (part name (granted commands.items result.items)) }
    ensures wants { AreWants commands.items result.items }
{
    let mut service = Service::new(alloc);
    for command in commands {
        let reply = service.apply(alloc, command);
        replies.push_reserved(reply);
    }
    replies
}
