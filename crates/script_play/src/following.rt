//! Those who follow a script: what is shown of it.
ghost use Rattle.std.specs.Prelude.{◌≡◌};
ghost use Rattle.service_core.specs.Replies.{name_in};
ghost use Rattle.service_core.specs.Rooms.{room_at};
ghost use Rattle.script_play.specs.Play.{OpensNone};
ghost use Rattle.script_play.specs.Following.{IsFor, decisions_at, sim_for};

use crate::reply::refusal_in;
use arrayvec::ArrayVec;
use room_core::{Observer, StepReply};
use room_spec::{MAX_SIMULATORS, Name, Spec, SpecFault};
use service_core::{Command, Refusal, Reply, Service};
use std::alloc::{AllocError, Global};

/// A command, as those see it who follow a script.
#[derive(Clone, Copy)]
pub struct Asked<'a> {
    /// The bytes in the place of the room's name. They are one, but for steps whose line turns out to be malformed.
    pub name: &'a [u8],
    pub order: Order,
}

/// What a command is to do to the room of its name.
#[derive(Clone, Copy)]
pub enum Order {
    /// To open a room.
    Open,
    Step { sim: u8, count: u16 },
    Crash(u8),
    Settle,
    Report,
    Close,
}

impl Order {
    /// The simulator that the command is for, or 0 if it is for none, as [`write_reply`](crate::write_reply) takes it.
    pub fn sim(self) -> u8
        ensures { result ≡ sim_for self }
    {
        match self {
            Order::Step { sim, .. } | Order::Crash(sim) => sim,
            Order::Open | Order::Settle | Order::Report | Order::Close => 0,
        }
    }
}

/// What a command is to do, which opens no room.
pub(crate) fn order_of(command: &Command) -> Order
    requires { OpensNone command.now }
    ensures { IsFor result (name_in command.now) command.now }
{
    match command {
        Command::Begin(_) => unreachable!(), // a block opens a room
        Command::Step { sim, count, .. } => Order::Step {
            sim: *sim,
            count: *count,
        },
        Command::Crash { sim, .. } => Order::Crash(*sim),
        Command::Settle(_) => Order::Settle,
        Command::Report(_) => Order::Report,
        Command::Close(_) => Order::Close,
    }
}

/// Follows a script: sees each thing that is done, with the rooms before and after it. After an `Err`, which is an allocation that failed,
/// nothing is promised of it: the script is not gone on with.
pub trait Follows: Drop {
    ghost use Rattle.std.specs.Prelude.{◌≡◌, ℕ, Option, None, Some, IfOk, OnOk};
    ghost use Rattle.service_core.specs.Rooms.{Applies, Entries};
    ghost use Rattle.service_core.specs.declared.command.Command.{Command as CommandData};
    ghost use Rattle.service_core.specs.declared.command.Command.TheVariants.{Begin, Report};
    ghost use Rattle.service_core.specs.declared.reply.Reply.{Reply as ReplyData};
    ghost use Rattle.service_core.specs.declared.reply.Reply.TheVariants.{Steps};
    ghost use Rattle.script_play.specs.Play.{Done, Faulty, IsBlockOf, OpensNone, Replied, Unread, refusal_in};
    ghost use Rattle.script_play.specs.Following.{Happens, IsAsked};

    /// What sees the steps that a command takes.
    type Watch: Observer + Drop;

    // What one thing that is done makes of it, by the rooms before and after.
    ghost follows: { Self → Entries → Done → Entries → Self → Type 0 };

    // What it makes of itself before a command to these rooms, with what is to see the steps.
    ghost readies: { Self → Entries → CommandData → Self → Option Self.Watch → Type 0 };

    /// Makes itself ready for the room of a block. Gives what is to see the command's steps, of which there are none.
    fn opens(
        &mut self,
        alloc: Global,
        block: &[u8],
        spec: &Spec,
    ) -> Result<Option<Self::Watch>, AllocError>
        requires { IsBlockOf spec.now block.now }
        ensures { IfOk result (λ watch. (rooms : Entries) → readies self.old rooms (Begin spec.now) self.new watch) };

    /// Makes itself ready for a command that opens no room. Gives what is to see the steps that it takes, if something is.
    fn before(
        &mut self,
        alloc: Global,
        asked: &Asked<'_>,
        rooms: &Service,
    ) -> Result<Option<Self::Watch>, AllocError>
        ensures { IfOk result (λ watch. (command : CommandData) → OpensNone command → IsAsked asked.now command → readies self.old rooms.now command self.new watch) };

    /// Follows a command that was executed, with what has seen its steps. These are the rooms after it.
    fn after(
        &mut self,
        asked: &Asked<'_>,
        reply: Reply,
        watch: &mut Option<Self::Watch>,
        rooms: &Service,
    ) -> Result<(), AllocError>
        ensures { OnOk result ((first : Self) (earlier : Entries) (command : CommandData) → IsAsked asked.now command →
            Happens readies Self.Watch.sees first earlier command self.old reply watch.old rooms.now →
            follows first earlier (Replied command reply) rooms.now self.new) };

    /// Follows steps that nothing has seen, with no reply made of them.
    fn stepped(
        &mut self,
        asked: &Asked<'_>,
        taken: u16,
        last: StepReply,
        rooms: &Service,
    ) -> Result<(), AllocError>
        ensures { OnOk result ((first : Self) (earlier : Entries) (command : CommandData) → IsAsked asked.now command →
            Happens readies Self.Watch.sees first earlier command self.old (Steps taken last) None rooms.now →
            follows first earlier (Replied command (Steps taken last)) rooms.now self.new) }
    {
        self.after(asked, Reply::Steps { taken, last }, &mut None, rooms)
    }

    /// Makes the report of the room of this name, and follows that. Gives why it was refused, if it was.
    fn report(
        &mut self,
        alloc: Global,
        name: &Name,
        rooms: &Service,
    ) -> Result<Option<Refusal>, AllocError>
        ensures { IfOk result (λ refusal. (reply : ReplyData) × Applies rooms.now (Report name.now) reply rooms.now × (refusal ≡ refusal_in reply) ×
            follows self.old rooms.now (Replied (Report name.now) reply) rooms.now self.new) }
    {
        let asked = Asked {
            name: name.as_str().as_bytes(),
            order: Order::Report,
        };
        let mut watch = self.before(alloc, &asked, rooms)?;
        let reply = rooms.report(alloc, name);
        let refusal = refusal_in(&reply);
        self.after(&asked, reply, &mut watch, rooms)?;
        Ok(refusal)
    }

    /// Follows that a block was refused for a fault of its own. Its first line has this number.
    fn refuse(&mut self, line: u64, fault: SpecFault) -> Result<(), AllocError>
        ensures { OnOk result ((rooms : Entries) → follows self.old rooms (Faulty line fault) rooms self.new) };

    /// Follows that a block was refused because an allocation failed. Its first line has this number.
    fn out_of_memory(&mut self, line: u64) -> Result<(), AllocError>
        ensures { OnOk result ((rooms : Entries) → follows self.old rooms (Unread line) rooms self.new) };
}

/// What the simulators of the room of this name have decided, if there is one.
pub fn decisions_at(rooms: &Service, name: &[u8]) -> ArrayVec<Option<u32>, MAX_SIMULATORS>
    ensures { result.items ≡ decisions_at (room_at rooms.now name.now) }
{
    match rooms.room(name) {
        Some(room) => room.decisions(),
        None => ArrayVec::new(),
    }
}
