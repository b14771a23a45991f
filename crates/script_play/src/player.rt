//! What comes of a script's entries, one by one.
ghost use Rattle.std.specs.Prelude.{◌≡◌, ◌<◌, ◌+◌, ◌^◌, [], true, None, Ok, Some, IfOk, OnOk, is_some};
ghost use Rattle.service_core.specs.declared.command.Command.{Command as CommandData};
ghost use Rattle.service_core.specs.declared.command.Command.TheVariants.{Begin, Report, Step};
ghost use Rattle.service_core.specs.declared.reply.Reply.{Reply as ReplyData};
ghost use Rattle.service_core.specs.declared.reply.Reply.TheVariants.{Refused};
ghost use Rattle.service_core.specs.Replies.{name_in};
ghost use Rattle.service_core.specs.Rooms.{Applies, Entries, room_at, steps_of};
ghost use Rattle.room_files.specs.declared.outcome.Outcome.TheVariants.{AllWell};
ghost use Rattle.room_spec.specs.Names.{is_name};
ghost use Rattle.script_play.specs.Script.{Entry as EntryData, Open, asks_at, command_in, is_asking};
ghost use Rattle.script_play.specs.Play.{Done, Faulty, IsBlockOf, IsDone, OpensNone, Replied, Unread, ending_with, is_memory_refusal};
ghost use Rattle.script_play.specs.Following.{AreWatched, GoesOn, IsAsked};

use crate::entries::{Entry, read_command};
use crate::following::{Asked, Follows, Order, order_of};
use crate::reply::refusal_in;
use crate::steps::read_steps;
use room_core::Observer;
use room_files::{Kinds, Outcome, read_room};
use room_spec::{Name, Spec, SpecFault};
use service_core::{Command, Refusal, Reply, Service};
use std::alloc::{AllocError, Global};

/// The rooms of a script, the one that follows it, and how it ends.
#[derive(Drop)]
pub(crate) struct Player<F: Follows> {
    pub(crate) service: Service,
    pub(crate) follower: F,
    /// How the script ends if nothing more is refused.
    pub(crate) ending: Result<Outcome, AllocError>,
}

impl<F: Follows> Player<F> {
    pub(crate) fn new(alloc: Global, follower: F) -> Player<F>
        ensures service { result.service ≡ [] }
        ensures follower { result.follower ≡ follower }
        ensures ending { result.ending ≡ Ok AllWell }
    {
        Player {
            service: Service::new(alloc),
            follower,
            ending: Ok(Outcome::AllWell),
        }
    }

    /// Does what comes first asks for, where its first line has this number. Gives whether it asks for
    /// something.
    pub(crate) fn take(
        &mut self,
        alloc: Global,
        kinds: Kinds,
        number: u64,
        entry: &Entry<'_>,
    ) -> Result<bool, AllocError>
        requires { number + 1 < 2 ^ 64 }
        ensures good { IfOk result (λ good. good ≡ is_asking entry.now) }
        ensures plays { OnOk result ((asked : EntryData) → asks_at number entry.now ≡ Ok asked → (done : Done) × IsDone kinds asked done ×
            GoesOn F.follows self.old.service self.old.follower self.old.ending done self.new.service self.new.follower self.new.ending) }
    {
        let line = match entry {
            Entry::Block(block) => {
                self.open(alloc, kinds, number + 1, block)?;
                return Ok(true);
            }
            Entry::Line(line) => line,
        };
        if let Some((name, sim, count)) = read_steps(line) {
            return self.step(alloc, name, sim, count);
        }
        self.obey(alloc, line)
    }

    /// Does what a line asks for that opens no room. Gives whether it asks for something.
    #[inline(never)]
    fn obey(&mut self, alloc: Global, line: &[u8]) -> Result<bool, AllocError>
        ensures good { IfOk result (λ good. good ≡ is_some (command_in line.now)) }
        ensures plays { OnOk result ((command : CommandData) → command_in line.now ≡ Some command → (reply : ReplyData) ×
            GoesOn F.follows self.old.service self.old.follower self.old.ending (Replied command reply) self.new.service self.new.follower self.new.ending) }
    {
        let Some(command) = read_command(line) else {
            return Ok(false);
        };
        self.perform(alloc, command)?;
        Ok(true)
    }

    /// Opens the room of a block whose first line has this number.
    #[tactic(auto, using(crate::proofs::OwnBlocks::block_within, crate::proofs::OwnBlocks::own_block))]
    #[inline(never)]
    fn open(
        &mut self,
        alloc: Global,
        kinds: Kinds,
        number: u64,
        block: &[u8],
    ) -> Result<(), AllocError>
        ensures { OnOk result ((done : Done) × IsDone kinds (Open number block.now) done ×
            GoesOn F.follows self.old.service self.old.follower self.old.ending done self.new.service self.new.follower self.new.ending) }
    {
        match read_room(alloc, kinds, block) {
            Ok(Ok((spec, len))) => self.begin(alloc, &block[..len], spec),
            Ok(Err(fault)) => self.refuse(number, fault),
            Err(AllocError) => self.out_of_memory(number),
        }
    }

    /// Opens the room that a block says.
    fn begin(&mut self, alloc: Global, block: &[u8], spec: Spec) -> Result<(), AllocError>
        requires { IsBlockOf spec block.now }
        ensures { OnOk result ((reply : ReplyData) ×
            GoesOn F.follows self.old.service self.old.follower self.old.ending (Replied (Begin spec) reply) self.new.service self.new.follower self.new.ending) }
    {
        let name = spec.name().clone()?;
        let watch = self.follower.opens(alloc, block, &spec)?;
        let asked = Asked {
            name: name.as_str().as_bytes(),
            order: Order::Open,
        };
        self.execute(alloc, &asked, Command::Begin(spec), watch)
    }

    /// Refuses a block for a fault of its own. Its first line has this number.
    fn refuse(&mut self, number: u64, fault: SpecFault) -> Result<(), AllocError>
        ensures { OnOk result (GoesOn F.follows self.old.service self.old.follower self.old.ending (Faulty number fault) self.new.service self.new.follower self.new.ending) }
    {
        self.ending = self.ending.and(Ok(Outcome::SomeRefused));
        self.follower.refuse(number, fault)
    }

    /// Refuses a block because an allocation failed. Its first line has this number.
    fn out_of_memory(&mut self, number: u64) -> Result<(), AllocError>
        ensures { OnOk result (GoesOn F.follows self.old.service self.old.follower self.old.ending (Unread number) self.new.service self.new.follower self.new.ending) }
    {
        self.ending = Err(AllocError);
        self.follower.out_of_memory(number)
    }

    /// Does a command, which opens no room.
    fn perform(&mut self, alloc: Global, command: Command) -> Result<(), AllocError>
        requires { OpensNone command }
        ensures { OnOk result ((reply : ReplyData) ×
            GoesOn F.follows self.old.service self.old.follower self.old.ending (Replied command reply) self.new.service self.new.follower self.new.ending) }
    {
        if let Command::Report(name) = &command {
            return self.report(alloc, name);
        }
        let name = command.name().clone()?;
        let asked = Asked {
            name: name.as_str().as_bytes(),
            order: order_of(&command),
        };
        let watch = self.follower.before(alloc, &asked, &self.service)?;
        self.execute(alloc, &asked, command, watch)
    }

    /// Reports on the room of this name.
    fn report(&mut self, alloc: Global, name: &Name) -> Result<(), AllocError>
        ensures { OnOk result ((reply : ReplyData) ×
            GoesOn F.follows self.old.service self.old.follower self.old.ending (Replied (Report name.now) reply) self.new.service self.new.follower self.new.ending) }
    {
        let refusal = self.follower.report(alloc, name, &self.service)?;
        self.ending = ending_with(refusal, self.ending);
        Ok(())
    }

    /// Executes a command, for which the one that follows is ready.
    fn execute(
        &mut self,
        alloc: Global,
        asked: &Asked<'_>,
        command: Command,
        watch: Option<F::Watch>,
    ) -> Result<(), AllocError>
        requires { IsAsked asked.now command }
        ensures { OnOk result ((first : F) → F.readies first self.old.service command self.old.follower watch → (reply : ReplyData) ×
            GoesOn F.follows self.old.service first self.old.ending (Replied command reply) self.new.service self.new.follower self.new.ending) }
    {
        let mut watch = watch;
        let reply = apply_watched(&mut self.service, alloc, command, &mut watch);
        self.ending = ending_with(refusal_in(&reply), self.ending);
        self.follower.after(asked, reply, &mut watch, &self.service)
    }

    /// Lets a simulator of the room of this name take steps. Gives whether these bytes are a name: if not, the line is malformed, and
    /// nothing that was done matters.
    fn step(&mut self, alloc: Global, name: &[u8], sim: u8, count: u16) -> Result<bool, AllocError>
        ensures good { IfOk result (λ good. good ≡ is_name name.now) }
        ensures plays { OnOk result (is_name name.now ≡ true → (reply : ReplyData) ×
            GoesOn F.follows self.old.service self.old.follower self.old.ending (Replied (Step name.now sim count) reply) self.new.service self.new.follower self.new.ending) }
    {
        let asked = Asked {
            name,
            order: Order::Step { sim, count },
        };
        match self.follower.before(alloc, &asked, &self.service)? {
            None => self.step_unseen(&asked, sim, count),
            watch => {
                let Some(name) = Name::read(name) else {
                    return Ok(false);
                };
                self.execute(alloc, &asked, Command::Step { name, sim, count }, watch)?;
                Ok(true)
            }
        }
    }

    /// Lets a simulator take steps that nothing sees, with neither a command nor a reply made. Gives whether the bytes are a name.
    #[inline]
    fn step_unseen(&mut self, asked: &Asked<'_>, sim: u8, count: u16) -> Result<bool, AllocError>
        requires { IsAsked asked.now (Step asked.now.name.now sim count) }
        ensures good { IfOk result (λ good. good ≡ is_name asked.now.name.now) }
        ensures plays { OnOk result (is_name asked.now.name.now ≡ true → (first : F) → F.readies first self.old.service (Step asked.now.name.now sim count) self.old.follower None → (reply : ReplyData) ×
            GoesOn F.follows self.old.service first self.old.ending (Replied (Step asked.now.name.now sim count) reply) self.new.service self.new.follower self.new.ending) }
    {
        match self.service.step(asked.name, sim, count) {
            Ok((taken, last)) => {
                self.follower.stepped(asked, taken, last, &self.service)?;
                Ok(true)
            }
            Err(refusal) => self.refuse_steps(asked, refusal),
        }
    }

    /// Has it followed that steps were refused. Gives whether the bytes are a name.
    #[cold]
    #[inline(never)]
    fn refuse_steps(&mut self, asked: &Asked<'_>, refusal: Refusal) -> Result<bool, AllocError>
        ensures good { IfOk result (λ good. good ≡ is_name asked.now.name.now) }
        ensures plays { OnOk result (is_name asked.now.name.now ≡ true → (first : F) (earlier : Entries) (command : CommandData) → IsAsked asked.now command → F.readies first earlier command self.old.follower None →
            Applies earlier command (Refused refusal) self.old.service →
            GoesOn F.follows earlier first self.old.ending (Replied command (Refused refusal)) self.new.service self.new.follower self.new.ending) }
    {
        if Name::read(asked.name).is_none() {
            return Ok(false);
        }
        self.ending = ending_with(Some(refusal), self.ending);
        self.follower
            .after(asked, Reply::Refused(refusal), &mut None, &self.service)?;
        Ok(true)
    }
}

/// Does what a command asks, and has its steps seen if something is to see them.
fn apply_watched<W: Observer>(
    service: &mut Service,
    alloc: Global,
    command: Command,
    watch: &mut Option<W>,
) -> Reply
    ensures applies { Applies service.old command result service.new }
    ensures seen { AreWatched W.sees watch.old (steps_of (room_at service.old (name_in command)) command) watch.new }
{
    match watch {
        Some(watch) => service.apply_observed(alloc, command, watch),
        None => service.apply(alloc, command),
    }
}

/// How a script ends with one command more, which was refused for this or not at all.
fn ending_with(
    refusal: Option<Refusal>,
    ending: Result<Outcome, AllocError>,
) -> Result<Outcome, AllocError>
    ensures { result ≡ ending_with (is_memory_refusal refusal) (is_some refusal) ending }
{
    match refusal {
        None => ending,
        Some(Refusal::OutOfMemory) => Err(AllocError),
        Some(_) => ending.and(Ok(Outcome::SomeRefused)),
    }
}
