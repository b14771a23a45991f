//! Answers to the entries of a script, one by one.
ghost use Rattle.std.specs.Prelude.{◌≡◌, ◌+◌, ◌++◌, IfNone, IfOk, IfSome, OnOk, true, codes, decimal, min};
ghost use Rattle.service_core.specs.declared.reply.Reply.{Reply as ReplyData};
ghost use Rattle.service_core.specs.Runs.{is_want};
ghost use Rattle.room_files.specs.Faults.{text_code};
ghost use Rattle.room_files.specs.declared.kinds.Kinds.TheVariants.{All};
ghost use Rattle.script_play.specs.Script.{Open};
ghost use Rattle.script_play.specs.Play.{Done, Faulty, IsDone, Replied, Unread, ending_with, is_refusal};
ghost use Rattle.live_script.specs.Entries.{Block as BlockPiece, Line as LinePiece, is_unfinished, last_piece};
ghost use Rattle.live_script.specs.Answers.{Answer, open_after, remark};
ghost use Rattle.live_script.specs.Sessions.{IsAnsweredBy, IsNew, IsRefused, IsTaken, IsTakenFrom};

use crate::entries::whole_block;
use io_text::Text;
use room_files::{
    Kinds, Outcome, TextFault, count_lines, read_room, write_refused, write_refused_code,
};
use room_spec::{Spec, SpecFault, cut};
use script_play::{read_command, sim_in, write_reply};
use service_core::{Command, Refusal, Reply, Service};
use std::alloc::{AllocError, Global};

/// The most rooms that are open at a time.
pub const MAX_ROOMS: u64 = 1024;

/// The greatest number of a line. All lines after it have it too.
const MAX_LINE_NUMBER: u64 = 4294967295;

/// The rooms of a script that is fed entry by entry, and the text of its last answer.
#[derive(Drop)]
pub(crate) struct Live {
    pub(crate) service: Service,
    pub(crate) output: Text,
    /// How many rooms are open.
    pub(crate) opened: u64,
    /// The number of the next line.
    pub(crate) line: u32,
    /// How the script ends if nothing more is refused.
    pub(crate) ending: Result<Outcome, AllocError>,
}

impl Live {
    /// Before the first line.
    pub(crate) fn new(alloc: Global) -> Live
        ensures { IsNew result }
    {
        Live {
            service: Service::new(alloc),
            output: Text::new(alloc),
            opened: 0,
            line: 1,
            ending: Ok(Outcome::AllWell),
        }
    }

    /// Answers the entry at the front of a text, if it is whole. Gives how many bytes it has.
    pub(crate) fn take_first(
        &mut self,
        alloc: Global,
        text: &[u8],
    ) -> Result<Option<usize>, AllocError>
        ensures some { IfOk result (λ found. IfSome found (λ used. IsTakenFrom text.now used self.old self.new)) }
        ensures none { IfOk result (λ found. IfNone found ((is_unfinished text.now ≡ true) × (self.new ≡ self.old))) }
    {
        let (line, later) = cut(text, b'\n');
        let Some(later) = later else {
            return Ok(None);
        };
        if line != b"open".as_slice() {
            self.take_line(alloc, line)?;
            return Ok(Some(line.len() + 1));
        }
        let Some(block) = whole_block(later) else {
            return Ok(None);
        };
        self.take_block(alloc, block)?;
        Ok(Some(block.len() + 5))
    }

    /// Answers the last entry of a script, without a line end or a line `end`.
    pub(crate) fn take_last(&mut self, alloc: Global, text: &[u8]) -> Result<(), AllocError>
        ensures { OnOk result ((answer : Answer) × IsAnsweredBy (last_piece text.now) answer self.old self.new) }
    {
        let (line, later) = cut(text, b'\n');
        if line == b"open".as_slice() {
            return self.take_block(alloc, later.unwrap_or(&[]));
        }
        self.take_line(alloc, text)
    }

    /// Answers a line.
    fn take_line(&mut self, alloc: Global, line: &[u8]) -> Result<(), AllocError>
        ensures { OnOk result ((answer : Answer) × IsAnsweredBy (LinePiece line.now) answer self.old self.new) }
    {
        let number = self.pass(1);
        match read_command(line) {
            Some(command) => self.reply_to(alloc, command),
            None => self.refuse_line(number, TextFault::NoCommand),
        }
    }

    /// Answers a block.
    fn take_block(&mut self, alloc: Global, block: &[u8]) -> Result<(), AllocError>
        ensures { OnOk result ((answer : Answer) × IsAnsweredBy (BlockPiece block.now) answer self.old self.new) }
    {
        let number = self.pass(1 + count_lines(block));
        if self.opened < MAX_ROOMS {
            self.open(alloc, number + 1, block)
        } else {
            self.refuse(number, b": too many rooms")
        }
    }

    /// Opens the room of a block whose first line has this number.
    fn open(&mut self, alloc: Global, number: u64, block: &[u8]) -> Result<(), AllocError>
        ensures { OnOk result ((done : Done) × IsDone All (Open number block.now) done × IsTaken done self.old self.new) }
    {
        match read_room(alloc, Kinds::All, block) {
            Ok(Ok((spec, _))) => self.reply_to(alloc, Command::Begin(spec)),
            Ok(Err(fault)) => self.refuse_block(number, fault),
            Err(AllocError) => self.refuse_unread(number),
        }
    }

    /// Does a command, and writes the reply.
    fn reply_to(&mut self, alloc: Global, command: Command) -> Result<(), AllocError>
        ensures { OnOk result ((reply : ReplyData) × IsTaken (Replied command reply) self.old self.new) }
    {
        let name = command.name().clone()?;
        let sim = sim_in(&command);
        let reply = self.service.apply(alloc, command);
        self.output.clear();
        write_reply(&mut self.output, name.as_str().as_bytes(), sim, &reply)?;
        self.opened = open_after(self.opened, &reply);
        self.ending = ending_after(&reply, self.ending);
        Ok(())
    }

    /// Writes that the block whose first line has this number was refused for a fault of its own.
    fn refuse_block(&mut self, number: u64, fault: SpecFault) -> Result<(), AllocError>
        ensures { OnOk result (IsTaken (Faulty number fault) self.old self.new) }
    {
        self.output.clear();
        write_refused(&mut self.output, number, fault)?;
        self.ending = self.ending.and(Ok(Outcome::SomeRefused));
        Ok(())
    }

    /// Writes that the block whose first line has this number was refused because an allocation failed.
    #[tactic(auto, using(crate::proofs::Cutting::unread_text))]
    fn refuse_unread(&mut self, number: u64) -> Result<(), AllocError>
        ensures { OnOk result (IsTaken (Unread number) self.old self.new) }
    {
        self.output.clear();
        write_refused_code(&mut self.output, number, Refusal::OutOfMemory.code())?;
        self.ending = Err(AllocError);
        Ok(())
    }

    /// Writes that the line of this number has this fault.
    fn refuse_line(&mut self, number: u64, fault: TextFault) -> Result<(), AllocError>
        ensures { OnOk result (IsRefused (remark number (codes ": fault " ++ decimal (text_code fault))) self.old self.new) }
    {
        self.output.clear();
        write_fault(&mut self.output, number, fault)?;
        self.ending = self.ending.and(Ok(Outcome::SomeRefused));
        Ok(())
    }

    /// Writes that the entry whose first line has this number was refused, in these words.
    fn refuse(&mut self, number: u64, words: &[u8]) -> Result<(), AllocError>
        ensures { OnOk result (IsRefused (remark number words.now) self.old self.new) }
    {
        self.output.clear();
        write_remark(&mut self.output, number, words)?;
        self.ending = self.ending.and(Ok(Outcome::SomeRefused));
        Ok(())
    }

    /// Goes on after this many lines. Gives the number of the first of them.
    fn pass(&mut self, lines: u64) -> u64
        ensures number { result ≡ self.old.line }
        ensures line { self.new ≡ record self.old { line = min (self.old.line + lines) MAX_LINE_NUMBER } }
    {
        let number = u64::from(self.line);
        self.line = number.saturating_add(lines).min(MAX_LINE_NUMBER) as u32;
        number
    }
}

/// How many rooms are open after a reply, when this many were.
fn open_after(opened: u64, reply: &Reply) -> u64
    ensures { result ≡ open_after opened reply.now }
{
    match reply {
        Reply::Begun => opened.saturating_add(1).min(MAX_ROOMS),
        Reply::Closed => opened.saturating_sub(1),
        Reply::Steps { .. }
        | Reply::Crash(_)
        | Reply::Settled
        | Reply::Report(_)
        | Reply::Refused(_) => opened,
    }
}

/// How a script ends with one reply more.
fn ending_after(reply: &Reply, ending: Result<Outcome, AllocError>) -> Result<Outcome, AllocError>
    ensures { result ≡ ending_with (is_want reply.now) (is_refusal reply.now) ending }
{
    match reply {
        Reply::Refused(Refusal::OutOfMemory) => Err(AllocError),
        Reply::Refused(Refusal::NoRoom | Refusal::NameTaken | Refusal::NoSimulator) => {
            ending.and(Ok(Outcome::SomeRefused))
        }
        Reply::Begun
        | Reply::Steps { .. }
        | Reply::Crash(_)
        | Reply::Settled
        | Reply::Report(_)
        | Reply::Closed => ending,
    }
}

/// Writes a line about the line of this number.
pub(crate) fn write_remark(output: &mut Text, line: u64, words: &[u8]) -> Result<(), AllocError>
    ensures { OnOk result (output.new ≡ output.old ++ remark line words.now) }
{
    output.put(b"! line")?;
    output.put_spaced_number(line)?;
    output.put(words)?;
    output.put(b"\n")
}

/// Writes that the line of this number has this fault.
fn write_fault(output: &mut Text, line: u64, fault: TextFault) -> Result<(), AllocError>
    ensures { OnOk result (output.new ≡ output.old ++ remark line (codes ": fault " ++ decimal (text_code fault))) }
{
    output.put(b"! line")?;
    output.put_spaced_number(line)?;
    output.put(b": fault")?;
    output.put_spaced_number(u64::from(fault.code()))?;
    output.put(b"\n")
}
