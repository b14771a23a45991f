//! The replies to a script, as text.
ghost use Rattle.std.specs.Prelude.{◌≡◌, ◌≤◌, ◌++◌, [], IsOk, IfOk, IfErr, OnOk, length};
ghost use Rattle.room_files.specs.Blocks.{IsFaultOr};
ghost use Rattle.room_files.specs.declared.kinds.Kinds.TheVariants.{Ordinary};
ghost use Rattle.script_play.specs.Script.{script_says};
ghost use Rattle.io_text.specs.Reading.{most_bytes};
ghost use Rattle.script_play.specs.Play.{IsPlayFor};
ghost use Rattle.script_play.specs.ReplyTexts.{reply_text};
ghost use Rattle.service_core.specs.declared.reply.Reply.TheVariants.{Refused};

use crate::following::{Asked, Follows};
use crate::reply::{write_reply, write_steps};
use crate::script::{Played, play_script};
use io_text::Text;
use report_text::{EventLines, write_lines};
use room_core::{StepReply, Unobserved};
use room_files::{InputFault, Kinds, Outcome, write_refused, write_refused_code};
use room_spec::{Name, Spec, SpecFault};
use service_core::{Refusal, Reply, Service};
use std::alloc::{AllocError, Global};

/// The text that a script leads to, and the end that goes with it.
#[derive(Drop)]
pub struct PlayText {
    pub output: Text,
    /// Whether something was refused. An `Err` says that an allocation failed for something.
    pub ending: Result<Outcome, AllocError>,
}

/// Judges a script of ordinary rooms, and does what it asks for if it has no fault.
///
/// # Errors
///
/// The script's first malformed line; or an allocation that failed for the text.
pub fn play(alloc: Global, script: &[u8]) -> Result<PlayText, InputFault>
    requires { length script.now ≤ most_bytes }
    ensures text { IfOk result (λ played. IsPlayFor Ordinary script.now played.ending played.output) }
    // An allocation that fails hides no malformed line.
    ensures err { IfErr result (IsFaultOr (IsOk (script_says script.now)) (script_says script.now)) }
{
    let Played {
        follower,
        ending,
        ..
    } = play_script(alloc, Kinds::Ordinary, Replies::new(alloc), script)?;
    Ok(PlayText {
        output: follower.output,
        ending,
    })
}

/// The lines of replies and of refused blocks, and room for those of a report's events.
#[derive(Drop)]
struct Replies {
    output: Text,
    lines: EventLines,
}

impl Replies {
    fn new(alloc: Global) -> Replies
        ensures { result.output ≡ [] }
    {
        Replies {
            output: Text::new(alloc),
            lines: EventLines::new(alloc),
        }
    }

    /// Writes that the room of this name refused its report.
    fn refuse_report(&mut self, name: &Name, refusal: Refusal) -> Result<(), AllocError>
        ensures { OnOk result (self.new.output ≡ self.old.output ++ reply_text name.now 0 (Refused refusal)) }
    {
        let name = name.as_str().as_bytes();
        write_reply(&mut self.output, name, 0, &Reply::Refused(refusal))
    }
}

impl Follows for Replies {
    ghost use Rattle.std.specs.Prelude.{◌≡◌, ◌++◌};
    ghost use Rattle.script_play.specs.Play.{done_text};

    type Watch = Unobserved;

    ghost follows = { λ old rooms done after new. new.output ≡ old.output ++ done_text done };

    ghost readies = { λ old rooms command new watch. new.output ≡ old.output };

    fn opens(
        &mut self,
        _alloc: Global,
        _block: &[u8],
        _spec: &Spec,
    ) -> Result<Option<Unobserved>, AllocError> {
        Ok(None)
    }

    #[inline(always)]
    fn before(
        &mut self,
        _alloc: Global,
        _asked: &Asked<'_>,
        _rooms: &Service,
    ) -> Result<Option<Unobserved>, AllocError> {
        Ok(None)
    }

    fn after(
        &mut self,
        asked: &Asked<'_>,
        reply: Reply,
        _watch: &mut Option<Unobserved>,
        _rooms: &Service,
    ) -> Result<(), AllocError> {
        write_reply(&mut self.output, asked.name, asked.order.sim(), &reply)
    }

    #[inline]
    fn stepped(
        &mut self,
        asked: &Asked<'_>,
        taken: u16,
        last: StepReply,
        _rooms: &Service,
    ) -> Result<(), AllocError> {
        write_steps(&mut self.output, asked.name, asked.order.sim(), taken, last)
    }

    fn report(
        &mut self,
        alloc: Global,
        name: &Name,
        rooms: &Service,
    ) -> Result<Option<Refusal>, AllocError> {
        self.lines.begin(name);
        match rooms.report_to(alloc, name, &mut self.lines) {
            Ok(standing) => {
                write_lines(&mut self.output, name, &standing, &self.lines)?;
                Ok(None)
            }
            Err(refusal) => {
                self.refuse_report(name, refusal)?;
                Ok(Some(refusal))
            }
        }
    }

    fn refuse(&mut self, line: u64, fault: SpecFault) -> Result<(), AllocError> {
        write_refused(&mut self.output, line, fault)
    }

    fn out_of_memory(&mut self, line: u64) -> Result<(), AllocError> {
        write_refused_code(&mut self.output, line, Refusal::OutOfMemory.code())
    }
}
