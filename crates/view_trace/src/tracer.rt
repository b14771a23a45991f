//! What is said of a script: its replies, and under each the atomic steps that its command took, or what the simulators have decided and which inputs they have agreed on.
ghost use Rattle.std.specs.Prelude.{◌≡◌, ◌++◌, [], None, Option, OnOk};
ghost use Rattle.step_words.specs.Reported.{Reporting};
ghost use Rattle.script_play.specs.Play.{refusal_in};
ghost use Rattle.view_trace.specs.Trace.{IsWhole, answer_text, fault_written, left_under, out_of_memory_written, lines_in, missed_by, missed_refused, notes_after, refusal_shown};
ghost use Rattle.service_core.specs.Rooms.{room_at};
ghost use Rattle.script_play.specs.Following.{sim_for};

use crate::decisions::write_decisions;
use crate::inputs::write_inputs;
use crate::json::{write_fault_object, write_out_of_memory_object, write_reply_object};
use crate::missed::Missed;
use fault_text::write_indented;
use io_text::Text;
use room_files::{write_refused, write_refused_code};
use room_spec::{Spec, SpecFault};
use script_play::{Asked, Follows, write_reply};
use service_core::{Refusal, Reply, Service};
use std::alloc::{AllocError, Global};
use step_words::StepTexts;

/// What is said of what was done so far: as text, or as JSON.
#[derive(Drop)]
pub(crate) struct Tracer<const JSON: bool> {
    alloc: Global,
    pub(crate) output: Text,
    pub(crate) missed: Missed,
}

impl<const JSON: bool> Tracer<JSON> {
    pub(crate) fn new(alloc: Global) -> Tracer<JSON>
        ensures output { result.output ≡ [] }
        ensures missed { result.missed ≡ record { refused = []; unknown_names = record { names = []; more = 0 } } }
    {
        Tracer {
            alloc,
            output: Text::new(alloc),
            missed: Missed::new(alloc),
        }
    }

    /// Writes a reply to a command, which left these rooms.
    fn write_answer(
        &mut self,
        asked: &Asked<'_>,
        reply: &Reply,
        rooms: &Service,
    ) -> Result<(), AllocError>
        ensures output { OnOk result (self.new.output ≡ self.old.output ++ answer_text JSON (room_at rooms.now asked.now.name.now) asked.now.name.now (sim_for asked.now.order) reply.now) }
        ensures missed { self.new.missed ≡ self.old.missed }
    {
        if JSON {
            return write_reply_object(self.alloc, &mut self.output, asked, reply, rooms);
        }
        write_reply(&mut self.output, asked.name, asked.order.sim(), reply)
    }

    /// Writes under a reply to a command with this name why the command was refused, or the steps that it took.
    fn write_notes(
        &mut self,
        name: &[u8],
        reply: &Reply,
        steps: Option<StepTexts>,
    ) -> Result<(), AllocError>
        ensures output { OnOk result (self.new.output ≡ self.old.output ++ notes_after JSON self.old.missed name.now reply.now steps) }
        ensures missed { OnOk result (self.new.missed ≡ missed_by self.old.missed name.now reply.now) }
        ensures whole { OnOk result (refusal_in reply.now ≡ None → IsWhole steps) }
    {
        match reply {
            Reply::Refused(refusal) => self.write_refusal(name, *refusal),
            Reply::Begun
            | Reply::Steps { .. }
            | Reply::Crash(_)
            | Reply::Settled
            | Reply::Report(_)
            | Reply::Closed => self.write_steps(steps),
        }
    }

    /// Writes the steps that were seen.
    fn write_steps(&mut self, steps: Option<StepTexts>) -> Result<(), AllocError>
        ensures output { OnOk result (self.new.output ≡ self.old.output ++ lines_in steps) }
        ensures missed { self.new.missed ≡ self.old.missed }
        ensures whole { OnOk result (IsWhole steps) }
    {
        match steps {
            Some(steps) => {
                let lines = steps.into_lines()?;
                self.output.put(lines.as_bytes())
            }
            None => Ok(()),
        }
    }

    /// Writes under a command with this name why it was refused, in text.
    fn write_refusal(&mut self, name: &[u8], refusal: Refusal) -> Result<(), AllocError>
        ensures output { OnOk result (self.new.output ≡ self.old.output ++ refusal_shown JSON self.old.missed name.now refusal) }
        ensures missed { OnOk result (self.new.missed ≡ missed_refused self.old.missed name.now refusal) }
    {
        if JSON {
            return self.missed.keep(self.alloc, name, refusal);
        }
        match refusal {
            Refusal::NoRoom => self
                .missed
                .write_unknown_name(self.alloc, &mut self.output, name),
            Refusal::NameTaken | Refusal::NoSimulator | Refusal::OutOfMemory => {
                write_indented(&mut self.output, refusal.sentence().as_bytes())
            }
        }
    }
}

impl<const JSON: bool> Follows for Tracer<JSON> {
    ghost use Rattle.std.specs.Prelude.{◌≡◌, Some};
    ghost use Rattle.step_words.specs.Reported.{nothing_reported};
    ghost use Rattle.view_trace.specs.Trace.{IsTraced};

    type Watch = StepTexts;

    ghost follows = { λ old rooms done after new. IsTraced JSON (record { missed = old.missed; output = old.output }) rooms done after (record { missed = new.missed; output = new.output }) };

    ghost readies = { λ old rooms command new watch. (new.missed ≡ old.missed) × (new.output ≡ old.output) × (watch ≡ Some (nothing_reported JSON)) };

    fn opens(
        &mut self,
        alloc: Global,
        _block: &[u8],
        _spec: &Spec,
    ) -> Result<Option<StepTexts>, AllocError> {
        Ok(Some(StepTexts::new(alloc, JSON)))
    }

    fn before(
        &mut self,
        alloc: Global,
        _asked: &Asked<'_>,
        _rooms: &Service,
    ) -> Result<Option<StepTexts>, AllocError> {
        Ok(Some(StepTexts::new(alloc, JSON)))
    }

    fn after(
        &mut self,
        asked: &Asked<'_>,
        reply: Reply,
        watch: &mut Option<StepTexts>,
        rooms: &Service,
    ) -> Result<(), AllocError> {
        self.write_answer(asked, &reply, rooms)?;
        self.write_notes(asked.name, &reply, watch.take())?;
        write_left::<JSON>(&mut self.output, &reply, rooms, asked.name)
    }

    fn refuse(&mut self, line: u64, fault: SpecFault) -> Result<(), AllocError> {
        self.missed.refuse(line, fault)?;
        write_fault::<JSON>(self.alloc, &mut self.output, line, fault)
    }

    fn out_of_memory(&mut self, line: u64) -> Result<(), AllocError> {
        write_out_of_memory::<JSON>(self.alloc, &mut self.output, line)
    }
}

/// Writes under a report the inputs and the decisions in the room of this name.
fn write_left<const JSON: bool>(
    output: &mut Text,
    reply: &Reply,
    rooms: &Service,
    name: &[u8],
) -> Result<(), AllocError>
    ensures { OnOk result (output.new ≡ output.old ++ left_under reply.now JSON (room_at rooms.now name.now)) }
{
    write_inputs::<JSON>(output, reply, rooms, name)?;
    write_decisions::<JSON>(output, reply, rooms, name)
}

/// Writes that a block was refused for a fault of its own, and why.
#[tactic(auto, using(crate::proofs::Tracing::two_pieces))]
fn write_fault<const JSON: bool>(
    alloc: Global,
    output: &mut Text,
    line: u64,
    fault: SpecFault,
) -> Result<(), AllocError>
    ensures { OnOk result (output.new ≡ output.old ++ fault_written JSON line fault) }
{
    if JSON {
        return write_fault_object(alloc, output, line, fault);
    }
    write_refused(output, line, fault)?;
    write_indented(output, fault.sentence().as_bytes())
}

/// Writes that a block was refused because an allocation failed.
#[tactic(auto, using(crate::proofs::Tracing::two_pieces, crate::proofs::Tracing::out_of_memory_line))]
fn write_out_of_memory<const JSON: bool>(
    alloc: Global,
    output: &mut Text,
    line: u64,
) -> Result<(), AllocError>
    ensures { OnOk result (output.new ≡ output.old ++ out_of_memory_written JSON line) }
{
    if JSON {
        return write_out_of_memory_object(alloc, output, line);
    }
    let refusal = Refusal::OutOfMemory;
    write_refused_code(output, line, refusal.code())?;
    write_indented(output, refusal.sentence().as_bytes())
}
