//! What was done, as JSON.
ghost use Rattle.std.specs.Prelude.{◌≡◌, ◌∷◌, ◌++◌, [], IfOk, None, OnOk};
ghost use Rattle.serde_json.specs.View.{view};
ghost use Rattle.json_lines.specs.Lines.{json_line};
ghost use Rattle.json_lines.specs.Values.{numbers_data};
ghost use Rattle.protocol_lang.specs.Faults.{code_of as protocol_code};
ghost use Rattle.protocol_lang.specs.FirstFaults.{place_of};
ghost use Rattle.room_spec.specs.Faults.{code_of as block_code, sentence_of};
ghost use Rattle.script_play.specs.Following.{sim_for};
ghost use Rattle.script_play.specs.ReplyTexts.{crash_word, step_word};
ghost use Rattle.service_core.specs.Replies.{refusal_sentence};
ghost use Rattle.service_core.specs.Rooms.{room_at};
ghost use Rattle.service_core.specs.declared.reply.Refusal.TheVariants.{OutOfMemory};
ghost use Rattle.service_core.specs.declared.reply.Reply.TheVariants as replies;
ghost use Rattle.view_trace.specs.Json.{block_data, further_numbers, inputs_data, inputs_in_room, place_numbers, plain_data, reply_data, report_data};

use crate::inputs::known_inputs;
use io_text::Text;
use json_lines::{events_value, numbers_value, processes_value, row_value, text_value, write_line};
use protocol_lang::ParseFault;
use room_core::{CrashReply, RoomCore, StepReply};
use room_spec::SpecFault;
use script_play::{Asked, decisions_at};
use serde_json::{Value, json};
use service_core::{Refusal, Reply, Service};
use std::alloc::{AllocError, Global};
use ws_history::Report;

/// Writes a reply to a command, which left these rooms, as an object on a line of its own.
pub(crate) fn write_reply_object(
    alloc: Global,
    output: &mut Text,
    asked: &Asked<'_>,
    reply: &Reply,
    rooms: &Service,
) -> Result<(), AllocError>
    ensures { OnOk result (output.new ≡ output.old ++ json_line (reply_data (room_at rooms.now asked.now.name.now) asked.now.name.now (sim_for asked.now.order) reply.now)) }
{
    let value = reply_value(alloc, asked, reply, rooms)?;
    write_line(alloc, output, &value)
}

fn reply_value(
    alloc: Global,
    asked: &Asked<'_>,
    reply: &Reply,
    rooms: &Service,
) -> Result<Value, AllocError>
    ensures { IfOk result (λ value. view value ≡ reply_data (room_at rooms.now asked.now.name.now) asked.now.name.now (sim_for asked.now.order) reply.now) }
{
    let name = asked.name;
    let sim = asked.order.sim();
    match reply {
        Reply::Begun => plain_value(alloc, "opened", name),
        Reply::Steps { taken, last } => steps_value(alloc, name, sim, *taken, *last),
        Reply::Crash(reply) => crash_value(alloc, name, sim, *reply),
        Reply::Settled => plain_value(alloc, "settled", name),
        Reply::Report(report) => report_value(alloc, name, report, rooms),
        Reply::Closed => plain_value(alloc, "closed", name),
        Reply::Refused(refusal) => refusal_value(alloc, name, *refusal),
    }
}

/// A reply that has nothing but its word.
fn plain_value(alloc: Global, word: &str, name: &[u8]) -> Result<Value, AllocError>
    ensures { IfOk result (λ value. view value ≡ plain_data word.now name.now) }
{
    let room = text_value(alloc, name)?;
    json!(in alloc; {"reply": word, "room": room})
}

fn steps_value(
    alloc: Global,
    name: &[u8],
    sim: u8,
    taken: u16,
    last: StepReply,
) -> Result<Value, AllocError>
    ensures { IfOk result (λ value. view value ≡ reply_data None name.now sim (replies.Steps taken last)) }
{
    let room = text_value(alloc, name)?;
    let last = step_word(last);
    json!(in alloc; {
        "last": last,
        "reply": "step",
        "room": room,
        "simulator": sim,
        "steps": taken
    })
}

fn step_word(reply: StepReply) -> &'static str
    ensures { result.now ≡ step_word reply }
{
    match reply {
        StepReply::Stepped => "stepped",
        StepReply::Idle => "idle",
        StepReply::OutOfTurns => "out of turns",
        StepReply::Crashed => "crashed",
        StepReply::NoSimulator => "nobody",
    }
}

fn crash_value(alloc: Global, name: &[u8], sim: u8, reply: CrashReply) -> Result<Value, AllocError>
    ensures { IfOk result (λ value. view value ≡ reply_data None name.now sim (replies.Crash reply)) }
{
    let room = text_value(alloc, name)?;
    let last = crash_word(reply);
    json!(in alloc; {"last": last, "reply": "crash", "room": room, "simulator": sim})
}

fn crash_word(reply: CrashReply) -> &'static str
    ensures { result.now ≡ crash_word reply }
{
    match reply {
        CrashReply::Crashed => "crashed",
        CrashReply::AlreadyCrashed => "already",
        CrashReply::NoSimulator => "nobody",
    }
}

fn report_value(
    alloc: Global,
    name: &[u8],
    report: &Report,
    rooms: &Service,
) -> Result<Value, AllocError>
    ensures { IfOk result (λ value. view value ≡ report_data (room_at rooms.now name.now) name.now report.now) }
{
    let room = text_value(alloc, name)?;
    let crashed = numbers_value(alloc, report.crashed.as_slice())?;
    let decisions = row_value(alloc, decisions_at(rooms, name).as_slice())?;
    let history = events_value(alloc, report.history.events())?;
    let inputs = inputs_value(alloc, rooms, name)?;
    let processes = processes_value(alloc, report.states.as_slice())?;
    json!(in alloc; {
        "crashed": crashed,
        "decisions": decisions,
        "history": history,
        "inputs": inputs,
        "processes": processes,
        "reply": "report",
        "room": room
    })
}

/// Which inputs the processes of the room of this name have, if it is a reduction; otherwise `null`.
fn inputs_value(alloc: Global, rooms: &Service, name: &[u8]) -> Result<Value, AllocError>
    ensures { IfOk result (λ value. view value ≡ inputs_data (room_at rooms.now name.now)) }
{
    match rooms.room(name) {
        None => Ok(Value::Null),
        Some(room) => inputs_in_room(alloc, room),
    }
}

fn inputs_in_room(alloc: Global, room: &RoomCore) -> Result<Value, AllocError>
    ensures { IfOk result (λ value. view value ≡ inputs_in_room room.now) }
{
    if room.spec().is_reduction() {
        row_value(alloc, known_inputs(room).as_slice())
    } else {
        Ok(Value::Null)
    }
}

fn refusal_value(alloc: Global, name: &[u8], refusal: Refusal) -> Result<Value, AllocError>
    ensures { IfOk result (λ value. view value ≡ reply_data None name.now 0 (replies.Refused refusal)) }
{
    let room = text_value(alloc, name)?;
    let (code, words) = (refusal.code(), refusal.sentence());
    json!(in alloc; {"fault": [code], "reply": "refused", "room": room, "words": words})
}

/// Writes that the block with this first line was refused for a fault.
pub(crate) fn write_fault_object(
    alloc: Global,
    output: &mut Text,
    line: u64,
    fault: SpecFault,
) -> Result<(), AllocError>
    ensures { OnOk result (output.new ≡ output.old ++ json_line (block_data line (block_code fault ∷ further_numbers fault) (sentence_of fault))) }
{
    let value = fault_value(alloc, line, fault)?;
    write_line(alloc, output, &value)
}

fn fault_value(alloc: Global, line: u64, fault: SpecFault) -> Result<Value, AllocError>
    ensures { IfOk result (λ value. view value ≡ block_data line (block_code fault ∷ further_numbers fault) (sentence_of fault)) }
{
    let numbers = fault_numbers(alloc, fault)?;
    let words = fault.sentence();
    json!(in alloc; {"fault": numbers, "line": line, "reply": "refused", "words": words})
}

/// Writes that the block with this first line was not read, since an allocation failed.
pub(crate) fn write_out_of_memory_object(
    alloc: Global,
    output: &mut Text,
    line: u64,
) -> Result<(), AllocError>
    ensures { OnOk result (output.new ≡ output.old ++ json_line (block_data line (8 ∷ []) (refusal_sentence OutOfMemory))) }
{
    let value = out_of_memory_value(alloc, line)?;
    write_line(alloc, output, &value)
}

fn out_of_memory_value(alloc: Global, line: u64) -> Result<Value, AllocError>
    ensures { IfOk result (λ value. view value ≡ block_data line (8 ∷ []) (refusal_sentence OutOfMemory)) }
{
    let words = Refusal::OutOfMemory.sentence();
    json!(in alloc; {"fault": [8], "line": line, "reply": "refused", "words": words})
}

/// The fault's code and the numbers after it.
fn fault_numbers(alloc: Global, fault: SpecFault) -> Result<Value, AllocError>
    ensures { IfOk result (λ value. view value ≡ numbers_data (block_code fault ∷ further_numbers fault)) }
{
    let code = fault.code();
    match fault {
        SpecFault::BadLine(line)
        | SpecFault::CrashLine(line)
        | SpecFault::Repeated(line)
        | SpecFault::TaskLine(line) => json!(in alloc; [code, line]),
        SpecFault::BadProtocol(fault) => protocol_numbers(alloc, code, fault),
        SpecFault::Truncated
        | SpecFault::BadName
        | SpecFault::Inputs
        | SpecFault::Simulators
        | SpecFault::Rounds
        | SpecFault::Turns
        | SpecFault::TooWide
        | SpecFault::Processes => json!(in alloc; [code]),
    }
}

/// This code, and what is wrong with a protocol.
fn protocol_numbers(alloc: Global, code: u16, fault: ParseFault) -> Result<Value, AllocError>
    ensures { IfOk result (λ value. view value ≡ numbers_data (code ∷ protocol_code fault ∷ place_numbers (place_of fault))) }
{
    let kind = fault.code();
    match fault.place() {
        Some(place) => json!(in alloc; [code, kind, place]),
        None => json!(in alloc; [code, kind]),
    }
}
