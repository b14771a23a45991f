//! The lines of replies.
ghost use Rattle.std.specs.Prelude.{◌≡◌, ◌++◌, OnOk, codes, decimal};
ghost use Rattle.service_core.specs.declared.reply.Reply.TheVariants.{Steps};
ghost use Rattle.service_core.specs.Replies.{refusal_code};
ghost use Rattle.script_play.specs.Play.{refusal_in};
ghost use Rattle.script_play.specs.ReplyTexts.{crash_word, reply_text, sim_in, step_word};

use io_text::Text;
use report_text::write_report;
use room_core::{CrashReply, StepReply};
use service_core::{Command, Refusal, Reply};
use std::alloc::AllocError;

/// Writes the lines of a reply to a command for the room of this name and for this simulator of it.
pub fn write_reply(output: &mut Text, name: &[u8], sim: u8, reply: &Reply) -> Result<(), AllocError>
    ensures { OnOk result (output.new ≡ output.old ++ reply_text name.now sim reply.now) }
{
    match reply {
        Reply::Begun => output.put_two(name, b" opened\n"),
        Reply::Steps { taken, last } => write_steps(output, name, sim, *taken, *last),
        Reply::Crash(reply) => write_crash(output, name, sim, *reply),
        Reply::Settled => output.put_two(name, b" settled\n"),
        Reply::Report(report) => write_report(output, name, report),
        Reply::Closed => output.put_two(name, b" closed\n"),
        Reply::Refused(refusal) => write_refusal(output, name, *refusal),
    }
}

/// Writes the line of a reply to a command for steps of this simulator.
pub fn write_steps(
    output: &mut Text,
    name: &[u8],
    sim: u8,
    taken: u16,
    last: StepReply,
) -> Result<(), AllocError>
    ensures { OnOk result (output.new ≡ output.old ++ reply_text name.now sim (Steps taken last)) }
{
    write_step_of(output, name, sim)?;
    output.put_spaced_number(u64::from(taken))?;
    match last {
        StepReply::Stepped => output.put(b" stepped\n"), // of a length that is known
        _ => output.put(step_end(last)),
    }
}

/// Writes the name, ` step` and the simulator: in two pieces if its number has one digit, as that of each simulator of a room has.
#[inline]
fn write_step_of(output: &mut Text, name: &[u8], sim: u8) -> Result<(), AllocError>
    ensures { OnOk result (output.new ≡ output.old ++ (name.now ++ (codes " step " ++ decimal sim))) }
{
    if sim < 10 {
        return output.put_two(name, &[b' ', b's', b't', b'e', b'p', b' ', b'0' + sim]);
    }
    output.put_two(name, b" step")?;
    output.put_spaced_number(u64::from(sim))
}

/// The end of the line on steps.
fn step_end(reply: StepReply) -> &'static [u8]
    ensures { result.now ≡ codes " " ++ (step_word reply ++ codes "\n") }
{
    match reply {
        StepReply::Stepped => b" stepped\n",
        StepReply::Idle => b" idle\n",
        StepReply::OutOfTurns => b" out of turns\n",
        StepReply::Crashed => b" crashed\n",
        StepReply::NoSimulator => b" nobody\n",
    }
}

fn write_crash(output: &mut Text, name: &[u8], sim: u8, reply: CrashReply) -> Result<(), AllocError>
    ensures { OnOk result (output.new ≡ output.old ++ (name.now ++ (codes " crash " ++ (decimal sim ++ (codes " " ++ (crash_word reply ++ codes "\n")))))) }
{
    output.put_two(name, b" crash")?;
    output.put_spaced_number(u64::from(sim))?;
    output.put(crash_end(reply))
}

/// The end of the line on a crash.
fn crash_end(reply: CrashReply) -> &'static [u8]
    ensures { result.now ≡ codes " " ++ (crash_word reply ++ codes "\n") }
{
    match reply {
        CrashReply::Crashed => b" crashed\n",
        CrashReply::AlreadyCrashed => b" already\n",
        CrashReply::NoSimulator => b" nobody\n",
    }
}

fn write_refusal(output: &mut Text, name: &[u8], refusal: Refusal) -> Result<(), AllocError>
    ensures { OnOk result (output.new ≡ output.old ++ (name.now ++ (codes " refused " ++ (decimal (refusal_code refusal) ++ codes "\n")))) }
{
    output.put_two(name, b" refused")?;
    output.put_spaced_number(u64::from(refusal.code()))?;
    output.put(b"\n")
}

/// The simulator that a command is for, or 0 if it is for none, as [`write_reply`] takes it.
pub fn sim_in(command: &Command) -> u8
    ensures { result ≡ sim_in command.now }
{
    match command {
        Command::Step { sim, .. } | Command::Crash { sim, .. } => *sim,
        _ => 0,
    }
}

/// Why a command was refused, if this reply says that it was.
pub fn refusal_in(reply: &Reply) -> Option<Refusal>
    ensures { result ≡ refusal_in reply.now }
{
    match reply {
        Reply::Refused(refusal) => Some(*refusal),
        _ => None,
    }
}
