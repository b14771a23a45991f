//! What the simulators of a room have decided, under its reports.
ghost use Rattle.std.specs.Prelude.{◌≡◌, ◌∷◌, ◌++◌, OnOk, codes, decimal};
ghost use Rattle.service_core.specs.Rooms.{room_at};
ghost use Rattle.script_play.specs.Following.{decisions_at};
ghost use Rattle.view_trace.specs.Decisions.{decision_line, decision_lines, decisions_shown, decisions_under, simulator_words};

use io_text::Text;
use script_play::decisions_at;
use service_core::{Reply, Service};
use std::alloc::AllocError;

/// Writes under a report of the room of this name what each of its simulators has decided, in text.
pub(crate) fn write_decisions<const JSON: bool>(
    output: &mut Text,
    reply: &Reply,
    rooms: &Service,
    name: &[u8],
) -> Result<(), AllocError>
    ensures { OnOk result (output.new ≡ output.old ++ decisions_under reply.now JSON (decisions_at (room_at rooms.now name.now))) }
{
    match reply {
        Reply::Report(_) => show_decisions::<JSON>(output, decisions_at(rooms, name).as_slice()),
        Reply::Begun
        | Reply::Steps { .. }
        | Reply::Crash(_)
        | Reply::Settled
        | Reply::Closed
        | Reply::Refused(_) => Ok(()),
    }
}

fn show_decisions<const JSON: bool>(
    output: &mut Text,
    decisions: &[Option<u32>],
) -> Result<(), AllocError>
    ensures { OnOk result (output.new ≡ output.old ++ decisions_shown JSON decisions.now) }
{
    if JSON {
        return Ok(());
    }
    write_lines(output, decisions)
}

fn write_lines(output: &mut Text, decisions: &[Option<u32>]) -> Result<(), AllocError>
    ensures { OnOk result (output.new ≡ output.old ++ decision_lines decisions.now) }
{
    for simulator in 0..decisions.len() {
        write_line(output, simulator, decisions[simulator])?;
    }
    Ok(())
}

fn write_line(output: &mut Text, simulator: usize, decision: Option<u32>) -> Result<(), AllocError>
    ensures { OnOk result (output.new ≡ output.old ++ decision_line simulator decision) }
{
    match decision {
        None => write_simulator(output, simulator, b" has not decided\n"),
        Some(value) => {
            write_simulator(output, simulator, b" has decided")?;
            write_value(output, value)
        }
    }
}

/// Writes that this simulator did what these words say.
#[tactic(auto, unfolding(crate::specs::Decisions::simulator_words))]
fn write_simulator(output: &mut Text, simulator: usize, what: &[u8]) -> Result<(), AllocError>
    ensures { OnOk result (output.new ≡ output.old ++ simulator_words simulator what.now) }
{
    write_number(output, b"    simulator", simulator as u64, what)
}

/// Writes words, a number, and words.
pub(crate) fn write_number(
    output: &mut Text,
    words: &[u8],
    number: u64,
    after: &[u8],
) -> Result<(), AllocError>
    ensures { OnOk result (output.new ≡ output.old ++ (words.now ++ ((32 ∷ decimal number) ++ after.now))) }
{
    output.put(words)?;
    output.put_spaced_number(number)?;
    output.put(after)
}

pub(crate) fn write_value(output: &mut Text, value: u32) -> Result<(), AllocError>
    ensures { OnOk result (output.new ≡ output.old ++ ((32 ∷ decimal value) ++ codes "\n")) }
{
    output.put_spaced_number(u64::from(value))?;
    output.put(b"\n")
}
