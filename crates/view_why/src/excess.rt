//! Why a task doesn't allow a decision, in words.
ghost use Rattle.std.specs.Prelude.{◌≡◌, ◌++◌, OnOk};
ghost use Rattle.std.specs.List.{flat_map};
ghost use Rattle.view_why.specs.Reported.{given_inputs};
ghost use Rattle.view_why.specs.Words.{allowed_words, decision_words, excess_why, excess_words, no_owner_words};

use crate::reasons::write_of_process;
use crate::reported::Decision;
use io_text::Text;
use room_spec::Spec;
use std::alloc::AllocError;
use transcript::Event;

/// The task of a room, which allows `most` different values of these inputs: those that were given in the room.
#[derive(Clone, Copy)]
pub struct Task<'a> {
    pub spec: &'a Spec,
    pub inputs: &'a [u32],
    pub most: u8,
}

/// Writes why the task doesn't allow an event after these decisions.
pub fn write_excess_words(
    output: &mut Text,
    task: &Task<'_>,
    event: &Event,
    before: &[Decision],
) -> Result<(), AllocError>
    requires { task.now.inputs.now ≡ given_inputs task.now.spec.now }
    ensures { OnOk result (output.new ≡ output.old ++ excess_words task.now.spec.now task.now.most event.now before.now) }
{
    match event {
        Event::Decide { v, .. } => {
            write_of_process(output, b"decides", u64::from(*v), b"; ")?;
            write_excess_why(output, task, *v, before)
        }
        Event::Write { .. } => Ok(()),
        Event::Snap { .. } => Ok(()),
    }
}

fn write_excess_why(
    output: &mut Text,
    task: &Task<'_>,
    v: u32,
    before: &[Decision],
) -> Result<(), AllocError>
    requires { task.now.inputs.now ≡ given_inputs task.now.spec.now }
    ensures { OnOk result (output.new ≡ output.old ++ excess_why task.now.spec.now task.now.most v before.now) }
{
    if !task.inputs.contains(&v) {
        return write_no_owner(output, task.spec.is_reduction());
    }
    write_decisions(output, before)?;
    write_allowed(output, task.most)
}

/// Writes that no process has a value as its input, or in a reduction no simulator.
fn write_no_owner(output: &mut Text, is_reduction: bool) -> Result<(), AllocError>
    ensures { OnOk result (output.new ≡ output.old ++ no_owner_words is_reduction) }
{
    if is_reduction {
        output.put(b"no simulator has this input")
    } else {
        output.put(b"no process has this input")
    }
}

fn write_decisions(output: &mut Text, decisions: &[Decision]) -> Result<(), AllocError>
    ensures { OnOk result (output.new ≡ output.old ++ flat_map decision_words decisions.now) }
{
    for one in decisions {
        write_decision(output, *one)?;
    }
    Ok(())
}

fn write_decision(output: &mut Text, one: Decision) -> Result<(), AllocError>
    ensures { OnOk result (output.new ≡ output.old ++ decision_words one) }
{
    write_of_process(output, b"line", one.line, b"")?;
    write_of_process(output, b" decided", u64::from(one.value), b"; ")
}

/// Writes how many different values a task allows.
fn write_allowed(output: &mut Text, most: u8) -> Result<(), AllocError>
    ensures { OnOk result (output.new ≡ output.old ++ allowed_words most) }
{
    if most == 1 {
        output.put(b"the task allows 1 value")
    } else {
        write_of_process(output, b"the task allows", u64::from(most), b" values")
    }
}
