//! Whether runs keep a task of one's own, as text.
ghost use Rattle.std.specs.Prelude.{◌≡◌, ◌++◌, OnOk};
ghost use Rattle.view_outcomes.specs.KeptTexts.{decider_text, kept_text, refused_value_text, unsearched_text};

use crate::text::{write_all_runs, write_transcript, write_unfinished};
use decision_tasks::DecisionJudgement;
use io_text::Text;
use std::alloc::AllocError;

/// Writes that each run keeps the task, and how many nodes stand for the states of all runs; or which process breaks it, and in which run.
pub fn write_judged(
    output: &mut Text,
    name: &[u8],
    block: &[u8],
    judgement: &DecisionJudgement,
) -> Result<(), AllocError>
    ensures { OnOk result (output.new ≡ output.old ++ kept_text name.now block.now judgement.now) }
{
    match judgement {
        DecisionJudgement::Kept(nodes) => {
            output.put_two(name, b" decisions are allowed in every run\n")?;
            write_all_runs(output, *nodes)
        }
        DecisionJudgement::Broken(broken) => {
            write_decider(output, name, broken.process)?;
            write_refused_value(output, broken.value)?;
            write_transcript(output, name, block, broken.events.as_slice())
        }
    }
}

/// Writes that a process of the room has decided.
fn write_decider(output: &mut Text, name: &[u8], process: usize) -> Result<(), AllocError>
    ensures { OnOk result (output.new ≡ output.old ++ decider_text name.now process) }
{
    output.put_two(name, b" process")?;
    output.put_spaced_number(process as u64)?;
    output.put(b" decided")
}

/// Writes a value that no line of the task allows, before the run in which it is decided.
fn write_refused_value(output: &mut Text, value: u32) -> Result<(), AllocError>
    ensures { OnOk result (output.new ≡ output.old ++ refused_value_text value) }
{
    output.put_spaced_number(u64::from(value))?;
    output.put(b", which no line allows, in this run:\n")
}

/// Writes that a room has more nodes than this number, and what may help.
pub fn write_unsearched(output: &mut Text, name: &[u8], limit: u32) -> Result<(), AllocError>
    ensures { OnOk result (output.new ≡ output.old ++ unsearched_text name.now limit) }
{
    output.put_two(name, b" decisions: ")?;
    write_unfinished(output, limit)
}
