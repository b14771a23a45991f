//! What a sample says of the room's task, as text.
ghost use Rattle.std.specs.Prelude.{◌≡◌, ◌≤◌, ◌++◌, OnOk, option_map};
ghost use Rattle.std.specs.List.{sum_by};
ghost use Rattle.room_sample.specs.Shown.{shown_of};
ghost use Rattle.view_sample.specs.Tasks.{times_broken};
ghost use Rattle.view_sample.specs.TaskTexts.{broken_line, broken_text, has_held, held_line, of_words, task_text, times_words, verdict_text};

use crate::sampled::Sampled;
use crate::task::{first_broken, times_broken};
use crate::text::{write_number_line, write_number_words, write_script_unless};
use io_text::Text;
use room_sample::{Example, Plan, Stretch, Tally};
use room_spec::Spec;
use std::alloc::AllocError;

/// Writes in how many schedules a room's task was broken, with a script for `play` that breaks it; or that it held. Nothing is written of a room
/// without a task.
pub(crate) fn write_task(
    room: &Sampled<'_>,
    output: &mut Text,
    outcomes: &Tally,
    broken: Option<&Example>,
) -> Result<(), AllocError>
    requires { sum_by (λ one. one.times) outcomes.now ≤ room.now.plan.now.schedules }
    ensures { OnOk result (output.new ≡ output.old ++ task_text room.now.spec.now room.now.block.now room.now.plan.now outcomes.now (option_map (λ one. shown_of one.now) broken.entry)) }
{
    if room.spec.task().is_none() {
        return Ok(());
    }
    let name = room.spec.name().as_str().as_bytes();
    write_verdict(room, output, name, outcomes, broken)
}

/// Writes the same of a room with a task, in a line that begins with these words.
pub(crate) fn write_verdict(
    room: &Sampled<'_>,
    output: &mut Text,
    words: &[u8],
    outcomes: &Tally,
    broken: Option<&Example>,
) -> Result<(), AllocError>
    requires { sum_by (λ one. one.times) outcomes.now ≤ room.now.plan.now.schedules }
    ensures { OnOk result (output.new ≡ output.old ++ verdict_text words.now room.now.spec.now.name room.now.block.now room.now.plan.now (times_broken room.now.spec.now outcomes.now) (option_map (λ one. shown_of one.now) broken.entry)) }
{
    match broken {
        None => write_held(output, words, room.plan),
        Some(one) => {
            let times = times_broken(room.spec, outcomes, room.plan.schedules);
            write_broken(room, output, words, times, one.schedule.as_slice())
        }
    }
}

/// Whether no outcome breaks the room's task.
pub(crate) fn has_held(spec: &Spec, outcomes: &Tally) -> bool
    ensures { result ≡ has_held spec.now outcomes.now }
{
    spec.task().is_none() || first_broken(spec, outcomes).is_none()
}

/// Writes that a room's task held in all schedules of a plan.
///
/// # Errors
///
/// An allocation that fails.
pub fn write_held(output: &mut Text, name: &[u8], plan: &Plan) -> Result<(), AllocError>
    ensures { OnOk result (output.new ≡ output.old ++ held_line name.now plan.now) }
{
    let schedules = u64::from(plan.schedules);
    let things = b" schedules (a sample, no proof)\n";
    write_number_line(output, name, b" task held in all", schedules, things)
}

fn write_broken(
    room: &Sampled<'_>,
    output: &mut Text,
    words: &[u8],
    times: u32,
    schedule: &[Stretch],
) -> Result<(), AllocError>
    ensures { OnOk result (output.new ≡ output.old ++ broken_text words.now room.now.spec.now.name room.now.block.now room.now.plan.now times schedule.now) }
{
    let (name, plan) = (room.spec.name().as_str().as_bytes(), room.plan);
    write_broken_line(output, words, plan, times)?;
    write_script_unless(output, plan.brief, name, room.block, schedule)
}

/// Writes in how many schedules of a plan a room's task was broken.
///
/// # Errors
///
/// An allocation that fails.
pub fn write_broken_line(
    output: &mut Text,
    name: &[u8],
    plan: &Plan,
    times: u32,
) -> Result<(), AllocError>
    ensures { OnOk result (output.new ≡ output.old ++ broken_line name.now plan.now times) }
{
    write_times_words(output, name, times)?;
    write_of_words(output, plan.schedules)
}

fn write_times_words(output: &mut Text, name: &[u8], times: u32) -> Result<(), AllocError>
    ensures { OnOk result (output.new ≡ output.old ++ times_words name.now times) }
{
    let broken = u64::from(times);
    write_number_line(output, name, b" task broken in", broken, b" of")
}

fn write_of_words(output: &mut Text, schedules: u32) -> Result<(), AllocError>
    ensures { OnOk result (output.new ≡ output.old ++ of_words schedules) }
{
    write_number_words(output, u64::from(schedules), b" schedules\n")
}
