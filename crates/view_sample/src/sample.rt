//! Outcomes of the rooms of a file.
ghost use Rattle.std.specs.Prelude.{◌≡◌, ◌≤◌, ◌++◌, ◌&&◌, Err, IfErr, IfOk, Ok, OnOk, length};
ghost use Rattle.io_text.specs.Reading.{most_bytes};
ghost use Rattle.room_files.specs.Verdicts.{outcome_if};
ghost use Rattle.view_sample.specs.Sample.{IsSampleFor, head_of, is_for_people, last_of};

use crate::rooms::write_samples;
use io_text::Text;
use room_files::{BlockList, Kinds, Outcome, Setup, outcome_if, read_all_blocks};
use room_sample::{Plan, Workers};
use run_search::Progress;
use script_play::PlayText;
use std::alloc::{AllocError, Global};

const LAST: &[u8] =
    b"\nthis is a sample of simulations: other outcomes may come, and with fewer simulators than processes a protocol has runs to which no schedule leads\n";

/// Runs each room of a file by random schedules, and gives the lines of the refused blocks and, for each room, its outcomes. Or, if the
/// plan asks for it, these outcomes as JSON, or the script of one outcome in each room. If an allocation fails for a room, its sample is that
/// of the schedules that were counted by then, with as many of their outcomes as there is memory for; it is the last, and the ending says so.
///
/// # Errors
///
/// An allocation that failed for anything else.
pub fn sample_blocks<W: Workers, P: Progress>(
    workers: &W,
    alloc: Global,
    input: &[u8],
    plan: &Plan,
    progress: &mut P,
) -> Result<PlayText, AllocError>
    requires may { W.may_count }
    requires fits { length input.now ≤ most_bytes }
    ensures { IfOk result (λ reported. IsSampleFor plan.now input.now reported.ending reported.output) }
{
    let no_blocks = Setup::new(BlockList::new(alloc), Text::new(alloc));
    let Setup { rooms, refused, .. } = read_all_blocks(alloc, Kinds::All, no_blocks, input)?;
    let is_accepted = refused.is_empty();
    let mut output = head_of(alloc, plan, refused);
    let samples = write_samples(workers, alloc, &rooms, plan, &mut output, progress);
    write_last(&mut output, plan)?;
    let ending = ending_of(is_accepted, samples);
    Ok(PlayText { output, ending })
}

/// How it ends: the outcome, unless an allocation failed for a sample.
fn ending_of(is_accepted: bool, samples: Result<bool, AllocError>) -> Result<Outcome, AllocError>
    ensures ok { IfOk samples (λ is_well. result ≡ Ok (outcome_if (is_accepted && is_well))) }
    ensures err { IfErr samples (λ refused. result ≡ Err refused) }
{
    Ok(outcome_if(is_accepted & samples?))
}

/// Whether text for people is written, and not only scripts or JSON.
fn is_for_people(plan: &Plan) -> bool
    ensures { result ≡ is_for_people plan.now }
{
    plan.outcome.is_none() && !plan.json
}

/// What comes before the samples: the lines of the refused blocks, in text for people.
pub(crate) fn head_of(alloc: Global, plan: &Plan, refused: Text) -> Text
    ensures { result ≡ head_of (is_for_people plan.now) refused }
{
    if is_for_people(plan) {
        refused
    } else {
        Text::new(alloc)
    }
}

/// Writes what comes after the samples, in text for people: that they are samples.
pub(crate) fn write_last(output: &mut Text, plan: &Plan) -> Result<(), AllocError>
    ensures { OnOk result (output.new ≡ output.old ++ last_of (is_for_people plan.now)) }
{
    write_closing(output, is_for_people(plan))
}

/// Writes, in text for people, that these are samples.
///
/// # Errors
///
/// An allocation that fails.
pub fn write_closing(output: &mut Text, people: bool) -> Result<(), AllocError>
    ensures { OnOk result (output.new ≡ output.old ++ last_of people) }
{
    if people { output.put(LAST) } else { Ok(()) }
}
