//! The samples of the rooms of a file.
ghost use Rattle.std.specs.Prelude.{◌≡◌, ◌≤◌, ◌⊎◌, ◌++◌, ℕ, IfOk, List, Ok, OnErr, OnOk, length, map, option_map, take};
ghost use Rattle.std.specs.List.{All, sum_by};
ghost use Rattle.room_files.specs.BlockLists.{IsBlockAt};
ghost use Rattle.room_files.specs.Kinds.{block_of};
ghost use Rattle.room_files.specs.declared.kinds.Kinds.TheVariants as kinds;
ghost use Rattle.room_spec.specs.Rooms.{IsWithinLimits, RoomSpec};
ghost use Rattle.room_sample.specs.Groups.{grouped_if};
ghost use Rattle.room_sample.specs.Samples.{AreAmongAll, CameByFirst, IsSample};
ghost use Rattle.room_sample.specs.Shown.{IsShownIf, shown_of};
ghost use Rattle.view_sample.specs.Rooms.{AddsCut, AddsFirst, AddsSamples, IsChosen, IsListed, IsSampleText, ListsFewer, alone_shown, end_text, shown_text, shows_alone, shows_breaking};
ghost use Rattle.view_sample.specs.Tasks.{first_broken};

use crate::json::{write_alone_line, write_outcome_lines, write_room_line};
use crate::sampled::Sampled;
use crate::task::first_broken;
use crate::task_text::{has_held, write_task};
use crate::text::{shown_count, write_alone, write_sample};
use io_text::Text;
use room_files::{BlockList, Kinds, read_room};
use room_sample::{
    Example, PartialExamples, PartialSample, Plan, Showing, Tally, Workers, example_of,
    examples_of, sample,
};
use room_spec::Spec;
use run_search::Progress;
use std::alloc::{AllocError, Global};

/// How many times more a room is run at most to make its scripts short than to sample it.
const MORE_TRIES: u32 = 2000;

/// Samples each room by a plan, and writes what the plan asks for: its outcomes and whether they keep its task, or the script of one outcome.
/// Gives whether each room's task held, or whether each room has that outcome.
///
/// # Errors
///
/// If an allocation fails. The samples of the rooms before are written then, and what there is memory for of the next one.
pub(crate) fn write_samples<W: Workers, P: Progress>(
    workers: &W,
    alloc: Global,
    rooms: &BlockList,
    plan: &Plan,
    output: &mut Text,
    progress: &mut P,
) -> Result<bool, AllocError>
    requires { W.may_count }
    ensures samples { IfOk result (λ well. AddsSamples plan.now rooms.now.rooms well output.old output.new) }
    ensures cut { OnErr result (AddsFirst plan.now rooms.now.rooms output.old output.new) }
{
    let mut well = true;
    for index in 0..rooms.len() {
        let held = write_room(workers, alloc, rooms.block(index), plan, output, progress)?;
        well &= held;
    }
    Ok(well)
}

/// The groups of these outcomes if they are asked for, and else the outcomes.
fn grouped_if(alloc: Global, group: bool, outcomes: Tally) -> Result<Tally, AllocError>
    ensures { IfOk result (λ all. all ≡ grouped_if group outcomes) }
{
    if group {
        outcomes.grouped(alloc)
    } else {
        Ok(outcomes)
    }
}

/// How many times a room is run at most to make its scripts short.
fn tries_for(plan: &Plan) -> u32 {
    if plan.brief {
        0
    } else {
        plan.schedules.saturating_add(MORE_TRIES)
    }
}

/// Samples the room of a block, and writes its outcomes, or the groups of them, those first that came most often, and whether they keep its
/// task; or the script of one outcome. Gives whether the task held, or whether there is that outcome.
///
/// # Errors
///
/// If an allocation fails. What there is memory for is written: the sample of the schedules that were counted by then.
fn write_room<W: Workers, P: Progress>(
    workers: &W,
    alloc: Global,
    block: &[u8],
    plan: &Plan,
    output: &mut Text,
    progress: &mut P,
) -> Result<bool, AllocError>
    requires may { W.may_count }
    requires block { (spec : RoomSpec) × (block_of kinds.All block.now ≡ Ok (spec, length block.now)) }
    ensures whole { IfOk result (λ well. (spec : RoomSpec) → block_of kinds.All block.now ≡ Ok (spec, length block.now) →
        (text : List ℕ) × IsSampleText plan.now spec well text × (output.new ≡ output.old ++ text)) }
    ensures cut { OnErr result ((spec : RoomSpec) → block_of kinds.All block.now ≡ Ok (spec, length block.now) → AddsCut plan.now spec output.old output.new) }
{
    let Ok((spec, _)) = read_room(alloc, Kinds::All, block)? else {
        unreachable!() // it is a room's block
    };
    let _shape = spec.shape(); // for the proof: the room is within its limits
    let PartialSample {
        outcomes,
        schedules,
        ending,
    } = sample(workers, alloc, &spec, plan, progress);
    if schedules == 0 {
        ending?;
    }
    let counted = Plan { schedules, ..*plan };
    let room = Sampled {
        alloc,
        spec: &spec,
        block,
        plan: &counted,
    };
    let well = write_counted(&room, output, outcomes)?;
    ending?;
    Ok(well)
}

/// Writes what is said of these outcomes of a room.
fn write_counted(room: &Sampled<'_>, output: &mut Text, outcomes: Tally) -> Result<bool, AllocError>
    requires limits { IsWithinLimits room.now.spec.now }
    requires says { block_of kinds.All room.now.block.now ≡ Ok (room.now.spec.now, length room.now.block.now) }
    requires sample { IsSample room.now.spec.now room.now.plan.now outcomes }
    requires among { AreAmongAll room.now.spec.now outcomes }
    ensures whole { IfOk result (λ well. (text : List ℕ) × IsSampleText room.now.plan.now room.now.spec.now well text × (output.new ≡ output.old ++ text)) }
    ensures cut { OnErr result (AddsCut room.now.plan.now room.now.spec.now output.old output.new) }
{
    let outcomes = grouped_if(room.alloc, room.plan.group, outcomes)?;
    match room.plan.outcome {
        None => write_listed(room, output, outcomes),
        Some(number) => write_chosen(room, output, outcomes, number),
    }
}

/// Writes these outcomes of a room, those first that came most often, and whether they keep its task. If an allocation fails, as many of them
/// are written as there is memory for, or nothing.
fn write_listed(
    room: &Sampled<'_>,
    output: &mut Text,
    mut outcomes: Tally,
) -> Result<bool, AllocError>
    requires limits { IsWithinLimits room.now.spec.now }
    requires says { block_of kinds.All room.now.block.now ≡ Ok (room.now.spec.now, length room.now.block.now) }
    requires came { All (CameByFirst room.now.spec.now room.now.plan.now) outcomes }
    requires few { sum_by (λ one. one.times) outcomes ≤ room.now.plan.now.schedules }
    ensures whole { IfOk result (λ well. (text : List ℕ) × IsListed room.now.plan.now room.now.spec.now room.now.block.now outcomes well text × (output.new ≡ output.old ++ text)) }
    ensures cut { OnErr result (ListsFewer room.now.plan.now room.now.spec.now room.now.block.now outcomes output.old output.new) }
{
    let plan = room.plan;
    let held = has_held(room.spec, &outcomes);
    let broken = broken_example(room, &outcomes, shows_breaking(plan))?;
    let mut end = Text::new(room.alloc);
    write_end(room, &mut end, &outcomes, broken.as_ref())?;
    outcomes.sort_by_times(room.plan.from)?;
    let most = shown_count(plan.top, outcomes.len());
    let showing = Showing {
        spec: room.spec,
        plan: room.plan,
        scripts: !plan.brief,
    };
    let PartialExamples { examples, ending } = examples_of(
        room.alloc,
        &showing,
        &outcomes,
        most,
        tries_for(plan),
    );
    write_most(room, output, &outcomes, examples, &end)?;
    ending?;
    Ok(held)
}

/// The first outcome that breaks the room's task, with a script if one is shown.
pub(crate) fn broken_example(
    room: &Sampled<'_>,
    outcomes: &Tally,
    scripts: bool,
) -> Result<Option<Example>, AllocError>
    requires { All (CameByFirst room.now.spec.now room.now.plan.now) outcomes.now }
    ensures { IfOk result (λ broken. IsShownIf room.now.spec.now room.now.plan.now.crashes scripts (first_broken room.now.spec.now outcomes.now) (option_map shown_of broken)) }
{
    let showing = Showing {
        spec: room.spec,
        plan: room.plan,
        scripts,
    };
    let found = first_broken(room.spec, outcomes);
    example_of(room.alloc, &showing, found, tries_for(room.plan))
}

/// Whether a script that breaks the task is shown.
fn shows_breaking(plan: &Plan) -> bool
    ensures { result ≡ shows_breaking plan.now }
{
    !plan.brief && !plan.json
}

/// Whether the schedule of the only outcome is shown.
fn shows_alone(plan: &Plan) -> bool
    ensures { result ≡ shows_alone plan.now }
{
    !plan.brief || !plan.json
}

/// Writes these outcomes of a room, of which some are shown, and the text after them. If an allocation fails, it shows fewer: half as many each
/// time, and gives the memory of the others free.
fn write_most(
    room: &Sampled<'_>,
    output: &mut Text,
    outcomes: &Tally,
    mut shown: Vec<Example>,
    end: &Text,
) -> Result<(), AllocError>
    ensures text { OnOk result (output.new ≡ output.old ++ (shown_text room.now.plan.now.json room.now.plan.now room.now.spec.now.name room.now.block.now outcomes.now (map shown_of shown.items) ++ end.now)) }
    ensures cut { OnErr result ((output.new ≡ output.old) ⊎ ((most : ℕ) × (most ≤ length shown.items) ×
        (output.new ≡ output.old ++ (shown_text room.now.plan.now.json room.now.plan.now room.now.spec.now.name room.now.block.now outcomes.now (map shown_of (take most shown.items)) ++ end.now)))) }
{
    let written = write_whole(room, output, outcomes, shown.as_slice(), end);
    if written.is_ok() {
        return written;
    }
    while !shown.is_empty() {
        shown.truncate(shown.len() / 2);
        shown.shrink_to_fit();
        if write_whole(room, output, outcomes, shown.as_slice(), end).is_ok() {
            return Err(AllocError);
        }
    }
    written
}

/// Writes these outcomes of a room, of which some are shown, and the text after them. An `Err` leaves the output as it was.
fn write_whole(
    room: &Sampled<'_>,
    output: &mut Text,
    outcomes: &Tally,
    shown: &[Example],
    end: &Text,
) -> Result<(), AllocError>
    ensures text { OnOk result (output.new ≡ output.old ++ (shown_text room.now.plan.now.json room.now.plan.now room.now.spec.now.name room.now.block.now outcomes.now (map shown_of shown.now) ++ end.now)) }
    ensures err { OnErr result (output.new ≡ output.old) }
{
    let mut text = Text::new(room.alloc);
    write_shown(room, &mut text, outcomes, shown)?;
    text.put(end.as_bytes())?;
    output.put_long(text.as_bytes())
}

/// Writes these outcomes of a room, of which some are shown, as text or as JSON.
fn write_shown(
    room: &Sampled<'_>,
    output: &mut Text,
    outcomes: &Tally,
    shown: &[Example],
) -> Result<(), AllocError>
    ensures { OnOk result (output.new ≡ output.old ++ shown_text room.now.plan.now.json room.now.plan.now room.now.spec.now.name room.now.block.now outcomes.now (map shown_of shown.now)) }
{
    let plan = room.plan;
    if plan.json {
        let name = room.spec.name().as_str();
        return write_outcome_lines(room.alloc, output, name, plan.brief, shown);
    }
    write_sample(room, output, outcomes, shown)
}

/// Writes what is said of the room's task, or, as JSON, of the room as a whole.
fn write_end(
    room: &Sampled<'_>,
    output: &mut Text,
    outcomes: &Tally,
    broken: Option<&Example>,
) -> Result<(), AllocError>
    requires { sum_by (λ one. one.times) outcomes.now ≤ room.now.plan.now.schedules }
    ensures { OnOk result (output.new ≡ output.old ++ end_text room.now.plan.now.json room.now.plan.now room.now.spec.now room.now.block.now outcomes.now (option_map (λ one. shown_of one.now) broken.entry)) }
{
    if room.plan.json {
        return write_room_line(room.alloc, output, room.spec, room.plan, outcomes);
    }
    write_task(room, output, outcomes, broken)
}

/// Writes the script of the outcome of this number, from 1, among those of a room, those first that came most often; or, as JSON, that outcome.
/// Gives whether there is one. An `Err` leaves the output as it was.
fn write_chosen(
    room: &Sampled<'_>,
    output: &mut Text,
    mut outcomes: Tally,
    number: u32,
) -> Result<bool, AllocError>
    requires limits { IsWithinLimits room.now.spec.now }
    requires says { block_of kinds.All room.now.block.now ≡ Ok (room.now.spec.now, length room.now.block.now) }
    requires came { All (CameByFirst room.now.spec.now room.now.plan.now) outcomes }
    ensures whole { IfOk result (λ well. (text : List ℕ) × IsChosen number room.now.plan.now room.now.spec.now room.now.block.now outcomes well text × (output.new ≡ output.old ++ text)) }
    ensures err { OnErr result (output.new ≡ output.old) }
{
    outcomes.sort_by_times(room.plan.from)?;
    let scripts = shows_alone(room.plan);
    let showing = Showing {
        spec: room.spec,
        plan: room.plan,
        scripts,
    };
    let found = outcomes.get(number.saturating_sub(1) as usize);
    let is_there = found.is_some();
    let shown = example_of(room.alloc, &showing, found, tries_for(room.plan))?;
    let mut text = Text::new(room.alloc);
    write_one(room, &mut text, outcomes.len(), number, shown.as_ref())?;
    output.put_long(text.as_bytes())?;
    Ok(is_there)
}

/// Writes the script of the outcome of this number, or as JSON that outcome; or how many outcomes there are, if there is none.
fn write_one(
    room: &Sampled<'_>,
    output: &mut Text,
    count: usize,
    number: u32,
    shown: Option<&Example>,
) -> Result<(), AllocError>
    ensures { OnOk result (output.new ≡ output.old ++ alone_shown room.now.plan.now.json room.now.plan.now room.now.spec.now.name room.now.block.now count number (option_map (λ one. shown_of one.now) shown.entry)) }
{
    if room.plan.json {
        return write_alone_line(room, output, count, number, shown);
    }
    write_alone(room, output, count, number, shown)
}
