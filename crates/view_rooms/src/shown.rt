//! What is written of a room, as text or as JSON.
ghost use Rattle.std.specs.Prelude.{◌≡◌, ◌++◌, OnOk};
ghost use Rattle.view_rooms.specs.Shown.{common_shown, found_shown, head_shown, outcomes_shown, unfinished_shown};
ghost use Rattle.view_rooms.specs.Texts.{common_text};

use crate::json::{write_found_line, write_outcome_lines, write_unfinished_line};
use crate::plan::SearchedRoom;
use crate::text::{write_common, write_head, write_outcomes, write_unfinished};
use io_text::Text;
use room_search::{Reach, Reached};
use std::alloc::AllocError;

/// Writes what a room's outcomes begin with: in text, how many simulators crash at most.
pub(crate) fn show_head(
    room: &SearchedRoom<'_>,
    output: &mut Text,
    crashes: u32,
) -> Result<(), AllocError>
    ensures { OnOk result (output.new ≡ output.old ++ head_shown room.now.plan.now.json room.now.spec.now.name crashes) }
{
    if room.plan.json {
        return Ok(());
    }
    write_head(output, room.spec.name().as_str().as_bytes(), crashes)
}

/// Writes all outcomes of the room, and what all have in common.
pub(crate) fn show_found(
    room: &SearchedRoom<'_>,
    output: &mut Text,
    crashes: u32,
    reach: &Reach,
) -> Result<(), AllocError>
    ensures { OnOk result (output.new ≡ output.old ++ found_shown room.now.plan.now room.now.spec.now room.now.block.now crashes reach.now) }
{
    show_outcomes(room, output, reach.outcomes.as_slice())?;
    show_common(room, output, crashes, reach)
}

fn show_outcomes(
    room: &SearchedRoom<'_>,
    output: &mut Text,
    all: &[Reached],
) -> Result<(), AllocError>
    ensures { OnOk result (output.new ≡ output.old ++ outcomes_shown room.now.plan.now.json room.now.plan.now.brief room.now.spec.now.name room.now.block.now all.now) }
{
    let (name, brief) = (room.spec.name().as_str(), room.plan.brief);
    if room.plan.json {
        return write_outcome_lines(room.alloc, output, name, brief, all);
    }
    write_outcomes(output, brief, name.as_bytes(), room.block, all)
}

fn show_common(
    room: &SearchedRoom<'_>,
    output: &mut Text,
    crashes: u32,
    reach: &Reach,
) -> Result<(), AllocError>
    ensures { OnOk result (output.new ≡ output.old ++ common_shown room.now.plan.now.json room.now.spec.now crashes room.now.plan.now.nodes reach.now) }
{
    if room.plan.json {
        return write_found_line(room, output, crashes, reach);
    }
    show_common_text(room, output, reach)
}

fn show_common_text(
    room: &SearchedRoom<'_>,
    output: &mut Text,
    reach: &Reach,
) -> Result<(), AllocError>
    ensures { OnOk result (output.new ≡ output.old ++ common_text room.now.spec.now.name reach.now) }
{
    write_common(output, room.spec.name().as_str().as_bytes(), reach)
}

/// Writes that the room has more nodes than are searched at most.
pub(crate) fn show_unfinished(
    room: &SearchedRoom<'_>,
    output: &mut Text,
    crashes: u32,
) -> Result<(), AllocError>
    ensures { OnOk result (output.new ≡ output.old ++ unfinished_shown room.now.plan.now.json room.now.spec.now crashes room.now.plan.now.nodes) }
{
    if room.plan.json {
        return write_unfinished_line(room, output, crashes);
    }
    write_unfinished(output, room.plan.nodes)
}
