//! From a script to its picture.
ghost use Rattle.std.specs.Prelude.{◌≡◌, ◌≤◌, IsOk, IfOk, IfErr, OnOk, length};
ghost use Rattle.io_text.specs.Reading.{most_bytes};
ghost use Rattle.room_files.specs.Blocks.{IsFaultOr};
ghost use Rattle.script_play.specs.Script.{script_says};
ghost use Rattle.view_draw.specs.Drawn.{AreFinished, IsDrawn, IsFinished, IsPictureFrom, IsPictureOf};

use crate::drawing::Drawing;
use crate::panels::Panels;
use indexmap::IndexMap;
use io_text::Text;
use room_core::RoomCore;
use room_files::{InputFault, Kinds};
use room_spec::Name;
use run_picture::{Style, write_picture};
use script_play::{PlayText, Played, play_script};
use service_core::Service;
use simulator_lanes::Panel;
use std::alloc::{AllocError, Global};
use ws_history::report;

/// Judges a script, does what it asks for if it has no fault, and draws in this style each room that it opens: its steps and crashes in
/// their order, and its final state when it is closed, or when the script ends.
///
/// # Errors
///
/// The script's first malformed line; or an allocation that failed for the picture.
pub fn draw(alloc: Global, style: Style, script: &[u8]) -> Result<PlayText, InputFault>
    requires { length script.now ≤ most_bytes }
    ensures drawn { IfOk result (λ drawn. IsDrawn style script.now drawn.ending drawn.output) }
    // An allocation that fails hides no malformed line.
    ensures err { IfErr result (IsFaultOr (IsOk (script_says script.now)) (script_says script.now)) }
{
    let Played {
        service,
        follower,
        ending,
    } = play_script(alloc, Kinds::All, Drawing::new(alloc), script)?;
    let output = picture_from(alloc, style, service, follower.panels)?;
    Ok(PlayText { output, ending })
}

/// The picture of what was drawn, if nothing more happens in the rooms that are open.
fn picture_from(
    alloc: Global,
    style: Style,
    service: Service,
    panels: Panels,
) -> Result<Text, AllocError>
    ensures { IfOk result (IsPictureFrom style service panels) }
{
    let rooms = service.into_rooms();
    let output = picture_of(alloc, style, &rooms, panels.into_vec())?;
    Ok(output)
}

/// The picture of these panels, if these rooms are still open.
fn picture_of(
    alloc: Global,
    style: Style,
    rooms: &IndexMap<Name, RoomCore>,
    panels: Vec<Panel>,
) -> Result<Text, AllocError>
    ensures { IfOk result (IsPictureOf style rooms.now.entries panels.items) }
{
    let mut panels = panels;
    finish_all(alloc, rooms, &mut panels)?;
    let mut output = Text::new(alloc);
    write_picture(alloc, &mut output, style, &panels)?;
    Ok(output)
}

/// Notes in each panel whose room is still open the room's final state.
fn finish_all(
    alloc: Global,
    rooms: &IndexMap<Name, RoomCore>,
    panels: &mut Vec<Panel>,
) -> Result<(), AllocError>
    ensures { OnOk result (AreFinished rooms.now.entries panels.old.items panels.new.items) }
{
    for place in 0..panels.len() {
        finish(alloc, rooms, &mut panels[place])?;
    }
    Ok(())
}

fn finish(
    alloc: Global,
    rooms: &IndexMap<Name, RoomCore>,
    panel: &mut Panel,
) -> Result<(), AllocError>
    ensures { OnOk result (IsFinished rooms.now.entries panel.old panel.new) }
{
    if !panel.is_open() {
        return Ok(());
    }
    let Some(room) = rooms.get(panel.head().spec.name()) else {
        return Ok(());
    };
    panel.finish(report(alloc, room)?);
    Ok(())
}
