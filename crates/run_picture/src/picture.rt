//! The whole picture.
ghost use Rattle.std.specs.Prelude.{◌≡◌, ◌++◌, ◌∷◌, [], IfOk, OnOk, length};
ghost use Rattle.picture_shapes.specs.Shapes.{part_text};
ghost use Rattle.picture_shapes.specs.Svg.{parts_text, svg_of};
ghost use Rattle.run_columns.specs.Columns.{columns_as};
ghost use Rattle.run_picture.specs.Heads.{head_height, head_shapes};
ghost use Rattle.run_picture.specs.History.{events_right};
ghost use Rattle.run_picture.specs.Legends.{legend_shapes};
ghost use Rattle.run_picture.specs.Picture.{all_parts, bottom_from, grid_of, height_with, lanes_shapes, left_out_words, note_words, panel_height, panel_parts, panel_width, parts_from, parts_with, picture_of, room_shapes, scale_words, size_of, size_to, steps_heading, steps_shapes, steps_title, width_from, width_with, wrap_of};

use crate::head::{add_head, head_width};
use crate::history::{Chart, add_all_events, add_process_lanes};
use crate::legend::add_legend;
use io_text::Text;
use picture_shapes::{Colour, Point, Sheet, Size, write_part, write_svg};
use run_columns::{Columns, Scale};
use simulator_lanes::{
    Grid, HEADING, Head, MARGIN, Panel, WORDS, add_insides, add_lanes, add_proposals, add_squares,
    add_ticks, add_turns, write_counted,
};
use std::alloc::{AllocError, Global};

/// How rooms are drawn.
#[derive(Clone, Copy)]
pub struct Style {
    /// How large the picture is: at 100 it is 1264 pixels wide, unless events or inputs are long.
    pub percent: u32,
    /// Whether a column shows a stretch of a turn, also if there is space for each step.
    pub by_turns: bool,
}

/// The title of a picture.
pub(crate) const TITLE: &[u8] = b"Simulated rooms, step by step";

/// The least width of a picture.
pub(crate) const MIN_WIDTH: u64 = 632;

/// Draws these rooms, one below the other, as a whole SVG file: the picture opens in any browser, and needs no script, font or other file.
/// Of a room it shows at most 400 columns of steps, and the events that take effect in them; how many columns are left out is said in the picture.
///
/// # Errors
///
/// An allocation that fails.
pub fn write_picture(
    alloc: Global,
    output: &mut Text,
    style: Style,
    panels: &[Panel],
) -> Result<(), AllocError>
    ensures { OnOk result (output.new ≡ output.old ++ svg_of (picture_of style panels.now)) }
{
    let mut parts = Text::new(alloc);
    let size = write_parts(alloc, &mut parts, style, panels)?;
    write_svg(output, size, TITLE, parts.as_bytes())
}

/// Draws each room below the one before, and what there is to explain below all of them.
fn write_parts(
    alloc: Global,
    output: &mut Text,
    style: Style,
    panels: &[Panel],
) -> Result<Size, AllocError>
    requires start { length output.old ≡ 0 }
    ensures text { IfOk result (λ size. output.new ≡ parts_text (all_parts style panels.now)) }
    ensures size { IfOk result (λ size. size ≡ size_of style panels.now) }
{
    let (width, bottom) = write_panels(alloc, output, style, panels)?;
    write_legend(alloc, output, bottom, style, panels)?;
    Ok(size_to(style, width, bottom))
}

/// Draws each room below the one before. Gives how wide the rooms are, and where the last one ends.
fn write_panels(
    alloc: Global,
    output: &mut Text,
    style: Style,
    panels: &[Panel],
) -> Result<(u64, u64), AllocError>
    requires start { length output.old ≡ 0 }
    ensures text { OnOk result (output.new ≡ parts_text (parts_from style 0 panels.now)) }
    ensures width { IfOk result (λ ends. ends.0 ≡ width_from style MIN_WIDTH panels.now) }
    ensures bottom { IfOk result (λ ends. ends.1 ≡ bottom_from style 0 panels.now) }
{
    let (mut width, mut bottom) = (MIN_WIDTH, 0);
    for panel in panels {
        let extent = write_panel(alloc, output, bottom, style, panel)?;
        width = width.max(extent.x);
        bottom = bottom.saturating_add(extent.y);
    }
    Ok((width, bottom))
}

/// The size of a picture whose rooms end here.
fn size_to(style: Style, width: u64, bottom: u64) -> Size
    ensures { result ≡ size_to style width bottom }
{
    Size {
        width,
        height: bottom.saturating_add(112),
        percent: style.percent,
    }
}

fn write_legend(
    alloc: Global,
    output: &mut Text,
    top: u64,
    style: Style,
    panels: &[Panel],
) -> Result<(), AllocError>
    ensures { OnOk result (output.new ≡ output.old ++ part_text top (legend_shapes style panels.now)) }
{
    let mut sheet = Sheet::new(alloc);
    add_legend(&mut sheet, style, panels)?;
    write_part(output, top, sheet.shapes())
}

/// Draws a room from this far down on. Gives how wide and how high its picture is.
fn write_panel(
    alloc: Global,
    output: &mut Text,
    top: u64,
    style: Style,
    panel: &Panel,
) -> Result<Point, AllocError>
    ensures text { OnOk result (output.new ≡ output.old ++ parts_text (panel_parts style top panel.now)) }
    ensures extent { IfOk result (λ extent. (extent.x ≡ panel_width style panel.now) × (extent.y ≡ panel_height style panel.now)) }
{
    let columns = Columns::of(alloc, style.by_turns, panel.marks())?;
    let height = write_head(alloc, output, top, panel.head())?;
    let right = write_room(alloc, output, top.saturating_add(height), panel, &columns)?;
    Ok(Point {
        x: room_width(alloc, panel, &columns, right)?,
        y: height.saturating_add(room_height(panel, &columns)),
    })
}

/// Writes what is above the lanes of a room. Gives how high it is.
fn write_head(alloc: Global, output: &mut Text, top: u64, head: &Head) -> Result<u64, AllocError>
    ensures text { OnOk result (output.new ≡ output.old ++ part_text top (head_shapes head.now)) }
    ensures height { IfOk result (λ height. height ≡ head_height head.now) }
{
    let mut sheet = Sheet::new(alloc);
    let height = add_head(&mut sheet, head)?;
    write_part(output, top, sheet.shapes())?;
    Ok(height)
}

/// Draws the lanes of a room with these columns. Gives how far right its columns and events reach.
fn write_room(
    alloc: Global,
    output: &mut Text,
    top: u64,
    panel: &Panel,
    columns: &Columns,
) -> Result<u64, AllocError>
    ensures text { OnOk result (output.new ≡ output.old ++ part_text top (room_shapes panel.now columns.now)) }
    ensures right { IfOk result (λ right. right ≡ events_right panel.now columns.now.columns (grid_of panel.now columns.now)) }
{
    let mut sheet = Sheet::new(alloc);
    add_steps_heading(&mut sheet, columns)?;
    let right = add_room(&mut sheet, grid_of(panel, columns), panel, columns)?;
    write_part(output, top, sheet.shapes())?;
    Ok(right)
}

#[tactic(auto, unfolding(crate::specs::Picture::lanes_shapes))]
fn add_room(
    sheet: &mut Sheet,
    grid: Grid,
    panel: &Panel,
    columns: &Columns,
) -> Result<u64, AllocError>
    ensures shapes { OnOk result (sheet.new ≡ sheet.old ++ lanes_shapes grid panel.now columns.now) }
    ensures right { IfOk result (λ right. right ≡ events_right panel.now columns.now.columns grid) }
{
    let mut boxes = Sheet::new(sheet.alloc());
    let chart = Chart {
        panel,
        columns: columns.columns(),
        grid,
    };
    add_steps(sheet, grid, panel, columns)?;
    let right = add_all_events(sheet, &mut boxes, &chart)?;
    add_proposals(sheet, grid, panel, columns.columns())?;
    add_process_lanes(sheet, &chart, right)?;
    sheet.append(boxes)?;
    Ok(right)
}

#[tactic(auto, unfolding(crate::specs::Picture::grid_of))]
fn grid_of(panel: &Panel, columns: &Columns) -> Grid
    ensures { result ≡ grid_of panel.now columns.now }
{
    Grid {
        scale: columns.scale(),
        wrap: wrap_of(columns.scale()),
        count: columns.columns().len() as u16,
        simulators: panel.simulators(),
        processes: panel.states().len() as u8,
    }
}

/// How many columns a row has.
fn wrap_of(scale: Scale) -> u16
    ensures { result ≡ wrap_of scale }
{
    match scale {
        Scale::Steps => 28,
        Scale::Turns | Scale::Simulators => 11,
    }
}

#[tactic(auto, unfolding(crate::specs::Picture::steps_heading))]
fn add_steps_heading(sheet: &mut Sheet, columns: &Columns) -> Result<(), AllocError>
    ensures { OnOk result (sheet.new ≡ sheet.old ++ steps_heading columns.now) }
{
    add_steps_title(sheet)?;
    let note = note_words(sheet.alloc(), columns)?;
    let after = Point { x: 100, y: 18 };
    sheet.label(after, WORDS, Colour::Faint, note.as_bytes())
}

#[tactic(auto, unfolding(crate::specs::Picture::steps_title))]
fn add_steps_title(sheet: &mut Sheet) -> Result<(), AllocError>
    ensures { OnOk result (sheet.new ≡ sheet.old ++ steps_title) }
{
    let start = Point { x: MARGIN, y: 18 };
    sheet.label(start, HEADING, Colour::Ink, b"Step by step")
}

/// What a box is, and how many are left out.
#[tactic(auto, unfolding(crate::specs::Picture::note_words))]
fn note_words(alloc: Global, columns: &Columns) -> Result<Text, AllocError>
    ensures { IfOk result (λ words. words ≡ note_words columns.now) }
{
    let mut words = Text::new(alloc);
    words.put(scale_words(columns.scale()))?;
    write_left_out(&mut words, columns.left_out())?;
    Ok(words)
}

#[tactic(auto, unfolding(crate::specs::Picture::scale_words))]
fn scale_words(scale: Scale) -> &'static [u8]
    ensures { result.now ≡ scale_words scale }
{
    match scale {
        Scale::Steps => b"",
        Scale::Turns => b"each box is a stretch of one turn, with the number of its steps",
        Scale::Simulators => {
            b"each box is a stretch of one simulator, with the number of its steps"
        }
    }
}

#[tactic(auto, unfolding(crate::specs::Picture::left_out_words))]
fn write_left_out(output: &mut Text, count: usize) -> Result<(), AllocError>
    ensures { OnOk result (output.new ≡ output.old ++ left_out_words count) }
{
    if count == 0 {
        return Ok(());
    }
    output.put(b"; after these come ")?;
    write_counted(output, count as u64, b" more box", b" more boxes")
}

#[tactic(auto, unfolding(crate::specs::Picture::steps_shapes))]
fn add_steps(
    sheet: &mut Sheet,
    grid: Grid,
    panel: &Panel,
    columns: &Columns,
) -> Result<(), AllocError>
    ensures { OnOk result (sheet.new ≡ sheet.old ++ steps_shapes grid panel.now columns.now) }
{
    add_ticks(sheet, grid, columns.columns())?;
    add_lanes(sheet, grid)?;
    add_insides(sheet, grid, columns.columns())?;
    add_turns(sheet, grid, columns.columns())?;
    add_squares(sheet, grid, &panel.head().spec, columns.columns())
}

/// How high the lanes of a room are.
#[tactic(auto, unfolding(crate::specs::Picture::height_with))]
fn room_height(panel: &Panel, columns: &Columns) -> u64
    ensures { result ≡ height_with panel.now columns.now }
{
    let grid = grid_of(panel, columns);
    grid.row_y(grid.rows())
}

/// How wide the picture of a room is whose columns and events reach this far right.
#[tactic(auto, unfolding(crate::specs::Picture::width_with))]
fn room_width(
    alloc: Global,
    panel: &Panel,
    columns: &Columns,
    right: u64,
) -> Result<u64, AllocError>
    requires { right ≡ events_right panel.now columns.now.columns (grid_of panel.now columns.now) }
    ensures { IfOk result (λ width. width ≡ width_with panel.now columns.now) }
{
    let head = head_width(alloc, panel.head())?;
    let columns_end = grid_of(panel, columns).right().saturating_add(64);
    Ok(head.max(columns_end).max(right.saturating_add(16)))
}
