//! The lanes of the simulators: the numbers of steps, and who is inside an agreement.
ghost use Rattle.std.specs.Prelude.{◌≡◌, ◌++◌, ◌+◌, ◌*◌, ◌≤◌, IfOk, OnOk, decimal};
ghost use Rattle.simulator_lanes.specs.Lanes.{change_for, inside, inside_at, insides, is_tick, lane, lane_at, lane_insides, lanes, phase_after, phase_in, row_lanes, row_start, tick, tick_at, ticks};
ghost use Rattle.simulator_lanes.specs.Words.{simulator_name};

use crate::fonts::{AXIS, WORDS};
use crate::layout::{Grid, LANE, LEFT, MARGIN, across};
use crate::words::{simulator_name, write_simulator};
use io_text::Text;
use picture_shapes::{Colour, Frame, Point, Sheet, Stroke, write_decimal};
use run_columns::{Change, Column, Scale};
use std::alloc::{AllocError, Global};

/// Whether a simulator is inside an agreement, for one who draws its lane.
#[derive(Clone, Copy)]
pub(crate) enum Phase {
    Outside,
    Inside,
    /// It has crashed there.
    Stuck,
}

/// Draws the numbers of the steps, with a line down all lanes at each.
///
/// # Errors
///
/// An allocation that fails.
#[tactic(auto, unfolding(crate::specs::Lanes::ticks))]
pub fn add_ticks(sheet: &mut Sheet, grid: Grid, columns: &[Column]) -> Result<(), AllocError>
    ensures { OnOk result (sheet.new ≡ sheet.old ++ ticks grid columns.now) }
{
    for column in columns {
        add_tick(sheet, grid, column)?;
    }
    Ok(())
}

fn add_tick(sheet: &mut Sheet, grid: Grid, column: &Column) -> Result<(), AllocError>
    ensures { OnOk result (sheet.new ≡ sheet.old ++ tick grid column.now) }
{
    if !is_tick(grid.scale, column) {
        return Ok(());
    }
    let height = LANE * u64::from(grid.simulators);
    add_tick_at(sheet, row_start(grid, column), height, column.before)
}

/// Where the row of a column begins, at the column's left end.
#[tactic(auto, unfolding(crate::specs::Lanes::row_start))]
fn row_start(grid: Grid, column: &Column) -> Point
    ensures { result ≡ row_start grid column.now }
{
    let place = u64::from(column.place);
    Point {
        x: grid.column_x(place),
        y: grid.row_y(grid.row(place)),
    }
}

fn is_tick(scale: Scale, column: &Column) -> bool
    ensures { result ≡ is_tick scale column.now }
{
    match scale {
        Scale::Steps => column.count == 1 && column.before % 10 == 0,
        Scale::Turns | Scale::Simulators => column.place % 10 == 0,
    }
}

#[tactic(auto, unfolding(crate::specs::Lanes::tick_at))]
fn add_tick_at(sheet: &mut Sheet, top: Point, height: u64, steps: u64) -> Result<(), AllocError>
    requires { height ≤ 15000 }
    ensures { OnOk result (sheet.new ≡ sheet.old ++ tick_at top height steps) }
{
    sheet.line(top, top.moved(0, height), 1, Stroke::solid(Colour::Rule))?;
    let number = number_text(sheet.alloc(), steps)?;
    sheet.label(
        top.moved(0, height + 12),
        AXIS,
        Colour::Faint,
        number.as_bytes(),
    )
}

pub(crate) fn number_text(alloc: Global, number: u64) -> Result<Text, AllocError>
    ensures { IfOk result (λ text. text ≡ decimal number) }
{
    let mut text = Text::new(alloc);
    write_decimal(&mut text, number)?;
    Ok(text)
}

/// Draws the lanes of all rows.
///
/// # Errors
///
/// An allocation that fails.
#[tactic(auto, unfolding(crate::specs::Lanes::lanes))]
pub fn add_lanes(sheet: &mut Sheet, grid: Grid) -> Result<(), AllocError>
    ensures { OnOk result (sheet.new ≡ sheet.old ++ lanes grid) }
{
    for row in 0..grid.rows() {
        add_row_lanes(sheet, grid, row)?;
    }
    Ok(())
}

#[tactic(auto, unfolding(crate::specs::Lanes::row_lanes))]
fn add_row_lanes(sheet: &mut Sheet, grid: Grid, row: u64) -> Result<(), AllocError>
    requires { row ≤ 2 * 65535 }
    ensures { OnOk result (sheet.new ≡ sheet.old ++ row_lanes grid row) }
{
    for simulator in 0..grid.simulators {
        add_lane(sheet, grid, row, simulator)?;
    }
    Ok(())
}

fn add_lane(sheet: &mut Sheet, grid: Grid, row: u64, simulator: u8) -> Result<(), AllocError>
    requires { row ≤ 2 * 65535 }
    ensures { OnOk result (sheet.new ≡ sheet.old ++ lane grid row simulator) }
{
    let y = grid.lane_y(row, simulator);
    add_lane_at(sheet, y, grid.row_right(row), simulator)
}

/// Draws a lane from its upper end on: its simulator's name, and its line up to this x.
#[tactic(auto, unfolding(crate::specs::Lanes::lane_at))]
fn add_lane_at(sheet: &mut Sheet, y: u64, right: u64, simulator: u8) -> Result<(), AllocError>
    ensures { OnOk result (sheet.new ≡ sheet.old ++ lane_at y right simulator) }
{
    let name = simulator_name(sheet.alloc(), simulator)?;
    let start = Point { x: MARGIN, y };
    sheet.label(start.moved(0, 19), WORDS, Colour::Ink, name.as_bytes())?;
    let from = Point { x: LEFT - 6, y };
    let to = Point { x: right, y };
    let stroke = Stroke::solid(Colour::Rule);
    sheet.line(from.moved(0, 15), to.moved(0, 15), 1, stroke)
}

/// Hatches the lanes where their simulators are inside an agreement.
///
/// # Errors
///
/// An allocation that fails.
#[tactic(auto, unfolding(crate::specs::Lanes::insides))]
pub fn add_insides(sheet: &mut Sheet, grid: Grid, columns: &[Column]) -> Result<(), AllocError>
    ensures { OnOk result (sheet.new ≡ sheet.old ++ insides grid columns.now) }
{
    for simulator in 0..grid.simulators {
        add_lane_insides(sheet, grid, columns, simulator)?;
    }
    Ok(())
}

#[tactic(auto, unfolding(crate::specs::Lanes::lane_insides))]
fn add_lane_insides(
    sheet: &mut Sheet,
    grid: Grid,
    columns: &[Column],
    simulator: u8,
) -> Result<(), AllocError>
    ensures { OnOk result (sheet.new ≡ sheet.old ++ lane_insides grid columns.now simulator) }
{
    let mut phase = Phase::Outside;
    for column in columns {
        let change = change_for(simulator, column);
        add_inside(sheet, grid, simulator, column.place, phase.under(change))?;
        phase = phase.after(change);
    }
    Ok(())
}

/// What a column changes for a simulator: nothing if it is one of another's.
fn change_for(simulator: u8, column: &Column) -> Change
    ensures { result ≡ change_for simulator column.now }
{
    if column.first.simulator() == simulator {
        column.change
    } else {
        Change::Nothing
    }
}

impl Phase {
    /// The phase of a simulator in a column of its own that changes this.
    fn under(self, change: Change) -> Phase
        ensures { result ≡ phase_in change self }
    {
        match (change, self) {
            (Change::Nothing | Change::Leaves, phase) => phase,
            (Change::Enters, _) => Phase::Inside,
            (Change::Crashes, Phase::Outside) => Phase::Outside,
            (Change::Crashes, Phase::Inside | Phase::Stuck) => Phase::Stuck,
        }
    }

    /// The phase after such a column.
    fn after(self, change: Change) -> Phase
        ensures { result ≡ phase_after change self }
    {
        match change {
            Change::Leaves => Phase::Outside,
            Change::Nothing | Change::Enters | Change::Crashes => self.under(change),
        }
    }
}

fn add_inside(
    sheet: &mut Sheet,
    grid: Grid,
    simulator: u8,
    place: u16,
    phase: Phase,
) -> Result<(), AllocError>
    ensures { OnOk result (sheet.new ≡ sheet.old ++ inside grid simulator place phase) }
{
    let corner = grid.cell(simulator, place);
    match phase {
        Phase::Outside => Ok(()),
        Phase::Inside => add_inside_at(sheet, grid, corner, Colour::Hatched),
        Phase::Stuck => add_inside_at(sheet, grid, corner, Colour::Pale),
    }
}

#[tactic(auto, unfolding(crate::specs::Lanes::inside_at))]
fn add_inside_at(
    sheet: &mut Sheet,
    grid: Grid,
    corner: Point,
    fill: Colour,
) -> Result<(), AllocError>
    ensures { OnOk result (sheet.new ≡ sheet.old ++ inside_at grid corner fill) }
{
    let frame = Frame::at(corner.moved(0, 2), across(grid.scale, 1), 26);
    sheet.area(frame, 0, fill, Stroke::solid(Colour::Clear))
}
