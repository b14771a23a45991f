//! The turns of the simulators: a bar under the steps of each.
ghost use Rattle.std.specs.Prelude.{◌≡◌, ◌++◌, ◌*◌, ◌≤◌, [], IfOk, OnOk, if◌then◌else◌};
ghost use Rattle.simulator_lanes.specs.Turns.{all_turns, bar, bar_dashes, bar_in, bar_left, bar_part, bar_parts, bar_right, ending_words, first_place, is_at, last_of, quiet_part, round_part, shows_turn, turn, turn_name, turn_number, turn_words, turns};

use crate::fonts::SMALL;
use crate::layout::{Grid, LEFT, across};
use crate::words::{write_process_round, write_simulator};
use io_text::Text;
use picture_shapes::{Colour, Dashes, Frame, Point, Sheet, Stroke, write_decimal};
use run_columns::{Column, Mark, Scale, Step};
use simulator::Turn;
use std::alloc::{AllocError, Global};

/// The columns of a turn.
#[derive(Clone, Copy)]
struct Span {
    first: Column,
    last: Column,
    /// A step of the turn.
    step: Step,
}

/// Draws a bar for each turn, unless a column may show several.
///
/// # Errors
///
/// An allocation that fails.
pub fn add_turns(sheet: &mut Sheet, grid: Grid, columns: &[Column]) -> Result<(), AllocError>
    ensures { OnOk result (sheet.new ≡ sheet.old ++ turns grid columns.now) }
{
    match grid.scale {
        Scale::Simulators => Ok(()),
        Scale::Steps | Scale::Turns => add_all_turns(sheet, grid, columns),
    }
}

#[tactic(auto, unfolding(crate::specs::Turns::all_turns))]
fn add_all_turns(sheet: &mut Sheet, grid: Grid, columns: &[Column]) -> Result<(), AllocError>
    ensures { OnOk result (sheet.new ≡ sheet.old ++ all_turns grid columns.now) }
{
    for column in columns {
        add_turn(sheet, grid, columns, column)?;
    }
    Ok(())
}

/// Draws the bar of the turn that begins in this column, if one does.
fn add_turn(
    sheet: &mut Sheet,
    grid: Grid,
    columns: &[Column],
    column: &Column,
) -> Result<(), AllocError>
    ensures { OnOk result (sheet.new ≡ sheet.old ++ turn grid columns.now column.now) }
{
    match column.first {
        Mark::Step(step) => add_turn_from(sheet, grid, columns, column, &step),
        Mark::Crash { .. } => Ok(()),
    }
}

fn add_turn_from(
    sheet: &mut Sheet,
    grid: Grid,
    columns: &[Column],
    column: &Column,
    step: &Step,
) -> Result<(), AllocError>
    ensures { OnOk result (sheet.new ≡ sheet.old ++
        (if is_at column.now.place (first_place step.now columns.now)
        then bar_parts grid column.now (last_of step.now column.now columns.now) step.now else [])) }
{
    if !is_first(column, step, columns) {
        return Ok(());
    }
    let span = Span {
        first: *column,
        last: last_of(step, column, columns),
        step: *step,
    };
    add_bar_parts(sheet, grid, &span)
}

/// Whether this is the first column that shows a step of the same turn.
fn is_first(column: &Column, step: &Step, columns: &[Column]) -> bool
    ensures { result ≡ is_at column.now.place (first_place step.now columns.now) }
{
    match first_of(step, columns) {
        Some(first) => first.place == column.place,
        None => false,
    }
}

fn first_of(step: &Step, columns: &[Column]) -> Option<Column>
    ensures { result ≡ first_place step.now columns.now }
{
    columns
        .iter()
        .copied()
        .find(|column| shows_turn(step, column))
}

/// The last column that shows a step of the same turn, or the given one.
fn last_of(step: &Step, column: &Column, columns: &[Column]) -> Column
    ensures { result ≡ last_of step.now column.now columns.now }
{
    let mut last = *column;
    for other in columns {
        if shows_turn(step, other) {
            last = *other;
        }
    }
    last
}

fn shows_turn(step: &Step, column: &Column) -> bool
    ensures { result ≡ shows_turn step.now column.now }
{
    match column.first {
        Mark::Step(other) => other.simulator == step.simulator && other.turn == step.turn,
        Mark::Crash { .. } => false,
    }
}

/// Draws the bar of a turn, from its first to its last column, in each row that it touches.
#[tactic(auto, unfolding(crate::specs::Turns::bar_parts))]
fn add_bar_parts(sheet: &mut Sheet, grid: Grid, span: &Span) -> Result<(), AllocError>
    ensures { OnOk result (sheet.new ≡ sheet.old ++ bar_parts grid span.now.first span.now.last span.now.step) }
{
    for row in 0..grid.rows() {
        add_bar_part(sheet, grid, span, row)?;
    }
    Ok(())
}

fn add_bar_part(sheet: &mut Sheet, grid: Grid, span: &Span, row: u64) -> Result<(), AllocError>
    requires { row ≤ 2 * 65535 }
    ensures { OnOk result (sheet.new ≡ sheet.old ++ bar_part grid span.now.first span.now.last span.now.step row) }
{
    let first_row = grid.row(u64::from(span.first.place));
    let last_row = grid.row(u64::from(span.last.place));
    if first_row <= row && row <= last_row {
        add_bar_in(sheet, grid, span, row)
    } else {
        Ok(())
    }
}

#[tactic(auto, unfolding(crate::specs::Turns::bar_in))]
fn add_bar_in(sheet: &mut Sheet, grid: Grid, span: &Span, row: u64) -> Result<(), AllocError>
    requires { row ≤ 2 * 65535 }
    ensures { OnOk result (sheet.new ≡ sheet.old ++ bar_in grid span.now.first span.now.last span.now.step row) }
{
    let start = Point {
        x: bar_left(grid, &span.first, row),
        y: grid.lane_y(row, span.step.simulator),
    };
    let width = bar_right(grid, &span.last, row).saturating_sub(start.x);
    add_bar(sheet, start, width, &span.step, span.last.end)
}

/// The left end of a turn's bar in a row.
#[tactic(auto, unfolding(crate::specs::Turns::bar_left))]
fn bar_left(grid: Grid, first: &Column, row: u64) -> u64
    ensures { result ≡ bar_left grid first.now row }
{
    let place = u64::from(first.place);
    if grid.row(place) == row {
        grid.column_x(place)
    } else {
        LEFT
    }
}

/// The right end of a turn's bar in a row.
#[tactic(auto, unfolding(crate::specs::Turns::bar_right))]
fn bar_right(grid: Grid, last: &Column, row: u64) -> u64
    ensures { result ≡ bar_right grid last.now row }
{
    let place = u64::from(last.place);
    if grid.row(place) == row {
        grid.column_x(place) + across(grid.scale, 1)
    } else {
        grid.row_right(row)
    }
}

/// Draws a bar of this width, under a lane that begins here.
#[tactic(auto, unfolding(crate::specs::Turns::bar))]
fn add_bar(
    sheet: &mut Sheet,
    start: Point,
    width: u64,
    step: &Step,
    end: Turn,
) -> Result<(), AllocError>
    ensures { OnOk result (sheet.new ≡ sheet.old ++ bar start width step.now end) }
{
    let hue = Colour::Hue(step.process);
    let right = start.moved(width.saturating_sub(1), 33);
    let stroke = Stroke {
        colour: hue,
        dashes: bar_dashes(end),
    };
    sheet.line(start.moved(1, 33), right, 3, stroke)?;
    let name = turn_name(sheet.alloc(), width, step, end)?;
    sheet.label(start.moved(1, 44), SMALL, hue, name.as_bytes())?;
    let words = turn_words(sheet.alloc(), step, end)?;
    sheet.hint(Frame::at(start.moved(0, 30), width, 16), words.as_bytes())
}

/// A quiet turn's bar is dashed.
fn bar_dashes(end: Turn) -> Dashes
    ensures { result ≡ bar_dashes end }
{
    match end {
        Turn::Still | Turn::Useful => Dashes::Solid,
        Turn::Quiet => Dashes::Short,
    }
}

#[tactic(auto, unfolding(crate::specs::Turns::turn_words))]
fn turn_words(alloc: Global, step: &Step, end: Turn) -> Result<Text, AllocError>
    ensures { IfOk result (λ words. words ≡ turn_words step.now end) }
{
    let mut words = Text::new(alloc);
    write_turn_number(&mut words, step)?;
    words.put(b": ")?;
    write_process_round(&mut words, step.process, step.round)?;
    words.put(ending_words(end))?;
    Ok(words)
}

#[tactic(auto, unfolding(crate::specs::Turns::ending_words))]
fn ending_words(end: Turn) -> &'static [u8]
    ensures { result.now ≡ ending_words end }
{
    match end {
        Turn::Still => b"",
        Turn::Useful => b", useful",
        Turn::Quiet => b", quiet",
    }
}

#[tactic(auto, unfolding(crate::specs::Turns::turn_number))]
fn write_turn_number(output: &mut Text, step: &Step) -> Result<(), AllocError>
    ensures { OnOk result (output.new ≡ output.old ++ turn_number step.now) }
{
    output.put(b"turn ")?;
    write_decimal(output, step.turn)?;
    output.put(b" of ")?;
    write_simulator(output, step.simulator)
}

/// As much of a turn's name as there is room for.
#[tactic(auto, unfolding(crate::specs::Turns::turn_name))]
fn turn_name(alloc: Global, width: u64, step: &Step, end: Turn) -> Result<Text, AllocError>
    ensures { IfOk result (λ words. words ≡ turn_name width step.now end) }
{
    let mut words = Text::new(alloc);
    words.put(b"p")?;
    write_decimal(&mut words, u64::from(step.process))?;
    write_round_part(&mut words, width, step.round)?;
    words.put(quiet_part(width, end))?;
    Ok(words)
}

#[tactic(auto, unfolding(crate::specs::Turns::round_part))]
fn write_round_part(output: &mut Text, width: u64, round: u8) -> Result<(), AllocError>
    ensures { OnOk result (output.new ≡ output.old ++ round_part width round) }
{
    if width < 34 {
        return Ok(());
    }
    output.put(b" r")?;
    write_decimal(output, u64::from(round))
}

#[tactic(auto, unfolding(crate::specs::Turns::quiet_part))]
fn quiet_part(width: u64, end: Turn) -> &'static [u8]
    ensures { result.now ≡ quiet_part width end }
{
    if width >= 72 && end == Turn::Quiet {
        b" quiet"
    } else {
        b""
    }
}
