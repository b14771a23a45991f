//! A square for each column, or the cross of a crash.
ghost use Rattle.std.specs.Prelude.{◌≡◌, ◌++◌, IfOk, OnOk};
ghost use Rattle.run_columns.specs.Columns.{simulator_of};
ghost use Rattle.simulator_lanes.specs.Layout.{cell};
ghost use Rattle.simulator_lanes.specs.Squares.{count_words, crash_words, cross, cross_lines, cross_word, letter_shapes, square, square_by, squares, step_fill, step_ink, step_outline, step_square, steps_square, stretch, stretch_words};

use crate::fonts::{DIGIT, LETTER, SMALL_BOLD};
use crate::lanes::number_text;
use crate::layout::{Grid, dashes_for};
use crate::words::{step_words, write_counted, write_simulator};
use io_text::Text;
use picture_shapes::{Colour, Frame, Point, Sheet, Stroke, write_decimal};
use room_spec::Spec;
use run_columns::{Column, Mark, Scale, Step};
use std::alloc::{AllocError, Global};

/// Draws each column.
///
/// # Errors
///
/// An allocation that fails.
#[tactic(auto, unfolding(crate::specs::Squares::squares))]
pub fn add_squares(
    sheet: &mut Sheet,
    grid: Grid,
    spec: &Spec,
    columns: &[Column],
) -> Result<(), AllocError>
    ensures { OnOk result (sheet.new ≡ sheet.old ++ squares grid spec.now columns.now) }
{
    for column in columns {
        add_square(sheet, grid, spec, column)?;
    }
    Ok(())
}

fn add_square(sheet: &mut Sheet, grid: Grid, spec: &Spec, column: &Column) -> Result<(), AllocError>
    ensures { OnOk result (sheet.new ≡ sheet.old ++ square grid spec.now column.now) }
{
    match column.first {
        Mark::Step(step) => add_steps(sheet, grid, spec, column, &step),
        Mark::Crash { simulator } => add_cross(sheet, corner_of(grid, column), simulator),
    }
}

/// Where a column's square begins.
fn corner_of(grid: Grid, column: &Column) -> Point
    ensures { result ≡ cell grid (simulator_of column.now.first) column.now.place }
{
    grid.cell(column.first.simulator(), column.place)
}

/// Draws the step or the steps of a column, of which this is the first.
fn add_steps(
    sheet: &mut Sheet,
    grid: Grid,
    spec: &Spec,
    column: &Column,
    step: &Step,
) -> Result<(), AllocError>
    ensures { OnOk result (sheet.new ≡ sheet.old ++ steps_square grid.scale spec.now (cell grid (simulator_of column.now.first) column.now.place) column.now step.now) }
{
    let corner = corner_of(grid, column);
    match grid.scale {
        Scale::Steps => add_step(sheet, spec, corner, column.before.saturating_add(1), step),
        Scale::Turns => {
            let hue = Colour::Hue(step.process);
            add_stretch(sheet, corner, step.simulator, column, hue)
        }
        Scale::Simulators => add_stretch(sheet, corner, step.simulator, column, Colour::Faint),
    }
}

/// Draws a step of this number.
#[tactic(auto, unfolding(crate::specs::Squares::step_square))]
fn add_step(
    sheet: &mut Sheet,
    spec: &Spec,
    corner: Point,
    number: u64,
    step: &Step,
) -> Result<(), AllocError>
    ensures { OnOk result (sheet.new ≡ sheet.old ++ step_square spec.now corner number step.now) }
{
    let frame = Frame::at(corner.moved(1, 7), 14, 16);
    let outline = Stroke {
        colour: step_outline(step),
        dashes: dashes_for(step.process),
    };
    sheet.area(frame, 3, step_fill(step), outline)?;
    add_letter(sheet, corner, step)?;
    let words = step_words(sheet.alloc(), spec, number, step)?;
    sheet.hint(frame, words.as_bytes())
}

#[tactic(auto, unfolding(crate::specs::Squares::step_fill))]
fn step_fill(step: &Step) -> Colour
    ensures { result ≡ step_fill step.now }
{
    if step.kind.is_marked() {
        Colour::Hue(step.process)
    } else {
        Colour::White
    }
}

#[tactic(auto, unfolding(crate::specs::Squares::step_ink))]
fn step_ink(step: &Step) -> Colour
    ensures { result ≡ step_ink step.now }
{
    if step.kind.is_marked() {
        Colour::White
    } else {
        Colour::Hue(step.process)
    }
}

/// A filled square of a process with dashed outlines has white ones.
#[tactic(auto, unfolding(crate::specs::Squares::step_outline))]
fn step_outline(step: &Step) -> Colour
    ensures { result ≡ step_outline step.now }
{
    if step.kind.is_marked() && step.process >= 8 {
        Colour::White
    } else {
        Colour::Hue(step.process)
    }
}

/// Writes the letter of a step, and the number of its word if it has one.
fn add_letter(sheet: &mut Sheet, corner: Point, step: &Step) -> Result<(), AllocError>
    ensures { OnOk result (sheet.new ≡ sheet.old ++ letter_shapes corner step.now step.now.word) }
{
    let ink = step_ink(step);
    let letter = step.kind.letter();
    match step.word {
        None => sheet.label(corner.moved(8, 19), LETTER, ink, letter),
        Some(word) => {
            sheet.label(corner.moved(6, 19), LETTER, ink, letter)?;
            let digits = number_text(sheet.alloc(), u64::from(word))?;
            sheet.label(corner.moved(12, 19), DIGIT, ink, digits.as_bytes())
        }
    }
}

/// Draws a stretch of steps of this simulator.
#[tactic(auto, unfolding(crate::specs::Squares::stretch))]
fn add_stretch(
    sheet: &mut Sheet,
    corner: Point,
    simulator: u8,
    column: &Column,
    hue: Colour,
) -> Result<(), AllocError>
    ensures { OnOk result (sheet.new ≡ sheet.old ++ stretch corner simulator column.now hue) }
{
    let frame = Frame::at(corner.moved(1, 7), 38, 16);
    sheet.area(frame, 3, Colour::White, Stroke::solid(hue))?;
    let count = number_text(sheet.alloc(), column.count)?;
    sheet.label(corner.moved(20, 19), LETTER, hue, count.as_bytes())?;
    let words = stretch_words(sheet.alloc(), simulator, column)?;
    sheet.hint(frame, words.as_bytes())
}

/// How many steps of a simulator a stretch has, and which is the first of them.
#[tactic(auto, unfolding(crate::specs::Squares::stretch_words))]
fn stretch_words(alloc: Global, simulator: u8, column: &Column) -> Result<Text, AllocError>
    ensures { IfOk result (λ words. words ≡ stretch_words simulator column.now) }
{
    let mut words = Text::new(alloc);
    write_simulator(&mut words, simulator)?;
    words.put(b": ")?;
    write_count(&mut words, column)?;
    Ok(words)
}

#[tactic(auto, unfolding(crate::specs::Squares::count_words))]
fn write_count(output: &mut Text, column: &Column) -> Result<(), AllocError>
    ensures { OnOk result (output.new ≡ output.old ++ count_words column.now) }
{
    write_counted(output, column.count, b" step", b" steps")?;
    output.put(b", from step ")?;
    write_decimal(output, column.before.saturating_add(1))
}

/// Draws the crash of a simulator.
#[tactic(auto, unfolding(crate::specs::Squares::cross))]
fn add_cross(sheet: &mut Sheet, corner: Point, simulator: u8) -> Result<(), AllocError>
    ensures { OnOk result (sheet.new ≡ sheet.old ++ cross corner simulator) }
{
    add_cross_lines(sheet, corner)?;
    add_cross_word(sheet, corner)?;
    let words = crash_words(sheet.alloc(), simulator)?;
    sheet.hint(Frame::at(corner.moved(1, 7), 68, 16), words.as_bytes())
}

#[tactic(auto, unfolding(crate::specs::Squares::cross_lines))]
fn add_cross_lines(sheet: &mut Sheet, corner: Point) -> Result<(), AllocError>
    ensures { OnOk result (sheet.new ≡ sheet.old ++ cross_lines corner) }
{
    let (left, right) = (corner.moved(2, 9), corner.moved(14, 21));
    sheet.line(left, right, 3, Stroke::solid(Colour::Alarm))?;
    let (left, right) = (corner.moved(2, 21), corner.moved(14, 9));
    sheet.line(left, right, 3, Stroke::solid(Colour::Alarm))
}

#[tactic(auto, unfolding(crate::specs::Squares::cross_word))]
fn add_cross_word(sheet: &mut Sheet, corner: Point) -> Result<(), AllocError>
    ensures { OnOk result (sheet.new ≡ sheet.old ++ cross_word corner) }
{
    let frame = Frame::at(corner.moved(17, 7), 52, 16);
    sheet.area(frame, 0, Colour::White, Stroke::solid(Colour::Clear))?;
    let at = corner.moved(20, 19);
    sheet.label(at, SMALL_BOLD, Colour::Alarm, b"crashed")
}

#[tactic(auto, unfolding(crate::specs::Squares::crash_words))]
fn crash_words(alloc: Global, simulator: u8) -> Result<Text, AllocError>
    ensures { IfOk result (λ words. words ≡ crash_words simulator) }
{
    let mut words = Text::new(alloc);
    write_simulator(&mut words, simulator)?;
    words.put(b" crashes")?;
    Ok(words)
}
