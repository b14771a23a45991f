//! The lanes of the processes: each event at the step at which it takes effect, and the state of each process.
ghost use Rattle.std.specs.Prelude.{◌≡◌, ◌+◌, ◌*◌, ◌++◌, ◌∷◌, ◌≤◌, ◌<◌, IfOk, OnOk, Some, length};
ghost use Rattle.transcript.specs.Grammar.{entry_text};
ghost use Rattle.run_picture.specs.History.{all_events, box_width, boxed, column_for, entries_text, event_box, event_hint, event_look, event_shapes, event_start, event_width, event_words, event_x, events_right, first_pen, lane_events, lane_line, lane_right, last_line, pen_after, process_lane, process_lanes, row_processes, state_look, state_words, tie, tied};
ghost use Rattle.run_picture.specs.Opens.{open_shapes};
ghost use Rattle.simulator_lanes.specs.Panels.{states_in};
ghost use Rattle.simulator_lanes.specs.Words.{process_name};

use crate::open::add_open;
use crate::stopped::is_one_left;
use io_text::Text;
use picture_shapes::{Colour, Dashes, Frame, Point, Sheet, Stroke, write_decimal};
use run_columns::{Column, column_of, event_step, round_at};
use simulator_lanes::{
    EVENT, Grid, LEFT, MARGIN, Panel, SMALL, WORDS, dashes_for, write_process, write_simulator,
};
use std::alloc::{AllocError, Global};
use transcript::Event;
use ws_history::ProcessState;

/// A room as it is drawn: what is drawn of it, its columns, and where they are.
#[derive(Clone, Copy)]
pub(crate) struct Chart<'a> {
    pub(crate) panel: &'a Panel,
    pub(crate) columns: &'a [Column],
    pub(crate) grid: Grid,
}

/// The lane of a process in a row.
#[derive(Clone, Copy)]
struct Lane {
    process: u8,
    /// Its upper end.
    y: u64,
    /// How far right its line goes.
    right: u64,
}

/// How far the lane of a process is drawn.
#[derive(Clone, Copy)]
struct Pen {
    /// The round of the process.
    round: u8,
    /// The row of its last event,
    row: u64,
    /// and where that ends.
    x: u64,
    /// Where the rightmost event of any row ends.
    right: u64,
}

/// Draws the events of all processes: the ties to their steps on `ties`, and their boxes. Gives how far right they and the columns reach.
#[tactic(auto, unfolding(crate::specs::History::all_events, crate::specs::History::events_right))]
pub(crate) fn add_all_events(
    ties: &mut Sheet,
    boxes: &mut Sheet,
    chart: &Chart<'_>,
) -> Result<u64, AllocError>
    ensures ties { OnOk result (ties.new ≡ ties.old ++ all_events tied chart.now.panel.now chart.now.columns.now chart.now.grid) }
    ensures boxes { OnOk result (boxes.new ≡ boxes.old ++ all_events boxed chart.now.panel.now chart.now.columns.now chart.now.grid) }
    ensures right { IfOk result (λ right. right ≡ events_right chart.now.panel.now chart.now.columns.now chart.now.grid) }
{
    let mut right = chart.grid.right();
    for process in 0..chart.grid.processes {
        right = right.max(add_lane_events(ties, boxes, chart, process)?);
    }
    Ok(right)
}

/// Draws the ties and the boxes of the events of a process. Gives where the rightmost of them ends.
#[tactic(auto, unfolding(crate::specs::History::lane_events, crate::specs::History::lane_right))]
fn add_lane_events(
    ties: &mut Sheet,
    boxes: &mut Sheet,
    chart: &Chart<'_>,
    process: u8,
) -> Result<u64, AllocError>
    ensures ties { OnOk result (ties.new ≡ ties.old ++ lane_events tied chart.now.panel.now chart.now.columns.now chart.now.grid process) }
    ensures boxes { OnOk result (boxes.new ≡ boxes.old ++ lane_events boxed chart.now.panel.now chart.now.columns.now chart.now.grid process) }
    ensures right { IfOk result (λ right. right ≡ lane_right chart.now.panel.now chart.now.columns.now chart.now.grid process) }
{
    let mut pen = first_pen();
    let events = chart.panel.events();
    for event in events {
        if event.process() == process {
            pen = add_event(ties, boxes, chart, pen, event)?;
        }
    }
    Ok(pen.right)
}

fn first_pen() -> Pen
    ensures { result ≡ first_pen }
{
    Pen {
        round: 0,
        row: 0,
        x: 0,
        right: 0,
    }
}

/// Draws the tie and the box of an event, if a column shows its step. Gives how far the lane of its process is drawn then.
fn add_event(
    ties: &mut Sheet,
    boxes: &mut Sheet,
    chart: &Chart<'_>,
    pen: Pen,
    event: &Event,
) -> Result<Pen, AllocError>
    ensures ties { OnOk result (ties.new ≡ ties.old ++ event_shapes tied chart.now.grid pen event.now (column_for chart.now.panel.now chart.now.columns.now pen event.now)) }
    ensures boxes { OnOk result (boxes.new ≡ boxes.old ++ event_shapes boxed chart.now.grid pen event.now (column_for chart.now.panel.now chart.now.columns.now pen event.now)) }
    ensures pen { IfOk result (λ after. after ≡ pen_after chart.now.grid pen event.now (column_for chart.now.panel.now chart.now.columns.now pen event.now)) }
{
    let grid = chart.grid;
    let Some(column) = column_for(ties.alloc(), chart, pen, event)? else {
        let round = round_at(pen.round, event);
        return Ok(Pen { round, ..pen });
    };
    let start = event_start(grid, pen, event, &column);
    add_tied(ties, grid, start, event, &column)?;
    add_event_box(boxes, start, event)?;
    pen_after(ties.alloc(), grid, pen, event, &column)
}

/// The column of an event, after what is drawn so far.
fn column_for(
    alloc: Global,
    chart: &Chart<'_>,
    pen: Pen,
    event: &Event,
) -> Result<Option<Column>, AllocError>
    ensures { IfOk result (λ column. column ≡ column_for chart.now.panel.now chart.now.columns.now pen event.now) }
{
    let panel = chart.panel;
    let round = round_at(pen.round, event);
    let words = panel.words() as u8;
    let step = event_step(alloc, words, panel.marks(), round, event)?;
    Ok(column_of(chart.columns, step))
}

/// How far the lane is drawn after an event in this column.
fn pen_after(
    alloc: Global,
    grid: Grid,
    pen: Pen,
    event: &Event,
    column: &Column,
) -> Result<Pen, AllocError>
    ensures { IfOk result (λ after. after ≡ pen_after grid pen event.now (Some column.now)) }
{
    let width = event_width(alloc, event)?;
    let x = event_x(grid, pen, column).saturating_add(width);
    Ok(Pen {
        round: round_at(pen.round, event),
        row: grid.row(u64::from(column.place)),
        x,
        right: pen.right.max(x),
    })
}

/// How far from the beginning of an event the next one is at least.
fn event_width(alloc: Global, event: &Event) -> Result<u64, AllocError>
    ensures { IfOk result (λ width. width ≡ event_width event.now) }
{
    let words = event_words(alloc, event)?;
    Ok(box_width(words.as_bytes()) + 6)
}

/// Where an event begins: at its column, or after the event before it if that is in the way.
fn event_x(grid: Grid, pen: Pen, column: &Column) -> u64
    ensures { result ≡ event_x grid pen column.now }
{
    let place = u64::from(column.place);
    if grid.row(place) == pen.row {
        grid.column_x(place).max(pen.x)
    } else {
        grid.column_x(place)
    }
}

#[tactic(auto, unfolding(crate::specs::History::event_start))]
fn event_start(grid: Grid, pen: Pen, event: &Event, column: &Column) -> Point
    ensures { result ≡ event_start grid pen event.now column.now }
{
    let row = grid.row(u64::from(column.place));
    Point {
        x: event_x(grid, pen, column),
        y: grid.process_y(row, event.process()),
    }
}

#[tactic(auto, unfolding(crate::specs::History::tied))]
fn add_tied(
    sheet: &mut Sheet,
    grid: Grid,
    start: Point,
    event: &Event,
    column: &Column,
) -> Result<(), AllocError>
    ensures { OnOk result (sheet.new ≡ sheet.old ++ tied grid start event.now column.now) }
{
    let corner = grid.cell(column.first.simulator(), column.place);
    add_tie(sheet, corner, start, Colour::Hue(event.process()))
}

/// Draws thin lines from a step's square, down and then to the event that takes effect there.
#[tactic(auto, unfolding(crate::specs::History::tie))]
fn add_tie(sheet: &mut Sheet, corner: Point, start: Point, hue: Colour) -> Result<(), AllocError>
    ensures { OnOk result (sheet.new ≡ sheet.old ++ tie corner start hue) }
{
    let turning = Point {
        x: corner.x.saturating_add(8),
        y: start.y.saturating_sub(6),
    };
    let stroke = Stroke::solid(hue);
    sheet.line(corner.moved(8, 24), turning, 1, stroke)?;
    sheet.line(turning, start.moved(8, 0), 1, stroke)
}

/// Draws the lanes of the processes in all rows, up to this x in the last, and there the states of the processes.
#[tactic(auto, unfolding(crate::specs::History::process_lanes))]
pub(crate) fn add_process_lanes(
    sheet: &mut Sheet,
    chart: &Chart<'_>,
    right: u64,
) -> Result<(), AllocError>
    ensures { OnOk result (sheet.new ≡ sheet.old ++ process_lanes chart.now.grid right chart.now.panel.now) }
{
    for row in 0..chart.grid.rows() {
        add_row_processes(sheet, chart, right, row)?;
    }
    Ok(())
}

#[tactic(auto, unfolding(crate::specs::History::row_processes))]
fn add_row_processes(
    sheet: &mut Sheet,
    chart: &Chart<'_>,
    right: u64,
    row: u64,
) -> Result<(), AllocError>
    requires { row ≤ 2 * 65535 }
    ensures { OnOk result (sheet.new ≡ sheet.old ++ row_processes chart.now.grid right chart.now.panel.now row) }
{
    for process in 0..chart.panel.states().len() {
        add_process_lane(sheet, chart, right, row, process)?;
    }
    Ok(())
}

#[tactic(auto, using(std::proofs::lemmas::List::get_or_default))]
fn add_process_lane(
    sheet: &mut Sheet,
    chart: &Chart<'_>,
    right: u64,
    row: u64,
    process: usize,
) -> Result<(), AllocError>
    requires row { row ≤ 2 * 65535 }
    requires process { process < length (states_in chart.now.panel.now.report) }
    ensures { OnOk result (sheet.new ≡ sheet.old ++ process_lane chart.now.grid right chart.now.panel.now row process) }
{
    let (panel, grid) = (chart.panel, chart.grid);
    let state = panel.states()[process];
    let number = process as u8;
    let lane = Lane {
        process: number,
        y: grid.process_y(row, number),
        right: grid.row_right(row),
    };
    if row + 1 == grid.rows() {
        add_last_lane(sheet, Lane { right, ..lane }, panel, state)
    } else {
        add_lane_line(sheet, lane, b"", Colour::Faint, Dashes::Solid)
    }
}

/// Draws the lane of a process in the last row, with the state of the process and the proposals that may still be chosen.
fn add_last_lane(
    sheet: &mut Sheet,
    lane: Lane,
    panel: &Panel,
    state: ProcessState,
) -> Result<(), AllocError>
    ensures { OnOk result (sheet.new ≡ sheet.old ++ (last_line lane.y lane.right panel.now lane.process state ++ open_shapes lane.y panel.now lane.process)) }
{
    add_last_line(sheet, lane, panel, state)?;
    add_open(sheet, lane.y, panel, lane.process)
}

/// Draws the name and the line of a process in the last row, with the state of the process.
fn add_last_line(
    sheet: &mut Sheet,
    lane: Lane,
    panel: &Panel,
    state: ProcessState,
) -> Result<(), AllocError>
    ensures { OnOk result (sheet.new ≡ sheet.old ++ last_line lane.y lane.right panel.now lane.process state) }
{
    let words = state_words(sheet.alloc(), panel, state)?;
    let (colour, dashes) = state_look(state);
    add_lane_line(sheet, lane, words.as_bytes(), colour, dashes)
}

/// The state of a process, in words. One that isn't through may go on if some simulator can.
#[tactic(auto, unfolding(crate::specs::History::state_words))]
fn state_words(alloc: Global, panel: &Panel, state: ProcessState) -> Result<Text, AllocError>
    ensures { IfOk result (λ words. words ≡ state_words panel.now state) }
{
    let mut words = Text::new(alloc);
    match state {
        ProcessState::Decided(value) => {
            words.put(b"decided")?;
            words.put_spaced_number(u64::from(value))?;
        }
        ProcessState::Spent => words.put(b"spent")?,
        ProcessState::Held(simulator) => {
            words.put(b"held by ")?;
            write_simulator(&mut words, simulator)?;
        }
        ProcessState::Going if is_one_left(panel) => words.put(b"may still go on")?,
        ProcessState::Going => words.put(b"no simulator left")?,
    }
    Ok(words)
}

/// The colour of these words and of the process's line, which is dashed if the process isn't through.
fn state_look(state: ProcessState) -> (Colour, Dashes)
    ensures { result ≡ state_look state }
{
    match state {
        ProcessState::Decided(_) | ProcessState::Spent => (Colour::Faint, Dashes::Solid),
        ProcessState::Held(_) => (Colour::Alarm, Dashes::Long),
        ProcessState::Going => (Colour::Faint, Dashes::Long),
    }
}

/// Draws the name of a process and the line of its lane, with these words under the name.
#[tactic(auto, unfolding(crate::specs::History::lane_line))]
fn add_lane_line(
    sheet: &mut Sheet,
    lane: Lane,
    words: &[u8],
    colour: Colour,
    dashes: Dashes,
) -> Result<(), AllocError>
    ensures { OnOk result (sheet.new ≡ sheet.old ++ lane_line lane.y lane.right lane.process words.now colour dashes) }
{
    let name = process_name(sheet.alloc(), lane.process)?;
    let y = lane.y;
    let start = Point { x: MARGIN, y };
    let hue = Colour::Hue(lane.process);
    sheet.label(start.moved(0, 11), WORDS, hue, name.as_bytes())?;
    sheet.label(start.moved(0, 23), SMALL, colour, words)?;
    let from = Point { x: LEFT - 6, y };
    let to = Point { x: lane.right, y };
    let stroke = Stroke { colour, dashes };
    sheet.line(from.moved(0, 11), to.moved(0, 11), 1, stroke)
}

fn process_name(alloc: Global, process: u8) -> Result<Text, AllocError>
    ensures { IfOk result (λ words. words ≡ process_name process) }
{
    let mut words = Text::new(alloc);
    write_process(&mut words, process)?;
    Ok(words)
}

/// What an event is, in words.
#[tactic(auto, unfolding(crate::specs::History::event_words))]
fn event_words(alloc: Global, event: &Event) -> Result<Text, AllocError>
    ensures { IfOk result (λ words. words ≡ event_words event.now) }
{
    let mut words = Text::new(alloc);
    match event {
        Event::Write { v, .. } => {
            words.put(b"write")?;
            words.put_spaced_number(u64::from(*v))?;
        }
        Event::Snap { row, .. } => {
            words.put(b"snap")?;
            write_entries(&mut words, row.as_slice())?;
        }
        Event::Decide { v, .. } => {
            words.put(b"decide")?;
            words.put_spaced_number(u64::from(*v))?;
        }
    }
    Ok(words)
}

/// Writes each entry of a snapshot after a space.
fn write_entries(output: &mut Text, entries: &[Option<u32>]) -> Result<(), AllocError>
    ensures { OnOk result (output.new ≡ output.old ++ entries_text entries.now) }
{
    for entry in entries {
        write_entry(output, *entry)?;
    }
    Ok(())
}

fn write_entry(output: &mut Text, entry: Option<u32>) -> Result<(), AllocError>
    ensures { OnOk result (output.new ≡ output.old ++ 32 ∷ entry_text entry) }
{
    match entry {
        None => output.put(b" ."),
        Some(value) => output.put_spaced_number(u64::from(value)),
    }
}

/// How wide the box of these words is.
fn box_width(words: &[u8]) -> u64
    ensures value { result ≡ box_width words.now }
    ensures range { result ≤ 1414 }
{
    7 * words.len().min(200) as u64 + 14
}

/// Draws the box of an event, from this point on.
fn add_event_box(sheet: &mut Sheet, start: Point, event: &Event) -> Result<(), AllocError>
    ensures { OnOk result (sheet.new ≡ sheet.old ++ event_box start event.now (event_words event.now)) }
{
    let words = event_words(sheet.alloc(), event)?;
    add_box(sheet, start, event, words.as_bytes())
}

#[tactic(auto, unfolding(crate::specs::History::event_box))]
fn add_box(sheet: &mut Sheet, start: Point, event: &Event, words: &[u8]) -> Result<(), AllocError>
    ensures { OnOk result (sheet.new ≡ sheet.old ++ event_box start event.now words.now) }
{
    let width = box_width(words);
    let frame = Frame::at(start, width, 22);
    let outline = Stroke {
        colour: Colour::Hue(event.process()),
        dashes: dashes_for(event.process()),
    };
    let (fill, ink, corner) = event_look(event);
    sheet.area(frame, corner, fill, outline)?;
    let middle = start.moved(width / 2, 15);
    sheet.label(middle, EVENT, ink, words)?;
    let hint = event_hint(sheet.alloc(), event.process(), words)?;
    sheet.hint(frame, hint.as_bytes())
}

#[tactic(auto, unfolding(crate::specs::History::event_hint))]
fn event_hint(alloc: Global, process: u8, words: &[u8]) -> Result<Text, AllocError>
    ensures { IfOk result (λ hint. hint ≡ event_hint process words.now) }
{
    let mut hint = Text::new(alloc);
    write_process(&mut hint, process)?;
    hint.put(b": ")?;
    hint.put(words)?;
    Ok(hint)
}

/// The fill of an event's box, the colour of its words, and how round the corners are: a decision is filled, and a snapshot has round ends.
fn event_look(event: &Event) -> (Colour, Colour, u8)
    ensures { result ≡ event_look event.now }
{
    match event {
        Event::Write { .. } => (Colour::White, Colour::Ink, 3),
        Event::Snap { .. } => (Colour::White, Colour::Ink, 11),
        Event::Decide { p, .. } => (Colour::Hue(*p), Colour::White, 3),
    }
}
