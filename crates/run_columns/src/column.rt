//! The columns of a run's picture.
ghost use Rattle.std.specs.Prelude.{◌≡◌, ◌+◌, ◌-◌, ◌^◌, ◌≤◌, IfOk, length, min};
ghost use Rattle.run_columns.specs.Columns.{change_by, change_by_kind, column_of, columns_by, columns_from, end_by, joins, belongs, next_column, columns_as, folded_scale, scale_by, steps_in, changed, widened};

use crate::mark::{Mark, Step, StepKind};
use simulator::Turn;
use std::alloc::{AllocError, Global};
use std::marker::Model;

/// The most columns of a picture.
pub const MAX_COLUMNS: usize = 400;

/// How much of a run a column shows at most.
#[derive(Clone, Copy)]
pub enum Scale {
    /// One step.
    Steps,
    /// A stretch of steps that belong to one turn.
    Turns,
    /// A stretch of steps of one simulator.
    Simulators,
}

/// What a column changes about whether its simulator is inside an agreement.
#[derive(Clone, Copy)]
pub enum Change {
    Nothing,
    /// It is inside after the column.
    Enters,
    /// It is outside after the column.
    Leaves,
    /// It stays where it is for good.
    Crashes,
}

/// A column of a run's picture: a crash, or one step or several of one simulator.
#[derive(Clone, Copy)]
pub struct Column {
    /// How many columns are before it.
    pub place: u16,
    /// How many steps were taken before it.
    pub before: u64,
    /// How many steps it shows, none for a crash.
    pub count: u64,
    /// The first thing that happens in it.
    pub first: Mark,
    pub change: Change,
    /// Whether its last step ends a turn, and how.
    pub end: Turn,
}

impl Column {
    fn new(place: u16, before: u64, mark: Mark) -> Column
        ensures { result ≡ column_of place before mark }
    {
        Column {
            place,
            before,
            count: steps_in(mark),
            first: mark,
            change: change_by(mark),
            end: end_by(mark),
        }
    }

    /// The column with this mark taken in.
    fn widened(self, mark: Mark) -> Column
        ensures { result ≡ widened self mark }
    {
        Column {
            count: self.count.saturating_add(steps_in(mark)),
            change: change_by(mark).after(self.change),
            end: end_by(mark),
            ..self
        }
    }

    /// The column after this one, which begins with this mark.
    fn next(self, mark: Mark) -> Column
        ensures { result ≡ next_column self mark }
    {
        let before = self.before.saturating_add(self.count);
        Column::new(self.place.saturating_add(1), before, mark)
    }
}

impl Change {
    /// This change after an earlier one.
    fn after(self, earlier: Change) -> Change
        ensures { result ≡ changed earlier self }
    {
        match self {
            Change::Nothing => earlier,
            Change::Enters | Change::Leaves | Change::Crashes => self,
        }
    }
}

pub(crate) fn steps_in(mark: Mark) -> u64
    ensures { result ≡ steps_in mark }
{
    match mark {
        Mark::Step(_) => 1,
        Mark::Crash { .. } => 0,
    }
}

fn change_by(mark: Mark) -> Change
    ensures { result ≡ change_by mark }
{
    match mark {
        Mark::Step(step) => change_by_kind(step.kind),
        Mark::Crash { .. } => Change::Crashes,
    }
}

fn change_by_kind(kind: StepKind) -> Change
    ensures { result ≡ change_by_kind kind }
{
    match kind {
        StepKind::Enter => Change::Enters,
        StepKind::Stand | StepKind::Withdraw => Change::Leaves,
        StepKind::StoreWrite
        | StepKind::CountWrite
        | StepKind::Snapshot
        | StepKind::Propose
        | StepKind::Look
        | StepKind::Ask
        | StepKind::LoadView
        | StepKind::LoadValue
        | StepKind::Decide => Change::Nothing,
    }
}

fn end_by(mark: Mark) -> Turn
    ensures { result ≡ end_by mark }
{
    match mark {
        Mark::Step(step) => step.end,
        Mark::Crash { .. } => Turn::Still,
    }
}

impl Scale {
    /// Whether a mark belongs into the column that begins with `first`.
    fn joins(self, first: Mark, mark: Mark) -> bool
        ensures { result ≡ joins self first mark }
    {
        match (first, mark) {
            (Mark::Step(first), Mark::Step(step)) => self.belongs(first, step),
            _ => false, // a crash has a column of its own
        }
    }

    fn belongs(self, first: Step, step: Step) -> bool
        ensures { result ≡ belongs self first step }
    {
        match self {
            Scale::Steps => false,
            Scale::Turns => first.simulator == step.simulator && first.turn == step.turn,
            Scale::Simulators => first.simulator == step.simulator,
        }
    }
}

/// The columns of a run's picture.
#[derive(Drop)]
pub struct Columns {
    scale: Scale,
    columns: Vec<Column>,
    left_out: usize,
}

impl Model for Columns {
    ghost use Rattle.std.specs.Prelude.{◌≤◌, length};
    ghost use Rattle.run_columns.specs.Columns.{Columns as ColumnsData};

    ghost Value = { ColumnsData };

    ghost view = { λ c. record { scale = c.scale; columns = c.columns.items; left_out = c.left_out } };

    ghost invariant = { λ c. length c.columns.items ≤ 400 };
}

impl Columns {
    /// The columns of these marks, in order: one a mark if there are few enough and `by_turns` is false, and else one a stretch.
    ///
    /// # Errors
    ///
    /// If an allocation fails.
    pub fn of(alloc: Global, by_turns: bool, marks: &[Mark]) -> Result<Columns, AllocError>
        ensures { IfOk result (λ columns. columns ≡ columns_as by_turns marks.now) }
    {
        let scale = scale_by(alloc, by_turns, marks)?;
        let mut columns = columns_by(alloc, scale, marks)?;
        let left_out = columns.len().saturating_sub(MAX_COLUMNS);
        columns.truncate(MAX_COLUMNS);
        Ok(Columns {
            scale,
            columns,
            left_out,
        })
    }

    /// How much a column shows at most.
    pub fn scale(&self) -> Scale
        ensures { result ≡ self.now.scale }
    {
        self.scale
    }

    /// The columns, from the left; at most `MAX_COLUMNS`.
    pub fn columns(&self) -> &[Column]
        ensures value { result.now ≡ self.now.columns }
        ensures few { length result.now ≤ MAX_COLUMNS }
    {
        &self.columns
    }

    /// How many columns more there would be.
    pub fn left_out(&self) -> usize
        ensures { result ≡ self.now.left_out }
    {
        self.left_out
    }
}

/// How much a column shows in the picture of these marks.
fn scale_by(alloc: Global, by_turns: bool, marks: &[Mark]) -> Result<Scale, AllocError>
    ensures { IfOk result (λ scale. scale ≡ scale_by by_turns marks.now) }
{
    if !by_turns && marks.len() <= MAX_COLUMNS {
        return Ok(Scale::Steps);
    }
    folded_scale(alloc, marks)
}

/// How much a column shows if it may show several steps.
fn folded_scale(alloc: Global, marks: &[Mark]) -> Result<Scale, AllocError>
    ensures { IfOk result (λ scale. scale ≡ folded_scale marks.now) }
{
    let turns = columns_by(alloc, Scale::Turns, marks)?;
    if turns.len() <= MAX_COLUMNS {
        return Ok(Scale::Turns);
    }
    Ok(Scale::Simulators)
}

/// All columns of these marks.
#[tactic(auto, unfolding(crate::specs::Columns::columns_by))]
fn columns_by(alloc: Global, scale: Scale, marks: &[Mark]) -> Result<Vec<Column>, AllocError>
    ensures { IfOk result (λ columns. columns.items ≡ columns_by scale marks.now) }
{
    let mut columns = Vec::new(alloc);
    let Some((first, rest)) = marks.split_first() else {
        return Ok(columns);
    };
    let mut column = Column::new(0, 0, *first);
    for mark in rest {
        if scale.joins(column.first, *mark) {
            column = column.widened(*mark);
        } else {
            columns.push(column)?;
            column = column.next(*mark);
        }
    }
    columns.push(column)?;
    Ok(columns)
}
