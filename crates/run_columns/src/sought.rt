//! Which steps do something for a process.
ghost use Rattle.std.specs.Prelude.{◌≡◌, IfOk};
ghost use Rattle.run_columns.specs.Sought.{column_at, is_by, is_on, is_sought, is_sought_step, shows_step, steps_of};

use crate::column::{Column, steps_in};
use crate::mark::{Mark, Step, StepKind};
use std::alloc::{AllocError, Global};

/// What steps are looked for by.
#[derive(Clone, Copy)]
pub struct Sought {
    pub kind: StepKind,
    pub process: u8,
    pub round: u8,
    /// By which simulator, or by any.
    pub simulator: Option<u8>,
    /// On which word of a snapshot, or on any.
    pub word: Option<u8>,
}

impl Sought {
    /// Of each such step, in order, how many steps were taken before it.
    ///
    /// # Errors
    ///
    /// If an allocation fails.
    pub fn steps(self, alloc: Global, marks: &[Mark]) -> Result<Vec<u64>, AllocError>
        ensures { IfOk result (λ steps. steps.items ≡ steps_of self marks.now) }
    {
        let mut steps = Vec::new(alloc);
        let mut before: u64 = 0;
        for mark in marks {
            if self.is_at(*mark) {
                steps.push(before)?;
            }
            before = before.saturating_add(steps_in(*mark));
        }
        Ok(steps)
    }

    /// Whether this is such a step.
    pub fn is_at(self, mark: Mark) -> bool
        ensures { result ≡ is_sought self mark }
    {
        match mark {
            Mark::Step(step) => self.is_step(step),
            Mark::Crash { .. } => false,
        }
    }

    pub(crate) fn is_step(self, step: Step) -> bool
        ensures { result ≡ is_sought_step self step }
    {
        (step.kind.is_same(self.kind) && (step.process == self.process && step.round == self.round))
            && (is_by(self.simulator, step.simulator) && is_on(self.word, step.word))
    }
}

/// Whether this is the simulator that is asked for, if one is.
fn is_by(asked: Option<u8>, simulator: u8) -> bool
    ensures { result ≡ is_by asked simulator }
{
    match asked {
        None => true,
        Some(asked) => simulator == asked,
    }
}

/// Whether this is the word that is asked for, if one is.
fn is_on(asked: Option<u8>, word: Option<u8>) -> bool
    ensures { result ≡ is_on asked word }
{
    match (asked, word) {
        (None, _) => true,
        (Some(_), None) => false,
        (Some(asked), Some(word)) => word == asked,
    }
}

/// The column that shows the step before which this many were taken.
pub fn column_at(step: u64, columns: &[Column]) -> Option<Column>
    ensures { result ≡ column_at step columns.now }
{
    columns
        .iter()
        .copied()
        .find(|column| shows_step(step, column))
}

fn shows_step(step: u64, column: &Column) -> bool
    ensures { result ≡ shows_step step column.now }
{
    column.before <= step && step < column.before.saturating_add(column.count)
}
