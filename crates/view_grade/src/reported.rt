//! The report by which a script is graded.

use arrayvec::ArrayVec;
use room_spec::{MAX_PROCESSES, MAX_SIMULATORS};
use std::marker::Model;
use ws_history::Report;

/// A report, and what each simulator of its room had decided and which input each process had when it was made, by their numbers.
#[derive(Drop)]
pub(crate) struct Reported {
    pub(crate) report: Report,
    pub(crate) decisions: ArrayVec<Option<u32>, MAX_SIMULATORS>,
    pub(crate) inputs: ArrayVec<Option<u32>, MAX_PROCESSES>,
}

impl Model for Reported {
    ghost use Rattle.view_grade.specs.Judging.{ReportedParts};

    ghost Value = { ReportedParts };

    ghost view = { λ reported. record { report = reported.report; decisions = reported.decisions.items; inputs = reported.inputs.items } };
}
