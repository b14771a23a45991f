//! Whether a report satisfies a goal.
ghost use Rattle.std.specs.Prelude.{◌≡◌, ◌==◌, slice_get};
ghost use Rattle.std.specs.List.{list_any};
ghost use Rattle.view_grade.specs.Judging.{decision_of, holds, is_fact, reported_input, satisfies};

use crate::goal::{Claim, Fact, Joint};
use crate::reported::Reported;
use ws_history::{ProcessState, Report};

/// Whether all claims of some alternative hold.
pub(crate) fn satisfies(reported: &Reported, claims: &[Claim]) -> bool
    ensures { result ≡ satisfies reported.now claims.now }
{
    let mut earlier = false;
    let mut last = false;
    for claim in claims {
        let holds = holds(reported, *claim);
        match claim.joint {
            Joint::And => last = last && holds,
            Joint::Or => {
                earlier = earlier || last;
                last = holds;
            }
        }
    }
    earlier || last
}

pub(crate) fn holds(reported: &Reported, claim: Claim) -> bool
    ensures { result ≡ holds reported.now claim }
{
    is_fact(reported, claim.fact) != claim.negated
}

fn is_fact(reported: &Reported, fact: Fact) -> bool
    ensures { result ≡ is_fact reported.now fact }
{
    let report = &reported.report;
    match fact {
        Fact::Decided { process, value } => {
            state_of(report, process) == Some(ProcessState::Decided(value))
        }
        Fact::Spent(process) => state_of(report, process) == Some(ProcessState::Spent),
        Fact::Held(process) => matches!(state_of(report, process), Some(ProcessState::Held(_))),
        Fact::Going(process) => state_of(report, process) == Some(ProcessState::Going),
        Fact::Input { process, input } => reported_input(reported, process) == Some(input),
        Fact::Crashed(simulator) => has_crashed(report, simulator),
        Fact::SimulatorDecided { simulator, value } => {
            decision_of(reported, simulator) == Some(Some(value))
        }
        Fact::History(events) => report.history.events().len() == events as usize,
    }
}

/// The state of a process, if there is such a process.
pub(crate) fn state_of(report: &Report, process: u8) -> Option<ProcessState>
    ensures { result ≡ slice_get report.now.states.items process }
{
    report.states.as_slice().get(process as usize).copied()
}

/// Whether a simulator has crashed.
pub(crate) fn has_crashed(report: &Report, simulator: u8) -> bool
    ensures { result ≡ list_any (λ crashed. crashed == simulator) report.now.crashed.items }
{
    report.crashed.as_slice().contains(&simulator)
}

/// What a simulator had decided, if there is such a simulator.
pub(crate) fn decision_of(reported: &Reported, simulator: u8) -> Option<Option<u32>>
    ensures { result ≡ decision_of reported.now simulator }
{
    reported
        .decisions
        .as_slice()
        .get(simulator as usize)
        .copied()
}

/// The input that a process had, if there is such a process.
pub(crate) fn reported_input(reported: &Reported, process: u8) -> Option<Option<u32>>
    ensures { result ≡ reported_input reported.now process }
{
    reported.inputs.as_slice().get(process as usize).copied()
}
