//! What a goal says of a report.
ghost use Rattle.std.specs.Prelude.{◌≡◌, Some};
ghost use Rattle.view_grade.specs.Grades.{fault_text};

use std::error::Error;
use std::fmt;
use std::marker::Model;

/// A fact that a report may show.
#[derive(Clone, Copy)]
pub enum Fact {
    /// `decided J V`: process J has decided V.
    Decided { process: u8, value: u32 },
    /// `spent J`: process J is out of rounds.
    Spent(u8),
    /// `held J`: process J is blocked by a simulator that crashed in its unsafe section.
    Held(u8),
    /// `going J`: process J is none of these.
    Going(u8),
    /// `input J V`: process J has the input V; `input J none`: it has none yet.
    Input { process: u8, input: Option<u32> },
    /// `crashed I`: simulator I has crashed.
    Crashed(u8),
    /// `simulator I decided V`: simulator I has decided V.
    SimulatorDecided { simulator: u8, value: u32 },
    /// `history E`: the history has E events.
    History(u32),
}

/// How a claim is joined to those before it. `And` binds more strongly.
#[derive(Clone, Copy)]
pub enum Joint {
    And,
    Or,
}

/// A fact, or its negation.
#[derive(Clone, Copy)]
pub struct Claim {
    /// `Or` for the first claim.
    pub joint: Joint,
    /// Whether the fact has the word `not` before it.
    pub negated: bool,
    pub fact: Fact,
}

/// Claims joined by `and` and `or`.
#[derive(Drop)]
pub struct Goal {
    pub(crate) claims: Vec<Claim>,
}

impl Model for Goal {
    ghost use Rattle.std.specs.Prelude.{List};
    ghost use Rattle.view_grade.specs.declared.goal.Claim.{Claim};

    ghost Value = { List Claim };

    ghost view = { λ g. g.claims.items };
}

impl Goal {
    /// Its claims, in order.
    pub(crate) fn claims(&self) -> &[Claim]
        ensures { result.now ≡ self.now }
    {
        self.claims.as_slice()
    }
}

/// Where a text stops being a goal.
#[derive(Clone, Copy, Debug)]
pub enum GoalFault {
    /// The claim of this number, counted from 1, is none.
    NoClaim(usize),
    /// After the claim of this number, counted from 1, comes neither `and` nor `or`.
    NoJoint(usize),
}

impl fmt::Display for GoalFault {
    ghost output = { λ fault. Some (fault_text fault) };

    fn fmt<W: fmt::Write>(&self, f: &mut fmt::Formatter<W>) -> fmt::Result {
        match self {
            GoalFault::NoClaim(number) => write!(f, "claim {number} of the goal is not valid"),
            GoalFault::NoJoint(number) => write!(
                f,
                "claim {number} of the goal is followed by neither `and` nor `or`"
            ),
        }
    }
}

impl Error for GoalFault {}
