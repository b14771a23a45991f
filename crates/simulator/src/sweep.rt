//! A simulator between and in its turns.
ghost use Rattle.std.specs.Prelude.{◌≡◌, ◌<◌, ◌≤◌};
ghost use Rattle.simulator.specs.Minds.{unfinished_in};
ghost use Rattle.simulator.specs.Ranges.{IsMind};
ghost use Rattle.std.specs.Borrow.{Lends, sem};
ghost use Rattle.simulator.specs.contracts.mind.Mind.{the_row as mind_row};
ghost use Rattle.simulator.specs.contracts.sweep.Sweep.{the_row};
ghost use Rattle.simulator.specs.Sweeps.{opening_sweep, quiet_after, ready_of, with_mind};

use crate::mind::Mind;
use crate::turn::Turn;
use room_spec::Spec;
use std::marker::Model;

/// What a simulator does that is asked for a step.
#[derive(Clone, Copy, Debug, PartialEq, Eq)]
pub enum Ready {
    /// It takes one.
    Step,
    /// It is between two turns, and has asked in vain for each unfinished process since it last
    /// came further.
    Idle,
    /// It is between two turns, and has used up all that the room gives it.
    OutOfTurns,
}

/// A mind, and how many of its turns were quiet since the last useful one, 0 to 255.
#[derive(Drop)]
pub struct Sweep {
    mind: Mind,
    quiet: u8,
}

impl Model for Sweep {
    ghost use Rattle.simulator.specs.Sweeps.{SweepState};

    ghost Value = { SweepState };

    ghost view = { λ s. record { mind = s.mind; quiet = s.quiet } };
}

impl Sweep {
    /// Simulator `i` before its first step.
    pub fn new(spec: &Spec, i: usize) -> Sweep
        requires { i < spec.now.simulators }
        ensures value { result ≡ opening_sweep spec.now i }
        ensures is_mind { IsMind spec.now result.mind }
    {
        Sweep {
            mind: Mind::new(spec, i),
            quiet: 0,
        }
    }

    /// Whether it takes a step: in an open turn it does. Between two turns it is idle where its quiet
    /// turns in a row have reached the number of its unfinished processes, and else out of turns where
    /// all are used up. At `Idle` the caller calls [`wake`](Sweep::wake).
    pub fn ready(&self, spec: &Spec) -> Ready
        ensures { result ≡ ready_of spec.now self.now.mind self.now.quiet }
    {
        if !self.mind.resting() {
            return Ready::Step;
        }
        if !self.mind.more_unfinished(self.quiet) {
            return Ready::Idle;
        }
        if self.mind.has_turn_left(spec) {
            Ready::Step
        } else {
            Ready::OutOfTurns
        }
    }

    /// Counts a turn that was quiet, up to 255, and counts anew after a useful one.
    pub fn note(&mut self, turn: Turn)
        ensures { self.new ≡ record { mind = self.old.mind; quiet = quiet_after turn self.old.quiet } }
    {
        match turn {
            Turn::Still => {}
            Turn::Useful => self.quiet = 0,
            Turn::Quiet => self.quiet = self.quiet.saturating_add(1),
        }
    }

    /// Counts quiet turns anew.
    pub fn wake(&mut self)
        ensures { self.new ≡ record { mind = self.old.mind; quiet = 0 } }
    {
        self.quiet = 0;
    }

    /// What it has in mind.
    pub fn mind(&self) -> &Mind
        ensures { result.now ≡ self.now.mind }
    {
        &self.mind
    }

    /// What it has in mind, to change it. The quiet count stays.
    pub fn mind_mut(&mut self) -> &mut Mind
        ensures* writes_back { sem 𝓛 (Lends the_row mind_row self.entry result (with_mind self.old)) }
        ensures value { result.now ≡ self.old.mind }
    {
        &mut self.mind
    }
}
