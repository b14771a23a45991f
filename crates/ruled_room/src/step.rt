//! A simulator that was given away, and its steps.
ghost use Rattle.std.specs.Prelude.{◌≡◌, ℕ, ◌<◌};
ghost use Rattle.room_spec.specs.declared.spec.TheConstants.{MAX_SIMULATORS};
ghost use Rattle.simulator.specs.Minds.{goal_at};
ghost use Rattle.simulator.specs.Quiet.{HasNoWrite};
ghost use Rattle.simulator.specs.Sweeps.{is_resting, ready_of};
ghost use Rattle.room_core.specs.Calls.{reply_when};
ghost use Rattle.room_core.specs.declared.reply.StepReply.TheVariants.{Idle};
ghost use Rattle.ruled_room.specs.Parts.{IsSweepOf, TakesStep, TakesSteps};

use crate::boxed::BoxedSweep;
use crate::room::RuledRoom;
use crate::rule::{Adds, Loads, Stores, Subtracts, View};
use atomic_table::Seat;
use room_core::StepReply;
use simulator::{Memory, Mind, Move, Ready};
use std::marker::Model;

/// One simulator, which any thread may step. What it has in mind is its own: no other thread sees it.
/// Proofs also see which operations it has done since its room began, and what they answered.
#[derive(Drop)]
pub struct Simulator {
    pub(crate) seat: Seat<(), View>,
    pub(crate) sweep: BoxedSweep,
    pub(crate) number: usize,
}

impl Model for Simulator {
    ghost use Rattle.std.specs.Prelude.{◌≡◌, []};
    ghost use Rattle.std.specs.Coded.{codes};
    ghost use Rattle.protocol_lang.specs.Codes.{expression_code};
    ghost use Rattle.ruled_room.specs.Parts.{IsSweepOf, SimulatorData};
    ghost use Rattle.ruled_room.specs.Views.{done_by, only, progress_in};

    ghost Value = { SimulatorData };

    ghost coded = { Prim.hlevel (codes, expression_code) };

    ghost view = { λ s. record {
      room = record { table = s.seat.table_id; spec = s.seat.me.0.spec };
      number = s.number;
      sweep = s.sweep;
      operations = done_by (progress_in s.seat.me.0 s.number);
    } };

    // Its seat has its mind, and no other.
    ghost invariant = { λ s.
        (s.seat.me.0.held ≡ only s.number (record { mind = s.sweep.mind; operations = done_by (progress_in s.seat.me.0 s.number) })) ×
        (s.seat.me.1 ≡ []) × IsSweepOf s.seat.me.0.spec s.number s.sweep };
}

impl Simulator {
    /// What it has in mind.
    pub fn mind(&self) -> &Mind
        ensures value { result.now ≡ self.now.sweep.mind }
        ensures sweep { IsSweepOf self.now.room.spec self.now.number self.now.sweep }
    {
        self.sweep.mind()
    }

    /// Whether it is between two turns.
    pub fn resting(&self) -> bool
        ensures { result ≡ is_resting self.now.sweep.mind.line }
    {
        self.sweep.mind().resting()
    }

    /// Which simulator of the room it is, counted from 0.
    pub fn number(&self) -> usize
        ensures value { result ≡ self.now.number }
        ensures small { result < MAX_SIMULATORS }
        // It is a simulator of the room: its mind is one of that number, and its quiet count is one of that mind.
        ensures sweep { IsSweepOf self.now.room.spec self.now.number self.now.sweep }
    {
        self.number
    }

    /// Takes one atomic step, if it has one to take: one operation on one word of the room, the one
    /// that its mind wants next, whose answer the mind takes in. It waits for no other simulator and takes no
    /// memory. At `Idle` its quiet turns are counted anew; at `OutOfTurns` nothing changes. No other
    /// reply comes.
    pub fn step(&mut self, room: &RuledRoom) -> StepReply
        requires { self.old.room ≡ room.now }
        ensures reply { result ≡ reply_when (ready_of self.old.room.spec self.old.sweep.mind self.old.sweep.quiet) }
        ensures step { TakesStep self.old result self.new }
        // An idle simulator has no write left to make: each process is at an ask, or is done or spent.
        ensures waits { result ≡ Idle → (process : ℕ) → HasNoWrite (goal_at self.new.sweep.mind.goals process) }
    {
        self.run(room, 1)
    }

    /// Takes atomic steps as `step` does, up to `most`, if it has one to take: those of one turn, the
    /// open one or else the next, and none after its end.
    pub fn run(&mut self, room: &RuledRoom, most: u64) -> StepReply
        requires { self.old.room ≡ room.now }
        ensures reply { result ≡ reply_when (ready_of self.old.room.spec self.old.sweep.mind self.old.sweep.quiet) }
        ensures steps { TakesSteps most self.old result self.new }
        ensures waits { result ≡ Idle → (process : ℕ) → HasNoWrite (goal_at self.new.sweep.mind.goals process) }
    {
        match self.sweep.ready(&room.spec) {
            Ready::Step => {
                self.sweep.run_with(&room.spec, most, room, &mut self.seat);
                StepReply::Stepped
            }
            Ready::Idle => {
                self.sweep.wake();
                StepReply::Idle
            }
            Ready::OutOfTurns => StepReply::OutOfTurns,
        }
    }
}

/// The seat of a simulator does its operations on the table of the room.
impl Memory<RuledRoom> for Seat<(), View> {
    ghost use Rattle.std.specs.Prelude.{◌≡◌, []};
    ghost use Rattle.std.proofs.Common.{◌∙◌};
    ghost use Rattle.ruled_room.specs.Views.{noted};
    ghost use Rattle.ruled_room.specs.Seats.{IsSeatOf, seat_goes_on};

    ghost serves = { λ seat room spec mind. (seat.table_id ≡ room.table) × (room.spec ≡ spec) × IsSeatOf spec mind seat.me };

    // The operation is noted in the seat with its answer, and no other is.
    ghost does = { λ seat next answer after. (after.table_id ≡ seat.table_id) × (after.id ≡ seat.id) × (after.me ≡ (noted next answer seat.me.0, [])) };

    #[inline(always)]
    fn operate(&mut self, room: &RuledRoom, next: Move) -> u64 {
        let table = &room.table.shared;
        match next {
            Move::Load(index) => table.load::<Loads>(self, index),
            Move::Store(index, number) => {
                table.store::<Stores>(self, index, number);
                number
            }
            Move::Add(index, number) => table.fetch_add::<Adds>(self, index, number),
            Move::Sub(index, number) => table.fetch_sub::<Subtracts>(self, index, number),
            Move::Finished | Move::OutOfTurns => 0,
        }
    }

    ghost goes_on = { λ seat room spec mind answer next served is_mind operation done.
        (done.0 ∙ served.0, served.1, seat_goes_on spec mind answer seat.me next.me served.2 done.2) };
}
