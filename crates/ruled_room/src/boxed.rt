//! A sweep with a place of its own in memory.
ghost use Rattle.std.specs.Prelude.{◌≡◌, ◌≢◌, ◌⊎◌, ◌<◌, ◌≤◌, IfOk};
ghost use Rattle.simulator.specs.Moves.{IsOperation, move_of};
ghost use Rattle.simulator.specs.Ranges.{IsMind};
ghost use Rattle.simulator.specs.Runs.{Runs};
ghost use Rattle.simulator.specs.Sweeps.{quiet_after, ready_of};
ghost use Rattle.simulator.specs.declared.turn.Turn.TheVariants.{Still};
ghost use Rattle.room_core.specs.Calls.{woken};

use room_spec::Spec;
use simulator::{Memory, Mind, Ready, Sweep, Turn};
use std::alloc::{AllocError, Global};
use std::marker::Model;

/// A sweep that stays where it is in memory while the simulator goes from hand to hand.
#[derive(Drop)]
pub(crate) struct BoxedSweep {
    sweep: Box<Sweep>,
}

impl Model for BoxedSweep {
    ghost use Rattle.simulator.specs.Sweeps.{SweepState};

    ghost Value = { SweepState };

    ghost view = { λ b. b.sweep.value };
}

impl BoxedSweep {
    pub(crate) fn new(alloc: Global, sweep: Sweep) -> Result<BoxedSweep, AllocError>
        ensures { IfOk result (λ boxed. boxed ≡ sweep) }
    {
        Ok(BoxedSweep {
            sweep: Box::new(alloc, sweep)?,
        })
    }

    pub(crate) fn mind(&self) -> &Mind
        ensures { result.now ≡ self.now.mind }
    {
        self.sweep.mind()
    }

    pub(crate) fn ready(&self, spec: &Spec) -> Ready
        ensures { result ≡ ready_of spec.now self.now.mind self.now.quiet }
    {
        self.sweep.ready(spec)
    }

    /// Takes up to `most` atomic steps, each operation by the memory, until a turn ends, and counts the turn.
    #[inline(always)]
    pub(crate) fn run_with<C, M: Memory<C>>(
        &mut self,
        spec: &Spec,
        most: u64,
        context: &C,
        memory: &mut M,
    ) -> (u64, Turn)
        requires is_mind { IsMind spec.now self.old.mind }
        requires operation { IsOperation (move_of spec.now self.old.mind) }
        requires serves { M.serves memory.old context.now spec.now self.old.mind }
        ensures runs { Runs M.does spec.now memory.old self.old.mind result.0 memory.new self.new.mind result.1 }
        ensures quiet { self.new.quiet ≡ quiet_after result.1 self.old.quiet }
        ensures most { result.0 ≤ most }
        ensures some { 0 < most → 0 < result.0 }
        ensures ended { (result.0 ≡ most) ⊎ (result.1 ≢ Still) }
        ensures is_mind { IsMind spec.now self.new.mind }
    {
        let (taken, turn) = self.sweep.mind_mut().run_with(spec, most, context, memory);
        self.sweep.note(turn);
        (taken, turn)
    }

    pub(crate) fn wake(&mut self)
        ensures { self.new ≡ woken self.old }
    {
        self.sweep.wake();
    }

    pub(crate) fn into_inner(self) -> Sweep
        ensures { result ≡ self }
    {
        Box::into_inner(self.sweep)
    }
}
