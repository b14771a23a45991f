//! A run of a room's protocol, step by step.
ghost use Rattle.std.specs.Prelude.{◌≡◌, ◌<◌, ℕ, [], OnOk, length, slice_index_or, slice_set};
ghost use Rattle.room_spec.specs.Rooms.{processes};
ghost use Rattle.run_search.specs.Nodes.{GoesAlone, IsRunTo, Moves};
ghost use Rattle.run_search.specs.States.{blank, state_of};
ghost use Rattle.run_search.specs.Steps.{lasts};
ghost use Rattle.run_search.specs.declared.local_state.LocalState.{LocalState as LocalValue};

use crate::local_state::{LocalState, State};
use crate::step::{event_due, moved, opening, row_of};
use room_spec::Spec;
use std::alloc::{AllocError, Global};
use transcript::Event;

/// The events of a run so far, and the state after them.
#[derive(Drop)]
pub struct Run {
    pub events: Vec<Event>,
    pub state: State,
}

impl Run {
    /// The run without events.
    pub fn new(alloc: Global, spec: &Spec) -> Run
        ensures run { IsRunTo spec.now result.events.items result.state.items }
        ensures first { result.state.items ≡ state_of spec.now [] }
    {
        Run {
            events: Vec::new(alloc),
            state: opening(spec),
        }
    }

    /// Process `p` takes its next step.
    pub fn take(&mut self, spec: &Spec, p: usize) -> Result<(), AllocError>
        requires run { IsRunTo spec.now self.old.events.items self.old.state.items }
        requires process { p < processes spec.now }
        requires due { (new : LocalValue) × Moves spec.now (lasts self.old.state.items) p (slice_index_or self.old.state.items p blank) new }
        ensures run { OnOk result (IsRunTo spec.now self.new.events.items self.new.state.items) }
        ensures state { OnOk result ((new : LocalValue) → Moves spec.now (lasts self.old.state.items) p (slice_index_or self.old.state.items p blank) new →
            self.new.state.items ≡ slice_set self.old.state.items p new) }
    {
        let row = row_of(&self.state);
        let Some(event) = event_due(&self.state, p) else {
            unreachable!() // a step is left for it to take
        };
        let Some(local) = moved(&self.state.as_slice()[p], &row, spec, p) else {
            unreachable!() // the same
        };
        self.events.push(event)?;
        set(&mut self.state, p, local);
        Ok(())
    }

    /// Process `p` goes on to this local state, by steps that leave the last writes as they are.
    fn go_alone(&mut self, spec: &Spec, p: usize, to: LocalState) -> Result<(), AllocError>
        requires run { IsRunTo spec.now self.old.events.items self.old.state.items }
        requires process { p < processes spec.now }
        requires goes { (steps : ℕ) × GoesAlone spec.now (lasts self.old.state.items) p steps (slice_index_or self.old.state.items p blank) to }
        ensures run { OnOk result (IsRunTo spec.now self.new.events.items self.new.state.items) }
        ensures state { OnOk result (self.new.state.items ≡ slice_set self.old.state.items p to) }
    {
        while self.state.as_slice()[p] != to {
            self.take(spec, p)?;
        }
        Ok(())
    }

    /// Each process goes on to its local state in this state, by steps that leave the last writes as they are.
    pub fn go_to(&mut self, spec: &Spec, to: &State) -> Result<(), AllocError>
        requires run { IsRunTo spec.now self.old.events.items self.old.state.items }
        requires width { length to.now.items ≡ processes spec.now }
        requires goes { (q : ℕ) → q < processes spec.now →
            (steps : ℕ) × GoesAlone spec.now (lasts self.old.state.items) q steps (slice_index_or self.old.state.items q blank) (slice_index_or to.now.items q blank) }
        ensures run { OnOk result (IsRunTo spec.now self.new.events.items self.new.state.items) }
        ensures state { OnOk result (self.new.state.items ≡ to.now.items) }
    {
        for p in 0..spec.n() {
            self.go_alone(spec, p, to.as_slice()[p])?;
        }
        Ok(())
    }
}

/// Puts process `p` of a state into this local state.
fn set(state: &mut State, p: usize, local: LocalState)
    requires { p < length state.old.items }
    ensures { state.new.items ≡ slice_set state.old.items p local }
{
    state.as_mut_slice()[p] = local;
}
