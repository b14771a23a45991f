//! Runs to the states that nodes cover.
ghost use Rattle.std.specs.Prelude.{◌≡◌, ◌<◌, [], ℕ, IfOk, OnOk, Some, length, slice_get, slice_index_or};
ghost use Rattle.room_spec.specs.Rooms.{processes};
ghost use Rattle.run_search.specs.Nodes.{AreGathered, Covers, GoesAlone, IsRunTo, Node as NodeValue};
ghost use Rattle.run_search.specs.States.{blank, state_of};
ghost use Rattle.run_search.specs.Steps.{lasts};

use crate::local_state::State;
use crate::node::Node;
use crate::run::Run;
use room_spec::Spec;
use std::alloc::{AllocError, Global};
use transcript::Event;

/// The events of a run that leads to this state, which the node of this index covers.
///
/// # Errors
///
/// An allocation that fails.
pub fn run_to(
    alloc: Global,
    spec: &Spec,
    nodes: &[Node],
    index: usize,
    state: &State,
) -> Result<Vec<Event>, AllocError>
    requires gathered { AreGathered spec.now nodes.now }
    requires there { index < length nodes.now }
    requires covers { (node : NodeValue) → slice_get nodes.now index ≡ Some node → Covers spec.now node state.now.items }
    ensures { IfOk result (λ events. IsRunTo spec.now events.items state.now.items) }
{
    let mut run = Run::new(alloc, spec);
    enter(spec, nodes, index, state, &mut run)?;
    run.go_to(spec, state)?;
    Ok(run.events)
}

/// Takes a run from its beginning into the node of this index, to where each process goes on alone to its local state in this state.
fn enter(
    spec: &Spec,
    nodes: &[Node],
    index: usize,
    state: &State,
    run: &mut Run,
) -> Result<(), AllocError>
    requires gathered { AreGathered spec.now nodes.now }
    requires there { index < length nodes.now }
    requires covers { (node : NodeValue) → slice_get nodes.now index ≡ Some node → Covers spec.now node state.now.items }
    requires run { IsRunTo spec.now run.old.events.items run.old.state.items }
    requires first { run.old.state.items ≡ state_of spec.now [] }
    ensures run { OnOk result (IsRunTo spec.now run.new.events.items run.new.state.items) }
    ensures goes { OnOk result ((q : ℕ) → q < processes spec.now →
        (steps : ℕ) × GoesAlone spec.now (lasts run.new.state.items) q steps (slice_index_or run.new.state.items q blank) (slice_index_or state.now.items q blank)) }
{
    if index == 0 {
        return Ok(());
    }
    let node = &nodes[index];
    let origin = node.origin();
    let from = origin.from as usize;
    let before = nodes[from].before(spec, node, state);
    enter(spec, nodes, from, &before, run)?;
    run.go_to(spec, &before)?;
    run.take(spec, usize::from(origin.process))?;
    Ok(())
}
