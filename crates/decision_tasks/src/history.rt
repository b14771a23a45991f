//! Whether the events of one run keep a task of one's own.
ghost use Rattle.std.specs.Prelude.{◌≡◌, IfNone, IfSome, false, length};
ghost use Rattle.room_spec.specs.Rooms.{processes};
ghost use Rattle.transcript.specs.Tasks.{decided_by};
ghost use Rattle.decision_tasks.specs.Decisions.{noted, none_decided};
ghost use Rattle.decision_tasks.specs.Tasks.{AreAllowed, IsFirstBroken, IsFirstRefused, KeepsDecisions};

use crate::task::DecisionTask;
use protocol_lang::View;
use room_spec::Spec;
use transcript::Event;

/// A moment of a run at which what was decided is not what a task allows.
#[derive(Drop)]
pub struct Moment {
    /// The index, from 0, of the event after which it is so.
    pub at: usize,
    /// What each process has decided then, if it has.
    pub decisions: View,
    /// The first process, by number, for which no line holds.
    pub process: usize,
    /// What it has decided.
    pub value: u32,
}

/// The first event of a run after which what was decided is not what the task allows, if there is one.
pub fn first_broken(task: &DecisionTask, spec: &Spec, events: &[Event]) -> Option<Moment>
    ensures none { IfNone result (KeepsDecisions task.now spec.now events.now) }
    ensures some { IfSome result (IsFirstBroken task.now spec.now events.now) }
{
    let mut decisions = none_decided(spec);
    for at in 0..events.len() {
        if let Some((process, value)) = refused_after(task, spec, &mut decisions, &events[at]) {
            return Some(Moment {
                at,
                decisions,
                process,
                value,
            });
        }
    }
    None
}

/// What was decided before the first event.
fn none_decided(spec: &Spec) -> View
    ensures { result.items ≡ none_decided (processes spec.now) }
{
    let mut decisions = View::new();
    for _ in 0..spec.n() {
        decisions.push(None);
    }
    decisions
}

/// Notes what an event decides. Gives the first process that has then decided what no line allows, and what it has decided, if there is one.
fn refused_after(
    task: &DecisionTask,
    spec: &Spec,
    decisions: &mut View,
    event: &Event,
) -> Option<(usize, u32)>
    requires width { length decisions.old.items ≡ processes spec.now }
    requires before { AreAllowed task.now spec.now.inputs decisions.old.items }
    ensures noted { decisions.new.items ≡ noted decisions.old.items event.now }
    ensures none { IfNone result (AreAllowed task.now spec.now.inputs decisions.new.items) }
    ensures some { IfSome result (λ refused. IsFirstRefused task.now spec.now.inputs decisions.new.items refused.0 refused.1) }
{
    if !note(decisions, event) {
        return None;
    }
    task.first_refused(spec, decisions)
}

/// Notes what an event decides. Gives whether that changes what is noted.
fn note(decisions: &mut View, event: &Event) -> bool
    ensures noted { decisions.new.items ≡ noted decisions.old.items event.now }
    ensures same { result ≡ false → decisions.new.items ≡ decisions.old.items }
{
    let p = usize::from(event.process());
    let decided = decided_by(event);
    if p >= decisions.len() || decisions[p] == decided {
        return false;
    }
    decisions[p] = decided;
    true
}

/// What an event decides, if it is a decision.
fn decided_by(event: &Event) -> Option<u32>
    ensures { result ≡ decided_by event.now }
{
    match event {
        Event::Decide { v, .. } => Some(*v),
        Event::Write { .. } => None,
        Event::Snap { .. } => None,
    }
}
