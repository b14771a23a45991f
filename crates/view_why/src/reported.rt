//! A room, and what a transcript says of it.
ghost use Rattle.std.specs.Prelude.{◌≡◌, ◌↔◌, ◌+◌, ◌<◌, ◌≤◌, ◌==◌, ◌∷◌, ◌++◌, [], ℕ, List, MatchBool, Some, IsOk, IfErr, IfNone, IfOk, IfSome, Err, OnOk, OnErr, false, length, map, slice_get, true};
ghost use Rattle.std.specs.List.{list_any};
ghost use Rattle.room_spec.specs.Rooms.{RoomSpec, is_reduction};
ghost use Rattle.transcript.specs.Tasks.{KeepsOwnTask, MayBeDecided, decided_in, different};
ghost use Rattle.transcript.specs.declared.event.Event.{Event as EventValue};
ghost use Rattle.transcript.specs.declared.event.Event.TheVariants.{Decide};
ghost use Rattle.decision_tasks.specs.Tasks.{KeepsDecisions};
ghost use Rattle.view_why.specs.Keeping.{IsDisallowed, IsWellRoom};
ghost use Rattle.view_why.specs.Allowing.{IsAllowedAt};
ghost use Rattle.view_why.specs.Reported.{AreDecidedBefore, IsExcess, IsLineBreak, IsRunIn, given_inputs, judged_room, line_of_write};

use crate::inputs::task_inputs;
use decision_tasks::{DecisionTask, Moment, first_broken};
use history_checker::{Reason, check_reduction, check_task, why};
use room_spec::Spec;
use std::alloc::{AllocError, Global};
use std::marker::Model;
use transcript::Event;

/// A room, and its events in a transcript, each with its line.
#[derive(Drop)]
pub struct Reported {
    pub spec: Spec,
    events: Vec<Event>,
    lines: Vec<u64>,
}

impl Model for Reported {
    ghost use Rattle.std.specs.Prelude.{◌≡◌, length};
    ghost use Rattle.std.specs.Coded.{codes};
    ghost use Rattle.protocol_lang.specs.Codes.{expression_code};
    ghost use Rattle.view_why.specs.Reported.{ReportedRoom};

    ghost Value = { ReportedRoom };

    ghost coded = { Prim.hlevel (codes, expression_code) };

    ghost view = { λ reported. record { spec = reported.spec; events = reported.events.items; lines = reported.lines.items } };

    ghost invariant = { λ reported. length reported.lines.items ≡ length reported.events.items };
}

/// The first event with which a room's events are no run.
#[derive(Clone, Copy)]
pub struct LineBreak {
    /// The index, from 0, of the event among those of its room.
    pub at: usize,
    /// Its line.
    pub line: u64,
    /// Why it may not follow those before it; nothing if it is because a reduction's simulators have no inputs from which it may.
    pub reason: Option<Reason>,
    /// The line of the write that the reason rests on, if it rests on one.
    pub earlier: Option<u64>,
}

/// The first event that decides what its room's task doesn't allow.
#[derive(Clone, Copy)]
pub struct Excess {
    /// The index, from 0, of the event among those of its room.
    pub at: usize,
    /// The event's line.
    pub line: u64,
    /// How many different values the task allows, 1 to 16.
    pub most: u8,
}

/// The first event after which what was decided is not what a task of one's own allows.
#[derive(Drop)]
pub struct Disallowed {
    /// The event's line.
    pub line: u64,
    /// The moment after it.
    pub moment: Moment,
}

/// A value that was decided.
#[derive(Clone, Copy)]
pub struct Decision {
    pub value: u32,
    /// The line of the first event that decides it.
    pub line: u64,
}

impl Reported {
    /// A room without events.
    pub fn of(alloc: Global, spec: Spec) -> Reported
        ensures { result ≡ record { spec = spec; events = []; lines = [] } }
    {
        Reported {
            spec,
            events: Vec::new(alloc),
            lines: Vec::new(alloc),
        }
    }

    /// Adds an event, which is on this line.
    pub fn tell(&mut self, event: Event, line: u64) -> Result<(), AllocError>
        ensures reported { OnOk result (self.new ≡ record self.old { events = self.old.events ++ event ∷ []; lines = self.old.lines ++ line ∷ [] }) }
        ensures err { OnErr result (self.new ≡ self.old) }
    {
        self.lines.push(line)?;
        if self.events.push(event).is_err() {
            let _ = self.lines.pop();
            return Err(AllocError);
        }
        Ok(())
    }

    /// Why the events are no run.
    pub fn why(&self) -> Result<(), LineBreak>
        ensures run { IsOk result ↔ IsRunIn self.now.spec self.now.events }
        ensures first { (broken : LineBreak) → (result ≡ Err broken) ↔ IsLineBreak self.now broken }
    {
        if self.spec.is_reduction() {
            return self.why_no_input();
        }
        self.why_ordinary()
    }

    /// Why the events of an ordinary room are no run.
    fn why_ordinary(&self) -> Result<(), LineBreak>
        requires { is_reduction self.now.spec ≡ false }
        ensures run { IsOk result ↔ IsRunIn self.now.spec self.now.events }
        ensures first { (broken : LineBreak) → (result ≡ Err broken) ↔ IsLineBreak self.now broken }
    {
        match why(&self.spec, self.events.as_slice()) {
            Ok(()) => Ok(()),
            Err(broken) => Err(LineBreak {
                at: broken.at,
                line: self.lines[broken.at],
                reason: Some(broken.reason),
                earlier: self.line_of_write(broken.reason),
            }),
        }
    }

    /// The first event of a reduction that may follow those before it from none of the simulators' own inputs.
    fn why_no_input(&self) -> Result<(), LineBreak>
        requires { is_reduction self.now.spec ≡ true }
        ensures run { IsOk result ↔ IsRunIn self.now.spec self.now.events }
        ensures first { (broken : LineBreak) → (result ≡ Err broken) ↔ IsLineBreak self.now broken }
    {
        match check_reduction(&self.spec, self.events.as_slice()) {
            Ok(()) => Ok(()),
            Err(at) => Err(LineBreak {
                at,
                line: self.lines[at],
                reason: None,
                earlier: None,
            }),
        }
    }

    /// The event of this index, from 0.
    pub fn event(&self, at: usize) -> &Event
        requires { at < length self.now.events }
        ensures { slice_get self.now.events at ≡ Some result.now }
    {
        &self.events[at]
    }

    /// Whether the decisions keep the room's task, if it has one: in a reduction by the simulators' own inputs. Else the first event that
    /// decides what the task doesn't allow.
    pub fn excess(&self, alloc: Global) -> Result<Result<(), Excess>, AllocError>
        ensures keeps { IfOk result (λ found. IsOk found ↔ KeepsOwnTask (judged_room self.now.spec) self.now.events) }
        ensures first { IfOk result (λ found. IfErr found (IsExcess self.now)) }
    {
        if self.spec.is_reduction() {
            return self.excess_of_own(alloc);
        }
        Ok(self.excess_ordinary())
    }

    /// The same of an ordinary room, by its processes' inputs.
    fn excess_ordinary(&self) -> Result<(), Excess>
        requires { is_reduction self.now.spec ≡ false }
        ensures keeps { IsOk result ↔ KeepsOwnTask (judged_room self.now.spec) self.now.events }
        ensures first { IfErr result (IsExcess self.now) }
    {
        let Some(most) = self.spec.task() else {
            return Ok(());
        };
        match check_task(&self.spec, self.events.as_slice()) {
            Ok(()) => Ok(()),
            Err(at) => Err(Excess {
                at,
                line: self.lines[at],
                most,
            }),
        }
    }

    /// The same by the simulators' own inputs, event by event.
    fn excess_of_own(&self, alloc: Global) -> Result<Result<(), Excess>, AllocError>
        ensures keeps { IfOk result (λ found. IsOk found ↔ KeepsOwnTask (judged_room self.now.spec) self.now.events) }
        ensures first { IfOk result (λ found. IfErr found (IsExcess self.now)) }
    {
        let Some(most) = self.spec.task() else {
            return Ok(Ok(()));
        };
        let inputs = task_inputs(alloc, &self.spec)?;
        let mut before = Vec::new(alloc);
        for at in 0..self.events.len() {
            if !self.is_allowed(most, inputs.as_slice(), before.as_slice(), at) {
                return Ok(Err(Excess {
                    at,
                    line: self.lines[at],
                    most,
                }));
            }
            self.note_decision(&mut before, at)?;
        }
        Ok(Ok(()))
    }

    /// Whether a task of at most `most` of these inputs allows the event of this index after these decisions.
    fn is_allowed(&self, most: u8, inputs: &[u32], before: &[Decision], at: usize) -> bool
        requires at { at < length self.now.events }
        requires inputs { inputs.now ≡ given_inputs self.now.spec }
        requires before { AreDecidedBefore self.now at before.now }
        ensures { IsAllowedAt self.now most at result }
    {
        match &self.events[at] {
            Event::Decide { v, .. } => may_decide(most, inputs, before, *v),
            Event::Write { .. } => true,
            Event::Snap { .. } => true,
        }
    }

    /// Whether the room is an ordinary one whose events are a run that keeps its task, if it has one.
    #[tactic(auto, using(crate::proofs::Owning::well_ordinary))]
    pub fn is_well(&self) -> bool
        ensures { (result ≡ true) ↔ IsWellRoom self.now }
    {
        if self.spec.is_reduction() {
            return false;
        }
        self.why_ordinary().is_ok() && self.excess_ordinary().is_ok()
    }

    /// The first event after which what was decided is not what the task allows, if there is one.
    pub fn disallowed(&self, task: &DecisionTask) -> Option<Disallowed>
        ensures none { IfNone result (KeepsDecisions task.now self.now.spec self.now.events) }
        ensures some { IfSome result (IsDisallowed task.now self.now) }
    {
        match first_broken(task, &self.spec, self.events.as_slice()) {
            None => None,
            Some(moment) => Some(Disallowed {
                line: self.lines[moment.at],
                moment,
            }),
        }
    }

    /// The different values that were decided before the event of this index, in the order of their first decisions.
    pub fn decided_before(&self, alloc: Global, at: usize) -> Result<Vec<Decision>, AllocError>
        requires { at ≤ length self.now.events }
        ensures { IfOk result (λ before. AreDecidedBefore self.now at before.items) }
    {
        let mut before = Vec::new(alloc);
        for index in 0..at {
            self.note_decision(&mut before, index)?;
        }
        Ok(before)
    }

    /// Adds the value that the event of this index decides, unless an event before it decided the same.
    fn note_decision(&self, before: &mut Vec<Decision>, index: usize) -> Result<(), AllocError>
        requires { index < length self.now.events }
        ensures { OnOk result (AreDecidedBefore self.now index before.old.items → AreDecidedBefore self.now (index + 1) before.new.items) }
    {
        match &self.events[index] {
            Event::Decide { v, .. } => self.note_value(before, index, *v),
            Event::Write { .. } => Ok(()),
            Event::Snap { .. } => Ok(()),
        }
    }

    /// The same of an event that decides this value.
    fn note_value(&self, before: &mut Vec<Decision>, index: usize, v: u32) -> Result<(), AllocError>
        requires { (p : ℕ) × (slice_get self.now.events index ≡ Some (Decide p v)) }
        ensures { OnOk result (AreDecidedBefore self.now index before.old.items → AreDecidedBefore self.now (index + 1) before.new.items) }
    {
        if is_among(before.as_slice(), v) {
            return Ok(());
        }
        before.push(Decision {
            value: v,
            line: self.lines[index],
        })?;
        Ok(())
    }

    /// The line of the write that the reason rests on.
    fn line_of_write(&self, reason: Reason) -> Option<u64>
        ensures { result ≡ line_of_write self.now.lines (Some reason) }
    {
        match reason {
            Reason::WrongEntry { written, .. } => match written {
                Some(last) => self.lines.get(last.at).copied(),
                None => None,
            },
            _ => None,
        }
    }
}

/// Whether a task of at most `most` of these inputs allows this decision after these.
#[tactic(auto, using(crate::proofs::Allowing::refuses_input, crate::proofs::Allowing::allows_room, crate::proofs::Allowing::refuses_over, crate::proofs::Allowing::by_among))]
fn may_decide(most: u8, inputs: &[u32], before: &[Decision], v: u32) -> bool
    ensures { (spec : RoomSpec) (events : List EventValue) → spec.inputs ≡ inputs.now → map (λ one. one.value) before.now ≡ different (decided_in events)
        → MatchBool result (MayBeDecided spec most events v) (MayBeDecided spec most events v → ⊥) }
{
    if !inputs.contains(&v) {
        return false;
    }
    let most = usize::from(most);
    if before.len() < most {
        return true;
    }
    if before.len() > most {
        return false;
    }
    is_among(before, v)
}

/// Whether one of these decisions is of this value.
fn is_among(decisions: &[Decision], value: u32) -> bool
    ensures { result ≡ list_any (λ one. one.value == value) decisions.now }
{
    decisions.iter().any(|one| one.value == value)
}
