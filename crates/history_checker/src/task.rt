//! Whether an agreement task is kept.
ghost use Rattle.std.specs.Prelude.{◌≡◌, ◌↔◌, ◌≤◌, [], ℕ, IsOk, Err, Some};
ghost use Rattle.transcript.specs.Tasks.{IsFirstExcess, KeepsOwnTask, KeepsTask};
ghost use Rattle.history_checker.specs.Tasks.{Allows, HasDecided};
ghost use Rattle.room_spec.specs.declared.spec.TheConstants.{MAX_AGREED};

use arrayvec::ArrayVec;
use room_spec::{MAX_AGREED, Spec};
use std::marker::Model;
use transcript::Event;

/// The different values that were decided, while the task allows them.
#[derive(Drop)]
pub struct Decided {
    values: ArrayVec<u32, MAX_AGREED>,
}

impl Model for Decided {
    ghost use Rattle.std.specs.Prelude.{ℕ, List};

    ghost Value = { List ℕ };

    ghost view = { λ decided. decided.values.items };
}

impl Decided {
    /// Nothing was decided.
    pub fn new() -> Decided
        ensures { result ≡ [] }
    {
        Decided {
            values: ArrayVec::new(),
        }
    }

    /// Takes one more decision in, if a task of at most `most` values allows it.
    #[tactic(auto, using(crate::proofs::Tallies::refuses))]
    fn take(&mut self, spec: &Spec, most: usize, v: u32) -> bool
        requires { most ≤ MAX_AGREED }
        ensures { Allows spec.now most v self.old result self.new }
    {
        if !spec.has_input(v) {
            return false;
        }
        if self.values.contains(&v) {
            return true;
        }
        if self.values.len() >= most {
            return false;
        }
        self.values.push(v);
        true
    }

    /// Takes an event in, if a task of at most `most` values allows it. Those that decide nothing change nothing.
    pub fn follow(&mut self, spec: &Spec, most: usize, event: &Event) -> bool
        requires { most ≤ MAX_AGREED }
        ensures { HasDecided spec.now most event.now self.old result self.new }
    {
        match event {
            Event::Decide { v, .. } => self.take(spec, most, *v),
            Event::Write { .. } => true,
            Event::Snap { .. } => true,
        }
    }
}

/// Whether the decisions keep the room's task: each is of an input, and there are no more different ones than it allows. Else
/// the index, from 0, of the first event that decides another value. A room that has no task has none to break. It takes no
/// memory.
pub fn check_task(spec: &Spec, events: &[Event]) -> Result<(), usize>
    ensures keeps { IsOk result ↔ KeepsOwnTask spec.now events.now }
    ensures first { (t : ℕ) → (result ≡ Err t) ↔ ((most : ℕ) × (spec.now.task ≡ Some most) × IsFirstExcess spec.now most events.now t) }
{
    match spec.task() {
        None => Ok(()),
        Some(most) => check_agreement(spec, usize::from(most), events),
    }
}

/// The same of a task that allows `most` different values.
fn check_agreement(spec: &Spec, most: usize, events: &[Event]) -> Result<(), usize>
    requires { most ≤ MAX_AGREED }
    ensures keeps { IsOk result ↔ KeepsTask spec.now most events.now }
    ensures first { (t : ℕ) → (result ≡ Err t) ↔ IsFirstExcess spec.now most events.now t }
{
    let mut decided = Decided::new();
    for (t, event) in events.iter().enumerate() {
        if !decided.follow(spec, most, event) {
            return Err(t);
        }
    }
    Ok(())
}
