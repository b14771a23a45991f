//! Outcomes of a room whose own line isn't read yet.
ghost use Rattle.std.specs.Prelude.{◌≡◌, ◌++◌, ◌∷◌, ◌≤◌, ◌^◌, [], IfNone, IfSome, OnOk};
ghost use Rattle.std.specs.List.{sum_by};

use room_sample::Example;
use std::alloc::{AllocError, Global};

/// Outcomes of a room, in the order in which they are listed.
#[derive(Drop)]
pub(crate) struct Listed {
    /// The room, if it has an outcome.
    pub(crate) name: String,
    /// Whether schedules are left out.
    pub(crate) brief: bool,
    pub(crate) outcomes: Vec<Example>,
}

impl Listed {
    /// No outcomes.
    pub(crate) fn new(alloc: Global) -> Listed
        ensures { result.outcomes.items ≡ [] }
    {
        Listed::begun(alloc, String::new(alloc), false)
    }

    /// No outcomes yet of this room.
    pub(crate) fn begun(alloc: Global, name: String, brief: bool) -> Listed
        ensures name { result.name ≡ name }
        ensures brief { result.brief ≡ brief }
        ensures none { result.outcomes.items ≡ [] }
    {
        Listed {
            name,
            brief,
            outcomes: Vec::new(alloc),
        }
    }

    /// Adds an outcome after the others.
    pub(crate) fn add(&mut self, one: Example) -> Result<(), AllocError>
        ensures outcomes { OnOk result (self.new.outcomes.items ≡ self.old.outcomes.items ++ one ∷ []) }
        ensures name { self.new.name ≡ self.old.name }
        ensures brief { self.new.brief ≡ self.old.brief }
    {
        self.outcomes.push(one)?;
        Ok(())
    }
}

/// How many schedules led to these outcomes, if a number of 32 bits says it.
pub(crate) fn schedules_in(outcomes: &[Example]) -> Option<u32>
    ensures some { IfSome result (λ schedules. sum_by (λ one. one.times) outcomes.now ≡ schedules) }
    ensures many { IfNone result (2 ^ 32 ≤ sum_by (λ one. one.times) outcomes.now) }
{
    let mut schedules: u32 = 0;
    for one in outcomes {
        schedules = schedules.checked_add(one.times)?;
    }
    Some(schedules)
}
