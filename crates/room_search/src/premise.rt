//! What decides which outcomes are taken from a node, once some of its simulators are chosen.
ghost use Rattle.std.specs.Prelude.{◌≡◌, ◌⊎◌, OnOk, true};
ghost use Rattle.std.specs.List.{Contains};
ghost use Rattle.room_search.specs.Premises.{HasAlike};
ghost use Rattle.room_search.specs.declared.premise.Premise.{Premise as PremiseValue};

use indexmap::IndexSet;
use std::alloc::AllocError;

/// What the node and the simulators that are chosen say of the words of the room, and how many more may crash.
#[derive(PartialEq, Eq, Hash, Drop)]
pub struct Premise {
    pub said: Vec<u64>,
    pub left: u32,
}

/// Premises, each once.
pub type Premises = IndexSet<Premise>;

/// Whether this one is there.
pub fn has(premises: &Premises, premise: &Premise) -> bool
    ensures { result ≡ true → HasAlike premises.now.keys premise.now }
{
    premises.contains(premise)
}

/// Adds one, unless it is there.
///
/// # Errors
///
/// An allocation that fails.
pub fn add(premises: &mut Premises, premise: Premise) -> Result<(), AllocError>
    ensures { OnOk result ((other : PremiseValue) → Contains premises.new.keys other → Contains premises.old.keys other ⊎ (premise ≡ other)) }
{
    premises.insert(premise)?;
    Ok(())
}
