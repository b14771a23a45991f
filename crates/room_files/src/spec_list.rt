//! Specs of rooms that are run.
ghost use Rattle.std.specs.Prelude.{◌≡◌, ◌∷◌, ◌++◌, [], OnOk, OnErr, IsFalse};
ghost use Rattle.history_checker.specs.Verdicts.{has_room};

use crate::blocks::Opens;
use indexmap::IndexMap;
use indexmap::map::IntoValues;
use room_spec::{Name, Spec};
use std::alloc::{AllocError, Global};
use std::marker::Model;

/// Specs in order of adding, of which no two have the same name.
#[derive(Drop)]
pub struct SpecList {
    specs: IndexMap<Name, Spec>,
}

impl Model for SpecList {
    ghost use Rattle.std.specs.Coded.{codes};
    ghost use Rattle.protocol_lang.specs.Codes.{expression_code};
    ghost use Rattle.std.specs.Prelude.{List};
    ghost use Rattle.room_spec.specs.Rooms.{RoomSpec};
    ghost use Rattle.room_files.specs.SpecLists.{AreNamed, specs_in};

    ghost Value = { List RoomSpec };

    ghost coded = { Prim.hlevel (codes, expression_code) };

    ghost view = { λ list. specs_in list.specs.entries };

    ghost invariant = { λ list. AreNamed list.specs.entries };
}

impl SpecList {
    /// No specs.
    pub fn new(alloc: Global) -> SpecList
        ensures { result ≡ [] }
    {
        SpecList {
            specs: IndexMap::new(alloc),
        }
    }

    /// Whether a spec has this name.
    pub fn has(&self, name: &Name) -> bool
        ensures { result ≡ has_room name.now self.now }
    {
        self.specs.contains_key(name)
    }

    /// Adds a spec whose name no other has. An `Err` drops it and changes nothing.
    pub fn push(&mut self, spec: Spec) -> Result<(), AllocError>
        requires { IsFalse (has_room spec.name self.old) }
        ensures added { OnOk result (self.new ≡ self.old ++ spec ∷ []) }
        ensures err { OnErr result (self.new ≡ self.old) }
    {
        let name = spec.name().clone()?;
        self.specs.insert(name, spec)?;
        Ok(())
    }

    /// The specs by value, in order.
    pub fn into_values(self) -> IntoValues<Name, Spec>
        ensures { result ≡ self }
    {
        self.specs.into_values()
    }
}

impl Opens for SpecList {
    ghost specs = { λ list. list };

    ghost is_unfed = { λ list. Unit {0} };

    fn has(&self, name: &Name) -> bool {
        SpecList::has(self, name)
    }

    fn push(&mut self, _alloc: Global, spec: Spec, _block: &[u8]) -> Result<(), AllocError> {
        SpecList::push(self, spec)
    }
}
