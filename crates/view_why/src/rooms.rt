//! The rooms of a transcript, each with what it says of them.
ghost use Rattle.std.specs.Prelude.{◌≡◌, ◌∷◌, ◌++◌, [], IsFalse, OnErr, OnOk};
ghost use Rattle.history_checker.specs.Verdicts.{has_room};
ghost use Rattle.view_why.specs.Reported.{AreReported, specs_of};

use crate::reported::Reported;
use indexmap::IndexMap;
use indexmap::map::Values;
use room_files::{InputFault, Opens, TakesEvents, TextFault};
use room_spec::{Name, Spec};
use std::alloc::{AllocError, Global};
use std::marker::Model;
use transcript::EventLine;

/// Rooms in order of adding, each with its events in a transcript.
#[derive(Drop)]
pub struct ReportedRooms {
    rooms: IndexMap<Name, Reported>,
}

impl Model for ReportedRooms {
    ghost use Rattle.std.specs.Coded.{codes};
    ghost use Rattle.protocol_lang.specs.Codes.{expression_code};
    ghost use Rattle.std.specs.Prelude.{List};
    ghost use Rattle.view_why.specs.Reported.{ReportedRoom, rooms_in, IsKeyed};

    ghost Value = { List ReportedRoom };

    ghost coded = { Prim.hlevel (codes, expression_code) };

    ghost view = { λ all. rooms_in all.rooms.entries };

    ghost invariant = { λ all. IsKeyed all.rooms.entries };
}

impl ReportedRooms {
    /// No rooms.
    pub fn new(alloc: Global) -> ReportedRooms
        ensures { result ≡ [] }
    {
        ReportedRooms {
            rooms: IndexMap::new(alloc),
        }
    }

    /// Whether a room has this name.
    fn has(&self, name: &Name) -> bool
        ensures { result ≡ has_room name.now (specs_of self.now) }
    {
        self.rooms.contains_key(name)
    }

    /// Adds a room whose name no room has.
    fn push(&mut self, alloc: Global, spec: Spec) -> Result<(), AllocError>
        requires { IsFalse (has_room spec.name (specs_of self.now)) }
        ensures added { OnOk result (specs_of self.new ≡ specs_of self.old ++ spec ∷ []) }
        ensures unreported { OnOk result (AreReported self.old [] → AreReported self.new []) }
        ensures err { OnErr result (self.new ≡ self.old) }
    {
        let name = spec.name().clone()?;
        self.rooms.insert(name, Reported::of(alloc, spec))?;
        Ok(())
    }

    /// The rooms, in order of adding.
    pub fn iter(&self) -> Values<'_, Name, Reported>
        ensures { result ≡ self.now }
    {
        self.rooms.values()
    }
}

impl Opens for ReportedRooms {
    ghost use Rattle.std.specs.Prelude.{[]};
    ghost use Rattle.view_why.specs.Reported.{AreReported, specs_of};

    ghost specs = { specs_of };

    ghost is_unfed = { λ rooms. AreReported rooms [] };

    fn has(&self, name: &Name) -> bool {
        ReportedRooms::has(self, name)
    }

    fn push(&mut self, alloc: Global, spec: Spec, _block: &[u8]) -> Result<(), AllocError> {
        ReportedRooms::push(self, alloc, spec)
    }
}

impl TakesEvents for ReportedRooms {
    ghost use Rattle.std.specs.Prelude.{◌≢◌, []};
    ghost use Rattle.view_why.specs.Reported.{AreReported, specs_of};

    ghost specs = { specs_of };

    ghost has_taken = { AreReported };

    // Only an event of a room is kept.
    ghost takes_memory = { λ rooms. rooms ≢ [] };

    fn take(&mut self, line: &EventLine<'_>, number: u64) -> Result<(), InputFault> {
        let (name, event) = match line.read() {
            Ok(read) => read,
            Err(fault) => return Err(InputFault::BadInput {
                line: number,
                fault: TextFault::BadEvent(fault),
            }),
        };
        let Some(index) = self.rooms.get_index_of(&name) else {
            return Err(InputFault::BadInput {
                line: number,
                fault: TextFault::NoRoom,
            });
        };
        self.rooms[index].tell(event, number)?;
        Ok(())
    }
}
