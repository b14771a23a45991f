//! Rooms that are judged event by event, and whether one of them is a reduction.
ghost use Rattle.std.specs.Prelude.{◌≡◌, [], false};
ghost use Rattle.history_checker.specs.Verdicts.{specs_of};
ghost use Rattle.view_why.specs.Why.{AreOrdinary};

use history_checker::Rooms;
use room_files::Opens;
use room_spec::{Name, Spec};
use std::alloc::{AllocError, Global};
use std::marker::Model;

/// Rooms in order of adding, each judged by the events so far.
#[derive(Drop)]
pub struct RunRooms {
    rooms: Rooms,
    /// Whether a room is a reduction, whose processes' inputs the rooms don't know.
    has_reduction: bool,
}

impl Model for RunRooms {
    ghost use Rattle.std.specs.Prelude.{◌≡◌, List, false};
    ghost use Rattle.std.specs.Coded.{codes};
    ghost use Rattle.protocol_lang.specs.Codes.{expression_code};
    ghost use Rattle.history_checker.specs.Verdicts.{RoomState, specs_of};
    ghost use Rattle.view_why.specs.Why.{AreOrdinary};

    ghost Value = { List RoomState };

    ghost coded = { Prim.hlevel (codes, expression_code) };

    ghost view = { λ all. all.rooms };

    ghost invariant = { λ all. all.has_reduction ≡ false → AreOrdinary (specs_of all.rooms) };
}

impl RunRooms {
    /// No rooms.
    pub fn new(alloc: Global) -> RunRooms
        ensures { result ≡ [] }
    {
        RunRooms {
            rooms: Rooms::new(alloc),
            has_reduction: false,
        }
    }

    /// Only the rooms.
    pub fn into_rooms(self) -> Rooms
        ensures { result ≡ self }
    {
        self.rooms
    }

    /// Whether one of them is a reduction.
    pub fn has_reduction(&self) -> bool
        ensures { result ≡ false → AreOrdinary (specs_of self.now) }
    {
        self.has_reduction
    }
}

impl Opens for RunRooms {
    ghost use Rattle.std.specs.Prelude.{[]};
    ghost use Rattle.history_checker.specs.Verdicts.{HasProcessed, specs_of};

    ghost specs = { specs_of };

    ghost is_unfed = { λ rooms. HasProcessed rooms [] };

    fn has(&self, name: &Name) -> bool {
        self.rooms.has(name)
    }

    fn push(&mut self, alloc: Global, spec: Spec, _block: &[u8]) -> Result<(), AllocError> {
        let is_reduction = spec.is_reduction();
        self.rooms.push(alloc, spec)?;
        self.has_reduction |= is_reduction;
        Ok(())
    }
}
