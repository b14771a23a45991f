//! Verdicts on many rooms, whose events come mixed.
ghost use Rattle.std.specs.Prelude.{◌≡◌, ◌↔◌, List, false, length, [], ◌∷◌, ◌++◌, IsTrue, IsFalse, IsOk, IfErr, IsErrOf, OnOk, OnErr, None, Some, MatchOption, IsSomeAnd, option_map, slice_get};
ghost use Rattle.room_spec.specs.Rooms.{RoomSpec};
ghost use Rattle.history_checker.specs.Verdicts.{FedEvent, HasProcessed, IsVerdict, IsTaskAnswer, specs_of, names_of, has_room, fed_to};
ghost use Rattle.history_checker.specs.Shown.{HasFed, IsUnfed};

use crate::fault::{AddFault, FeedFault, NoRoom};
use crate::room::Room;
use crate::verdict::{TaskVerdict, Verdict};
use indexmap::IndexMap;
use room_spec::{Name, Spec, Spelled};
use std::alloc::{AllocError, Global};
use std::marker::Model;
use transcript::{Event, EventLine};

/// Rooms in order of adding, each with what its events so far leave it to expect. A room's verdict
/// rests on the events that were fed under its name alone.
#[derive(Drop)]
pub struct Rooms {
    rooms: IndexMap<Name, Room>,
}

impl Model for Rooms {
    ghost use Rattle.std.specs.Coded.{codes};
    ghost use Rattle.protocol_lang.specs.Codes.{expression_code};
    ghost use Rattle.std.specs.Prelude.{List, map};
    ghost use Rattle.history_checker.specs.Verdicts.{RoomState, rooms_in, IsKeyed};

    ghost Value = { List RoomState };

    ghost coded = { Prim.hlevel (codes, expression_code) };

    ghost view = { λ all. rooms_in all.rooms.entries };

    ghost invariant = { λ all. IsKeyed all.rooms.entries };
}

impl Rooms {
    /// No rooms.
    pub fn new(alloc: Global) -> Rooms
        ensures { result ≡ [] }
    {
        Rooms {
            rooms: IndexMap::new(alloc),
        }
    }

    /// Adds a room, which has no events yet. An `Err` drops the spec and changes nothing. It is
    /// `NameTaken` wherever a room has this name already, and `OutOfMemory` only for a new name.
    pub fn add(&mut self, alloc: Global, spec: Spec) -> Result<(), AddFault>
        ensures taken { IsErrOf result AddFault.NameTaken ↔ IsTrue (has_room spec.name (specs_of self.old)) }
        ensures added { OnOk result (specs_of self.new ≡ specs_of self.old ++ spec ∷ []) }
        // What the other rooms have processed stays, and the new one has processed nothing.
        ensures processed { OnOk result ((fed : List FedEvent) → fed_to spec.name fed ≡ [] → HasProcessed self.old fed → HasProcessed self.new fed) }
        ensures err { OnErr result (self.new ≡ self.old) }
    {
        if self.has(spec.name()) {
            return Err(AddFault::NameTaken);
        }
        match self.push(alloc, spec) {
            Ok(()) => Ok(()),
            Err(AllocError) => Err(AddFault::OutOfMemory),
        }
    }

    /// Whether a room has this name.
    pub fn has(&self, name: &Name) -> bool
        ensures { result ≡ has_room name.now (specs_of self.now) }
    {
        self.rooms.contains_key(name)
    }

    /// Adds a room whose name no room has, and which has no events yet. An `Err` drops the spec and changes nothing.
    pub fn push(&mut self, alloc: Global, spec: Spec) -> Result<(), AllocError>
        requires { IsFalse (has_room spec.name (specs_of self.now)) }
        ensures added { OnOk result (specs_of self.new ≡ specs_of self.old ++ spec ∷ []) }
        ensures processed { OnOk result ((fed : List FedEvent) → fed_to spec.name fed ≡ [] → HasProcessed self.old fed → HasProcessed self.new fed) }
        ensures err { OnErr result (self.new ≡ self.old) }
    {
        let name = spec.name().clone()?;
        let room = Room::open(alloc, spec)?;
        self.rooms.insert(name, room)?;
        Ok(())
    }

    /// Feeds the room of this name the event that is on this line of the transcript. This
    /// takes no memory. If no room has the name, nothing changes.
    pub fn feed(&mut self, name: &Name, event: &Event, line: u64) -> Result<(), NoRoom>
        ensures known { IsOk result ↔ IsTrue (has_room name.now (specs_of self.old)) }
        ensures rooms { specs_of self.new ≡ specs_of self.old }
        // All that was fed before, and this.
        ensures processed { OnOk result ((fed : List FedEvent) → HasProcessed self.old fed
            → HasProcessed self.new (fed ++ record { name = name.now; event = event.now; line = line } ∷ [])) }
        ensures err { OnErr result (self.new ≡ self.old) }
    {
        let Some(index) = self.rooms.get_index_of(name) else {
            return Err(NoRoom);
        };
        let room = &mut self.rooms[index];
        room.feed(event, line);
        Ok(())
    }

    /// Feeds the event of a transcript's line, which has this number, to its room. A line that says no event of one of the rooms
    /// changes nothing. This takes no memory.
    pub fn feed_line(&mut self, line: &EventLine<'_>, number: u64) -> Result<(), FeedFault>
        ensures fed { OnOk result (HasFed line.now number self.old self.new) }
        ensures rooms { specs_of self.new ≡ specs_of self.old }
        // A malformed line comes before an unknown room.
        ensures fault { IfErr result (IsUnfed line.now (specs_of self.old)) }
        ensures err { OnErr result (self.new ≡ self.old) }
    {
        let bytes = line.name();
        let Some(index) = self.rooms.get_index_of(Spelled { bytes }) else {
            return Err(fault_of_stray(line));
        };
        let room = &mut self.rooms[index];
        let _ = room.spec.rounds(); // for the proof: a room's name is a name
        if let Err(fault) = room.feed_line(line, number) {
            return Err(FeedFault::BadLine(fault));
        }
        Ok(())
    }

    /// How many rooms there are.
    pub fn len(&self) -> usize
        ensures { result ≡ length (specs_of self.now) }
    {
        self.rooms.len()
    }

    /// The name of the room of this index, from 0 in order of adding, or `None` if there is none.
    pub fn name(&self, index: usize) -> Option<&Name>
        ensures { option_map (λ name. name.now) result ≡ slice_get (names_of (specs_of self.now)) index }
    {
        let (name, _) = self.rooms.get_index(index)?;
        Some(name)
    }

    /// The verdict on the room of this index, from 0 in order of adding, or `None` if there is
    /// none.
    pub fn verdict(&self, index: usize) -> Option<Verdict>
        ensures { (fed : List FedEvent) → HasProcessed self.now fed
            → MatchOption (slice_get (specs_of self.now) index) (result ≡ None) (λ spec. IsSomeAnd result (IsVerdict spec (fed_to spec.name fed))) }
    {
        match self.rooms.get_index(index) {
            Some((_, room)) => Some(room.verdict()),
            None => None,
        }
    }

    /// Whether the decisions of the room of this index, from 0 in order of adding, keep its task, also if its events are no
    /// run; or `None` if there is no such room, or it has no task.
    pub fn task_verdict(&self, index: usize) -> Option<TaskVerdict>
        ensures { (fed : List FedEvent) → HasProcessed self.now fed
            → MatchOption (slice_get (specs_of self.now) index) (result ≡ None) (λ spec. IsTaskAnswer spec (fed_to spec.name fed) result) }
    {
        let (_, room) = self.rooms.get_index(index)?;
        room.task_verdict()
    }
}

/// Why a line whose first field is no room's name can't be fed.
fn fault_of_stray(line: &EventLine<'_>) -> FeedFault
    ensures { (rooms : List RoomSpec) → has_room line.now.name rooms ≡ false → IsUnfed line.now rooms result }
{
    match line.read() {
        Ok(_) => FeedFault::NoRoom(NoRoom),
        Err(fault) => FeedFault::BadLine(fault),
    }
}
