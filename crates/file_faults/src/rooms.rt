//! Which rooms a script has opened, by nothing but its lines.
ghost use Rattle.std.specs.Prelude.{◌≡◌, [], None, Some, IfOk, OnOk, is_some};
ghost use Rattle.file_faults.specs.OpenRooms.{absent, absent_or_without, refusal_of, rooms_after, rooms_begun, simulators_of, with_room};

use indexmap::IndexMap;
use room_spec::{Name, Spec};
use service_core::{Command, Refusal};
use std::alloc::{AllocError, Global};
use std::marker::Model;

/// The rooms that a script has opened so far: of each name the number of its simulators, or `None` once it is closed.
#[derive(Drop)]
pub(crate) struct OpenRooms {
    rooms: IndexMap<Name, Option<u8>>,
}

impl Model for OpenRooms {
    ghost use Rattle.file_faults.specs.OpenRooms.{RoomsByName};

    ghost Value = { RoomsByName };

    ghost view = { λ known. known.rooms.entries };
}

impl OpenRooms {
    /// None yet.
    pub(crate) fn new(alloc: Global) -> OpenRooms
        ensures { result ≡ [] }
    {
        OpenRooms {
            rooms: IndexMap::new(alloc),
        }
    }

    /// How many simulators the open room of this name has.
    pub(crate) fn simulators_of(&self, name: &Name) -> Option<u8>
        ensures { result ≡ simulators_of name.now self.now }
    {
        match self.rooms.get(name) {
            Some(room) => *room,
            None => None,
        }
    }

    /// Why a command is refused, if it is.
    pub(crate) fn refusal_of(&self, command: &Command) -> Option<Refusal>
        ensures { result ≡ refusal_of self.now command.now }
    {
        match command {
            Command::Begin(_) => None,
            Command::Step { name, sim, .. } | Command::Crash { name, sim } => {
                absent_or_without(*sim, self.simulators_of(name))
            }
            Command::Settle(name) | Command::Report(name) | Command::Close(name) => {
                absent(self.simulators_of(name))
            }
        }
    }

    /// Notes what a command of a line does to the rooms: it may close one.
    pub(crate) fn note(&mut self, command: &Command) -> Result<(), AllocError>
        ensures { OnOk result (self.new ≡ rooms_after self.old command.now) }
    {
        match command {
            Command::Close(name) => self.keep(name, None),
            _ => Ok(()),
        }
    }

    /// Notes that a room is begun, unless one of its name is open. Gives whether one is.
    pub(crate) fn begin(&mut self, spec: &Spec) -> Result<bool, AllocError>
        ensures taken { IfOk result (λ taken. taken ≡ is_some (simulators_of spec.now.name self.old)) }
        ensures rooms { OnOk result (self.new ≡ rooms_begun self.old spec.now) }
    {
        let name = spec.name();
        if self.simulators_of(name).is_some() {
            return Ok(true);
        }
        self.keep(name, Some(spec.m() as u8))?;
        Ok(false)
    }

    fn keep(&mut self, name: &Name, room: Option<u8>) -> Result<(), AllocError>
        ensures { OnOk result (self.new ≡ with_room self.old name.now room) }
    {
        let own = name.clone()?;
        self.rooms.insert(own, room)?;
        Ok(())
    }
}

fn absent(simulators: Option<u8>) -> Option<Refusal>
    ensures { result ≡ absent simulators }
{
    match simulators {
        None => Some(Refusal::NoRoom),
        Some(_) => None,
    }
}

fn absent_or_without(sim: u8, simulators: Option<u8>) -> Option<Refusal>
    ensures { result ≡ absent_or_without sim simulators }
{
    match simulators {
        None => Some(Refusal::NoRoom),
        Some(count) if sim < count => None,
        Some(_) => Some(Refusal::NoSimulator),
    }
}
