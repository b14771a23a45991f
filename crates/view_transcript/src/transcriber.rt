//! Follows a script, and keeps what is known of each room.
ghost use Rattle.std.specs.Prelude.{◌≡◌, [], List, ℕ, None, false, OnOk};
ghost use Rattle.std.specs.Map.{keys_of};
ghost use Rattle.std.specs.Str.{bytes_eq};
ghost use Rattle.service_core.specs.Rooms.{room_at};
ghost use Rattle.service_core.specs.declared.reply.Reply.TheVariants.{Begun};
ghost use Rattle.view_transcript.specs.Transcripts.{HasEndedIf, HasOpened, IsSwapped, kept_at};

use crate::kept::Kept;
use indexmap::IndexMap;
use room_spec::{Name, Spec, SpecFault, Spelled};
use script_play::{Asked, Follows, Order};
use service_core::{Reply, Service};
use std::alloc::{AllocError, Global};
use ws_history::Points;

/// What is kept of the last room of each name that was opened.
#[derive(Drop)]
pub(crate) struct Transcriber {
    pub(crate) rooms: IndexMap<Name, Kept>,
    /// The name of a room that is to be opened, and what is kept of it.
    next: Option<(Name, Kept)>,
}

impl Transcriber {
    pub(crate) fn new(alloc: Global) -> Transcriber
        ensures { result.rooms.entries ≡ [] }
    {
        Transcriber {
            rooms: IndexMap::new(alloc),
            next: None,
        }
    }

    /// Keeps the room that was opened, if it was. What was kept of a closed room of its name is let go.
    fn open(&mut self, reply: &Reply) -> Result<(), AllocError>
        ensures { OnOk result (HasOpened self.old.next reply.now self.old.rooms.entries self.new.rooms.entries) }
    {
        match reply {
            Reply::Begun => self.open_next(),
            _ => Ok(()),
        }
    }

    fn open_next(&mut self) -> Result<(), AllocError>
        ensures { OnOk result (HasOpened self.old.next Begun self.old.rooms.entries self.new.rooms.entries) }
    {
        let Some((name, kept)) = self.next.take() else {
            return Ok(());
        };
        self.rooms.insert(name, kept)?;
        Ok(())
    }

    /// Puts these notes in the place of those of the steps of the room of this name, which it gives.
    fn swap(&mut self, name: &[u8], points: Option<Points>) -> Option<Points>
        ensures own { IsSwapped points (kept_at self.old.rooms.entries name.now) (kept_at self.new.rooms.entries name.now) result }
        ensures others { (other : List ℕ) → bytes_eq other name.now ≡ false → kept_at self.new.rooms.entries other ≡ kept_at self.old.rooms.entries other }
        ensures names { keys_of self.new.rooms.entries ≡ keys_of self.old.rooms.entries }
    {
        let Some(index) = self.rooms.get_index_of(Spelled { bytes: name }) else {
            return None;
        };
        let Some(kept) = self.rooms.get_index_mut(index) else {
            unreachable!() // the index was found just now
        };
        kept.swap(points)
    }

    /// Keeps the events of the room of this name, if one is open.
    fn end(&mut self, alloc: Global, name: &[u8], rooms: &Service) -> Result<(), AllocError>
        ensures own { OnOk result (HasEndedIf (room_at rooms.now name.now) (kept_at self.old.rooms.entries name.now) (kept_at self.new.rooms.entries name.now)) }
        ensures others { OnOk result ((other : List ℕ) → bytes_eq other name.now ≡ false → kept_at self.new.rooms.entries other ≡ kept_at self.old.rooms.entries other) }
        ensures names { OnOk result (keys_of self.new.rooms.entries ≡ keys_of self.old.rooms.entries) }
    {
        let Some(room) = rooms.room(name) else {
            return Ok(());
        };
        let Some(index) = self.rooms.get_index_of(Spelled { bytes: name }) else {
            return Ok(());
        };
        let Some(kept) = self.rooms.get_index_mut(index) else {
            unreachable!() // the index was found just now
        };
        kept.end(alloc, room)
    }
}

impl Follows for Transcriber {
    ghost use Rattle.view_transcript.specs.Transcripts.{IsNotedBy, IsReadyFor};

    type Watch = Points;

    ghost follows = { λ old rooms done left new. IsNotedBy old.rooms.entries rooms done left new.rooms.entries };

    ghost readies = { λ old rooms command new watch. IsReadyFor rooms old.rooms.entries command new.rooms.entries new.next watch };

    fn opens(
        &mut self,
        alloc: Global,
        block: &[u8],
        spec: &Spec,
    ) -> Result<Option<Points>, AllocError> {
        let name = spec.name().clone()?;
        self.next = Some((name, Kept::new(alloc, block, spec)?));
        Ok(None)
    }

    fn before(
        &mut self,
        alloc: Global,
        asked: &Asked<'_>,
        rooms: &Service,
    ) -> Result<Option<Points>, AllocError> {
        match asked.order {
            Order::Close => {
                self.end(alloc, asked.name, rooms)?;
                Ok(None)
            }
            Order::Step { .. } | Order::Crash(_) | Order::Settle | Order::Report => {
                Ok(self.swap(asked.name, None))
            }
            Order::Open => Ok(None),
        }
    }

    fn after(
        &mut self,
        asked: &Asked<'_>,
        reply: Reply,
        watch: &mut Option<Points>,
        _rooms: &Service,
    ) -> Result<(), AllocError> {
        match asked.order {
            Order::Open => self.open(&reply),
            Order::Step { .. } | Order::Crash(_) | Order::Settle | Order::Report => {
                self.swap(asked.name, watch.take());
                Ok(())
            }
            Order::Close => Ok(()),
        }
    }

    fn refuse(&mut self, _line: u64, _fault: SpecFault) -> Result<(), AllocError> {
        Ok(())
    }

    fn out_of_memory(&mut self, _line: u64) -> Result<(), AllocError> {
        Ok(())
    }
}
