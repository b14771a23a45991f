//! What is kept of a room that a script opened.
ghost use Rattle.std.specs.Prelude.{◌≡◌, IfOk, MatchOption, None, OnOk, Some, map, true};
ghost use Rattle.room_spec.specs.Rooms.{is_reduction};
ghost use Rattle.script_play.specs.Play.{IsBlockOf};
ghost use Rattle.view_transcript.specs.Transcripts.{AreByNotes, HasEnded, IsFresh, IsRunBlock};

use io_text::Text;
use room_core::RoomCore;
use room_spec::{Spec, read_reduction};
use run_blocks::run_block;
use std::alloc::{AllocError, Global};
use std::collections::BTreeMap;
use std::marker::Model;
use std::mem;
use transcript::Event;
use ws_history::{Points, linearize, run_inputs};

/// The block of a room, notes of its steps, and its events if it was closed.
#[derive(Drop)]
pub(crate) struct Kept {
    /// The room's own while it is open, and then that of its run.
    block: Vec<u8>,
    /// Not while a command is executed.
    points: Option<Points>,
    events: Option<Vec<Event>>,
}

impl Model for Kept {
    ghost use Rattle.std.specs.Prelude.{option_map};
    ghost use Rattle.view_transcript.specs.Transcripts.{KeptRoom};

    ghost Value = { KeptRoom };

    ghost view = { λ k. record { block = k.block.items; notes = k.points; events = option_map (λ events. events.items) k.events } };
}

impl Kept {
    /// What is kept of a room of which no simulator has taken a step.
    pub(crate) fn new(alloc: Global, block: &[u8], spec: &Spec) -> Result<Kept, AllocError>
        requires { IsBlockOf spec.now block.now }
        ensures { IfOk result (IsFresh spec.now) }
    {
        let points = Points::new(alloc, spec)?;
        Ok(Kept {
            block: Vec::from_slice(alloc, block)?,
            points: Some(points),
            events: None,
        })
    }

    /// The block that is kept.
    pub(crate) fn block(&self) -> &[u8]
        ensures { result.now ≡ self.now.block }
    {
        self.block.as_slice()
    }

    /// The events of the room, if it was closed.
    pub(crate) fn events(&self) -> Option<&[Event]>
        ensures { MatchOption result (self.now.events ≡ None) (λ events. self.now.events ≡ Some events.now) }
    {
        match &self.events {
            Some(events) => Some(events.as_slice()),
            None => None,
        }
    }

    /// The events of the room, which is open, in the order in which they took effect.
    pub(crate) fn events_in(&self, alloc: Global, room: &RoomCore) -> Result<Vec<Event>, AllocError>
        ensures { IfOk result (λ events. AreByNotes room.now self.now.notes events.items) }
    {
        let Some(points) = &self.points else {
            return Ok(Vec::new(alloc));
        };
        let _shape = room.spec().shape(); // for the proof: the room is within its limits
        let timed = linearize(alloc, room, points)?;
        let events = in_time(alloc, timed)?;
        Ok(events)
    }

    /// The block of the run that the events of the room, which is open, are: its own, or of a reduction that of the ordinary room whose
    /// processes have the inputs that were agreed on.
    #[tactic(auto, using(crate::proofs::RunBlock::own_block))]
    pub(crate) fn block_in(&self, alloc: Global, room: &RoomCore) -> Result<Vec<u8>, AllocError>
        ensures { IfOk result (λ block. IsRunBlock room.now self.now.block block.items) }
    {
        if room.spec().is_reduction() {
            let text = self.run_block_in(alloc, room)?;
            Vec::from_slice(alloc, text.as_bytes())
        } else {
            Vec::from_slice(alloc, self.block.as_slice())
        }
    }

    /// That of a reduction.
    fn run_block_in(&self, alloc: Global, room: &RoomCore) -> Result<Text, AllocError>
        requires { is_reduction room.now.spec ≡ true }
        ensures { IfOk result (IsRunBlock room.now self.now.block) }
    {
        let inputs = run_inputs(room);
        match read_reduction(alloc, self.block.as_slice()) {
            Ok((spec, len)) if len == self.block.len() && spec.n() == inputs.len() => {
                run_block(alloc, &spec, self.block.as_slice(), inputs.as_slice())
            }
            _ => Err(AllocError), // the block says the room, so an allocation failed
        }
    }

    /// Puts these notes in the place of those of the room's steps, which it gives.
    pub(crate) fn swap(&mut self, points: Option<Points>) -> Option<Points>
        ensures given { result ≡ self.old.notes }
        ensures left { self.new ≡ record self.old { notes = points } }
    {
        mem::replace(&mut self.points, points)
    }

    /// Keeps the events of the room, which is closed, and the block of the run that they are.
    pub(crate) fn end(&mut self, alloc: Global, room: &RoomCore) -> Result<(), AllocError>
        ensures { OnOk result (HasEnded (Some room.now) self.old self.new) }
    {
        let events = self.events_in(alloc, room)?;
        let block = self.block_in(alloc, room)?;
        self.keep(block, events);
        Ok(())
    }

    fn keep(&mut self, block: Vec<u8>, events: Vec<Event>)
        ensures { self.new ≡ record self.old { block = block.items; events = Some events.items } }
    {
        self.block = block;
        self.events = Some(events);
    }
}

/// Events with their times, in the order of these.
fn in_time(alloc: Global, timed: BTreeMap<u64, Event>) -> Result<Vec<Event>, AllocError>
    ensures { IfOk result (λ events. events.items ≡ map (λ event. event.1) timed.entries) }
{
    timed.into_values().collect(alloc)
}
