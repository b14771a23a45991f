//! Follows a script, and judges the history of each room by a task of one's own.
ghost use Rattle.std.specs.Prelude.{◌≡◌, IfOk, None, OnOk};
ghost use Rattle.service_core.specs.Rooms.{room_at};
ghost use Rattle.view_grade.specs.Grades.{one_more};
ghost use Rattle.view_grade.specs.Keeping.{IsFoundAt, IsFoundUnless, IsJudged, IsJudgedIf, line_at};

use crate::grader::Grader;
use crate::lines::line_at;
use decision_tasks::{DecisionTask, Moment, first_broken};
use room_core::{RoomCore, Unobserved};
use room_spec::{Spec, SpecFault};
use script_play::{Asked, Follows};
use service_core::{Reply, Service};
use std::alloc::{AllocError, Global};
use std::marker::Model;
use ws_history::history;

/// The first command after which the history of its room doesn't keep a task.
#[derive(Drop)]
pub(crate) struct Broken {
    /// The command's line.
    pub(crate) line: u64,
    /// The room's name.
    pub(crate) name: Vec<u8>,
    /// The moment of the history after which it is so.
    pub(crate) moment: Moment,
}

impl Model for Broken {
    ghost use Rattle.view_grade.specs.Keeping.{Found};

    ghost Value = { Found };

    ghost view = { λ broken. record { line = broken.line; room = broken.name.items; moment = broken.moment } };
}

/// The last report of a script so far, and whether the histories of its rooms have kept a task.
#[derive(Drop)]
pub(crate) struct Keeper<'a> {
    alloc: Global,
    task: &'a DecisionTask,
    script: &'a [u8],
    pub(crate) grader: Grader,
    /// How many entries were done.
    entries: u64,
    pub(crate) broken: Option<Broken>,
}

impl<'a> Keeper<'a> {
    pub(crate) fn new(alloc: Global, task: &'a DecisionTask, script: &'a [u8]) -> Keeper<'a>
        ensures task { result.task.now ≡ task.now }
        ensures script { result.script.now ≡ script.now }
        ensures last { result.grader.last ≡ None }
        ensures moves { result.grader.moves ≡ 0 }
        ensures entries { result.entries ≡ 0 }
        ensures broken { result.broken ≡ None }
    {
        Keeper {
            alloc,
            task,
            script,
            grader: Grader::new(),
            entries: 0,
            broken: None,
        }
    }

    /// Judges the history of the room of this name after a command to it, unless something was found before.
    fn judge(&mut self, name: &[u8], rooms: &Service) -> Result<(), AllocError>
        ensures found { OnOk result (IsFoundUnless self.old.broken self.old.task.now (line_at self.old.script.now self.old.entries) name.now (room_at rooms.now name.now) self.new.broken) }
        ensures entries { OnOk result (self.new.entries ≡ one_more self.old.entries) }
        ensures task { self.new.task.now ≡ self.old.task.now }
        ensures script { self.new.script.now ≡ self.old.script.now }
        ensures last { self.new.grader.last ≡ self.old.grader.last }
        ensures moves { self.new.grader.moves ≡ self.old.grader.moves }
    {
        if self.broken.is_some() {
            self.pass();
            return Ok(());
        }
        let found = self.found_at(name, rooms)?;
        self.pass();
        self.broken = found;
        Ok(())
    }

    /// Whether the history of the room of this name keeps the task.
    fn found_at(&self, name: &[u8], rooms: &Service) -> Result<Option<Broken>, AllocError>
        ensures { IfOk result (IsFoundAt self.now.task.now (line_at self.now.script.now self.now.entries) name.now (room_at rooms.now name.now)) }
    {
        let Some(moment) = judged_at(self.alloc, self.task, rooms, name)? else {
            return Ok(None);
        };
        let name = Vec::from_slice(self.alloc, name)?;
        Ok(Some(Broken {
            line: line_at(self.script, self.entries),
            name,
            moment,
        }))
    }

    /// Goes past an entry.
    fn pass(&mut self)
        ensures entries { self.new.entries ≡ one_more self.old.entries }
        ensures broken { self.new.broken ≡ self.old.broken }
        ensures task { self.new.task.now ≡ self.old.task.now }
        ensures script { self.new.script.now ≡ self.old.script.now }
        ensures last { self.new.grader.last ≡ self.old.grader.last }
        ensures moves { self.new.grader.moves ≡ self.old.grader.moves }
    {
        self.entries = self.entries.saturating_add(1);
    }
}

impl<'a> Follows for Keeper<'a> {
    ghost use Rattle.std.specs.Prelude.{◌≡◌};
    ghost use Rattle.view_grade.specs.Keeping.{IsKeptBy};

    type Watch = Unobserved;

    ghost follows = { λ old rooms done left new. (new.task.now ≡ old.task.now) × (new.script.now ≡ old.script.now) ×
        IsKeptBy old.task.now old.script.now (record { graded = record { last = old.grader.last; moves = old.grader.moves }; watched = record { entries = old.entries; found = old.broken } }) rooms done left
        (record { graded = record { last = new.grader.last; moves = new.grader.moves }; watched = record { entries = new.entries; found = new.broken } }) };

    ghost readies = { λ old rooms command new watch. (new.task.now ≡ old.task.now) × (new.script.now ≡ old.script.now) × (new.grader.last ≡ old.grader.last) × (new.grader.moves ≡ old.grader.moves) × (new.entries ≡ old.entries) × (new.broken ≡ old.broken) };

    fn opens(
        &mut self,
        _alloc: Global,
        _block: &[u8],
        _spec: &Spec,
    ) -> Result<Option<Unobserved>, AllocError> {
        Ok(None)
    }

    fn before(
        &mut self,
        _alloc: Global,
        _asked: &Asked<'_>,
        _rooms: &Service,
    ) -> Result<Option<Unobserved>, AllocError> {
        Ok(None)
    }

    fn after(
        &mut self,
        asked: &Asked<'_>,
        reply: Reply,
        _watch: &mut Option<Unobserved>,
        rooms: &Service,
    ) -> Result<(), AllocError> {
        self.grader.note(asked, reply, rooms);
        self.judge(asked.name, rooms)
    }

    fn refuse(&mut self, _line: u64, _fault: SpecFault) -> Result<(), AllocError> {
        self.pass();
        Ok(())
    }

    fn out_of_memory(&mut self, _line: u64) -> Result<(), AllocError> {
        self.pass();
        Ok(())
    }
}

/// The first moment after which the history of the room of this name doesn't keep a task, if there is one.
fn judged_at(
    alloc: Global,
    task: &DecisionTask,
    rooms: &Service,
    name: &[u8],
) -> Result<Option<Moment>, AllocError>
    ensures { IfOk result (IsJudgedIf task.now (room_at rooms.now name.now)) }
{
    match rooms.room(name) {
        Some(room) => judged(alloc, task, room),
        None => Ok(None),
    }
}

/// The same of a room.
fn judged(alloc: Global, task: &DecisionTask, room: &RoomCore) -> Result<Option<Moment>, AllocError>
    ensures { IfOk result (IsJudged task.now room.now) }
{
    let events = history(alloc, room)?;
    Ok(first_broken(task, room.spec(), events.as_slice()))
}
