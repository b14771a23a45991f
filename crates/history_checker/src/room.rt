//! One room, whose events come one by one.
ghost use Rattle.std.specs.Prelude.{◌≡◌, ◌∷◌, ◌≤◌, ℕ, List, [], Option, Some, Err, IfErr, IfOk, IsFalse, IsTrue, OnErr, OnOk, length, option_map, slice_set};
ghost use Rattle.protocol_lang.specs.declared.meaning.TheConstants.{MAX_PROCESSES};
ghost use Rattle.transcript.specs.Lines.{event_said};
ghost use Rattle.transcript.specs.declared.event.Event.TheVariants.{Snap, Write};
ghost use Rattle.history_checker.specs.Processes.{lasts};
ghost use Rattle.history_checker.specs.Shown.{Feeds, MayShowLasts, SaysRow, lasts_after};
ghost use Rattle.history_checker.specs.Verdicts.{FedEvent, HasProcessedOwn, IsAfter, StandsAfter, TaskStands, IsVerdict, IsTaskAnswer, StaysSo};

use crate::history::open;
use crate::kept::KeptSpec;
use crate::process::{Process, follow, follow_said, follow_write};
use crate::row::Row;
use crate::tally::RoomTask;
use crate::verdict::{TaskVerdict, Verdict};
use room_spec::Spec;
use std::alloc::{AllocError, Global};
use std::marker::Model;
use transcript::{Event, EventLine, EventWord, LineFault};

/// A room and its events so far.
#[derive(Drop)]
pub(crate) struct Room {
    pub(crate) spec: KeptSpec,
    processes: Vec<Process>,
    broken: Option<u64>,
    /// In a room of few processes there is none: its snapshots are read quickly.
    row: Option<Box<Row>>,
    /// In a room without a task there is none.
    task: Option<Box<RoomTask>>,
}

impl Model for Room {
    ghost use Rattle.std.specs.Prelude.{◌≡◌, IfSome};
    ghost use Rattle.std.specs.Coded.{codes};
    ghost use Rattle.protocol_lang.specs.Codes.{expression_code};
    ghost use Rattle.std.specs.Option.{option_map};
    ghost use Rattle.history_checker.specs.Processes.{lasts};
    ghost use Rattle.history_checker.specs.Shown.{MayShowLasts};
    ghost use Rattle.history_checker.specs.Verdicts.{RoomState};

    ghost Value = { RoomState };

    ghost coded = { Prim.hlevel (codes, expression_code) };

    ghost view = { λ room.
        record { spec = room.spec; processes = room.processes.items; broken = room.broken; tally = option_map (λ task. task.value.tally) room.task } };

    ghost invariant = { λ room. MayShowLasts (lasts room.processes.items) (option_map (λ row. row.value) room.row) ×
        IfSome room.task (λ task. task.value.spec ≡ room.spec) };
}

impl Room {
    pub(crate) fn open(alloc: Global, spec: Spec) -> Result<Room, AllocError>
        ensures spec { IfOk result (λ room. room.spec ≡ spec) }
        ensures processed { IfOk result (HasProcessedOwn []) }
    {
        let mut processes = vec![in alloc; Process::BLANK; spec.n()]?;
        open(&spec, &mut processes);
        let row = Row::of_many(alloc, spec.n())?;
        let kept = KeptSpec::of(&spec)?;
        let task = RoomTask::of(alloc, spec)?;
        Ok(Room {
            spec: kept,
            processes,
            broken: None,
            row,
            task,
        })
    }

    /// Processes an event, which is on this line.
    pub(crate) fn feed(&mut self, event: &Event, line: u64)
        ensures spec { self.new.spec ≡ self.old.spec }
        ensures processed { StaysSo event.now line (λ fed. IsAfter fed self.old) (λ fed. IsAfter fed self.new) }
    {
        self.count(event, line);
        self.follow(event, line);
    }

    /// Processes the event that a line says, which has this number. A line that says none changes nothing.
    #[inline(always)]
    pub(crate) fn feed_line(&mut self, line: &EventLine<'_>, number: u64) -> Result<(), LineFault>
        ensures spec { self.new.spec ≡ self.old.spec }
        ensures fed { OnOk result (Feeds line.now number self.old self.new) }
        ensures fault { IfErr result (λ fault. event_said line.now ≡ Err fault) }
        ensures err { OnErr result (self.new ≡ self.old) }
    {
        match line.word() {
            EventWord::Write => {
                let v = line.value()?;
                self.feed_write(usize::from(line.process()), v, number);
                Ok(())
            }
            EventWord::Snap => self.feed_snap(line, number),
            EventWord::Decide => self.feed_read(line, number),
        }
    }

    /// Processes a write, which is on this line. It counts for no task.
    #[inline(always)]
    fn feed_write(&mut self, p: usize, v: u32, line: u64)
        ensures spec { self.new.spec ≡ self.old.spec }
        ensures processed { StaysSo (Write p v) line (λ fed. IsAfter fed self.old) (λ fed. IsAfter fed self.new) }
    {
        self.follow_write(p, v, line);
    }

    /// Processes the snapshot that a line says. Most snapshots of a run are right: of one that the room's row shows no entry is read.
    fn feed_snap(&mut self, line: &EventLine<'_>, number: u64) -> Result<(), LineFault>
        requires { line.now.word ≡ EventWord.Snap }
        ensures spec { self.new.spec ≡ self.old.spec }
        ensures fed { OnOk result (Feeds line.now number self.old self.new) }
        ensures fault { IfErr result (λ fault. event_said line.now ≡ Err fault) }
        ensures err { OnErr result (self.new ≡ self.old) }
    {
        if self.feed_said(usize::from(line.process()), line.values(), number) {
            return Ok(());
        }
        self.feed_read(line, number)
    }

    /// Processes a snapshot of process `p`, which is on this line, if the room's row shows that it is right: its entries are this
    /// text. It counts for no task.
    fn feed_said(&mut self, p: usize, text: &[u8], line: u64) -> bool
        ensures spec { self.new.spec ≡ self.old.spec }
        ensures says { IsTrue result → SaysRow (32 ∷ text.now) (lasts self.old.processes) }
        ensures few { IsTrue result → length (lasts self.old.processes) ≤ MAX_PROCESSES }
        ensures processed { IsTrue result → StaysSo (Snap p (record { items = lasts self.old.processes })) line (λ fed. IsAfter fed self.old) (λ fed. IsAfter fed self.new) }
        ensures other { IsFalse result → self.new ≡ self.old }
    {
        let Some(row) = &self.row else {
            return false;
        };
        if !row.is_said_by(text) {
            return false;
        }
        let row = row.last();
        if self.broken.is_some() {
            return true;
        }
        let followed = follow_said(&mut self.processes, self.spec.protocol(), p, row);
        if followed.is_err() {
            self.broken = Some(line);
        }
        true
    }

    /// Processes the event that a line says, with all of it read.
    #[inline(never)]
    fn feed_read(&mut self, line: &EventLine<'_>, number: u64) -> Result<(), LineFault>
        ensures spec { self.new.spec ≡ self.old.spec }
        ensures fed { OnOk result (Feeds line.now number self.old self.new) }
        ensures fault { IfErr result (λ fault. event_said line.now ≡ Err fault) }
        ensures err { OnErr result (self.new ≡ self.old) }
    {
        let event = line.event()?;
        self.feed(&event, number);
        Ok(())
    }

    /// Counts what the event decides, if the room has a task. A room that is no run has its task judged all the same.
    fn count(&mut self, event: &Event, line: u64)
        ensures others { self.new ≡ record self.old { tally = self.new.tally } }
        ensures task { let spec = self.old.spec in
            StaysSo event.now line (λ fed. TaskStands spec fed spec.task self.old.tally) (λ fed. TaskStands spec fed spec.task self.new.tally) }
    {
        if let Some(task) = &mut self.task {
            task.feed(event, line);
        }
    }

    /// Follows the event, unless one before it broke the run.
    fn follow(&mut self, event: &Event, line: u64)
        ensures spec { self.new.spec ≡ self.old.spec }
        ensures tally { self.new.tally ≡ self.old.tally }
        ensures processed { StaysSo event.now line (λ fed. StandsAfter self.old fed self.old.broken) (λ fed. StandsAfter self.new fed self.new.broken) }
    {
        match event {
            Event::Write { p, v } => self.follow_write(usize::from(*p), *v, line),
            Event::Snap { .. } | Event::Decide { .. } => self.follow_other(event, line),
        }
    }

    /// The same for a write, after which the row shows its value.
    #[inline(always)]
    fn follow_write(&mut self, p: usize, v: u32, line: u64)
        ensures spec { self.new.spec ≡ self.old.spec }
        ensures tally { self.new.tally ≡ self.old.tally }
        ensures processed { StaysSo (Write p v) line (λ fed. StandsAfter self.old fed self.old.broken) (λ fed. StandsAfter self.new fed self.new.broken) }
    {
        if self.broken.is_some() {
            return;
        }
        let followed = follow_write(&mut self.processes, self.spec.rounds(), p, v);
        if followed.is_err() {
            self.broken = Some(line);
            return;
        }
        show(&mut self.row, p, v);
    }

    /// The same for a snapshot or a decision.
    fn follow_other(&mut self, event: &Event, line: u64)
        requires { (row : List (Option ℕ)) → lasts_after event.now row ≡ row }
        ensures spec { self.new.spec ≡ self.old.spec }
        ensures tally { self.new.tally ≡ self.old.tally }
        ensures processed { StaysSo event.now line (λ fed. StandsAfter self.old fed self.old.broken) (λ fed. StandsAfter self.new fed self.new.broken) }
    {
        if self.broken.is_some() {
            return;
        }
        let followed = follow(
            &mut self.processes,
            self.spec.rounds(),
            self.spec.protocol(),
            event,
        );
        if followed.is_err() {
            self.broken = Some(line);
        }
    }

    pub(crate) fn verdict(&self) -> Verdict
        ensures { (fed : List FedEvent) → StandsAfter self.now fed self.now.broken → IsVerdict self.now.spec fed result }
    {
        match self.broken {
            None => Verdict::Run,
            Some(line) => Verdict::Broken(line),
        }
    }

    pub(crate) fn task_verdict(&self) -> Option<TaskVerdict>
        ensures { (fed : List FedEvent) → TaskStands self.now.spec fed self.now.spec.task self.now.tally → IsTaskAnswer self.now.spec fed result }
    {
        let task = self.task.as_ref()?;
        match task.tally.excess() {
            None => Some(TaskVerdict::Holds),
            Some(line) => Some(TaskVerdict::Broken(line)),
        }
    }
}

/// Has a room's row show what process `p` has written.
fn show(row: &mut Option<Box<Row>>, p: usize, v: u32)
    ensures { (last : List (Option ℕ)) → MayShowLasts last (option_map (λ row. row.value) row.old) →
        MayShowLasts (slice_set last p (Some v)) (option_map (λ row. row.value) row.new) }
{
    if let Some(row) = row {
        row.write(p, v);
    }
}
