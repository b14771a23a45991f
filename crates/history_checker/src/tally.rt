//! A room's task, whose decisions come one by one.
ghost use Rattle.std.specs.Prelude.{◌≡◌, [], ◌≤◌, IfOk, IfSome, Some};
ghost use Rattle.std.specs.Option.{option_map};
ghost use Rattle.history_checker.specs.Verdicts.{StaysSo, TallyStands, TaskStands};
ghost use Rattle.room_spec.specs.declared.spec.TheConstants.{MAX_AGREED};

use crate::task::Decided;
use room_spec::Spec;
use std::alloc::{AllocError, Global};
use std::marker::Model;
use transcript::Event;

/// A room with a task, and its decisions so far.
#[derive(Drop)]
pub struct RoomTask {
    pub spec: Spec,
    pub tally: Tally,
}

/// The values that were decided, and the line of the first decision that the task doesn't allow.
#[derive(Drop)]
pub struct Tally {
    decided: Decided,
    excess: Option<u64>,
}

impl Model for Tally {
    ghost use Rattle.history_checker.specs.Tasks.{TallyState};

    ghost Value = { TallyState };

    ghost view = { λ tally. record { decided = tally.decided; excess = tally.excess } };
}

impl RoomTask {
    /// That of a room before its first event, if the room has a task.
    pub fn of(alloc: Global, spec: Spec) -> Result<Option<Box<RoomTask>>, AllocError>
        ensures spec { IfOk result (λ task. IfSome task (λ task. task.value.spec ≡ spec)) }
        ensures tally { IfOk result (λ task. TaskStands spec [] spec.task (option_map (λ task. task.value.tally) task)) }
    {
        if spec.task().is_none() {
            return Ok(None);
        }
        let tally = Tally {
            decided: Decided::new(),
            excess: None,
        };
        Ok(Some(Box::new(alloc, RoomTask { spec, tally })?))
    }

    /// Takes in an event, which is on this line.
    pub fn feed(&mut self, event: &Event, line: u64)
        ensures spec { self.new.spec ≡ self.old.spec }
        ensures task { let spec = self.old.spec in
            StaysSo event.now line (λ fed. TaskStands spec fed spec.task (Some self.old.tally)) (λ fed. TaskStands spec fed spec.task (Some self.new.tally)) }
    {
        let Some(most) = self.spec.task() else {
            return;
        };
        self.tally.feed(&self.spec, usize::from(most), event, line);
    }
}

impl Tally {
    /// Takes in an event, which is on this line, of a room whose task allows `most` values.
    pub fn feed(&mut self, spec: &Spec, most: usize, event: &Event, line: u64)
        requires { most ≤ MAX_AGREED }
        ensures { StaysSo event.now line
            (λ fed. TallyStands spec.now most fed self.old.decided self.old.excess) (λ fed. TallyStands spec.now most fed self.new.decided self.new.excess) }
    {
        if self.excess.is_some() {
            return;
        }
        if !self.decided.follow(spec, most, event) {
            self.excess = Some(line);
        }
    }

    /// The line of the first decision that the task doesn't allow.
    pub fn excess(&self) -> Option<u64>
        ensures { result ≡ self.now.excess }
    {
        self.excess
    }
}
