//! An observer of the steps of rooms, which keeps what is drawn of them.
ghost use Rattle.std.specs.Prelude.{◌≡◌, ◌++◌, ◌∷◌, [], false, true, MatchOption};
ghost use Rattle.run_columns.specs.declared.mark.Mark.TheVariants.{Step as StepOf};

use room_core::{Observer, RoomCore, StepReply};
use room_steps::take_step;
use run_columns::{Mark, Step};
use std::alloc::Global;
use std::marker::Model;

/// The marks of the steps that were seen.
#[derive(Drop)]
pub(crate) struct Recorder {
    marks: Vec<Mark>,
    /// Whether an allocation failed for one.
    failed: bool,
}

impl Model for Recorder {
    ghost use Rattle.view_draw.specs.Seen.{Kept};

    ghost Value = { Kept };

    ghost view = { λ recorder. record { marks = recorder.marks.items; failed = recorder.failed } };
}

impl Recorder {
    /// Nothing was seen yet.
    pub(crate) fn new(alloc: Global) -> Recorder
        ensures { result ≡ record { marks = []; failed = false } }
    {
        Recorder {
            marks: Vec::new(alloc),
            failed: false,
        }
    }

    /// The marks of all steps that were seen, or `None` if an allocation failed for one.
    pub(crate) fn marks(&self) -> Option<&[Mark]>
        ensures { MatchOption result (self.now.failed ≡ true) (λ marks. (marks.now ≡ self.now.marks) × (self.now.failed ≡ false)) }
    {
        if self.failed { None } else { Some(&self.marks) }
    }

    fn keep(&mut self, step: Step)
        ensures { self.new.failed ≡ false → (self.old.failed ≡ false) × (self.new.marks ≡ self.old.marks ++ StepOf step ∷ []) }
    {
        if self.marks.push(Mark::Step(step)).is_err() {
            self.failed = true;
        }
    }
}

impl Observer for Recorder {
    ghost use Rattle.view_draw.specs.Seen.{Keeps};

    ghost sees = { λ old room i new. Keeps old room i new };

    fn step(&mut self, room: &mut RoomCore, i: usize) -> StepReply {
        let words = room.spec().shape().memory_words();
        let (reply, step) = take_step(room, i);
        if let Some(step) = step {
            self.keep(Step::of(&step, words));
        }
        reply
    }
}
