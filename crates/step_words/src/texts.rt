//! An observer that writes what is to be seen.
ghost use Rattle.std.specs.Prelude.{◌≡◌, ◌≢◌, false, true, IfOk, IfErr, OnOk, if◌then◌else◌, Ok, Err, alloc_error};
ghost use Rattle.step_words.specs.Lines.{IsStepIn};
ghost use Rattle.room_core.specs.Fields.{Fields};
ghost use Rattle.room_core.specs.Reading.{AreFieldsOf};
ghost use Rattle.step_words.specs.Reported.{agreement_at, agreement_for, asked_of, is_turn, nothing_reported, with_step};

use crate::json::write_step_object;
use crate::number::next_number;
use crate::step::{Consequence, NumberedStep, write_step};
use io_text::Text;
use room_core::{Observer, RoomCore, StepReply};
use room_spec::Spec;
use room_steps::{AtomicStep, take_step};
use simulator::Goal;
use std::alloc::{AllocError, Global};
use std::marker::Model;
use view_table::Place;
use ws_history::{StepStart, Unreadable, unreadable_agreement};

/// An observer of the steps of a room, which writes the lines of each, or an object of JSON on a line, with what takes effect at it. Steps are
/// numbered from 1 over the whole life of the room. After an allocation that fails it writes no more, and the room goes on.
#[derive(Drop)]
pub struct StepTexts {
    alloc: Global,
    /// Whether a step is written as JSON.
    json: bool,
    lines: Text,
    /// The last step's simulator, and the number of its turn.
    last: Option<(usize, u64)>,
    ran_out: bool,
}

impl Model for StepTexts {
    ghost use Rattle.step_words.specs.Reported.{Reporting};

    ghost Value = { Reporting };

    ghost view = { λ texts. record { json = texts.json; lines = texts.lines; last = texts.last; ran_out = texts.ran_out } };
}

impl StepTexts {
    /// No lines. Steps will be written as text, or as JSON.
    pub fn new(alloc: Global, json: bool) -> StepTexts
        ensures { result ≡ nothing_reported json }
    {
        StepTexts {
            alloc,
            json,
            lines: Text::new(alloc),
            last: None,
            ran_out: false,
        }
    }

    /// The lines of all steps.
    ///
    /// # Errors
    ///
    /// An allocation that failed for some of them.
    pub fn into_lines(self) -> Result<Text, AllocError>
        ensures lines { IfOk result (λ lines. (self.ran_out ≡ false) × (lines ≡ self.lines)) }
        ensures refused { IfErr result (λ error. self.ran_out ≡ true) }
    {
        if self.ran_out {
            return Err(AllocError);
        }
        Ok(self.lines)
    }

    fn note(&mut self, spec: &Spec, numbered: &NumberedStep<'_>)
        requires { IsStepIn spec.now numbered.now.step.now }
        ensures { self.new.ran_out ≡ false → self.new ≡ with_step self.old spec.now numbered.now.number numbered.now.step.now numbered.now.consequence }
    {
        if !self.ran_out && self.write(spec, numbered).is_err() {
            self.ran_out = true;
        }
    }

    fn write(&mut self, spec: &Spec, numbered: &NumberedStep<'_>) -> Result<(), AllocError>
        requires { IsStepIn spec.now numbered.now.step.now }
        ensures { OnOk result (self.new ≡ with_step self.old spec.now numbered.now.number numbered.now.step.now numbered.now.consequence) }
    {
        let step = numbered.step;
        if self.json {
            write_step_object(self.alloc, &mut self.lines, spec, numbered)?;
        } else {
            let same_turn = self.is_turn(step.simulator, step.turn);
            write_step(&mut self.lines, spec, numbered, same_turn)?;
        }
        self.last = Some((step.simulator, step.turn));
        Ok(())
    }

    /// Whether the last step belongs to this turn of this simulator.
    fn is_turn(&self, simulator: usize, turn: u64) -> bool
        ensures { result ≡ is_turn self.now.last simulator turn }
    {
        match self.last {
            None => false,
            Some((of, number)) => of == simulator && number == turn,
        }
    }
}

impl Observer for StepTexts {
    ghost use Rattle.step_words.specs.Reported.{IsReported};

    ghost sees = { IsReported };

    fn step(&mut self, room: &mut RoomCore, i: usize) -> StepReply {
        let _shape = room.spec().shape(); // for the proof: the room is one that its simulators lead to
        let number = next_number(room);
        let start = StepStart::of(room, i);
        let (reply, taken) = take_step(room, i);
        if let Some(step) = taken {
            let consequence = Consequence {
                effect: start.effect(room, i),
                unreadable: asked_of(room, &step),
                agreement: agreement_for(self.json, room, step.place),
            };
            let numbered = NumberedStep {
                number,
                step: &step,
                consequence,
            };
            self.note(room.spec(), &numbered);
        }
        reply
    }
}

/// What keeps the agreement from being read that the turn of the step that led to this room asked about, if the step ended it quiet.
fn asked_of(room: &RoomCore, step: &AtomicStep) -> Option<Unreadable>
    ensures { (fields : Fields) → AreFieldsOf room.now fields → result ≡ asked_of room.now.spec fields step.now.process step.now.end }
{
    match step.end {
        Some(Goal::Ask { round }) => unreadable_agreement(room, step.process, usize::from(round)),
        Some(Goal::AskInput) => unreadable_agreement(room, step.process, 0),
        Some(Goal::Write { .. } | Goal::Propose { .. } | Goal::Done | Goal::Spent) | None => None,
    }
}

/// What keeps the agreement from being read whose levels are at a place, for JSON.
fn agreement_for(json: bool, room: &RoomCore, place: Place) -> Option<Unreadable>
    ensures { (fields : Fields) → AreFieldsOf room.now fields → result ≡ agreement_for json room.now.spec fields place }
{
    if json {
        agreement_at(room, place)
    } else {
        None
    }
}

fn agreement_at(room: &RoomCore, place: Place) -> Option<Unreadable>
    ensures { (fields : Fields) → AreFieldsOf room.now fields → result ≡ agreement_at room.now.spec fields place }
{
    match place {
        Place::Levels { process, round } => unreadable_agreement(room, process, round),
        Place::Memory { .. } | Place::View { .. } | Place::Value { .. } | Place::Out { .. } => None,
    }
}
