//! What is asked of the rooms of a file.
ghost use Rattle.std.specs.Prelude.{◌≡◌};
ghost use Rattle.view_outcomes.specs.Asked.{has_inputs, is_alone, top_of};
ghost use Rattle.view_outcomes.specs.Blocks.{is_for_people};
ghost use Rattle.view_outcomes.specs.Forms.{form_if, is_brief_alone, is_text};

use decision_tasks::DecisionTask;
use room_spec::Spec;
use std::alloc::Global;

/// What is asked of each room.
#[derive(Clone, Copy)]
pub enum Asked<'a> {
    /// All its outcomes.
    Outcomes,
    /// The first outcomes of the list, this number of them, and how many more there are.
    First(u32),
    /// The outcome of this number in the list, from 1, and nothing else.
    Outcome(u32),
    /// Whether each run keeps the room's task.
    Task,
    /// With which inputs each run keeps the room's task, of all vectors of these values.
    Inputs(&'a [u32]),
    /// Whether each run keeps this task of one's own, and the room's task.
    Keeps(&'a DecisionTask),
}

impl Asked<'_> {
    /// How many outcomes are shown at most, if not all are.
    pub(crate) fn top(self) -> Option<u32>
        ensures { result ≡ top_of self.entry }
    {
        match self {
            Asked::First(number) => Some(number),
            _ => None,
        }
    }

    /// Whether only one outcome is asked for.
    fn is_alone(self) -> bool
        ensures { result ≡ is_alone self.entry }
    {
        matches!(self, Asked::Outcome(_))
    }

    /// Whether the inputs are given: all vectors of some values.
    pub(crate) fn has_inputs(self) -> bool
        ensures { result ≡ has_inputs self.entry }
    {
        matches!(self, Asked::Inputs(_))
    }
}

/// How answers are written.
#[derive(Clone, Copy)]
pub enum Form {
    /// As text for people, with transcripts.
    Text,
    /// As JSON, an object a line.
    Json,
}

impl Form {
    /// JSON if that is asked for, and else text.
    pub fn of(json: bool) -> Form
        ensures { result ≡ form_if json }
    {
        if json { Form::Json } else { Form::Text }
    }

    fn is_text(self) -> bool
        ensures { result ≡ is_text self }
    {
        matches!(self, Form::Text)
    }
}

/// How rooms are searched, and what is written of them.
#[derive(Clone, Copy)]
pub struct Search<'a> {
    /// At most this number of processes stop; if it is not said, all but one. Only outcomes depend on it.
    pub crashes: Option<u32>,
    /// How many nodes of a room are searched at most.
    pub nodes: u32,
    /// Whether transcripts are left out, in JSON the events of runs.
    pub brief: bool,
    pub form: Form,
    pub asked: Asked<'a>,
}

impl Search<'_> {
    /// Whether text for people is written, and not only transcripts or JSON.
    pub(crate) fn is_for_people(&self) -> bool
        ensures { result ≡ is_for_people self.now }
    {
        self.form.is_text() && !self.asked.is_alone()
    }

    /// Whether the run of an outcome that is shown alone is left out.
    pub(crate) fn is_brief_alone(&self) -> bool
        ensures { result ≡ is_brief_alone self.now.form self.now.brief }
    {
        self.brief && !self.form.is_text()
    }
}

/// A room that is searched: the room, a block that says it, and what is asked of it.
#[derive(Clone, Copy)]
pub struct SearchedRoom<'a> {
    pub alloc: Global,
    pub spec: &'a Spec,
    pub block: &'a [u8],
    pub search: &'a Search<'a>,
}
