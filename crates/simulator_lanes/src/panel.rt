//! What is drawn of a room.
ghost use Rattle.std.specs.Prelude.{◌≡◌, ◌++◌, ◌≤◌, [], IfOk, None, Some, OnErr, OnOk, is_none, length};
ghost use Rattle.simulator_lanes.specs.Panels.{IsHeadOf, events_in, states_in, words_in};

use room_spec::{MAX_PROCESSES, Spec};
use run_columns::Mark;
use std::alloc::{AllocError, Global};
use std::marker::Model;
use transcript::Event;
use ws_history::{ProcessState, Report};

/// A room's spec, and the block that says it.
#[derive(Drop)]
pub struct Head {
    pub spec: Spec,
    pub block: Vec<u8>,
}

impl Head {
    /// A spec, with the block that says it.
    ///
    /// # Errors
    ///
    /// An allocation that fails.
    pub fn of(alloc: Global, spec: &Spec, block: &[u8]) -> Result<Head, AllocError>
        ensures { IfOk result (IsHeadOf spec.now block.now) }
    {
        Ok(Head {
            spec: spec.clone()?,
            block: Vec::from_slice(alloc, block)?,
        })
    }
}

/// What is drawn of a room: its spec, what happened in it, and its final state.
#[derive(Drop)]
pub struct Panel {
    head: Head,
    marks: Vec<Mark>,
    report: Option<Report>,
}

impl Model for Panel {
    ghost use Rattle.std.specs.Coded.{codes};
    ghost use Rattle.protocol_lang.specs.Codes.{expression_code};
    ghost use Rattle.simulator_lanes.specs.Panels.{Panel as PanelData};

    ghost Value = { PanelData };

    ghost coded = { Prim.hlevel (codes, expression_code) };

    ghost view = { λ panel. record { head = panel.head; marks = panel.marks.items; report = panel.report } };
}

impl Panel {
    /// A room in which nothing has happened yet.
    pub fn new(alloc: Global, head: Head) -> Panel
        ensures { result ≡ record { head = head; marks = []; report = None } }
    {
        Panel {
            head,
            marks: Vec::new(alloc),
            report: None,
        }
    }

    /// The room's spec.
    pub fn head(&self) -> &Head
        ensures { result.now ≡ self.now.head }
    {
        &self.head
    }

    /// What happened in the room, in order.
    pub fn marks(&self) -> &[Mark]
        ensures { result.now ≡ self.now.marks }
    {
        &self.marks
    }

    /// Whether the room's final state isn't known yet.
    pub fn is_open(&self) -> bool
        ensures { result ≡ is_none self.now.report }
    {
        self.report.is_none()
    }

    /// Notes what happened next in the room.
    ///
    /// # Errors
    ///
    /// If an allocation fails. The panel is then as it was.
    pub fn note(&mut self, marks: &[Mark]) -> Result<(), AllocError>
        ensures noted { OnOk result (self.new ≡ record self.old { marks = self.old.marks ++ marks.now }) }
        ensures err { OnErr result (self.new ≡ self.old) }
    {
        self.marks.extend_from_slice(marks)
    }

    /// Notes the room's final state.
    pub fn finish(&mut self, report: Report)
        ensures { self.new ≡ record self.old { report = Some report } }
    {
        self.report = Some(report);
    }

    /// How many simulators the room has.
    pub fn simulators(&self) -> u8
        ensures { result ≡ self.now.head.spec.simulators }
    {
        self.head.spec.m() as u8
    }

    /// Of how many words a snapshot is read, 1 to 4.
    pub fn words(&self) -> usize
        ensures value { result ≡ words_in self.now }
        ensures range { (1 ≤ result) × (result ≤ 4) }
    {
        self.head.spec.shape().memory_words()
    }

    /// The state of each process; none if that isn't known yet.
    pub fn states(&self) -> &[ProcessState]
        ensures value { result.now ≡ states_in self.now.report }
        ensures few { length result.now ≤ MAX_PROCESSES }
    {
        match &self.report {
            None => &[],
            Some(report) => report.states.as_slice(),
        }
    }

    /// What the processes did, in order.
    pub fn events(&self) -> &[Event]
        ensures { result.now ≡ events_in self.now.report }
    {
        match &self.report {
            None => &[],
            Some(report) => report.history.events(),
        }
    }
}
