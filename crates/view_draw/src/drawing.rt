//! Follows a script, and keeps what is drawn of it.
ghost use Rattle.std.specs.Prelude.{◌≡◌, [], false, IfOk, OnOk};
ghost use Rattle.script_play.specs.Play.{refusal_in};
ghost use Rattle.view_draw.specs.Drawn.{AreStepsNoted, IsFinal, closed_with, crash_marks, has_crashed, noted, opened_with};

use crate::panels::Panels;
use crate::recorder::Recorder;
use room_core::CrashReply;
use room_spec::{Spec, SpecFault};
use run_columns::Mark;
use script_play::{Asked, Follows, Order, refusal_in};
use service_core::{Reply, Service};
use simulator_lanes::Head;
use std::alloc::{AllocError, Global};
use ws_history::{Report, report};

/// A panel for each room that was opened, and what is to be drawn of the command that comes next.
#[derive(Drop)]
pub(crate) struct Drawing {
    alloc: Global,
    pub(crate) panels: Panels,
    /// What the panel of a room shows above the lanes that is to be opened.
    head: Option<Head>,
    /// The final report of a room that is to be closed.
    report: Option<Report>,
}

impl Drawing {
    pub(crate) fn new(alloc: Global) -> Drawing
        ensures { result.panels ≡ [] }
    {
        Drawing {
            alloc,
            panels: Panels::new(alloc),
            head: None,
            report: None,
        }
    }

    /// Draws that a room was opened, if it was.
    fn open(&mut self, reply: &Reply) -> Result<(), AllocError>
        ensures { OnOk result (self.new.panels ≡ opened_with self.old.head reply.now self.old.panels) }
    {
        match reply {
            Reply::Begun => match self.head.take() {
                Some(head) => self.panels.open(self.alloc, head),
                None => Ok(()),
            },
            _ => Ok(()),
        }
    }

    /// Draws the steps that were seen in the room of this name, if the command was not refused.
    fn note(
        &mut self,
        name: &[u8],
        reply: &Reply,
        watch: &Option<Recorder>,
    ) -> Result<(), AllocError>
        ensures { OnOk result (AreStepsNoted (refusal_in reply.now) name.now watch.now self.old.panels self.new.panels) }
    {
        match (refusal_in(reply), watch) {
            (None, Some(recorder)) => self.note_marks(name, recorder),
            _ => Ok(()),
        }
    }

    fn note_marks(&mut self, name: &[u8], recorder: &Recorder) -> Result<(), AllocError>
        ensures { OnOk result ((recorder.now.failed ≡ false) × (self.new.panels ≡ noted name.now recorder.now.marks self.old.panels)) }
    {
        let Some(marks) = recorder.marks() else {
            return Err(AllocError);
        };
        self.panels.note(name, marks)
    }

    /// Draws that a simulator of the room of this name has crashed, if it has.
    fn crash(&mut self, name: &[u8], sim: u8, reply: &Reply) -> Result<(), AllocError>
        ensures { OnOk result (self.new.panels ≡ noted name.now (crash_marks sim reply.now) self.old.panels) }
    {
        let crash = [Mark::Crash { simulator: sim }];
        let marks = if has_crashed(reply) { &crash[..] } else { &[] };
        self.panels.note(name, marks)
    }

    /// Draws that the room of this name was closed, if it was.
    fn close(&mut self, name: &[u8], reply: &Reply)
        ensures { self.new.panels ≡ closed_with name.now self.old.report reply.now self.old.panels }
    {
        match reply {
            Reply::Closed => {
                if let Some(report) = self.report.take() {
                    self.panels.finish(name, report);
                }
            }
            _ => {}
        }
    }
}

/// Whether a reply says that a simulator has crashed just now.
fn has_crashed(reply: &Reply) -> bool
    ensures { result ≡ has_crashed reply.now }
{
    match reply {
        Reply::Crash(CrashReply::Crashed) => true,
        _ => false,
    }
}

/// The report of the room of this name, if there is one.
fn final_report(alloc: Global, rooms: &Service, name: &[u8]) -> Result<Option<Report>, AllocError>
    ensures { IfOk result (λ report. IsFinal rooms.now name.now report) }
{
    let Some(room) = rooms.room(name) else {
        return Ok(None);
    };
    let report = report(alloc, room)?;
    Ok(Some(report))
}

impl Follows for Drawing {
    ghost use Rattle.std.specs.Prelude.{◌≡◌};
    ghost use Rattle.view_draw.specs.Drawn.{IsDrawnBy, IsReady};

    type Watch = Recorder;

    ghost follows = { λ old rooms done left new. IsDrawnBy old.panels rooms done left new.panels };

    ghost readies = { λ old rooms command new watch. (new.panels ≡ old.panels) × IsReady rooms command new.head new.report watch };

    fn opens(
        &mut self,
        alloc: Global,
        block: &[u8],
        spec: &Spec,
    ) -> Result<Option<Recorder>, AllocError> {
        let _shape = spec.shape(); // for the proof: the room is within its limits
        self.head = Some(Head::of(alloc, spec, block)?);
        Ok(None)
    }

    fn before(
        &mut self,
        alloc: Global,
        asked: &Asked<'_>,
        rooms: &Service,
    ) -> Result<Option<Recorder>, AllocError> {
        match asked.order {
            Order::Step { .. } | Order::Settle => Ok(Some(Recorder::new(alloc))),
            Order::Close => {
                self.report = final_report(alloc, rooms, asked.name)?;
                Ok(None)
            }
            Order::Open | Order::Crash(_) | Order::Report => Ok(None),
        }
    }

    fn after(
        &mut self,
        asked: &Asked<'_>,
        reply: Reply,
        watch: &mut Option<Recorder>,
        _rooms: &Service,
    ) -> Result<(), AllocError> {
        match asked.order {
            Order::Open => self.open(&reply),
            Order::Step { .. } => self.note(asked.name, &reply, watch),
            Order::Settle => self.note(asked.name, &reply, watch),
            Order::Crash(sim) => self.crash(asked.name, sim, &reply),
            Order::Report => Ok(()),
            Order::Close => {
                self.close(asked.name, &reply);
                Ok(())
            }
        }
    }

    fn refuse(&mut self, _line: u64, _fault: SpecFault) -> Result<(), AllocError> {
        Ok(())
    }

    fn out_of_memory(&mut self, _line: u64) -> Result<(), AllocError> {
        Ok(())
    }
}
