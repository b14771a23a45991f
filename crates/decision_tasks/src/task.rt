//! Tasks of one's own.
ghost use Rattle.std.specs.Prelude.{◌≡◌, ◌<◌, IfNone, IfOk, IfSome, length, map, slice_index_or};
ghost use Rattle.room_spec.specs.Rooms.{processes};
ghost use Rattle.decision_tasks.specs.Lines.{place_in};
ghost use Rattle.protocol_lang.specs.Trees.{Tree};
ghost use Rattle.protocol_lang.specs.FirstFaults.{place_of};
ghost use Rattle.protocol_lang.specs.Reading.{reading};
ghost use Rattle.protocol_lang.specs.declared.meaning.TheConstants.{MAX_PROCESSES};
ghost use Rattle.decision_tasks.specs.Lines.{protocol_text};
ghost use Rattle.decision_tasks.specs.Tasks.{AreAllowed, IsFirstRefused, given, holds, is_allowed, is_one, task_from, task_in};

use crate::line::{HEAD, lines_of, protocol_text};
use protocol_lang::{Action, MAX_PROCESSES, ParseFault, Protocol, View, next, parse_bytes};
use room_spec::Spec;
use std::alloc::{AllocError, Global};
use std::marker::Model;

/// A task of one's own: a run keeps it if after each event one of its lines holds for each process that has decided.
#[derive(Drop)]
pub struct DecisionTask {
    lines: Vec<Protocol>,
}

impl Model for DecisionTask {
    ghost use Rattle.std.specs.Coded.{codes};
    ghost use Rattle.std.specs.Prelude.{List};
    ghost use Rattle.protocol_lang.specs.Codes.{expression_code};
    ghost use Rattle.protocol_lang.specs.Trees.{Tree};

    ghost Value = { List Tree };

    ghost coded = { Prim.hlevel (codes, expression_code) };

    ghost view = { λ task. task.lines.items };
}

/// Why a line is no condition.
#[derive(Clone, Copy, Debug)]
pub struct LineFault {
    /// The line's number, counted from 1.
    pub line: usize,
    /// Where in the line, in bytes counted from 1; one after its last if it ends too early.
    pub at: usize,
    pub fault: ParseFault,
}

impl DecisionTask {
    /// The task that a text says, or its first line that is no condition. Its lines have semicolons between them. A line is what is between `when` and `decide` in a
    /// rule of a protocol, with the word `given` in place of `round`: how many processes have what this one has decided as their input.
    ///
    /// # Errors
    ///
    /// An allocation that fails.
    pub fn read(alloc: Global, text: &[u8]) -> Result<Result<DecisionTask, LineFault>, AllocError>
        ensures { IfOk result (λ read. read ≡ task_in text.now) }
    {
        let lines = lines_of(alloc, text)?;
        DecisionTask::read_lines(alloc, lines.as_slice())
    }

    fn read_lines(
        alloc: Global,
        lines: &[&[u8]],
    ) -> Result<Result<DecisionTask, LineFault>, AllocError>
        ensures { IfOk result (λ read. read ≡ task_from 0 (map (λ line. line.now) lines.now)) }
    {
        let mut read = Vec::new(alloc);
        for index in 0..lines.len() {
            let line = lines[index];
            match read_line(alloc, line)? {
                Ok(protocol) => read.push(protocol)?,
                Err(fault) => {
                    let at = place_in(line, fault);
                    return Ok(Err(LineFault {
                        line: index + 1,
                        at,
                        fault,
                    }));
                }
            }
        }
        Ok(Ok(DecisionTask { lines: read }))
    }

    /// The first process that has decided what no line allows, and what it has decided, if there is one.
    pub fn first_refused(&self, spec: &Spec, decisions: &View) -> Option<(usize, u32)>
        requires { length decisions.now.items ≡ processes spec.now }
        ensures none { IfNone result (AreAllowed self.now spec.now.inputs decisions.now.items) }
        ensures some { IfSome result (λ refused. IsFirstRefused self.now spec.now.inputs decisions.now.items refused.0 refused.1) }
    {
        for p in 0..decisions.len() {
            let Some(v) = decisions[p] else {
                continue;
            };
            if !self.is_allowed(spec, decisions, p, v) {
                return Some((p, v));
            }
        }
        None
    }

    /// Whether one of the lines holds for process `p`, which has decided `v`.
    fn is_allowed(&self, spec: &Spec, decisions: &View, p: usize, v: u32) -> bool
        requires there { p < processes spec.now }
        requires small { p < MAX_PROCESSES }
        ensures { result ≡ is_allowed self.now spec.now.inputs decisions.now.items p v }
    {
        self.lines
            .as_slice()
            .iter()
            .any(|line| holds(line, spec, decisions, p, v))
    }
}

/// The protocol of a line.
fn read_line(alloc: Global, line: &[u8]) -> Result<Result<Protocol, ParseFault>, AllocError>
    ensures { IfOk result (λ read. read ≡ reading (protocol_text line.now)) }
{
    let text = protocol_text(alloc, line)?;
    match parse_bytes(alloc, text.as_bytes()) {
        Err(ParseFault::OutOfMemory) => Err(AllocError),
        read => Ok(read),
    }
}

/// Where in the line a fault of its protocol is.
fn place_in(line: &[u8], fault: ParseFault) -> usize
    ensures { result ≡ place_in line.now (place_of fault) }
{
    match fault.place() {
        None => 1,
        Some(place) => place.saturating_sub(HEAD.len()).min(line.len()) + 1,
    }
}

/// Whether a line holds for process `p`, which has decided `v`.
fn holds(line: &Protocol, spec: &Spec, decisions: &View, p: usize, v: u32) -> bool
    requires there { p < processes spec.now }
    requires small { p < MAX_PROCESSES }
    ensures { result ≡ holds spec.now.inputs decisions.now.items p v line.now }
{
    let action = next(line, spec.input(p), p as u32, given(spec, v), decisions);
    is_one(action)
}

fn is_one(action: Action) -> bool
    ensures { result ≡ is_one action }
{
    match action {
        Action::Write(_) => false,
        Action::Decide(v) => v == 1,
    }
}

/// How many processes have the input `v`.
fn given(spec: &Spec, v: u32) -> u32
    ensures { result ≡ given spec.now.inputs v }
{
    let mut count = 0;
    for p in 0..spec.n() {
        if spec.input(p) == v {
            count += 1;
        }
    }
    count
}
