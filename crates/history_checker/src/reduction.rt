//! The verdict on a whole history of a reduction.
ghost use Rattle.std.specs.Prelude.{◌≡◌, ◌↔◌, ◌∷◌, ◌++◌, ◌<◌, ℕ, [], true, length, slice_index, IsOk, Err, MatchBool, MatchOption, MatchResult};
ghost use Rattle.room_spec.specs.Rooms.{RoomSpec, IsWithinLimits, is_reduction, processes as process_count};
ghost use Rattle.transcript.specs.Reductions.{IsFirstBreakOf, IsRunOf, MayHave, with_input};
ghost use Rattle.transcript.specs.Runs.{process_of};
ghost use Rattle.transcript.specs.declared.event.Event.TheVariants.{Decide, Snap, Write};
ghost use Rattle.history_checker.specs.Processes.{IsAt};
ghost use Rattle.history_checker.specs.Reductions.{MayHaveSome, StepsAlone, TracksSome};

use crate::history::open;
use crate::process::{Process, Turn, follow};
use protocol_lang::{Protocol, View, first, next};
use room_spec::{MAX_PROCESSES, Spec};
use transcript::Event;

/// Whether the events are a run of a reduction: a run of its protocol on write-snapshot memory from some inputs of the processes, each
/// of which is a simulator's own. Else the index, from 0, of the first event with which they are none. It takes no memory.
pub fn check_reduction(spec: &Spec, events: &[Event]) -> Result<(), usize>
    requires { is_reduction spec.now ≡ true }
    ensures run { IsOk result ↔ IsRunOf spec.now events.now }
    ensures first { (t : ℕ) → (result ≡ Err t) ↔ IsFirstBreakOf spec.now events.now t }
{
    let _ = spec.shape(); // for the proof: the room is within its limits
    let mut all = [Process::BLANK; MAX_PROCESSES];
    let processes = &mut all[..spec.n()];
    open(spec, processes);
    follow_each(processes, spec, events)
}

/// Has the processes of the room, which have followed nothing yet, follow the events as far as they are a run of it.
fn follow_each(processes: &mut [Process], spec: &Spec, events: &[Event]) -> Result<(), usize>
    requires limits { IsWithinLimits spec.now }
    requires tracks { TracksSome spec.now processes.old [] }
    ensures { MatchResult result (λ done. IsRunOf spec.now events.now) (IsFirstBreakOf spec.now events.now) }
{
    for (t, event) in events.iter().enumerate() {
        if !follow_some(processes, spec, &events[..t], event) {
            return Err(t);
        }
    }
    Ok(())
}

/// Has the processes follow an event, if with the input that its process has by now or with some simulator's own it may follow
/// those before it.
fn follow_some(processes: &mut [Process], spec: &Spec, before: &[Event], event: &Event) -> bool
    requires limits { IsWithinLimits spec.now }
    requires tracks { TracksSome spec.now processes.old before.now }
    ensures { MatchBool result (TracksSome spec.now processes.new (before.now ++ event.now ∷ [])) (IsRunOf spec.now (before.now ++ event.now ∷ []) → ⊥) }
{
    if follow(processes, spec.rounds() as u8, spec.protocol(), event).is_ok() {
        return true;
    }
    for i in 0..spec.m() {
        if follow_with(processes, spec, i, before, event) {
            return true;
        }
    }
    false
}

/// The same with the own input of simulator `i`.
fn follow_with(
    processes: &mut [Process],
    spec: &Spec,
    i: usize,
    before: &[Event],
    event: &Event,
) -> bool
    requires { TracksSome spec.now processes.old before.now }
    ensures { MatchBool result (TracksSome spec.now processes.new (before.now ++ event.now ∷ []))
        (TracksSome spec.now processes.new before.now × (i < length spec.now.own → MayHave spec.now (before.now ++ event.now ∷ []) (process_of event.now) (slice_index spec.now.own i) → ⊥)) }
{
    let Some(input) = spec.own(i) else {
        return false;
    };
    let p = usize::from(event.process());
    if p >= spec.n() {
        return false;
    }
    let Some(process) = again(spec, input, p, before) else {
        return false;
    };
    processes[p] = process;
    follow(processes, spec.rounds() as u8, spec.protocol(), event).is_ok()
}

/// Process `p` with another input after these events, if they may be its own with that input too.
fn again(spec: &Spec, input: u32, p: usize, before: &[Event]) -> Option<Process>
    requires process { p < process_count spec.now }
    requires some { MayHaveSome spec.now before.now p }
    ensures { MatchOption result (MayHave spec.now before.now p input → ⊥) (λ process. MayHave spec.now before.now p input × IsAt (with_input spec.now input) before.now p process) }
{
    let mut process = begin(spec, input, p);
    for event in before {
        if usize::from(event.process()) == p {
            process = after(process, spec, event)?;
        }
    }
    Some(process)
}

/// Process `p` before the first event, with this input.
fn begin(spec: &Spec, input: u32, p: usize) -> Process
    requires { p < process_count spec.now }
    ensures { IsAt (with_input spec.now input) [] p result }
{
    let n = spec.n();
    let value = first(spec.protocol(), input, p as u32, n as u32);
    Process {
        input,
        turn: Turn::Write(value),
        last: None,
        writes: 0,
    }
}

/// A process after an event of its own that may follow those before it with some input, if it may with its own.
fn after(process: Process, spec: &Spec, event: &Event) -> Option<Process>
    ensures { StepsAlone spec.now event.now process result }
{
    match event {
        Event::Write { v, .. } => wrote(process, spec.rounds() as u8, *v),
        Event::Snap { p, row } => saw(process, spec.protocol(), *p, row),
        Event::Decide { v, .. } => decided(process, *v),
    }
}

fn wrote(process: Process, rounds: u8, v: u32) -> Option<Process>
    ensures { (spec : RoomSpec) (p : ℕ) → spec.rounds ≡ rounds → StepsAlone spec (Write p v) process result }
{
    if !process.turn.is_write_of(v) || process.writes >= rounds {
        return None;
    }
    Some(Process {
        turn: Turn::Snap,
        last: Some(v),
        writes: process.writes + 1,
        ..process
    })
}

fn saw(process: Process, protocol: &Protocol, p: u8, row: &View) -> Option<Process>
    ensures { (spec : RoomSpec) → spec.protocol ≡ protocol.now → StepsAlone spec (Snap p row.now) process result }
{
    if !process.turn.is_snap() {
        return None;
    }
    let round = u32::from(process.writes);
    let action = next(protocol, process.input, u32::from(p), round, row);
    Some(Process {
        turn: Turn::of(action),
        ..process
    })
}

fn decided(process: Process, v: u32) -> Option<Process>
    ensures { (spec : RoomSpec) (p : ℕ) → StepsAlone spec (Decide p v) process result }
{
    if !process.turn.is_decide_of(v) {
        return None;
    }
    Some(Process {
        turn: Turn::Over,
        ..process
    })
}
