//! The report of a room.
ghost use Rattle.std.specs.Prelude.{◌≡◌, ◌≢◌, ◌+◌, ◌⊎◌, ◌<◌, ◌≤◌, ℕ, IfOk, false, length, slice_index_or};
ghost use Rattle.std.specs.List.{Contains, count_by};
ghost use Rattle.room_spec.specs.Rooms.{IsCertified, is_reduction, processes};
ghost use Rattle.room_core.specs.Fields.{Fields};
ghost use Rattle.room_core.specs.Reading.{AreFieldsOf};
ghost use Rattle.room_core.specs.Settled.{IsSettledFor, crashed_in};
ghost use Rattle.ws_history.specs.declared.states.ProcessState.TheVariants.{Going, Held, Spent};
ghost use Rattle.ws_history.specs.Readings.{read_of};
ghost use Rattle.ws_history.specs.Reports.{IsReportTo, IsTrueReport, held_by, held_in, is_decided, is_inside, is_inside_input, is_over, is_spent, report_of, state_of, states_of};

use crate::agreements::{asks, is_resolved};
use crate::event_sink::EventSink;
use crate::histories::{history, pass_history};
use crate::reading::{
    decided_in, has_crashed, level, process_count, round_count, shape_of, simulator_count,
};
use crate::states::{History, ProcessState, Report, Standing};
use arrayvec::ArrayVec;
use protocol_lang::Action;
use room_core::RoomCore;
use room_spec::{MAX_PROCESSES, MAX_SIMULATORS};
use std::alloc::{AllocError, Global};

/// The report of a room: the state of each process, which simulators have crashed, and the history.
/// At most as many processes are held as simulators have crashed, since a simulator is inside one
/// agreement at a time (Borowsky et al. 2001, section 4). The room is only read.
///
/// # Errors
///
/// An allocation that fails.
pub fn report(alloc: Global, room: &RoomCore) -> Result<Report, AllocError>
    // It is that of any fields that the room stands for.
    ensures fields { (fields : Fields) → AreFieldsOf room.now fields → IfOk result (λ report. report ≡ report_of room.now.spec fields) }
    // The history is a run of the processes on write-snapshot memory, in a reduction from inputs that are the simulators' own, with each process's
    // decision and no other; and at most as many processes are held as simulators have crashed.
    ensures truth { (fields : Fields) → AreFieldsOf room.now fields → IfOk result (IsTrueReport room.now.spec fields) }
    // Those that are held are among all that have no decision and an agreement inside which a simulator has crashed.
    ensures among { (fields : Fields) →
        AreFieldsOf room.now fields →
        IfOk result
        (λ report. (j i : ℕ) → j < processes room.now.spec → slice_index_or report.states.items j Going ≡ Held i →
        Contains (held_in room.now.spec fields) j) }
    // If each process has settled, all have decided or are spent but for at most as many as simulators have crashed.
    ensures settled { (fields : Fields) →
        AreFieldsOf room.now fields → ((j : ℕ) → j < processes room.now.spec → IsSettledFor room.now.spec fields j) →
        IfOk result (λ report. processes room.now.spec ≤ count_by is_over report.states.items + length report.crashed.items) }
    // In an ordinary room of a protocol that waits for all but f processes, with two rounds or more, no process is spent, and so it is in a
    // reduction with f + 1 simulators or fewer; so if each has settled, all have decided but for at most as many as simulators have crashed.
    ensures unspent { (f : ℕ) →
        IsCertified room.now.spec f → (is_reduction room.now.spec ≡ false) ⊎ (room.now.spec.simulators ≤ f + 1) → 2 ≤ room.now.spec.rounds →
        IfOk result (λ report. (j : ℕ) → j < processes room.now.spec → slice_index_or report.states.items j Going ≢ Spent) }
    ensures certified { (fields : Fields) →
        AreFieldsOf room.now fields → (f : ℕ) → IsCertified room.now.spec f →
        (is_reduction room.now.spec ≡ false) ⊎ (room.now.spec.simulators ≤ f + 1) → 2 ≤ room.now.spec.rounds →
        ((j : ℕ) → j < processes room.now.spec → IsSettledFor room.now.spec fields j) →
        IfOk result (λ report. processes room.now.spec ≤ count_by is_decided report.states.items + length report.crashed.items) }
    // In every room of such a protocol, also in a reduction, more than f have decided then if no simulator has crashed, and one less for each
    // that has.
    ensures most { (fields : Fields) →
        AreFieldsOf room.now fields → (f : ℕ) → IsCertified room.now.spec f →
        ((j : ℕ) → j < processes room.now.spec → IsSettledFor room.now.spec fields j) →
        IfOk result (λ report. f < count_by is_decided report.states.items + length report.crashed.items) }
{
    let _shape = shape_of(room); // for the proof: the room stands for some fields
    let history = history(alloc, room)?;
    Ok(Report {
        states: states_of(room),
        crashed: crashed_in(room),
        history: History::new(history),
    })
}

/// The report of a room, with its history passed to a sink in place of a list. The room is only read.
///
/// # Errors
///
/// An allocation that fails.
pub fn report_to<S: EventSink>(
    alloc: Global,
    room: &RoomCore,
    sink: &mut S,
) -> Result<Standing, AllocError>
    ensures { IfOk result (λ standing. IsReportTo room.now standing (S.has_taken sink.old) (S.has_taken sink.new)) }
{
    let _shape = shape_of(room); // for the proof: the room stands for some fields
    pass_history(alloc, sink, room)?;
    Ok(Standing {
        states: states_of(room),
        crashed: crashed_in(room),
    })
}

/// The states of the processes, as the report has them, without a history.
pub fn process_states(room: &RoomCore) -> ArrayVec<ProcessState, MAX_PROCESSES>
    ensures { (fields : Fields) → AreFieldsOf room.now fields → result.items ≡ states_of room.now.spec fields }
{
    let _shape = shape_of(room); // for the proof: the room is within its limits
    states_of(room)
}

fn states_of(room: &RoomCore) -> ArrayVec<ProcessState, MAX_PROCESSES>
    ensures { result.items ≡ states_of room.now.spec (read_of room.now) }
{
    let mut states = ArrayVec::new();
    for j in 0..process_count(room) {
        states.push(state_of(room, j));
    }
    states
}

/// The simulators that have crashed, in order of their numbers.
fn crashed_in(room: &RoomCore) -> ArrayVec<u8, MAX_SIMULATORS>
    ensures { result.items ≡ crashed_in room.now.spec (read_of room.now) }
{
    let mut crashed = ArrayVec::new();
    for i in 0..simulator_count(room) {
        if has_crashed(room, i) {
            crashed.push(i as u8);
        }
    }
    crashed
}

fn state_of(room: &RoomCore, j: usize) -> ProcessState
    requires { j < processes room.now.spec }
    ensures { result ≡ state_of room.now.spec (read_of room.now) j }
{
    if let Some(v) = decided_in(room, j) {
        return ProcessState::Decided(v);
    }
    if is_spent(room, j) {
        return ProcessState::Spent;
    }
    match held_by(room, j) {
        Some(i) => ProcessState::Held(i),
        None => ProcessState::Going,
    }
}

/// Whether its last snapshot was agreed on and asks for a write.
fn is_spent(room: &RoomCore, j: usize) -> bool
    requires { j < processes room.now.spec }
    ensures { result ≡ is_spent room.now.spec (read_of room.now) j }
{
    let last = round_count(room);
    is_resolved(room, j, last) && matches!(asks(room, j, last), Action::Write(_))
}

/// The least simulator that has crashed inside an agreement on a snapshot of process `j`, or on its input.
fn held_by(room: &RoomCore, j: usize) -> Option<u8>
    requires { j < processes room.now.spec }
    ensures { result ≡ held_by room.now.spec (read_of room.now) j }
{
    for i in 0..simulator_count(room) {
        if has_crashed(room, i) && is_inside(room, i, j) {
            return Some(i as u8);
        }
    }
    None
}

/// Whether simulator `i` is at level 1 in an agreement on a snapshot of process `j`, or in a reduction in that on its input.
#[tactic(auto, using(view_table::proofs::CallerLemmas::agreement_round))]
fn is_inside(room: &RoomCore, i: usize, j: usize) -> bool
    requires simulator { i < room.now.spec.simulators }
    requires process { j < processes room.now.spec }
    ensures { result ≡ is_inside room.now.spec (read_of room.now) i j }
{
    if is_inside_input(room, i, j) {
        return true;
    }
    for r in 0..round_count(room) {
        if level(room, i, j, r + 1) == 1 {
            return true;
        }
    }
    false
}

/// Whether simulator `i` is at level 1 in the agreement on the input of process `j`, which a reduction has.
fn is_inside_input(room: &RoomCore, i: usize, j: usize) -> bool
    requires simulator { i < room.now.spec.simulators }
    requires process { j < processes room.now.spec }
    ensures { result ≡ is_inside_input room.now.spec (read_of room.now) i j }
{
    room.spec().is_reduction() && level(room, i, j, 0) == 1
}
