//! The history of a room.
ghost use Rattle.std.specs.Prelude.{◌≡◌, ℕ, ◌+◌, ◌<◌, ◌≤◌, [], ◌∷◌, ◌++◌, IfOk, OnOk, false, true, length, map, max, replicate, slice_index};
ghost use Rattle.std.specs.List.{sum};
ghost use Rattle.protocol_lang.specs.declared.meaning.TheConstants.{MAX_PROCESSES};
ghost use Rattle.room_spec.specs.Rooms.{is_reduction, processes};
ghost use Rattle.ws_history.specs.Histories.{new_writes};
ghost use Rattle.room_core.specs.Fields.{Fields};
ghost use Rattle.room_core.specs.Reading.{AreFieldsOf};
ghost use Rattle.sim_memory.specs.Steps.{row_of};
ghost use Rattle.room_core.specs.Agreements.{greatest_step, run_spec, shown, shown_by};
ghost use Rattle.transcript.specs.Reductions.{IsRunOf};
ghost use Rattle.transcript.specs.Runs.{IsRun};
ghost use Rattle.transcript.specs.declared.event.Event.TheVariants.{Snap};
ghost use Rattle.ws_history.specs.Inputs.{IsRoomRun};
ghost use Rattle.ws_history.specs.Placing.{agreed_at, shown_with};
ghost use Rattle.ws_history.specs.Readings.{read_of};
ghost use Rattle.ws_history.specs.Sources.{history_of, source_of};
ghost use Rattle.ws_history.specs.Running.{IsSnapshotOf, block_on, decision_on, row_on, writes_between};
ghost use Rattle.ws_history.specs.Taking.{TakesMore};

use crate::agreements::{shown_at, shown_by, written};
use crate::event_sink::EventSink;
use crate::reading::{
    Row, decided_in, greatest_steps, number_of, process_count, round_count, shape_of,
};
use crate::snapshots::{Agreed, in_order, sum};
use protocol_lang::View;
use room_core::RoomCore;
use room_spec::MAX_ROUNDS;
use std::alloc::{AllocError, Global};
use transcript::Event;

/// What the snapshots so far have shown: how many writes of each process, and the value of the last of them.
#[derive(Drop)]
struct Shown {
    counts: Row,
    values: View,
}

/// The history of the room's processes: the snapshots that were agreed on, by the sum of their rows
/// and then by process; before each the writes that it is the first to show, and after it the
/// decision of its process, if that follows it; at the end the writes that none of them shows. It is
/// a run of the processes on a memory of single writers and atomic snapshots (Afek et al. 1993), which
/// is the simulation theorem (Borowsky et al. 2001). In a reduction it is a run from the inputs that were agreed on, which are the simulators'
/// own: see [`run_inputs`](crate::run_inputs). The room is only read.
///
/// # Errors
///
/// An allocation that fails.
pub fn history(alloc: Global, room: &RoomCore) -> Result<Vec<Event>, AllocError>
    // It is that of any fields that the room stands for.
    ensures fields { (fields : Fields) → AreFieldsOf room.now fields → IfOk result (λ events. events.items ≡ history_of room.now.spec fields) }
    // It is a run of the processes on write-snapshot memory, in a reduction from the inputs that were agreed on,
    ensures run { (fields : Fields) → AreFieldsOf room.now fields → IfOk result (λ events. IsRun (run_spec room.now.spec fields) events.items) }
    ensures ordinary { is_reduction room.now.spec ≡ false → IfOk result (λ events. IsRun room.now.spec events.items) }
    // which are the simulators' own.
    ensures from_own { is_reduction room.now.spec ≡ true → IfOk result (λ events. IsRunOf room.now.spec events.items) }
    // So in both kinds it is a run of the room.
    ensures of_room { IfOk result (λ events. IsRoomRun room.now.spec events.items) }
{
    let _shape = shape_of(room); // for the proof: the room stands for some fields
    let events = read_history(alloc, room)?;
    Ok(events)
}

/// The history of the fields that the room's words say.
fn read_history(alloc: Global, room: &RoomCore) -> Result<Vec<Event>, AllocError>
    ensures { IfOk result (λ events. events.items ≡ history_of room.now.spec (read_of room.now)) }
{
    let greatest = greatest_steps(room);
    let order = in_order(alloc, room, greatest.as_slice())?;
    let mut events = Vec::with_capacity(
        alloc,
        most_events(room, order.as_slice(), greatest.as_slice()),
    )?;
    pass_events(&mut events, room, order.as_slice(), greatest.as_slice())?;
    Ok(events)
}

/// Passes the history of the fields that the room's words say to the sink.
pub(crate) fn pass_history<S: EventSink>(
    alloc: Global,
    sink: &mut S,
    room: &RoomCore,
) -> Result<(), AllocError>
    ensures { OnOk result (TakesMore (S.has_taken sink.old) (history_of room.now.spec (read_of room.now)) (S.has_taken sink.new)) }
{
    let greatest = greatest_steps(room);
    let order = in_order(alloc, room, greatest.as_slice())?;
    pass_events(sink, room, order.as_slice(), greatest.as_slice())
}

/// Passes the history's events to the sink, by the snapshots that were agreed on, in their order, and by how many writes of each
/// process have been made.
fn pass_events<S: EventSink>(
    sink: &mut S,
    room: &RoomCore,
    order: &[Agreed],
    greatest: &[u8],
) -> Result<(), AllocError>
    requires order { order.now ≡ map (agreed_at room.now) (source_of room.now.spec (read_of room.now)).order }
    requires greatest { greatest.now ≡ row_of room.now.spec.simulators (processes room.now.spec) (read_of room.now).step }
    requires count { length greatest.now ≡ processes room.now.spec }
    requires range { (p : ℕ) → slice_index greatest.now p ≤ room.now.spec.rounds }
    ensures { OnOk result (TakesMore (S.has_taken sink.old) (history_of room.now.spec (read_of room.now)) (S.has_taken sink.new)) }
{
    let counts = nothing(process_count(room));
    let values = shown_by(room, counts.as_slice());
    let mut shown = Shown { counts, values };
    for snapshot in order {
        push_block(sink, room, &mut shown, greatest, snapshot)?;
    }
    push_writes(sink, room, &mut shown, greatest)?;
    Ok(())
}

/// As many events as the history may have: each write, each snapshot, and a decision of each process.
fn most_events(room: &RoomCore, order: &[Agreed], greatest: &[u8]) -> usize
    requires count { length greatest.now ≡ processes room.now.spec }
    requires range { (p : ℕ) → slice_index greatest.now p ≤ room.now.spec.rounds }
    ensures { result ≡ sum greatest.now + length order.now + processes room.now.spec }
{
    let processes = process_count(room);
    let rounds = round_count(room);
    prove!(rounds <= MAX_ROUNDS as usize);
    sum(greatest) + order.len() + processes
}

/// No write of any of `n` processes.
fn nothing(n: usize) -> Row
    requires { n ≤ MAX_PROCESSES }
    ensures { result.items ≡ replicate n 0 }
{
    let mut row = Row::new();
    for _ in 0..n {
        row.push(0);
    }
    row
}

/// The writes that the snapshot is the first to show, the snapshot, and the decision after it if
/// there is one. `shown` is what the earlier ones show, and then what it shows too; `greatest` is how
/// many writes of each process have been made.
fn push_block<S: EventSink>(
    sink: &mut S,
    room: &RoomCore,
    shown: &mut Shown,
    greatest: &[u8],
    snapshot: &Agreed,
) -> Result<(), AllocError>
    requires shown { length shown.old.counts.items ≡ processes room.now.spec }
    requires view { shown.old.values.items ≡ shown_by room.now.spec (read_of room.now) shown.old.counts.items }
    requires greatest { greatest.now ≡ row_of room.now.spec.simulators (processes room.now.spec) (read_of room.now).step }
    requires is { IsSnapshotOf room.now snapshot.now }
    ensures events { OnOk result (TakesMore (S.has_taken sink.old) (block_on room.now shown.old.counts.items snapshot.now) (S.has_taken sink.new)) }
    ensures shown { OnOk result (shown.new.counts.items ≡ shown_with shown.old.counts.items (row_on room.now snapshot.now)) }
    ensures view { OnOk result (shown.new.values.items ≡ shown_by room.now.spec (read_of room.now) shown.new.counts.items) }
{
    let row = row_in(room, snapshot);
    push_writes(sink, room, shown, row)?;
    push_snap(sink, room, snapshot.process, row, shown)?;
    push_decision(
        sink,
        room,
        snapshot,
        greatest[usize::from(snapshot.process)],
    )?;
    Ok(())
}

/// How many writes of each process the snapshot shows.
fn row_in<'a>(room: &RoomCore, snapshot: &'a Agreed) -> &'a [u8]
    requires { IsSnapshotOf room.now snapshot.now }
    ensures value { result.now ≡ row_on room.now snapshot.now }
    ensures count { length result.now ≡ processes room.now.spec }
    ensures range { (p : ℕ) → slice_index result.now p ≤ room.now.spec.rounds }
{
    snapshot.row.as_slice()
}

/// The snapshot of process `p` with this row, by what is shown. Rows rise, so all that is shown is what the row shows.
fn push_snap<S: EventSink>(
    sink: &mut S,
    room: &RoomCore,
    p: u8,
    row: &[u8],
    shown: &Shown,
) -> Result<(), AllocError>
    requires length { length row.now ≡ processes room.now.spec }
    requires range { (p : ℕ) → slice_index row.now p ≤ room.now.spec.rounds }
    requires shown { length shown.now.counts.items ≡ processes room.now.spec }
    requires view { shown.now.values.items ≡ shown_by room.now.spec (read_of room.now) shown.now.counts.items }
    ensures { OnOk result (TakesMore
        (S.has_taken sink.old)
        (Snap p (record { items = shown_by room.now.spec (read_of room.now) row.now }) ∷ [])
        (S.has_taken sink.new)) }
{
    if row == shown.counts.as_slice() {
        return sink.snap(p, shown.values.as_slice());
    }
    sink.snap(p, view_of(room, row, shown).as_slice())
}

/// What a row shows of each process, by what was shown before.
#[cold]
#[inline(never)]
fn view_of(room: &RoomCore, row: &[u8], shown: &Shown) -> View
    requires length { length row.now ≡ processes room.now.spec }
    requires range { (p : ℕ) → slice_index row.now p ≤ room.now.spec.rounds }
    requires shown { length shown.now.counts.items ≡ processes room.now.spec }
    requires view { shown.now.values.items ≡ shown_by room.now.spec (read_of room.now) shown.now.counts.items }
    ensures { result.items ≡ shown_by room.now.spec (read_of room.now) row.now }
{
    let mut all = View::new();
    for p in 0..process_count(room) {
        all.push(value_after(room, p, row[p], shown.counts[p], shown.values[p]));
    }
    all
}

/// The last value of process `p` after `r` writes of it, by that after `known` of them.
fn value_after(room: &RoomCore, p: usize, r: u8, known: u8, value: Option<u32>) -> Option<u32>
    requires process { p < processes room.now.spec }
    requires round { r ≤ room.now.spec.rounds }
    requires value { value ≡ shown room.now.spec (read_of room.now) p known }
    ensures { result ≡ shown room.now.spec (read_of room.now) p r }
{
    if r == known {
        value
    } else {
        shown_at(room, p, r)
    }
}

/// What is decided after the snapshot, if anything is, by how many writes of its process have been
/// made.
fn push_decision<S: EventSink>(
    sink: &mut S,
    room: &RoomCore,
    snapshot: &Agreed,
    greatest: u8,
) -> Result<(), AllocError>
    requires process { snapshot.now.process < processes room.now.spec }
    requires greatest { greatest ≡ greatest_step room.now.spec (read_of room.now) snapshot.now.process }
    ensures { OnOk result (TakesMore (S.has_taken sink.old) (decision_on room.now snapshot.now) (S.has_taken sink.new)) }
{
    if greatest == snapshot.round {
        if let Some(v) = decided_in(room, usize::from(snapshot.process)) {
            return sink.decide(snapshot.process, v);
        }
    }
    Ok(())
}

/// The writes of each process after those that are shown, up to `upto`. These are shown then too.
#[inline(always)]
fn push_writes<S: EventSink>(
    sink: &mut S,
    room: &RoomCore,
    shown: &mut Shown,
    upto: &[u8],
) -> Result<(), AllocError>
    requires shown { length shown.old.counts.items ≡ processes room.now.spec }
    requires view { shown.old.values.items ≡ shown_by room.now.spec (read_of room.now) shown.old.counts.items }
    requires upto { length upto.now ≡ processes room.now.spec }
    requires range { (p : ℕ) → slice_index upto.now p ≤ room.now.spec.rounds }
    ensures events { OnOk result (TakesMore (S.has_taken sink.old) (writes_between room.now shown.old.counts.items upto.now) (S.has_taken sink.new)) }
    ensures shown { OnOk result (shown.new.counts.items ≡ shown_with shown.old.counts.items upto.now) }
    ensures view { OnOk result (shown.new.values.items ≡ shown_by room.now.spec (read_of room.now) shown.new.counts.items) }
{
    for p in 0..process_count(room) {
        if shown.counts[p] < upto[p] {
            shown.values[p] = push_writes_of(sink, room, p, shown, upto[p])?;
            shown.counts[p] = upto[p];
        }
    }
    Ok(())
}

/// The same of process `p`, up to its write `upto`: answers the value of the last write that is shown then.
#[inline(always)]
fn push_writes_of<S: EventSink>(
    sink: &mut S,
    room: &RoomCore,
    p: usize,
    before: &Shown,
    upto: u8,
) -> Result<Option<u32>, AllocError>
    requires process { p < processes room.now.spec }
    requires upto { upto ≤ room.now.spec.rounds }
    requires shown { length before.now.counts.items ≡ processes room.now.spec }
    requires view { before.now.values.items ≡ shown_by room.now.spec (read_of room.now) before.now.counts.items }
    ensures events { OnOk result (TakesMore
        (S.has_taken sink.old)
        (new_writes (source_of room.now.spec (read_of room.now)) p (slice_index before.now.counts.items p) upto)
        (S.has_taken sink.new)) }
    ensures value { IfOk result (λ last. last ≡ shown room.now.spec (read_of room.now) p (max (slice_index before.now.counts.items p) upto)) }
{
    let from = before.counts[p];
    let mut last = before.values[p];
    for more in 0..upto.saturating_sub(from) {
        let v = written(room, p, usize::from(from + 1 + more));
        sink.write(number_of(room, p), v)?;
        last = Some(v);
    }
    Ok(last)
}
