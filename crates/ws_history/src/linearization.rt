//! The linearization of a room's simulated execution.
ghost use Rattle.std.specs.Prelude.{◌≡◌, ℕ, ◌<◌, List, IfOk, OnOk, false, map};
ghost use Rattle.std.specs.List.{fold};
ghost use Rattle.room_spec.specs.Rooms.{is_reduction, processes};
ghost use Rattle.room_spec.specs.Sizes.{sizes_in};
ghost use Rattle.view_table.specs.Places.{IsRound};
ghost use Rattle.transcript.specs.Runs.{IsRun};
ghost use Rattle.room_core.specs.Agreements.{greatest_step, row_at, run_spec, shown_by};
ghost use Rattle.transcript.specs.declared.event.Event.TheVariants.{Snap};
ghost use Rattle.room_core.specs.Calls.{configuration_of};
ghost use Rattle.room_core.specs.Fields.{Fields};
ghost use Rattle.room_core.specs.Reading.{AreFieldsOf};
ghost use Rattle.room_core.specs.Rooms.{ScheduleEvent};
ghost use Rattle.ws_history.specs.Inputs.{IsRoomRun};
ghost use Rattle.ws_history.specs.Linearizations.{AreEventsAtSteps, LackAtMostASnapshot, events_of};
ghost use Rattle.ws_history.specs.Notes.{AreNotesOf};
ghost use Rattle.ws_history.specs.Ordered.{decision_points, events_by_time, points_of, put_in, read_points, write_points};
ghost use Rattle.ws_history.specs.Readings.{read_of};
ghost use Rattle.ws_history.specs.Sources.{history_of};

use crate::agreements::{is_fixed, shown_by, shown_of, view_at, written};
use crate::points::Points;
use crate::reading::{
    decided_in, greatest_step, number_of, process_count, round_count, row_of, shape_of,
};
use room_core::RoomCore;
use std::alloc::{AllocError, Global};
use std::collections::BTreeMap;
use transcript::Event;

/// A room, and the notes of its steps.
#[derive(Clone, Copy)]
struct Noted<'a> {
    room: &'a RoomCore,
    points: &'a Points,
}

/// The events of the room by the steps at which they take effect, if these are the notes of its steps: a write by the step that first
/// counted it, a snapshot whose agreement is fixed by the step by which the proposal that was chosen was read, a decision by the step that
/// first stored it. A step's number is that of the event of the schedule, counted from 0: atomic steps and crashes alike. In this order the
/// events are a run of the processes on write-snapshot memory. What each process does in [`history`](crate::history) begins what it does here:
/// at most a last snapshot follows, on which nothing rests yet.
///
/// # Errors
///
/// If an allocation fails.
pub fn linearize(
    alloc: Global,
    room: &RoomCore,
    points: &Points,
) -> Result<BTreeMap<u64, Event>, AllocError>
    // They are what takes effect at the steps of the schedule that was noted, each with the number of its step.
    ensures at_steps { (schedule : List ScheduleEvent) →
        AreNotesOf (configuration_of room.now) schedule points.now →
        IfOk result (λ events. AreEventsAtSteps room.now.spec schedule events.entries) }
    // In this order they are a run, in a reduction from the inputs that were agreed on,
    ensures run { (schedule : List ScheduleEvent) (fields : Fields) →
        AreNotesOf (configuration_of room.now) schedule points.now → AreFieldsOf room.now fields →
        IfOk result (λ events. IsRun (run_spec room.now.spec fields) (map (λ e. e.1) events.entries)) }
    ensures ordinary { (schedule : List ScheduleEvent) →
        is_reduction room.now.spec ≡ false → AreNotesOf (configuration_of room.now) schedule points.now →
        IfOk result (λ events. IsRun room.now.spec (map (λ e. e.1) events.entries)) }
    ensures of_room { (schedule : List ScheduleEvent) →
        AreNotesOf (configuration_of room.now) schedule points.now →
        IfOk result (λ events. IsRoomRun room.now.spec (map (λ e. e.1) events.entries)) }
    // in which each process does what it does in the history; at most a last snapshot comes after it.
    ensures same { (schedule : List ScheduleEvent) (fields : Fields) →
        AreNotesOf (configuration_of room.now) schedule points.now → AreFieldsOf room.now fields → (p : ℕ) → p < processes room.now.spec →
        IfOk result (λ events. LackAtMostASnapshot p (events_of p (history_of room.now.spec fields)) (events_of p (map (λ e. e.1) events.entries))) }
{
    let _shape = shape_of(room); // for the proof: the room stands for some fields
    let events = events_by_time(alloc, room, points)?;
    Ok(events)
}

/// The events of all points, by their times.
fn events_by_time(
    alloc: Global,
    room: &RoomCore,
    points: &Points,
) -> Result<BTreeMap<u64, Event>, AllocError>
    ensures { IfOk result (λ events. events.entries ≡ events_by_time room.now points.now) }
{
    let mut events = BTreeMap::new(alloc);
    let noted = Noted { room, points };
    for p in 0..process_count(room) {
        put_process(&mut events, &noted, p)?;
    }
    Ok(events)
}

/// Those of process `p`.
fn put_process(
    events: &mut BTreeMap<u64, Event>,
    noted: &Noted<'_>,
    p: usize,
) -> Result<(), AllocError>
    requires { p < processes noted.now.room.now.spec }
    ensures { OnOk result (events.new.entries ≡ fold (put_in noted.now.room.now) events.old.entries (points_of noted.now.room.now.spec (read_of noted.now.room.now) noted.now.points.now p)) }
{
    let greatest = greatest_step(noted.room, p);
    for k in 0..round_count(noted.room) {
        put_write(events, noted, p, k + 1, greatest)?;
        put_snapshot(events, noted, p, k + 1)?;
    }
    put_decision(events, noted, p)
}

/// Its write in round `r`, if that was counted.
fn put_write(
    events: &mut BTreeMap<u64, Event>,
    noted: &Noted<'_>,
    p: usize,
    r: usize,
    greatest: usize,
) -> Result<(), AllocError>
    requires process { p < processes noted.now.room.now.spec }
    requires round { IsRound (sizes_in noted.now.room.now.spec) r }
    requires greatest { greatest ≡ greatest_step noted.now.room.now.spec (read_of noted.now.room.now) p }
    ensures { OnOk result (events.new.entries ≡ fold (put_in noted.now.room.now) events.old.entries (write_points noted.now.room.now.spec (read_of noted.now.room.now) noted.now.points.now p r)) }
{
    if r <= greatest {
        let v = written(noted.room, p, r);
        events.insert(
            noted.points.counted_at(noted.room, p, r),
            Event::Write {
                p: number_of(noted.room, p),
                v,
            },
        )?;
    }
    Ok(())
}

/// Its snapshot in round `r`, if its agreement is fixed.
#[tactic(auto, using(view_table::proofs::CallerLemmas::agreement_round))]
fn put_snapshot(
    events: &mut BTreeMap<u64, Event>,
    noted: &Noted<'_>,
    p: usize,
    r: usize,
) -> Result<(), AllocError>
    requires process { p < processes noted.now.room.now.spec }
    requires round { IsRound (sizes_in noted.now.room.now.spec) r }
    ensures { OnOk result (events.new.entries ≡ fold (put_in noted.now.room.now) events.old.entries (read_points noted.now.room.now.spec (read_of noted.now.room.now) noted.now.points.now p r)) }
{
    if is_fixed(noted.room, p, r) {
        let time = noted
            .points
            .read_at(noted.room, shown_of(noted.room, p, r), p, r);
        events.insert(time, snapshot_of(noted.room, p, r))?;
    }
    Ok(())
}

/// The snapshot of process `p` in round `r`, with the values that it shows.
fn snapshot_of(room: &RoomCore, p: usize, r: usize) -> Event
    requires process { p < processes room.now.spec }
    requires round { IsRound (sizes_in room.now.spec) r }
    ensures { result ≡ Snap p (record { items = shown_by room.now.spec (read_of room.now) (row_at room.now.spec (read_of room.now) p r) }) }
{
    let shown = row_of(room.spec(), view_at(room, p, r));
    Event::Snap {
        p: number_of(room, p),
        row: shown_by(room, shown.as_slice()),
    }
}

/// Its decision, if one is stored.
fn put_decision(
    events: &mut BTreeMap<u64, Event>,
    noted: &Noted<'_>,
    p: usize,
) -> Result<(), AllocError>
    requires { p < processes noted.now.room.now.spec }
    ensures { OnOk result (events.new.entries ≡ fold (put_in noted.now.room.now) events.old.entries (decision_points noted.now.room.now.spec (read_of noted.now.room.now) noted.now.points.now p)) }
{
    if let Some(v) = decided_in(noted.room, p) {
        events.insert(
            noted.points.stored_at(p),
            Event::Decide {
                p: number_of(noted.room, p),
                v,
            },
        )?;
    }
    Ok(())
}
