//! Laws that tie a simulated room to the outcomes of its protocol.
ghost use Rattle.std.specs.Prelude.{◌≡◌, ◌≤◌, ◌<◌, ℕ, false, length};
ghost use Rattle.std.specs.List.{count_by};
ghost use Rattle.room_spec.specs.Rooms.{IsWithinLimits, is_reduction, processes};
ghost use Rattle.room_core.specs.Agreements.{run_spec};
ghost use Rattle.room_core.specs.Calls.{RoomState};
ghost use Rattle.room_core.specs.Fields.{Fields};
ghost use Rattle.room_core.specs.Reading.{AreFieldsOf};
ghost use Rattle.room_core.specs.Settled.{IsSettledFor, crashed_in};
ghost use Rattle.ws_history.specs.Reports.{report_of, states_of};
ghost use Rattle.ws_history.specs.Sources.{history_of};
ghost use Rattle.run_search.specs.Outcomes.{IsRunOutcome, is_stopped, outcome_of};
ghost use Rattle.room_outcomes.specs.Ends.{IsRoomOutcome, ends_of};

/// The states of a room's processes, whatever its simulators did, are an outcome of a run of its protocol: that of its history. A
/// process that is held or going on counts as stopped.
pub fn rooms_end()
    ensures history { (room : RoomState) (fields : Fields) →
        IsWithinLimits room.spec → is_reduction room.spec ≡ false → AreFieldsOf room fields →
        ends_of (states_of room.spec fields) ≡ outcome_of room.spec (history_of room.spec fields) }
    ensures outcome { (room : RoomState) (fields : Fields) (crashes : ℕ) →
        IsWithinLimits room.spec → is_reduction room.spec ≡ false → AreFieldsOf room fields →
        count_by is_stopped (ends_of (states_of room.spec fields)) ≤ crashes →
        IsRunOutcome room.spec crashes (ends_of (states_of room.spec fields)) }
    // So it is with what a report of the room says of its processes: whatever `play`, `run` and `sample` show is among all outcomes.
    ensures reported { (room : RoomState) (fields : Fields) →
        IsWithinLimits room.spec → is_reduction room.spec ≡ false → AreFieldsOf room fields →
        IsRunOutcome room.spec (processes room.spec) (ends_of (report_of room.spec fields).states.items) }
    // Once each process has settled, no more stop than simulators have crashed.
    ensures settled { (room : RoomState) (fields : Fields) →
        IsWithinLimits room.spec → is_reduction room.spec ≡ false → AreFieldsOf room fields →
        ((j : ℕ) → j < processes room.spec → IsSettledFor room.spec fields j) →
        IsRunOutcome room.spec (length (crashed_in room.spec fields)) (ends_of (states_of room.spec fields)) }
{}

/// The same in every room, also in a reduction: it is an outcome of a run from the inputs that were agreed on.
pub fn runs_end()
    ensures history { (room : RoomState) (fields : Fields) →
        IsWithinLimits room.spec → AreFieldsOf room fields →
        ends_of (states_of room.spec fields) ≡ outcome_of (run_spec room.spec fields) (history_of room.spec fields) }
    ensures outcome { (room : RoomState) (fields : Fields) (crashes : ℕ) →
        IsWithinLimits room.spec → AreFieldsOf room fields → count_by is_stopped (ends_of (states_of room.spec fields)) ≤ crashes →
        IsRunOutcome (run_spec room.spec fields) crashes (ends_of (states_of room.spec fields)) }
    ensures reported { (room : RoomState) (fields : Fields) →
        IsWithinLimits room.spec → AreFieldsOf room fields →
        IsRunOutcome (run_spec room.spec fields) (processes room.spec) (ends_of (report_of room.spec fields).states.items) }
    ensures settled { (room : RoomState) (fields : Fields) →
        IsWithinLimits room.spec → AreFieldsOf room fields → ((j : ℕ) → j < processes room.spec → IsSettledFor room.spec fields j) →
        IsRunOutcome (run_spec room.spec fields) (length (crashed_in room.spec fields)) (ends_of (states_of room.spec fields)) }
    // So it is among the outcomes of the room's runs: in a reduction among those of the runs from inputs that are the simulators' own.
    ensures among { (room : RoomState) (fields : Fields) →
        IsWithinLimits room.spec → AreFieldsOf room fields → IsRoomOutcome room.spec (processes room.spec) (ends_of (report_of room.spec fields).states.items) }
{}
