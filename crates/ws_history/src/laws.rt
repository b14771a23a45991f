//! Laws of histories that are made from the snapshots that were agreed on.
ghost use Rattle.std.specs.Prelude.{List, Some, [], ◌∷◌, ◌++◌, ◌≢◌, ◌≡◌, ◌<◌, ◌≤◌, ◌↔◌, ◌+◌, ◌⊎◌, ◌==◌, ℕ, Bool, false, true, length};
ghost use Rattle.std.specs.List.{count_by, Contains};
ghost use Rattle.room_spec.specs.Rooms.{IsCertified, RoomSpec, IsWithinLimits, is_reduction, processes};
ghost use Rattle.transcript.specs.Reductions.{AreFromOwn, IsRunOf};
ghost use Rattle.transcript.specs.Runs.{IsOutOfRounds, IsRun, is_write_by, is_snap_by};
ghost use Rattle.transcript.specs.Tasks.{KeepsTask, decided_in, different};
ghost use Rattle.transcript.specs.declared.event.Event.TheVariants.{Decide};
ghost use Rattle.room_core.specs.Calls.{RoomState};
ghost use Rattle.room_core.specs.Fields.{Fields, decision_in};
ghost use Rattle.room_core.specs.Reading.{AreFieldsOf};
ghost use Rattle.room_core.specs.Agreements.{HasAgreed, run_spec};
ghost use Rattle.room_core.specs.Settled.{IsSettledFor, crashed_in};
ghost use Rattle.ws_history.specs.Reports.{decisions_in, held_in, is_decided, is_held, is_over, state_of, states_of};
ghost use Rattle.ws_history.specs.declared.states.ProcessState.TheVariants.{Decided, Spent};
ghost use Rattle.ws_history.specs.Sources.{history_of, source_of};
ghost use Rattle.room_core.specs.Calls.{configuration_of, marked, room_after_settle, room_after_steps};
ghost use Rattle.room_core.specs.Rooms.{IsAlive, ScheduleEvent, crashes};
ghost use Rattle.room_core.specs.Observing.{AreSeen, steps_of_settling, steps_of_steps};
ghost use Rattle.ws_history.specs.Notes.{AreNotesOf, IsNoted, Notes, events_taken};
ghost use Rattle.ws_history.specs.Linearizations.{Begins, LackAtMostASnapshot, IsLinearization, Timed, events_in, events_of, linearized};
ghost use Rattle.ws_history.specs.Histories.{Snapshot, Source, IsSource, history_from};
ghost use Rattle.ws_history.specs.Passed.{IsOfPassed, IsDecided};
ghost use Rattle.ws_history.specs.Inputs.{DoRunsKeepTask};

/// The history of a source is a run, and has all of its writes.
pub fn history_is_run()
    ensures run { (spec : RoomSpec) (src : Source) → IsSource spec src → IsRun spec (history_from spec src) }
    ensures writes { (spec : RoomSpec) (src : Source) →
        IsSource spec src → (p : ℕ) → p < processes spec →
        count_by (is_write_by p) (history_from spec src) ≡ src.greatest p }
{}

/// A history has one snapshot for each of the order.
pub fn snapshots()
    ensures { (spec : RoomSpec) (src : Source) (p : ℕ) → count_by (is_snap_by p) (history_from spec src) ≡ count_by (λ s. s.process == p) src.order }
{}

/// The agreements that are passed, in order, make a source.
pub fn passed_is_source()
    ensures { (spec : RoomSpec) (src : Source) (passed : ℕ → ℕ → Bool) → IsOfPassed spec src passed → IsSource spec src }
{}

/// A history has the decisions of its snapshots, and no others.
pub fn decisions()
    ensures { (spec : RoomSpec) (src : Source) (p v : ℕ) → Contains (history_from spec src) (Decide p v) ↔ IsDecided src p v }
{}

/// Fields of a room that keep what a room promises have a history that is a run: in an ordinary room of that itself, and in a reduction of
/// the ordinary room in which the processes have the inputs that were agreed on.
pub fn fields_run()
    ensures run { (spec : RoomSpec) (fields : Fields) → HasAgreed spec fields → IsRun (run_spec spec fields) (history_of spec fields) }
    ensures ordinary { (spec : RoomSpec) (fields : Fields) → is_reduction spec ≡ false → HasAgreed spec fields → IsRun spec (history_of spec fields) }
{}

/// The simulation theorem: the history of a room is a run of its processes on write-snapshot
/// memory, whatever its simulators did.
pub fn rooms_run()
    ensures ordinary { (room : RoomState) (fields : Fields) →
        IsWithinLimits room.spec → is_reduction room.spec ≡ false → AreFieldsOf room fields →
        IsRun room.spec (history_of room.spec fields) }
    // That of a reduction is a run from the inputs that were agreed on,
    ensures run { (room : RoomState) (fields : Fields) →
        IsWithinLimits room.spec → AreFieldsOf room fields →
        IsRun (run_spec room.spec fields) (history_of room.spec fields) }
    // each of which is a simulator's own.
    ensures from_own { (room : RoomState) (fields : Fields) →
        IsWithinLimits room.spec → is_reduction room.spec ≡ true → AreFieldsOf room fields →
        AreFromOwn room.spec (run_spec room.spec fields).inputs }
    // So it is a run of the reduction: a run from some inputs that are simulators' own.
    ensures reduction { (room : RoomState) (fields : Fields) →
        IsWithinLimits room.spec → is_reduction room.spec ≡ true → AreFieldsOf room fields →
        IsRunOf room.spec (history_of room.spec fields) }
{}

/// The simulation is linearizable (Herlihy and Wing 1990): each write, snapshot and decision of the history takes effect at one atomic step of
/// a simulator, no two at one step, and in the order of these steps they are a run. This holds of each interleaving that leads to the room.
pub fn linearizations()
    // There is a linearization, and each
    ensures some { (room : RoomState) (fields : Fields) →
        IsWithinLimits room.spec → (are : AreFieldsOf room fields) →
        (points : List Timed) × IsLinearization room.spec are.run.schedule fields points }
    // is a run, in a reduction from the inputs that were agreed on,
    ensures run { (room : RoomState) (fields : Fields) →
        IsWithinLimits room.spec → (are : AreFieldsOf room fields) → (points : List Timed) →
        IsLinearization room.spec are.run.schedule fields points →
        IsRun (run_spec room.spec fields) (events_in (source_of room.spec fields) points) }
    ensures ordinary { (room : RoomState) (fields : Fields) →
        IsWithinLimits room.spec → is_reduction room.spec ≡ false → (are : AreFieldsOf room fields) → (points : List Timed) →
        IsLinearization room.spec are.run.schedule fields points →
        IsRun room.spec (events_in (source_of room.spec fields) points) }
    // in which each process does what it does in the history; at most a last snapshot comes after it.
    ensures same { (room : RoomState) (fields : Fields) →
        IsWithinLimits room.spec → (are : AreFieldsOf room fields) → (points : List Timed) →
        IsLinearization room.spec are.run.schedule fields points → (p : ℕ) →
        p < processes room.spec →
        LackAtMostASnapshot p (events_of p (history_of room.spec fields)) (events_of p (events_in (source_of room.spec fields) points)) }
{}

/// The linearization is one, and is found step by step.
pub fn linearized_runs()
    ensures is { (room : RoomState) (fields : Fields) →
        IsWithinLimits room.spec → (are : AreFieldsOf room fields) → (points : List Timed) →
        IsLinearization room.spec are.run.schedule fields points →
        events_in (source_of room.spec fields) points ≡ linearized room.spec are.run.schedule fields }
    ensures run { (room : RoomState) (fields : Fields) →
        IsWithinLimits room.spec → (are : AreFieldsOf room fields) →
        IsRun (run_spec room.spec fields) (linearized room.spec are.run.schedule fields) }
    ensures ordinary { (room : RoomState) (fields : Fields) →
        IsWithinLimits room.spec → is_reduction room.spec ≡ false → (are : AreFieldsOf room fields) →
        IsRun room.spec (linearized room.spec are.run.schedule fields) }
    ensures same { (room : RoomState) (fields : Fields) →
        IsWithinLimits room.spec → (are : AreFieldsOf room fields) → (p : ℕ) → p < processes room.spec →
        LackAtMostASnapshot p (events_of p (history_of room.spec fields)) (events_of p (linearized room.spec are.run.schedule fields)) }
{}

/// As a schedule goes on, what a process does in its linearization begins what it does in the linearization later.
pub fn linearized_runs_grow()
    ensures { (room later : RoomState) (fields final : Fields) →
        IsWithinLimits room.spec → (are : AreFieldsOf room fields) → (ares : AreFieldsOf later final) → room.spec ≡ later.spec →
        (more : List ScheduleEvent) → ares.run.schedule ≡ are.run.schedule ++ more → (p : ℕ) → p < processes room.spec →
        Begins (events_of p (linearized room.spec are.run.schedule fields))
        (events_of p (linearized later.spec ares.run.schedule final)) }
{}

/// Notes that a [`Points`](crate::Points) takes of a room stay notes of its schedule: by the steps of a command, each of which it saw, and by a crash.
pub fn notes_go_on()
    ensures steps { (room : RoomState) (i count : ℕ) (schedule : List ScheduleEvent) (old new : Notes) →
        AreNotesOf (configuration_of room) schedule old → AreSeen IsNoted old (steps_of_steps room i count) new →
        AreNotesOf (configuration_of (room_after_steps room i (length (steps_of_steps room i count))))
        (schedule ++ events_taken (steps_of_steps room i count)) new }
    ensures settling { (room : RoomState) (schedule : List ScheduleEvent) (old new : Notes) →
        AreNotesOf (configuration_of room) schedule old → AreSeen IsNoted old (steps_of_settling room) new →
        AreNotesOf (configuration_of (room_after_settle room)) (schedule ++ events_taken (steps_of_settling room)) new }
    ensures crash { (room : RoomState) (i : ℕ) (schedule : List ScheduleEvent) (notes : Notes) →
        AreNotesOf (configuration_of room) schedule notes → IsAlive (configuration_of room) i →
        AreNotesOf (configuration_of (marked room i)) (schedule ++ crashes i ∷ []) notes }
{}

/// At most as many processes are held as simulators have crashed.
pub fn few_are_held()
    // Nor do more have an agreement inside which a simulator has crashed, and no decision.
    ensures inside { (room : RoomState) (fields : Fields) →
        IsWithinLimits room.spec → AreFieldsOf room fields →
        length (held_in room.spec fields) ≤ length (crashed_in room.spec fields) }
    ensures states { (room : RoomState) (fields : Fields) →
        IsWithinLimits room.spec → AreFieldsOf room fields →
        count_by is_held (states_of room.spec fields) ≤ length (crashed_in room.spec fields) }
{}

/// A process has decided exactly what its history says.
pub fn decided_in_history()
    ensures { (room : RoomState) (fields : Fields) →
        IsWithinLimits room.spec → AreFieldsOf room fields → (j v : ℕ) → j < processes room.spec →
        (state_of room.spec fields j ≡ Decided v) ↔ Contains (history_of room.spec fields) (Decide j v) }
{}

/// What a simulator has decided, a process of the history has. So a task that is kept by the processes' decisions is kept by the
/// simulators': they decide at most as many different values, and each is an input.
pub fn simulators_decide()
    ensures history { (room : RoomState) (fields : Fields) →
        IsWithinLimits room.spec → AreFieldsOf room fields → (i v : ℕ) → i < room.spec.simulators → decision_in fields i ≡ Some v →
        (j : ℕ) × (j < processes room.spec) × Contains (history_of room.spec fields) (Decide j v) }
    ensures few { (room : RoomState) (fields : Fields) →
        IsWithinLimits room.spec → AreFieldsOf room fields →
        length (different (decisions_in room.spec fields)) ≤ length (different (decided_in (history_of room.spec fields))) }
    ensures task { (room : RoomState) (fields : Fields) →
        IsWithinLimits room.spec → AreFieldsOf room fields → (most : ℕ) → KeepsTask room.spec most (history_of room.spec fields) →
        (length (different (decisions_in room.spec fields)) ≤ most) ×
        ((v : ℕ) → Contains (decisions_in room.spec fields) v → Contains room.spec.inputs v) }
    // By a protocol that waits for all but f processes they decide at most f + 1 of the inputs.
    ensures certified { (room : RoomState) (fields : Fields) →
        IsWithinLimits room.spec → is_reduction room.spec ≡ false → AreFieldsOf room fields → (f : ℕ) → IsCertified room.spec f →
        (length (different (decisions_in room.spec fields)) ≤ f + 1) ×
        ((v : ℕ) → Contains (decisions_in room.spec fields) v → Contains room.spec.inputs v) }
    // The reduction: if each run from inputs of the simulators keeps a task, then the simulators keep it, with their own inputs.
    ensures own { (room : RoomState) (fields : Fields) →
        IsWithinLimits room.spec → is_reduction room.spec ≡ true → AreFieldsOf room fields → (most : ℕ) → DoRunsKeepTask room.spec most →
        (length (different (decisions_in room.spec fields)) ≤ most) ×
        ((v : ℕ) → Contains (decisions_in room.spec fields) v → Contains room.spec.own v) }
    // A protocol that waits for all but f processes is one of which each run keeps the task f + 1.
    ensures own_certified { (room : RoomState) (fields : Fields) →
        IsWithinLimits room.spec → is_reduction room.spec ≡ true → AreFieldsOf room fields → (f : ℕ) → IsCertified room.spec f →
        (length (different (decisions_in room.spec fields)) ≤ f + 1) ×
        ((v : ℕ) → Contains (decisions_in room.spec fields) v → Contains room.spec.own v) }
{}

/// A process is spent exactly if its history leaves it no round, and asks it for a write.
pub fn spent_in_history()
    ensures run { (room : RoomState) (fields : Fields) →
        IsWithinLimits room.spec → AreFieldsOf room fields → (j : ℕ) → j < processes room.spec →
        (state_of room.spec fields j ≡ Spent) ↔ IsOutOfRounds (run_spec room.spec fields) (history_of room.spec fields) j }
    ensures ordinary { (room : RoomState) (fields : Fields) →
        IsWithinLimits room.spec → is_reduction room.spec ≡ false → AreFieldsOf room fields → (j : ℕ) → j < processes room.spec →
        (state_of room.spec fields j ≡ Spent) ↔ IsOutOfRounds room.spec (history_of room.spec fields) j }
{}

/// If each process of a room has settled, all have decided or are spent but for at most as many
/// as simulators have crashed.
pub fn settled_rooms()
    ensures { (room : RoomState) (fields : Fields) →
        IsWithinLimits room.spec → AreFieldsOf room fields → ((j : ℕ) → j < processes room.spec → IsSettledFor room.spec fields j) →
        processes room.spec ≤ count_by is_over (states_of room.spec fields) + length (crashed_in room.spec fields) }
{}

/// In an ordinary room of a protocol that waits for all but f processes, and has two rounds or more, no process is ever
/// spent. So it is in a reduction with f + 1 simulators or fewer. Once the room has settled all have decided but for at most as many as
/// simulators have crashed.
pub fn certified_rooms()
    ensures unspent { (room : RoomState) (fields : Fields) →
        IsWithinLimits room.spec → AreFieldsOf room fields → (f : ℕ) → IsCertified room.spec f →
        (is_reduction room.spec ≡ false) ⊎ (room.spec.simulators ≤ f + 1) → 2 ≤ room.spec.rounds → (j : ℕ) → j < processes room.spec →
        state_of room.spec fields j ≢ Spent }
    ensures settled { (room : RoomState) (fields : Fields) →
        IsWithinLimits room.spec → AreFieldsOf room fields → (f : ℕ) → IsCertified room.spec f →
        (is_reduction room.spec ≡ false) ⊎ (room.spec.simulators ≤ f + 1) → 2 ≤ room.spec.rounds →
        ((j : ℕ) → j < processes room.spec → IsSettledFor room.spec fields j) →
        processes room.spec ≤ count_by is_decided (states_of room.spec fields) + length (crashed_in room.spec fields) }
    // In every room, also in a reduction and in one round, more than f processes have decided then if no simulator has crashed, and one
    // less for each that has.
    ensures most { (room : RoomState) (fields : Fields) →
        IsWithinLimits room.spec → AreFieldsOf room fields → (f : ℕ) → IsCertified room.spec f →
        ((j : ℕ) → j < processes room.spec → IsSettledFor room.spec fields j) →
        f < count_by is_decided (states_of room.spec fields) + length (crashed_in room.spec fields) }
{}
