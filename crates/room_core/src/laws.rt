//! Laws of rooms, for a crate that runs one over shared words. Each is what its function ensures.
ghost use Rattle.std.specs.Prelude.{length, slice_index, false, ℕ, ◌≡◌, ◌≢◌, ◌↔◌, ◌+◌, ◌*◌, ◌<◌, ◌≤◌, [], ◌∷◌, ◌++◌, ◌⊎◌, true, List, Some, Contains};
ghost use Rattle.std.specs.List.{filter, range_with_len};
ghost use Rattle.room_spec.specs.Rooms.{IsCertified, RoomSpec, IsWithinLimits, is_reduction, processes};
ghost use Rattle.safe_agreement.specs.Levels.{IsResolved, least_two};
ghost use Rattle.room_core.specs.Contents.{IsDue};
ghost use Rattle.room_core.specs.Agreements.{AgreementsStay, DoCompare, HasAgreed, IsDecisionOf, IsFixedAt, IsInsideTurn, agreed_input, asks, decided_in, greatest_step, has_out, input_at, is_resolved, is_fixed, is_input_known, is_passed, row_at, run_spec, shown_of, view_at};
ghost use Rattle.protocol_lang.specs.Numbers.{greatest};
ghost use Rattle.protocol_lang.specs.declared.meaning.Action.TheVariants.{Decide, Write};
ghost use Rattle.simulator.specs.Bounds.{agreement_rounds};
ghost use Rattle.simulator.specs.Minds.{goal_at, has_input, known_input};
ghost use Rattle.simulator.specs.declared.goal.Goal.TheVariants.{AskInput, Spent};
ghost use Rattle.room_core.specs.Moments.{IsMoment, IsScan, fields_at};
ghost use Rattle.room_core.specs.Counting.{events_so_far};
ghost use Rattle.room_core.specs.Observing.{Follow, steps_of_settling, steps_of_steps};
ghost use Rattle.room_core.specs.declared.reply.StepReply.TheVariants.{Stepped};
ghost use Rattle.room_core.specs.Points.{AreEffects, Decides, HasFixed, Point, Snaps, TakesEffect, Writes, points_at, read_time, reads_at};
ghost use Rattle.room_core.specs.RealTime.{HasBegun, HasEnded, IsOperation, Precedes};
ghost use Rattle.room_core.specs.Timelines.{IsTimeline, timeline_of};
ghost use Rattle.simulator.specs.Minds.{current_round};
ghost use Rattle.simulator.specs.declared.line.Line.TheVariants.{Out, Raise, Rest, Show};
ghost use Rattle.room_core.specs.Settled.{HasTurnLeft, IsDecidedOrHeld, IsSettledFor, IsSettledInMind, blocked_in, crashed_in, is_blocked, is_out_of_rounds, out_of_rounds_in, unfinished_for};
ghost use Rattle.room_core.specs.Settling.{steps_while};
ghost use Rattle.simulator.specs.Sweeps.{is_resting};
ghost use Rattle.room_core.specs.Calls.{Call, RoomState, configuration_of, decision_at, has_crashed, input_of, marked, step_bound, moved, opening_state, replies_to, room_after_calls, room_after_settle, room_after_step, room_after_steps, room_kind, step_reply, sweep_at, with_sweep, woken};
ghost use Rattle.room_core.specs.Fields.{Fields, HasLineIn, IsLegalIn, decision_in, levels_at, line, entry_of_steps, fields_after_call, fields_after_calls, fields_after_settle, opening_fields, replay_fields, replies_in, row_of_steps, with_crash};
ghost use Rattle.room_spec.specs.Sizes.{sizes_in};
ghost use Rattle.room_core.specs.Reading.{AgreeIn, AreFieldsOf, Reads, fields_in};
ghost use Rattle.room_core.specs.Rooms.{HasLine, IsAlive, IsLegal, IsOneInterleaving, IsShaped, Configuration, ScheduleEvent, crashed_by, crashes, mind_at, opening, stepped, steps, times};
ghost use Rattle.room_core.specs.Tracks.{StandsFor};

/// The opening room is one interleaving, of no steps.
pub fn opens()
    ensures { (spec : RoomSpec) → IsOneInterleaving (opening spec) }
{}

/// One interleaving stays one where a simulator takes its line, and its list ends with that step.
/// That reads and changes the simulator's mind and the words alone.
pub fn stays_under_line()
    ensures { (room : Configuration) (i : ℕ) → (one : IsOneInterleaving room) →
        HasLine room i →
        (after : IsOneInterleaving (stepped room i)) × (after.schedule ≡ one.schedule ++ steps i ∷ []) }
{}

/// And where a simulator is marked as crashed: its list ends with that crash.
pub fn stays_under_crash()
    ensures { (room : Configuration) (i : ℕ) → (one : IsOneInterleaving room) →
        IsAlive room i →
        (after : IsOneInterleaving (crashed_by room i)) × (after.schedule ≡ one.schedule ++ crashes i ∷ []) }
{}

/// One interleaving has a word for each place, a mind for each simulator, and each mind's numbers
/// are within their ranges.
pub fn shapes()
    ensures { (room : Configuration) → IsWithinLimits room.spec → IsOneInterleaving room → IsShaped room }
{}

/// Each simulator occurs in the list as often as its mind counts steps.
pub fn counts_steps()
    ensures { (room : Configuration) →
        IsWithinLimits room.spec → (one : IsOneInterleaving room) (i : ℕ) → i < room.spec.simulators →
        (mind_at room i).steps ≡ times i one.schedule }
{}

/// The words and minds of one interleaving stand for the fields to which its list leads.
pub fn reads_as_fields()
    ensures { (room : Configuration) →
        IsWithinLimits room.spec → (one : IsOneInterleaving room) →
        Reads room (replay_fields room.spec (opening_fields room.spec) one.schedule) }
{}

/// The fields say by themselves what may happen: a simulator has a line to take in a room just where
/// it has one in the room's fields.
pub fn lines_in_fields()
    ensures line { (room : Configuration) (fields : Fields) (i : ℕ) → IsShaped room → Reads room fields → HasLine room i ↔ HasLineIn room.spec fields i }
    // So the lists of steps and crashes that lead to rooms are those that the fields allow.
    ensures schedule { (spec : RoomSpec) (schedule : List ScheduleEvent) →
        IsWithinLimits spec →
        IsLegal (opening spec) schedule ↔ IsLegalIn spec (opening_fields spec) schedule }
{}

/// The words of a room and its fields take the same steps: the opening room stands for the opening
/// fields, and a room that stands for its fields does so after one atomic step of a simulator, which
/// is its line of the fields, and after a crash.
pub fn steps_as_fields()
    ensures opens { (spec : RoomSpec) → StandsFor (opening spec) (opening_fields spec) }
    ensures line { (room : Configuration) (fields : Fields) (i : ℕ) →
        IsShaped room → StandsFor room fields → HasLine room i →
        IsShaped (stepped room i) × StandsFor (stepped room i) (line room.spec fields i) }
    ensures crash { (room : Configuration) (fields : Fields) (i : ℕ) →
        IsShaped room → StandsFor room fields → IsAlive room i →
        IsShaped (crashed_by room i) × StandsFor (crashed_by room i) (with_crash fields i) }
    // So every room stands for its fields.
    ensures always { (room : RoomState) (fields : Fields) → IsWithinLimits room.spec → AreFieldsOf room fields → StandsFor (configuration_of room) fields }
{}

/// A step and a crash of a room with its quiet counts are those of the room without them; and
/// counting quiet turns anew is none.
pub fn quiet_counts_aside()
    ensures opens { (spec : RoomSpec) → configuration_of (opening_state spec) ≡ opening spec }
    ensures step { (room : RoomState) (i : ℕ) → configuration_of (moved room i) ≡ stepped (configuration_of room) i }
    ensures crash { (room : RoomState) (i : ℕ) → configuration_of (marked room i) ≡ crashed_by (configuration_of room) i }
    ensures wakes { (room : RoomState) (i : ℕ) → configuration_of (with_sweep room i (woken (sweep_at room i))) ≡ configuration_of room }
{}

/// A list of calls has the same replies in the room and in its fields, and leads to the fields of
/// the room to which it leads.
pub fn calls_as_fields()
    ensures { (room : RoomState) (fields : Fields) (calls : List Call) →
        IsWithinLimits room.spec → AreFieldsOf room fields →
        (replies_in room.spec fields calls ≡ replies_to room calls) ×
        AreFieldsOf (room_after_calls room calls) (fields_after_calls room.spec fields calls) }
{}

/// What the words, minds and marks of a room say is what any fields say that it stands for.
pub fn reads_in()
    ensures { (room : RoomState) (fields : Fields) → IsWithinLimits room.spec → AreFieldsOf room fields → AgreeIn (sizes_in room.spec) (fields_in room) fields }
{}

/// A simulator is at level 1 only in the agreement on which its open turn works.
pub fn inside_one_turn()
    ensures { (room : RoomState) (fields : Fields) →
        IsWithinLimits room.spec → AreFieldsOf room fields → (i j k : ℕ) → fields.level i j k ≡ 1 →
        IsInsideTurn fields i j k }
{}

/// Every agreement that has been passed is fixed: one that is resolved, one of a round before another
/// that some simulator has counted, and one after which a decision was stored.
pub fn passed_is_fixed()
    ensures fixed { (room : RoomState) (fields : Fields) →
        IsWithinLimits room.spec → AreFieldsOf room fields → (j k : ℕ) → j < processes room.spec → 1 ≤ k →
        is_passed room.spec fields j k ≡ true →
        IsFixedAt room.spec fields j k }
    // A fixed one has a least simulator at level 2.
    ensures least { (spec : RoomSpec) (fields : Fields) (j k : ℕ) →
        IsFixedAt spec fields j k →
        (h : ℕ) × (h < spec.simulators) × (least_two (levels_at spec fields j k) ≡ Some h) × (fields.level h j k ≡ 2) }
{}

/// A process goes on only after its agreements: all rounds before a write that is counted, and all
/// before a round that is passed, have been passed.
pub fn all_before_are_passed()
    ensures { (room : RoomState) (fields : Fields) →
        IsWithinLimits room.spec → AreFieldsOf room fields → (j k r : ℕ) → j < processes room.spec → 1 ≤ k → k < r →
        is_passed room.spec fields j r ≡ true →
        is_passed room.spec fields j k ≡ true }
{}

/// In a reduction the input of a process that a simulator has was agreed on, and is a simulator's own. All that have it have the same.
/// In an ordinary room no input is agreed on.
pub fn inputs_are_agreed()
    ensures fixed { (room : RoomState) (fields : Fields) →
        IsWithinLimits room.spec → AreFieldsOf room fields → (j : ℕ) → j < processes room.spec → is_input_known room.spec fields j ≡ true →
        IsFixedAt room.spec fields j 0 }
    ensures own { (room : RoomState) (fields : Fields) →
        IsWithinLimits room.spec → AreFieldsOf room fields → (j input : ℕ) → j < processes room.spec →
        agreed_input room.spec fields j ≡ Some input →
        Contains room.spec.own input }
    ensures minds { (room : RoomState) (fields : Fields) →
        IsWithinLimits room.spec → AreFieldsOf room fields → (i j input : ℕ) → i < room.spec.simulators →
        known_input (fields.mind i) j ≡ Some input →
        agreed_input room.spec fields j ≡ Some input }
    // That is what the room answers.
    ensures room { (room : RoomState) (fields : Fields) →
        IsWithinLimits room.spec → AreFieldsOf room fields → (j : ℕ) → j < processes room.spec →
        input_of room j ≡ agreed_input room.spec fields j }
    // A process that has made a write, and so one that has decided, has an input.
    ensures written { (room : RoomState) (fields : Fields) →
        IsWithinLimits room.spec → AreFieldsOf room fields → (j : ℕ) → j < processes room.spec → is_reduction room.spec ≡ true →
        1 ≤ greatest_step room.spec fields j →
        is_input_known room.spec fields j ≡ true }
    ensures decided { (room : RoomState) (fields : Fields) →
        IsWithinLimits room.spec → AreFieldsOf room fields → (j : ℕ) → j < processes room.spec → is_reduction room.spec ≡ true →
        has_out room.spec fields j ≡ true →
        is_input_known room.spec fields j ≡ true }
    // Whatever is called, an input stays.
    ensures stays { (room : RoomState) (calls : List Call) (j input : ℕ) →
        IsWithinLimits room.spec → IsOneInterleaving (configuration_of room) → j < processes room.spec → input_of room j ≡ Some input →
        input_of (room_after_calls room calls) j ≡ Some input }
{}

/// What was agreed on in a room is what makes a history a run of an ordinary room: of the room itself, or of that in which the
/// processes of a reduction have the inputs that were agreed on.
pub fn runs_are_of_ordinary_rooms()
    ensures agreed { (room : RoomState) (fields : Fields) → IsWithinLimits room.spec → AreFieldsOf room fields → HasAgreed (run_spec room.spec fields) fields }
    ensures limits { (room : RoomState) (fields : Fields) → IsWithinLimits room.spec → AreFieldsOf room fields → IsWithinLimits (run_spec room.spec fields) }
    ensures kind { (spec : RoomSpec) (fields : Fields) → is_reduction (run_spec spec fields) ≡ false }
    ensures processes { (spec : RoomSpec) (fields : Fields) → processes (run_spec spec fields) ≡ processes spec }
    ensures inputs { (spec : RoomSpec) (fields : Fields) (j : ℕ) → j < processes spec → slice_index (run_spec spec fields).inputs j ≡ input_at spec fields j }
    ensures asks { (spec : RoomSpec) (fields : Fields) (j k : ℕ) → j < processes spec → asks (run_spec spec fields) fields j k ≡ asks spec fields j k }
    ensures ordinary { (spec : RoomSpec) (fields : Fields) → is_reduction spec ≡ false → run_spec spec fields ≡ spec }
{}

/// At most as many processes are blocked as simulators have crashed: a simulator crashes inside at most one agreement.
pub fn few_are_blocked()
    ensures { (room : RoomState) (fields : Fields) →
        IsWithinLimits room.spec → AreFieldsOf room fields →
        length (blocked_in room.spec fields) ≤ length (crashed_in room.spec fields) }
{}

/// What a simulator has decided is a decision of a process that it has stored, and one that has stored none hasn't decided.
pub fn simulators_decide()
    ensures stored { (room : RoomState) (fields : Fields) →
        IsWithinLimits room.spec → AreFieldsOf room fields → (i : ℕ) → i < room.spec.simulators →
        (decision_at room i ≡ decision_in fields i) × IsDecisionOf room.spec fields i (decision_in fields i) }
    // A process has decided the same.
    ensures process { (room : RoomState) (fields : Fields) →
        IsWithinLimits room.spec → AreFieldsOf room fields → (i decision : ℕ) → i < room.spec.simulators → decision_in fields i ≡ Some decision →
        (j : ℕ) × (j < processes room.spec) × (decided_in room.spec fields j ≡ Some decision) }
    ensures range { (room : RoomState) (fields : Fields) →
        IsWithinLimits room.spec → AreFieldsOf room fields → (i decision : ℕ) → i < room.spec.simulators → decision_in fields i ≡ Some decision →
        decision ≤ greatest }
    // Whatever is called, a decision stays.
    ensures stays { (room : RoomState) (calls : List Call) (i decision : ℕ) →
        IsWithinLimits room.spec → IsOneInterleaving (configuration_of room) → i < room.spec.simulators → decision_at room i ≡ Some decision →
        decision_at (room_after_calls room calls) i ≡ Some decision }
{}

/// Over every call what has been agreed on, and what has been decided, stays.
pub fn agreements_stay()
    ensures { (room : RoomState) (fields : Fields) (call : Call) →
        IsWithinLimits room.spec → AreFieldsOf room fields →
        AgreementsStay room.spec fields (fields_after_call room.spec fields call) }
{}

/// Over any list of calls what has been agreed on, and what has been decided, stays: two readings of
/// an agreement that was passed show the same view, at whatever moments they are made.
pub fn agreements_last()
    ensures stay { (room : RoomState) (fields : Fields) (calls : List Call) →
        IsWithinLimits room.spec → AreFieldsOf room fields →
        AgreementsStay room.spec fields (fields_after_calls room.spec fields calls) }
    ensures passed { (room : RoomState) (fields : Fields) (calls : List Call) →
        IsWithinLimits room.spec → AreFieldsOf room fields → (j k : ℕ) → j < processes room.spec → 1 ≤ k →
        is_passed room.spec fields j k ≡ true →
        view_at room.spec (fields_after_calls room.spec fields calls) j k ≡ view_at room.spec fields j k }
{}

/// While no other simulator steps, a simulator that hasn't crashed reaches the end of its open turn, and
/// where it goes on to an end, idle or out of turns, within `(n * rounds + 1) * n` turns; in a reduction
/// the agreement on a process's input is one round more. So the number of steps at which settling gives up is never reached.
pub fn runs_end()
    ensures turn { (room : RoomState) (i : ℕ) →
        IsWithinLimits room.spec → IsOneInterleaving (configuration_of room) → i < room.spec.simulators → has_crashed room i ≡ false →
        room_kind.in_turn (steps_while room_after_step room_kind.in_turn (step_bound room.spec) room i) i ≡ false }
    ensures alone { (room : RoomState) (i : ℕ) →
        IsWithinLimits room.spec → IsOneInterleaving (configuration_of room) → i < room.spec.simulators → has_crashed room i ≡ false →
        room_kind.has_step (steps_while room_after_step room_kind.has_step (step_bound room.spec) room i) i ≡ false }
    ensures turns { (room : RoomState) (i most : ℕ) →
        IsWithinLimits room.spec → IsOneInterleaving (configuration_of room) → i < room.spec.simulators → has_crashed room i ≡ false →
        (sweep_at (steps_while room_after_step room_kind.has_step most room i) i).mind.turns ≤ (sweep_at room i).mind.turns +
        (processes room.spec * agreement_rounds (sizes_in room.spec) + 1) * processes room.spec }
{}

/// An agreement that was left, and in which no simulator is at level 1, is resolved: only a simulator that
/// stopped inside can hold it.
pub fn left_is_resolved()
    ensures snapshots { (room : RoomState) (fields : Fields) →
        IsWithinLimits room.spec → AreFieldsOf room fields → (i j k : ℕ) → i < room.spec.simulators → 1 ≤ k → k < fields.step i j →
        ((a : ℕ) → a < room.spec.simulators → fields.level a j k ≢ 1) →
        IsResolved (levels_at room.spec fields j k) }
    // So is that on an input, if a simulator asks what it is, or has it.
    ensures inputs { (room : RoomState) (fields : Fields) →
        IsWithinLimits room.spec → AreFieldsOf room fields → (i j : ℕ) → i < room.spec.simulators → j < processes room.spec →
        is_reduction room.spec ≡ true →
        (goal_at (fields.mind i).goals j ≡ AskInput) ⊎ (has_input (goal_at (fields.mind i).goals j) ≡ true) →
        ((a : ℕ) → a < room.spec.simulators → fields.level a j 0 ≢ 1) →
        IsResolved (levels_at room.spec fields j 0) }
{}

/// The proposals that are kept, of whatever agreements, are snapshots of one simulated memory.
pub fn snapshots()
    // Each is the step numbers at some moment of the run.
    ensures moments { (room : RoomState) (fields : Fields) →
        IsWithinLimits room.spec → (are : AreFieldsOf room fields) (i j k : ℕ) → i < room.spec.simulators → 1 ≤ k → fields.level i j k ≡ 2 →
        IsMoment room.spec are.run.schedule i j k (fields.view i j k) }
    // Of any two rows that they show, one is at most the other.
    ensures compare { (room : RoomState) (fields : Fields) →
        IsWithinLimits room.spec → AreFieldsOf room fields → (i j k h p r : ℕ) → i < room.spec.simulators → h < room.spec.simulators →
        1 ≤ k → 1 ≤ r → fields.level i j k ≡ 2 → fields.level h p r ≡ 2 →
        DoCompare (row_of_steps room.spec (fields.view i j k)) (row_of_steps room.spec (fields.view h p r)) }
    // Each shows of its own process exactly the writes up to the round of its agreement.
    ensures own { (room : RoomState) (fields : Fields) →
        IsWithinLimits room.spec → AreFieldsOf room fields → (i j k : ℕ) → i < room.spec.simulators → 1 ≤ k → fields.level i j k ≡ 2 →
        entry_of_steps room.spec (fields.view i j k) j ≡ k }
{}

/// Each write that was counted has the value
/// that is due, the first by its input and each later one by what was agreed on before it, and so
/// all simulators that have counted it have the same.
pub fn writes_are_due()
    ensures due { (room : RoomState) (fields : Fields) →
        IsWithinLimits room.spec → AreFieldsOf room fields → (i p r : ℕ) → i < room.spec.simulators → p < processes room.spec → 1 ≤ r →
        r ≤ fields.step i p →
        IsDue room.spec fields p r (fields.value i p r) }
    ensures same { (room : RoomState) (fields : Fields) →
        IsWithinLimits room.spec → AreFieldsOf room fields → (i h p r : ℕ) → i < room.spec.simulators → h < room.spec.simulators →
        p < processes room.spec → 1 ≤ r → r ≤ fields.step i p → r ≤ fields.step h p →
        fields.value i p r ≡ fields.value h p r }
{}

/// A decision that is stored is what the process does after the snapshot
/// of the last round that is counted, and all that are stored of a process are the same. A process
/// that is spent has one more write to make.
pub fn decisions_agree()
    ensures due { (room : RoomState) (fields : Fields) →
        IsWithinLimits room.spec → AreFieldsOf room fields → (i p decision : ℕ) → i < room.spec.simulators → p < processes room.spec →
        fields.out i p ≡ decision + 1 →
        IsFixedAt room.spec fields p (fields.step i p) × (asks room.spec fields p (fields.step i p) ≡ Decide decision) }
    ensures last { (room : RoomState) (fields : Fields) →
        IsWithinLimits room.spec → AreFieldsOf room fields → (i h p decision : ℕ) → i < room.spec.simulators → h < room.spec.simulators →
        p < processes room.spec → fields.out i p ≡ decision + 1 →
        fields.step h p ≤ fields.step i p }
    ensures same { (room : RoomState) (fields : Fields) →
        IsWithinLimits room.spec → AreFieldsOf room fields → (i h p one two : ℕ) → i < room.spec.simulators → h < room.spec.simulators →
        p < processes room.spec → fields.out i p ≡ one + 1 → fields.out h p ≡ two + 1 →
        one ≡ two }
    ensures spent { (room : RoomState) (fields : Fields) →
        IsWithinLimits room.spec → AreFieldsOf room fields → (i p : ℕ) → i < room.spec.simulators → p < processes room.spec →
        goal_at (fields.mind i).goals p ≡ Spent →
        (value : ℕ) × IsDue room.spec fields p (fields.step i p + 1) value }
{}

/// What makes the history of a room's fields a run: its rows are snapshots of one memory, and each
/// write and decision is what the protocol asks for.
pub fn rooms_agree()
    ensures { (room : RoomState) (fields : Fields) → IsWithinLimits room.spec → AreFieldsOf room fields → HasAgreed room.spec fields }
{}

/// No value that is stored is above the greatest, and no decision.
pub fn values_in_range()
    ensures value { (room : RoomState) (fields : Fields) → IsWithinLimits room.spec → AreFieldsOf room fields → (i p r : ℕ) → fields.value i p r ≤ greatest }
    ensures out { (room : RoomState) (fields : Fields) →
        IsWithinLimits room.spec → AreFieldsOf room fields → (i p : ℕ) → i < room.spec.simulators → p < processes room.spec →
        fields.out i p ≤ greatest + 1 }
{}

/// After settling, where a simulator that hasn't crashed has a turn left, each process has decided,
/// or has made all its writes and is asked for one more, or is held by a simulator that has crashed
/// inside an agreement on one of its snapshots, or in a reduction on its input. And everyone else is between two turns.
pub fn settles()
    ensures settled { (room : RoomState) (fields : Fields) →
        IsWithinLimits room.spec → AreFieldsOf room fields → HasTurnLeft room.spec (fields_after_settle room.spec fields) → (j : ℕ) →
        j < processes room.spec →
        IsSettledFor room.spec (fields_after_settle room.spec fields) j }
    ensures rests { (room : RoomState) (fields : Fields) →
        IsWithinLimits room.spec → AreFieldsOf room fields → (i : ℕ) → i < room.spec.simulators →
        (fields_after_settle room.spec fields).crashed i ≡ false →
        is_resting ((fields_after_settle room.spec fields).mind i).line ≡ true }
{}

/// The content of each scan is the step numbers after a prefix of the list, which holds the simulator's own last write. Where the
/// memory has more than one word, the last two collects are equal, and it is the prefix with which the first of them ended.
pub fn scans()
    ensures { (room : RoomState) (fields : Fields) →
        IsWithinLimits room.spec → (are : AreFieldsOf room fields) → (i : ℕ) → i < room.spec.simulators → (fields.mind i).line ≡ Show →
        IsScan room.spec are.run.schedule (length are.run.schedule) i (fields.mind i).process (current_round (fields.mind i))
        (fields.mind i).before (fields.mind i).snapshot (fields.mind i).collects }
{}

/// At each atomic step of a schedule at most one write, snapshot or decision of a simulated process takes effect, and it does so within its
/// operation. A write takes effect at the step by which it is first counted; a snapshot that is agreed on in the end, at the step by which the
/// proposal that was chosen was read; a decision, at the step by which it is first stored.
pub fn points()
    ensures effects { (room : RoomState) (fields : Fields) →
        IsWithinLimits room.spec → (are : AreFieldsOf room fields) → (time : ℕ) → time < length are.run.schedule →
        AreEffects room.spec are.run.schedule fields time (points_at room.spec are.run.schedule fields time) }
    // A snapshot was read by a step of the simulator whose proposal was chosen,
    ensures read { (room : RoomState) (fields : Fields) →
        IsWithinLimits room.spec → (are : AreFieldsOf room fields) → (j k : ℕ) → HasFixed room.spec fields j k →
        (read_time room.spec are.run.schedule fields j k < length are.run.schedule) ×
        (reads_at room.spec are.run.schedule (read_time room.spec are.run.schedule fields j k) (shown_of room.spec fields j k) j k ≡ true) }
    // after its process's write of the round had been counted, and before the next one was,
    ensures counted { (room : RoomState) (fields : Fields) →
        IsWithinLimits room.spec → (are : AreFieldsOf room fields) → (j k : ℕ) → HasFixed room.spec fields j k →
        greatest_step room.spec (fields_at room.spec are.run.schedule (read_time room.spec are.run.schedule fields j k)) j ≡ k }
    // and before its agreement was fixed, so before any simulator could find it resolved.
    ensures fixed { (room : RoomState) (fields : Fields) →
        IsWithinLimits room.spec → (are : AreFieldsOf room fields) → (j k time : ℕ) → HasFixed room.spec fields j k →
        time ≤ length are.run.schedule → IsFixedAt room.spec (fields_at room.spec are.run.schedule time) j k →
        read_time room.spec are.run.schedule fields j k < time }
    // What a snapshot shows had been counted when it was read; and whatever else crates above rest on.
    ensures timeline { (room : RoomState) (fields : Fields) →
        IsWithinLimits room.spec → (are : AreFieldsOf room fields) →
        IsTimeline (processes room.spec) room.spec.rounds (timeline_of room.spec are.run.schedule fields) (points_at room.spec are.run.schedule fields) }
{}

/// The points keep real time (Herlihy and Wing 1990): each lies between the beginning and the end of its write, snapshot or decision, so one
/// that had ended at a moment at which another had not begun takes effect before it.
pub fn real_time()
    // What has taken effect by a moment had begun by then,
    ensures begun { (room : RoomState) (fields : Fields) →
        IsWithinLimits room.spec → (are : AreFieldsOf room fields) → (moment time : ℕ) (point : Point) → moment ≤ length are.run.schedule →
        TakesEffect room.spec are.run.schedule fields time point → time < moment →
        HasBegun room.spec (fields_at room.spec are.run.schedule moment) point }
    // what has ended by a moment has taken effect by then,
    ensures ended { (room : RoomState) (fields : Fields) →
        IsWithinLimits room.spec → (are : AreFieldsOf room fields) → (moment time : ℕ) (point : Point) → moment ≤ length are.run.schedule →
        time < length are.run.schedule → TakesEffect room.spec are.run.schedule fields time point →
        HasEnded room.spec (fields_at room.spec are.run.schedule moment) point → time < moment }
    // and so of two that don't overlap the earlier one takes effect first.
    ensures order { (room : RoomState) (fields : Fields) →
        IsWithinLimits room.spec → (are : AreFieldsOf room fields) → (one other : Point) (s t : ℕ) → s < length are.run.schedule →
        TakesEffect room.spec are.run.schedule fields s one → TakesEffect room.spec are.run.schedule fields t other →
        Precedes room.spec are.run.schedule one other → s < t }
{}

/// The operations of a process follow one another: when a write after the first begins, or a decision, the snapshot before it has ended; and
/// when a snapshot begins, its write has.
pub fn operations_follow()
    ensures writes { (room : RoomState) (fields : Fields) →
        IsWithinLimits room.spec → AreFieldsOf room fields → (p r : ℕ) → p < processes room.spec → 1 ≤ r →
        HasBegun room.spec fields (Writes p (r + 1)) → HasEnded room.spec fields (Snaps p r) }
    ensures snaps { (spec : RoomSpec) (fields : Fields) (p r : ℕ) → HasBegun spec fields (Snaps p r) → HasEnded spec fields (Writes p r) }
    ensures decides { (room : RoomState) (fields : Fields) →
        IsWithinLimits room.spec → AreFieldsOf room fields → (p decision : ℕ) → p < processes room.spec →
        HasBegun room.spec fields (Decides p decision) → HasEnded room.spec fields (Snaps p (greatest_step room.spec fields p)) }
{}

/// Each operation that has ended takes effect (Herlihy and Wing 1990): each write that was counted, each snapshot whose agreement is fixed, and
/// each decision that is stored, at a step before it had ended.
pub fn complete()
    ensures { (room : RoomState) (fields : Fields) →
        IsWithinLimits room.spec → (are : AreFieldsOf room fields) → (moment : ℕ) (point : Point) → moment ≤ length are.run.schedule →
        IsOperation room.spec fields point → HasEnded room.spec (fields_at room.spec are.run.schedule moment) point →
        (time : ℕ) × (time < moment) × TakesEffect room.spec are.run.schedule fields time point }
{}

/// What takes effect in a schedule still does when the schedule goes on, at the same step.
pub fn grows()
    ensures { (room later : RoomState) (fields final : Fields) →
        IsWithinLimits room.spec → (are : AreFieldsOf room fields) → (ares : AreFieldsOf later final) → room.spec ≡ later.spec →
        (more : List ScheduleEvent) → ares.run.schedule ≡ are.run.schedule ++ more → (time : ℕ) (point : Point) →
        time < length are.run.schedule → TakesEffect room.spec are.run.schedule fields time point →
        TakesEffect later.spec ares.run.schedule final time point }
{}

/// An agreement is fixed exactly if the test says so.
pub fn fixed_as_test()
    ensures { (spec : RoomSpec) (fields : Fields) (j k : ℕ) → (is_fixed spec fields j k ≡ true) ↔ IsFixedAt spec fields j k }
{}

/// A schedule has as many events as its simulators have taken atomic steps and crashed.
pub fn schedules_are_counted()
    ensures { (room : Configuration) → IsWithinLimits room.spec → (one : IsOneInterleaving room) → length one.schedule ≡ events_so_far room }
{}

/// A step counts a write of no process but that of its turn, and only at the line that raises its step number. It stores a decision of no
/// process but that, and only at the line that does so.
pub fn steps_are_of_one_process()
    ensures counts { (room : Configuration) →
        IsWithinLimits room.spec → (one : IsOneInterleaving room) (i : ℕ) → HasLine room i → (p : ℕ) →
        (((replay_fields room.spec (opening_fields room.spec) one.schedule).mind i).line ≢ Raise) ⊎
        (p ≢ ((replay_fields room.spec (opening_fields room.spec) one.schedule).mind i).process) →
        greatest_step room.spec (replay_fields room.spec (opening_fields room.spec) (one.schedule ++ steps i ∷ [])) p ≡
        greatest_step room.spec (replay_fields room.spec (opening_fields room.spec) one.schedule) p }
    ensures stores { (room : Configuration) →
        IsWithinLimits room.spec → (one : IsOneInterleaving room) (i : ℕ) → HasLine room i → (p : ℕ) →
        ((decision : ℕ) → ((replay_fields room.spec (opening_fields room.spec) one.schedule).mind i).line ≢ Out decision) ⊎
        (p ≢ ((replay_fields room.spec (opening_fields room.spec) one.schedule).mind i).process) →
        has_out room.spec (replay_fields room.spec (opening_fields room.spec) (one.schedule ++ steps i ∷ [])) p ≡
        has_out room.spec (replay_fields room.spec (opening_fields room.spec) one.schedule) p }
{}

/// A step that is taken is a line that its simulator has, and is the room's only change.
pub fn taken_steps_are_lines()
    ensures line { (room : RoomState) (i : ℕ) → IsShaped (configuration_of room) → step_reply room i ≡ Stepped → HasLine (configuration_of room) i }
    ensures moved { (room : RoomState) (i : ℕ) → step_reply room i ≡ Stepped → room_after_step room i ≡ moved room i }
{}

/// The steps that a command takes follow one another: each is taken in the room that the one before it left, quiet counts aside.
pub fn taken_steps_follow()
    ensures steps { (room : RoomState) (i count : ℕ) →
        Follow (configuration_of room) (steps_of_steps room i count)
        (configuration_of (room_after_steps room i (length (steps_of_steps room i count)))) }
    ensures settling { (room : RoomState) → Follow (configuration_of room) (steps_of_settling room) (configuration_of (room_after_settle room)) }
{}

/// In an ordinary room a simulator counts the first write of each process before the second of any, since its sweep goes round. So what
/// was agreed on in a later round shows every process. (In a reduction a process whose input isn't agreed on makes no write.)
pub fn later_rounds_show_all()
    ensures proposals { (room : RoomState) (fields : Fields) →
        IsWithinLimits room.spec → AreFieldsOf room fields → is_reduction room.spec ≡ false → (i j k p : ℕ) → i < room.spec.simulators → j < processes room.spec →
        p < processes room.spec → 2 ≤ k → fields.level i j k ≡ 2 →
        1 ≤ fields.view i j k i p }
    ensures agreed { (room : RoomState) (fields : Fields) →
        IsWithinLimits room.spec → AreFieldsOf room fields → is_reduction room.spec ≡ false → (j k p : ℕ) → j < processes room.spec →
        p < processes room.spec → 2 ≤ k →
        IsFixedAt room.spec fields j k →
        1 ≤ slice_index (row_at room.spec fields j k) p }
{}

/// In an ordinary room of a protocol by which each process waits for all but f, with two rounds or more, no process is spent: what was agreed on
/// in its last round shows all, and so asks for a decision.
pub fn certified_rooms_decide()
    ensures unspent { (room : RoomState) (fields : Fields) →
        IsWithinLimits room.spec → AreFieldsOf room fields → (f : ℕ) → IsCertified room.spec f → is_reduction room.spec ≡ false → (j value : ℕ) → 2 ≤ room.spec.rounds →
        j < processes room.spec → is_resolved room.spec fields j room.spec.rounds ≡ true →
        asks room.spec fields j room.spec.rounds ≡ Write value →
        ⊥ }
    ensures settled { (room : RoomState) (fields : Fields) →
        IsWithinLimits room.spec → AreFieldsOf room fields → (f : ℕ) → IsCertified room.spec f → is_reduction room.spec ≡ false → (j : ℕ) → 2 ≤ room.spec.rounds →
        j < processes room.spec → IsSettledFor room.spec fields j →
        IsDecidedOrHeld room.spec fields j }
{}

/// In a reduction of such a protocol, with f + 1 simulators or fewer and two rounds or more, no process is spent either: each process for which a
/// simulator has proposed an input has made a write, or some simulator works on it, so what was agreed on in a later round shows all but fewer
/// processes than there are simulators. So once each process has settled, all have decided but for at most as many as simulators have crashed.
pub fn certified_reductions_decide()
    ensures unspent { (room : RoomState) (fields : Fields) →
        IsWithinLimits room.spec → AreFieldsOf room fields → is_reduction room.spec ≡ true → (f : ℕ) → IsCertified room.spec f →
        room.spec.simulators ≤ f + 1 → (j value : ℕ) → 2 ≤ room.spec.rounds → j < processes room.spec →
        is_resolved room.spec fields j room.spec.rounds ≡ true →
        asks room.spec fields j room.spec.rounds ≡ Write value →
        ⊥ }
    ensures settled { (room : RoomState) (fields : Fields) →
        IsWithinLimits room.spec → AreFieldsOf room fields → is_reduction room.spec ≡ true → (f : ℕ) → IsCertified room.spec f →
        room.spec.simulators ≤ f + 1 → (j : ℕ) → 2 ≤ room.spec.rounds → j < processes room.spec → IsSettledFor room.spec fields j →
        (has_out room.spec fields j ≡ true) ⊎ (is_blocked room.spec fields j ≡ true) }
    ensures most { (room : RoomState) (fields : Fields) →
        IsWithinLimits room.spec → AreFieldsOf room fields → is_reduction room.spec ≡ true → (f : ℕ) → IsCertified room.spec f →
        room.spec.simulators ≤ f + 1 → 2 ≤ room.spec.rounds →
        ((j : ℕ) → j < processes room.spec → IsSettledFor room.spec fields j) →
        processes room.spec ≤ length (filter (λ j. has_out room.spec fields j) (range_with_len 0 (processes room.spec))) + length (crashed_in room.spec fields) }
{}

/// In a room of a protocol by which each process waits for all but f, more than f processes aren't out of rounds, at any moment. A
/// process that is spent in some simulator's mind is out of rounds.
pub fn few_are_spent()
    ensures few { (room : RoomState) (fields : Fields) →
        IsWithinLimits room.spec → AreFieldsOf room fields → (f : ℕ) → IsCertified room.spec f →
        length (out_of_rounds_in room.spec fields) + f < processes room.spec }
    ensures minds { (room : RoomState) (fields : Fields) →
        IsWithinLimits room.spec → AreFieldsOf room fields → (i j : ℕ) → i < room.spec.simulators → j < processes room.spec →
        goal_at (fields.mind i).goals j ≡ Spent →
        is_out_of_rounds room.spec fields j ≡ true }
{}

/// After settling, for each simulator that hasn't crashed and has a turn left: as it knows each process, that has decided or is out of
/// rounds, or it waits for a snapshot of it, or in a reduction for its input, inside whose agreement another has crashed; and it waits for at most as many as have crashed.
/// So, by a protocol by which each process waits for all but f, it has decided if at most f have crashed.
pub fn each_is_settled_for()
    ensures each { (room : RoomState) (fields : Fields) →
        IsWithinLimits room.spec → AreFieldsOf room fields → (left : HasTurnLeft room.spec (fields_after_settle room.spec fields)) → (j : ℕ) →
        j < processes room.spec →
        IsSettledInMind room.spec (fields_after_settle room.spec fields) left.simulator j }
    ensures few { (room : RoomState) (fields : Fields) →
        IsWithinLimits room.spec → AreFieldsOf room fields → (left : HasTurnLeft room.spec (fields_after_settle room.spec fields)) →
        length (unfinished_for room.spec (fields_after_settle room.spec fields) left.simulator) ≤
        length (crashed_in room.spec (fields_after_settle room.spec fields)) }
    ensures decides { (room : RoomState) (fields : Fields) →
        IsWithinLimits room.spec → AreFieldsOf room fields → (left : HasTurnLeft room.spec (fields_after_settle room.spec fields)) → (f : ℕ) →
        IsCertified room.spec f → length (crashed_in room.spec (fields_after_settle room.spec fields)) ≤ f →
        (decision : ℕ) × (decision_in (fields_after_settle room.spec fields) left.simulator ≡ Some decision) }
    // So with f + 1 simulators or fewer it has decided, however many of the others have crashed.
    ensures others_crash { (room : RoomState) (fields : Fields) →
        IsWithinLimits room.spec → AreFieldsOf room fields → (left : HasTurnLeft room.spec (fields_after_settle room.spec fields)) → (f : ℕ) →
        IsCertified room.spec f → room.spec.simulators ≤ f + 1 →
        (decision : ℕ) × (decision_in (fields_after_settle room.spec fields) left.simulator ≡ Some decision) }
{}
