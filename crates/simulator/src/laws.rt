//! Laws of minds, for a crate that has many of them step over one list of words. Each is what its
//! function ensures.
//!
//! They speak of a mind as data, of the move that it wants, and of the mind that the move's answer
//! makes.
ghost use Rattle.std.specs.Prelude.{◌≡◌, ◌≢◌, ◌↔◌, ℕ, ◌+◌, ◌*◌, ◌<◌, ◌≤◌, true, false, List, None, Some};
ghost use Rattle.room_spec.specs.Rooms.{RoomSpec, IsWithinLimits, processes};
ghost use Rattle.room_spec.specs.Sizes.{sizes_in};
ghost use Rattle.view_table.specs.Places.{words_of};
ghost use Rattle.simulator.specs.declared.line.Line.TheVariants.{Out};
ghost use Rattle.simulator.specs.declared.operation.Move.TheVariants as moves;
ghost use Rattle.simulator.specs.declared.sweep.Ready.TheVariants as answers;
ghost use Rattle.simulator.specs.declared.turn.Turn.TheVariants.{Still};
ghost use Rattle.simulator.specs.Bounds.{IsReadyThroughout, agreement_rounds, answered_all};
ghost use Rattle.simulator.specs.Firsts.{IsVisited};
ghost use Rattle.simulator.specs.contracts.knowledge.KnowledgePartialEq.TheImpl.{ghosts as tests};
ghost use Rattle.simulator.specs.declared.knowledge.Knowledge.{Knowledge};
ghost use Rattle.simulator.specs.Knowing.{knowledge_of, mind_of};
ghost use Rattle.simulator.specs.Minds.{MindState, current_goal, goal_at, is_unfinished, opening_mind, unfinished_in};
ghost use Rattle.simulator.specs.Moves.{IsOperation, IsWithin, move_of, taken};
ghost use Rattle.simulator.specs.Quiet.{HasNoWrite, IsQuietCount};
ghost use Rattle.simulator.specs.Ranges.{HasDecision, IsMind, turn_limit};
ghost use Rattle.simulator.specs.Turns.{most_collects, words_in};
ghost use Rattle.simulator.specs.Sweeps.{SweepState, is_resting, opening_sweep, quiet_after, ready_of};

/// Every simulator of a room begins with a mind.
pub fn minds_open()
    ensures { (spec : RoomSpec) (i : ℕ) → IsWithinLimits spec → i < spec.simulators → IsMind spec (opening_mind spec i) }
{}

/// A mind stays one over an operation, whatever the operation answers.
pub fn minds_stay()
    ensures { (spec : RoomSpec) (mind : MindState) (answer : ℕ) →
        IsMind spec mind → IsOperation (move_of spec mind) →
        IsMind spec (taken spec mind answer).mind }
{}

/// Each answer makes one atomic step more of the same simulator, and of its turn, if that goes on.
pub fn steps_are_counted()
    ensures steps { (spec : RoomSpec) (mind : MindState) (answer : ℕ) → (taken spec mind answer).mind.steps ≡ mind.steps + 1 }
    ensures number { (spec : RoomSpec) (mind : MindState) (answer : ℕ) → (taken spec mind answer).mind.number ≡ mind.number }
    ensures in_turn { (spec : RoomSpec) (mind : MindState) (answer : ℕ) →
        is_resting (taken spec mind answer).mind.line ≡ false →
        (taken spec mind answer).mind.turn_steps ≡ mind.turn_steps + 1 }
{}

/// A simulator's decision never changes: it is the first decision of a process that it stores. It has one exactly if it knows of a
/// process that it has decided.
pub fn decisions_stay()
    ensures stays { (spec : RoomSpec) (mind : MindState) (answer decision : ℕ) →
        mind.decision ≡ Some decision →
        (taken spec mind answer).mind.decision ≡ Some decision }
    ensures first { (spec : RoomSpec) (mind : MindState) (answer decision : ℕ) →
        mind.decision ≡ None → mind.line ≡ Out decision →
        (taken spec mind answer).mind.decision ≡ Some decision }
    ensures none { (spec : RoomSpec) (mind : MindState) (answer : ℕ) →
        mind.decision ≡ None → ((decision : ℕ) → mind.line ≢ Out decision) →
        (taken spec mind answer).mind.decision ≡ None }
    ensures known { (spec : RoomSpec) (mind : MindState) → IsMind spec mind → HasDecision mind.goals mind.decision }
{}

/// An open turn has taken fewer atomic steps than its limit, and after its last none are counted.
pub fn turns_are_short()
    ensures in_turn { (spec : RoomSpec) (mind : MindState) → IsMind spec mind → mind.turn_steps < turn_limit spec }
    ensures ended { (spec : RoomSpec) (mind : MindState) (answer : ℕ) → (taken spec mind answer).turn ≢ Still → (taken spec mind answer).mind.turn_steps ≡ 0 }
{}

/// The word of a move is one of the room's.
pub fn moves_are_within()
    ensures { (spec : RoomSpec) (mind : MindState) → IsMind spec mind → IsWithin (move_of spec mind) (words_of (sizes_in spec)) }
{}

/// A mind that is ready for a step wants an operation, and so does one in an open turn. One that is
/// answered that its turns are used up wants `OutOfTurns`.
pub fn step_means_operation()
    ensures ready { (spec : RoomSpec) (mind : MindState) (quiet : ℕ) →
        IsMind spec mind → ready_of spec mind quiet ≡ answers.Step →
        IsOperation (move_of spec mind) }
    ensures in_turn { (spec : RoomSpec) (mind : MindState) → is_resting mind.line ≡ false → IsOperation (move_of spec mind) }
    ensures out_of_turns { (spec : RoomSpec) (mind : MindState) (quiet : ℕ) →
        IsMind spec mind → ready_of spec mind quiet ≡ answers.OutOfTurns →
        move_of spec mind ≡ moves.OutOfTurns }
{}

/// Between two turns a mind is finished exactly if no process is unfinished; else it wants an
/// operation if a turn is left, and `OutOfTurns` if none is.
pub fn rest_by_cases()
    ensures finished { (spec : RoomSpec) (mind : MindState) →
        IsMind spec mind →
        (move_of spec mind ≡ moves.Finished) ↔ ((is_resting mind.line ≡ true) × (unfinished_in mind.goals ≡ 0)) }
    ensures begins { (spec : RoomSpec) (mind : MindState) →
        IsMind spec mind → is_resting mind.line ≡ true → 0 < unfinished_in mind.goals → mind.turns < spec.turns →
        IsOperation (move_of spec mind) }
    ensures runs_out { (spec : RoomSpec) (mind : MindState) →
        IsMind spec mind → is_resting mind.line ≡ true → 0 < unfinished_in mind.goals → spec.turns ≤ mind.turns →
        move_of spec mind ≡ moves.OutOfTurns }
{}

/// A sweep's quiet count stays one of its mind, over every answer and if it is counted anew.
pub fn quiet_counts_stay()
    ensures opens { (spec : RoomSpec) (i : ℕ) → IsQuietCount (opening_sweep spec i).mind (opening_sweep spec i).quiet }
    ensures steps { (spec : RoomSpec) (mind : MindState) (quiet answer : ℕ) →
        IsMind spec mind → IsQuietCount mind quiet →
        IsQuietCount (taken spec mind answer).mind (quiet_after (taken spec mind answer).turn quiet) }
    ensures wakes { (mind : MindState) → IsQuietCount mind 0 }
{}

/// An idle simulator has no write left to make: each process is at an ask, or is done or spent.
pub fn idle_waits()
    ensures { (spec : RoomSpec) (mind : MindState) (quiet : ℕ) →
        IsQuietCount mind quiet → ready_of spec mind quiet ≡ answers.Idle → (process : ℕ) →
        HasNoWrite (goal_at mind.goals process) }
{}

/// A simulator that is ready for step after step begins at most `(n * rounds + 1) * n` turns,
/// whatever it is answered: each useful turn takes one of the n processes through one of its rounds,
/// and between two useful ones there are fewer turns than unfinished processes.
pub fn turns_are_bounded()
    ensures { (spec : RoomSpec) (sweep : SweepState) (answers : List ℕ) →
        IsMind spec sweep.mind → IsReadyThroughout spec sweep answers →
        (answered_all spec sweep answers).mind.turns ≤ sweep.mind.turns + (processes spec * agreement_rounds (sizes_in spec) + 1) * processes spec }
{}

/// Nor does it take more than `(n * rounds + 1) * n` times the limit of a turn, a turn that is open at first included.
pub fn steps_are_bounded()
    ensures { (spec : RoomSpec) (sweep : SweepState) (answers : List ℕ) →
        IsMind spec sweep.mind → IsReadyThroughout spec sweep answers →
        (answered_all spec sweep answers).mind.steps ≤ sweep.mind.steps +
        (processes spec * agreement_rounds (sizes_in spec) + 1) * processes spec * turn_limit spec }
{}

/// No scan makes more collects than the room has writes, and two; and none is counted if the memory is one word, or
/// no turn is open.
pub fn scans_are_bounded()
    ensures most { (spec : RoomSpec) (mind : MindState) → IsMind spec mind → mind.collects ≤ most_collects spec }
    ensures rests { (spec : RoomSpec) (mind : MindState) → IsMind spec mind → is_resting mind.line ≡ true → mind.collects ≡ 0 }
    // The limit of a turn if the memory is one word, and if it is more.
    ensures one { (spec : RoomSpec) → words_in spec ≡ 1 → turn_limit spec ≡ processes spec + 10 }
    ensures several { (spec : RoomSpec) →
        words_in spec ≢ 1 →
        turn_limit spec ≡ processes spec + 7 + 2 * words_in spec + words_in spec * (spec.simulators * processes spec * spec.rounds + 2) }
{}

/// A sweep goes round: a simulator that works on a process of which it has ended a turn before has
/// ended one on each.
pub fn sweeps_go_round()
    ensures { (spec : RoomSpec) (mind : MindState) (process : ℕ) →
        IsMind spec mind → is_unfinished (current_goal mind) ≡ true → IsVisited (current_goal mind) →
        IsVisited (goal_at mind.goals process) }
{}

/// Simulators that know the same go on alike: a mind that knows what another does is one of the room, wants the same operation while turns
/// are left, and knows the same after it.
pub fn knowledge_goes_on()
    ensures is_mind { (spec : RoomSpec) (mind : MindState) → IsMind spec mind → IsMind spec (mind_of (knowledge_of mind)) }
    ensures wants { (spec : RoomSpec) (mind : MindState) →
        IsMind spec mind → IsOperation (move_of spec mind) →
        move_of spec (mind_of (knowledge_of mind)) ≡ move_of spec mind }
    ensures knows { (spec : RoomSpec) (mind : MindState) (answer : ℕ) →
        knowledge_of (taken spec (mind_of (knowledge_of mind)) answer).mind ≡ knowledge_of (taken spec mind answer).mind }
    // What `==` finds equal is the same.
    ensures equal { (one other : Knowledge) → tests.eq one other ≡ true → one ≡ other }
{}
