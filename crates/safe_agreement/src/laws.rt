//! Laws of safe agreement, for a crate that runs many of them. Each is what its function ensures.
//!
//! They speak of one agreement among `m` simulators, as a map from a simulator's number to its phase
//! in it, and of changes in any order: one simulator enters, looks or leaves (E. Borowsky and
//! others, "The BG distributed simulation algorithm", Distributed Computing 14(3), 2001).
ghost use Rattle.std.specs.Prelude.{ℕ, ◌≡◌, ◌≢◌, ◌<◌, ◌↔◌, Bool, List, Some, length, slice_index, take};
ghost use Rattle.safe_agreement.specs.Levels.{IsResolved, IsResolvedTo, least_two, leave_of, resolved_of};
ghost use Rattle.safe_agreement.specs.Phases.{Phase, Entered, Left, Change, Looks, Leaves, phase_level, phase_levels, mover, MayMove, moved, IsStep, IsFixed, HasTwoBeside, HaveSameTwos, before_all, after_change, after_changes, AreLegal};

/// The levels of simulators 0 to m - 1, in their order.
pub fn levels()
    ensures length { (m : ℕ) (phases : ℕ → Phase) → length (phase_levels m phases) ≡ m }
    ensures at { (m : ℕ) (phases : ℕ → Phase) (i : ℕ) → i < m → slice_index (phase_levels m phases) i ≡ phase_level (phases i) }
    ensures of_list { (m : ℕ) (phases : ℕ → Phase) (levels : List ℕ) →
        length levels ≡ m → ((i : ℕ) → i < m → slice_index levels i ≡ phase_level (phases i)) →
        levels ≡ phase_levels m phases }
{}

/// A simulator leaves to the level that [`leave_level`](crate::leave_level) gives of the levels that
/// it saw when it looked, whatever they have become since.
pub fn leaves_as_seen()
    ensures { (seen now : List ℕ) (i : ℕ) → moved now (Leaves i) (moved seen (Looks i) Entered) ≡ Left (leave_of seen) }
{}

/// An agreement resolves to the least simulator at level 2 if none is at level 1, and a resolved
/// agreement always has one.
pub fn resolves()
    ensures to { (levels : List ℕ) (i : ℕ) → (resolved_of levels ≡ Some i) ↔ IsResolvedTo levels i }
    ensures least { (levels : List ℕ) → IsResolved levels → resolved_of levels ≡ least_two levels }
    ensures some { (levels : List ℕ) → IsResolved levels → (i : ℕ) × (resolved_of levels ≡ Some i) }
{}

/// A resolved agreement is fixed.
pub fn resolved_is_fixed()
    ensures { (m : ℕ) (phases : ℕ → Phase) → IsResolved (phase_levels m phases) → IsFixed m phases }
{}

/// A fixed agreement stays fixed over any change, and the same simulators are at level 2.
pub fn stays_fixed()
    ensures fixed { (m : ℕ) (before : ℕ → Phase) (change : Change) (after : ℕ → Phase) → IsStep m before change after → IsFixed m before → IsFixed m after }
    ensures twos { (m : ℕ) (before : ℕ → Phase) (change : Change) (after : ℕ → Phase) →
        IsStep m before change after → IsFixed m before →
        HaveSameTwos m before after }
{}

/// The same over any list of changes.
pub fn stays_fixed_on()
    ensures fixed { (m : ℕ) (phases : ℕ → Phase) (changes : List Change) →
        AreLegal m phases changes → IsFixed m phases →
        IsFixed m (after_changes m phases changes) }
    ensures twos { (m : ℕ) (phases : ℕ → Phase) (changes : List Change) →
        AreLegal m phases changes → IsFixed m phases →
        HaveSameTwos m phases (after_changes m phases changes) }
{}

/// Agreement: what an agreement resolves to at one moment, it resolves to at every moment at which
/// it is resolved.
pub fn agrees()
    // At any two moments of any list of changes.
    ensures moments { (m : ℕ) (phases : ℕ → Phase) (changes : List Change) (a b i k : ℕ) →
        AreLegal m phases changes → resolved_of (phase_levels m (after_changes m phases (take a changes))) ≡ Some i →
        resolved_of (phase_levels m (after_changes m phases (take b changes))) ≡ Some k →
        i ≡ k }
    // Once it has resolved, it resolves to the same simulator whenever it is resolved later.
    ensures again { (m : ℕ) (phases : ℕ → Phase) (changes : List Change) (i : ℕ) →
        AreLegal m phases changes → resolved_of (phase_levels m phases) ≡ Some i →
        IsResolved (phase_levels m (after_changes m phases changes)) →
        resolved_of (phase_levels m (after_changes m phases changes)) ≡ Some i }
    // As soon as it is fixed it is settled: the least simulator at level 2 is the one.
    ensures fixed { (m : ℕ) (phases : ℕ → Phase) (changes : List Change) →
        AreLegal m phases changes → IsFixed m phases → IsResolved (phase_levels m (after_changes m phases changes)) →
        resolved_of (phase_levels m (after_changes m phases changes)) ≡ least_two (phase_levels m phases) }
{}

/// If the same simulators are at level 2, the least of them is the same; and that they are the
/// same passes on from change to change.
pub fn same_twos()
    ensures least { (m : ℕ) (before after : ℕ → Phase) → HaveSameTwos m before after → least_two (phase_levels m before) ≡ least_two (phase_levels m after) }
    ensures on { (m : ℕ) (one two three : ℕ → Phase) → HaveSameTwos m one two → HaveSameTwos m two three → HaveSameTwos m one three }
    ensures of_same { (m : ℕ) (phases others : ℕ → Phase) → ((i : ℕ) → i < m → others i ≡ phases i) → HaveSameTwos m phases others }
{}

/// If a simulator has seen a 2 or has left, some simulator is at level 2. So an agreement that one has left, and in
/// which no simulator is at level 1, is resolved: only a simulator that stopped inside can hold it.
pub fn has_two_beside()
    ensures begins { (m : ℕ) → HasTwoBeside m before_all }
    ensures stays { (m : ℕ) (before : ℕ → Phase) (change : Change) (after : ℕ → Phase) →
        IsStep m before change after → HasTwoBeside m before →
        HasTwoBeside m after }
    ensures stays_on { (m : ℕ) (phases : ℕ → Phase) (changes : List Change) →
        AreLegal m phases changes → HasTwoBeside m phases →
        HasTwoBeside m (after_changes m phases changes) }
    ensures resolved { (m : ℕ) (phases : ℕ → Phase) (i level : ℕ) →
        HasTwoBeside m phases → i < m → phases i ≡ Left level → ((k : ℕ) → k < m → phase_level (phases k) ≢ 1) →
        IsResolved (phase_levels m phases) }
{}

/// Each change of a legal list is a step, and phases that are the same for each simulator are as
/// good as each other.
pub fn steps()
    ensures of_change { (m : ℕ) (phases : ℕ → Phase) (change : Change) →
        mover change < m → MayMove change (phases (mover change)) →
        IsStep m phases change (after_change m phases change) }
    ensures same_fixed { (m : ℕ) (phases others : ℕ → Phase) → ((i : ℕ) → i < m → others i ≡ phases i) → IsFixed m phases → IsFixed m others }
    ensures same_beside { (m : ℕ) (phases others : ℕ → Phase) → ((i : ℕ) → i < m → others i ≡ phases i) → HasTwoBeside m phases → HasTwoBeside m others }
{}
