//! That what is warned of is so. Each law is what its function ensures.
ghost use Rattle.std.specs.Prelude.{◌≡◌, ◌≤◌, ◌∷◌, ◌++◌, ℕ, List, true, length};
ghost use Rattle.protocol_lang.specs.Meaning.{Environment, action_in, applies, holds, value_of};
ghost use Rattle.protocol_lang.specs.Trees.{Calling, Expression, Number, RuleOf, Tree};
ghost use Rattle.protocol_lang.specs.declared.meaning.Action.TheVariants.{Decide};
ghost use Rattle.protocol_lang.specs.declared.tree.Call.TheVariants.{Cell, Seen};
ghost use Rattle.protocol_lang.specs.declared.tree.Comparator.TheVariants.{Equal, GreaterOrEqual, LessOrEqual};
ghost use Rattle.room_warnings.specs.Laws.{never_decides, with_rules};

/// A call of `cell` or `seen` for a process that the room doesn't have is 0 in every view.
pub fn no_process_shows_nothing()
    ensures cell { (s : Environment) (k : ℕ) → length s.view ≤ k → value_of (Calling Cell (Number k)) s ≡ 0 }
    ensures seen { (s : Environment) (k : ℕ) → length s.view ≤ k → value_of (Calling Seen (Number k)) s ≡ 0 }
{}

/// A comparison of one of these forms holds in every view.
pub fn some_comparisons_always_hold()
    ensures least { (s : Environment) (e : Expression) → holds s (record { left = e; comparator = GreaterOrEqual; right = Number 0 }) ≡ true }
    ensures most { (s : Environment) (e : Expression) → holds s (record { left = Number 0; comparator = LessOrEqual; right = e }) ≡ true }
    ensures same { (s : Environment) (e : Expression) → holds s (record { left = e; comparator = Equal; right = e }) ≡ true }
{}

/// If a rule applies, what comes after it is not used: the action is the same with other rules after it.
pub fn later_rules_are_not_used()
    ensures { (tree : Tree) (s : Environment) (before later other : List (RuleOf Expression)) (rule : RuleOf Expression) → applies s rule ≡ true →
        action_in (with_rules tree (before ++ rule ∷ later)) s ≡ action_in (with_rules tree (before ++ rule ∷ other)) s }
{}

/// A protocol none of whose rules decides has no process decide in any view.
pub fn without_decide_no_process_decides()
    ensures { (tree : Tree) (s : Environment) (v : ℕ) → never_decides tree ≡ true → action_in tree s ≡ Decide v → ⊥ }
{}
