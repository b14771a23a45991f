//! Laws of protocols' values, for a crate that works out many of them. Each is what its function
//! ensures.
ghost use Rattle.std.specs.Prelude.{◌≡◌, ◌-◌, ◌≤◌, ℕ, List, Option, length};
ghost use Rattle.protocol_lang.specs.Thresholds.{least_of, waits_for_all_but};
ghost use Rattle.protocol_lang.specs.declared.meaning.Action.TheVariants.{Decide, Write};
ghost use Rattle.std.specs.List.{AllByRecursion};
ghost use Rattle.protocol_lang.specs.Numbers.{greatest};
ghost use Rattle.protocol_lang.specs.Trees.{Tree};
ghost use Rattle.protocol_lang.specs.Grammar.{IsText};
ghost use Rattle.protocol_lang.specs.Meaning.{entry, first_value, next_action, present};
ghost use Rattle.protocol_lang.specs.Limits.{HasSmallNumerals, IsEntry, action_value};

/// A text of the language has no numeral above the greatest value.
pub fn numerals_are_small()
    ensures { (text : List ℕ) (tree : Tree) → IsText text tree → HasSmallNumerals tree }
{}

/// What [`first`](crate::first) gives is at most the greatest value.
pub fn first_is_value()
    ensures { (tree : Tree) (input id n : ℕ) →
        HasSmallNumerals tree → input ≤ greatest → id ≤ greatest → n ≤ greatest →
        first_value tree input id n ≤ greatest }
{}

/// What [`next`](crate::next) gives is at most the greatest value.
pub fn next_is_value()
    ensures { (tree : Tree) (input id round : ℕ) (view : List (Option ℕ)) →
        HasSmallNumerals tree → input ≤ greatest → id ≤ greatest → round ≤ greatest → length view ≤ greatest → AllByRecursion IsEntry view →
        action_value (next_action tree input id round view) ≤ greatest }
{}

/// A process that waits for all but f first writes its input. If its view shows fewer, it writes its own entry again; else it
/// decides the least value.
pub fn waits_for_all_but_some()
    ensures first { (f input id n : ℕ) → first_value (waits_for_all_but f) input id n ≡ input }
    ensures writes { (f input id round value : ℕ) (view : List (Option ℕ)) →
        next_action (waits_for_all_but f) input id round view ≡ Write value →
        entry view id ≡ value }
    ensures waits { (f input id round value : ℕ) (view : List (Option ℕ)) →
        next_action (waits_for_all_but f) input id round view ≡ Write value → length view - f ≤ length (present view) →
        ⊥ }
    ensures decides { (f input id round value : ℕ) (view : List (Option ℕ)) →
        next_action (waits_for_all_but f) input id round view ≡ Decide value →
        (length view - f ≤ length (present view)) × (least_of view ≡ value) }
{}
