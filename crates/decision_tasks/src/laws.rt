//! What lines of tasks say in other words. Each law is what its function ensures.
ghost use Rattle.std.specs.Prelude.{◌≡◌, ◌↔◌, ◌∷◌, [], ℕ, List, Ok, Option, codes};
ghost use Rattle.protocol_lang.specs.Reading.{reading};
ghost use Rattle.decision_tasks.specs.Laws.{IsAgreement, agreement};
ghost use Rattle.decision_tasks.specs.Lines.{protocol_text};
ghost use Rattle.decision_tasks.specs.Tasks.{AreAllowed};

/// The line `equal(mine) == count and given >= 1` says what the line `task agree 1` of a block does: that all who decide decide the same, and that it is an input.
pub fn one_input_is_agreed_on()
    ensures read { reading (protocol_text (codes "equal(mine) == count and given >= 1")) ≡ Ok agreement }
    ensures says { (inputs : List ℕ) (decisions : List (Option ℕ)) → AreAllowed (agreement ∷ []) inputs decisions ↔ IsAgreement inputs decisions }
{}
