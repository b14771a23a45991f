//! Laws of what is allowed at a place of a text, of words that are near each other, and of the places of faults. Each is what its function ensures.
ghost use Rattle.std.specs.Prelude.{◌≡◌, ◌==◌, ◌∷◌, ◌++◌, ℕ, List, false, true};
ghost use Rattle.protocol_lang.specs.Tokens.{symbol_spelling, word_spelling};
ghost use Rattle.protocol_lang.specs.declared.token.Symbol.{Symbol};
ghost use Rattle.protocol_lang.specs.declared.token.Word.{Word};
ghost use Rattle.fault_text.specs.Choices.{is_tried};
ghost use Rattle.room_files.specs.declared.fault.BlockFault.{BlockFault};
ghost use Rattle.fault_text.specs.Hints.{is_one_edit};
ghost use Rattle.fault_text.specs.Phrases.{form_fault};
ghost use Rattle.fault_text.specs.Refusals.{why_said};
ghost use Rattle.fault_text.specs.Spots.{IsSaidAt, SpotParts, form_spot, refusal_spot};

/// Each word and each symbol of the language is among the tokens of which it is said whether they are allowed at a place.
pub fn each_token_is_tried()
    ensures words { (word : Word) → is_tried (word_spelling word) ≡ true }
    ensures symbols { (symbol : Symbol) → is_tried (symbol_spelling symbol) ≡ true }
{}

/// A word is one edit away from a known one if it has another byte in one place, one byte more or less, or two neighbouring bytes in the other order.
pub fn near_words()
    ensures other { (front back : List ℕ) (x y : ℕ) → (x == y) ≡ false → is_one_edit (front ++ x ∷ back) (front ++ y ∷ back) ≡ true }
    ensures more { (front back : List ℕ) (x : ℕ) → is_one_edit (front ++ back) (front ++ x ∷ back) ≡ true }
    ensures less { (front back : List ℕ) (x : ℕ) → is_one_edit (front ++ x ∷ back) (front ++ back) ≡ true }
    ensures swapped { (front back : List ℕ) (x y : ℕ) → (x == y) ≡ false → is_one_edit (front ++ x ∷ y ∷ back) (front ++ y ∷ x ∷ back) ≡ true }
{}

/// What is said of a fault begins with the sentence and the line of its spot, and with a caret below the spot's place: of a line that should have one of some
/// forms, and of a block; and so does what has more after it.
pub fn faults_are_said_at_their_spots()
    ensures forms { (number : ℕ) (what line : List ℕ) (forms : List (List ℕ)) → IsSaidAt (form_spot number what line forms) (form_fault number what line forms) }
    ensures blocks { (first : ℕ) (text : List ℕ) (fault : BlockFault) → IsSaidAt (refusal_spot first text fault) (why_said first text fault) }
    ensures more { (spot : SpotParts) (said more : List ℕ) → IsSaidAt spot said → IsSaidAt spot (said ++ more) }
{}
