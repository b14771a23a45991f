//! Laws of places, and of a memory that has a word for each. Each is what its function ensures.
ghost use Rattle.std.specs.Prelude.{◌≡◌, ◌≢◌, ℕ, ◌+◌, ◌<◌, List, length, replicate};
ghost use Rattle.room_spec.specs.Sizes.{Sizes};
ghost use Rattle.view_table.specs.declared.place.Place.{Place};
ghost use Rattle.view_table.specs.declared.place.Place.TheVariants as places;
ghost use Rattle.view_table.specs.Places.{IsPlace, IsPlaceAt, index_of, words_of};
ghost use Rattle.view_table.specs.Words.{word_at, with_word};

/// Two places that share an index are one place.
pub fn places_are_distinct()
    ensures { (sizes : Sizes) (a b : Place) → IsPlace sizes a → IsPlace sizes b → index_of sizes a ≡ index_of sizes b → a ≡ b }
{}

/// Each place of a room has one of its words.
pub fn places_have_words()
    ensures { (sizes : Sizes) (place : Place) → IsPlace sizes place → index_of sizes place < words_of sizes }
{}

/// Each word of a room is that of a place.
pub fn words_have_places()
    ensures { (sizes : Sizes) (at : ℕ) → at < words_of sizes → (place : Place) × IsPlaceAt sizes place at }
{}

/// A store at a place changes the word of that place alone.
pub fn a_store_changes_one_place()
    ensures here { (sizes : Sizes) (words : List ℕ) (place : Place) (word : ℕ) →
        length words ≡ words_of sizes → IsPlace sizes place →
        word_at sizes (with_word sizes words place word) place ≡ word }
    ensures elsewhere { (sizes : Sizes) (words : List ℕ) (place other : Place) (word : ℕ) →
        IsPlace sizes place → IsPlace sizes other → other ≢ place →
        word_at sizes (with_word sizes words place word) other ≡ word_at sizes words other }
    ensures count { (sizes : Sizes) (words : List ℕ) (place : Place) (word : ℕ) → length (with_word sizes words place word) ≡ length words }
{}

/// Words that agree at each place are the same.
pub fn places_make_the_words()
    ensures { (sizes : Sizes) (words others : List ℕ) →
        length words ≡ words_of sizes → length others ≡ words_of sizes →
        ((place : Place) → IsPlace sizes place → word_at sizes words place ≡ word_at sizes others place) →
        words ≡ others }
{}

/// The words of a memory that is all 0.
pub fn words_of_zeros()
    ensures { (sizes : Sizes) (place : Place) → IsPlace sizes place → word_at sizes (replicate (words_of sizes) 0) place ≡ 0 }
{}

/// The memory words come first, and the words of one view are side by side.
pub fn words_stand_together()
    ensures memory { (sizes : Sizes) (w : ℕ) → index_of sizes (places.Memory w) ≡ w }
    ensures view { (sizes : Sizes) (i j k w : ℕ) → index_of sizes (places.View i j k w) ≡ index_of sizes (places.View i j k 0) + w }
{}
