//! Laws of rooms on shared words. Each is what its function ensures.
ghost use Rattle.ruled_room.specs.Stored.{HoldsLastStored, HoldsSum};

/// In a room that is one interleaving of some operations of its simulators, a word in which one
/// simulator alone stores, and to which no simulator adds, holds the last number that it stored there.
pub fn own_words_hold_what_was_stored_last()
    ensures { HoldsLastStored }
{}

/// A word in which no simulator stores holds the sum of what was added and subtracted, modulo 2^64.
pub fn other_words_hold_sums()
    ensures { HoldsSum }
{}
