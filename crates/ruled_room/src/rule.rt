//! The rule of a room's table.
//!
//! The table has the room's words, and after them one more, which is 0 until the room has begun.
//! Each simulator that was given away steps through a seat of its own, and the keeper has the first
//! seat. A seat's view is data that exists in proofs alone, and changes at its own operations only.
//!
//! **Between any two operations** each simulator's mind is in the view of at most one seat, with the
//! operations that it has done since the room began. Some list of atomic steps, in which no simulator has crashed,
//! leads from the opening room to the room's words and these minds, and along it each simulator does
//! just these operations, with the answers that it had. Before the last word is 1, all words are 0 and
//! no view has a mind.
//!
//! These are the operations. Own words and fields are those of the simulator that steps.
//!
//! | Operation | Word | When | Seat, and what becomes of its view |
//! |---|---|---|---|
//! | store | own value, own decision | first line of a turn that writes; line out | the simulator's: its mind goes one line on |
//! | add 1 to own field | a memory word | line raise | the same |
//! | load | a memory word | line snap | the same: the mind goes on by the word that was found |
//! | store | a word of own view for the agreement | line show | the same |
//! | add 1 to own field, subtract 1 from it | the levels of the agreement | lines enter and leave | the same |
//! | load | the levels of the agreement | lines look and ask; first line of a turn that asks | the same, by the word that was found |
//! | load | a word of the view that was agreed on | line get view | the same, by the word that was found |
//! | load | a value that this view shows | line values | the same, by the word that was found |
//! | load | the first memory word | a simulator is given | the keeper's: the mind and its operations leave it, and a new seat has them |
//! | load | the first memory word | a simulator is taken back | the keeper's: it has them again, and the other seat has none |
//! | swap in 1 | the last | the room begins | the keeper's: where the swap found 0, it gets all opening minds |
//!
//! The first eight rows are the atomic steps of a simulator. There the view also notes the operation
//! and its answer: a history variable (M. Abadi and L. Lamport, "The existence of refinement
//! mappings", Theoretical Computer Science 82(2), 1991). The last three rows are no steps, and change
//! no word of the room.
use atomic_table::{Join, Play, Split, TableRule};
use room_spec::Spec;
use simulator::{Mind, Move};
use std::collections::LinkedList;
use std::marker::{Brand, PhantomData};

/// An operation on a word of the room, and what it answered. The answer of a store is the number
/// stored.
pub struct Operation {
    pub done: Move,
    pub answer: u64,
}

/// How far a simulator has come: its mind, and the operations that it has done since its room began,
/// in order.
pub struct Progress {
    pub mind: Mind,
    pub operations: LinkedList<Operation>,
}

/// What a seat knows: its room's spec, and how far the simulators that it holds have come, each at its
/// number. No value of it is made.
pub struct View {
    pub spec: Spec,
    pub held: LinkedList<Option<Progress>>,
}

/// The words and the minds are those of one interleaving.
pub struct Interleaves;

impl TableRule<(), View, Spec> for Interleaves {
    ghost use Rattle.ruled_room.specs.Rule.{Kept};
    ghost use Rattle.ruled_room.specs.Views.{nobody};

    ghost holds = { λ spec table. Kept spec table };

    ghost first = { nobody };
}

/// A simulator loads a word.
pub struct Loads;

impl Play<(), View> for Loads {
    ghost use Rattle.std.specs.Prelude.{◌≡◌};
    ghost use Rattle.simulator.specs.declared.operation.Move.TheVariants.{Load};
    ghost use Rattle.ruled_room.specs.Views.{noted};

    ghost then = { λ step before found after. after ≡ (noted (Load step.word) found before.0, before.1) };
}

/// A simulator stores a number.
pub struct Stores;

impl Play<(), View> for Stores {
    ghost use Rattle.std.specs.Prelude.{◌≡◌};
    ghost use Rattle.simulator.specs.declared.operation.Move.TheVariants.{Store};
    ghost use Rattle.ruled_room.specs.Views.{noted};

    ghost then = { λ step before stored after. after ≡ (noted (Store step.word step.first) stored before.0, before.1) };
}

/// A simulator adds a number to a word.
pub struct Adds;

impl Play<(), View> for Adds {
    ghost use Rattle.std.specs.Prelude.{◌≡◌};
    ghost use Rattle.simulator.specs.declared.operation.Move.TheVariants.{Add};
    ghost use Rattle.ruled_room.specs.Views.{noted};

    ghost then = { λ step before found after. after ≡ (noted (Add step.word step.first) found before.0, before.1) };
}

/// A simulator subtracts a number from a word.
pub struct Subtracts;

impl Play<(), View> for Subtracts {
    ghost use Rattle.std.specs.Prelude.{◌≡◌};
    ghost use Rattle.simulator.specs.declared.operation.Move.TheVariants.{Sub};
    ghost use Rattle.ruled_room.specs.Views.{noted};

    ghost then = { λ step before found after. after ≡ (noted (Sub step.word step.first) found before.0, before.1) };
}

/// The room begins: where the swap found 0, the keeper gets the opening minds.
pub struct Begins;

impl Play<(), View> for Begins {
    ghost use Rattle.std.specs.Prelude.{◌≡◌};
    ghost use Rattle.ruled_room.specs.Views.{begun};

    ghost then = { λ step before found after. found ≡ 0 → after ≡ (begun before.0, before.1) };
}

/// Names the simulator that is given or taken back, and its room's spec.
pub trait Chosen {
    ghost use Rattle.std.specs.Prelude.{ℕ};
    ghost use Rattle.room_spec.specs.Rooms.{RoomSpec};

    ghost number: { ℕ };

    ghost spec: { RoomSpec };
}

impl Chosen for Brand {
    ghost use Rattle.ruled_room.specs.Views.{no_spec};

    ghost number = { 0 };

    ghost spec = { no_spec };
}

/// The mind of the chosen simulator goes from one seat to another.
pub struct HandsOver<C> {
    of: PhantomData<C>,
}

impl<C: Chosen> Split<View> for HandsOver<C> {
    ghost use Rattle.ruled_room.specs.Views.{given, progress_in, without};

    ghost left = { λ view. without C.number view };

    ghost right = { λ view. given view.spec C.number (progress_in view C.number) };
}

impl<C: Chosen> Join<View> for HandsOver<C> {
    ghost use Rattle.ruled_room.specs.Views.{nobody, with_back};

    ghost both = { λ view other. with_back C.number view other };

    ghost spent = { nobody C.spec };
}
