//! A room on words that threads share: its beginning and its end.
ghost use Rattle.std.specs.Prelude.{◌≡◌, suc, ◌<◌, ◌≤◌, [], length, take, map, IfOk, IfErr, OnOk, Some};
ghost use Rattle.std.specs.Mem.Slots.{IsFull, slots_items, slots_len};
ghost use Rattle.std.specs.Vec.{vec_capacity};
ghost use Rattle.simulator.specs.Sweeps.{opening_sweep};
ghost use Rattle.room_spec.specs.Rooms.{IsWithinLimits};
ghost use Rattle.room_core.specs.Calls.{configuration_of};
ghost use Rattle.ruled_room.specs.Parts.{GoneFor, IsComplete, first_sweeps, opening_keeper};
ghost use Rattle.ruled_room.specs.Rule.{word_count};
ghost use Rattle.ruled_room.specs.Runs.{IsInterleavingOf};

use crate::boxed::BoxedSweep;
use crate::keeper::Keeper;
use crate::rule::{Begins, Interleaves, View};
use arrayvec::ArrayVec;
use atomic_table::{Closed, Table};
use room_core::{RoomCore, none_crashed};
use room_spec::{MAX_SIMULATORS, Spec};
use simulator::Sweep;
use std::alloc::{AllocError, Global};
use std::marker::Model;
use view_table::words;

/// The words of a running room, which threads share. Its simulators are with its [`Keeper`], or with
/// whom it gave them to.
///
/// Which room a keeper or a simulator is of is known to proofs alone, since a seat has no bytes: no
/// call can test it, so it is a condition of each call that takes two of them. `fresh` and
/// [`give`](Keeper::give) promise it of what they hand out, and each call keeps it.
#[derive(Drop)]
pub struct RuledRoom {
    pub(crate) table: Table<(), View, Spec, Interleaves, Global>,
    pub(crate) spec: Spec,
}

impl Model for RuledRoom {
    ghost use Rattle.std.specs.Prelude.{◌≡◌, suc};
    ghost use Rattle.std.specs.Coded.{codes};
    ghost use Rattle.protocol_lang.specs.Codes.{expression_code};
    ghost use Rattle.ruled_room.specs.Parts.{RoomName};
    ghost use Rattle.ruled_room.specs.Rule.{word_count};

    ghost Value = { RoomName };

    ghost coded = { Prim.hlevel (codes, expression_code) };

    ghost view = { λ r. record { table = r.table.shared.table_id; spec = r.spec } };

    // Its table has the spec, and has one word more than the room.
    ghost invariant = { λ r. (r.table.shared.key ≡ r.spec) × (r.table.shared.table_id.words ≡ suc (word_count r.spec)) × (r.table.shared.table_id.slots ≡ 0) };
}

/// Why a room was not closed.
#[derive(Clone, Copy, Debug, PartialEq, Eq)]
pub enum Gone {
    /// This simulator, the least such, is not at home.
    StillOut(u8),
    /// Memory for the words was refused.
    OutOfMemory,
}

impl RuledRoom {
    /// A room in which no simulator has taken a step, with its keeper, who has all its simulators. If
    /// an allocation fails, the spec is dropped.
    ///
    /// It begins by a swap in the table's last word. Another answer than 0 of it would be answered as
    /// an allocation fails; no run comes there, since no other has the new table.
    pub fn fresh(alloc: Global, spec: Spec) -> Result<(RuledRoom, Keeper), AllocError>
        ensures room { IfOk result (λ r. r.0.spec ≡ spec) }
        ensures keeper { IfOk result (λ r. r.1 ≡ opening_keeper r.0) }
    {
        let count = words(&spec.shape());
        let zero = vec![in alloc; 0; count + 1]?;
        let sweeps = first_sweeps(alloc, &spec)?;
        let (table, mut seat) = Table::of_words(alloc, zero.as_slice(), &spec)?;
        let found = table.shared.swap::<Begins>(&mut seat, count, 1);
        if found != 0 {
            return Err(AllocError);
        }
        let keeper = Keeper {
            seat,
            sweeps,
            crashed: none_crashed(spec.m()),
        };
        Ok((RuledRoom { table, spec }, keeper))
    }

    /// Ends a room whose simulators are all at home: a room in which just the steps happened that
    /// they took, in some order, and then the crashes with which they were taken back. Where one is
    /// still out, and else if an allocation fails, room and keeper come back unchanged.
    pub fn close(self, alloc: Global, keeper: Keeper) -> Result<RoomCore, (RuledRoom, Keeper, Gone)>
        requires { keeper.room ≡ self }
        // The room has the keeper's minds and quiet counts, and its marks of crashes.
        ensures core { IfOk result (λ core. (core.spec ≡ self.spec) × (map Some core.sweeps ≡ keeper.sweeps) × (core.crashed ≡ keeper.crashed)) }
        // Its words and minds are those of one interleaving, along which each simulator does the operations that the keeper has
        // noted of it, with their answers, and no other.
        ensures run { IfOk result (λ core. IsInterleavingOf (configuration_of core) keeper.operations) }
        ensures home { OnOk result (IsComplete keeper.sweeps) }
        ensures gone { IfErr result (λ e. GoneFor keeper.sweeps e.2) }
        ensures same { IfErr result (λ e. (e.0 ≡ self) × (e.1 ≡ keeper)) }
    {
        if let Some(i) = keeper.out() {
            return Err((self, keeper, Gone::StillOut(i)));
        }
        let Ok((words, sweeps)) = space(alloc, &self.spec) else {
            return Err((self, keeper, Gone::OutOfMemory));
        };
        Ok(self.end(keeper, words, sweeps))
    }

    /// Ends a room whose simulators are all at home. Its words go into `words`, and its sweeps into
    /// `whole`, which has room for them.
    fn end(self, keeper: Keeper, mut words: Vec<u64>, whole: Vec<Sweep>) -> RoomCore
        requires room { keeper.room ≡ self }
        requires home { IsComplete keeper.sweeps }
        requires limits { IsWithinLimits self.spec }
        requires words { length words.items ≡ word_count self.spec }
        requires whole { (whole.items ≡ []) × (self.spec.simulators ≤ vec_capacity whole) }
        ensures { (result.spec ≡ self.spec) × (map Some result.sweeps ≡ keeper.sweeps) × (result.crashed ≡ keeper.crashed) ×
            IsInterleavingOf (configuration_of result) keeper.operations }
    {
        let RuledRoom { table, spec } = self;
        let Keeper {
            seat,
            sweeps,
            crashed,
        } = keeper;
        let closed = table.close_with(seat);
        read(&closed, &mut words);
        closed.free();
        RoomCore::from_parts(spec, words, all(sweeps, whole), crashed)
    }
}

/// Copies the first words.
fn read(closed: &Closed<(), Global>, words: &mut Vec<u64>)
    requires { IsFull closed.now.words × (length words.old.items ≤ slots_len closed.now.words) }
    ensures { words.new.items ≡ take (length words.old.items) (slots_items closed.now.words) }
{
    for i in 0..words.len() {
        words[i] = closed.word(i);
    }
}

/// The sweeps, which are all there, in `whole`, which has room for them.
fn all(sweeps: ArrayVec<Option<BoxedSweep>, MAX_SIMULATORS>, mut whole: Vec<Sweep>) -> Vec<Sweep>
    requires complete { IsComplete sweeps.items }
    requires whole { (whole.items ≡ []) × (length sweeps.items ≤ vec_capacity whole) }
    ensures { map Some result.items ≡ sweeps.items }
{
    for sweep in sweeps {
        let Some(sweep) = sweep else {
            unreachable!() // none of them is out
        };
        let Ok(()) = whole.push(sweep.into_inner()) else {
            unreachable!() // there is room
        };
    }
    whole
}

/// The memory that a closed room takes: words that are 0, and room for its sweeps.
fn space(alloc: Global, spec: &Spec) -> Result<(Vec<u64>, Vec<Sweep>), AllocError>
    ensures words { IfOk result (λ r. length r.0.items ≡ word_count spec.now) }
    ensures sweeps { IfOk result (λ r. (r.1.items ≡ []) × (spec.now.simulators ≤ vec_capacity r.1)) }
{
    let words = vec![in alloc; 0; words(&spec.shape())]?;
    let sweeps = Vec::with_capacity(alloc, spec.m())?;
    Ok((words, sweeps))
}

/// A sweep for each simulator, before its first step.
fn first_sweeps(
    alloc: Global,
    spec: &Spec,
) -> Result<ArrayVec<Option<BoxedSweep>, MAX_SIMULATORS>, AllocError>
    ensures { IfOk result (λ sweeps. sweeps.items ≡ first_sweeps spec.now) }
{
    let mut sweeps = ArrayVec::new();
    for i in 0..spec.m() {
        sweeps.push(Some(first_sweep(alloc, spec, i)?));
    }
    Ok(sweeps)
}

fn first_sweep(alloc: Global, spec: &Spec, i: usize) -> Result<BoxedSweep, AllocError>
    requires { i < spec.now.simulators }
    ensures { IfOk result (λ sweep. sweep ≡ opening_sweep spec.now i) }
{
    BoxedSweep::new(alloc, Sweep::new(spec, i))
}
