//! The keeper of a room's simulators.
ghost use Rattle.std.specs.Prelude.{◌≡◌, true, [], MatchOption, Some, None, slice_set};
ghost use Rattle.ruled_room.specs.Parts.{IsComplete, IsFirstOut, holds_in, operations_home, sweep_home, with_home};
ghost use Rattle.ruled_room.specs.Views.{IsAlone, given, progress_in, with_back, without};

use crate::boxed::BoxedSweep;
use crate::room::RuledRoom;
use crate::rule::{Chosen, HandsOver, View};
use crate::step::Simulator;
use crate::stop::Stop;
use arrayvec::ArrayVec;
use atomic_table::Seat;
use room_spec::MAX_SIMULATORS;
use std::marker::{Brand, Model};

/// The simulators of a room that are at home, and which of all its simulators have crashed.
#[derive(Drop)]
pub struct Keeper {
    pub(crate) seat: Seat<(), View>,
    pub(crate) sweeps: ArrayVec<Option<BoxedSweep>, MAX_SIMULATORS>,
    pub(crate) crashed: ArrayVec<bool, MAX_SIMULATORS>,
}

impl Model for Keeper {
    ghost use Rattle.std.specs.Prelude.{◌≡◌, [], length, map};
    ghost use Rattle.std.specs.Coded.{codes};
    ghost use Rattle.protocol_lang.specs.Codes.{expression_code};
    ghost use Rattle.ruled_room.specs.Parts.{AreSweeps, KeeperData, minds_of};
    ghost use Rattle.ruled_room.specs.Views.{done_by, minds_in};

    ghost Value = { KeeperData };

    ghost coded = { Prim.hlevel (codes, expression_code) };

    ghost view = { λ k. record {
      room = record { table = k.seat.table_id; spec = k.seat.me.0.spec };
      sweeps = k.sweeps.items;
      operations = map done_by k.seat.me.0.held;
      crashed = k.crashed.items;
    } };

    // Its seat has the minds of those at home.
    ghost invariant = { λ k. (minds_in k.seat.me.0 ≡ minds_of k.sweeps.items) × (k.seat.me.1 ≡ []) ×
        (length k.sweeps.items ≡ k.seat.me.0.spec.simulators) × (length k.crashed.items ≡ k.seat.me.0.spec.simulators) ×
        AreSweeps k.seat.me.0.spec k.sweeps.items };
}

impl Keeper {
    /// Whether simulator `i` is at home and hasn't crashed. It is false of numbers that are not below
    /// the room's simulators.
    pub fn holds(&self, i: usize) -> bool
        ensures { result ≡ holds_in self.now i }
    {
        i < self.sweeps.len() && self.sweeps[i].is_some() && !self.crashed.as_slice()[i]
    }

    /// The first simulator that is not at home.
    pub(crate) fn out(&self) -> Option<u8>
        ensures { MatchOption result (IsComplete self.now.sweeps) (IsFirstOut self.now.sweeps) }
    {
        for (i, sweep) in self.sweeps.iter().enumerate() {
            if sweep.is_none() {
                return Some(i as u8);
            }
        }
        None
    }

    /// Gives simulator `i` away, which [`holds`](Keeper::holds) says is at home and hasn't crashed, with
    /// the mind and the quiet count that it has at home, and with what it has done so far.
    pub fn give(&mut self, room: &RuledRoom, i: usize) -> Simulator
        requires room { self.old.room ≡ room.now }
        requires holds { holds_in self.old i ≡ true }
        ensures keeper { self.new ≡ record self.old { sweeps = slice_set self.old.sweeps i None; operations = slice_set self.old.operations i [] } }
        ensures simulator { (result.room ≡ room.now) × (result.number ≡ i) × (Some result.sweep ≡ sweep_home self.old i) ×
            (result.operations ≡ operations_home self.old i) }
    {
        let place = &mut self.sweeps[i];
        let Some(sweep) = place.take() else {
            unreachable!() // it holds the simulator
        };
        let seat = cut::<Brand>(room, &mut self.seat, i);
        Simulator {
            seat,
            sweep,
            number: i,
        }
    }

    /// Takes a simulator back, with its mind, its quiet count and what it has done, and marks it as
    /// crashed where it crashed.
    pub fn take_back(&mut self, room: &RuledRoom, simulator: Simulator, stop: Stop)
        requires keeper { self.old.room ≡ room.now }
        requires simulator { simulator.room ≡ room.now }
        ensures { self.new ≡ with_home self.old simulator stop }
    {
        let Simulator {
            seat,
            sweep,
            number,
        } = simulator;
        mend::<Brand>(room, &mut self.seat, seat, number);
        self.sweeps[number] = Some(sweep);
        if let Stop::Crashed = stop {
            self.crashed[number] = true;
        }
    }
}

/// Cuts the mind of C off a seat.
fn cut<C: Chosen>(
    room: &RuledRoom,
    seat: &mut Seat<(), View>,
    number: usize, // for the proof: whose mind it is
) -> Seat<(), View>
    requires table { seat.old.table_id ≡ room.now.table }
    requires number { number ≡ C.number }
    ensures seat { (seat.new.table_id ≡ seat.old.table_id) × (seat.new.id ≡ seat.old.id) × (seat.new.me ≡ (without number seat.old.me.0, seat.old.me.1)) }
    ensures new { (result.table_id ≡ seat.old.table_id) × (result.me ≡ (given seat.old.me.0.spec number (progress_in seat.old.me.0 number), [])) }
{
    room.table.shared.split_seat::<HandsOver<C>>(seat)
}

/// Joins the mind of C to a seat.
fn mend<C: Chosen>(
    room: &RuledRoom,
    seat: &mut Seat<(), View>,
    other: Seat<(), View>,
    number: usize, // for the proof: whose mind it is
)
    requires table { (seat.old.table_id ≡ room.now.table) × (other.table_id ≡ room.now.table) }
    requires number { number ≡ C.number }
    requires other { IsAlone number other.me }
    ensures { (seat.new.table_id ≡ seat.old.table_id) × (seat.new.id ≡ seat.old.id) ×
        (seat.new.me ≡ (with_back number seat.old.me.0 other.me.0, seat.old.me.1)) }
{
    room.table.shared.join_seat::<HandsOver<C>>(seat, other);
}
