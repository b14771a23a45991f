//! Settling: what becomes of the simulators that are left, each by itself.
ghost use Rattle.std.specs.Prelude.{ℕ, ◌≡◌, ◌+◌, ◌<◌, ◌≤◌, Some, true, false, length};
ghost use Rattle.std.specs.List.{filter, range_with_len};
ghost use Rattle.room_spec.specs.Rooms.{IsCertified, is_reduction, processes};
ghost use Rattle.room_core.specs.Rooms.{IsRoom};
ghost use Rattle.room_core.specs.Fields.{Fields, decision_in, fields_after_settle};
ghost use Rattle.room_core.specs.Agreements.{AgreementsStay, has_out};
ghost use Rattle.room_core.specs.Reading.{AreFieldsOf};
ghost use Rattle.room_core.specs.Calls.{configuration_of, room_after_settle, room_kind};
ghost use Rattle.room_core.specs.Observing.{AreSeen, IsObserved, steps_of_settling, traced_kind};
ghost use Rattle.room_core.specs.Settled.{HasTurnLeft, IsDecidedOrHeld, IsSettledFor, IsSettledInMind, crashed_in, unfinished_for};
ghost use Rattle.room_core.specs.Settles.{Settles};
ghost use Rattle.room_core.specs.Settling.{each_in_order, ran_alone, turn_ended};

use crate::observer::{Observer, Unobserved};
use crate::reply::StepReply;
use crate::room::RoomCore;

impl RoomCore {
    /// Runs the room to quiescence, without further crashes. Ends the open turn of each simulator that hasn't crashed, in order of number; then lets each of
    /// them, in order of number, run alone until it is idle or out of turns, with its quiet turns
    /// counted anew. It takes no memory.
    pub fn settle(&mut self)
        ensures room { self.new ≡ room_after_settle self.old }
        // The same with no bound: each turn goes to its end, and each runs until it has no step to take.
        ensures unbounded { Settles room_kind self.old self.new }
        // In its fields it is one call of the replay.
        ensures fields { (fields : Fields) → AreFieldsOf self.old fields → AreFieldsOf self.new (fields_after_settle self.old.spec fields) }
        // What was agreed on stays.
        ensures agreement { (fields : Fields) → AreFieldsOf self.old fields → AgreementsStay self.old.spec fields (fields_after_settle self.old.spec fields) }
        // If a simulator that hasn't crashed has a turn left, each process has decided, is spent, or is held by one that has: in an agreement on
        // a snapshot, or in a reduction on its input.
        ensures settled { (fields : Fields) →
            AreFieldsOf self.old fields → HasTurnLeft self.old.spec (fields_after_settle self.old.spec fields) → (j : ℕ) →
            j < processes self.old.spec →
            IsSettledFor self.old.spec (fields_after_settle self.old.spec fields) j }
        // By a protocol that waits for all but f, in two rounds or more of an ordinary room, none is spent.
        ensures certified { (fields : Fields) →
            AreFieldsOf self.old fields → (f : ℕ) → IsCertified self.old.spec f → is_reduction self.old.spec ≡ false → 2 ≤ self.old.spec.rounds →
            HasTurnLeft self.old.spec (fields_after_settle self.old.spec fields) → (j : ℕ) → j < processes self.old.spec →
            IsDecidedOrHeld self.old.spec (fields_after_settle self.old.spec fields) j }
        // In a reduction with f + 1 simulators or fewer none is spent either, and so all have decided but for at most as many as simulators have crashed.
        ensures most { (fields : Fields) →
            AreFieldsOf self.old fields → is_reduction self.old.spec ≡ true → (f : ℕ) → IsCertified self.old.spec f →
            self.old.spec.simulators ≤ f + 1 → 2 ≤ self.old.spec.rounds →
            HasTurnLeft self.old.spec (fields_after_settle self.old.spec fields) →
            processes self.old.spec ≤
            length (filter (λ j. has_out self.old.spec (fields_after_settle self.old.spec fields) j) (range_with_len 0 (processes self.old.spec))) +
            length (crashed_in self.old.spec (fields_after_settle self.old.spec fields)) }
        // As each simulator that hasn't crashed and has a turn left knows each process, that has decided or is out of rounds, or the simulator
        // waits for it: for a snapshot, or in a reduction for the input, inside whose agreement another has crashed.
        ensures each { (fields : Fields) →
            AreFieldsOf self.old fields → (left : HasTurnLeft self.old.spec (fields_after_settle self.old.spec fields)) → (j : ℕ) →
            j < processes self.old.spec →
            IsSettledInMind self.old.spec (fields_after_settle self.old.spec fields) left.simulator j }
        // It waits for at most as many processes as simulators have crashed.
        ensures few { (fields : Fields) →
            AreFieldsOf self.old fields → (left : HasTurnLeft self.old.spec (fields_after_settle self.old.spec fields)) →
            length (unfinished_for self.old.spec (fields_after_settle self.old.spec fields) left.simulator) ≤
            length (crashed_in self.old.spec (fields_after_settle self.old.spec fields)) }
        // If at most f have crashed, each simulator that hasn't and has a turn left has decided: of the processes, fewer than all but f are out
        // of rounds, and it waits for at most f.
        ensures decides { (fields : Fields) →
            AreFieldsOf self.old fields → (f : ℕ) → IsCertified self.old.spec f →
            length (crashed_in self.old.spec (fields_after_settle self.old.spec fields)) ≤ f →
            (left : HasTurnLeft self.old.spec (fields_after_settle self.old.spec fields)) →
            (decision : ℕ) × (decision_in (fields_after_settle self.old.spec fields) left.simulator ≡ Some decision) }
        // So with f + 1 simulators or fewer it has decided, however many of the others have crashed.
        ensures others_crash { (fields : Fields) →
            AreFieldsOf self.old fields → (f : ℕ) → IsCertified self.old.spec f → self.old.spec.simulators ≤ f + 1 →
            (left : HasTurnLeft self.old.spec (fields_after_settle self.old.spec fields)) →
            (decision : ℕ) × (decision_in (fields_after_settle self.old.spec fields) left.simulator ≡ Some decision) }
    {
        let _ = &self.spec; // for the proof: what the type of a room says
        self.settle_observed(&mut Unobserved);
    }

    /// Does what [`settle`](RoomCore::settle) does, and has each atomic step seen by an observer.
    pub fn settle_observed<W: Observer>(&mut self, observer: &mut W)
        ensures room { self.new ≡ room_after_settle self.old }
        // The steps that were taken were seen, and no others, in their order.
        ensures seen { AreSeen W.sees observer.old (steps_of_settling self.old) observer.new }
        // In its fields it is one call of the replay.
        ensures fields { (fields : Fields) → AreFieldsOf self.old fields → AreFieldsOf self.new (fields_after_settle self.old.spec fields) }
    {
        let _ = &self.spec; // for the proof: what the type of a room says
        self.finish_turns(observer);
        self.run_each(observer);
    }

    fn finish_turns<W: Observer>(&mut self, observer: &mut W)
        ensures { IsObserved W.sees (each_in_order traced_kind (turn_ended traced_kind)) self.old observer.old self.new observer.new }
    {
        for i in 0..self.spec.m() {
            self.finish_turn(i, observer);
        }
    }

    fn run_each<W: Observer>(&mut self, observer: &mut W)
        ensures { IsObserved W.sees (each_in_order traced_kind (ran_alone traced_kind)) self.old observer.old self.new observer.new }
    {
        for i in 0..self.spec.m() {
            self.run_alone(i, observer);
        }
    }

    /// Lets simulator `i` end its open turn, if it has one and hasn't crashed.
    fn finish_turn<W: Observer>(&mut self, i: usize, observer: &mut W)
        requires { i < self.old.spec.simulators }
        ensures { IsObserved W.sees (λ traced. turn_ended traced_kind traced i) self.old observer.old self.new observer.new }
    {
        if self.crashed[i] {
            return;
        }
        while !self.mind(i).resting() {
            observer.step(self, i);
        }
    }

    /// Lets simulator `i` run until it is idle or out of turns, if it hasn't crashed.
    fn run_alone<W: Observer>(&mut self, i: usize, observer: &mut W)
        requires { i < self.old.spec.simulators }
        ensures { IsObserved W.sees (λ traced. ran_alone traced_kind traced i) self.old observer.old self.new observer.new }
    {
        if self.crashed[i] {
            return;
        }
        self.wake(i); // Others may have come further since it asked.
        while observer.step(self, i) == StepReply::Stepped {}
    }
}
