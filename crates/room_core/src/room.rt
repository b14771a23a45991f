//! A room.
ghost use Rattle.std.specs.Prelude.{List, Some, ℕ, ◌≡◌, ◌≢◌, ◌<◌, ◌≤◌, Contains, false, length, map, replicate, slice_index, IfErr, IfOk};
ghost use Rattle.std.specs.List.{range_with_len};
ghost use Rattle.std.specs.Allocator.{alloc_error};
ghost use Rattle.room_spec.specs.Rooms.{processes};
ghost use Rattle.room_spec.specs.Sizes.{sizes_in};
ghost use Rattle.view_table.specs.Places.{words_of};
ghost use Rattle.simulator.specs.Minds.{current_round, goal_at};
ghost use Rattle.simulator.specs.declared.line.Line.TheVariants.{Show};
ghost use Rattle.simulator.specs.Moves.{IsOperation, move_of};
ghost use Rattle.simulator.specs.Quiet.{HasNoWrite};
ghost use Rattle.simulator.specs.Ranges.{IsMind};
ghost use Rattle.simulator.specs.Runs.{Runs};
ghost use Rattle.simulator.specs.Sweeps.{opening_sweep, quiet_after};
ghost use Rattle.simulator.specs.declared.sweep.Ready.TheVariants as answers;
ghost use Rattle.simulator.specs.declared.turn.Turn.{Turn};
ghost use Rattle.room_core.specs.declared.reply.StepReply.TheVariants as replies;
ghost use Rattle.room_core.specs.Rooms.{IsAlive, IsOneInterleaving, IsRoom, IsShaped, mind_at, times};
ghost use Rattle.room_core.specs.Fields.{Fields, IsLegalIn, crash_reply_in, decision_in, fields_after_crash, fields_after_step, fields_after_steps, opening_fields, step_reply_in};
ghost use Rattle.room_core.specs.Agreements.{AgreementsStay, IsDecisionOf, agreed_input};
ghost use Rattle.room_core.specs.Moments.{IsScan};
ghost use Rattle.room_core.specs.Reading.{AreFieldsOf, Reads};
ghost use Rattle.room_core.specs.Calls.{Call, CountsQuietTurns, crash_reply, configuration_of, decision_at, decisions_of, has_crashed, input_of, marked, opening_state, ready_at, room_after_calls, room_after_crash, room_after_step, room_after_steps, step_reply, sweep_at, with_sweep, woken};

use crate::reply::{CrashReply, StepReply};
use crate::room_words::RoomWords;
use arrayvec::ArrayVec;
use room_spec::{MAX_SIMULATORS, Spec};
use simulator::{Memory, Mind, Ready, Sweep};
use std::alloc::{AllocError, Global};
use std::boxed::BoxedSlice;
use std::marker::Model;
use view_table::words;

/// A room: its words, a sweep for each simulator, and which simulators have crashed. Words and sweeps lie
/// in memory of their own, so that a room goes from hand to hand without them.
#[derive(Drop)]
pub struct RoomCore {
    pub(crate) spec: Spec,
    words: RoomWords,
    sweeps: BoxedSlice<Sweep>,
    pub(crate) crashed: ArrayVec<bool, MAX_SIMULATORS>,
}

impl Model for RoomCore {
    ghost use Rattle.std.specs.Coded.{codes};
    ghost use Rattle.std.specs.Box.{boxed_slice_items};
    ghost use Rattle.protocol_lang.specs.Codes.{expression_code};
    ghost use Rattle.room_core.specs.Calls.{IsCore, RoomState};

    ghost Value = { RoomState };

    ghost coded = { Prim.hlevel (codes, expression_code) };

    ghost view = { λ r. record { spec = r.spec; words = r.words; sweeps = boxed_slice_items r.sweeps; crashed = r.crashed.items } };

    // Some list of atomic steps and crashes leads to it, and each quiet count is one of its mind.
    ghost invariant = { λ r. IsCore (record { spec = r.spec; words = r.words; sweeps = boxed_slice_items r.sweeps; crashed = r.crashed.items }) };
}

impl RoomCore {
    /// A room in which no simulator has taken a step.
    ///
    /// # Errors
    ///
    /// If an allocation fails for the words of the room or for its sweeps, which are all that it allocates
    /// memory for. The spec is dropped then.
    pub fn fresh(alloc: Global, spec: Spec) -> Result<RoomCore, AllocError>
        ensures room { IfOk result (λ room. room ≡ opening_state spec) }
        ensures fields { IfOk result (λ room. AreFieldsOf room (opening_fields spec)) }
        ensures refused { IfErr result (λ error. error ≡ alloc_error) }
    {
        let words = vec![in alloc; 0; words(&spec.shape())]?;
        let sweeps = opening_sweeps(alloc, &spec)?;
        Ok(RoomCore::opening(spec, words, sweeps))
    }

    /// The opening room on these words, which are all 0, and sweeps. It takes no memory.
    fn opening(spec: Spec, words: Vec<u64>, sweeps: Vec<Sweep>) -> RoomCore
        requires words { words.items ≡ replicate (words_of (sizes_in spec)) 0 }
        requires sweeps { sweeps.items ≡ map (opening_sweep spec) (range_with_len 0 spec.simulators) }
        ensures room { result ≡ opening_state spec }
        ensures fields { AreFieldsOf result (opening_fields spec) }
    {
        let _shape = spec.shape(); // for the proof: a spec is within its limits
        let crashed = none_crashed(spec.m());
        RoomCore {
            spec,
            words: RoomWords::new(words),
            sweeps: sweeps.into_boxed_slice(),
            crashed,
        }
    }

    /// A room of these words, sweeps and marks of crashes, to which some list of atomic steps and
    /// crashes leads. The quiet count of each sweep is one of its mind.
    pub fn from_parts(
        spec: Spec,
        words: Vec<u64>,
        sweeps: Vec<Sweep>,
        crashed: ArrayVec<bool, MAX_SIMULATORS>,
    ) -> RoomCore
        requires room { IsRoom (configuration_of (record { spec = spec; words = words.items; sweeps = sweeps.items; crashed = crashed.items })) }
        requires quiet { CountsQuietTurns (record { spec = spec; words = words.items; sweeps = sweeps.items; crashed = crashed.items }) }
        ensures { result ≡ record { spec = spec; words = words.items; sweeps = sweeps.items; crashed = crashed.items } }
    {
        RoomCore {
            spec,
            words: RoomWords::new(words),
            sweeps: sweeps.into_boxed_slice(),
            crashed,
        }
    }

    /// What the room was given when it was made.
    pub fn spec(&self) -> &Spec
        ensures value { result.now ≡ self.now.spec }
        // One interleaving of its simulators' atomic steps, and of crashes, leads to this room.
        ensures run { IsOneInterleaving (configuration_of self.now) }
        // In every such list each simulator occurs as often as its mind counts steps.
        ensures counts { (one : IsOneInterleaving (configuration_of self.now)) (i : ℕ) →
            i < self.now.spec.simulators →
            (mind_at (configuration_of self.now) i).steps ≡ times i one.schedule }
        // The fields allow each of its events at its place.
        ensures legal { (one : IsOneInterleaving (configuration_of self.now)) → IsLegalIn self.now.spec (opening_fields self.now.spec) one.schedule }
        // Its words, minds and marks of crashes stand for the fields to which that list leads.
        ensures fields { (fields : Fields) × AreFieldsOf self.now fields × Reads (configuration_of self.now) fields }
    {
        &self.spec
    }

    /// Its words, in the order of their places: as many as [`words`](view_table::words) of its shape.
    pub fn words(&self) -> &[u64]
        ensures value { result.now ≡ self.now.words }
        ensures count { length result.now ≡ words_of (sizes_in self.now.spec) }
    {
        self.words.as_slice()
    }

    /// The word at this index, which is below [`words`](view_table::words) of the room's shape.
    pub fn word(&self, index: usize) -> u64
        requires { index < words_of (sizes_in self.now.spec) }
        ensures { result ≡ slice_index self.now.words index }
    {
        self.words()[index]
    }

    /// What simulator `i` has in mind.
    pub fn mind(&self, i: usize) -> &Mind
        requires { i < self.now.spec.simulators }
        ensures value { result.now ≡ (sweep_at self.now i).mind }
        // Its numbers are within their ranges, and so an open turn has taken fewer steps than its limit.
        ensures is_mind { IsMind self.now.spec (mind_at (configuration_of self.now) i) }
        // The content of its scan, which it stores next, is the step numbers after a prefix of the list that leads to the room; the
        // prefix holds its own last write. A scan of several words ends with two equal collects.
        ensures scan { (fields : Fields) (are : AreFieldsOf self.now fields) →
            (fields.mind i).line ≡ Show →
            IsScan self.now.spec are.run.schedule (length are.run.schedule) i (fields.mind i).process (current_round (fields.mind i))
            (fields.mind i).before (fields.mind i).snapshot (fields.mind i).collects }
    {
        self.sweeps[i].mind()
    }

    /// What simulator `i` has decided: the first decision of a process that it has stored. `None` if it has stored none, or if the room
    /// has no such simulator. A decision is final: it stays whatever the simulator stores later, and if it crashes.
    pub fn decision(&self, i: usize) -> Option<u32>
        ensures value { result ≡ decision_at self.now i }
        // It is the decision of a process that it has stored; without one it has stored none.
        ensures stored { (fields : Fields) → AreFieldsOf self.now fields → i < self.now.spec.simulators → (result ≡ decision_in fields i) × IsDecisionOf self.now.spec fields i result }
        // Whatever is called later, it stays.
        ensures stays { (calls : List Call) (decision : ℕ) → result ≡ Some decision → decision_at (room_after_calls self.now calls) i ≡ Some decision }
    {
        let _ = &self.spec; // for the proof: what the type of a room says
        if i >= self.spec.m() {
            return None;
        }
        self.mind(i).decision()
    }

    /// The input of process `j` that was agreed on, if a simulator has it. `None` before that, if the room has no such process, and in an ordinary
    /// room, which gives each process its input. It is final.
    pub fn input(&self, j: usize) -> Option<u32>
        ensures value { result ≡ input_of self.now j }
        // It was agreed on, and is a simulator's own.
        ensures agreed { (fields : Fields) → AreFieldsOf self.now fields → j < processes self.now.spec → result ≡ agreed_input self.now.spec fields j }
        ensures own { (input : ℕ) → result ≡ Some input → Contains self.now.spec.own input }
        // Whatever is called later, it stays.
        ensures stays { (calls : List Call) (input : ℕ) → result ≡ Some input → input_of (room_after_calls self.now calls) j ≡ Some input }
    {
        let _ = &self.spec; // for the proof: what the type of a room says
        self.first_input(j)
    }

    fn first_input(&self, j: usize) -> Option<u32>
        ensures { result ≡ input_of self.now j }
    {
        for i in 0..self.spec.m() {
            if let Some(input) = self.mind(i).input(j) {
                return Some(input);
            }
        }
        None
    }

    /// What each simulator has decided, by their numbers.
    pub fn decisions(&self) -> ArrayVec<Option<u32>, MAX_SIMULATORS>
        ensures { result.items ≡ decisions_of self.now }
    {
        let mut decisions = ArrayVec::new();
        for i in 0..self.spec.m() {
            decisions.push(self.decision(i));
        }
        decisions
    }

    /// Whether simulator `i` has crashed.
    pub fn is_crashed(&self, i: usize) -> bool
        requires { i < self.now.spec.simulators }
        ensures { result ≡ has_crashed self.now i }
    {
        self.crashed.as_slice()[i]
    }

    /// Lets simulator `i` take one atomic step, if it has one to take. At `Idle` its quiet turns are
    /// counted anew; at the other replies but `Stepped` nothing changes.
    pub fn step(&mut self, i: usize) -> StepReply
        ensures reply { result ≡ step_reply self.old i }
        ensures room { self.new ≡ room_after_step self.old i }
        // An idle simulator has no write left to make: each process is at an ask, or is done or spent.
        ensures waits { result ≡ replies.Idle → (process : ℕ) → HasNoWrite (goal_at (sweep_at self.new i).mind.goals process) }
        // In its fields it is one call of the replay, with its reply.
        ensures fields { (fields : Fields) →
            AreFieldsOf self.old fields →
            (result ≡ step_reply_in self.old.spec fields i) × AreFieldsOf self.new (fields_after_step self.old.spec fields i) }
        // What was agreed on stays.
        ensures agreement { (fields : Fields) → AreFieldsOf self.old fields → AgreementsStay self.old.spec fields (fields_after_step self.old.spec fields i) }
    {
        if i >= self.spec.m() {
            return StepReply::NoSimulator;
        }
        if self.is_crashed(i) {
            return StepReply::Crashed;
        }
        match self.ready(i) {
            Ready::Step => {
                self.run_turn(i, 1);
                StepReply::Stepped
            }
            Ready::Idle => {
                self.wake(i);
                StepReply::Idle
            }
            Ready::OutOfTurns => StepReply::OutOfTurns,
        }
    }

    /// Lets simulator `i` take atomic steps, up to `most` of them, as long as [`step`](RoomCore::step) would
    /// answer `Stepped`. Answers how many it took. Whatever `step` would answer next is left to be asked for: at
    /// `Idle` its quiet turns aren't counted anew.
    pub fn steps(&mut self, i: usize, most: u64) -> u64
        ensures room { self.new ≡ room_after_steps self.old i result }
        ensures taken { (count : ℕ) → count < result → step_reply (room_after_steps self.old i count) i ≡ replies.Stepped }
        ensures most { result ≤ most }
        // It took all that it could.
        ensures stopped { result < most → step_reply self.new i ≢ replies.Stepped }
        // In its fields it is as many calls of the replay, each answered `Stepped`.
        ensures fields { (fields : Fields) → AreFieldsOf self.old fields → AreFieldsOf self.new (fields_after_steps self.old.spec fields i result) }
        ensures replies { (fields : Fields) (count : ℕ) →
            AreFieldsOf self.old fields → count < result →
            step_reply_in self.old.spec (fields_after_steps self.old.spec fields i count) i ≡ replies.Stepped }
        // What was agreed on stays.
        ensures agreement { (fields : Fields) →
            AreFieldsOf self.old fields →
            AgreementsStay self.old.spec fields (fields_after_steps self.old.spec fields i result) }
    {
        if i >= self.spec.m() || self.is_crashed(i) {
            return 0;
        }
        self.run(i, most)
    }

    /// Crashes simulator `i`: from now on it takes no step. No word and no mind changes.
    pub fn crash(&mut self, i: usize) -> CrashReply
        ensures reply { result ≡ crash_reply self.old i }
        ensures room { self.new ≡ room_after_crash self.old i }
        // In its fields it is one call of the replay, with its reply.
        ensures fields { (fields : Fields) →
            AreFieldsOf self.old fields →
            (result ≡ crash_reply_in self.old.spec fields i) × AreFieldsOf self.new (fields_after_crash self.old.spec fields i) }
        // What was agreed on stays.
        ensures agreement { (fields : Fields) → AreFieldsOf self.old fields → AgreementsStay self.old.spec fields (fields_after_crash self.old.spec fields i) }
    {
        if i >= self.spec.m() {
            return CrashReply::NoSimulator;
        }
        if self.is_crashed(i) {
            return CrashReply::AlreadyCrashed;
        }
        self.mark(i);
        CrashReply::Crashed
    }

    fn ready(&self, i: usize) -> Ready
        requires { i < self.now.spec.simulators }
        ensures { result ≡ ready_at self.now i }
    {
        self.sweeps[i].ready(&self.spec)
    }

    /// Lets simulator `i`, which hasn't crashed, take steps until it has taken `most` or isn't ready.
    fn run(&mut self, i: usize, most: u64) -> u64
        requires shape { IsShaped (configuration_of self.old) }
        requires alive { IsAlive (configuration_of self.old) i }
        ensures room { self.new ≡ room_after_steps self.old i result }
        ensures taken { (count : ℕ) → count < result → step_reply (room_after_steps self.old i count) i ≡ replies.Stepped }
        ensures most { result ≤ most }
        ensures stopped { result < most → step_reply self.new i ≢ replies.Stepped }
    {
        let mut taken = 0;
        while taken < most {
            if self.ready(i) != Ready::Step {
                return taken;
            }
            taken += self.run_turn(i, most - taken);
        }
        taken
    }

    /// Lets simulator `i`, which is ready and hasn't crashed, take up to `most` steps, until its turn ends.
    fn run_turn(&mut self, i: usize, most: u64) -> u64
        requires shape { IsShaped (configuration_of self.old) }
        requires alive { IsAlive (configuration_of self.old) i }
        requires ready { ready_at self.old i ≡ answers.Step }
        requires some { 0 < most }
        ensures room { self.new ≡ room_after_steps self.old i result }
        ensures taken { (count : ℕ) → count < result → step_reply (room_after_steps self.old i count) i ≡ replies.Stepped }
        ensures most { result ≤ most }
        ensures some { 0 < result }
        ensures shape { IsShaped (configuration_of self.new) }
        ensures alive { IsAlive (configuration_of self.new) i }
    {
        run_turn(&mut self.sweeps[i], &self.spec, &mut self.words, most)
    }

    fn mark(&mut self, i: usize)
        requires { IsAlive (configuration_of self.old) i }
        ensures { self.new ≡ marked self.old i }
    {
        self.crashed[i] = true;
    }

    pub(crate) fn wake(&mut self, i: usize)
        requires { i < self.old.spec.simulators }
        ensures { self.new ≡ with_sweep self.old i (woken (sweep_at self.old i)) }
    {
        self.sweeps[i].wake();
    }
}

/// Takes up to `most` atomic steps on the words, until the turn ends, and notes what has become of it.
#[inline(always)]
fn run_turn(sweep: &mut Sweep, spec: &Spec, words: &mut RoomWords, most: u64) -> u64
    requires is_mind { IsMind spec.now sweep.old.mind }
    requires operation { IsOperation (move_of spec.now sweep.old.mind) }
    requires words { length words.old ≡ words_of (sizes_in spec.now) }
    ensures runs { (turn : Turn) × (sweep.new.quiet ≡ quiet_after turn sweep.old.quiet) ×
        Runs ⟦<RoomWords as Memory<()>>⟧.does spec.now words.old sweep.old.mind result words.new sweep.new.mind turn }
    ensures most { result ≤ most }
    ensures some { 0 < most → 0 < result }
{
    let (taken, ended) = sweep.mind_mut().run_with(spec, most, &(), words);
    sweep.note(ended);
    taken
}

fn opening_sweeps(alloc: Global, spec: &Spec) -> Result<Vec<Sweep>, AllocError>
    ensures { IfOk result (λ sweeps. sweeps.items ≡ map (opening_sweep spec.now) (range_with_len 0 spec.now.simulators)) }
{
    let mut sweeps = Vec::with_capacity(alloc, spec.m())?;
    for i in 0..spec.m() {
        sweeps.push(Sweep::new(spec, i))?;
    }
    Ok(sweeps)
}

/// The marks of `m` simulators of which none has crashed.
pub fn none_crashed(m: usize) -> ArrayVec<bool, MAX_SIMULATORS>
    requires { m ≤ MAX_SIMULATORS }
    ensures { result.items ≡ replicate m false }
{
    let mut crashed = ArrayVec::new();
    for _ in 0..m {
        crashed.push(false);
    }
    crashed
}
