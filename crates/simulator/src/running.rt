//! The lines of a turn: the operation of each done by a memory, and taken in.
ghost use Rattle.std.specs.Prelude.{ℕ, Some, ◌≡◌, ◌≢◌, ◌⊎◌, ◌+◌, ◌*◌, ◌<◌, ◌≤◌, true, false};
ghost use Rattle.room_spec.specs.Rooms.{processes};
ghost use Rattle.simulator.specs.declared.line.Line.TheVariants.{Rest, Values};
ghost use Rattle.simulator.specs.declared.turn.Turn.TheVariants.{Still};
ghost use Rattle.simulator.specs.Minds.{goal_at, next_process};
ghost use Rattle.simulator.specs.Moves.{IsOperation, move_at, move_of, taken, taken_at};
ghost use Rattle.simulator.specs.Ranges.{IsMind, at_line, turn_limit};
ghost use Rattle.simulator.specs.Runs.{Continues, Runs, Wants};
ghost use Rattle.simulator.specs.Turns.{begun, counted};

use crate::goal::Goal;
use crate::line::Line;
use crate::memory::{Memory, OneAnswer, Room};
use crate::mind::Mind;
use crate::next::first_move_at;
use crate::rows::Run;
use crate::turn::Turn;
use crate::words::chosen_in;
use room_spec::Spec;
use safe_agreement::has_level;

/// What an atomic step was answered, what has become of the turn, and the line that comes then.
#[derive(Clone, Copy)]
struct Taken {
    answer: u64,
    turn: Turn,
    line: Line,
}

impl Mind {
    /// Takes up to `most` atomic steps, each done by the memory, until a turn ends. Answers how many it
    /// took, and what has become of the turn.
    #[inline(always)]
    #[tactic(auto, using(crate::proofs::Onward::runs_nothing))]
    pub fn run_with<C, M: Memory<C>>(
        &mut self,
        spec: &Spec,
        most: u64,
        context: &C,
        memory: &mut M,
    ) -> (u64, Turn)
        requires is_mind { IsMind spec.now self.old }
        requires operation { IsOperation (move_of spec.now self.old) }
        requires serves { M.serves memory.old context.now spec.now self.old }
        // Each step was the operation that the mind wanted then, whose answer the mind took in, and no
        // turn ended before the last step.
        ensures runs { Runs M.does spec.now memory.old self.old result.0 memory.new self.new result.1 }
        ensures most { result.0 ≤ most }
        ensures some { 0 < most → 0 < result.0 }
        // It stops before `most` steps only at the end of a turn.
        ensures ended { (result.0 ≡ most) ⊎ (result.1 ≢ Still) }
        ensures is_mind { IsMind spec.now self.new }
        ensures serves { M.serves memory.new context.now spec.now self.new }
        ensures goes_on { result.1 ≡ Still → IsOperation (move_of spec.now self.new) }
    {
        let room = Room { spec, context };
        let mut run = Run {
            count: 0,
            turn: Turn::Still,
            line: self.current_line(), // The mind's own is an earlier one until the end.
        };
        loop {
            self.in_a_row(&room, most, &mut run, memory);
            if !run.goes_on(most) {
                break;
            }
            self.step(&room, &mut run, memory);
        }
        self.stand_at(run.line);
        (run.count, run.turn)
    }

    /// Takes one step more.
    #[inline(always)]
    pub(crate) fn step<C, M: Memory<C>>(
        &mut self,
        room: &Room<'_, C>,
        run: &mut Run,
        memory: &mut M,
    )
        requires wants { Wants M.serves room.now.context.now room.now.spec.now memory.old (at_line run.old.line self.old) run.old.turn }
        requires still { run.old.turn ≡ Still }
        requires left { run.old.count < u64.MAX }
        ensures wants { Wants M.serves room.now.context.now room.now.spec.now memory.new (at_line run.new.line self.new) run.new.turn }
        ensures continues { Continues M.does room.now.spec.now run.old.count memory.old (at_line run.old.line self.old) run.old.turn run.new.count memory.new (at_line run.new.line self.new) run.new.turn }
        ensures count { run.new.count ≡ run.old.count + 1 }
    {
        let taken = self.take_step(room, run.line, memory);
        run.count += 1;
        run.turn = taken.turn;
        run.line = taken.line;
    }

    /// Takes in what the atomic step answered, and says what has become of the turn. The answer
    /// counts after a `Load` alone, and any answer will do: a step number above the room's rounds
    /// reads as their number, and a value above 4294967295 as that.
    pub fn take(&mut self, spec: &Spec, answer: u64) -> Turn
        requires is_mind { IsMind spec.now self.old }
        requires operation { IsOperation (move_of spec.now self.old) }
        ensures mind { self.new ≡ (taken spec.now self.old answer).mind }
        ensures turn { result ≡ (taken spec.now self.old answer).turn }
        ensures is_mind { IsMind spec.now self.new }
        // A turn takes fewer atomic steps than its limit: n + 10 if the memory is one word, and for c words n + 7 + 2 * c and c for
        // each of m * n * rounds + 2 collects.
        ensures bound { self.new.turn_steps < turn_limit spec.now }
        // A scan makes no more collects than the room has writes, and two.
        ensures collects { self.new.collects ≤ spec.now.simulators * processes spec.now * spec.now.rounds + 2 }
        ensures ended { result ≢ Still → self.new.turn_steps ≡ 0 }
    {
        let line = self.current_line();
        let room = Room { spec, context: &() };
        let taken = self.take_step(&room, line, &mut OneAnswer { answer });
        self.stand_at(taken.line);
        taken.turn
    }

    #[inline(always)]
    pub(crate) fn current_line(&self) -> Line
        ensures { result ≡ self.now.line }
    {
        self.line
    }

    #[inline(always)]
    fn stand_at(&mut self, line: Line)
        ensures { self.new ≡ at_line line self.old }
    {
        self.line = line;
    }

    /// Takes the atomic step of this line, which is known in addition to the mind: what the mind has for its line
    /// makes no difference, and may be an earlier one afterwards.
    #[inline(always)]
    fn take_step<C, M: Memory<C>>(
        &mut self,
        room: &Room<'_, C>,
        line: Line,
        memory: &mut M,
    ) -> Taken
        requires is_mind { IsMind room.now.spec.now (at_line line self.old) }
        requires operation { IsOperation (move_at line room.now.spec.now self.old) }
        requires serves { M.serves memory.old room.now.context.now room.now.spec.now (at_line line self.old) }
        ensures does { M.does memory.old (move_at line room.now.spec.now self.old) result.answer memory.new }
        ensures mind { at_line result.line self.new ≡ (taken_at line room.now.spec.now (counted self.old) result.answer).mind }
        ensures turn { result.turn ≡ (taken_at line room.now.spec.now (counted self.old) result.answer).turn }
    {
        match line {
            Line::Rest => self.begin(room, memory),
            Line::Raise => {
                let answer = self.asked_of(room, line, memory);
                goes_on(answer, Line::Snap)
            }
            Line::Snap => {
                let answer = self.asked_of(room, line, memory);
                let turn = self.snap(room.spec, answer);
                self.stands(answer, turn)
            }
            Line::Show => {
                let answer = self.asked_of(room, line, memory);
                let turn = self.show(room.spec);
                self.stands(answer, turn)
            }
            Line::Enter => {
                let answer = self.asked_of(room, line, memory);
                goes_on(answer, Line::Look)
            }
            Line::Look => {
                let answer = self.asked_of(room, line, memory);
                let saw_two = has_level(answer, room.spec.m(), 2);
                goes_on(answer, Line::Leave { saw_two })
            }
            Line::Leave { .. } => {
                let answer = self.asked_of(room, line, memory);
                goes_on(answer, Line::Ask)
            }
            Line::Ask => {
                let answer = self.asked_of(room, line, memory);
                let turn = self.ask(chosen_in(room.spec, answer));
                self.stands(answer, turn)
            }
            Line::GetInput { .. } => {
                let answer = self.asked_of(room, line, memory);
                let turn = self.get_input(room.spec, answer);
                self.stands(answer, turn)
            }
            Line::GetView { chosen } => {
                let answer = self.asked_of(room, line, memory);
                let turn = self.get_view(room.spec, chosen, answer);
                self.stands(answer, turn)
            }
            Line::Values => {
                let answer = self.asked_of(room, line, memory);
                let last = self.snapshot.last_writes(room.spec);
                let turn = self.get_value(room.spec, &last, answer);
                self.stands(answer, turn)
            }
            Line::Out { decision } => {
                let answer = self.asked_of(room, line, memory);
                let turn = self.decide(decision);
                self.stands(answer, turn)
            }
        }
    }

    /// Begins the next turn, with its first step: one search finds the process for both.
    #[inline(always)]
    fn begin<C, M: Memory<C>>(&mut self, room: &Room<'_, C>, memory: &mut M) -> Taken
        requires is_mind { IsMind room.now.spec.now (at_line Rest self.old) }
        requires operation { IsOperation (move_at Rest room.now.spec.now self.old) }
        requires serves { M.serves memory.old room.now.context.now room.now.spec.now (at_line Rest self.old) }
        ensures does { M.does memory.old (move_at Rest room.now.spec.now self.old) result.answer memory.new }
        ensures mind { at_line result.line self.new ≡ (taken_at Rest room.now.spec.now (counted self.old) result.answer).mind }
        ensures turn { result.turn ≡ (taken_at Rest room.now.spec.now (counted self.old) result.answer).turn }
    {
        let Some(process) = self.next_process() else {
            return goes_on(0, Line::Rest);
        };
        match self.goal(process) {
            Goal::Write { round, value } => {
                let goal = Goal::Write { round, value };
                let answer = self.first_of(room, process, goal, memory);
                goes_on(answer, Line::Raise)
            }
            Goal::Ask { round } => {
                let goal = Goal::Ask { round };
                let answer = self.first_of(room, process, goal, memory);
                let turn = self.ask_view(chosen_in(room.spec, answer));
                self.stands(answer, turn)
            }
            Goal::Propose { value } => {
                let goal = Goal::Propose { value };
                let answer = self.first_of(room, process, goal, memory);
                goes_on(answer, Line::Enter)
            }
            Goal::AskInput => {
                let answer = self.first_of(room, process, Goal::AskInput, memory);
                let turn = self.ask_input(chosen_in(room.spec, answer));
                self.stands(answer, turn)
            }
            Goal::Done | Goal::Spent => goes_on(0, Line::Rest),
        }
    }

    /// Takes the first step of a turn on this process, for which this is left to do.
    #[inline(always)]
    fn first_of<C, M: Memory<C>>(
        &mut self,
        room: &Room<'_, C>,
        process: usize,
        goal: Goal,
        memory: &mut M,
    ) -> u64
        requires is_mind { IsMind room.now.spec.now (at_line Rest self.old) }
        requires operation { IsOperation (move_at Rest room.now.spec.now self.old) }
        requires serves { M.serves memory.old room.now.context.now room.now.spec.now (at_line Rest self.old) }
        requires process { next_process self.old.goals self.old.process ≡ Some process }
        requires goal { goal_at self.old.goals process ≡ goal }
        ensures does { M.does memory.old (move_at Rest room.now.spec.now self.old) result memory.new }
        ensures mind { self.new ≡ begun process (counted self.old) }
    {
        let first = first_move_at(room.spec, self.number(), process, goal);
        self.count_step();
        self.begin_on(process);
        memory.operate(room.context, first)
    }

    /// Lets the memory do the operation of this line, counts it, and answers it.
    #[inline(always)]
    fn asked_of<C, M: Memory<C>>(&mut self, room: &Room<'_, C>, line: Line, memory: &mut M) -> u64
        requires is_mind { IsMind room.now.spec.now (at_line line self.old) }
        requires operation { IsOperation (move_at line room.now.spec.now self.old) }
        requires serves { M.serves memory.old room.now.context.now room.now.spec.now (at_line line self.old) }
        ensures does { M.does memory.old (move_at line room.now.spec.now self.old) result memory.new }
        ensures mind { self.new ≡ counted self.old }
    {
        let next = self.move_at(room.spec, line);
        self.count_step();
        memory.operate(room.context, next)
    }

    /// At the line that the mind has itself.
    #[inline(always)]
    fn stands(&self, answer: u64, turn: Turn) -> Taken
        ensures { (result.answer ≡ answer) × (result.turn ≡ turn) × (at_line result.line self.now ≡ self.now) }
    {
        Taken {
            answer,
            turn,
            line: self.line,
        }
    }
}

/// The turn goes on at this line.
#[inline(always)]
fn goes_on(answer: u64, line: Line) -> Taken
    ensures { (result.answer ≡ answer) × (result.turn ≡ Still) × (result.line ≡ line) }
{
    Taken {
        answer,
        turn: Turn::Still,
        line,
    }
}
