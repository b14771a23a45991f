//! The lines of a turn: the operation of each.
ghost use Rattle.std.specs.Prelude.{◌≡◌, ◌+◌, ◌<◌, ◌≤◌, true, length, slice_index};
ghost use Rattle.room_spec.specs.Rooms.{processes};
ghost use Rattle.room_spec.specs.Shapes.{sizes_of};
ghost use Rattle.room_spec.specs.Sizes.{sizes_in};
ghost use Rattle.view_table.specs.Places.{words_of};
ghost use Rattle.view_table.specs.declared.place.Place.TheVariants as places;
ghost use Rattle.simulator.specs.declared.operation.Move.TheVariants as moves;
ghost use Rattle.simulator.specs.Minds.{current_goal, current_round, is_unfinished, next_process};
ghost use Rattle.simulator.specs.Moves.{first_move, first_move_at, index_in, levels_index, move_at, entry_in, value_index, view_index};
ghost use Rattle.simulator.specs.Notes.{AreLastWrites};
ghost use Rattle.simulator.specs.Parts.{IsPartOf};
ghost use Rattle.simulator.specs.Ranges.{IsGoal, IsMind, IsMindSomewhere, at_line};
ghost use Rattle.simulator.specs.Turns.{words_in};

use crate::goal::{Goal, next_process};
use crate::line::Line;
use crate::mind::Mind;
use crate::operation::Move;
use crate::part::{Part, enter_at, leave_at};
use crate::words::index_in;
use room_spec::{Shape, Spec};
use sim_memory::LastWrites;
use view_table::{Place, later_levels, later_value};

impl Mind {
    /// The atomic step at this line.
    #[inline(always)]
    pub(crate) fn move_at(&self, spec: &Spec, line: Line) -> Move
        requires { IsMind spec.now (at_line line self.now) }
        ensures { result ≡ move_at line spec.now self.now }
    {
        match line {
            Line::Rest => self.first_move(spec),
            Line::Raise => self.part(spec).raise(),
            Line::Snap => self.part(spec).snap(self.word()),
            Line::Show => self.show_move(spec),
            Line::Enter => enter_at(self.levels(spec), self.number()),
            Line::Look | Line::Ask => Move::Load(self.levels(spec)),
            Line::Leave { saw_two } => leave_at(self.levels(spec), self.number(), saw_two),
            Line::GetInput { chosen } => self.input_move(spec, chosen),
            Line::GetView { chosen } => self.view_move(spec, chosen),
            Line::Values => self.value_move(spec),
            Line::Out { decision } => self.out_move(spec, decision),
        }
    }

    /// The first step of the next turn.
    fn first_move(&self, spec: &Spec) -> Move
        requires { IsMindSomewhere spec.now self.now }
        ensures { result ≡ first_move (next_process self.now.goals self.now.process) spec.now self.now }
    {
        let Some(process) = next_process(self.goals.as_slice(), self.process()) else {
            return Move::Finished;
        };
        if !self.has_turn_left(spec) {
            return Move::OutOfTurns;
        }
        first_move_at(spec, self.number(), process, self.goals[process])
    }

    fn show_move(&self, spec: &Spec) -> Move
        requires is_mind { IsMindSomewhere spec.now self.now }
        requires open { is_unfinished (current_goal self.now) ≡ true }
        requires round { 1 ≤ current_round self.now }
        requires word { self.now.word < words_in spec.now }
        ensures { result ≡ moves.Store (view_index spec.now self.now.number self.now) (slice_index self.now.snapshot self.now.word) }
    {
        let word = self.word();
        self.part(spec).show(word, self.snapshot.word(word))
    }

    /// Loads the input that the chosen simulator proposes. Only a reduction has this line: it is out of line, as the other lines of turns on
    /// inputs are, so that those of an ordinary room cost as much as if there were no others.
    #[cold]
    #[inline(never)]
    fn input_move(&self, spec: &Spec, chosen: u16) -> Move
        requires is_mind { IsMindSomewhere spec.now self.now }
        requires open { is_unfinished (current_goal self.now) ≡ true }
        requires round { current_round self.now ≡ 0 }
        requires simulator { chosen < spec.now.simulators }
        ensures { result ≡ moves.Load (index_in spec.now (places.Value chosen self.now.process 0)) }
    {
        let value = Place::Value {
            simulator: usize::from(chosen),
            process: self.process(),
            round: 0,
        };
        Move::Load(index_in(spec, value))
    }

    fn view_move(&self, spec: &Spec, chosen: u16) -> Move
        requires is_mind { IsMindSomewhere spec.now self.now }
        requires open { is_unfinished (current_goal self.now) ≡ true }
        requires round { 1 ≤ current_round self.now }
        requires simulator { chosen < spec.now.simulators }
        requires word { self.now.word < words_in spec.now }
        ensures { result ≡ moves.Load (view_index spec.now chosen self.now) }
    {
        self.part(spec).get_view(usize::from(chosen), self.word())
    }

    fn value_move(&self, spec: &Spec) -> Move
        requires is_mind { IsMindSomewhere spec.now self.now }
        requires left { length self.now.entries < processes spec.now }
        requires shown { 1 ≤ entry_in spec.now self.now.snapshot (length self.now.entries) }
        ensures { result ≡ moves.Load (value_index spec.now self.now (length self.now.entries)) }
    {
        let process = self.entries.len();
        let (simulator, round) = self.snapshot.last_write(spec, process);
        Move::Load(later_value(&spec.shape(), simulator, process, round))
    }

    /// The same by the room's numbers and the last writes that the snapshot shows, which are the same for all values.
    #[inline(always)]
    pub(crate) fn value_move_by(&self, spec: &Spec, shape: &Shape, last: &LastWrites) -> Move
        requires left { length self.now.entries < processes spec.now }
        requires shown { 1 ≤ entry_in spec.now self.now.snapshot (length self.now.entries) }
        requires shape { sizes_of shape.now ≡ sizes_in spec.now }
        requires last { AreLastWrites spec.now self.now.snapshot last.now.holders last.now.rounds }
        ensures { result ≡ moves.Load (value_index spec.now self.now (length self.now.entries)) }
    {
        let process = self.entries.len();
        let simulator = usize::from(last.holders[process]);
        let round = usize::from(last.rounds[process]);
        Move::Load(later_value(shape, simulator, process, round))
    }

    #[inline(always)]
    pub(crate) fn out_move(&self, spec: &Spec, decision: u32) -> Move
        requires { IsMindSomewhere spec.now self.now }
        ensures { result ≡ moves.Store (index_in spec.now (places.Out self.now.number self.now.process)) (decision + 1) }
    {
        let out = Place::Out {
            simulator: self.number(),
            process: self.process(),
        };
        Move::Store(index_in(spec, out), u64::from(decision) + 1)
    }

    /// The index of the levels of the agreement that its turn works on, be it on a snapshot or on an input.
    #[inline(always)]
    fn levels(&self, spec: &Spec) -> usize
        requires is_mind { IsMindSomewhere spec.now self.now }
        requires open { is_unfinished (current_goal self.now) ≡ true }
        ensures { result ≡ levels_index spec.now self.now }
    {
        let process = self.process();
        match self.goals[process] {
            Goal::Write { round, .. } | Goal::Ask { round } => {
                later_levels(&spec.shape(), process, usize::from(round))
            }
            _ => input_levels(spec, process),
        }
    }

    /// Its part in the agreement that its turn works on, which is on a snapshot.
    #[inline(always)]
    pub(crate) fn part(&self, spec: &Spec) -> Part
        requires is_mind { IsMindSomewhere spec.now self.now }
        requires open { is_unfinished (current_goal self.now) ≡ true }
        requires round { 1 ≤ current_round self.now }
        ensures { IsPartOf spec.now self.now result }
    {
        Part {
            shape: spec.shape(),
            simulator: self.number(),
            process: self.process(),
            round: usize::from(self.round()),
        }
    }

    /// The round of the process that its turn works on.
    pub(crate) fn round(&self) -> u8
        requires { self.now.process < length self.now.goals }
        ensures { result ≡ current_round self.now }
    {
        self.goals[self.process()].round()
    }
}

#[inline(always)]
pub(crate) fn first_move_at(spec: &Spec, simulator: usize, process: usize, goal: Goal) -> Move
    requires simulator { simulator < spec.now.simulators }
    requires process { process < processes spec.now }
    requires round { IsGoal (sizes_in spec.now) goal }
    ensures { result ≡ first_move_at goal spec.now simulator process }
{
    match goal {
        Goal::Write { round, value } => {
            let part = Part {
                shape: spec.shape(),
                simulator,
                process,
                round: usize::from(round),
            };
            part.write(value)
        }
        Goal::Ask { round } => {
            let part = Part {
                shape: spec.shape(),
                simulator,
                process,
                round: usize::from(round),
            };
            part.look()
        }
        Goal::Propose { value } => propose(spec, simulator, process, value),
        Goal::AskInput => ask_input(spec, process),
        Goal::Done | Goal::Spent => Move::Finished,
    }
}

/// Stores its own input as its proposal for the process.
#[cold]
#[inline(never)]
fn propose(spec: &Spec, simulator: usize, process: usize, value: u32) -> Move
    requires simulator { simulator < spec.now.simulators }
    requires process { process < processes spec.now }
    requires reduction { (sizes_in spec.now).reduction ≡ true }
    ensures { result ≡ moves.Store (index_in spec.now (places.Value simulator process 0)) value }
{
    let place = Place::Value {
        simulator,
        process,
        round: 0,
    };
    Move::Store(index_in(spec, place), u64::from(value))
}

/// Loads the levels of the agreement on the process's input.
#[cold]
#[inline(never)]
fn ask_input(spec: &Spec, process: usize) -> Move
    requires process { process < processes spec.now }
    requires reduction { (sizes_in spec.now).reduction ≡ true }
    ensures { result ≡ moves.Load (index_in spec.now (places.Levels process 0)) }
{
    Move::Load(input_levels(spec, process))
}

/// The index of the levels of the agreement on the process's input.
#[cold]
#[inline(never)]
fn input_levels(spec: &Spec, process: usize) -> usize
    requires process { process < processes spec.now }
    requires reduction { (sizes_in spec.now).reduction ≡ true }
    ensures { result ≡ index_in spec.now (places.Levels process 0) }
{
    index_in(spec, Place::Levels { process, round: 0 })
}
