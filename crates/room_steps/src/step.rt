//! One atomic step, seen.
ghost use Rattle.std.specs.Prelude.{◌≡◌, ◌≢◌, ◌<◌, ◌^◌, None, MatchOption, IfSome, slice_index};
ghost use Rattle.room_spec.specs.Sizes.{sizes_in};
ghost use Rattle.simulator.specs.Moves.{IsOperation};
ghost use Rattle.simulator.specs.Ranges.{IsMind};
ghost use Rattle.view_table.specs.Places.{IsPlace, index_of};
ghost use Rattle.room_core.specs.Calls.{room_after_step, step_reply};
ghost use Rattle.room_core.specs.declared.reply.StepReply.TheVariants.{Stepped};
ghost use Rattle.room_steps.specs.Steps.{IsNextStep, IsStepOf, end_in, index_of_move, mind_in, new_decision, turn_number};

use room_core::{RoomCore, StepReply};
use simulator::{Goal, Line, Mind, Move};
use view_table::{Place, index, place_at};

/// An atomic step of one simulator, and what there was to see before and after it.
#[derive(Clone, Copy)]
pub struct AtomicStep {
    /// Which simulator took it.
    pub simulator: usize,
    /// To which of the simulator's turns it belongs, counted from 1.
    pub turn: u64,
    /// The process that the turn works on.
    pub process: usize,
    /// The round of the write or of the snapshot that the turn works on, counted from 1; 0 if it works on the process's input, as in a reduction.
    pub round: u8,
    /// The line of the turn; [`Line::Rest`] for its first step.
    pub line: Line,
    /// The operation that the simulator's mind wanted.
    pub operation: Move,
    /// The word that it was done on.
    pub place: Place,
    /// What the word was before: the answer of a load.
    pub word: u64,
    /// What the word is after it.
    pub after: u64,
    /// If the step ended the turn, what is left to do for the process.
    pub end: Option<Goal>,
    /// What the simulator decided by it, if it stored its first decision of a process.
    pub decision: Option<u32>,
}

/// Lets simulator `i` of a room take one atomic step, if it has one to take, as [`RoomCore::step`] does. Gives the
/// answer, and the step that it took, if it took one.
#[tactic(auto, using(crate::proofs::Words::place_after))]
pub fn take_step(room: &mut RoomCore, i: usize) -> (StepReply, Option<AtomicStep>)
    ensures reply { result.0 ≡ step_reply room.old i }
    ensures room { room.new ≡ room_after_step room.old i }
    ensures step { MatchOption result.1 (step_reply room.old i ≢ Stepped) (λ step. (step_reply room.old i ≡ Stepped) × IsStepOf room.old i step) }
{
    let next = next_step(room, i);
    let before = room.decision(i);
    let reply = room.step(i);
    if reply != StepReply::Stepped {
        return (reply, None);
    }
    let Some(step) = next else {
        unreachable!() // it had a step to take
    };
    let end = end_of(room.mind(i), step.process);
    let after = word_at(room, step.place);
    let decision = new_decision(before, room.decision(i));
    let taken = AtomicStep {
        after,
        end,
        decision,
        ..step
    };
    (reply, Some(taken))
}

/// The step that a simulator takes if it takes one. `None` if it has none to take.
#[tactic(auto, using(crate::proofs::Ready::stepped_moves, crate::proofs::Ready::moves_works))]
fn next_step(room: &RoomCore, i: usize) -> Option<AtomicStep>
    ensures step { IfSome result (IsNextStep room.now i) }
    ensures some { step_reply room.now i ≡ Stepped → result ≢ None }
{
    if i >= room.spec().m() {
        return None;
    }
    let mind = mind_of(room, i);
    let operation = mind.next_move(room.spec());
    let index = index_of(operation)?;
    let process = mind.works_on(room.spec())?;
    Some(AtomicStep {
        simulator: i,
        turn: turn_number(mind),
        process,
        round: mind.goal(process).round(),
        line: mind.line(),
        operation,
        place: place_at(&room.spec().shape(), index),
        word: room.word(index),
        after: 0,
        end: None,
        decision: None,
    })
}

/// The decision after a step, if there was none before it.
fn new_decision(before: Option<u32>, after: Option<u32>) -> Option<u32>
    ensures { result ≡ new_decision before after }
{
    match before {
        None => after,
        Some(_) => None,
    }
}

/// What the word at a place of the room is.
fn word_at(room: &RoomCore, place: Place) -> u64
    requires { IsPlace (sizes_in room.now.spec) place }
    ensures { result ≡ slice_index room.now.words (index_of (sizes_in room.now.spec) place) }
{
    room.word(index(&room.spec().shape(), place))
}

/// What a simulator of the room has in mind.
#[tactic(auto, using(crate::proofs::Ready::mind_is))]
fn mind_of(room: &RoomCore, i: usize) -> &Mind
    requires { i < room.now.spec.simulators }
    ensures value { result.now ≡ mind_in room.now i }
    ensures is_mind { IsMind room.now.spec result.now }
{
    room.mind(i)
}

/// The index of the word that an operation is on.
fn index_of(operation: Move) -> Option<usize>
    ensures { MatchOption result (¬ IsOperation operation) (λ index. (index ≡ index_of_move operation) × IsOperation operation) }
{
    match operation {
        Move::Load(index) | Move::Store(index, _) | Move::Add(index, _) | Move::Sub(index, _) => {
            Some(index)
        }
        Move::Finished | Move::OutOfTurns => None,
    }
}

/// The number of the turn that a mind's next step belongs to.
fn turn_number(mind: &Mind) -> u64
    requires { mind.now.turns < 2 ^ 16 }
    ensures { result ≡ turn_number mind.now }
{
    if mind.resting() {
        mind.turns_taken() + 1
    } else {
        mind.turns_taken()
    }
}

/// What is left to do for a process, if no turn is open.
fn end_of(mind: &Mind, process: usize) -> Option<Goal>
    ensures { result ≡ end_in mind.now process }
{
    if mind.resting() {
        Some(mind.goal(process))
    } else {
        None
    }
}
