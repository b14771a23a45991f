//! The steps of a simulator from its local states.
ghost use Rattle.std.specs.Prelude.{◌≡◌, ◌<◌, ◌≤◌, true, IfOk, IfSome, MatchBool, length};
ghost use Rattle.room_spec.specs.Rooms.{RoomSpec, is_reduction, processes};
ghost use Rattle.simulator.specs.Moves.{IsOperation};
ghost use Rattle.simulator.specs.Ranges.{IsMind};
ghost use Rattle.room_search.specs.Steps.{AreSaid, AreWords, IsLocal, IsNext, SaysNoMore, local_of};

use crate::local::Local;
use crate::shown::Said;
use crate::subject::Subject;
use simulator::{Knowledge, Line, Mind, Move};
use std::alloc::{AllocError, Global};
use view_table::{Place, index};

/// What comes of a step: what the simulator knows then, and what is said of the words.
#[derive(Drop)]
pub struct Stepped {
    pub known: Knowledge,
    pub said: Said,
}

/// The local state after a step.
pub fn local_of(stepped: Stepped) -> Local
    ensures { result ≡ local_of stepped }
{
    Local {
        known: stepped.known,
        own: stepped.said.own,
    }
}

/// The next step of a simulator.
#[derive(Drop)]
pub enum Next {
    /// It has none: all its processes are done or spent.
    Nothing,
    /// It works on a word of which nothing is said. There is no such step in a room.
    Lost,
    To(Stepped),
}

/// What comes of the next step of simulator `i` from a local state, in a node that says this.
///
/// # Errors
///
/// An allocation that fails.
pub fn after_step(
    subject: &Subject<'_>,
    said: &[u64],
    i: usize,
    local: &Local,
) -> Result<Next, AllocError>
    requires said { AreWords subject.now.spec.now said.now }
    requires simulator { i < subject.now.spec.now.simulators }
    requires local { IsLocal subject.now.spec.now local.now }
    ensures { IfOk result (IsNext subject.now.spec.now said.now i local.now) }
{
    let mut mind = Mind::knowing(&local.known);
    let next = mind.next_move(subject.spec);
    if !is_operation(next) {
        return Ok(Next::Nothing);
    }
    let mut said = both(subject.alloc, said, &local.own)?;
    let Some(answer) = said.operate(subject, i, next) else {
        return Ok(Next::Lost);
    };
    pass_on(subject, i, &mind, &mut said);
    mind.take(subject.spec, answer);
    Ok(Next::To(Stepped {
        known: mind.knowledge(),
        said,
    }))
}

fn is_operation(next: Move) -> bool
    ensures { MatchBool result (IsOperation next) (IsOperation next → ⊥) }
{
    !matches!(next, Move::Finished | Move::OutOfTurns)
}

/// What is said by a node and by a local state.
fn both(alloc: Global, shown: &[u64], own: &[u64]) -> Result<Said, AllocError>
    ensures shown { IfOk result (λ said. said.shown.items ≡ shown.now) }
    ensures own { IfOk result (λ said. said.own.items ≡ own.now) }
{
    Ok(Said {
        shown: copied(alloc, shown)?,
        own: copied(alloc, own)?,
    })
}

/// Words that others can read after this step of simulator `i`, and could not before, are said by the node from now on; and nothing is said any more of a proposal that is withdrawn.
fn pass_on(subject: &Subject<'_>, i: usize, mind: &Mind, said: &mut Said)
    requires mind { IsMind subject.now.spec.now mind.now }
    requires simulator { i < subject.now.spec.now.simulators }
    requires said { AreSaid subject.now.spec.now said.old }
    ensures { SaysNoMore subject.now.spec.now said.old said.new }
{
    let Some((process, round)) = turn_of(subject, mind) else {
        return pass_on_input(subject, i, mind, said);
    };
    let work = Work {
        simulator: i,
        process,
        round,
    };
    match mind.line() {
        Line::Raise => pass_value(subject, work, said),
        Line::Leave { saw_two } => pass_view(subject, work, saw_two, said),
        _ => {}
    }
}

/// The same in the agreements of a reduction on inputs. A proposal that is withdrawn stays the simulator's: it is its own input, whatever the schedule.
fn pass_on_input(subject: &Subject<'_>, i: usize, mind: &Mind, said: &mut Said)
    requires mind { IsMind subject.now.spec.now mind.now }
    requires simulator { i < subject.now.spec.now.simulators }
    requires said { AreSaid subject.now.spec.now said.old }
    ensures { SaysNoMore subject.now.spec.now said.old said.new }
{
    let Some(process) = mind.works_on(subject.spec) else {
        return;
    };
    if !subject.spec.is_reduction() || process >= subject.spec.n() {
        return;
    }
    if let Line::Leave { saw_two: false } = mind.line() {
        pass_input(subject, i, process, said);
    }
}

/// The process and the round, from 1 on, on which the simulator's next step works.
fn turn_of(subject: &Subject<'_>, mind: &Mind) -> Option<(usize, usize)>
    requires { IsMind subject.now.spec.now mind.now }
    ensures process { IfSome result (λ turn. turn.0 < processes subject.now.spec.now) }
    ensures round { IfSome result (λ turn. (1 ≤ turn.1) × (turn.1 ≤ subject.now.spec.now.rounds)) }
{
    let process = mind.works_on(subject.spec)?;
    let round = usize::from(mind.goal(process).round());
    if process < subject.spec.n() && round >= 1 && round <= subject.spec.rounds() {
        Some((process, round))
    } else {
        None
    }
}

/// A simulator, and the process and the round, from 1 on, on which it works.
#[derive(Clone, Copy)]
struct Work {
    simulator: usize,
    process: usize,
    round: usize,
}

/// The simulator has counted its write of this round: others can read the value.
fn pass_value(subject: &Subject<'_>, work: Work, said: &mut Said)
    requires simulator { work.simulator < subject.now.spec.now.simulators }
    requires process { work.process < processes subject.now.spec.now }
    requires round { (1 ≤ work.round) × (work.round ≤ subject.now.spec.now.rounds) }
    requires said { AreSaid subject.now.spec.now said.old }
    ensures { SaysNoMore subject.now.spec.now said.old said.new }
{
    let value = Place::Value {
        simulator: work.simulator,
        process: work.process,
        round: work.round,
    };
    said.publish(index(&subject.spec.shape(), value));
}

/// The simulator has left the agreement on the process's input with its proposal, which others can read from now on.
#[tactic(auto, using(view_table::proofs::CallerLemmas::zero_agreed))]
fn pass_input(subject: &Subject<'_>, i: usize, process: usize, said: &mut Said)
    requires reduction { is_reduction subject.now.spec.now ≡ true }
    requires simulator { i < subject.now.spec.now.simulators }
    requires process { process < processes subject.now.spec.now }
    requires said { AreSaid subject.now.spec.now said.old }
    ensures { SaysNoMore subject.now.spec.now said.old said.new }
{
    let value = Place::Value {
        simulator: i,
        process,
        round: 0,
    };
    said.publish(index(&subject.spec.shape(), value));
}

/// The simulator has left the agreement: others can read its proposal, or none ever will.
fn pass_view(subject: &Subject<'_>, work: Work, withdrawn: bool, said: &mut Said)
    requires simulator { work.simulator < subject.now.spec.now.simulators }
    requires process { work.process < processes subject.now.spec.now }
    requires round { (1 ≤ work.round) × (work.round ≤ subject.now.spec.now.rounds) }
    requires said { AreSaid subject.now.spec.now said.old }
    ensures { SaysNoMore subject.now.spec.now said.old said.new }
{
    let shape = subject.spec.shape();
    for word in 0..shape.memory_words() {
        let view = Place::View {
            simulator: work.simulator,
            process: work.process,
            round: work.round,
            word,
        };
        pass_word(index(&shape, view), withdrawn, said);
    }
}

/// One word of its proposal.
fn pass_word(index: usize, withdrawn: bool, said: &mut Said)
    requires shown { index < length said.old.shown.items }
    requires own { index < length said.old.own.items }
    ensures { (spec : RoomSpec) → SaysNoMore spec said.old said.new }
{
    if withdrawn {
        said.forget(index);
    } else {
        said.publish(index);
    }
}

/// The same words once more.
pub fn copied(alloc: Global, words: &[u64]) -> Result<Vec<u64>, AllocError>
    ensures { IfOk result (λ copy. copy.items ≡ words.now) }
{
    let mut copy = Vec::with_capacity(alloc, words.len())?;
    copy.extend_from_slice(words)?;
    Ok(copy)
}
