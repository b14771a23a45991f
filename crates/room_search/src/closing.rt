//! The local states in which simulators may be while what is said of the words stays so.
ghost use Rattle.std.specs.Prelude.{◌≡◌, ◌<◌, ◌⊎◌, ℕ, IfOk, OnOk, length, map};
ghost use Rattle.std.specs.List.{Contains};
ghost use Rattle.room_search.specs.Moving.{AreMoves, GoOn};
ghost use Rattle.room_search.specs.Nodes.{AreIn, AreNumbers, AreSetsAfter, IsNode, set_of};

use crate::moves::{Lead, Moves, Situation};
use crate::node::Node;
use crate::subject::{Subject, has_crashed};
use run_search::SearchFault;
use std::alloc::AllocError;

/// The local states of each simulator after a step of one of them from a node: that one's after the step, each other one's before it, and what
/// comes of those by steps that leave what is said as it is.
///
/// # Errors
///
/// `TooManyNodes` if the table is full; `OutOfMemory` if an allocation fails.
pub fn sets_after(
    subject: &Subject<'_>,
    moves: &mut Moves,
    node: &Node,
    arrival: Situation,
) -> Result<Vec<Vec<u32>>, SearchFault>
    requires moves { AreMoves subject.now.spec.now moves.old }
    requires node { IsNode subject.now.spec.now moves.old.table.keys node.now }
    requires said { arrival.said < length moves.old.said.keys }
    requires number { arrival.number < length moves.old.table.keys }
    ensures moves { OnOk result (GoOn subject.now.spec.now moves.old moves.new) }
    ensures sets { IfOk result (λ sets.
        AreSetsAfter subject.now.spec.now moves.new.table.keys node.now arrival.simulator arrival.number subject.now.spec.now.simulators (map (λ set. set.items) sets.items)) }
{
    let mut sets = Vec::new(subject.alloc);
    for i in 0..subject.spec.m() {
        let set = set_after(subject, moves, node, arrival, i)?;
        sets.push(set)?;
    }
    Ok(sets)
}

/// Those of simulator `i` after that step.
fn set_after(
    subject: &Subject<'_>,
    moves: &mut Moves,
    node: &Node,
    arrival: Situation,
    i: usize,
) -> Result<Vec<u32>, SearchFault>
    requires moves { AreMoves subject.now.spec.now moves.old }
    requires node { IsNode subject.now.spec.now moves.old.table.keys node.now }
    requires said { arrival.said < length moves.old.said.keys }
    requires number { arrival.number < length moves.old.table.keys }
    requires simulator { i < subject.now.spec.now.simulators }
    ensures moves { OnOk result (GoOn subject.now.spec.now moves.old moves.new) }
    ensures numbers { IfOk result (λ set. AreNumbers moves.new.table.keys set.items) }
    ensures own { IfOk result (λ set. i ≡ arrival.simulator → Contains set.items arrival.number) }
    ensures other { IfOk result (λ set. (i ≡ arrival.simulator → ⊥) → AreIn (set_of node.now i) set.items) }
{
    if i == usize::from(arrival.simulator) {
        set_from(subject, moves, arrival.said, i, &[arrival.number])
    } else {
        set_from(subject, moves, arrival.said, i, node.set(i))
    }
}

/// These numbers, and those of what comes of them by steps of simulator `i` that leave what is said as it is.
///
/// # Errors
///
/// `TooManyNodes` if the table is full; `OutOfMemory` if an allocation fails.
pub fn set_from(
    subject: &Subject<'_>,
    moves: &mut Moves,
    said: u32,
    i: usize,
    numbers: &[u32],
) -> Result<Vec<u32>, SearchFault>
    requires moves { AreMoves subject.now.spec.now moves.old }
    requires said { said < length moves.old.said.keys }
    requires simulator { i < subject.now.spec.now.simulators }
    requires numbers { AreNumbers moves.old.table.keys numbers.now }
    ensures moves { OnOk result (GoOn subject.now.spec.now moves.old moves.new) }
    ensures numbers { IfOk result (λ set. AreNumbers moves.new.table.keys set.items) }
    ensures kept { IfOk result (λ set. AreIn numbers.now set.items) }
{
    let mut set = Vec::with_capacity(subject.alloc, numbers.len())?;
    set.extend_from_slice(numbers)?;
    close(subject, moves, said, i, &mut set)?;
    Ok(set)
}

/// Adds to a set what comes of its members by steps of simulator `i` that leave what is said as it is. One that had crashed takes none.
fn close(
    subject: &Subject<'_>,
    moves: &mut Moves,
    said: u32,
    i: usize,
    set: &mut Vec<u32>,
) -> Result<(), SearchFault>
    requires moves { AreMoves subject.now.spec.now moves.old }
    requires said { said < length moves.old.said.keys }
    requires simulator { i < subject.now.spec.now.simulators }
    requires numbers { AreNumbers moves.old.table.keys set.old.items }
    ensures moves { OnOk result (GoOn subject.now.spec.now moves.old moves.new) }
    ensures numbers { OnOk result (AreNumbers moves.new.table.keys set.new.items) }
    ensures kept { OnOk result (AreIn set.old.items set.new.items) }
{
    if has_crashed(subject, i) {
        return Ok(());
    }
    let _m = subject.spec.m(); // for the proof: it is at most 8
    let mut at = 0;
    while at < set.len() {
        let from = Situation {
            said,
            simulator: i as u8,
            number: set[at],
        };
        go_alone(subject, moves, from, set)?;
        at += 1;
    }
    Ok(())
}

/// Adds to a set what comes of one of its members by one step, if that leaves what is said as it is.
fn go_alone(
    subject: &Subject<'_>,
    moves: &mut Moves,
    from: Situation,
    set: &mut Vec<u32>,
) -> Result<(), SearchFault>
    requires moves { AreMoves subject.now.spec.now moves.old }
    requires said { from.said < length moves.old.said.keys }
    requires simulator { from.simulator < subject.now.spec.now.simulators }
    requires numbers { AreNumbers moves.old.table.keys set.old.items }
    requires number { from.number < length moves.old.table.keys }
    ensures moves { OnOk result (GoOn subject.now.spec.now moves.old moves.new) }
    ensures numbers { OnOk result (AreNumbers moves.new.table.keys set.new.items) }
    ensures kept { OnOk result (AreIn set.old.items set.new.items) }
{
    let lead = moves.lead(subject, from)?;
    let Lead::To {
        said: after,
        number,
    } = lead
    else {
        return Ok(());
    };
    if after == from.said {
        put(set, number)?;
    }
    Ok(())
}

/// Adds a number to a set, unless it is there.
fn put(set: &mut Vec<u32>, number: u32) -> Result<(), AllocError>
    ensures there { OnOk result (Contains set.new.items number) }
    ensures kept { OnOk result (AreIn set.old.items set.new.items) }
    ensures added { OnOk result ((other : ℕ) → Contains set.new.items other → Contains set.old.items other ⊎ (other ≡ number)) }
{
    if !set.as_slice().contains(&number) {
        set.push(number)?;
    }
    Ok(())
}
