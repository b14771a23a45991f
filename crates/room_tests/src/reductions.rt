//! Calls on reductions: their blocks, the rooms of their runs, their histories and their outcomes.
use history_checker::check_reduction;
use room_spec::{Spec, SpecFault, read_block, read_reduction};
use run_search::{Ended, Silent, agreed_inputs, count_agreed, search_reduction};
use std::alloc::Global;
use std::test::*;
use transcript::Event;

const SHARED: &str =
    "reduction 1\nroom vote\ninputs 7 3\nprocesses 3\nrounds 2\nturns 100\ntask agree 2\nprotocol\nfirst input;\nwhen count >= n - 1 decide min;\nelse write mine;\nend\n";

/// The reduction that this text says.
fn reduction(alloc: Global, text: &str) -> Result<Spec, Fail> {
    match read_reduction(alloc, text.as_bytes()) {
        Ok((spec, _)) => Ok(spec),
        Err(_) => Err(Fail::from("a reduction")),
    }
}

/// Whether the block is that of three processes and two simulators with inputs of their own.
fn is_shared(spec: &Spec) -> bool {
    spec.is_reduction()
        && spec.n() == 3
        && spec.m() == 2
        && spec.own(0) == Some(7)
        && spec.own(1) == Some(3)
        && spec.own(2).is_none()
}

#[test]
fn blocks_of_reductions(rt: HostRuntime) -> Result<(), Fail> {
    assert!(rt; is_shared(&reduction(rt.alloc(), SHARED)?));
    assert!(rt;
        matches!(
            read_block(rt.alloc(), SHARED.as_bytes()),
            Err(SpecFault::BadLine(1))
        )
    );
    Ok(())
}

#[test]
fn room_of_a_run(rt: HostRuntime) -> Result<(), Fail> {
    let spec = reduction(rt.alloc(), SHARED)?;
    let count = count_agreed(&spec);
    if count != 8 {
        return Err(Fail::from("eight vectors"));
    }
    let inputs = agreed_inputs(&spec, 5);
    assert!(rt; inputs.as_slice() == [3, 7, 3].as_slice());
    let room = spec.with_inputs(inputs.as_slice())?;
    assert!(rt; !room.is_reduction());
    assert!(rt; room.input(0) == 3 && room.input(1) == 7 && room.input(2) == 3);
    Ok(())
}

/// A write of each process, in order.
fn writes(alloc: Global, values: &[u32]) -> Result<Vec<Event>, Fail> {
    let mut events = Vec::new(alloc);
    let mut p = 0;
    for v in values {
        events.push(Event::Write { p, v: *v })?;
        p = u8::wrapping_add(p, 1);
    }
    Ok(events)
}

/// Where a history that begins with these writes is no run of the reduction, if it isn't one.
fn breaks(alloc: Global, values: &[u32]) -> Result<Option<usize>, Fail> {
    let spec = reduction(alloc, SHARED)?;
    if !spec.is_reduction() {
        return Err(Fail::from("inputs of its own"));
    }
    let events = writes(alloc, values)?;
    Ok(check_reduction(&spec, events.as_slice()).err())
}

#[test]
fn histories_of_reductions(rt: HostRuntime) -> Result<(), Fail> {
    assert!(rt; breaks(rt.alloc(), &[7, 7, 7])?.is_none());
    assert!(rt; breaks(rt.alloc(), &[7, 3, 7])?.is_none());
    assert!(rt; breaks(rt.alloc(), &[3, 7])?.is_none());
    assert!(rt; breaks(rt.alloc(), &[3, 5, 7])? == Some(1));
    assert!(rt; breaks(rt.alloc(), &[3, 7, 3, 7])? == Some(3));
    Ok(())
}

/// How many outcomes are found from each vector of inputs, and in how many some process decides 7.
fn counts(alloc: Global, crashes: usize) -> Result<(usize, usize, usize), Fail> {
    let spec = reduction(alloc, SHARED)?;
    let mut vectors = 0;
    let mut outcomes = 0;
    let mut sevens = 0;
    for agreed in &search_reduction(alloc, &spec, crashes, 100000, &mut Silent)? {
        vectors = usize::wrapping_add(vectors, 1);
        outcomes = usize::wrapping_add(outcomes, agreed.outcomes.len());
        for index in 0..agreed.outcomes.len() {
            let Some(ends) = agreed.outcomes.get(index) else {
                continue;
            };
            if ends.contains(&Ended::Decided(7)) {
                sevens = usize::wrapping_add(sevens, 1);
            }
        }
    }
    Ok((vectors, outcomes, sevens))
}

// A process that takes both rounds before the others begin is spent; so is one at most, or none. From 7, 7, 7 the others decide 7: 4
// outcomes. If one process has 3, it decides 3, and each other 7 or 3: 4 outcomes if none is spent, 2 if one of the others is, and 1 if it is
// itself. From two 3s or three all that decide decide 3: 4 outcomes each.
#[test]
fn outcomes_of_reductions(rt: HostRuntime) -> Result<(), Fail> {
    assert!(rt;
        counts(rt.alloc(), 0)? == (8, 4 + 3 * (4 + 2 * 2 + 1) + 3 * 4 + 4, 4 + 3 * (3 + 2))
    );
    Ok(())
}
