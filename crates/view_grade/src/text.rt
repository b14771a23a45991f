//! What is said of a report and a goal, line by line.
ghost use Rattle.std.specs.Prelude.{◌≡◌, ◌++◌, OnOk};
ghost use Rattle.std.specs.List.{flat_map};
ghost use Rattle.view_grade.specs.Grades.{and_number, claim_line, claim_lines, claim_text, crash_end, crash_text, decision_shown, end_line, fact_text, few_end, few_line, input_shown, input_text, many_text, process_text, shown_text, state_text};

use crate::goal::{Claim, Fact};
use crate::judging::{decision_of, has_crashed, holds, reported_input, state_of};
use crate::reported::Reported;
use io_text::Text;
use std::alloc::AllocError;
use ws_history::ProcessState;

/// Writes a line for each claim: whether it holds, and if not, what the report shows.
pub(crate) fn write_claims(
    output: &mut Text,
    last: &Option<Reported>,
    claims: &[Claim],
) -> Result<(), AllocError>
    ensures { OnOk result (output.new ≡ output.old ++ claim_lines last.now claims.now) }
{
    match last {
        None => {
            output.put(b"there is no report: a script is graded by its last `report NAME`\n")
        }
        Some(reported) => write_each(output, reported, claims),
    }
}

fn write_each(output: &mut Text, reported: &Reported, claims: &[Claim]) -> Result<(), AllocError>
    ensures { OnOk result (output.new ≡ output.old ++ flat_map (claim_line reported.now) claims.now) }
{
    for claim in claims {
        write_claim(output, reported, *claim)?;
    }
    Ok(())
}

fn write_claim(output: &mut Text, reported: &Reported, claim: Claim) -> Result<(), AllocError>
    ensures { OnOk result (output.new ≡ output.old ++ claim_line reported.now claim) }
{
    write_words(output, claim)?;
    if holds(reported, claim) {
        return output.put(b": yes\n");
    }
    output.put(b": no, ")?;
    write_shown(output, reported, claim.fact)?;
    output.put(b"\n")
}

/// Writes a claim as a goal says it.
pub(crate) fn write_words(output: &mut Text, claim: Claim) -> Result<(), AllocError>
    ensures { OnOk result (output.new ≡ output.old ++ claim_text claim) }
{
    if claim.negated {
        output.put(b"not ")?;
    }
    write_fact(output, claim.fact)
}

fn write_fact(output: &mut Text, fact: Fact) -> Result<(), AllocError>
    ensures { OnOk result (output.new ≡ output.old ++ fact_text fact) }
{
    match fact {
        Fact::Decided { process, value } => {
            put_and(output, b"decided", u64::from(process))?;
            output.put_spaced_number(u64::from(value))
        }
        Fact::Spent(process) => put_and(output, b"spent", u64::from(process)),
        Fact::Held(process) => put_and(output, b"held", u64::from(process)),
        Fact::Going(process) => put_and(output, b"going", u64::from(process)),
        Fact::Input { process, input } => {
            put_and(output, b"input", u64::from(process))?;
            write_input(output, input)
        }
        Fact::Crashed(simulator) => put_and(output, b"crashed", u64::from(simulator)),
        Fact::SimulatorDecided { simulator, value } => {
            put_and(output, b"simulator", u64::from(simulator))?;
            put_and(output, b" decided", u64::from(value))
        }
        Fact::History(events) => put_and(output, b"history", u64::from(events)),
    }
}

/// Writes an input after a process: a value, or that there is none yet.
fn write_input(output: &mut Text, input: Option<u32>) -> Result<(), AllocError>
    ensures { OnOk result (output.new ≡ output.old ++ input_text input) }
{
    match input {
        Some(value) => output.put_spaced_number(u64::from(value)),
        None => output.put(b" none"),
    }
}

/// Writes what a report shows that decides a fact.
pub(crate) fn write_shown(
    output: &mut Text,
    reported: &Reported,
    fact: Fact,
) -> Result<(), AllocError>
    ensures { OnOk result (output.new ≡ output.old ++ shown_text reported.now fact) }
{
    let report = &reported.report;
    match fact {
        Fact::Decided { process, .. } => {
            write_process(output, process, state_of(report, process))
        }
        Fact::Spent(process) | Fact::Held(process) | Fact::Going(process) => {
            write_process(output, process, state_of(report, process))
        }
        Fact::Input { process, .. } => {
            write_shown_input(output, process, reported_input(reported, process))
        }
        Fact::Crashed(simulator) => {
            write_crash(output, simulator, has_crashed(report, simulator))
        }
        Fact::SimulatorDecided { simulator, .. } => {
            write_decision(output, simulator, decision_of(reported, simulator))
        }
        Fact::History(_) => put_and(
            output,
            b"the number of events is",
            report.history.events().len() as u64,
        ),
    }
}

fn write_process(
    output: &mut Text,
    process: u8,
    state: Option<ProcessState>,
) -> Result<(), AllocError>
    ensures { OnOk result (output.new ≡ output.old ++ process_text process state) }
{
    let Some(state) = state else {
        return put_and(output, b"the room has no process", u64::from(process));
    };
    put_and(output, b"process", u64::from(process))?;
    write_state(output, state)
}

fn write_state(output: &mut Text, state: ProcessState) -> Result<(), AllocError>
    ensures { OnOk result (output.new ≡ output.old ++ state_text state) }
{
    match state {
        ProcessState::Decided(value) => put_and(output, b" has decided", u64::from(value)),
        ProcessState::Spent => output.put(b" is out of rounds"),
        ProcessState::Held(simulator) => {
            put_and(output, b" is held by simulator", u64::from(simulator))
        }
        ProcessState::Going => output.put(b" may still go on"),
    }
}

fn write_crash(output: &mut Text, simulator: u8, crashed: bool) -> Result<(), AllocError>
    ensures { OnOk result (output.new ≡ output.old ++ crash_text simulator crashed) }
{
    put_and(output, b"simulator", u64::from(simulator))?;
    output.put(crash_end(crashed))
}

/// Writes what a simulator had decided.
fn write_decision(
    output: &mut Text,
    simulator: u8,
    decision: Option<Option<u32>>,
) -> Result<(), AllocError>
    ensures { OnOk result (output.new ≡ output.old ++ decision_shown simulator decision) }
{
    let Some(decision) = decision else {
        return put_and(output, b"the room has no simulator", u64::from(simulator));
    };
    put_and(output, b"simulator", u64::from(simulator))?;
    match decision {
        Some(value) => put_and(output, b" has decided", u64::from(value)),
        None => output.put(b" has not decided"),
    }
}

/// Writes which input a process had.
fn write_shown_input(
    output: &mut Text,
    process: u8,
    input: Option<Option<u32>>,
) -> Result<(), AllocError>
    ensures { OnOk result (output.new ≡ output.old ++ input_shown process input) }
{
    let Some(input) = input else {
        return put_and(output, b"the room has no process", u64::from(process));
    };
    put_and(output, b"process", u64::from(process))?;
    match input {
        Some(value) => put_and(output, b" has the input", u64::from(value)),
        None => output.put(b" has no input yet"),
    }
}

fn crash_end(crashed: bool) -> &'static [u8]
    ensures { result.now ≡ crash_end crashed }
{
    if crashed {
        b" has crashed"
    } else {
        b" has not crashed"
    }
}

/// Writes whether there are at most `most` commands `step` and `crash`, if a number is given.
pub(crate) fn write_few(output: &mut Text, most: Option<u32>, moves: u64) -> Result<(), AllocError>
    ensures { OnOk result (output.new ≡ output.old ++ few_line most moves) }
{
    let Some(most) = most else {
        return Ok(());
    };
    put_and(output, b"commands", u64::from(most))?;
    write_few_end(output, u64::from(most), moves)
}

fn write_few_end(output: &mut Text, most: u64, moves: u64) -> Result<(), AllocError>
    ensures { OnOk result (output.new ≡ output.old ++ few_end most moves) }
{
    if moves <= most {
        output.put(b": yes\n")
    } else {
        write_many(output, moves)
    }
}

/// Writes that there are too many commands `step` and `crash`.
fn write_many(output: &mut Text, moves: u64) -> Result<(), AllocError>
    ensures { OnOk result (output.new ≡ output.old ++ many_text moves) }
{
    put_and(
        output,
        b": no, the number of commands `step` and `crash` is",
        moves,
    )?;
    output.put(b"\n")
}

/// Writes the last line: whether the goal is reached.
pub(crate) fn write_end(output: &mut Text, reached: bool) -> Result<(), AllocError>
    ensures { OnOk result (output.new ≡ output.old ++ end_line reached) }
{
    output.put(if reached {
        b"reached\n".as_slice()
    } else {
        b"not reached\n".as_slice()
    })
}

/// Writes words, and a space and a number after them.
pub(crate) fn put_and(output: &mut Text, words: &[u8], number: u64) -> Result<(), AllocError>
    ensures { OnOk result (output.new ≡ output.old ++ and_number words.now number) }
{
    output.put(words)?;
    output.put_spaced_number(number)
}
