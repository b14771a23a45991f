//! The warnings of a room, in words.
ghost use Rattle.std.specs.Prelude.{◌≡◌, ◌-◌, ◌*◌, ◌≤◌, ◌++◌, IfOk, OnOk, length, take};
ghost use Rattle.fault_text.specs.declared.blocks.TheConstants.{HEAD_LINES};
ghost use Rattle.room_spec.specs.Rooms.{processes};
ghost use Rattle.room_warnings.specs.Warnings.{at_place, decide_warning, from_place, inputs_warning, number_warnings, place_sentence, room_warnings, sentence_if, too_few, turns_before, turns_sentence, turns_warning};

use crate::calls::calls_none;
use crate::json::{Format, Warning, write_warning};
use crate::rules::holds_always;
use crate::words::has_word;
use fault_text::{HEAD_LINES, last_line, later_line, line_at, line_ends, program_of};
use io_text::Text;
use room_files::split_line;
use room_spec::Spec;
use std::alloc::{AllocError, Global};

/// At a call of `cell` or `seen`.
const NO_PROCESS: &[u8] = b"warning: the room has no process of this number, so this is always 0";

/// At a rule.
const ALWAYS: &[u8] = b"warning: this rule always holds, so no rule after it is ever used";

/// At the line before a protocol's text.
const NO_DECISION: &[u8] = b"warning: no process ever decides, since no rule has `decide`";

/// At the line of the inputs.
const ONE_PROCESS: &[u8] =
    b"warning: the room has one process, since each value of `inputs` is the input of one";

/// At the line of the turns.
const TOO_FEW: &[u8] =
    b"warning: too few turns for a simulator to finish alone: it needs one for each process";

/// The same in a reduction, where it needs a turn more for each process, to agree on the process's input.
const TOO_FEW_SHARED: &[u8] =
    b"warning: too few turns for a simulator to finish alone: it needs two for each process, of which the first agrees on its input";

/// The same of a reduction if no process decides.
const TOO_FEW_SHARED_UNDECIDED: &[u8] =
    b"warning: too few turns for a simulator to finish alone: it needs one for the input of each process, and one for each of its rounds";

/// The same if no process decides.
const TOO_FEW_UNDECIDED: &[u8] =
    b"warning: too few turns for a simulator to finish alone: it needs one for each round of each process";

/// A valid room of a file: its block, and what is read from it.
#[derive(Clone, Copy)]
struct Room<'a> {
    /// The number of the block's first line.
    first: u64,
    block: &'a [u8],
    spec: &'a Spec,
    /// How many lines of the block come before the protocol's text.
    lines: u64,
    /// The protocol's text.
    program: &'a [u8],
}

/// Writes what may be warned of in a room, whose block this is, as text or as JSON. The block's first line has this number.
pub fn write_warnings(
    format: Format,
    output: &mut Text,
    first: u64,
    block: &[u8],
    spec: &Spec,
) -> Result<(), AllocError>
    ensures { OnOk result (output.new ≡ output.old ++ room_warnings format.json first block.now spec.now) }
{
    let (lines, program) = program_of(block);
    let room = Room {
        first,
        block,
        spec,
        lines,
        program,
    };
    let decides = has_word(b"decide", program);
    write_number_warnings(format, output, &room, decides)?;
    write_decide_warning(format, output, &room, decides)?;
    write_from(format, output, &room, program)
}

/// Writes what may be warned of in the numbers of a room: of its inputs, and of its turns, if a rule of its protocol decides or not.
#[tactic(auto, unfolding(crate::specs::Warnings::number_warnings))]
fn write_number_warnings(
    format: Format,
    output: &mut Text,
    room: &Room<'_>,
    decides: bool,
) -> Result<(), AllocError>
    ensures { OnOk result (output.new ≡ output.old ++ number_warnings format.json room.now.first room.now.block.now decides room.now.spec.now) }
{
    let sentence = turns_sentence(decides, room.spec);
    write_inputs_warning(format, output, room)?;
    write_turns_warning(format, output, room, sentence)
}

/// Writes that a room has a single process, if it has, about the line of its inputs. A reduction has a line that says it.
fn write_inputs_warning(
    format: Format,
    output: &mut Text,
    room: &Room<'_>,
) -> Result<(), AllocError>
    ensures { OnOk result (output.new ≡ output.old ++ inputs_warning format.json room.now.first room.now.block.now room.now.spec.now) }
{
    if room.spec.n() != 1 || room.spec.is_reduction() {
        return Ok(());
    }
    let warning = Warning {
        number: later_line(room.first, 2),
        sentence: ONE_PROCESS,
        front: &[],
        back: line_at(room.block, 3),
    };
    write_warning(format, output, &warning)
}

/// What is wrong with a room's turns, or nothing: they are fewer than a simulator needs that brings all processes to their ends alone.
fn turns_sentence(decides: bool, spec: &Spec) -> &'static [u8]
    ensures { result.now ≡ turns_sentence decides spec.now }
{
    let turns = spec.turns();
    let before = turns_before(spec);
    if turns < (spec.n() * (1 + before)) as u64 {
        too_few(spec, TOO_FEW, TOO_FEW_SHARED)
    } else if !decides && turns < (spec.n() * (spec.rounds() + before)) as u64 {
        too_few(spec, TOO_FEW_UNDECIDED, TOO_FEW_SHARED_UNDECIDED)
    } else {
        &[]
    }
}

/// The sentence for an ordinary room, or that for a reduction.
fn too_few(spec: &Spec, ordinary: &'static [u8], shared: &'static [u8]) -> &'static [u8]
    ensures { result.now ≡ too_few spec.now ordinary.now shared.now }
{
    if spec.is_reduction() {
        shared
    } else {
        ordinary
    }
}

/// How many turns a simulator that runs alone takes for a process before its first write: in a reduction one, to agree on its input.
fn turns_before(spec: &Spec) -> usize
    ensures value { result ≡ turns_before spec.now }
    ensures few { result ≤ 1 }
{
    if spec.is_reduction() { 1 } else { 0 }
}

/// Writes a sentence, unless it is empty, about the line of a room's turns.
fn write_turns_warning(
    format: Format,
    output: &mut Text,
    room: &Room<'_>,
    sentence: &[u8],
) -> Result<(), AllocError>
    ensures { OnOk result (output.new ≡ output.old ++ turns_warning format.json room.now.first room.now.block.now sentence.now) }
{
    if sentence.is_empty() {
        return Ok(());
    }
    let warning = Warning {
        number: later_line(room.first, 5),
        sentence,
        front: &[],
        back: line_at(room.block, 6),
    };
    write_warning(format, output, &warning)
}

/// Writes, unless a rule decides, that no process does.
fn write_decide_warning(
    format: Format,
    output: &mut Text,
    room: &Room<'_>,
    decides: bool,
) -> Result<(), AllocError>
    ensures { OnOk result (output.new ≡ output.old ++ decide_warning format.json room.now.first room.now.lines decides) }
{
    if decides {
        return Ok(());
    }
    let warning = Warning {
        number: later_line(room.first, room.lines.saturating_sub(1)),
        sentence: NO_DECISION,
        front: &[],
        back: b"protocol",
    };
    write_warning(format, output, &warning)
}

/// Writes what may be warned of from a place of a protocol's text on, which has these bytes there.
#[tactic(auto, unfolding(crate::specs::Warnings::from_place))]
fn write_from(
    format: Format,
    output: &mut Text,
    room: &Room<'_>,
    rest: &[u8],
) -> Result<(), AllocError>
    requires { room.now.lines ≤ HEAD_LINES }
    ensures { OnOk result (output.new ≡ output.old ++ from_place format.json (processes room.now.spec.now) room.now.first room.now.lines room.now.program.now rest.now) }
{
    let [_, later @ ..] = rest else {
        return Ok(());
    };
    write_at(format, output, room, rest)?;
    write_from(format, output, room, later)
}

/// Writes what may be warned of at a place of a protocol's text.
fn write_at(
    format: Format,
    output: &mut Text,
    room: &Room<'_>,
    rest: &[u8],
) -> Result<(), AllocError>
    requires { room.now.lines ≤ HEAD_LINES }
    ensures { OnOk result (output.new ≡ output.old ++ at_place format.json (processes room.now.spec.now) room.now.first room.now.lines room.now.program.now rest.now) }
{
    let sentence = place_sentence(format.alloc, room.spec.n(), rest)?;
    if sentence.is_empty() {
        return Ok(());
    }
    let before = before(room.program, rest);
    let (back, _) = split_line(rest);
    let warning = Warning {
        number: later_line(room.first, room.lines + line_ends(before)),
        sentence,
        front: last_line(before),
        back,
    };
    write_warning(format, output, &warning)
}

/// What is to be said of the place where a protocol's text has these bytes, or nothing.
fn place_sentence(alloc: Global, n: usize, rest: &[u8]) -> Result<&'static [u8], AllocError>
    ensures { IfOk result (λ sentence. sentence.now ≡ place_sentence n rest.now) }
{
    if calls_none(n, rest) {
        return Ok(NO_PROCESS);
    }
    if holds_always(alloc, rest)? {
        return Ok(ALWAYS);
    }
    Ok(&[])
}

/// What comes before the end of a text.
fn before<'a>(text: &'a [u8], rest: &[u8]) -> &'a [u8]
    ensures { result.now ≡ take (length text.now - length rest.now) text.now }
{
    &text[..text.len().saturating_sub(rest.len())]
}
