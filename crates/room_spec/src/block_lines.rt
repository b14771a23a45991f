//! The lines of a room block.
ghost use Rattle.std.specs.Prelude.{◌≡◌, ◌*◌, ◌≤◌, true, length, replicate, IfOk, IsSome, codes};
ghost use Rattle.std.specs.Option.{option_copied};
ghost use Rattle.room_spec.specs.Rooms.{IsTaskIn};
ghost use Rattle.room_spec.specs.Shapes.{head_of};
ghost use Rattle.room_spec.specs.Texts.{fields_of};
ghost use Rattle.protocol_lang.specs.Results.{Gives};
ghost use Rattle.room_spec.specs.Blocks.{IsHeadWithin, MayLackBy, version_of, version_line, reduction_of, reduction_line, name_line, inputs_of, are_values, up_to_values, inputs_line, own_line, head_read, reduction_head_read, rounds_read, rounds_text, reduction_in, reduction_text_in, number_line, task_of, task_words, task_line, line_behind_task, room_in, MayLackIn, OrMemory};

use crate::crash_lines::read_fuses;
use crate::fault::SpecFault;
use crate::name::Name;
use crate::protocols::Protocols;
use crate::spec::{
    MAX_AGREED, MAX_PROCESSES, MAX_ROUNDS, MAX_SIMULATORS, MAX_TURNS, Spec, bits, memory_words,
};
use crate::text::{cut_near, split_line};
use crate::version::Version;
use arrayvec::ArrayVec;
use protocol_lang::read_number;
use std::alloc::Global;

/// Reads the lines of a room block that come before its line `end`. The fault is that of the first
/// line that has one.
pub(crate) fn read_lines<'a>(
    alloc: Global,
    body: &'a [u8],
    protocols: &mut Protocols<'a>,
) -> Result<Spec, SpecFault>
    ensures { OrMemory (MayLackIn body.now) result (room_in body.now) }
{
    let (head, rest) = read_head(body)?;
    read_after_head(alloc, rest, head, protocols)
}

/// The same of a reduction.
pub(crate) fn read_reduction_lines<'a>(
    alloc: Global,
    body: &'a [u8],
    protocols: &mut Protocols<'a>,
) -> Result<Spec, SpecFault>
    ensures { OrMemory (MayLackBy reduction_text_in body.now) result (reduction_in body.now) }
{
    let (head, rest) = read_reduction_head(body)?;
    read_after_head(alloc, rest, head, protocols)
}

/// What the lines before that of the rounds say.
#[derive(Drop)]
pub(crate) struct Head {
    version: Version,
    name: Name,
    inputs: ArrayVec<u32, MAX_PROCESSES>,
    own: ArrayVec<u32, MAX_SIMULATORS>,
    simulators: u16,
}

#[tactic(auto, unfolding(crate::specs::Blocks::head_read))]
fn read_head(body: &[u8]) -> Result<(Head, &[u8]), SpecFault>
    ensures value { Gives (λ read. (head_of read.0, read.1.now)) result (head_read body.now) }
    ensures limits { IfOk result (λ read. IsHeadWithin (head_of read.0)) }
{
    let (version, rest) = read_version(body)?;
    let (name, rest) = read_name(rest)?;
    let (inputs, rest) = read_inputs(rest)?;
    let (simulators, rest) = read_number_line(
        rest,
        4,
        b"simulators ",
        MAX_SIMULATORS as u16,
        SpecFault::Simulators,
    )?;
    let head = Head {
        version,
        name,
        inputs,
        own: ArrayVec::new(),
        simulators,
    };
    Ok((head, rest))
}

#[tactic(auto, unfolding(crate::specs::Blocks::reduction_head_read))]
fn read_reduction_head(body: &[u8]) -> Result<(Head, &[u8]), SpecFault>
    ensures value { Gives (λ read. (head_of read.0, read.1.now)) result (reduction_head_read body.now) }
    ensures limits { IfOk result (λ read. IsHeadWithin (head_of read.0)) }
{
    let (version, rest) = read_reduction(body)?;
    let (name, rest) = read_name(rest)?;
    let (own, rest) = read_own(rest)?;
    let (processes, rest) = read_number_line(
        rest,
        4,
        b"processes ",
        MAX_PROCESSES as u16,
        SpecFault::Processes,
    )?;
    let head = Head {
        version,
        name,
        inputs: same_inputs(processes, own[0]),
        simulators: own.len() as u16,
        own,
    };
    Ok((head, rest))
}

/// Reads the lines from that of the rounds on.
#[tactic(auto, unfolding(crate::specs::Blocks::rounds_read))]
fn read_after_head<'a>(
    alloc: Global,
    text: &'a [u8],
    head: Head,
    protocols: &mut Protocols<'a>,
) -> Result<Spec, SpecFault>
    requires { IsHeadWithin (head_of head) }
    ensures { OrMemory (MayLackBy (rounds_text (head_of head)) text.now) result (rounds_read (head_of head) text.now) }
{
    let Head {
        version,
        name,
        inputs,
        own,
        simulators,
    } = head;
    let (rounds, rest) = read_number_line(text, 5, b"rounds ", MAX_ROUNDS, SpecFault::Rounds)?;
    if usize::from(simulators) * inputs.len() * bits(usize::from(rounds)) > version.most_bits() {
        return Err(SpecFault::TooWide);
    }
    let (turns, rest) = read_number_line(rest, 6, b"turns ", MAX_TURNS, SpecFault::Turns)?;
    let (task, rest) = read_task(rest, version)?;
    let (fuses, text) = read_fuses(rest, line_behind_task(task), simulators)?;
    let protocol = protocols.read(alloc, text)?;
    let words = memory_words(usize::from(simulators), inputs.len(), usize::from(rounds));
    Ok(Spec {
        version,
        name,
        inputs,
        own,
        simulators: simulators as u8,
        rounds: rounds as u8,
        turns,
        task,
        fuses,
        words,
        protocol,
    })
}

fn read_version(text: &[u8]) -> Result<(Version, &[u8]), SpecFault>
    ensures { Gives (λ read. (read.0, read.1.now)) result (version_line text.now) }
{
    let (line, rest) = split_line(text);
    let version = version_of(line)?;
    Ok((version, rest))
}

fn version_of(line: &[u8]) -> Result<Version, SpecFault>
    ensures { result ≡ version_of line.now }
{
    let [b'b', b'g', b's', b'i', b'm', b' ', version @ ..] = line else {
        return Err(SpecFault::BadLine(1));
    };
    match version {
        [b'1'] => Ok(Version::One),
        [b'2'] => Ok(Version::Two),
        _ => Err(SpecFault::BadLine(1)),
    }
}

fn read_reduction(text: &[u8]) -> Result<(Version, &[u8]), SpecFault>
    ensures { Gives (λ read. (read.0, read.1.now)) result (reduction_line text.now) }
{
    let (line, rest) = split_line(text);
    let version = reduction_of(line)?;
    Ok((version, rest))
}

fn reduction_of(line: &[u8]) -> Result<Version, SpecFault>
    ensures { result ≡ reduction_of line.now }
{
    if line == b"reduction 1".as_slice() {
        Ok(Version::Two)
    } else {
        Err(SpecFault::BadLine(1))
    }
}

fn read_name(text: &[u8]) -> Result<(Name, &[u8]), SpecFault>
    ensures { Gives (λ read. (read.0, read.1.now)) result (name_line text.now) }
{
    let (line, rest) = split_line(text);
    let [b'r', b'o', b'o', b'm', b' ', value @ ..] = line else {
        return Err(SpecFault::BadLine(2));
    };
    let name = Name::read(value).ok_or(SpecFault::BadName)?;
    Ok((name, rest))
}

fn read_inputs(text: &[u8]) -> Result<(ArrayVec<u32, MAX_PROCESSES>, &[u8]), SpecFault>
    ensures { Gives (λ read. (read.0.items, read.1.now)) result (inputs_line text.now) }
{
    let (line, rest) = split_line(text);
    let inputs = inputs_from(line, MAX_PROCESSES)?;
    Ok((inputs, rest))
}

/// Reads the line of the simulators' own inputs.
fn read_own(text: &[u8]) -> Result<(ArrayVec<u32, MAX_SIMULATORS>, &[u8]), SpecFault>
    ensures value { Gives (λ read. (read.0.items, read.1.now)) result (own_line text.now) }
    ensures are { IfOk result (λ read. are_values MAX_SIMULATORS read.0.items ≡ true) }
{
    let (line, rest) = split_line(text);
    let inputs = inputs_from(line, MAX_SIMULATORS)?;
    Ok((few_inputs(inputs.as_slice()), rest))
}

/// The same inputs, of which there are few.
fn few_inputs(inputs: &[u32]) -> ArrayVec<u32, MAX_SIMULATORS>
    requires { length inputs.now ≤ MAX_SIMULATORS }
    ensures { result.items ≡ inputs.now }
{
    let mut own = ArrayVec::new();
    for i in 0..inputs.len() {
        own.push(inputs[i]);
    }
    own
}

/// The same input for each of these processes.
fn same_inputs(processes: u16, input: u32) -> ArrayVec<u32, MAX_PROCESSES>
    requires { processes ≤ MAX_PROCESSES }
    ensures { result.items ≡ replicate processes input }
{
    let mut inputs = ArrayVec::new();
    for _ in 0..processes {
        inputs.push(input);
    }
    inputs
}

fn inputs_from(line: &[u8], most: usize) -> Result<ArrayVec<u32, MAX_PROCESSES>, SpecFault>
    requires { most ≤ MAX_PROCESSES }
    ensures value { Gives (λ values. values.items) result (up_to_values most (inputs_of (fields_of line.now))) }
    ensures are { IfOk result (λ values. are_values most values.items ≡ true) }
{
    let (word, mut rest) = cut_near(line, b' ');
    if word != b"inputs".as_slice() {
        return Err(SpecFault::BadLine(3));
    }
    let mut values = ArrayVec::new();
    let mut fits = true;
    while let Some(fields) = rest {
        let (field, others) = cut_near(fields, b' ');
        let number = read_number(field).ok_or(SpecFault::BadLine(3))?;
        match u32::try_from(number) {
            Ok(value) if values.len() < most => values.push(value),
            _ => fits = false,
        }
        rest = others;
    }
    if fits && !values.is_empty() {
        Ok(values)
    } else {
        Err(SpecFault::Inputs)
    }
}

/// Reads the line of the number `line`, which has a word and a number from 1 to `most`.
fn read_number_line<'a>(
    text: &'a [u8],
    line: usize,
    word: &[u8],
    most: u16,
    fault: SpecFault,
) -> Result<(u16, &'a [u8]), SpecFault>
    ensures value { Gives (λ read. (read.0, read.1.now)) result (number_line line word.now most fault text.now) }
    ensures range { IfOk result (λ read. (1 ≤ read.0) × (read.0 ≤ most)) }
{
    let (found, rest) = split_line(text);
    let value = found.strip_prefix(word).ok_or(SpecFault::BadLine(line))?;
    let number = read_number(value).ok_or(SpecFault::BadLine(line))?;
    match u16::try_from(number) {
        Ok(number) if number >= 1 && number <= most => Ok((number, rest)),
        _ => Err(fault),
    }
}

/// Reads the line of the task, if the next line is one.
fn read_task(text: &[u8], version: Version) -> Result<(Option<u8>, &[u8]), SpecFault>
    ensures value { Gives (λ read. (read.0, read.1.now)) result (task_line version text.now) }
    ensures range { IfOk result (λ read. IsTaskIn version read.0) }
{
    let (line, rest) = split_line(text);
    let Some(words) = task_words(line, version) else {
        return Ok((None, text));
    };
    let most = read_agreed(words)?;
    Ok((Some(most), rest))
}

/// What comes after the word `task` at the front of a line after the turns.
fn task_words(line: &[u8], version: Version) -> Option<&[u8]>
    ensures words { option_copied result ≡ task_words version line.now }
    ensures two { IsSome result → version ≡ Version.Two }
{
    match version {
        Version::One => None,
        Version::Two => line.strip_prefix(b"task ".as_slice()),
    }
}

/// How many values a task allows, by the words after `task`.
fn read_agreed(words: &[u8]) -> Result<u8, SpecFault>
    ensures value { result ≡ task_of words.now }
    ensures range { IfOk result (λ most. (1 ≤ most) × (most ≤ MAX_AGREED)) }
{
    let most = words
        .strip_prefix(b"agree ".as_slice())
        .ok_or(SpecFault::TaskLine(7))?;
    let most = read_number(most).ok_or(SpecFault::TaskLine(7))?;
    if most >= 1 && most <= MAX_AGREED as u64 {
        Ok(most as u8)
    } else {
        Err(SpecFault::TaskLine(7))
    }
}

/// The number of the line after the turns and the task.
fn line_behind_task(task: Option<u8>) -> usize
    ensures value { result ≡ line_behind_task task }
    ensures few { result ≤ 8 }
{
    match task {
        None => 7,
        Some(_) => 8,
    }
}
