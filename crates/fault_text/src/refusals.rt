//! The blocks of an input that are refused, in words.
ghost use Rattle.std.specs.Prelude.{◌≡◌, ◌==◌, ◌∷◌, ◌++◌, [], OnOk, drop, length, take};
ghost use Rattle.std.specs.List.{flat_map};
ghost use Rattle.fault_text.specs.Lines.{lines_after};
ghost use Rattle.fault_text.specs.Refusals.{after_room, all_named, all_noted, all_said, enough_if, name_in, named_if, named_line, named_refusals, noted_refusal, noted_refusals, refusal_line, said_refusal, said_refusals, why_said};

use crate::blocks::{write_block_fault, write_name_taken};
use crate::lines::{line_at, lines_after, split_text};
use history_checker::AddFault;
use io_text::Text;
use room_files::{BlockFault, Refuses, write_refused, write_refused_code};
use std::alloc::{AllocError, Global};
use std::marker::Model;

/// How many blocks or lines of an input are explained, so that long inputs of mistakes take no longer than others.
pub const MOST_EXPLAINED: usize = 100;

/// Says that no more is explained.
pub const ENOUGH: &[u8] = b"    further faults are not explained\n";

/// Comes before the name of a refused block.
const THE_BLOCK: &[u8] = b"    the block of room ";

/// Comes after it, and before the number of its line.
const IS_REFUSED: &[u8] = b" is refused: line";

/// A block that opens no room.
#[derive(Clone, Copy)]
pub struct RefusedBlock {
    /// The line of the input that is the block's first, counted from 1.
    pub line: u64,
    pub fault: BlockFault,
}

/// The blocks that open no room, in order.
#[derive(Drop)]
pub struct Refusals {
    all: Vec<RefusedBlock>,
}

impl Model for Refusals {
    ghost use Rattle.std.specs.Prelude.{List};
    ghost use Rattle.fault_text.specs.declared.refusals.RefusedBlock.{RefusedBlock};

    ghost Value = { List RefusedBlock };

    ghost view = { λ refusals. refusals.all.items };
}

impl Refusals {
    /// None.
    pub fn new(alloc: Global) -> Refusals
        ensures { result ≡ [] }
    {
        Refusals {
            all: Vec::new(alloc),
        }
    }

    /// Adds a block.
    pub fn add(&mut self, refusal: RefusedBlock) -> Result<(), AllocError>
        ensures { OnOk result (self.new ≡ self.old ++ refusal ∷ []) }
    {
        self.all.push(refusal)?;
        Ok(())
    }

    /// Whether there are none.
    #[tactic(auto, using(crate::proofs::Passing::none_refused))]
    pub fn is_empty(&self) -> bool
        ensures { result ≡ (length (flat_map refusal_line self.now) == 0) }
    {
        self.all.is_empty()
    }

    /// Those that are explained, and the others.
    pub fn parts(&self) -> (&[RefusedBlock], &[RefusedBlock])
        ensures explained { result.0.now ≡ take MOST_EXPLAINED self.now }
        ensures others { result.1.now ≡ drop MOST_EXPLAINED self.now }
    {
        first_of(&self.all, MOST_EXPLAINED)
    }

    /// Writes for each the line that says that the block is refused, and after it what is said of the block, unless enough were explained
    /// before it.
    #[tactic(auto, unfolding(crate::specs::Refusals::said_refusals))]
    pub fn write(&self, alloc: Global, output: &mut Text, input: &[u8]) -> Result<(), AllocError>
        ensures { OnOk result (output.new ≡ output.old ++ said_refusals input.now self.now) }
    {
        let (explained, others) = first_of(&self.all, MOST_EXPLAINED);
        write_explained(alloc, output, input, explained)?;
        write_unexplained(output, others)
    }

    /// Writes the same only as lines for people, which end once enough are explained.
    #[tactic(auto, unfolding(crate::specs::Refusals::noted_refusals))]
    pub fn write_notes(
        &self,
        alloc: Global,
        output: &mut Text,
        input: &[u8],
    ) -> Result<(), AllocError>
        ensures { OnOk result (output.new ≡ output.old ++ noted_refusals input.now self.now) }
    {
        let (explained, others) = first_of(&self.all, MOST_EXPLAINED);
        write_noted_all(alloc, output, input, explained)?;
        write_enough_if(output, others)
    }

    /// Writes for each block of a room of this name, of those that are explained, that it is refused.
    pub fn write_named(
        &self,
        output: &mut Text,
        input: &[u8],
        name: &[u8],
    ) -> Result<(), AllocError>
        ensures { OnOk result (output.new ≡ output.old ++ named_refusals input.now name.now self.now) }
    {
        let (explained, _) = first_of(&self.all, MOST_EXPLAINED);
        write_named_all(output, input, name, explained)
    }
}

fn write_named_all(
    output: &mut Text,
    input: &[u8],
    name: &[u8],
    refusals: &[RefusedBlock],
) -> Result<(), AllocError>
    ensures { OnOk result (output.new ≡ output.old ++ all_named input.now name.now refusals.now) }
{
    let mut rest = input;
    let mut passed = 0;
    for refusal in refusals {
        let lines = refusal.line.saturating_sub(1);
        rest = go_past(input, rest, passed, lines);
        passed = lines;
        write_named_if(output, name, rest, refusal.line)?;
    }
    Ok(())
}

/// Writes that the block with this first line is refused, if it says this name. With this text the block begins.
fn write_named_if(output: &mut Text, name: &[u8], text: &[u8], line: u64) -> Result<(), AllocError>
    ensures { OnOk result (output.new ≡ output.old ++ named_if name.now text.now line) }
{
    if name_in(text) != name {
        return Ok(());
    }
    write_named_line(output, name, line)
}

/// Writes that the block of this name with this first line is refused.
fn write_named_line(output: &mut Text, name: &[u8], line: u64) -> Result<(), AllocError>
    ensures { OnOk result (output.new ≡ output.old ++ named_line name.now line) }
{
    output.put_two(THE_BLOCK, name)?;
    output.put(IS_REFUSED)?;
    output.put_spaced_number(line)?;
    output.put(b"\n")
}

/// What a block's second line has after the word `room`, or nothing if that isn't its word. With this text the block begins.
fn name_in(text: &[u8]) -> &[u8]
    ensures { result.now ≡ name_in text.now }
{
    after_room(line_at(text, 2))
}

/// What a line has after the word `room`, or nothing if that isn't its word.
pub(crate) fn after_room(line: &[u8]) -> &[u8]
    ensures { result.now ≡ after_room line.now }
{
    if !line.starts_with(b"room ") {
        return &[];
    }
    let (_, name) = split_text(line, 5);
    name
}

/// The first blocks, of which there are at most this many, and those after them.
fn first_of(refusals: &[RefusedBlock], most: usize) -> (&[RefusedBlock], &[RefusedBlock])
    ensures first { result.0.now ≡ take most refusals.now }
    ensures others { result.1.now ≡ drop most refusals.now }
{
    if most < refusals.len() {
        (&refusals[..most], &refusals[most..])
    } else {
        (refusals, &[])
    }
}

/// Writes for each block the line that says that it is refused, and after it what is said of it.
fn write_explained(
    alloc: Global,
    output: &mut Text,
    input: &[u8],
    refusals: &[RefusedBlock],
) -> Result<(), AllocError>
    ensures { OnOk result (output.new ≡ output.old ++ all_said input.now refusals.now) }
{
    let mut rest = input;
    let mut passed = 0;
    for refusal in refusals {
        let lines = refusal.line.saturating_sub(1);
        rest = go_past(input, rest, passed, lines);
        passed = lines;
        write_refusal(alloc, output, rest, *refusal)?;
    }
    Ok(())
}

/// Writes the same only as lines for people.
fn write_noted_all(
    alloc: Global,
    output: &mut Text,
    input: &[u8],
    refusals: &[RefusedBlock],
) -> Result<(), AllocError>
    ensures { OnOk result (output.new ≡ output.old ++ all_noted input.now refusals.now) }
{
    let mut rest = input;
    let mut passed = 0;
    for refusal in refusals {
        let lines = refusal.line.saturating_sub(1);
        rest = go_past(input, rest, passed, lines);
        passed = lines;
        write_noted(alloc, output, rest, *refusal)?;
    }
    Ok(())
}

/// Writes that these blocks are not explained, if there are some, and for each the line that says that it is refused.
fn write_unexplained(output: &mut Text, refusals: &[RefusedBlock]) -> Result<(), AllocError>
    ensures { OnOk result (output.new ≡ output.old ++ (enough_if refusals.now ++ flat_map refusal_line refusals.now)) }
{
    write_enough_if(output, refusals)?;
    write_refusal_lines(output, refusals)
}

/// Writes for each block the line that says that it is refused.
fn write_refusal_lines(output: &mut Text, refusals: &[RefusedBlock]) -> Result<(), AllocError>
    ensures { OnOk result (output.new ≡ output.old ++ flat_map refusal_line refusals.now) }
{
    for refusal in refusals {
        write_refusal_line(output, *refusal)?;
    }
    Ok(())
}

/// Writes that no more is explained, if there are more.
fn write_enough_if(output: &mut Text, refusals: &[RefusedBlock]) -> Result<(), AllocError>
    ensures { OnOk result (output.new ≡ output.old ++ enough_if refusals.now) }
{
    if refusals.is_empty() {
        return Ok(());
    }
    output.put(ENOUGH)
}

/// Writes the notes on the refused block at the front of this text, only as lines for people.
pub fn write_noted(
    alloc: Global,
    output: &mut Text,
    text: &[u8],
    refusal: RefusedBlock,
) -> Result<(), AllocError>
    ensures { OnOk result (output.new ≡ output.old ++ noted_refusal text.now refusal) }
{
    output.put(b"    ")?;
    write_refusal(alloc, output, text, refusal)
}

impl Refuses for Refusals {
    ghost use Rattle.std.specs.List.{flat_map};
    ghost use Rattle.fault_text.specs.Refusals.{refusal_line};

    ghost lines = { λ refusals. flat_map refusal_line refusals };

    fn refuse(&mut self, line: u64, fault: BlockFault, _block: &[u8]) -> Result<(), AllocError> {
        self.add(RefusedBlock { line, fault })
    }
}

/// What comes after this many lines of an input, if `rest` comes after the first `passed`. These are not gone through again
/// unless they are more.
pub fn go_past<'a>(input: &'a [u8], rest: &'a [u8], passed: u64, lines: u64) -> &'a [u8]
    requires { rest.now ≡ lines_after passed input.now }
    ensures { result.now ≡ lines_after lines input.now }
{
    if lines < passed {
        lines_after(input, lines)
    } else {
        lines_after(rest, lines - passed)
    }
}

/// Writes the line of the refused block at the front of this text, and the notes on it.
fn write_refusal(
    alloc: Global,
    output: &mut Text,
    text: &[u8],
    refusal: RefusedBlock,
) -> Result<(), AllocError>
    ensures { OnOk result (output.new ≡ output.old ++ said_refusal text.now refusal) }
{
    write_refusal_line(output, refusal)?;
    write_why(alloc, output, refusal.line, text, refusal.fault)
}

/// Writes the line that says that a block is refused.
fn write_refusal_line(output: &mut Text, refusal: RefusedBlock) -> Result<(), AllocError>
    ensures { OnOk result (output.new ≡ output.old ++ refusal_line refusal) }
{
    match refusal.fault {
        BlockFault::Spec(fault) => write_refused(output, refusal.line, fault),
        BlockFault::NameTaken => {
            write_refused_code(output, refusal.line, AddFault::NameTaken.code())
        }
    }
}

/// Writes the notes on the fault of the block at the front of this text, whose first line has this number.
fn write_why(
    alloc: Global,
    output: &mut Text,
    first: u64,
    text: &[u8],
    fault: BlockFault,
) -> Result<(), AllocError>
    ensures { OnOk result (output.new ≡ output.old ++ why_said first text.now fault) }
{
    match fault {
        BlockFault::Spec(fault) => write_block_fault(alloc, output, first, text, fault),
        BlockFault::NameTaken => write_name_taken(alloc, output, first, text),
    }
}
