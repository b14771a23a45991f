//! The proposals of the simulators, each under the step that completes it.
ghost use Rattle.std.specs.Prelude.{◌≡◌, ◌++◌, ◌+◌, ◌*◌, ◌≤◌, IfOk, OnOk, length};
ghost use Rattle.run_columns.specs.Proposals.{fate_of, word_number};
ghost use Rattle.simulator_lanes.specs.Panels.{events_in, words_in};
ghost use Rattle.simulator_lanes.specs.Proposals.{proposer, agreement_of, all_proposals, completes, counts_of, fate_font, fate_outline, fate_words, input_of, proposal_at, proposal_box, proposal_hint, proposal_in, proposal_width, proposal_with, proposal_words, proposals, short_words};

use crate::fonts::{DROPPED, PROPOSAL};
use crate::layout::Grid;
use crate::panel::Panel;
use crate::words::{clipped, write_process_round, write_simulator};
use io_text::Text;
use picture_shapes::{Colour, Font, Frame, Point, Sheet, Stroke};
use run_columns::{Agreement, Column, Fate, Mark, Scale, Step, StepKind};
use std::alloc::{AllocError, Global};
use step_words::write_counts;

/// A proposal as it is drawn.
#[derive(Clone, Copy)]
struct Proposal<'a> {
    /// The step that completes it.
    step: &'a Step,
    /// What it proposes: an input, or how many writes of each process the snapshot shows.
    words: &'a [u8],
    fate: Fate,
}

/// Draws the proposals, each under the step that completes it, if each column is one step; else nothing.
///
/// # Errors
///
/// An allocation that fails.
pub fn add_proposals(
    sheet: &mut Sheet,
    grid: Grid,
    panel: &Panel,
    columns: &[Column],
) -> Result<(), AllocError>
    ensures { OnOk result (sheet.new ≡ sheet.old ++ proposals grid panel.now columns.now) }
{
    match grid.scale {
        Scale::Steps => add_all_proposals(sheet, grid, panel, columns),
        Scale::Turns | Scale::Simulators => Ok(()),
    }
}

#[tactic(auto, unfolding(crate::specs::Proposals::all_proposals))]
fn add_all_proposals(
    sheet: &mut Sheet,
    grid: Grid,
    panel: &Panel,
    columns: &[Column],
) -> Result<(), AllocError>
    ensures { OnOk result (sheet.new ≡ sheet.old ++ all_proposals grid panel.now columns.now) }
{
    for column in columns {
        add_proposal_in(sheet, grid, panel, column)?;
    }
    Ok(())
}

/// Draws the proposal that the step of a column completes, if it completes one.
fn add_proposal_in(
    sheet: &mut Sheet,
    grid: Grid,
    panel: &Panel,
    column: &Column,
) -> Result<(), AllocError>
    ensures { OnOk result (sheet.new ≡ sheet.old ++ proposal_in grid panel.now column.now) }
{
    let corner = grid.cell(column.first.simulator(), column.place);
    match column.first {
        Mark::Step(step) => {
            if completes(panel.words(), &step) {
                add_proposal_at(sheet, panel, corner, &step)
            } else {
                Ok(())
            }
        }
        Mark::Crash { .. } => Ok(()),
    }
}

/// Whether a step stores an input that it proposes, or the last word of a snapshot, in a room with this many memory words.
fn completes(words: usize, step: &Step) -> bool
    requires { words ≤ 4 }
    ensures { result ≡ completes words step.now }
{
    step.proposes_input()
        || (step.kind.is_same(StepKind::Propose) && word_number(step) + 1 == words)
}

fn word_number(step: &Step) -> usize
    ensures value { result ≡ word_number step.now.word }
    ensures range { result ≤ 255 }
{
    match step.word {
        None => 0,
        Some(word) => usize::from(word),
    }
}

#[tactic(auto, unfolding(crate::specs::Proposals::proposal_at))]
fn add_proposal_at(
    sheet: &mut Sheet,
    panel: &Panel,
    corner: Point,
    step: &Step,
) -> Result<(), AllocError>
    ensures { OnOk result (sheet.new ≡ sheet.old ++ proposal_at panel.now corner step.now) }
{
    let agreement = Agreement {
        process: step.process,
        round: step.round,
    };
    let words = proposal_words(sheet.alloc(), panel, agreement, step.simulator)?;
    let proposal = Proposal {
        step,
        words: words.as_bytes(),
        fate: agreement.fate(step.simulator, panel.marks(), panel.events()),
    };
    add_proposal_with(sheet, corner, &proposal)
}

/// The proposal of a simulator in an agreement, in the words of `trace`: in round 0 an input, and in a later one for each process how many writes of it the snapshot shows.
///
/// # Errors
///
/// An allocation that fails.
#[tactic(auto, unfolding(crate::specs::Proposals::proposal_words))]
pub fn proposal_words(
    alloc: Global,
    panel: &Panel,
    agreement: Agreement,
    simulator: u8,
) -> Result<Text, AllocError>
    ensures { IfOk result (λ words. words ≡ proposal_words panel.now agreement simulator) }
{
    if agreement.round == 0 {
        input_of(alloc, panel, agreement, simulator)
    } else {
        counts_of(alloc, panel, agreement, simulator)
    }
}

fn input_of(
    alloc: Global,
    panel: &Panel,
    agreement: Agreement,
    simulator: u8,
) -> Result<Text, AllocError>
    ensures { IfOk result (λ words. words ≡ input_of panel.now agreement simulator) }
{
    let mut words = Text::new(alloc);
    words.put_spaced_number(agreement.proposed_input(simulator, panel.marks()))?;
    Ok(words)
}

fn counts_of(
    alloc: Global,
    panel: &Panel,
    agreement: Agreement,
    simulator: u8,
) -> Result<Text, AllocError>
    ensures { IfOk result (λ words. words ≡ counts_of panel.now agreement simulator) }
{
    let spec = &panel.head().spec;
    let _words = spec.shape().memory_words(); // for the proof: at most four
    let mut words = Text::new(alloc);
    write_counts(
        &mut words,
        spec,
        &agreement.proposal(simulator, panel.marks()),
    )?;
    Ok(words)
}

fn add_proposal_with(
    sheet: &mut Sheet,
    corner: Point,
    proposal: &Proposal<'_>,
) -> Result<(), AllocError>
    ensures { OnOk result (sheet.new ≡ sheet.old ++ proposal_with corner proposal.now.step.now proposal.now.words.now proposal.now.fate) }
{
    let short = short_words(sheet.alloc(), proposal.words)?;
    let hint = proposal_hint(sheet.alloc(), proposal)?;
    add_proposal_box(sheet, corner, proposal, short.as_bytes(), hint.as_bytes())
}

#[tactic(auto, unfolding(crate::specs::Proposals::short_words))]
fn short_words(alloc: Global, words: &[u8]) -> Result<Text, AllocError>
    ensures { IfOk result (λ short. short ≡ short_words words.now) }
{
    clipped(alloc, 10, &words[words.len().min(1)..])
}

#[tactic(auto, unfolding(crate::specs::Proposals::proposal_box))]
fn add_proposal_box(
    sheet: &mut Sheet,
    corner: Point,
    proposal: &Proposal<'_>,
    words: &[u8],
    hint: &[u8],
) -> Result<(), AllocError>
    ensures { OnOk result (sheet.new ≡ sheet.old ++ proposal_box corner proposal.now.step.now.process words.now hint.now proposal.now.fate) }
{
    let (process, fate) = (proposal.step.process, proposal.fate);
    let frame = Frame::at(corner.moved(0, 47), proposal_width(words), 11);
    let outline = Stroke::solid(fate_outline(fate, process));
    sheet.area(frame, 2, Colour::White, outline)?;
    let at = corner.moved(3, 55);
    sheet.label(at, fate_font(fate), Colour::Hue(process), words)?;
    sheet.hint(frame, hint)
}

fn proposal_width(words: &[u8]) -> u64
    ensures { result ≡ proposal_width words.now }
{
    6 * words.len().min(100) as u64 + 4
}

/// A proposal that was chosen is framed.
fn fate_outline(fate: Fate, process: u8) -> Colour
    ensures { result ≡ fate_outline fate process }
{
    match fate {
        Fate::Open | Fate::Dropped => Colour::Clear,
        Fate::Chosen => Colour::Hue(process),
    }
}

/// One that can't be chosen is struck through.
fn fate_font(fate: Fate) -> Font
    ensures { result ≡ fate_font fate }
{
    match fate {
        Fate::Open | Fate::Chosen => PROPOSAL,
        Fate::Dropped => DROPPED,
    }
}

#[tactic(auto, unfolding(crate::specs::Proposals::proposal_hint))]
fn proposal_hint(alloc: Global, proposal: &Proposal<'_>) -> Result<Text, AllocError>
    ensures { IfOk result (λ words. words ≡ proposal_hint (agreement_of proposal.now.step.now) proposal.now.step.now.simulator proposal.now.words.now proposal.now.fate) }
{
    let step = proposal.step;
    let mut words = Text::new(alloc);
    write_proposer(&mut words, step.simulator)?;
    words.put(proposal.words)?;
    words.put(b" for ")?;
    write_process_round(&mut words, step.process, step.round)?;
    words.put(fate_words(proposal.fate))?;
    Ok(words)
}

/// Says who proposed.
///
/// # Errors
///
/// An allocation that fails.
#[tactic(auto, unfolding(crate::specs::Proposals::proposer))]
pub fn write_proposer(output: &mut Text, simulator: u8) -> Result<(), AllocError>
    ensures { OnOk result (output.new ≡ output.old ++ proposer simulator) }
{
    write_simulator(output, simulator)?;
    output.put(b" proposed")
}

#[tactic(auto, unfolding(crate::specs::Proposals::fate_words))]
fn fate_words(fate: Fate) -> &'static [u8]
    ensures { result.now ≡ fate_words fate }
{
    match fate {
        Fate::Open => b", not resolved",
        Fate::Chosen => b", chosen",
        Fate::Dropped => b", not chosen",
    }
}
