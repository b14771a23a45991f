//! What the letters stand for.
ghost use Rattle.std.specs.Prelude.{◌≡◌, ◌++◌, ◌*◌, ◌+◌, ◌≤◌, [], IfOk, OnOk, codes, length, if◌then◌else◌};
ghost use Rattle.std.specs.List.{list_any};
ghost use Rattle.run_columns.specs.declared.mark.StepKind.TheVariants.{Propose};
ghost use Rattle.run_picture.specs.Legends.{kinds_in, both_note, dropped_note, has_inputs, has_letter, has_letters, has_word, has_words, inputs_note, legend_entry, legend_from, legend_shapes, note, notes, proposals_note, proposals_notes, shows_input, shows_kind, snapshots_note, words_note};

use crate::picture::Style;
use picture_shapes::{Colour, Point, Sheet};
use run_columns::{MAX_COLUMNS, Mark, StepKind};
use simulator_lanes::{LEGEND, MARGIN, Panel, WORDS};
use std::alloc::{AllocError, Global};

/// Writes what there is to explain in the pictures of these rooms.
pub(crate) fn add_legend(
    sheet: &mut Sheet,
    style: Style,
    panels: &[Panel],
) -> Result<(), AllocError>
    ensures { OnOk result (sheet.new ≡ sheet.old ++ legend_shapes style panels.now) }
{
    let kinds = kinds_in(sheet.alloc(), style, panels)?;
    add_entries(sheet, &kinds)?;
    add_notes(sheet, style, panels)
}

/// The letters that are in the pictures of these rooms.
fn kinds_in(alloc: Global, style: Style, panels: &[Panel]) -> Result<Vec<StepKind>, AllocError>
    ensures value { IfOk result (λ kinds. kinds.items ≡ kinds_in style panels.now) }
    ensures few { IfOk result (λ kinds. length kinds.items ≤ 12) }
{
    let mut kinds = Vec::new(alloc);
    for kind in &StepKind::all() {
        if is_in(style, *kind, panels) {
            kinds.push(*kind)?;
        }
    }
    Ok(kinds)
}

fn is_in(style: Style, kind: StepKind, panels: &[Panel]) -> bool
    ensures { result ≡ list_any (has_letter style kind) panels.now }
{
    panels.iter().any(|panel| has_letter(style, kind, panel))
}

/// Whether a letter is in the picture of a room.
fn has_letter(style: Style, kind: StepKind, panel: &Panel) -> bool
    ensures { result ≡ has_letter style kind panel.now }
{
    has_letters(style, panel) && is_among(kind, panel.marks())
}

/// Whether there are letters in the picture of a room: if each column is a step.
fn has_letters(style: Style, panel: &Panel) -> bool
    ensures { result ≡ has_letters style panel.now }
{
    !style.by_turns && panel.marks().len() <= MAX_COLUMNS
}

fn is_among(kind: StepKind, marks: &[Mark]) -> bool
    ensures { result ≡ list_any (shows_kind kind) marks.now }
{
    marks.iter().any(|mark| shows_kind(kind, *mark))
}

fn shows_kind(kind: StepKind, mark: Mark) -> bool
    ensures { result ≡ shows_kind kind mark }
{
    match mark {
        Mark::Step(step) => step.kind.is_same(kind),
        Mark::Crash { .. } => false,
    }
}

/// Writes what each of these letters stands for, four in a row.
fn add_entries(sheet: &mut Sheet, kinds: &[StepKind]) -> Result<(), AllocError>
    requires { length kinds.now ≤ 12 }
    ensures { OnOk result (sheet.new ≡ sheet.old ++ legend_from 0 kinds.now) }
{
    let mut index = 0;
    for kind in kinds {
        add_entry(sheet, index, *kind)?;
        index += 1;
    }
    Ok(())
}

#[tactic(auto, unfolding(crate::specs::Legends::legend_entry))]
fn add_entry(sheet: &mut Sheet, index: u64, kind: StepKind) -> Result<(), AllocError>
    requires { index ≤ 12 }
    ensures { OnOk result (sheet.new ≡ sheet.old ++ legend_entry index kind) }
{
    let at = Point {
        x: MARGIN + 150 * (index % 4),
        y: 16 + 18 * (index / 4),
    };
    sheet.label(at, LEGEND, Colour::Faint, kind.letter())?;
    let after = Point {
        x: at.x + 16,
        y: at.y,
    };
    sheet.label(after, WORDS, Colour::Faint, kind.meaning())
}

/// Explains proposals and the numbers of words, if there are some.
fn add_notes(sheet: &mut Sheet, style: Style, panels: &[Panel]) -> Result<(), AllocError>
    ensures { OnOk result (sheet.new ≡ sheet.old ++ notes style panels.now) }
{
    add_proposals_notes(
        sheet,
        is_in(style, StepKind::Propose, panels),
        have_inputs(style, panels),
    )?;
    add_words_note(sheet, have_words(style, panels))
}

/// Explains proposals, if there are some: those of snapshots, and of inputs.
fn add_proposals_notes(sheet: &mut Sheet, snapshots: bool, inputs: bool) -> Result<(), AllocError>
    ensures { OnOk result (sheet.new ≡ sheet.old ++ proposals_notes snapshots inputs) }
{
    match (snapshots, inputs) {
        (false, false) => Ok(()),
        _ => add_two_notes(sheet, proposals_note(snapshots, inputs)),
    }
}

/// Says what is below the squares, and which of it is struck through.
fn add_two_notes(sheet: &mut Sheet, below: &[u8]) -> Result<(), AllocError>
    ensures { OnOk result (sheet.new ≡ sheet.old ++ (note 72 below.now ++ note 88 dropped_note)) }
{
    add_note(sheet, 72, below)?;
    add_note(sheet, 88, dropped_note())
}

fn dropped_note() -> &'static [u8]
    ensures { result.now ≡ dropped_note }
{
    b"struck through: withdrawn, or another was chosen"
}

/// What is below the squares.
fn proposals_note(snapshots: bool, inputs: bool) -> &'static [u8]
    ensures { result.now ≡ proposals_note snapshots inputs }
{
    match (snapshots, inputs) {
        (true, true) => both_note(),
        (true, false) => snapshots_note(),
        (false, _) => inputs_note(),
    }
}

fn both_note() -> &'static [u8]
    ensures { result.now ≡ both_note }
{
    b"proposed below V: how many writes of each process; below W: an input; framed: chosen"
}

fn snapshots_note() -> &'static [u8]
    ensures { result.now ≡ snapshots_note }
{
    b"below V: how many writes of each process it proposes; framed: chosen"
}

fn inputs_note() -> &'static [u8]
    ensures { result.now ≡ inputs_note }
{
    b"below W in round 0: the input that it proposes; framed: chosen"
}

fn add_words_note(sheet: &mut Sheet, is_wanted: bool) -> Result<(), AllocError>
    ensures { OnOk result (sheet.new ≡ sheet.old ++ (if is_wanted then note 104 words_note else [])) }
{
    if !is_wanted {
        return Ok(());
    }
    let words = b"S0, V1, ..: the number of the word, of several that a snapshot takes";
    add_note(sheet, 104, words)
}

#[tactic(auto, unfolding(crate::specs::Legends::note))]
fn add_note(sheet: &mut Sheet, y: u64, words: &[u8]) -> Result<(), AllocError>
    ensures { OnOk result (sheet.new ≡ sheet.old ++ note y words.now) }
{
    let at = Point { x: MARGIN, y };
    sheet.label(at, WORDS, Colour::Faint, words)
}

/// Whether a letter in the pictures of these rooms has the number of a word.
fn have_words(style: Style, panels: &[Panel]) -> bool
    ensures { result ≡ list_any (has_words style) panels.now }
{
    panels.iter().any(|panel| has_words(style, panel))
}

fn has_words(style: Style, panel: &Panel) -> bool
    ensures { result ≡ has_words style panel.now }
{
    has_letters(style, panel) && has_word_among(panel.marks())
}

fn has_word_among(marks: &[Mark]) -> bool
    ensures { result ≡ list_any has_word marks.now }
{
    marks.iter().any(|mark| has_word(*mark))
}

fn has_word(mark: Mark) -> bool
    ensures { result ≡ has_word mark }
{
    match mark {
        Mark::Step(step) => step.word.is_some(),
        Mark::Crash { .. } => false,
    }
}

/// Whether inputs are proposed in the pictures of these rooms.
fn have_inputs(style: Style, panels: &[Panel]) -> bool
    ensures { result ≡ list_any (has_inputs style) panels.now }
{
    panels.iter().any(|panel| has_inputs(style, panel))
}

fn has_inputs(style: Style, panel: &Panel) -> bool
    ensures { result ≡ has_inputs style panel.now }
{
    has_letters(style, panel) && has_input_among(panel.marks())
}

fn has_input_among(marks: &[Mark]) -> bool
    ensures { result ≡ list_any shows_input marks.now }
{
    marks.iter().any(|mark| shows_input(*mark))
}

/// Whether this is a step that proposes an input.
fn shows_input(mark: Mark) -> bool
    ensures { result ≡ shows_input mark }
{
    match mark {
        Mark::Step(step) => step.proposes_input(),
        Mark::Crash { .. } => false,
    }
}
