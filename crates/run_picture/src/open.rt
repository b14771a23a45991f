//! The proposals that may still be chosen, in the lane of the process whose snapshot or input they are.
ghost use Rattle.std.specs.Prelude.{◌≡◌, ◌++◌, IfOk, OnOk};
ghost use Rattle.simulator_lanes.specs.Panels.{events_in};
ghost use Rattle.run_picture.specs.Opens.{choice_words, chosen_words, open_label, open_proposals, open_shapes, open_words, owner_words, proposal_if, shapes_of};

use io_text::Text;
use picture_shapes::{Colour, Frame, Point, Sheet, write_decimal};
use run_columns::Agreement;
use simulator_lanes::{
    LEFT, Panel, SMALL, clipped, proposal_words, write_proposer, write_simulator,
};
use std::alloc::{AllocError, Global};

/// Writes which proposals may still be chosen for a process, in the agreement that it needs next, if some may.
pub(crate) fn add_open(
    sheet: &mut Sheet,
    y: u64,
    panel: &Panel,
    process: u8,
) -> Result<(), AllocError>
    ensures { OnOk result (sheet.new ≡ sheet.old ++ open_shapes y panel.now process) }
{
    let agreement = Agreement::next(process, panel.marks(), panel.events());
    let choice = agreement.choice(panel.marks());
    let proposals = open_proposals(sheet.alloc(), panel, agreement)?;
    add_open_words(sheet, y, agreement, choice, proposals.as_bytes())
}

fn add_open_words(
    sheet: &mut Sheet,
    y: u64,
    agreement: Agreement,
    choice: Option<u8>,
    proposals: &[u8],
) -> Result<(), AllocError>
    ensures { OnOk result (sheet.new ≡ sheet.old ++ shapes_of y agreement choice proposals.now) }
{
    if proposals.is_empty() {
        return Ok(());
    }
    let words = open_words(sheet.alloc(), agreement, choice, proposals)?;
    add_open_label(sheet, y, words.as_bytes())
}

#[tactic(auto, unfolding(crate::specs::Opens::open_label))]
fn add_open_label(sheet: &mut Sheet, y: u64, words: &[u8]) -> Result<(), AllocError>
    ensures { OnOk result (sheet.new ≡ sheet.old ++ open_label y words.now) }
{
    let shown = clipped(sheet.alloc(), 80, words)?;
    let start = Point { x: LEFT, y };
    let at = start.moved(0, 33);
    sheet.label(at, SMALL, Colour::Faint, shown.as_bytes())?;
    sheet.hint(Frame::at(start.moved(0, 24), 500, 12), words)
}

#[tactic(auto, unfolding(crate::specs::Opens::open_words))]
fn open_words(
    alloc: Global,
    agreement: Agreement,
    choice: Option<u8>,
    proposals: &[u8],
) -> Result<Text, AllocError>
    ensures { IfOk result (λ words. words ≡ open_words agreement choice proposals.now) }
{
    let mut words = Text::new(alloc);
    words.put(b"round ")?;
    write_decimal(&mut words, u64::from(agreement.round))?;
    words.put(b" is not resolved")?;
    write_choice(&mut words, choice)?;
    words.put(proposals)?;
    Ok(words)
}

/// Writes whose proposal is chosen for good, if one is.
fn write_choice(output: &mut Text, choice: Option<u8>) -> Result<(), AllocError>
    ensures { OnOk result (output.new ≡ output.old ++ choice_words choice) }
{
    match choice {
        None => Ok(()),
        Some(simulator) => write_chosen(output, simulator),
    }
}

#[tactic(auto, unfolding(crate::specs::Opens::chosen_words))]
fn write_chosen(output: &mut Text, simulator: u8) -> Result<(), AllocError>
    ensures { OnOk result (output.new ≡ output.old ++ chosen_words simulator) }
{
    output.put(b"; chosen: ")?;
    write_owner(output, simulator)
}

#[tactic(auto, unfolding(crate::specs::Opens::owner_words))]
fn write_owner(output: &mut Text, simulator: u8) -> Result<(), AllocError>
    ensures { OnOk result (output.new ≡ output.old ++ owner_words simulator) }
{
    write_simulator(output, simulator)?;
    output.put(b"'s, not readable")
}

#[tactic(auto, unfolding(crate::specs::Opens::open_proposals))]
fn open_proposals(alloc: Global, panel: &Panel, agreement: Agreement) -> Result<Text, AllocError>
    ensures { IfOk result (λ words. words ≡ open_proposals panel.now agreement) }
{
    let mut words = Text::new(alloc);
    for simulator in 0..panel.simulators() {
        write_if_open(alloc, &mut words, panel, agreement, simulator)?;
    }
    Ok(words)
}

#[tactic(auto, unfolding(crate::specs::Opens::proposal_if))]
fn write_if_open(
    alloc: Global,
    output: &mut Text,
    panel: &Panel,
    agreement: Agreement,
    simulator: u8,
) -> Result<(), AllocError>
    ensures { OnOk result (output.new ≡ output.old ++ proposal_if panel.now agreement simulator) }
{
    if !agreement.is_open(simulator, panel.marks(), panel.events()) {
        return Ok(());
    }
    let words = proposal_words(alloc, panel, agreement, simulator)?;
    output.put(b"; ")?;
    write_proposer(output, simulator)?;
    output.put(words.as_bytes())
}
