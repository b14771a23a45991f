//! Where a fault is: the number of its line, the byte in that line, and its sentence.
ghost use Rattle.std.specs.Prelude.{◌≡◌, map};
ghost use Rattle.fault_text.specs.Spots.{block_spot, form_spot, line_spot, program_spot, refusal_spot};

use crate::blocks::{first_form, later_forms, later_line, line_ends, line_of, program_of};
use crate::lines::{line_at, split_text};
use crate::phrases::place_in;
use crate::places::last_line;
use protocol_lang::ParseFault;
use room_files::BlockFault;
use room_spec::SpecFault;
use std::marker::Model;

/// Where a fault is, and what it is.
#[derive(Drop)]
pub struct Spot {
    /// The number of the line, counted from 1.
    pub line: u64,
    /// The byte of that line, counted from 1, if the fault has a place in it.
    pub place: Option<usize>,
    /// The fault's sentence.
    pub what: &'static str,
}

impl Model for Spot {
    ghost use Rattle.fault_text.specs.Spots.{SpotParts};

    ghost Value = { SpotParts };

    ghost view = { λ spot. record { line = spot.line; place = spot.place; what = spot.what.now } };
}

impl Spot {
    /// The place of a line that has one of these forms, or should.
    pub fn of_form(number: u64, what: &'static str, line: &[u8], forms: &[&[u8]]) -> Spot
        ensures { result ≡ form_spot number what.now line.now (map (λ form. form.now) forms.now) }
    {
        Spot {
            line: number,
            place: Some(place_in(line, forms) + 1),
            what,
        }
    }

    /// The place of a block's fault. With this text the block begins; its first line has the number `first`.
    pub fn of_refusal(first: u64, text: &[u8], fault: BlockFault) -> Spot
        ensures { result ≡ refusal_spot first text.now fault }
    {
        match fault {
            BlockFault::Spec(fault) => Spot::of_block(first, text, fault),
            BlockFault::NameTaken => Spot::of_line(first, text, 2, fault),
        }
    }

    /// The place of a block's fault, which is not that its name is taken.
    pub fn of_block(first: u64, text: &[u8], fault: SpecFault) -> Spot
        ensures { result ≡ block_spot first text.now fault }
    {
        match fault {
            SpecFault::BadProtocol(fault) => Spot::of_program(first, text, fault),
            _ => Spot::of_line(first, text, line_of(fault), BlockFault::Spec(fault)),
        }
    }

    /// The place in a block's line.
    fn of_line(first: u64, text: &[u8], line: usize, fault: BlockFault) -> Spot
        ensures { result ≡ line_spot first text.now line fault }
    {
        let number = later_line(first, line.saturating_sub(1) as u64);
        let bytes = line_at(text, line as u64);
        let what = fault.sentence();
        if line <= 6 {
            Spot::of_form(number, what, bytes, &[first_form(text, line)])
        } else {
            Spot::of_form(number, what, bytes, later_forms(text, line))
        }
    }

    /// The place in a block's protocol.
    fn of_program(first: u64, text: &[u8], fault: ParseFault) -> Spot
        ensures { result ≡ program_spot first text.now fault }
    {
        let what = fault.sentence();
        let (lines, program) = program_of(text);
        let Some(place) = fault.place() else {
            return Spot {
                line: later_line(first, lines),
                place: None,
                what,
            };
        };
        let (before, _) = split_text(program, place);
        Spot {
            line: later_line(first, lines + line_ends(before)),
            place: Some(last_line(before).len() + 1),
            what,
        }
    }
}
