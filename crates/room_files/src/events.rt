//! Events fed to their rooms.
ghost use Rattle.std.specs.Prelude.{◌≡◌, ◌+◌, ◌<◌, ◌^◌, ◌++◌, ◌∷◌, [], List, Ok, IfErr, OnOk, length};
ghost use Rattle.transcript.specs.Lines.{line_in};
ghost use Rattle.history_checker.specs.Verdicts.{FedEvent};
ghost use Rattle.room_files.specs.Lines.{text_lines};
ghost use Rattle.room_files.specs.Blocks.{IsFaultOr};
ghost use Rattle.room_files.specs.Inputs.{of_known_room, fed_from};

use crate::fault::{InputFault, TextFault, bad_input};
use crate::lines::next_line;
use history_checker::Rooms;
use transcript::EventLine;

/// Rooms that take the events of a transcript one by one.
pub trait TakesEvents: Drop {
    ghost use Rattle.std.specs.Prelude.{◌≡◌, ◌++◌, ◌∷◌, [], ℕ, List, Ok, IfErr, OnOk};
    ghost use Rattle.room_spec.specs.Rooms.{RoomSpec};
    ghost use Rattle.transcript.specs.Lines.{line_said};
    ghost use Rattle.history_checker.specs.Verdicts.{FedEvent};
    ghost use Rattle.room_files.specs.Blocks.{IsFaultOr};
    ghost use Rattle.room_files.specs.Inputs.{of_known_room};

    // The specs of the rooms, in order.
    ghost specs: { Self → List RoomSpec };

    // These events, and no others, were taken so far.
    ghost has_taken: { Self → List FedEvent → Type 0 };

    // Whether an event of one of these rooms takes memory.
    ghost takes_memory: { List RoomSpec → Type 0 };

    /// Takes the event of a transcript's line, which has this number.
    fn take(&mut self, line: &EventLine<'_>, number: u64) -> Result<(), InputFault>
        ensures taken { OnOk result ((one : FedEvent) × (of_known_room (specs self.old) number (line_said line.now) ≡ Ok one) ×
            ((fed : List FedEvent) → has_taken self.old fed → has_taken self.new (fed ++ one ∷ []))) }
        ensures rooms { OnOk result (specs self.new ≡ specs self.old) }
        ensures err { IfErr result (IsFaultOr (takes_memory (specs self.old)) (of_known_room (specs self.old) number (line_said line.now))) };
}

impl TakesEvents for Rooms {
    ghost use Rattle.history_checker.specs.Verdicts.{HasProcessed, specs_of};

    ghost specs = { specs_of };

    ghost has_taken = { HasProcessed };

    ghost takes_memory = { λ _. ⊥ };

    fn take(&mut self, line: &EventLine<'_>, number: u64) -> Result<(), InputFault> {
        match self.feed_line(line, number) {
            Ok(()) => Ok(()),
            Err(fault) => Err(bad_input(number, TextFault::from(fault))),
        }
    }
}

/// Feeds the rooms the events of a transcript, whose first line has this number.
pub fn feed_events<R: TakesEvents>(
    rooms: &mut R,
    first_line: u64,
    transcript: &[u8],
) -> Result<(), InputFault>
    requires none { R.has_taken rooms.old [] }
    requires fits { first_line + length transcript.now < 2 ^ 64 }
    ensures fed { OnOk result ((fed : List FedEvent) ×
        (fed_from (R.specs rooms.old) [] first_line (text_lines transcript.now) ≡ Ok fed) × R.has_taken rooms.new fed) }
    ensures rooms { OnOk result (R.specs rooms.new ≡ R.specs rooms.old) }
    ensures err { IfErr result (IsFaultOr (R.takes_memory (R.specs rooms.old)) (fed_from (R.specs rooms.old) [] first_line (text_lines transcript.now))) }
{
    let mut rest = transcript;
    let mut line = first_line;
    while let Some((text, later)) = next_line(rest) {
        feed_line(rooms, line, text)?;
        line += 1;
        rest = later;
    }
    Ok(())
}

fn feed_line<R: TakesEvents>(rooms: &mut R, line: u64, text: &[u8]) -> Result<(), InputFault>
    ensures fed { OnOk result ((one : FedEvent) × (of_known_room (R.specs rooms.old) line (line_in text.now) ≡ Ok one) ×
        ((fed : List FedEvent) → R.has_taken rooms.old fed → R.has_taken rooms.new (fed ++ one ∷ []))) }
    ensures rooms { OnOk result (R.specs rooms.new ≡ R.specs rooms.old) }
    ensures err { IfErr result (IsFaultOr (R.takes_memory (R.specs rooms.old)) (of_known_room (R.specs rooms.old) line (line_in text.now))) }
{
    match EventLine::split(text) {
        Ok(parts) => rooms.take(&parts, line),
        Err(fault) => Err(bad_input(line, TextFault::BadEvent(fault))),
    }
}
