//! What the numbers mean by which messages and replies name faults.
#![tactic(auto)]

ghost use Rattle.std.specs.Prelude.{◌≡◌, option_map};
ghost use Rattle.fault_words.specs.Words.{words_of};

mod faults;
pub mod laws;

pub use faults::say_faults;
use history_checker::{AddFault, NoRoom};
use protocol_lang::ParseFault;
use room_files::TextFault;
use room_spec::SpecFault;
use service_core::Refusal;
use transcript::LineFault;

/// The sentence of the faults that have this number; `None` if no fault has it. A number after another in a message, as 3 in `13 3`, is
/// that of a protocol's text. It takes no memory.
pub fn fault_words(code: u16) -> Option<&'static str>
    ensures { option_map (λ words. words.now) result ≡ words_of code }
{
    match code {
        1 => Some(ParseFault::TooLong.sentence()),
        2 => Some(ParseFault::BadToken(0).sentence()),
        3 => Some(ParseFault::Unexpected(0).sentence()),
        4 => Some(ParseFault::TooDeep(0).sentence()),
        5 => Some(ParseFault::TooManyRules.sentence()),
        6 => Some(ParseFault::ViewInFirst(0).sentence()),
        7 => Some(ParseFault::NumberTooLarge(0).sentence()),
        8 => Some(ParseFault::OutOfMemory.sentence()),
        10 => Some(SpecFault::Truncated.sentence()),
        11 => Some(SpecFault::BadLine(0).sentence()),
        12 => Some(SpecFault::BadName.sentence()),
        13 => Some(SpecFault::BadProtocol(ParseFault::OutOfMemory).sentence()),
        14 => Some(SpecFault::Inputs.sentence()),
        15 => Some(SpecFault::Simulators.sentence()),
        16 => Some(SpecFault::Rounds.sentence()),
        17 => Some(SpecFault::Turns.sentence()),
        18 => Some(SpecFault::TooWide.sentence()),
        19 => Some(SpecFault::CrashLine(0).sentence()),
        20 => Some(SpecFault::Repeated(0).sentence()),
        21 => Some(SpecFault::TaskLine(0).sentence()),
        22 => Some(SpecFault::Processes.sentence()),
        30 => Some(LineFault::BadName.sentence()),
        31 => Some(LineFault::BadWord.sentence()),
        32 => Some(LineFault::BadNumber.sentence()),
        33 => Some(LineFault::BadLength.sentence()),
        34 => Some(LineFault::TooLong.sentence()),
        40 => Some(NoRoom.sentence()),
        41 => Some(AddFault::NameTaken.sentence()),
        42 => Some(Refusal::NoSimulator.sentence()),
        60 => Some(TextFault::NoCommand.sentence()),
        61 => Some(TextFault::NoEvents.sentence()),
        _ => None,
    }
}
