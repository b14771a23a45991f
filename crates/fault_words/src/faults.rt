//! Faults in words, by the numbers that reports name them by.
ghost use Rattle.std.specs.Prelude.{◌≡◌, ◌++◌, IfOk, OnOk, is_some, map, option_map};
ghost use Rattle.std.specs.List.{flat_map};
ghost use Rattle.fault_words.specs.Words.{words_of};
ghost use Rattle.fault_words.specs.Faults.{fault_line, faults_outcome, said_by};

use crate::fault_words;
use io_text::Text;
use protocol_lang::read_number;
use room_files::{Answer, outcome_if};
use std::alloc::{AllocError, Global};

/// What is said of a number that no fault has.
const NO_FAULT: &str = "no fault has this number";

/// Says in words, a line each, the faults that these texts are the numbers of. All is well if each text is the number of a fault.
///
/// # Errors
///
/// An allocation that failed.
pub fn say_faults(alloc: Global, texts: &[&str]) -> Result<Answer, AllocError>
    ensures output { IfOk result (λ answer. answer.output ≡ flat_map fault_line (map (λ text. text.now) texts.now)) }
    ensures outcome { IfOk result (λ answer. answer.outcome ≡ faults_outcome (map (λ text. text.now) texts.now)) }
{
    let mut output = Text::new(alloc);
    let mut all_known = true;
    for text in texts {
        all_known &= write_fault(&mut output, text.as_bytes())?;
    }
    Ok(Answer {
        output,
        outcome: outcome_if(all_known),
    })
}

/// Writes the line of the fault that a text is the number of. Gives whether it is one.
fn write_fault(output: &mut Text, text: &[u8]) -> Result<bool, AllocError>
    ensures line { OnOk result (output.new ≡ output.old ++ fault_line text.now) }
    ensures known { IfOk result (λ known. known ≡ is_some (said_by text.now)) }
{
    let words = words_for(text);
    output.put(text)?;
    output.put(b": ")?;
    output.put(words.unwrap_or(NO_FAULT).as_bytes())?;
    output.put(b"\n")?;
    Ok(words.is_some())
}

/// What the fault says that a text is the number of.
fn words_for(text: &[u8]) -> Option<&'static str>
    ensures { option_map (λ words. words.now) result ≡ said_by text.now }
{
    words_by(read_number(text)?)
}

/// What the fault of this number says.
fn words_by(number: u64) -> Option<&'static str>
    ensures { option_map (λ words. words.now) result ≡ words_of number }
{
    match u16::try_from(number) {
        Ok(code) => fault_words(code),
        Err(_) => None,
    }
}
