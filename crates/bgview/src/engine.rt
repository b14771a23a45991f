//! Reads inputs, and writes the answers to them.
ghost use Rattle.std.specs.Prelude.{◌≡◌, ◌+◌, ◌≤◌, ◌||◌, ◌∷◌, [], All, List, ℕ, false, length, map, IfOk, IfSome};
ghost use Rattle.std.specs.Io.KnownBytes.{Appends};
ghost use Rattle.io_text.specs.Devices.{HasRead, HasWritten, failed_writes};
ghost use Rattle.io_text.specs.Reading.{most_bytes};
ghost use Rattle.bgview.specs.Answers.{IsLiveAnswer, IsWholeAnswer};
ghost use Rattle.bgview.specs.Ends.{is_read_failed, is_write_failed};
ghost use Rattle.bgview.specs.Faults.{AreFaultsSaid};
ghost use Rattle.bgview.specs.Notes.{AreBothNotes, AreNotesOn};
ghost use Rattle.bgview.specs.Pages.{IsPageAnswer};
ghost use Rattle.bgview.specs.Sums.{IsSummed};
ghost use Rattle.view_sum.specs.Words.{refusal_text};

use crate::fault::{ViewFault, written};
use crate::request::Request;
use crate::showing::show;
use crate::system::{Aside, System};
use fault_words::say_faults;
use io_text::{Device, DeviceFault, Text, read_input, write_output};
use live_script::serve;
use room_files::Outcome;
use run_search::Progress;
use std::alloc::{AllocError, Global};
use std::io::{Read, Write};
use std::thread::Threads;
use view_page::{faults_of_both, page_of_both};
use view_sum::{BadPart, SumFault, SumForm, sum_samples, write_refusal};

/// Answers the input that the reader gives as is requested. The whole input is read and judged before anything is written. What is said of
/// its faults, or of a goal that is not valid, becomes the notes of `aside`.
///
/// # Errors
///
/// A device that failed; an input that is too long; the input's first fault, or an option's; or an allocation that failed. If that was for a
/// block or a command of a script, the script goes on to its end; if it was for a room's sample, what there is memory for is written.
pub fn answer_io<H: Threads + Sync, I, R: Read, W: Write, P: Progress>(
    system: &System<'_, H, I>,
    reader: &mut Device<R>,
    writer: &mut Device<W>,
    request: &Request<'_>,
    aside: &mut Aside<P>,
) -> Result<Outcome, ViewFault>
    requires reader { reader.old.failed ≡ false }
    requires writer { writer.old.failed ≡ false }
    // What is written is the answer to what was read, and the outcome goes with it. No write is of nothing.
    ensures text { IfSome (R.remaining reader.old.inner) (λ input. (output : List ℕ) × IsWholeAnswer request.now input result output
        × Appends (W.contents writer.old.inner) (W.contents writer.new.inner) output
        × (writer.new.calls ≤ writer.old.calls + length output + failed_writes (is_write_failed result))) }
    ensures reader { HasRead reader.old reader.new (R.remaining reader.old.inner) (is_read_failed result) }
    ensures writer { HasWritten writer.old writer.new result (is_write_failed result) }
    ensures notes { IfSome (R.remaining reader.old.inner) (λ input. AreNotesOn request.now input result aside.old.notes aside.new.notes) }
{
    let input = read_input(system.alloc, reader)?;
    write_answer(system, &input, writer, request, aside)
}

/// Answers an input as is requested.
fn write_answer<H: Threads + Sync, I, W: Write, P: Progress>(
    system: &System<'_, H, I>,
    input: &[u8],
    writer: &mut Device<W>,
    request: &Request<'_>,
    aside: &mut Aside<P>,
) -> Result<Outcome, ViewFault>
    requires input { length input.now ≤ most_bytes }
    requires writer { writer.old.failed ≡ false }
    ensures text { (output : List ℕ) × IsWholeAnswer request.now input.now result output
        × Appends (W.contents writer.old.inner) (W.contents writer.new.inner) output
        × (writer.new.calls ≤ writer.old.calls + length output + failed_writes (is_write_failed result)) }
    ensures read { is_read_failed result ≡ false }
    ensures writer { HasWritten writer.old writer.new result (is_write_failed result) }
    ensures notes { AreNotesOn request.now input.now result aside.old.notes aside.new.notes }
{
    let shown = show(system, request, input, aside)?;
    write_output(writer, shown.output.as_bytes())?;
    written(shown.ending)
}

/// Plays the script that the reader gives as it is written.
///
/// # Errors
///
/// A device that failed; a line or a block that is too long; or an allocation that failed. If that was for a block or a command, the script
/// goes on to its end.
pub fn live_io<R: Read, W: Write>(
    alloc: Global,
    reader: &mut Device<R>,
    writer: &mut Device<W>,
) -> Result<Outcome, ViewFault>
    requires reader { reader.old.failed ≡ false }
    requires writer { writer.old.failed ≡ false }
    ensures { IfSome (R.remaining reader.old.inner) (λ input. (output : List ℕ) × IsLiveAnswer input result output
        × Appends (W.contents writer.old.inner) (W.contents writer.new.inner) output) }
{
    let ending = serve(alloc, reader, writer)?;
    written(ending)
}

/// Samples that were read, and the names that the words give them.
#[derive(Clone, Copy)]
pub struct Given<'a> {
    pub names: &'a [&'a str],
    pub texts: &'a [&'a [u8]],
}

/// A file that is read, by the name that the words give it.
#[derive(Drop)]
pub struct NamedReader<'a, R> {
    pub name: &'a str,
    pub reader: Device<R>,
}

/// A file that was read, by its name.
#[derive(Clone, Copy)]
struct NamedFile<'a> {
    name: &'a str,
    bytes: &'a [u8],
}

/// Answers two files, and writes a page that steps through both next to each other. What is said of all their faults becomes `notes`.
///
/// # Errors
///
/// As of `answer_io`, for the first of the files that has a fault.
pub fn pages_io<R: Read, S: Read, W: Write>(
    alloc: Global,
    first: &mut NamedReader<'_, R>,
    second: &mut NamedReader<'_, S>,
    writer: &mut Device<W>,
    notes: &mut Text,
) -> Result<Outcome, ViewFault>
    requires first { first.old.reader.failed ≡ false }
    requires second { second.old.reader.failed ≡ false }
    requires writer { writer.old.failed ≡ false }
    ensures text { IfSome (R.remaining first.old.reader.inner) (λ file. IfSome (S.remaining second.old.reader.inner) (λ next.
        (output : List ℕ) × IsPageAnswer (file ∷ next ∷ []) result output
        × Appends (W.contents writer.old.inner) (W.contents writer.new.inner) output
        × (writer.new.calls ≤ writer.old.calls + length output + failed_writes (is_write_failed result)))) }
    // One of the readers failed exactly if reading ended the call.
    ensures read { is_read_failed result ≡ (first.new.reader.failed || second.new.reader.failed) }
    ensures writer { HasWritten writer.old writer.new result (is_write_failed result) }
    ensures notes { IfSome (R.remaining first.old.reader.inner) (λ file. IfSome (S.remaining second.old.reader.inner) (λ next.
        AreBothNotes (record { name = first.old.name.now; bytes = file }) (record { name = second.old.name.now; bytes = next }) result notes.new)) }
{
    let file = read_input(alloc, &mut first.reader)?;
    let next = read_input(alloc, &mut second.reader)?;
    let one = NamedFile {
        name: first.name,
        bytes: &file,
    };
    let other = NamedFile {
        name: second.name,
        bytes: &next,
    };
    write_both(alloc, &one, &other, writer, notes)
}

/// Writes a page of both files.
fn write_both<W: Write>(
    alloc: Global,
    first: &NamedFile<'_>,
    second: &NamedFile<'_>,
    writer: &mut Device<W>,
    notes: &mut Text,
) -> Result<Outcome, ViewFault>
    requires first { length first.now.bytes.now ≤ most_bytes }
    requires second { length second.now.bytes.now ≤ most_bytes }
    requires writer { writer.old.failed ≡ false }
    ensures text { (output : List ℕ) × IsPageAnswer (first.now.bytes.now ∷ second.now.bytes.now ∷ []) result output
        × Appends (W.contents writer.old.inner) (W.contents writer.new.inner) output
        × (writer.new.calls ≤ writer.old.calls + length output + failed_writes (is_write_failed result)) }
    ensures read { is_read_failed result ≡ false }
    ensures writer { HasWritten writer.old writer.new result (is_write_failed result) }
    ensures notes { AreBothNotes (record { name = first.now.name.now; bytes = first.now.bytes.now }) (record { name = second.now.name.now; bytes = second.now.bytes.now }) result notes.new }
{
    *notes = faults_of_both(alloc, first.name, second.name, first.bytes, second.bytes)?;
    let paged = page_of_both(alloc, first.bytes, second.bytes)?;
    write_output(writer, paged.output.as_bytes())?;
    written(paged.ending)
}

/// Says in words, a line each, the faults that these texts are the numbers of.
///
/// # Errors
///
/// A writer that failed, or an allocation that failed.
pub fn fault_io<W: Write>(
    alloc: Global,
    writer: &mut Device<W>,
    codes: &[&str],
) -> Result<Outcome, ViewFault>
    requires { writer.old.failed ≡ false }
    ensures text { (output : List ℕ) × AreFaultsSaid (map (λ text. text.now) codes.now) result output
        × Appends (W.contents writer.old.inner) (W.contents writer.new.inner) output
        × (writer.new.calls ≤ writer.old.calls + length output + failed_writes (is_write_failed result)) }
    ensures writer { HasWritten writer.old writer.new result (is_write_failed result) }
{
    let answer = say_faults(alloc, codes)?;
    write_output(writer, answer.output.as_bytes())?;
    Ok(answer.outcome)
}

/// Adds up samples, which are given with their names, and writes the sum in this form. What is said of one that can't be added up becomes `notes`.
///
/// # Errors
///
/// A writer that failed, an allocation that failed, or the first line at which a file can't be added up with the others.
pub fn sum_io<W: Write>(
    alloc: Global,
    given: &Given<'_>,
    form: &SumForm,
    writer: &mut Device<W>,
    notes: &mut Text,
) -> Result<Outcome, ViewFault>
    requires fits { All (λ text. length text.now ≤ most_bytes) given.now.texts.now }
    requires writer { writer.old.failed ≡ false }
    requires notes { notes.old ≡ [] }
    ensures { IsSummed form.now (map (λ name. name.now) given.now.names.now) (map (λ text. text.now) given.now.texts.now) result notes.new
        (record { before = W.contents writer.old.inner; after = W.contents writer.new.inner }) }
{
    match sum_samples(alloc, given.texts, form) {
        Ok(answer) => {
            write_output(writer, answer.output.as_bytes())?;
            Ok(answer.outcome)
        }
        Err(SumFault::Memory) => Err(ViewFault::Device(DeviceFault::Memory)),
        Err(SumFault::Bad(bad)) => {
            *notes = refusal_of(alloc, given.names, &bad)?;
            Err(ViewFault::BadPart(bad))
        }
    }
}

/// What is said of a file that can't be added up with the others.
fn refusal_of(alloc: Global, names: &[&str], bad: &BadPart) -> Result<Text, AllocError>
    ensures { IfOk result (λ text. text ≡ refusal_text (map (λ name. name.now) names.now) bad.now) }
{
    let mut text = Text::new(alloc);
    write_refusal(&mut text, names, bad)?;
    Ok(text)
}
