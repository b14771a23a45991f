//! A page that steps through the rooms of one file, or of two next to each other.
ghost use Rattle.std.specs.Prelude.{◌≡◌, ◌≤◌, ◌∷◌, ◌++◌, [], IfErr, IfOk, OnOk, length};
ghost use Rattle.io_text.specs.Reading.{most_bytes};
ghost use Rattle.view_page.specs.Faults.{AreBothFaults, AreFileFaults, said_in};
ghost use Rattle.room_files.specs.Blocks.{IsFaultOr};
ghost use Rattle.room_files.specs.Inputs.{MayLackMemory, input_says};
ghost use Rattle.room_files.specs.declared.kinds.Kinds.TheVariants.{All};
ghost use Rattle.step_page.specs.Pages.{file_text, page_text};
ghost use Rattle.step_page.specs.declared.page.FileKind.TheVariants.{Script};
ghost use Rattle.view_page.specs.Pages.{IsFaultOf, IsFileAnswer, IsKeptPage, IsOpenPage, IsPageFor, as_json, both, fault_among, first_fault, kind_of};

use decision_tasks::DecisionTask;
use file_faults::{Kind, script_faults, transcript_faults};
use io_text::Text;
use room_files::{Answer, InputFault, Outcome};
use run_search::Progress;
use script_play::PlayText;
use std::alloc::{AllocError, Global};
use step_page::{FileKind, begin_page, end_page, put_file, put_open};
use view_open::{OpenPlan, open_outcomes};
use view_trace::trace_json;
use view_why::{explain, explain_kept};

/// What a file is answered as: a file with only rooms is no transcript.
fn kind_of(file: &[u8]) -> FileKind
    ensures { result ≡ kind_of file.now }
{
    match Kind::of(file) {
        Kind::Transcript => FileKind::Transcript,
        Kind::Script | Kind::Rooms => FileKind::Script,
    }
}

/// What is said of all faults of a file, by what it is answered as.
///
/// # Errors
///
/// An allocation that failed.
pub fn faults_of(alloc: Global, file: &[u8]) -> Result<Text, AllocError>
    requires { length file.now ≤ most_bytes }
    ensures { IfOk result (AreFileFaults (kind_of file.now) file.now) }
{
    match kind_of(file) {
        FileKind::Script => script_faults(alloc, file),
        FileKind::Transcript => transcript_faults(alloc, file),
    }
}

/// What is said of all faults of two files, each after the name of its file.
///
/// # Errors
///
/// An allocation that failed.
pub fn faults_of_both(
    alloc: Global,
    name: &str,
    next_name: &str,
    file: &[u8],
    next: &[u8],
) -> Result<Text, AllocError>
    requires first { length file.now ≤ most_bytes }
    requires second { length next.now ≤ most_bytes }
    ensures { IfOk result (AreBothFaults (record { name = name.now; bytes = file.now }) (record { name = next_name.now; bytes = next.now })) }
{
    let first = faults_of(alloc, file)?;
    let later = faults_of(alloc, next)?;
    let mut faults = Text::new(alloc);
    write_said_in(&mut faults, name, first.as_bytes())?;
    write_said_in(&mut faults, next_name, later.as_bytes())?;
    Ok(faults)
}

/// Writes what is said of the file of this name, after its name, if something is said.
fn write_said_in(output: &mut Text, name: &str, said: &[u8]) -> Result<(), AllocError>
    ensures { OnOk result (output.new ≡ output.old ++ said_in name.now said.now) }
{
    if said.is_empty() {
        return Ok(());
    }
    output.put_two(b"    in ", name.as_bytes())?;
    output.put_two(b":\n", said)
}

/// What `trace --json` answers to a script, and `why` to a transcript.
fn answer_to(alloc: Global, file: &[u8]) -> Result<PlayText, InputFault>
    requires { length file.now ≤ most_bytes }
    ensures answer { IfOk result (λ answer. IsFileAnswer (kind_of file.now) file.now answer.ending answer.output) }
    ensures err { IfErr result (IsFaultOf (first_fault (kind_of file.now) file.now)) }
{
    match kind_of(file) {
        FileKind::Script => trace_json(alloc, file),
        FileKind::Transcript => {
            let answer = explain(alloc, file)?;
            Ok(PlayText {
                output: answer.output,
                ending: Ok(answer.outcome),
            })
        }
    }
}

/// The page that steps through a script or a transcript: the file, and what `trace --json` or `why` answers to it.
///
/// # Errors
///
/// The file's first fault, or an allocation that failed. If that was for a block or a command of a script, the script goes on to its end.
pub fn page(alloc: Global, file: &[u8]) -> Result<PlayText, InputFault>
    requires { length file.now ≤ most_bytes }
    ensures text { IfOk result (λ paged. IsPageFor (file.now ∷ []) paged.ending paged.output) }
    ensures err { IfErr result (IsFaultOf (fault_among (file.now ∷ []))) }
{
    let answer = answer_to(alloc, file)?;
    let output = one_page(alloc, kind_of(file), file, answer.output.as_bytes())?;
    Ok(PlayText {
        output,
        ending: answer.ending,
    })
}

/// The page that steps through a transcript, and says what `why` does if its runs are judged by a task of one's own.
///
/// # Errors
///
/// The transcript's first fault, or an allocation that failed.
pub fn page_of_kept(
    alloc: Global,
    transcript: &[u8],
    task: &DecisionTask,
) -> Result<Answer, InputFault>
    requires { length transcript.now ≤ most_bytes }
    ensures text { IfOk result (λ paged. IsKeptPage task.now transcript.now paged.outcome paged.output) }
    ensures err { IfErr result (IsFaultOr (MayLackMemory All transcript.now) (input_says All transcript.now)) }
{
    let answer = explain_kept(alloc, transcript, false, task)?;
    let said = answer.output.as_bytes();
    let output = one_page(alloc, FileKind::Transcript, transcript, said)?;
    Ok(Answer {
        output,
        outcome: answer.outcome,
    })
}

/// The page that steps through a script, and says which outcomes its rooms' simulators can still reach after each command. Reports how many nodes of a room have been
/// searched after a command.
///
/// # Errors
///
/// As of [`page`].
pub fn page_of_open<P: Progress>(
    alloc: Global,
    script: &[u8],
    plan: &OpenPlan,
    progress: &mut P,
) -> Result<PlayText, InputFault>
    requires { length script.now ≤ most_bytes }
    ensures text { IfOk result (λ paged. IsOpenPage plan.now script.now paged.ending paged.output) }
    ensures err { IfErr result (IsFaultOf (first_fault Script script.now)) }
{
    let traced = trace_json(alloc, script)?;
    let openings = open_outcomes(alloc, &as_json(plan), script, progress)?;
    let mut output = Text::new(alloc);
    begin_page(&mut output)?;
    put_file(
        &mut output,
        FileKind::Script,
        script,
        traced.output.as_bytes(),
    )?;
    put_open(&mut output, openings.output.as_bytes())?;
    end_page(&mut output)?;
    Ok(PlayText {
        output,
        ending: both(traced.ending, openings.ending),
    })
}

/// The same plan, by which the outcomes are written as JSON.
fn as_json(plan: &OpenPlan) -> OpenPlan
    ensures { result ≡ as_json plan.now }
{
    OpenPlan {
        json: true,
        ..*plan
    }
}

/// The page of one file, with this answer to it.
fn one_page(alloc: Global, kind: FileKind, file: &[u8], answer: &[u8]) -> Result<Text, AllocError>
    ensures { IfOk result (λ page. page ≡ page_text (file_text kind file.now answer.now)) }
{
    let mut output = Text::new(alloc);
    begin_page(&mut output)?;
    put_file(&mut output, kind, file, answer)?;
    end_page(&mut output)?;
    Ok(output)
}

/// The page that steps through two files next to each other.
///
/// # Errors
///
/// As of `page`, for the first of the files that has a fault.
pub fn page_of_both(alloc: Global, file: &[u8], next: &[u8]) -> Result<PlayText, InputFault>
    requires first { length file.now ≤ most_bytes }
    requires second { length next.now ≤ most_bytes }
    ensures text { IfOk result (λ paged. IsPageFor (file.now ∷ next.now ∷ []) paged.ending paged.output) }
    ensures err { IfErr result (IsFaultOf (fault_among (file.now ∷ next.now ∷ []))) }
{
    let answer = answer_to(alloc, file)?;
    let later = answer_to(alloc, next)?;
    let mut output = Text::new(alloc);
    begin_page(&mut output)?;
    put_file(&mut output, kind_of(file), file, answer.output.as_bytes())?;
    put_file(&mut output, kind_of(next), next, later.output.as_bytes())?;
    end_page(&mut output)?;
    Ok(PlayText {
        output,
        ending: both(answer.ending, later.ending),
    })
}

/// The endings of two answers in one.
fn both(
    one: Result<Outcome, AllocError>,
    other: Result<Outcome, AllocError>,
) -> Result<Outcome, AllocError>
    ensures { result ≡ both one other }
{
    match (one?, other?) {
        (Outcome::AllWell, outcome) => Ok(outcome),
        (Outcome::SomeRefused, _) => Ok(Outcome::SomeRefused),
    }
}
