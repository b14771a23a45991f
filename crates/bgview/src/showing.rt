//! From a request and an input to what is shown: one call for each mode.
ghost use Rattle.std.specs.Prelude.{◌≡◌, ◌≤◌, ℕ, List, Ok, None, Some, IfErr, IfOk, IsOk, false, length};
ghost use Rattle.io_text.specs.Reading.{most_bytes};
ghost use Rattle.file_faults.specs.Lint.{IsLintIn};
ghost use Rattle.room_files.specs.Blocks.{IsFaultOr};
ghost use Rattle.room_files.specs.Inputs.{MayLackMemory, input_says};
ghost use Rattle.room_files.specs.declared.kinds.Kinds.TheVariants.{All};
ghost use Rattle.view_grade.specs.Goals.{goal_in};
ghost use Rattle.script_play.specs.Script.{script_says};
ghost use Rattle.view_outcomes.specs.Asked.{AreInputsAsked, IsTaskAsked};
ghost use Rattle.view_outcomes.specs.Blocks.{IsOutcomesFor};
ghost use Rattle.decision_tasks.specs.Tasks.{task_in};
ghost use Rattle.protocol_lang.specs.Trees.{Tree};
ghost use Rattle.input_vectors.specs.Values.{values_in};
ghost use Rattle.view_outcomes.specs.declared.search.Search.{Search as SearchValue};
ghost use Rattle.view_page.specs.Pages.{fault_in};
ghost use Rattle.bgview.specs.Answers.{AreRunsShown, Ends, EndsRequest, IsExplainedBy, IsGradeFor, IsPageShown, IsPageWith, IsSampledBy, IsSamplingShown, IsSearchFor, IsSearchShown, IsShown, IsTaskOf, IsWhole, IsWhyShown, asked_alone, goal_fault_in, goal_text, grade_fault, is_json, is_more_asked, is_more_of_open, is_more_of_rooms, is_more_of_sample, judged_by, keeps_fault, keeps_fault_in, keeps_text, kept_by, open_fault, open_plan, page_fault, paging_fault, room_plan, rooms_fault, runs_fault, sampled_by, sampled_with, sampling_fault, search_fault, searching_fault, values_fault_in, values_text};
ghost use Rattle.view_open.specs.Watched.{IsOpenFor};
ghost use Rattle.view_rooms.specs.Blocks.{IsRoomsFor};
ghost use Rattle.view_sample.specs.Inputs.{IsInputsSample};
ghost use Rattle.view_sample.specs.Keeping.{IsKeptSample};
ghost use Rattle.view_sample.specs.Sample.{IsSampleFor};
ghost use Rattle.view_trace.specs.Trace.{IsTraceIn};
ghost use Rattle.view_why.specs.Why.{IsExplanationIn};
ghost use Rattle.bgview.specs.Notes.{AreGoalNotes, AreGradeNotes, AreLintNotes, AreNotes, AreNotesOfPage, AreNotesOn, ArePageNotes, AreRoomNotes, AreSaidOfFile, AreScriptNotes, AreWhyNotes};

use crate::fault::{OptionFault, ViewFault};
use crate::request::{Explaining, Grading, Paging, Request, Sampling, Searching};
use crate::system::{Aside, System};
use decision_tasks::DecisionTask;
use file_faults::{lint, lint_json, room_faults, script_faults, transcript_faults, warnings_of};
use input_vectors::{Values, read_values};
use io_text::{DeviceFault, Text};
use room_files::{Answer, InputFault};
use room_sample::{Plan, Threaded};
use run_search::Progress;
use script_play::PlayText;
use std::alloc::{AllocError, Global};
use std::thread::Threads;
use view_draw::draw;
use view_grade::{Aim, Goal, goal_forms, grade, grade_kept, read_goal};
use view_open::{OpenPlan, open_outcomes};
use view_outcomes::{Asked, Form, Search, search_blocks};
use view_page::{faults_of, page, page_of_kept, page_of_open};
use view_rooms::{RoomPlan, search_rooms};
use view_sample::{InputsPlan, KeptPlan, sample_blocks, sample_inputs, sample_kept};
use view_trace::{trace, trace_json};
use view_transcript::transcribe;
use view_why::{explain, explain_json, explain_kept};

/// What is shown of an input as is requested. What is said of its faults, or of a goal that is not valid, becomes the notes of `aside`.
pub fn show<H: Threads + Sync, I, P: Progress>(
    system: &System<'_, H, I>,
    request: &Request<'_>,
    input: &[u8],
    aside: &mut Aside<P>,
) -> Result<PlayText, ViewFault>
    requires { length input.now ≤ most_bytes }
    ensures shown { IfOk result (λ shown. IsShown request.now input.now shown.ending shown.output) }
    ensures err { IfErr result (EndsRequest request.now input.now) }
    ensures notes { AreNotesOn request.now input.now result aside.old.notes aside.new.notes }
{
    let alloc = system.alloc;
    match request {
        Request::Why(explaining) => why_or_fail(alloc, explaining, input, &mut aside.notes),
        Request::Trace { json } => {
            aside.notes = script_faults(alloc, input)?;
            Ok(traced(alloc, *json, input)?)
        }
        Request::Draw(style) => {
            aside.notes = script_faults(alloc, input)?;
            Ok(draw(alloc, *style, input)?)
        }
        Request::Page(paging) => paged(alloc, paging, input, aside),
        Request::Transcript => {
            aside.notes = script_faults(alloc, input)?;
            Ok(transcribe(alloc, input)?)
        }
        Request::Grade(grading) => grade_or_note(alloc, grading, input, &mut aside.notes),
        Request::Sample(sampling) => sample_or_fail(system, sampling, input, aside),
        Request::Outcomes(searching) => search_or_fail(alloc, searching, input, aside),
        Request::Open(searching) => open_or_fail(alloc, searching, input, aside),
        Request::Lint { json } => linted(alloc, *json, input, &mut aside.notes),
    }
}

/// An answer for which no allocation failed.
fn whole(answer: Answer) -> PlayText
    ensures output { result.output ≡ answer.output }
    ensures ending { result.ending ≡ Ok answer.outcome }
{
    PlayText {
        output: answer.output,
        ending: Ok(answer.outcome),
    }
}

/// What a file is read as, and its faults, as text or as JSON. What is warned of becomes `notes`, unless the answer has it.
fn linted(alloc: Global, json: bool, input: &[u8], notes: &mut Text) -> Result<PlayText, ViewFault>
    requires { length input.now ≤ most_bytes }
    ensures shown { IfOk result (λ shown. IsWhole (IsLintIn json input.now) shown.ending shown.output) }
    ensures err { IfErr result (Ends None None) }
    ensures notes { AreLintNotes json input.now result notes.old notes.new }
{
    if json {
        return Ok(whole(lint_json(alloc, input)?));
    }
    *notes = warnings_of(alloc, input)?;
    Ok(whole(lint(alloc, input)?))
}

/// A page of a file, unless the options are not valid. What is said of the file becomes the notes of `aside`.
fn paged<P: Progress>(
    alloc: Global,
    paging: &Paging<'_>,
    input: &[u8],
    aside: &mut Aside<P>,
) -> Result<PlayText, ViewFault>
    requires { length input.now ≤ most_bytes }
    ensures shown { IfOk result (λ shown. IsPageShown paging.now input.now shown.ending shown.output) }
    ensures err { IfErr result (Ends (page_fault paging.now input.now) (paging_fault paging.now)) }
    ensures notes { ArePageNotes paging.now input.now result aside.new.notes }
{
    match (paging.keeps, paging.search) {
        (None, None) => {
            aside.notes = said_of_file(alloc, input)?;
            Ok(page(alloc, input)?)
        }
        (Some(text), None) => paged_by_task(alloc, text, input, &mut aside.notes),
        (None, Some(plan)) => {
            aside.notes = script_faults(alloc, input)?;
            Ok(page_of_open(alloc, input, &plan, &mut aside.progress)?)
        }
        (Some(_), Some(_)) => Err(ViewFault::BadOption(OptionFault::OpenTask)),
    }
}

/// A page of a transcript whose runs are judged by the task of one's own that a text says, unless that is not valid. What is said of its faults becomes `notes`.
fn paged_by_task(
    alloc: Global,
    text: &[u8],
    input: &[u8],
    notes: &mut Text,
) -> Result<PlayText, ViewFault>
    requires { length input.now ≤ most_bytes }
    ensures shown { IfOk result (λ shown. IsPageWith (Some text.now) None input.now shown.ending shown.output) }
    ensures err { IfErr result (Ends (fault_in (input_says All input.now)) (keeps_fault_in (task_in text.now))) }
    ensures notes { AreNotesOfPage (Some text.now) None input.now result notes.new }
{
    let task = read_task(alloc, text)?;
    *notes = transcript_faults(alloc, input)?;
    Ok(whole(page_of_kept(alloc, input, &task)?))
}

/// What is said of a file of which a page is made: its faults, or that it is empty.
fn said_of_file(alloc: Global, file: &[u8]) -> Result<Text, AllocError>
    requires { length file.now ≤ most_bytes }
    ensures { IfOk result (AreSaidOfFile file.now) }
{
    match file {
        [] => warnings_of(alloc, file),
        _ => faults_of(alloc, file),
    }
}

/// What is said of a script, as text or as JSON.
fn traced(alloc: Global, json: bool, script: &[u8]) -> Result<PlayText, InputFault>
    requires { length script.now ≤ most_bytes }
    ensures text { IfOk result (λ traced. IsTraceIn json script.now traced.ending traced.output) }
    ensures err { IfErr result (IsFaultOr (IsOk (script_says script.now)) (script_says script.now)) }
{
    if json {
        return trace_json(alloc, script);
    }
    trace(alloc, script)
}

/// Explains a transcript, unless the task of one's own by which its runs are judged is not valid. What is said of its faults becomes `notes`, unless the answer has it.
fn why_or_fail(
    alloc: Global,
    explaining: &Explaining<'_>,
    input: &[u8],
    notes: &mut Text,
) -> Result<PlayText, ViewFault>
    requires { length input.now ≤ most_bytes }
    ensures shown { IfOk result (λ shown. IsWhyShown explaining.now input.now shown.ending shown.output) }
    ensures err { IfErr result (Ends (fault_in (input_says All input.now)) (keeps_fault (judged_by explaining.now))) }
    ensures notes { AreWhyNotes explaining.now.json input.now result notes.old notes.new }
{
    let task = task_or_fail(alloc, explaining)?;
    explained(alloc, explaining.json, &task, input, notes)
}

/// The task of one's own by which runs are judged, if there is one.
fn task_or_fail(
    alloc: Global,
    explaining: &Explaining<'_>,
) -> Result<Option<DecisionTask>, ViewFault>
    ensures task { IfOk result (λ task. IsTaskOf (judged_by explaining.now) task) }
    ensures err { IfErr result (Ends None (keeps_fault (judged_by explaining.now))) }
{
    let Some(text) = explaining.keeps else {
        return Ok(None);
    };
    Ok(Some(read_task(alloc, text)?))
}

/// The task of one's own that a text says.
fn read_task(alloc: Global, text: &[u8]) -> Result<DecisionTask, ViewFault>
    ensures task { IfOk result (λ task. task_in text.now ≡ Ok task) }
    ensures err { IfErr result (Ends None (keeps_fault_in (task_in text.now))) }
{
    match DecisionTask::read(alloc, text)? {
        Ok(task) => Ok(task),
        Err(fault) => Err(ViewFault::BadOption(OptionFault::Keeps(fault))),
    }
}

/// Explains a transcript, as text or as JSON. What is said of its faults becomes `notes`, unless the answer has it.
fn explained(
    alloc: Global,
    json: bool,
    task: &Option<DecisionTask>,
    input: &[u8],
    notes: &mut Text,
) -> Result<PlayText, ViewFault>
    requires { length input.now ≤ most_bytes }
    ensures shown { IfOk result (λ shown. IsWhole (IsExplainedBy json task.now input.now) shown.ending shown.output) }
    ensures err { IfErr result (Ends (fault_in (input_says All input.now)) None) }
    ensures notes { AreWhyNotes json input.now result notes.old notes.new }
{
    if !json {
        return explain_or_note(alloc, task, input, notes);
    }
    *notes = transcript_faults(alloc, input)?;
    Ok(whole(explained_by(alloc, true, task, input)?))
}

/// Explains a transcript. What is said of all its faults, if it has a malformed line, becomes `notes`.
fn explain_or_note(
    alloc: Global,
    task: &Option<DecisionTask>,
    input: &[u8],
    notes: &mut Text,
) -> Result<PlayText, ViewFault>
    requires { length input.now ≤ most_bytes }
    ensures shown { IfOk result (λ shown. IsWhole (IsExplainedBy false task.now input.now) shown.ending shown.output) }
    ensures err { IfErr result (Ends (fault_in (input_says All input.now)) None) }
    ensures notes { AreNotes input.now result notes.old notes.new }
{
    match explained_by(alloc, false, task, input) {
        Ok(answer) => Ok(whole(answer)),
        Err(InputFault::Memory) => Err(ViewFault::Device(DeviceFault::Memory)),
        Err(InputFault::BadInput { line, fault }) => {
            *notes = transcript_faults(alloc, input)?;
            Err(ViewFault::BadInput { line, fault })
        }
    }
}

/// What is said of a transcript, whose runs are judged by this task if there is one.
fn explained_by(
    alloc: Global,
    json: bool,
    task: &Option<DecisionTask>,
    input: &[u8],
) -> Result<Answer, InputFault>
    requires { length input.now ≤ most_bytes }
    ensures output { IfOk result (λ answer. IsExplainedBy json task.now input.now answer.outcome answer.output) }
    ensures err { IfErr result (IsFaultOr (MayLackMemory All input.now) (input_says All input.now)) }
{
    match task {
        Some(task) => explain_kept(alloc, input, json, task),
        None => explained_alone(alloc, json, input),
    }
}

/// What is said of a transcript whose runs are judged by no task but their rooms' own.
fn explained_alone(alloc: Global, json: bool, input: &[u8]) -> Result<Answer, InputFault>
    requires { length input.now ≤ most_bytes }
    ensures output { IfOk result (λ answer. IsExplanationIn json input.now answer.outcome answer.output) }
    ensures err { IfErr result (IsFaultOr (MayLackMemory All input.now) (input_says All input.now)) }
{
    if json {
        return explain_json(alloc, input);
    }
    explain(alloc, input)
}

/// Samples rooms, with their own inputs or all of some values, or judges their histories, unless the options are not valid. What is said of refused blocks becomes the notes of `aside`.
fn sample_or_fail<H: Threads + Sync, I, P: Progress>(
    system: &System<'_, H, I>,
    sampling: &Sampling<'_>,
    input: &[u8],
    aside: &mut Aside<P>,
) -> Result<PlayText, ViewFault>
    requires { length input.now ≤ most_bytes }
    ensures shown { IfOk result (λ shown. IsSamplingShown sampling.now input.now shown.ending shown.output) }
    ensures err { IfErr result (Ends None (sampling_fault sampling.now)) }
    ensures notes { AreRoomNotes input.now result aside.new.notes }
{
    if is_more_of_sample(sampling) {
        return Err(ViewFault::BadOption(OptionFault::Alone));
    }
    sample_asked(system, sampling, input, aside)
}

/// Whether only one outcome is asked for, and so is whether tasks are kept.
fn is_more_of_sample(sampling: &Sampling<'_>) -> bool
    ensures { result ≡ is_more_of_sample sampling.now }
{
    sampling.plan.outcome.is_some() && (sampling.values.is_some() || sampling.keeps.is_some())
}

/// The same, unless the values of inputs, or a task of one's own, are not valid.
fn sample_asked<H: Threads + Sync, I, P: Progress>(
    system: &System<'_, H, I>,
    sampling: &Sampling<'_>,
    input: &[u8],
    aside: &mut Aside<P>,
) -> Result<PlayText, ViewFault>
    requires { length input.now ≤ most_bytes }
    ensures shown { IfOk result (λ shown. IsSampledBy (sampled_with sampling.now) (sampled_by sampling.now) sampling.now.plan input.now shown.ending shown.output) }
    ensures err { IfErr result (Ends None (search_fault (sampled_with sampling.now) (sampled_by sampling.now))) }
    ensures notes { AreRoomNotes input.now result aside.new.notes }
{
    let plan = &sampling.plan;
    match (sampling.values, sampling.keeps) {
        (None, None) => sampled(system, plan, input, aside),
        (Some(values), None) => sample_inputs_of(system, plan, values, input, aside),
        (None, Some(keeps)) => sample_kept_by(system.alloc, plan, keeps, input, aside),
        (Some(_), Some(_)) => Err(ViewFault::BadOption(OptionFault::Both)),
    }
}

/// Samples rooms. What is said of refused blocks becomes the notes of `aside`.
fn sampled<H: Threads + Sync, I, P: Progress>(
    system: &System<'_, H, I>,
    plan: &Plan,
    input: &[u8],
    aside: &mut Aside<P>,
) -> Result<PlayText, ViewFault>
    requires { length input.now ≤ most_bytes }
    ensures shown { IfOk result (λ shown. IsSampleFor plan.now input.now shown.ending shown.output) }
    ensures err { IfErr result (Ends None None) }
    ensures notes { AreRoomNotes input.now result aside.new.notes }
{
    let alloc = system.alloc;
    aside.notes = room_faults(alloc, input)?;
    let workers = Threaded::new(system.threads);
    Ok(sample_blocks(&workers, alloc, input, plan, &mut aside.progress)?)
}

/// Judges the tasks of sampled rooms with all inputs of the values that a text says. What is said of refused blocks becomes the notes of `aside`.
fn sample_inputs_of<H: Threads + Sync, I, P: Progress>(
    system: &System<'_, H, I>,
    plan: &Plan,
    text: &str,
    input: &[u8],
    aside: &mut Aside<P>,
) -> Result<PlayText, ViewFault>
    requires { length input.now ≤ most_bytes }
    ensures shown { IfOk result (λ shown. (values : List ℕ) × (values_in text.now ≡ Ok values) × IsWhole (IsInputsSample values plan.now input.now) shown.ending shown.output) }
    ensures err { IfErr result (Ends None (values_fault_in (values_in text.now))) }
    ensures notes { AreRoomNotes input.now result aside.new.notes }
{
    let values = values_or_fail(text)?;
    aside.notes = room_faults(system.alloc, input)?;
    let asked = InputsPlan {
        alloc: system.alloc,
        plan,
        values: values.as_slice(),
    };
    let workers = Threaded::new(system.threads);
    Ok(whole(sample_inputs(&workers, input, &asked, &mut aside.progress)?))
}

/// The values of which inputs are made that a text says.
fn values_or_fail(text: &str) -> Result<Values, ViewFault>
    ensures values { IfOk result (λ values. values_in text.now ≡ Ok values.items) }
    ensures err { IfErr result (Ends None (values_fault_in (values_in text.now))) }
{
    match read_values(text.as_bytes()) {
        Ok(values) => Ok(values),
        Err(fault) => Err(ViewFault::BadOption(OptionFault::Inputs(fault))),
    }
}

/// Judges the histories of sampled rooms by the task that a text says. What is said of refused blocks becomes the notes of `aside`.
fn sample_kept_by<P: Progress>(
    alloc: Global,
    plan: &Plan,
    text: &[u8],
    input: &[u8],
    aside: &mut Aside<P>,
) -> Result<PlayText, ViewFault>
    requires { length input.now ≤ most_bytes }
    ensures shown { IfOk result (λ shown. (lines : List Tree) × (task_in text.now ≡ Ok lines) × IsWhole (IsKeptSample lines plan.now input.now) shown.ending shown.output) }
    ensures err { IfErr result (Ends None (keeps_fault_in (task_in text.now))) }
    ensures notes { AreRoomNotes input.now result aside.new.notes }
{
    let task = &read_task(alloc, text)?;
    aside.notes = room_faults(alloc, input)?;
    let judged = KeptPlan { plan, task };
    Ok(whole(sample_kept(alloc, input, &judged, &mut aside.progress)?))
}

/// Searches rooms, unless the options are not valid. What is said of refused blocks becomes the notes of `aside`.
fn search_or_fail<P: Progress>(
    alloc: Global,
    searching: &Searching<'_>,
    input: &[u8],
    aside: &mut Aside<P>,
) -> Result<PlayText, ViewFault>
    requires { length input.now ≤ most_bytes }
    ensures shown { IfOk result (λ shown. IsSearchShown searching.now input.now shown.ending shown.output) }
    ensures err { IfErr result (Ends None (searching_fault searching.now)) }
    ensures notes { AreRoomNotes input.now result aside.new.notes }
{
    if searching.rooms {
        search_schedules(alloc, searching, input, aside)
    } else {
        search_runs(alloc, searching, input, aside)
    }
}

/// Searches all schedules of the rooms' simulators, unless something is asked for that is none of their outcomes. What is said of refused blocks becomes the notes of
/// `aside`.
fn search_schedules<P: Progress>(
    alloc: Global,
    searching: &Searching<'_>,
    input: &[u8],
    aside: &mut Aside<P>,
) -> Result<PlayText, ViewFault>
    requires { length input.now ≤ most_bytes }
    ensures shown { IfOk result (λ shown. IsWhole (IsRoomsFor (room_plan searching.now) input.now) shown.ending shown.output) }
    ensures err { IfErr result (Ends None (rooms_fault searching.now)) }
    ensures notes { AreRoomNotes input.now result aside.new.notes }
{
    if is_more_of_rooms(searching) {
        return Err(ViewFault::BadOption(OptionFault::Rooms));
    }
    aside.notes = room_faults(alloc, input)?;
    let plan = room_plan(searching);
    Ok(whole(search_rooms(alloc, input, &plan, &mut aside.progress)?))
}

/// Whether something is asked for that is no outcome of a simulation, or only one outcome, or only the first ones.
fn is_more_of_rooms(searching: &Searching<'_>) -> bool
    ensures { result ≡ is_more_of_rooms searching.now }
{
    let is_judged = searching.task || searching.values.is_some() || searching.keeps.is_some();
    searching.top.is_some() || searching.outcome.is_some() || is_judged
}

/// How all schedules of the rooms' simulators are searched.
fn room_plan(searching: &Searching<'_>) -> RoomPlan
    ensures { result ≡ room_plan searching.now }
{
    RoomPlan {
        crashes: searching.crashes,
        nodes: searching.nodes,
        brief: searching.brief,
        json: is_json(searching.form),
    }
}

fn is_json(form: Form) -> bool
    ensures { result ≡ is_json form }
{
    matches!(form, Form::Json)
}

/// Says which outcomes are open after each command of a script, unless something is asked for that is none of them. What is said of the script's faults becomes the notes
/// of `aside`.
fn open_or_fail<P: Progress>(
    alloc: Global,
    searching: &Searching<'_>,
    script: &[u8],
    aside: &mut Aside<P>,
) -> Result<PlayText, ViewFault>
    requires { length script.now ≤ most_bytes }
    ensures shown { IfOk result (λ shown. IsOpenFor (open_plan searching.now) script.now shown.ending shown.output) }
    ensures err { IfErr result (Ends (fault_in (script_says script.now)) (open_fault searching.now)) }
    ensures notes { AreScriptNotes script.now result aside.new.notes }
{
    if is_more_of_open(searching) {
        return Err(ViewFault::BadOption(OptionFault::Open));
    }
    aside.notes = script_faults(alloc, script)?;
    let plan = open_plan(searching);
    Ok(open_outcomes(alloc, &plan, script, &mut aside.progress)?)
}

/// Whether something is asked for that is none of the outcomes that are open in the rooms of a script.
fn is_more_of_open(searching: &Searching<'_>) -> bool
    ensures { result ≡ is_more_of_open searching.now }
{
    searching.rooms || searching.brief || is_more_of_rooms(searching)
}

/// How the rooms of a script are searched.
fn open_plan(searching: &Searching<'_>) -> OpenPlan
    ensures { result ≡ open_plan searching.now }
{
    OpenPlan {
        crashes: searching.crashes,
        nodes: searching.nodes,
        json: is_json(searching.form),
    }
}

/// Searches all runs of rooms, unless the options are not valid. What is said of refused blocks becomes the notes of `aside`.
fn search_runs<P: Progress>(
    alloc: Global,
    searching: &Searching<'_>,
    input: &[u8],
    aside: &mut Aside<P>,
) -> Result<PlayText, ViewFault>
    requires { length input.now ≤ most_bytes }
    ensures shown { IfOk result (λ shown. AreRunsShown searching.now input.now shown.ending shown.output) }
    ensures err { IfErr result (Ends None (runs_fault searching.now)) }
    ensures notes { AreRoomNotes input.now result aside.new.notes }
{
    if is_more_asked(searching) {
        return Err(ViewFault::BadOption(OptionFault::Alone));
    }
    search_asked(alloc, searching, input, aside)
}

/// Whether only one outcome is asked for, and so is whether tasks are kept.
fn is_more_asked(searching: &Searching<'_>) -> bool
    ensures { result ≡ is_more_asked searching.now }
{
    let is_judged = searching.task || searching.values.is_some() || searching.keeps.is_some();
    searching.outcome.is_some() && is_judged
}

/// Searches rooms, unless the values of inputs, or a task of one's own, are not valid. What is said of refused blocks becomes the notes of `aside`.
fn search_asked<P: Progress>(
    alloc: Global,
    searching: &Searching<'_>,
    input: &[u8],
    aside: &mut Aside<P>,
) -> Result<PlayText, ViewFault>
    requires { length input.now ≤ most_bytes }
    ensures shown { IfOk result (λ shown. AreRunsShown searching.now input.now shown.ending shown.output) }
    ensures err { IfErr result (Ends None (search_fault (values_text searching.now) (keeps_text searching.now))) }
    ensures notes { AreRoomNotes input.now result aside.new.notes }
{
    match (searching.values, searching.keeps) {
        (None, None) => {
            let search = search_for(searching, asked_alone(searching));
            searched(alloc, &search, input, aside)
        }
        (Some(values), None) => search_inputs(alloc, searching, values, input, aside),
        (None, Some(keeps)) => search_kept(alloc, searching, keeps, input, aside),
        (Some(_), Some(_)) => Err(ViewFault::BadOption(OptionFault::Both)),
    }
}

/// Searches rooms with all inputs of the values that a text says.
fn search_inputs<P: Progress>(
    alloc: Global,
    searching: &Searching<'_>,
    text: &str,
    input: &[u8],
    aside: &mut Aside<P>,
) -> Result<PlayText, ViewFault>
    requires { length input.now ≤ most_bytes }
    ensures shown { IfOk result (λ shown. (search : SearchValue) × IsSearchFor searching.now search × AreInputsAsked text.now search.asked × IsWhole (IsOutcomesFor search input.now) shown.ending shown.output) }
    ensures err { IfErr result (Ends None (values_fault_in (values_in text.now))) }
    ensures notes { AreRoomNotes input.now result aside.new.notes }
{
    match read_values(text.as_bytes()) {
        Ok(values) => {
            let search = search_for(searching, Asked::Inputs(values.as_slice()));
            searched(alloc, &search, input, aside)
        }
        Err(fault) => Err(ViewFault::BadOption(OptionFault::Inputs(fault))),
    }
}

/// Searches rooms for runs that break the task that a text says.
fn search_kept<P: Progress>(
    alloc: Global,
    searching: &Searching<'_>,
    text: &[u8],
    input: &[u8],
    aside: &mut Aside<P>,
) -> Result<PlayText, ViewFault>
    requires { length input.now ≤ most_bytes }
    ensures shown { IfOk result (λ shown. (search : SearchValue) × IsSearchFor searching.now search × IsTaskAsked text.now search.asked × IsWhole (IsOutcomesFor search input.now) shown.ending shown.output) }
    ensures err { IfErr result (Ends None (keeps_fault_in (task_in text.now))) }
    ensures notes { AreRoomNotes input.now result aside.new.notes }
{
    match DecisionTask::read(alloc, text)? {
        Ok(task) => {
            let search = search_for(searching, Asked::Keeps(&task));
            searched(alloc, &search, input, aside)
        }
        Err(fault) => Err(ViewFault::BadOption(OptionFault::Keeps(fault))),
    }
}

/// What is asked of each room if neither values for inputs nor a task of one's own are given.
fn asked_alone<'a>(searching: &Searching<'_>) -> Asked<'a>
    ensures { result ≡ asked_alone searching.now }
{
    match (searching.task, searching.outcome, searching.top) {
        (true, _, _) => Asked::Task,
        (false, Some(number), _) => Asked::Outcome(number),
        (false, None, Some(top)) => Asked::First(top),
        (false, None, None) => Asked::Outcomes,
    }
}

/// The search that asks this of each room.
fn search_for<'a>(searching: &Searching<'_>, asked: Asked<'a>) -> Search<'a>
    ensures { result ≡ record { crashes = searching.now.crashes; nodes = searching.now.nodes; brief = searching.now.brief; form = searching.now.form; asked = asked.entry } }
{
    Search {
        crashes: searching.crashes,
        nodes: searching.nodes,
        brief: searching.brief,
        form: searching.form,
        asked,
    }
}

/// Searches rooms. What is said of refused blocks becomes the notes of `aside`.
fn searched<P: Progress>(
    alloc: Global,
    search: &Search<'_>,
    input: &[u8],
    aside: &mut Aside<P>,
) -> Result<PlayText, ViewFault>
    requires { length input.now ≤ most_bytes }
    ensures shown { IfOk result (λ shown. IsWhole (IsOutcomesFor search.now input.now) shown.ending shown.output) }
    ensures err { IfErr result (Ends None None) }
    ensures notes { AreRoomNotes input.now result aside.new.notes }
{
    aside.notes = room_faults(alloc, input)?;
    Ok(whole(search_blocks(alloc, input, search, &mut aside.progress)?))
}

/// Grades a script, unless a task of one's own, or the goal, is not valid. What is said of all the script's faults, or of a goal that is not valid, becomes `notes`.
fn grade_or_note(
    alloc: Global,
    grading: &Grading<'_>,
    script: &[u8],
    notes: &mut Text,
) -> Result<PlayText, ViewFault>
    requires { length script.now ≤ most_bytes }
    ensures shown { IfOk result (λ shown. IsGradeFor grading.now script.now shown.ending shown.output) }
    ensures err { IfErr result (Ends (fault_in (script_says script.now)) (grade_fault (kept_by grading.now) (goal_text grading.now))) }
    ensures notes { AreGradeNotes script.now result notes.old notes.new }
{
    let task = kept_task(alloc, grading)?;
    let goal = goal_or_note(alloc, grading.goal.as_bytes(), notes)?;
    *notes = script_faults(alloc, script)?;
    graded(alloc, grading, &goal, &task, script)
}

/// The task of one's own by which the histories of a script's rooms are judged, if there is one.
fn kept_task(alloc: Global, grading: &Grading<'_>) -> Result<Option<DecisionTask>, ViewFault>
    ensures task { IfOk result (λ task. IsTaskOf (kept_by grading.now) task) }
    ensures fine { IfOk result (λ task. keeps_fault (kept_by grading.now) ≡ None) }
    ensures err { IfErr result (Ends None (keeps_fault (kept_by grading.now))) }
{
    let Some(text) = grading.keeps else {
        return Ok(None);
    };
    Ok(Some(read_task(alloc, text)?))
}

/// What is said of a script that is judged by this goal, and by this task if there is one.
#[tactic(auto, unfolding(crate::specs::Answers::IsGradeFor))]
fn graded(
    alloc: Global,
    grading: &Grading<'_>,
    goal: &Goal,
    task: &Option<DecisionTask>,
    script: &[u8],
) -> Result<PlayText, ViewFault>
    requires goal { goal_in (goal_text grading.now) ≡ Ok goal.now }
    requires task { IsTaskOf (kept_by grading.now) task.now }
    requires script { length script.now ≤ most_bytes }
    ensures shown { IfOk result (λ shown. IsGradeFor grading.now script.now shown.ending shown.output) }
    ensures err { IfErr result (Ends (fault_in (script_says script.now)) None) }
{
    let aim = Aim {
        goal,
        most: grading.most,
        json: grading.json,
    };
    match task {
        None => Ok(grade(alloc, &aim, script)?),
        Some(task) => Ok(grade_kept(alloc, &aim, task, script)?),
    }
}

/// The goal that a text says. What is said of one that is not valid becomes `notes`.
fn goal_or_note(alloc: Global, text: &[u8], notes: &mut Text) -> Result<Goal, ViewFault>
    ensures goal { IfOk result (λ goal. goal_in text.now ≡ Ok goal) }
    ensures err { IfErr result (Ends None (goal_fault_in (goal_in text.now))) }
    ensures notes { AreGoalNotes result notes.old notes.new }
{
    match read_goal(alloc, text)? {
        Ok(goal) => Ok(goal),
        Err(fault) => {
            *notes = goal_forms(alloc)?;
            Err(ViewFault::BadOption(OptionFault::Goal(fault)))
        }
    }
}
