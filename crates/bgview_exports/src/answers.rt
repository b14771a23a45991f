//! What each mode answers to inputs of any length.
ghost use Rattle.std.specs.Prelude.{◌≡◌, ◌<◌, ◌≤◌, ◌∷◌, [], Ok, None, false, IfErr, IfOk, IsOk, OnOk, length};
ghost use Rattle.io_text.specs.Reading.{most_bytes};
ghost use Rattle.file_faults.specs.Lint.{IsLintFor};
ghost use Rattle.file_verdicts.specs.Check.{IsOutputFor};
ghost use Rattle.room_files.specs.Blocks.{IsFaultOr};
ghost use Rattle.room_files.specs.Inputs.{MayLackMemory, input_says};
ghost use Rattle.room_files.specs.declared.kinds.Kinds.TheVariants.{All, Ordinary};
ghost use Rattle.script_play.specs.Play.{IsPlayFor};
ghost use Rattle.script_play.specs.Script.{script_says};
ghost use Rattle.view_draw.specs.Drawn.{IsDrawn};
ghost use Rattle.view_outcomes.specs.Blocks.{IsOutcomesFor};
ghost use Rattle.decision_tasks.specs.Tasks.{task_in};
ghost use Rattle.view_page.specs.Pages.{IsFaultOf, IsKeptPage, IsPageFor, fault_among};
ghost use Rattle.view_rooms.specs.Blocks.{IsRoomsFor};
ghost use Rattle.view_sample.specs.Sample.{IsSampleFor};
ghost use Rattle.view_trace.specs.Trace.{IsTraceIn};
ghost use Rattle.view_transcript.specs.Transcripts.{IsTranscribed};
ghost use Rattle.view_why.specs.Keeping.{IsKeptExplanation};
ghost use Rattle.view_why.specs.Why.{IsExplanationIn};
ghost use Rattle.bgview_exports.specs.Calls.{AreInputsJudged, AreWarningsOf, IsAnswerTo, IsComplete, IsFaultSaid, IsGradeOf, IsJudgedWith, IsNoTask, IsOutOfMemory, IsTaskJudged, number_unless_largest};
ghost use Rattle.bgview_exports.specs.declared.given.NoAnswer.TheVariants.{TooLong};

use crate::asked::number_unless_largest;
use crate::given::NoAnswer;
use decision_tasks::DecisionTask;
use fault_words::say_faults;
use file_faults::{lint, warnings_of};
use file_verdicts::judge;
use input_vectors::read_values;
use io_text::MAX_INPUT;
use itoa::Buffer;
use room_files::{Answer, Outcome};
use room_sample::{OneWorker, Plan};
use run_picture::Style;
use run_search::Silent;
use script_play::{PlayText, play};
use std::alloc::Global;
use view_draw::draw;
use view_grade::{Aim, grade, read_goal};
use view_outcomes::{Asked, Form, Search, search_blocks};
use view_page::{page, page_of_kept};
use view_rooms::{RoomPlan, search_rooms};
use view_sample::sample_blocks;
use view_trace::{trace, trace_json};
use view_transcript::transcribe;
use view_why::{explain, explain_json, explain_kept};

/// Whether an input has at most 16777216 bytes, or that it is too long.
fn fits(input: &[u8]) -> Result<(), NoAnswer>
    ensures ok { OnOk result (length input.now ≤ most_bytes) }
    ensures err { IfErr result (λ fault. (fault ≡ TooLong) × (most_bytes < length input.now)) }
{
    if input.len() > MAX_INPUT {
        return Err(NoAnswer::TooLong);
    }
    Ok(())
}

/// An answer for which no allocation failed.
fn complete(answer: Answer) -> PlayText
    ensures output { result.output ≡ answer.output }
    ensures ending { result.ending ≡ Ok answer.outcome }
{
    PlayText {
        output: answer.output,
        ending: Ok(answer.outcome),
    }
}

/// Plays a script.
pub fn played(alloc: Global, script: &[u8]) -> Result<PlayText, NoAnswer>
    ensures { IsAnswerTo script.now (IsPlayFor Ordinary script.now) (IsFaultOr (IsOk (script_says script.now)) (script_says script.now)) result }
{
    fits(script)?;
    Ok(play(alloc, script)?)
}

/// Judges a transcript.
pub fn checked(alloc: Global, input: &[u8]) -> Result<PlayText, NoAnswer>
    ensures { IsAnswerTo input.now (IsComplete (IsOutputFor input.now)) (IsFaultOr (MayLackMemory Ordinary input.now) (input_says Ordinary input.now)) result }
{
    fits(input)?;
    Ok(complete(judge(alloc, input)?))
}

/// Plays a script, and says what each atomic step did, as text or as JSON.
pub fn traced(alloc: Global, script: &[u8], json: bool) -> Result<PlayText, NoAnswer>
    ensures { IsAnswerTo script.now (IsTraceIn json script.now) (IsFaultOr (IsOk (script_says script.now)) (script_says script.now)) result }
{
    fits(script)?;
    if json {
        return Ok(trace_json(alloc, script)?);
    }
    Ok(trace(alloc, script)?)
}

/// Judges a transcript, and says why a room's events are no run, as text or as JSON.
pub fn explained(alloc: Global, input: &[u8], json: bool) -> Result<PlayText, NoAnswer>
    ensures { IsAnswerTo input.now (IsComplete (IsExplanationIn json input.now)) (IsFaultOr (MayLackMemory All input.now) (input_says All input.now)) result }
{
    fits(input)?;
    if json {
        return Ok(complete(explain_json(alloc, input)?));
    }
    Ok(complete(explain(alloc, input)?))
}

/// Judges a transcript, and says why a room's events are no run, and whether each run keeps the task that a text says; as text or as JSON.
pub fn explained_with(
    alloc: Global,
    transcript: &[u8],
    task: &[u8],
    json: bool,
) -> Result<PlayText, NoAnswer>
    ensures { IsJudgedWith transcript.now task.now (λ lines. IsKeptExplanation json lines transcript.now) result }
{
    fits(transcript)?;
    let task = task_in(alloc, task)?;
    Ok(complete(explain_kept(alloc, transcript, json, &task)?))
}

/// The task that a text says.
fn task_in(alloc: Global, text: &[u8]) -> Result<DecisionTask, NoAnswer>
    ensures task { IfOk result (λ task. task_in text.now ≡ Ok task) }
    ensures err { IfErr result (IsNoTask text.now) }
{
    match DecisionTask::read(alloc, text)? {
        Ok(task) => Ok(task),
        Err(fault) => Err(NoAnswer::BadTask(fault)),
    }
}

/// Explains all faults of a file.
pub fn linted(alloc: Global, file: &[u8]) -> Result<PlayText, NoAnswer>
    ensures { IsAnswerTo file.now (IsComplete (IsLintFor file.now)) IsOutOfMemory result }
{
    fits(file)?;
    Ok(complete(lint(alloc, file)?))
}

/// Warns of what a file has that is no fault, but can hardly be meant.
pub fn warned(alloc: Global, file: &[u8]) -> Result<PlayText, NoAnswer>
    ensures { IsAnswerTo file.now (IsComplete (AreWarningsOf file.now)) IsOutOfMemory result }
{
    fits(file)?;
    Ok(PlayText {
        output: warnings_of(alloc, file)?,
        ending: Ok(Outcome::AllWell),
    })
}

/// Searches all runs of each room of a file.
pub fn searched(alloc: Global, rooms: &[u8], search: &Search<'_>) -> Result<PlayText, NoAnswer>
    ensures { IsAnswerTo rooms.now (IsComplete (IsOutcomesFor search.now rooms.now)) IsOutOfMemory result }
{
    fits(rooms)?;
    Ok(complete(search_blocks(alloc, rooms, search, &mut Silent)?))
}

/// Judges the task of each room of a file with all inputs of the values that a text says.
pub fn judged_with_inputs(
    alloc: Global,
    rooms: &[u8],
    values: &[u8],
    nodes: u32,
    form: Form,
) -> Result<PlayText, NoAnswer>
    ensures { AreInputsJudged rooms.now values.now nodes form result }
{
    fits(rooms)?;
    match read_values(values) {
        Ok(values) => {
            let search = within(nodes, form, Asked::Inputs(values.as_slice()));
            searched(alloc, rooms, &search)
        }
        Err(fault) => Err(NoAnswer::BadValues(fault)),
    }
}

/// Judges each room of a file by the task that a text says.
pub fn judged_by_task(
    alloc: Global,
    rooms: &[u8],
    task: &[u8],
    nodes: u32,
    form: Form,
) -> Result<PlayText, NoAnswer>
    ensures { IsTaskJudged rooms.now task.now nodes form result }
{
    fits(rooms)?;
    let task = task_in(alloc, task)?;
    searched(alloc, rooms, &within(nodes, form, Asked::Keeps(&task)))
}

/// The search that asks this of each room, in which at most `crashes` processes stop, or all but one if it is 4294967295.
pub fn search_of(crashes: u32, nodes: u32, brief: bool, form: Form, asked: Asked<'_>) -> Search<'_>
    ensures { result ≡ record { crashes = number_unless_largest crashes; nodes = nodes; brief = brief; form = form; asked = asked.entry } }
{
    Search {
        crashes: number_unless_largest(crashes),
        nodes,
        brief,
        form,
        asked,
    }
}

/// The search of at most this many nodes of a room that asks this of each, and leaves out no run.
fn within(nodes: u32, form: Form, asked: Asked<'_>) -> Search<'_>
    ensures { result ≡ record { crashes = None; nodes = nodes; brief = false; form = form; asked = asked.entry } }
{
    Search {
        crashes: None,
        nodes,
        brief: false,
        form,
        asked,
    }
}

/// Searches all schedules of the simulators of each room of a file.
pub fn rooms_searched(alloc: Global, rooms: &[u8], plan: &RoomPlan) -> Result<PlayText, NoAnswer>
    ensures { IsAnswerTo rooms.now (IsComplete (IsRoomsFor plan.now rooms.now)) IsOutOfMemory result }
{
    fits(rooms)?;
    Ok(complete(search_rooms(alloc, rooms, plan, &mut Silent)?))
}

/// Runs each room of a file by random schedules, on this thread, and counts the outcomes.
pub fn sampled(alloc: Global, rooms: &[u8], plan: &Plan) -> Result<PlayText, NoAnswer>
    ensures { IsAnswerTo rooms.now (IsSampleFor plan.now rooms.now) IsOutOfMemory result }
{
    fits(rooms)?;
    Ok(sample_blocks(&OneWorker, alloc, rooms, plan, &mut Silent)?)
}

/// Draws a script.
pub fn drawn(alloc: Global, script: &[u8], style: Style) -> Result<PlayText, NoAnswer>
    ensures { IsAnswerTo script.now (IsDrawn style script.now) (IsFaultOr (IsOk (script_says script.now)) (script_says script.now)) result }
{
    fits(script)?;
    Ok(draw(alloc, style, script)?)
}

/// Writes a script's rooms as a transcript.
pub fn transcribed(alloc: Global, script: &[u8]) -> Result<PlayText, NoAnswer>
    ensures { IsAnswerTo script.now (IsTranscribed script.now) (IsFaultOr (IsOk (script_says script.now)) (script_says script.now)) result }
{
    fits(script)?;
    Ok(transcribe(alloc, script)?)
}

/// Makes a page of a file.
pub fn paged(alloc: Global, file: &[u8]) -> Result<PlayText, NoAnswer>
    ensures { IsAnswerTo file.now (IsPageFor (file.now ∷ [])) (IsFaultOf (fault_among (file.now ∷ []))) result }
{
    fits(file)?;
    Ok(page(alloc, file)?)
}

/// Makes a page of a transcript whose runs are judged by the task that a text says.
pub fn paged_with(alloc: Global, transcript: &[u8], task: &[u8]) -> Result<PlayText, NoAnswer>
    ensures { IsJudgedWith transcript.now task.now (λ lines. IsKeptPage lines transcript.now) result }
{
    fits(transcript)?;
    let task = task_in(alloc, task)?;
    Ok(complete(page_of_kept(alloc, transcript, &task)?))
}

/// Grades a script by the goal that a text says, with at most this number of commands `step` and `crash` if there is one; as JSON or as text.
pub fn graded(
    alloc: Global,
    script: &[u8],
    goal: &[u8],
    most: Option<u32>,
    json: bool,
) -> Result<PlayText, NoAnswer>
    ensures { IsGradeOf json script.now goal.now most result }
{
    fits(script)?;
    match read_goal(alloc, goal)? {
        Ok(goal) => {
            let aim = Aim {
                goal: &goal,
                most,
                json,
            };
            Ok(grade(alloc, &aim, script)?)
        }
        Err(fault) => Err(NoAnswer::BadGoal(fault)),
    }
}

/// Says in words what the number of a fault means.
pub fn said(alloc: Global, number: u32) -> Result<PlayText, NoAnswer>
    ensures { IsAnswerTo [] (IsComplete (IsFaultSaid number)) IsOutOfMemory result }
{
    let mut buffer = Buffer::new();
    Ok(complete(say_faults(alloc, &[buffer.format(number)])?))
}
