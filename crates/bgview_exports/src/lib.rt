//! What `bgsim` and `bgview` answer, for programs in C and in languages that call C. Each call takes an input and a buffer. It writes as much of the
//! answer as fits, and says how the answer ended and how long it is; if the buffer is too small a caller calls again. Nothing is kept between calls, so
//! they may be made on any number of threads. `include/bgview.h` says what a caller owes.
#![tactic(auto)]

ghost use Rattle.std.specs.Prelude.{◌≡◌, ◌∷◌, [], IsOk, false, true};
ghost use Rattle.file_faults.specs.Lint.{IsLintFor};
ghost use Rattle.file_verdicts.specs.Check.{IsOutputFor};
ghost use Rattle.room_files.specs.Blocks.{IsFaultOr};
ghost use Rattle.room_files.specs.Inputs.{MayLackMemory, input_says};
ghost use Rattle.room_files.specs.declared.kinds.Kinds.TheVariants.{All, Ordinary};
ghost use Rattle.script_play.specs.Play.{IsPlayFor};
ghost use Rattle.script_play.specs.Script.{script_says};
ghost use Rattle.view_draw.specs.Drawn.{IsDrawn};
ghost use Rattle.view_outcomes.specs.Blocks.{IsOutcomesFor};
ghost use Rattle.view_outcomes.specs.declared.search.Asked.TheVariants.{Outcomes, Task};
ghost use Rattle.view_outcomes.specs.declared.search.Form.TheVariants.{Json, Text as TextForm};
ghost use Rattle.view_page.specs.Pages.{IsFaultOf, IsKeptPage, IsPageFor, fault_among};
ghost use Rattle.view_rooms.specs.Blocks.{IsRoomsFor};
ghost use Rattle.view_sample.specs.Sample.{IsSampleFor};
ghost use Rattle.view_trace.specs.Trace.{IsTraceIn};
ghost use Rattle.view_transcript.specs.Transcripts.{IsTranscribed};
ghost use Rattle.view_why.specs.Keeping.{IsKeptExplanation};
ghost use Rattle.view_why.specs.Why.{IsExplanationIn};
ghost use Rattle.bgview_exports.specs.Calls.{AreInputsJudged, AreWarningsOf, IsAnswerTo, IsComplete, IsFaultSaid, IsGiven, IsGradeOf, IsJudgedWith, IsOutOfMemory, IsTaskJudged, number_unless_largest, plan_of, room_plan_of};

mod answers;
mod asked;
mod given;

use answers::{
    checked, drawn, explained, explained_with, graded, judged_by_task, judged_with_inputs, linted,
    paged, paged_with, played, rooms_searched, said, sampled, search_of, searched, traced,
    transcribed, warned,
};
pub use asked::{SamplePlan, SearchPlan};
use asked::{number_unless_largest, plan_of, room_plan_of};
use given::give;
pub use given::{CallResult, NoAnswer};
use run_picture::Style;
use std::alloc::Global;
use view_outcomes::{Asked, Form};

/// Judges a transcript, as `bgsim check`.
#[unsafe(no_mangle)]
pub extern "C" fn bgview_check(
    alloc: Global,
    transcript: &[u8],
    output: &mut [u8],
    ended: &mut CallResult,
)
    ensures { IsGiven (IsAnswerTo transcript.now (IsComplete (IsOutputFor transcript.now)) (IsFaultOr (MayLackMemory Ordinary transcript.now) (input_says Ordinary transcript.now)))
        output.old output.new ended.new }
{
    *ended = give(&checked(alloc, transcript), output);
}

/// Plays a script, as `bgsim play`.
#[unsafe(no_mangle)]
pub extern "C" fn bgview_play(
    alloc: Global,
    script: &[u8],
    output: &mut [u8],
    ended: &mut CallResult,
)
    ensures { IsGiven (IsAnswerTo script.now (IsPlayFor Ordinary script.now) (IsFaultOr (IsOk (script_says script.now)) (script_says script.now)))
        output.old output.new ended.new }
{
    *ended = give(&played(alloc, script), output);
}

/// Says what each atomic step of a script did, as `bgview trace`.
#[unsafe(no_mangle)]
pub extern "C" fn bgview_trace(
    alloc: Global,
    script: &[u8],
    json: bool,
    output: &mut [u8],
    ended: &mut CallResult,
)
    ensures { IsGiven (IsAnswerTo script.now (IsTraceIn json script.now) (IsFaultOr (IsOk (script_says script.now)) (script_says script.now)))
        output.old output.new ended.new }
{
    *ended = give(&traced(alloc, script, json), output);
}

/// Judges a transcript, and says why a room's events are no run, as `bgview why`.
#[unsafe(no_mangle)]
pub extern "C" fn bgview_why(
    alloc: Global,
    transcript: &[u8],
    json: bool,
    output: &mut [u8],
    ended: &mut CallResult,
)
    ensures { IsGiven (IsAnswerTo transcript.now (IsComplete (IsExplanationIn json transcript.now)) (IsFaultOr (MayLackMemory All transcript.now) (input_says All transcript.now)))
        output.old output.new ended.new }
{
    *ended = give(&explained(alloc, transcript, json), output);
}

/// Judges a transcript, says why a room's events are no run, and whether each run keeps a task of one's own, as `bgview why --keeps`.
#[unsafe(no_mangle)]
pub extern "C" fn bgview_why_with(
    alloc: Global,
    transcript: &[u8],
    task: &[u8],
    output: &mut [u8],
    ended: &mut CallResult,
)
    ensures { IsGiven (IsJudgedWith transcript.now task.now (λ lines. IsKeptExplanation false lines transcript.now)) output.old output.new ended.new }
{
    *ended = give(&explained_with(alloc, transcript, task, false), output);
}

/// The same as JSON: an object for each room, as `bgview why --keeps --json`.
#[unsafe(no_mangle)]
pub extern "C" fn bgview_why_with_json(
    alloc: Global,
    transcript: &[u8],
    task: &[u8],
    output: &mut [u8],
    ended: &mut CallResult,
)
    ensures { IsGiven (IsJudgedWith transcript.now task.now (λ lines. IsKeptExplanation true lines transcript.now)) output.old output.new ended.new }
{
    *ended = give(&explained_with(alloc, transcript, task, true), output);
}

/// Explains all faults of a file of rooms, a script or a transcript, as `bgview lint`.
#[unsafe(no_mangle)]
pub extern "C" fn bgview_lint(alloc: Global, file: &[u8], output: &mut [u8], ended: &mut CallResult)
    ensures { IsGiven (IsAnswerTo file.now (IsComplete (IsLintFor file.now)) IsOutOfMemory) output.old output.new ended.new }
{
    *ended = give(&linted(alloc, file), output);
}

/// Warns of what a file has that is no fault but can hardly be meant, as `bgview lint` on standard error.
#[unsafe(no_mangle)]
pub extern "C" fn bgview_warnings(
    alloc: Global,
    file: &[u8],
    output: &mut [u8],
    ended: &mut CallResult,
)
    ensures { IsGiven (IsAnswerTo file.now (IsComplete (AreWarningsOf file.now)) IsOutOfMemory) output.old output.new ended.new }
{
    *ended = give(&warned(alloc, file), output);
}

/// Searches all runs of each room of a file, as `bgview outcomes`. At most `crashes` processes stop, or all but one if it is 4294967295; at most `nodes` nodes of
/// a room are searched; `brief` leaves out the transcripts.
#[unsafe(no_mangle)]
pub extern "C" fn bgview_outcomes(
    alloc: Global,
    rooms: &[u8],
    crashes: u32,
    nodes: u32,
    brief: bool,
    output: &mut [u8],
    ended: &mut CallResult,
)
    ensures { IsGiven (IsAnswerTo rooms.now
        (IsComplete (IsOutcomesFor (record { crashes = number_unless_largest crashes; nodes = nodes; brief = brief; form = TextForm; asked = Outcomes }) rooms.now)) IsOutOfMemory)
        output.old output.new ended.new }
{
    let search = search_of(crashes, nodes, brief, Form::Text, Asked::Outcomes);
    *ended = give(&searched(alloc, rooms, &search), output);
}

/// The same as JSON: an object a line, as `bgview outcomes --json`.
#[unsafe(no_mangle)]
pub extern "C" fn bgview_outcomes_json(
    alloc: Global,
    rooms: &[u8],
    crashes: u32,
    nodes: u32,
    brief: bool,
    output: &mut [u8],
    ended: &mut CallResult,
)
    ensures { IsGiven (IsAnswerTo rooms.now
        (IsComplete (IsOutcomesFor (record { crashes = number_unless_largest crashes; nodes = nodes; brief = brief; form = Json; asked = Outcomes }) rooms.now)) IsOutOfMemory)
        output.old output.new ended.new }
{
    let search = search_of(crashes, nodes, brief, Form::Json, Asked::Outcomes);
    *ended = give(&searched(alloc, rooms, &search), output);
}

/// Judges the task of each room of a file, and lists no outcomes, as `bgview outcomes --task`. At most `nodes` nodes of a room are searched; `crashes` is as for
/// outcomes, and makes no difference to a task.
#[unsafe(no_mangle)]
pub extern "C" fn bgview_task(
    alloc: Global,
    rooms: &[u8],
    crashes: u32,
    nodes: u32,
    output: &mut [u8],
    ended: &mut CallResult,
)
    ensures { IsGiven (IsAnswerTo rooms.now
        (IsComplete (IsOutcomesFor (record { crashes = number_unless_largest crashes; nodes = nodes; brief = false; form = TextForm; asked = Task }) rooms.now)) IsOutOfMemory)
        output.old output.new ended.new }
{
    let search = search_of(crashes, nodes, false, Form::Text, Asked::Task);
    *ended = give(&searched(alloc, rooms, &search), output);
}

/// The same as JSON: an object for each room, as `bgview outcomes --task --json`.
#[unsafe(no_mangle)]
pub extern "C" fn bgview_task_json(
    alloc: Global,
    rooms: &[u8],
    crashes: u32,
    nodes: u32,
    output: &mut [u8],
    ended: &mut CallResult,
)
    ensures { IsGiven (IsAnswerTo rooms.now
        (IsComplete (IsOutcomesFor (record { crashes = number_unless_largest crashes; nodes = nodes; brief = false; form = Json; asked = Task }) rooms.now)) IsOutOfMemory)
        output.old output.new ended.new }
{
    let search = search_of(crashes, nodes, false, Form::Json, Asked::Task);
    *ended = give(&searched(alloc, rooms, &search), output);
}

/// Judges the task of each room of a file with all inputs of these values, as `bgview outcomes --inputs`. The values are text, as `0,1,5`. At most `nodes` nodes
/// of a room are searched for each vector of inputs.
#[unsafe(no_mangle)]
pub extern "C" fn bgview_inputs(
    alloc: Global,
    rooms: &[u8],
    values: &[u8],
    nodes: u32,
    output: &mut [u8],
    ended: &mut CallResult,
)
    ensures { IsGiven (AreInputsJudged rooms.now values.now nodes TextForm) output.old output.new ended.new }
{
    let judged = judged_with_inputs(alloc, rooms, values, nodes, Form::Text);
    *ended = give(&judged, output);
}

/// The same as JSON: an object for each vector and for each room, as `bgview outcomes --inputs --json`.
#[unsafe(no_mangle)]
pub extern "C" fn bgview_inputs_json(
    alloc: Global,
    rooms: &[u8],
    values: &[u8],
    nodes: u32,
    output: &mut [u8],
    ended: &mut CallResult,
)
    ensures { IsGiven (AreInputsJudged rooms.now values.now nodes Json) output.old output.new ended.new }
{
    let judged = judged_with_inputs(alloc, rooms, values, nodes, Form::Json);
    *ended = give(&judged, output);
}

/// Judges each room of a file by a task of one's own, as `bgview outcomes --keeps`. At most `nodes` nodes of a room are searched.
#[unsafe(no_mangle)]
pub extern "C" fn bgview_keeps(
    alloc: Global,
    rooms: &[u8],
    task: &[u8],
    nodes: u32,
    output: &mut [u8],
    ended: &mut CallResult,
)
    ensures { IsGiven (IsTaskJudged rooms.now task.now nodes TextForm) output.old output.new ended.new }
{
    let judged = judged_by_task(alloc, rooms, task, nodes, Form::Text);
    *ended = give(&judged, output);
}

/// The same as JSON: an object for each room, as `bgview outcomes --keeps --json`.
#[unsafe(no_mangle)]
pub extern "C" fn bgview_keeps_json(
    alloc: Global,
    rooms: &[u8],
    task: &[u8],
    nodes: u32,
    output: &mut [u8],
    ended: &mut CallResult,
)
    ensures { IsGiven (IsTaskJudged rooms.now task.now nodes Json) output.old output.new ended.new }
{
    let judged = judged_by_task(alloc, rooms, task, nodes, Form::Json);
    *ended = give(&judged, output);
}

/// Searches all schedules of the simulators of each room of a file, as `bgview outcomes --rooms`.
#[unsafe(no_mangle)]
pub extern "C" fn bgview_rooms(
    alloc: Global,
    rooms: &[u8],
    plan: &SearchPlan,
    output: &mut [u8],
    ended: &mut CallResult,
)
    ensures { IsGiven (IsAnswerTo rooms.now (IsComplete (IsRoomsFor (room_plan_of plan.now) rooms.now)) IsOutOfMemory) output.old output.new ended.new }
{
    *ended = give(&rooms_searched(alloc, rooms, &room_plan_of(plan)), output);
}

/// Runs each room of a file by random schedules on this thread, and counts the outcomes, as `bgview sample`.
#[unsafe(no_mangle)]
pub extern "C" fn bgview_sample(
    alloc: Global,
    rooms: &[u8],
    plan: &SamplePlan,
    output: &mut [u8],
    ended: &mut CallResult,
)
    ensures { IsGiven (IsAnswerTo rooms.now (IsSampleFor (plan_of plan.now) rooms.now) IsOutOfMemory) output.old output.new ended.new }
{
    *ended = give(&sampled(alloc, rooms, &plan_of(plan)), output);
}

/// Draws a script as SVG, as `bgview draw`. At 100 `percent` a picture is 1264 pixels wide, unless events or inputs are long; `by_turns` draws a box for each
/// stretch of a turn.
#[unsafe(no_mangle)]
pub extern "C" fn bgview_draw(
    alloc: Global,
    script: &[u8],
    percent: u32,
    by_turns: bool,
    output: &mut [u8],
    ended: &mut CallResult,
)
    ensures { IsGiven (IsAnswerTo script.now (IsDrawn (record { percent = percent; by_turns = by_turns }) script.now) (IsFaultOr (IsOk (script_says script.now)) (script_says script.now)))
        output.old output.new ended.new }
{
    let style = Style { percent, by_turns };
    *ended = give(&drawn(alloc, script, style), output);
}

/// Writes a script's rooms as a transcript, as `bgview transcript`.
#[unsafe(no_mangle)]
pub extern "C" fn bgview_transcript(
    alloc: Global,
    script: &[u8],
    output: &mut [u8],
    ended: &mut CallResult,
)
    ensures { IsGiven (IsAnswerTo script.now (IsTranscribed script.now) (IsFaultOr (IsOk (script_says script.now)) (script_says script.now)))
        output.old output.new ended.new }
{
    *ended = give(&transcribed(alloc, script), output);
}

/// Makes a page that steps through a script or a transcript in a browser, as `bgview page` of one file.
#[unsafe(no_mangle)]
pub extern "C" fn bgview_page(alloc: Global, file: &[u8], output: &mut [u8], ended: &mut CallResult)
    ensures { IsGiven (IsAnswerTo file.now (IsPageFor (file.now ∷ [])) (IsFaultOf (fault_among (file.now ∷ [])))) output.old output.new ended.new }
{
    *ended = give(&paged(alloc, file), output);
}

/// Makes a page that steps through a transcript, and says whether its runs keep a task of one's own, as `bgview page --keeps`.
#[unsafe(no_mangle)]
pub extern "C" fn bgview_page_with(
    alloc: Global,
    transcript: &[u8],
    task: &[u8],
    output: &mut [u8],
    ended: &mut CallResult,
)
    ensures { IsGiven (IsJudgedWith transcript.now task.now (λ lines. IsKeptPage lines transcript.now)) output.old output.new ended.new }
{
    *ended = give(&paged_with(alloc, transcript, task), output);
}

/// Says whether the last report of a script satisfies a goal, as `bgview grade`. The script may have at most `most` commands `step` and `crash`, or any number of
/// them if it is 4294967295.
#[unsafe(no_mangle)]
pub extern "C" fn bgview_grade(
    alloc: Global,
    script: &[u8],
    goal: &[u8],
    most: u32,
    output: &mut [u8],
    ended: &mut CallResult,
)
    ensures { IsGiven (IsGradeOf false script.now goal.now (number_unless_largest most)) output.old output.new ended.new }
{
    let most = number_unless_largest(most);
    *ended = give(&graded(alloc, script, goal, most, false), output);
}

/// Says the same as [`bgview_grade`] as JSON, as `bgview grade --json`.
#[unsafe(no_mangle)]
pub extern "C" fn bgview_grade_json(
    alloc: Global,
    script: &[u8],
    goal: &[u8],
    most: u32,
    output: &mut [u8],
    ended: &mut CallResult,
)
    ensures { IsGiven (IsGradeOf true script.now goal.now (number_unless_largest most)) output.old output.new ended.new }
{
    let most = number_unless_largest(most);
    *ended = give(&graded(alloc, script, goal, most, true), output);
}

/// Says in words what the number of a fault means, as `bgview fault`.
#[unsafe(no_mangle)]
pub extern "C" fn bgview_fault(
    alloc: Global,
    number: u32,
    output: &mut [u8],
    ended: &mut CallResult,
)
    ensures { IsGiven (IsAnswerTo [] (IsComplete (IsFaultSaid number)) IsOutOfMemory) output.old output.new ended.new }
{
    *ended = give(&said(alloc, number), output);
}
