//! From a script and a goal to what is said of them.
ghost use Rattle.std.specs.Prelude.{◌≡◌, ◌≤◌, ◌++◌, IsOk, IfErr, IfOk, OnOk, length};
ghost use Rattle.io_text.specs.Reading.{most_bytes};
ghost use Rattle.room_files.specs.Blocks.{IsFaultOr};
ghost use Rattle.script_play.specs.Script.{script_says};
ghost use Rattle.view_grade.specs.Grades.{IsGraded, grade_shown, grade_text, graded_ending};
ghost use Rattle.view_grade.specs.Keeping.{IsKeptGrade, kept_shown, kept_text};

use crate::aim::Aim;
use crate::grader::Grader;
use crate::json::{write_grade_object, write_kept_object};
use crate::keeper::{Broken, Keeper};
use crate::kept_text::write_kept;
use crate::reaching::{is_kept_reached, is_reached};
use crate::text::{write_claims, write_end, write_few};
use decision_tasks::DecisionTask;
use io_text::Text;
use room_files::{InputFault, Kinds, Outcome, outcome_if};
use script_play::{PlayText, Played, play_script};
use std::alloc::{AllocError, Global};

/// Plays a script, and says of each claim of a goal whether the script's last report satisfies it, and whether the script has few enough
/// commands `step` and `crash`, if there is a limit. All is well if the goal is reached.
///
/// # Errors
///
/// The script's first malformed line; or an allocation that failed for what is kept of it.
pub fn grade(alloc: Global, aim: &Aim<'_>, script: &[u8]) -> Result<PlayText, InputFault>
    requires { length script.now ≤ most_bytes }
    ensures text { IfOk result (λ graded. IsGraded aim.now.json aim.now.goal.now aim.now.most script.now graded.ending graded.output) }
    // An allocation that fails hides no malformed line.
    ensures err { IfErr result (IsFaultOr (IsOk (script_says script.now)) (script_says script.now)) }
{
    let Played {
        follower,
        ending,
        ..
    } = play_script(alloc, Kinds::All, Grader::new(), script)?;
    let output = grade_shown(alloc, aim, &follower)?;
    let ending = graded_ending(ending, is_reached(aim, &follower));
    Ok(PlayText { output, ending })
}

/// Plays a script, and says what [`grade`] does; and then whether the history of each room, after each command to it, keeps a task of one's own, or which command is the first after
/// which it doesn't, and what was decided then. All is well if the goal is reached and the task kept.
///
/// # Errors
///
/// The script's first malformed line; or an allocation that failed for what is kept of it.
pub fn grade_kept(
    alloc: Global,
    aim: &Aim<'_>,
    task: &DecisionTask,
    script: &[u8],
) -> Result<PlayText, InputFault>
    requires { length script.now ≤ most_bytes }
    ensures text { IfOk result (λ graded. IsKeptGrade aim.now.json aim.now.goal.now aim.now.most task.now script.now graded.ending graded.output) }
    // An allocation that fails hides no malformed line.
    ensures err { IfErr result (IsFaultOr (IsOk (script_says script.now)) (script_says script.now)) }
{
    let Played {
        follower,
        ending,
        ..
    } = play_script(alloc, Kinds::All, Keeper::new(alloc, task, script), script)?;
    let Keeper { grader, broken, .. } = follower;
    let output = kept_shown(alloc, aim, &grader, &broken)?;
    let ending = graded_ending(ending, is_kept_reached(aim, &grader, &broken));
    Ok(PlayText { output, ending })
}

/// What is said of a report and a goal, and of a task.
fn kept_shown(
    alloc: Global,
    aim: &Aim<'_>,
    grader: &Grader,
    broken: &Option<Broken>,
) -> Result<Text, AllocError>
    ensures { IfOk result (λ text. text ≡ kept_shown aim.now.json aim.now.goal.now aim.now.most (record { last = grader.now.last; moves = grader.now.moves }) broken.now) }
{
    let mut output = Text::new(alloc);
    if aim.json {
        write_kept_object(alloc, &mut output, aim, grader, broken)?;
    } else {
        write_kept_text(&mut output, aim, grader, broken)?;
    }
    Ok(output)
}

fn write_kept_text(
    output: &mut Text,
    aim: &Aim<'_>,
    grader: &Grader,
    broken: &Option<Broken>,
) -> Result<(), AllocError>
    ensures { OnOk result (output.new ≡ output.old ++ kept_text aim.now.goal.now aim.now.most (record { last = grader.now.last; moves = grader.now.moves }) broken.now) }
{
    write_claims(output, &grader.last, aim.goal.claims())?;
    write_few(output, aim.most, grader.moves)?;
    write_kept(output, broken)?;
    write_end(output, is_kept_reached(aim, grader, broken))
}

/// What is said of a report and a goal.
fn grade_shown(alloc: Global, aim: &Aim<'_>, grader: &Grader) -> Result<Text, AllocError>
    ensures { IfOk result (λ text. text ≡ grade_shown aim.now.json aim.now.goal.now aim.now.most (record { last = grader.now.last; moves = grader.now.moves })) }
{
    let mut output = Text::new(alloc);
    if aim.json {
        write_grade_object(alloc, &mut output, aim, grader)?;
    } else {
        write_grade_text(&mut output, aim, grader)?;
    }
    Ok(output)
}

fn write_grade_text(output: &mut Text, aim: &Aim<'_>, grader: &Grader) -> Result<(), AllocError>
    ensures { OnOk result (output.new ≡ output.old ++ grade_text aim.now.goal.now aim.now.most grader.now.last grader.now.moves) }
{
    write_claims(output, &grader.last, aim.goal.claims())?;
    write_few(output, aim.most, grader.moves)?;
    write_end(output, is_reached(aim, grader))
}

/// The end of a script that is graded.
fn graded_ending(ending: Result<Outcome, AllocError>, reached: bool) -> Result<Outcome, AllocError>
    ensures { result ≡ graded_ending ending reached }
{
    ending?;
    Ok(outcome_if(reached))
}
