//! Whether a goal is reached.
ghost use Rattle.std.specs.Prelude.{◌≡◌};
ghost use Rattle.view_grade.specs.Grades.{are_few, is_reached, is_satisfied};
ghost use Rattle.view_grade.specs.Keeping.{is_kept_reached};

use crate::aim::Aim;
use crate::goal::Goal;
use crate::grader::Grader;
use crate::judging::satisfies;
use crate::keeper::Broken;
use crate::reported::Reported;

/// Whether the goal is reached, and the task is kept.
pub(crate) fn is_kept_reached(aim: &Aim<'_>, grader: &Grader, broken: &Option<Broken>) -> bool
    ensures { result ≡ is_kept_reached aim.now.goal.now aim.now.most (record { last = grader.now.last; moves = grader.now.moves }) broken.now }
{
    is_reached(aim, grader) && broken.is_none()
}

/// Whether the last report satisfies the goal, and there are not too many moves.
pub(crate) fn is_reached(aim: &Aim<'_>, grader: &Grader) -> bool
    ensures { result ≡ is_reached aim.now.goal.now aim.now.most grader.now.last grader.now.moves }
{
    is_satisfied(aim.goal, &grader.last) && are_few(aim.most, grader.moves)
}

fn is_satisfied(goal: &Goal, last: &Option<Reported>) -> bool
    ensures { result ≡ is_satisfied last.now goal.now }
{
    match last {
        Some(reported) => satisfies(reported, goal.claims()),
        None => false,
    }
}

fn are_few(most: Option<u32>, moves: u64) -> bool
    ensures { result ≡ are_few most moves }
{
    match most {
        Some(most) => moves <= u64::from(most),
        None => true,
    }
}
