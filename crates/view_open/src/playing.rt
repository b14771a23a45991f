//! A script, and the outcomes that are open after each of its commands.
ghost use Rattle.std.specs.Prelude.{◌≡◌, ◌≤◌, IfErr, IfOk, IsOk, length};
ghost use Rattle.io_text.specs.Reading.{most_bytes};
ghost use Rattle.room_files.specs.Blocks.{IsFaultOr};
ghost use Rattle.script_play.specs.Script.{script_says};
ghost use Rattle.view_open.specs.Watched.{IsOpenFor, ending_shown};

use crate::plan::OpenPlan;
use crate::watcher::{Follower, Watcher};
use room_files::{InputFault, Kinds, Outcome};
use run_search::Progress;
use script_play::{PlayText, Played, play_script};
use std::alloc::{AllocError, Global};

/// Plays a script, and gives the replies, and after each command that opens or changes a room, the outcomes that its simulators can still reach, and those that were
/// open before it and are no more. The whole script is judged before anything is done. All is well if nothing was refused, and each search has found all outcomes that are
/// open. Reports how many nodes of a room have been searched after a command.
///
/// # Errors
///
/// The script's first fault, or an allocation that failed. If that was for a block or a command, the script goes on to its end.
pub fn open_outcomes<P: Progress>(
    alloc: Global,
    plan: &OpenPlan,
    script: &[u8],
    progress: &mut P,
) -> Result<PlayText, InputFault>
    requires { length script.now ≤ most_bytes }
    ensures shown { IfOk result (λ shown. IsOpenFor plan.now script.now shown.ending shown.output) }
    // An allocation that fails hides no malformed line.
    ensures err { IfErr result (IsFaultOr (IsOk (script_says script.now)) (script_says script.now)) }
{
    let follower = Follower {
        watcher: Watcher::new(alloc, plan),
        progress,
    };
    let Played {
        follower,
        ending,
        ..
    } = play_script(alloc, Kinds::All, follower, script)?;
    let Follower { watcher, .. } = follower;
    let Watcher { output, well, .. } = watcher;
    Ok(PlayText {
        output,
        ending: ending_shown(well, ending),
    })
}

/// How a script ends, if each search has found all outcomes that are open, or not.
fn ending_shown(well: bool, ending: Result<Outcome, AllocError>) -> Result<Outcome, AllocError>
    ensures { result ≡ ending_shown well ending }
{
    if well {
        return ending;
    }
    ending.and(Ok(Outcome::SomeRefused))
}
