//! A script's replies, and under each the atomic steps that its command took, as text or as JSON.
ghost use Rattle.std.specs.Prelude.{◌≡◌, ◌≤◌, IfErr, IfOk, IsOk, length};
ghost use Rattle.io_text.specs.Reading.{most_bytes};
ghost use Rattle.room_files.specs.Blocks.{IsFaultOr};
ghost use Rattle.script_play.specs.Script.{script_says};
ghost use Rattle.view_trace.specs.Trace.{IsJsonTraceFor, IsTraceFor};

use crate::tracer::Tracer;
use room_files::{InputFault, Kinds};
use script_play::{PlayText, Played, play_script};
use std::alloc::Global;

/// Plays a script, and gives the replies, and under each, after four spaces, the atomic steps that its command took, or why it was refused.
/// The whole script is judged before anything is done.
///
/// # Errors
///
/// The script's first fault, or an allocation that failed. If that was for a block or a command, the script goes on to its end.
pub fn trace(alloc: Global, script: &[u8]) -> Result<PlayText, InputFault>
    requires { length script.now ≤ most_bytes }
    ensures text { IfOk result (λ traced. IsTraceFor script.now traced.ending traced.output) }
    // An allocation that fails hides no malformed line.
    ensures err { IfErr result (IsFaultOr (IsOk (script_says script.now)) (script_says script.now)) }
{
    let Played {
        follower,
        ending,
        ..
    } = play_script(alloc, Kinds::All, Tracer::<false>::new(alloc), script)?;
    let Tracer {
        mut output,
        missed,
        ..
    } = follower;
    missed.write_end(&mut output, script)?;
    Ok(PlayText { output, ending })
}

/// Does the same as JSON: an object on a line for each reply, and after it one for each step that its command took.
///
/// # Errors
///
/// As of [`trace`].
pub fn trace_json(alloc: Global, script: &[u8]) -> Result<PlayText, InputFault>
    requires { length script.now ≤ most_bytes }
    ensures text { IfOk result (λ traced. IsJsonTraceFor script.now traced.ending traced.output) }
    ensures err { IfErr result (IsFaultOr (IsOk (script_says script.now)) (script_says script.now)) }
{
    let Played {
        follower,
        ending,
        ..
    } = play_script(alloc, Kinds::All, Tracer::<true>::new(alloc), script)?;
    let Tracer { output, .. } = follower;
    Ok(PlayText { output, ending })
}
