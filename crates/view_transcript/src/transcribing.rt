//! From a script to the transcript of its rooms.
ghost use Rattle.std.specs.Prelude.{◌≡◌, ◌≤◌, ◌++◌, [], IsOk, IfOk, IfErr, length};
ghost use Rattle.io_text.specs.Reading.{most_bytes};
ghost use Rattle.room_files.specs.Blocks.{IsFaultOr};
ghost use Rattle.script_play.specs.Script.{script_says};
ghost use Rattle.view_transcript.specs.Transcripts.{AreWrittenFrom, IsTranscribed, WrittenRooms, transcript_text};

use crate::text::write_rooms;
use crate::transcriber::Transcriber;
use io_text::Text;
use room_files::{InputFault, Kinds};
use script_play::{PlayText, Played, play_script};
use service_core::Service;
use std::alloc::{AllocError, Global};

/// Judges a script, does what it asks for if it has no fault, and writes its rooms as a transcript: the events of each in the order in
/// which they took effect (Herlihy and Wing 1990), when it was closed or, if it is still open, when the script ends. Of the rooms of one
/// name it is the last.
///
/// # Errors
///
/// The script's first malformed line; or an allocation that failed for what is kept of its rooms.
pub fn transcribe(alloc: Global, script: &[u8]) -> Result<PlayText, InputFault>
    requires { length script.now ≤ most_bytes }
    // The events of each room take effect at the steps that the script's commands took in it, in this order. So they are a run of its
    // processes, each of which does in it what it does in the room's history.
    ensures text { IfOk result (λ transcribed. IsTranscribed script.now transcribed.ending transcribed.output) }
    // An allocation that failed hides no malformed line.
    ensures err { IfErr result (IsFaultOr (IsOk (script_says script.now)) (script_says script.now)) }
{
    let Played {
        service,
        follower,
        ending,
    } = play_script(alloc, Kinds::All, Transcriber::new(alloc), script)?;
    let output = text_of(alloc, &service, &follower)?;
    Ok(PlayText { output, ending })
}

fn text_of(alloc: Global, service: &Service, done: &Transcriber) -> Result<Text, AllocError>
    ensures { IfOk result (λ text. (written : WrittenRooms) × AreWrittenFrom service.now done.now.rooms.entries written × (text ≡ transcript_text written)) }
{
    let mut output = Text::new(alloc);
    write_rooms(alloc, &mut output, service, &done.rooms)?;
    Ok(output)
}
