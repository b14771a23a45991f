//! From bytes to bytes.
ghost use Rattle.std.specs.Prelude.{◌≡◌, ◌+◌, ◌≤◌, List, ℕ, false, length, IfSome};
ghost use Rattle.std.specs.Io.KnownBytes.{Appends};
ghost use Rattle.io_text.specs.Devices.{HasRead, HasWritten, failed_writes};
ghost use Rattle.bgsim_console.specs.Check.{IsAnswer};
ghost use Rattle.bgsim_console.specs.Play.{IsPlayed};
ghost use Rattle.bgsim_console.specs.Run.{IsRan};
ghost use Rattle.bgsim_console.specs.Ends.{is_read_failed, is_write_failed};

use crate::fault::{IoFault, written};
use crate::run::run_blocks;
use file_verdicts::judge;
use io_text::{Device, read_input, write_output};
use room_files::Outcome;
use scheduler::Gate;
use script_play::play;
use std::alloc::Global;
use std::io::{Read, Write};
use std::sync::Wait;
use std::thread::Threads;

/// Judges the transcript that the reader gives, and writes the verdicts.
///
/// # Errors
///
/// The input's first fault, found before anything is written; a device that failed; or an
/// allocation that failed.
pub fn check_io<R: Read, W: Write>(
    alloc: Global,
    reader: &mut Device<R>,
    writer: &mut Device<W>,
) -> Result<Outcome, IoFault>
    requires reader { reader.old.failed ≡ false }
    requires writer { writer.old.failed ≡ false }
    // What is written is the output for what was read, and the answer goes with it. No write is of nothing.
    ensures text { IfSome (R.remaining reader.old.inner) (λ input. (output : List ℕ) × IsAnswer input result output
        × Appends (W.contents writer.old.inner) (W.contents writer.new.inner) output
        × (writer.new.calls ≤ writer.old.calls + length output + failed_writes (is_write_failed result))) }
    ensures reader { HasRead reader.old reader.new (R.remaining reader.old.inner) (is_read_failed result) }
    ensures writer { HasWritten writer.old writer.new result (is_write_failed result) }
{
    let input = read_input(alloc, reader)?;
    let answer = judge(alloc, &input)?;
    write_output(writer, answer.output.as_bytes())?;
    Ok(answer.outcome)
}

/// Plays the script that the reader gives, and writes the replies. The whole script is read and
/// judged before anything is written.
///
/// # Errors
///
/// The script's first fault, found before anything is written; a device that failed; or an
/// allocation that failed. If an allocation failed for a block or a command, the script goes on to its end.
pub fn play_io<R: Read, W: Write>(
    alloc: Global,
    reader: &mut Device<R>,
    writer: &mut Device<W>,
) -> Result<Outcome, IoFault>
    requires reader { reader.old.failed ≡ false }
    requires writer { writer.old.failed ≡ false }
    // What is written is the text for what was read, and the answer goes with it. No write is of nothing.
    ensures text { IfSome (R.remaining reader.old.inner) (λ input. (output : List ℕ) × IsPlayed input result output
        × Appends (W.contents writer.old.inner) (W.contents writer.new.inner) output
        × (writer.new.calls ≤ writer.old.calls + length output + failed_writes (is_write_failed result))) }
    ensures reader { HasRead reader.old reader.new (R.remaining reader.old.inner) (is_read_failed result) }
    ensures writer { HasWritten writer.old writer.new result (is_write_failed result) }
{
    let script = read_input(alloc, reader)?;
    let played = play(alloc, &script)?;
    write_output(writer, played.output.as_bytes())?;
    written(played.ending)
}

/// Runs the rooms of the blocks that the reader gives, by workers on threads of their own, and writes
/// the lines of the refused blocks and each room's report. Which steps interleave is the threads'
/// affair; whichever do, each report is one that its own room allows.
///
/// # Errors
///
/// A device that failed; an input that is too long; what ended the rooms, found before anything is
/// written; or an allocation that failed.
pub fn run_io<H: Threads + Wait + Sync, R: Read, W: Write, G: Gate + Sync>(
    rt: &H,
    alloc: Global,
    reader: &mut Device<R>,
    writer: &mut Device<W>,
    workers: u8,
    gate: &G,
) -> Result<Outcome, IoFault>
    requires reader { reader.old.failed ≡ false }
    requires writer { writer.old.failed ≡ false }
    // What is written is a text for what was read, and the answer goes with it. No write is of nothing.
    ensures text { IfSome (R.remaining reader.old.inner) (λ input. (output : List ℕ) × IsRan workers input result output
        × Appends (W.contents writer.old.inner) (W.contents writer.new.inner) output
        × (writer.new.calls ≤ writer.old.calls + length output + failed_writes (is_write_failed result))) }
    ensures reader { HasRead reader.old reader.new (R.remaining reader.old.inner) (is_read_failed result) }
    ensures writer { HasWritten writer.old writer.new result (is_write_failed result) }
{
    let input = read_input(alloc, reader)?;
    let ran = run_blocks(rt, alloc, input, workers, gate)?;
    write_output(writer, ran.output.as_bytes())?;
    Ok(ran.outcome)
}
