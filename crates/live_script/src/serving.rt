//! Reads a script as it is written, and writes the answer to each of its entries.
ghost use Rattle.std.specs.Prelude.{◌≡◌, ◌<◌, ◌++◌, [], List, ℕ, IfErr, IfOk, OnOk, true, false, length};
ghost use Rattle.std.specs.Io.KnownBytes.{Appends, Consumes, IsAtEnd};
ghost use Rattle.live_script.specs.Answers.{long_text};
ghost use Rattle.live_script.specs.Entries.{IsBegun};
ghost use Rattle.live_script.specs.Sessions.{EndsEarly, EndsLast, EndsReading, IsFedOn, IsLast, IsNew, IsSaidPart, IsServed, is_read_failed, is_write_failed};

use crate::entries::{MAX_ENTRY, front_of};
use crate::live::{Live, write_remark};
use io_text::{Device, DeviceFault, Text, write_output};
use room_files::Outcome;
use std::alloc::{AllocError, Global};
use std::io::{Read, Write};

/// How many bytes a read asks for.
const PIECE: usize = 65536;

/// Answers each entry of a script as soon as it was read whole: writes what `play` replies to it, or what is wrong with it, and flushes that.
/// Gives how the script ended once the reader has ended; an `Err` in that says that an allocation failed for something.
///
/// # Errors
///
/// A device that failed; an entry that is too long, which is said after the answers before it; or an allocation that failed for an answer.
/// After 2^64 - 1 reads it ends as if the reader had failed.
pub fn serve<R: Read, W: Write>(
    alloc: Global,
    reader: &mut Device<R>,
    writer: &mut Device<W>,
) -> Result<Result<Outcome, AllocError>, DeviceFault>
    requires reader { reader.old.failed ≡ false }
    requires writer { writer.old.failed ≡ false }
    // What is written is the answers to what was read, whatever comes after.
    ensures served { (bytes : List ℕ) × (output : List ℕ) × Consumes (R.remaining reader.old.inner) (R.remaining reader.new.inner) bytes
        × Appends (W.contents writer.old.inner) (W.contents writer.new.inner) output × IsServed bytes result output }
    ensures end { OnOk result (IsAtEnd (R.remaining reader.new.inner)) }
    ensures reader { is_read_failed result ≡ false → reader.new.failed ≡ false }
    ensures writer { writer.new.failed ≡ is_write_failed result }
    ensures flushed { is_write_failed result ≡ false → writer.old.flushed ≡ true → writer.new.flushed ≡ true }
{
    let mut feed = Feed::new(alloc)?;
    // A loop is proved to end, so this one counts its reads.
    for _ in 0..u64::MAX {
        if !feed.read(alloc, reader, writer)? {
            feed.end(alloc, writer)?;
            return Ok(feed.live.ending);
        }
    }
    Err(DeviceFault::Read)
}

/// A script of which not all is read.
#[derive(Drop)]
struct Feed {
    live: Live,
    /// The beginning of the next entry.
    begun: Vec<u8>,
    /// Room for what is read.
    piece: Vec<u8>,
}

impl Feed {
    fn new(alloc: Global) -> Result<Feed, AllocError>
        ensures live { IfOk result (λ feed. IsNew feed.live) }
        ensures begun { IfOk result (λ feed. feed.begun.items ≡ []) }
        ensures room { IfOk result (λ feed. 0 < length feed.piece.items) }
    {
        let piece = vec![in alloc; 0; PIECE]?;
        Ok(Feed {
            live: Live::new(alloc),
            begun: Vec::new(alloc),
            piece,
        })
    }

    /// Reads once, and answers the entries that are whole then. Gives whether there may be more to read.
    fn read<R: Read, W: Write>(
        &mut self,
        alloc: Global,
        reader: &mut Device<R>,
        writer: &mut Device<W>,
    ) -> Result<bool, DeviceFault>
        requires writer { writer.old.failed ≡ false }
        requires room { 0 < length self.old.piece.items }
        requires begun { IsBegun self.old.begun.items }
        ensures fed { OnOk result ((bytes : List ℕ) × (output : List ℕ)
            × Consumes (R.remaining reader.old.inner) (R.remaining reader.new.inner) bytes
            × Appends (W.contents writer.old.inner) (W.contents writer.new.inner) output
            × IsFedOn self.old.live (self.old.begun.items ++ bytes) self.new.begun.items output self.new.live) }
        ensures begun { OnOk result (IsBegun self.new.begun.items) }
        ensures room { OnOk result (0 < length self.new.piece.items) }
        ensures end { IfOk result (λ more. more ≡ false → IsAtEnd (R.remaining reader.new.inner)) }
        ensures err { IfErr result (λ fault. (bytes : List ℕ) × (output : List ℕ)
            × Consumes (R.remaining reader.old.inner) (R.remaining reader.new.inner) bytes
            × Appends (W.contents writer.old.inner) (W.contents writer.new.inner) output
            × EndsReading self.old.live self.old.begun.items bytes output fault) }
        ensures reader { is_read_failed result ≡ false → reader.new.failed ≡ reader.old.failed }
        ensures writer { writer.new.failed ≡ is_write_failed result }
        ensures flushed { is_write_failed result ≡ false → writer.old.flushed ≡ true → writer.new.flushed ≡ true }
    {
        let Ok(count) = reader.read(&mut self.piece) else {
            return Err(DeviceFault::Read);
        };
        if count == 0 {
            return Ok(false);
        }
        self.begun.extend_from_slice(&self.piece[..count])?;
        self.answer(alloc, writer)?;
        Ok(true)
    }

    /// Answers the entries that are whole.
    fn answer<W: Write>(&mut self, alloc: Global, writer: &mut Device<W>) -> Result<(), DeviceFault>
        requires { writer.old.failed ≡ false }
        ensures fed { OnOk result ((output : List ℕ) × Appends (W.contents writer.old.inner) (W.contents writer.new.inner) output
            × IsFedOn self.old.live self.old.begun.items self.new.begun.items output self.new.live) }
        ensures begun { OnOk result (IsBegun self.new.begun.items) }
        ensures room { self.new.piece ≡ self.old.piece }
        ensures err { IfErr result (λ fault. (output : List ℕ) × Appends (W.contents writer.old.inner) (W.contents writer.new.inner) output
            × EndsEarly self.old.live self.old.begun.items output fault) }
        ensures writer { writer.new.failed ≡ is_write_failed result }
        ensures flushed { is_write_failed result ≡ false → writer.old.flushed ≡ true → writer.new.flushed ≡ true }
    {
        let left = answer_all(alloc, &mut self.live, &self.begun, writer)?;
        self.begun = left.to_vec(alloc)?;
        Ok(())
    }

    /// Answers what is left at the end of the script.
    fn end<W: Write>(&mut self, alloc: Global, writer: &mut Device<W>) -> Result<(), DeviceFault>
        requires { writer.old.failed ≡ false }
        ensures last { OnOk result ((output : List ℕ) × Appends (W.contents writer.old.inner) (W.contents writer.new.inner) output
            × IsLast self.old.begun.items self.old.live output self.new.live) }
        ensures err { IfErr result (λ fault. (output : List ℕ) × Appends (W.contents writer.old.inner) (W.contents writer.new.inner) output
            × EndsLast self.old.begun.items self.old.live output fault) }
        ensures writer { writer.new.failed ≡ is_write_failed result }
        ensures flushed { is_write_failed result ≡ false → writer.old.flushed ≡ true → writer.new.flushed ≡ true }
    {
        if self.begun.is_empty() {
            return Ok(());
        }
        self.live.take_last(alloc, &self.begun)?;
        write_output(writer, self.live.output.as_bytes())
    }
}

/// Answers all whole entries at the front of a text. Gives what comes after them, the beginning of the next.
fn answer_all<'a, W: Write>(
    alloc: Global,
    live: &mut Live,
    text: &'a [u8],
    writer: &mut Device<W>,
) -> Result<&'a [u8], DeviceFault>
    requires { writer.old.failed ≡ false }
    ensures fed { IfOk result (λ left. (output : List ℕ) × Appends (W.contents writer.old.inner) (W.contents writer.new.inner) output
        × IsFedOn live.old text.now left.now output live.new) }
    ensures begun { IfOk result (λ left. IsBegun left.now) }
    ensures err { IfErr result (λ fault. (output : List ℕ) × Appends (W.contents writer.old.inner) (W.contents writer.new.inner) output
        × EndsEarly live.old text.now output fault) }
    ensures writer { writer.new.failed ≡ is_write_failed result }
    ensures flushed { is_write_failed result ≡ false → writer.old.flushed ≡ true → writer.new.flushed ≡ true }
{
    let mut rest = text;
    while let Some(used) = live.take_first(alloc, front_of(rest))? {
        write_output(writer, live.output.as_bytes())?;
        let (_, left) = rest.split_at(used);
        rest = left;
    }
    if rest.len() < MAX_ENTRY {
        return Ok(rest);
    }
    say_long(alloc, u64::from(live.line), writer)?;
    Err(DeviceFault::TooLong)
}

/// Says that the entry that begins on this line is too long.
fn say_long<W: Write>(alloc: Global, line: u64, writer: &mut Device<W>) -> Result<(), DeviceFault>
    requires { writer.old.failed ≡ false }
    ensures said { OnOk result (Appends (W.contents writer.old.inner) (W.contents writer.new.inner) (long_text line)) }
    ensures err { IfErr result (IsSaidPart (W.contents writer.old.inner) (W.contents writer.new.inner) (long_text line)) }
    ensures writer { writer.new.failed ≡ is_write_failed result }
    ensures flushed { is_write_failed result ≡ false → writer.old.flushed ≡ true → writer.new.flushed ≡ true }
{
    let mut text = Text::new(alloc);
    write_remark(&mut text, line, b": too long")?;
    write_output(writer, text.as_bytes())
}
