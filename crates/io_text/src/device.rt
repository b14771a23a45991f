//! Readers and writers that know whether they failed.
ghost use Rattle.std.specs.Prelude.{◌≡◌, ◌+◌, ◌-◌, ◌^◌, ◌<◌, ◌||◌, ◌==◌, min, not, true, false, is_err, length, IfOk};
ghost use Rattle.std.specs.Io.{ReadsAtMost, WritesAtMost};
ghost use Rattle.std.specs.Io.KnownBytes.{Appends, Keeps, ReadConsumes, WriteAppends};
ghost use Rattle.io_text.specs.Reading.{is_end};

use std::io::{Read, Write};

/// A call on a device failed.
#[derive(Clone, Copy, Debug, PartialEq, Eq)]
pub struct DeviceFailed;

/// A reader or a writer that counts its reads or writes and remembers whether one failed. Of a reader
/// it remembers whether it was asked for more after it said that nothing is left, of a writer whether
/// a write of no bytes was made, and whether what was written was flushed.
#[derive(Drop)]
pub struct Device<D> {
    inner: D,
    calls: u64,
    failed: bool,
    ended: bool,
    asked_past_end: bool,
    empty_write: bool,
    flushed: bool,
}

impl<D> Device<D> {
    /// The device before its first call.
    pub fn new(inner: D) -> Device<D>
        ensures { result ≡ record { inner = inner; calls = 0; failed = false; ended = false; asked_past_end = false; empty_write = false; flushed = true } }
    {
        Device {
            inner,
            calls: 0,
            failed: false,
            ended: false,
            asked_past_end: false,
            empty_write: false,
            flushed: true,
        }
    }

    /// Whether a call on the device has failed.
    pub fn has_failed(&self) -> bool
        ensures { result ≡ self.now.failed }
    {
        self.failed
    }

    /// Whether a read gave nothing although there was room: the reader said that nothing is left.
    pub fn has_ended(&self) -> bool
        ensures { result ≡ self.now.ended }
    {
        self.ended
    }

    /// Whether a read was made after one that said that nothing is left.
    pub fn was_asked_past_end(&self) -> bool
        ensures { result ≡ self.now.asked_past_end }
    {
        self.asked_past_end
    }

    /// Whether a write of no bytes was made.
    pub fn had_empty_write(&self) -> bool
        ensures { result ≡ self.now.empty_write }
    {
        self.empty_write
    }

    /// Whether the device was flushed after its last write.
    pub fn is_flushed(&self) -> bool
        ensures { result ≡ self.now.flushed }
    {
        self.flushed
    }

    /// How many reads or writes were made on the device. It stops at `u64::MAX`.
    pub fn calls(&self) -> u64
        ensures { result ≡ self.now.calls }
    {
        self.calls
    }
}

impl<R: Read> Device<R> {
    /// One read: how many bytes it gave, none only at the end or where `buffer` has no room.
    ///
    /// # Errors
    ///
    /// Each error of the reader is a failure, an interrupted call too.
    pub fn read(&mut self, buffer: &mut [u8]) -> Result<usize, DeviceFailed>
        ensures bound { ReadsAtMost result buffer.new }
        ensures bytes { ReadConsumes (R.remaining self.old.inner) (R.remaining self.new.inner) result buffer.new }
        ensures failed { self.new.failed ≡ (self.old.failed || is_err result) }
        ensures calls { self.new.calls ≡ min (self.old.calls + 1) (2 ^ 64 - 1) }
        ensures ended { self.new.ended ≡ (self.old.ended || is_end result (length buffer.old)) }
        ensures asked_past_end { self.new.asked_past_end ≡ (self.old.asked_past_end || self.old.ended) }
    {
        self.calls = self.calls.saturating_add(1);
        self.asked_past_end |= self.ended;
        match self.inner.read(buffer) {
            Ok(count) => {
                self.ended |= count == 0 && !buffer.is_empty();
                Ok(count)
            }
            Err(_) => {
                self.failed = true;
                Err(DeviceFailed)
            }
        }
    }
}

impl<W: Write> Device<W> {
    /// One write: how many of the bytes the writer took.
    ///
    /// # Errors
    ///
    /// Each error of the writer is a failure, an interrupted call too, and so is a write of no bytes.
    pub fn write(&mut self, bytes: &[u8]) -> Result<usize, DeviceFailed>
        ensures bound { WritesAtMost result bytes.now }
        ensures some { IfOk result (λ count. 0 < count) }
        ensures bytes { WriteAppends (W.contents self.old.inner) (W.contents self.new.inner) result bytes.now }
        ensures failed { self.new.failed ≡ (self.old.failed || is_err result) }
        ensures calls { self.new.calls ≡ min (self.old.calls + 1) (2 ^ 64 - 1) }
        ensures empty { self.new.empty_write ≡ (self.old.empty_write || (length bytes.now == 0)) }
        ensures flushed { self.new.flushed ≡ false }
    {
        self.calls = self.calls.saturating_add(1);
        self.empty_write |= bytes.is_empty();
        self.flushed = false;
        match self.inner.write(bytes) {
            Ok(count) if count > 0 => Ok(count),
            _ => {
                self.failed = true;
                Err(DeviceFailed)
            }
        }
    }

    /// Passes on what the writer may still hold back.
    ///
    /// # Errors
    ///
    /// Each error of the writer is a failure.
    pub fn flush(&mut self) -> Result<(), DeviceFailed>
        ensures bytes { Keeps (W.contents self.old.inner) (W.contents self.new.inner) }
        ensures failed { self.new.failed ≡ (self.old.failed || is_err result) }
        ensures calls { self.new.calls ≡ self.old.calls }
        ensures empty { self.new.empty_write ≡ self.old.empty_write }
        ensures flushed { self.new.flushed ≡ (self.old.flushed || not (is_err result)) }
    {
        match self.inner.flush() {
            Ok(()) => {
                self.flushed = true;
                Ok(())
            }
            Err(_) => {
                self.failed = true;
                Err(DeviceFailed)
            }
        }
    }
}
