//! A reader or a writer that notes what its calls answered.
ghost use Rattle.std.specs.Prelude.{◌≡◌, ◌≢◌, ◌+◌, ◌-◌, ◌^◌, min, length, false, true, IfErr, MatchResult};
ghost use Rattle.std.specs.Io.{ReadsAtMost, WritesAtMost};
ghost use Rattle.std.specs.Io.KnownBytes.{Keeps, ReadConsumes, WriteAppends};
ghost use Rattle.std.specs.IoError.{error_kind};
ghost use Rattle.std.specs.declared.io.ErrorKind.{ErrorKind};

use crate::again::{flush_again, read_again, write_again};
use std::io::{Read, Write};
use std::{fmt, io};

/// A reader or a writer, with a count of the bytes that went through and notes: whether a call answered an error or a
/// write of some bytes took none, whether all that was written has been flushed, and of a reader what its `Console` had
/// sent before each read. A call that a signal interrupts is made again, so that is no error. It takes no memory.
#[derive(Drop)]
pub struct Counted<T> {
    inner: T,
    bytes: u64,
    failed: bool,
    flushed: bool,
    settled: bool,
    sent_before: u64,
}

impl<T> Counted<T> {
    ghost use Rattle.cdi_devices.specs.Counted.{inner_of, bytes_of, has_failed, is_flushed, is_settled, sent_before};

    /// Nothing went through yet, and no call failed.
    pub fn new(inner: T) -> Counted<T>
        ensures inner { inner_of result ≡ inner }
        ensures bytes { bytes_of result ≡ 0 }
        ensures failed { has_failed result ≡ false }
        ensures flushed { is_flushed result ≡ true }
        ensures settled { is_settled result ≡ true }
    {
        Counted {
            inner,
            bytes: 0,
            failed: false,
            flushed: true,
            settled: true,
            sent_before: 0,
        }
    }

    /// How many bytes went through. It stays at the greatest `u64`.
    pub fn count(&self) -> u64
        ensures { result ≡ bytes_of self.now }
    {
        self.bytes
    }

    /// Whether a call answered an error, or a write took no byte.
    pub fn has_failed(&self) -> bool
        ensures { result ≡ has_failed self.now }
    {
        self.failed
    }

    /// Whether no byte was written since a flush last answered `Ok`, or ever.
    pub fn is_flushed(&self) -> bool
        ensures { result ≡ is_flushed self.now }
    {
        self.flushed
    }

    /// The reader or the writer itself.
    pub fn into_inner(self) -> T
        ensures { result ≡ inner_of self }
    {
        self.inner
    }
}

impl<R: Read> Counted<R> {
    ghost use Rattle.cdi_devices.specs.Counted.{inner_of, bytes_of, has_failed, NotesReadBehind};

    /// A read, and a note of how many bytes were sent before it and whether these were flushed.
    pub(crate) fn read_behind(
        &mut self,
        sent: u64,
        flushed: bool,
        buf: &mut [u8],
    ) -> io::Result<usize>
        ensures bound { ReadsAtMost result buf.new }
        ensures bytes { ReadConsumes (R.remaining (inner_of self.old)) (R.remaining (inner_of self.new)) result buf.new }
        ensures noted { NotesReadBehind sent flushed self.old self.new result }
        ensures retried { IfErr result (λ e. error_kind e ≢ ErrorKind.Interrupted) }
    {
        self.settled = self.settled && flushed && !self.failed;
        self.sent_before = sent;
        match read_again(&mut self.inner, buf) {
            Ok(n) => {
                self.bytes = self.bytes.saturating_add(n as u64);
                Ok(n)
            }
            Err(e) => {
                self.failed = true;
                Err(e)
            }
        }
    }
}

impl<R: Read> Read for Counted<R> {
    ghost use Rattle.cdi_devices.specs.Counted.{inner_of, bytes_of, has_failed, NotesRead};

    ghost remaining = { λ c. R.remaining c.inner };

    /// A read of the reader alone, which no flush is known to come before.
    fn read(&mut self, buf: &mut [u8]) -> io::Result<usize>
        ensures bound { ReadsAtMost result buf.new }
        ensures bytes { ReadConsumes (R.remaining (inner_of self.old)) (R.remaining (inner_of self.new)) result buf.new }
        ensures noted { NotesRead self.old self.new result }
        ensures retried { IfErr result (λ e. error_kind e ≢ ErrorKind.Interrupted) }
    {
        self.read_behind(self.sent_before, false, buf)
    }
}

impl<W: Write> Write for Counted<W> {
    ghost use Rattle.cdi_devices.specs.Counted.{inner_of, bytes_of, has_failed, NotesWrite, NotesFlush};

    ghost contents = { λ c. W.contents c.inner };

    fn write(&mut self, buf: &[u8]) -> io::Result<usize>
        ensures bound { WritesAtMost result buf.now }
        ensures bytes { WriteAppends (W.contents (inner_of self.old)) (W.contents (inner_of self.new)) result buf.now }
        ensures noted { NotesWrite self.old self.new result }
        ensures retried { IfErr result (λ e. error_kind e ≢ ErrorKind.Interrupted) }
    {
        match write_again(&mut self.inner, buf) {
            Ok(n) => {
                self.bytes = self.bytes.saturating_add(n as u64);
                if n == 0 {
                    self.failed = true;
                } else {
                    self.flushed = false;
                }
                Ok(n)
            }
            Err(e) => {
                self.failed = true;
                Err(e)
            }
        }
    }

    fn flush(&mut self) -> io::Result<()>
        ensures bytes { Keeps (W.contents (inner_of self.old)) (W.contents (inner_of self.new)) }
        ensures noted { NotesFlush self.old self.new result }
        ensures retried { IfErr result (λ e. error_kind e ≢ ErrorKind.Interrupted) }
    {
        match flush_again(&mut self.inner) {
            Ok(()) => {
                self.flushed = true;
                Ok(())
            }
            Err(e) => {
                self.failed = true;
                Err(e)
            }
        }
    }
}

impl<T> fmt::Debug for Counted<T> {
    fn fmt<W: fmt::Write>(&self, f: &mut fmt::Formatter<W>) -> fmt::Result {
        write!(f, "Counted")
    }
}
