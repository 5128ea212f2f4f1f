//! A reader and a writer of which it is noted what was sent before more was read.
ghost use Rattle.std.specs.Prelude.{◌≡◌, ◌≢◌, ◌+◌, ◌-◌, ◌^◌, min, length, false, true, IfErr, MatchResult};
ghost use Rattle.std.specs.Borrow.{sem};
ghost use Rattle.std.specs.Io.{ReadsAtMost};
ghost use Rattle.std.specs.Io.KnownBytes.{ReadConsumes};
ghost use Rattle.std.specs.IoError.{error_kind};
ghost use Rattle.std.specs.declared.io.ErrorKind.{ErrorKind};
ghost use Rattle.cdi_devices.specs.Counted.{inner_of, bytes_of, has_failed, is_flushed, NotesReadBehind};

use crate::counted::Counted;
use std::io::{Read, Write};
use std::{fmt, io};

/// A reader and a writer. Each read notes in the reader how many bytes the writer had taken before it, and whether they
/// were flushed; a read of the reader alone notes that they were not. It takes no memory.
#[derive(Drop)]
pub struct Console<'a, R, W> {
    reader: &'a mut Counted<R>,
    writer: &'a mut Counted<W>,
}

impl<'a, R, W> Console<'a, R, W> {
    ghost use Rattle.cdi_devices.specs.Console.{reader_of, writer_of, Holds, LendsWriter};

    /// Both streams, as they are.
    pub fn new(reader: &'a mut Counted<R>, writer: &'a mut Counted<W>) -> Console<'a, R, W>
        ensures reader { reader_of result ≡ reader.old }
        ensures writer { writer_of result ≡ writer.old }
        ensures streams { Holds result reader.entry writer.entry }
    {
        Console { reader, writer }
    }

    /// The reader, to be asked what it counts and notes.
    pub fn reader(&self) -> &Counted<R>
        ensures { result.now ≡ reader_of self.now }
    {
        self.reader
    }

    /// The writer, to be written to and flushed.
    pub fn writer(&mut self) -> &mut Counted<W>
        ensures* writes_back { sem 𝓛 (LendsWriter R.row W.row self.entry result) }
        ensures value { result.now ≡ writer_of self.old }
    {
        self.writer
    }
}

impl<R: Read, W> Console<'_, R, W> {
    ghost use Rattle.cdi_devices.specs.Console.{reader_of, writer_of, KeepsStreams};

    /// A read of the reader, which notes what was sent before it.
    pub fn read(&mut self, buf: &mut [u8]) -> io::Result<usize>
        ensures bound { ReadsAtMost result buf.new }
        ensures bytes { ReadConsumes (R.remaining (inner_of (reader_of self.old)))
            (R.remaining (inner_of (reader_of self.new))) result buf.new }
        ensures noted { NotesReadBehind (bytes_of (writer_of self.old)) (is_flushed (writer_of self.old))
            (reader_of self.old) (reader_of self.new) result }
        ensures retried { IfErr result (λ e. error_kind e ≢ ErrorKind.Interrupted) }
        ensures writer { writer_of self.new ≡ writer_of self.old }
        ensures streams { KeepsStreams self.old self.new }
    {
        let sent = self.writer.count();
        let flushed = self.writer.is_flushed();
        self.reader.read_behind(sent, flushed, buf)
    }
}

impl<R, W> fmt::Debug for Console<'_, R, W> {
    fn fmt<O: fmt::Write>(&self, f: &mut fmt::Formatter<O>) -> fmt::Result {
        write!(f, "Console")
    }
}
