//! Runs over readers and writers that fail, that never end, and that watch each other.
use crate::fixtures::{STORED_SCRIPT, STORED_TEXT, assert_text, empty_page, fault_of};
use cdi_devices::SCRIPT_LIMIT;
use cdi_fixtures::Echo;
use cdi_script::{Console, Counted, Options, RunFault, run};
use std::alloc::Global;
use std::cell::Cell;
use std::io;
use std::io::{ErrorKind, Read, Write};
use std::rc::Rc;
use std::test::Fail;

const OPTIONS: Options = Options { quiet: false };

/// Up to this many bytes of the stored script, and what they print.
#[derive(Clone, Copy)]
struct Cut(usize, &'static [u8]);

/// What is printed where no more comes than so many bytes and then a failure: the answers of the complete lines.
static CUTS_BY_FAILURE: [Cut; 5] = [
    Cut(31, b""),
    Cut(63, b"ok\n"),
    Cut(77, b"ok\nok\n"),
    Cut(92, b"ok\nok\none Corner\n"),
    Cut(93, STORED_TEXT),
];

/// What so many bytes print.
fn text_of(cuts: &[Cut], count: usize) -> Option<&'static [u8]> {
    for cut in cuts {
        if count <= cut.0 {
            return Some(cut.1);
        }
    }
    None
}

/// A piece of a script, and what it prints once it has come.
#[derive(Clone, Copy)]
struct Step(&'static [u8], &'static [u8]);

static STEPS: [Step; 12] = [
    Step(b"put\n", b""),
    Step(b"kind=\"type\"\n", b""),
    Step(b"name=\"Corner\"\n", b""),
    Step(b".\n", b"ok\n"),
    Step(b"# a comment\n", b""),
    Step(b"put\nkind=\"bean\"\nname=\"Corner\"\n", b""),
    Step(b".\n", b"ok\n"),
    Step(b"choose C", b""),
    Step(b"orner\ncho", b"one Corner\n"),
    Step(b"ose Mall\n", b"unsatisfied\n"),
    Step(b"drop type Mall", b""),
    Step(b"\nfrob\n", b"refused E11 Absent\nrefused E20 BadCommand\n"),
];

/// A reader that gives one step at a time, and notes whether it was asked for one while something else was flushed than
/// the answers of the steps that it gave.
#[derive(Drop)]
struct Paced {
    steps: &'static [Step],
    due: usize,
    flushed: Rc<Cell<usize>>,
    is_out_of_step: bool,
}

impl Read for Paced {
    fn read(&mut self, buf: &mut [u8]) -> io::Result<usize> {
        if self.flushed.get() != self.due {
            self.is_out_of_step = true;
        }
        let Some((step, rest)) = self.steps.split_first() else {
            return Ok(0);
        };
        self.steps = rest;
        self.due = self.due.saturating_add(step.1.len());
        let mut line = step.0;
        line.read(buf)
    }
}

/// A writer that tells how many bytes it has flushed.
#[derive(Drop)]
struct Watched {
    bytes: Vec<u8>,
    flushed: Rc<Cell<usize>>,
}

impl Write for Watched {
    fn write(&mut self, buf: &[u8]) -> io::Result<usize> {
        self.bytes.extend_from_slice(buf)?;
        Ok(buf.len())
    }

    fn flush(&mut self) -> io::Result<()> {
        self.flushed.set(self.bytes.len());
        Ok(())
    }
}

#[test]
fn answers_are_written_before_more_is_read(rt: HostRuntime) -> Result<(), Fail> {
    let flushed = Rc::new(rt.alloc(), Cell::new(0))?;
    let mut reader = Counted::new(Paced {
        steps: &STEPS,
        due: 0,
        flushed: flushed.clone()?,
        is_out_of_step: false,
    });
    let mut writer = Counted::new(Watched {
        bytes: empty_page(rt.alloc())?,
        flushed,
    });
    let mut console = Console::new(&mut reader, &mut writer);
    let summary = run(rt.alloc(), &mut console, OPTIONS, Echo)?;
    assert!(rt; summary.refused && !reader.into_inner().is_out_of_step);
    let written = writer.into_inner().bytes;
    let text = b"ok\nok\none Corner\nunsatisfied\nrefused E11 Absent\nrefused E20 BadCommand\n";
    assert_text(&rt, written.as_slice(), text.as_slice(), &"in steps");
    Ok(())
}

/// A reader that gives five bytes at each of so many reads, and then fails.
#[derive(Drop)]
struct Broken {
    rest: &'static [u8],
    reads: usize,
}

impl Read for Broken {
    fn read(&mut self, buf: &mut [u8]) -> io::Result<usize> {
        if self.reads == 0 {
            return Err(io::Error::from(ErrorKind::Other));
        }
        self.reads -= 1;
        let most = buf.len().min(5);
        self.rest.read(&mut buf[..most])
    }
}

/// What is written where the reader fails after so many reads, and whether the run says that a read failed.
fn written_after(alloc: Global, reads: usize) -> Result<(Vec<u8>, bool), Fail> {
    let mut reader = Counted::new(Broken {
        rest: STORED_SCRIPT,
        reads,
    });
    let mut writer = Counted::new(empty_page(alloc)?);
    let mut console = Console::new(&mut reader, &mut writer);
    let fault = fault_of(run(alloc, &mut console, OPTIONS, Echo))?;
    Ok((writer.into_inner(), fault == Some(RunFault::Read)))
}

#[test]
fn reads_that_fail(rt: HostRuntime) -> Result<(), Fail> {
    for reads in 0..=19usize {
        let (written, is_read) = written_after(rt.alloc(), reads)?;
        assert!(rt; is_read, "after {reads}");
        let count = STORED_SCRIPT.len().min(reads * 5);
        let text = text_of(&CUTS_BY_FAILURE, count).ok_or("no text")?;
        assert_text(&rt, written.as_slice(), text, &reads);
    }
    Ok(())
}

/// A reader of number signs without end, which notes how many bytes it was asked for.
#[derive(Drop)]
struct Endless {
    asked: u64,
}

impl Read for Endless {
    fn read(&mut self, buf: &mut [u8]) -> io::Result<usize> {
        self.asked = self.asked.saturating_add(buf.len() as u64);
        buf.fill(b'#');
        Ok(buf.len())
    }
}

#[test]
fn a_script_without_end_is_a_failed_read(rt: HostRuntime) -> Result<(), Fail> {
    let mut reader = Counted::new(Endless { asked: 0 });
    let mut writer = Counted::new(empty_page(rt.alloc())?);
    let mut console = Console::new(&mut reader, &mut writer);
    let ending = run(rt.alloc(), &mut console, OPTIONS, Echo);
    let is_read = fault_of(ending)? == Some(RunFault::Read);
    assert!(rt; is_read && writer.into_inner().is_empty());
    let count = reader.count();
    let asked = reader.into_inner().asked;
    assert!(rt; SCRIPT_LIMIT == 16_777_216 && count == 16_777_217 && asked == count);
    Ok(())
}

/// A writer that takes so many bytes in all; then each write and flush fails, or a write takes none.
#[derive(Drop)]
struct Full {
    left: usize,
    fails: bool,
    bytes: Vec<u8>,
}

impl Write for Full {
    fn write(&mut self, buf: &[u8]) -> io::Result<usize> {
        if self.left == 0 && self.fails {
            return Err(io::Error::from(ErrorKind::StorageFull));
        }
        let count = self.left.min(buf.len());
        self.bytes.extend_from_slice(&buf[..count])?;
        self.left -= count;
        Ok(count)
    }

    fn flush(&mut self) -> io::Result<()> {
        if self.left == 0 && self.fails {
            return Err(io::Error::from(ErrorKind::StorageFull));
        }
        Ok(())
    }
}

/// Whether a run whose writer takes so many bytes writes these, and says that a write failed exactly where it has no room.
fn fills(alloc: Global, left: usize, fails: bool) -> Result<bool, Fail> {
    let has_room = left == STORED_TEXT.len() && !fails;
    let mut reader = Counted::new(STORED_SCRIPT);
    let mut writer = Counted::new(Full {
        left,
        fails,
        bytes: empty_page(alloc)?,
    });
    let mut console = Console::new(&mut reader, &mut writer);
    let fault = fault_of(run(alloc, &mut console, OPTIONS, Echo))?;
    let is_write = fault == Some(RunFault::Write);
    let is_counted = writer.has_failed() != has_room && writer.count() == left as u64;
    let bytes = writer.into_inner().bytes;
    let is_written = bytes.len() == left && STORED_TEXT.starts_with(bytes.as_slice());
    Ok(is_write != has_room && is_counted && is_written)
}

#[test]
fn writes_that_fail(rt: HostRuntime) -> Result<(), Fail> {
    for left in 0..=STORED_TEXT.len() {
        let fails = fills(rt.alloc(), left, true)?;
        let takes_none = fills(rt.alloc(), left, false)?;
        assert!(rt; fails && takes_none, "at {left}");
    }
    Ok(())
}

/// A reader of five bytes at a time, or a writer that takes as many, of which each call but every third is interrupted.
#[derive(Drop)]
struct Halting<T> {
    inner: T,
    calls: usize,
}

impl<T> Halting<T> {
    fn halt(&mut self) -> io::Result<()> {
        self.calls = self.calls.wrapping_add(1);
        if self.calls % 3 == 0 {
            Ok(())
        } else {
            Err(io::Error::from(ErrorKind::Interrupted))
        }
    }
}

impl<R: Read> Read for Halting<R> {
    fn read(&mut self, buf: &mut [u8]) -> io::Result<usize> {
        self.halt()?;
        let most = buf.len().min(5);
        self.inner.read(&mut buf[..most])
    }
}

impl<W: Write> Write for Halting<W> {
    fn write(&mut self, buf: &[u8]) -> io::Result<usize> {
        self.halt()?;
        let most = buf.len().min(5);
        self.inner.write(&buf[..most])
    }

    fn flush(&mut self) -> io::Result<()> {
        self.halt()?;
        self.inner.flush()
    }
}

#[test]
fn interrupted_calls_are_made_again(rt: HostRuntime) -> Result<(), Fail> {
    let mut reader = Counted::new(Halting {
        inner: STORED_SCRIPT,
        calls: 0,
    });
    let mut writer = Counted::new(Halting {
        inner: empty_page(rt.alloc())?,
        calls: 0,
    });
    let mut console = Console::new(&mut reader, &mut writer);
    let fault = fault_of(run(rt.alloc(), &mut console, OPTIONS, Echo))?;
    assert!(rt; fault == None && !reader.has_failed() && !writer.has_failed());
    let written = writer.into_inner().inner;
    assert_text(&rt, written.as_slice(), STORED_TEXT, &"interrupted");
    Ok(())
}
