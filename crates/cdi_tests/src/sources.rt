//! Folders and files of every sort, whose reads are interrupted.
use cdi_sources::{Disk, Escaped, Form, PathForm, Readings, Sort, read_sources};
use std::alloc::{AllocError, Global};
use std::cell::Cell;
use std::io;
use std::io::{ErrorKind, Read};
use std::rc::Rc;
use std::test::Fail;

/// What a path leads to.
#[derive(Clone, Copy)]
enum Thing {
    /// A folder with these names.
    Folder(&'static [u8]),
    Text(&'static [u8]),
    /// A file of number signs without end.
    Endless,
    /// A pipe, at whose end nobody writes. It is never to be opened.
    Pipe,
}

/// A path, whether it is a link, and what it leads to.
#[derive(Clone, Copy)]
struct Entry(&'static str, bool, Thing);

/// Files and folders, and how many bytes their readers gave.
#[derive(Drop)]
struct Tree {
    entries: &'static [Entry],
    given: Rc<Cell<u64>>,
}

impl Tree {
    fn new(alloc: Global, entries: &'static [Entry]) -> Result<Tree, AllocError> {
        let given = Rc::new(alloc, Cell::new(0))?;
        Ok(Tree { entries, given })
    }

    fn entry(&self, path: &str) -> io::Result<Entry> {
        match self.entries.iter().find(|entry| entry.0 == path) {
            Some(entry) => Ok(*entry),
            None => Err(io::Error::from(ErrorKind::NotFound)),
        }
    }

    fn reader(&self, rest: &'static [u8], is_endless: bool) -> io::Result<Halting> {
        Ok(Halting {
            rest,
            is_endless,
            is_interrupted: true,
            given: self.given.clone()?,
        })
    }
}

impl Disk for Tree {
    type File = Halting;

    type Folder = Halting;

    fn sort_at(&self, path: &str) -> io::Result<Sort> {
        Ok(match self.entry(path)?.2 {
            Thing::Folder(_) => Sort::Folder,
            Thing::Text(_) => Sort::File,
            Thing::Endless | Thing::Pipe => Sort::Other,
        })
    }

    fn own_sort_at(&self, path: &str) -> io::Result<Sort> {
        if self.entry(path)?.1 {
            return Ok(Sort::Other);
        }
        self.sort_at(path)
    }

    fn open(&self, path: &str) -> io::Result<Halting> {
        match self.entry(path)?.2 {
            Thing::Text(text) => self.reader(text, false),
            Thing::Endless => self.reader(b"#", true),
            Thing::Folder(_) | Thing::Pipe => Err(io::Error::from(ErrorKind::Other)),
        }
    }

    fn open_folder(&self, path: &str) -> io::Result<Halting> {
        let name = path.strip_suffix('/').unwrap_or("");
        match self.entry(name)?.2 {
            Thing::Folder(names) => self.reader(names, false),
            _ => Err(io::Error::from(ErrorKind::NotADirectory)),
        }
    }
}

/// A reader of which each other read is interrupted.
#[derive(Drop)]
struct Halting {
    rest: &'static [u8],
    is_endless: bool,
    is_interrupted: bool,
    given: Rc<Cell<u64>>,
}

impl Read for Halting {
    fn read(&mut self, buf: &mut [u8]) -> io::Result<usize> {
        self.is_interrupted = !self.is_interrupted;
        if !self.is_interrupted {
            return Err(io::Error::from(ErrorKind::Interrupted));
        }
        let count = if self.is_endless {
            buf.fill(b'#');
            buf.len()
        } else {
            self.rest.read(buf)?
        };
        self.given
            .set(self.given.get().saturating_add(count as u64));
        Ok(count)
    }
}

/// Whether these paths were read, each with a text, and these failed, each with a message.
fn is_read(
    alloc: Global,
    readings: &Readings,
    read: &[(&str, &str)],
    failed: &[(&str, &str)],
) -> Result<bool, AllocError> {
    let sources = readings.sources.as_slice();
    let mut is_same = sources.len() == read.len() && readings.failed.len() == failed.len();
    for (source, wanted) in sources.iter().zip(read) {
        let is_text = source.text.as_slice() == wanted.1.as_bytes();
        is_same = is_same && is_text && source.path.as_str() == wanted.0;
    }
    for (error, wanted) in readings.failed.iter().zip(failed) {
        let cause = &error.cause;
        let message = format!(in alloc; "{cause}")?;
        is_same = is_same && message.as_str() == wanted.1 && error.path.as_str() == wanted.0;
    }
    Ok(is_same)
}

static SHOP: [Entry; 11] = [
    Entry(
        "shop",
        false,
        Thing::Folder(b".\0..\0till.toml\0sub\0pipe.toml\0zero.toml\0note\0link\0s.toml\0q.toml\0"),
    ),
    Entry("shop/till.toml", false, Thing::Text(b"kind = \"type\"\n")),
    Entry("shop/sub", false, Thing::Folder(b"b.toml\0a\nb.toml\0")),
    Entry("shop/sub/b.toml", true, Thing::Text(b"b")),
    Entry("shop/sub/a\nb.toml", false, Thing::Text(b"a")),
    Entry("shop/pipe.toml", false, Thing::Pipe),
    Entry("shop/zero.toml", false, Thing::Endless),
    Entry("shop/note", false, Thing::Text(b"a note")),
    Entry("shop/link", true, Thing::Folder(b"till.toml\0")),
    Entry("shop/s.toml", true, Thing::Folder(b"till.toml\0")),
    Entry("shop/q.toml", true, Thing::Pipe),
];

#[test]
fn only_regular_files_of_folders_are_read(rt: HostRuntime) -> Result<(), Fail> {
    let tree = Tree::new(rt.alloc(), &SHOP)?;
    let readings = read_sources(&tree, rt.alloc(), &["shop", "shop/note"], PathForm::Exact)?;
    let exact = [
        ("shop/sub/a\nb.toml", "a"),
        ("shop/sub/b.toml", "b"),
        ("shop/till.toml", "kind = \"type\"\n"),
        ("shop/note", "a note"),
    ];
    assert!(rt; is_read(rt.alloc(), &readings, &exact, &[])?);
    let readings = read_sources(&tree, rt.alloc(), &["shop/sub"], PathForm::Escaped)?;
    let escaped = [("shop/sub/a\\nb.toml", "a"), ("shop/sub/b.toml", "b")];
    assert!(rt; is_read(rt.alloc(), &readings, &escaped, &[])?);
    Ok(())
}

static ODD: [Entry; 2] = [
    Entry(
        "odd",
        false,
        Thing::Folder(b"a\xffb.toml\0gone.toml\0late.toml\0"),
    ),
    Entry("odd/late.toml", false, Thing::Text(b"late")),
];

#[test]
fn paths_that_cannot_be_read_are_named(rt: HostRuntime) -> Result<(), Fail> {
    let tree = Tree::new(rt.alloc(), &ODD)?;
    let readings = read_sources(&tree, rt.alloc(), &["nowhere", "odd"], PathForm::Exact)?;
    let failed = [
        ("nowhere", "entity not found"),
        ("odd/a\\xffb.toml", "invalid filename"),
        ("odd/gone.toml", "entity not found"),
    ];
    let read = [("odd/late.toml", "late")];
    assert!(rt; is_read(rt.alloc(), &readings, &read, &failed)?);
    Ok(())
}

static LONG: [Entry; 2] = [
    Entry("zero", false, Thing::Endless),
    Entry("zero.toml", false, Thing::Endless),
];

#[test]
fn one_byte_past_the_limit_is_read(rt: HostRuntime) -> Result<(), Fail> {
    let tree = Tree::new(rt.alloc(), &LONG)?;
    let readings = read_sources(&tree, rt.alloc(), &["zero"], PathForm::Exact)?;
    let failed = [("zero", "more than 16777216 bytes")];
    assert!(rt; is_read(rt.alloc(), &readings, &[], &failed)?);
    assert!(rt; tree.given.get() == 16_777_217);
    let readings = read_sources(&tree, rt.alloc(), &["zero.toml"], PathForm::Exact)?;
    let sources = readings.sources.as_slice();
    let is_one_more = sources.iter().all(|source| source.text.len() == 65_537);
    assert!(rt; sources.len() == 1 && is_one_more && readings.failed.is_empty());
    assert!(rt; tree.given.get() == 16_777_217 + 65_537);
    Ok(())
}

/// Folders in folders, so many, with a file in each.
#[derive(Clone, Copy)]
struct Deep(usize);

impl Disk for Deep {
    type File = &'static [u8];

    type Folder = &'static [u8];

    fn sort_at(&self, path: &str) -> io::Result<Sort> {
        Ok(if path.ends_with(".toml") {
            Sort::File
        } else {
            Sort::Folder
        })
    }

    fn own_sort_at(&self, path: &str) -> io::Result<Sort> {
        self.sort_at(path)
    }

    fn open(&self, path: &str) -> io::Result<&'static [u8]> {
        Ok(b"text")
    }

    fn open_folder(&self, path: &str) -> io::Result<&'static [u8]> {
        let depth = path.split('/').count();
        Ok(if depth > self.0 {
            b"a.toml\0"
        } else {
            b"a.toml\0d\0"
        })
    }
}

#[test]
fn folders_of_any_depth_are_read(rt: HostRuntime) -> Result<(), Fail> {
    let readings = read_sources(&Deep(1500), rt.alloc(), &["d"], PathForm::Exact)?;
    assert!(rt; readings.sources.len() == 1500 && readings.failed.is_empty());
    let is_right = readings.sources.iter().all(|source| source.form == Form::Declaration
        && source.text.as_slice() == b"text".as_slice());
    assert!(rt; is_right);
    Ok(())
}

#[test]
fn control_characters_are_escaped(rt: HostRuntime) -> Result<(), Fail> {
    let path = Escaped("a\n\r\t\u{1b}\u{7f}\\ é.toml");
    let text = format!(in rt.alloc(); "{path}")?;
    assert!(rt; text.as_str() == "a\\n\\r\\t\\x1b\\x7f\\ é.toml");
    Ok(())
}
