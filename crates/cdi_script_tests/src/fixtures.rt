//! What several tests share.
use cdi_bodies::{Body, Book};
use cdi_script::{Console, Counted, Options, RunFault, Summary, run};
use std::alloc::{AllocError, Global};
use std::fmt::Display;
use std::process::Abort;
use std::test::Fail;

/// A script in which a type and a bean are put, the bean is chosen, and a type that is absent is dropped.
pub(crate) const STORED_SCRIPT: &[u8] =
    b"put\nkind=\"type\"\nname=\"Corner\"\n.\nput\nkind=\"bean\"\nname=\"Corner\"\n.\nchoose Corner\ndrop type Mall\n";

/// What it prints.
pub(crate) const STORED_TEXT: &[u8] = b"ok\nok\none Corner\nrefused E11 Absent\n";

/// An output with room for each text that a test prints.
pub(crate) fn empty_page(alloc: Global) -> Result<Vec<u8>, AllocError> {
    Vec::with_capacity(alloc, 2048)
}

/// Why a run for which there is memory ended before its script's end.
pub(crate) fn fault_of(ending: Result<Summary, RunFault>) -> Result<Option<RunFault>, Fail> {
    match ending {
        Ok(_) => Ok(None),
        Err(RunFault::Memory) => Err(Fail::new("out of memory")),
        Err(fault) => Ok(Some(fault)),
    }
}

/// What the run of a script with these bodies prints.
pub(crate) fn printed(alloc: Global, script: &[u8], bodies: Vec<Body>) -> Result<Vec<u8>, Fail> {
    printed_by(alloc, Options { quiet: false }, script, bodies)
}

/// The same without traces.
pub(crate) fn printed_quietly(
    alloc: Global,
    script: &[u8],
    bodies: Vec<Body>,
) -> Result<Vec<u8>, Fail> {
    printed_by(alloc, Options { quiet: true }, script, bodies)
}

/// The same by these options.
fn printed_by(
    alloc: Global,
    options: Options,
    script: &[u8],
    bodies: Vec<Body>,
) -> Result<Vec<u8>, Fail> {
    let Ok(book) = Book::new(bodies) else {
        return Err(Fail::new("no book"));
    };
    let mut reader = Counted::new(script);
    let mut writer = Counted::new(empty_page(alloc)?);
    let mut console = Console::new(&mut reader, &mut writer);
    run(alloc, &mut console, options, book)?;
    Ok(writer.into_inner())
}

/// Asserts that a text is the one that is wanted.
pub(crate) fn assert_text(rt: &impl Abort, found: &[u8], wanted: &[u8], place: &impl Display) {
    let same = found == wanted;
    assert!(rt; same, "{place}: {:?}", str::from_utf8(found));
}
