//! The program over files and streams in memory: its statuses, and what it writes where.
ghost use Rattle.std.specs.Prelude.{Some};

use cdi_fixtures::Echo;
use cdi_script::Counted;
use cdi_session::{Files, session};
use std::alloc::{AllocError, Global};
use std::io;
use std::io::{ErrorKind, Read, Write};
use std::test::Fail;

/// One file, at the path `script`. Each other path has an error of this kind.
#[derive(Drop)]
struct OneFile(&'static [u8], ErrorKind);

impl Files for OneFile {
    type File = &'static [u8];

    ghost contents_at = { λ files _. Some files.0.now };

    fn open(&self, path: &str) -> io::Result<&'static [u8]> {
        if path == "script" {
            Ok(self.0)
        } else {
            Err(io::Error::from(self.1))
        }
    }
}

/// A reader that gives a text and then fails.
#[derive(Drop)]
struct Broken(&'static [u8]);

impl Read for Broken {
    fn read(&mut self, buf: &mut [u8]) -> io::Result<usize> {
        let n = self.0.read(buf)?;
        if n == 0 {
            return Err(io::Error::from(ErrorKind::Other));
        }
        Ok(n)
    }
}

/// The status of a run, and what it wrote to the output and to the errors.
#[derive(Drop)]
struct Ran {
    status: u8,
    output: Vec<u8>,
    errors: Vec<u8>,
}

fn run_program<I: Read + Drop>(files: &OneFile, alloc: Global, words: &[&str], input: I) -> Ran {
    let mut input = Counted::new(input);
    let mut output = Counted::new(Vec::new(alloc));
    let mut errors = Counted::new(Vec::new(alloc));
    let status = session(
        files,
        alloc,
        words,
        Echo,
        &mut input,
        &mut output,
        &mut errors,
    );
    Ran {
        status,
        output: output.into_inner(),
        errors: errors.into_inner(),
    }
}

const REFUSED: &[u8] =
    b"put\nkind = \"type\"\nname = \"A\"\n.\ndrop type B\nput\nkind = \"bean\"\nname = \"A\"\n.\nchoose A\n";

const REFUSED_TEXT: &str = "ok\nrefused E11 Absent\nok\none A\n";

const MISSPELT: &[u8] =
    b"put\nkind = \"type\"\nname = \"A\"\n.\nchoose A\nfrob\nput\nkind = \"bean\"\nname = \"A\"\n.\nchoose A\n";

const MISSPELT_TEXT: &str = "ok\nunsatisfied\nrefused E20 BadCommand\nok\none A\n";

const ACCEPTED: &[u8] =
    b"put\nkind = \"type\"\nname = \"A\"\n.\nput\nkind = \"bean\"\nname = \"A\"\n.\nchoose A\n";

const ACCEPTED_TEXT: &str = "ok\nok\none A\n";

const FAULTY: &[u8] =
    b"put\nkind = \"type\"\nname = \"A\"\n.\nput\nkind = \"bean\"\nname = \"A\"\npoints = [{ name = \"p\", type = \"B\" }]\n.\n\
      put\nkind = \"bean\"\nname = \"C\"\n.\nchoose B\nchoose Object\nreport\n";

const FAULTY_TEXT: &str =
    "ok\nok\nok\nunsatisfied\nambiguous A C\nfaults 3\nF01 bean A type B\nF20 bean A point p\nF01 bean C type C\n";

/// Whether a run has this status, and wrote this to the output and to the errors.
fn is_run(ran: &Ran, status: u8, output: &str, errors: &str) -> bool {
    ran.status == status
        && ran.output.as_slice() == output.as_bytes()
        && ran.errors.as_slice() == errors.as_bytes()
}

/// Flags, a script, and the status and the output of its run.
#[derive(Clone, Copy)]
struct Case(&'static [&'static str], &'static [u8], u8, &'static str);

static CASES: [Case; 9] = [
    Case(&[], REFUSED, 0, REFUSED_TEXT),
    Case(&["--strict"], REFUSED, 1, REFUSED_TEXT),
    Case(&["--quiet"], REFUSED, 0, REFUSED_TEXT),
    Case(&["--quiet", "--strict"], MISSPELT, 1, MISSPELT_TEXT),
    Case(&["--strict", "--quiet"], ACCEPTED, 0, ACCEPTED_TEXT),
    Case(&["--strict"], ACCEPTED, 0, ACCEPTED_TEXT),
    Case(&["--strict"], FAULTY, 0, FAULTY_TEXT),
    Case(&["--strict"], b"drop type A\n", 1, "refused E11 Absent\n"),
    Case(&[], b"put\nkind=\"type\"", 0, "refused E20 BadCommand\n"),
];

/// The words of a command line.
fn words_of(
    alloc: Global,
    path: &'static str,
    flags: &[&'static str],
) -> Result<Vec<&'static str>, AllocError> {
    let mut words = Vec::with_capacity(alloc, 4)?;
    words.push("program")?;
    words.push(path)?;
    words.extend_from_slice(flags)?;
    Ok(words)
}

/// Whether the script of a case runs as it is to where a file has it.
fn runs_from_file(alloc: Global, case: &Case) -> Result<bool, AllocError> {
    let words = words_of(alloc, "script", case.0)?;
    let files = OneFile(case.1, ErrorKind::NotFound);
    let ran = run_program(&files, alloc, words.as_slice(), &b""[..]);
    Ok(is_run(&ran, case.2, case.3, ""))
}

/// The same where the input has it.
fn runs_from_input(alloc: Global, case: &Case) -> Result<bool, AllocError> {
    let words = words_of(alloc, "-", case.0)?;
    let files = OneFile(b"", ErrorKind::NotFound);
    let ran = run_program(&files, alloc, words.as_slice(), case.1);
    Ok(is_run(&ran, case.2, case.3, ""))
}

#[test]
fn flags_from_a_file_and_from_the_input(rt: HostRuntime) -> Result<(), Fail> {
    for (place, case) in CASES.iter().enumerate() {
        let is_right = runs_from_file(rt.alloc(), case)? && runs_from_input(rt.alloc(), case)?;
        assert!(rt; is_right, "case {place}");
    }
    Ok(())
}

/// Whether the run of a path at which such an error waits ends so.
fn fails_to_open(alloc: Global, kind: ErrorKind, status: u8, complaint: &str) -> bool {
    let files = OneFile(REFUSED, kind);
    let words = ["program", "other", "--strict"];
    let ran = run_program(&files, alloc, words.as_slice(), REFUSED);
    is_run(&ran, status, "", complaint)
}

/// Whether words without a script have a status, and a text on the errors where it is 2 and on the output where it is 0.
fn is_told(alloc: Global, flag: &str, status: u8) -> bool {
    let files = OneFile(REFUSED, ErrorKind::NotFound);
    let words = ["program", flag];
    let ran = run_program(&files, alloc, words.as_slice(), &b""[..]);
    ran.status == status
        && ran.output.is_empty() == (status == 2)
        && ran.errors.is_empty() == (status == 0)
}

/// Whether a run with this word, whose output has room for eight bytes, writes these, and says that a write failed.
fn fills_its_output(alloc: Global, word: &str, wanted: &[u8]) -> bool {
    let mut page = [0u8; 8];
    let mut input = Counted::new(REFUSED);
    let mut output = Counted::new(&mut page[..]);
    let mut errors = Counted::new(Vec::new(alloc));
    let words = ["program", word];
    let files = OneFile(b"", ErrorKind::NotFound);
    let status = session(
        &files,
        alloc,
        words.as_slice(),
        Echo,
        &mut input,
        &mut output,
        &mut errors,
    );
    let complaint = errors.into_inner();
    status == 3
        && complaint.as_slice() == b"error: write failed\n".as_slice()
        && page.as_slice() == wanted
}

#[test]
fn devices_that_fail(rt: HostRuntime) -> Result<(), Fail> {
    let files = OneFile(b"", ErrorKind::NotFound);
    let words = ["program", "-"];
    let input = Broken(b"drop type A\nchoose A\nchoose B");
    let ran = run_program(&files, rt.alloc(), words.as_slice(), input);
    let complete = "refused E11 Absent\nunsatisfied\n";
    assert!(rt; is_run(&ran, 3, complete, "error: read failed\n"));
    assert!(rt; fills_its_output(rt.alloc(), "-", b"ok\nrefus".as_slice()));
    assert!(rt; fills_its_output(rt.alloc(), "--help", b"Runs a s".as_slice()));
    Ok(())
}

#[test]
fn paths_and_words_that_are_refused(rt: HostRuntime) -> Result<(), Fail> {
    let alloc = rt.alloc();
    assert!(rt; fails_to_open(alloc, ErrorKind::NotFound, 3, "error: read failed\n"));
    assert!(rt; fails_to_open(alloc, ErrorKind::OutOfMemory, 4, "error: out of memory\n"));
    assert!(rt; is_told(alloc, "--strict", 2));
    assert!(rt; is_told(alloc, "--loud", 2));
    assert!(rt; is_told(alloc, "--help", 0));
    Ok(())
}
