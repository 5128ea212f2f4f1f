//! What the program `container_check` does with its words.
use crate::assembly::assemble;
use crate::bodies::{BodiesError, ListedBodies, names_of_stock, read_bodies};
use crate::findings::{Files, Telling, findings_of_faults, findings_of_problems};
use crate::problem::Problem;
use cdi_bodies::Bodies;
use cdi_command_line::{CheckLine, Ending, Format, check_line, write_out};
use cdi_container::Container;
use cdi_findings::{Finding, json_of, text_of};
use cdi_model::Ident;
use cdi_sources::{Cause, Escaped, PathForm, Source, read_limited, read_sources};
use cdi_stock::StockBodies;
use std::alloc::{AllocError, Global};

/// Runs `container_check` on these words, the program's name first. It prints what it finds, and answers the status: 0 without
/// problems, and 1 with some. Any other status is that of an `Ending`.
pub fn run_check(rt: &HostRuntime, words: &[String]) -> Result<u8, Ending> {
    match check_line(rt, words)? {
        Some(line) => check(rt, &line),
        None => Ok(0),
    }
}

/// Checks with the bodies that the words name.
fn check(rt: &HostRuntime, line: &CheckLine<'_>) -> Result<u8, Ending> {
    let Some(path) = line.bodies else {
        let names = names_of_stock(rt.alloc())?;
        return check_with(rt, line, StockBodies, names.as_slice());
    };
    let ListedBodies { book, names } = bodies_of_file(rt, path)?;
    check_with(rt, line, book, names.as_slice())
}

/// The bodies that a file lists. Why there are none is told on the standard error.
fn bodies_of_file(rt: &HostRuntime, path: &str) -> Result<ListedBodies, Ending> {
    let text = match read_limited(rt, rt.alloc(), path) {
        Ok(text) => text,
        Err(cause) => return Err(unread(rt, path, &cause)),
    };
    match read_bodies(rt.alloc(), text.as_slice()) {
        Ok(bodies) => Ok(bodies),
        Err(BodiesError::OutOfMemory) => Err(Ending::OutOfMemory),
        Err(BodiesError::Unreadable) => {
            let path = Escaped(path);
            let _ = eprintln!(rt;
                "error: {path}: it does not list stored bodies with their promises"
            );
            Err(Ending::Words)
        }
    }
}

/// The ending of a program that cannot read a path, which is told on the standard error unless there was no memory for it.
fn unread(rt: &HostRuntime, path: &str, cause: &Cause) -> Ending {
    if cause.is_out_of_memory() {
        return Ending::OutOfMemory;
    }
    let path = Escaped(path);
    let _ = eprintln!(rt; "error: {path}: {cause}");
    Ending::Unreadable
}

/// Checks what the paths declare, with a book of these names.
fn check_with<B: Bodies + Drop>(
    rt: &HostRuntime,
    line: &CheckLine<'_>,
    book: B,
    body_names: &[Ident],
) -> Result<u8, Ending> {
    let mut container = Container::new(rt.alloc(), book);
    check_in(rt, line, &mut container, body_names)
}

/// Checks what the paths declare in an empty container.
fn check_in<B: Bodies>(
    rt: &HostRuntime,
    line: &CheckLine<'_>,
    container: &mut Container<B>,
    body_names: &[Ident],
) -> Result<u8, Ending> {
    let alloc = rt.alloc();
    let path_form = match line.format {
        Format::Text => PathForm::Escaped,
        Format::Json => PathForm::Exact,
    };
    let readings = read_sources(rt, alloc, line.paths.as_slice(), path_form)?;
    let sources = readings.sources.as_slice();
    let assembly = assemble(alloc, container, sources)?;
    let files = Files {
        sources,
        origins: &assembly.origins,
    };
    let telling = Telling {
        explains: line.explains,
        takes_any_body: line.takes_any_body,
        body_names,
    };
    let faults = findings_of_faults(alloc, container, files, telling)?;
    let findings = with_problems(alloc, sources, &assembly.problems, faults)?;
    let printed = print(rt, line, findings);
    if !readings.tell_failed(rt) && printed.is_ok() {
        return Err(Ending::Unreadable);
    }
    printed
}

/// What is refused or repeated, and then the faults.
fn with_problems<'a>(
    alloc: Global,
    sources: &'a [Source],
    problems: &[Problem],
    mut faults: Vec<Finding<'a>>,
) -> Result<Vec<Finding<'a>>, AllocError> {
    let mut findings = findings_of_problems(alloc, sources, problems)?;
    findings.append(&mut faults)?;
    Ok(findings)
}

/// Prints findings, and answers the status.
fn print(rt: &HostRuntime, line: &CheckLine<'_>, findings: Vec<Finding<'_>>) -> Result<u8, Ending> {
    let alloc = rt.alloc();
    let mut text = match line.format {
        Format::Text => text_of(alloc, findings.as_slice())?,
        Format::Json => json_of(alloc, &findings)?,
    };
    if line.format == Format::Json {
        text.push_str("\n")?;
    }
    write_out(rt, text.as_str())?;
    Ok(u8::from(!findings.is_empty()))
}
