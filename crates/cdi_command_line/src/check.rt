//! The command line of `container_check`.
use crate::arguments::{flag, paths, paths_of, valued, with_default};
use crate::ending::{Ending, told};
use clap::{Arg, Command, Error};
use std::alloc::{AllocError, Global};

/// How findings are printed.
#[derive(Clone, Copy, Debug, PartialEq, Eq)]
pub enum Format {
    Text,
    Json,
}

/// What the words say.
#[derive(Debug, Drop)]
pub struct CheckLine<'a> {
    pub explains: bool,
    pub format: Format,
    /// The path of the file that lists the stored bodies.
    pub bodies: Option<&'a str>,
    pub takes_any_body: bool,
    pub paths: Vec<&'a str>,
}

const EXAMPLE: &str = "Example: container_check --explain examples/shop

A folder stands for each file below it that ends in .toml, which is one declaration.
Any other file is a script of put blocks, drops and batches.

Status: 0 no problem, 1 problems, 2 bad arguments, 3 a failed read or write, 4 out of memory";

/// The option for the form of what is printed.
fn format_argument<'a>(alloc: Global) -> Arg<'a> {
    let format = valued(alloc, "format", "FORMAT", "How findings are printed");
    with_default(format.value_parser(["text", "json"].as_slice()), "text")
}

fn command<'a>(alloc: Global) -> Result<Command<'a>, AllocError> {
    let any_body = flag(alloc, "any-body", "Takes any name of a stored body");
    Command::new(alloc, "container_check")
        .about("Checks the deployment that some files declare, and tells all that is wrong with it")
        .after_help(EXAMPLE)
        .arg(flag(
            alloc,
            "explain",
            "Says of each fault which beans were considered, and what to write",
        ))?
        .arg(format_argument(alloc))?
        .arg(valued(
            alloc,
            "bodies",
            "FILE",
            "A TOML file that lists the stored bodies, as count = [\"LOAD\", \"STORE\"]",
        ))?
        .arg(any_body.conflicts_with("bodies")?)?
        .arg(paths(alloc))
}

/// What the words say, the program's name first. None where they ask for help, which is printed. Why they say nothing is told on
/// the standard error.
pub fn check_line<'a>(
    rt: &HostRuntime,
    words: &'a [String],
) -> Result<Option<CheckLine<'a>>, Ending> {
    told(rt, parsed(rt.alloc(), words))
}

fn parsed<'a>(alloc: Global, words: &'a [String]) -> Result<CheckLine<'a>, Error> {
    let matches = command(alloc)?.try_get_matches_from(words)?;
    let format = match matches.get_str("format") {
        Some("json") => Format::Json,
        _ => Format::Text,
    };
    Ok(CheckLine {
        explains: matches.get_flag("explain"),
        format,
        bodies: matches.get_str("bodies"),
        takes_any_body: matches.get_flag("any-body"),
        paths: paths_of(alloc, &matches)?,
    })
}
