//! The command line of `container_diff`.
use crate::arguments::path;
use crate::ending::{Ending, told};
use clap::{Command, Error};
use std::alloc::{AllocError, Global};

/// What the words say.
#[derive(Clone, Copy, Debug)]
pub struct DiffLine<'a> {
    /// The path of the deployment before the change.
    pub before: &'a str,
    /// The path of the deployment after it.
    pub after: &'a str,
}

const EXAMPLE: &str = "Example: container_diff main/shop branch/shop

A path is a folder, which stands for each file below it that ends in .toml, one declaration each.
It may also be one such file, or a script of put blocks, drops and batches.

  point bean Till point shop: one Corner -> one Market
  chain Till method sell: - -> Audit
  observers Order Online: - -> Journal/note
  - F21 bean Till point bank
  + F20 bean Till point shop

A dash is written where there is none. Then come the faults that go and that come.
What is refused or repeated is told on the standard error, and left out.

Status: 0 nothing differs, 1 something differs, 2 bad arguments, 3 a failed read or write, 4 out of memory";

fn command<'a>(alloc: Global) -> Result<Command<'a>, AllocError> {
    Command::new(alloc, "container_diff")
        .about("Tells what a change does to the wiring of a deployment")
        .after_help(EXAMPLE)
        .arg(path(
            alloc,
            "before",
            "BEFORE",
            "The deployment before the change",
        ))?
        .arg(path(alloc, "after", "AFTER", "The deployment after the change"))
}

/// What the words say, as `check_line` does.
pub fn diff_line<'a>(
    rt: &HostRuntime,
    words: &'a [String],
) -> Result<Option<DiffLine<'a>>, Ending> {
    told(rt, parsed(rt.alloc(), words))
}

fn parsed<'a>(alloc: Global, words: &'a [String]) -> Result<DiffLine<'a>, Error> {
    let matches = command(alloc)?.try_get_matches_from(words)?;
    Ok(DiffLine {
        before: matches.get_str("before").unwrap_or(""),
        after: matches.get_str("after").unwrap_or(""),
    })
}
