//! What the rows of a page print, beside what they want.
ghost use Rattle.std.specs.Prelude.{◌≡◌, ◌≢◌, ◌<◌, ◌↔◌, IfOk, IfSome, IsNone, slice_get, take};

use crate::difference::Difference;
use crate::for_ever::FOR_EVER;
use crate::rows::{Row, rows_of};
use cdi_bodies::{Bodies, Body, Book, Frame};
use cdi_script::{Console, Counted, Options, run};
use cdi_stock::stock_bodies;
use std::alloc::{AllocError, Global};

/// How many rows a page has, where each of them prints what it wants.
pub fn check_page(alloc: Global, text: &str) -> Result<usize, Difference<'_>>
    ensures { IfOk result (λ count. 0 < count) }
{
    let rows = rows_of(alloc, text)?;
    for row in &rows {
        check_row(alloc, row)?;
    }
    Ok(rows.len())
}

/// Runs the script of a row from an empty container with the program's bodies and those that make one act for ever, and
/// compares.
fn check_row<'t>(alloc: Global, row: &Row<'t>) -> Result<(), Difference<'t>> {
    let mut bodies = stock_bodies!(alloc);
    for body in &FOR_EVER {
        let body = *body;
        let asks = Box::new(alloc, move |frame: &Frame| body.ask(frame))?;
        bodies.push(Body::new(body.name(), body.promise(), asks))?;
    }
    let Ok(book) = Book::new(bodies) else {
        return Err(Difference::OutOfMemory);
    };
    run_row(alloc, row, book)
}

/// The same with the bodies of a book.
fn run_row<'t, B: Bodies + Drop>(
    alloc: Global,
    row: &Row<'t>,
    book: B,
) -> Result<(), Difference<'t>> {
    let mut reader = Counted::new(row.script.as_slice());
    let mut writer = Counted::new(Vec::new(alloc));
    let options = Options { quiet: row.quiet };
    let mut console = Console::new(&mut reader, &mut writer);
    match run(alloc, &mut console, options, book) {
        Ok(summary) => compare(alloc, row, writer.into_inner().as_slice(), summary.refused),
        Err(fault) => Err(Difference::Run {
            row: row.name,
            fault,
        }),
    }
}

/// Compares what the run of a row printed, and whether it says that a command was refused.
fn compare<'t>(
    alloc: Global,
    row: &Row<'t>,
    came: &[u8],
    refused: bool,
) -> Result<(), Difference<'t>> {
    if let Some(place) = first_difference(row.wanted.as_bytes(), came) {
        return Err(answer_at(alloc, row, came, place)?);
    }
    if refused != wants_refusal(row) {
        return Err(Difference::Refused(row.name));
    }
    Ok(())
}

/// Whether a row wants that a command is refused.
fn wants_refusal(row: &Row) -> bool {
    row.wanted.lines().any(|line| line.starts_with("refused "))
}

/// The place of the first byte in which two texts differ, or the length of the shorter where it is the front of the other.
fn first_difference(wanted: &[u8], came: &[u8]) -> Option<usize>
    ensures none { IsNone result ↔ (wanted.now ≡ came.now) }
    ensures before { IfSome result (λ place. take place wanted.now ≡ take place came.now) }
    ensures there { IfSome result (λ place. slice_get wanted.now place ≢ slice_get came.now place) }
{
    let mut place = 0usize;
    'places: while place < wanted.len() && place < came.len() {
        if wanted[place] != came[place] {
            return Some(place);
        }
        place += 1;
    }
    if wanted.len() == came.len() {
        return None;
    }
    Some(place)
}

/// Tells of the line that has the place.
fn answer_at<'t>(
    alloc: Global,
    row: &Row<'t>,
    came: &[u8],
    place: usize,
) -> Result<Difference<'t>, AllocError> {
    let before = came.get(..place).unwrap_or(came);
    let line = before.iter().filter(|byte| **byte == b'\n').count();
    Ok(Difference::Answer {
        row: row.name,
        command: row.commands.get(line).copied().unwrap_or(row.last),
        wanted: line_at(alloc, row.wanted.as_bytes(), line)?,
        came: line_at(alloc, came, line)?,
    })
}

/// A line of a text, counted from 0, or words that tell that there is none.
fn line_at(alloc: Global, text: &[u8], line: usize) -> Result<String, AllocError> {
    let text = str::from_utf8(text).unwrap_or("bytes that are not UTF-8");
    String::from_str(alloc, text.lines().nth(line).unwrap_or("nothing"))
}
