//! A run of the program.
use cdi_assembly::{bring, declare};
use cdi_command_line::{DiffLine, Ending, diff_line, status_of, words, write_out};
use cdi_container::Container;
use cdi_differences::{Difference, differences, wiring_of};
use cdi_sources::{PathForm, Readings, read_sources};
use cdi_stack_room::take_stack;
use cdi_stock::StockBodies;
use std::alloc::{AllocError, Global};

/// Runs the program on the words that the system gives, and answers its status.
pub(crate) fn run(rt: &HostRuntime) -> u8 {
    status_of(rt, run_words(rt))
}

fn run_words(rt: &HostRuntime) -> Result<u8, Ending> {
    let words = words(rt)?;
    take_stack(rt, words.len())?;
    match diff_line(rt, words.as_slice())? {
        Some(line) => compare(rt, line),
        None => Ok(0),
    }
}

/// Compares the deployments at two paths, prints what differs, and answers the status.
fn compare(rt: &HostRuntime, line: DiffLine<'_>) -> Result<u8, Ending> {
    let before = read_sources(rt, rt.alloc(), &[line.before], PathForm::Escaped)?;
    let after = read_sources(rt, rt.alloc(), &[line.after], PathForm::Escaped)?;
    let (is_before_read, is_after_read) = (before.tell_failed(rt), after.tell_failed(rt));
    if !is_before_read || !is_after_read {
        return Err(Ending::Unreadable);
    }
    let text = text_of_change(rt, &before, &after)?;
    write_out(rt, text.as_str())?;
    Ok(u8::from(!text.is_empty()))
}

/// The lines that say what differs between two deployments.
fn text_of_change(
    rt: &HostRuntime,
    before: &Readings,
    after: &Readings,
) -> Result<String, AllocError> {
    let mut container = Container::new(rt.alloc(), StockBodies);
    text_from(rt, &mut container, before, after)
}

/// The same in an empty container. It goes from the declarations before to those after, so that it asks anew only what the change
/// touches.
fn text_from(
    rt: &HostRuntime,
    container: &mut Container<StockBodies>,
    before: &Readings,
    after: &Readings,
) -> Result<String, AllocError> {
    let mut wanted = Container::new(rt.alloc(), StockBodies);
    text_between(rt, container, &mut wanted, before, after)
}

/// The same with another empty container, which finds the declarations that are accepted after the change.
fn text_between(
    rt: &HostRuntime,
    container: &mut Container<StockBodies>,
    wanted: &mut Container<StockBodies>,
    before: &Readings,
    after: &Readings,
) -> Result<String, AllocError> {
    let alloc = rt.alloc();
    declare(rt, container, before.sources.as_slice())?;
    declare(rt, wanted, after.sources.as_slice())?;
    let old = wiring_of(alloc, container)?;
    let is_brought = bring(alloc, container, wanted, after.sources.as_slice())?;
    let new = wiring_of(alloc, if is_brought { container } else { wanted })?;
    text_of_differences(alloc, differences(alloc, &old, &new)?.as_slice())
}

/// Differences as lines, in order.
fn text_of_differences(
    alloc: Global,
    differences: &[Difference<'_>],
) -> Result<String, AllocError> {
    let mut text = String::new(alloc);
    for difference in differences {
        let line = line_of(alloc, difference)?;
        text.push_str(line.as_str())?;
    }
    Ok(text)
}

/// The line of a difference: of a fault whether it comes or goes, and else both texts.
fn line_of(alloc: Global, difference: &Difference<'_>) -> Result<String, AllocError> {
    let key = difference.key;
    if is_fault(key) {
        let sign = if difference.after.is_some() { "+" } else { "-" };
        return format!(in alloc; "{sign} {key}\n");
    }
    let before = difference.before.unwrap_or("-");
    let after = difference.after.unwrap_or("-");
    format!(in alloc; "{key}: {before} -> {after}\n")
}

/// Whether a key is that of a fault: it begins with the code of one.
fn is_fault(key: &str) -> bool {
    key.starts_with("F")
}
