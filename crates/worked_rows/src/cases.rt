//! Command lines of `container_check`.
use cdi_assembly::run_check;
use cdi_command_line::{Ending, status_of};
use std::alloc::{AllocError, Global};
use std::{fs, io};

/// Runs `container_check` with the words of each line of a file, and prints the line before what that prints, and the status after
/// it. Whether the file can be read.
pub(crate) fn run_cases(rt: &HostRuntime, file: &str) -> io::Result<bool> {
    let Ok(lines) = fs::read_to_string(rt, file) else {
        println!(rt; "{file}: it cannot be read")?;
        return Ok(false);
    };
    for line in lines.as_str().split('\n') {
        if !line.is_empty() {
            run_case(rt, line)?;
        }
    }
    Ok(true)
}

/// Runs a line.
fn run_case(rt: &HostRuntime, line: &str) -> io::Result<()> {
    println!(rt; "$ container_check {line}")?;
    let status = status_of(rt, check(rt, line));
    println!(rt; "status {status}")
}

fn check(rt: &HostRuntime, line: &str) -> Result<u8, Ending> {
    let words = words_of(rt.alloc(), line)?;
    run_check(rt, words.as_slice())
}

/// The words of a line, with the program's name first.
fn words_of(alloc: Global, line: &str) -> Result<Vec<String>, AllocError> {
    let mut words = Vec::new(alloc);
    words.push(String::from_str(alloc, "container_check")?)?;
    for word in line.split(' ') {
        words.push(String::from_str(alloc, word)?)?;
    }
    Ok(words)
}
