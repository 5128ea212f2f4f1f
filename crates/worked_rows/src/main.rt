//! The program: runs the worked rows of the files that its words name through the container, and compares what each
//! prints with what the row wants. It prints one line for each file. Of a file that ends in `.cases` it runs each line as a command
//! line of `container_check`, and prints what that prints.
//!
//! A row is a fenced block of a Markdown page whose info string begins with the word `script`. `data/README.md` has the
//! format, and what stands where.
#![tactic(auto)]

mod cases;
mod comparison;
mod counted;
mod difference;
mod for_ever;
mod markdown;
mod rows;

use cases::run_cases;
use comparison::check_page;
use std::process::ExitCode;
use std::{env, fs, io};

fn main(rt: HostRuntime) -> ExitCode {
    match check_files(&rt) {
        Ok(true) => ExitCode::SUCCESS,
        _ => ExitCode::FAILURE,
    }
}

/// Whether each file that the words name has rows, and each of them prints what it wants, or is one of cases.
fn check_files(rt: &HostRuntime) -> io::Result<bool> {
    let mut all_well = true;
    for file in env::args(rt)?.skip(1) {
        if !check_file(rt, file.as_str())? {
            all_well = false;
        }
    }
    Ok(all_well)
}

fn check_file(rt: &HostRuntime, file: &str) -> io::Result<bool> {
    if file.ends_with(".cases") {
        return run_cases(rt, file);
    }
    check_rows(rt, file)
}

/// Whether a file has rows, and each of them prints what it wants. Prints their number or the first difference.
fn check_rows(rt: &HostRuntime, file: &str) -> io::Result<bool> {
    let Ok(text) = fs::read_to_string(rt, file) else {
        println!(rt; "{file}: it cannot be read")?;
        return Ok(false);
    };
    match check_page(rt.alloc(), text.as_str()) {
        Ok(1) => println!(rt; "{file}: 1 row")?,
        Ok(count) => println!(rt; "{file}: {count} rows")?,
        Err(difference) => {
            println!(rt; "{file}: {difference}")?;
            return Ok(false);
        }
    }
    Ok(true)
}
