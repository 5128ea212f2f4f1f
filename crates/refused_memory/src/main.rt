//! The program: makes calls, asks questions, runs scripts and takes steps, of which any one allocation may be refused, and says
//! whether each answer is right.
//!
//! The number on the standard input is how many allocations come before the first of the calls.
#![tactic(auto)]

mod answers;
mod bean_questions;
mod calls;
mod chain_questions;
mod deployed;
mod questions;
mod reports;
mod runs;
mod scripts;
mod steps;
mod texts;

use calls::make_calls;
use cdi_container::{Bodies, Container};
use cdi_stock::StockBodies;
use questions::ask_questions;
use reports::ask_for_all;
use runs::take_steps;
use scripts::run_scripts;
use std::alloc::Global;
use std::io;
use std::io::{ErrorKind, Read};
use std::process::ExitCode;
use steps::{DECLARED, FURTHER_DECLARED, FURTHER_STEPS, STEPS};
use thiserror::Error;

/// The status where every answer is right, and one allocation of the calls, questions, scripts and steps was refused.
const STATUS_REFUSED: u8 = 3;

/// What is not as it is to be.
#[derive(Clone, Copy, Debug, Error)]
pub enum Difference {
    #[error("call {0} answers something else")]
    Answer(usize),
    #[error("question {0} answers something else")]
    Question(usize),
    #[error("the declarations that are asked about are not read")]
    Declarations,
    #[error("the run of script {0} writes or answers something else")]
    Run(usize),
    #[error("step {0} answers, shows or leaves something else")]
    Step(usize),
    #[error("after step {0} something else is known")]
    Known(usize),
    #[error("a second allocation is refused")]
    RefusedAgain,
}

fn main(rt: HostRuntime) -> ExitCode {
    drop_boxes(rt.alloc(), read_count(&mut rt.reader()));
    let compared = compare(rt.alloc());
    let printed = match print(&rt, compared) {
        Err(error) if error.kind() == ErrorKind::OutOfMemory => print(&rt, compared),
        printed => printed,
    };
    match (printed, compared) {
        (Ok(()), Ok(refused)) => ExitCode::from(if refused { STATUS_REFUSED } else { 0 }),
        _ => ExitCode::from(1),
    }
}

/// The number that a reader gives, or 0 where it gives none. It takes no memory.
fn read_count<R: Read>(reader: &mut R) -> u16 {
    let mut page = [0u8; 8];
    let count = reader.read(&mut page).unwrap_or(0);
    let text = str::from_utf8(page.get(..count).unwrap_or(&[])).unwrap_or("");
    text.trim().parse().unwrap_or(0)
}

/// Makes so many allocations, any of which may be refused, and lets each go.
fn drop_boxes(alloc: Global, count: u16) {
    for number in 0..count {
        let _ = Box::new(alloc, number);
    }
}

/// A part of what the program does.
#[derive(Clone, Copy)]
enum Part {
    Calls,
    Questions,
    Scripts,
    Steps,
    FurtherSteps,
    Reports,
}

static PARTS: [Part; 6] = [
    Part::Calls,
    Part::Questions,
    Part::Scripts,
    Part::Steps,
    Part::FurtherSteps,
    Part::Reports,
];

/// Does each part, and tells whether an allocation of theirs was refused. At most one may be, and its part is done again.
fn compare(alloc: Global) -> Result<bool, Difference> {
    let mut refused = false;
    for part in &PARTS {
        if do_part(alloc, StockBodies, *part)? {
            if refused || do_part(alloc, StockBodies, *part)? {
                return Err(Difference::RefusedAgain);
            }
            refused = true;
        }
    }
    Ok(refused)
}

/// Does a part with a container of these bodies, and tells whether an allocation of it was refused.
fn do_part<B: Bodies + Drop>(alloc: Global, book: B, part: Part) -> Result<bool, Difference> {
    do_in(alloc, &mut Container::new(alloc, book), part)
}

/// Does a part in an empty container.
fn do_in<B: Bodies>(
    alloc: Global,
    container: &mut Container<B>,
    part: Part,
) -> Result<bool, Difference> {
    match part {
        Part::Calls => make_calls(alloc, container),
        Part::Questions => ask_questions(alloc),
        Part::Scripts => run_scripts(alloc, container),
        Part::Steps => take_steps(alloc, container, &DECLARED, &STEPS),
        Part::FurtherSteps => take_steps(alloc, container, &FURTHER_DECLARED, &FURTHER_STEPS),
        Part::Reports => ask_for_all(alloc, container),
    }
}

fn print(rt: &impl Print, compared: Result<bool, Difference>) -> io::Result<()> {
    match compared {
        Ok(_) => println!(rt; "every answer is right"),
        Err(difference) => println!(rt; "{difference}"),
    }
}
