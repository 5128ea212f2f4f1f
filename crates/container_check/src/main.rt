//! The program: checks the deployment that some files declare.
#![tactic(auto)]

use cdi_assembly::run_check;
use cdi_command_line::{Ending, status_of, words};
use cdi_stack_room::take_stack;
use std::process::ExitCode;

fn main(rt: HostRuntime) -> ExitCode {
    ExitCode::from(status_of(&rt, check(&rt)))
}

/// Checks what the words of the system name, and answers the status.
fn check(rt: &HostRuntime) -> Result<u8, Ending> {
    let words = words(rt)?;
    take_stack(rt, words.len())?;
    run_check(rt, words.as_slice())
}
