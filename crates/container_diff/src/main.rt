//! The program: what a change does to the wiring of a deployment.
#![tactic(auto)]

mod program;

use crate::program::run;
use std::process::ExitCode;

fn main(rt: HostRuntime) -> ExitCode {
    ExitCode::from(run(&rt))
}
