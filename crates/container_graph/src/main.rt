//! The program: draws the wiring of the deployment that some files declare, as DOT text for graphviz.
#![tactic(auto)]

mod program;

use crate::program::draw;
use cdi_command_line::status_of;
use std::process::ExitCode;

fn main(rt: HostRuntime) -> ExitCode {
    ExitCode::from(status_of(&rt, draw(&rt)))
}
