//! The run of a script: the commands that its bytes spell, carried out on a container one after another, and what they print.
#![tactic(auto)]

mod intake;
mod mode;
mod runner;
mod script;

pub use cdi_bodies::{Bodies, Book, PromiseBook};
pub use cdi_container::Container;
pub use cdi_devices::{Console, Counted, RunFault, SCRIPT_LIMIT};
pub use mode::Mode;
pub use script::{Options, READ_BYTES, Summary, run, run_on};
