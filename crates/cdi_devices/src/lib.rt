//! Reading from any reader and writing to any writer, with a count and a note of failures.
#![tactic(auto)]

mod again;
mod console;
mod counted;
mod devices;

pub use console::Console;
pub use counted::Counted;
pub use devices::{RunFault, SCRIPT_LIMIT, read_some, write_and_flush, write_out};
