//! What the program does with its words: it runs a script, says what went wrong, and answers a status.
#![tactic(auto)]

mod command_line;
mod complaints;
mod files;
mod program;

pub use command_line::{CommandLine, options};
pub use complaints::{refuse_words, tell_fault};
pub use files::Files;
pub use program::session;
