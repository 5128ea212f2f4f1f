//! The files that the words of a command line name, with what is in them: texts of declarations, and scripts.
#![tactic(auto)]

mod disk;
mod escaped;
mod names;
mod read;
mod source;

pub use disk::{Disk, Sort};
pub use escaped::Escaped;
pub use read::{Cause, PathError, Readings, read_limited, read_sources};
pub use source::{Form, PathForm, Source};
