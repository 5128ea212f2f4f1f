//! What a page has that is not as it is to be.
use cdi_script::RunFault;
use std::alloc::{AllocError, AllocFailed};
use thiserror::Error;

/// The first thing of a page that is not as it is to be. A row is told by its name.
#[derive(Debug, Drop, Error)]
pub enum Difference<'t> {
    /// The page has no row.
    #[error("there is no row")]
    NoRow,
    /// The page ends in a block.
    #[error("{0}: a block has no end")]
    OpenBlock(&'t str),
    /// A word behind `script` is no option.
    #[error("{row}: the option {option} is not known")]
    UnknownOption {
        row: &'t str,
        option: &'t str,
    },
    /// A line of a counted block has no count, or an escape that is not known.
    #[error("{0}: the counted line `{1}` has no count, or an escape that is not known")]
    Counted(&'t str, &'t str),
    /// A block goes on with a script where none stands before.
    #[error("{0}: there is no script to go on with")]
    NothingBefore(&'t str),
    /// The run of a script ended before the script's end.
    #[error("{row}: {fault}")]
    Run {
        row: &'t str,
        fault: RunFault,
    },
    /// A line that the script printed is another than the row wants, or one of the two is missing. `command` is the line
    /// of the script that stands last before the wanted one.
    #[error("{row}: behind `{command}`: wanted `{wanted}`, came `{came}`")]
    Answer {
        row: &'t str,
        command: &'t str,
        wanted: String,
        came: String,
    },
    /// The run says that a command was refused where the row wants no refusal, or the other way round.
    #[error("{0}: the run says that a command was refused, and the row wants no refusal, or the other way round")]
    Refused(&'t str),
    /// The allocator gave no memory.
    #[error("out of memory")]
    OutOfMemory,
}

impl<'t> From<AllocError> for Difference<'t> {
    fn from(_error: AllocError) -> Self {
        Difference::OutOfMemory
    }
}

impl<'t, T: Drop> From<AllocFailed<T>> for Difference<'t> {
    fn from(_error: AllocFailed<T>) -> Self {
        Difference::OutOfMemory
    }
}
