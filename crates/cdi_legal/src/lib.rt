//! The entries of traces, the contexts after them, and which runs are legal. The rules of the standard on how instances are
//! obtained, made, used and destroyed are in `specs/Legal` and `specs/Ends`, one case for each way in which a step may go.
#![tactic(auto)]

mod entry;
mod packed;
mod run;
mod trace;

pub use entry::{Answered, Entry, Made};
pub use run::{BUDGET, Run};
pub use trace::{Entries, Trace};
