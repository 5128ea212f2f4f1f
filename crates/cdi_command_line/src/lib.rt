//! What the programs over files share: the words of their command lines, and how they end.
#![tactic(auto)]

mod arguments;
mod check;
mod diff;
mod ending;
mod graph;

pub use check::{CheckLine, Format, check_line};
pub use diff::{DiffLine, diff_line};
pub use ending::{Ending, status_of, words, write_out};
pub use graph::{GraphLine, graph_line};
