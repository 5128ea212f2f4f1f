//! The declarations with what is made of each, kept until something that it read is edited.
#![tactic(auto)]

mod affected;
mod asked;
mod change;
mod counts;
mod draft;
mod index;
mod install;
mod making;
mod next_index;
mod next_types;
mod numbers;
mod prepare;
mod replaced;
mod shelf;
mod under;

pub use asked::{Asked, Question};
pub use counts::Counts;
pub use draft::Draft;
pub use index::{Candidates, Index};
pub use next_index::NextIndex;
