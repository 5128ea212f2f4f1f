//! Which declarations are to be looked at again after an edit, found by the words under which an index lists them.
#![tactic(auto)]

mod concern;
mod keys;
mod moved;
mod sought;

pub use concern::concerned;
pub use moved::Moved;
