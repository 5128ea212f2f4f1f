//! Which slots are listed under words.
#![tactic(auto)]

mod postings;
mod word;

pub use postings::Postings;
pub use word::{Reason, Word};
