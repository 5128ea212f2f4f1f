//! Questions about the declarations of an index, answered by what it lists.
#![tactic(auto)]

mod questions;

pub use questions::{choose, choose_name, observed_types, observers};
