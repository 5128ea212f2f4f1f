//! What a deployment is found to be: its faults, or, where it has none, its scene, which is sound, and the names of its
//! traces.
#![tactic(auto)]

mod verdict;

pub use verdict::{Wired, Wiring};
