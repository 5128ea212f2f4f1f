//! The graph of what a container declares.
#![tactic(auto)]

mod asking;
mod picture;
mod wires;

pub use picture::picture_of;
