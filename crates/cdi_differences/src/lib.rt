//! The wiring of a deployment as texts, and what differs between two of them.
#![tactic(auto)]

mod line;
mod table;
mod wiring;
mod words;

pub use table::{Difference, differences};
pub use wiring::wiring_of;
