//! Findings of a check, and how they print: as lines, and as JSON.
#![tactic(auto)]

mod finding;
mod json;
mod text;

pub use finding::{Considered, Finding, Reasons, Sort};
pub use json::json_of;
pub use text::text_of;
