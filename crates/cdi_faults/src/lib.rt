//! What can be wrong with a deployment: codes, subjects and faults, the texts that they print, and their order.
#![tactic(auto)]

mod fault;
mod text;

pub use fault::{Code, Fault, Subject};
pub use text::in_text_order;
