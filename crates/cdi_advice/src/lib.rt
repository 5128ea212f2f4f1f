//! What to do about a fault: which beans were considered, why each was taken or left, and what to write.
#![tactic(auto)]

mod advice;
mod adviser;
mod beans;
mod bodies;
mod choices;
mod circles;
mod declared;
mod names;
mod near;
mod notes;
mod types;
mod uses;
mod verdicts;
mod words;

pub use advice::{Advice, Beans, Candidate};
pub use adviser::Adviser;
pub use notes::Notes;
