//! The text of a trace: what its entries say by positions, printed by the names of a deployment.
#![tactic(auto)]

mod entries;
mod instances;
mod lookup;
mod parts;

pub use entries::{NamedEntries, NamedEntry, push_entries};
pub use instances::{NamedInstance, NamedInstances};
