//! Which parts of a declaration have a fault, and what may be asked for.
#![tactic(auto)]

mod bodies;
mod conditional;
mod conflicts;
mod disposing;
mod enabled;
mod forms;
mod glance;
mod points;
mod proxies;
mod sites;
mod specializing;
mod stereotyped;
mod subjects;
mod typing;
mod unknown;
mod used;

pub use bodies::allowed_in;
pub use glance::Glance;
pub use sites::has_method;
pub use subjects::subjects_at_fault;
pub use unknown::are_known;
