//! The faults of a deployment, found by a look at the declarations whose faults may have changed.
#![tactic(auto)]

mod positions;
mod report;
mod several;
mod unsettled;

pub use unsettled::Unsettled;
