//! Deployments that are put together of files: what each file puts and drops, what of it is refused and where, and in which
//! file each declaration is; and a check of such a deployment.
#![tactic(auto)]

mod assembly;
mod bodies;
mod checking;
mod declaring;
mod findings;
mod origins;
mod passage;
mod problem;
mod steps;

pub use assembly::{Assembly, assemble};
pub use checking::run_check;
pub use declaring::declare;
pub use findings::{Files, Telling, findings_of_faults, findings_of_problems};
pub use origins::Origins;
pub use passage::bring;
pub use problem::{Problem, Refused, Repeated};
