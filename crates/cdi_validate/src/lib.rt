//! What is wrong with a deployment.
#![tactic(auto)]

mod circles;
mod deployment;
mod names;
mod surrounded;
mod text;
mod twice;

pub use circles::are_needless;
pub use deployment::{Found, Together, all_decls, faults, faults_among};
pub use names::are_nameless;
pub use twice::are_chainless;
