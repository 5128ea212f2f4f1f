//! The contexts of a deployment: which contextual instances are live, whose they are, and what they hold.
#![tactic(auto)]

mod contexts;
mod error;
mod homes;
mod instance;
mod states;

pub use contexts::Contexts;
pub use error::RequestError;
pub use instance::{Actor, Instance, InstanceId, Owner};
