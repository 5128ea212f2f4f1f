//! The bodies that the program stores: fifteen functions, what each promises, and the macro that makes a book of them.
#![tactic(auto)]

mod answers;
mod holding;
mod proceeding;
mod returning;
mod sites;
mod stock;
mod stock_bodies;
mod store;

pub use cdi_bodies::{Body, Frame, Promise};
pub use holding::{count, flaky, spin};
pub use proceeding::{double, guard, pass, retry, swallow};
pub use returning::{boom, echo, short, unit, zero};
pub use sites::{notify, relay};
pub use stock::Stock;
pub use stock_bodies::StockBodies;
