//! Which interceptors are around which places of a bean, and in which order.
#![tactic(auto)]

mod asked;
mod bindings;
mod chain;
mod conflict;
mod seen;
mod set;

pub use asked::{chain_of, evaluate_chain};
pub use bindings::{bindings_at, bindings_seen};
pub use chain::{
    around_any, chain_among, in_order, part_for, sorted_by_priority, surrounds, surrounds_one,
};
pub use conflict::has_conflict_at;
pub use seen::seen_around;
pub use set::{has_place, places_of, set_by, sets_of};
