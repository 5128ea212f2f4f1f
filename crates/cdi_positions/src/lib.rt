//! Sets of positions of a list of limited length, a bit for each position.
#![tactic(auto)]

mod position_queue;
mod position_set;

pub use position_queue::PositionQueue;
pub use position_set::{POSITIONS_LIMIT, PositionSet, Positions};
