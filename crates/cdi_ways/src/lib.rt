//! Ways along edges between nodes, the shortest circle through a node, and which nodes are on circles.
#![tactic(auto)]

mod circles;
mod edge;
mod leaving;
mod order;
mod search;
mod states;

pub use circles::on_circles;
pub use edge::Edge;
pub use search::Ways;
