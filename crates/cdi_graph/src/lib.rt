//! The wiring of a deployment as a graph: its beans, injection points, interceptors and events, what of it to leave out, and
//! its text for graphviz.
#![tactic(auto)]

mod around;
mod dot;
mod edge;
mod event;
mod graph;
mod label;
mod making_edges;
mod making_nodes;
mod node;
mod plan;
mod red;

pub use edge::Edge;
pub use graph::{Graph, graph_of};
pub use node::{BeanNode, EventNode, Node, NodeId, PointId, PointNode, PointState};
pub use plan::{Fired, Notified, Plan, Surrounded, Wire};
