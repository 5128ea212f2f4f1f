//! Edges between nodes.

/// An edge between two nodes, which are numbers.
#[derive(Clone, Copy, PartialEq, Eq, Debug)]
pub struct Edge {
    /// The node that it leaves.
    pub from: usize,
    /// The node to which it leads.
    pub to: usize,
}
