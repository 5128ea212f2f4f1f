//! The part of a graph around a bean.
ghost use Rattle.std.specs.Prelude.{◌≡◌, ◌&&◌, filter, IfOk};
ghost use Rattle.std.specs.List.{list_any};
ghost use Rattle.indexmap.specs.IndexSet.{contains};
ghost use Rattle.cdi_graph.specs.Around.{same_node, IsPart};
ghost use Rattle.cdi_graph.specs.Edges.{from, to};
ghost use Rattle.cdi_graph.specs.Nodes.{id_of_node};
ghost use Rattle.cdi_graph.specs.declared.node.NodeId.TheVariants as ids;

use crate::edge::Edge;
use crate::graph::Graph;
use crate::node::{Node, NodeId};
use cdi_effective::BeanId;
use indexmap::{IndexMap, IndexSet};
use std::alloc::{AllocError, Global};

/// The nodes beside each node, along edges and against them.
type Beside = IndexMap<NodeId, Vec<NodeId>>;

impl Graph {
    /// Whether a bean is among its nodes.
    pub fn has_bean(&self, bean: BeanId) -> bool
        ensures { result ≡ list_any (λ n. same_node (id_of_node n) (ids.Bean bean)) self.now.nodes.items }
    {
        self.nodes
            .as_slice()
            .iter()
            .any(|node| node.id() == NodeId::Bean(bean))
    }

    /// The nodes near a bean, and the edges between them: what so many steps reach from the bean. Two edges count as one step,
    /// along them or against them. So a step leads over a point to the bean that is chosen for it. It takes memory for the edges,
    /// and time near the size of the graph.
    pub fn around(self, alloc: Global, bean: BeanId, steps: usize) -> Result<Graph, AllocError>
        ensures { IfOk result (IsPart self) }
    {
        let Graph {
            mut nodes,
            mut edges,
        } = self;
        let near = near(alloc, edges.as_slice(), NodeId::Bean(bean), steps)?;
        keep_nodes(&near, &mut nodes);
        keep_edges(&near, &mut edges);
        Ok(Graph { nodes, edges })
    }
}

/// Keeps the nodes that are near.
fn keep_nodes(near: &IndexSet<NodeId>, nodes: &mut Vec<Node>)
    ensures { nodes.new.items ≡ filter (λ n. contains same_node near.now (id_of_node n)) nodes.old.items }
{
    nodes.retain(|node| near.contains(&node.id()));
}

/// Keeps the edges between nodes that are near.
fn keep_edges(near: &IndexSet<NodeId>, edges: &mut Vec<Edge>)
    ensures { edges.new.items
        ≡ filter (λ e. contains same_node near.now (from e) && contains same_node near.now (to e)) edges.old.items }
{
    edges.retain(|edge| near.contains(&edge.from()) && near.contains(&edge.to()));
}

/// The nodes that so many steps reach from one, this one among them.
fn near(
    alloc: Global,
    edges: &[Edge],
    start: NodeId,
    steps: usize,
) -> Result<IndexSet<NodeId>, AllocError> {
    let beside = beside(alloc, edges)?;
    let mut near = IndexSet::new(alloc);
    near.insert(start)?;
    let mut begin = 0;
    for _ in 0..steps {
        let first = near.len();
        if begin == first {
            break;
        }
        add_ring(&beside, begin, &mut near)?;
        let second = near.len();
        add_ring(&beside, first, &mut near)?;
        begin = second;
    }
    Ok(near)
}

/// Adds what is beside the nodes from a place on.
fn add_ring(beside: &Beside, begin: usize, near: &mut IndexSet<NodeId>) -> Result<(), AllocError> {
    for place in begin..near.len() {
        let Some(node) = near.as_slice().get(place).copied() else {
            break;
        };
        if let Some(others) = beside.get(&node) {
            for other in others {
                near.insert(*other)?;
            }
        }
    }
    Ok(())
}

/// What is beside each node.
fn beside(alloc: Global, edges: &[Edge]) -> Result<Beside, AllocError> {
    let mut beside = IndexMap::new(alloc);
    for edge in edges {
        put_beside(alloc, edge.from(), edge.to(), &mut beside)?;
        put_beside(alloc, edge.to(), edge.from(), &mut beside)?;
    }
    Ok(beside)
}

/// Puts a node beside another.
fn put_beside(
    alloc: Global,
    node: NodeId,
    other: NodeId,
    beside: &mut Beside,
) -> Result<(), AllocError> {
    if let Some(others) = beside.get_mut(&node) {
        others.push(other)?;
        return Ok(());
    }
    let mut others = Vec::new(alloc);
    others.push(other)?;
    beside.insert(node, others)?;
    Ok(())
}
