//! Graphs, and what of them to leave out.
ghost use Rattle.std.specs.Prelude.{◌≡◌, filter, flat_map, map, not, IfOk};
ghost use Rattle.cdi_graph.specs.Edges.{chosen, is_at, is_choice, is_owned, owned};
ghost use Rattle.cdi_graph.specs.declared.node.Node.TheVariants as nodes_are;
ghost use Rattle.cdi_graph.specs.Nodes.{id_of_node, is_bean, is_event, is_of_chain, is_point};
ghost use Rattle.cdi_graph.specs.Red.{point_node};
ghost use Rattle.cdi_graph.specs.RedLaws.{RedAreAtFault, UnsatisfiedAreAtFault};

use crate::edge::Edge;
use crate::event::sites_of;
use crate::making_edges::edges_of;
use crate::making_nodes::nodes_of;
use crate::node::Node;
use crate::plan::Plan;
use std::alloc::{AllocError, Global};

/// The wiring of a deployment: nodes, and edges between them, each in a fixed order.
#[derive(Drop)]
pub struct Graph {
    pub nodes: Vec<Node>,
    pub edges: Vec<Edge>,
}

/// The graph of a plan: nodes for its beans, points, interceptors and events, and the edges between them. They stand in the order
/// of the plan. An interceptor is there if it surrounds something, has a point or may fire an event. An event is there once, and
/// so is the edge to it from what may fire it. A point is unsatisfied or ambiguous where a fault of the plan says so: exactly
/// where a fault of one of these two codes at it is among the faults, and unsatisfied exactly where one of that code is. It
/// takes memory for the nodes and edges, and time near the size of the plan.
#[tactic(auto, using(crate::proofs::RedLemmas::red_are_at_fault, crate::proofs::RedLemmas::unsatisfied_are_at_fault))]
pub fn graph_of(alloc: Global, plan: &Plan<'_>) -> Result<Graph, AllocError>
    ensures choices { IfOk result (λ graph. filter is_choice graph.edges.items ≡ flat_map chosen plan.now.wires.now) }
    ensures owned { IfOk result (λ graph. filter is_owned graph.edges.items ≡ map owned plan.now.wires.now) }
    ensures points { IfOk result (λ graph. filter is_point graph.nodes.items
        ≡ map (point_node plan.now.faults.now) plan.now.wires.now) }
    ensures beans { IfOk result (λ graph. filter is_bean graph.nodes.items ≡ map nodes_are.Bean plan.now.beans.now) }
    ensures red { RedAreAtFault }
    ensures unsatisfied { UnsatisfiedAreAtFault }
{
    let sites = sites_of(alloc, plan.fired)?;
    Ok(Graph {
        nodes: nodes_of(alloc, plan, &sites)?,
        edges: edges_of(alloc, plan, &sites)?,
    })
}

impl Graph {
    /// The same without interceptors, without their points, and without the edges at these. It takes no memory.
    pub fn without_chains(self) -> Graph
        ensures nodes { result.nodes.items ≡ filter (λ n. not (is_of_chain (id_of_node n))) self.nodes.items }
        ensures edges { result.edges.items ≡ filter (λ e. not (is_at is_of_chain e)) self.edges.items }
    {
        let Graph {
            mut nodes,
            mut edges,
        } = self;
        leave_chain_nodes(&mut nodes);
        leave_chain_edges(&mut edges);
        Graph { nodes, edges }
    }

    /// The same without events, and without the edges at these. It takes no memory.
    pub fn without_events(self) -> Graph
        ensures nodes { result.nodes.items ≡ filter (λ n. not (is_event (id_of_node n))) self.nodes.items }
        ensures edges { result.edges.items ≡ filter (λ e. not (is_at is_event e)) self.edges.items }
    {
        let Graph {
            mut nodes,
            mut edges,
        } = self;
        leave_event_nodes(&mut nodes);
        leave_event_edges(&mut edges);
        Graph { nodes, edges }
    }
}

/// Leaves out interceptors and their points.
fn leave_chain_nodes(nodes: &mut Vec<Node>)
    ensures { nodes.new.items ≡ filter (λ n. not (is_of_chain (id_of_node n))) nodes.old.items }
{
    nodes.retain(|node| !node.id().is_of_chain());
}

/// Leaves out the edges at these.
fn leave_chain_edges(edges: &mut Vec<Edge>)
    ensures { edges.new.items ≡ filter (λ e. not (is_at is_of_chain e)) edges.old.items }
{
    edges.retain(|edge| !(edge.from().is_of_chain() || edge.to().is_of_chain()));
}

/// Leaves out events.
fn leave_event_nodes(nodes: &mut Vec<Node>)
    ensures { nodes.new.items ≡ filter (λ n. not (is_event (id_of_node n))) nodes.old.items }
{
    nodes.retain(|node| !node.id().is_event());
}

/// Leaves out the edges at events.
fn leave_event_edges(edges: &mut Vec<Edge>)
    ensures { edges.new.items ≡ filter (λ e. not (is_at is_event e)) edges.old.items }
{
    edges.retain(|edge| !(edge.from().is_event() || edge.to().is_event()));
}
