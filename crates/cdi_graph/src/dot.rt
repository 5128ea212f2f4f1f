//! The text of a graph for graphviz.
use crate::edge::Edge;
use crate::graph::Graph;
use crate::label::{Named, Shown};
use crate::node::{Node, NodeId, PointState};
use cdi_model::{BeanPlace, Ident};
use indexmap::IndexMap;
use std::alloc::{AllocError, Global};
use std::fmt;

impl Graph {
    /// The text of the graph in the language DOT. Beans are boxes, dashed where they are disabled, with their scopes unless they
    /// are dependent. Products hang on dotted edges, interceptors are hexagons, and events are diamonds. With points, each of
    /// them is an ellipse between its owner and its bean. Without, it is an edge between these, with its name; one that is
    /// unsatisfied or ambiguous stays a red ellipse. An edge is left out where one of its ends is. It takes memory for the text
    /// and for the nodes.
    pub fn dot(&self, alloc: Global, with_points: bool) -> Result<String, AllocError> {
        let places = places_of(alloc, self.nodes.as_slice(), with_points)?;
        let picture = Picture {
            nodes: self.nodes.as_slice(),
            edges: self.edges.as_slice(),
            places: &places,
            with_points,
        };
        format!(in alloc; "{picture}")
    }
}

/// The places of the nodes that are drawn.
fn places_of(
    alloc: Global,
    nodes: &[Node],
    with_points: bool,
) -> Result<IndexMap<NodeId, usize>, AllocError> {
    let mut places = IndexMap::with_capacity(alloc, nodes.len())?;
    for (place, node) in nodes.iter().enumerate() {
        if with_points || !is_plain_point(node) {
            places.insert(node.id(), place)?;
        }
    }
    Ok(places)
}

/// Whether this is a point at which there is no fault.
fn is_plain_point(node: &Node) -> bool {
    match node {
        Node::Point(point) => point.state == PointState::Plain,
        Node::Bean(_) | Node::Interceptor(_) | Node::Event(_) => false,
    }
}

/// The nodes and the edges of a graph, with the places of the nodes that are drawn.
#[derive(Clone, Copy)]
struct Picture<'a> {
    nodes: &'a [Node],
    edges: &'a [Edge],
    places: &'a IndexMap<NodeId, usize>,
    with_points: bool,
}

impl Picture<'_> {
    /// The node that is told by this, if it is drawn.
    fn node(&self, id: NodeId) -> Option<&Node> {
        let place = self.places.get(&id)?;
        self.nodes.get(*place)
    }

    /// Writes an edge between two nodes if both are drawn.
    fn write_edge<W: fmt::Write>(
        &self,
        f: &mut fmt::Formatter<W>,
        from: NodeId,
        to: NodeId,
        look: Look,
    ) -> fmt::Result {
        match (self.node(from), self.node(to)) {
            (Some(from), Some(to)) => writeln!(f, "  {} -> {}{look};", Named(from), Named(to)),
            _ => Ok(()),
        }
    }

    /// Writes the line of an edge, if there is one.
    fn write_line<W: fmt::Write>(&self, f: &mut fmt::Formatter<W>, edge: &Edge) -> fmt::Result {
        let (from, to) = (edge.from(), edge.to());
        match edge {
            Edge::Produces { .. } => self.write_edge(f, from, to, Look::Dotted),
            Edge::Owns(_) | Edge::Fires { .. } => self.write_edge(f, from, to, Look::Plain),
            Edge::Chosen { point, .. } => {
                if self.places.contains_key(&from) {
                    return self.write_edge(f, from, to, Look::Plain);
                }
                self.write_edge(f, point.owner_node(), to, Look::Named(point.name))
            }
            Edge::Surrounds { place, .. } => self.write_edge(f, from, to, Look::Placed(*place)),
            Edge::Notifies { method, .. } => self.write_edge(f, from, to, Look::Named(*method)),
        }
    }
}

impl fmt::Display for Picture<'_> {
    fn fmt<W: fmt::Write>(&self, f: &mut fmt::Formatter<W>) -> fmt::Result {
        write!(f, "digraph wiring {{\n  rankdir=LR;\n")?;
        for node in self.nodes {
            if self.with_points || !is_plain_point(node) {
                writeln!(f, "  {} [{}];", Named(node), Shown(node))?;
            }
        }
        for edge in self.edges {
            self.write_line(f, edge)?;
        }
        writeln!(f, "}}")
    }
}

/// How an edge is drawn.
#[derive(Clone, Copy)]
enum Look {
    Plain,
    Dotted,
    /// With the name of a point or of an observer method.
    Named(Ident),
    /// With a place.
    Placed(BeanPlace),
}

impl fmt::Display for Look {
    fn fmt<W: fmt::Write>(&self, f: &mut fmt::Formatter<W>) -> fmt::Result {
        match self {
            Look::Plain => Ok(()),
            Look::Dotted => write!(f, " [style=dotted]"),
            Look::Named(name) => write!(f, " [label=\"{name}\"]"),
            Look::Placed(place) => write!(f, " [label=\"{place}\"]"),
        }
    }
}
