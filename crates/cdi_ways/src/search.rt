//! The search for the shortest way from a node back to itself.
ghost use Rattle.std.specs.Prelude.{◌≡◌, ◌↔◌, ◌<◌, ℕ, Some, OnOk, IfOk, IfSome, IfNone, length, map, slice_get};
ghost use Rattle.cdi_ways.specs.declared.edge.Edge.{Edge as AnEdge};
ghost use Rattle.cdi_ways.specs.Leaving.{Has, HoldsLeaving, Leaves};
ghost use Rattle.cdi_ways.specs.Search.{Follows, IsLinked, IsWayTo, SearchesFrom};
ghost use Rattle.cdi_ways.specs.Ways.{HasNoCircle, IsCircle, IsShortest};

use crate::edge::Edge;
use crate::leaving::leaving;
use std::alloc::{AllocError, Global};
use std::marker::Model;

/// Edges between nodes, in which circles are looked for. A node is a small number, as the position of a bean: the memory for
/// them goes up to the greatest node that an edge leaves.
#[derive(Drop)]
pub struct Ways {
    edges: Vec<Edge>,
    /// The positions of the edges that leave each node.
    leaving: Vec<Vec<usize>>,
}

impl Model for Ways {
    ghost use Rattle.std.specs.Prelude.{List};
    ghost use Rattle.cdi_ways.specs.Leaving.{HoldsLeaving};
    ghost use Rattle.cdi_ways.specs.declared.edge.Edge.{Edge as AnEdge};

    ghost Value = { List AnEdge };

    ghost view = { λ w. w.edges.items };

    ghost invariant = { λ w. HoldsLeaving w.edges.items w.leaving.items };
}

impl Ways {
    /// These edges.
    pub fn of(alloc: Global, edges: Vec<Edge>) -> Result<Ways, AllocError>
        ensures { IfOk result (λ ways. ways ≡ edges.items) }
    {
        let leaving = leaving(alloc, &edges)?;
        Ok(Ways { edges, leaving })
    }

    /// The edges, in order.
    pub fn edges(&self) -> &[Edge]
        ensures { result.now ≡ self.now }
    {
        &self.edges
    }

    /// The positions of the edges that leave a node.
    pub(crate) fn leaving_of(&self, node: usize) -> &[usize]
        ensures { (p : ℕ) → Has result.now p ↔ Leaves self.now node p }
    {
        match self.leaving.get(node) {
            Some(positions) => positions.as_slice(),
            None => &[],
        }
    }

    /// The node to which the edge at a position leads.
    pub(crate) fn end_of(&self, position: usize) -> usize
        requires { position < length self.now }
        ensures { (e : AnEdge) → slice_get self.now position ≡ Some e → result ≡ e.to }
    {
        self.edges[position].to
    }

    /// A number above each node that an edge leaves.
    pub(crate) fn count(&self) -> usize
        ensures { (node p : ℕ) → Leaves self.now node p → node < result }
    {
        self.leaving.len()
    }

    /// The positions of the edges that leave each node, lent.
    pub(crate) fn lent(&self, alloc: Global) -> Result<Vec<&[usize]>, AllocError> {
        lent(alloc, &self.leaving)
    }

    /// The positions of the edges of a shortest way from a node back to itself, if there is one. The first edge leaves the node,
    /// each next leaves where the one before leads, and the last leads to the node. It takes time near the number of edges.
    pub fn circle_through(
        &self,
        alloc: Global,
        start: usize,
    ) -> Result<Option<Vec<usize>>, AllocError>
        ensures way { IfOk result (λ found. IfSome found (λ way. IsCircle self.now start way.items)) }
        ensures none { IfOk result (λ found. IfNone found (HasNoCircle self.now start)) }
        ensures shortest { IfOk result (λ found. IfSome found (λ way. IsShortest self.now start way.items)) }
    {
        circle_through(alloc, &self.edges, &self.leaving, start)
    }
}

/// A step of a search: an edge that is followed.
#[derive(Clone, Copy)]
struct Step {
    /// The position of the edge.
    edge: usize,
    /// The place of the step before it. The first steps leave the start.
    before: Option<usize>,
    /// How many edges the way has that ends with it.
    depth: usize,
}

/// The positions of the edges that leave each node and are not followed yet, and the steps in the order in which they were taken.
#[derive(Drop)]
struct Search<'a> {
    left: Vec<&'a [usize]>,
    steps: Vec<Step>,
}

impl<'a> Search<'a> {
    /// A search from a node: the edges that leave it are followed.
    fn new(
        alloc: Global,
        edges: &[Edge],
        leaving: &'a [Vec<usize>],
        start: usize,
    ) -> Result<Search<'a>, AllocError>
        requires { HoldsLeaving edges.now leaving.now }
        ensures { IfOk result (λ search. SearchesFrom edges.now start search 0) }
    {
        let mut search = Search {
            left: lent(alloc, leaving)?,
            steps: Vec::new(alloc),
        };
        search.follow(start, None, 1)?;
        Ok(search)
    }

    /// Follows the edges that leave a node, if they are not followed yet.
    fn follow(&mut self, node: usize, before: Option<usize>, depth: usize) -> Result<(), AllocError>
        ensures { OnOk result (Follows node before depth self.old self.new) }
    {
        if node >= self.left.len() {
            return Ok(());
        }
        let positions = self.left[node];
        self.left[node] = &[];
        for edge in positions {
            self.steps.push(Step {
                edge: *edge,
                before,
                depth,
            })?;
        }
        Ok(())
    }
}

/// The positions of the edges that leave each node, lent.
fn lent(alloc: Global, leaving: &[Vec<usize>]) -> Result<Vec<&[usize]>, AllocError>
    ensures { IfOk result (λ list. map (λ positions. positions.now) list.items ≡ map (λ positions. positions.items) leaving.now) }
{
    let mut list = Vec::with_capacity(alloc, leaving.len())?;
    for positions in leaving {
        list.push(positions.as_slice())?;
    }
    Ok(list)
}

/// The positions of the edges of the way that ends with a step, from the start on.
fn way_to(alloc: Global, steps: &[Step], place: usize) -> Result<Vec<usize>, AllocError>
    requires bound { place < length steps.now }
    requires linked { IsLinked steps.now }
    ensures { IfOk result (λ way. IsWayTo steps.now place way.items) }
{
    let mut way = Vec::with_capacity(alloc, steps[place].depth)?;
    let mut next = Some(place);
    'back: while let Some(place) = next {
        let step = steps[place];
        way.push(step.edge)?;
        next = step.before;
    }
    way.reverse();
    Ok(way)
}

/// The positions of the edges of a shortest way from a node back to itself, where these are the positions of the edges that leave
/// each node.
fn circle_through(
    alloc: Global,
    edges: &[Edge],
    leaving: &[Vec<usize>],
    start: usize,
) -> Result<Option<Vec<usize>>, AllocError>
    requires { HoldsLeaving edges.now leaving.now }
    ensures way { IfOk result (λ found. IfSome found (λ way. IsCircle edges.now start way.items)) }
    ensures none { IfOk result (λ found. IfNone found (HasNoCircle edges.now start)) }
    ensures shortest { IfOk result (λ found. IfSome found (λ way. IsShortest edges.now start way.items)) }
{
    let mut search = Search::new(alloc, edges, leaving, start)?;
    let mut place = 0;
    'taken: while place < search.steps.len() {
        let step = search.steps[place];
        let to = edges[step.edge].to;
        if to == start {
            return Ok(Some(way_to(alloc, search.steps.as_slice(), place)?));
        }
        search.follow(to, Some(place), step.depth + 1)?;
        place += 1;
    }
    Ok(None)
}
