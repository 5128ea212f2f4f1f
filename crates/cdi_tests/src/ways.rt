//! The shortest circles through nodes of small graphs, and which nodes are on circles.
use cdi_ways::{Edge, Ways, on_circles};
use std::alloc::{AllocError, Global};
use std::test::Fail;

const LAST: usize = 2_000;

/// An edge between two nodes.
fn edge(from: usize, to: usize) -> Edge {
    Edge { from, to }
}

/// Whether the edges at some positions are the shortest circle that is found, or none is found where there are no positions.
fn finds(
    alloc: Global,
    edges: &[Edge],
    start: usize,
    wanted: &[usize],
) -> Result<bool, AllocError> {
    let ways = Ways::of(alloc, edges.to_vec(alloc)?)?;
    match ways.circle_through(alloc, start)? {
        Some(way) => Ok(way.as_slice() == wanted),
        None => Ok(wanted.is_empty()),
    }
}

#[test]
fn a_loop_of_one_edge(rt: HostRuntime) -> Result<(), Fail> {
    let edges = [edge(7, 8), edge(8, 7), edge(7, 7)];
    assert!(rt; finds(rt.alloc(), &edges, 7, &[2])?);
    Ok(())
}

#[test]
fn the_shorter_of_two_circles(rt: HostRuntime) -> Result<(), Fail> {
    let edges = [edge(1, 2), edge(2, 3), edge(3, 1), edge(1, 4), edge(4, 1)];
    assert!(rt; finds(rt.alloc(), &edges, 1, &[3, 4])?);
    assert!(rt; finds(rt.alloc(), &edges, 2, &[1, 2, 0])?);
    Ok(())
}

#[test]
fn no_circle(rt: HostRuntime) -> Result<(), Fail> {
    let edges = [edge(1, 2), edge(1, 3), edge(2, 4), edge(3, 4)];
    assert!(rt; finds(rt.alloc(), &edges, 1, &[])?);
    assert!(rt; finds(rt.alloc(), &[], 1, &[])?);
    Ok(())
}

#[test]
fn a_circle_that_leaves_out_the_start(rt: HostRuntime) -> Result<(), Fail> {
    let edges = [edge(1, 2), edge(2, 3), edge(3, 2)];
    assert!(rt; finds(rt.alloc(), &edges, 1, &[])?);
    assert!(rt; finds(rt.alloc(), &edges, 3, &[2, 1])?);
    Ok(())
}

#[test]
fn parallel_edges(rt: HostRuntime) -> Result<(), Fail> {
    let edges = [edge(1, 2), edge(1, 2), edge(2, 1), edge(2, 1)];
    let ways = Ways::of(rt.alloc(), edges.to_vec(rt.alloc())?)?;
    let way = ways.circle_through(rt.alloc(), 1)?.ok_or("no circle")?;
    assert!(rt; way.len() == 2);
    Ok(())
}

#[test]
fn nodes_that_are_not_reached(rt: HostRuntime) -> Result<(), Fail> {
    let edges = [edge(5, 6), edge(6, 5), edge(5, 1), edge(1, 2), edge(2, 1)];
    assert!(rt; finds(rt.alloc(), &edges, 1, &[3, 4])?);
    assert!(rt; finds(rt.alloc(), &edges, 9, &[])?);
    Ok(())
}

#[test]
fn a_number_far_from_the_others(rt: HostRuntime) -> Result<(), Fail> {
    let edges = [edge(0, LAST), edge(LAST, 1), edge(1, LAST)];
    assert!(rt; finds(rt.alloc(), &edges, LAST, &[1, 2])?);
    assert!(rt; finds(rt.alloc(), &edges, 0, &[])?);
    Ok(())
}

/// A ring: each node leads to the one before it, and the first to the last.
fn ring(alloc: Global, count: usize) -> Result<Vec<Edge>, AllocError> {
    let mut edges = Vec::new(alloc);
    let mut before = LAST;
    for node in 0..count {
        edges.push(edge(node, before))?;
        before = node;
    }
    edges.push(edge(LAST, before))?;
    Ok(edges)
}

#[test]
fn a_ring(rt: HostRuntime) -> Result<(), Fail> {
    let ways = Ways::of(rt.alloc(), ring(rt.alloc(), 999)?)?;
    let way = ways.circle_through(rt.alloc(), 500)?.ok_or("no circle")?;
    assert!(rt; way.len() == 1_000);
    assert!(rt; way.first() == Some(&500));
    assert!(rt; way.last() == Some(&501));
    Ok(())
}

/// Whether these marks tell of each node that an edge leaves whether it is on a circle.
fn marks(alloc: Global, edges: &[Edge], wanted: &[bool]) -> Result<bool, AllocError> {
    let marks = on_circles(alloc, edges)?;
    Ok(marks.as_slice() == wanted)
}

#[test]
fn nodes_on_circles(rt: HostRuntime) -> Result<(), Fail> {
    let own = [edge(0, 1), edge(1, 1), edge(1, 2)];
    assert!(rt; marks(rt.alloc(), &own, &[false, true])?);
    let bridge = [edge(0, 1), edge(1, 0), edge(1, 2), edge(2, 3), edge(3, 2)];
    assert!(rt; marks(rt.alloc(), &bridge, &[true, true, true, true])?);
    let between = [
        edge(4, 3),
        edge(3, 4),
        edge(3, 2),
        edge(2, 1),
        edge(1, 0),
        edge(0, 1),
    ];
    assert!(rt; marks(rt.alloc(), &between, &[true, true, false, true, true])?);
    assert!(rt; marks(rt.alloc(), &[], &[])?);
    Ok(())
}

#[test]
fn nodes_of_a_ring_and_of_a_chain_from_it(rt: HostRuntime) -> Result<(), Fail> {
    let mut edges = ring(rt.alloc(), LAST)?;
    let mut wanted = Vec::new(rt.alloc());
    for node in LAST..3 * LAST {
        edges.push(edge(node, node + 1))?;
    }
    for node in 0..3 * LAST {
        wanted.push(node <= LAST)?;
    }
    assert!(rt; marks(rt.alloc(), &edges, &wanted)?);
    Ok(())
}
