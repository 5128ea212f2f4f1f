//! The edges that leave each node.
ghost use Rattle.std.specs.Prelude.{◌≡◌, ◌<◌, ◌++◌, ◌∷◌, [], ℕ, nat_eq, vec_len, OnOk, IfOk, if◌then◌else◌};
ghost use Rattle.cdi_ways.specs.Leaving.{leaving_at, HoldsLeaving};

use crate::edge::Edge;
use std::alloc::{AllocError, Global};

/// The positions of the edges that leave each node. It takes memory up to the greatest node that an edge leaves.
pub(crate) fn leaving(alloc: Global, edges: &[Edge]) -> Result<Vec<Vec<usize>>, AllocError>
    ensures { IfOk result (λ leaving. HoldsLeaving edges.now leaving.items) }
{
    let mut leaving = Vec::new(alloc);
    for (position, edge) in edges.iter().enumerate() {
        add(alloc, edge.from, position, &mut leaving)?;
    }
    Ok(leaving)
}

/// Adds a position to those at a node.
fn add(
    alloc: Global,
    node: usize,
    position: usize,
    leaving: &mut Vec<Vec<usize>>,
) -> Result<(), AllocError>
    ensures { OnOk result ((n : ℕ) → leaving_at leaving.new.items n
        ≡ (if nat_eq node n then leaving_at leaving.old.items n ++ position ∷ [] else leaving_at leaving.old.items n)) }
{
    make_place(alloc, node, leaving)?;
    leaving[node].push(position)?;
    Ok(())
}

/// Makes a place for a node, if there is none.
fn make_place(alloc: Global, node: usize, leaving: &mut Vec<Vec<usize>>) -> Result<(), AllocError>
    ensures same { OnOk result ((n : ℕ) → leaving_at leaving.new.items n ≡ leaving_at leaving.old.items n) }
    ensures place { OnOk result (node < vec_len leaving.new) }
{
    'places: while leaving.len() <= node {
        leaving.push(Vec::new(alloc))?;
    }
    Ok(())
}
