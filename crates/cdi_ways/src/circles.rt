//! The nodes that are on circles.
ghost use Rattle.std.specs.Prelude.{◌≡◌, ℕ, false, get_or, map, Decides, IfOk};
ghost use Rattle.cdi_ways.specs.Circles.{turn};
ghost use Rattle.cdi_ways.specs.Ways.{IsOnCircle};

use crate::edge::Edge;
use crate::order::ordered;
use crate::search::Ways;
use crate::states::States;
use std::alloc::{AllocError, Global};

/// The edges turned round: each leads to the node that it left.
fn turned(alloc: Global, edges: &[Edge]) -> Result<Vec<Edge>, AllocError>
    ensures { IfOk result (λ turned. turned.items ≡ map turn edges.now) }
{
    edges
        .iter()
        .map(|edge| Edge {
            from: edge.to,
            to: edge.from,
        })
        .collect(alloc)
}

/// Of each node that an edge leaves, by its number, whether it is on a circle. A node is a small number, since memory is taken for
/// each up to the greatest, and for a few copies of the edges. It takes time near the number of nodes and edges.
pub fn on_circles(alloc: Global, edges: &[Edge]) -> Result<Vec<bool>, AllocError>
    ensures { IfOk result (λ marks. (node : ℕ) → Decides (get_or marks.items node false) (IsOnCircle edges.now node)) }
{
    let forth = Ways::of(alloc, edges.to_vec(alloc)?)?;
    let back = Ways::of(alloc, turned(alloc, edges)?)?;
    let count = forth.count();
    let mut states = States::new(alloc, count)?;
    for node in ordered(alloc, &back)?.iter().rev() {
        states.settle(alloc, &forth, &back, *node)?;
    }
    for node in 0..count {
        states.settle(alloc, &forth, &back, node)?;
    }
    states.marks(alloc)
}
