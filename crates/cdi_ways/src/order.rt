//! The order in which nodes are taken.
ghost use Rattle.std.specs.Prelude.{◌≤◌, OnOk};
ghost use Rattle.cdi_ways.specs.Order.{work_of};

use crate::edge::Edge;
use crate::search::Ways;
use std::alloc::{AllocError, Global};

/// A step of a walk in depth.
#[derive(Clone, Copy)]
enum Step {
    /// Walks from a node.
    Enter(usize),
    /// The walks from those that follow a node are done.
    Leave(usize),
}

/// A walk in depth, which takes away the edges that it follows.
#[derive(Drop)]
struct Walk<'a> {
    edges: &'a [Edge],
    /// The positions of the edges that leave each node and are not followed yet.
    left: Vec<&'a [usize]>,
    steps: Vec<Step>,
    order: Vec<usize>,
}

impl<'a> Walk<'a> {
    /// Appends those of the nodes to which ways lead from a node that have edges still, each after those that are walked from it.
    fn walk(&mut self, node: usize) -> Result<(), AllocError> {
        self.steps.push(Step::Enter(node))?;
        'steps: while let Some(step) = self.steps.pop() {
            match step {
                Step::Enter(node) => self.enter(node)?,
                Step::Leave(node) => self.order.push(node)?,
            }
        }
        Ok(())
    }

    /// Plans the walks from those that follow a node, where its edges are still there.
    fn enter(&mut self, node: usize) -> Result<(), AllocError>
        ensures { OnOk result (work_of self.new ≤ work_of self.old) }
    {
        if node >= self.left.len() || self.left[node].is_empty() {
            return Ok(());
        }
        let positions = self.left[node];
        self.left[node] = &[];
        self.steps.push(Step::Leave(node))?;
        for position in positions {
            if let Some(edge) = self.edges.get(*position) {
                self.steps.push(Step::Enter(edge.to))?;
            }
        }
        Ok(())
    }
}

/// The nodes that edges leave, as a walk in depth leaves them. Take them from the end, and turn the edges round: ways by nodes that
/// are yet to come lead from a node to none but those on a circle with it. So searches stay short, and no clause rests on that.
/// It takes memory and time near the number of nodes and edges.
pub(crate) fn ordered(alloc: Global, ways: &Ways) -> Result<Vec<usize>, AllocError> {
    let mut walk = Walk {
        edges: ways.edges(),
        left: ways.lent(alloc)?,
        steps: Vec::new(alloc),
        order: Vec::new(alloc),
    };
    for node in 0..ways.count() {
        walk.walk(node)?;
    }
    Ok(walk.order)
}
