//! The injection points of a graph.
ghost use Rattle.std.specs.Prelude.{◌≡◌, IfOk, filter, flat_map, map};
ghost use Rattle.cdi_container.specs.Lent.{lent_at};
ghost use Rattle.cdi_container.specs.PointsLent.{points_lent};
ghost use Rattle.cdi_graph.specs.Edges.{is_choice, is_owned};
ghost use Rattle.cdi_graph.specs.Nodes.{is_bean, is_point};
ghost use Rattle.cdi_graph.specs.declared.node.Node.TheVariants as nodes_are;
ghost use Rattle.cdi_picture.specs.Told.{bean_node, told_choice, told_node, told_owned, told_wire};

use cdi_container::{Beans, Fault, InjectionPoint, Points};
use cdi_graph::{BeanNode, Fired, Graph, Plan, Surrounded, Wire, graph_of};
use std::alloc::{AllocError, Global};

/// What a graph is drawn of beside injection points.
#[derive(Clone, Copy)]
pub(crate) struct Rest<'a> {
    pub(crate) beans: &'a [BeanNode],
    pub(crate) faults: &'a [Fault],
    pub(crate) surrounded: &'a [Surrounded],
    pub(crate) fired: &'a [Fired<'a>],
}

/// The graph of some injection points and the rest.
pub(crate) fn graph_at(
    alloc: Global,
    points: Points<'_>,
    rest: &Rest<'_>,
) -> Result<Graph, AllocError>
    ensures choices { IfOk result (λ graph. filter is_choice graph.edges.items ≡ flat_map told_choice (points_lent points.entry)) }
    ensures owned { IfOk result (λ graph. filter is_owned graph.edges.items ≡ map told_owned (points_lent points.entry)) }
    ensures points { IfOk result (λ graph. filter is_point graph.nodes.items
        ≡ map (told_node rest.now.faults.now) (points_lent points.entry)) }
    ensures beans { IfOk result (λ graph. filter is_bean graph.nodes.items ≡ map nodes_are.Bean rest.now.beans.now) }
{
    let wires = wires_of(alloc, points)?;
    let plan = Plan {
        beans: rest.beans,
        wires: wires.as_slice(),
        faults: rest.faults,
        surrounded: rest.surrounded,
        fired: rest.fired,
    };
    graph_of(alloc, &plan)
}

/// Beans as nodes.
pub(crate) fn nodes_of_beans(alloc: Global, beans: Beans<'_>) -> Result<Vec<BeanNode>, AllocError>
    ensures { IfOk result (λ nodes. map nodes_are.Bean nodes.items ≡ map bean_node beans.entry) }
{
    let mut nodes = Vec::new(alloc);
    for bean in beans {
        nodes.push(BeanNode::of(bean))?;
    }
    Ok(nodes)
}

/// Injection points as wires.
fn wires_of<'a>(alloc: Global, points: Points<'a>) -> Result<Vec<Wire<'a>>, AllocError>
    ensures { IfOk result (λ wires. map told_wire wires.items ≡ points_lent points.entry) }
{
    let mut wires = Vec::new(alloc);
    for told in points.iter() {
        let wire = wire_of(told);
        wires.extend_from_slice(&[wire])?;
    }
    Ok(wires)
}

/// An injection point as a wire.
fn wire_of(told: InjectionPoint<'_>) -> Wire<'_>
    ensures { told_wire result ≡ lent_at told.entry }
{
    let InjectionPoint {
        owner,
        place,
        point,
        choice,
    } = told;
    Wire {
        owner,
        place,
        point,
        choice,
    }
}
