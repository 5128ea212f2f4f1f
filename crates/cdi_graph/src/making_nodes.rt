//! The nodes of a plan.
ghost use Rattle.std.specs.Prelude.{◌≡◌, ◌++◌, filter, map, IfOk, OnOk};
ghost use Rattle.cdi_graph.specs.declared.node.Node.TheVariants as nodes_are;
ghost use Rattle.cdi_graph.specs.Edges.{point_of};
ghost use Rattle.cdi_graph.specs.Nodes.{is_bean, is_point};
ghost use Rattle.cdi_graph.specs.Red.{point_node, HoldsRed};
ghost use Rattle.std.specs.Prelude.{List};
ghost use Rattle.cdi_faults.specs.declared.fault.Fault.{Fault as AnyFault};

use crate::event::Site;
use crate::node::{BeanNode, EventNode, Node, PointId, PointNode};
use crate::plan::{Fired, Plan, Wire};
use crate::red::Red;
use cdi_model::{Decl, Kind, Name};
use indexmap::IndexSet;
use std::alloc::{AllocError, Global};

/// The nodes of a plan, at whose fire sites these events are fired.
pub(crate) fn nodes_of(
    alloc: Global,
    plan: &Plan<'_>,
    sites: &[Site],
) -> Result<Vec<Node>, AllocError>
    ensures points { IfOk result (λ nodes. filter is_point nodes.items ≡ map (point_node plan.now.faults.now) plan.now.wires.now) }
    ensures beans { IfOk result (λ nodes. filter is_bean nodes.items ≡ map nodes_are.Bean plan.now.beans.now) }
{
    let red = Red::of(alloc, plan.faults)?;
    let interceptors = interceptors(alloc, plan)?;
    let mut nodes = Vec::new(alloc);
    add_beans(plan.beans, &mut nodes)?;
    add_points(plan.wires, &red, &mut nodes)?;
    add_interceptors(interceptors.as_slice(), &mut nodes)?;
    add_events(plan.fired, sites, &mut nodes)?;
    Ok(nodes)
}

/// What the point of a wire is told by.
pub(crate) fn point_of(wire: &Wire<'_>) -> PointId
    ensures { result ≡ point_of wire.now }
{
    PointId {
        owner: wire.owner.key(),
        place: wire.place,
        name: wire.point.name,
    }
}

/// Adds the nodes of beans.
fn add_beans(beans: &[BeanNode], nodes: &mut Vec<Node>) -> Result<(), AllocError>
    ensures { OnOk result (nodes.new.items ≡ nodes.old.items ++ map nodes_are.Bean beans.now) }
{
    for bean in beans {
        nodes.push(Node::Bean(*bean))?;
    }
    Ok(())
}

/// Adds the nodes of points.
fn add_points(wires: &[Wire<'_>], red: &Red, nodes: &mut Vec<Node>) -> Result<(), AllocError>
    ensures { OnOk result ((fs : List AnyFault) → HoldsRed fs red.now
        → nodes.new.items ≡ nodes.old.items ++ map (point_node fs) wires.now) }
{
    for wire in wires {
        nodes.push(point_node(wire, red)?)?;
    }
    Ok(())
}

/// The node of the point of a wire. It takes memory for the qualifiers.
fn point_node(wire: &Wire<'_>, red: &Red) -> Result<Node, AllocError>
    ensures { IfOk result (λ node. (fs : List AnyFault) → HoldsRed fs red.now → node ≡ point_node fs wire.now) }
{
    let id = point_of(wire);
    Ok(Node::Point(PointNode {
        id,
        required_type: wire.point.required_type,
        qualifiers: wire.point.qualifiers.copy()?,
        state: red.state(&id),
    }))
}

/// Adds the nodes of interceptors.
fn add_interceptors(names: &[Name], nodes: &mut Vec<Node>) -> Result<(), AllocError>
    ensures { OnOk result (nodes.new.items ≡ nodes.old.items ++ map nodes_are.Interceptor names.now) }
{
    for name in names {
        nodes.push(Node::Interceptor(*name))?;
    }
    Ok(())
}

/// Adds the nodes of events, each where it is first fired.
fn add_events(fired: &[Fired<'_>], sites: &[Site], nodes: &mut Vec<Node>) -> Result<(), AllocError>
    ensures points { OnOk result (filter is_point nodes.new.items ≡ filter is_point nodes.old.items) }
    ensures beans { OnOk result (filter is_bean nodes.new.items ≡ filter is_bean nodes.old.items) }
{
    for (one, site) in fired.iter().zip(sites.iter()) {
        if site.is_first {
            let event = one.event.copy()?;
            let place = site.event;
            push_event(EventNode { place, event }, nodes)?;
        }
    }
    Ok(())
}

/// Appends the node of an event.
#[tactic(auto, using(crate::proofs::SortLemmas::points_with_event, crate::proofs::SortLemmas::beans_with_event))]
fn push_event(event: EventNode, nodes: &mut Vec<Node>) -> Result<(), AllocError>
    ensures points { OnOk result (filter is_point nodes.new.items ≡ filter is_point nodes.old.items) }
    ensures beans { OnOk result (filter is_bean nodes.new.items ≡ filter is_bean nodes.old.items) }
{
    nodes.push(Node::Event(event))?;
    Ok(())
}

/// The interceptors that surround something, have a point or may fire an event, each once.
fn interceptors(alloc: Global, plan: &Plan<'_>) -> Result<IndexSet<Name>, AllocError> {
    let mut names = IndexSet::new(alloc);
    for surrounded in plan.surrounded {
        for name in surrounded.interceptors.as_slice() {
            names.insert(*name)?;
        }
    }
    for wire in plan.wires {
        add_if_interceptor(wire.owner, &mut names)?;
    }
    for site in plan.fired {
        add_if_interceptor(site.owner, &mut names)?;
    }
    Ok(names)
}

/// Adds the name of a declaration if it is that of an interceptor.
fn add_if_interceptor(decl: &Decl, names: &mut IndexSet<Name>) -> Result<(), AllocError> {
    if decl.kind() == Kind::Interceptor {
        names.insert(*decl.name())?;
    }
    Ok(())
}
