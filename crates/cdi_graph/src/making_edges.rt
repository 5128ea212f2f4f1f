//! The edges of a plan.
ghost use Rattle.std.specs.Prelude.{◌≡◌, ◌++◌, [], filter, flat_map, map, true, false, IfOk, OnOk};
ghost use Rattle.cdi_graph.specs.Edges.{chosen, is_choice, is_owned, owned};

use crate::edge::{Edge, managed};
use crate::event::Site;
use crate::making_nodes::point_of;
use crate::node::{BeanNode, NodeId, PointId};
use crate::plan::{Fired, Notified, Plan, Surrounded, Wire};
use cdi_effective::BeanId;
use cdi_model::{BeanPlace, Decl, DeclKey, Ident, Kind, PointPlace};
use cdi_resolve::Choice;
use indexmap::IndexSet;
use std::alloc::{AllocError, Global};

/// What edges hold. The check finds the types of what is passed on where these are named.
type Held = (
    NodeId,
    PointId,
    DeclKey,
    Kind,
    PointPlace,
    BeanId,
    Option<Ident>,
    BeanPlace,
);

/// The edges of a plan, at whose fire sites these events are fired.
pub(crate) fn edges_of(
    alloc: Global,
    plan: &Plan<'_>,
    sites: &[Site],
) -> Result<Vec<Edge>, AllocError>
    ensures choices { IfOk result (λ edges. filter is_choice edges.items ≡ flat_map chosen plan.now.wires.now) }
    ensures owned { IfOk result (λ edges. filter is_owned edges.items ≡ map owned plan.now.wires.now) }
{
    let mut edges = Vec::new(alloc);
    add_products(plan.beans, &mut edges)?;
    add_owned(plan.wires, &mut edges)?;
    add_chosen(plan.wires, &mut edges)?;
    add_surrounded(plan.surrounded, &mut edges)?;
    add_fired(alloc, plan.fired, sites, &mut edges)?;
    Ok(edges)
}

/// Appends an edge that is neither to a point nor from one.
#[tactic(auto, using(crate::proofs::SortLemmas::choices_with_other, crate::proofs::SortLemmas::owned_with_other))]
fn push_other(edge: Edge, edges: &mut Vec<Edge>) -> Result<(), AllocError>
    requires choice { is_choice edge ≡ false }
    requires owned { is_owned edge ≡ false }
    ensures choices { OnOk result (filter is_choice edges.new.items ≡ filter is_choice edges.old.items) }
    ensures owned { OnOk result (filter is_owned edges.new.items ≡ filter is_owned edges.old.items) }
{
    let _held: Option<Held> = None;
    edges.push(edge)?;
    Ok(())
}

/// Adds the edges to products.
fn add_products(beans: &[BeanNode], edges: &mut Vec<Edge>) -> Result<(), AllocError>
    ensures choices { OnOk result (filter is_choice edges.new.items ≡ filter is_choice edges.old.items) }
    ensures owned { OnOk result (filter is_owned edges.new.items ≡ filter is_owned edges.old.items) }
{
    for bean in beans {
        if bean.id.producer.is_some() {
            push_other(Edge::Produces { product: bean.id }, edges)?;
        }
    }
    Ok(())
}

/// Adds the edges to points.
fn add_owned(wires: &[Wire<'_>], edges: &mut Vec<Edge>) -> Result<(), AllocError>
    ensures { OnOk result (edges.new.items ≡ edges.old.items ++ map owned wires.now) }
{
    let _held: Option<Held> = None;
    for wire in wires {
        edges.push(Edge::Owns(point_of(wire)))?;
    }
    Ok(())
}

/// Adds the edges from points to the beans that are chosen for them.
fn add_chosen(wires: &[Wire<'_>], edges: &mut Vec<Edge>) -> Result<(), AllocError>
    ensures { OnOk result (edges.new.items ≡ edges.old.items ++ flat_map chosen wires.now) }
{
    for wire in wires {
        add_choice(wire, edges)?;
    }
    Ok(())
}

/// Adds the edge from a point to the bean that is chosen for it, if one is.
fn add_choice(wire: &Wire<'_>, edges: &mut Vec<Edge>) -> Result<(), AllocError>
    ensures { OnOk result (edges.new.items ≡ edges.old.items ++ chosen wire.now) }
{
    let _held: Option<Held> = None;
    match wire.choice {
        Choice::One(bean) => {
            edges.push(Edge::Chosen {
                point: point_of(wire),
                bean: *bean,
            })?;
        }
        Choice::Unsatisfied => {}
        Choice::Ambiguous(_) => {}
    }
    Ok(())
}

/// Adds the edges from interceptors.
fn add_surrounded(places: &[Surrounded], edges: &mut Vec<Edge>) -> Result<(), AllocError>
    ensures choices { OnOk result (filter is_choice edges.new.items ≡ filter is_choice edges.old.items) }
    ensures owned { OnOk result (filter is_owned edges.new.items ≡ filter is_owned edges.old.items) }
{
    for surrounded in places {
        add_around(surrounded, edges)?;
    }
    Ok(())
}

/// Adds the edges from the interceptors around a place.
fn add_around(surrounded: &Surrounded, edges: &mut Vec<Edge>) -> Result<(), AllocError>
    ensures choices { OnOk result (filter is_choice edges.new.items ≡ filter is_choice edges.old.items) }
    ensures owned { OnOk result (filter is_owned edges.new.items ≡ filter is_owned edges.old.items) }
{
    for interceptor in surrounded.interceptors.as_slice() {
        let edge = Edge::Surrounds {
            interceptor: *interceptor,
            bean: surrounded.bean,
            place: surrounded.place,
        };
        push_other(edge, edges)?;
    }
    Ok(())
}

/// That a managed bean or an interceptor may fire an event.
#[derive(Clone, Copy, PartialEq, Eq, Hash)]
struct Firing {
    owner: NodeId,
    event: usize,
}

/// The bean or the interceptor that a declaration declares.
fn declared(owner: &Decl) -> NodeId {
    let name = *owner.name();
    match owner.kind() {
        Kind::Interceptor => NodeId::Interceptor(name),
        _ => managed(name),
    }
}

/// Adds the edges to events, each once, and those from each event, the first time that it is fired, to beans.
fn add_fired(
    alloc: Global,
    fired: &[Fired<'_>],
    sites: &[Site],
    edges: &mut Vec<Edge>,
) -> Result<(), AllocError>
    ensures choices { OnOk result (filter is_choice edges.new.items ≡ filter is_choice edges.old.items) }
    ensures owned { OnOk result (filter is_owned edges.new.items ≡ filter is_owned edges.old.items) }
{
    let mut firings = IndexSet::new(alloc);
    for (one, site) in fired.iter().zip(sites.iter()) {
        let event = site.event;
        let firing = Firing {
            owner: declared(one.owner),
            event,
        };
        if firings.insert(firing)? {
            let owner = declared(one.owner);
            push_other(Edge::Fires { owner, event }, edges)?;
        }
        if site.is_first {
            add_notified(event, one.observers.as_slice(), edges)?;
        }
    }
    Ok(())
}

/// Adds the edges from an event to the beans whose observer methods are notified.
fn add_notified(
    event: usize,
    observers: &[Notified],
    edges: &mut Vec<Edge>,
) -> Result<(), AllocError>
    ensures choices { OnOk result (filter is_choice edges.new.items ≡ filter is_choice edges.old.items) }
    ensures owned { OnOk result (filter is_owned edges.new.items ≡ filter is_owned edges.old.items) }
{
    for observer in observers {
        let edge = Edge::Notifies {
            event,
            bean: observer.bean,
            method: observer.method,
        };
        push_other(edge, edges)?;
    }
    Ok(())
}
