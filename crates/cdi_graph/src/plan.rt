//! What a graph is drawn of.

use crate::node::BeanNode;
use cdi_faults::Fault;
use cdi_model::{BeanPlace, Decl, EventDecl, Ident, Name, PointDecl, PointPlace, Seq};
use cdi_resolve::Choice;

/// An injection point with what is chosen for it (CDI 4.0, Injection points).
#[derive(Clone, Copy)]
pub struct Wire<'a> {
    /// The declaration of the bean or the interceptor that has it.
    pub owner: &'a Decl,
    /// Of what it is a parameter: of a constructor, of a producer method or of an observer method.
    pub place: PointPlace,
    /// The type that it requires, and its qualifiers as they are written.
    pub point: &'a PointDecl,
    /// The bean that is chosen for it, or why none is.
    pub choice: &'a Choice,
}

/// The interceptors around a place of a managed bean, in their order (Interceptors 2.1, Interceptor Ordering).
#[derive(Drop)]
pub struct Surrounded {
    /// The class of the bean.
    pub bean: Name,
    pub place: BeanPlace,
    pub interceptors: Seq<Name>,
}

/// An observer method that is notified of an event (CDI 4.0, Observer resolution).
#[derive(Clone, Copy)]
pub struct Notified {
    /// The class of the bean that has it.
    pub bean: Name,
    pub method: Ident,
}

/// An event that a body of a bean or an interceptor may fire, with the observer methods that are notified of it.
#[derive(Drop)]
pub struct Fired<'a> {
    /// The declaration of the bean or the interceptor.
    pub owner: &'a Decl,
    pub event: &'a EventDecl,
    pub observers: Seq<Notified>,
}

/// What a graph is drawn of: the beans of a deployment, its points, its faults, its interceptors and its events.
#[derive(Clone, Copy)]
pub struct Plan<'a> {
    /// The beans, in the order of the bean list.
    pub beans: &'a [BeanNode],
    /// The injection points with what is chosen for each.
    pub wires: &'a [Wire<'a>],
    pub faults: &'a [Fault],
    /// The places of beans that interceptors surround.
    pub surrounded: &'a [Surrounded],
    /// The events that may be fired.
    pub fired: &'a [Fired<'a>],
}
