//! The nodes of a graph.
ghost use Rattle.std.specs.Prelude.{◌≡◌};
ghost use Rattle.cdi_graph.specs.Nodes.{id_of_node, is_event, is_of_chain, owner_of_point, producer_at, told_bean};
ghost use Rattle.cdi_graph.specs.SamePoint.{same_place};

use cdi_effective::{BeanId, Effective};
use cdi_model::{DeclKey, EventDecl, Ident, Kind, Name, PointPlace, Quals, Scope};
use std::hash::{Hash, Hasher};

/// What an injection point is told by: its owner, of what it is a parameter, and its name.
#[derive(Clone, Copy)]
pub struct PointId {
    /// The declaration of the bean or the interceptor that has it.
    pub owner: DeclKey,
    pub place: PointPlace,
    pub name: Ident,
}

/// What a node is told by.
#[derive(Clone, Copy, PartialEq, Eq, Hash)]
pub enum NodeId {
    Bean(BeanId),
    Point(PointId),
    /// By the name of its class.
    Interceptor(Name),
    /// By its place among the distinct events of the plan.
    Event(usize),
}

/// Whether a deployment has a fault at an injection point (CDI 4.0, Unsatisfied and ambiguous dependencies).
#[derive(Clone, Copy, Debug, PartialEq, Eq)]
pub enum PointState {
    /// Neither of these. A point of a disabled bean may have no bean, and no fault.
    Plain,
    /// No bean is right for it.
    Unsatisfied,
    /// More than one bean is left for it.
    Ambiguous,
}

/// A bean.
#[derive(Clone, Copy)]
pub struct BeanNode {
    pub id: BeanId,
    pub scope: Scope,
    /// Whether it can be chosen.
    pub is_enabled: bool,
}

impl BeanNode {
    /// The node of a bean with this record.
    pub fn of(bean: &Effective) -> BeanNode
        ensures { result ≡ told_bean bean.now }
    {
        BeanNode {
            id: bean.id,
            scope: bean.scope,
            is_enabled: bean.is_enabled,
        }
    }
}

/// An injection point.
#[derive(Drop)]
pub struct PointNode {
    pub id: PointId,
    /// The type that it requires.
    pub required_type: Name,
    /// The qualifiers that it requires, as they are written.
    pub qualifiers: Quals,
    pub state: PointState,
}

/// An event that may be fired.
#[derive(Drop)]
pub struct EventNode {
    /// Its place among the distinct events of the plan.
    pub place: usize,
    pub event: EventDecl,
}

/// A node.
#[derive(Drop)]
pub enum Node {
    Bean(BeanNode),
    Point(PointNode),
    /// An interceptor, by the name of its class.
    Interceptor(Name),
    Event(EventNode),
}

/// Whether two places are one.
fn is_same_place(place: PointPlace, other: PointPlace) -> bool
    ensures { result ≡ same_place place other }
{
    match place {
        PointPlace::Constructor => matches!(other, PointPlace::Constructor),
        PointPlace::Producer(name) => match other {
            PointPlace::Producer(another) => name == another,
            _ => false,
        },
        PointPlace::Observer(name) => match other {
            PointPlace::Observer(another) => name == another,
            _ => false,
        },
    }
}

impl PartialEq for PointId {
    ghost use Rattle.std.specs.Cmp.{partial_equiv_from_equiv};
    ghost use Rattle.cdi_graph.specs.SamePoint.{same_point, same_point_equiv};

    ghost eq = { same_point };

    ghost laws = { partial_equiv_from_equiv same_point_equiv };

    fn eq(&self, other: &PointId) -> bool {
        self.owner == other.owner
            && is_same_place(self.place, other.place)
            && self.name == other.name
    }
}

impl Eq for PointId {
    ghost use Rattle.cdi_graph.specs.SamePoint.{same_point_equiv};

    ghost laws = { same_point_equiv };
}

impl Hash for PointId {
    ghost use Rattle.cdi_graph.specs.SamePoint.{point_fed, same_points_alike};

    ghost hash_input = { point_fed };

    ghost respects_eq = { same_points_alike };

    fn hash<H: Hasher>(&self, state: &mut H) {
        self.owner.hash(state);
        match self.place {
            PointPlace::Constructor => state.write_u8(0),
            PointPlace::Producer(name) => {
                state.write_u8(1);
                name.hash(state);
            }
            PointPlace::Observer(name) => {
                state.write_u8(2);
                name.hash(state);
            }
        }
        self.name.hash(state);
    }
}

impl PointId {
    /// What has the point: the bean or the interceptor that is declared, or the product of the producer method of which it is
    /// a parameter.
    pub fn owner_node(&self) -> NodeId
        ensures { result ≡ owner_of_point self.now }
    {
        match self.owner.kind {
            Kind::Interceptor => NodeId::Interceptor(self.owner.name),
            _ => NodeId::Bean(BeanId {
                class: self.owner.name,
                producer: self.producer(),
            }),
        }
    }

    /// The producer method of which it is a parameter, if it is one of such a method.
    fn producer(&self) -> Option<Ident>
        ensures { result ≡ producer_at self.now.place }
    {
        match self.place {
            PointPlace::Producer(producer) => Some(producer),
            PointPlace::Constructor | PointPlace::Observer(_) => None,
        }
    }
}

impl NodeId {
    /// Whether this is an event.
    pub(crate) fn is_event(self) -> bool
        ensures { result ≡ is_event self }
    {
        matches!(self, NodeId::Event(_))
    }

    /// Whether this is an interceptor or a point of one.
    pub(crate) fn is_of_chain(self) -> bool
        ensures { result ≡ is_of_chain self }
    {
        match self {
            NodeId::Interceptor(_) => true,
            NodeId::Point(point) => matches!(point.owner.kind, Kind::Interceptor),
            NodeId::Bean(_) | NodeId::Event(_) => false,
        }
    }
}

impl Node {
    /// What it is told by.
    pub fn id(&self) -> NodeId
        ensures { result ≡ id_of_node self.now }
    {
        match self {
            Node::Bean(bean) => NodeId::Bean(bean.id),
            Node::Point(point) => NodeId::Point(point.id),
            Node::Interceptor(name) => NodeId::Interceptor(*name),
            Node::Event(event) => NodeId::Event(event.place),
        }
    }
}
