//! The edges of a graph.
ghost use Rattle.std.specs.Prelude.{◌≡◌};
ghost use Rattle.cdi_graph.specs.Edges.{from, to};
ghost use Rattle.cdi_graph.specs.Nodes.{managed};

use crate::node::{NodeId, PointId};
use cdi_effective::BeanId;
use cdi_model::{BeanPlace, Ident, Name};

/// An edge.
#[derive(Drop)]
pub enum Edge {
    /// From the managed bean that declares a product to the product.
    Produces {
        product: BeanId,
    },
    /// From what has an injection point to the point.
    Owns(PointId),
    /// From an injection point to the bean that is chosen for it.
    Chosen {
        point: PointId,
        bean: BeanId,
    },
    /// From an interceptor to a managed bean, a place of which it surrounds.
    Surrounds {
        interceptor: Name,
        bean: Name,
        place: BeanPlace,
    },
    /// From a managed bean or an interceptor to an event that it may fire, which is told by its place.
    Fires {
        owner: NodeId,
        event: usize,
    },
    /// From an event to a managed bean, an observer method of which is notified of it.
    Notifies {
        event: usize,
        bean: Name,
        method: Ident,
    },
}

/// The managed bean of a class.
pub(crate) fn managed(class: Name) -> NodeId
    ensures { result ≡ managed class }
{
    NodeId::Bean(BeanId {
        class,
        producer: None,
    })
}

impl Edge {
    /// The node that it leaves.
    pub fn from(&self) -> NodeId
        ensures { result ≡ from self.now }
    {
        match self {
            Edge::Produces { product } => managed(product.class),
            Edge::Owns(point) => point.owner_node(),
            Edge::Chosen { point, .. } => NodeId::Point(*point),
            Edge::Surrounds { interceptor, .. } => NodeId::Interceptor(*interceptor),
            Edge::Fires { owner, .. } => *owner,
            Edge::Notifies { event, .. } => NodeId::Event(*event),
        }
    }

    /// The node to which it leads.
    pub fn to(&self) -> NodeId
        ensures { result ≡ to self.now }
    {
        match self {
            Edge::Produces { product } => NodeId::Bean(*product),
            Edge::Owns(point) => NodeId::Point(*point),
            Edge::Chosen { bean, .. } => NodeId::Bean(*bean),
            Edge::Surrounds { bean, .. } => managed(*bean),
            Edge::Fires { event, .. } => NodeId::Event(*event),
            Edge::Notifies { bean, .. } => managed(*bean),
        }
    }
}
