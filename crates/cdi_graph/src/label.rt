//! How nodes are named in the text of a graph, and what they show.
use crate::node::{BeanNode, EventNode, Node, PointNode, PointState};
use cdi_faults::Subject;
use cdi_model::{Quals, Scope};
use std::fmt;

/// The name of a node in the text.
#[derive(Clone, Copy)]
pub(crate) struct Named<'a>(pub(crate) &'a Node);

impl fmt::Display for Named<'_> {
    fn fmt<W: fmt::Write>(&self, f: &mut fmt::Formatter<W>) -> fmt::Result {
        match self.0 {
            Node::Bean(bean) => write!(f, "\"bean {}\"", bean.id),
            Node::Point(point) => {
                let subject = Subject::Point {
                    place: point.id.place,
                    name: point.id.name,
                };
                let owner = point.id.owner;
                write!(f, "\"point {} {} {subject}\"", owner.kind, owner.name)
            }
            Node::Interceptor(name) => write!(f, "\"interceptor {name}\""),
            Node::Event(event) => write!(f, "\"event {}\"", event.event),
        }
    }
}

/// The shape of a node, what it shows, and how.
#[derive(Clone, Copy)]
pub(crate) struct Shown<'a>(pub(crate) &'a Node);

impl fmt::Display for Shown<'_> {
    fn fmt<W: fmt::Write>(&self, f: &mut fmt::Formatter<W>) -> fmt::Result {
        match self.0 {
            Node::Bean(bean) => write!(f, "{}", ShownBean(bean)),
            Node::Point(point) => write!(f, "{}", ShownPoint(point)),
            Node::Interceptor(name) => write!(f, "shape=hexagon, label=\"{name}\""),
            Node::Event(EventNode { event, .. }) => write!(f, "shape=diamond, label=\"{event}\""),
        }
    }
}

/// The same of a bean.
#[derive(Clone, Copy)]
struct ShownBean<'a>(&'a BeanNode);

impl fmt::Display for ShownBean<'_> {
    fn fmt<W: fmt::Write>(&self, f: &mut fmt::Formatter<W>) -> fmt::Result {
        let scope = match self.0.scope {
            Scope::Dependent => "",
            Scope::Request => "\\nrequest",
            Scope::Application => "\\napplication",
        };
        let style = if self.0.is_enabled {
            ""
        } else {
            ", style=dashed"
        };
        write!(f, "shape=box, label=\"{}{scope}\"{style}", self.0.id)
    }
}

/// The same of a point.
#[derive(Clone, Copy)]
struct ShownPoint<'a>(&'a PointNode);

impl fmt::Display for ShownPoint<'_> {
    fn fmt<W: fmt::Write>(&self, f: &mut fmt::Formatter<W>) -> fmt::Result {
        let point = self.0;
        let state = match point.state {
            PointState::Plain => "\"",
            PointState::Unsatisfied => "\\nunsatisfied\", color=red",
            PointState::Ambiguous => "\\nambiguous\", color=red",
        };
        let qualifiers = Listed(&point.qualifiers);
        let wanted = point.required_type;
        write!(
            f,
            "shape=ellipse, label=\"{}\\n{wanted}{qualifiers}{state}",
            point.id.name
        )
    }
}

/// Uses, each behind a space.
#[derive(Clone, Copy)]
struct Listed<'a>(&'a Quals);

impl fmt::Display for Listed<'_> {
    fn fmt<W: fmt::Write>(&self, f: &mut fmt::Formatter<W>) -> fmt::Result {
        for qual in self.0.as_slice() {
            write!(f, " {qual}")?;
        }
        Ok(())
    }
}
