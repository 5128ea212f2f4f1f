//! Ways from a bean, or from what is declared, back to itself.
ghost use Rattle.std.specs.Prelude.{◌≡◌};
ghost use Rattle.cdi_intercept.specs.Chains.{in_order};
ghost use Rattle.cdi_intercept.specs.Lent.{lent_in};

use crate::adviser::Adviser;
use crate::notes::Notes;
use crate::words::{filled, text_of};
use cdi_effective::{BeanId, Effective};
use cdi_intercept::{around_any, in_order};
use cdi_model::{
    BeanDecl, Decl, Decls, Ident, InterceptorDecl, Kind, Name, PointDecl, Scope, Work,
};
use cdi_resolve::{Choice, choose_from};
use cdi_ways::{Edge, Ways};
use indexmap::IndexMap;
use std::alloc::{AllocError, Global};

/// What leads from a bean to one that it needs.
#[derive(Clone, Copy)]
enum Link {
    /// A point of its constructor.
    Point(Ident),
    /// A parameter of the producer method whose product it is.
    Param(Ident),
    /// The producer method runs on the bean that declares it.
    Producer(Ident),
    /// A point of an interceptor around a place of it.
    Interceptor(Name, Ident),
}

impl Link {
    fn text(&self, alloc: Global) -> Result<String, AllocError> {
        match self {
            Link::Point(name) => filled(alloc, "point {}", &[name.as_str()]),
            Link::Param(name) => filled(alloc, "param {}", &[name.as_str()]),
            Link::Producer(name) => filled(alloc, "producer {}", &[name.as_str()]),
            Link::Interceptor(interceptor, name) => filled(
                alloc,
                "interceptor {} point {}",
                &[interceptor.as_str(), name.as_str()],
            ),
        }
    }
}

/// Where beans are in the bean list, by their ids and by their types.
#[derive(Drop)]
struct Places {
    ids: IndexMap<BeanId, usize>,
    types: IndexMap<Name, Vec<usize>>,
}

impl Places {
    fn of(adviser: &Adviser<'_>) -> Result<Places, AllocError> {
        let alloc = adviser.alloc;
        let mut places = Places {
            ids: IndexMap::new(alloc),
            types: IndexMap::new(alloc),
        };
        for (place, bean) in adviser.beans.iter().enumerate() {
            places.ids.insert(bean.id, place)?;
            for name in bean.types.as_slice() {
                add_place(alloc, &mut places.types, *name, place)?;
            }
        }
        Ok(places)
    }

    fn of_id(&self, id: &BeanId) -> Option<usize> {
        self.ids.get(id).copied()
    }

    /// The beans that have a type, in order.
    fn having<'a>(
        &self,
        adviser: &Adviser<'a>,
        name: &Name,
    ) -> Result<Vec<&'a Effective>, AllocError> {
        let mut beans = Vec::new(adviser.alloc);
        if let Some(places) = self.types.get(name) {
            for place in places {
                if let Some(bean) = adviser.record(Some(*place)) {
                    beans.push(bean)?;
                }
            }
        }
        Ok(beans)
    }
}

/// Adds a place to those of a type.
fn add_place(
    alloc: Global,
    types: &mut IndexMap<Name, Vec<usize>>,
    name: Name,
    place: usize,
) -> Result<(), AllocError> {
    types.entry(name)?.or_insert(Vec::new(alloc)).push(place)?;
    Ok(())
}

/// The edges from dependent beans to those that they need, each with what leads there.
#[derive(Drop)]
pub(crate) struct Needs {
    places: Places,
    ways: Ways,
    links: Vec<Link>,
}

impl Needs {
    /// What the dependent beans need.
    fn of(adviser: &Adviser<'_>) -> Result<Needs, AllocError> {
        let steps = steps_of(adviser)?;
        let Steps {
            places,
            edges,
            links,
        } = steps;
        Ok(Needs {
            places,
            ways: Ways::of(adviser.alloc, edges)?,
            links,
        })
    }

    /// The shortest way from a bean back to itself, if there is one.
    fn circle(&self, adviser: &Adviser<'_>, id: BeanId) -> Result<Option<String>, AllocError> {
        let alloc = adviser.alloc;
        let Some(start) = self.places.of_id(&id) else {
            return Ok(None);
        };
        let Some(way) = self.ways.circle_through(alloc, start)? else {
            return Ok(None);
        };
        let mut text = text_of(alloc, &id)?;
        for position in way {
            self.push_step(adviser, position, &mut text)?;
        }
        Ok(Some(text))
    }

    /// Appends the edge at a position, as ` (point till) -> Till`.
    fn push_step(
        &self,
        adviser: &Adviser<'_>,
        position: usize,
        text: &mut String,
    ) -> Result<(), AllocError> {
        let alloc = adviser.alloc;
        let (Some(edge), Some(link)) = (self.ways.edges().get(position), self.links.get(position))
        else {
            return Ok(());
        };
        if let Some(bean) = adviser.record(Some(edge.to)) {
            let (link, id) = (link.text(alloc)?, text_of(alloc, &bean.id)?);
            let step = filled(alloc, " ({}) -> {}", &[link.as_str(), id.as_str()])?;
            text.push_str(step.as_str())?;
        }
        Ok(())
    }
}

/// Such edges, while they are looked for.
#[derive(Drop)]
struct Steps {
    places: Places,
    edges: Vec<Edge>,
    links: Vec<Link>,
}

impl Steps {
    fn push(&mut self, edge: Edge, link: Link) -> Result<(), AllocError> {
        self.edges.push(edge)?;
        self.links.push(link)?;
        Ok(())
    }

    /// What is chosen for a point.
    fn choice(&self, adviser: &Adviser<'_>, point: &PointDecl) -> Result<Choice, AllocError> {
        let (alloc, wanted) = (adviser.alloc, point.required_type);
        let candidates = self.places.having(adviser, &wanted)?;
        let (decls, quals) = (adviser.decls, &point.qualifiers);
        choose_from(alloc, decls, &candidates, wanted, quals, &mut Work::new())
    }

    /// Adds what is chosen for a point, where it is a dependent bean.
    fn push_point(
        &mut self,
        adviser: &Adviser<'_>,
        from: usize,
        point: &PointDecl,
        link: Link,
    ) -> Result<(), AllocError> {
        let Choice::One(id) = self.choice(adviser, point)? else {
            return Ok(());
        };
        match self.places.of_id(&id) {
            Some(to) if is_dependent_at(adviser, to) => self.push(Edge { from, to }, link),
            _ => Ok(()),
        }
    }

    /// Adds what a managed bean needs. The interceptors are all that are enabled, in order.
    fn push_managed(
        &mut self,
        adviser: &Adviser<'_>,
        from: usize,
        record: &Effective,
        bean: &BeanDecl,
        order: &[&InterceptorDecl],
    ) -> Result<(), AllocError>
        requires { lent_in order.now ≡ in_order adviser.now.decls.now }
    {
        for point in bean.points.as_slice() {
            self.push_point(adviser, from, point, Link::Point(point.name))?;
        }
        let class = record.bindings.as_slice();
        for interceptor in around_any(adviser.alloc, adviser.decls, order, class, bean)? {
            for point in interceptor.points.as_slice() {
                let link = Link::Interceptor(interceptor.name, point.name);
                self.push_point(adviser, from, point, link)?;
            }
        }
        Ok(())
    }

    /// Adds what the product of a producer method needs.
    fn push_product(
        &mut self,
        adviser: &Adviser<'_>,
        from: usize,
        bean: &BeanDecl,
        producer: Ident,
    ) -> Result<(), AllocError> {
        for declared in bean.producers.as_slice() {
            if declared.name == producer {
                for point in declared.params.as_slice() {
                    self.push_point(adviser, from, point, Link::Param(point.name))?;
                }
                let declaring = BeanId {
                    class: bean.name,
                    producer: None,
                };
                if let Some(to) = self.places.of_id(&declaring) {
                    if !declared.is_static && is_dependent_at(adviser, to) {
                        self.push(Edge { from, to }, Link::Producer(producer))?;
                    }
                }
            }
        }
        Ok(())
    }
}

/// Whether the bean at a position of the bean list is an enabled dependent one.
fn is_dependent_at(adviser: &Adviser<'_>, position: usize) -> bool {
    match adviser.record(Some(position)) {
        Some(bean) => is_dependent(bean),
        None => false,
    }
}

fn is_dependent(bean: &Effective) -> bool {
    bean.is_enabled && bean.scope == Scope::Dependent
}

/// What the dependent beans need.
fn steps_of(adviser: &Adviser<'_>) -> Result<Steps, AllocError> {
    let alloc = adviser.alloc;
    let order = in_order(alloc, adviser.decls)?;
    let mut steps = Steps {
        places: Places::of(adviser)?,
        edges: Vec::new(alloc),
        links: Vec::new(alloc),
    };
    for (from, record) in adviser.beans.iter().enumerate() {
        if !is_dependent(record) {
            continue;
        }
        let Some(bean) = adviser.bean(&record.id.class) else {
            continue;
        };
        match record.id.producer {
            None => steps.push_managed(adviser, from, record, bean, &order)?,
            Some(producer) => steps.push_product(adviser, from, bean, producer)?,
        }
    }
    Ok(steps)
}

/// The shortest way from a dependent bean back to itself, if there is one, as `Cart (point till) -> Till (point cart) -> Cart`.
pub(crate) fn circle_of_needs(
    adviser: &Adviser<'_>,
    notes: &mut Notes,
    id: BeanId,
) -> Result<Option<String>, AllocError> {
    if let Some(needs) = &notes.needs {
        return needs.circle(adviser, id);
    }
    let needs = Needs::of(adviser)?;
    let text = needs.circle(adviser, id)?;
    notes.needs = Some(needs);
    Ok(text)
}

/// The shortest way from a type, a stereotype or a binding type back to itself, if there is one, as `Corner -> Market -> Corner`.
pub(crate) fn circle_of_names(
    adviser: &Adviser<'_>,
    notes: &mut Notes,
    kind: Kind,
    name: Name,
) -> Result<Option<String>, AllocError> {
    for (of, ways) in &notes.ways {
        if *of == kind {
            return circle_along(adviser, ways, kind, name);
        }
    }
    let edges = edges_of_names(adviser.alloc, adviser.decls, kind)?;
    let ways = Ways::of(adviser.alloc, edges)?;
    let text = circle_along(adviser, &ways, kind, name)?;
    notes.ways.push((kind, ways))?;
    Ok(text)
}

/// The same, along these ways between the declarations of the kind.
fn circle_along(
    adviser: &Adviser<'_>,
    ways: &Ways,
    kind: Kind,
    name: Name,
) -> Result<Option<String>, AllocError> {
    let alloc = adviser.alloc;
    let Some(start) = adviser.decls.position(kind, &name) else {
        return Ok(None);
    };
    let Some(way) = ways.circle_through(alloc, start)? else {
        return Ok(None);
    };
    let mut text = String::from_str(alloc, name.as_str())?;
    for position in way {
        if let Some(edge) = ways.edges().get(position) {
            if let Some(decl) = adviser.decls.at(edge.to) {
                text.push_str(" -> ")?;
                text.push_str(decl.name().as_str())?;
            }
        }
    }
    Ok(Some(text))
}

/// The edges between declarations of a kind, by their positions.
fn edges_of_names(alloc: Global, decls: &Decls, kind: Kind) -> Result<Vec<Edge>, AllocError> {
    let mut edges = Vec::new(alloc);
    for (from, decl) in decls.iter().enumerate() {
        if decl.kind() == kind {
            push_edges(alloc, decls, from, decl, &mut edges)?;
        }
    }
    Ok(edges)
}

/// Appends the edges from a declaration at a position.
fn push_edges(
    alloc: Global,
    decls: &Decls,
    from: usize,
    decl: &Decl,
    edges: &mut Vec<Edge>,
) -> Result<(), AllocError> {
    for name in next_names(alloc, decl)? {
        if let Some(to) = decls.position(decl.kind(), &name) {
            edges.push(Edge { from, to })?;
        }
    }
    Ok(())
}

/// The names to which a declaration leads.
fn next_names(alloc: Global, decl: &Decl) -> Result<Vec<Name>, AllocError> {
    let mut names = Vec::new(alloc);
    match decl {
        Decl::Type(decl) => {
            if let Some(name) = decl.extends {
                names.push(name)?;
            }
            names.extend_from_slice(decl.implements.as_slice())?;
        }
        Decl::Stereotype(decl) => names.extend_from_slice(decl.stereotypes.as_slice())?,
        Decl::Binding(decl) => {
            for qual in decl.declares.as_slice() {
                names.push(qual.name)?;
            }
        }
        _ => {}
    }
    Ok(names)
}
