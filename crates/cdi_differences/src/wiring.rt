//! The wiring of a deployment.
ghost use Rattle.std.specs.Prelude.{◌≡◌, ◌++◌, OnOk, IfOk, flat_map, map};
ghost use Rattle.cdi_model.specs.Mentions.{mentions};
ghost use Rattle.cdi_intercept.specs.Sets.{places_of};
ghost use Rattle.cdi_validate.specs.Faults.{faults};
ghost use Rattle.cdi_differences.specs.Holds.{HoldsLines, shown_line};
ghost use Rattle.cdi_differences.specs.Wiring.{point_line, point_lines_in, point_lines, answer_lines, chain_lines_at, chain_lines, lines_of_chain, lines_of_event};
ghost use Rattle.cdi_differences.specs.Wiring.{observer_lines_of, observer_lines_in, observer_lines, fault_line, wiring};

use crate::line::{Line, table_of};
use crate::words::{text_of_names, text_of_observers};
use cdi_container::{Bodies, Container, Error, Fault, Subject};
use cdi_intercept::places_of;
use cdi_model::{
    BeanDecl, BeanPlace, Decl, Decls, EventDecl, Mention, Name, PointDecl, PointPlace,
};
use cdi_observe::ObserverId;
use indexmap::IndexMap;
use std::alloc::{AllocError, Global};

/// The wiring of a deployment: of each injection point what is chosen for it, of each place of a bean the interceptors around
/// it, of each event that a body may fire its observer methods, and each fault. A place without interceptors and an event
/// without observers are left out. It takes memory for the texts, and for what the container keeps.
pub fn wiring_of<B: Bodies>(
    alloc: Global,
    container: &mut Container<B>,
) -> Result<IndexMap<String, String>, AllocError>
    ensures { IfOk result (λ table. HoldsLines table (wiring container.old.decls container.old.book)) }
{
    let lines = lines_of(alloc, container)?;
    table_of(alloc, lines)
}

/// The lines of the wiring.
#[tactic(auto, unfolding(crate::specs::Wiring::wiring))]
fn lines_of<B: Bodies>(alloc: Global, container: &mut Container<B>) -> Result<Vec<Line>, AllocError>
    ensures { IfOk result (λ lines. map shown_line lines.items ≡ wiring container.old.decls container.old.book) }
{
    let mut lines = Vec::new(alloc);
    add_answers(alloc, container, &mut lines)?;
    add_faults(alloc, container, &mut lines)?;
    Ok(lines)
}

/// Adds all that declarations ask for.
#[tactic(auto, unfolding(crate::specs::Wiring::answer_lines))]
fn add_answers<B: Bodies>(
    alloc: Global,
    container: &mut Container<B>,
    lines: &mut Vec<Line>,
) -> Result<(), AllocError>
    ensures lines { OnOk result (map shown_line lines.new.items
        ≡ map shown_line lines.old.items ++ answer_lines container.old.decls) }
    ensures decls { OnOk result (container.new.decls ≡ container.old.decls) }
    ensures book { OnOk result (container.new.book ≡ container.old.book) }
{
    let decls = container.present().copy()?;
    add_points(alloc, &decls, container, lines)?;
    add_chains(alloc, &decls, container, lines)?;
    add_observers(alloc, &decls, container, lines)?;
    Ok(())
}

/// Adds the injection points of some declarations.
fn add_points<B: Bodies>(
    alloc: Global,
    decls: &Decls,
    container: &mut Container<B>,
    lines: &mut Vec<Line>,
) -> Result<(), AllocError>
    requires { container.old.decls ≡ decls.now }
    ensures lines { OnOk result (map shown_line lines.new.items
        ≡ map shown_line lines.old.items ++ flat_map (point_lines decls.now) decls.now) }
    ensures decls { OnOk result (container.new.decls ≡ container.old.decls) }
    ensures book { OnOk result (container.new.book ≡ container.old.book) }
{
    for owner in decls.iter() {
        add_points_of(alloc, owner, container, lines)?;
    }
    Ok(())
}

/// Adds the injection points of a declaration.
fn add_points_of<B: Bodies>(
    alloc: Global,
    owner: &Decl,
    container: &mut Container<B>,
    lines: &mut Vec<Line>,
) -> Result<(), AllocError>
    ensures lines { OnOk result (map shown_line lines.new.items
        ≡ map shown_line lines.old.items ++ point_lines container.old.decls owner.now) }
    ensures decls { OnOk result (container.new.decls ≡ container.old.decls) }
    ensures book { OnOk result (container.new.book ≡ container.old.book) }
{
    for mention in owner.mentions() {
        if let Mention::Point(place, point) = mention {
            let line = line_of_point(alloc, owner, place, point, container)?;
            lines.push(line)?;
        }
    }
    Ok(())
}

/// The line of an injection point, which is named as a fault names it.
fn line_of_point<B: Bodies>(
    alloc: Global,
    owner: &Decl,
    place: PointPlace,
    point: &PointDecl,
    container: &mut Container<B>,
) -> Result<Line, AllocError>
    ensures line { IfOk result (λ line. shown_line line ≡ point_line container.old.decls owner.now place point.now) }
    ensures decls { OnOk result (container.new.decls ≡ container.old.decls) }
    ensures book { OnOk result (container.new.book ≡ container.old.book) }
{
    let choice = container.choose(point.required_type, &point.qualifiers)?;
    let (kind, name) = (owner.kind(), owner.name());
    let subject = Subject::Point {
        place,
        name: point.name,
    };
    Ok(Line {
        key: format!(in alloc; "point {kind} {name} {subject}")?,
        text: format!(in alloc; "{choice}")?,
    })
}

/// Adds the places of the beans among some declarations.
fn add_chains<B: Bodies>(
    alloc: Global,
    decls: &Decls,
    container: &mut Container<B>,
    lines: &mut Vec<Line>,
) -> Result<(), AllocError>
    requires { container.old.decls ≡ decls.now }
    ensures lines { OnOk result (map shown_line lines.new.items
        ≡ map shown_line lines.old.items ++ flat_map (chain_lines decls.now) decls.now) }
    ensures decls { OnOk result (container.new.decls ≡ container.old.decls) }
    ensures book { OnOk result (container.new.book ≡ container.old.book) }
{
    for decl in decls.iter() {
        if let Decl::Bean(bean) = decl {
            add_chains_of(alloc, bean, container, lines)?;
        }
    }
    Ok(())
}

/// Adds the places of a bean.
fn add_chains_of<B: Bodies>(
    alloc: Global,
    bean: &BeanDecl,
    container: &mut Container<B>,
    lines: &mut Vec<Line>,
) -> Result<(), AllocError>
    ensures lines { OnOk result (map shown_line lines.new.items
        ≡ map shown_line lines.old.items ++ flat_map (chain_lines_at container.old.decls bean.now.name) (places_of bean.now)) }
    ensures decls { OnOk result (container.new.decls ≡ container.old.decls) }
    ensures book { OnOk result (container.new.book ≡ container.old.book) }
{
    let places = places_of(alloc, bean)?;
    for place in places.as_slice() {
        add_chain(alloc, bean.name, place, container, lines)?;
    }
    Ok(())
}

/// Adds a place of a bean.
fn add_chain<B: Bodies>(
    alloc: Global,
    bean: Name,
    place: &BeanPlace,
    container: &mut Container<B>,
    lines: &mut Vec<Line>,
) -> Result<(), AllocError>
    ensures lines { OnOk result (map shown_line lines.new.items
        ≡ map shown_line lines.old.items ++ chain_lines_at container.old.decls bean place.now) }
    ensures decls { OnOk result (container.new.decls ≡ container.old.decls) }
    ensures book { OnOk result (container.new.book ≡ container.old.book) }
{
    match container.chain(bean, place) {
        Ok(names) => push_chain(alloc, bean, place, names.as_slice(), lines),
        Err(Error::OutOfMemory) => Err(AllocError),
        Err(Error::Refused(_)) => Ok(()),
    }
}

/// Adds the interceptors around a place, if there are some.
fn push_chain(
    alloc: Global,
    bean: Name,
    place: &BeanPlace,
    names: &[Name],
    lines: &mut Vec<Line>,
) -> Result<(), AllocError>
    ensures { OnOk result (map shown_line lines.new.items
        ≡ map shown_line lines.old.items ++ lines_of_chain bean place.now names.now) }
{
    if names.is_empty() {
        return Ok(());
    }
    lines.push(Line {
        key: format!(in alloc; "chain {bean} {place}")?,
        text: text_of_names(alloc, names)?,
    })?;
    Ok(())
}

/// Adds the events that bodies of some declarations may fire.
fn add_observers<B: Bodies>(
    alloc: Global,
    decls: &Decls,
    container: &mut Container<B>,
    lines: &mut Vec<Line>,
) -> Result<(), AllocError>
    requires { container.old.decls ≡ decls.now }
    ensures lines { OnOk result (map shown_line lines.new.items
        ≡ map shown_line lines.old.items ++ flat_map (observer_lines decls.now) decls.now) }
    ensures decls { OnOk result (container.new.decls ≡ container.old.decls) }
    ensures book { OnOk result (container.new.book ≡ container.old.book) }
{
    for owner in decls.iter() {
        add_observers_of(alloc, owner, container, lines)?;
    }
    Ok(())
}

/// Adds the events that bodies of a declaration may fire.
fn add_observers_of<B: Bodies>(
    alloc: Global,
    owner: &Decl,
    container: &mut Container<B>,
    lines: &mut Vec<Line>,
) -> Result<(), AllocError>
    ensures lines { OnOk result (map shown_line lines.new.items
        ≡ map shown_line lines.old.items ++ observer_lines container.old.decls owner.now) }
    ensures decls { OnOk result (container.new.decls ≡ container.old.decls) }
    ensures book { OnOk result (container.new.book ≡ container.old.book) }
{
    for mention in owner.mentions() {
        if let Mention::Event(event) = mention {
            add_event(alloc, event, container, lines)?;
        }
    }
    Ok(())
}

/// Adds an event.
fn add_event<B: Bodies>(
    alloc: Global,
    event: &EventDecl,
    container: &mut Container<B>,
    lines: &mut Vec<Line>,
) -> Result<(), AllocError>
    ensures lines { OnOk result (map shown_line lines.new.items
        ≡ map shown_line lines.old.items ++ observer_lines_of container.old.decls event.now) }
    ensures decls { OnOk result (container.new.decls ≡ container.old.decls) }
    ensures book { OnOk result (container.new.book ≡ container.old.book) }
{
    match container.observers(event.event_type, &event.qualifiers) {
        Ok(ids) => push_event(alloc, event, ids.as_slice(), lines),
        Err(error) => Err(error),
    }
}

/// Adds the observer methods of an event, if there are some.
fn push_event(
    alloc: Global,
    event: &EventDecl,
    ids: &[ObserverId],
    lines: &mut Vec<Line>,
) -> Result<(), AllocError>
    ensures { OnOk result (map shown_line lines.new.items
        ≡ map shown_line lines.old.items ++ lines_of_event event.now ids.now) }
{
    if ids.is_empty() {
        return Ok(());
    }
    lines.push(Line {
        key: format!(in alloc; "observers {event}")?,
        text: text_of_observers(alloc, ids)?,
    })?;
    Ok(())
}

/// Adds the faults.
fn add_faults<B: Bodies>(
    alloc: Global,
    container: &mut Container<B>,
    lines: &mut Vec<Line>,
) -> Result<(), AllocError>
    ensures { OnOk result (map shown_line lines.new.items
        ≡ map shown_line lines.old.items ++ map fault_line (faults container.old.decls container.old.book)) }
{
    match container.report() {
        Ok(faults) => push_faults(alloc, faults.as_slice(), lines),
        Err(error) => Err(error),
    }
}

/// Adds some faults.
fn push_faults(alloc: Global, faults: &[Fault], lines: &mut Vec<Line>) -> Result<(), AllocError>
    ensures { OnOk result (map shown_line lines.new.items
        ≡ map shown_line lines.old.items ++ map fault_line faults.now) }
{
    for fault in faults {
        lines.push(Line {
            key: format!(in alloc; "{fault}")?,
            text: String::from_str(alloc, "fault")?,
        })?;
    }
    Ok(())
}
