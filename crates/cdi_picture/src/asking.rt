//! What is asked for beside injection points.
ghost use Rattle.std.specs.Prelude.{◌≡◌, IfOk, OnOk};
ghost use Rattle.cdi_validate.specs.Faults.{faults};

use cdi_container::{Bodies, Container, Error, Fault, Name};
use cdi_graph::{Fired, Notified, Surrounded};
use cdi_intercept::places_of;
use cdi_model::{BeanDecl, BeanPlace, Decl, Decls, EventDecl, Mention, Seq};
use cdi_observe::ObserverId;
use std::alloc::{AllocError, Global};

/// All that is wrong with what a container declares.
pub(crate) fn faults_of<B: Bodies>(container: &mut Container<B>) -> Result<Vec<Fault>, AllocError>
    ensures faults { IfOk result (λ list. list.items ≡ faults container.old.decls container.old.book) }
    ensures decls { OnOk result (container.new.decls ≡ container.old.decls) }
{
    match container.report() {
        Ok(faults) => Ok(faults),
        Err(error) => Err(error),
    }
}

/// The places of the beans among some declarations that interceptors surround.
pub(crate) fn surrounded_of<B: Bodies>(
    alloc: Global,
    decls: &Decls,
    container: &mut Container<B>,
) -> Result<Vec<Surrounded>, AllocError>
    ensures decls { OnOk result (container.new.decls ≡ container.old.decls) }
    ensures book { OnOk result (container.new.book ≡ container.old.book) }
{
    let mut list = Vec::new(alloc);
    for decl in decls.iter() {
        if let Decl::Bean(bean) = decl {
            push_places(alloc, bean, container, &mut list)?;
        }
    }
    Ok(list)
}

/// Appends the places of a bean.
fn push_places<B: Bodies>(
    alloc: Global,
    bean: &BeanDecl,
    container: &mut Container<B>,
    list: &mut Vec<Surrounded>,
) -> Result<(), AllocError>
    ensures decls { OnOk result (container.new.decls ≡ container.old.decls) }
    ensures book { OnOk result (container.new.book ≡ container.old.book) }
{
    for place in places_of(alloc, bean)? {
        push_place(bean.name, place, container, list)?;
    }
    Ok(())
}

/// Appends a place of a bean, if interceptors surround it.
fn push_place<B: Bodies>(
    bean: Name,
    place: BeanPlace,
    container: &mut Container<B>,
    list: &mut Vec<Surrounded>,
) -> Result<(), AllocError>
    ensures decls { OnOk result (container.new.decls ≡ container.old.decls) }
    ensures book { OnOk result (container.new.book ≡ container.old.book) }
{
    match container.chain(bean, &place) {
        Ok(interceptors) => push_chain(bean, place, interceptors.as_slice(), list),
        Err(Error::OutOfMemory) => Err(AllocError),
        Err(Error::Refused(_)) => Ok(()),
    }
}

fn push_chain(
    bean: Name,
    place: BeanPlace,
    names: &[Name],
    list: &mut Vec<Surrounded>,
) -> Result<(), AllocError> {
    if !names.is_empty() {
        let mut interceptors = Vec::with_capacity(*list.allocator(), names.len())?;
        interceptors.extend_from_slice(names)?;
        list.push(Surrounded {
            bean,
            place,
            interceptors: Seq::from_vec(interceptors),
        })?;
    }
    Ok(())
}

/// The events that bodies of some declarations may fire, each with the observer methods that are notified of it.
pub(crate) fn fired_of<'a, B: Bodies>(
    alloc: Global,
    decls: &'a Decls,
    container: &mut Container<B>,
) -> Result<Vec<Fired<'a>>, AllocError>
    ensures decls { OnOk result (container.new.decls ≡ container.old.decls) }
    ensures book { OnOk result (container.new.book ≡ container.old.book) }
{
    let mut list = Vec::new(alloc);
    for owner in decls.iter() {
        push_events(alloc, owner, container, &mut list)?;
    }
    Ok(list)
}

/// Appends the events that bodies of a declaration may fire.
fn push_events<'a, B: Bodies>(
    alloc: Global,
    owner: &'a Decl,
    container: &mut Container<B>,
    list: &mut Vec<Fired<'a>>,
) -> Result<(), AllocError>
    ensures decls { OnOk result (container.new.decls ≡ container.old.decls) }
    ensures book { OnOk result (container.new.book ≡ container.old.book) }
{
    for mention in owner.mentions() {
        if let Mention::Event(event) = mention {
            let observers = notified_of(alloc, event, container)?;
            list.push(Fired {
                owner,
                event,
                observers,
            })?;
        }
    }
    Ok(())
}

/// The observer methods that are notified of an event.
fn notified_of<B: Bodies>(
    alloc: Global,
    event: &EventDecl,
    container: &mut Container<B>,
) -> Result<Seq<Notified>, AllocError>
    ensures decls { OnOk result (container.new.decls ≡ container.old.decls) }
    ensures book { OnOk result (container.new.book ≡ container.old.book) }
{
    match container.observers(event.event_type, &event.qualifiers) {
        Ok(ids) => notified_by(alloc, ids.as_slice()),
        Err(error) => Err(error),
    }
}

fn notified_by(alloc: Global, ids: &[ObserverId]) -> Result<Seq<Notified>, AllocError> {
    let mut list = Vec::new(alloc);
    for id in ids {
        list.push(Notified {
            bean: id.class,
            method: id.observer,
        })?;
    }
    Ok(Seq::from_vec(list))
}
