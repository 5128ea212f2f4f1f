//! Whom events notify.
ghost use Rattle.std.specs.Prelude.{◌≡◌, ℕ, true, List, map, position, IfOk};
ghost use Rattle.cdi_effective.specs.Beans.{beans as beans_of};
ghost use Rattle.cdi_effective.specs.Disposers.{find_bean};
ghost use Rattle.cdi_observe.specs.Lending.{are_answerable, is_answerable};
ghost use Rattle.cdi_observe.specs.Wanted.{key_of_event};
ghost use Rattle.cdi_staging.specs.Notifying.{fired_at, is_observer, notified_as, notified_in, observer_declared, position_of_observer, IsHost};

use crate::listed_beans::ListedBeans;
use crate::target::position_of_class;
use cdi_model::{Decl, Decls, EventDecl, Ident, Kind, Name, ObserverDecl, Seq};
use cdi_observe::{ObserverId, View};
use cdi_scene::{Notified, position_at};
use std::alloc::{AllocError, Global};

fn observer_named(observers: &[ObserverDecl], name: Ident) -> Option<usize>
    ensures { result ≡ position (is_observer name) observers.now }
{
    for (place, observer) in observers.iter().enumerate() {
        if observer.name == name {
            return Some(place);
        }
    }
    None
}

/// The observer methods that a class declares.
fn observers_of<'a>(decls: &'a Decls, class: &Name) -> &'a [ObserverDecl]
    ensures { (name : List ℕ) → position_of_observer result.now name ≡ observer_declared (find_bean class.now decls.now) name }
{
    match decls.get(Kind::Bean, class) {
        Some(Decl::Bean(bean)) => bean.observers.as_slice(),
        _ => &[],
    }
}

/// A bean declaration, as its observer methods are found.
#[derive(Clone, Copy)]
struct Host<'a> {
    class: Name,
    /// The position of its managed bean.
    bean: usize,
    observers: &'a [ObserverDecl],
}

impl<'a> Host<'a> {
    fn of(decls: &'a Decls, beans: &ListedBeans<'_>, class: Name) -> Host<'a>
        ensures host { IsHost decls.now beans.now result }
        ensures class { result.class ≡ class }
    {
        Host {
            class,
            bean: position_of_class(beans, class),
            observers: observers_of(decls, &class),
        }
    }

    fn notified(&self, name: Ident) -> Result<Notified, AllocError>
        ensures { IfOk result (λ made. made ≡ notified_in self.now name) }
    {
        let place = observer_named(self.observers, name);
        Ok(Notified {
            bean: position_at(self.bean)?,
            observer: position_at(place.unwrap_or(self.observers.len()))?,
        })
    }
}

/// The positions of some observer methods in the scene of the declarations whose bean list this is. It takes memory for a
/// list of them.
pub fn positions_of(
    alloc: Global,
    decls: &Decls,
    beans: &ListedBeans<'_>,
    ids: &[ObserverId],
) -> Result<Seq<Notified>, AllocError>
    ensures { IfOk result (λ list. list ≡ map (notified_as decls.now beans.now) ids.now) }
{
    let mut list = Seq::new(alloc);
    let Some(first) = ids.first() else {
        return Ok(list);
    };
    let mut host = Host::of(decls, beans, first.class);
    for id in ids {
        if host.class != id.class {
            host = Host::of(decls, beans, id.class);
        }
        list.push(host.notified(id.observer)?)?;
    }
    Ok(list)
}

/// Whom each of some fire sites notifies.
pub(crate) fn fired_at<V: View>(
    alloc: Global,
    view: &V,
    beans: &ListedBeans<'_>,
    fires: &[EventDecl],
) -> Result<Seq<Seq<Notified>>, AllocError>
    requires beans { beans.now ≡ beans_of (V.list view.now) }
    requires answerable { are_answerable (V.kept view.now) (map key_of_event fires.now) ≡ true }
    ensures { IfOk result (λ sites. sites ≡ map (fired_at (V.list view.now) beans.now) fires.now) }
{
    let mut sites = Seq::new(alloc);
    for event in fires {
        sites.push(notified_by(alloc, view, beans, event)?)?;
    }
    Ok(sites)
}

/// Whom a fire site notifies (CDI 4.0, Observer resolution; Observer ordering).
#[tactic(auto, unfolding(crate::specs::Notifying::notified_at))]
fn notified_by<V: View>(
    alloc: Global,
    view: &V,
    beans: &ListedBeans<'_>,
    event: &EventDecl,
) -> Result<Seq<Notified>, AllocError>
    requires beans { beans.now ≡ beans_of (V.list view.now) }
    requires answerable { is_answerable (V.kept view.now) (key_of_event event.now) ≡ true }
    ensures { IfOk result (λ list. list ≡ fired_at (V.list view.now) beans.now event.now) }
{
    let ids = view.lent_observers(alloc, &event.event_type, &event.qualifiers)?;
    positions_of(alloc, view.decls(), beans, ids.get().as_slice())
}
