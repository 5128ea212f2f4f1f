//! The observer methods that are notified of an event (CDI 4.0, Observer resolution).
ghost use Rattle.std.specs.Prelude.{◌≡◌, filter, map, IfOk, OnOk, OnErr};
ghost use Rattle.std.specs.List.{list_all};
ghost use Rattle.cdi_model.specs.Work.{with_one};
ghost use Rattle.cdi_effective.specs.Qualifiers.{some_covers};
ghost use Rattle.cdi_observe.specs.Lent.{lent_in};
ghost use Rattle.cdi_observe.specs.Observers.{event_has, is_notified, notified, notified_by, observer_id};
ghost use Rattle.cdi_observe.specs.Sees.{NotifiedRestOnSeen};

use crate::lent_observers::{LentObserver, observers_in_order};
use crate::shared::Shared;
use cdi_effective::Effective;
use cdi_match::{closure, covers};
use cdi_model::{Decls, Ident, Name, ObserverDecl, Qual, Seq, UseKind, Work};
use std::alloc::{AllocError, Global};
use std::fmt;

/// An observer method, by the class that declares it.
#[derive(Clone, Copy, Debug, PartialEq, Eq, Hash)]
pub struct ObserverId {
    pub class: Name,
    pub observer: Ident,
}

impl fmt::Display for ObserverId {
    ghost use Rattle.std.specs.Prelude.{Some};
    ghost use Rattle.cdi_observe.specs.ObserverText.{text_of_observer};

    ghost output = { λ id. Some (text_of_observer id) };

    fn fmt<W: fmt::Write>(&self, f: &mut fmt::Formatter<W>) -> fmt::Result {
        write!(f, "{}/{}", self.class, self.observer)
    }
}

/// The observer methods that are notified of an event of a type with some qualifiers, in order, where these are the beans:
/// those of enabled beans which observe one of its types and of whose qualifiers it has each, from the least priority on
/// (CDI 4.0, Observer resolution; Observer ordering). A type that is not declared has itself and `Object`. It takes memory
/// for the types of the event and for the observer methods of these types.
#[tactic(auto, unfolding(crate::specs::Observers::resolved, crate::specs::Observers::observing))]
pub fn notified_of(
    alloc: Global,
    decls: &Decls,
    beans: &[&Effective],
    event_type: Name,
    quals: &[Qual],
) -> Result<Shared<ObserverId>, AllocError>
    ensures { IfOk result (λ ids. ids ≡ notified decls.now (map (λ bean. bean.now) beans.now) event_type quals.now) }
{
    let types = closure(alloc, decls, event_type)?;
    let found = observers_in_order(alloc, decls, beans, &types)?;
    notified_among(alloc, decls, &found, quals)
}

/// The observer methods of these candidates which observe one of some types and are notified of an event with these
/// qualifiers, in order: where these are the types of an event, those that are notified of it. It is counted as one
/// evaluation: `Work` rises where they are answered, and not where memory runs out.
#[tactic(auto, using(crate::proofs::SeenLemmas::notified_rest_on_seen))]
pub fn evaluate_observers(
    alloc: Global,
    decls: &Decls,
    candidates: &[&Effective],
    types: &[Name],
    quals: &[Qual],
    work: &mut Work,
) -> Result<Shared<ObserverId>, AllocError>
    ensures observers { IfOk result (λ ids. ids ≡ notified_by decls.now (map (λ bean. bean.now) candidates.now) types.now quals.now) }
    ensures work { OnOk result (work.new ≡ with_one work.old) }
    ensures err { OnErr result (work.new ≡ work.old) }
    ensures seen { NotifiedRestOnSeen }
{
    let found = observers_in_order(alloc, decls, candidates, types)?;
    let ids = notified_among(alloc, decls, &found, quals)?;
    work.add_one();
    Ok(ids)
}

/// Those of some observer methods which are notified of an event with these qualifiers, as they are.
fn notified_among(
    alloc: Global,
    decls: &Decls,
    found: &[LentObserver],
    quals: &[Qual],
) -> Result<Shared<ObserverId>, AllocError>
    ensures { IfOk result (λ ids. ids ≡ map observer_id (filter (is_notified decls.now quals.now) (lent_in found.now))) }
{
    let mut ids = Vec::new(alloc);
    for observer in found {
        if is_notified(decls, quals, observer.method) {
            ids.push(ObserverId {
                class: observer.bean.name,
                observer: observer.method.name,
            })?;
        }
    }
    Shared::from_vec(alloc, ids)
}

/// Whether an event with these qualifiers has each that an observer method observes.
fn is_notified(decls: &Decls, quals: &[Qual], method: &ObserverDecl) -> bool
    ensures { result ≡ list_all (event_has decls.now quals.now) method.now.qualifiers }
{
    method
        .qualifiers
        .as_slice()
        .iter()
        .all(|want| event_has(decls, quals, want))
}

fn event_has(decls: &Decls, quals: &[Qual], want: &Qual) -> bool
    ensures { result ≡ event_has decls.now quals.now want.now }
{
    want.name.as_bytes() == b"Any".as_slice() || some_covers(decls, quals, want)
}

fn some_covers(decls: &Decls, quals: &[Qual], want: &Qual) -> bool
    ensures { result ≡ some_covers decls.now quals.now want.now }
{
    quals
        .iter()
        .any(|have| covers(decls, UseKind::Qualifier, have, want))
}
