//! Questions to a view for keys that declarations ask for.
ghost use Rattle.std.specs.Prelude.{◌≡◌, ℕ, true, All, map, take, IsOk, OnOk, OnErr};
ghost use Rattle.std.specs.List.{list_all};
ghost use Rattle.cdi_intercept.specs.Chains.{chain_of};
ghost use Rattle.cdi_observe.specs.Asked.{asked_key, is_told};
ghost use Rattle.cdi_observe.specs.Keys.{ChainKey};
ghost use Rattle.cdi_observe.specs.Kept.{after_key, evaluated};
ghost use Rattle.cdi_observe.specs.Wanted.{key_of_event, key_of_point};

use crate::keys::AskedKey;
use crate::view::View;
use cdi_model::{BeanPlace, Error, EventDecl, Name, PointDecl};
use std::alloc::{AllocError, Global};

/// Asks for some keys in turn.
pub(crate) fn ask_each<V: View>(
    alloc: Global,
    view: &mut V,
    keys: &[AskedKey<'_>],
) -> Result<(), AllocError>
    requires { All (λ key. is_told (V.list view.old) (asked_key key) ≡ true) keys.now }
    ensures list { V.list view.new ≡ V.list view.old }
    ensures counts { V.counts view.new ≡ V.counts view.old }
    ensures ok { OnOk result (V.kept view.new ≡ evaluated (V.list view.old) (map asked_key keys.now) (V.kept view.old)) }
    ensures err { OnErr result ((i : ℕ) × (V.kept view.new
        ≡ evaluated (V.list view.old) (take i (map asked_key keys.now)) (V.kept view.old))) }
    ensures staged { list_all (V.kept view.old).knows (map asked_key keys.now) ≡ true → V.staged view.new ≡ V.staged view.old }
{
    for key in keys {
        ask(alloc, view, key)?;
    }
    Ok(())
}

/// Asks for a key, unless its answer is kept.
fn ask<V: View>(alloc: Global, view: &mut V, key: &AskedKey<'_>) -> Result<(), AllocError>
    requires { is_told (V.list view.old) (asked_key key.now) ≡ true }
    ensures list { V.list view.new ≡ V.list view.old }
    ensures counts { V.counts view.new ≡ V.counts view.old }
    ensures ok { OnOk result (V.kept view.new ≡ after_key (V.list view.old) (asked_key key.now) (V.kept view.old)) }
    ensures err { OnErr result (V.kept view.new ≡ V.kept view.old) }
    ensures staged { (V.kept view.old).knows (asked_key key.now) ≡ true → V.staged view.new ≡ V.staged view.old }
{
    match key {
        AskedKey::Choice(point) => ask_choice(alloc, view, point),
        AskedKey::Construct(class) => ask_chain(alloc, view, **class, &BeanPlace::Construct),
        AskedKey::Post(class) => ask_chain(alloc, view, **class, &BeanPlace::Post),
        AskedKey::Pre(class) => ask_chain(alloc, view, **class, &BeanPlace::Pre),
        AskedKey::Method(class, name) => {
            ask_chain(alloc, view, **class, &BeanPlace::Method(**name))
        }
        AskedKey::Producer(class, name) => {
            ask_chain(alloc, view, **class, &BeanPlace::Producer(**name))
        }
        AskedKey::Observer(class, name) => {
            ask_chain(alloc, view, **class, &BeanPlace::Observer(**name))
        }
        AskedKey::Event(event) => ask_event(alloc, view, event),
    }
}

/// Asks for a choice, unless it is kept.
#[tactic(auto, using(crate::proofs::KeptLemmas::after_known))]
fn ask_choice<V: View>(alloc: Global, view: &mut V, point: &PointDecl) -> Result<(), AllocError>
    ensures list { V.list view.new ≡ V.list view.old }
    ensures counts { V.counts view.new ≡ V.counts view.old }
    ensures ok { OnOk result (V.kept view.new ≡ after_key (V.list view.old) (key_of_point point.now) (V.kept view.old)) }
    ensures err { OnErr result (V.kept view.new ≡ V.kept view.old) }
    ensures staged { (V.kept view.old).knows (key_of_point point.now) ≡ true → V.staged view.new ≡ V.staged view.old }
{
    let (bean_type, quals) = (point.required_type, &point.qualifiers);
    if view.kept_choice(&bean_type, quals).is_none() {
        view.choose(alloc, bean_type, quals)?;
    }
    Ok(())
}

/// Asks for the observer methods of an event, unless they are kept.
#[tactic(auto, using(crate::proofs::KeptLemmas::after_known))]
fn ask_event<V: View>(alloc: Global, view: &mut V, event: &EventDecl) -> Result<(), AllocError>
    ensures list { V.list view.new ≡ V.list view.old }
    ensures counts { V.counts view.new ≡ V.counts view.old }
    ensures ok { OnOk result (V.kept view.new ≡ after_key (V.list view.old) (key_of_event event.now) (V.kept view.old)) }
    ensures err { OnErr result (V.kept view.new ≡ V.kept view.old) }
    ensures staged { (V.kept view.old).knows (key_of_event event.now) ≡ true → V.staged view.new ≡ V.staged view.old }
{
    let (event_type, quals) = (event.event_type, &event.qualifiers);
    if view.kept_observers(&event_type, quals).is_none() {
        view.observers(alloc, event_type, quals)?;
    }
    Ok(())
}

/// Asks for the chain at a place that a bean has, which is not refused, unless it is kept.
#[tactic(auto, using(crate::proofs::KeptLemmas::after_known))]
fn ask_chain<V: View>(
    alloc: Global,
    view: &mut V,
    class: Name,
    place: &BeanPlace,
) -> Result<(), AllocError>
    requires { IsOk (chain_of (V.list view.old) class place.now) }
    ensures list { V.list view.new ≡ V.list view.old }
    ensures counts { V.counts view.new ≡ V.counts view.old }
    ensures ok { OnOk result (V.kept view.new ≡ after_key (V.list view.old) (ChainKey class place.now) (V.kept view.old)) }
    ensures err { OnErr result (V.kept view.new ≡ V.kept view.old) }
    ensures staged { (V.kept view.old).knows (ChainKey class place.now) ≡ true → V.staged view.new ≡ V.staged view.old }
{
    if view.kept_chain(&class, place).is_some() {
        return Ok(());
    }
    match view.chain(alloc, class, place) {
        Ok(_) => Ok(()),
        Err(Error::OutOfMemory) => Err(AllocError),
        Err(Error::Refused(_)) => unreachable!(),
    }
}
