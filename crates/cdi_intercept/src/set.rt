//! The bindings at a place of a bean (Interceptors 2.1, Binding an Interceptor to a Class; Binding an Interceptor to a
//! Method).
ghost use Rattle.std.specs.Prelude.{◌≡◌, ◌++◌, map, IfOk, OnOk};
ghost use Rattle.std.specs.Option.{option_copied};
ghost use Rattle.cdi_match.specs.Bindings.{uses_in};
ghost use Rattle.cdi_intercept.specs.Sets.{around_method, has_place, of_method, of_observer, of_producer, own_at};
ghost use Rattle.cdi_intercept.specs.Sets.{places_of, producers_of};
ghost use Rattle.cdi_intercept.specs.Sets.{set_by, sets_of};
ghost use Rattle.cdi_intercept.specs.Lent.{uses_at};

use cdi_effective::in_place_of;
use cdi_match::{push_uses, with_brought};
use cdi_model::{BeanDecl, BeanPlace, Decls, Ident, Qual};
use std::alloc::{AllocError, Global};

/// The bindings at a place of a bean whose class has these: those of the class at its constructor and its lifecycle
/// callbacks; those that a method declares, with what they bring, and those of the class of whose types it has none. None
/// where the bean has no such method, or a static producer method. One may occur twice. It takes memory for the list and
/// for the search.
pub fn set_by<'a>(
    alloc: Global,
    decls: &'a Decls,
    class: &'a [Qual],
    bean: &'a BeanDecl,
    place: &BeanPlace,
) -> Result<Vec<&'a Qual>, AllocError>
    ensures { IfOk result (λ set. uses_in set.items ≡ set_by decls.now class.now bean.now place.now) }
{
    set_among(alloc, decls, lent(alloc, class)?, bean, place)
}

/// The same, where those of the class are lent.
pub(crate) fn set_among<'a>(
    alloc: Global,
    decls: &'a Decls,
    class: Vec<&'a Qual>,
    bean: &'a BeanDecl,
    place: &BeanPlace,
) -> Result<Vec<&'a Qual>, AllocError>
    ensures { IfOk result (λ set. uses_in set.items ≡ set_by decls.now (uses_in class.entry.items) bean.now place.now) }
{
    match place {
        BeanPlace::Construct | BeanPlace::Post | BeanPlace::Pre => Ok(class),
        BeanPlace::Method(name) => around_method(alloc, decls, class, of_method(bean, *name)),
        BeanPlace::Producer(name) => around_method(alloc, decls, class, of_producer(bean, *name)),
        BeanPlace::Observer(name) => around_method(alloc, decls, class, of_observer(bean, *name)),
    }
}

/// The places of a bean whose class has these bindings, each with the bindings there. It takes memory for them.
pub fn sets_of<'a>(
    alloc: Global,
    decls: &'a Decls,
    class: &'a [Qual],
    bean: &'a BeanDecl,
) -> Result<Vec<(BeanPlace, Vec<&'a Qual>)>, AllocError>
    ensures { IfOk result (λ sets. map uses_at sets.items ≡ sets_of decls.now class.now bean.now) }
{
    let places = places_of(alloc, bean)?;
    let mut sets = Vec::with_capacity(alloc, places.len())?;
    for place in places.as_slice() {
        sets.push((*place, set_by(alloc, decls, class, bean, place)?))?;
    }
    Ok(sets)
}

/// The places of a bean: its constructor, its callbacks, its methods, its producer methods that are not static and its
/// observer methods. It takes memory for the list.
pub fn places_of(alloc: Global, bean: &BeanDecl) -> Result<Vec<BeanPlace>, AllocError>
    ensures { IfOk result (λ list. list.items ≡ places_of bean.now) }
{
    let mut list = Vec::new(alloc);
    list.push(BeanPlace::Construct)?;
    list.push(BeanPlace::Post)?;
    list.push(BeanPlace::Pre)?;
    for method in bean.methods.as_slice() {
        list.push(BeanPlace::Method(method.name))?;
    }
    push_producers(bean, &mut list)?;
    for observer in bean.observers.as_slice() {
        list.push(BeanPlace::Observer(observer.name))?;
    }
    Ok(list)
}

/// Appends the producer methods that are not static.
fn push_producers(bean: &BeanDecl, list: &mut Vec<BeanPlace>) -> Result<(), AllocError>
    ensures { OnOk result (list.new.items ≡ list.old.items ++ producers_of bean.now) }
{
    for producer in bean.producers.as_slice() {
        if !producer.is_static {
            list.push(BeanPlace::Producer(producer.name))?;
        }
    }
    Ok(())
}

/// Whether a bean has a place: each has a constructor and callbacks. It takes no memory.
pub fn has_place(bean: &BeanDecl, place: &BeanPlace) -> bool
    ensures { result ≡ has_place bean.now place.now }
{
    own_at(bean, place).is_some()
}

/// The bindings that a place declares of its own, if the bean has it: none at the constructor and the callbacks.
fn own_at<'a>(bean: &'a BeanDecl, place: &BeanPlace) -> Option<&'a [Qual]>
    ensures { option_copied result ≡ own_at bean.now place.now }
{
    match place {
        BeanPlace::Construct | BeanPlace::Post | BeanPlace::Pre => Some(&[]),
        BeanPlace::Method(name) => of_method(bean, *name),
        BeanPlace::Producer(name) => of_producer(bean, *name),
        BeanPlace::Observer(name) => of_observer(bean, *name),
    }
}

/// Those that a method declares, with what they bring, in the place of those of its class that are of their types.
fn around_method<'a>(
    alloc: Global,
    decls: &'a Decls,
    class: Vec<&'a Qual>,
    own: Option<&'a [Qual]>,
) -> Result<Vec<&'a Qual>, AllocError>
    ensures { IfOk result (λ set. uses_in set.items
        ≡ around_method decls.now (uses_in class.entry.items) (option_copied own.entry)) }
{
    let Some(own) = own else {
        return Ok(Vec::new(alloc));
    };
    let own = with_brought(alloc, decls, lent(alloc, own)?)?;
    in_place_of(alloc, class, own)
}

fn lent<'a>(alloc: Global, uses: &'a [Qual]) -> Result<Vec<&'a Qual>, AllocError>
    ensures { IfOk result (λ list. uses_in list.items ≡ uses.now) }
{
    let mut list = Vec::with_capacity(alloc, uses.len())?;
    push_uses(&mut list, uses)?;
    Ok(list)
}

/// The bindings that the business method of a name declares, if the bean has it.
fn of_method(bean: &BeanDecl, name: Ident) -> Option<&[Qual]>
    ensures { option_copied result ≡ of_method bean.now name }
{
    for method in bean.methods.as_slice() {
        if method.name == name {
            return Some(method.bindings.as_slice());
        }
    }
    None
}

/// Those of the producer method of a name, if the bean has it and it is not static.
fn of_producer(bean: &BeanDecl, name: Ident) -> Option<&[Qual]>
    ensures { option_copied result ≡ of_producer bean.now name }
{
    for producer in bean.producers.as_slice() {
        if producer.name == name && !producer.is_static {
            return Some(producer.bindings.as_slice());
        }
    }
    None
}

/// Those of the observer method of a name, if the bean has it.
fn of_observer(bean: &BeanDecl, name: Ident) -> Option<&[Qual]>
    ensures { option_copied result ≡ of_observer bean.now name }
{
    for observer in bean.observers.as_slice() {
        if observer.name == name {
            return Some(observer.bindings.as_slice());
        }
    }
    None
}
