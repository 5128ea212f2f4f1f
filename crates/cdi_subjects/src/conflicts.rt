//! Bindings of one type that differ (Interceptors 2.1, Associating an Interceptor using Interceptor Bindings).
ghost use Rattle.std.specs.Prelude.{◌≡◌, ◌++◌, IfOk, OnOk};
ghost use Rattle.cdi_subjects.specs.Records.{conflict_at, conflicts_at_producers, conflicts_by, conflicts_in, part_at};

use cdi_effective::Effective;
use cdi_faults::Subject;
use cdi_intercept::has_conflict_at;
use cdi_model::{BeanDecl, BeanPlace, Decl, Decls, PartPlace, Qual};
use std::alloc::{AllocError, Global};

/// The class of a bean whose bindings differ, and the methods, the producer methods that are not static and the observer
/// methods at which they do, of a declaration that has these beans.
pub(crate) fn binding_conflicts(
    alloc: Global,
    decls: &Decls,
    decl: &Decl,
    beans: &[Effective],
) -> Result<Vec<Subject>, AllocError>
    ensures { IfOk result (λ list. list.items ≡ conflicts_by decls.now decl.now beans.now) }
{
    let mut subjects = Vec::new(alloc);
    if let (Decl::Bean(bean), Some(managed)) = (decl, beans.first()) {
        let class = managed.bindings.as_slice();
        push_conflicts(alloc, decls, class, bean, &mut subjects)?;
    }
    Ok(subjects)
}

/// Appends those of a bean whose class has these bindings.
fn push_conflicts(
    alloc: Global,
    decls: &Decls,
    class: &[Qual],
    bean: &BeanDecl,
    subjects: &mut Vec<Subject>,
) -> Result<(), AllocError>
    ensures { OnOk result (subjects.new.items ≡ subjects.old.items ++ conflicts_in decls.now class.now bean.now) }
{
    push_if_opposed(alloc, decls, class, bean, &BeanPlace::Construct, subjects)?;
    for method in bean.methods.as_slice() {
        let place = BeanPlace::Method(method.name);
        push_if_opposed(alloc, decls, class, bean, &place, subjects)?;
    }
    push_of_producers(alloc, decls, class, bean, subjects)?;
    for observer in bean.observers.as_slice() {
        let place = BeanPlace::Observer(observer.name);
        push_if_opposed(alloc, decls, class, bean, &place, subjects)?;
    }
    Ok(())
}

/// Appends the producer methods that are not static at which two differ.
fn push_of_producers(
    alloc: Global,
    decls: &Decls,
    class: &[Qual],
    bean: &BeanDecl,
    subjects: &mut Vec<Subject>,
) -> Result<(), AllocError>
    ensures { OnOk result (subjects.new.items ≡ subjects.old.items ++ conflicts_at_producers decls.now class.now bean.now) }
{
    for producer in bean.producers.as_slice() {
        if !producer.is_static {
            let place = BeanPlace::Producer(producer.name);
            push_if_opposed(alloc, decls, class, bean, &place, subjects)?;
        }
    }
    Ok(())
}

/// Appends the part at a place, where two bindings there differ.
fn push_if_opposed(
    alloc: Global,
    decls: &Decls,
    class: &[Qual],
    bean: &BeanDecl,
    place: &BeanPlace,
    subjects: &mut Vec<Subject>,
) -> Result<(), AllocError>
    ensures { OnOk result (subjects.new.items ≡ subjects.old.items ++ conflict_at decls.now class.now bean.now place.now) }
{
    if has_conflict_at(alloc, decls, class, bean, place)? {
        subjects.push(part_at(place))?;
    }
    Ok(())
}

/// The part of a bean at a place: its class at the constructor and the callbacks.
fn part_at(place: &BeanPlace) -> Subject
    ensures { result ≡ part_at place.now }
{
    match place {
        BeanPlace::Construct | BeanPlace::Post | BeanPlace::Pre => Subject::Class,
        BeanPlace::Method(name) => Subject::Part(PartPlace::Method(*name)),
        BeanPlace::Producer(name) => Subject::Part(PartPlace::Producer(*name)),
        BeanPlace::Observer(name) => Subject::Part(PartPlace::Observer(*name)),
    }
}
