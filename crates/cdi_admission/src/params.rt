//! Params of producer methods and observer methods that have the name of a point of their bean.
ghost use Rattle.std.specs.Prelude.{◌≡◌, ◌||◌, IfOk};
ghost use Rattle.std.specs.List.{list_any};
ghost use Rattle.cdi_admission.specs.TextSets.{has_text, HasTexts};
ghost use Rattle.cdi_admission.specs.Admission.{has_param_named_as_point, point_names};

use cdi_model::{BeanDecl, Decl, ObserverDecl, PointDecl, ProducerDecl};
use std::alloc::{AllocError, Global};
use std::collections::BTreeSet;

/// Whether a param of some producer or observer of a bean has the name of one of its points. It takes memory for the points.
pub(crate) fn has_param_named_as_point(alloc: Global, decl: &Decl) -> Result<bool, AllocError>
    ensures { IfOk result (λ found. found ≡ has_param_named_as_point decl.now) }
{
    match decl {
        Decl::Bean(bean) => {
            let names = names_of(alloc, bean.points.as_slice())?;
            Ok(has_param_in(&names, bean))
        }
        _ => Ok(false),
    }
}

/// The names of some points.
fn names_of(alloc: Global, points: &[PointDecl]) -> Result<BTreeSet<&[u8]>, AllocError>
    ensures { IfOk result (λ names. HasTexts names (point_names points.now)) }
{
    let mut names = BTreeSet::new(alloc);
    for point in points {
        names.insert(point.name.as_bytes())?;
    }
    Ok(names)
}

/// Whether a param of some producer or observer has one of the names.
fn has_param_in(names: &BTreeSet<&[u8]>, bean: &BeanDecl) -> bool
    ensures { result ≡ (list_any (λ p. list_any (λ q. has_text names.now q.name) p.params) bean.now.producers
        || list_any (λ o. list_any (λ q. has_text names.now q.name) o.params) bean.now.observers) }
{
    some_producer_has(names, bean.producers.as_slice())
        || some_observer_has(names, bean.observers.as_slice())
}

fn some_producer_has(names: &BTreeSet<&[u8]>, producers: &[ProducerDecl]) -> bool
    ensures { result ≡ list_any (λ p. list_any (λ q. has_text names.now q.name) p.params) producers.now }
{
    producers
        .iter()
        .any(|producer| has_some(names, producer.params.as_slice()))
}

fn some_observer_has(names: &BTreeSet<&[u8]>, observers: &[ObserverDecl]) -> bool
    ensures { result ≡ list_any (λ o. list_any (λ q. has_text names.now q.name) o.params) observers.now }
{
    observers
        .iter()
        .any(|observer| has_some(names, observer.params.as_slice()))
}

/// Whether one of the params has one of the names.
fn has_some(names: &BTreeSet<&[u8]>, params: &[PointDecl]) -> bool
    ensures { result ≡ list_any (λ q. has_text names.now q.name) params.now }
{
    params
        .iter()
        .any(|param| names.contains(param.name.as_bytes()))
}
