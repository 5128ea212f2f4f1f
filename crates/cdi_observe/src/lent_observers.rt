//! The observer methods of some beans, lent out of their declarations, from the least priority on.
ghost use Rattle.std.specs.Prelude.{◌≡◌, ◌++◌, filter, map, IfOk, OnOk};
ghost use Rattle.std.specs.Option.{option_copied};
ghost use Rattle.cdi_match.specs.Chain.{has};
ghost use Rattle.base_lists.specs.Sorting.{sorted_by};
ghost use Rattle.cdi_observe.specs.Lent.{lent_in};
ghost use Rattle.cdi_observe.specs.Observers.{declared_by, enabled_bean, is_before, observers, observes, priority_of};

use cdi_effective::Effective;
use cdi_model::{BeanDecl, Decl, Decls, Kind, Name, ObserverDecl};
use std::alloc::{AllocError, Global};

/// An observer method and the bean that declares it, lent.
#[derive(Clone, Copy)]
pub struct LentObserver<'a> {
    pub bean: &'a BeanDecl,
    pub method: &'a ObserverDecl,
}

/// The priority of an observer method that declares none (CDI 4.0, Observer ordering).
const DEFAULT_PRIORITY: i64 = 2500;

/// The observer methods of enabled beans among some which observe one of some types, from the least priority on, and those
/// of one priority in the order of the beans and of their methods (CDI 4.0, Observer resolution; Observer ordering). It
/// takes memory for the list, and for sorting it where there are more than 20.
pub fn observers_in_order<'a>(
    alloc: Global,
    decls: &'a Decls,
    beans: &[&Effective],
    types: &[Name],
) -> Result<Vec<LentObserver<'a>>, AllocError>
    ensures { IfOk result (λ list. lent_in list.items
        ≡ sorted_by is_before (filter (observes types.now) (observers decls.now (map (λ bean. bean.now) beans.now)))) }
{
    let mut list = Vec::new(alloc);
    for bean in beans {
        push_observers(enabled_bean(decls, bean), types, &mut list)?;
    }
    in_order(list)
}

/// Observer methods from the least priority on, and those of one priority as they were.
fn in_order(mut list: Vec<LentObserver<'_>>) -> Result<Vec<LentObserver<'_>>, AllocError>
    ensures { IfOk result (λ sorted. lent_in sorted.items ≡ sorted_by is_before (lent_in list.entry.items)) }
{
    list.sort_by_key(|observer| priority_of(observer.method))?;
    Ok(list)
}

/// The declaration of a managed bean, where it is enabled.
fn enabled_bean<'a>(decls: &'a Decls, bean: &Effective) -> Option<&'a BeanDecl>
    ensures { option_copied result ≡ enabled_bean decls.now bean.now }
{
    if bean.id.producer.is_some() || !bean.is_enabled {
        return None;
    }
    match decls.get(Kind::Bean, &bean.id.class) {
        Some(Decl::Bean(declared)) => Some(declared),
        _ => None,
    }
}

/// Appends those of a bean, if there is one, which observe one of some types.
fn push_observers<'a>(
    bean: Option<&'a BeanDecl>,
    types: &[Name],
    list: &mut Vec<LentObserver<'a>>,
) -> Result<(), AllocError>
    ensures { OnOk result (lent_in list.new.items
        ≡ lent_in list.old.items ++ filter (observes types.now) (declared_by (option_copied bean.entry))) }
{
    let Some(bean) = bean else {
        return Ok(());
    };
    for method in bean.observers.as_slice() {
        if observes(types, method) {
            list.push(LentObserver { bean, method })?;
        }
    }
    Ok(())
}

fn observes(types: &[Name], method: &ObserverDecl) -> bool
    ensures { result ≡ has types.now method.now.event_type }
{
    types.contains(&method.event_type)
}

fn priority_of(method: &ObserverDecl) -> i64
    ensures { result ≡ priority_of method.now }
{
    method.priority.unwrap_or(DEFAULT_PRIORITY)
}
