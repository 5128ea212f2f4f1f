//! The interceptors around a place, in order (Interceptors 2.1, Interceptor Ordering; Enabling Interceptors).
ghost use Rattle.std.specs.Prelude.{◌≡◌, filter, map, IfOk};
ghost use Rattle.std.specs.List.{list_all};
ghost use Rattle.cdi_match.specs.Bindings.{uses_in};
ghost use Rattle.cdi_intercept.specs.Chains.{around_any, binds, chain_by, covered_in, in_order, interceptors, is_before, is_enabled};
ghost use Rattle.cdi_intercept.specs.Chains.{part_for, surrounds, surrounds_one};
ghost use Rattle.cdi_intercept.specs.Lent.{lent_in, uses_at};
ghost use Rattle.base_lists.specs.Sorting.{sorted_by};

use crate::set::sets_of;
use cdi_match::covers;
use cdi_model::{BeanDecl, BeanPlace, Decl, Decls, InterceptorDecl, PartDecl, Qual, UseKind};
use std::alloc::{AllocError, Global};

/// The interceptors that are enabled by their priorities, from the least on, and those of one priority in the order of
/// their declarations. It takes memory for the list, and for sorting it where there are more than 20.
#[tactic(auto, unfolding(crate::specs::Chains::in_order))]
pub fn in_order<'a>(alloc: Global, decls: &'a Decls) -> Result<Vec<&'a InterceptorDecl>, AllocError>
    ensures { IfOk result (λ list. lent_in list.items ≡ in_order decls.now) }
{
    sorted_by_priority(enabled(alloc, decls)?)
}

/// Interceptors from the least priority on, and those of one priority as they were. It takes memory where there are more
/// than 20.
pub fn sorted_by_priority(
    mut list: Vec<&InterceptorDecl>,
) -> Result<Vec<&InterceptorDecl>, AllocError>
    ensures { IfOk result (λ sorted. lent_in sorted.items ≡ sorted_by is_before (lent_in list.entry.items)) }
{
    list.sort_by_key(|interceptor| interceptor.priority)?;
    Ok(list)
}

fn enabled<'a>(alloc: Global, decls: &'a Decls) -> Result<Vec<&'a InterceptorDecl>, AllocError>
    ensures { IfOk result (λ list. lent_in list.items ≡ filter is_enabled (interceptors decls.now)) }
{
    let mut list = Vec::new(alloc);
    for decl in decls.iter() {
        if let Decl::Interceptor(interceptor) = decl {
            if interceptor.priority.is_some() {
                list.push(interceptor)?;
            }
        }
    }
    Ok(list)
}

/// Of the interceptors that are enabled, in order, those around a place with these bindings. It takes memory for those that
/// are there.
#[tactic(auto, unfolding(crate::specs::Chains::chain_by))]
pub fn chain_among<'a>(
    alloc: Global,
    decls: &Decls,
    order: &[&'a InterceptorDecl],
    set: &[&Qual],
    place: &BeanPlace,
) -> Result<Vec<&'a InterceptorDecl>, AllocError>
    requires { lent_in order.now ≡ in_order decls.now }
    ensures { IfOk result (λ list. lent_in list.items ≡ chain_by decls.now (uses_in set.now) place.now) }
{
    let mut list = Vec::new(alloc);
    for interceptor in order {
        if surrounds(decls, set, place, interceptor) {
            list.push(*interceptor)?;
        }
    }
    Ok(list)
}

/// Of the interceptors that are enabled, in order, those around some place of a bean whose class has these bindings, each
/// once. It takes memory for the bindings at each place, and for those that are there.
#[tactic(auto, unfolding(crate::specs::Chains::around_any))]
pub fn around_any<'a>(
    alloc: Global,
    decls: &Decls,
    order: &[&'a InterceptorDecl],
    class: &[Qual],
    bean: &BeanDecl,
) -> Result<Vec<&'a InterceptorDecl>, AllocError>
    requires { lent_in order.now ≡ in_order decls.now }
    ensures { IfOk result (λ list. lent_in list.items ≡ around_any decls.now class.now bean.now) }
{
    let sets = sets_of(alloc, decls, class, bean)?;
    let mut list = Vec::new(alloc);
    for interceptor in order {
        if surrounds_one(decls, &sets, interceptor) {
            list.push(*interceptor)?;
        }
    }
    Ok(list)
}

/// Whether an interceptor is around one of some places, each with the bindings there, where it is enabled. It takes no
/// memory.
pub fn surrounds_one(
    decls: &Decls,
    sets: &[(BeanPlace, Vec<&Qual>)],
    interceptor: &InterceptorDecl,
) -> bool
    ensures { result ≡ surrounds_one decls.now (map uses_at sets.now) interceptor.now }
{
    for (place, set) in sets {
        if surrounds(decls, set, place, interceptor) {
            return true;
        }
    }
    false
}

/// Whether an interceptor is around a place with these bindings, where it is enabled: it has a body for the place, and
/// declares bindings of which each is covered by one of these. It takes no memory.
pub fn surrounds(
    decls: &Decls,
    set: &[&Qual],
    place: &BeanPlace,
    interceptor: &InterceptorDecl,
) -> bool
    ensures { result ≡ surrounds decls.now (uses_in set.now) place.now interceptor.now }
{
    part_for(place, interceptor).is_some() && binds(decls, set, interceptor)
}

/// What an interceptor runs around a place. It takes no memory.
pub fn part_for<'a>(place: &BeanPlace, interceptor: &'a InterceptorDecl) -> &'a Option<PartDecl>
    ensures { result.now ≡ part_for place.now interceptor.now }
{
    match place {
        BeanPlace::Construct => &interceptor.around_construct,
        BeanPlace::Post => &interceptor.post,
        BeanPlace::Pre => &interceptor.pre,
        BeanPlace::Method(_) | BeanPlace::Producer(_) | BeanPlace::Observer(_) => {
            &interceptor.around_invoke
        }
    }
}

/// Whether an interceptor declares bindings, and each that it declares is covered.
fn binds(decls: &Decls, set: &[&Qual], interceptor: &InterceptorDecl) -> bool
    ensures { result ≡ binds decls.now (uses_in set.now) interceptor.now }
{
    let bindings = interceptor.bindings.as_slice();
    !bindings.is_empty() && are_covered(decls, set, bindings)
}

fn are_covered(decls: &Decls, set: &[&Qual], bindings: &[Qual]) -> bool
    ensures { result ≡ list_all (covered_in decls.now (uses_in set.now)) bindings.now }
{
    bindings.iter().all(|want| is_covered(decls, set, want))
}

/// Whether one of some bindings covers this one.
fn is_covered(decls: &Decls, set: &[&Qual], want: &Qual) -> bool
    ensures { result ≡ covered_in decls.now (uses_in set.now) want.now }
{
    for have in set {
        if covers(decls, UseKind::Binding, have, want) {
            return true;
        }
    }
    false
}
