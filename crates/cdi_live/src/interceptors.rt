//! The interceptors that a chain sees, by the words of their bindings.
ghost use Rattle.std.specs.Prelude.{◌≡◌, ◌++◌, filter, flat_map, map, IfOk, OnOk};
ghost use Rattle.base_lists.specs.Sorting.{sorted_by};
ghost use Rattle.cdi_match.specs.Bindings.{uses_in};
ghost use Rattle.cdi_intercept.specs.Chains.{is_before};
ghost use Rattle.cdi_intercept.specs.Lent.{lent_in};
ghost use Rattle.cdi_intercept.specs.Sees.{is_seen};
ghost use Rattle.cdi_live.specs.ChainGone.{enabled_in, words_bound};

use cdi_intercept::{seen_around, sorted_by_priority};
use cdi_model::{BeanPlace, Decl, InterceptorDecl, Qual};
use cdi_postings::{Reason, Word};
use std::alloc::{AllocError, Global};

/// The words of the interceptors that have a binding of one of the types of these.
pub(crate) fn words_bound(alloc: Global, uses: &[&Qual]) -> Result<Vec<Word>, AllocError>
    ensures { IfOk result (λ words. words.items ≡ words_bound (uses_in uses.now)) }
{
    let mut words = Vec::with_capacity(alloc, uses.len())?;
    for binding in uses {
        words.push(Word {
            reason: Reason::Intercepts,
            name: binding.name,
        })?;
    }
    Ok(words)
}

/// Appends the interceptor that a declaration is, if it is enabled.
fn push_enabled<'a>(decl: &'a Decl, list: &mut Vec<&'a InterceptorDecl>) -> Result<(), AllocError>
    ensures { OnOk result (lent_in list.new.items ≡ lent_in list.old.items ++ enabled_in decl.now) }
{
    if let Decl::Interceptor(interceptor) = decl {
        if interceptor.priority.is_some() {
            list.push(interceptor)?;
        }
    }
    Ok(())
}

/// The enabled interceptors among some declarations, in their order.
fn enabled_among<'a>(
    alloc: Global,
    decls: &[&'a Decl],
) -> Result<Vec<&'a InterceptorDecl>, AllocError>
    ensures { IfOk result (λ list. lent_in list.items ≡ flat_map enabled_in (map (λ d. d.now) decls.now)) }
{
    let mut list = Vec::new(alloc);
    for decl in decls {
        push_enabled(decl, &mut list)?;
    }
    Ok(list)
}

/// The enabled interceptors among some declarations, from the least priority on. It takes memory for a list of them.
pub(crate) fn enabled_in_order<'a>(
    alloc: Global,
    decls: &[&'a Decl],
) -> Result<Vec<&'a InterceptorDecl>, AllocError>
    ensures { IfOk result (λ list. lent_in list.items ≡ sorted_by is_before (flat_map enabled_in (map (λ d. d.now) decls.now))) }
{
    sorted_by_priority(enabled_among(alloc, decls)?)
}

/// Those interceptors among some declarations that the chain around a place with some bindings sees, in order. It takes memory
/// for the enabled ones.
pub(crate) fn seen_among<'a>(
    alloc: Global,
    decls: &[&'a Decl],
    bindings: &[&Qual],
    place: &BeanPlace,
) -> Result<Vec<&'a InterceptorDecl>, AllocError>
    ensures { IfOk result (λ list. lent_in list.items
        ≡ filter (is_seen (uses_in bindings.now) place.now) (sorted_by is_before (flat_map enabled_in (map (λ d. d.now) decls.now)))) }
{
    let list = enabled_in_order(alloc, decls)?;
    seen_around(alloc, &list, bindings, place)
}
