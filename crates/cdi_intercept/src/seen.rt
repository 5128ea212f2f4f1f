//! What the chain around a place sees of the interceptors.
ghost use Rattle.std.specs.Prelude.{◌≡◌, filter, IfOk};
ghost use Rattle.std.specs.List.{list_any};
ghost use Rattle.cdi_match.specs.Bindings.{uses_in};
ghost use Rattle.cdi_effective.specs.Qualifiers.{uses_one};
ghost use Rattle.cdi_intercept.specs.Lent.{lent_in};
ghost use Rattle.cdi_intercept.specs.Sees.{is_seen, shares_type};

use crate::chain::part_for;
use cdi_model::{BeanPlace, InterceptorDecl, Name, Qual};
use std::alloc::{AllocError, Global};

/// Of some interceptors, in order, those that have a body for a place and declare a binding of a type of which one of
/// these is: of all that are enabled, those that the chain around a place with these bindings sees. It takes memory for
/// the list.
pub fn seen_around<'a>(
    alloc: Global,
    order: &[&'a InterceptorDecl],
    bindings: &[&Qual],
    place: &BeanPlace,
) -> Result<Vec<&'a InterceptorDecl>, AllocError>
    ensures { IfOk result (λ list. lent_in list.items ≡ filter (is_seen (uses_in bindings.now) place.now) (lent_in order.now)) }
{
    let mut list = Vec::new(alloc);
    for interceptor in order {
        if is_seen(bindings, place, interceptor) {
            list.push(*interceptor)?;
        }
    }
    Ok(list)
}

fn is_seen(bindings: &[&Qual], place: &BeanPlace, interceptor: &InterceptorDecl) -> bool
    ensures { result ≡ is_seen (uses_in bindings.now) place.now interceptor.now }
{
    part_for(place, interceptor).is_some() && shares_type(bindings, interceptor)
}

fn shares_type(bindings: &[&Qual], interceptor: &InterceptorDecl) -> bool
    ensures { result ≡ shares_type (uses_in bindings.now) interceptor.now }
{
    for binding in interceptor.bindings.as_slice() {
        if uses_one(bindings, binding.name) {
            return true;
        }
    }
    false
}

/// Whether one of some bindings is of a type.
fn uses_one(bindings: &[&Qual], name: Name) -> bool
    ensures { result ≡ uses_one (uses_in bindings.now) name }
{
    for binding in bindings {
        if name == binding.name {
            return true;
        }
    }
    false
}
