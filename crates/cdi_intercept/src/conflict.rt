//! Bindings of one type that differ (Interceptors 2.1, Associating an Interceptor using Interceptor Bindings).
ghost use Rattle.std.specs.Prelude.{◌≡◌, IfOk};
ghost use Rattle.cdi_match.specs.Bindings.{uses_in};
ghost use Rattle.cdi_intercept.specs.Conflicts.{differs, has_conflict, use_at};
ghost use Rattle.cdi_intercept.specs.Sets.{set_by};

use crate::set::set_by;
use cdi_match::are_alike;
use cdi_model::{BeanDecl, BeanPlace, Decls, Qual, UseKind};
use std::alloc::{AllocError, Global};
use std::collections::BTreeMap;

/// Whether two of the bindings at a place of a bean whose class has these are of one type and have different values for a
/// member, or one has none. A member that is not written has its default, and those count too that are declared with
/// `binding = false`. It takes memory for the bindings there and for their types.
pub fn has_conflict_at(
    alloc: Global,
    decls: &Decls,
    class: &[Qual],
    bean: &BeanDecl,
    place: &BeanPlace,
) -> Result<bool, AllocError>
    ensures { IfOk result (λ has. has ≡ has_conflict decls.now (set_by decls.now class.now bean.now place.now)) }
{
    let set = set_by(alloc, decls, class, bean, place)?;
    has_conflict(alloc, decls, &set)
}

/// Whether two of some bindings are of one type, and not alike. Each is compared with the one before it of its type alone:
/// where all before are alike, it is like each of them or like none.
fn has_conflict(alloc: Global, decls: &Decls, uses: &[&Qual]) -> Result<bool, AllocError>
    ensures { IfOk result (λ has. has ≡ has_conflict decls.now (uses_in uses.now)) }
{
    let mut latest = BTreeMap::new(alloc);
    for (index, binding) in uses.iter().enumerate() {
        let before = latest.insert(binding.name, index)?;
        if differs(decls, uses, before, binding) {
            return Ok(true);
        }
    }
    Ok(false)
}

/// Whether a binding is not like the one at a position of some, if there is one.
fn differs(decls: &Decls, uses: &[&Qual], before: Option<usize>, binding: &Qual) -> bool
    ensures { result ≡ differs decls.now (use_at (uses_in uses.now) before) binding.now }
{
    let Some(index) = before else {
        return false;
    };
    match uses.get(index) {
        Some(other) => !are_alike(decls, UseKind::Binding, other, binding),
        None => false,
    }
}
