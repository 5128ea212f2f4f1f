//! The bindings of the class of a bean (Interceptors 2.1, Binding an Interceptor to a Class).
ghost use Rattle.std.specs.Prelude.{◌≡◌, ◌++◌, List, ℕ, IfOk, OnOk};
ghost use Rattle.std.specs.BTreeSet.{contains};
ghost use Rattle.cdi_model.specs.Bytes.{byte_order};
ghost use Rattle.cdi_match.specs.Bindings.{uses_in};
ghost use Rattle.cdi_match.specs.Stereotypes.{stereotype_decls};
ghost use Rattle.cdi_effective.specs.Bindings.{class_bindings, in_place_of, stereotype_bindings};
ghost use Rattle.cdi_effective.specs.Qualifiers.{uses_one};

use crate::text_order::copies;
use cdi_match::{find_stereotype, push_uses, stereotypes, with_brought};
use cdi_model::{BeanDecl, Decls, Name, Qual, Seq};
use std::alloc::{AllocError, Global};
use std::collections::BTreeSet;

/// The bindings of the class of a bean: those that it declares, with what they bring, and those of its stereotypes, with
/// what these bring, of whose types it has none. One may occur twice. It takes memory for the list and for the searches,
/// and none where neither the bean nor a stereotype of it declares one.
pub fn class_bindings(
    alloc: Global,
    decls: &Decls,
    bean: &BeanDecl,
) -> Result<Seq<Qual>, AllocError>
    ensures { IfOk result (λ bindings. bindings ≡ class_bindings decls.now bean.now) }
{
    let uses = class_uses(alloc, decls, bean)?;
    copies(alloc, &uses)
}

/// The same, lent by their declarations.
pub fn class_uses<'a>(
    alloc: Global,
    decls: &'a Decls,
    bean: &'a BeanDecl,
) -> Result<Vec<&'a Qual>, AllocError>
    ensures { IfOk result (λ uses. uses_in uses.items ≡ class_bindings decls.now bean.now) }
{
    let mut own = Vec::new(alloc);
    push_uses(&mut own, bean.bindings.as_slice())?;
    let own = with_brought(alloc, decls, own)?;
    let given = given_bindings(alloc, decls, bean.attributes.stereotypes.as_slice())?;
    let given = with_brought(alloc, decls, given)?;
    in_place_of(alloc, given, own)
}

/// The bindings that the stereotypes of what declares some declare.
pub(crate) fn given_bindings<'a>(
    alloc: Global,
    decls: &'a Decls,
    declared: &[Name],
) -> Result<Vec<&'a Qual>, AllocError>
    ensures { IfOk result (λ list. uses_in list.items ≡ stereotype_bindings (stereotype_decls decls.now declared.now)) }
{
    let mut list = Vec::new(alloc);
    for name in stereotypes(alloc, decls, declared)? {
        if let Some(stereotype) = find_stereotype(decls, &name) {
            push_uses(&mut list, stereotype.bindings.as_slice())?;
        }
    }
    Ok(list)
}

/// Some uses, and after them those of others that are of none of their types. It takes memory for the list and for the
/// types, where there are some of both.
pub fn in_place_of<'a>(
    alloc: Global,
    others: Vec<&'a Qual>,
    own: Vec<&'a Qual>,
) -> Result<Vec<&'a Qual>, AllocError>
    ensures { IfOk result (λ list. uses_in list.items ≡ in_place_of (uses_in others.entry.items) (uses_in own.entry.items)) }
{
    if others.is_empty() {
        return Ok(own);
    }
    if own.is_empty() {
        return Ok(others);
    }
    let types = types_of(alloc, &own)?;
    let mut list = own;
    for binding in others {
        if !types.contains(&binding.name) {
            list.push(binding)?;
        }
    }
    Ok(list)
}

/// The types of some uses.
fn types_of(alloc: Global, uses: &[&Qual]) -> Result<BTreeSet<Name>, AllocError>
    ensures { IfOk result (λ types. (name : List ℕ) → contains byte_order types name ≡ uses_one (uses_in uses.now) name) }
{
    let mut types = BTreeSet::new(alloc);
    for binding in uses {
        types.insert(binding.name)?;
    }
    Ok(types)
}
