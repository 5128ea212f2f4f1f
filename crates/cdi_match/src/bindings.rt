//! The bindings that uses of binding types bring with them (Interceptors 2.1, Interceptor Binding Types).
ghost use Rattle.std.specs.Prelude.{◌≡◌, ◌↔◌, ◌++◌, ℕ, IsTrue, IfOk, OnOk, OnErr, map, take};
ghost use Rattle.cdi_model.specs.Quals.{name_of_use};
ghost use Rattle.cdi_match.specs.Bindings.{brings, brings_itself, brought, types_brought, uses_in, with_brought, BroughtAreThese};
ghost use Rattle.cdi_match.specs.Chain.{Circle};
ghost use Rattle.cdi_match.specs.Locality.{EditsKeepBindings};

use crate::followers::Links;
use crate::walk::{each_once, leads_on, reached};
use cdi_model::{Decl, Decls, Kind, Name, Qual};
use std::alloc::{AllocError, Global};

/// The uses, and after them those that the declarations of the binding types declare to which a chain of `declares` leads
/// from one of these: a binding that is declared there occurs once for each type that declares it. A binding type that is
/// not declared brings none. It takes memory for the list and for the search, and none where there is no use.
#[tactic(auto, using(crate::proofs::BindingLemmas::brought_behind, crate::proofs::LocalityLemmas::edits_keep_bindings))]
pub fn with_brought<'a>(
    alloc: Global,
    decls: &'a Decls,
    uses: Vec<&'a Qual>,
) -> Result<Vec<&'a Qual>, AllocError>
    ensures value { IfOk result (λ list. uses_in list.items ≡ with_brought decls.now (uses_in uses.entry.items)) }
    ensures meaning { BroughtAreThese }
    ensures edits { EditsKeepBindings }
{
    let mut list = uses;
    if list.is_empty() {
        return Ok(list);
    }
    for name in types_brought(alloc, decls, list.as_slice())? {
        push_uses(&mut list, brought(decls, &name))?;
    }
    Ok(list)
}

/// Appends some uses. Where memory runs out, the first of them may have been appended.
pub fn push_uses<'a>(list: &mut Vec<&'a Qual>, uses: &'a [Qual]) -> Result<(), AllocError>
    ensures ok { OnOk result (uses_in list.new.items ≡ uses_in list.old.items ++ uses.now) }
    ensures err { OnErr result ((i : ℕ) × (uses_in list.new.items ≡ uses_in list.old.items ++ take i uses.now)) }
{
    for binding in uses {
        list.push(binding)?;
    }
    Ok(())
}

/// The binding types that some uses bring, their own included, each once, in byte order. It takes memory for the list and
/// for the search.
pub fn types_brought(alloc: Global, decls: &Decls, uses: &[&Qual]) -> Result<Vec<Name>, AllocError>
    ensures { IfOk result (λ names. names.items ≡ types_brought decls.now (map name_of_use (uses_in uses.now))) }
{
    let mut names = Vec::with_capacity(alloc, uses.len())?;
    for binding in uses {
        names.push(binding.name)?;
    }
    let found = reached(alloc, decls, Links::Bindings, names.as_slice())?;
    Ok(each_once(found))
}

/// Whether a binding type reaches itself by a chain of one `declares` or more. It takes no memory.
#[tactic(auto, unfolding(crate::specs::Bindings::brings_itself))]
pub fn brings_itself(decls: &Decls, name: &Name) -> bool
    ensures value { result ≡ brings_itself decls.now name.now }
    ensures meaning { IsTrue result ↔ Circle (brings decls.now) name.now }
{
    leads_on(decls, Links::Bindings, name, name)
}

/// The uses that the declaration of a binding type declares: none where it is not declared. It takes no memory.
pub fn brought<'a>(decls: &'a Decls, name: &Name) -> &'a [Qual]
    ensures { result.now ≡ brought decls.now name.now }
{
    match decls.get(Kind::Binding, name) {
        Some(Decl::Binding(decl)) => decl.declares.as_slice(),
        _ => &[],
    }
}
