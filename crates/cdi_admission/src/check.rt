//! What a declaration is refused for.
ghost use Rattle.std.specs.Prelude.{◌≡◌, IfOk, OnOk};
ghost use Rattle.cdi_model.specs.Answering.{Answers};
ghost use Rattle.cdi_model.specs.Short.{HasShortLists};
ghost use Rattle.cdi_admission.specs.Admission.{admission_of, has_long_list, name_lists, refusal_of_decl, repeats_name};

use crate::lists::NameLists;
use crate::names::has_bad_name;
use crate::params::has_param_named_as_point;
use crate::parts::has_long_part;
use cdi_model::{Decl, Error, Refusal};
use std::alloc::{AllocError, Global};

/// Checks a declaration that a program made. What its types leave open is refused as in a text.
///
/// It takes memory for the names that the declaration lists, and time near its size.
///
/// # Errors
///
/// `OutOfMemory`, or the first of these refusals that applies: `BadName`, of what is built in and declared, of a use that no text
/// spells, of `Named` among the qualifiers that a bean or a producer declares, and of `Default` among those of an observer or of
/// an event; `Twice`, of a list that has a name twice, and of a param of a producer or of an observer that has the name of one of
/// the bean's points; `ListTooLong`, of a list with more than 32 entries.
#[tactic(auto, using(crate::proofs::ShortLemmas::short_admitted))]
pub fn check_decl(alloc: Global, decl: &Decl) -> Result<(), Error>
    ensures value { Answers result (admission_of decl.now) }
    ensures short { OnOk result (HasShortLists decl.now) }
{
    match refusal_of(alloc, decl)? {
        Some(refusal) => Err(Error::Refused(refusal)),
        None => Ok(()),
    }
}

#[tactic(auto, unfolding(crate::specs::Admission::refusal_of_decl))]
fn refusal_of(alloc: Global, decl: &Decl) -> Result<Option<Refusal>, AllocError>
    ensures { IfOk result (λ refusal. refusal ≡ refusal_of_decl decl.now) }
{
    if has_bad_name(decl) {
        return Ok(Some(Refusal::BadName));
    }
    let lists = NameLists::of(alloc, decl)?;
    if repeats_name(alloc, decl, &lists)? {
        return Ok(Some(Refusal::Twice));
    }
    if has_long_list(decl, &lists) {
        return Ok(Some(Refusal::ListTooLong));
    }
    Ok(None)
}

/// Whether a name occurs twice in one of the lists of a declaration, or a param has the name of a point.
fn repeats_name(alloc: Global, decl: &Decl, lists: &NameLists<'_>) -> Result<bool, AllocError>
    requires { lists.now ≡ name_lists decl.now }
    ensures { IfOk result (λ found. found ≡ repeats_name decl.now) }
{
    if lists.has_twice(alloc)? {
        return Ok(true);
    }
    has_param_named_as_point(alloc, decl)
}

/// Whether one of the lists of a declaration has too many entries.
fn has_long_list(decl: &Decl, lists: &NameLists<'_>) -> bool
    requires { lists.now ≡ name_lists decl.now }
    ensures { result ≡ has_long_list decl.now }
{
    lists.has_long() || has_long_part(decl)
}
