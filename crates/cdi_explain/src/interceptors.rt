//! The verdicts on interceptors at a place of a bean.
ghost use Rattle.std.specs.Prelude.{◌≡◌, IfOk};
ghost use Rattle.cdi_model.specs.Answering.{Answers};
ghost use Rattle.cdi_match.specs.Bindings.{uses_in};
ghost use Rattle.cdi_effective.specs.Bindings.{class_bindings};
ghost use Rattle.cdi_intercept.specs.Chains.{covered_in};
ghost use Rattle.cdi_intercept.specs.Sets.{set_by};
ghost use Rattle.cdi_explain.specs.Interceptors.{CalledAreTheChain, CalledSurround, body_verdict, interceptor_verdict, uncovered};
ghost use Rattle.cdi_explain.specs.Interceptors.{verdicts_at, verdicts_by};

use crate::verdict::InterceptorVerdict;
use cdi_effective::class_bindings;
use cdi_intercept::{has_place, part_for, set_by};
use cdi_match::covers;
use cdi_model::{
    BeanDecl, BeanPlace, Decl, Decls, Error, InterceptorDecl, Kind, Name, Qual, Refusal, Seq,
    UseKind,
};
use std::alloc::{AllocError, Global};

/// The verdict on each interceptor that is declared, in the order of declarations, at a place of the bean of a class (CDI
/// 4.0, Interceptor resolution; Interceptor enablement and ordering). It is refused as `chain_of` of `cdi_intercept` is:
/// with `UnknownName` where no such bean is declared, and with `NoMethod` where it has no such place. It takes memory for
/// the bindings at the place and for the verdicts.
#[tactic(auto, using(crate::proofs::InterceptorLemmas::called_surround, crate::proofs::InterceptorLemmas::called_are_the_chain))]
pub fn verdicts_on_interceptors(
    alloc: Global,
    decls: &Decls,
    class: Name,
    place: &BeanPlace,
) -> Result<Seq<InterceptorVerdict>, Error>
    ensures verdicts { Answers result (verdicts_at decls.now class place.now) }
    ensures called { CalledSurround }
    ensures answer { CalledAreTheChain }
{
    let Some(Decl::Bean(bean)) = decls.get(Kind::Bean, &class) else {
        return Err(Refusal::UnknownName.into());
    };
    if !has_place(bean, place) {
        return Err(Refusal::NoMethod.into());
    }
    Ok(verdicts_of(alloc, decls, bean, place)?)
}

/// The verdict on each interceptor at a place of a bean.
fn verdicts_of(
    alloc: Global,
    decls: &Decls,
    bean: &BeanDecl,
    place: &BeanPlace,
) -> Result<Seq<InterceptorVerdict>, AllocError>
    ensures { IfOk result (λ list. list
        ≡ verdicts_by decls.now (set_by decls.now (class_bindings decls.now bean.now) bean.now place.now) place.now) }
{
    let class_set = class_bindings(alloc, decls, bean)?;
    let set = set_by(alloc, decls, class_set.as_slice(), bean, place)?;
    verdicts(alloc, decls, &set, place)
}

/// The verdict on each interceptor at a place with these bindings.
fn verdicts(
    alloc: Global,
    decls: &Decls,
    set: &[&Qual],
    place: &BeanPlace,
) -> Result<Seq<InterceptorVerdict>, AllocError>
    ensures { IfOk result (λ list. list ≡ verdicts_by decls.now (uses_in set.now) place.now) }
{
    let mut verdicts = Seq::new(alloc);
    for decl in decls.iter() {
        if let Decl::Interceptor(interceptor) = decl {
            verdicts.push(verdict(decls, set, place, interceptor))?;
        }
    }
    Ok(verdicts)
}

/// The verdict on an interceptor at a place with these bindings.
fn verdict(
    decls: &Decls,
    set: &[&Qual],
    place: &BeanPlace,
    interceptor: &InterceptorDecl,
) -> InterceptorVerdict
    ensures { result ≡ interceptor_verdict decls.now (uses_in set.now) place.now interceptor.now }
{
    if part_for(place, interceptor).is_some() {
        body_verdict(decls, set, interceptor)
    } else {
        InterceptorVerdict::LacksBody
    }
}

/// The verdict on an interceptor that has a method for the place.
fn body_verdict(decls: &Decls, set: &[&Qual], interceptor: &InterceptorDecl) -> InterceptorVerdict
    ensures { result ≡ body_verdict decls.now (uses_in set.now) interceptor.now }
{
    let bindings = interceptor.bindings.as_slice();
    if bindings.is_empty() {
        return InterceptorVerdict::NoBinding;
    }
    if let Some(own) = uncovered(decls, set, bindings) {
        return InterceptorVerdict::LacksBinding(own);
    }
    if interceptor.priority.is_some() {
        InterceptorVerdict::Called
    } else {
        InterceptorVerdict::Disabled
    }
}

/// The position of the first of these bindings that none at the place covers.
fn uncovered(decls: &Decls, set: &[&Qual], bindings: &[Qual]) -> Option<usize>
    ensures { result ≡ uncovered decls.now (uses_in set.now) bindings.now }
{
    bindings
        .iter()
        .position(|want| !is_covered(decls, set, want))
}

/// Whether one of some bindings covers this one.
fn is_covered(decls: &Decls, set: &[&Qual], want: &Qual) -> bool
    ensures { result ≡ covered_in decls.now (uses_in set.now) want.now }
{
    for have in set {
        if covers(decls, UseKind::Binding, have, want) {
            return true;
        }
    }
    false
}
