//! Chains that are kept.
ghost use Rattle.std.specs.Prelude.{◌≡◌, ◌&&◌, true, filter, map, Some, None, if◌then◌else◌, IfOk, OnOk, OnErr};
ghost use Rattle.std.specs.Str.{bytes_eq};
ghost use Rattle.cdi_match.specs.Bindings.{uses_in};
ghost use Rattle.cdi_intercept.specs.Chains.{chain_of, surrounds};
ghost use Rattle.cdi_intercept.specs.Lent.{lent_in};
ghost use Rattle.cdi_intercept.specs.Sees.{names_around};
ghost use Rattle.cdi_intercept.specs.Sets.{set_by};
ghost use Rattle.cdi_memo.specs.Answers.{answer};
ghost use Rattle.cdi_model.specs.Answering.{Answers};
ghost use Rattle.cdi_model.specs.DeclList.{AreDistinct};
ghost use Rattle.cdi_model.specs.Work.{with_one};
ghost use Rattle.cdi_observe.specs.Keys.{same_place};
ghost use Rattle.cdi_live.specs.ChainGone.{is_gone_chain, is_place_of};

use crate::chain_gone::GoneChain;
use crate::chain_place::ChainPlace;
use crate::interceptors::{enabled_in_order, words_bound};
use cdi_index::Index;
use cdi_intercept::{bindings_seen, has_place, surrounds};
use cdi_memo::Memo;
use cdi_model::{
    BeanDecl, BeanPlace, Decl, Decls, Error, InterceptorDecl, Kind, Name, Qual, Refusal, Seq, Work,
};
use cdi_observe::Shared;
use std::alloc::{AllocError, Global};

/// The names of those of some interceptors that are around a place with some bindings.
fn names_among(
    alloc: Global,
    decls: &Decls,
    interceptors: &[&InterceptorDecl],
    bindings: &[&Qual],
    place: &BeanPlace,
) -> Result<Shared<Name>, AllocError>
    ensures { IfOk result (λ names. names
        ≡ map (λ i. i.name) (filter (surrounds decls.now (uses_in bindings.now) place.now) (lent_in interceptors.now))) }
{
    let mut names = Vec::new(alloc);
    for interceptor in interceptors {
        if surrounds(decls, bindings, place, interceptor) {
            names.push(interceptor.name)?;
        }
    }
    Shared::from_vec(alloc, names)
}

/// The names of the interceptors around a place of a bean whose class has these bindings, in order. It looks at the
/// interceptors that have a binding of one of the types at the place, and at no others.
fn names_around(
    alloc: Global,
    index: &Index,
    class: &[Qual],
    bean: &BeanDecl,
    place: &BeanPlace,
) -> Result<Shared<Name>, AllocError>
    ensures { IfOk result (λ names. names
        ≡ names_around index.now.decls (set_by index.now.decls class.now bean.now place.now) place.now) }
{
    let bindings = bindings_seen(alloc, index.decls(), class, bean, place)?;
    let words = words_bound(alloc, &bindings)?;
    let decls = index.decls_under(alloc, &words)?;
    let interceptors = enabled_in_order(alloc, &decls)?;
    names_among(alloc, index.decls(), &interceptors, &bindings, place)
}

/// The names of the interceptors around a place of the bean of a class, in order. It is refused with `UnknownName` where no
/// such bean is declared, and with `NoMethod` where it has no such place.
fn chain(
    alloc: Global,
    index: &Index,
    class: Name,
    place: &BeanPlace,
) -> Result<Shared<Name>, Error>
    ensures chain { Answers result (chain_of index.now.decls class place.now) }
    ensures there { OnOk result (is_place_of index.now.decls class place.now ≡ true) }
    ensures distinct { AreDistinct index.now.decls }
{
    let Some(Decl::Bean(bean)) = index.decls().get(Kind::Bean, &class) else {
        return Err(Refusal::UnknownName.into());
    };
    if !has_place(bean, place) {
        return Err(Refusal::NoMethod.into());
    }
    let names = names_around(alloc, index, index.class_bindings(&class), bean, place)?;
    Ok(names)
}

/// Computes the chain around a place, and keeps it. Without memory nothing is kept or counted.
pub(crate) fn evaluate_chain(
    alloc: Global,
    index: &Index,
    chains: &mut Memo<ChainPlace, Shared<Name>>,
    class: Name,
    place: &BeanPlace,
    work: &mut Work,
) -> Result<Shared<Name>, Error>
    ensures chain { Answers result (chain_of index.now.decls class place.now) }
    ensures there { OnOk result (is_place_of index.now.decls class place.now ≡ true) }
    ensures distinct { AreDistinct index.now.decls }
    ensures kept { IfOk result (λ names. (c : _) (p : _) → answer same_place chains.new c p
        ≡ (if bytes_eq class c && same_place place.now p then Some names else answer same_place chains.old c p)) }
    ensures work { OnOk result (work.new ≡ with_one work.old) }
    ensures err { OnErr result (chains.new ≡ chains.old) }
    ensures same { OnErr result (work.new ≡ work.old) }
{
    let names = chain(alloc, index, class, place)?;
    chains.keep(class, ChainPlace::new(*place), names.share()?)?;
    work.add_one();
    Ok(names)
}

/// Keeps some chains no more. It takes no memory.
pub(crate) fn forget_chains(chains: &mut Memo<ChainPlace, Shared<Name>>, mut gone: Vec<GoneChain>)
    ensures { (c : _) (p : _) → answer same_place chains.new c p
        ≡ (if is_gone_chain gone.items c p then None else answer same_place chains.old c p) }
{
    'left: while let Some(one) = gone.pop() {
        chains.remove(&one.class, &ChainPlace::new(one.place));
    }
}
