//! The question for the interceptors around a place of a bean.
ghost use Rattle.std.specs.Prelude.{◌≡◌, OnOk, OnErr};
ghost use Rattle.cdi_model.specs.Answering.{Answers};
ghost use Rattle.cdi_model.specs.Work.{with_one};
ghost use Rattle.cdi_intercept.specs.Chains.{chain_of};
ghost use Rattle.cdi_intercept.specs.Sees.{ChainRestsOnSeen, ToldRestsOnSeen};

use crate::chain::{chain_among, in_order};
use crate::set::{has_place, set_among};
use cdi_effective::class_uses;
use cdi_model::{BeanPlace, Decl, Decls, Error, Kind, Name, Refusal, Seq, Work};
use std::alloc::Global;

/// The names of the interceptors around a place of the bean of a class, in order, whether it is enabled or not. It is
/// refused with `UnknownName` where no such bean is declared, and with `NoMethod` where it has no such place, as of a
/// static producer method. It takes memory for the bindings, the interceptors and the list.
pub fn chain_of(
    alloc: Global,
    decls: &Decls,
    class: Name,
    place: &BeanPlace,
) -> Result<Seq<Name>, Error>
    ensures { Answers result (chain_of decls.now class place.now) }
{
    let Some(Decl::Bean(bean)) = decls.get(Kind::Bean, &class) else {
        return Err(Refusal::UnknownName.into());
    };
    if !has_place(bean, place) {
        return Err(Refusal::NoMethod.into());
    }
    let class_set = class_uses(alloc, decls, bean)?;
    let set = set_among(alloc, decls, class_set, bean, place)?;
    let order = in_order(alloc, decls)?;
    let mut names = Seq::new(alloc);
    for interceptor in chain_among(alloc, decls, &order, &set, place)? {
        names.push(interceptor.name)?;
    }
    Ok(names)
}

/// The same, counted as one evaluation: `Work` rises where the chain is answered, and neither where it is refused nor where
/// memory runs out.
#[tactic(auto, using(crate::proofs::SeenLemmas::of_evaluations))]
pub fn evaluate_chain(
    alloc: Global,
    decls: &Decls,
    class: Name,
    place: &BeanPlace,
    work: &mut Work,
) -> Result<Seq<Name>, Error>
    ensures chain { Answers result (chain_of decls.now class place.now) }
    ensures work { OnOk result (work.new ≡ with_one work.old) }
    ensures err { OnErr result (work.new ≡ work.old) }
    ensures seen { ChainRestsOnSeen }
    ensures told { ToldRestsOnSeen }
{
    let names = chain_of(alloc, decls, class, place)?;
    work.add_one();
    Ok(names)
}
