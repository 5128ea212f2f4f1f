//! The bindings at a place of a bean, each once, in order.
ghost use Rattle.std.specs.Prelude.{◌≡◌, IfOk};
ghost use Rattle.cdi_model.specs.Answering.{Answers};
ghost use Rattle.cdi_effective.specs.Bindings.{class_bindings};
ghost use Rattle.cdi_effective.specs.TextOrder.{in_text_order};
ghost use Rattle.cdi_match.specs.Bindings.{uses_in};
ghost use Rattle.cdi_intercept.specs.Bindings.{bindings_at, BindingsAreThose};
ghost use Rattle.cdi_intercept.specs.Sets.{set_by};

use crate::set::{has_place, set_by};
use cdi_effective::{class_bindings, copies, in_text_order};
use cdi_model::{BeanDecl, BeanPlace, Decl, Decls, Error, Kind, Name, Qual, Refusal, Seq};
use std::alloc::{AllocError, Global};

/// The bindings at a place of the bean of a class, whether it is enabled or not (Interceptors 2.1, Binding an Interceptor
/// to a Class; Binding an Interceptor to a Method): each once, in the byte order of their texts. It is refused as
/// `chain_of` is. It takes memory for the searches, for the list and for the texts.
pub fn bindings_at(
    alloc: Global,
    decls: &Decls,
    class: Name,
    place: &BeanPlace,
) -> Result<Seq<Qual>, Error>
    ensures value { Answers result (bindings_at decls.now class place.now) }
    ensures order { BindingsAreThose }
{
    let Some(Decl::Bean(bean)) = decls.get(Kind::Bean, &class) else {
        return Err(Refusal::UnknownName.into());
    };
    if !has_place(bean, place) {
        return Err(Refusal::NoMethod.into());
    }
    Ok(bindings_of(alloc, decls, bean, place)?)
}

/// What the chain around a place of a bean whose class has these bindings sees of bindings: those there, as `bindings_at` tells
/// them, and none where the bean has no such place. It takes memory for the search, for the list and for the texts.
pub fn bindings_seen<'a>(
    alloc: Global,
    decls: &'a Decls,
    class: &'a [Qual],
    bean: &'a BeanDecl,
    place: &BeanPlace,
) -> Result<Vec<&'a Qual>, AllocError>
    ensures { IfOk result (λ list. uses_in list.items ≡ in_text_order (set_by decls.now class.now bean.now place.now)) }
{
    let set = set_by(alloc, decls, class, bean, place)?;
    in_text_order(alloc, &set)
}

/// The bindings at a place of a bean, each once, in the byte order of their texts.
fn bindings_of(
    alloc: Global,
    decls: &Decls,
    bean: &BeanDecl,
    place: &BeanPlace,
) -> Result<Seq<Qual>, AllocError>
    ensures { IfOk result (λ list. list
        ≡ in_text_order (set_by decls.now (class_bindings decls.now bean.now) bean.now place.now)) }
{
    let class = class_bindings(alloc, decls, bean)?;
    let bindings = bindings_seen(alloc, decls, class.as_slice(), bean, place)?;
    copies(alloc, &bindings)
}
