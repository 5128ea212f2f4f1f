//! Parts that have too many call sites or too many events.
ghost use Rattle.std.specs.Prelude.{◌≡◌};
ghost use Rattle.std.specs.List.{list_any};
ghost use Rattle.cdi_model.specs.declared.decl.Decl.TheVariants as decls_are;
ghost use Rattle.cdi_admission.specs.Admission.{has_long_part, is_long_one, is_long_part};

use cdi_model::{
    BeanDecl, Decl, InterceptorDecl, LIST_LIMIT, MethodDecl, ObserverDecl, PartDecl, ProducerDecl,
};

/// Whether one of the parts of a declaration has too many call sites, or too many events. It takes no memory.
pub(crate) fn has_long_part(decl: &Decl) -> bool
    ensures { result ≡ has_long_part decl.now }
{
    match decl {
        Decl::Bean(bean) => is_long_in(bean),
        Decl::Interceptor(decl) => is_long_around(decl),
        _ => false,
    }
}

fn is_long_in(bean: &BeanDecl) -> bool
    ensures { result ≡ has_long_part (decls_are.Bean bean.now) }
{
    is_long_one(&bean.construct)
        || is_long_one(&bean.post)
        || is_long_one(&bean.pre)
        || some_method_is_long(bean.methods.as_slice())
        || some_producer_is_long(bean.producers.as_slice())
        || some_observer_is_long(bean.observers.as_slice())
}

fn is_long_around(interceptor: &InterceptorDecl) -> bool
    ensures { result ≡ has_long_part (decls_are.Interceptor interceptor.now) }
{
    is_long_one(&interceptor.around_invoke)
        || is_long_one(&interceptor.around_construct)
        || is_long_one(&interceptor.post)
        || is_long_one(&interceptor.pre)
}

fn some_method_is_long(methods: &[MethodDecl]) -> bool
    ensures { result ≡ list_any (λ m. is_long_part m.part) methods.now }
{
    methods.iter().any(|method| is_long(&method.part))
}

fn some_producer_is_long(producers: &[ProducerDecl]) -> bool
    ensures { result ≡ list_any (λ p. is_long_part p.part) producers.now }
{
    producers.iter().any(|producer| is_long(&producer.part))
}

fn some_observer_is_long(observers: &[ObserverDecl]) -> bool
    ensures { result ≡ list_any (λ o. is_long_part o.part) observers.now }
{
    observers.iter().any(|observer| is_long(&observer.part))
}

/// Whether a part is there and is long.
fn is_long_one(part: &Option<PartDecl>) -> bool
    ensures { result ≡ is_long_one part.now }
{
    match part {
        Some(part) => is_long(part),
        None => false,
    }
}

fn is_long(part: &PartDecl) -> bool
    ensures { result ≡ is_long_part part.now }
{
    part.calls.len() > LIST_LIMIT || part.fires.len() > LIST_LIMIT
}
