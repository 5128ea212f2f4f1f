//! Verdicts on beans and interceptors.
ghost use Rattle.std.specs.Prelude.{◌≡◌};
ghost use Rattle.cdi_explain.specs.Verdicts.{unless_disabled, why_disabled};

use cdi_effective::Effective;

/// Why a bean was taken or left, where a bean of a type with some qualifiers, or the bean of a name, was wanted.
#[derive(Clone, Copy, PartialEq, Eq, Debug)]
pub enum Verdict {
    /// It is the chosen bean.
    Chosen,
    /// It is one of several that are left, so none is chosen.
    Tied,
    /// It is an alternative, or the product of one, and an eligible one of a greater priority is there.
    LowerPriority,
    /// It is neither an alternative nor the product of one, and an eligible alternative is there.
    NoAlternative,
    /// It does not have the type.
    LacksType,
    /// It has no qualifier that covers a wanted one: the first of these, by its position among those that are asked for. At
    /// `has` is the position of its first qualifier of that name, whose members differ.
    LacksQualifier { wanted: usize, has: Option<usize> },
    /// It does not have the name.
    LacksName,
    /// It has the type and the qualifiers, or the name, and is disabled.
    Disabled(Disabled),
}

/// Why a bean is disabled (CDI 4.0, Enabled and disabled beans; Specialization).
#[derive(Clone, Copy, PartialEq, Eq, Debug)]
pub enum Disabled {
    /// It is an alternative without a priority.
    NoPriority,
    /// Another bean specializes it.
    Specialized,
    /// It is a product, and the bean that declares it is disabled.
    Declaring,
}

/// Why an interceptor is called or left at a place of a bean.
#[derive(Clone, Copy, PartialEq, Eq, Debug)]
pub enum InterceptorVerdict {
    /// It is in the chain of the place.
    Called,
    /// It has no method for a place of this kind.
    LacksBody,
    /// It has one, and declares no binding.
    NoBinding,
    /// No binding at the place covers one that it declares: the first of these, by its position among those.
    LacksBinding(usize),
    /// It has a method and the bindings, and is not enabled by a priority.
    Disabled,
}

/// The verdict on a bean, where this is the one if it is enabled.
pub(crate) fn unless_disabled(bean: &Effective, among: Verdict) -> Verdict
    ensures { result ≡ unless_disabled bean.now among }
{
    if bean.is_enabled {
        among
    } else {
        Verdict::Disabled(why_disabled(bean))
    }
}

/// Why a bean that is not enabled is disabled.
fn why_disabled(bean: &Effective) -> Disabled
    ensures { result ≡ why_disabled bean.now }
{
    if bean.is_alternative && bean.priority.is_none() {
        return Disabled::NoPriority;
    }
    match bean.id.producer {
        Some(_) => Disabled::Declaring,
        None => Disabled::Specialized,
    }
}
