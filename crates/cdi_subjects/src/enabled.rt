//! Whether what is at a place of a declaration belongs to an enabled bean or interceptor (CDI 4.0, Enabled and disabled
//! beans).
ghost use Rattle.std.specs.Prelude.{◌≡◌};
ghost use Rattle.cdi_subjects.specs.Filter.{has_enabled, is_enabled_in, producer_of_part, producer_of_point};

use cdi_effective::Effective;
use cdi_model::{Decl, Ident, PartPlace, PointPlace};

/// Whether the bean of a declaration that has these is enabled which comes from a producer method, or from none; or the
/// interceptor.
pub(crate) fn is_enabled_in(decl: &Decl, beans: &[Effective], producer: Option<Ident>) -> bool
    ensures { result ≡ is_enabled_in decl.now beans.now producer }
{
    match decl {
        Decl::Interceptor(interceptor) => interceptor.priority.is_some(),
        _ => has_enabled(beans, producer),
    }
}

fn has_enabled(beans: &[Effective], producer: Option<Ident>) -> bool
    ensures { result ≡ has_enabled beans.now producer }
{
    beans
        .iter()
        .any(|bean| bean.id.producer == producer && bean.is_enabled)
}

/// The producer method to whose product an injection point belongs.
pub(crate) fn producer_of_point(place: &PointPlace) -> Option<Ident>
    ensures { result ≡ producer_of_point place.now }
{
    match place {
        PointPlace::Producer(name) => Some(*name),
        _ => None,
    }
}

/// The producer method to whose product a body belongs.
pub(crate) fn producer_of_part(place: &PartPlace) -> Option<Ident>
    ensures { result ≡ producer_of_part place.now }
{
    match place {
        PartPlace::Producer(name) | PartPlace::StaticProducer(name) => Some(*name),
        _ => None,
    }
}
