//! What is at the positions that a trace has.
ghost use Rattle.std.specs.Prelude.{◌≡◌, option_copied, option_map};
ghost use Rattle.cdi_trace.specs.Names.{bean_told, method_told, observer_told, interceptor_told};
ghost use Rattle.cdi_trace.specs.Names.{sites_told, sites_around, sites_by, call_told, fire_told};

use cdi_contexts::Actor;
use cdi_model::{CallDecl, EventDecl};
use cdi_scene::{Place, Seat};
use cdi_staging::{BeanNames, InterceptorNames, MethodNames, Names, SiteNames};

pub(crate) fn bean_in(names: &Names, position: u32) -> Option<&BeanNames>
    ensures { option_copied result ≡ bean_told names.now position }
{
    names.beans.as_slice().get(position as usize)
}

pub(crate) fn method_in(names: &Names, bean: u32, position: u32) -> Option<&MethodNames>
    ensures { option_copied result ≡ method_told names.now bean position }
{
    let bean = bean_in(names, bean)?;
    bean.methods.as_slice().get(position as usize)
}

pub(crate) fn observer_in(names: &Names, bean: u32, position: u32) -> Option<&MethodNames>
    ensures { option_copied result ≡ observer_told names.now bean position }
{
    let bean = bean_in(names, bean)?;
    bean.observers.as_slice().get(position as usize)
}

pub(crate) fn interceptor_in(names: &Names, position: u32) -> Option<&InterceptorNames>
    ensures { option_copied result ≡ interceptor_told names.now position }
{
    names.interceptors.as_slice().get(position as usize)
}

/// The sites at a place of a bean.
fn sites_at(names: &Names, bean: u32, place: Place) -> Option<&SiteNames>
    ensures { option_copied result ≡ sites_told names.now bean place }
{
    match place {
        Place::Construct => Some(&bean_in(names, bean)?.construct),
        Place::Post => Some(&bean_in(names, bean)?.post),
        Place::Pre => Some(&bean_in(names, bean)?.pre),
        Place::Method(position) => Some(&method_in(names, bean, position)?.sites),
        Place::Producer(product) => Some(&bean_in(names, product)?.produces),
        Place::Disposer(_) => None,
        Place::Observer(position) => Some(&observer_in(names, bean, position)?.sites),
    }
}

/// The sites of an interceptor's part for a place.
fn sites_around(names: &Names, position: u32, place: Place) -> Option<&SiteNames>
    ensures { option_copied result ≡ option_map (sites_around place) (interceptor_told names.now position) }
{
    let interceptor = interceptor_in(names, position)?;
    match place {
        Place::Construct => Some(&interceptor.around_construct),
        Place::Post => Some(&interceptor.post),
        Place::Pre => Some(&interceptor.pre),
        Place::Method(_) | Place::Producer(_) | Place::Disposer(_) | Place::Observer(_) => {
            Some(&interceptor.around_invoke)
        }
    }
}

/// The sites of whoever runs at a seat.
fn sites_by(names: &Names, seat: Seat) -> Option<&SiteNames>
    ensures { option_copied result ≡ sites_by names.now seat.bean seat.place seat.actor }
{
    match seat.actor {
        Actor::Target => sites_at(names, seat.bean, seat.place),
        Actor::Interceptor(position) => sites_around(names, position, seat.place),
    }
}

pub(crate) fn call_in(names: &Names, seat: Seat, site: usize) -> Option<&CallDecl>
    ensures { option_copied result ≡ call_told names.now seat site }
{
    sites_by(names, seat)?.calls.as_slice().get(site)
}

pub(crate) fn fire_in(names: &Names, seat: Seat, site: usize) -> Option<&EventDecl>
    ensures { option_copied result ≡ fire_told names.now seat site }
{
    sites_by(names, seat)?.fires.as_slice().get(site)
}
