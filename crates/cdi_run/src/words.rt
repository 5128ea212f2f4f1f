//! The words of the definitions as tests and values: what scopes, outcomes and sites amount to.
ghost use Rattle.std.specs.Prelude.{◌≡◌, ◌<◌, ◌↔◌, ◌||◌, length, slice_get, false, IsTrue, Some};
ghost use Rattle.cdi_model.specs.declared.outcome.Outcome.TheVariants.{Failed};
ghost use Rattle.cdi_legal.specs.Ends.{seat_on};
ghost use Rattle.cdi_contexts.specs.Owned.{context_of};
ghost use Rattle.cdi_legal.specs.Acts.{ignored, has_returned};
ghost use Rattle.cdi_legal.specs.Legal.{is_normal, IsInactive, IsSkipped, produced, dependent_of, for_param, answered};

use cdi_contexts::{Actor, InstanceId, Owner};
use cdi_legal::{Answered, Run};
use cdi_model::{Failure, Outcome, Scope, Val};
use cdi_scene::{CallSite, Injection, Notified, Observer, Part, Place, Seat, Via};

/// Whether it is a normal scope (CDI 4.0, Normal scopes and pseudo-scopes).
pub(crate) fn is_normal(scope: Scope) -> bool
    ensures { result ≡ is_normal scope }
{
    match scope {
        Scope::Dependent => false,
        Scope::Request | Scope::Application => true,
    }
}

/// Whom the shared instance of a bean with this scope belongs to.
pub(crate) fn context_of(scope: Scope) -> Owner
    ensures { result ≡ context_of scope }
{
    match scope {
        Scope::Request => Owner::Request,
        Scope::Application => Owner::Application,
        Scope::Dependent => Owner::Nobody,
    }
}

/// Whether the scope is that of requests, and none is active.
pub(crate) fn is_inactive(run: &Run, scope: Scope) -> bool
    ensures { IsTrue result ↔ IsInactive scope run.now.moment }
{
    match scope {
        Scope::Request => !run.is_active(),
        Scope::Dependent | Scope::Application => false,
    }
}

/// What a producer method gives: null only for a dependent product.
pub(crate) fn produced(scope: Scope, outcome: Outcome) -> Outcome
    ensures { result ≡ produced scope outcome }
{
    match outcome {
        Outcome::Failed(_) => outcome,
        Outcome::Value(Val::Int(_)) => outcome,
        Outcome::Value(Val::Null) => match scope {
            Scope::Dependent => outcome,
            Scope::Request | Scope::Application => Outcome::Failed(Failure::IllegalProduct),
        },
    }
}

/// The outcome with its value ignored.
pub(crate) fn ignored(outcome: Outcome) -> Outcome
    ensures { result ≡ ignored outcome }
{
    match outcome {
        Outcome::Value(_) => Outcome::Value(Val::Null),
        Outcome::Failed(_) => outcome,
    }
}

/// Whether the bean's own body has given a value.
pub(crate) fn has_returned(actor: Actor, outcome: Outcome, within: bool) -> bool
    ensures { result ≡ has_returned actor outcome within }
{
    match actor {
        Actor::Target => match outcome {
            Outcome::Value(_) => true,
            Outcome::Failed(_) => false,
        },
        Actor::Interceptor(_) => within,
    }
}

/// Whether an observer is not notified.
pub(crate) fn is_skipped(run: &Run, notified: Notified, observer: &Observer, scope: Scope) -> bool
    ensures { IsTrue result ↔ IsSkipped notified observer.now scope run.now.moment }
{
    if is_inactive(run, scope) {
        return true;
    }
    if !observer.is_conditional {
        return false;
    }
    match run.find(scope, notified.bean) {
        Some(instance) => !instance.is_ready,
        None => true,
    }
}

/// The number of the dependent object that was made for a point of whoever runs at a seat, or for a parameter.
pub(crate) fn dependent_of(
    run: &Run,
    seat: Seat,
    held: &[Option<InstanceId>],
    via: Via,
) -> Option<u64>
    ensures { result ≡ dependent_of run.now.moment.standing.live seat held.now via }
{
    match via {
        Via::Own(point) => match seat.number {
            Some(number) => match run.made_for(number, seat.actor, point) {
                Some(instance) => Some(instance.id.number),
                None => None,
            },
            None => None,
        },
        Via::Param(param) => match held.get(param as usize) {
            Some(Some(id)) => Some(id.number),
            _ => None,
        },
    }
}

/// A seat on an instance.
pub(crate) fn seat_on(id: InstanceId, actor: Actor, place: Place) -> Seat
    ensures { result ≡ seat_on id actor place }
{
    Seat {
        bean: id.bean,
        number: Some(id.number),
        actor,
        place,
    }
}

/// Whom the instance for a parameter belongs to: the product, or nobody where an observer is notified.
pub(crate) fn owner_of_param(product: Option<InstanceId>, param: u32) -> Owner
    ensures { result ≡ for_param product param }
{
    match product {
        Some(id) => Owner::Point {
            instance: id.number,
            actor: Actor::Target,
            point: param,
        },
        None => Owner::Nobody,
    }
}

/// A failure, and whether the bean's own body has given a value.
pub(crate) fn failed(failure: Failure, has_returned: bool) -> Answered
    ensures { result ≡ answered (Failed failure) has_returned }
{
    Answered {
        outcome: Outcome::Failed(failure),
        has_returned,
    }
}

/// What an act gave that proceeds to nothing.
pub(crate) fn unreturned(outcome: Outcome) -> Answered
    ensures { result ≡ answered outcome false }
{
    Answered {
        outcome,
        has_returned: false,
    }
}

/// Whether one of both holds.
pub(crate) fn or(first: bool, second: bool) -> bool
    ensures { result ≡ (first || second) }
{
    first || second
}

/// What is called at a call site.
pub(crate) fn site_in(part: &Part, site: u8) -> CallSite
    requires { site < length part.now.calls }
    ensures { slice_get part.now.calls site ≡ Some result }
{
    part.calls.as_slice()[site as usize]
}

/// Who is notified at a fire site.
pub(crate) fn observers_in(part: &Part, site: u8) -> &[Notified]
    requires { site < length part.now.fires }
    ensures { slice_get part.now.fires site ≡ Some result.now }
{
    part.fires.as_slice()[site as usize].as_slice()
}

/// The injection point at a position.
pub(crate) fn injection_in(injections: &[Injection], position: usize) -> Injection
    requires { position < length injections.now }
    ensures { slice_get injections.now position ≡ Some result }
{
    injections[position]
}

/// The bean for a parameter.
pub(crate) fn bean_in(params: &[u32], param: usize) -> u32
    requires { param < length params.now }
    ensures { slice_get params.now param ≡ Some result }
{
    params[param]
}

/// The observer at a position.
pub(crate) fn notified_in(observers: &[Notified], position: usize) -> Notified
    requires { position < length observers.now }
    ensures { slice_get observers.now position ≡ Some result }
{
    observers[position]
}
