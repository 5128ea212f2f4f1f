//! How instances are made (CDI 4.0, Lifecycle of managed beans; Lifecycle of producer methods). Here, in `invoking` and in
//! `notifying` each function is a node of `Legal`, or one or two of its cases, and its `ensures` is the tree below it. They call
//! each other as the cases do. `levels` is how many creations and frames may still be opened. After a run is out of memory,
//! nothing is said here: whoever began it clears it.
ghost use Rattle.std.specs.Prelude.{◌≡◌, ◌+◌, ◌≤◌, [], IfOk, IsSome, length, true, false};
ghost use Rattle.cdi_contexts.specs.Rising.{IsOwnerOf};
ghost use Rattle.cdi_model.specs.Quals.{list_limit};
ghost use Rattle.cdi_scene.specs.Scene.{bean_at};
ghost use Rattle.cdi_scene.specs.Sound.{AreBeans};
ghost use Rattle.cdi_legal.specs.Legal.{obtain, create, setup, inject, supply, produce};
ghost use Rattle.cdi_legal.specs.Legal.{made_is, outcome_is, failure_is, held_is};
ghost use Rattle.cdi_run.specs.Known.{Leads, IsManaged, IsProduct, AreTargets, IsOfScope, IsHosted, HostHas, IsBegun, IsSettled};

use crate::invoking::Passed;
use crate::player::Player;
use crate::words::{
    bean_in, context_of, ignored, injection_in, is_inactive, is_normal, owner_of_param, produced,
};
use arrayvec::ArrayVec;
use cdi_bodies::Bodies;
use cdi_contexts::{Actor, InstanceId, Owner};
use cdi_legal::{Entry, Made, Run};
use cdi_model::{Failure, LIST_LIMIT, Outcome, Val};
use cdi_scene::{Injection, Managed, Place, Product, Seat};
use std::alloc::AllocError;

/// What was made for the parameters of a method, and the failure that ended it.
#[derive(Drop)]
pub(crate) struct Supplied {
    pub(crate) held: ArrayVec<Option<InstanceId>, LIST_LIMIT>,
    pub(crate) failure: Option<Failure>,
}

impl<'a, B: Bodies> Player<'a, B> {
    /// The instance of a bean with a normal scope.
    #[cycle(run)]
    pub(crate) fn obtain(&self, run: &mut Run, levels: u32, bean: u32) -> Result<Made, AllocError>
        requires there { IsSome (bean_at self.now.stage.scene bean) }
        requires settled { IsSettled self.now.stage run.old.moment }
        ensures { IfOk result (λ answer. Leads self.now.stage levels (obtain bean) run.old (made_is answer) run.new) }
    {
        let scope = self.scope_of(bean);
        if is_inactive(run, scope) {
            return Ok(Made::Refused(Failure::NotActive));
        }
        match run.find(scope, bean) {
            Some(instance) => {
                if instance.is_ready {
                    Ok(Made::Instance(instance.id.number))
                } else {
                    Ok(Made::Refused(Failure::Creating))
                }
            }
            None => {
                let made = self.create(run, levels, bean, context_of(scope))?;
                Ok(made)
            }
        }
    }

    /// A new instance of a bean.
    #[cycle(run)]
    pub(crate) fn create(
        &self,
        run: &mut Run,
        levels: u32,
        bean: u32,
        owner: Owner,
    ) -> Result<Made, AllocError>
        requires there { IsSome (bean_at self.now.stage.scene bean) }
        requires owned { IsOwnerOf (run.old.moment.standing.given + 1) owner }
        requires settled { IsSettled self.now.stage run.old.moment }
        ensures { IfOk result (λ answer. Leads self.now.stage levels (create bean owner) run.old (made_is answer) run.new) }
    {
        if levels == 0 {
            return Ok(Made::Refused(Failure::Depth));
        }
        let Some(id) = run.begin(bean, owner)? else {
            return Ok(Made::Refused(Failure::Limit));
        };
        match self.setup(run, levels - 1, id)? {
            Outcome::Value(value) => {
                let product = self.product_of(bean, value);
                run.note(Entry::Ready { id, product })?;
                Ok(Made::Instance(id.number))
            }
            Outcome::Failed(failure) => {
                run.note(Entry::Broken { id, failure })?;
                self.stage.destroy_dependents(run, id.number)?;
                Ok(Made::Refused(failure))
            }
        }
    }

    /// What makes a new instance ready.
    #[cycle(run)]
    fn setup(&self, run: &mut Run, levels: u32, id: InstanceId) -> Result<Outcome, AllocError>
        requires there { IsSome (bean_at self.now.stage.scene id.bean) }
        requires newest { id.number ≡ run.old.moment.standing.given }
        requires settled { IsSettled self.now.stage run.old.moment }
        ensures { IfOk result (λ answer. Leads self.now.stage levels (setup id) run.old (outcome_is answer) run.new) }
    {
        if let Some(managed) = self.managed(id.bean) {
            let outcome = self.set_up_managed(run, levels, id, managed)?;
            return Ok(outcome);
        }
        let Some(product) = self.product(id.bean) else {
            unreachable!()
        };
        let outcome = self.set_up_product(run, levels, id, product)?;
        Ok(outcome)
    }

    /// The dependent objects, the constructor and the post-construct callbacks of a managed bean.
    #[cycle(run)]
    fn set_up_managed(
        &self,
        run: &mut Run,
        levels: u32,
        id: InstanceId,
        managed: &Managed,
    ) -> Result<Outcome, AllocError>
        requires managed { IsManaged self.now.stage id.bean managed.now }
        requires newest { id.number ≡ run.old.moment.standing.given }
        requires settled { IsSettled self.now.stage run.old.moment }
        ensures { IfOk result (λ answer. Leads self.now.stage levels (setup id) run.old (outcome_is answer) run.new) }
    {
        let injections = managed.injections.as_slice();
        if let Some(failure) = self.inject(run, levels, id, injections)? {
            return Ok(Outcome::Failed(failure));
        }
        let arg = Val::Null;
        let first = Passed { arg, link: 0 };
        let built = self.invoke(run, levels, id, Place::Construct, &[], first)?;
        match built.outcome {
            Outcome::Failed(failure) => Ok(Outcome::Failed(failure)),
            Outcome::Value(_) => {
                if !built.has_returned {
                    return Ok(Outcome::Failed(Failure::NotConstructed));
                }
                let done = self.invoke(run, levels, id, Place::Post, &[], first)?;
                Ok(ignored(done.outcome))
            }
        }
    }

    /// The declaring instance, the parameters and the producer method of a product.
    #[cycle(run)]
    fn set_up_product(
        &self,
        run: &mut Run,
        levels: u32,
        id: InstanceId,
        product: &Product,
    ) -> Result<Outcome, AllocError>
        requires product { IsProduct self.now.stage id.bean product.now }
        requires begun { id.number ≤ run.old.moment.standing.given }
        requires settled { IsSettled self.now.stage run.old.moment }
        ensures { IfOk result (λ answer. Leads self.now.stage levels (setup id) run.old (outcome_is answer) run.new) }
    {
        if product.is_static {
            let outcome = self.produce(run, levels, id, product, None)?;
            return Ok(produced(self.scope_of(id.bean), outcome));
        }
        if is_normal(self.scope_of(product.declaring)) {
            let outcome = self.produce_on_shared(run, levels, id, product)?;
            return Ok(outcome);
        }
        let outcome = self.produce_on_own(run, levels, id, product)?;
        Ok(outcome)
    }

    /// A product of the shared instance of its declaring bean.
    #[cycle(run)]
    fn produce_on_shared(
        &self,
        run: &mut Run,
        levels: u32,
        id: InstanceId,
        product: &Product,
    ) -> Result<Outcome, AllocError>
        requires product { IsProduct self.now.stage id.bean product.now }
        requires begun { id.number ≤ run.old.moment.standing.given }
        requires own { product.now.is_static ≡ false }
        requires normal { IsOfScope self.now.stage.scene product.now.declaring true }
        requires settled { IsSettled self.now.stage run.old.moment }
        ensures { IfOk result (λ answer. Leads self.now.stage levels (setup id) run.old (outcome_is answer) run.new) }
    {
        match self.obtain(run, levels, product.declaring)? {
            Made::Refused(failure) => Ok(Outcome::Failed(failure)),
            Made::Instance(number) => {
                let host = InstanceId {
                    bean: product.declaring,
                    number,
                };
                let outcome = self.produce(run, levels, id, product, Some(host))?;
                Ok(produced(self.scope_of(id.bean), outcome))
            }
        }
    }

    /// A product of an instance of its declaring bean that is made for this invocation, and destroyed after it.
    #[cycle(run)]
    fn produce_on_own(
        &self,
        run: &mut Run,
        levels: u32,
        id: InstanceId,
        product: &Product,
    ) -> Result<Outcome, AllocError>
        requires product { IsProduct self.now.stage id.bean product.now }
        requires begun { id.number ≤ run.old.moment.standing.given }
        requires own { product.now.is_static ≡ false }
        requires dependent { IsOfScope self.now.stage.scene product.now.declaring false }
        requires settled { IsSettled self.now.stage run.old.moment }
        ensures { IfOk result (λ answer. Leads self.now.stage levels (setup id) run.old (outcome_is answer) run.new) }
    {
        match self.create(run, levels, product.declaring, Owner::Nobody)? {
            Made::Refused(failure) => Ok(Outcome::Failed(failure)),
            Made::Instance(number) => {
                let host = InstanceId {
                    bean: product.declaring,
                    number,
                };
                let outcome = self.produce(run, levels, id, product, Some(host))?;
                self.stage.destroy(run, host)?;
                Ok(produced(self.scope_of(id.bean), outcome))
            }
        }
    }

    /// The invocation of a producer method, on its host unless it is static.
    #[cycle(run)]
    fn produce(
        &self,
        run: &mut Run,
        levels: u32,
        id: InstanceId,
        product: &Product,
        host: Option<InstanceId>,
    ) -> Result<Outcome, AllocError>
        requires product { IsProduct self.now.stage id.bean product.now }
        requires begun { id.number ≤ run.old.moment.standing.given }
        requires hosted { IsHosted product.now host }
        requires settled { IsSettled self.now.stage run.old.moment }
        requires has { HostHas self.now.stage.scene run.old.moment.standing.live product.now host }
        ensures { IfOk result (λ answer.
            Leads self.now.stage levels (produce id product.now host) run.old (outcome_is answer) run.new) }
    {
        let params = product.params.as_slice();
        let supplied = self.supply(run, levels, Some(id), params)?;
        if let Some(failure) = supplied.failure {
            return Ok(Outcome::Failed(failure));
        }
        let place = Place::Producer(id.bean);
        let arg = Val::Null;
        let first = Passed { arg, link: 0 };
        match host {
            None => {
                let seat = Seat {
                    bean: product.declaring,
                    number: None,
                    actor: Actor::Target,
                    place,
                };
                let given = self.frame(run, levels, seat, &supplied.held, first)?;
                Ok(given.outcome)
            }
            Some(host) => {
                let given = self.invoke(run, levels, host, place, &supplied.held, first)?;
                Ok(given.outcome)
            }
        }
    }

    /// The dependent objects for the injection points of a new instance.
    #[cycle(run)]
    fn inject(
        &self,
        run: &mut Run,
        levels: u32,
        id: InstanceId,
        injections: &[Injection],
    ) -> Result<Option<Failure>, AllocError>
        requires beans { AreTargets self.now.stage.scene injections.now }
        requires begun { id.number ≤ run.old.moment.standing.given }
        requires settled { IsSettled self.now.stage run.old.moment }
        ensures { IfOk result (λ answer.
            Leads self.now.stage levels (inject id injections.now 0) run.old (failure_is answer) run.new) }
    {
        for position in 0..injections.len() {
            let injection = injection_in(injections, position);
            if is_normal(self.scope_of(injection.bean)) {
                continue;
            }
            let owner = Owner::Point {
                instance: id.number,
                actor: injection.actor,
                point: injection.point,
            };
            match self.create(run, levels, injection.bean, owner)? {
                Made::Instance(_) => {}
                Made::Refused(failure) => return Ok(Some(failure)),
            }
        }
        Ok(None)
    }

    /// The dependent objects for the parameters of a method: those of a product belong to it.
    #[cycle(run)]
    pub(crate) fn supply(
        &self,
        run: &mut Run,
        levels: u32,
        product: Option<InstanceId>,
        params: &[u32],
    ) -> Result<Supplied, AllocError>
        requires beans { AreBeans self.now.stage.scene params.now }
        requires few { length params.now ≤ list_limit }
        requires begun { IsBegun run.old.moment.standing.given product }
        requires settled { IsSettled self.now.stage run.old.moment }
        ensures { IfOk result (λ answer.
            Leads self.now.stage levels (supply product params.now 0 []) run.old (held_is answer.held.items answer.failure) run.new) }
    {
        let mut held = ArrayVec::new();
        for param in 0..params.len() {
            let bean = bean_in(params, param);
            if is_normal(self.scope_of(bean)) {
                held.push(None);
                continue;
            }
            let owner = owner_of_param(product, param as u32);
            match self.create(run, levels, bean, owner)? {
                Made::Instance(number) => held.push(Some(InstanceId { bean, number })),
                Made::Refused(failure) => {
                    return Ok(Supplied {
                        held,
                        failure: Some(failure),
                    });
                }
            }
        }
        Ok(Supplied {
            held,
            failure: None,
        })
    }
}
