//! Events (CDI 4.0, Observer notification; Observer ordering), of the cycle that `making` describes.
ghost use Rattle.std.specs.Prelude.{IfOk, true, false};
ghost use Rattle.cdi_scene.specs.Sound.{IsSoundNotified, AreObservers};
ghost use Rattle.cdi_legal.specs.Furnished.{HasDependents};
ghost use Rattle.cdi_legal.specs.Legal.{fire, notify, attend, outcome_is};
ghost use Rattle.cdi_run.specs.Known.{Leads, IsObserver, IsNotifiedIn, IsSettled};

use crate::invoking::Passed;
use crate::player::Player;
use crate::words::{is_normal, is_skipped, notified_in};
use cdi_bodies::Bodies;
use cdi_contexts::{InstanceId, Owner};
use cdi_legal::{Entry, Made, Run};
use cdi_model::{Outcome, Val};
use cdi_scene::{Notified, Observer, Place};
use std::alloc::AllocError;

impl<'a, B: Bodies> Player<'a, B> {
    /// Notifies some observers in order, up to the first failure.
    #[cycle(run)]
    pub(crate) fn notify_each(
        &self,
        run: &mut Run,
        levels: u32,
        observers: &[Notified],
        arg: Val,
    ) -> Result<Outcome, AllocError>
        requires observers { AreObservers self.now.stage.scene observers.now }
        requires settled { IsSettled self.now.stage run.old.moment }
        ensures { IfOk result (λ answer. Leads self.now.stage levels (fire observers.now 0 arg) run.old (outcome_is answer) run.new) }
    {
        for position in 0..observers.len() {
            let notified = notified_in(observers, position);
            match self.notify(run, levels, notified, arg)? {
                Outcome::Value(_) => {}
                Outcome::Failed(failure) => return Ok(Outcome::Failed(failure)),
            }
        }
        Ok(Outcome::Value(Val::Null))
    }

    /// Notifies one observer, unless it is skipped.
    #[cycle(run)]
    fn notify(
        &self,
        run: &mut Run,
        levels: u32,
        notified: Notified,
        arg: Val,
    ) -> Result<Outcome, AllocError>
        requires notified { IsSoundNotified self.now.stage.scene notified }
        requires settled { IsSettled self.now.stage run.old.moment }
        ensures { IfOk result (λ answer. Leads self.now.stage levels (notify notified arg) run.old (outcome_is answer) run.new) }
    {
        let Some(observer) = self.observer(notified.bean, notified.observer) else {
            unreachable!()
        };
        let scope = self.scope_of(notified.bean);
        if is_skipped(run, notified, observer, scope) {
            run.note(Entry::Skip { observer: notified })?;
            return Ok(Outcome::Value(Val::Null));
        }
        if is_normal(scope) {
            let outcome = self.notify_shared(run, levels, notified, observer, arg)?;
            return Ok(outcome);
        }
        let outcome = self.notify_own(run, levels, notified, observer, arg)?;
        Ok(outcome)
    }

    /// Notifies an observer on the instance of its bean.
    #[cycle(run)]
    fn notify_shared(
        &self,
        run: &mut Run,
        levels: u32,
        notified: Notified,
        observer: &Observer,
        arg: Val,
    ) -> Result<Outcome, AllocError>
        requires observer { IsObserver self.now.stage notified.bean notified.observer observer.now }
        requires goes_on { IsNotifiedIn self.now.stage.scene notified observer.now true run.old.moment }
        requires settled { IsSettled self.now.stage run.old.moment }
        ensures { IfOk result (λ answer. Leads self.now.stage levels (notify notified arg) run.old (outcome_is answer) run.new) }
    {
        match self.obtain(run, levels, notified.bean)? {
            Made::Refused(failure) => Ok(Outcome::Failed(failure)),
            Made::Instance(number) => {
                let id = InstanceId {
                    bean: notified.bean,
                    number,
                };
                let outcome = self.attend(run, levels, id, notified.observer, observer, arg)?;
                Ok(outcome)
            }
        }
    }

    /// Notifies an observer on an instance of its bean that is made for this notification, and destroyed after it.
    #[cycle(run)]
    fn notify_own(
        &self,
        run: &mut Run,
        levels: u32,
        notified: Notified,
        observer: &Observer,
        arg: Val,
    ) -> Result<Outcome, AllocError>
        requires observer { IsObserver self.now.stage notified.bean notified.observer observer.now }
        requires goes_on { IsNotifiedIn self.now.stage.scene notified observer.now false run.old.moment }
        requires settled { IsSettled self.now.stage run.old.moment }
        ensures { IfOk result (λ answer. Leads self.now.stage levels (notify notified arg) run.old (outcome_is answer) run.new) }
    {
        match self.create(run, levels, notified.bean, Owner::Nobody)? {
            Made::Refused(failure) => Ok(Outcome::Failed(failure)),
            Made::Instance(number) => {
                let id = InstanceId {
                    bean: notified.bean,
                    number,
                };
                let outcome = self.attend(run, levels, id, notified.observer, observer, arg)?;
                self.stage.destroy(run, id)?;
                Ok(outcome)
            }
        }
    }

    /// Notifies an observer on an instance, with what is made for its parameters, which is destroyed after it.
    #[cycle(run)]
    fn attend(
        &self,
        run: &mut Run,
        levels: u32,
        id: InstanceId,
        position: u32,
        observer: &Observer,
        arg: Val,
    ) -> Result<Outcome, AllocError>
        requires observer { IsObserver self.now.stage id.bean position observer.now }
        requires settled { IsSettled self.now.stage run.old.moment }
        requires has { HasDependents self.now.stage.scene run.old.moment.standing.live id }
        ensures { IfOk result (λ answer.
            Leads self.now.stage levels (attend id position observer.now arg) run.old (outcome_is answer) run.new) }
    {
        let place = Place::Observer(position);
        let first = Passed { arg, link: 0 };
        let params = observer.params.as_slice();
        if params.is_empty() {
            let given = self.invoke(run, levels, id, place, &[], first)?;
            return Ok(given.outcome);
        }
        let supplied = self.supply(run, levels, None, params)?;
        match supplied.failure {
            Some(failure) => {
                self.stage.destroy_held(run, &supplied.held)?;
                Ok(Outcome::Failed(failure))
            }
            None => {
                let given = self.invoke(run, levels, id, place, &supplied.held, first)?;
                self.stage.destroy_held(run, &supplied.held)?;
                Ok(given.outcome)
            }
        }
    }
}
