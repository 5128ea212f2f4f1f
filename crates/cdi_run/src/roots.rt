//! Where runs begin: lookups, calls and events, and the ends of contexts.
ghost use Rattle.std.specs.Prelude.{◌≡◌, ◌≤◌, [], IfOk, IsOk, OnOk, OnErr, IsSome};
ghost use Rattle.cdi_scene.specs.Scene.{bean_at};
ghost use Rattle.cdi_scene.specs.Sound.{AreObservers};
ghost use Rattle.cdi_contexts.specs.Standing.{closed, cleared};
ghost use Rattle.cdi_legal.specs.Follows.{Follows, after};
ghost use Rattle.cdi_legal.specs.Furnished.{HasDependents, IsFurnished};
ghost use Rattle.cdi_legal.specs.Keeps.{Keeps};
ghost use Rattle.cdi_legal.specs.Laws.{HasCause, IsFaultless, IsOrdered};
ghost use Rattle.cdi_legal.specs.LegalRun.{LegalRun, LegalRequestEnd, LegalEnd, Runs, Uses, use_bean, notify_all};
ghost use Rattle.cdi_legal.specs.Moment.{beginning};
ghost use Rattle.cdi_legal.specs.Rooted.{IsRooted};
ghost use Rattle.cdi_ending.specs.Room.{cost_from};
ghost use Rattle.cdi_run.specs.Known.{IsUsable, EndsAll, IsSettled, StaysFurnished, StaysRooted, StaysSingle};
ghost use Rattle.cdi_run.specs.Uses.{use_of};

use crate::invoking::Passed;
use crate::player::Player;
use crate::words::is_normal;
use cdi_bodies::Bodies;
use cdi_contexts::{Actor, InstanceId, Owner};
use cdi_legal::{Made, Run};
use cdi_model::{Outcome, Scope, Val};
use cdi_scene::{Notified, Place, position_at};
use std::alloc::AllocError;

/// How many creations and frames may be open (profile).
const DEPTH: u32 = 32;

/// What is done with an instance: its state is looked up, or a method is called with an argument.
#[derive(Clone, Copy, PartialEq, Eq, Debug)]
pub enum Purpose {
    /// The state of the instance.
    State,
    /// What a method answers. A product has one, which answers its state.
    Answer { method: usize, arg: Val },
}

/// Each public call is a whole command: the entries of the command before are cleared, those that it pushes are those of a
/// legal run, in order, and the contexts follow from them. After running out of memory no instance is live, no request is
/// active and the trace is empty; numbers go on from where they were. But where contexts were to end, all is as it was.
impl<'a, B: Bodies> Player<'a, B> {
    /// A lookup or a call: the shared instance of a bean with a normal scope is used, and an instance of a dependent bean is
    /// made for this use and destroyed before the answer (the latter: profile).
    pub fn use_one(
        &self,
        run: &mut Run,
        bean: usize,
        purpose: Purpose,
    ) -> Result<Outcome, AllocError>
        requires there { IsSome (bean_at self.now.stage.scene bean) }
        requires usable { IsUsable self.now.stage.scene bean purpose }
        requires furnished { IsFurnished self.now.stage.scene run.old.moment.standing.live }
        ensures legal { let before = run.old.moment.standing in let now = run.new.moment in
            IfOk result (λ outcome. LegalRun self.now.stage.scene (use_bean bean (use_of purpose)) before
            now.trace outcome now.standing) }
        ensures follows { OnOk result (Follows (beginning run.old.moment.standing) run.new.moment) }
        ensures single { OnOk result (StaysSingle self.now.stage.scene (beginning run.old.moment.standing) run.new.moment) }
        ensures kept { OnOk result (Keeps (beginning run.old.moment.standing) run.new.moment) }
        ensures furnished { IsFurnished self.now.stage.scene run.new.moment.standing.live }
        ensures rooted { StaysRooted (beginning run.old.moment.standing) run.new.moment }
        ensures ordered { OnOk result (IsOrdered self.now.stage.scene run.new.moment.trace) }
        ensures faultless { OnOk result (IsFaultless self.now.stage.promises self.now.stage.scene run.new.moment.trace) }
        ensures budget { OnOk result (run.new.moment.asked ≤ 20000) }
        ensures cause { IfOk result (HasCause self.now.stage.scene run.old.moment.standing run.new.moment) }
        ensures out_of_memory { OnErr result (run.new.moment ≡ beginning (cleared run.old.moment.standing.given)) }
    {
        let given = run.given();
        // No effect at run time. The proof reads here that the scene is sound.
        let _ = self.stage.scene();
        run.restart();
        match self.use_either(run, bean, purpose) {
            Ok(outcome) => Ok(outcome),
            Err(error) => {
                run.clear(given);
                Err(error)
            }
        }
    }

    /// An event for some observers, in order, up to the first failure (CDI 4.0, Observer notification).
    pub fn fire(
        &self,
        run: &mut Run,
        observers: &[Notified],
        arg: Val,
    ) -> Result<Outcome, AllocError>
        requires observers { AreObservers self.now.stage.scene observers.now }
        requires furnished { IsFurnished self.now.stage.scene run.old.moment.standing.live }
        ensures legal { let before = run.old.moment.standing in let now = run.new.moment in
            IfOk result (λ outcome. LegalRun self.now.stage.scene (notify_all observers.now arg) before
            now.trace outcome now.standing) }
        ensures follows { OnOk result (Follows (beginning run.old.moment.standing) run.new.moment) }
        ensures single { OnOk result (StaysSingle self.now.stage.scene (beginning run.old.moment.standing) run.new.moment) }
        ensures kept { OnOk result (Keeps (beginning run.old.moment.standing) run.new.moment) }
        ensures furnished { IsFurnished self.now.stage.scene run.new.moment.standing.live }
        ensures rooted { StaysRooted (beginning run.old.moment.standing) run.new.moment }
        ensures ordered { OnOk result (IsOrdered self.now.stage.scene run.new.moment.trace) }
        ensures faultless { OnOk result (IsFaultless self.now.stage.promises self.now.stage.scene run.new.moment.trace) }
        ensures budget { OnOk result (run.new.moment.asked ≤ 20000) }
        ensures cause { IfOk result (HasCause self.now.stage.scene run.old.moment.standing run.new.moment) }
        ensures out_of_memory { OnErr result (run.new.moment ≡ beginning (cleared run.old.moment.standing.given)) }
    {
        let given = run.given();
        // No effect at run time. The proof reads here that the scene is sound.
        let _ = self.stage.scene();
        run.restart();
        match self.notify_each(run, DEPTH, observers, arg) {
            Ok(outcome) => Ok(outcome),
            Err(error) => {
                run.clear(given);
                Err(error)
            }
        }
    }

    /// Ends the request context, and then no request is active (CDI 4.0, Context management for built-in scopes). Whether
    /// one was active is the caller's to ask. Memory is taken before the first callback only: where it runs out, nothing has
    /// changed.
    pub fn end_request(&self, run: &mut Run) -> Result<(), AllocError>
        ensures legal { let before = run.old.moment.standing in let now = run.new.moment in
            OnOk result (LegalRequestEnd self.now.stage.scene before now.trace now.standing) }
        ensures follows { let before = run.old.moment.standing in let now = run.new.moment in
            OnOk result (now.standing ≡ closed (after before now.trace)) }
        ensures single { OnOk result (StaysSingle self.now.stage.scene (beginning run.old.moment.standing) run.new.moment) }
        ensures furnished { StaysFurnished self.now.stage.scene (beginning run.old.moment.standing) run.new.moment }
        ensures rooted { StaysRooted (beginning run.old.moment.standing) run.new.moment }
        ensures ordered { OnOk result (IsOrdered self.now.stage.scene run.new.moment.trace) }
        ensures faultless { OnOk result (IsFaultless self.now.stage.promises self.now.stage.scene run.new.moment.trace) }
        ensures out_of_memory { OnErr result (run.new.moment ≡ run.old.moment) }
    {
        // Owners are older than what was made for them, and the scene is sound: the proof reads it here.
        let _rising = run.given();
        let _ = self.stage.scene();
        self.stage.reserve_ends(run)?;
        run.restart_in_room();
        match self.stage.end_context(run, Scope::Request) {
            Ok(()) => {
                run.close();
                Ok(())
            }
            Err(_) => unreachable!(),
        }
    }

    /// Ends the request context and then the application context, and then no request is active (CDI 4.0, Context
    /// management for built-in scopes). Memory is taken before the first callback only: where it runs out, nothing has
    /// changed.
    pub fn end_contexts(&self, run: &mut Run) -> Result<(), AllocError>
        ensures legal { let before = run.old.moment.standing in let now = run.new.moment in
            OnOk result (LegalEnd self.now.stage.scene before now.trace now.standing) }
        ensures follows { let before = run.old.moment.standing in let now = run.new.moment in
            OnOk result (now.standing ≡ closed (after before now.trace)) }
        ensures single { OnOk result (StaysSingle self.now.stage.scene (beginning run.old.moment.standing) run.new.moment) }
        ensures furnished { StaysFurnished self.now.stage.scene (beginning run.old.moment.standing) run.new.moment }
        ensures rooted { StaysRooted (beginning run.old.moment.standing) run.new.moment }
        ensures nothing { OnOk result (IsRooted run.old.moment.standing.live → run.new.moment.standing.live ≡ []) }
        ensures ordered { OnOk result (IsOrdered self.now.stage.scene run.new.moment.trace) }
        ensures faultless { OnOk result (IsFaultless self.now.stage.promises self.now.stage.scene run.new.moment.trace) }
        ensures out_of_memory { OnErr result (run.new.moment ≡ run.old.moment) }
    {
        // Owners are older than what was made for them, and the scene is sound: the proof reads it here.
        let _rising = run.given();
        let _ = self.stage.scene();
        self.stage.reserve_ends(run)?;
        run.restart_in_room();
        match self.end_both(run) {
            Ok(()) => {
                run.close();
                Ok(())
            }
            Err(_) => unreachable!(),
        }
    }

    /// A lookup or a call: the bean's instance is obtained; a dependent one is made, and destroyed before the answer.
    fn use_either(
        &self,
        run: &mut Run,
        bean: usize,
        purpose: Purpose,
    ) -> Result<Outcome, AllocError>
        requires there { IsSome (bean_at self.now.stage.scene bean) }
        requires usable { IsUsable self.now.stage.scene bean purpose }
        requires settled { IsSettled self.now.stage run.old.moment }
        ensures { IfOk result (λ outcome.
            Runs self.now.stage.scene (use_bean bean (use_of purpose)) run.old.moment outcome run.new.moment) }
    {
        let bean = position_at(bean)?;
        if is_normal(self.scope_of(bean)) {
            return match self.obtain(run, DEPTH, bean)? {
                Made::Refused(failure) => Ok(Outcome::Failed(failure)),
                Made::Instance(number) => {
                    let outcome = self.use_instance(run, InstanceId { bean, number }, purpose)?;
                    Ok(outcome)
                }
            };
        }
        match self.create(run, DEPTH, bean, Owner::Nobody)? {
            Made::Refused(failure) => Ok(Outcome::Failed(failure)),
            Made::Instance(number) => {
                let id = InstanceId { bean, number };
                let outcome = self.use_instance(run, id, purpose)?;
                self.stage.destroy(run, id)?;
                Ok(outcome)
            }
        }
    }

    /// Looks up the state of an instance, or calls a method of it.
    fn use_instance(
        &self,
        run: &mut Run,
        id: InstanceId,
        purpose: Purpose,
    ) -> Result<Outcome, AllocError>
        requires usable { IsUsable self.now.stage.scene id.bean purpose }
        requires settled { IsSettled self.now.stage run.old.moment }
        requires has { HasDependents self.now.stage.scene run.old.moment.standing.live id }
        ensures { IfOk result (λ outcome.
            Uses self.now.stage.scene id (use_of purpose) run.old.moment outcome run.new.moment) }
    {
        match purpose {
            Purpose::State => Ok(Outcome::Value(run.load(id.number, Actor::Target))),
            Purpose::Answer { method, arg } => {
                if self.product(id.bean).is_some() {
                    return Ok(Outcome::Value(run.load(id.number, Actor::Target)));
                }
                let place = Place::Method(position_at(method)?);
                let given = self.invoke(run, DEPTH, id, place, &[], Passed { arg, link: 0 })?;
                Ok(given.outcome)
            }
        }
    }

    /// Ends both contexts.
    fn end_both(&self, run: &mut Run) -> Result<(), AllocError>
        ensures ends { OnOk result (EndsAll self.now.stage.scene run.old.moment run.new.moment) }
        ensures possible { let live = run.old.moment.standing.live in
            cost_from self.now.stage.scene 0 live ≤ run.old.room → IsOk result }
    {
        self.stage.end_context(run, Scope::Request)?;
        self.stage.end_context(run, Scope::Application)?;
        Ok(())
    }
}
