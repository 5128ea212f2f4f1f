//! Lookups, calls and events, requests, and the ends of contexts.
ghost use Rattle.std.specs.Prelude.{◌≡◌, [], Some, false, IfOk, IfErr, OnOk, OnErr};
ghost use Rattle.cdi_legal.specs.LegalRun.{LegalEnd};
ghost use Rattle.cdi_legal.specs.Rooted.{IsRooted};
ghost use Rattle.cdi_staging.specs.Staged.{scene_of};
ghost use Rattle.cdi_model.specs.Answering.{Answers};
ghost use Rattle.cdi_container.specs.Asked.{asked_for, to_look, to_call, run_of_event, run_of_use};
ghost use Rattle.cdi_container.specs.History.{asked, left_by, untold, with_request, refusal_of_begin, refusal_of_end};
ghost use Rattle.cdi_container.specs.History.{IsRefusedBy, RunAnswers, RunsFrom, Unplayed};
ghost use Rattle.cdi_container.specs.Known.{keys_of_event, keys_of_use};
ghost use Rattle.cdi_container.specs.declared.answer.Answer.TheVariants.{Given};
ghost use Rattle.cdi_container.specs.History.{EndsRequest, EndsContexts};
ghost use Rattle.cdi_container.specs.Seen.{LookUpStep, CallStep, FireStep, BeginStep, EndStep, StopStep, done_or, unplayed};

use crate::answer::Answer;
use crate::asked::Message;
use crate::container::Container;
use crate::deployment::Deployment;
use cdi_bodies::Bodies;
use cdi_legal::Run;
use cdi_model::{Error, Ident, Name, Outcome, Quals, Refusal, Val};
use std::alloc::AllocError;

impl<B: Bodies> Container<B> {
    /// The state of the instance of the bean that is right for a type and qualifiers (CDI 4.0, Normal scopes and pseudo-scopes; the
    /// answer: profile). A dependent bean has its instance made for it, which is destroyed before the answer.
    ///
    /// It takes memory as `report` does at the first lookup, call or event after an edit, and else as `choose` does, and for
    /// the instances and the entries of its trace.
    ///
    /// # Errors
    ///
    /// `OutOfMemory`, or the first of these refusals that applies: `Faulty`, where the deployment has faults;
    /// `UnknownName`; `Unsatisfied`; `Ambiguous`.
    #[tactic(auto, using(crate::proofs::RunAnswered::answered))]
    pub fn lookup(&mut self, bean_type: Name, quals: &Quals) -> Result<Outcome, Error>
        ensures ok { IfOk result (λ outcome. RunsFrom (asked self.old
            (keys_of_use self.old.decls self.old.book bean_type quals.now))
            (run_of_use self.old.decls self.old.book (to_look bean_type quals.now)) (Given outcome) self.new) }
        ensures refused { IfErr result (IsRefusedBy (run_of_use self.old.decls self.old.book (to_look bean_type quals.now))) }
        ensures err { IfErr result (λ error. Unplayed self.old (keys_of_use self.old.decls self.old.book bean_type quals.now) error self.new) }
        ensures step { LookUpStep self.old bean_type quals.now result self.new }
    {
        self.use_bean(bean_type, quals, None)
    }

    /// What a method of that instance answers to an argument, which goes through the client proxy of a bean with a normal
    /// scope (CDI 4.0, Client proxy invocation). It takes memory as `lookup` does.
    ///
    /// # Errors
    ///
    /// Those of `lookup`, and then `NoMethod`.
    #[tactic(auto, using(crate::proofs::RunAnswered::answered))]
    pub fn call(
        &mut self,
        bean_type: Name,
        quals: &Quals,
        method: Ident,
        arg: Val,
    ) -> Result<Outcome, Error>
        ensures ok { IfOk result (λ outcome. RunsFrom (asked self.old
            (keys_of_use self.old.decls self.old.book bean_type quals.now))
            (run_of_use self.old.decls self.old.book (to_call method arg bean_type quals.now)) (Given outcome) self.new) }
        ensures refused { IfErr result
            (IsRefusedBy (run_of_use self.old.decls self.old.book (to_call method arg bean_type quals.now))) }
        ensures err { IfErr result (λ error. Unplayed self.old (keys_of_use self.old.decls self.old.book bean_type quals.now) error self.new) }
        ensures step { CallStep self.old method arg bean_type quals.now result self.new }
    {
        self.use_bean(bean_type, quals, Some(Message { method, arg }))
    }

    /// A lookup, or a call.
    fn use_bean(
        &mut self,
        bean_type: Name,
        quals: &Quals,
        message: Option<Message>,
    ) -> Result<Outcome, Error>
        ensures { RunAnswers self.old (keys_of_use self.old.decls self.old.book bean_type quals.now) (run_of_use self.old.decls self.old.book (asked_for bean_type quals.now message))
            result self.new }
    {
        self.run.restart();
        self.told = None;
        match self.deployment.aim(self.alloc, bean_type, quals, message) {
            Ok(aim) => {
                let player = self.deployment.player();
                let outcome = player.use_one(&mut self.run, aim.bean, aim.purpose)?;
                Ok(outcome)
            }
            Err(error) => Err(self.leave_unplayed(error)),
        }
    }

    /// An event with a value, for the observer methods that it notifies, in order, up to the first failure, which is its outcome
    /// then (CDI 4.0, Observer notification); else the outcome is null. It takes memory as `report` does at the first lookup,
    /// call or event after an edit, and else as `observers` does, and for the instances and the entries of its trace.
    ///
    /// # Errors
    ///
    /// `OutOfMemory`, or the first of these refusals that applies: `Faulty`, where the deployment has faults;
    /// `UnknownName`, which `Default` among the qualifiers has too (profile).
    #[tactic(auto, using(crate::proofs::RunAnswered::answered))]
    pub fn fire(&mut self, event_type: Name, quals: &Quals, arg: Val) -> Result<Outcome, Error>
        ensures ok { IfOk result (λ outcome. RunsFrom (asked self.old
            (keys_of_event self.old.decls self.old.book event_type quals.now))
            (run_of_event self.old.decls self.old.book arg event_type quals.now) (Given outcome) self.new) }
        ensures refused { IfErr result (IsRefusedBy (run_of_event self.old.decls self.old.book arg event_type quals.now)) }
        ensures err { IfErr result (λ error. Unplayed self.old (keys_of_event self.old.decls self.old.book event_type quals.now) error self.new) }
        ensures step { FireStep self.old arg event_type quals.now result self.new }
    {
        self.notify(event_type, quals, arg)
    }

    /// An event, for whom it notifies.
    fn notify(&mut self, event_type: Name, quals: &Quals, arg: Val) -> Result<Outcome, Error>
        ensures { RunAnswers self.old (keys_of_event self.old.decls self.old.book event_type quals.now) (run_of_event self.old.decls self.old.book arg event_type quals.now) result self.new }
    {
        self.run.restart();
        self.told = None;
        match self.deployment.notified(self.alloc, event_type, quals) {
            Ok(observers) => {
                let player = self.deployment.player();
                let outcome = player.fire(&mut self.run, observers.as_slice(), arg)?;
                Ok(outcome)
            }
            Err(error) => Err(self.leave_unplayed(error)),
        }
    }

    /// What is left of the contexts where a run does not begin, for this reason.
    fn leave_unplayed(&mut self, error: Error) -> Error
        requires { self.old ≡ untold self.old }
        ensures same { result ≡ error }
        ensures left { self.new ≡ unplayed error self.old }
    {
        if let Error::OutOfMemory = error {
            let given = self.run.given();
            self.run.clear(given);
        }
        error
    }

    /// A request is active from now on (CDI 4.0, Context management for built-in scopes). It takes no memory.
    ///
    /// # Errors
    ///
    /// `RequestActive`, where one is active already.
    pub fn begin_request(&mut self) -> Result<(), Refusal>
        ensures answer { result ≡ done_or (refusal_of_begin self.old.standing) }
        ensures ok { OnOk result (self.new ≡ with_request self.old) }
        ensures err { OnErr result (self.new ≡ untold self.old) }
        ensures step { BeginStep self.old result self.new }
    {
        self.told = None;
        match self.run.begin_request() {
            Ok(()) => Ok(()),
            Err(_) => Err(Refusal::RequestActive),
        }
    }

    /// The instances of the request are destroyed, and it is active no more (CDI 4.0, Context management for built-in
    /// scopes). It takes memory for the entries of its trace, all of it before the first callback: if memory runs out, nothing
    /// has changed.
    ///
    /// # Errors
    ///
    /// `OutOfMemory`, or `NoRequest`, where none is active.
    pub fn end_request(&mut self) -> Result<(), Error>
        ensures answer { Answers result (done_or (refusal_of_end self.old.standing)) }
        ensures ok { OnOk result (EndsRequest self.old Answer.Done self.new) }
        ensures err { IfErr result (λ error. self.new ≡ left_by error self.old) }
        ensures step { EndStep self.old result self.new }
    {
        if !self.run.is_active() {
            self.restart();
            return Err(Error::Refused(Refusal::NoRequest));
        }
        if self.deployment.is_wired() {
            self.deployment.player().end_request(&mut self.run)?;
            self.told = None;
            return Ok(());
        }
        self.run.restart();
        self.run.close();
        self.told = None;
        Ok(())
    }

    /// The instances of the request are destroyed, if one is active, and then those of the application, and no request is
    /// active (CDI 4.0, Context management for built-in scopes). No instance is live after it. It takes memory for the
    /// entries of its trace, all of it before the first callback: if memory runs out, nothing has changed.
    pub fn stop(&mut self) -> Result<(), AllocError>
        ensures ok { OnOk result (EndsContexts self.old Answer.Done self.new) }
        ensures nothing { OnOk result (self.new.standing.live ≡ []) }
        ensures err { OnErr result (self.new ≡ self.old) }
        ensures step { StopStep self.old result self.new }
    {
        end_both(&self.deployment, &mut self.run)?;
        self.told = None;
        Ok(())
    }
}

/// Both contexts end, as `Container::stop` says. Without a scene nothing is live, and nothing ends.
pub(crate) fn end_both<B: Bodies>(
    deployment: &Deployment<B>,
    run: &mut Run,
) -> Result<(), AllocError>
    requires nothing_lives { deployment.now.is_wired ≡ false → run.old.moment.standing.live ≡ [] }
    requires rooted { IsRooted run.old.moment.standing.live }
    ensures legal { let d = deployment.now in let before = run.old.moment.standing in let now = run.new.moment in
        OnOk result (LegalEnd (scene_of d.decls d.book) before now.trace now.standing) }
    ensures nothing { OnOk result (run.new.moment.standing.live ≡ []) }
    ensures untraced { OnOk result (deployment.now.is_wired ≡ false → run.new.moment.trace ≡ []) }
    ensures err { OnErr result (run.new.moment ≡ run.old.moment) }
{
    if deployment.is_wired() {
        return deployment.player().end_contexts(run);
    }
    run.restart();
    run.close();
    Ok(())
}
