//! Invocations and what bodies do in them (Interceptors 2.1, Method Interceptors; CDI 4.0, Client proxy invocation), of the
//! cycle that `making` describes.
ghost use Rattle.std.specs.Prelude.{◌≡◌, [], IfOk, IsSome, None, false};
ghost use Rattle.cdi_bodies.specs.declared.act.Act.TheVariants.{Proceed};
ghost use Rattle.cdi_contexts.specs.declared.instance.Actor.TheVariants.{Target};
ghost use Rattle.cdi_scene.specs.Scene.{invocable_at};
ghost use Rattle.cdi_scene.specs.Sound.{IsSoundAt, IsSoundSite, IsNamed};
ghost use Rattle.cdi_legal.specs.Acts.{ending};
ghost use Rattle.cdi_legal.specs.Ends.{seat_on};
ghost use Rattle.cdi_legal.specs.Furnished.{IsServed};
ghost use Rattle.cdi_legal.specs.Legal.{invoke, frame, asks, does, call, reach, made_is, outcome_is, answered_is};
ghost use Rattle.cdi_run.specs.Known.{Leads, MayMake, IsPlaced, IsSettled};

use crate::player::Player;
use crate::words::{
    dependent_of, failed, has_returned, is_normal, observers_in, or, seat_on, site_in, unreturned,
};
use cdi_bodies::{Act, Bodies};
use cdi_contexts::{Actor, InstanceId};
use cdi_ending::{ending, touch};
use cdi_legal::{Answered, Entry, Made, Run};
use cdi_model::{Failure, Outcome, Val};
use cdi_scene::{CallSite, Place, Seat};
use std::alloc::AllocError;

/// What is passed to an invocation: an argument, and the link of the chain to which it goes.
#[derive(Clone, Copy, PartialEq, Eq, Debug)]
pub(crate) struct Passed {
    pub(crate) arg: Val,
    pub(crate) link: usize,
}

impl<'a, B: Bodies> Player<'a, B> {
    /// The invocation at a place of an instance, from a link of its chain on.
    #[cycle(run)]
    pub(crate) fn invoke(
        &self,
        run: &mut Run,
        levels: u32,
        id: InstanceId,
        place: Place,
        held: &[Option<InstanceId>],
        passed: Passed,
    ) -> Result<Answered, AllocError>
        requires there { IsSome (invocable_at self.now.stage.scene id.bean place) }
        requires settled { IsSettled self.now.stage run.old.moment }
        requires served { IsServed self.now.stage.scene run.old.moment.standing.live (seat_on id Target place) held.now }
        ensures { IfOk result (λ answer.
            Leads self.now.stage levels (invoke id place held.now passed.arg passed.link) run.old (answered_is answer) run.new) }
    {
        let Some(invocable) = self.invocable(id.bean, place) else {
            unreachable!()
        };
        let Passed { arg, link } = passed;
        if link < invocable.chain.len() {
            let seat = seat_on(id, Actor::Interceptor(invocable.link(link)), place);
            let behind = Passed {
                arg,
                link: link + 1,
            };
            let given = self.frame(run, levels, seat, held, behind)?;
            return Ok(given);
        }
        if invocable.part.is_none() {
            return Ok(Answered {
                outcome: Outcome::Value(Val::Null),
                has_returned: true,
            });
        }
        let seat = seat_on(id, Actor::Target, place);
        let given = self.frame(run, levels, seat, held, passed)?;
        Ok(given)
    }

    /// A frame.
    #[cycle(run)]
    pub(crate) fn frame(
        &self,
        run: &mut Run,
        levels: u32,
        seat: Seat,
        held: &[Option<InstanceId>],
        passed: Passed,
    ) -> Result<Answered, AllocError>
        requires runs { IsSoundAt self.now.stage.promises self.now.stage.scene seat }
        requires placed { IsPlaced self.now.stage.scene seat }
        requires settled { IsSettled self.now.stage run.old.moment }
        requires served { IsServed self.now.stage.scene run.old.moment.standing.live seat held.now }
        ensures { IfOk result (λ answer.
            Leads self.now.stage levels (frame seat held.now passed.arg passed.link) run.old (answered_is answer) run.new) }
    {
        if levels == 0 {
            return Ok(Answered {
                outcome: Outcome::Failed(Failure::Depth),
                has_returned: false,
            });
        }
        let arg = passed.arg;
        run.note(Entry::Enter { seat, arg })?;
        let given = self.ask_on(run, levels - 1, seat, held, passed)?;
        let outcome = given.outcome;
        run.note(Entry::Leave { outcome })?;
        Ok(Answered {
            outcome,
            has_returned: has_returned(seat.actor, outcome, given.has_returned),
        })
    }

    /// Asks the body at a seat until it ends.
    #[cycle(run)]
    fn ask_on(
        &self,
        run: &mut Run,
        levels: u32,
        seat: Seat,
        held: &[Option<InstanceId>],
        passed: Passed,
    ) -> Result<Answered, AllocError>
        requires runs { IsSoundAt self.now.stage.promises self.now.stage.scene seat }
        requires placed { IsPlaced self.now.stage.scene seat }
        requires settled { IsSettled self.now.stage run.old.moment }
        requires served { IsServed self.now.stage.scene run.old.moment.standing.live seat held.now }
        ensures { IfOk result (λ answer.
            Leads self.now.stage levels (asks seat held.now passed.link 0 false) run.old (answered_is answer) run.new) }
    {
        let part = self.part_at(seat);
        let mut shown = self.stage.begin_frame(run, part, passed.arg)?;
        let mut has_returned = false;
        let answered = 'asking: loop {
            if !run.may_ask() {
                break failed(Failure::Budget, has_returned);
            }
            run.count_asking();
            let act = self.stage.ask(part, &shown);
            if let Some(outcome) = ending(act) {
                break Answered {
                    outcome,
                    has_returned,
                };
            }
            if shown.answers.len() == 64 {
                break failed(Failure::Steps, has_returned);
            }
            let given = self.act_on(run, levels, seat, held, passed.link, act)?;
            shown.answers.push(given.outcome);
            has_returned = or(has_returned, given.has_returned);
        };
        run.end_frame(shown);
        Ok(answered)
    }

    /// Does an act that does not end its frame.
    #[cycle(run)]
    fn act_on(
        &self,
        run: &mut Run,
        levels: u32,
        seat: Seat,
        held: &[Option<InstanceId>],
        link: usize,
        act: Act,
    ) -> Result<Answered, AllocError>
        requires may { MayMake self.now.stage seat act }
        requires placed { IsPlaced self.now.stage.scene seat }
        requires goes_on { ending act ≡ None }
        requires settled { IsSettled self.now.stage run.old.moment }
        requires served { IsServed self.now.stage.scene run.old.moment.standing.live seat held.now }
        ensures { IfOk result (λ answer.
            Leads self.now.stage levels (does seat held.now link act) run.old (answered_is answer) run.new) }
    {
        let part = self.part_making(seat, act);
        match act {
            Act::Call { site, arg } => {
                run.note(Entry::Called { seat, site, arg })?;
                let outcome = self.call(run, levels, seat, held, site_in(part, site), arg)?;
                run.note(Entry::Got { outcome })?;
                Ok(unreturned(outcome))
            }
            Act::Fire { site, arg } => {
                run.note(Entry::Fired { seat, site, arg })?;
                let outcome = self.notify_each(run, levels, observers_in(part, site), arg)?;
                run.note(Entry::Got { outcome })?;
                Ok(unreturned(outcome))
            }
            Act::Proceed(arg) => self.proceed(run, levels, seat, held, Passed { arg, link }),
            _ => {
                let Some(number) = seat.number else {
                    unreachable!()
                };
                let outcome = touch(run, number, seat.actor, act)?;
                Ok(unreturned(outcome))
            }
        }
    }

    /// Goes on to the next link of the chain.
    #[cycle(run)]
    fn proceed(
        &self,
        run: &mut Run,
        levels: u32,
        seat: Seat,
        held: &[Option<InstanceId>],
        passed: Passed,
    ) -> Result<Answered, AllocError>
        requires may { MayMake self.now.stage seat (Proceed passed.arg) }
        requires placed { IsPlaced self.now.stage.scene seat }
        requires settled { IsSettled self.now.stage run.old.moment }
        requires served { IsServed self.now.stage.scene run.old.moment.standing.live seat held.now }
        ensures { IfOk result (λ answer.
            Leads self.now.stage levels (does seat held.now passed.link (Proceed passed.arg)) run.old
            (answered_is answer) run.new) }
    {
        let Some(number) = seat.number else {
            unreachable!()
        };
        let id = InstanceId {
            bean: seat.bean,
            number,
        };
        run.note(Entry::Proceeded { arg: passed.arg })?;
        let given = self.invoke(run, levels, id, seat.place, held, passed)?;
        run.note(Entry::Got {
            outcome: given.outcome,
        })?;
        Ok(given)
    }

    /// Calls a method of what a call site names.
    #[cycle(run)]
    fn call(
        &self,
        run: &mut Run,
        levels: u32,
        seat: Seat,
        held: &[Option<InstanceId>],
        site: CallSite,
        arg: Val,
    ) -> Result<Outcome, AllocError>
        requires site { IsSoundSite self.now.stage.scene site }
        requires settled { IsSettled self.now.stage run.old.moment }
        requires served { IsServed self.now.stage.scene run.old.moment.standing.live seat held.now }
        requires named { IsNamed self.now.stage.scene seat site.via site.bean }
        ensures { IfOk result (λ answer.
            Leads self.now.stage levels (call seat held.now site arg) run.old (outcome_is answer) run.new) }
    {
        match self.reach(run, levels, seat, held, site)? {
            Made::Refused(failure) => Ok(Outcome::Failed(failure)),
            Made::Instance(number) => {
                if self.product(site.bean).is_some() {
                    return Ok(Outcome::Value(run.load(number, Actor::Target)));
                }
                let id = InstanceId {
                    bean: site.bean,
                    number,
                };
                let place = Place::Method(site.method);
                let given = self.invoke(run, levels, id, place, &[], Passed { arg, link: 0 })?;
                Ok(given.outcome)
            }
        }
    }

    /// The instance that a call site reaches.
    #[cycle(run)]
    fn reach(
        &self,
        run: &mut Run,
        levels: u32,
        seat: Seat,
        held: &[Option<InstanceId>],
        site: CallSite,
    ) -> Result<Made, AllocError>
        requires site { IsSoundSite self.now.stage.scene site }
        requires settled { IsSettled self.now.stage run.old.moment }
        requires served { IsServed self.now.stage.scene run.old.moment.standing.live seat held.now }
        requires named { IsNamed self.now.stage.scene seat site.via site.bean }
        ensures { IfOk result (λ answer. Leads self.now.stage levels (reach seat held.now site) run.old (made_is answer) run.new) }
    {
        if is_normal(self.scope_of(site.bean)) {
            let made = self.obtain(run, levels, site.bean)?;
            return Ok(made);
        }
        match dependent_of(run, seat, held, site.via) {
            Some(number) => Ok(Made::Instance(number)),
            None => unreachable!(),
        }
    }
}
