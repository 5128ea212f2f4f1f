//! What runs before an instance is destroyed: the pre-destroy callbacks of a managed bean (Interceptors 2.1, Interceptors
//! for Lifecycle Event Callbacks), and the disposer method of a product (CDI 4.0, Lifecycle of producer methods). Each
//! contract says at most how many entries it takes: 11 a frame, since a frame makes at most 8 acts of which one proceeds, and
//! 2 for a disposer method. The callbacks call each other as deep as their chain is long, so what need not be on the stack
//! meanwhile is in functions that are not inlined.
ghost use Rattle.std.specs.Prelude.{◌≡◌, ◌&&◌, ◌+◌, ◌*◌, ◌<◌, ◌≤◌, false, IfOk, OnOk, IsOk, Some, length};
ghost use Rattle.cdi_scene.specs.Scene.{managed_at};
ghost use Rattle.cdi_scene.specs.declared.place.Place.TheVariants.{Pre};
ghost use Rattle.cdi_legal.specs.Ends.{Ends, callback, invoke_back, frame_back, asks_back, seat_on};
ghost use Rattle.cdi_ending.specs.Room.{IsSteady, frames_from, frames_within, callback_cost};
ghost use Rattle.cdi_ending.specs.Back.{ActsBefore, IsBack, is_proceeding, Proceeds, Halts, with_answer, IsOwnDisposal};

use crate::asking::{ending, touch};
use crate::paused::Paused;
use crate::shared::Shared;
use crate::stage::Stage;
use cdi_bodies::{Act, Bodies};
use cdi_contexts::{Actor, InstanceId};
use cdi_legal::{Entry, Run};
use cdi_model::{Failure, Outcome, Val};
use cdi_scene::{Managed, Part, Place, Seat};
use std::alloc::AllocError;

/// An instance that is destroyed, with its managed bean.
#[derive(Clone, Copy)]
struct Leaving<'m> {
    id: InstanceId,
    managed: &'m Managed,
}

impl<'a, B: Bodies> Stage<'a, B> {
    /// What runs before the destruction of an instance: the pre-destroy callbacks of a managed bean, or the disposer method
    /// of a product.
    #[inline(never)]
    pub(crate) fn call_back(&self, run: &mut Run, id: InstanceId) -> Result<(), AllocError>
        ensures legal { OnOk result (Ends self.now.scene (callback id) run.old.moment run.new.moment) }
        ensures steady { OnOk result (IsSteady run.old.moment.standing run.new.moment.standing) }
        ensures possible { callback_cost self.now.scene id.bean ≤ run.old.room → IsOk result }
        ensures room { run.old.room ≤ run.new.room + callback_cost self.now.scene id.bean }
    {
        let scene = self.scene();
        if let Some(managed) = scene.managed(id.bean) {
            if managed.pre.chain.is_empty() && managed.pre.part.is_none() {
                return Ok(());
            }
            let mut shared = Shared::new();
            let leaving = Leaving { id, managed };
            self.invoke_back(run, &mut shared, &leaving, 0)?;
            return Ok(());
        }
        let Some(product) = scene.product(id.bean) else {
            return Ok(());
        };
        let Some(part) = &product.disposer else {
            return Ok(());
        };
        let seat = Seat {
            bean: product.declaring,
            number: None,
            actor: Actor::Target,
            place: Place::Disposer(id.bean),
        };
        let state = run.load(id.number, Actor::Target);
        self.dispose(run, seat, part, state)?;
        Ok(())
    }

    /// The disposer method of a product, whose state is its argument.
    fn dispose(&self, run: &mut Run, seat: Seat, part: &Part, arg: Val) -> Result<(), AllocError>
        requires runs { IsOwnDisposal self.now seat part.now }
        ensures legal { OnOk result
            ((outcome : _) × Ends self.now.scene (frame_back seat arg 0 outcome) run.old.moment run.new.moment) }
        ensures steady { OnOk result (IsSteady run.old.moment.standing run.new.moment.standing) }
        ensures possible { 2 ≤ run.old.room → IsOk result }
        ensures room { run.old.room ≤ run.new.room + 2 }
    {
        run.note(Entry::Enter { seat, arg })?;
        let shown = self.first_shown(part, arg);
        let act = self.ask(part, &shown);
        let outcome = match ending(act) {
            Some(outcome) => outcome,
            None => unreachable!(),
        };
        run.note(Entry::Leave { outcome })?;
        Ok(())
    }

    /// The pre-destroy callbacks of an instance from a link of their chain on.
    #[cycle(back)]
    #[inline(always)]
    fn invoke_back(
        &self,
        run: &mut Run,
        shared: &mut Shared,
        leaving: &Leaving<'_>,
        link: usize,
    ) -> Result<(), AllocError>
        requires managed { managed_at self.now.scene leaving.now.id.bean ≡ Some leaving.now.managed.now }
        ensures legal { OnOk result (Ends self.now.scene
            (invoke_back leaving.now.id shared.old.argument link shared.new.outcome) run.old.moment run.new.moment) }
        ensures steady { OnOk result (IsSteady run.old.moment.standing run.new.moment.standing) }
        ensures possible { 11 * frames_from leaving.now.managed.now.pre link ≤ run.old.room → IsOk result }
        ensures room { run.old.room ≤ run.new.room + 11 * frames_from leaving.now.managed.now.pre link }
    {
        if link < leaving.managed.pre.chain.len() {
            let actor = Actor::Interceptor(leaving.managed.pre.link(link));
            self.frame_back(run, shared, leaving, actor, link + 1)?;
            return Ok(());
        }
        if leaving.managed.pre.part.is_none() {
            shared.outcome = Outcome::Value(Val::Null);
            return Ok(());
        }
        self.frame_back(run, shared, leaving, Actor::Target, link)?;
        Ok(())
    }

    /// A frame of a callback, before which so many links were entered.
    #[cycle(back)]
    fn frame_back(
        &self,
        run: &mut Run,
        shared: &mut Shared,
        leaving: &Leaving<'_>,
        actor: Actor,
        link: usize,
    ) -> Result<(), AllocError>
        requires managed { managed_at self.now.scene leaving.now.id.bean ≡ Some leaving.now.managed.now }
        requires acts { ActsBefore leaving.now.managed.now actor }
        ensures legal { OnOk result (Ends self.now.scene
            (frame_back (seat_on leaving.now.id actor Pre) shared.old.argument link shared.new.outcome)
            run.old.moment run.new.moment) }
        ensures steady { OnOk result (IsSteady run.old.moment.standing run.new.moment.standing) }
        ensures possible { 11 + 11 * frames_within actor leaving.now.managed.now.pre link ≤ run.old.room → IsOk result }
        ensures room { run.old.room ≤ run.new.room + 11 + 11 * frames_within actor leaving.now.managed.now.pre link }
    {
        shared.note_beginning(run, leaving.id, actor)?;
        self.ask_back(run, shared, leaving, actor, link)?;
        shared.note_end(run)?;
        Ok(())
    }

    /// Asks the body of a callback until it ends. It may let the rest of the chain run once.
    #[cycle(back)]
    #[inline(always)]
    fn ask_back(
        &self,
        run: &mut Run,
        shared: &mut Shared,
        leaving: &Leaving<'_>,
        actor: Actor,
        link: usize,
    ) -> Result<(), AllocError>
        requires managed { managed_at self.now.scene leaving.now.id.bean ≡ Some leaving.now.managed.now }
        requires acts { ActsBefore leaving.now.managed.now actor }
        ensures legal { OnOk result (Ends self.now.scene
            (asks_back (seat_on leaving.now.id actor Pre) link 0 false shared.new.outcome) run.old.moment run.new.moment) }
        ensures steady { OnOk result (IsSteady run.old.moment.standing run.new.moment.standing) }
        ensures possible { 9 + 11 * frames_within actor leaving.now.managed.now.pre link ≤ run.old.room → IsOk result }
        ensures room { run.old.room ≤ run.new.room + 9 + 11 * frames_within actor leaving.now.managed.now.pre link }
    {
        let part = self.part_before(leaving, actor);
        shared.begin(part);
        if self.ask_on(run, shared, part, leaving.id, actor, false)? {
            self.proceed_back(run, shared, leaving, link)?;
            self.ask_on(run, shared, part, leaving.id, actor, true)?;
        }
        Ok(())
    }

    /// Lets the rest of the chain run, and shows the callback how it ended.
    #[cycle(back)]
    #[inline(always)]
    fn proceed_back(
        &self,
        run: &mut Run,
        shared: &mut Shared,
        leaving: &Leaving<'_>,
        link: usize,
    ) -> Result<(), AllocError>
        requires managed { managed_at self.now.scene leaving.now.id.bean ≡ Some leaving.now.managed.now }
        requires few { length shared.old.shown.answers.items < 8 }
        ensures legal { OnOk result (Proceeds self.now.scene leaving.now.id link shared.old.argument run.old.moment
            shared.new.outcome run.new.moment) }
        ensures shown { OnOk result (shared.new.shown ≡ with_answer shared.new.outcome shared.old.shown) }
        ensures steady { OnOk result (IsSteady run.old.moment.standing run.new.moment.standing) }
        ensures possible { 2 + 11 * frames_from leaving.now.managed.now.pre link ≤ run.old.room → IsOk result }
        ensures room { run.old.room ≤ run.new.room + 2 + 11 * frames_from leaving.now.managed.now.pre link }
    {
        let mut kept = Paused::new();
        kept.keep(&shared.shown);
        shared.note_proceeding(run)?;
        self.invoke_back(run, shared, leaving, link)?;
        kept.resume(&mut shared.shown);
        shared.answer(run)?;
        Ok(())
    }

    /// Asks the body of a callback until it ends, or lets the rest of the chain run for the first time. Says whether it does.
    #[inline(never)]
    fn ask_on(
        &self,
        run: &mut Run,
        shared: &mut Shared,
        part: &Part,
        id: InstanceId,
        actor: Actor,
        has_proceeded: bool,
    ) -> Result<bool, AllocError>
        requires back { IsBack self.now id actor part.now }
        requires calls { shared.old.shown.calls ≡ length part.now.calls }
        requires fires { shared.old.shown.fires ≡ length part.now.fires }
        requires few { length shared.old.shown.answers.items ≤ 8 }
        ensures halts { IfOk result (λ proceeds. Halts self.now.scene id actor (length shared.old.shown.answers.items) has_proceeded
            run.old.moment proceeds shared.new run.new.moment) }
        ensures calls { OnOk result (shared.new.shown.calls ≡ length part.now.calls) }
        ensures fires { OnOk result (shared.new.shown.fires ≡ length part.now.fires) }
        ensures steady { OnOk result (IsSteady run.old.moment.standing run.new.moment.standing) }
        ensures possible { 8 ≤ run.old.room + length shared.old.shown.answers.items → IsOk result }
        ensures spent { OnOk result (run.old.room + length shared.old.shown.answers.items
            ≤ run.new.room + length shared.new.shown.answers.items) }
        ensures room { run.old.room + length shared.old.shown.answers.items ≤ run.new.room + 8 }
    {
        'asking: loop {
            let act = self.ask(part, &shared.shown);
            if let Some(outcome) = ending(act) {
                shared.outcome = outcome;
                return Ok(false);
            }
            if shared.shown.answers.len() == 8 || is_second(act, has_proceeded) {
                shared.outcome = Outcome::Failed(Failure::Steps);
                return Ok(false);
            }
            if let Act::Proceed(value) = act {
                shared.argument = value;
                return Ok(true);
            }
            let answer = touch(run, id.number, actor, act)?;
            shared.shown.answers.push(answer);
        }
    }

    /// The body that runs before the destruction of an instance for an actor.
    #[inline(never)]
    fn part_before(&self, leaving: &Leaving<'_>, actor: Actor) -> &'a Part
        requires managed { managed_at self.now.scene leaving.now.id.bean ≡ Some leaving.now.managed.now }
        requires acts { ActsBefore leaving.now.managed.now actor }
        ensures { IsBack self.now leaving.now.id actor result.now }
    {
        let seat = Seat {
            bean: leaving.id.bean,
            number: Some(leaving.id.number),
            actor,
            place: Place::Pre,
        };
        match self.scene().part(seat) {
            Some(part) => part,
            None => unreachable!(),
        }
    }
}

/// Whether a frame that has proceeded, or not, would proceed a second time.
fn is_second(act: Act, has_proceeded: bool) -> bool
    ensures { result ≡ (is_proceeding act && has_proceeded) }
{
    matches!(act, Act::Proceed(_)) && has_proceeded
}
