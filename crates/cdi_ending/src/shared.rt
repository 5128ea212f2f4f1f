//! What the pre-destroy callbacks of an instance share.
ghost use Rattle.std.specs.Prelude.{◌≡◌, ◌<◌, ◌++◌, ◌∷◌, [], length, OnOk, IsOk, ◌≤◌, ◌+◌};
ghost use Rattle.cdi_bodies.specs.Shown.{first_shown};
ghost use Rattle.cdi_model.specs.declared.outcome.Val.TheVariants.{Null};
ghost use Rattle.cdi_contexts.specs.declared.instance.Actor.{Actor};
ghost use Rattle.cdi_scene.specs.declared.place.Place.TheVariants.{Pre};
ghost use Rattle.cdi_legal.specs.Ends.{seat_on};
ghost use Rattle.cdi_legal.specs.Moment.{put};
ghost use Rattle.cdi_legal.specs.declared.entry.Entry.TheVariants.{Enter, Leave, Proceeded, Got};
ghost use Rattle.cdi_ending.specs.Back.{with_answer};

use cdi_bodies::Frame;
use cdi_contexts::{Actor, InstanceId};
use cdi_legal::{Entry, Run};
use cdi_model::{Outcome, Val};
use cdi_scene::{Part, Place, Seat};
use std::alloc::AllocError;

/// What the pre-destroy callbacks of an instance share. Their chain may be as long as there are declarations, and each link
/// calls the next. So what a link does not need while those after it run is here, and not on the stack.
#[derive(Drop)]
pub(crate) struct Shared {
    /// What the callback that runs is shown.
    pub(crate) shown: Frame,
    /// What the next one is invoked with.
    pub(crate) argument: Val,
    /// How the last one ended.
    pub(crate) outcome: Outcome,
}

impl Shared {
    /// Before the first callback.
    pub(crate) fn new() -> Shared
        ensures { result.argument ≡ Null }
    {
        Shared {
            shown: Frame::new(Val::Null, 0, 0),
            argument: Val::Null,
            outcome: Outcome::Value(Val::Null),
        }
    }

    /// A callback begins.
    #[inline(never)]
    pub(crate) fn begin(&mut self, part: &Part)
        requires calls { length part.now.calls < 256 }
        requires fires { length part.now.fires < 256 }
        ensures shown { self.new.shown ≡ first_shown self.old.argument (length part.now.calls) (length part.now.fires) }
    {
        self.shown.restart(
            self.argument,
            part.calls.len() as u8,
            part.fires.len() as u8,
        );
    }

    /// Notes the beginning of a callback.
    #[inline(never)]
    pub(crate) fn note_beginning(
        &self,
        run: &mut Run,
        id: InstanceId,
        actor: Actor,
    ) -> Result<(), AllocError>
        ensures ok { OnOk result (run.new.moment ≡ put (Enter (seat_on id actor Pre) self.now.argument) run.old.moment) }
        ensures possible { 0 < run.old.room → IsOk result }
        ensures room { run.old.room ≤ run.new.room + 1 }
    {
        let seat = Seat {
            bean: id.bean,
            number: Some(id.number),
            actor,
            place: Place::Pre,
        };
        run.note(Entry::Enter {
            seat,
            arg: self.argument,
        })
    }

    /// Notes how a callback ended.
    #[inline(never)]
    pub(crate) fn note_end(&self, run: &mut Run) -> Result<(), AllocError>
        ensures ok { OnOk result (run.new.moment ≡ put (Leave self.now.outcome) run.old.moment) }
        ensures possible { 0 < run.old.room → IsOk result }
        ensures room { run.old.room ≤ run.new.room + 1 }
    {
        run.note(Entry::Leave {
            outcome: self.outcome,
        })
    }

    /// Notes that a callback lets the rest of the chain run.
    #[inline(never)]
    pub(crate) fn note_proceeding(&self, run: &mut Run) -> Result<(), AllocError>
        ensures ok { OnOk result (run.new.moment ≡ put (Proceeded self.now.argument) run.old.moment) }
        ensures possible { 0 < run.old.room → IsOk result }
        ensures room { run.old.room ≤ run.new.room + 1 }
    {
        run.note(Entry::Proceeded { arg: self.argument })
    }

    /// Shows a callback how the rest of the chain ended, and notes it.
    #[inline(never)]
    pub(crate) fn answer(&mut self, run: &mut Run) -> Result<(), AllocError>
        requires { length self.old.shown.answers.items < 8 }
        ensures ok { OnOk result (run.new.moment ≡ put (Got self.old.outcome) run.old.moment) }
        ensures shown { OnOk result (self.new.shown ≡ with_answer self.old.outcome self.old.shown) }
        ensures outcome { self.new.outcome ≡ self.old.outcome }
        ensures possible { 0 < run.old.room → IsOk result }
        ensures room { run.old.room ≤ run.new.room + 1 }
    {
        run.note(Entry::Got {
            outcome: self.outcome,
        })?;
        self.shown.answers.push(self.outcome);
        Ok(())
    }
}
