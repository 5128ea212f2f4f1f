//! Acts that end a frame, and acts that touch what an instance holds. Runs do these too, outside destruction.
ghost use Rattle.std.specs.Prelude.{◌≡◌, ◌+◌, ◌<◌, ◌≤◌, IfOk, OnOk, IsOk};
ghost use Rattle.cdi_legal.specs.Acts.{ending, IsTouch, Touches};
ghost use Rattle.cdi_ending.specs.Room.{IsSteady};

use cdi_bodies::Act;
use cdi_contexts::Actor;
use cdi_legal::{Entry, Run};
use cdi_model::{Outcome, Val};
use std::alloc::AllocError;

/// The outcome of an act that ends a frame.
pub fn ending(act: Act) -> Option<Outcome>
    ensures { result ≡ ending act }
{
    match act {
        Act::Return(value) => Some(Outcome::Value(value)),
        Act::Fail(failure) => Some(Outcome::Failed(failure)),
        _ => None,
    }
}

/// A load or a store of what an instance holds for an actor, with its entry. It takes no memory where there is room.
pub fn touch(run: &mut Run, number: u64, actor: Actor, act: Act) -> Result<Outcome, AllocError>
    requires { IsTouch act }
    ensures legal { IfOk result (λ answer. Touches number actor act run.old.moment answer run.new.moment) }
    ensures steady { OnOk result (IsSteady run.old.moment.standing run.new.moment.standing) }
    ensures possible { 0 < run.old.room → IsOk result }
    ensures room { run.old.room ≤ run.new.room + 1 }
{
    match act {
        Act::Load => {
            let value = run.load(number, actor);
            run.note(Entry::Loaded { value })?;
            Ok(Outcome::Value(value))
        }
        Act::Store(value) => {
            run.note(Entry::Stored {
                number,
                actor,
                value,
            })?;
            Ok(Outcome::Value(Val::Null))
        }
        _ => unreachable!(),
    }
}
