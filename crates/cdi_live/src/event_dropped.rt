//! The kept events that no body may fire after a draft.
ghost use Rattle.std.specs.Prelude.{◌≡◌, ◌||◌, OnOk};
ghost use Rattle.std.specs.List.{list_any};
ghost use Rattle.cdi_model.specs.Mentions.{shown};
ghost use Rattle.cdi_live.specs.EventDropped.{drops_before, is_dropped_at, is_dropped_by, is_dropped_event, is_dropped_in};
ghost use Rattle.cdi_live.specs.Gone.{is_gone};

use crate::gone::{Gone, push_gone};
use crate::sides::Sides;
use cdi_index::{Asked, Question};
use cdi_memo::Memo;
use cdi_model::{Decl, DeclKey, EventDecl, Mention, Quals};
use cdi_observe::{ObserverId, Shared};
use std::alloc::AllocError;

/// Of what is asked whether it is wanted after a draft.
#[derive(Drop)]
pub(crate) struct EventWants<'a> {
    pub(crate) sides: &'a Sides<'a>,
    pub(crate) events: &'a Memo<Quals, Shared<ObserverId>>,
}

/// Appends an event that an edited declaration may fire, if it is kept and no body may fire it after the draft.
fn push_dropped_event(
    wants: &EventWants<'_>,
    event: &EventDecl,
    gone: &mut Vec<Gone>,
) -> Result<(), AllocError>
    ensures { OnOk result ((t : _) (us : _) → is_gone gone.new.items t us
        ≡ (is_gone gone.old.items t us || is_dropped_event (drops_before wants.now) event.now t us)) }
{
    if wants
        .events
        .get(&event.event_type, &event.qualifiers)
        .is_none()
    {
        return Ok(());
    }
    let asked = Asked {
        question: Question::Event,
        name: &event.event_type,
        uses: event.qualifiers.as_slice(),
    };
    if wants.sides.next.is_asked(asked) {
        return Ok(());
    }
    push_gone(&event.event_type, &event.qualifiers, gone)
}

/// Appends that which is named in a place.
fn push_dropped_in(
    wants: &EventWants<'_>,
    mention: &Mention<'_>,
    gone: &mut Vec<Gone>,
) -> Result<(), AllocError>
    ensures { OnOk result ((t : _) (us : _) → is_gone gone.new.items t us
        ≡ (is_gone gone.old.items t us || is_dropped_in (drops_before wants.now) t us (shown mention.now))) }
{
    match mention {
        Mention::Event(event) => push_dropped_event(wants, event, gone),
        _ => Ok(()),
    }
}

/// Appends those of an edited declaration.
#[tactic(auto, unfolding(crate::specs::EventDropped::is_dropped_by))]
fn push_dropped_by(
    wants: &EventWants<'_>,
    decl: &Decl,
    gone: &mut Vec<Gone>,
) -> Result<(), AllocError>
    ensures { OnOk result ((t : _) (us : _) → is_gone gone.new.items t us
        ≡ (is_gone gone.old.items t us || is_dropped_by (drops_before wants.now) t us decl.now)) }
{
    for mention in decl.mentions() {
        push_dropped_in(wants, &mention, gone)?;
    }
    Ok(())
}

/// Appends those of the declarations of some keys, as they are before the draft.
pub(crate) fn push_dropped_events(
    wants: &EventWants<'_>,
    keys: &[DeclKey],
    gone: &mut Vec<Gone>,
) -> Result<(), AllocError>
    ensures { OnOk result ((t : _) (us : _) → is_gone gone.new.items t us ≡ (is_gone gone.old.items t us
        || list_any (is_dropped_at wants.now.sides.now.index.now.decls (drops_before wants.now) t us) keys.now)) }
{
    for key in keys {
        if let Some(decl) = wants.sides.index.decls().get(key.kind, &key.name) {
            push_dropped_by(wants, decl, gone)?;
        }
    }
    Ok(())
}
