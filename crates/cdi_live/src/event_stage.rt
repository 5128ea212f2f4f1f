//! What a draft takes away of the kept events.
ghost use Rattle.std.specs.Prelude.{◌≡◌, IfOk};
ghost use Rattle.cdi_live.specs.Compared.{IsBetween};
ghost use Rattle.cdi_live.specs.EventStage.{EventsAreGone, EventsAreWanted};

use crate::event_compare::touched_of_types;
use crate::event_dropped::{EventWants, push_dropped_events};
use crate::event_suspects::event_suspects;
use crate::gone::Gone;
use crate::sides::Sides;
use cdi_memo::Memo;
use cdi_model::Quals;
use cdi_observe::{ObserverId, Shared};
use std::alloc::{AllocError, Global};

/// The kept events that a draft takes away: those that no body may fire after it, and those that see something else.
pub(crate) fn gone_events_after(
    alloc: Global,
    sides: &Sides<'_>,
    events: &Memo<Quals, Shared<ObserverId>>,
) -> Result<Vec<Gone>, AllocError>
    requires between { IsBetween sides.now }
    requires wanted { EventsAreWanted sides.now.index.now.decls events.now }
    ensures { IfOk result (λ gone. EventsAreGone sides.now.index.now.decls sides.now.next.now events.now gone.items) }
{
    let types = event_suspects(alloc, sides, events)?;
    let mut gone = touched_of_types(alloc, sides, events, types.as_slice())?;
    let wants = EventWants { sides, events };
    push_dropped_events(&wants, sides.edited, &mut gone)?;
    Ok(gone)
}
