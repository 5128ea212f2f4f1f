//! What a draft takes away of the kept choices.
ghost use Rattle.std.specs.Prelude.{◌≡◌, ◌∷◌, [], IfOk};
ghost use Rattle.cdi_effective.specs.Qualifiers.{default_use};
ghost use Rattle.cdi_live.specs.Compared.{IsBetween};
ghost use Rattle.cdi_live.specs.Stage.{AreGone, AreWanted};

use crate::compare::gone_of_types;
use crate::dropped::{Wants, push_dropped};
use crate::gone::Gone;
use crate::suspects::suspects;
use std::alloc::{AllocError, Global};

/// The kept choices that a draft takes away: those for which no point asks after it, and those that see something else.
pub(crate) fn gone_after(alloc: Global, wants: &Wants<'_>) -> Result<Vec<Gone>, AllocError>
    requires between { IsBetween wants.now.sides.now }
    requires default { wants.now.by_default.now ≡ default_use ∷ [] }
    requires wanted { AreWanted wants.now.sides.now.index.now.decls wants.now.choices.now }
    ensures { IfOk result (λ gone. AreGone wants.now.sides.now.index.now.decls wants.now.sides.now.next.now wants.now.choices.now gone.items) }
{
    let sides = wants.sides;
    let types = suspects(alloc, sides)?;
    let mut gone = gone_of_types(alloc, sides, wants.choices, types.as_slice())?;
    push_dropped(wants, sides.edited, &mut gone)?;
    Ok(gone)
}
