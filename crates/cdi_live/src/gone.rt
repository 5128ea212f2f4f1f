//! Kept choices that an edit takes away.
ghost use Rattle.std.specs.Prelude.{◌≡◌, ◌&&◌, ◌||◌, OnOk, OnErr};
ghost use Rattle.std.specs.Str.{bytes_eq};
ghost use Rattle.cdi_model.specs.SameUse.{same_quals};
ghost use Rattle.cdi_live.specs.Gone.{is_gone};

use cdi_model::{Name, Quals};
use std::alloc::AllocError;

/// What asks for a choice that is kept: a type, and uses of qualifiers.
#[derive(Drop)]
pub(crate) struct Gone {
    pub(crate) bean_type: Name,
    pub(crate) uses: Quals,
}

/// Appends one.
pub(crate) fn push_gone(
    bean_type: &Name,
    uses: &Quals,
    gone: &mut Vec<Gone>,
) -> Result<(), AllocError>
    ensures { OnOk result ((t : _) (us : _) → is_gone gone.new.items t us
        ≡ (is_gone gone.old.items t us || (bytes_eq t bean_type.now && same_quals us uses.now))) }
{
    gone.push(Gone {
        bean_type: *bean_type,
        uses: uses.copy()?,
    })?;
    Ok(())
}
