//! Kept chains that an edit takes away.
ghost use Rattle.std.specs.Prelude.{◌≡◌, ◌&&◌, ◌||◌, OnOk};
ghost use Rattle.std.specs.Str.{bytes_eq};
ghost use Rattle.cdi_observe.specs.Keys.{same_place};
ghost use Rattle.cdi_live.specs.ChainGone.{is_gone_chain};

use cdi_model::{BeanPlace, Name};
use std::alloc::AllocError;

/// What asks for a chain that is kept: a class, and a place of its bean.
#[derive(Clone, Copy)]
pub(crate) struct GoneChain {
    pub(crate) class: Name,
    pub(crate) place: BeanPlace,
}

/// Appends one.
pub(crate) fn push_gone_chain(
    class: &Name,
    place: &BeanPlace,
    gone: &mut Vec<GoneChain>,
) -> Result<(), AllocError>
    ensures { OnOk result ((c : _) (p : _) → is_gone_chain gone.new.items c p
        ≡ (is_gone_chain gone.old.items c p || (bytes_eq c class.now && same_place p place.now))) }
{
    gone.push(GoneChain {
        class: *class,
        place: *place,
    })?;
    Ok(())
}
