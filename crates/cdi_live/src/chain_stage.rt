//! What a draft takes away of the kept chains.
ghost use Rattle.std.specs.Prelude.{◌≡◌, IfOk};
ghost use Rattle.cdi_live.specs.ChainGone.{AreGoneChains, ArePlaces};
ghost use Rattle.cdi_live.specs.Compared.{IsBetween};

use crate::chain_compare::gone_of_classes;
use crate::chain_gone::GoneChain;
use crate::chain_place::ChainPlace;
use crate::chain_suspects::chain_suspects;
use crate::sides::Sides;
use cdi_memo::Memo;
use cdi_model::Name;
use cdi_observe::Shared;
use std::alloc::{AllocError, Global};

/// The kept chains that a draft takes away: those of which the place is there no more after it, and those that see
/// something else.
pub(crate) fn gone_chains_after(
    alloc: Global,
    sides: &Sides<'_>,
    chains: &Memo<ChainPlace, Shared<Name>>,
) -> Result<Vec<GoneChain>, AllocError>
    requires between { IsBetween sides.now }
    requires wanted { ArePlaces sides.now.index.now.decls chains.now }
    ensures { IfOk result (λ gone. AreGoneChains sides.now.index.now.decls sides.now.next.now chains.now gone.items) }
{
    let classes = chain_suspects(alloc, sides)?;
    gone_of_classes(alloc, sides, chains, classes.as_slice())
}
