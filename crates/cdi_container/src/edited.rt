//! What an edit makes of the declarations, and of those at which a report looks.
ghost use Rattle.std.specs.Prelude.{◌≡◌, IfSome, None, Some, true, OnOk, OnErr};
ghost use Rattle.cdi_model.specs.Short.{AreShort};
ghost use Rattle.cdi_index.specs.State.{IsEdited};
ghost use Rattle.cdi_live.specs.Known.{KnownAreWanted};
ghost use Rattle.cdi_live.specs.State.{knows, staged_by, with_staged, Commits};
ghost use Rattle.cdi_report.specs.Settled.{AreSettled, LooksAtMore};
ghost use Rattle.cdi_report.specs.Stays.{IsReadied};

use cdi_index::Draft;
use cdi_live::Live;
use cdi_report::Unsettled;
use std::alloc::AllocError;

/// Stages a draft. The next report looks at the declarations that it concerns, too. It takes memory for all that is computed.
/// Without memory nothing is staged, and the next report looks at no less than before.
pub(crate) fn stage_looked(
    live: &mut Live,
    unsettled: &mut Unsettled,
    draft: Draft,
) -> Result<(), AllocError>
    requires { IsEdited live.old.decls draft }
    ensures ok { OnOk result (live.new ≡ with_staged live.old (Some (staged_by live.old draft))) }
    ensures err { OnErr result (live.new ≡ with_staged live.old None) }
    ensures readied { OnOk result (IsReadied live.old (staged_by live.old draft) unsettled.new) }
    ensures more { LooksAtMore unsettled.old unsettled.new }
{
    let keys = live.stage(draft)?;
    match unsettled.add(keys.as_slice()) {
        Ok(()) => Ok(()),
        Err(error) => {
            live.give_up();
            Err(error)
        }
    }
}

/// What is staged is taken over, if anything is. If it is not readied, the next report looks at all declarations. Else the keys of
/// gone declarations do not gather among those at which it looks. It takes no memory.
#[tactic(auto, using(crate::proofs::Committing::committed_short))]
pub(crate) fn take_over(live: &mut Live, unsettled: &mut Unsettled, is_readied: bool)
    requires short { AreShort live.old.decls }
    requires staged { IfSome live.old.staged (λ next. AreShort next.decls) }
    requires readied { is_readied ≡ true → IfSome live.old.staged (λ next. IsReadied live.old next unsettled.old) }
    ensures new { Commits live.old live.new }
    ensures short { AreShort live.new.decls }
    ensures wanted { KnownAreWanted live.old }
    ensures settled { (book : _) → AreSettled live.old.decls (knows live.old) book unsettled.old
        → AreSettled live.new.decls (knows live.new) book unsettled.new }
{
    // No effect at run time. The proof reads here that no two declarations have one kind and name.
    let _ = live.decls();
    live.commit();
    if is_readied {
        unsettled.forget_gone(live.decls());
    } else {
        unsettled.add_each();
    }
}
