//! What a deployment is found to be.
ghost use Rattle.std.specs.Prelude.{◌≡◌, IfOk, OnOk, OnErr};
ghost use Rattle.cdi_model.specs.Short.{AreShort};
ghost use Rattle.cdi_live.specs.State.{kept_in, knows};
ghost use Rattle.cdi_observe.specs.Kept.{evaluated, EvaluatesSome};
ghost use Rattle.cdi_observe.specs.Wanted.{wanted};
ghost use Rattle.cdi_report.specs.Settled.{AreSettled};
ghost use Rattle.cdi_wiring.specs.Wired.{IsWiringOf};

use cdi_bodies::Bodies;
use cdi_live::Live;
use cdi_report::Unsettled;
use cdi_wiring::Wiring;
use std::alloc::{AllocError, Global};

/// What the declarations are where the bodies of this book are stored. All that they ask for is asked, and the same declarations
/// are looked at, as for a report. It takes memory as one does, and for the scene.
pub(crate) fn find_wiring<B: Bodies>(
    alloc: Global,
    live: &mut Live,
    unsettled: &mut Unsettled,
    book: &B,
) -> Result<Wiring, AllocError>
    requires short { AreShort live.old.decls }
    requires settled { AreSettled live.old.decls (knows live.old) (B.promises book.now) unsettled.old }
    ensures wiring { IfOk result (λ wiring. IsWiringOf live.old.decls (B.promises book.now) wiring) }
    ensures list { live.new.decls ≡ live.old.decls }
    ensures counts { live.new.counts ≡ live.old.counts }
    ensures ok { OnOk result (kept_in live.new ≡ evaluated live.old.decls (wanted live.old.decls) (kept_in live.old)) }
    ensures err { OnErr result (EvaluatesSome live.old.decls (kept_in live.old) (kept_in live.new)) }
    ensures settled { AreSettled live.new.decls (knows live.new) (B.promises book.now) unsettled.new }
{
    let found = unsettled.report(alloc, live, book)?;
    Wiring::of(alloc, &*live, book, found.as_slice().len())
}
