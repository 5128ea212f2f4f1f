//! Whether the question for the observer methods of an event sees the same before and after an edit.
ghost use Rattle.std.specs.Prelude.{◌≡◌, IfOk};
ghost use Rattle.cdi_observe.specs.Lent.{lent_at, lent_in};
ghost use Rattle.cdi_observe.specs.Sees.{seen_observer};
ghost use Rattle.cdi_seen.specs.Touched.{observers_alike, same_seen_observer, EventTouchedByParts};

use crate::uses::same_uses;
use cdi_model::{Decls, UseKind};
use cdi_observe::LentObserver;
use std::alloc::{AllocError, Global};

/// Whether an event sees the same of some observer methods before an edit as of others after it (CDI 4.0, Observer resolution): one
/// by one, the same methods and the same qualifiers, with their members filled. It takes memory for the members of their
/// qualifiers, where these are written or declared differently.
#[tactic(auto, using(crate::proofs::TouchedLemmas::event_touched_by_parts))]
pub fn same_observers(
    alloc: Global,
    before: &Decls,
    olds: &[LentObserver],
    after: &Decls,
    news: &[LentObserver],
) -> Result<bool, AllocError>
    ensures value { IfOk result (λ is. is ≡ observers_alike before.now (lent_in olds.now) after.now (lent_in news.now)) }
    ensures parts { EventTouchedByParts }
{
    if olds.len() != news.len() {
        return Ok(false);
    }
    for (i, old) in olds.iter().enumerate() {
        if !same_observer(alloc, before, old, after, &news[i])? {
            return Ok(false);
        }
    }
    Ok(true)
}

fn same_observer(
    alloc: Global,
    before: &Decls,
    old: &LentObserver,
    after: &Decls,
    new: &LentObserver,
) -> Result<bool, AllocError>
    ensures { IfOk result (λ is. is
        ≡ same_seen_observer (seen_observer before.now (lent_at old.now)) (seen_observer after.now (lent_at new.now))) }
{
    if old.bean.name != new.bean.name || old.method.name != new.method.name {
        return Ok(false);
    }
    same_uses(
        alloc,
        UseKind::Qualifier,
        before,
        old.method.qualifiers.as_slice(),
        after,
        new.method.qualifiers.as_slice(),
    )
}
