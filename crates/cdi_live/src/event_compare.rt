//! Whether events see the same before and after a draft.
ghost use Rattle.std.specs.Prelude.{◌≡◌, ◌&&◌, ◌||◌, ℕ, List, true, IfOk, IfSome, OnOk};
ghost use Rattle.std.specs.Str.{bytes_eq};
ghost use Rattle.cdi_model.specs.SameUse.{same_quals};
ghost use Rattle.cdi_effective.specs.Beans.{beans};
ghost use Rattle.cdi_memo.specs.Answers.{parts_under};
ghost use Rattle.cdi_observe.specs.Keys.{EventKey};
ghost use Rattle.cdi_observe.specs.Lent.{lent_in};
ghost use Rattle.cdi_observe.specs.Observers.{observing};
ghost use Rattle.cdi_questions.specs.Observed.{observed_types};
ghost use Rattle.cdi_seen.specs.Touched.{is_touched};
ghost use Rattle.cdi_live.specs.EventCompared.{is_touched_among, is_touched_of, see_same_observers, IsCompared, IsRightBetween};
ghost use Rattle.cdi_live.specs.Gone.{is_gone};

use crate::compare::are_declared_alike;
use crate::gone::{Gone, push_gone};
use crate::sides::Sides;
use cdi_index::{Index, NextIndex};
use cdi_match::closure;
use cdi_memo::Memo;
use cdi_model::{Name, Quals};
use cdi_observe::{LentObserver, ObserverId, Shared, observers_in_order};
use cdi_questions::observed_types;
use cdi_seen::same_observers;
use std::alloc::{AllocError, Global};

// ---- before

/// The observer methods that an event sees before the draft, of which just these types are observed.
fn observing_before<'a>(
    alloc: Global,
    index: &'a Index,
    observed: &[Name],
) -> Result<Vec<LentObserver<'a>>, AllocError>
    ensures { IfOk result (λ list. (t : List ℕ) → observed.now ≡ observed_types index.now.decls t
        → lent_in list.items ≡ observing index.now.decls (beans index.now.decls) t) }
{
    let beans = index.beans_observing(alloc, observed)?;
    observers_in_order(alloc, index.decls(), &beans, observed)
}

// ---- after

/// The types of an event of a type that some observer method observes after the draft, in order.
fn observed_after(
    alloc: Global,
    next: &NextIndex<'_>,
    event_type: Name,
) -> Result<Vec<Name>, AllocError>
    ensures { IfOk result (λ types. types.items ≡ observed_types next.now event_type) }
{
    let types = closure(alloc, next.decls(), event_type)?;
    next.observed_among(alloc, &types)
}

/// The observer methods that an event sees after the draft, of which just these types are observed then.
fn observing_after<'a>(
    alloc: Global,
    next: &'a NextIndex<'a>,
    observed: &[Name],
) -> Result<Vec<LentObserver<'a>>, AllocError>
    ensures { IfOk result (λ list. (t : List ℕ) → observed.now ≡ observed_types next.now t
        → lent_in list.items ≡ observing next.now (beans next.now) t) }
{
    let beans = next.beans_observing(alloc, observed)?;
    observers_in_order(alloc, next.decls(), &beans, observed)
}

// ---- both

/// Whether events of which just these types are observed, before and after the draft, see the same observer methods.
#[derive(Drop)]
struct Compared {
    before: Vec<Name>,
    after: Vec<Name>,
    is_same: bool,
}

impl Compared {
    /// Whether it is of these types.
    fn is_of(&self, before: &[Name], after: &[Name]) -> bool
        ensures { result ≡ true → (self.now.before.items ≡ before.now) × (self.now.after.items ≡ after.now) }
    {
        self.before.as_slice() == before && self.after.as_slice() == after
    }
}

/// Whether events of which just these types are observed see the same observer methods.
fn are_same_between(
    alloc: Global,
    sides: &Sides<'_>,
    before: &[Name],
    after: &[Name],
) -> Result<bool, AllocError>
    ensures { IfOk result (IsCompared sides.now.index.now.decls sides.now.next.now before.now after.now) }
{
    let olds = observing_before(alloc, sides.index, before)?;
    let news = observing_after(alloc, sides.next, after)?;
    same_observers(alloc, sides.index.decls(), &olds, sides.next.decls(), &news)
}

/// What was compared last, where it is of these types.
fn compared_last(last: &Option<Compared>, before: &[Name], after: &[Name]) -> Option<bool>
    ensures { IfSome result (λ is. (ds : _) (es : _) → IfSome last.now (IsRightBetween ds es) → IsCompared ds es before.now after.now is) }
{
    match last {
        Some(compared) if compared.is_of(before, after) => Some(compared.is_same),
        _ => None,
    }
}

/// Whether events of a type see the same observer methods before and after the draft. Events of which the same types are
/// observed do alike, so what was compared last serves.
fn see_same_observers(
    alloc: Global,
    sides: &Sides<'_>,
    event_type: &Name,
    last: &mut Option<Compared>,
) -> Result<bool, AllocError>
    requires { IfSome last.old (IsRightBetween sides.now.index.now.decls sides.now.next.now) }
    ensures last { OnOk result (IfSome last.new (IsRightBetween sides.now.index.now.decls sides.now.next.now)) }
    ensures same { IfOk result (λ is. is ≡ see_same_observers sides.now.index.now.decls sides.now.next.now event_type.now) }
{
    let before = observed_types(alloc, sides.index, *event_type)?;
    let after = observed_after(alloc, sides.next, *event_type)?;
    if let Some(is_same) = compared_last(last, &before, &after) {
        return Ok(is_same);
    }
    let is_same = are_same_between(alloc, sides, &before, &after)?;
    *last = Some(Compared {
        before,
        after,
        is_same,
    });
    Ok(is_same)
}

/// Appends an event, if it is touched. Whether it sees the same observer methods is given.
fn push_if_touched(
    sides: &Sides<'_>,
    event_type: &Name,
    quals: &Quals,
    is_same: bool,
    gone: &mut Vec<Gone>,
) -> Result<(), AllocError>
    requires { is_same ≡ see_same_observers sides.now.index.now.decls sides.now.next.now event_type.now }
    ensures { OnOk result ((t : _) (us : _) → is_gone gone.new.items t us ≡ (is_gone gone.old.items t us
        || (bytes_eq t event_type.now && (same_quals us quals.now
        && is_touched sides.now.index.now.decls sides.now.next.now (EventKey event_type.now quals.now))))) }
{
    if is_same && are_declared_alike(sides, quals.as_slice()) {
        return Ok(());
    }
    push_gone(event_type, quals, gone)?;
    Ok(())
}

/// Appends the kept events of a type that are touched.
fn push_touched_of_type(
    alloc: Global,
    sides: &Sides<'_>,
    events: &Memo<Quals, Shared<ObserverId>>,
    event_type: &Name,
    last: &mut Option<Compared>,
    gone: &mut Vec<Gone>,
) -> Result<(), AllocError>
    requires { IfSome last.old (IsRightBetween sides.now.index.now.decls sides.now.next.now) }
    ensures last { OnOk result (IfSome last.new (IsRightBetween sides.now.index.now.decls sides.now.next.now)) }
    ensures gone { OnOk result ((t : _) (us : _) → is_gone gone.new.items t us ≡ (is_gone gone.old.items t us
        || (bytes_eq t event_type.now && is_touched_among sides.now.index.now.decls sides.now.next.now event_type.now us
        (parts_under events.now event_type.now)))) }
{
    if events.part_at(event_type, 0).is_none() {
        return Ok(());
    }
    let is_same = see_same_observers(alloc, sides, event_type, last)?;
    let mut index = 0;
    'parts: while let Some(quals) = events.part_at(event_type, index) {
        push_if_touched(sides, event_type, quals, is_same, gone)?;
        index += 1;
    }
    Ok(())
}

/// The kept events of some types that are touched.
pub(crate) fn touched_of_types(
    alloc: Global,
    sides: &Sides<'_>,
    events: &Memo<Quals, Shared<ObserverId>>,
    types: &[Name],
) -> Result<Vec<Gone>, AllocError>
    ensures { IfOk result (λ gone. (t : _) (us : _) → is_gone gone.items t us
        ≡ is_touched_of sides.now.index.now.decls sides.now.next.now events.now types.now t us) }
{
    let mut gone = Vec::new(alloc);
    let mut last = None;
    for event_type in types {
        push_touched_of_type(alloc, sides, events, event_type, &mut last, &mut gone)?;
    }
    Ok(gone)
}
