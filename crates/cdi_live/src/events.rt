//! Observer methods of events that are kept.
ghost use Rattle.std.specs.Prelude.{◌≡◌, ◌&&◌, Some, None, if◌then◌else◌, IfOk, OnOk, OnErr};
ghost use Rattle.std.specs.Str.{bytes_eq};
ghost use Rattle.cdi_model.specs.SameUse.{same_quals};
ghost use Rattle.cdi_model.specs.Work.{with_one};
ghost use Rattle.cdi_effective.specs.Beans.{beans};
ghost use Rattle.cdi_memo.specs.Answers.{answer};
ghost use Rattle.cdi_observe.specs.Keys.{EventKey};
ghost use Rattle.cdi_observe.specs.Observers.{notified};
ghost use Rattle.cdi_observe.specs.Wanted.{is_wanted};
ghost use Rattle.cdi_live.specs.EventLists.{AreRightLists};
ghost use Rattle.cdi_live.specs.Gone.{is_gone};

use crate::event_lists::EventLists;
use crate::gone::Gone;
use cdi_index::{Asked, Index, Question};
use cdi_memo::Memo;
use cdi_model::{Name, Quals, Seq, Work};
use cdi_observe::{ObserverId, Shared};
use std::alloc::{AllocError, Global};

/// Keeps the observer methods of an event, if a body may fire it.
fn keep_event(
    index: &Index,
    events: &mut Memo<Quals, Shared<ObserverId>>,
    event_type: Name,
    quals: &Quals,
    ids: &Shared<ObserverId>,
) -> Result<(), AllocError>
    ensures ok { OnOk result ((t : _) (us : _) → answer same_quals events.new t us
        ≡ (if is_wanted index.now.decls (EventKey event_type quals.now) && (bytes_eq event_type t && same_quals quals.now us)
        then Some ids.now else answer same_quals events.old t us)) }
    ensures err { OnErr result (events.new ≡ events.old) }
{
    let asked = Asked {
        question: Question::Event,
        name: &event_type,
        uses: quals.as_slice(),
    };
    if !index.is_asked(asked) {
        return Ok(());
    }
    let part = quals.copy()?;
    let answer = ids.share()?;
    events.keep(event_type, part, answer)?;
    Ok(())
}

/// Computes which observer methods are notified of an event of a type with some qualifiers, and keeps them, if a body may
/// fire it. Without memory nothing is kept or counted.
pub(crate) fn evaluate_event(
    alloc: Global,
    index: &Index,
    lists: &mut EventLists,
    events: &mut Memo<Quals, Shared<ObserverId>>,
    event_type: Name,
    quals: &Quals,
    work: &mut Work,
) -> Result<Shared<ObserverId>, AllocError>
    requires { AreRightLists index.now.decls lists.old }
    ensures lists { AreRightLists index.now.decls lists.new }
    ensures observers { IfOk result (λ ids. ids ≡ notified index.now.decls (beans index.now.decls) event_type quals.now) }
    ensures kept { IfOk result (λ ids. (t : _) (us : _) → answer same_quals events.new t us
        ≡ (if is_wanted index.now.decls (EventKey event_type quals.now) && (bytes_eq event_type t && same_quals quals.now us)
        then Some ids else answer same_quals events.old t us)) }
    ensures work { OnOk result (work.new ≡ with_one work.old) }
    ensures err { OnErr result (events.new ≡ events.old) }
    ensures same { OnErr result (work.new ≡ work.old) }
{
    let mut counted = *work;
    let ids = lists.observers(alloc, index, event_type, quals, &mut counted)?;
    keep_event(index, events, event_type, quals, &ids)?;
    *work = counted;
    Ok(ids)
}

/// Keeps the observer methods of some events no more. It takes no memory.
pub(crate) fn forget_events(events: &mut Memo<Quals, Shared<ObserverId>>, mut gone: Vec<Gone>)
    ensures { (t : _) (us : _) → answer same_quals events.new t us
        ≡ (if is_gone gone.items t us then None else answer same_quals events.old t us) }
{
    'left: while let Some(one) = gone.pop() {
        events.remove(&one.bean_type, &one.uses);
    }
}
