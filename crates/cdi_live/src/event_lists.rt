//! Lists of observer methods that events share.
ghost use Rattle.std.specs.Prelude.{◌≡◌, [], true, IfOk, IfSome, OnOk, OnErr};
ghost use Rattle.std.specs.Option.{option_copied};
ghost use Rattle.cdi_effective.specs.Beans.{beans};
ghost use Rattle.cdi_model.specs.Work.{with_one};
ghost use Rattle.cdi_observe.specs.Observers.{notified};
ghost use Rattle.cdi_live.specs.EventLists.{AreRightLists, IsRightFor};

use cdi_index::Index;
use cdi_model::{Name, Quals, Work};
use cdi_observe::{ObserverId, Shared};
use cdi_questions::{observed_types, observers};
use std::alloc::{AllocError, Global};

/// So many lists are kept at most.
const LISTS_LIMIT: usize = 16;

/// A list of fewer observer methods is not kept.
const SHARED_FROM: usize = 8;

/// The observer methods that are notified of each event with some qualifiers of which some types are observed.
#[derive(Drop)]
pub(crate) struct EventList {
    observed: Vec<Name>,
    quals: Quals,
    ids: Shared<ObserverId>,
}

impl EventList {
    /// Whether it is of these types and qualifiers.
    fn is_of(&self, observed: &[Name], quals: &Quals) -> bool
        ensures { result ≡ true → (self.now.observed.items ≡ observed.now) × (self.now.quals ≡ quals.now) }
    {
        self.observed.as_slice() == observed && self.quals == *quals
    }
}

/// A few long lists of observer methods. Events of which the same types are observed share one where their qualifiers are the
/// same, so their answers take memory once.
#[derive(Drop)]
pub(crate) struct EventLists {
    lists: Vec<EventList>,
}

impl EventLists {
    /// None. It takes no memory yet.
    pub(crate) fn new(alloc: Global) -> EventLists
        ensures { result.lists.items ≡ [] }
    {
        EventLists {
            lists: Vec::new(alloc),
        }
    }

    /// The list of these types and qualifiers, if it is kept.
    fn find(&self, observed: &[Name], quals: &Quals) -> Option<&Shared<ObserverId>>
        ensures { IfSome (option_copied result) (λ ids. (ds : _) → AreRightLists ds self.now → IsRightFor ds observed.now quals.now ids) }
    {
        for list in &self.lists {
            if list.is_of(observed, quals) {
                return Some(&list.ids);
            }
        }
        None
    }

    /// Keeps a list, if it is long and there are not too many.
    fn keep(
        &mut self,
        observed: Vec<Name>,
        quals: &Quals,
        ids: &Shared<ObserverId>,
    ) -> Result<(), AllocError>
        ensures { (ds : _) → AreRightLists ds self.old → IsRightFor ds observed.items quals.now ids.now → AreRightLists ds self.new }
    {
        if ids.len() < SHARED_FROM || self.lists.len() >= LISTS_LIMIT {
            return Ok(());
        }
        let quals = quals.copy()?;
        let ids = ids.share()?;
        self.lists.push(EventList {
            observed,
            quals,
            ids,
        })?;
        Ok(())
    }

    /// The observer methods that are notified of an event of a type with some qualifiers, in order. They are counted as one
    /// evaluation, whether they are kept or not. Without memory nothing is counted.
    pub(crate) fn observers(
        &mut self,
        alloc: Global,
        index: &Index,
        event_type: Name,
        quals: &Quals,
        work: &mut Work,
    ) -> Result<Shared<ObserverId>, AllocError>
        requires { AreRightLists index.now.decls self.old }
        ensures right { AreRightLists index.now.decls self.new }
        ensures observers { IfOk result (λ ids. ids ≡ notified index.now.decls (beans index.now.decls) event_type quals.now) }
        ensures work { OnOk result (work.new ≡ with_one work.old) }
        ensures err { OnErr result (work.new ≡ work.old) }
    {
        let observed = observed_types(alloc, index, event_type)?;
        if let Some(ids) = self.find(&observed, quals) {
            let ids = ids.share()?;
            work.add_one();
            return Ok(ids);
        }
        let mut counted = *work;
        let ids = observers(alloc, index, &observed, quals.as_slice(), &mut counted)?;
        self.keep(observed, quals, &ids)?;
        *work = counted;
        Ok(ids)
    }
}
