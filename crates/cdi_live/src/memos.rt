//! The answers that are kept.
ghost use Rattle.std.specs.Prelude.{◌≡◌};
ghost use Rattle.cdi_live.specs.Kept.{no_answers, Forgets};

use crate::chain_gone::GoneChain;
use crate::chain_place::ChainPlace;
use crate::chains::forget_chains;
use crate::choices::forget;
use crate::events::forget_events;
use crate::gone::Gone;
use cdi_memo::Memo;
use cdi_model::{Name, Quals};
use cdi_observe::{ObserverId, Shared};
use cdi_resolve::Choice;
use std::alloc::Global;

/// The answers that are kept: the beans of types and qualifiers, the interceptors around places of the beans of classes, and
/// the observer methods of events by their types and qualifiers.
pub(crate) struct Memos {
    pub(crate) choices: Memo<Quals, Choice>,
    pub(crate) chains: Memo<ChainPlace, Shared<Name>>,
    pub(crate) events: Memo<Quals, Shared<ObserverId>>,
}

impl Drop for Memos {
    fn drop(self) {
        let Memos {
            choices: _,
            chains: _,
            events: _,
        } = self;
    }
}

/// The kept answers that go at the next commit.
#[derive(Drop)]
pub(crate) struct Going {
    pub(crate) choices: Vec<Gone>,
    pub(crate) chains: Vec<GoneChain>,
    pub(crate) events: Vec<Gone>,
}

impl Memos {
    pub(crate) fn new(alloc: Global) -> Memos
        ensures { result ≡ no_answers }
    {
        Memos {
            choices: Memo::new(alloc),
            chains: Memo::new(alloc),
            events: Memo::new(alloc),
        }
    }

    /// Keeps some answers no more. It takes no memory.
    pub(crate) fn forget(&mut self, going: Going)
        ensures { Forgets self.old going self.new }
    {
        forget(&mut self.choices, going.choices);
        forget_chains(&mut self.chains, going.chains);
        forget_events(&mut self.events, going.events);
    }
}
