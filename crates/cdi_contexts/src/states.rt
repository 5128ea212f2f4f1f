//! What instances hold for interceptors.
ghost use Rattle.std.specs.Prelude.{◌≡◌, ◌+◌, ◌<◌, ◌≤◌, [], IsOk, OnOk, OnErr};
ghost use Rattle.cdi_contexts.specs.Standing.{held_for, states_without, with_state};
ghost use Rattle.cdi_contexts.specs.States.{is_another, states_in, room_in};

use cdi_model::Val;
use indexmap::IndexMap;
use std::alloc::{AllocError, Global};
use std::hash::{Hash, Hasher};

/// Which instance holds something, and for which interceptor, by its position.
#[derive(Clone, Copy, Debug)]
pub(crate) struct Holder {
    number: u64,
    interceptor: u32,
}

/// What instances hold for interceptors, in the order in which each was first stored.
#[derive(Drop)]
pub(crate) struct States {
    held: IndexMap<Holder, Val>,
}

impl PartialEq for Holder {
    ghost use Rattle.cdi_contexts.specs.SameHolders.{same_holder, same_holder_equiv};
    ghost use Rattle.std.specs.Cmp.{partial_equiv_from_equiv};

    ghost eq = { same_holder };

    ghost laws = { partial_equiv_from_equiv same_holder_equiv };

    fn eq(&self, other: &Holder) -> bool {
        other.number == self.number && other.interceptor == self.interceptor
    }
}

impl Eq for Holder {
    ghost use Rattle.cdi_contexts.specs.SameHolders.{same_holder_equiv};

    ghost laws = { same_holder_equiv };
}

impl Hash for Holder {
    ghost use Rattle.cdi_contexts.specs.SameHolders.{holder_input, same_holders_alike};

    ghost hash_input = { holder_input };

    ghost respects_eq = { same_holders_alike };

    fn hash<H: Hasher>(&self, state: &mut H) {
        state.write_u64(self.number);
        state.write_u32(self.interceptor);
    }
}

impl States {
    /// Nothing is held. It takes no memory.
    pub(crate) fn new(alloc: Global) -> States
        ensures { states_in result ≡ [] }
    {
        States {
            held: IndexMap::new(alloc),
        }
    }

    /// What an instance holds for an interceptor: null where nothing was stored.
    pub(crate) fn held_for(&self, number: u64, interceptor: u32) -> Val
        ensures { result ≡ held_for (states_in self.now) number interceptor }
    {
        let holder = Holder {
            number,
            interceptor,
        };
        match self.held.get(&holder) {
            Some(value) => *value,
            None => Val::Null,
        }
    }

    /// Makes an instance hold this for an interceptor. It takes memory only where it held nothing for it, and none where
    /// there is room.
    pub(crate) fn store(
        &mut self,
        number: u64,
        interceptor: u32,
        value: Val,
    ) -> Result<(), AllocError>
        ensures ok { OnOk result (states_in self.new ≡ with_state number interceptor value (states_in self.old)) }
        ensures err { OnErr result (states_in self.new ≡ states_in self.old) }
        ensures possible { 0 < room_in self.old → IsOk result }
        ensures room { room_in self.old ≤ room_in self.new + 1 }
    {
        let holder = Holder {
            number,
            interceptor,
        };
        self.held.insert(holder, value)?;
        Ok(())
    }

    /// An instance holds nothing any more. It goes through what is held, and takes no memory.
    pub(crate) fn forget(&mut self, number: u64)
        ensures states { states_in self.new ≡ states_without number (states_in self.old) }
        ensures room { room_in self.old ≤ room_in self.new }
    {
        self.held.retain(
            |holder: &Holder, value: &mut Val| -> bool
                ensures { (result ≡ is_another number holder.now) × (value.new ≡ value.old) }
            { holder.number != number },
        );
    }

    /// Makes room for so many more.
    pub(crate) fn reserve(&mut self, count: usize) -> Result<(), AllocError>
        ensures states { states_in self.new ≡ states_in self.old }
        ensures room { OnOk result (count ≤ room_in self.new) }
    {
        self.held.reserve(count)?;
        Ok(())
    }

    /// Nothing is held any more. It takes no memory.
    pub(crate) fn clear(&mut self)
        ensures states { states_in self.new ≡ [] }
        ensures room { room_in self.old ≤ room_in self.new }
    {
        self.held.clear();
    }
}
