//! What is kept of declarations, by slots.
ghost use Rattle.std.specs.Prelude.{◌≡◌, ◌≤◌, ◌<◌, ◌+◌, ◌⊎◌, ◌^◌, ℕ, List, Option, Some, None, cond, option_map, OnOk};
ghost use Rattle.std.specs.Option.{option_copied};
ghost use Rattle.indexmap.specs.IndexMap.{get, spare};
ghost use Rattle.cdi_model.specs.DeclKey.{same_key};
ghost use Rattle.cdi_model.specs.DeclList.{limit};
ghost use Rattle.cdi_model.specs.declared.key.DeclKey.{DeclKey as AnyKey};
ghost use Rattle.cdi_effective.specs.declared.records.Effective.{Effective as AnyBean};
ghost use Rattle.cdi_index.specs.declared.shelf.Kept.{Kept as AnyKept};
ghost use Rattle.cdi_index.specs.Kept.{kept_at, made_in, number_in, slot_of, stored, IsShelf};
ghost use Rattle.cdi_index.specs.Slots.{entry_kept};

use crate::making::Made;
use cdi_effective::Effective;
use cdi_model::{DECLS_LIMIT, DeclKey, Seq};
use indexmap::IndexMap;
use std::alloc::{AllocError, Global};

/// What is kept at a slot: a declaration's key, its number, and what is made of it. A put that replaces a declaration keeps its
/// number, and numbers rise along the list of declarations.
#[derive(Drop)]
pub(crate) struct Kept {
    pub(crate) key: DeclKey,
    pub(crate) number: u64,
    pub(crate) made: Made,
}

/// What is kept of declarations, each at a slot of its own: a number that each version of what is made gets anew. So what is
/// listed by its slot is found without its name. A slot may be listed too long: then it leads to nothing, or to what is
/// kept there since, which tells by itself whether it is looked for.
pub(crate) struct Shelf {
    pub(crate) slots: IndexMap<DeclKey, u64>,
    pub(crate) kept: IndexMap<u64, Kept>,
    /// No slot from this one on was given at a commit. A stage that is given up leaves it, so its slots are given again.
    pub(crate) given: u64,
    /// No declaration has this number or a later one.
    pub(crate) numbered: u64,
    /// The records of the beans that others replace.
    pub(crate) replaced: IndexMap<DeclKey, Seq<Effective>>,
}

impl Drop for Shelf {
    fn drop(self) {
        let Shelf {
            slots: _,
            kept: _,
            given: _,
            numbered: _,
            replaced: _,
        } = self;
    }
}

/// What is kept at a slot, lent.
#[derive(Clone, Copy)]
pub(crate) struct Entry<'a> {
    pub(crate) key: &'a DeclKey,
    pub(crate) number: u64,
    pub(crate) made: &'a Made,
}

/// What is kept of declarations by slots, before the next commit or after it.
pub(crate) trait Slots {
    /// What is kept at each slot.
    ghost kept: { Self → ℕ → Option AnyKept };

    /// The records of each bean that another replaces.
    ghost replaced: { Self → AnyKey → Option (List AnyBean) };

    /// What is kept at a slot. It takes no memory.
    fn at(&self, slot: u64) -> Option<Entry<'_>>
        ensures { option_map entry_kept result ≡ kept self.now slot };

    /// The records of a bean, where another replaces it. It takes no memory.
    fn records_replaced(&self, key: &DeclKey) -> Option<&Seq<Effective>>
        ensures { option_copied result ≡ replaced self.now key.now };
}

impl Slots for Shelf {
    ghost use Rattle.cdi_index.specs.Kept.{kept_at};

    ghost kept = { λ s. kept_at s };

    ghost replaced = { λ s. get same_key s.replaced };

    fn at(&self, slot: u64) -> Option<Entry<'_>> {
        let kept = self.kept.get(&slot)?;
        Some(Entry {
            key: &kept.key,
            number: kept.number,
            made: &kept.made,
        })
    }

    fn records_replaced(&self, key: &DeclKey) -> Option<&Seq<Effective>> {
        self.replaced.get(key)
    }
}

impl Shelf {
    /// Nothing is kept. It takes no memory yet.
    pub(crate) fn new(alloc: Global) -> Shelf
        ensures shelf { IsShelf result }
        ensures empty { (k : _) → stored result k ≡ None }
        ensures free { (s : _) → kept_at result s ≡ None }
        ensures replaced { (k : _) → get same_key result.replaced k ≡ None }
    {
        Shelf {
            slots: IndexMap::new(alloc),
            kept: IndexMap::new(alloc),
            given: 0,
            numbered: 0,
            replaced: IndexMap::new(alloc),
        }
    }

    /// What is kept of a declaration. It takes no memory.
    pub(crate) fn find(&self, key: &DeclKey) -> Option<&Made>
        ensures { option_copied result ≡ made_in (stored self.now key.now) }
    {
        let slot = self.slots.get(key)?;
        let kept = self.kept.get(slot)?;
        Some(&kept.made)
    }

    /// The number of a declaration of which something is kept. It takes no memory.
    pub(crate) fn number(&self, key: &DeclKey) -> Option<u64>
        ensures { result ≡ number_in (stored self.now key.now) }
    {
        let slot = self.slots.get(key)?;
        let kept = self.kept.get(slot)?;
        Some(kept.number)
    }

    /// Makes room for so many declarations, for which there are slots and numbers too. It takes memory for them.
    pub(crate) fn reserve(&mut self, more: usize) -> Result<(), AllocError>
        ensures entries { self.new.slots.entries ≡ self.old.slots.entries }
        ensures others { self.new.kept.entries ≡ self.old.kept.entries }
        ensures given { self.new.given ≡ self.old.given }
        ensures numbered { self.new.numbered ≡ self.old.numbered }
        ensures replaced { self.new.replaced ≡ self.old.replaced }
        ensures given_more { OnOk result (self.new.given + more < 2 ^ 64) }
        ensures numbers { OnOk result (self.new.numbered + limit < 2 ^ 64) }
        ensures slots { OnOk result (more ≤ spare self.new.slots) }
        ensures kept { OnOk result (more ≤ spare self.new.kept) }
    {
        self.slots.reserve(more)?;
        self.kept.reserve(more)?;
        match (
            self.given.checked_add(more as u64),
            self.numbered.checked_add(DECLS_LIMIT as u64),
        ) {
            (Some(_), Some(_)) => Ok(()),
            _ => Err(AllocError),
        }
    }

    /// Takes out what is kept of a declaration, with its slot. It takes no memory.
    pub(crate) fn take_out(&mut self, key: &DeclKey) -> Option<(u64, Kept)>
        requires { IsShelf self.old }
        ensures shelf { IsShelf self.new }
        ensures taken { result ≡ stored self.old key.now }
        ensures stored { (k : _) → stored self.new k ≡ cond (same_key key.now k) None (stored self.old k) }
        ensures gone { slot_of self.new key.now ≡ None }
        ensures others { (s : _) (e : _) → kept_at self.new s ≡ Some e → kept_at self.old s ≡ Some e }
        ensures given { self.new.given ≡ self.old.given }
        ensures numbered { self.new.numbered ≡ self.old.numbered }
        ensures replaced { self.new.replaced ≡ self.old.replaced }
        ensures slots { spare self.old.slots ≤ spare self.new.slots }
        ensures kept { spare self.old.kept ≤ spare self.new.kept }
    {
        let slot = self.slots.swap_remove(key)?;
        let kept = self.kept.swap_remove(&slot)?;
        Some((slot, kept))
    }

    /// Keeps what is made of a declaration at a slot that is free. It takes no memory where there is room.
    pub(crate) fn put_in(&mut self, slot: u64, kept: Kept)
        requires shelf { IsShelf self.old }
        requires absent { slot_of self.old kept.key ≡ None }
        requires free { kept_at self.old slot ≡ None }
        requires slots { 0 < spare self.old.slots }
        requires kept { 0 < spare self.old.kept }
        ensures shelf { IsShelf self.new }
        ensures stored { (k : _) → stored self.new k ≡ cond (same_key kept.key k) (Some (slot, kept)) (stored self.old k) }
        ensures others { (s : _) (e : _) → kept_at self.new s ≡ Some e → (s ≡ slot) ⊎ (kept_at self.old s ≡ Some e) }
        ensures given { self.new.given ≡ self.old.given }
        ensures numbered { self.new.numbered ≡ self.old.numbered }
        ensures replaced { self.new.replaced ≡ self.old.replaced }
        ensures slots { spare self.old.slots ≤ spare self.new.slots + 1 }
        ensures kept { spare self.old.kept ≤ spare self.new.kept + 1 }
    {
        self.slots.insert(kept.key, slot).unwrap();
        self.kept.insert(slot, kept).unwrap();
    }
}
