//! The slots that are listed under words.
ghost use Rattle.std.specs.Prelude.{◌≡◌, nat_eq, [], ◌&&◌, ◌||◌, not, OnOk, OnErr};
ghost use Rattle.cdi_postings.specs.Listing.{is_in, is_listed, under, Lists, ListTheSame, Unlists};
ghost use Rattle.cdi_postings.specs.Words.{same_word};

use crate::word::Word;
use indexmap::{IndexMap, IndexSet};
use std::alloc::{AllocError, Global};
use std::marker::Model;

/// The slots that are listed under each word, each once, in no order.
pub struct Postings {
    map: IndexMap<Word, IndexSet<u64>>,
}

impl Drop for Postings {
    fn drop(self) {
        let Postings { map: _ } = self;
    }
}

impl Model for Postings {
    ghost use Rattle.std.specs.Prelude.{List};
    ghost use Rattle.cdi_postings.specs.Listing.{Listing, listings};

    ghost Value = { List Listing };

    ghost view = { λ p. listings p.map.entries };
}

impl Postings {
    /// Nothing is listed. It takes no memory yet.
    pub fn new(alloc: Global) -> Postings
        ensures { result ≡ [] }
    {
        Postings {
            map: IndexMap::new(alloc),
        }
    }

    /// The slots under a word, in no order. It takes no memory.
    pub fn under(&self, word: Word) -> &[u64]
        ensures { result.now ≡ under self.now word }
    {
        match self.map.get(&word) {
            Some(slots) => slots.as_slice(),
            None => &[],
        }
    }

    /// Lists a slot under a word. What is listed already stays. Without memory nothing more is listed.
    pub fn list(&mut self, word: Word, slot: u64) -> Result<(), AllocError>
        ensures ok { OnOk result (Lists word slot self.old self.new) }
        ensures err { OnErr result (ListTheSame self.old self.new) }
    {
        list_in(&mut self.map, word, slot)
    }

    /// Lists a slot no more under a word. Everything else stays. It takes no memory.
    pub fn unlist(&mut self, word: Word, slot: u64)
        ensures { Unlists word slot self.old self.new }
    {
        unlist_in(&mut self.map, word, slot);
    }
}

fn list_in(map: &mut IndexMap<Word, IndexSet<u64>>, word: Word, slot: u64) -> Result<(), AllocError>
    ensures ok { OnOk result ((w : _) (k : _) → is_in map.new w k ≡ (is_in map.old w k || (same_word word w && nat_eq slot k))) }
    ensures err { OnErr result ((w : _) (k : _) → is_in map.new w k ≡ is_in map.old w k) }
{
    if let Some(slots) = map.get_mut(&word) {
        slots.insert(slot)?;
        return Ok(());
    }
    let mut slots = IndexSet::new(*map.allocator());
    slots.insert(slot)?;
    map.insert(word, slots)?;
    Ok(())
}

fn unlist_in(map: &mut IndexMap<Word, IndexSet<u64>>, word: Word, slot: u64)
    ensures { (w : _) (k : _) → is_in map.new w k ≡ (is_in map.old w k && not (same_word word w && nat_eq slot k)) }
{
    let Some(slots) = map.get_mut(&word) else {
        return;
    };
    slots.swap_remove(&slot);
    if slots.is_empty() {
        map.swap_remove(&word);
    }
}
