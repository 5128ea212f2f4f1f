//! The entries of a command, in blocks: what is pushed moves none of those before it.
ghost use Rattle.std.specs.Prelude.{◌≡◌, ◌+◌, ◌<◌, ◌≤◌, [], ◌∷◌, ◌++◌, IsOk, OnErr, OnOk};
ghost use Rattle.std.specs.Iterator.{YieldsFirst, item_count};

use crate::entry::Entry;
use crate::packed::Packed;
use std::alloc::{AllocError, Global};
use std::marker::Model;
use std::mem::replace;

/// How many entries the first block has room for.
const FIRST_BLOCK: usize = 128;

/// How many entries a block has room for at most, unless more are reserved at once: those of 4 MiB.
const BLOCK_LIMIT: usize = 131_072;

/// The entries of a command, in order. An entry takes 32 bytes. It is seen as the list of them, and how many more need no
/// memory.
#[derive(Drop)]
pub struct Trace {
    /// The blocks before the last one.
    blocks: Vec<Vec<Packed>>,
    last: Vec<Packed>,
}

impl Model for Trace {
    ghost use Rattle.std.specs.Prelude.{◌-◌};
    ghost use Rattle.std.specs.Vec.{vec_len, vec_capacity};
    ghost use Rattle.cdi_legal.specs.Traced.{kept_in, Traced};

    ghost Value = { Traced };

    ghost view = { λ t. record {
      entries = kept_in t.blocks.items t.last.items;
      room = vec_capacity t.last - vec_len t.last;
    } };
}

impl Trace {
    /// No entry. It takes no memory.
    pub fn new(alloc: Global) -> Trace
        ensures { result.entries ≡ [] }
    {
        Trace {
            blocks: Vec::new(alloc),
            last: Vec::new(alloc),
        }
    }

    /// Appends an entry. It takes no memory where there is room; an error leaves all entries as they were.
    #[inline(always)]
    pub(crate) fn push(&mut self, entry: Entry) -> Result<(), AllocError>
        ensures ok { OnOk result (self.new.entries ≡ self.old.entries ++ entry ∷ []) }
        ensures err { OnErr result (self.new.entries ≡ self.old.entries) }
        ensures possible { 0 < self.old.room → IsOk result }
        ensures room { self.old.room ≤ self.new.room + 1 }
    {
        if self.last.len() == self.last.capacity() {
            self.begin_block(1)?;
        }
        self.last.push(Packed::of(entry))?;
        Ok(())
    }

    /// Makes room for so many entries.
    pub(crate) fn reserve(&mut self, count: usize) -> Result<(), AllocError>
        ensures entries { self.new.entries ≡ self.old.entries }
        ensures room { OnOk result (count ≤ self.new.room) }
    {
        if self.last.capacity() - self.last.len() < count {
            self.begin_block(count)?;
        }
        Ok(())
    }

    /// A further block, with room for so many entries at least. Blocks grow by twice up to their limit.
    fn begin_block(&mut self, count: usize) -> Result<(), AllocError>
        ensures entries { self.new.entries ≡ self.old.entries }
        ensures room { OnOk result (count ≤ self.new.room) }
        ensures err { OnErr result (self.new.room ≡ self.old.room) }
    {
        let doubled = self.last.capacity().saturating_mul(2);
        let size = doubled.clamp(FIRST_BLOCK, BLOCK_LIMIT).max(count);
        let block = Vec::with_capacity(*self.last.allocator(), size)?;
        self.blocks.reserve(1)?;
        let filled = replace(&mut self.last, block);
        let Ok(()) = self.blocks.push(filled) else {
            unreachable!()
        };
        Ok(())
    }

    /// No entry any more. The room stays.
    pub(crate) fn clear(&mut self)
        ensures entries { self.new.entries ≡ [] }
        ensures room { self.old.room ≤ self.new.room }
    {
        self.blocks.clear();
        self.last.clear();
    }

    /// No entry any more, and memory beyond that of one block of 4 MiB is given back.
    pub(crate) fn give_back(&mut self)
        ensures { self.new.entries ≡ [] }
    {
        self.clear();
        if self.last.capacity() > BLOCK_LIMIT {
            self.last = Vec::new(*self.last.allocator());
        }
    }

    /// The entries, in order.
    pub fn iter(&self) -> Entries<'_>
        ensures { result ≡ self.now.entries }
    {
        Entries {
            here: &[],
            blocks: self.blocks.as_slice(),
            last: self.last.as_slice(),
        }
    }
}

/// The entries of a trace that are still to come.
#[derive(Drop)]
pub struct Entries<'a> {
    here: &'a [Packed],
    blocks: &'a [Vec<Packed>],
    last: &'a [Packed],
}

impl<'a> Model for Entries<'a> {
    ghost use Rattle.std.specs.Prelude.{List, ◌++◌, map};
    ghost use Rattle.cdi_legal.specs.Packed.{entry_of};
    ghost use Rattle.cdi_legal.specs.Traced.{kept_in};
    ghost use Rattle.cdi_legal.specs.declared.entry.Entry.{Entry as AnyEntry};

    ghost Value = { List AnyEntry };

    ghost view = { λ e. map entry_of e.here.now ++ kept_in e.blocks.now e.last.now };
}

impl Entries<'_> {
    /// No entry.
    pub fn none() -> Entries<'static>
        ensures { result ≡ [] }
    {
        Entries {
            here: &[],
            blocks: &[],
            last: &[],
        }
    }
}

impl Iterator for Entries<'_> {
    type Item = Entry;

    ghost next_gives = { YieldsFirst (λ s. s) };

    ghost remaining = { item_count (λ s. s) };

    fn next(&mut self) -> Option<Entry> {
        'empty: while self.here.is_empty() {
            match self.blocks.split_first() {
                Some((block, rest)) => {
                    self.here = block.as_slice();
                    self.blocks = rest;
                }
                None => {
                    self.here = self.last;
                    self.last = &[];
                    break 'empty;
                }
            }
        }
        let (packed, rest) = self.here.split_first()?;
        self.here = rest;
        Some(packed.entry())
    }
}
