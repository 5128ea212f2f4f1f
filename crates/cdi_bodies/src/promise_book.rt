//! Books of names and promises alone.
ghost use Rattle.std.specs.Prelude.{◌≡◌, [], OnOk, OnErr, nat_eq, option_map, slice_get};
ghost use Rattle.std.specs.Cmp.Lexicographic.{pointwise};
ghost use Rattle.indexmap.specs.IndexMap.{insert_entry};

use crate::act::{Act, Frame};
use crate::book::Bodies;
use crate::promise::Promise;
use cdi_model::{Ident, Val};
use indexmap::IndexMap;
use std::alloc::{AllocError, Global};

/// Names with promises and no functions, for programs that check a deployment and run nothing of it. Each body returns
/// null at once.
#[derive(Drop)]
pub struct PromiseBook {
    promises: IndexMap<Ident, Promise>,
}

impl PromiseBook {
    /// An empty book. It takes no memory yet.
    pub fn new(alloc: Global) -> PromiseBook
        ensures { ⟦<PromiseBook as Bodies>⟧.promises result ≡ [] }
    {
        PromiseBook {
            promises: IndexMap::new(alloc),
        }
    }

    /// Adds a name with its promise, or replaces the promise of that name. It takes memory for a new name.
    pub fn insert(&mut self, name: Ident, promise: Promise) -> Result<(), AllocError>
        ensures ok { OnOk result (⟦<PromiseBook as Bodies>⟧.promises self.new
            ≡ insert_entry (pointwise nat_eq) (⟦<PromiseBook as Bodies>⟧.promises self.old) name promise) }
        ensures err { OnErr result (⟦<PromiseBook as Bodies>⟧.promises self.new ≡ ⟦<PromiseBook as Bodies>⟧.promises self.old) }
    {
        self.promises.insert(name, promise)?;
        Ok(())
    }

    /// The promise of the body at a position.
    fn promise_at(&self, position: usize) -> Option<Promise>
        ensures { result ≡ option_map (λ body. body.1) (slice_get (⟦<PromiseBook as Bodies>⟧.promises self.now) position) }
    {
        match self.promises.get_index(position) {
            Some((_, promise)) => Some(*promise),
            None => None,
        }
    }
}

impl Bodies for PromiseBook {
    ghost promises = { λ book. book.promises.entries };

    fn position(&self, name: &Ident) -> Option<usize> {
        self.promises.get_index_of(name)
    }

    fn promise(&self, name: &Ident) -> Option<Promise> {
        let position = self.position(name)?;
        self.promise_at(position)
    }

    fn ask_at(&self, _position: usize, _frame: &Frame) -> Act {
        Act::Return(Val::Null)
    }

    fn ask(&self, name: &Ident, _frame: &Frame) -> Option<Act> {
        self.promise(name)?;
        Some(Act::Return(Val::Null))
    }
}
