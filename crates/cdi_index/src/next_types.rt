//! The types of types after edits: those that are kept, and those that are closed anew.
ghost use Rattle.std.specs.Prelude.{◌≡◌, Some, false, IfOk};
ghost use Rattle.indexmap.specs.IndexMap.{get};
ghost use Rattle.indexmap.specs.IndexSet.{contains};
ghost use Rattle.cdi_match.specs.Types.{types_of};
ghost use Rattle.cdi_model.specs.DeclKey.{same_key};
ghost use Rattle.cdi_index.specs.Kept.{made_in, stored};
ghost use Rattle.cdi_index.specs.Made.{made_of, AreClosed};

use crate::making::{Given, Made};
use crate::shelf::Shelf;
use cdi_effective::Closures;
use cdi_match::closure;
use cdi_model::{DeclKey, Decls, Kind, Name};
use indexmap::{IndexMap, IndexSet};
use std::alloc::{AllocError, Global};

/// Tells the types of types after edits. Each declared type that these affect is closed once.
#[derive(Drop)]
pub(crate) struct NextTypes<'a> {
    pub(crate) decls: &'a Decls,
    shelf: &'a Shelf,
    affected: &'a IndexSet<DeclKey>,
    closed: IndexMap<DeclKey, Vec<Name>>,
    ghost kept: { (k : _) → contains same_key affected.now k ≡ false → made_in (stored shelf.now k) ≡ made_of decls.now k },
    ghost anew: { AreClosed decls.now (get same_key closed) },
}

impl<'a> NextTypes<'a> {
    /// Those after edits, which affect these declarations. It takes memory for the types of those that it closes.
    pub(crate) fn of(
        alloc: Global,
        decls: &'a Decls,
        shelf: &'a Shelf,
        affected: &'a IndexSet<DeclKey>,
    ) -> Result<NextTypes<'a>, AllocError>
        requires { (k : _) → contains same_key affected.now k ≡ false → made_in (stored shelf.now k) ≡ made_of decls.now k }
        ensures { IfOk result (λ types. types.decls.now ≡ decls.now) }
    {
        let closed = close_all(alloc, decls, affected.as_slice())?;
        Ok(NextTypes {
            decls,
            shelf,
            affected,
            closed,
        })
    }
}

impl<'a> Closures for NextTypes<'a> {
    ghost list = { λ t. t.decls.now };

    fn types_of(&self, alloc: Global, name: Name) -> Result<Vec<Name>, AllocError> {
        let key = DeclKey {
            kind: Kind::Type,
            name,
        };
        if let Some(types) = self.closed.get(&key) {
            return copy(alloc, types.as_slice());
        }
        if self.affected.contains(&key) {
            return closure(alloc, self.decls, name);
        }
        match self.shelf.find(&key) {
            Some(
                Made {
                    given: Given::Types(types),
                    ..
                },
            ) => copy(alloc, types.as_slice()),
            _ => closure(alloc, self.decls, name),
        }
    }
}

/// Closes the declared types among some keys.
fn close_all(
    alloc: Global,
    decls: &Decls,
    keys: &[DeclKey],
) -> Result<IndexMap<DeclKey, Vec<Name>>, AllocError>
    ensures { IfOk result (λ closed. AreClosed decls.now (get same_key closed)) }
{
    let mut closed = IndexMap::new(alloc);
    for key in keys {
        if key.kind == Kind::Type && decls.get(Kind::Type, &key.name).is_some() {
            let types = closure(alloc, decls, key.name)?;
            closed.insert(*key, types)?;
        }
    }
    Ok(closed)
}

/// Copies of some names.
fn copy(alloc: Global, names: &[Name]) -> Result<Vec<Name>, AllocError>
    ensures { IfOk result (λ copy. copy.items ≡ names.now) }
{
    let mut list = Vec::with_capacity(alloc, names.len())?;
    for name in names {
        list.push(*name)?;
    }
    Ok(list)
}
