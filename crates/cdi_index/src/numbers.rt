//! The numbers of declarations after edits.
ghost use Rattle.std.specs.Prelude.{◌≡◌, ◌≤◌, ◌<◌, ◌+◌, ◌-◌, ◌^◌, Some, true, false, length, slice_get};
ghost use Rattle.cdi_model.specs.Decl.{key_of};
ghost use Rattle.cdi_model.specs.DeclList.{limit};
ghost use Rattle.cdi_model.specs.Edits.{is_among};
ghost use Rattle.cdi_index.specs.Numbers.{number_by};

use crate::affected::has_key;
use crate::shelf::Shelf;
use cdi_model::{DeclKey, Decls};

/// What the numbers of declarations after edits are told by: the declarations, what was kept before, and how many of the first
/// keep their numbers.
#[derive(Clone, Copy)]
pub(crate) struct Numbers<'a> {
    pub(crate) decls: &'a Decls,
    pub(crate) shelf: &'a Shelf,
    pub(crate) staying: usize,
}

impl Numbers<'_> {
    /// That of a declaration: its own where it stays at its place, and else one after all that there were. It takes no memory.
    pub(crate) fn of(self, key: &DeclKey) -> u64
        requires { self.shelf.now.numbered + limit < 2 ^ 64 }
        ensures { result ≡ number_by self.entry key.now }
    {
        let first = self.shelf.numbered;
        let Some(place) = self.decls.position(key.kind, &key.name) else {
            return first;
        };
        if place < self.staying {
            if let Some(number) = self.shelf.number(key) {
                return number;
            }
        }
        first + place as u64
    }
}

/// How many declarations there are before those at the end that are all edited.
pub(crate) fn staying(decls: &Decls, edited: &[DeclKey]) -> usize
    ensures within { result ≤ length decls.now }
    ensures edited { (p : _) (d : _) → result ≤ p → slice_get decls.now p ≡ Some d → is_among edited.now (key_of d) ≡ true }
    ensures last { (p : _) (d : _) → p + 1 ≡ result → slice_get decls.now p ≡ Some d → is_among edited.now (key_of d) ≡ false }
{
    let mut place = decls.len();
    'left: while place > 0 {
        match decls.at(place - 1) {
            Some(decl) if has_key(edited, &decl.key()) => place -= 1,
            _ => return place,
        }
    }
    place
}
