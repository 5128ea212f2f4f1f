//! Takes changes over, without memory.
ghost use Rattle.std.specs.Prelude.{◌≡◌, ◌≢◌, ◌≤◌, ◌<◌, ◌+◌, ◌^◌, ◌⊎◌, true, Some, None, length, cond, option_map};
ghost use Rattle.indexmap.specs.IndexMap.{spare};
ghost use Rattle.cdi_model.specs.DeclKey.{same_key};
ghost use Rattle.cdi_postings.specs.Listing.{is_listed};
ghost use Rattle.cdi_index.specs.Kept.{kept_at, stored, IsFreeFrom, IsShelf, IsSound};
ghost use Rattle.cdi_index.specs.Next.{applied, stored_as};

use crate::affected::{word_of, word_of_replaced};
use crate::change::Change;
use crate::shelf::{Kept, Shelf};
use cdi_model::{DeclKey, Name};
use cdi_postings::{Postings, Word};

/// Lists a slot no more under the words of some keys. It takes no memory.
fn unlist_keys(postings: &mut Postings, slot: u64, reads: &[DeclKey])
    ensures { (w : _) (s : _) → s ≢ slot → is_listed postings.old w s ≡ true → is_listed postings.new w s ≡ true }
{
    for read in reads {
        postings.unlist(word_of(read), slot);
    }
}

/// Lists a slot no more under the words of some beans that are replaced. It takes no memory.
fn unlist_classes(postings: &mut Postings, slot: u64, classes: &[Name])
    ensures { (w : _) (s : _) → s ≢ slot → is_listed postings.old w s ≡ true → is_listed postings.new w s ≡ true }
{
    for class in classes {
        postings.unlist(word_of_replaced(class), slot);
    }
}

/// Lists a slot no more under some words. It takes no memory.
fn unlist_each(postings: &mut Postings, slot: u64, words: &[Word])
    ensures { (w : _) (s : _) → s ≢ slot → is_listed postings.old w s ≡ true → is_listed postings.new w s ≡ true }
{
    for word in words {
        postings.unlist(*word, slot);
    }
}

/// Takes a change over, at a slot that is free. It takes no memory where there is room.
fn install_one(shelf: &mut Shelf, postings: &mut Postings, slot: u64, change: Change)
    requires shelf { IsShelf shelf.old }
    requires free { kept_at shelf.old slot ≡ None }
    requires slots { 0 < spare shelf.old.slots }
    requires kept { 0 < spare shelf.old.kept }
    ensures shelf { IsShelf shelf.new }
    ensures stored { (k : _) → stored shelf.new k ≡ cond (same_key change.key k) (stored_as slot change) (stored shelf.old k) }
    ensures others { (s : _) (e : _) → kept_at shelf.new s ≡ Some e → (s ≡ slot) ⊎ (kept_at shelf.old s ≡ Some e) }
    ensures given { shelf.new.given ≡ shelf.old.given }
    ensures numbered { shelf.new.numbered ≡ shelf.old.numbered }
    ensures replaced { shelf.new.replaced ≡ shelf.old.replaced }
    ensures slots { spare shelf.old.slots ≤ spare shelf.new.slots + 1 }
    ensures kept { spare shelf.old.kept ≤ spare shelf.new.kept + 1 }
    ensures listed { (w : _) (s : _) → option_map (λ m. m.0) (stored shelf.old change.key) ≢ Some s
        → is_listed postings.old w s ≡ true → is_listed postings.new w s ≡ true }
{
    let Change { key, number, made } = change;
    if let Some((old, before)) = shelf.take_out(&key) {
        unlist_keys(postings, old, before.made.reads.as_slice());
        unlist_classes(postings, old, before.made.replaces.as_slice());
        unlist_each(postings, old, before.made.words.as_slice());
    }
    if let Some(made) = made {
        shelf.put_in(slot, Kept { key, number, made });
    }
}

/// Takes changes over, at slots numbered from `first` on. It takes no memory where there is room for them.
pub(crate) fn install(
    shelf: &mut Shelf,
    postings: &mut Postings,
    first: u64,
    mut changes: Vec<Change>,
)
    requires shelf { IsShelf shelf.old }
    requires free { IsFreeFrom first shelf.old }
    requires sound { IsSound (applied first changes.items (stored shelf.old)) postings.old }
    requires numbers { first + length changes.items < 2 ^ 64 }
    requires slots { length changes.items ≤ spare shelf.old.slots }
    requires kept { length changes.items ≤ spare shelf.old.kept }
    ensures shelf { IsShelf shelf.new }
    ensures free { IsFreeFrom (first + length changes.items) shelf.new }
    ensures given { shelf.new.given ≡ shelf.old.given }
    ensures numbered { shelf.new.numbered ≡ shelf.old.numbered }
    ensures replaced { shelf.new.replaced ≡ shelf.old.replaced }
    ensures stored { (k : _) → stored shelf.new k ≡ applied first changes.items (stored shelf.old) k }
    ensures sound { IsSound (stored shelf.new) postings.new }
{
    'left: while let Some(change) = changes.pop() {
        let slot = first + changes.len() as u64;
        install_one(shelf, postings, slot, change);
    }
}
