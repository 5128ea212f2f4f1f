//! The declarations of which edits change what is made.
ghost use Rattle.std.specs.Prelude.{◌≡◌, ◌&&◌, ◌||◌, OnOk, IfOk};
ghost use Rattle.std.specs.List.{list_any};
ghost use Rattle.indexmap.specs.IndexSet.{contains};
ghost use Rattle.cdi_model.specs.DeclKey.{same_key};
ghost use Rattle.cdi_model.specs.Edits.{is_among};
ghost use Rattle.cdi_postings.specs.Listing.{under};
ghost use Rattle.cdi_postings.specs.Words.{word_at};
ghost use Rattle.cdi_postings.specs.declared.word.Reason.TheVariants as reasons;
ghost use Rattle.cdi_index.specs.Kept.{is_reader_among, touches};
ghost use Rattle.cdi_index.specs.Made.{is_kept, reads_in, word_of};

use crate::making::Made;
use crate::shelf::Shelf;
use cdi_model::{DeclKey, Kind, Name};
use cdi_postings::{Postings, Reason, Word};
use indexmap::IndexSet;
use std::alloc::{AllocError, Global};

/// Whether something is made of the declarations of a kind.
fn is_kept(kind: Kind) -> bool
    ensures { result ≡ is_kept kind }
{
    match kind {
        Kind::Type | Kind::Bean | Kind::Interceptor | Kind::Binding => true,
        _ => false,
    }
}

/// Whether a key is among some.
pub(crate) fn has_key(keys: &[DeclKey], key: &DeclKey) -> bool
    ensures { result ≡ is_among keys.now key.now }
{
    keys.iter().any(|other| *other == *key)
}

/// The word under which those are listed that read the declaration of a key.
pub(crate) fn word_of(key: &DeclKey) -> Word
    ensures { result ≡ word_of key.now }
{
    Word {
        reason: Reason::RestsOn(key.kind),
        name: key.name,
    }
}

/// The word under which those are listed that replace the bean of a class.
pub(crate) fn word_of_replaced(class: &Name) -> Word
    ensures { result ≡ word_at reasons.Replaces class.now }
{
    Word {
        reason: Reason::Replaces,
        name: *class,
    }
}

/// Adds the declarations at some slots of which what is made read another one.
fn add_readers(
    shelf: &Shelf,
    slots: &[u64],
    key: &DeclKey,
    affected: &mut IndexSet<DeclKey>,
) -> Result<(), AllocError>
    ensures { OnOk result ((k : _) → contains same_key affected.new k
        ≡ (contains same_key affected.old k || is_reader_among shelf.now slots.now k key.now)) }
{
    for slot in slots {
        if let Some(kept) = shelf.kept.get(slot) {
            if has_key(kept.made.reads.as_slice(), key) {
                affected.insert(kept.key)?;
            }
        }
    }
    Ok(())
}

/// The declarations of which what is made read that of a key, each once. It looks only at those that are listed for it.
pub(crate) fn readers_of(
    alloc: Global,
    shelf: &Shelf,
    postings: &Postings,
    key: &DeclKey,
) -> Result<Vec<DeclKey>, AllocError>
    ensures { IfOk result (λ list. (k : _) → is_among list.items k
        ≡ is_reader_among shelf.now (under postings.now (word_of key.now)) k key.now) }
{
    let mut readers = IndexSet::new(alloc);
    add_readers(shelf, postings.under(word_of(key)), key, &mut readers)?;
    copy_keys(alloc, readers.as_slice())
}

/// Copies of some keys.
pub(crate) fn copy_keys(alloc: Global, keys: &[DeclKey]) -> Result<Vec<DeclKey>, AllocError>
    ensures { IfOk result (λ copy. copy.items ≡ keys.now) }
{
    let mut copy = Vec::with_capacity(alloc, keys.len())?;
    for key in keys {
        copy.push(*key)?;
    }
    Ok(copy)
}

/// Adds the declarations that an edit of a key affects.
fn add_affected(
    shelf: &Shelf,
    postings: &Postings,
    key: &DeclKey,
    affected: &mut IndexSet<DeclKey>,
) -> Result<(), AllocError>
    ensures { OnOk result ((k : _) → contains same_key affected.new k
        ≡ (contains same_key affected.old k || touches shelf.now postings.now k key.now)) }
{
    if is_kept(key.kind) {
        affected.insert(*key)?;
    }
    add_readers(shelf, postings.under(word_of(key)), key, affected)
}

/// The declarations of which edits of some keys change what is made. It looks only at what is listed under their words.
pub(crate) fn affected_by(
    alloc: Global,
    shelf: &Shelf,
    postings: &Postings,
    keys: &[DeclKey],
) -> Result<IndexSet<DeclKey>, AllocError>
    ensures { IfOk result (λ affected. (k : _) → contains same_key affected k
        ≡ list_any (touches shelf.now postings.now k) keys.now) }
{
    let mut affected = IndexSet::new(alloc);
    for key in keys {
        add_affected(shelf, postings, key, &mut affected)?;
    }
    Ok(affected)
}
