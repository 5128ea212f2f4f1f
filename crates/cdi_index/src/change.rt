//! What is made of declarations anew.
ghost use Rattle.std.specs.Prelude.{◌≡◌, ◌<◌, ◌+◌, ◌-◌, ◌^◌, true, false, map, filter, length, Some, IfOk, OnOk};
ghost use Rattle.std.specs.List.{list_any, slice_get};
ghost use Rattle.indexmap.specs.IndexSet.{contains};
ghost use Rattle.cdi_model.specs.DeclKey.{kind_number, same_key};
ghost use Rattle.cdi_model.specs.DeclList.{limit};
ghost use Rattle.cdi_postings.specs.Listing.{is_listed};
ghost use Rattle.cdi_index.specs.Counted.{is_of_kind};
ghost use Rattle.cdi_index.specs.Kept.{made_in, stored, Keeps};
ghost use Rattle.cdi_index.specs.Made.{classes_have, has_word, keys_have, made_of, words_have};
ghost use Rattle.cdi_index.specs.Next.{change_of, is_made};
ghost use Rattle.cdi_index.specs.Numbers.{number_by};

use crate::affected::{word_of, word_of_replaced};
use crate::making::{Made, make};
use crate::next_types::NextTypes;
use crate::numbers::Numbers;
use cdi_model::{DeclKey, Kind, Name};
use cdi_postings::{Postings, Word};
use indexmap::IndexSet;
use std::alloc::{AllocError, Global};

/// What is made of the declaration of a key, where there is one of which something is, and its number.
#[derive(Drop)]
pub(crate) struct Change {
    pub(crate) key: DeclKey,
    pub(crate) number: u64,
    pub(crate) made: Option<Made>,
}

/// Lists a slot under the words of some keys.
fn list_keys(postings: &mut Postings, slot: u64, reads: &[DeclKey]) -> Result<(), AllocError>
    ensures kept { Keeps postings.old postings.new }
    ensures listed { OnOk result ((w : _) → keys_have reads.now w ≡ true → is_listed postings.new w slot ≡ true) }
{
    for read in reads {
        postings.list(word_of(read), slot)?;
    }
    Ok(())
}

/// Lists a slot under the words of some beans that are replaced.
fn list_classes(postings: &mut Postings, slot: u64, classes: &[Name]) -> Result<(), AllocError>
    ensures kept { Keeps postings.old postings.new }
    ensures listed { OnOk result ((w : _) → classes_have classes.now w ≡ true → is_listed postings.new w slot ≡ true) }
{
    for class in classes {
        postings.list(word_of_replaced(class), slot)?;
    }
    Ok(())
}

/// Lists a slot under some words.
fn list_each(postings: &mut Postings, slot: u64, words: &[Word]) -> Result<(), AllocError>
    ensures kept { Keeps postings.old postings.new }
    ensures listed { OnOk result ((w : _) → words_have words.now w ≡ true → is_listed postings.new w slot ≡ true) }
{
    for word in words {
        postings.list(*word, slot)?;
    }
    Ok(())
}

/// Lists a slot under the words of what is made of a declaration.
fn list_words(postings: &mut Postings, slot: u64, made: &Option<Made>) -> Result<(), AllocError>
    ensures kept { Keeps postings.old postings.new }
    ensures listed { OnOk result ((w : _) → has_word made.now w ≡ true → is_listed postings.new w slot ≡ true) }
{
    match made {
        Some(made) => {
            list_keys(postings, slot, made.reads.as_slice())?;
            list_classes(postings, slot, made.replaces.as_slice())?;
            list_each(postings, slot, made.words.as_slice())
        }
        None => Ok(()),
    }
}

/// Makes what is made of the declarations of some keys, with their numbers, and lists slots from the next one on under the words
/// of it.
fn change_all(
    alloc: Global,
    types: &NextTypes<'_>,
    keys: &[DeclKey],
    numbers: Numbers<'_>,
    postings: &mut Postings,
) -> Result<Vec<Change>, AllocError>
    requires slots { numbers.shelf.now.given + length keys.now < 2 ^ 64 }
    requires numbers { numbers.shelf.now.numbered + limit < 2 ^ 64 }
    ensures kept { Keeps postings.old postings.new }
    ensures changes { IfOk result (λ changes. changes.items ≡ map (change_of types.now.decls.now (number_by numbers.entry)) keys.now) }
    ensures listed { IfOk result (λ changes. (w : _) (i : _) (k : _) → slice_get keys.now i ≡ Some k
        → has_word (made_of types.now.decls.now k) w ≡ true → is_listed postings.new w (numbers.entry.shelf.now.given + i) ≡ true) }
{
    let mut changes = Vec::with_capacity(alloc, keys.len())?;
    for key in keys {
        let made = make(alloc, types, key)?;
        list_words(postings, numbers.shelf.given + changes.len() as u64, &made)?;
        changes.push(Change {
            key: *key,
            number: numbers.of(key),
            made,
        })?;
    }
    Ok(changes)
}

/// Makes what is made of affected declarations, as `change_all` does.
pub(crate) fn change_affected<'a>(
    alloc: Global,
    numbers: Numbers<'a>,
    affected: &'a IndexSet<DeclKey>,
    postings: &mut Postings,
) -> Result<Vec<Change>, AllocError>
    requires kept { (k : _) → contains same_key affected.now k ≡ false
        → made_in (stored numbers.shelf.now k) ≡ made_of numbers.decls.now k }
    requires slots { numbers.shelf.now.given + length affected.now.keys < 2 ^ 64 }
    requires numbers { numbers.shelf.now.numbered + limit < 2 ^ 64 }
    ensures kept { Keeps postings.old postings.new }
    ensures changes { IfOk result (λ changes. changes.items
        ≡ map (change_of numbers.entry.decls.now (number_by numbers.entry)) affected.now.keys) }
    ensures listed { IfOk result (λ changes. (w : _) (i : _) (k : _) → slice_get affected.now.keys i ≡ Some k
        → has_word (made_of numbers.entry.decls.now k) w ≡ true → is_listed postings.new w (numbers.entry.shelf.now.given + i) ≡ true) }
{
    let types = NextTypes::of(alloc, numbers.decls, numbers.shelf, affected)?;
    change_all(alloc, &types, affected.as_slice(), numbers, postings)
}

fn is_of_kind(kind: Kind, key: &DeclKey) -> bool
    ensures { result ≡ is_of_kind kind key.now }
{
    number_of(kind) == number_of(key.kind)
}

fn number_of(kind: Kind) -> u8
    ensures { result ≡ kind_number kind }
{
    match kind {
        Kind::Type => 0,
        Kind::Qualifier => 1,
        Kind::Binding => 2,
        Kind::Stereotype => 3,
        Kind::Bean => 4,
        Kind::Interceptor => 5,
    }
}

/// Of how many declarations of a kind some changes made something.
pub(crate) fn count_made(kind: Kind, changes: &[Change]) -> u64
    ensures { result ≡ length (filter (is_made kind) changes.now) }
{
    changes
        .iter()
        .filter(|change| is_of_kind(kind, &change.key) && change.made.is_some())
        .count() as u64
}
