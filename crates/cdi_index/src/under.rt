//! The declarations that are under words, and the beans that are found by these.
ghost use Rattle.std.specs.Prelude.{◌≡◌, ◌<◌, ◌||◌, ◌∷◌, ◌++◌, [], ℕ, List, Some, filter, flat_map, length, map, option_map, IfOk, IfSome, OnOk};
ghost use Rattle.std.specs.List.{list_any};
ghost use Rattle.std.specs.Option.{option_to_list};
ghost use Rattle.cdi_model.specs.DeclList.{find_decl};
ghost use Rattle.cdi_index.specs.Made.{words_have};
ghost use Rattle.cdi_index.specs.Slots.{entry_kept};
ghost use Rattle.cdi_index.specs.declared.shelf.Kept.{Kept as AnyKept};
ghost use Rattle.cdi_postings.specs.Listing.{under};
ghost use Rattle.cdi_postings.specs.Words.{word_at};
ghost use Rattle.cdi_postings.specs.declared.word.Word.{Word as AnyWord};
ghost use Rattle.cdi_postings.specs.declared.word.Reason.TheVariants as reasons;
ghost use Rattle.cdi_index.specs.InOrder.{is_observed_by, is_word_of, kept_under, kept_with, records_kept, with_word, AreInOrder, AreSought, AreUnder};
ghost use Rattle.cdi_index.specs.Under.{has_name, is_sought};

use crate::index::own_records;
use crate::making::{Made, serves_as_alternative};
use crate::shelf::{Entry, Slots};
use cdi_effective::Effective;
use cdi_model::{Decl, DeclKey, Decls, Name};
use cdi_postings::{Postings, Reason, Word};
use std::alloc::{AllocError, Global};

/// Whether what is made has a word.
fn has_word(made: &Made, word: &Word) -> bool
    ensures { result ≡ words_have made.now.words word.now }
{
    made.words.as_slice().iter().any(|other| *other == *word)
}

/// Which beans are sought.
#[derive(Clone, Copy)]
pub(crate) enum Sought<'a> {
    /// Those of a type.
    OfType(&'a Name),
    /// The enabled alternatives of a type, and the enabled products of such.
    AlternativesOf(&'a Name),
    /// Those of a name.
    OfName(&'a Name),
    /// All.
    Each,
}

/// Whether a bean is sought.
fn is_sought(sought: Sought<'_>, bean: &Effective) -> bool
    ensures { result ≡ is_sought sought.entry bean.now }
{
    match sought {
        Sought::OfType(bean_type) => bean.has_type(bean_type),
        Sought::AlternativesOf(bean_type) => serves_as_alternative(bean)
            && bean.has_type(bean_type),
        Sought::OfName(name) => has_name(bean, name),
        Sought::Each => true,
    }
}

fn has_name(bean: &Effective, name: &Name) -> bool
    ensures { result ≡ has_name name.now bean.now }
{
    match bean.name {
        Some(own) => own == *name,
        None => false,
    }
}

/// Appends those of some records that are sought.
fn push_sought<'a>(
    sought: Sought<'_>,
    records: &'a [Effective],
    list: &mut Vec<&'a Effective>,
) -> Result<(), AllocError>
    ensures { OnOk result (map (λ bean. bean.now) list.new.items
        ≡ map (λ bean. bean.now) list.old.items ++ filter (is_sought sought.entry) records.now) }
{
    for record in records {
        if is_sought(sought, record) {
            list.push(record)?;
        }
    }
    Ok(())
}

/// The only slot that is listed under some words, and its word. None where no slot or several are listed.
pub(crate) fn only_slot(postings: &Postings, words: &[Word]) -> Option<(Word, u64)>
    ensures { IfSome result (λ only. (f : AnyWord → ℕ → List AnyKept)
        → flat_map (λ w. flat_map (f w) (under postings.now w)) words.now ≡ f only.0 only.1) }
{
    let mut only = None;
    for word in words {
        match postings.under(*word) {
            [] => {}
            [slot] if only.is_none() => only = Some((*word, *slot)),
            _ => return None,
        }
    }
    only
}

/// Whether what is kept has a word.
fn is_word_of(kept: Option<Entry<'_>>, word: &Word) -> bool
    ensures { result ≡ is_word_of word.now (option_map entry_kept kept.entry) }
{
    match kept {
        Some(entry) => has_word(entry.made, word),
        None => false,
    }
}

/// Whether what is kept at one of some slots has a word.
fn is_word_of_one<S: Slots>(shelved: &S, slots: &[u64], word: &Word) -> bool
    ensures { result ≡ list_any (λ slot. is_word_of word.now (S.kept shelved.now slot)) slots.now }
{
    for slot in slots {
        if is_word_of(shelved.at(*slot), word) {
            return true;
        }
    }
    false
}

/// Whether what is kept observes a type.
fn is_observed<S: Slots>(shelved: &S, postings: &Postings, event_type: &Name) -> bool
    ensures { result ≡ is_observed_by (S.kept shelved.now) postings.now event_type.now }
{
    let word = Word {
        reason: Reason::Observes,
        name: *event_type,
    };
    is_word_of_one(shelved, postings.under(word), &word)
}

/// Those of some types that something of what is kept observes, in order.
pub(crate) fn observed_among<S: Slots>(
    alloc: Global,
    shelved: &S,
    postings: &Postings,
    types: &[Name],
) -> Result<Vec<Name>, AllocError>
    ensures { IfOk result (λ list. list.items ≡ filter (is_observed_by (S.kept shelved.now) postings.now) types.now) }
{
    let mut list = Vec::new(alloc);
    for event_type in types {
        push_observed(shelved, postings, event_type, &mut list)?;
    }
    Ok(list)
}

/// Appends a type, if something of what is kept observes it.
fn push_observed<S: Slots>(
    shelved: &S,
    postings: &Postings,
    event_type: &Name,
    list: &mut Vec<Name>,
) -> Result<(), AllocError>
    ensures { OnOk result (list.new.items
        ≡ list.old.items ++ filter (is_observed_by (S.kept shelved.now) postings.now) (event_type.now ∷ [])) }
{
    if is_observed(shelved, postings, event_type) {
        list.push(*event_type)?;
    }
    Ok(())
}

/// Appends what is kept, where it has a word.
fn push_with_word<'a>(
    kept: Option<Entry<'a>>,
    word: &Word,
    list: &mut Vec<Entry<'a>>,
) -> Result<(), AllocError>
    ensures { OnOk result (map entry_kept list.new.items
        ≡ map entry_kept list.old.items ++ with_word word.now (option_map entry_kept kept.entry)) }
{
    if let Some(entry) = kept {
        if has_word(entry.made, word) {
            list.push(entry)?;
        }
    }
    Ok(())
}

/// Appends what is kept at some slots and has a word.
fn push_slots<'a, S: Slots>(
    shelved: &'a S,
    slots: &[u64],
    word: &Word,
    list: &mut Vec<Entry<'a>>,
) -> Result<(), AllocError>
    ensures { OnOk result (map entry_kept list.new.items
        ≡ map entry_kept list.old.items ++ flat_map (kept_with (S.kept shelved.now) word.now) slots.now) }
{
    for slot in slots {
        push_with_word(shelved.at(*slot), word, list)?;
    }
    Ok(())
}

/// What is kept that is listed under some words, and has one of them. It may be there several times.
fn listed_under<'a, S: Slots>(
    alloc: Global,
    shelved: &'a S,
    postings: &Postings,
    words: &[Word],
) -> Result<Vec<Entry<'a>>, AllocError>
    ensures { IfOk result (λ list. map entry_kept list.items ≡ kept_under (S.kept shelved.now) postings.now words.now) }
{
    let mut list = Vec::new(alloc);
    for word in words {
        push_slots(shelved, postings.under(*word), word, &mut list)?;
    }
    Ok(list)
}

/// What is kept, by its number, and each number once.
fn in_order(mut list: Vec<Entry<'_>>) -> Vec<Entry<'_>>
    ensures { AreInOrder (map entry_kept list.entry.items) (map entry_kept result.items) }
{
    list.sort_unstable_by_key(|entry| entry.number);
    list.dedup_by_key(|entry| entry.number);
    list
}

/// The records of the bean of which this is kept.
fn records_of<'a, S: Slots>(shelved: &'a S, kept: Entry<'a>) -> &'a [Effective]
    ensures { result.now ≡ records_kept (S.replaced shelved.now) (entry_kept kept.entry) }
{
    match shelved.records_replaced(kept.key) {
        Some(records) => records.as_slice(),
        None => own_records(Some(kept.made)),
    }
}

/// Those of the records of the declaration at a slot that are sought, where it has a word.
pub(crate) fn sought_at_slot<'a, S: Slots>(
    alloc: Global,
    shelved: &'a S,
    sought: Sought<'_>,
    word: &Word,
    slot: u64,
) -> Result<Vec<&'a Effective>, AllocError>
    ensures { IfOk result (λ list. map (λ bean. bean.now) list.items
        ≡ filter (is_sought sought.entry) (flat_map (records_kept (S.replaced shelved.now)) (kept_with (S.kept shelved.now) word.now slot))) }
{
    let mut list = Vec::new(alloc);
    if let Some(entry) = shelved.at(slot) {
        if has_word(entry.made, word) {
            push_sought(sought, records_of(shelved, entry), &mut list)?;
        }
    }
    Ok(list)
}

/// Those of the records of the declarations that are listed under some words which are sought, in order.
pub(crate) fn sought_under<'a, S: Slots>(
    alloc: Global,
    shelved: &'a S,
    postings: &Postings,
    words: &[Word],
    sought: Sought<'_>,
) -> Result<Vec<&'a Effective>, AllocError>
    ensures { IfOk result (λ list. AreSought (S.kept shelved.now) (S.replaced shelved.now) postings.now words.now sought.entry
        (map (λ bean. bean.now) list.items)) }
{
    let entries = in_order(listed_under(alloc, shelved, postings, words)?);
    let mut list = Vec::new(alloc);
    for entry in entries.as_slice() {
        push_sought(sought, records_of(shelved, *entry), &mut list)?;
    }
    Ok(list)
}

/// Appends the declaration of a key, if there is one.
fn push_decl<'a>(
    decls: &'a Decls,
    key: &DeclKey,
    list: &mut Vec<&'a Decl>,
) -> Result<(), AllocError>
    ensures { OnOk result (map (λ d. d.now) list.new.items
        ≡ map (λ d. d.now) list.old.items ++ option_to_list (find_decl key.now.kind key.now.name decls.now)) }
{
    if let Some(decl) = decls.get(key.kind, &key.name) {
        list.push(decl)?;
    }
    Ok(())
}

/// The declarations that are listed under some words, and have one of them, in order.
pub(crate) fn decls_under<'a, S: Slots>(
    alloc: Global,
    decls: &'a Decls,
    shelved: &S,
    postings: &Postings,
    words: &[Word],
) -> Result<Vec<&'a Decl>, AllocError>
    ensures { IfOk result (λ list. AreUnder (S.kept shelved.now) postings.now words.now decls.now (map (λ d. d.now) list.items)) }
{
    let entries = in_order(listed_under(alloc, shelved, postings, words)?);
    let mut list = Vec::with_capacity(alloc, entries.len())?;
    for entry in entries.as_slice() {
        push_decl(decls, entry.key, &mut list)?;
    }
    Ok(list)
}

/// The words of the types that observer methods observe.
pub(crate) fn words_observed(alloc: Global, types: &[Name]) -> Result<Vec<Word>, AllocError>
    ensures { IfOk result (λ words. words.items ≡ map (word_at reasons.Observes) types.now) }
{
    let mut words = Vec::with_capacity(alloc, types.len())?;
    for event_type in types {
        words.push(Word {
            reason: Reason::Observes,
            name: *event_type,
        })?;
    }
    Ok(words)
}
