//! Uses of qualifiers and of binding types, each once, in the byte order of their texts.
ghost use Rattle.std.specs.Prelude.{◌≡◌, IfOk};
ghost use Rattle.cdi_match.specs.Bindings.{uses_in};
ghost use Rattle.std.specs.Option.{option_copied};
ghost use Rattle.base_lists.specs.Sorting.{sorted_by};
ghost use Rattle.cdi_effective.specs.TextOrder.{each_once, has_use, in_text_order, is_above_bracket, is_before_in_name};
ghost use Rattle.cdi_effective.specs.TextOrder.{is_before_in_text, tell_order, tells_order, written_in};

use crate::written::Written;
use cdi_model::{Name, Qual, Seq};
use indexmap::IndexSet;
use std::alloc::{AllocError, Global};

/// So many uses are compared each with each, which takes less than a table of them.
const FEW: usize = 16;

/// Uses, each once, in the byte order of their texts. It takes memory for the list, and for the texts where two have one
/// name.
pub fn in_text_order<'a>(alloc: Global, uses: &[&'a Qual]) -> Result<Vec<&'a Qual>, AllocError>
    ensures { IfOk result (λ list. uses_in list.items ≡ in_text_order (uses_in uses.now)) }
{
    let once = each_once(alloc, uses)?;
    let list = in_name_order(alloc, &once)?;
    if tell_order(&list) {
        return Ok(list);
    }
    by_texts(alloc, &once)
}

/// Uses in the byte order of their names.
fn in_name_order<'a>(alloc: Global, uses: &[&'a Qual]) -> Result<Vec<&'a Qual>, AllocError>
    ensures { IfOk result (λ list. uses_in list.items ≡ sorted_by is_before_in_name (uses_in uses.now)) }
{
    let mut list = Vec::from_slice(alloc, uses)?;
    list.sort_by(|first, second| first.name.cmp(&second.name))?;
    Ok(list)
}

/// Whether the name of each use tells the order of it and the next.
fn tell_order(uses: &[&Qual]) -> bool
    ensures { result ≡ tell_order (uses_in uses.now) }
{
    let Some((first, others)) = uses.split_first() else {
        return true;
    };
    let mut before = *first;
    for next in others {
        if !tells_order(&before.name, &next.name) {
            return false;
        }
        before = next;
    }
    true
}

/// Whether the order of two names is that of the texts of their uses, whatever members these write.
fn tells_order(first: &Name, second: &Name) -> bool
    ensures { result ≡ tells_order first.now second.now }
{
    let (first, second) = (first.as_bytes(), second.as_bytes());
    !second.starts_with(first) || is_above_bracket(second.get(first.len()))
}

fn is_above_bracket(byte: Option<&u8>) -> bool
    ensures { result ≡ is_above_bracket (option_copied byte.entry) }
{
    match byte {
        Some(byte) => *byte > b'(',
        None => false,
    }
}

/// Uses in the byte order of their texts.
fn by_texts<'a>(alloc: Global, uses: &[&'a Qual]) -> Result<Vec<&'a Qual>, AllocError>
    ensures { IfOk result (λ list. uses_in list.items ≡ sorted_by is_before_in_text (uses_in uses.now)) }
{
    let mut list = with_texts(alloc, uses)?;
    list.sort_by(|first, second| first.text.cmp(&second.text))?;
    without_texts(alloc, &list)
}

/// Uses, each where it stands first.
fn each_once<'a>(alloc: Global, uses: &[&'a Qual]) -> Result<Vec<&'a Qual>, AllocError>
    ensures { IfOk result (λ list. uses_in list.items ≡ each_once (uses_in uses.now)) }
{
    if uses.len() > FEW {
        return once_of_many(alloc, uses);
    }
    let mut list = Vec::new(alloc);
    for binding in uses {
        if !has_use(&list, binding) {
            list.push(*binding)?;
        }
    }
    Ok(list)
}

/// The same, by a table of those that are found.
fn once_of_many<'a>(alloc: Global, uses: &[&'a Qual]) -> Result<Vec<&'a Qual>, AllocError>
    ensures { IfOk result (λ list. uses_in list.items ≡ each_once (uses_in uses.now)) }
{
    let mut found = IndexSet::new(alloc);
    for binding in uses {
        found.insert(*binding)?;
    }
    Vec::from_slice(alloc, found.as_slice())
}

/// Whether a use is among some as it is written.
fn has_use(uses: &[&Qual], binding: &Qual) -> bool
    ensures { result ≡ has_use (uses_in uses.now) binding.now }
{
    for other in uses {
        if binding == *other {
            return true;
        }
    }
    false
}

fn with_texts<'a>(alloc: Global, uses: &[&'a Qual]) -> Result<Vec<Written<'a>>, AllocError>
    ensures { IfOk result (λ list. written_in list.items ≡ uses_in uses.now) }
{
    let mut list = Vec::with_capacity(alloc, uses.len())?;
    for binding in uses {
        list.push(Written::of(alloc, binding)?)?;
    }
    Ok(list)
}

fn without_texts<'a>(alloc: Global, list: &[Written<'a>]) -> Result<Vec<&'a Qual>, AllocError>
    ensures { IfOk result (λ bindings. uses_in bindings.items ≡ written_in list.now) }
{
    let mut bindings = Vec::with_capacity(alloc, list.len())?;
    for written in list {
        bindings.push(written.binding)?;
    }
    Ok(bindings)
}

/// Copies of some uses. It takes memory for them.
pub fn copies(alloc: Global, uses: &[&Qual]) -> Result<Seq<Qual>, AllocError>
    ensures { IfOk result (λ list. list ≡ uses_in uses.now) }
{
    let mut list = Seq::new(alloc);
    for binding in uses {
        list.push((*binding).clone()?)?;
    }
    Ok(list)
}
