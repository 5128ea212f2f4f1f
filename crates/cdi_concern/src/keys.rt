//! The keys of declarations that are found.
ghost use Rattle.std.specs.Prelude.{◌≡◌, ◌||◌, ◌++◌, filter, map, OnOk};
ghost use Rattle.std.specs.List.{list_any};
ghost use Rattle.cdi_model.specs.Decl.{key_of};
ghost use Rattle.cdi_model.specs.Edits.{is_among};
ghost use Rattle.cdi_concern.specs.Concern.{is_inherited, is_stereotype, keys_of_classes, keys_of_stereotypes, keys_under};
ghost use Rattle.cdi_concern.specs.Concern.{reads_one};

use crate::sought::is_of_kind;
use cdi_index::Index;
use cdi_model::{Decl, DeclKey, Decls, Kind, Name};
use cdi_postings::Word;
use std::alloc::{AllocError, Global};

/// Appends some keys.
pub(crate) fn push_keys(more: &[DeclKey], keys: &mut Vec<DeclKey>) -> Result<(), AllocError>
    ensures { OnOk result (keys.new.items ≡ keys.old.items ++ more.now) }
{
    for key in more {
        keys.push(*key)?;
    }
    Ok(())
}

/// Appends those of some declarations.
fn push_keys_of(decls: &[&Decl], keys: &mut Vec<DeclKey>) -> Result<(), AllocError>
    ensures { OnOk result (keys.new.items ≡ keys.old.items ++ map key_of (map (λ d. d.now) decls.now)) }
{
    for decl in decls {
        keys.push(decl.key())?;
    }
    Ok(())
}

/// Appends those of the declarations that have one of some words.
pub(crate) fn push_keys_under(
    alloc: Global,
    index: &Index,
    words: &[Word],
    keys: &mut Vec<DeclKey>,
) -> Result<(), AllocError>
    ensures { OnOk result (keys.new.items ≡ keys.old.items ++ keys_under index.now.decls words.now) }
{
    let decls = index.decls_under(alloc, words)?;
    push_keys_of(&decls, keys)
}

/// Appends those of the declarations of which what is made reads one that is affected, a bean.
pub(crate) fn push_keys_of_readers(
    alloc: Global,
    index: &Index,
    affected: &[DeclKey],
    keys: &mut Vec<DeclKey>,
) -> Result<(), AllocError>
    ensures { OnOk result ((k : _) → is_among keys.new.items k
        ≡ (is_among keys.old.items k || reads_one index.now.decls affected.now k)) }
{
    for key in affected {
        if is_of_kind(Kind::Bean, key) {
            let readers = index.readers(alloc, key)?;
            push_keys(readers.as_slice(), keys)?;
        }
    }
    Ok(())
}

fn is_inherited(key: &DeclKey) -> bool
    ensures { result ≡ is_inherited key.now }
{
    is_of_kind(Kind::Stereotype, key) || is_of_kind(Kind::Binding, key)
}

/// Whether one of some keys is that of a stereotype or of a binding type.
fn has_inherited(keys: &[DeclKey]) -> bool
    ensures { result ≡ list_any is_inherited keys.now }
{
    for key in keys {
        if is_inherited(key) {
            return true;
        }
    }
    false
}

fn is_stereotype(decl: &Decl) -> bool
    ensures { result ≡ is_stereotype decl.now }
{
    is_of_kind(Kind::Stereotype, &decl.key())
}

/// Appends those of all stereotypes.
fn push_each_stereotype(decls: &Decls, keys: &mut Vec<DeclKey>) -> Result<(), AllocError>
    ensures { OnOk result (keys.new.items ≡ keys.old.items ++ map key_of (filter is_stereotype decls.now)) }
{
    for decl in decls.iter() {
        if is_stereotype(decl) {
            keys.push(decl.key())?;
        }
    }
    Ok(())
}

/// Appends those of all stereotypes, where a stereotype or a binding type is edited.
pub(crate) fn push_keys_of_stereotypes(
    decls: &Decls,
    edited: &[DeclKey],
    keys: &mut Vec<DeclKey>,
) -> Result<(), AllocError>
    ensures { OnOk result (keys.new.items ≡ keys.old.items ++ keys_of_stereotypes decls.now edited.now) }
{
    if has_inherited(edited) {
        return push_each_stereotype(decls, keys);
    }
    Ok(())
}

/// Appends those of the beans of some classes.
pub(crate) fn push_keys_of_classes(
    classes: &[Name],
    keys: &mut Vec<DeclKey>,
) -> Result<(), AllocError>
    ensures { OnOk result (keys.new.items ≡ keys.old.items ++ keys_of_classes classes.now) }
{
    for class in classes {
        keys.push(DeclKey {
            kind: Kind::Bean,
            name: *class,
        })?;
    }
    Ok(())
}
