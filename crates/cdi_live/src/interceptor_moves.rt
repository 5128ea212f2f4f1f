//! Whether edits let chains see other interceptors.
ghost use Rattle.std.specs.Prelude.{◌≡◌, not, IfOk};
ghost use Rattle.std.specs.List.{list_any};
ghost use Rattle.std.specs.Option.{option_copied};
ghost use Rattle.cdi_model.specs.Edits.{is_among};
ghost use Rattle.cdi_live.specs.Compared.{find_interceptor, is_filled_otherwise, is_interceptor, is_moved};

use cdi_index::{Index, NextIndex};
use cdi_model::{Decl, DeclKey, Decls, InterceptorDecl, Kind, Name};
use cdi_seen::same_interceptors;
use std::alloc::{AllocError, Global};

/// The interceptor of a name.
fn interceptor_named<'a>(decls: &'a Decls, name: &Name) -> Option<&'a InterceptorDecl>
    ensures { option_copied result ≡ find_interceptor name.now decls.now }
{
    match decls.get(Kind::Interceptor, name) {
        Some(Decl::Interceptor(interceptor)) => Some(interceptor),
        _ => None,
    }
}

/// Whether the bindings of an interceptor are filled otherwise after the draft, or it is declared on one side alone.
fn is_filled_otherwise(
    alloc: Global,
    index: &Index,
    next: &NextIndex<'_>,
    name: &Name,
) -> Result<bool, AllocError>
    ensures { IfOk result (λ is. is ≡ is_filled_otherwise index.now.decls next.now name.now) }
{
    let before = index.decls();
    let after = next.decls();
    let old = interceptor_named(before, name);
    let new = interceptor_named(after, name);
    let (Some(old), Some(new)) = (old, new) else {
        return Ok(old.is_some() || new.is_some());
    };
    let is_same = same_interceptors(alloc, before, &[old], after, &[new])?;
    Ok(!is_same)
}

/// Whether a key is one of those of the edits.
fn is_edited(edited: &[DeclKey], key: &DeclKey) -> bool
    ensures { result ≡ is_among edited.now key.now }
{
    edited.iter().any(|other| *other == *key)
}

fn is_interceptor(kind: Kind) -> bool
    ensures { result ≡ is_interceptor kind }
{
    matches!(kind, Kind::Interceptor)
}

/// Whether a key is that of an interceptor that is edited, or of which the bindings are filled otherwise after the draft.
fn is_moved(
    alloc: Global,
    index: &Index,
    next: &NextIndex<'_>,
    edited: &[DeclKey],
    key: &DeclKey,
) -> Result<bool, AllocError>
    ensures { IfOk result (λ is. is ≡ is_moved index.now.decls next.now edited.now key.now) }
{
    if !is_interceptor(key.kind) {
        return Ok(false);
    }
    if is_edited(edited, key) {
        return Ok(true);
    }
    is_filled_otherwise(alloc, index, next, &key.name)
}

/// Whether one of the affected declarations is an interceptor of which chains may see something else after the draft.
pub(crate) fn moves_interceptors(
    alloc: Global,
    index: &Index,
    next: &NextIndex<'_>,
    edited: &[DeclKey],
    affected: &[DeclKey],
) -> Result<bool, AllocError>
    ensures { IfOk result (λ is. is ≡ list_any (is_moved index.now.decls next.now edited.now) affected.now) }
{
    for key in affected {
        if is_moved(alloc, index, next, edited, key)? {
            return Ok(true);
        }
    }
    Ok(false)
}
