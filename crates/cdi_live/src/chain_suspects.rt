//! The classes of which chains may be other ones after a draft.
ghost use Rattle.std.specs.Prelude.{◌≡◌, ◌||◌, flat_map, map, IfOk, OnOk};
ghost use Rattle.std.specs.List.{list_any};
ghost use Rattle.std.specs.Option.{option_copied};
ghost use Rattle.std.specs.Str.{bytes_eq};
ghost use Rattle.indexmap.specs.IndexSet.{contains};
ghost use Rattle.cdi_live.specs.ChainSuspects.{class_named, classes_bound, is_bound_by, is_chain_suspect, is_chain_suspect_by};
ghost use Rattle.cdi_live.specs.ChainSuspects.{is_chain_suspect_of, is_intercepted, is_intercepted_by, is_intercepted_in};
ghost use Rattle.cdi_model.specs.declared.decl.Kind.TheVariants as kinds;
ghost use Rattle.cdi_live.specs.Suspects.{holds};

use crate::sides::Sides;
use cdi_index::Index;
use cdi_model::{Decl, DeclKey, Kind, Name, Qual};
use cdi_postings::{Reason, Word};
use indexmap::IndexSet;
use std::alloc::{AllocError, Global};

/// Adds the class of a bean declaration.
fn add_class(decl: &Decl, classes: &mut IndexSet<Name>) -> Result<(), AllocError>
    ensures { OnOk result ((c : _) → contains bytes_eq classes.new c
        ≡ (contains bytes_eq classes.old c || holds (class_named decl.now) c)) }
{
    if let Decl::Bean(bean) = decl {
        classes.insert(bean.name)?;
    }
    Ok(())
}

/// Adds the classes of the beans among some declarations.
fn add_classes(decls: &[&Decl], classes: &mut IndexSet<Name>) -> Result<(), AllocError>
    ensures { OnOk result ((c : _) → contains bytes_eq classes.new c
        ≡ (contains bytes_eq classes.old c || holds (flat_map class_named (map (λ d. d.now) decls.now)) c)) }
{
    for decl in decls {
        add_class(decl, classes)?;
    }
    Ok(())
}

/// Adds the classes of the beans that name a binding of a type, or have one by their stereotypes.
fn add_bound(
    alloc: Global,
    index: &Index,
    binding: &Name,
    classes: &mut IndexSet<Name>,
) -> Result<(), AllocError>
    ensures { OnOk result ((c : _) → contains bytes_eq classes.new c
        ≡ (contains bytes_eq classes.old c || holds (classes_bound index.now.decls binding.now) c)) }
{
    let word = Word {
        reason: Reason::Binds,
        name: *binding,
    };
    let decls = index.decls_under(alloc, &[word])?;
    add_classes(&decls, classes)
}

/// Adds those of the binding types of some keys.
fn add_bound_by(
    alloc: Global,
    index: &Index,
    keys: &[DeclKey],
    classes: &mut IndexSet<Name>,
) -> Result<(), AllocError>
    ensures { OnOk result ((c : _) → contains bytes_eq classes.new c ≡ (contains bytes_eq classes.old c
        || list_any (λ k. is_bound_by index.now.decls k c) keys.now)) }
{
    for key in keys {
        if let Kind::Binding = key.kind {
            add_bound(alloc, index, &key.name, classes)?;
        }
    }
    Ok(())
}

/// Adds the classes of the beans that name a binding of a type, or of one that brings it.
fn add_intercepted(
    alloc: Global,
    index: &Index,
    binding: &Name,
    classes: &mut IndexSet<Name>,
) -> Result<(), AllocError>
    ensures { OnOk result ((c : _) → contains bytes_eq classes.new c
        ≡ (contains bytes_eq classes.old c || is_intercepted index.now.decls binding.now c)) }
{
    let key = DeclKey {
        kind: Kind::Binding,
        name: *binding,
    };
    add_bound(alloc, index, binding, classes)?;
    let readers = index.readers(alloc, &key)?;
    add_bound_by(alloc, index, readers.as_slice(), classes)?;
    Ok(())
}

/// Adds those of the types of some bindings.
fn add_intercepted_by(
    alloc: Global,
    index: &Index,
    bindings: &[Qual],
    classes: &mut IndexSet<Name>,
) -> Result<(), AllocError>
    ensures { OnOk result ((c : _) → contains bytes_eq classes.new c
        ≡ (contains bytes_eq classes.old c || is_intercepted_by index.now.decls c bindings.now)) }
{
    for binding in bindings {
        add_intercepted(alloc, index, &binding.name, classes)?;
    }
    Ok(())
}

/// Adds those of the types of the bindings of an interceptor, if the declaration is one.
fn add_intercepted_in(
    alloc: Global,
    index: &Index,
    decl: Option<&Decl>,
    classes: &mut IndexSet<Name>,
) -> Result<(), AllocError>
    ensures { OnOk result ((c : _) → contains bytes_eq classes.new c
        ≡ (contains bytes_eq classes.old c || is_intercepted_in index.now.decls c (option_copied decl.entry))) }
{
    match decl {
        Some(Decl::Interceptor(interceptor)) => {
            add_intercepted_by(alloc, index, interceptor.bindings.as_slice(), classes)
        }
        _ => Ok(()),
    }
}

/// Adds the classes of which chains may be other ones for the sake of an affected declaration.
fn add_suspects_of(
    alloc: Global,
    sides: &Sides<'_>,
    key: &DeclKey,
    classes: &mut IndexSet<Name>,
) -> Result<(), AllocError>
    ensures { OnOk result ((c : _) → contains bytes_eq classes.new c ≡ (contains bytes_eq classes.old c
        || is_chain_suspect_by sides.now.index.now.decls sides.now.next.now c key.now)) }
{
    match key.kind {
        Kind::Bean => {
            classes.insert(key.name)?;
            Ok(())
        }
        Kind::Binding => add_bound(alloc, sides.index, &key.name, classes),
        Kind::Interceptor => add_suspects_of_interceptor(alloc, sides, &key.name, classes),
        _ => Ok(()),
    }
}

/// Adds those of an affected interceptor, as it is before and as it is after.
fn add_suspects_of_interceptor(
    alloc: Global,
    sides: &Sides<'_>,
    name: &Name,
    classes: &mut IndexSet<Name>,
) -> Result<(), AllocError>
    ensures { OnOk result ((c : _) → contains bytes_eq classes.new c ≡ (contains bytes_eq classes.old c
        || is_chain_suspect_of sides.now.index.now.decls sides.now.next.now c kinds.Interceptor name.now)) }
{
    let before = sides.index.decls().get(Kind::Interceptor, name);
    add_intercepted_in(alloc, sides.index, before, classes)?;
    let after = sides.next.decls().get(Kind::Interceptor, name);
    add_intercepted_in(alloc, sides.index, after, classes)?;
    Ok(())
}

/// The classes of which chains may be other ones after a draft: those of affected beans, those that name affected binding
/// types, and those that affected interceptors may intercept, before or after.
pub(crate) fn chain_suspects(alloc: Global, sides: &Sides<'_>) -> Result<IndexSet<Name>, AllocError>
    ensures { IfOk result (λ classes. (c : _) → contains bytes_eq classes c
        ≡ is_chain_suspect sides.now.index.now.decls sides.now.next.now sides.now.affected.now c) }
{
    let mut classes = IndexSet::new(alloc);
    for key in sides.affected {
        add_suspects_of(alloc, sides, key, &mut classes)?;
    }
    Ok(classes)
}
