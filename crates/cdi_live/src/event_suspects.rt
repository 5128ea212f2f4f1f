//! The types of events that may see something else after a draft.
ghost use Rattle.std.specs.Prelude.{◌≡◌, ◌||◌, flat_map, map, IfOk, OnOk};
ghost use Rattle.std.specs.List.{list_any};
ghost use Rattle.std.specs.Map.{keys_of};
ghost use Rattle.std.specs.Str.{bytes_eq};
ghost use Rattle.indexmap.specs.IndexSet.{contains};
ghost use Rattle.cdi_model.specs.declared.decl.Kind.TheVariants as kinds;
ghost use Rattle.cdi_model.specs.DeclKey.{key_at, same_key};
ghost use Rattle.cdi_model.specs.Edits.{is_among};
ghost use Rattle.cdi_model.specs.Mentions.{shown};
ghost use Rattle.cdi_match.specs.Types.{object};
ghost use Rattle.cdi_index.specs.Made.{made_of, reads};
ghost use Rattle.cdi_seen.specs.Words.{types_observed};
ghost use Rattle.cdi_live.specs.EventSuspects.{event_types, fired_in, fired_types, is_suspect, may_have};
ghost use Rattle.cdi_live.specs.EventSuspects.{observed_by_key, observed_of};
ghost use Rattle.cdi_live.specs.Suspects.{holds};

use crate::sides::Sides;
use crate::users::users_of_edited;
use cdi_index::Index;
use cdi_memo::Memo;
use cdi_model::{Decl, DeclKey, Decls, Kind, Mention, Name, ObserverDecl, Quals};
use cdi_observe::{ObserverId, Shared};
use indexmap::IndexSet;
use std::alloc::{AllocError, Global};

// ---- what is observed

/// Adds the types that some observer methods observe.
fn add_observed_by(methods: &[ObserverDecl], types: &mut IndexSet<Name>) -> Result<(), AllocError>
    ensures { OnOk result ((t : _) → contains bytes_eq types.new t
        ≡ (contains bytes_eq types.old t || holds (event_types methods.now) t)) }
{
    for method in methods {
        types.insert(method.event_type)?;
    }
    Ok(())
}

/// Adds the types that the observer methods of a declaration observe.
fn add_observed(decl: &Decl, types: &mut IndexSet<Name>) -> Result<(), AllocError>
    ensures { OnOk result ((t : _) → contains bytes_eq types.new t
        ≡ (contains bytes_eq types.old t || holds (types_observed decl.now) t)) }
{
    match decl {
        Decl::Bean(bean) => add_observed_by(bean.observers.as_slice(), types),
        _ => Ok(()),
    }
}

/// Adds those of the declaration of a key, if there is one.
fn add_observed_of(
    decls: &Decls,
    key: &DeclKey,
    types: &mut IndexSet<Name>,
) -> Result<(), AllocError>
    ensures { OnOk result ((t : _) → contains bytes_eq types.new t
        ≡ (contains bytes_eq types.old t || holds (observed_of decls.now key.now) t)) }
{
    if let Some(decl) = decls.get(key.kind, &key.name) {
        add_observed(decl, types)?;
    }
    Ok(())
}

/// Adds those of the declaration of a key, before and after.
fn add_observed_by_key(
    sides: &Sides<'_>,
    key: &DeclKey,
    types: &mut IndexSet<Name>,
) -> Result<(), AllocError>
    ensures { OnOk result ((t : _) → contains bytes_eq types.new t ≡ (contains bytes_eq types.old t
        || holds (observed_by_key sides.now.index.now.decls sides.now.next.now key.now) t)) }
{
    add_observed_of(sides.index.decls(), key, types)?;
    add_observed_of(sides.next.decls(), key, types)?;
    Ok(())
}

/// Adds those of some declarations.
fn add_all_observed(decls: &[&Decl], types: &mut IndexSet<Name>) -> Result<(), AllocError>
    ensures { OnOk result ((t : _) → contains bytes_eq types.new t
        ≡ (contains bytes_eq types.old t || holds (flat_map types_observed (map (λ d. d.now) decls.now)) t)) }
{
    for decl in decls {
        add_observed(decl, types)?;
    }
    Ok(())
}

/// The types that observer methods of affected declarations observe, before or after, and those of some declarations.
fn observed(alloc: Global, sides: &Sides<'_>, users: &[&Decl]) -> Result<IndexSet<Name>, AllocError>
    ensures { IfOk result (λ types. (t : _) → contains bytes_eq types t
        ≡ (holds (flat_map (observed_by_key sides.now.index.now.decls sides.now.next.now) sides.now.affected.now) t
        || holds (flat_map types_observed (map (λ d. d.now) users.now)) t)) }
{
    let mut types = IndexSet::new(alloc);
    for key in sides.affected {
        add_observed_by_key(sides, key, &mut types)?;
    }
    add_all_observed(users, &mut types)?;
    Ok(types)
}

// ---- what is fired

/// Adds the type of the event that is named in a place.
fn add_fired_in(mention: &Mention<'_>, types: &mut IndexSet<Name>) -> Result<(), AllocError>
    ensures { OnOk result ((t : _) → contains bytes_eq types.new t
        ≡ (contains bytes_eq types.old t || holds (fired_in (shown mention.now)) t)) }
{
    if let Mention::Event(event) = mention {
        types.insert(event.event_type)?;
    }
    Ok(())
}

/// Adds the types of the events that bodies of a declaration may fire.
#[tactic(auto, unfolding(crate::specs::EventSuspects::fired_types))]
fn add_fired(decl: &Decl, types: &mut IndexSet<Name>) -> Result<(), AllocError>
    ensures { OnOk result ((t : _) → contains bytes_eq types.new t
        ≡ (contains bytes_eq types.old t || holds (fired_types decl.now) t)) }
{
    for mention in decl.mentions() {
        add_fired_in(&mention, types)?;
    }
    Ok(())
}

/// Adds those of some declarations.
fn add_all_fired(decls: &[&Decl], types: &mut IndexSet<Name>) -> Result<(), AllocError>
    ensures { OnOk result ((t : _) → contains bytes_eq types.new t
        ≡ (contains bytes_eq types.old t || holds (flat_map fired_types (map (λ d. d.now) decls.now)) t)) }
{
    for decl in decls {
        add_fired(decl, types)?;
    }
    Ok(())
}

// ---- which events have a type

/// Adds the name of a key, if it is that of a type.
fn add_type(key: &DeclKey, types: &mut IndexSet<Name>) -> Result<(), AllocError>
    ensures { OnOk result ((t : _) → contains bytes_eq types.new t
        ≡ (contains bytes_eq types.old t || same_key key.now (key_at kinds.Type t))) }
{
    if let Kind::Type = key.kind {
        types.insert(key.name)?;
    }
    Ok(())
}

/// Adds the types among some keys.
fn add_types(keys: &[DeclKey], types: &mut IndexSet<Name>) -> Result<(), AllocError>
    ensures { OnOk result ((t : _) → contains bytes_eq types.new t
        ≡ (contains bytes_eq types.old t || is_among keys.now (key_at kinds.Type t))) }
{
    for key in keys {
        add_type(key, types)?;
    }
    Ok(())
}

/// The types among some keys.
fn types_among(alloc: Global, keys: &[DeclKey]) -> Result<IndexSet<Name>, AllocError>
    ensures { IfOk result (λ types. (t : _) → contains bytes_eq types t ≡ is_among keys.now (key_at kinds.Type t)) }
{
    let mut types = IndexSet::new(alloc);
    add_types(keys, &mut types)?;
    Ok(types)
}

/// Adds the declared types that have a type.
fn add_readers(
    alloc: Global,
    index: &Index,
    name: &Name,
    types: &mut IndexSet<Name>,
) -> Result<(), AllocError>
    ensures { OnOk result ((t : _) → contains bytes_eq types.new t ≡ (contains bytes_eq types.old t
        || reads (made_of index.now.decls (key_at kinds.Type t)) (key_at kinds.Type name.now))) }
{
    let key = DeclKey {
        kind: Kind::Type,
        name: *name,
    };
    let readers = index.readers(alloc, &key)?;
    add_types(&readers, types)
}

/// Adds a name.
fn add_name(name: &Name, types: &mut IndexSet<Name>) -> Result<(), AllocError>
    ensures { OnOk result ((t : _) → contains bytes_eq types.new t
        ≡ (contains bytes_eq types.old t || bytes_eq name.now t)) }
{
    types.insert(*name)?;
    Ok(())
}

/// Adds the types of the kept events.
fn add_kept(
    events: &Memo<Quals, Shared<ObserverId>>,
    types: &mut IndexSet<Name>,
) -> Result<(), AllocError>
    ensures { OnOk result ((t : _) → contains bytes_eq types.new t
        ≡ (contains bytes_eq types.old t || holds (keys_of events.now) t)) }
{
    let mut index = 0;
    'names: while let Some(name) = events.name_at(index) {
        add_name(name, types)?;
        index += 1;
    }
    Ok(())
}

/// Whether this is the type that every type has.
fn is_object(name: &Name) -> bool
    ensures { result ≡ bytes_eq name.now object }
{
    name.as_bytes() == b"Object".as_slice()
}

/// Adds a type, the declared ones that have it, and those of the kept events if all have it.
fn add_having(
    alloc: Global,
    index: &Index,
    events: &Memo<Quals, Shared<ObserverId>>,
    name: &Name,
    types: &mut IndexSet<Name>,
) -> Result<(), AllocError>
    ensures { OnOk result ((t : _) → contains bytes_eq types.new t
        ≡ (contains bytes_eq types.old t || may_have index.now.decls (keys_of events.now) name.now t)) }
{
    types.insert(*name)?;
    add_readers(alloc, index, name, types)?;
    if is_object(name) {
        add_kept(events, types)?;
    }
    Ok(())
}

/// Adds those of some types.
fn add_all_having(
    alloc: Global,
    index: &Index,
    events: &Memo<Quals, Shared<ObserverId>>,
    names: &[Name],
    types: &mut IndexSet<Name>,
) -> Result<(), AllocError>
    ensures { OnOk result ((t : _) → contains bytes_eq types.new t ≡ (contains bytes_eq types.old t
        || list_any (λ x. may_have index.now.decls (keys_of events.now) x t) names.now)) }
{
    for name in names {
        add_having(alloc, index, events, name, types)?;
    }
    Ok(())
}

/// The types of events that may see something else after a draft: the affected ones; those that have a type which an
/// observer method of an affected declaration observes, before or after; and those that are fired by a declaration that uses
/// an edited qualifier, or have a type which an observer method of one observes.
pub(crate) fn event_suspects(
    alloc: Global,
    sides: &Sides<'_>,
    events: &Memo<Quals, Shared<ObserverId>>,
) -> Result<IndexSet<Name>, AllocError>
    ensures { IfOk result (λ types. (t : _) → contains bytes_eq types t
        ≡ is_suspect sides.now.index.now.decls sides.now.next.now sides.now.edited.now sides.now.affected.now (keys_of events.now) t) }
{
    let users = users_of_edited(alloc, sides)?;
    let names = observed(alloc, sides, &users)?;
    let mut types = types_among(alloc, sides.affected)?;
    add_all_fired(&users, &mut types)?;
    add_all_having(alloc, sides.index, events, names.as_slice(), &mut types)?;
    Ok(types)
}
