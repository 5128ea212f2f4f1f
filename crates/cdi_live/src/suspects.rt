//! The types of which choices may be other ones after a draft.
ghost use Rattle.std.specs.Prelude.{◌≡◌, ◌||◌, flat_map, map, IfOk, OnOk};
ghost use Rattle.std.specs.Str.{bytes_eq};
ghost use Rattle.cdi_model.specs.Mentions.{shown};
ghost use Rattle.indexmap.specs.IndexSet.{contains};
ghost use Rattle.cdi_live.specs.Suspects.{asked_in, asked_types, concerned, holds, suspects, types_given};
ghost use Rattle.cdi_live.specs.Suspects.{types_of_key, types_of_records};

use crate::sides::Sides;
use crate::users::users_of_edited;
use cdi_effective::Effective;
use cdi_index::Index;
use cdi_model::{Decl, DeclKey, Kind, Mention, Name};
use indexmap::IndexSet;
use std::alloc::{AllocError, Global};

/// Adds some names.
fn add_names(names: &[Name], types: &mut IndexSet<Name>) -> Result<(), AllocError>
    ensures { OnOk result ((t : _) → contains bytes_eq types.new t ≡ (contains bytes_eq types.old t || holds names.now t)) }
{
    for name in names {
        types.insert(*name)?;
    }
    Ok(())
}

/// Adds the types of some records.
fn add_types_of_records(records: &[Effective], types: &mut IndexSet<Name>) -> Result<(), AllocError>
    ensures { OnOk result ((t : _) → contains bytes_eq types.new t
        ≡ (contains bytes_eq types.old t || holds (types_of_records records.now) t)) }
{
    for bean in records {
        add_names(bean.types.as_slice(), types)?;
    }
    Ok(())
}

/// Adds the type for which a point asks that is named in a place.
fn add_asked_in(mention: &Mention<'_>, types: &mut IndexSet<Name>) -> Result<(), AllocError>
    ensures { OnOk result ((t : _) → contains bytes_eq types.new t
        ≡ (contains bytes_eq types.old t || holds (asked_in (shown mention.now)) t)) }
{
    if let Mention::Point(_, point) = mention {
        types.insert(point.required_type)?;
    }
    Ok(())
}

/// Adds the types for which the points of a declaration ask.
#[tactic(auto, unfolding(crate::specs::Suspects::asked_types))]
fn add_asked_types(decl: &Decl, types: &mut IndexSet<Name>) -> Result<(), AllocError>
    ensures { OnOk result ((t : _) → contains bytes_eq types.new t
        ≡ (contains bytes_eq types.old t || holds (asked_types decl.now) t)) }
{
    for mention in decl.mentions() {
        add_asked_in(&mention, types)?;
    }
    Ok(())
}

/// Adds the types of the beans of a declaration.
fn add_given(index: &Index, decl: &Decl, types: &mut IndexSet<Name>) -> Result<(), AllocError>
    ensures { OnOk result ((t : _) → contains bytes_eq types.new t
        ≡ (contains bytes_eq types.old t || holds (types_given index.now.decls decl.now) t)) }
{
    match decl {
        Decl::Bean(bean) => add_types_of_records(index.records(&bean.name), types),
        _ => Ok(()),
    }
}

/// Adds those, and the types for which its points ask.
fn add_concerned(index: &Index, decl: &Decl, types: &mut IndexSet<Name>) -> Result<(), AllocError>
    ensures { OnOk result ((t : _) → contains bytes_eq types.new t
        ≡ (contains bytes_eq types.old t || holds (concerned index.now.decls decl.now) t)) }
{
    add_given(index, decl, types)?;
    add_asked_types(decl, types)?;
    Ok(())
}

/// Adds those of some declarations.
fn add_all_concerned(
    index: &Index,
    decls: &[&Decl],
    types: &mut IndexSet<Name>,
) -> Result<(), AllocError>
    ensures { OnOk result ((t : _) → contains bytes_eq types.new t ≡ (contains bytes_eq types.old t
        || holds (flat_map (concerned index.now.decls) (map (λ d. d.now) decls.now)) t)) }
{
    for decl in decls {
        add_concerned(index, decl, types)?;
    }
    Ok(())
}

/// Adds the types of the beans of a declaration, before and after.
fn add_types_of_key(
    sides: &Sides<'_>,
    key: &DeclKey,
    types: &mut IndexSet<Name>,
) -> Result<(), AllocError>
    ensures { OnOk result ((t : _) → contains bytes_eq types.new t ≡ (contains bytes_eq types.old t
        || holds (types_of_key sides.now.index.now.decls sides.now.next.now key.now) t)) }
{
    if let Kind::Bean = key.kind {
        add_types_of_records(sides.index.records(&key.name), types)?;
        add_types_of_records(sides.next.records(&key.name), types)?;
    }
    Ok(())
}

/// The types of which choices may be other ones after a draft: those that beans of the declarations that it affects have,
/// before or after; and those of the beans that have a qualifier which it edits, or for which points ask with one.
pub(crate) fn suspects(alloc: Global, sides: &Sides<'_>) -> Result<IndexSet<Name>, AllocError>
    ensures { IfOk result (λ types. (t : _) → contains bytes_eq types t
        ≡ holds (suspects sides.now.index.now.decls sides.now.next.now sides.now.edited.now sides.now.affected.now) t) }
{
    let users = users_of_edited(alloc, sides)?;
    let mut types = IndexSet::new(alloc);
    for key in sides.affected {
        add_types_of_key(sides, key, &mut types)?;
    }
    add_all_concerned(sides.index, &users, &mut types)?;
    Ok(types)
}
