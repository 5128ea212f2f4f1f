//! The positions of declarations.
ghost use Rattle.std.specs.Prelude.{◌≡◌, ◌||◌, false, flat_map, length, map, slice_get, IfOk};
ghost use Rattle.std.specs.List.{list_any};
ghost use Rattle.std.specs.Option.{option_map_or};
ghost use Rattle.cdi_model.specs.Decl.{key_of};
ghost use Rattle.cdi_model.specs.DeclKey.{same_key};
ghost use Rattle.cdi_model.specs.DeclList.{AreDistinct};
ghost use Rattle.cdi_positions.specs.Marks.{is_marked, limit, marked_from};
ghost use Rattle.cdi_report.specs.Positions.{decls_at, is_at};

use cdi_model::{Decl, DeclKey, Decls};
use cdi_positions::PositionSet;
use std::alloc::{AllocError, Global};

/// The positions of the declarations of some keys and of others. It takes no memory, and looks at these alone.
pub(crate) fn positions_of(decls: &Decls, keys: &[DeclKey], others: &[DeclKey]) -> PositionSet
    requires { AreDistinct decls.now }
    ensures { (p : _) → is_marked result p
        ≡ option_map_or (λ d. list_any (same_key (key_of d)) keys.now || list_any (same_key (key_of d)) others.now) (slice_get decls.now p) false }
{
    let mut positions = PositionSet::new();
    mark_each(decls, keys, &mut positions);
    mark_each(decls, others, &mut positions);
    positions
}

/// Marks the positions of the declarations of some keys.
fn mark_each(decls: &Decls, keys: &[DeclKey], positions: &mut PositionSet)
    requires { length positions.old ≡ limit }
    ensures size { length positions.new ≡ limit }
    ensures marks { (p : _) → is_marked positions.new p ≡ (is_marked positions.old p || list_any (λ k. is_at decls.now k p) keys.now) }
{
    for key in keys {
        mark(decls, key, positions);
    }
}

/// Marks the position of the declaration of a key, if there is one.
fn mark(decls: &Decls, key: &DeclKey, positions: &mut PositionSet)
    requires { length positions.old ≡ limit }
    ensures size { length positions.new ≡ limit }
    ensures marks { (p : _) → is_marked positions.new p ≡ (is_marked positions.old p || is_at decls.now key.now p) }
{
    if let Some(position) = decls.position(key.kind, &key.name) {
        positions.insert(position);
    }
}

/// The declarations at some positions, in order. It takes memory for a list of them.
pub(crate) fn decls_at<'a>(
    alloc: Global,
    decls: &'a Decls,
    positions: &PositionSet,
) -> Result<Vec<&'a Decl>, AllocError>
    ensures { IfOk result (λ list. map (λ d. d.now) list.items ≡ flat_map (decls_at decls.now) (marked_from 0 positions.now)) }
{
    let mut list = Vec::new(alloc);
    for position in positions.iter() {
        if let Some(decl) = decls.at(position) {
            list.push(decl)?;
        }
    }
    Ok(list)
}
