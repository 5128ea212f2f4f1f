//! Names that are near to one that was written.
use crate::adviser::Adviser;
use crate::notes::Notes;
use cdi_explain::KnownNames;
use cdi_model::{Decls, Ident, Kind, Name};
use std::alloc::{AllocError, Global};

/// Of the declared names of a kind the one that may have been meant, if one is near.
pub(crate) fn nearest_declared(
    adviser: &Adviser<'_>,
    notes: &mut Notes,
    kind: Kind,
    wanted: Name,
) -> Result<Option<Name>, AllocError> {
    let alloc = adviser.alloc;
    for (of, known) in &notes.names {
        if *of == kind {
            return known.nearest(alloc, wanted);
        }
    }
    let declared = declared_names(alloc, adviser.decls, kind)?;
    let known = KnownNames::of(alloc, declared.as_slice())?;
    let near = known.nearest(alloc, wanted)?;
    notes.names.push((kind, known))?;
    Ok(near)
}

/// The declared names of a kind.
fn declared_names(alloc: Global, decls: &Decls, kind: Kind) -> Result<Vec<Name>, AllocError> {
    let mut names = Vec::new(alloc);
    for decl in decls.iter() {
        if decl.kind() == kind {
            names.push(*decl.name())?;
        }
    }
    Ok(names)
}

/// Of the names of stored bodies the one that may have been meant, if one is near.
pub(crate) fn nearest_body(
    adviser: &Adviser<'_>,
    notes: &mut Notes,
    wanted: &Ident,
) -> Result<Option<Name>, AllocError> {
    let Some(wanted) = name_of(wanted) else {
        return Ok(None);
    };
    if let Some(known) = &notes.bodies {
        return known.nearest(adviser.alloc, wanted);
    }
    let known = known_idents(adviser.alloc, adviser.body_names)?;
    let near = known.nearest(adviser.alloc, wanted)?;
    notes.bodies = Some(known);
    Ok(near)
}

/// Of some identifiers the one that may have been meant, if one is near.
pub(crate) fn nearest_ident(
    alloc: Global,
    wanted: &Ident,
    idents: &[Ident],
) -> Result<Option<Name>, AllocError> {
    match name_of(wanted) {
        Some(wanted) => known_idents(alloc, idents)?.nearest(alloc, wanted),
        None => Ok(None),
    }
}

/// Some identifiers as names.
fn known_idents(alloc: Global, idents: &[Ident]) -> Result<KnownNames, AllocError> {
    let mut names = Vec::new(alloc);
    for ident in idents {
        if let Some(name) = name_of(ident) {
            names.push(name)?;
        }
    }
    KnownNames::of(alloc, names.as_slice())
}

/// An identifier as a name of one identifier.
fn name_of(ident: &Ident) -> Option<Name> {
    Name::parse(ident.as_bytes())
}
