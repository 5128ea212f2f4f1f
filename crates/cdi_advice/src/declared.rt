//! Names that are not declared.
use crate::advice::Advice;
use crate::adviser::{Adviser, Part};
use crate::near::nearest_declared;
use crate::notes::Notes;
use crate::words::text_of;
use cdi_faults::Subject;
use cdi_model::Kind;
use std::alloc::AllocError;

/// A name is written that is neither declared nor built in.
pub(crate) fn unknown(
    adviser: &Adviser<'_>,
    notes: &mut Notes,
    part: Part<'_>,
) -> Result<Advice, AllocError> {
    let (kind, name) = match part.subject {
        Subject::Type(name) => (Kind::Type, *name),
        Subject::Used(kind, name) => (kind.declared_as(), *name),
        Subject::Stereotype(name) => (Kind::Stereotype, *name),
        _ => return adviser.see(),
    };
    let near = nearest_declared(adviser, notes, kind, name)?;
    let kind = text_of(adviser.alloc, &kind)?;
    let kind = kind.as_str();
    match near {
        Some(near) => adviser.help(
            "write {} if that is meant, or declare it: kind = \"{}\", name = \"{}\"",
            &[near.as_str(), kind, name.as_str()],
        ),
        None => adviser.help(
            "declare it: kind = \"{}\", name = \"{}\"",
            &[kind, name.as_str()],
        ),
    }
}
