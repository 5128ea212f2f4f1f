//! Uses of qualifiers and of bindings.
use crate::advice::Advice;
use crate::adviser::{Adviser, Part};
use crate::words::{filled, listed, text_of};
use cdi_faults::Subject;
use cdi_intercept::bindings_at;
use cdi_model::{BeanPlace, Decl, Error, MemberDecl, Name, PartPlace, Qual, Seq, UseKind};
use std::alloc::{AllocError, Global};

/// Two bindings of one type differ.
pub(crate) fn conflict(adviser: &Adviser<'_>, part: Part<'_>) -> Result<Advice, AllocError> {
    let alloc = adviser.alloc;
    let place = match part.subject {
        Subject::Part(PartPlace::Method(name)) => BeanPlace::Method(*name),
        Subject::Part(PartPlace::Producer(name)) => BeanPlace::Producer(*name),
        Subject::Part(PartPlace::Observer(name)) => BeanPlace::Observer(*name),
        _ => BeanPlace::Construct,
    };
    let uses = match bindings_at(alloc, adviser.decls, *part.decl.name(), &place) {
        Ok(uses) => uses,
        Err(Error::OutOfMemory) => return Err(AllocError),
        Err(Error::Refused(_)) => Seq::new(alloc),
    };
    let opposed = repeated_of(alloc, uses.as_slice())?;
    let opposed = listed(alloc, opposed.as_slice())?;
    let subject = text_of(alloc, part.subject)?;
    adviser.help(
        "{} has {}: write one there that settles it, or leave one out",
        &[subject.as_str(), opposed.as_str()],
    )
}

/// Those of some uses that have the name of another.
fn repeated_of(alloc: Global, uses: &[Qual]) -> Result<Vec<&Qual>, AllocError> {
    let mut repeated = Vec::new(alloc);
    for one in uses {
        if count_of(uses, &one.name) > 1 {
            repeated.push(one)?;
        }
    }
    Ok(repeated)
}

/// How many of some uses have a name.
fn count_of(uses: &[Qual], name: &Name) -> usize {
    let mut count = 0usize;
    for one in uses {
        if one.name == *name {
            count = count.saturating_add(1);
        }
    }
    count
}

/// A use does not fit its declaration.
pub(crate) fn member(adviser: &Adviser<'_>, part: Part<'_>) -> Result<Advice, AllocError> {
    let alloc = adviser.alloc;
    let Subject::Use(kind, qual) = part.subject else {
        return adviser.see();
    };
    let mut members = Vec::new(alloc);
    for member in members_of(adviser, *kind, part) {
        members.push(text_of_member(alloc, member)?)?;
    }
    let members = listed(alloc, members.as_slice())?;
    adviser.help(
        "the members of {} are: {}",
        &[qual.name.as_str(), members.as_str()],
    )
}

/// A member, as it is to be written.
fn text_of_member(alloc: Global, member: &MemberDecl) -> Result<String, AllocError> {
    match member.default {
        Some(value) => {
            let value = text_of(alloc, &value)?;
            filled(
                alloc,
                "{} (else {})",
                &[member.name.as_str(), value.as_str()],
            )
        }
        None => String::from_str(alloc, member.name.as_str()),
    }
}

/// The members of what is used.
fn members_of<'a>(adviser: &Adviser<'a>, kind: UseKind, part: Part<'_>) -> &'a [MemberDecl] {
    let Subject::Use(_, qual) = part.subject else {
        return &[];
    };
    match adviser.decls.get(kind.declared_as(), &qual.name) {
        Some(Decl::Qualifier(decl)) => decl.members.as_slice(),
        Some(Decl::Binding(decl)) => decl.members.as_slice(),
        _ => &[],
    }
}
