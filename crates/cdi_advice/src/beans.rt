//! Beans as wholes.
use crate::advice::Advice;
use crate::adviser::{Adviser, Part};
use crate::circles::circle_of_needs;
use crate::notes::Notes;
use crate::words::{filled, listed, text_of};
use cdi_effective::BeanId;
use cdi_faults::Subject;
use cdi_model::{Decl, Decls, Ident, Kind, Mention, Name, Scope};
use std::alloc::{AllocError, Global};

/// Two stereotypes give different scopes.
pub(crate) fn scope_conflict(adviser: &Adviser<'_>, part: Part<'_>) -> Result<Advice, AllocError> {
    let mut given = Vec::new(adviser.alloc);
    for mention in part.decl.mentions() {
        if let Mention::Stereotype(name) = mention {
            if let Some(scope) = given_scope(adviser.alloc, adviser.decls, name)? {
                given.push(scope)?;
            }
        }
    }
    let given = listed(adviser.alloc, given.as_slice())?;
    adviser.help(
        "of its stereotypes, {}: write the scope that it has, as scope = \"request\"",
        &[given.as_str()],
    )
}

/// The scope that a stereotype gives, as `Action gives request`.
fn given_scope(alloc: Global, decls: &Decls, name: &Name) -> Result<Option<String>, AllocError> {
    let Some(Decl::Stereotype(stereotype)) = decls.get(Kind::Stereotype, name) else {
        return Ok(None);
    };
    let form = match stereotype.scope {
        None => return Ok(None),
        Some(Scope::Dependent) => "{} gives dependent",
        Some(Scope::Request) => "{} gives request",
        Some(Scope::Application) => "{} gives application",
    };
    Ok(Some(filled(alloc, form, &[name.as_str()])?))
}

/// A disposer matches no producer, or two match one.
pub(crate) fn disposer(adviser: &Adviser<'_>, part: Part<'_>) -> Result<Advice, AllocError> {
    match part.subject {
        Subject::Disposer(name) => adviser.help(
            "no producer of the bean has the type and the qualifiers of {}: write those of one, or leave the disposer out",
            &[name.as_str()],
        ),
        Subject::Producer(name) => adviser.help(
            "two disposers match producer {}: leave one out",
            &[name.as_str()],
        ),
        _ => adviser.see(),
    }
}

/// An observer is conditional, and its bean is dependent.
pub(crate) fn conditional(adviser: &Adviser<'_>) -> Result<Advice, AllocError> {
    adviser.help(
        "give the bean scope = \"request\" or \"application\", or leave conditional out",
        &[],
    )
}

/// A bean has `specializes`, and there is no bean that it specializes.
pub(crate) fn no_specialized(adviser: &Adviser<'_>, part: Part<'_>) -> Result<Advice, AllocError> {
    adviser.help(
        "let the type {} extend the class of a bean, or leave specializes out",
        &[part.decl.name().as_str()],
    )
}

/// A bean lacks a type of the bean that it specializes.
pub(crate) fn specialized_type(
    adviser: &Adviser<'_>,
    part: Part<'_>,
) -> Result<Advice, AllocError> {
    match part.subject {
        Subject::Type(name) => adviser.help(
            "the bean that it specializes has the type {}: list it in types, or leave types out",
            &[name.as_str()],
        ),
        _ => adviser.see(),
    }
}

/// A bean has a name of its own, and the bean that it specializes has one.
pub(crate) fn specialized_name(adviser: &Adviser<'_>) -> Result<Advice, AllocError> {
    adviser.help(
        "leave named out: the bean has the name of the one that it specializes",
        &[],
    )
}

/// Two beans specialize one.
pub(crate) fn specialized_twice(
    adviser: &Adviser<'_>,
    specialized: &Name,
    first: &Name,
    second: &Name,
) -> Result<Advice, AllocError> {
    adviser.help(
        "{} and {} both specialize {}: leave specializes out of one, or let one extend the other",
        &[first.as_str(), second.as_str(), specialized.as_str()],
    )
}

/// A dependent bean needs itself.
pub(crate) fn circle(
    adviser: &Adviser<'_>,
    notes: &mut Notes,
    class: Name,
    producer: Option<Ident>,
) -> Result<Advice, AllocError> {
    let id = BeanId { class, producer };
    let way = match circle_of_needs(adviser, notes, id)? {
        Some(way) => way,
        None => text_of(adviser.alloc, &id)?,
    };
    adviser.help(
        "{}: give a bean on the way scope = \"request\" or \"application\"",
        &[way.as_str()],
    )
}
