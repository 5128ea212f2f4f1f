//! Stored bodies that do not fit.
use crate::advice::Advice;
use crate::adviser::{Adviser, Part};
use crate::near::nearest_body;
use crate::notes::Notes;
use crate::words::text_of;
use cdi_bodies::{Bodies, Promise};
use cdi_faults::Subject;
use cdi_model::{Ident, Mention, PartPlace};
use cdi_subjects::allowed_in;
use std::alloc::AllocError;

/// A body that is not in the book, or that may do more than is allowed where it runs.
pub(crate) fn unfit<B: Bodies>(
    adviser: &Adviser<'_>,
    notes: &mut Notes,
    book: &B,
    part: Part<'_>,
) -> Result<Advice, AllocError> {
    let Subject::Part(place) = part.subject else {
        return adviser.see();
    };
    let Some(body) = body_in(part, place) else {
        return adviser.see();
    };
    match book.promise(body) {
        None => unknown(adviser, notes, body),
        Some(promise) => forbidden(adviser, part, place, body, promise),
    }
}

/// A body that is not in the book.
fn unknown(adviser: &Adviser<'_>, notes: &mut Notes, body: &Ident) -> Result<Advice, AllocError> {
    match nearest_body(adviser, notes, body)? {
        Some(near) => adviser.help(
            "no body has the name {}: write {} if that is meant, or name another that the book has",
            &[body.as_str(), near.as_str()],
        ),
        None => adviser.help(
            "no body has the name {}: name one that the book has",
            &[body.as_str()],
        ),
    }
}

/// A body that may do more than is allowed in a place.
fn forbidden(
    adviser: &Adviser<'_>,
    part: Part<'_>,
    place: &PartPlace,
    body: &Ident,
    promise: Promise,
) -> Result<Advice, AllocError> {
    let alloc = adviser.alloc;
    let allowed = text_of(alloc, &allowed_in(part.decl, place))?;
    let place = text_of(alloc, place)?;
    let promise = text_of(alloc, &promise)?;
    adviser.help(
        "the body {} may do {}; allowed at {} is {}: name another",
        &[
            body.as_str(),
            promise.as_str(),
            place.as_str(),
            allowed.as_str(),
        ],
    )
}

/// The name of the body that runs in a place.
fn body_in<'a>(part: Part<'a>, place: &PartPlace) -> Option<&'a Ident> {
    for mention in part.decl.mentions() {
        if let Mention::Body(at, body) = mention {
            if at == *place {
                return Some(body);
            }
        }
    }
    None
}
