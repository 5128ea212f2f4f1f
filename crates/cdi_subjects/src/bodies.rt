//! Stored bodies that are not there, or that may do more than is allowed where they run (profile).
ghost use Rattle.std.specs.Prelude.{◌≡◌, IfOk};
ghost use Rattle.cdi_bodies.specs.Book.{promise_of};
ghost use Rattle.cdi_model.specs.Mentions.{shown};
ghost use Rattle.cdi_subjects.specs.Parts.{allowed_around, allowed_at, allowed_in, is_fit, unfit_in, unfit_parts};

use cdi_bodies::{Bodies, Promise};
use cdi_faults::Subject;
use cdi_model::{Decl, Ident, Mention, PartPlace};
use std::alloc::{AllocError, Global};

/// The parts of a declaration whose bodies are not in a book, or promise more than is allowed in their places.
pub(crate) fn unfit_parts<B: Bodies>(
    alloc: Global,
    book: &B,
    decl: &Decl,
) -> Result<Vec<Subject>, AllocError>
    ensures { IfOk result (λ list. list.items ≡ unfit_parts (B.promises book.now) decl.now) }
{
    let mut subjects = Vec::new(alloc);
    for mention in decl.mentions() {
        if let Some(subject) = unfit_in(book, decl, &mention) {
            subjects.push(subject)?;
        }
    }
    Ok(subjects)
}

/// A part, where its body is not in the book or promises more than is allowed.
pub(crate) fn unfit_in<B: Bodies>(book: &B, decl: &Decl, mention: &Mention<'_>) -> Option<Subject>
    ensures { result ≡ unfit_in (B.promises book.now) decl.now (shown mention.now) }
{
    match mention {
        Mention::Body(place, body) if !is_fit(book, allowed_in(decl, place), body) => {
            Some(Subject::Part(*place))
        }
        _ => None,
    }
}

/// Whether a body is in a book, and promises nothing but what is allowed.
fn is_fit<B: Bodies>(book: &B, allowed: Promise, body: &Ident) -> bool
    ensures { result ≡ is_fit allowed.0 (promise_of (B.promises book.now) body.now) }
{
    match book.promise(body) {
        Some(promise) => promise.is_allowed(allowed),
        None => false,
    }
}

/// What a stored body may do in a place of a declaration (profile). It takes no memory.
pub fn allowed_in(decl: &Decl, place: &PartPlace) -> Promise
    ensures { result.0 ≡ allowed_in decl.now place.now }
{
    match decl {
        Decl::Interceptor(_) => allowed_around(place),
        _ => allowed_at(place),
    }
}

fn allowed_around(place: &PartPlace) -> Promise
    ensures { result.0 ≡ allowed_around place.now }
{
    match place {
        PartPlace::Pre => Promise::AROUND_DESTRUCTION,
        _ => Promise::AROUND,
    }
}

fn allowed_at(place: &PartPlace) -> Promise
    ensures { result.0 ≡ allowed_at place.now }
{
    match place {
        PartPlace::Pre => Promise::AT_DESTRUCTION,
        PartPlace::Disposer(_) => Promise::AT_DISPOSAL,
        PartPlace::StaticProducer(_) => Promise::AT_CLASS,
        _ => Promise::AT_INSTANCE,
    }
}
