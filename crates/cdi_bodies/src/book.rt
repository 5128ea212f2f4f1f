//! Books of stored bodies.
ghost use Rattle.std.specs.Prelude.{◌≡◌, ◌<◌, ℕ, IfSome, IfOk, IfErr, is_some, map, List, length, slice_get};
ghost use Rattle.cdi_bodies.specs.Within.{IsWithin};
ghost use Rattle.cdi_bodies.specs.Book.{promise_of, position_of, AreDistinct, IsCauseFor};
ghost use Rattle.cdi_bodies.specs.declared.promise.Promise.{Promise};

use crate::act::{Act, Frame};
use crate::body::Body;
use crate::book_error::{BookCause, BookError};
use crate::promise::Promise;
use cdi_model::Ident;
use indexmap::IndexSet;
use std::alloc::Global;

/// What a run knows of a book: bodies in an order, each with a name and a promise. No call takes memory. A `Book` finds a
/// name in time that does not grow with the number of its bodies; runs look names up once, and ask by position.
pub trait Bodies {
    /// The names and promises, in order.
    ghost promises: { Self → List (List ℕ × Promise) };

    /// The position of the body of a name.
    fn position(&self, name: &Ident) -> Option<usize>
        ensures value { result ≡ position_of (promises self.now) name.now }
        ensures found { IfSome result (λ position. position < length (promises self.now)) };

    /// The promise of the body of a name.
    fn promise(&self, name: &Ident) -> Option<Promise>
        ensures { result ≡ promise_of (promises self.now) name.now };

    /// The next act of the body at a position.
    fn ask_at(&self, position: usize, frame: &Frame) -> Act
        requires { position < length (promises self.now) }
        ensures { IfSome (slice_get (promises self.now) position) (λ body. IsWithin body.1 frame.now result) };

    /// The next act of the body of a name, if there is one.
    fn ask(&self, name: &Ident, frame: &Frame) -> Option<Act>
        ensures known { is_some result ≡ is_some (promise_of (promises self.now) name.now) }
        ensures within { IfSome result (λ act.
            IfSome (promise_of (promises self.now) name.now) (λ promise. IsWithin promise frame.now act)) };
}

/// The bodies of a container, of distinct names. Contracts see of it what `Bodies` says, and no more.
pub struct Book {
    bodies: Vec<Body>,
    /// Their names, in the same order.
    names: IndexSet<Ident>,
    ghost named: { names.keys ≡ map (λ body. body.name) bodies.items },
}

impl Drop for Book {
    fn drop(self) {
        let Book {
            bodies: _,
            names: _,
        } = self;
    }
}

/// The names of some bodies, in order, which are distinct.
fn names_of(alloc: Global, bodies: &[Body]) -> Result<IndexSet<Ident>, BookCause>
    ensures names { IfOk result (λ names. names.keys ≡ map (λ body. body.name) bodies.now) }
    ensures distinct { IfOk result (λ _. AreDistinct (map (λ body. (body.name, body.promise)) bodies.now)) }
    ensures twice { IfErr result (λ cause. IsCauseFor cause (map (λ body. (body.name, body.promise)) bodies.now)) }
{
    let mut names = IndexSet::with_capacity(alloc, bodies.len())?;
    for body in bodies {
        let (_, is_new) = names.insert_full(body.name)?;
        if !is_new {
            return Err(BookCause::BodyTwice);
        }
    }
    Ok(names)
}

impl Book {
    /// A book of these bodies, which are handed back where two of them have one name, and where there is no memory.
    /// It takes memory for an entry a body, and time near their number.
    pub fn new(bodies: Vec<Body>) -> Result<Book, BookError>
        ensures holds { IfOk result (λ book. ⟦<Book as Bodies>⟧.promises book ≡ map (λ body. (body.name, body.promise)) bodies.items) }
        ensures distinct { IfOk result (λ _. AreDistinct (map (λ body. (body.name, body.promise)) bodies.items)) }
        ensures cause { IfErr result (λ error. IsCauseFor error.cause (map (λ body. (body.name, body.promise)) bodies.items)) }
        ensures back { IfErr result (λ error. error.bodies ≡ bodies) }
    {
        match names_of(*bodies.allocator(), &bodies) {
            Ok(names) => Ok(Book { bodies, names }),
            Err(cause) => Err(BookError { cause, bodies }),
        }
    }
}

impl Bodies for Book {
    ghost promises = { λ book. map (λ body. (body.name, body.promise)) book.bodies.items };

    fn position(&self, name: &Ident) -> Option<usize> {
        self.names.get_index_of(name)
    }

    fn promise(&self, name: &Ident) -> Option<Promise> {
        let position = self.position(name)?;
        Some(self.bodies[position].promise)
    }

    fn ask_at(&self, position: usize, frame: &Frame) -> Act {
        self.bodies[position].ask(frame)
    }

    fn ask(&self, name: &Ident, frame: &Frame) -> Option<Act> {
        let position = self.position(name)?;
        Some(self.bodies[position].ask(frame))
    }
}
