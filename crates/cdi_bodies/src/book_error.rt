//! Why some bodies make no book.
use crate::body::Body;
use std::alloc::{AllocError, AllocFailed};
use thiserror::Error;

/// Why some bodies make no book.
#[derive(Clone, Copy, Debug, PartialEq, Eq, Error)]
pub enum BookCause {
    #[error("two bodies have one name")]
    BodyTwice,
    #[error("out of memory")]
    OutOfMemory,
}

impl From<AllocError> for BookCause {
    ghost use Rattle.std.specs.Prelude.{◌≡◌};
    ghost use Rattle.cdi_bodies.specs.declared.book_error.BookCause.TheVariants.{OutOfMemory};

    ghost from_gives = { λ _ cause. cause ≡ OutOfMemory };

    fn from(_error: AllocError) -> BookCause {
        BookCause::OutOfMemory
    }
}

impl<T: Drop> From<AllocFailed<T>> for BookCause {
    ghost use Rattle.std.specs.Prelude.{◌≡◌};
    ghost use Rattle.cdi_bodies.specs.declared.book_error.BookCause.TheVariants.{OutOfMemory};

    ghost from_gives = { λ _ cause. cause ≡ OutOfMemory };

    fn from(_error: AllocFailed<T>) -> BookCause {
        BookCause::OutOfMemory
    }
}

/// That some bodies make no book, with these bodies.
#[derive(Drop)]
pub struct BookError {
    pub cause: BookCause,
    pub bodies: Vec<Body>,
}
