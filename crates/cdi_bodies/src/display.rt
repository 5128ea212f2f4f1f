//! How promises and bodies print.
use crate::body::Body;
use crate::book::Book;
use crate::book_error::BookError;
use crate::promise::Promise;
use crate::promise_book::PromiseBook;
use std::fmt;

/// The word of an act in the text of a promise.
#[derive(Clone, Copy)]
struct Word {
    promise: Promise,
    act: Promise,
    word: &'static str,
}

/// The word where the act is promised, after a space where an act before it is promised too.
impl fmt::Display for Word {
    ghost use Rattle.std.specs.Prelude.{Some};
    ghost use Rattle.cdi_bodies.specs.PromiseText.{text_of_word};

    ghost output = { λ w. Some (text_of_word w.promise.0 w.act.0 w.word.now) };

    fn fmt<W: fmt::Write>(&self, f: &mut fmt::Formatter<W>) -> fmt::Result {
        if !self.promise.has(self.act) {
            return Ok(());
        }
        if self.promise.has_before(self.act) {
            write!(f, " {}", self.word)
        } else {
            write!(f, "{}", self.word)
        }
    }
}

/// The words of the acts that it promises, separated by spaces, as `LOAD STORE`; nothing where it promises none.
impl fmt::Display for Promise {
    ghost use Rattle.std.specs.Prelude.{Some};
    ghost use Rattle.cdi_bodies.specs.PromiseText.{text_of_promise};

    ghost output = { λ promise. Some (text_of_promise promise.0) };

    fn fmt<W: fmt::Write>(&self, f: &mut fmt::Formatter<W>) -> fmt::Result {
        let word = |act, word| Word {
            promise: *self,
            act,
            word,
        };
        write!(
            f,
            "{}{}{}{}{}{}",
            word(Promise::LOAD, "LOAD"),
            word(Promise::STORE, "STORE"),
            word(Promise::CALL, "CALL"),
            word(Promise::FIRE, "FIRE"),
            word(Promise::PROCEED, "PROCEED"),
            word(Promise::FAIL, "FAIL")
        )
    }
}

impl fmt::Debug for Body {
    fn fmt<W: fmt::Write>(&self, f: &mut fmt::Formatter<W>) -> fmt::Result {
        write!(f, "Body({} {})", self.name, self.promise)
    }
}

impl fmt::Debug for Book {
    fn fmt<W: fmt::Write>(&self, f: &mut fmt::Formatter<W>) -> fmt::Result {
        write!(f, "Book")
    }
}

impl fmt::Debug for BookError {
    fn fmt<W: fmt::Write>(&self, f: &mut fmt::Formatter<W>) -> fmt::Result {
        write!(f, "BookError({})", self.cause)
    }
}

impl fmt::Debug for PromiseBook {
    fn fmt<W: fmt::Write>(&self, f: &mut fmt::Formatter<W>) -> fmt::Result {
        write!(f, "PromiseBook")
    }
}
