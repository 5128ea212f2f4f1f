//! The stored bodies that a check knows: those of the program, or those that a file lists.
use cdi_bodies::{Promise, PromiseBook};
use cdi_model::Ident;
use cdi_stock::Stock;
use std::alloc::{AllocError, Global};
use toml::Value;
use toml::value::Array;

/// Why a text lists no bodies.
#[derive(Drop)]
pub(crate) enum BodiesError {
    OutOfMemory,
    /// It is not TOML, or not a list of words at each name.
    Unreadable,
}

impl From<AllocError> for BodiesError {
    fn from(_error: AllocError) -> BodiesError {
        BodiesError::OutOfMemory
    }
}

/// Bodies that a file lists.
#[derive(Drop)]
pub(crate) struct ListedBodies {
    pub(crate) book: PromiseBook,
    pub(crate) names: Vec<Ident>,
}

impl ListedBodies {
    fn insert(&mut self, name: Ident, promise: Promise) -> Result<(), AllocError> {
        self.book.insert(name, promise)?;
        self.names.push(name)?;
        Ok(())
    }
}

/// The names and promises that a TOML text lists, as `count = ["LOAD", "STORE"]`.
pub(crate) fn read_bodies(alloc: Global, text: &[u8]) -> Result<ListedBodies, BodiesError> {
    let table = match toml::table_from_slice(alloc, text) {
        Ok(table) => table,
        Err(error) if error.is_memory() => return Err(BodiesError::OutOfMemory),
        Err(_) => return Err(BodiesError::Unreadable),
    };
    let mut listed = ListedBodies {
        book: PromiseBook::new(alloc),
        names: Vec::new(alloc),
    };
    for (name, value) in table.iter() {
        let (Some(name), Value::Array(words)) = (Ident::parse(name.as_bytes()), value) else {
            return Err(BodiesError::Unreadable);
        };
        let Some(promise) = promise_of(words) else {
            return Err(BodiesError::Unreadable);
        };
        listed.insert(name, promise)?;
    }
    Ok(listed)
}

/// The names of the bodies of the program.
pub(crate) fn names_of_stock(alloc: Global) -> Result<Vec<Ident>, AllocError> {
    let mut names = Vec::new(alloc);
    for body in Stock::all() {
        names.push(body.name())?;
    }
    Ok(names)
}

/// The promise of some words.
fn promise_of(words: &Array) -> Option<Promise> {
    let mut promise = Promise::NONE;
    for word in words {
        let act = match word.as_str()? {
            "LOAD" => Promise::LOAD,
            "STORE" => Promise::STORE,
            "CALL" => Promise::CALL,
            "FIRE" => Promise::FIRE,
            "PROCEED" => Promise::PROCEED,
            "FAIL" => Promise::FAIL,
            _ => return None,
        };
        promise = promise | act;
    }
    Some(promise)
}
