//! Edits of the list of declarations.
use crate::decl::{Decl, Kind};
use crate::name::Name;

/// An edit of the list of declarations.
#[derive(Debug, Drop)]
pub enum Edit {
    /// Puts a declaration in the place of the one of its kind and name, or at the end.
    Put(Decl),
    /// Removes the declaration of a kind and name.
    Remove(Kind, Name),
}
