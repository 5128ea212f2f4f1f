//! Edits of the present declarations.
use cdi_model::{Decl, Kind, Name, Seq};

/// An edit of the present declarations, by itself or one of a batch.
#[derive(Debug, Drop)]
pub enum Edit {
    /// Puts the declaration that a TOML text spells.
    Put { text: Seq<u8> },
    /// Puts a declaration that a program made. No line of a script spells it.
    PutDecl { decl: Box<Decl> },
    /// Removes the declaration of a kind and name.
    Remove { kind: Kind, name: Name },
}
