//! What an edit moves.

use cdi_model::{DeclKey, Name};

/// What an edit moves.
#[derive(Clone, Copy)]
pub struct Moved<'a> {
    /// The kinds and names that are edited.
    pub edited: &'a [DeclKey],
    /// Those of the declarations that are affected.
    pub affected: &'a [DeclKey],
    /// The types of the choices that are given up.
    pub types: &'a [Name],
    /// The types of the events whose observer methods are given up.
    pub events: &'a [Name],
    /// The classes of the beans of which a chain is given up.
    pub classes: &'a [Name],
}
