//! What a draft leads from, and what it leads to.

use cdi_index::{Index, NextIndex};
use cdi_model::DeclKey;

/// The declarations before a draft that is staged, and after it.
#[derive(Drop)]
pub(crate) struct Sides<'a> {
    pub(crate) index: &'a Index,
    pub(crate) next: &'a NextIndex<'a>,
    /// The kinds and names of the edits.
    pub(crate) edited: &'a [DeclKey],
    /// Those of the declarations that the edits affect.
    pub(crate) affected: &'a [DeclKey],
    /// Whether one of them is an interceptor that is edited, or of which the bindings are filled otherwise after the draft.
    pub(crate) moves_interceptors: bool,
}
