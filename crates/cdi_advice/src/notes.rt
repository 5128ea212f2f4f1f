//! What is found for one fault and serves others.
use crate::choices::Considered;
use crate::circles::Needs;
use cdi_explain::KnownNames;
use cdi_memo::Memo;
use cdi_model::{Kind, Name, Quals};
use cdi_ways::Ways;
use indexmap::IndexSet;
use std::alloc::Global;

/// What was found for the faults so far and serves the next ones of the same deployment.
#[derive(Drop)]
pub struct Notes {
    /// The beans that were considered for a type and qualifiers.
    pub(crate) points: Memo<Quals, Considered>,
    /// The types that beans have.
    pub(crate) types: Option<IndexSet<Name>>,
    /// What the dependent beans need.
    pub(crate) needs: Option<Needs>,
    /// The declared names of a kind.
    pub(crate) names: Vec<(Kind, KnownNames)>,
    /// The names of stored bodies.
    pub(crate) bodies: Option<KnownNames>,
    /// The ways between the declarations of a kind.
    pub(crate) ways: Vec<(Kind, Ways)>,
}

impl Notes {
    /// Nothing yet. It takes no memory.
    pub fn new(alloc: Global) -> Notes {
        Notes {
            points: Memo::new(alloc),
            types: None,
            needs: None,
            names: Vec::new(alloc),
            bodies: None,
            ways: Vec::new(alloc),
        }
    }
}
