//! Declarations with their beans.
use cdi_fixtures::declared;
use cdi_model::{Decls, Error};
use cdi_resolve::BeanList;
use std::alloc::Global;

/// Declarations with their beans.
#[derive(Drop)]
pub struct Deployed {
    pub decls: Decls,
    pub beans: BeanList,
}

impl Deployed {
    /// The declarations that texts spell, with their beans.
    pub fn new(alloc: Global, texts: &[&[u8]]) -> Result<Deployed, Error> {
        let decls = declared(alloc, texts)?;
        let beans = BeanList::of(alloc, &decls)?;
        Ok(Deployed { decls, beans })
    }
}
