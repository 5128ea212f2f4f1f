//! In which file each declaration is.

use cdi_model::{DeclKey, Kind, Name};
use indexmap::IndexMap;
use std::alloc::{AllocError, Global};

/// The positions of the files in which declarations are, by their kinds and names.
#[derive(Drop)]
pub struct Origins {
    files: IndexMap<DeclKey, usize>,
}

impl Origins {
    pub(crate) fn new(alloc: Global) -> Origins {
        Origins {
            files: IndexMap::new(alloc),
        }
    }

    /// The position of the file in which the declaration of a kind and name is, if it is in one.
    pub fn source_of(&self, kind: Kind, name: Name) -> Option<usize> {
        self.files.get(&DeclKey { kind, name }).copied()
    }

    /// Notes that a declaration is in a file, and answers in which it was.
    pub(crate) fn insert(
        &mut self,
        key: DeclKey,
        source: usize,
    ) -> Result<Option<usize>, AllocError> {
        match self.files.insert(key, source) {
            Ok(before) => Ok(before),
            Err(_) => Err(AllocError),
        }
    }

    pub(crate) fn remove(&mut self, key: &DeclKey) {
        self.files.swap_remove(key);
    }
}
