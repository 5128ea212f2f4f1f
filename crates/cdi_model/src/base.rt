//! A list of declarations that is never changed, and that copies share.
ghost use Rattle.std.specs.Prelude.{◌≡◌, [], IfOk, length, option_map, position, slice_get};
ghost use Rattle.cdi_model.specs.DeclList.{is_of};
ghost use Rattle.cdi_model.specs.Entries.{decls_of, AreKeyed};

use crate::decl::{Decl, Kind};
use crate::key::{DeclKey, KeyRef};
use crate::name::Name;
use indexmap::IndexMap;
use std::alloc::{AllocError, Global};
use std::marker::Model;
use std::rc::Rc;

/// The declarations of a base, in order, found by their keys.
#[derive(Drop)]
pub struct Base {
    /// None where there is no declaration.
    map: Option<Rc<IndexMap<DeclKey, Rc<Decl>>>>,
}

impl Model for Base {
    ghost use Rattle.std.specs.Prelude.{List, [], option_map, unwrap_or};
    ghost use Rattle.cdi_model.specs.declared.decl.Decl.{Decl as AnyDecl};
    ghost use Rattle.cdi_model.specs.Entries.{decls_of, AreKeyed};

    ghost Value = { List AnyDecl };

    ghost view = { λ b. decls_of (unwrap_or (option_map (λ m. m.value.entries) b.map) []) };

    ghost invariant = { λ b. AreKeyed (unwrap_or (option_map (λ m. m.value.entries) b.map) []) };
}

impl Base {
    /// The empty base. It takes no memory.
    pub(crate) fn new() -> Base
        ensures { result ≡ [] }
    {
        Base { map: None }
    }

    /// The base of what a map holds.
    pub(crate) fn of(alloc: Global, map: IndexMap<DeclKey, Rc<Decl>>) -> Result<Base, AllocError>
        requires { AreKeyed map.entries }
        ensures { IfOk result (λ base. base ≡ decls_of map.entries) }
    {
        let map = Rc::new(alloc, map)?;
        Ok(Base { map: Some(map) })
    }

    /// The same base. It takes no memory.
    pub(crate) fn copy(&self) -> Result<Base, AllocError>
        ensures { IfOk result (λ copy. copy ≡ self.now) }
    {
        let map = match &self.map {
            Some(map) => Some(map.clone()?),
            None => None,
        };
        Ok(Base { map })
    }

    /// How many there are.
    pub(crate) fn len(&self) -> usize
        ensures { result ≡ length self.now }
    {
        match &self.map {
            Some(map) => map.len(),
            None => 0,
        }
    }

    /// The place of the declaration of a kind and name.
    pub(crate) fn place_of(&self, kind: Kind, name: &Name) -> Option<usize>
        ensures { result ≡ position (is_of kind name.now) self.now }
    {
        match &self.map {
            Some(map) => map.get_index_of(KeyRef { kind, name }),
            None => None,
        }
    }

    /// The declaration at a place.
    pub(crate) fn at(&self, place: usize) -> Option<&Rc<Decl>>
        ensures { option_map (λ d. d.now.value) result ≡ slice_get self.now place }
    {
        let Some(map) = &self.map else {
            return None;
        };
        match map.get_index(place) {
            Some((_, decl)) => Some(decl),
            None => None,
        }
    }
}
