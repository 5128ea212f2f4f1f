//! Declarations that are looked through one after another.
ghost use Rattle.std.specs.Prelude.{◌≡◌, [], IfOk, OnOk, OnErr, length, is_some, option_map, position, slice_get};
ghost use Rattle.cdi_model.specs.DeclList.{find_decl, is_of, put_in, remove_from};
ghost use Rattle.cdi_model.specs.Layers.{shared_in};

use crate::decl::{Decl, Kind};
use crate::name::Name;
use std::alloc::{AllocError, Global};
use std::marker::Model;
use std::rc::Rc;
use std::slice;

/// A few declarations, in order.
#[derive(Drop)]
pub struct Added {
    list: Vec<Rc<Decl>>,
}

impl Model for Added {
    ghost use Rattle.std.specs.Prelude.{List};
    ghost use Rattle.cdi_model.specs.declared.decl.Decl.{Decl as AnyDecl};
    ghost use Rattle.cdi_model.specs.Layers.{shared_in};

    ghost Value = { List AnyDecl };

    ghost view = { λ a. shared_in a.list.items };
}

impl Added {
    /// None. It takes no memory.
    pub(crate) fn new(alloc: Global) -> Added
        ensures { result ≡ [] }
    {
        Added {
            list: Vec::new(alloc),
        }
    }

    pub(crate) fn allocator(&self) -> Global {
        *self.list.allocator()
    }

    /// An equal list, which shares its declarations. It takes memory for an entry a declaration.
    pub(crate) fn copy(&self) -> Result<Added, AllocError>
        ensures { IfOk result (λ copy. copy ≡ self.now) }
    {
        let mut list = Vec::with_capacity(self.allocator(), self.list.len())?;
        for decl in &self.list {
            list.push(decl.clone()?)?;
        }
        Ok(Added { list })
    }

    /// How many there are.
    pub(crate) fn len(&self) -> usize
        ensures { result ≡ length self.now }
    {
        self.list.len()
    }

    /// The declaration of a kind and name.
    pub(crate) fn get(&self, kind: Kind, name: &Name) -> Option<&Rc<Decl>>
        ensures { option_map (λ d. d.now.value) result ≡ find_decl kind name.now self.now }
    {
        match self.position(kind, name) {
            Some(position) => self.at(position),
            None => None,
        }
    }

    /// The position of the declaration of a kind and name.
    pub(crate) fn position(&self, kind: Kind, name: &Name) -> Option<usize>
        ensures { result ≡ position (is_of kind name.now) self.now }
    {
        position_among(&self.list, kind, name)
    }

    /// The declaration at a position.
    pub(crate) fn at(&self, position: usize) -> Option<&Rc<Decl>>
        ensures { option_map (λ d. d.now.value) result ≡ slice_get self.now position }
    {
        self.list.get(position)
    }

    /// The declarations, in order.
    pub(crate) fn iter(&self) -> slice::Iter<'_, Rc<Decl>>
        ensures { shared_in result.rest.now ≡ self.now }
    {
        self.list.iter()
    }

    /// Puts a declaration in the place of the one of its kind and name, or at the end.
    pub(crate) fn put(&mut self, decl: Rc<Decl>) -> Result<(), AllocError>
        ensures ok { OnOk result (self.new ≡ put_in self.old decl.value) }
        ensures err { OnErr result (self.new ≡ self.old) }
    {
        match position_among(&self.list, decl.kind(), decl.name()) {
            Some(position) => self.list[position] = decl,
            None => self.list.push(decl)?,
        }
        Ok(())
    }

    /// Removes the declaration of a kind and name, and says whether there is one. It takes no memory.
    pub(crate) fn remove(&mut self, kind: Kind, name: &Name) -> bool
        ensures found { result ≡ is_some (find_decl kind name.now self.old) }
        ensures removed { self.new ≡ remove_from kind name.now self.old }
    {
        let Some(position) = position_among(&self.list, kind, name) else {
            return false;
        };
        let _removed = self.list.remove(position);
        true
    }
}

fn position_among(list: &[Rc<Decl>], kind: Kind, name: &Name) -> Option<usize>
    ensures { result ≡ position (λ d. is_of kind name.now d.value) list.now }
{
    list.iter().position(|decl| is_of(decl, kind, name))
}

/// Whether a declaration is of a kind and name.
fn is_of(decl: &Decl, kind: Kind, name: &Name) -> bool
    ensures { result ≡ is_of kind name.now decl.now }
{
    decl.kind() == kind && decl.name() == name
}
