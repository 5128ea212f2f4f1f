//! The lists of names of a declaration.
ghost use Rattle.std.specs.Prelude.{◌≡◌, ◌++◌, ◌∷◌, [], flat_map, map, IfOk, OnOk};
ghost use Rattle.std.specs.List.{list_any};
ghost use Rattle.cdi_model.specs.declared.decl.Decl.TheVariants as decls_are;
ghost use Rattle.cdi_uses.specs.Twice.{has_twice};
ghost use Rattle.cdi_admission.specs.Admission.{is_long, lists_of_attributes, lists_of_producer, name_lists, point_names};

use crate::labels::{Labelled, labels_of};
use cdi_model::{Attributes, BeanDecl, Decl, LIST_LIMIT, ObserverDecl, ProducerDecl};
use cdi_uses::has_twice;
use std::alloc::{AllocError, Global};
use std::marker::Model;

/// Lists of names, each of which may occur once in its list.
#[derive(Drop)]
pub(crate) struct NameLists<'a> {
    lists: Vec<Vec<&'a [u8]>>,
}

impl<'a> Model for NameLists<'a> {
    ghost use Rattle.std.specs.Prelude.{List, ℕ, map};

    ghost Value = { List (List (List ℕ)) };

    ghost view = { λ n. map (λ names. map (λ name. name.now) names.items) n.lists.items };
}

impl<'a> NameLists<'a> {
    /// Those of a declaration. It takes memory for each of the names.
    pub(crate) fn of(alloc: Global, decl: &'a Decl) -> Result<NameLists<'a>, AllocError>
        ensures { IfOk result (λ lists. lists ≡ name_lists decl.now) }
    {
        let mut lists = NameLists {
            lists: Vec::new(alloc),
        };
        match decl {
            Decl::Type(decl) => lists.add(alloc, decl.implements.as_slice())?,
            Decl::Qualifier(decl) => lists.add(alloc, decl.members.as_slice())?,
            Decl::Binding(decl) => lists.add(alloc, decl.members.as_slice())?,
            Decl::Stereotype(decl) => lists.add(alloc, decl.stereotypes.as_slice())?,
            Decl::Bean(bean) => lists.add_bean(alloc, bean)?,
            Decl::Interceptor(decl) => lists.add(alloc, decl.points.as_slice())?,
        }
        Ok(lists)
    }

    /// Adds the names of the entries of a list.
    fn add<T: Labelled>(&mut self, alloc: Global, items: &'a [T]) -> Result<(), AllocError>
        ensures { OnOk result (self.new ≡ self.old ++ map T.label_of items.now ∷ []) }
    {
        self.lists.push(labels_of(alloc, items)?)?;
        Ok(())
    }

    fn add_bean(&mut self, alloc: Global, bean: &'a BeanDecl) -> Result<(), AllocError>
        ensures { OnOk result (self.new ≡ self.old ++ name_lists (decls_are.Bean bean.now)) }
    {
        self.add_attributes(alloc, &bean.attributes)?;
        self.add(alloc, bean.points.as_slice())?;
        self.add(alloc, bean.methods.as_slice())?;
        self.add(alloc, bean.producers.as_slice())?;
        self.add(alloc, bean.disposers.as_slice())?;
        self.add(alloc, bean.observers.as_slice())?;
        self.add_producers(alloc, bean.producers.as_slice())?;
        self.add_observers(alloc, bean.observers.as_slice())
    }

    fn add_attributes(
        &mut self,
        alloc: Global,
        attributes: &'a Attributes,
    ) -> Result<(), AllocError>
        ensures { OnOk result (self.new ≡ self.old ++ lists_of_attributes attributes.now) }
    {
        match &attributes.types {
            Some(types) => self.add(alloc, types.as_slice())?,
            None => self.lists.push(Vec::new(alloc))?,
        }
        self.add(alloc, attributes.stereotypes.as_slice())
    }

    fn add_producers(
        &mut self,
        alloc: Global,
        producers: &'a [ProducerDecl],
    ) -> Result<(), AllocError>
        ensures { OnOk result (self.new ≡ self.old ++ flat_map lists_of_producer producers.now) }
    {
        for producer in producers {
            self.add_attributes(alloc, &producer.attributes)?;
            self.add(alloc, producer.params.as_slice())?;
        }
        Ok(())
    }

    fn add_observers(
        &mut self,
        alloc: Global,
        observers: &'a [ObserverDecl],
    ) -> Result<(), AllocError>
        ensures { OnOk result (self.new ≡ self.old ++ map (λ o. point_names o.params) observers.now) }
    {
        for observer in observers {
            self.add(alloc, observer.params.as_slice())?;
        }
        Ok(())
    }

    /// Whether a name occurs twice in one of them. It takes memory for the names of one list after another.
    pub(crate) fn has_twice(&self, alloc: Global) -> Result<bool, AllocError>
        ensures { IfOk result (λ found. found ≡ list_any has_twice self.now) }
    {
        some_has_twice(alloc, self.lists.as_slice())
    }

    /// Whether one of them has more entries than a list may have.
    pub(crate) fn has_long(&self) -> bool
        ensures { result ≡ list_any is_long self.now }
    {
        some_is_long(self.lists.as_slice())
    }
}

/// Whether a name occurs twice in one of some lists.
fn some_has_twice(alloc: Global, lists: &[Vec<&[u8]>]) -> Result<bool, AllocError>
    ensures { IfOk result (λ found. found ≡ list_any has_twice (map (λ names. map (λ n. n.now) names.items) lists.now)) }
{
    for names in lists {
        if has_twice(alloc, names.as_slice())? {
            return Ok(true);
        }
    }
    Ok(false)
}

/// Whether one of some lists has too many entries.
fn some_is_long(lists: &[Vec<&[u8]>]) -> bool
    ensures { result ≡ list_any (λ names. is_long names.items) lists.now }
{
    lists.iter().any(|names| names.len() > LIST_LIMIT)
}
